//! How a run went.

use processors::Effort;

/// How a run went.
#[derive(Drop)]
pub struct Figures {
    /// What each processor did, from processor 0 on.
    pub efforts: Vec<Effort>,
    /// How many iterations were open at once, at most.
    pub overlap: u128,
    /// How many steps were made in all.
    pub made: u128,
    /// How many steps the program takes with one processor and one open iteration, those aside that
    /// park an activity or take up a parked one; nothing where there was no memory to count them.
    pub alone: Option<u128>,
}
