//! The lines that show a state of a run: who holds what, where it stands, and who waits for what.
#![tactic(auto)]

mod blocks;
mod counts;
mod parked;
mod records;
mod standing;
mod states;

pub use blocks::{append_block, append_first};
