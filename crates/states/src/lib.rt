//! The engine of `replay --states`: the states of the run that a schedule describes, one a line.
#![tactic(auto)]

mod following;
mod stating;

pub use stating::state_texts;
