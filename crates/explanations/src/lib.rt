//! What the numbers of refusals, faults, schedules and reasons mean, at length, and how they are
//! written.
#![tactic(auto)]

pub mod explain;
mod fault;
mod number;

pub use fault::{fault_name, fault_number};
pub use number::append_number;
