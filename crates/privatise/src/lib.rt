//! Scalars of which each iteration of a loop may have one of its own.
#![tactic(auto)]

mod cells;
mod flow;
mod passing;
mod walk;

pub use flow::private_scalars;
