//! Code of expressions.
#![tactic(auto)]

mod emitting;
mod places;
pub mod room;

pub use emitting::{emit, emit_place};
pub use places::{Places, short};
pub use room::{operands, operands_of_place};
