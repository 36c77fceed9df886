//! The order of statements, their labels, DO ranges and IF blocks.
#![tactic(auto)]

mod gathered;
mod kinds;
mod opened;
mod span;
mod structure;
mod whole;

pub use span::{Blocks, Span};
pub use structure::Structure;
pub use whole::blocks;
