//! The loops of a program, each with its references and the scalars that it gives values.
#![tactic(auto)]

mod assigned;
mod collecting;
mod constants;
mod finding;
mod occurrence;
mod scalars;
mod tree;
mod whole;

pub use occurrence::Occurrence;
pub use scalars::{ScalarSet, Scalars};
pub use tree::{LoopTree, LoopView};
pub use whole::loops;
