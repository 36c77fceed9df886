//! The engine of runs in threads: what comes of a source and an input, and how it is written.
#![tactic(auto)]

mod figures;
pub mod laws;
mod nowhere;
mod ran;
mod running;
mod streaming;

pub use figures::Figures;
pub use nowhere::Nowhere;
pub use ran::{Ran, Whole};
pub use running::{run, run_texts};
pub use streaming::run_onto;
