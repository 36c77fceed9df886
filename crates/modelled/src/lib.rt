//! The engine of `model`: what comes of a source and an input in model time, and how it is shown.
#![tactic(auto)]

mod heads;
mod lines;
mod modelling;

pub use model_time::Pace;
pub use modelling::{Timing, model_texts};
