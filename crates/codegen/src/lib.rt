//! Code of programs.
#![tactic(auto)]

mod laws;
mod loops;
mod nodes;
mod opened;
mod plans;
mod programs;
mod ranges;
mod reports;
mod rooms;
mod skips;
mod statements;

pub use ast::Refusal as CompileRefusal;
pub use laws::{one_code, turns};
pub use programs::{Compiled, compile};
pub use reports::LoopReport;
