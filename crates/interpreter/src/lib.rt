//! The sequential run of a program: by its lowered code where it has any, and else by its tree.
#![tactic(auto)]

mod execute;
mod fast;
mod run;
mod run_end;

pub use run::{run_onto, run_seq};
pub use run_end::{RunEnd, RunFault};
