//! Threads that run code: each processor is one, and all take their turns at one run.
//!
//! ```
//! let report = run(&rt, rt.alloc(), &code, &input, 4, 8, &NoGate)?;
//! ```
//!
//! What is proved: where `run` answers, the schedule that it gives, of that code, input and
//! numbers, leads to a state that has ended, and the answer is that state's; where it finds no
//! memory, the output is that of a state to which such a schedule leads; and where it is stuck such
//! a schedule leads to a state that hasn't ended and in which no processor has a step. Of
//! `run_unrecorded` the same is proved of some run of the machine in the place of a schedule. What
//! is not: that they return, that two threads work at once, and how fast they are.
#![tactic(auto)]

mod board;
mod call;
mod chunk;
mod desk;
mod dispatcher;
mod driven;
mod gate;
mod lengths;
mod report;
mod running;
mod runs;
mod telling;
mod turnstile;
mod work;

pub use gate::{Gate, NoGate};
pub use report::{Effort, Report, RunRefusal, StartFailure, Streamed};
pub use running::{run, run_onto, run_unrecorded};
