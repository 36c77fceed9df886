//! Runs in model time, on one thread: in each unit of time each processor makes one step, if it has
//! any, in the order of their numbers.
//!
//! ```
//! let pace = Pace { processors: 4, slots: 8, most: 100_000_000, schedule: false };
//! let timed = time(rt.alloc(), &code, &input, pace)?;
//! ```
//!
//! What is proved: what is counted is counted of so many units of time from the beginning, by the
//! definitions of turns and units; the answer is that of the state to which they lead, which is one
//! that a run of the machine leads to, and so does the schedule, where it is wanted; and a run that
//! hasn't ended has made as many steps as it was to make, or none is possible. What is not: that a
//! run is left as soon as it has made so many.
#![tactic(auto)]

mod clock;
mod figures;
mod pace;
mod record;
mod timed;
mod turned;

pub use figures::Figures;
pub use pace::Pace;
pub use timed::{Timed, time};
