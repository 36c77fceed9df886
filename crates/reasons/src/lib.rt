//! Why a loop stays serial or its iterations wait, and what is in the way of a schedule, in words.
#![tactic(auto)]

mod amounts;
mod conditions;
mod course;
mod fixed;
mod gathered;
mod inner;
mod kinds;
mod making;
mod obstacles;
mod serial;
mod spelled;
mod unfinished;
mod waiting;

pub use obstacles::Met;
pub use serial::{Hindrance, hindrance_of, say_why_serial};
pub use waiting::{PairLines, Why, why_of};
