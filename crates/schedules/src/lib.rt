//! Schedules: what each processor of a run did, turn by turn, as a list of entries and as a text.
#![tactic(auto)]

mod entry;
mod flaw;
mod number;
mod reading;
mod refusal;
mod schedule;
mod short;
mod writing;

pub use entry::{Act, Entry, Version};
pub use flaw::Flaw;
pub use reading::{FIRST_ENTRY_LINE, LONGEST_BURST, MOST_PROCESSORS, MOST_SLOTS};
pub use refusal::ReplayRefusal;
pub use schedule::Schedule;
