//! What standard error says of refusals, faults and runs, over what the engines found. No clause
//! says what that is, and no answer rests on it.
#![tactic(auto)]

mod figures;
mod further;
mod message;
mod records;

pub use figures::say_figures;
pub use further::tell_further;
pub use message::Message;
pub use records::LastRecord;
