//! Records that are handed on to a writer.
#![tactic(auto)]

mod pending;

pub use pending::{Pending, hand_on, write_all};
