//! The check of plans.
#![tactic(auto)]

mod advances;
mod bodies;
mod checking;
mod claims;
mod distinct;
mod entry;
mod events;
mod expressions;
mod fault;
mod fits;
mod given;
mod groups;
mod judge;
mod known;
mod law;
mod lists;
mod seen;
mod shown;
mod start;
mod statements;
mod terms;
mod walk;

pub use checking::check;
pub use fault::{Mistake, PlanFault};
pub use law::checked_is_good;
