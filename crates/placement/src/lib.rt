//! Plans of loops: where their iterations wait and tell.
#![tactic(auto)]

mod analysis;
mod counting;
mod hindering;
mod laws;
mod nested;
mod origins;
mod pairs;
mod placing;
mod planning;
mod spots;

pub use analysis::Kept;
pub use hindering::{first_read, first_shared, first_sources};
pub use laws::{accepted, kept, outermost};
pub use planning::{Placed, place, plan};
