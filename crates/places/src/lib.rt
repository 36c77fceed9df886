//! Places in files, sources and runs, and texts as they can be shown. No clause says what they are,
//! and no answer rests on them.
#![tactic(auto)]

mod beyond;
mod early;
mod place;
mod visible;

pub use beyond::Beyond;
pub use early::early_use;
pub use place::{Place, line_at};
pub use visible::{Visible, VisibleLines};
