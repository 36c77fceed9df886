//! Stretches: steps of an iteration that are made on guesses of what the store has, noted, and
//! later compared with the store and made there.
#![tactic(auto)]

mod comparing;
mod guesses;
mod mirror;
mod note;
mod reached;
mod stale;
mod storing;
mod stretch;

pub use comparing::make_all;
pub use guesses::Guesses;
pub use mirror::Mirror;
pub use note::Note;
pub use reached::{Reached, passes};
pub use stale::Stale;
pub use storing::stride_noting;
pub use stretch::Stretch;
