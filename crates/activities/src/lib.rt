//! What the machine's processors hold, and what each step does of it: turns, picks, parks, work
//! handed in.
#![tactic(auto)]

mod holding;
mod input;
mod kinds;
mod local_work;
mod main_turn;
mod parts;
mod picking;
mod printing;
mod proceeding;
mod sharing;
mod striding;
mod told;
mod turn;
mod values_at;

pub use holding::{Activities, Choice, Holder};
pub use input::Input;
pub use kinds::{Ahead, ahead_at};
pub use parts::{Iteration, Main, Shared, Until};
pub use picking::index_of;
pub use proceeding::Drafted;
