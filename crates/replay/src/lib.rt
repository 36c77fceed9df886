//! Runs of the machine that schedules describe, and the machine that keeps the schedule of what it
//! does.
#![tactic(auto)]

mod answering;
mod following;
pub mod laws;
mod legs;
mod making;
mod recording;
mod replaying;
mod stepped;
mod striding;
mod upgrading;
mod whole;

pub use activities::{Activities, Choice, Holder};
pub use answering::answer;
pub use following::{begun, make_at};
pub use legs::{Leg, Legs};
pub use replaying::replay;
pub use stepped::{CoreRefusal, HandIn, Stepped, Tally};
pub use upgrading::upgrade;
pub use whole::Core;
