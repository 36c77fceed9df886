//! What is counted of units of time.

ghost use Rattle.std.specs.Prelude.{◌≡◌};
ghost use Rattle.model_time.specs.Figures.{greater};

use crate::turned::{Left, Turned};
use activities::Choice;

/// What was counted of units of time. Each count stops at 2^64 - 1.
#[derive(Clone, Copy, Debug, PartialEq, Eq)]
pub struct Figures {
    /// How many units.
    pub time: u64,
    /// How many steps were made, those in `again` aside.
    pub steps: u64,
    /// How many steps parked an activity or took up a parked one.
    pub again: u64,
    /// In how many turns no step was made.
    pub waits: u64,
    /// How many iterations retired.
    pub retired: u64,
    /// How many iterations were open after a turn, at most.
    pub overlap: u128,
}

/// The greater one.
fn greater(a: u128, b: u128) -> u128
    ensures { result ≡ greater a b }
{
    if a < b { b } else { a }
}

impl Figures {
    ghost use Rattle.std.specs.Prelude.{◌≡◌};
    ghost use Rattle.model_time.specs.Figures.{counted, joined, no_figures, one_unit, sum, told};

    /// Nothing.
    pub(crate) fn none() -> Figures
        ensures { result ≡ no_figures }
    {
        Figures {
            time: 0,
            steps: 0,
            again: 0,
            waits: 0,
            retired: 0,
            overlap: 0,
        }
    }

    /// Of a unit of time in which no turn was made.
    pub(crate) fn unit() -> Figures
        ensures { result ≡ one_unit }
    {
        Figures {
            time: 1,
            ..Figures::none()
        }
    }

    /// With a step.
    fn with_step(self) -> Figures
        ensures { result ≡ record self { steps = sum self.steps 1 } }
    {
        Figures {
            steps: self.steps.saturating_add(1),
            ..self
        }
    }

    /// With a step that parked an activity or took up a parked one.
    fn with_again(self) -> Figures
        ensures { result ≡ record self { again = sum self.again 1 } }
    {
        Figures {
            again: self.again.saturating_add(1),
            ..self
        }
    }

    /// With a step by which an iteration retired.
    fn with_retired(self) -> Figures
        ensures { result ≡ record self { steps = sum self.steps 1; retired = sum self.retired 1 } }
    {
        Figures {
            steps: self.steps.saturating_add(1),
            retired: self.retired.saturating_add(1),
            ..self
        }
    }

    /// With a turn in which no step was made.
    fn with_wait(self) -> Figures
        ensures { result ≡ record self { waits = sum self.waits 1 } }
    {
        Figures {
            waits: self.waits.saturating_add(1),
            ..self
        }
    }

    /// With a turn of a processor.
    fn told(self, turned: Turned) -> Figures
        ensures { result ≡ told self turned }
    {
        match turned {
            Turned::Local | Turned::Shared(Left::Held) | Turned::Picked(Choice::Ticket) => {
                self.with_step()
            }
            Turned::Shared(Left::Retired) => self.with_retired(),
            Turned::Shared(Left::Parked) | Turned::Picked(_) => self.with_again(),
            Turned::Waited => self.with_wait(),
        }
    }

    /// With a turn of a processor, after which so many iterations are open.
    pub(crate) fn counted(self, turned: Turned, overlap: u128) -> Figures
        ensures { result ≡ counted self turned overlap }
    {
        Figures {
            overlap: greater(self.overlap, overlap),
            ..self.told(turned)
        }
    }

    /// With those of further units.
    pub(crate) fn joined(self, more: Figures) -> Figures
        ensures { result ≡ joined self more }
    {
        Figures {
            time: self.time.saturating_add(more.time),
            steps: self.steps.saturating_add(more.steps),
            again: self.again.saturating_add(more.again),
            waits: self.waits.saturating_add(more.waits),
            retired: self.retired.saturating_add(more.retired),
            overlap: greater(self.overlap, more.overlap),
        }
    }
}
