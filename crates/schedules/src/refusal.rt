//! Why a schedule is refused.

ghost use Rattle.std.specs.Prelude.{◌≡◌};
ghost use Rattle.schedules.specs.declared.refusal.ReplayRefusal.TheVariants.{Memory};

use crate::flaw::Flaw;
use std::alloc::{AllocError, AllocFailed};

/// Why a schedule can't be had or replayed.
#[derive(Clone, Copy, Debug, PartialEq, Eq)]
pub enum ReplayRefusal {
    /// There was no memory.
    Memory,
    /// What is wrong, and the line of the schedule's text where it shows, from 1.
    Refused { number: Flaw, line: usize },
}

impl From<AllocError> for ReplayRefusal {
    ghost from_gives = { λ _ refusal. refusal ≡ Memory };

    fn from(_error: AllocError) -> ReplayRefusal {
        ReplayRefusal::Memory
    }
}

impl<T: Drop> From<AllocFailed<T>> for ReplayRefusal {
    ghost from_gives = { λ _ refusal. refusal ≡ Memory };

    fn from(_error: AllocFailed<T>) -> ReplayRefusal {
        ReplayRefusal::Memory
    }
}
