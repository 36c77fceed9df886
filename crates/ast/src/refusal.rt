//! Why a source text is not a program.

ghost use Rattle.std.specs.Prelude.{◌≡◌};
ghost use Rattle.ast.specs.declared.refusal.Refusal.TheVariants.{Memory};

use crate::rule::Rule;
use crate::statement::Line;
use std::alloc::{AllocError, AllocFailed};

/// Why a call that reads a source text, or a part of one, gives nothing.
#[derive(Clone, Copy, Debug, PartialEq, Eq)]
pub enum Refusal {
    /// There was no memory.
    Memory,
    /// The rule that the text breaks, and the line where it is broken, from 1. An empty text has no
    /// line; what it lacks is refused at line 0.
    Refused { number: Rule, line: Line },
}

impl From<AllocError> for Refusal {
    ghost from_gives = { λ _ refusal. refusal ≡ Memory };

    fn from(_error: AllocError) -> Refusal {
        Refusal::Memory
    }
}

impl<T: Drop> From<AllocFailed<T>> for Refusal {
    ghost from_gives = { λ _ refusal. refusal ≡ Memory };

    fn from(_error: AllocFailed<T>) -> Refusal {
        Refusal::Memory
    }
}
