//! How the run of a whole program ended.

use ast::{End, Store};
use std::alloc::{AllocError, AllocFailed};
use std::io;

/// The end of a run, and the store there.
#[derive(Drop)]
pub struct RunEnd {
    pub end: End,
    pub store: Store,
    /// How many records of the input were left, where that is known. No promise rests on it.
    pub left: Option<usize>,
}

/// Why a run came to no end.
#[derive(Debug, Drop)]
pub enum RunFault {
    /// There was no memory.
    Memory,
    /// The writer failed, or took no byte.
    Writing(io::Error),
}

impl From<AllocError> for RunFault {
    ghost use Rattle.std.specs.Prelude.{◌≡◌};
    ghost use Rattle.interpreter.specs.declared.run_end.RunFault.TheVariants.{Memory};

    ghost from_gives = { λ _ fault. fault ≡ Memory };

    fn from(_: AllocError) -> RunFault {
        RunFault::Memory
    }
}

impl<T: Drop> From<AllocFailed<T>> for RunFault {
    ghost use Rattle.std.specs.Prelude.{◌≡◌};
    ghost use Rattle.interpreter.specs.declared.run_end.RunFault.TheVariants.{Memory};

    ghost from_gives = { λ _ fault. fault ≡ Memory };

    fn from(_: AllocFailed<T>) -> RunFault {
        RunFault::Memory
    }
}
