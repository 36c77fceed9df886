//! What ends a run early.

ghost use Rattle.std.specs.Prelude.{◌≡◌, alloc_error};
ghost use Rattle.tree_run.specs.declared.stop.Stop.TheVariants.{Memory};

use ast::{Fault, Line};
use std::alloc::{AllocError, AllocFailed};

/// Why a run goes no further.
#[derive(Drop)]
pub enum Stop {
    /// There was no memory.
    Memory(AllocError),
    /// The first fault, and the line of the statement that faulted.
    Fault(Fault, Line),
    /// A STOP before END, and its line.
    Stopped(Line),
}

impl From<AllocError> for Stop {
    ghost from_gives = { λ _ stop. stop ≡ Memory alloc_error };

    fn from(error: AllocError) -> Stop {
        Stop::Memory(error)
    }
}

impl<T: Drop> From<AllocFailed<T>> for Stop {
    ghost from_gives = { λ _ stop. stop ≡ Memory alloc_error };

    fn from(error: AllocFailed<T>) -> Stop {
        Stop::Memory(AllocError::from(error))
    }
}
