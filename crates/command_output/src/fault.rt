//! Faults of an engine.

use crate::status::Status;
use std::alloc::AllocError;
use std::io;
use thiserror::Error;

/// Why an engine gave no outcome.
#[derive(Debug, Drop, Error)]
pub enum EngineFault {
    /// The source's reader failed.
    #[error("reading the source failed: {0}")]
    Source(io::Error),
    /// The input's reader failed.
    #[error("reading the input failed: {0}")]
    Input(io::Error),
    /// The schedule's reader failed.
    #[error("reading the schedule failed: {0}")]
    Schedule(io::Error),
    /// The writer failed, or took no byte.
    #[error("writing failed: {0}")]
    Writing(io::Error),
    /// Memory was refused.
    #[error("out of memory")]
    Memory,
    /// 57: there aren't 1 to 64 processors and 1 to 256 open iterations.
    #[error("a run has 1 to 64 processors (-p) and 1 to 256 open iterations (-s)")]
    OutOfRange,
    /// 58: a thread couldn't be started.
    #[error("a thread couldn't be started")]
    NotStarted,
    /// 59: a run can't go on, and hasn't ended.
    #[error("the run can't go on")]
    Stuck,
}

/// Why the bytes of a reader weren't all read.
#[derive(Drop)]
pub enum ReadFault {
    /// The reader failed, also for want of memory of its own.
    Reader(io::Error),
    /// Memory for the bytes was refused.
    Memory,
}

impl From<AllocError> for ReadFault {
    ghost use Rattle.std.specs.Prelude.{◌≡◌};
    ghost use Rattle.command_output.specs.declared.fault.ReadFault.TheVariants.{Memory};

    ghost from_gives = { λ _ e. e ≡ Memory };

    fn from(_: AllocError) -> Self {
        ReadFault::Memory
    }
}

impl EngineFault {
    ghost use Rattle.std.specs.Prelude.{◌≡◌};
    ghost use Rattle.command_output.specs.Outcomes.{fault_status, of_input, of_schedule, of_source};

    /// What a failed read of the source comes to.
    pub fn of_source(fault: ReadFault) -> Self
        ensures { result ≡ of_source fault }
    {
        match fault {
            ReadFault::Reader(error) => EngineFault::Source(error),
            ReadFault::Memory => EngineFault::Memory,
        }
    }

    /// What a failed read of the input comes to.
    pub fn of_input(fault: ReadFault) -> Self
        ensures { result ≡ of_input fault }
    {
        match fault {
            ReadFault::Reader(error) => EngineFault::Input(error),
            ReadFault::Memory => EngineFault::Memory,
        }
    }

    /// What a failed read of the schedule comes to.
    pub fn of_schedule(fault: ReadFault) -> Self
        ensures { result ≡ of_schedule fault }
    {
        match fault {
            ReadFault::Reader(error) => EngineFault::Schedule(error),
            ReadFault::Memory => EngineFault::Memory,
        }
    }

    /// The exit status.
    pub fn status(&self) -> Status
        ensures { result ≡ fault_status self.now }
    {
        match self {
            EngineFault::Source(_)
            | EngineFault::Input(_)
            | EngineFault::Schedule(_)
            | EngineFault::Writing(_) => Status::FileFailed,
            EngineFault::OutOfRange => Status::WrongCommand,
            EngineFault::Memory | EngineFault::NotStarted | EngineFault::Stuck => Status::NoMemory,
        }
    }
}

impl From<AllocError> for EngineFault {
    ghost use Rattle.std.specs.Prelude.{◌≡◌};
    ghost use Rattle.command_output.specs.declared.fault.EngineFault.TheVariants.{Memory};

    ghost from_gives = { λ _ e. e ≡ Memory };

    fn from(_: AllocError) -> Self {
        EngineFault::Memory
    }
}
