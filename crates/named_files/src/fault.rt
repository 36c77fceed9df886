//! Why the bytes of a file couldn't be had.

use command_output::{ReadFault, Status};
use std::io;
use thiserror::Error;

/// Why the bytes of a file couldn't be had.
#[derive(Debug, Drop, Error)]
pub enum FileFault {
    /// The file couldn't be opened, whatever the reason.
    #[error("opening failed: {0}")]
    Opening(io::Error),
    /// The file was opened, and reading it failed.
    #[error("reading failed: {0}")]
    Reading(io::Error),
    /// Memory for the bytes was refused.
    #[error("out of memory")]
    Memory,
}

impl FileFault {
    ghost use Rattle.std.specs.Prelude.{◌≡◌};
    ghost use Rattle.named_files.specs.Deeds.{file_status, of_read};

    /// What a failed read of an opened file comes to.
    pub fn of_read(fault: ReadFault) -> Self
        ensures { result ≡ of_read fault }
    {
        match fault {
            ReadFault::Reader(error) => FileFault::Reading(error),
            ReadFault::Memory => FileFault::Memory,
        }
    }

    /// The exit status.
    pub fn status(&self) -> Status
        ensures { result ≡ file_status self.now }
    {
        match self {
            FileFault::Opening(_) | FileFault::Reading(_) => Status::FileFailed,
            FileFault::Memory => Status::NoMemory,
        }
    }
}
