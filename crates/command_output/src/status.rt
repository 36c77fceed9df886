//! The statuses that the program exits with.

/// The status that the program exits with.
#[derive(Clone, Copy, Debug, PartialEq, Eq)]
pub enum Status {
    /// All is done; a run came to END or to a STOP.
    Done,
    /// The source is refused.
    SourceRefused,
    /// The run came to a fault.
    Faulted,
    /// The command line is at fault, or asks for what isn't there or may not be.
    WrongCommand,
    /// A file, or standard output, couldn't be read or written.
    FileFailed,
    /// Memory or a thread was refused, or a run couldn't go on.
    NoMemory,
    /// The schedule is refused.
    ScheduleRefused,
}

impl Status {
    ghost use Rattle.std.specs.Prelude.{◌≡◌};
    ghost use Rattle.command_output.specs.Status.{number_of};

    /// The number by which the status is known, 0 to 6.
    pub fn number(self) -> u8
        ensures { result ≡ number_of self }
    {
        match self {
            Status::Done => 0,
            Status::SourceRefused => 1,
            Status::Faulted => 2,
            Status::WrongCommand => 3,
            Status::FileFailed => 4,
            Status::NoMemory => 5,
            Status::ScheduleRefused => 6,
        }
    }
}
