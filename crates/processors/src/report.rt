//! What runs come to.

use ast::Answer;
use replay::Tally;
use schedules::Schedule;
use std::io::Error;
use std::thread::SpawnError;

/// What one processor of a run did.
#[derive(Clone, Copy, Default, PartialEq, Eq)]
pub struct Effort {
    /// How many steps it made, each local instruction, pick and other shared step being one.
    pub steps: u64,
    /// How often it found nothing to do, and slept.
    pub waits: u64,
}

/// What a run came to.
#[derive(Drop)]
pub struct Report {
    pub answer: Answer,
    /// What the processors did, turn by turn. Its replay is this run.
    pub schedule: Schedule,
    /// How many steps were made in all, and how many of them parked or took up a parked activity.
    pub tally: Tally,
    /// What each processor did, from processor 0 on.
    pub efforts: Vec<Effort>,
    /// How many iterations were open at once, at most.
    pub overlap: u128,
}

/// That a thread couldn't be started. It is made of the error of a start alone.
#[derive(Clone, Copy, Debug, PartialEq, Eq)]
pub struct StartFailure {
    made: (),
}

impl StartFailure {
    /// What the error of a start comes to.
    pub(crate) fn of<F>(_error: &SpawnError<F>) -> StartFailure {
        StartFailure { made: () }
    }
}

/// What came of a run whose records were handed on while it went on.
#[derive(Drop)]
pub struct Streamed {
    pub came: Result<Answer, RunRefusal>,
    /// How many bytes of its output were handed on.
    pub shown: usize,
}

/// Why the first processor left a run before its end.
#[derive(Drop)]
pub enum Broken {
    /// A thread couldn't be started.
    NotStarted(StartFailure),
    /// The writer of the records has failed.
    Writing(Error),
}

/// Why there is no report.
#[derive(Debug, Drop)]
pub enum RunRefusal {
    /// There was no memory. The output is what had gone out by then.
    Memory { output: Vec<u8> },
    /// There are not 1 to 64 processors and 1 to 256 open iterations.
    OutOfRange,
    /// A thread couldn't be started.
    NotStarted(StartFailure),
    /// The run hasn't ended, and no processor has a step.
    Stuck,
}

impl RunRefusal {
    ghost use Rattle.std.specs.Prelude.{◌≡◌};
    ghost use Rattle.processors.specs.Refused.{refusal_number};

    /// The number of the refusal, from 57 to 59; none where there was no memory.
    pub fn number(&self) -> Option<u8>
        ensures { result ≡ refusal_number self.now }
    {
        match self {
            RunRefusal::Memory { output: _ } => None,
            RunRefusal::OutOfRange => Some(57),
            RunRefusal::NotStarted(_) => Some(58),
            RunRefusal::Stuck => Some(59),
        }
    }
}
