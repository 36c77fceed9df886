//! How an engine's work on a source ended.

use crate::status::Status;
use ast::{Fault, Line, Rule};
use schedules::Flaw;

/// How an engine's work on a source ended. Lines are counted from 1; a refusal for what an empty
/// file lacks has line 0.
#[derive(Clone, Copy)]
pub enum Outcome {
    /// The source was accepted, and its run, if it was wanted, came to END or to a STOP.
    Completed,
    /// The source was refused by this rule, at this line.
    Refused { number: Rule, line: Line },
    /// The run faulted at this line.
    Faulted { fault: Fault, line: Line },
    /// The schedule was refused with this flaw, at this line of its own text.
    NoSchedule { number: Flaw, line: usize },
}

impl Outcome {
    ghost use Rattle.std.specs.Prelude.{◌≡◌};
    ghost use Rattle.command_output.specs.Outcomes.{status_of};

    /// The exit status.
    pub fn status(self) -> Status
        ensures { result ≡ status_of self }
    {
        match self {
            Outcome::Completed => Status::Done,
            Outcome::Refused { .. } => Status::SourceRefused,
            Outcome::Faulted { .. } => Status::Faulted,
            Outcome::NoSchedule { .. } => Status::ScheduleRefused,
        }
    }
}
