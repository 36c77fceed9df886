//! Faults of a run, and how a run ends.

use crate::statement::Line;

/// What stops a run before its end.
#[derive(Clone, Copy, PartialEq, Eq)]
pub enum Fault {
    /// A result outside the 64-bit integers.
    Overflow,
    /// A subscript outside its bounds.
    Index,
    /// A divisor that is zero.
    ZeroDivisor,
    /// The step of a DO that is zero.
    ZeroStep,
    /// A READ without a record left.
    EndOfInput,
    /// A record of the input that isn't well formed.
    BadInput,
}

/// How a run ended.
#[derive(Clone, Copy, PartialEq, Eq)]
pub enum End {
    /// It came to END.
    Done,
    /// Its first fault, and the line of the statement that faulted.
    Fault(Fault, Line),
    /// A STOP before END, and its line.
    Stopped(Line),
}
