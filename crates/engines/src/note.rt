//! What is known of a fault or of a refused schedule beside its line.

use places::Beyond;
use reasons::Met;
use std::fmt::{Display, Formatter, Result as FmtResult, Write};

/// What is known beside the line.
#[derive(Drop)]
pub enum Note {
    /// Which subscript an INDEX was of.
    Subscript(Beyond),
    /// What is in the way of a schedule.
    Met(Met),
}

impl Display for Note {
    fn fmt<W: Write>(&self, f: &mut Formatter<W>) -> FmtResult {
        match self {
            Note::Subscript(beyond) => write!(f, "{beyond}"),
            Note::Met(met) => write!(f, "{met}"),
        }
    }
}
