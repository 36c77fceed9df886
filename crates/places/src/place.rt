//! Places in files.

use crate::visible::Visible;
use ast::Line;
use std::fmt::{Display, Formatter, Result as FmtResult, Write};

/// The number, from 1, of the line at a place, from 0.
pub fn line_at(place: usize) -> Line {
    Line::try_from(place.saturating_add(1)).unwrap_or(Line::MAX)
}

/// A line of a file, as it stands before what is said of it. Line 0 is none.
#[derive(Drop)]
pub struct Place<'a> {
    pub file: &'a str,
    pub line: Line,
}

impl<'a> Display for Place<'a> {
    fn fmt<W: Write>(&self, f: &mut Formatter<W>) -> FmtResult {
        write!(f, "{}:", Visible::new(self.file.as_bytes()))?;
        match self.line {
            0 => f.write_str(" "),
            line => write!(f, "{line}: "),
        }
    }
}
