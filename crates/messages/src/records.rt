//! Where in its input a run came to a fault.

use ast::{Fault, Line};
use bstr::ByteSlice;
use command_output::{EngineFault, Outcome};
use places::{Place, Visible};
use std::fmt::{Display, Formatter, Result as FmtResult, Write};

/// The record at which a run came to BAD INPUT or END OF INPUT.
#[derive(Drop)]
pub struct LastRecord<'a> {
    /// The input's file, if one was named.
    file: Option<&'a str>,
    /// The record's line in the file, from 1; 0 where the input has none.
    line: Line,
    text: &'a [u8],
    says: &'static str,
}

impl<'a> LastRecord<'a> {
    /// The record that a run took last of the input of a file, which it left so many records of;
    /// none where the run came to no fault of its input, or it isn't known how many were left.
    pub fn of(
        file: Option<&'a str>,
        input: &'a [u8],
        came: &Result<Outcome, EngineFault>,
        left: Option<usize>,
    ) -> Option<Self> {
        let says = match came {
            Ok(
                Outcome::Faulted {
                    fault: Fault::BadInput,
                    ..
                },
            ) => "this record has something else than integers of 64 bits",
            Ok(
                Outcome::Faulted {
                    fault: Fault::EndOfInput,
                    ..
                },
            ) => "the input ends here",
            _ => return None,
        };
        let number = input.lines().count().saturating_sub(left?);
        let text = match number.checked_sub(1) {
            Some(before) => input.lines().nth(before).unwrap_or(b""),
            None => b"",
        };
        Some(LastRecord {
            file,
            line: Line::try_from(number).unwrap_or(Line::MAX),
            text,
            says,
        })
    }
}

impl<'a> Display for LastRecord<'a> {
    fn fmt<W: Write>(&self, f: &mut Formatter<W>) -> FmtResult {
        let Some(file) = self.file else {
            writeln!(f, "No file of an input is named, so the input is empty.")?;
            return writeln!(f, "Name one behind the source's; - is standard input.");
        };
        let line = self.line;
        writeln!(f, "{}{}", Place { file, line }, self.says)?;
        if line == 0 {
            return Ok(());
        }
        writeln!(f, "{}", Visible::new(self.text))
    }
}
