//! The input of a run.

ghost use Rattle.std.specs.Prelude.{◌≡◌};
ghost use Rattle.ast.specs.Input.{next_integer, records_of, taken, well_formed, integers_of};
ghost use Rattle.tree_run.specs.Runs.{Gives, GivesInteger, left};

use crate::stop::Stop;
use ast::{Fault, Line};
use bstr::{ByteSlice, Lines};
use std::alloc::Global;
use values::scan;

/// The records of an input that are left, and the integers of the last one taken.
#[derive(Drop)]
pub struct Input<'p> {
    records: Lines<'p>,
    integers: Vec<i64>,
    /// How many of the integers were given.
    given: usize,
}

impl<'p> Input<'p> {
    /// An input of which nothing was read.
    pub fn new(alloc: Global, text: &'p [u8]) -> Input<'p>
        ensures { result.records ≡ records_of text.now }
    {
        Input {
            records: text.lines(),
            integers: Vec::new(alloc),
            given: 0,
        }
    }

    /// Puts the integers of a record in the place of the last one's.
    fn fill(&mut self, line: Line, text: &[u8]) -> Result<(), Stop>
        ensures filled { Gives result line (left self.new) (well_formed (integers_of text.now)) }
        ensures records { self.new.records ≡ self.old.records }
    {
        self.given = 0;
        if scan(text, &mut self.integers)? {
            Ok(())
        } else {
            Err(Stop::Fault(Fault::BadInput, line))
        }
    }

    /// Takes a record; what is left of the last one is dropped.
    ///
    /// # Errors
    ///
    /// At the line, `EndOfInput` where no record is left and `BadInput` where it isn't well formed.
    pub fn take(&mut self, line: Line) -> Result<(), Stop>
        ensures { Gives result line (left self.new, self.new.records) (taken self.old.records) }
    {
        match self.records.next() {
            None => Err(Stop::Fault(Fault::EndOfInput, line)),
            Some(record) => self.fill(line, record),
        }
    }

    /// How many records are left.
    pub fn left(self) -> usize {
        let mut count: usize = 0;
        for _ in self.records {
            count = count.saturating_add(1);
        }
        count
    }

    /// The next integer, from the first record that has one where none is left.
    ///
    /// # Errors
    ///
    /// Those of `take`.
    pub fn next(&mut self, line: Line) -> Result<i64, Stop>
        ensures { GivesInteger result line (left self.new) self.new.records
            (next_integer (left self.old) self.old.records) }
    {
        while self.given >= self.integers.len() {
            self.take(line)?;
        }
        let number = self.integers[self.given];
        self.given += 1;
        Ok(number)
    }
}
