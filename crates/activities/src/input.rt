//! The input of a run.

ghost use Rattle.std.specs.Prelude.{◌≡◌, [], IfOk, OnErr};
ghost use Rattle.ast.specs.Input.{next_integer, records_of, taken};
ghost use Rattle.activities.specs.PartsView.{Took, TookValue, input_of};

use ast::Fault;
use bstr::{ByteSlice, Lines};
use std::alloc::{AllocError, Global};
use values::scan;

/// The records of an input that are left, and the integers of the last one taken.
#[derive(Drop)]
pub struct Input<'p> {
    alloc: Global,
    records: Lines<'p>,
    integers: Vec<i64>,
    /// How many of the integers were given.
    given: usize,
}

impl<'p> Input<'p> {
    /// An input of which nothing was read.
    pub fn new(alloc: Global, text: &'p [u8]) -> Input<'p>
        ensures { input_of result ≡ record { left = []; records = records_of text.now } }
    {
        Input {
            alloc,
            records: text.lines(),
            integers: Vec::new(alloc),
            given: 0,
        }
    }

    /// Takes a record; what is left of the last one is dropped. At a fault nothing has changed, as
    /// where memory is refused.
    ///
    /// # Errors
    ///
    /// `EndOfInput` where no record is left and `BadInput` where it isn't well formed.
    pub fn take(&mut self) -> Result<Result<(), Fault>, AllocError>
        ensures ok { IfOk result (λ r.
            Took r (taken (input_of self.old).records) (input_of self.old) (input_of self.new)) }
        ensures err { OnErr result (input_of self.new ≡ input_of self.old) }
    {
        let mut records = self.records.clone()?;
        let Some(text) = records.next() else {
            return Ok(Err(Fault::EndOfInput));
        };
        let mut integers = Vec::new(self.alloc);
        if !scan(text, &mut integers)? {
            return Ok(Err(Fault::BadInput));
        }
        self.records = records;
        self.integers = integers;
        self.given = 0;
        Ok(Ok(()))
    }

    /// Takes the next integer, from the first record that has one where none is left. At a fault
    /// nothing has changed, as where memory is refused.
    ///
    /// # Errors
    ///
    /// Those of `take`.
    pub fn take_value(&mut self) -> Result<Result<i64, Fault>, AllocError>
        ensures ok { IfOk result (λ r.
            TookValue r (next_integer (input_of self.old).left (input_of self.old).records)
            (input_of self.old) (input_of self.new)) }
        ensures err { OnErr result (input_of self.new ≡ input_of self.old) }
    {
        if self.given < self.integers.len() {
            let value = self.integers[self.given];
            self.given += 1;
            return Ok(Ok(value));
        }
        let mut records = self.records.clone()?;
        let mut integers = Vec::new(self.alloc);
        while integers.is_empty() {
            let Some(text) = records.next() else {
                return Ok(Err(Fault::EndOfInput));
            };
            if !scan(text, &mut integers)? {
                return Ok(Err(Fault::BadInput));
            }
        }
        let value = integers[0];
        self.records = records;
        self.integers = integers;
        self.given = 1;
        Ok(Ok(value))
    }

    /// Drops what is left of the record that was taken last.
    pub fn drop_rest(&mut self)
        ensures { input_of self.new ≡ record (input_of self.old) { left = [] } }
    {
        self.given = self.integers.len();
    }
}
