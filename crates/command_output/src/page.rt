//! What is written of a refusal and of the end of a run.

ghost use Rattle.std.specs.Prelude.{◌≡◌, IfOk, OnOk, drop, map};
ghost use Rattle.command_output.specs.Outcomes.{outcome_of};
ghost use Rattle.command_output.specs.Shown.{EndShown, Extends, refused};
ghost use Rattle.command_output.specs.View.{row_view};

use crate::fault::EngineFault;
use crate::outcomes::Outcome;
use crate::row::Row;
use crate::shown::{append_fault, append_refused, append_stopped};
use crate::store::append_store;
use ast::{End, Line, Rule};
use record_writer::write_all;
use std::alloc::{AllocError, Global};
use std::io::Write;

/// The text that an engine writes, and its outcome.
#[derive(Drop)]
pub struct Page {
    pub text: Vec<u8>,
    pub outcome: Outcome,
}

/// What isn't shown yet of a text, of which so many bytes are.
pub fn unshown(text: &[u8], shown: usize) -> &[u8]
    ensures { result.now ≡ drop shown text.now }
{
    text.get(shown..).unwrap_or(&[])
}

/// The page of a source that is refused.
pub fn refused(alloc: Global, rule: Rule, line: Line) -> Result<Page, AllocError>
    ensures { IfOk result (λ page. (page.outcome ≡ Outcome.Refused rule line)
        × (page.text.items ≡ refused rule line)) }
{
    let mut text = Vec::new(alloc);
    append_refused(&mut text, rule, line)?;
    Ok(Page {
        text,
        outcome: Outcome::Refused { number: rule, line },
    })
}

/// The outcome of a run that ended so.
pub fn outcome(end: End) -> Outcome
    ensures { result ≡ outcome_of end }
{
    match end {
        End::Done | End::Stopped(_) => Outcome::Completed,
        End::Fault(fault, line) => Outcome::Faulted { fault, line },
    }
}

/// Appends what follows the records of a run that ended so: at a fault or a STOP its line, and
/// without either, where it is wanted, the store.
///
/// # Errors
///
/// `AllocError` where memory is refused; a part may have been appended then.
pub fn append_end(
    text: &mut Vec<u8>,
    end: End,
    rows: &mut [Row<'_>],
    store: bool,
) -> Result<(), AllocError>
    ensures { OnOk result (Extends (EndShown store (map row_view rows.old) end) text.old.items
        text.new.items) }
{
    match end {
        End::Fault(fault, line) => append_fault(text, fault, line),
        End::Stopped(line) => append_stopped(text, line),
        End::Done => append_wanted(text, rows, store),
    }
}

fn append_wanted(text: &mut Vec<u8>, rows: &mut [Row<'_>], store: bool) -> Result<(), AllocError>
    ensures { OnOk result (Extends (EndShown store (map row_view rows.old) End.Done) text.old.items
        text.new.items) }
{
    if store {
        append_store(text, rows)
    } else {
        Ok(())
    }
}

impl Page {
    ghost use Rattle.std.specs.Prelude.{◌≡◌, IfOk, IfErr, drop};
    ghost use Rattle.std.specs.Io.KnownBytes.{Appends};
    ghost use Rattle.record_writer.specs.Written.{AppendsPart};
    ghost use Rattle.command_output.specs.Outcomes.{IsWriting};

    /// Writes the text, and gives the outcome.
    ///
    /// # Errors
    ///
    /// `Writing` where the writer failed, with a beginning of the text written, not all of it.
    pub fn write<W: Write>(&self, writer: &mut W) -> Result<Outcome, EngineFault>
        ensures ok { IfOk result (λ outcome. (outcome ≡ self.now.outcome)
            × Appends (W.contents writer.old) (W.contents writer.new) self.now.text.items) }
        ensures err { IfErr result (λ fault. IsWriting fault
            × AppendsPart (W.contents writer.old) (W.contents writer.new) self.now.text.items) }
    {
        self.write_behind(0, writer)
    }

    /// Writes the text behind so many bytes of it, which were written before, and gives the
    /// outcome. The errors are those of [`Page::write`].
    pub fn write_behind<W: Write>(
        &self,
        shown: usize,
        writer: &mut W,
    ) -> Result<Outcome, EngineFault>
        ensures ok { IfOk result (λ outcome. (outcome ≡ self.now.outcome)
            × Appends (W.contents writer.old) (W.contents writer.new)
            (drop shown self.now.text.items)) }
        ensures err { IfErr result (λ fault. IsWriting fault
            × AppendsPart (W.contents writer.old) (W.contents writer.new)
            (drop shown self.now.text.items)) }
    {
        match write_all(writer, unshown(&self.text, shown)) {
            Ok(()) => Ok(self.outcome),
            Err(error) => Err(EngineFault::Writing(error)),
        }
    }
}
