//! What came of a run, and how it is written.

ghost use Rattle.std.specs.Prelude.{Err, IfErr, OnOk};
ghost use Rattle.command_output.specs.Outcomes.{IsWriting};
ghost use Rattle.command_output.specs.declared.fault.EngineFault.TheVariants as faults;
ghost use Rattle.threaded.specs.Running.{Grows, GrowsPart, WritesText, text_of};

use crate::figures::Figures;
use command_output::{EngineFault, Outcome, Page};
use processors::StartFailure;
use record_writer::write_all;
use std::io::Write;

/// A run that came to its end.
#[derive(Drop)]
pub struct Whole {
    /// Its records and what follows them.
    pub page: Page,
    /// The text of its schedule, where that is wanted.
    pub schedule: Option<Vec<u8>>,
    /// How it went, where that is wanted.
    pub figures: Option<Figures>,
}

/// What came of a run.
#[derive(Drop)]
pub enum Ran {
    /// The source was refused, by its text or for its code.
    Refused(Page),
    /// It came to its end.
    Whole(Whole),
    /// There was no memory. These records had gone out by then.
    Memory(Vec<u8>),
    /// There aren't 1 to 64 processors and 1 to 256 open iterations.
    OutOfRange,
    /// A thread couldn't be started.
    NotStarted(StartFailure),
    /// The run couldn't go on, and hadn't ended.
    Stuck,
}

/// Writes a schedule's text, if there is one.
fn write_schedule<S: Write>(schedule: &mut S, text: &Option<Vec<u8>>) -> Result<(), EngineFault>
    ensures ok { OnOk result
        (Grows (text_of text.now) (S.contents schedule.old) (S.contents schedule.new)) }
    ensures err { IfErr result (λ fault. IsWriting fault
        × GrowsPart (text_of text.now) (S.contents schedule.old) (S.contents schedule.new)) }
{
    match text {
        Some(text) => write_all(schedule, text).map_err(EngineFault::Writing),
        None => Ok(()),
    }
}

/// Writes the records of a run that was given up.
pub(crate) fn write_output<W: Write>(out: &mut W, output: &[u8]) -> Result<Outcome, EngineFault>
    ensures { WritesText output.now (Err faults.Memory) (W.contents out.old) (W.contents out.new)
        result }
{
    match write_all(out, output) {
        Ok(()) => Err(EngineFault::Memory),
        Err(error) => Err(EngineFault::Writing(error)),
    }
}

impl Whole {
    ghost use Rattle.threaded.specs.Running.{WritesWhole};

    /// Writes the schedule's text, if it is wanted, and then the page.
    fn write<S: Write, W: Write>(
        &self,
        schedule: &mut S,
        out: &mut W,
    ) -> Result<Outcome, EngineFault>
        ensures { WritesWhole self.now (S.contents schedule.old) (S.contents schedule.new)
            (W.contents out.old) (W.contents out.new) result }
    {
        write_schedule(schedule, &self.schedule)?;
        self.page.write(out)
    }
}

impl Ran {
    ghost use Rattle.threaded.specs.Running.{WritesRan};

    /// Writes the text of the schedule to `schedule`, if there is one, and then to `out` what is
    /// shown.
    ///
    /// # Errors
    ///
    /// A fault of one of the writers, with a beginning of its text written and, where it is the
    /// schedule's, nothing to the other; want of memory, with the records written that had gone
    /// out; and with nothing written that there is no run.
    pub fn write<S: Write, W: Write>(
        &self,
        schedule: &mut S,
        out: &mut W,
    ) -> Result<Outcome, EngineFault>
        ensures { WritesRan self.now (S.contents schedule.old) (S.contents schedule.new)
            (W.contents out.old) (W.contents out.new) result }
    {
        match self {
            Ran::Refused(page) => page.write(out),
            Ran::Whole(whole) => whole.write(schedule, out),
            Ran::Memory(output) => write_output(out, output),
            Ran::OutOfRange => Err(EngineFault::OutOfRange),
            Ran::NotStarted(_) => Err(EngineFault::NotStarted),
            Ran::Stuck => Err(EngineFault::Stuck),
        }
    }
}
