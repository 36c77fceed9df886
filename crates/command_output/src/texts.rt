//! The texts that a replay takes, from readers.

ghost use Rattle.std.specs.Prelude.{◌≡◌, IfOk, IfErr, IsOkAnd, OnOk};
ghost use Rattle.std.specs.Io.KnownBytes.{IsAtEnd};
ghost use Rattle.command_output.specs.Outcomes.{of_input, of_schedule, of_source};
ghost use Rattle.command_output.specs.Reading.{AfterInput, AfterSource, AfterText, AreGiven};
ghost use Rattle.command_output.specs.Reading.{IsReading};
ghost use Rattle.command_output.specs.Reading.{LeavesThree};

use crate::fault::{EngineFault, ReadFault};
use crate::streams::read_all;
use std::alloc::Global;
use std::io::Read;

/// The texts that a replay takes.
#[derive(Drop)]
pub struct Texts {
    pub source: Vec<u8>,
    pub input: Vec<u8>,
    pub schedule: Vec<u8>,
}

/// A source's and an input's text, with what was read of a schedule.
fn schedule_read(
    source: Vec<u8>,
    input: Vec<u8>,
    schedule: Result<Vec<u8>, ReadFault>,
) -> Result<Texts, EngineFault>
    ensures { AfterText schedule of_schedule result (λ text. IsOkAnd result (λ texts.
        (texts.source.items ≡ source.items) × (texts.input.items ≡ input.items)
        × (texts.schedule.items ≡ text))) }
{
    let schedule = schedule.map_err(EngineFault::of_schedule)?;
    Ok(Texts {
        source,
        input,
        schedule,
    })
}

/// A source's text, with what was read of an input: only where that succeeded is the schedule read.
fn input_read<S: Read>(
    alloc: Global,
    source: Vec<u8>,
    input: Result<Vec<u8>, ReadFault>,
    schedule: &mut S,
) -> Result<Texts, EngineFault>
    ensures texts { AfterText input of_input result (λ given.
        AfterInput source.items given (S.remaining schedule.old) (S.remaining schedule.new)
        result) }
    ensures untouched { IfErr input (λ _. S.remaining schedule.new ≡ S.remaining schedule.old) }
{
    let input = input.map_err(EngineFault::of_input)?;
    let read = read_all(alloc, schedule);
    schedule_read(source, input, read)
}

/// What was read of a source: only where that succeeded are the others read.
fn source_read<I: Read, S: Read>(
    alloc: Global,
    source: Result<Vec<u8>, ReadFault>,
    input: &mut I,
    schedule: &mut S,
) -> Result<Texts, EngineFault>
    ensures texts { AfterText source of_source result (λ text.
        AfterSource text (I.remaining input.old) (I.remaining input.new)
        (S.remaining schedule.old) (S.remaining schedule.new) result) }
    ensures untouched { IfErr source (λ _. (I.remaining input.new ≡ I.remaining input.old)
        × (S.remaining schedule.new ≡ S.remaining schedule.old)) }
{
    let source = source.map_err(EngineFault::of_source)?;
    let read = read_all(alloc, input);
    input_read(alloc, source, read, schedule)
}

/// The texts of a source, an input and a schedule, read in this order, each to its end before the
/// next.
///
/// # Errors
///
/// A fault of one of the readers, those after it untouched; or of memory.
pub fn read_three<R: Read, I: Read, S: Read>(
    alloc: Global,
    source: &mut R,
    input: &mut I,
    schedule: &mut S,
) -> Result<Texts, EngineFault>
    ensures texts { IfOk result
        (AreGiven (R.remaining source.old) (I.remaining input.old) (S.remaining schedule.old)) }
    ensures ends { OnOk result (IsAtEnd (R.remaining source.new) × IsAtEnd (I.remaining input.new)
        × IsAtEnd (S.remaining schedule.new)) }
    ensures readers { IfErr result (λ fault. IsReading fault
        × LeavesThree fault (R.remaining source.new) (I.remaining input.old)
        (I.remaining input.new) (S.remaining schedule.old) (S.remaining schedule.new)) }
{
    let read = read_all(alloc, source);
    source_read(alloc, read, input, schedule)
}
