//! What a run is given, and what is wanted of it.

ghost use Rattle.std.specs.Prelude.{◌≡◌, IfOk, IfErr, IsOkAnd, OnOk};
ghost use Rattle.std.specs.Io.KnownBytes.{IsAtEnd};
ghost use Rattle.command_output.specs.Outcomes.{of_input, of_source};
ghost use Rattle.command_output.specs.Reading.{AfterText, Gives, IsReading};
ghost use Rattle.engines.specs.Engines.{AfterGiven, LeavesReaders};

use command_output::{EngineFault, ReadFault, read_all};
use std::alloc::Global;
use std::io::Read;

/// How a program is to be run, and what is wanted beside its records.
#[derive(Clone, Copy)]
pub struct Wants {
    /// How many processors there are to be, 1 to 64.
    pub processors: u64,
    /// How many iterations may be open, 1 to 256.
    pub slots: u64,
    /// Whether the store is shown behind a run that comes to END.
    pub store: bool,
    /// Whether the schedule is written.
    pub schedule: bool,
    /// Whether it is told how the run went.
    pub tally: bool,
}

/// The texts of a source and an input.
#[derive(Drop)]
pub struct Given {
    pub source: Vec<u8>,
    pub input: Vec<u8>,
}

/// A source's text, with what was read of an input.
fn input_read(source: Vec<u8>, input: Result<Vec<u8>, ReadFault>) -> Result<Given, EngineFault>
    ensures { AfterText input of_input result (λ text. IsOkAnd result (λ given.
        (given.source.items ≡ source.items) × (given.input.items ≡ text))) }
{
    let input = input.map_err(EngineFault::of_input)?;
    Ok(Given { source, input })
}

/// What was read of a source: only where that succeeded is the input read.
fn source_read<I: Read>(
    alloc: Global,
    source: Result<Vec<u8>, ReadFault>,
    input: &mut I,
) -> Result<Given, EngineFault>
    ensures texts { AfterText source of_source result (λ text.
        AfterGiven text (I.remaining input.old) (I.remaining input.new) result) }
    ensures untouched { IfErr source (λ _. I.remaining input.new ≡ I.remaining input.old) }
{
    let source = source.map_err(EngineFault::of_source)?;
    let read = read_all(alloc, input);
    input_read(source, read)
}

/// The texts of a source and an input, the source read to its end before the input.
///
/// # Errors
///
/// A fault of one of the readers, the input untouched where it is the source's; or of memory.
pub fn read_given<R: Read, I: Read>(
    alloc: Global,
    source: &mut R,
    input: &mut I,
) -> Result<Given, EngineFault>
    ensures texts { IfOk result (λ given. Gives (R.remaining source.old) given.source.items
        × Gives (I.remaining input.old) given.input.items) }
    ensures ends { OnOk result (IsAtEnd (R.remaining source.new)
        × IsAtEnd (I.remaining input.new)) }
    ensures readers { IfErr result (λ fault. IsReading fault
        × LeavesReaders fault (R.remaining source.new) (I.remaining input.old)
        (I.remaining input.new)) }
{
    let read = read_all(alloc, source);
    source_read(alloc, read, input)
}
