//! Whole programs.

ghost use Rattle.std.specs.Prelude.{◌≡◌, IfOk};
ghost use Rattle.ast.specs.ProgramView.{program as program_of};
ghost use Rattle.tree_run.specs.Answers.{IsAnswer};
ghost use Rattle.interpreter.specs.Answers.{ended, HoldsValues, Streams};

use crate::fast::run_lowered;
use crate::run_end::{RunEnd, RunFault};
use ast::{Answer, End, Program};
use record_writer::write_all;
use std::alloc::{AllocError, Global};
use std::io::Write;
use tree_run::machine::Machine;
use tree_run::statements::exec_block;
use tree_run::stop::Stop;

/// How many bytes of records may wait where the output is kept.
const KEPT_AT_ONCE: usize = 65_536;

/// How a run ended whose statements answered so.
fn end_of(answered: Result<(), Stop>) -> Result<End, AllocError>
    ensures { result ≡ ended answered }
{
    match answered {
        Ok(()) => Ok(End::Done),
        Err(Stop::Fault(fault, line)) => Ok(End::Fault(fault, line)),
        Err(Stop::Stopped(line)) => Ok(End::Stopped(line)),
        Err(Stop::Memory(error)) => Err(error),
    }
}

/// Runs a program on an input by its tree.
fn run_tree(alloc: Global, program: &Program, input: &[u8]) -> Result<Answer, AllocError>
    ensures { IfOk result (IsAnswer (program_of program.now) input.now) }
{
    let mut machine = Machine::new(alloc, program, input)?;
    let answered = exec_block(&mut machine, &program.body);
    let end = end_of(answered)?;
    Ok(machine.into_answer(end))
}

/// Runs a program on an input by its tree; its records go onto the writer at the end.
fn run_plain<W: Write>(
    alloc: Global,
    program: &Program,
    input: &[u8],
    writer: &mut W,
) -> Result<RunEnd, RunFault>
    ensures { Streams (program_of program.now) input.now (W.contents writer.old)
        (W.contents writer.new) result }
{
    let answer = run_tree(alloc, program, input)?;
    match write_all(writer, &answer.output) {
        Ok(()) => Ok(RunEnd {
            end: answer.end,
            store: answer.store,
            left: None,
        }),
        Err(error) => Err(RunFault::Writing(error)),
    }
}

/// Runs a program on an input, one statement after another, from a store of zeros, and writes the
/// records that it prints while it runs: whole records, of which `most` bytes may wait at most
/// before they are handed on; at 0 each goes on at once.
///
/// The ending has the end of the run and the store there, also at a fault or a STOP.
///
/// # Errors
///
/// `RunFault::Memory` where memory is refused, and the writer's error where it fails or takes no
/// byte: a beginning of the records is written then.
pub fn run_onto<W: Write>(
    alloc: Global,
    program: &Program,
    input: &[u8],
    most: usize,
    writer: &mut W,
) -> Result<RunEnd, RunFault>
    ensures { Streams (program_of program.now) input.now (W.contents writer.old)
        (W.contents writer.new) result }
{
    match run_lowered(alloc, program, input, most, writer) {
        Some(came) => came,
        None => run_plain(alloc, program, input, writer),
    }
}

/// Runs a program on an input and keeps its records.
fn run(alloc: Global, program: &Program, input: &[u8]) -> Result<Answer, AllocError>
    ensures { IfOk result (IsAnswer (program_of program.now) input.now) }
{
    let mut output = Vec::new(alloc);
    match run_onto(alloc, program, input, KEPT_AT_ONCE, &mut output) {
        Ok(RunEnd { end, store, .. }) => Ok(Answer { output, store, end }),
        Err(_) => Err(AllocError),
    }
}

/// Runs a program on an input, one statement after another, from a store of zeros.
///
/// The answer has the records that it printed, its end, and the store at its end, also at a fault
/// or a STOP: the values of each name, in the order of the program's symbols, so that
/// `Store::value` of a name at a place is what the program's meaning leaves there.
///
/// # Errors
///
/// `AllocError` where memory is refused.
#[tactic(auto, using(crate::proofs::Held::values_held))]
pub fn run_seq(alloc: Global, program: &Program, input: &[u8]) -> Result<Answer, AllocError>
    ensures answer { IfOk result (IsAnswer (program_of program.now) input.now) }
    ensures values { IfOk result (HoldsValues (program_of program.now) input.now) }
{
    run(alloc, program, input)
}
