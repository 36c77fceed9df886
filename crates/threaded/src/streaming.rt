//! Runs in threads whose records are written while they go on.

ghost use Rattle.std.specs.Prelude.{◌≡◌, IfOk, List, length, map, ℕ};
ghost use Rattle.ast.specs.Meaning.{seq};
ghost use Rattle.ast.specs.ProgramView.{program as program_of};
ghost use Rattle.ast.specs.View.{cells, symbol as symbol_of};
ghost use Rattle.threaded.specs.Running.{IsGivenCode};
ghost use Rattle.threaded.specs.Streaming.{ShowsCame, StreamsCode, StreamsRun, WritesRest};

use crate::nowhere::Nowhere;
use crate::ran::{Ran, write_output};
use crate::running::{ended, unanswered};
use ast::{Answer, Program};
use command_output::{EngineFault, Outcome, unshown};
use engines::{Coded, Prepared, Wants, prepare};
use processors::{NoGate, RunRefusal, Streamed};
use std::alloc::Global;
use std::io::Write;
use std::mem;
use std::sync::Wait;
use std::thread::Threads;

/// Writes what is shown of a run, but for so many bytes that were written while it went on.
fn write_rest<W: Write>(ran: &Ran, shown: usize, out: &mut W) -> Result<Outcome, EngineFault>
    ensures { WritesRest ran.now shown (W.contents out.old) (W.contents out.new) result }
{
    match ran {
        Ran::Refused(page) => page.write(out),
        Ran::Whole(whole) => whole.page.write_behind(shown, out),
        Ran::Memory(output) => write_output(out, unshown(output, shown)),
        Ran::OutOfRange => Err(EngineFault::OutOfRange),
        Ran::NotStarted(_) => Err(EngineFault::NotStarted),
        Ran::Stuck => Err(EngineFault::Stuck),
    }
}

/// What comes of a run without a schedule that has come to this.
fn ran_of(alloc: Global, program: &Program, came: Result<Answer, RunRefusal>, store: bool) -> Ran
    requires { IfOk came (λ a. length (cells a.store) ≡ length program.now.symbols.items) }
    ensures { ShowsCame store (map symbol_of program.now.symbols.items) came result }
{
    match came {
        Ok(answer) => ended(alloc, program, answer, Ok(None), store, None),
        Err(refusal) => unanswered(refusal),
    }
}

/// Runs code, and writes its records and what follows them.
fn stream_code<R: Threads + Wait + Sync, W: Write + Nowhere + Drop>(
    rt: &R,
    alloc: Global,
    coded: &Coded,
    input: &[u8],
    wants: Wants,
    most_waiting: usize,
    out: &mut W,
) -> Result<Outcome, EngineFault>
    ghost text: { List ℕ }
    requires given { IsGivenCode coded.now }
    requires prints { text ≡ (seq (program_of coded.now.program) input.now).output }
    ensures { StreamsCode (program_of coded.now.program) input.now wants
        (W.contents out.old) (W.contents out.new) result }
{
    let Wants {
        processors,
        slots,
        store,
        ..
    } = wants;
    let code = &coded.code;
    let writer = mem::replace(out, W::nowhere());
    let (writer, streamed) = processors::run_onto(
        rt,
        alloc,
        code,
        input,
        processors,
        slots,
        &NoGate,
        most_waiting,
        writer,
    );
    *out = writer;
    match streamed {
        Ok(Streamed { came, shown }) => {
            let ran = ran_of(alloc, &coded.program, came, store);
            write_rest(&ran, shown, out)
        }
        Err(error) => Err(EngineFault::Writing(error)),
    }
}

/// Runs a source on an input in threads, and writes its records and what follows them, as `seq`
/// does. Records are written while the program runs, as the first processor, which is the caller's
/// thread, is told of them; some `most_waiting` bytes may wait, and at 0 none. No schedule is kept,
/// whatever is wanted.
///
/// # Errors
///
/// A fault of the writer, with part of the text or a beginning of the records written; of memory,
/// with nothing or a beginning of the records written; and with nothing written that the numbers of
/// processors or of open iterations are out of range, or that a thread couldn't be started.
pub fn run_onto<R: Threads + Wait + Sync, W: Write + Nowhere + Drop>(
    rt: &R,
    alloc: Global,
    source: &[u8],
    input: &[u8],
    wants: Wants,
    most_waiting: usize,
    out: &mut W,
) -> Result<Outcome, EngineFault>
    ensures { StreamsRun source.now input.now wants
        (W.contents out.old) (W.contents out.new) result }
{
    match prepare(alloc, source) {
        Ok(Prepared::Coded(coded)) => {
            stream_code(rt, alloc, &coded, input, wants, most_waiting, out)
        }
        Ok(Prepared::Refused(page)) => page.write(out),
        Err(_) => Err(EngineFault::Memory),
    }
}
