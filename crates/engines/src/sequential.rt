//! Sequential runs, whose records are written while they run.

ghost use Rattle.std.specs.Prelude.{◌≡◌, IfOk, List, false, length, map, ℕ};
ghost use Rattle.ast.specs.ProgramView.{program as program_of};
ghost use Rattle.ast.specs.View.{cells, symbol as symbol_of};
ghost use Rattle.profile_check.specs.Reads.{Reads};
ghost use Rattle.command_output.specs.Outcomes.{outcome_of};
ghost use Rattle.command_output.specs.Shown.{EndShown, refused};
ghost use Rattle.command_output.specs.View.{rows_from};
ghost use Rattle.engines.specs.Engines.{FollowsRecords, Streaming, Works, engine_fault, wants_run};

use crate::note::Note;
use crate::verdict::{Verdict, judged};
use ast::{End, Fault, Line, Program, Rule, Store};
use command_output::{EngineFault, Outcome, Page, append_end, outcome, refused, rows};
use interpreter::{RunEnd, RunFault, run_onto};
use places::Beyond;
use std::alloc::{AllocError, Global};
use std::io::Write;

/// How many bytes of records may wait where nobody reads them.
const MOST_UNREAD: usize = 65_536;

/// What a run came to, and what the sequential run tells of its fault beside the line.
#[derive(Drop)]
pub struct Sequential {
    pub came: Result<Outcome, EngineFault>,
    pub note: Option<Note>,
    /// How many records of the input were left, where that is known.
    pub left: Option<usize>,
}

/// What is shown after the records of a run: at a fault or a STOP its line, and without either,
/// where it is wanted, the store.
#[tactic(auto, using(crate::proofs::Pages::extends_first))]
fn last_page(
    alloc: Global,
    program: &Program,
    ended: &RunEnd,
    store: bool,
) -> Result<Page, AllocError>
    requires { length (cells ended.now.store) ≡ length program.now.symbols.items }
    ensures outcome { IfOk result (λ page. page.outcome ≡ outcome_of ended.now.end) }
    ensures shown { IfOk result (λ page.
        EndShown store
        (rows_from (cells ended.now.store) 0 (map symbol_of program.now.symbols.items))
        ended.now.end page.text.items) }
{
    let mut text = Vec::new(alloc);
    let mut rows = rows(alloc, &program.symbols, &ended.store)?;
    append_end(&mut text, ended.end, &mut rows, store)?;
    Ok(Page {
        text,
        outcome: outcome(ended.end),
    })
}

/// The subscript that a run ended at, if it ended at one, as far as that can be told.
fn beyond(alloc: Global, program: &Program, store: &Store, end: End) -> Option<Beyond> {
    match end {
        End::Fault(Fault::Index, line) => Beyond::of(alloc, program, store, line),
        _ => None,
    }
}

/// What a run came to that had no end.
fn fault_of(fault: RunFault) -> EngineFault
    ensures { result ≡ engine_fault fault }
{
    match fault {
        RunFault::Memory => EngineFault::Memory,
        RunFault::Writing(error) => EngineFault::Writing(error),
    }
}

/// Writes what is shown after the records of a run.
fn follow<W: Write>(
    alloc: Global,
    program: &Program,
    ended: &RunEnd,
    store: bool,
    out: &mut W,
) -> Result<Outcome, EngineFault>
    requires { length (cells ended.now.store) ≡ length program.now.symbols.items }
    ensures { Works (FollowsRecords store (map symbol_of program.now.symbols.items) ended.now)
        (W.contents out.old) (W.contents out.new) result }
{
    let page = last_page(alloc, program, ended, store)?;
    page.write(out)
}

/// Runs a program on an input, and writes its records and what follows them.
#[tactic(auto, using(crate::proofs::Pages::streams_on, crate::proofs::Pages::streams_halted))]
fn run_program<W: Write>(
    alloc: Global,
    program: &Program,
    input: &[u8],
    store: bool,
    most: usize,
    out: &mut W,
) -> Sequential
    ensures { (source : List ℕ) → Reads source (program_of program.now)
        → Streaming store source input.now (W.contents out.old) (W.contents out.new) result.came }
{
    match run_onto(alloc, program, input, most, out) {
        Ok(ended) => Sequential {
            came: follow(alloc, program, &ended, store, out),
            note: beyond(alloc, program, &ended.store, ended.end).map(Note::Subscript),
            left: ended.left,
        },
        Err(fault) => Sequential {
            came: Err(fault_of(fault)),
            note: None,
            left: None,
        },
    }
}

/// Writes the line of a refusal.
fn refuse<W: Write>(
    alloc: Global,
    rule: Rule,
    line: Line,
    out: &mut W,
) -> Result<Outcome, EngineFault>
    ensures { Works (λ outcome text. (outcome ≡ Outcome.Refused rule line)
        × (text ≡ refused rule line)) (W.contents out.old) (W.contents out.new) result }
{
    let page = refused(alloc, rule, line)?;
    page.write(out)
}

/// Runs a text on an input, and writes its records and what follows them: at a fault or a STOP its
/// line, and without either, where `store` says so, the store. The records are written while the
/// program runs, whole records, of which `most` bytes may wait at most; at 0 each goes at once. It
/// comes to a fault of the writer, with part of the text or a beginning of the records written, or
/// of memory, with nothing or a beginning of the records written.
#[tactic(auto, using(crate::proofs::Pages::streams_refused))]
pub fn seq_noted<W: Write>(
    alloc: Global,
    source: &[u8],
    input: &[u8],
    store: bool,
    most: usize,
    out: &mut W,
) -> Sequential
    ensures { Streaming store source.now input.now (W.contents out.old) (W.contents out.new)
        result.came }
{
    match judged(alloc, source) {
        Ok(Verdict::Accepted(program)) => run_program(alloc, &program, input, store, most, out),
        Ok(Verdict::Refused { number, line }) => Sequential {
            came: refuse(alloc, number, line, out),
            note: None,
            left: None,
        },
        Err(_) => Sequential {
            came: Err(EngineFault::Memory),
            note: None,
            left: None,
        },
    }
}

/// As [`seq_noted`], without the note.
///
/// # Errors
///
/// A fault of the writer, with part of the text or a beginning of the records written; or of
/// memory, with nothing or a beginning of the records written.
pub fn seq_texts<W: Write>(
    alloc: Global,
    source: &[u8],
    input: &[u8],
    store: bool,
    most: usize,
    out: &mut W,
) -> Result<Outcome, EngineFault>
    ensures { Streaming store source.now input.now (W.contents out.old) (W.contents out.new)
        result }
{
    seq_noted(alloc, source, input, store, most, out).came
}

/// Whether the sequential run tells more of what a run came to than its line.
fn wants_run(came: &Result<Outcome, EngineFault>) -> bool
    ensures { result ≡ wants_run came.now }
{
    match came {
        Ok(Outcome::Faulted { fault, .. }) => match fault {
            Fault::Index | Fault::BadInput | Fault::EndOfInput => true,
            Fault::Overflow | Fault::ZeroDivisor | Fault::ZeroStep => false,
        },
        _ => false,
    }
}

/// What a run in threads, or a replay, of a text on an input came to, with what is known of its
/// fault beside the line. Of an INDEX and of a fault of the input the sequential run tells it,
/// which comes to the same one: so it is made, with its records onto `nowhere`, which is to show
/// nothing. That writer has the type of the one that `seq` has, since the run is compiled for each
/// type of writer, and is slower where there are two. Where memory is refused nothing is known.
pub fn known_of<W: Write>(
    alloc: Global,
    source: &[u8],
    input: &[u8],
    came: Result<Outcome, EngineFault>,
    nowhere: &mut W,
) -> Sequential
    ensures came { result.came ≡ came }
    ensures seldom { wants_run came ≡ false → W.contents nowhere.new ≡ W.contents nowhere.old }
{
    if !wants_run(&came) {
        return Sequential {
            came,
            note: None,
            left: None,
        };
    }
    let Sequential {
        came: _,
        note,
        left,
    } = seq_noted(alloc, source, input, false, MOST_UNREAD, nowhere);
    Sequential { came, note, left }
}
