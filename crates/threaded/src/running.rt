//! Runs in threads, and what comes of them.

ghost use Rattle.std.specs.Prelude.{◌≡◌, ◌++◌, IfOk, IfErr, false, length, map};
ghost use Rattle.ast.specs.View.{cells, symbol as symbol_of};
ghost use Rattle.schedules.specs.Schedules.{SchedText};
ghost use Rattle.command_output.specs.Outcomes.{outcome_of};
ghost use Rattle.command_output.specs.Shown.{EndShown};
ghost use Rattle.command_output.specs.View.{rows_from};
ghost use Rattle.engines.specs.Engines.{LeavesReaders};
ghost use Rattle.threaded.specs.Running.{ComesOfCoded, IsGivenCode, IsRefusal, RunEnds, RunFails};
ghost use Rattle.threaded.specs.Running.{Running, Shows, WhereWanted};

use crate::figures::Figures;
use crate::ran::{Ran, Whole};
use ast::{Answer, End, Program};
use command_output::{EngineFault, Page, append_end, outcome, rows};
use engines::{Coded, Prepared, Wants, prepare, read_given};
use machine::Code;
use processors::{NoGate, Report, RunRefusal};
use replay::Tally;
use schedules::Schedule;
use std::alloc::{AllocError, Global};
use std::io::{Read, Write};
use std::sync::Wait;
use std::thread::Threads;

/// What follows the records of an answer.
fn last_lines(
    alloc: Global,
    program: &Program,
    answer: &Answer,
    store: bool,
) -> Result<Vec<u8>, AllocError>
    requires { length (cells answer.now.store) ≡ length program.now.symbols.items }
    ensures { IfOk result (λ last.
        EndShown store
        (rows_from (cells answer.now.store) 0 (map symbol_of program.now.symbols.items))
        answer.now.end last.items) }
{
    let mut last = Vec::new(alloc);
    let mut rows = rows(alloc, &program.symbols, &answer.store)?;
    append_end(&mut last, answer.end, &mut rows, store)?;
    Ok(last)
}

/// The text of a schedule, where it is wanted; the schedule itself is given up.
fn wanted_text(schedule: Schedule, wanted: bool) -> Result<Option<Vec<u8>>, AllocError>
    ensures { IfOk result (λ text. WhereWanted wanted text (SchedText schedule)) }
{
    if wanted {
        Ok(Some(schedule.text()?))
    } else {
        Ok(None)
    }
}

/// The page of a run that ended so: its records, and behind them what follows; the records alone
/// where there is no memory for that.
fn paged(output: Vec<u8>, last: &[u8], end: End) -> Result<Page, Vec<u8>>
    ensures text { IfOk result (λ page. page.text.items ≡ output.items ++ last.now) }
    ensures outcome { IfOk result (λ page. page.outcome ≡ outcome_of end) }
    ensures err { IfErr result (λ text. text.items ≡ output.items) }
{
    let mut text = output;
    match text.extend_from_slice(last) {
        Ok(()) => Ok(Page {
            text,
            outcome: outcome(end),
        }),
        Err(_) => Err(text),
    }
}

/// How many steps a run had, those aside that parked an activity or took up a parked one.
fn weighed(tally: Tally) -> u128 {
    tally.made.saturating_sub(tally.again)
}

/// How many steps code takes with one processor and one open iteration, where that is wanted.
fn alone<R: Threads + Wait + Sync>(
    rt: &R,
    alloc: Global,
    code: &Code,
    input: &[u8],
    wanted: bool,
) -> Option<u128> {
    if !wanted {
        return None;
    }
    match processors::run(rt, alloc, code, input, 1, 1, &NoGate) {
        Ok(report) => Some(weighed(report.tally)),
        Err(_) => None,
    }
}

/// What came of a run that has ended with this answer, beside the text of its schedule: its records
/// are there, also where there is no memory for the rest.
pub(crate) fn ended(
    alloc: Global,
    program: &Program,
    answer: Answer,
    schedule: Result<Option<Vec<u8>>, AllocError>,
    store: bool,
    figures: Option<Figures>,
) -> Ran
    requires { length (cells answer.store) ≡ length program.now.symbols.items }
    ensures { Shows store (map symbol_of program.now.symbols.items) answer schedule result }
{
    let last = last_lines(alloc, program, &answer, store);
    let Answer { output, end, .. } = answer;
    let (Ok(last), Ok(schedule)) = (last, schedule) else {
        return Ran::Memory(output);
    };
    match paged(output, &last, end) {
        Ok(page) => Ran::Whole(Whole {
            page,
            schedule,
            figures,
        }),
        Err(output) => Ran::Memory(output),
    }
}

/// What comes of a run that gives no answer.
pub(crate) fn unanswered(refusal: RunRefusal) -> Ran
    ensures { IsRefusal refusal result }
{
    match refusal {
        RunRefusal::Memory { output } => Ran::Memory(output),
        RunRefusal::OutOfRange => Ran::OutOfRange,
        RunRefusal::NotStarted(failure) => Ran::NotStarted(failure),
        RunRefusal::Stuck => Ran::Stuck,
    }
}

/// What comes of a run of code of which a schedule is kept.
fn run_recorded<R: Threads + Wait + Sync>(
    rt: &R,
    alloc: Global,
    coded: &Coded,
    input: &[u8],
    wants: Wants,
) -> Ran
    requires given { IsGivenCode coded.now }
    ensures { ComesOfCoded coded.now input.now wants result }
{
    let Wants {
        processors,
        slots,
        ..
    } = wants;
    match processors::run(rt, alloc, &coded.code, input, processors, slots, &NoGate) {
        Ok(
            Report {
                answer,
                schedule,
                efforts,
                tally,
                overlap,
            },
        ) => {
            let figures = wants.tally.then_some(Figures {
                efforts,
                overlap,
                made: tally.made,
                alone: alone(rt, alloc, &coded.code, input, wants.tally),
            });
            let text = wanted_text(schedule, wants.schedule);
            ended(alloc, &coded.program, answer, text, wants.store, figures)
        }
        Err(refusal) => unanswered(refusal),
    }
}

/// What comes of a run of code of which no schedule is wanted.
fn run_unrecorded<R: Threads + Wait + Sync>(
    rt: &R,
    alloc: Global,
    coded: &Coded,
    input: &[u8],
    wants: Wants,
) -> Ran
    requires given { IsGivenCode coded.now }
    requires unwanted { wants.schedule ≡ false }
    ensures { ComesOfCoded coded.now input.now wants result }
{
    let Wants {
        processors,
        slots,
        ..
    } = wants;
    match processors::run_unrecorded(rt, alloc, &coded.code, input, processors, slots, &NoGate) {
        Ok(answer) => ended(alloc, &coded.program, answer, Ok(None), wants.store, None),
        Err(refusal) => unanswered(refusal),
    }
}

/// What comes of a run of code. Its schedule is kept where it is wanted, or its figures are.
fn run_code<R: Threads + Wait + Sync>(
    rt: &R,
    alloc: Global,
    coded: &Coded,
    input: &[u8],
    wants: Wants,
) -> Ran
    requires given { IsGivenCode coded.now }
    ensures { ComesOfCoded coded.now input.now wants result }
{
    if wants.schedule || wants.tally {
        run_recorded(rt, alloc, coded, input, wants)
    } else {
        run_unrecorded(rt, alloc, coded, input, wants)
    }
}

/// What comes of a run of a source on an input.
pub fn run_texts<R: Threads + Wait + Sync>(
    rt: &R,
    alloc: Global,
    source: &[u8],
    input: &[u8],
    wants: Wants,
) -> Ran
    ensures { Running source.now input.now wants result }
{
    match prepare(alloc, source) {
        Ok(Prepared::Coded(coded)) => run_code(rt, alloc, &coded, input, wants),
        Ok(Prepared::Refused(page)) => Ran::Refused(page),
        Err(_) => Ran::Memory(Vec::new(alloc)),
    }
}

/// Runs a source on an input in threads, writes the text of the schedule to `schedule` where it is
/// wanted, and then to `out` the records and what follows them, and gives the exit status: 0, 1 for
/// a source that is refused, by its text or for its code, 2 for a fault. The input is read after
/// the source. Which processor does what is another matter at each call, and what is shown isn't.
///
/// # Errors
///
/// A fault of one of the readers, with nothing written; of one of the writers, with a beginning of
/// its text written and, where it is the schedule's, nothing to the other; of memory, with the
/// records written that had gone out; and with nothing written that the numbers of processors or of
/// open iterations are out of range, that a thread couldn't be started, or that the run couldn't go
/// on.
pub fn run<T: Threads + Wait + Sync, R: Read, I: Read, S: Write, W: Write>(
    rt: &T,
    alloc: Global,
    source: &mut R,
    input: &mut I,
    wants: Wants,
    schedule: &mut S,
    out: &mut W,
) -> Result<u8, EngineFault>
    ensures ok { IfOk result (RunEnds wants (R.remaining source.old) (I.remaining input.old)
        (S.contents schedule.old) (S.contents schedule.new) (W.contents out.old)
        (W.contents out.new)) }
    ensures err { IfErr result (RunFails wants (R.remaining source.old) (I.remaining input.old)
        (S.contents schedule.old) (S.contents schedule.new) (W.contents out.old)
        (W.contents out.new)) }
    ensures readers { IfErr result (λ fault.
        LeavesReaders fault (R.remaining source.new) (I.remaining input.old)
        (I.remaining input.new)) }
{
    let given = read_given(alloc, source, input)?;
    let ran = run_texts(rt, alloc, &given.source, &given.input, wants);
    let outcome = ran.write(schedule, out)?;
    Ok(outcome.status().number())
}
