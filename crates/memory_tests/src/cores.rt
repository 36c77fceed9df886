//! Cores, of which any call may find no memory, and the schedules that they leave.

use crate::calls;
use crate::plans::is_planned;
use crate::programs::{is_answer, program_of};
use crate::rows::{AGAIN, OTHERWISE, Row, rows};
use ast::{Answer, Program, Refusal};
use codegen::{Compiled, LoopReport};
use machine::{Code, Done, Frame};
use replay::{Choice, Core, CoreRefusal, HandIn, Stepped, Tally};
use schedules::{ReplayRefusal, Schedule};
use std::alloc::{AllocError, Global};
use std::process::Abort;
use std::test::Fail;

/// How many rounds of turns each of these runs ends within.
const ROUNDS: usize = 2_000;

/// What can be seen of a core and of what one of its processors holds.
#[derive(Clone, Copy, PartialEq, Eq)]
struct Outside {
    entries: usize,
    tally: Tally,
    holds: bool,
    is_local: bool,
}

fn seen(core: &Core<'_>, q: usize) -> Outside {
    Outside {
        entries: core.schedule().len(),
        tally: core.tally(),
        holds: core.holds(q),
        is_local: core.is_local(q),
    }
}

/// A shared step of processor `q`.
fn step(rt: &impl Abort, core: &mut Core<'_>, q: usize) -> Stepped {
    let before = seen(core, q);
    match calls::step(core, q) {
        Ok(stepped) => stepped,
        Err(_) => {
            assert!(*rt; seen(core, q) == before);
            calls::step(core, q).expect(rt, AGAIN)
        }
    }
}

/// What comes where processor `q`, which holds nothing, takes this up.
fn pick(rt: &impl Abort, core: &mut Core<'_>, q: usize, choice: Choice) -> Stepped {
    let before = seen(core, q);
    match calls::pick(core, q, choice) {
        Ok(stepped) => stepped,
        Err(_) => {
            assert!(*rt; seen(core, q) == before);
            calls::pick(core, q, choice).expect(rt, AGAIN)
        }
    }
}

/// The frame of what processor `q` holds.
fn frame(rt: &impl Abort, core: &Core<'_>, q: usize) -> Option<Frame> {
    match calls::frame(core, q) {
        Ok(frame) => frame,
        Err(_) => calls::frame(core, q).expect(rt, AGAIN),
    }
}

fn copy(rt: &impl Abort, frame: &Frame) -> Frame {
    match calls::copy(frame) {
        Ok(copy) => copy,
        Err(_) => calls::copy(frame).expect(rt, AGAIN),
    }
}

/// Local work that leads from a frame, if any stands next.
fn worked<'c>(rt: &impl Abort, code: &'c Code, from: Frame) -> Option<Done<'c>> {
    let spare = copy(rt, &from);
    match calls::work(code, from) {
        Ok(done) => done,
        Err(_) => calls::work(code, spare).expect(rt, AGAIN),
    }
}

/// Processor `q` hands in the local work that leads from its frame again, for which there was no
/// memory.
fn hands_in_again(rt: &impl Abort, core: &mut Core<'_>, q: usize, from: Frame) {
    let anew = worked(rt, core.code(), from).expect(rt, "the work stands next");
    calls::hand_in(core, q, anew).expect(rt, AGAIN);
}

/// Whether a core takes local work of processor `q`; where it finds no memory for it nothing has
/// changed.
fn takes_in(rt: &impl Abort, core: &mut Core<'_>, q: usize, done: Done<'_>) -> bool {
    let before = seen(core, q);
    match calls::hand_in(core, q, done) {
        Err(HandIn::Memory) => {
            assert!(*rt; seen(core, q) == before);
            false
        }
        given => {
            given.expect(rt, OTHERWISE);
            true
        }
    }
}

/// Processor `q` hands in local work that leads from its frame.
fn gives(rt: &impl Abort, core: &mut Core<'_>, q: usize, done: Done<'_>, spare: Frame) {
    if !takes_in(rt, core, q, done) {
        hands_in_again(rt, core, q, spare);
    }
}

/// Processor `q` hands in local work that leads from its frame, if any stands next.
fn hands_in(rt: &impl Abort, core: &mut Core<'_>, q: usize, from: Frame) {
    let spare = copy(rt, &from);
    if let Some(done) = worked(rt, core.code(), from) {
        gives(rt, core, q, done, spare);
    }
}

/// What an idle processor takes up: the highest iteration that is ready, else a ticket, else main.
static HIGHEST_FIRST: [Choice; 12] = [
    Choice::Iteration(9),
    Choice::Iteration(8),
    Choice::Iteration(7),
    Choice::Iteration(6),
    Choice::Iteration(5),
    Choice::Iteration(4),
    Choice::Iteration(3),
    Choice::Iteration(2),
    Choice::Iteration(1),
    Choice::Iteration(0),
    Choice::Ticket,
    Choice::Main,
];

/// Who says what an idle processor takes up.
#[derive(Clone, Copy)]
enum Picker {
    Core,
    HighestFirst,
}

/// Processor `q`, which holds nothing, takes up the first of these that it may.
fn takes(rt: &impl Abort, core: &mut Core<'_>, q: usize) {
    for choice in &HIGHEST_FIRST {
        if let Stepped::Went(_) = pick(rt, core, q, *choice) {
            break;
        }
    }
}

/// Processor `q` makes a shared step, or hands in local work.
fn goes(rt: &impl Abort, core: &mut Core<'_>, q: usize) {
    if step(rt, core, q) != Stepped::Idle {
        return;
    }
    if let Some(from) = frame(rt, core, q) {
        hands_in(rt, core, q, from);
    }
}

/// A turn of processor `q`.
fn turn(rt: &impl Abort, core: &mut Core<'_>, q: usize, picker: Picker) {
    match (core.holds(q), picker) {
        (false, Picker::HighestFirst) => takes(rt, core, q),
        _ => goes(rt, core, q),
    }
}

/// A core of two processors, and of two iterations at once.
fn core_of<'c>(rt: &(impl Abort + AllocGlobal), code: &'c Code, input: &'c [u8]) -> Core<'c> {
    match calls::core_of(rt.alloc(), code, input) {
        Err(CoreRefusal::Memory) => calls::core_of(rt.alloc(), code, input).expect(rt, AGAIN),
        given => given.expect(rt, OTHERWISE),
    }
}

/// The turns of both processors until the end.
fn drive(rt: &impl Abort, core: &mut Core<'_>, picker: Picker) {
    for _ in 0..ROUNDS {
        turn(rt, core, 1, picker);
        turn(rt, core, 0, picker);
    }
}

/// The answer of a core whose run has ended.
fn answer_of(rt: &impl Abort, core: &Core<'_>) -> Answer {
    let answer = match calls::answer(core) {
        Ok(answer) => answer,
        Err(_) => calls::answer(core).expect(rt, AGAIN),
    };
    answer.expect(rt, "the run has ended")
}

fn copy_of(rt: &impl Abort, schedule: &Schedule) -> Schedule {
    match calls::copy_of(schedule) {
        Ok(copy) => copy,
        Err(_) => calls::copy_of(schedule).expect(rt, AGAIN),
    }
}

fn text_of(rt: &impl Abort, schedule: &Schedule) -> Vec<u8> {
    match calls::text(schedule) {
        Ok(text) => text,
        Err(_) => calls::text(schedule).expect(rt, AGAIN),
    }
}

fn parsed(rt: &(impl Abort + AllocGlobal), text: &[u8]) -> Schedule {
    match calls::parsed(rt.alloc(), text) {
        Err(ReplayRefusal::Memory) => calls::parsed(rt.alloc(), text).expect(rt, AGAIN),
        given => given.expect(rt, OTHERWISE),
    }
}

/// What a schedule leads to.
fn replayed(
    rt: &(impl Abort + AllocGlobal),
    code: &Code,
    input: &[u8],
    schedule: &Schedule,
) -> Answer {
    match calls::replayed(rt.alloc(), code, input, schedule) {
        Err(ReplayRefusal::Memory) => {
            calls::replayed(rt.alloc(), code, input, schedule).expect(rt, AGAIN)
        }
        given => given.expect(rt, OTHERWISE),
    }
}

fn upgraded(
    rt: &(impl Abort + AllocGlobal),
    code: &Code,
    input: &[u8],
    schedule: &Schedule,
) -> Schedule {
    match calls::upgraded(rt.alloc(), code, input, schedule) {
        Err(ReplayRefusal::Memory) => {
            calls::upgraded(rt.alloc(), code, input, schedule).expect(rt, AGAIN)
        }
        given => given.expect(rt, OTHERWISE),
    }
}

/// Whether a schedule leads to the row's answer, and is upgraded to this text.
fn leads(
    rt: &(impl Abort + AllocGlobal),
    code: &Code,
    row: &Row,
    schedule: &Schedule,
    text: &[u8],
) -> bool {
    is_answer(&replayed(rt, code, row.input, schedule), row)
        && text_of(rt, &upgraded(rt, code, row.input, schedule)).as_slice() == text
}

/// The schedule of a core, copied and written.
fn text_left(rt: &impl Abort, core: &Core<'_>) -> Vec<u8> {
    text_of(rt, &copy_of(rt, core.schedule()))
}

/// The code of a program, with the reports of its loops.
fn compiled(rt: &(impl Abort + AllocGlobal), program: &Program) -> Compiled {
    match calls::compiled(rt.alloc(), program) {
        Err(Refusal::Memory) => calls::compiled(rt.alloc(), program).expect(rt, AGAIN),
        given => given.expect(rt, OTHERWISE),
    }
}

/// Whether each loop has its plan.
fn are_reported(reports: &[LoopReport], row: &Row) -> bool {
    for (report, range) in reports.iter().zip(row.loops) {
        if report.line != range.first || !is_planned(&report.plan, range) {
            return false;
        }
    }
    reports.len() == row.loops.len()
}

/// The code of a row, each of whose loops has its plan.
pub fn code_of(rt: &(impl Abort + AllocGlobal), row: &Row) -> Code {
    let Compiled { code, reports } = compiled(rt, &program_of(rt, row));
    assert!(*rt; are_reported(&reports, row));
    code
}

/// Whether a letter stands before the name of what is picked, up to the end of the line.
fn is_letter(byte: u8) -> bool {
    matches!(byte, b'M' | b'T' | b'I')
}

/// What stands in place of a byte of a schedule in the first version: nothing behind a pick's
/// letter.
fn unnamed(byte: u8, is_named: bool) -> Option<u8> {
    if is_letter(byte) {
        Some(b'0')
    } else if is_named && byte != b'\n' {
        None
    } else {
        Some(byte)
    }
}

/// A schedule of the second version whose picks are the core's, in the first one.
fn in_first_version(alloc: Global, text: &[u8]) -> Result<Vec<u8>, AllocError> {
    let mut made = Vec::from_slice(alloc, b"DOACROSS SCHEDULE 1")?;
    let mut is_named = false;
    for byte in text.strip_prefix(b"DOACROSS SCHEDULE 2").unwrap_or(&[]) {
        if let Some(kept) = unnamed(*byte, is_named) {
            made.push(kept)?;
        }
        is_named = is_letter(*byte) || is_named && *byte != b'\n';
    }
    Ok(made)
}

/// The text of the schedule of a row's run, which has the row's answer. The schedule leads to it.
fn text_of_run(rt: &(impl Abort + AllocGlobal), code: &Code, row: &Row, picker: Picker) -> Vec<u8> {
    let mut core = core_of(rt, code, row.input);
    drive(rt, &mut core, picker);
    assert!(*rt; is_answer(&answer_of(rt, &core), row));
    let text = text_left(rt, &core);
    assert!(*rt; leads(rt, code, row, &parsed(rt, &text), &text));
    text
}

/// Whether the schedule of a row's run, without the names of what is picked, is upgraded to it.
fn has_steps(rt: &(impl Abort + AllocGlobal), code: &Code, row: &Row) -> Result<bool, AllocError> {
    let text = text_of_run(rt, code, row, Picker::Core);
    let unnamed = in_first_version(rt.alloc(), &text)?;
    Ok(leads(rt, code, row, &parsed(rt, &unnamed), &text))
}

#[test]
fn want_of_memory_in_steps(rt: HostRuntime) -> Result<(), Fail> {
    for row in rows() {
        assert!(rt; has_steps(&rt, &code_of(&rt, row), row)?);
    }
    Ok(())
}

#[test]
fn want_of_memory_in_picks(rt: HostRuntime) {
    for row in rows() {
        text_of_run(&rt, &code_of(&rt, row), row, Picker::HighestFirst);
    }
}
