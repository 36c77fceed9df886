//! Calls of cores, of schedules and of local work. No test rests on what is proved of them, and so
//! these functions say nothing of it: it would be carried through each test that makes such a call.

use ast::Answer;
use machine::{Code, Done, Frame, stands_local};
use replay::{Choice, Core, CoreRefusal, HandIn, Stepped, replay, upgrade};
use schedules::{ReplayRefusal, Schedule};
use std::alloc::{AllocError, Global};

pub fn core_of<'c>(
    alloc: Global,
    code: &'c Code,
    input: &'c [u8],
    processors: u64,
    slots: u64,
) -> Result<Core<'c>, CoreRefusal> {
    Core::new(alloc, code, input, processors, slots)
}

pub fn step(core: &mut Core<'_>, q: usize) -> Result<Stepped, AllocError> {
    core.step(q)
}

pub fn pick(core: &mut Core<'_>, q: usize, choice: Choice) -> Result<Stepped, AllocError> {
    core.pick(q, choice)
}

pub fn holds(core: &Core<'_>, q: usize) -> bool {
    core.holds(q)
}

/// The frame of what processor `q` holds.
pub fn frame_of(core: &Core<'_>, q: usize) -> Result<Option<Frame>, AllocError> {
    core.frame(q)
}

/// Local instructions that stand next in a frame, so many at most, 1 to 1,024.
fn done_from<'c>(code: &'c Code, from: Frame, most: u32) -> Result<Option<Done<'c>>, AllocError> {
    if !stands_local(code, &from) || most < 1 || most > 1_024 {
        return Ok(None);
    }
    Ok(Some(Done::work(code, from, most)?))
}

/// Local instructions that stand next of what processor `q` holds.
pub fn work_of<'c>(core: &Core<'c>, q: usize, most: u32) -> Result<Option<Done<'c>>, AllocError> {
    match frame_of(core, q)? {
        Some(from) => done_from(core.code(), from, most),
        None => Ok(None),
    }
}

pub fn hand_in(core: &mut Core<'_>, q: usize, done: Done<'_>) -> Result<(), HandIn> {
    core.hand_in(q, done)
}

/// The answer, where the run has ended.
pub fn answer_of(core: &Core<'_>) -> Result<Option<Answer>, AllocError> {
    core.answer()
}

/// The text of the schedule of a core.
pub fn text_of(core: &Core<'_>) -> Result<Vec<u8>, AllocError> {
    core.schedule().text()
}

pub fn text_of_schedule(schedule: &Schedule) -> Result<Vec<u8>, AllocError> {
    schedule.text()
}

pub fn parsed(alloc: Global, text: &[u8]) -> Result<Schedule, ReplayRefusal> {
    Schedule::parse(alloc, text)
}

pub fn replayed(
    alloc: Global,
    code: &Code,
    input: &[u8],
    schedule: &Schedule,
) -> Result<Answer, ReplayRefusal> {
    replay(alloc, code, input, schedule)
}

pub fn upgraded(
    alloc: Global,
    code: &Code,
    input: &[u8],
    schedule: &Schedule,
) -> Result<Schedule, ReplayRefusal> {
    upgrade(alloc, code, input, schedule)
}

/// What the text of a schedule leads to.
pub fn replay_of_text(
    alloc: Global,
    code: &Code,
    input: &[u8],
    text: &[u8],
) -> Result<Answer, ReplayRefusal> {
    replayed(alloc, code, input, &parsed(alloc, text)?)
}

/// What the schedule of a core leads to, written and read again.
pub fn replay_of(alloc: Global, core: &Core<'_>) -> Result<Answer, ReplayRefusal> {
    replay_of_text(alloc, core.code(), core.input(), &text_of(core)?)
}
