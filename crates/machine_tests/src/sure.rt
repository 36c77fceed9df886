//! The calls that end a test which finds no memory, or to which no answer comes where there has to
//! be one.

use crate::{calls, drivers, worked};
use ast::Answer;
use machine::{Code, Done, Frame};
use replay::{Choice, Core, Stepped};
use std::process::Abort;

/// What a panic says where a call gives nothing.
const GIVEN: &str = "there is memory for a call, and an answer";

/// The code of a source.
pub fn compiled(rt: &(impl Abort + AllocGlobal), source: &[u8]) -> Code {
    worked::compiled(rt.alloc(), source).expect(rt, GIVEN)
}

/// The sequential answer.
pub fn sequential(rt: &(impl Abort + AllocGlobal), source: &[u8], input: &[u8]) -> Answer {
    worked::sequential(rt.alloc(), source, input).expect(rt, GIVEN)
}

pub fn core_of<'c>(
    rt: &(impl Abort + AllocGlobal),
    code: &'c Code,
    input: &'c [u8],
    processors: u64,
    slots: u64,
) -> Core<'c> {
    calls::core_of(rt.alloc(), code, input, processors, slots).expect(rt, GIVEN)
}

pub fn step(rt: &impl Abort, core: &mut Core<'_>, q: usize) -> Stepped {
    calls::step(core, q).expect(rt, GIVEN)
}

pub fn pick(rt: &impl Abort, core: &mut Core<'_>, q: usize, choice: Choice) -> Stepped {
    calls::pick(core, q, choice).expect(rt, GIVEN)
}

/// A turn of processor `q`.
pub fn turn(rt: &impl Abort, core: &mut Core<'_>, q: usize, burst: u32) -> Stepped {
    drivers::turn(core, q, burst).expect(rt, GIVEN)
}

/// The frame of what processor `q` holds.
pub fn frame_of(rt: &impl Abort, core: &Core<'_>, q: usize) -> Option<Frame> {
    calls::frame_of(core, q).expect(rt, GIVEN)
}

/// Local work that stands next of what processor `q` holds.
fn some_work<'c>(core: &Core<'c>, q: usize, most: u32) -> Option<Done<'c>> {
    calls::work_of(core, q, most).ok()?
}

/// So many local instructions at most that stand next of what processor `q` holds.
pub fn work_of<'c>(rt: &impl Abort, core: &Core<'c>, q: usize, most: u32) -> Done<'c> {
    some_work(core, q, most).expect(rt, "a local instruction stands next")
}

/// The answer of a run, if it has ended.
fn some_answer(core: &Core<'_>) -> Option<Answer> {
    calls::answer_of(core).ok()?
}

/// The answer of a run that has ended.
pub fn answer_of(rt: &impl Abort, core: &Core<'_>) -> Answer {
    some_answer(core).expect(rt, "the run has ended")
}

/// What the schedule of a core leads to, written and read again.
pub fn replay_of(rt: &(impl Abort + AllocGlobal), core: &Core<'_>) -> Answer {
    calls::replay_of(rt.alloc(), core).expect(rt, GIVEN)
}
