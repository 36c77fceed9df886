//! Entries of a schedule, made one after another.

ghost use Rattle.std.specs.Prelude.{◌≡◌};
ghost use Rattle.machine.specs.CodeView.{code_of};

use machine::{Code, Work};
use replay::{Choice, Core, CoreRefusal, HandIn, Stepped};
use schedules::{Act, Entry};
use std::alloc::{AllocError, Global};

/// A core at the beginning of a run of so many processors with so many open iterations; `None`
/// where no core has so many.
pub fn new_core<'c>(
    alloc: Global,
    code: &'c Code,
    input: &'c [u8],
    processors: u64,
    slots: u64,
) -> Result<Option<Core<'c>>, AllocError> {
    match Core::new(alloc, code, input, processors, slots) {
        Ok(core) => Ok(Some(core)),
        Err(CoreRefusal::Memory) => Err(AllocError),
        Err(CoreRefusal::OutOfRange) => Ok(None),
    }
}

/// Processor `q` does local instructions that stand next in what it holds, at most so many, in this
/// room.
fn work_in(
    core: &mut Core<'_>,
    q: usize,
    count: u32,
    work: &mut Work<'_>,
) -> Result<Stepped, AllocError>
    requires own { code_of work.old.code.now ≡ core.old.code }
{
    if !core.load(q, work)? {
        return Ok(Stepped::Idle);
    }
    work.run(count)?;
    if work.made == 0 {
        return Ok(Stepped::Idle);
    }
    match core.hand_in_own(q, work) {
        Ok(()) => Ok(Stepped::Went(None)),
        Err(HandIn::Memory) => Err(AllocError),
        Err(_) => Ok(Stepped::Idle),
    }
}

/// Processor `q` does local instructions that stand next in what it holds, at most so many.
fn work(core: &mut Core<'_>, q: usize, count: u32) -> Result<Stepped, AllocError> {
    let mut room = core.work()?;
    work_in(core, q, count, &mut room)
}

/// Makes an entry of a schedule whose picks are named.
pub fn make(core: &mut Core<'_>, entry: Entry) -> Result<Stepped, AllocError> {
    let q = usize::from(entry.processor);
    match entry.act {
        Act::Work(count) => work(core, q, u32::from(count)),
        Act::Share => core.step(q),
        Act::PickMain => core.pick(q, Choice::Main),
        Act::PickIteration(number) => core.pick(q, Choice::Iteration(number)),
        Act::TakeTicket => core.pick(q, Choice::Ticket),
    }
}
