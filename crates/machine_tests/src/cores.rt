//! Cores over code made by hand, driven to their end.

use crate::calls::{
    core_of, hand_in, parsed, replayed, step, text_of, text_of_schedule, upgraded, work_of,
};
use crate::endless::assembled;
use machine::{Act as Does, Code, Done};
use replay::{Core, CoreRefusal, HandIn, Stepped};
use schedules::{ReplayRefusal, Schedule};
use std::alloc::{AllocError, Global};
use std::process::Abort;
use std::test::Fail;

/// A loop over 1 and 2. An iteration begins at the last place.
const LOOP: [Does; 6] = [
    Does::Constant(1),
    Does::Constant(2),
    Does::Open(0),
    Does::Join,
    Does::Halt,
    Does::Retire(0),
];

/// Processor 0 hands in what local work stands next of a frame that it had. A stranger's is not
/// taken.
fn hands_in(core: &mut Core<'_>, done: Option<Done<'_>>) -> Result<(), AllocError> {
    let Some(done) = done else {
        return Ok(());
    };
    match hand_in(core, 0, done) {
        Err(HandIn::Memory) => Err(AllocError),
        _ => Ok(()),
    }
}

/// Processor 0 hands in the local work that stands next, if any does.
fn hands_in_next(core: &mut Core<'_>) -> Result<(), AllocError> {
    let done = work_of(core, 0, 8)?;
    hands_in(core, done)
}

/// Processor 0 hands in the same local work twice, if any stands next.
fn works(core: &mut Core<'_>) -> Result<(), AllocError> {
    let again = work_of(core, 0, 8)?;
    hands_in_next(core)?;
    hands_in(core, again)
}

/// Processor 0 does what it can, until the run ends, and hands in all local work twice.
fn drive(core: &mut Core<'_>) -> Result<(), AllocError> {
    for _ in 0..20 {
        if let Stepped::Idle = step(core, 0)? {
            works(core)?;
        }
    }
    Ok(())
}

/// The text of a run's schedule. With memory refused nothing has changed, and the run goes on.
fn text_of_run(rt: &impl Abort, core: &mut Core<'_>) -> Result<Vec<u8>, CoreRefusal> {
    if drive(core).is_err() {
        drive(core).expect(rt, "there is memory");
    }
    Ok(text_of(core)?)
}

fn run(rt: &(impl Abort + AllocGlobal), code: &Code) -> Result<Vec<u8>, CoreRefusal> {
    let mut core = core_of(rt.alloc(), code, b"", 1, 1)?;
    text_of_run(rt, &mut core)
}

/// Whether a run of code has this schedule.
fn has_schedule(
    rt: &(impl Abort + AllocGlobal),
    code: &Code,
    wanted: &[u8],
) -> Result<bool, CoreRefusal> {
    let text = run(rt, code)?;
    Ok(text.as_slice() == wanted)
}

/// The text of the upgrade of a schedule that leads to the end.
fn upgraded_text(
    alloc: Global,
    code: &Code,
    schedule: &Schedule,
) -> Result<Vec<u8>, ReplayRefusal> {
    let _ = replayed(alloc, code, b"", schedule)?;
    Ok(text_of_schedule(&upgraded(alloc, code, b"", schedule)?)?)
}

/// The text to which a text is upgraded.
fn upgrade_of(alloc: Global, code: &Code, text: &[u8]) -> Result<Vec<u8>, ReplayRefusal> {
    upgraded_text(alloc, code, &parsed(alloc, text)?)
}

/// Whether a schedule is upgraded to this one.
fn upgrades_to(
    alloc: Global,
    code: &Code,
    text: &[u8],
    wanted: &[u8],
) -> Result<bool, ReplayRefusal> {
    let upgrade = upgrade_of(alloc, code, text)?;
    Ok(upgrade.as_slice() == wanted)
}

/// The schedule of the run of a loop of two iterations.
const TEXT: &[u8] =
    b"DOACROSS SCHEDULE 2\n1 1\n0 M\n0 2\n0 0\n0 0\n0 T\n0 0\n0 T\n0 0\n0 M\n0 0\n0 0\n";

#[test]
fn want_of_memory_in_cores(rt: HostRuntime) -> Result<(), Fail> {
    let code = assembled(&rt, &LOOP)?;
    assert!(rt; has_schedule(&rt, &code, TEXT)?);
    assert!(rt; upgrades_to(rt.alloc(), &code, TEXT, TEXT)?);
    Ok(())
}

/// The schedule of a run that has only its end, in both versions.
const NAMED_END: &[u8] = b"DOACROSS SCHEDULE 2\n1 1\n0 M\n0 0\n";

const FIRST_END: &[u8] = b"DOACROSS SCHEDULE 1\n1 1\n0 0\n0 0\n";

#[test]
fn end_alone(rt: HostRuntime) -> Result<(), Fail> {
    let code = assembled(&rt, &[Does::Halt])?;
    assert!(rt; has_schedule(&rt, &code, NAMED_END)?);
    assert!(rt; upgrades_to(rt.alloc(), &code, FIRST_END, NAMED_END)?);
    Ok(())
}

/// Whether there is a core of so many processors and slots.
fn has_sizes(alloc: Global, code: &Code, p: u64, s: u64) -> Result<bool, AllocError> {
    match core_of(alloc, code, b"", p, s) {
        Ok(_) => Ok(true),
        Err(CoreRefusal::OutOfRange) => Ok(false),
        Err(CoreRefusal::Memory) => Err(AllocError),
    }
}

/// Numbers of processors and slots, and whether there is a core of so many.
const NUMBERS: [(u64, u64, bool); 5] = [
    (64, 256, true),
    (0, 1, false),
    (65, 1, false),
    (1, 0, false),
    (1, 257, false),
];

/// Whether there are cores of the sizes that there should be.
fn have_sizes(alloc: Global, code: &Code) -> Result<bool, AllocError> {
    for (p, s, wanted) in NUMBERS {
        if has_sizes(alloc, code, p, s)? != wanted {
            return Ok(false);
        }
    }
    Ok(true)
}

#[test]
fn sizes(rt: HostRuntime) -> Result<(), Fail> {
    let code = assembled(&rt, &LOOP)?;
    assert!(rt; have_sizes(rt.alloc(), &code)?);
    Ok(())
}
