//! Cores over the code of worked programs, which several drivers drive to their end: the answer is
//! the sequential one, whatever they do.

use crate::drivers::{Driver, drive};
use crate::sure::{answer_of, compiled, core_of, replay_of, sequential};
use crate::worked::{Worked, programs, same_answers, worked_out};
use ast::{Answer, End};
use machine::Code;
use replay::{Core, Tally};
use std::process::Abort;

static DRIVERS: [Driver; 3] = [Driver::Lowest, Driver::Highest, Driver::RoundRobin];

/// One to four processors, with one to four slots each.
pub static SIZES: [(u64, u64); 16] = [
    (1, 1),
    (1, 2),
    (1, 3),
    (1, 4),
    (2, 1),
    (2, 2),
    (2, 3),
    (2, 4),
    (3, 1),
    (3, 2),
    (3, 3),
    (3, 4),
    (4, 1),
    (4, 2),
    (4, 3),
    (4, 4),
];

/// A worked program with its code and its sequential answer.
#[derive(Drop)]
struct Case<'a> {
    row: &'a Worked,
    code: &'a Code,
    answer: &'a Answer,
}

/// How a core is driven.
#[derive(Clone, Copy)]
struct Way {
    processors: u64,
    slots: u64,
    driver: Driver,
    burst: u32,
}

/// Whether a run has ended with this answer, and so does the replay of its schedule, written and
/// read again.
pub fn is_answered(rt: &(impl Abort + AllocGlobal), core: &Core<'_>, answer: &Answer) -> bool {
    same_answers(core.code(), &answer_of(rt, core), answer)
        && same_answers(core.code(), &replay_of(rt, core), answer)
}

/// Whether a run of a source has ended with the sequential answer.
pub fn is_sequential(rt: &(impl Abort + AllocGlobal), core: &Core<'_>, source: &[u8]) -> bool {
    is_answered(rt, core, &sequential(rt, source, core.input()))
}

/// How many steps of a run neither parked an activity nor took up a parked one.
fn steps_once(tally: Tally) -> u128 {
    tally.made.wrapping_sub(tally.again)
}

/// Whether a run has made those steps of the run alone, and with all others no more than three
/// times as many.
fn is_bounded(tally: Tally, alone: u128) -> bool {
    steps_once(tally) == alone && tally.made <= alone.wrapping_mul(3)
}

/// The steps of a run that has ended with this answer.
fn tally_of(rt: &(impl Abort + AllocGlobal), core: &Core<'_>, answer: &Answer) -> Option<Tally> {
    if is_answered(rt, core, answer) {
        Some(core.tally())
    } else {
        None
    }
}

/// The steps of a run of a case, if it comes to the sequential answer.
fn driven(rt: &(impl Abort + AllocGlobal), case: &Case<'_>, way: Way) -> Option<Tally> {
    let (processors, slots) = (way.processors, way.slots);
    let mut core = core_of(rt, case.code, case.row.input, processors, slots);
    drive(rt, &mut core, way.driver, way.burst);
    tally_of(rt, &core, case.answer)
}

/// Whether a run comes to the sequential answer. One that comes to END has those steps of the run
/// alone.
fn is_as_alone(rt: &(impl Abort + AllocGlobal), case: &Case<'_>, way: Way, alone: u128) -> bool {
    match driven(rt, case, way) {
        Some(tally) => case.row.end != End::Done || is_bounded(tally, alone),
        None => false,
    }
}

/// The runs of a case with one to four processors and slots.
fn each_size(
    rt: &(impl Abort + AllocGlobal),
    case: &Case<'_>,
    driver: Driver,
    burst: u32,
    alone: u128,
) {
    for (processors, slots) in &SIZES {
        let way = Way {
            processors: *processors,
            slots: *slots,
            driver,
            burst,
        };
        assert!(*rt;
            is_as_alone(rt, case, way, alone),
            "{} {driver:?} p {processors}, s {slots}",
            case.row.name
        );
    }
}

/// The runs of a case under all drivers, in bursts of so many instructions.
fn each_driver(rt: &(impl Abort + AllocGlobal), case: &Case<'_>, burst: u32) {
    let way = Way {
        processors: 1,
        slots: 1,
        driver: Driver::Lowest,
        burst,
    };
    let alone = driven(rt, case, way).expect(rt, "the run alone has the sequential answer");
    for driver in &DRIVERS {
        each_size(rt, case, *driver, burst, steps_once(alone));
    }
}

/// The runs of a worked program, in bursts of so many instructions.
fn each_run(rt: &(impl Abort + AllocGlobal), row: &Worked, burst: u32) {
    let code = compiled(rt, row.source);
    let answer = worked_out(rt, row);
    let case = Case {
        row,
        code: &code,
        answer: &answer,
    };
    each_driver(rt, &case, burst);
}

/// The runs of all worked programs, in bursts of so many instructions.
fn each_program(rt: &(impl Abort + AllocGlobal), burst: u32) {
    for row in programs() {
        each_run(rt, row, burst);
    }
}

#[test]
fn bursts_of_1(rt: HostRuntime) {
    each_program(&rt, 1);
}

#[test]
fn bursts_of_2(rt: HostRuntime) {
    each_program(&rt, 2);
}

#[test]
fn bursts_of_3(rt: HostRuntime) {
    each_program(&rt, 3);
}

#[test]
fn bursts_of_5(rt: HostRuntime) {
    each_program(&rt, 5);
}

#[test]
fn bursts_of_8(rt: HostRuntime) {
    each_program(&rt, 8);
}

#[test]
fn bursts_of_1024(rt: HostRuntime) {
    each_program(&rt, 1_024);
}
