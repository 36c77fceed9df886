//! Runs whose processors choose what they take up: records that are held, work that comes too late,
//! and iterations that overtake others wherever they may.

use crate::calls::holds;
use crate::driven::{SIZES, is_answered, is_sequential};
use crate::iterations::is_left;
use crate::sure::{compiled, core_of, frame_of, pick, sequential, turn, work_of};
use crate::worked::{FAULTS, INDEX_ARRAY};
use ast::Answer;
use machine::{Act as Does, Code, Done, Frame};
use replay::{Choice, Core, HandIn, Stepped};
use std::process::Abort;

/// How many rounds of turns each of these runs ends within.
const ROUNDS: usize = 2_000;

/// Which iterations have printed.
type Printed = [bool; 4];

fn is_print(code: &Code, frame: &Frame) -> bool {
    match code.instructions.get(frame.place()) {
        Some(instruction) => matches!(instruction.act, Does::Print(_)),
        None => false,
    }
}

/// The iteration that processor `q` holds, if it holds one, and whether a record stands next there.
fn held_by(rt: &impl Abort, core: &Core<'_>, q: usize) -> (Option<u128>, bool) {
    match frame_of(rt, core, q) {
        Some(frame) => (frame.iteration(), is_print(core.code(), &frame)),
        None => (None, false),
    }
}

/// An idle processor takes up the first of these that it may: whether there was one.
fn takes(rt: &impl Abort, core: &mut Core<'_>, q: usize, choices: &[Choice]) -> bool {
    for choice in choices {
        if let Stepped::Went(_) = pick(rt, core, q, *choice) {
            return true;
        }
    }
    false
}

fn note(printed: &mut Printed, iteration: Option<u128>) {
    for (place, seen) in printed.iter_mut().enumerate() {
        if iteration == Some(place as u128) {
            *seen = true;
        }
    }
}

/// What a processor takes up that is to leave iteration 1 alone.
static OTHERS: [Choice; 5] = [
    Choice::Main,
    Choice::Iteration(0),
    Choice::Iteration(2),
    Choice::Iteration(3),
    Choice::Ticket,
];

/// A turn of processor `q`, which holds something, where that isn't iteration 1: whether it went.
fn goes_on(rt: &impl Abort, core: &mut Core<'_>, q: usize, printed: &mut Printed) -> bool {
    let (iteration, prints) = held_by(rt, core, q);
    if iteration == Some(1) {
        return false;
    }
    if prints {
        note(printed, iteration);
    }
    turn(rt, core, q, 1) != Stepped::Idle
}

/// A turn of processor `q` where it doesn't hold iteration 1: whether it went.
fn others_turn(rt: &impl Abort, core: &mut Core<'_>, q: usize, printed: &mut Printed) -> bool {
    if holds(core, q) {
        goes_on(rt, core, q, printed)
    } else {
        takes(rt, core, q, &OTHERS)
    }
}

/// Whether a processor that doesn't hold iteration 1 went.
fn another_went(rt: &impl Abort, core: &mut Core<'_>, printed: &mut Printed) -> bool {
    for q in 0..3 {
        if others_turn(rt, core, q, printed) {
            return true;
        }
    }
    false
}

/// A turn of the processor that holds iteration 1, or that could take it up.
fn first_goes(rt: &impl Abort, core: &mut Core<'_>) {
    for q in 0..3 {
        if holds(core, q) || takes(rt, core, q, &[Choice::Iteration(1)]) {
            turn(rt, core, q, 1);
            break;
        }
    }
}

/// Whether a run comes to where iterations 2 and 3 have printed and wait to retire. Iteration 1
/// moves only where no other activity can.
fn comes_to_hold(rt: &impl Abort, core: &mut Core<'_>) -> bool {
    let mut printed = [false; 4];
    for _ in 0..ROUNDS {
        if another_went(rt, core, &mut printed) {
            continue;
        }
        if printed[2] && printed[3] {
            return true;
        }
        first_goes(rt, core);
    }
    false
}

/// A core whose iterations 2 and 3 have printed, before iteration 1 goes on.
fn holding<'c>(rt: &(impl Abort + AllocGlobal), code: &'c Code) -> Core<'c> {
    let mut core = core_of(rt, code, b"", 3, 3);
    assert!(*rt; comes_to_hold(rt, &mut core));
    core
}

/// Neither record of iterations 2 and 3 has gone out while iteration 1 stands still.
fn has_one_record(rt: &(impl Abort + AllocGlobal), code: &Code) -> bool {
    let (output, _) = holding(rt, code).into_parts();
    output.as_slice() == b" 1\n".as_slice()
}

/// Turns of iteration 1 alone, until the end.
fn first_ends(rt: &impl Abort, core: &mut Core<'_>) {
    for _ in 0..ROUNDS {
        first_goes(rt, core);
    }
}

/// Whether neither record goes out at the fault of iteration 1.
fn has_no_more_records(rt: &(impl Abort + AllocGlobal), code: &Code) -> bool {
    let mut core = holding(rt, code);
    first_ends(rt, &mut core);
    is_sequential(rt, &core, FAULTS)
}

/// Turns of processor 0 until it holds iteration 1.
fn first_begun(rt: &impl Abort, core: &mut Core<'_>) {
    for _ in 0..ROUNDS {
        let (iteration, _) = held_by(rt, core, 0);
        if iteration == Some(1) {
            break;
        }
        turn(rt, core, 0, 1);
    }
}

/// Turns of both processors until local work of processor 1 stands next.
fn until_local(rt: &impl Abort, core: &mut Core<'_>) {
    for _ in 0..ROUNDS {
        if core.is_local(1) {
            break;
        }
        turn(rt, core, 0, 1);
        turn(rt, core, 1, 1);
    }
}

/// Local work of iteration 2, whose ticket processor 1 takes, while iteration 1 hasn't faulted.
fn late_work<'c>(rt: &impl Abort, core: &mut Core<'c>) -> Done<'c> {
    first_begun(rt, core);
    assert!(*rt; pick(rt, core, 1, Choice::Ticket) == Stepped::Went(Some(2)));
    until_local(rt, core);
    work_of(rt, core, 1, 8)
}

/// Turns of processor 0 until the end.
fn first_alone(rt: &impl Abort, core: &mut Core<'_>) {
    for _ in 0..ROUNDS {
        turn(rt, core, 0, 1);
    }
}

/// Whether work of iteration 2 that was done before iteration 1 faults isn't taken behind the end.
fn is_too_late(rt: &impl Abort, core: &mut Core<'_>) -> bool {
    let late = late_work(rt, core);
    first_alone(rt, core);
    is_left(core, 1, late, HandIn::Ended) && pick(rt, core, 0, Choice::Main) == Stepped::Ended
}

/// Whether work comes too late, and the answer is the sequential one all the same.
fn comes_too_late(rt: &(impl Abort + AllocGlobal), code: &Code) -> bool {
    let mut core = core_of(rt, code, b"", 2, 2);
    is_too_late(rt, &mut core) && is_sequential(rt, &core, FAULTS)
}

/// Records that are held where the iteration before them faults, and work behind the end.
#[test]
fn held_prints_and_late_work(rt: HostRuntime) {
    let code = compiled(&rt, FAULTS);
    assert!(rt; has_one_record(&rt, &code));
    assert!(rt; has_no_more_records(&rt, &code));
    assert!(rt; comes_too_late(&rt, &code));
}

/// What an idle processor takes up: the highest iteration that is ready, else a ticket, else main.
static HIGHEST_FIRST: [Choice; 8] = [
    Choice::Iteration(5),
    Choice::Iteration(4),
    Choice::Iteration(3),
    Choice::Iteration(2),
    Choice::Iteration(1),
    Choice::Iteration(0),
    Choice::Ticket,
    Choice::Main,
];

/// A turn of processor `q`. One that isn't there has none.
fn highest_turn(rt: &impl Abort, core: &mut Core<'_>, q: usize) {
    if holds(core, q) {
        turn(rt, core, q, 1);
    } else {
        takes(rt, core, q, &HIGHEST_FIRST);
    }
}

/// Turns of each processor until the end, the last one first.
fn highest_rounds(rt: &impl Abort, core: &mut Core<'_>) {
    for _ in 0..ROUNDS {
        highest_turn(rt, core, 3);
        highest_turn(rt, core, 2);
        highest_turn(rt, core, 1);
        highest_turn(rt, core, 0);
    }
}

/// Whether a run of so many processors and slots has this answer.
fn highest_first(
    rt: &(impl Abort + AllocGlobal),
    code: &Code,
    processors: u64,
    slots: u64,
    answer: &Answer,
) -> bool {
    let mut core = core_of(rt, code, b"", processors, slots);
    highest_rounds(rt, &mut core);
    is_answered(rt, &core, answer)
}

/// The runs of each number of processors and slots have this answer.
fn all_highest_first(rt: &(impl Abort + AllocGlobal), code: &Code, answer: &Answer) {
    for (processors, slots) in &SIZES {
        assert!(*rt;
            highest_first(rt, code, *processors, *slots, answer),
            "p {processors}, s {slots}"
        );
    }
}

#[test]
fn highest_ready_iteration_first(rt: HostRuntime) {
    let answer = sequential(&rt, INDEX_ARRAY, b"");
    assert!(rt; answer.output.as_slice() == b" 2 4 0\n".as_slice());
    all_highest_first(&rt, &compiled(&rt, INDEX_ARRAY), &answer);
}
