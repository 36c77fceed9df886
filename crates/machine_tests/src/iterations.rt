//! Open loops of code made by hand, with several iterations open at once.

use crate::calls::{hand_in, holds};
use crate::endless::{code_of, is_so, no_parts};
use crate::sure::{answer_of, core_of, pick, replay_of, turn, work_of};
use ast::{End, Fault, Line, Name, Operator, Store};
use machine::{Act as Does, Await, Axis, Code, Done, Instr, Loop, Parts, Piece, Variable};
use replay::{Choice, Core, HandIn, Stepped};
use std::alloc::{AllocError, Global};
use std::process::Abort;

/// How many rounds of turns each of these runs ends within.
const ROUNDS: usize = 300;

/// The dimension of A(0:4)
const ELEMENTS: Axis = Axis {
    lower: 0,
    width: 5,
    stride: 1,
};

/// Main opens the loop over 1 to 4, waits for its end, and prints K and I.
const MAIN: [Does; 8] = [
    Does::Constant(1),
    Does::Constant(4),
    Does::Open(0),
    Does::Join,
    Does::Load(2),
    Does::Load(0),
    Does::Print(0),
    Does::Halt,
];

/// A(I)=A(I-1)+1, one iteration after another.
const ELEMENT: [Does; 12] = [
    Does::Await(0),
    Does::Index,
    Does::Constant(1),
    Does::Binary(Operator::Subtract),
    Does::Check(0, ELEMENTS),
    Does::LoadElement(1),
    Does::Constant(1),
    Does::Binary(Operator::Add),
    Does::Index,
    Does::Check(0, ELEMENTS),
    Does::StoreElement(1),
    Does::Advance(1),
];

/// K=10*I and PRINT *,I, where each iteration has a K of its own.
const RECORD: [Does; 6] = [
    Does::Constant(10),
    Does::Index,
    Does::Binary(Operator::Multiply),
    Does::SetPrivate(0),
    Does::Index,
    Does::Print(1),
];

/// K=6/(3-I)
const QUOTIENT: [Does; 6] = [
    Does::Constant(6),
    Does::Constant(3),
    Does::Index,
    Does::Binary(Operator::Subtract),
    Does::Binary(Operator::Divide),
    Does::SetPrivate(0),
];

/// IF (I.EQ.3) STOP
const STOP: [Does; 5] = [
    Does::Index,
    Does::Constant(3),
    Does::Binary(Operator::Equal),
    Does::SkipUnless(1),
    Does::Stop,
];

const I: Name = Name {
    letters: [b'I', b' ', b' ', b' ', b' ', b' '],
};

const A: Name = Name {
    letters: [b'A', b' ', b' ', b' ', b' ', b' '],
};

const K: Name = Name {
    letters: [b'K', b' ', b' ', b' ', b' ', b' '],
};

/// I, A(0:4) and K, in one vector of cells.
static VARIABLES: [Variable; 3] = [
    Variable {
        name: I,
        start: 0,
        size: 1,
    },
    Variable {
        name: A,
        start: 1,
        size: 5,
    },
    Variable {
        name: K,
        start: 6,
        size: 1,
    },
];

/// Adds the variables.
fn add_variables(parts: &mut Parts) -> Result<(), AllocError> {
    for variable in &VARIABLES {
        parts.variables.push(*variable)?;
    }
    Ok(())
}

/// Adds instructions.
fn add(parts: &mut Parts, acts: &[Does]) -> Result<(), AllocError> {
    for act in acts {
        parts.instructions.push(Instr { line: 0, act: *act })?;
    }
    Ok(())
}

/// Adds the instructions of an iteration, piece by piece.
fn add_body(parts: &mut Parts, body: &[&[Does]]) -> Result<(), AllocError> {
    for piece in body {
        add(parts, piece)?;
    }
    add(parts, &[Does::Retire(0)])
}

/// The line of each instruction is its place.
fn number(instructions: &mut [Instr]) {
    let mut line: Line = 0;
    for instruction in instructions {
        instruction.line = line;
        line = line.wrapping_add(1);
    }
}

/// A record of so many operands.
fn record(alloc: Global, operands: usize) -> Result<Vec<Piece>, AllocError> {
    let mut pieces = Vec::new(alloc);
    for _ in 0..operands {
        pieces.push(Piece::Operand)?;
    }
    Ok(pieces)
}

/// Adds a record of so many operands.
fn add_record(parts: &mut Parts, alloc: Global, operands: usize) -> Result<(), AllocError> {
    let pieces = record(alloc, operands)?;
    parts.records.push(pieces)?;
    Ok(())
}

/// Adds an await of the event one iteration back.
fn add_await(parts: &mut Parts) -> Result<(), AllocError> {
    parts.awaits.push(Await {
        event: 1,
        distance: 1,
    })?;
    Ok(())
}

/// The place of K, which is private.
fn own_k(alloc: Global) -> Result<Vec<u32>, AllocError> {
    let mut privates = Vec::new(alloc);
    privates.push(2)?;
    Ok(privates)
}

/// Adds a loop whose iterations begin at a place, whose step is 1 and whose K is private.
fn add_loop(parts: &mut Parts, alloc: Global, body: usize) -> Result<(), AllocError> {
    let privates = own_k(alloc)?;
    parts.loops.push(Loop {
        body,
        variable: 0,
        step: 1,
        privates,
    })?;
    Ok(())
}

/// Adds two records, an await and a loop whose iterations begin at a place.
fn add_tables(parts: &mut Parts, alloc: Global, body: usize) -> Result<(), AllocError> {
    add_record(parts, alloc, 2)?;
    add_record(parts, alloc, 1)?;
    add_await(parts)?;
    add_loop(parts, alloc, body)
}

/// Adds main and an iteration of its loop.
fn add_all(
    parts: &mut Parts,
    alloc: Global,
    main: &[Does],
    body: &[&[Does]],
) -> Result<(), AllocError> {
    add(parts, main)?;
    add_body(parts, body)?;
    number(&mut parts.instructions);
    add_variables(parts)?;
    add_tables(parts, alloc, main.len())
}

/// The code of main and of an iteration of its loop, if there is memory for its parts.
fn try_assembled(
    rt: &(impl Abort + AllocGlobal),
    main: &[Does],
    body: &[&[Does]],
) -> Result<Code, AllocError> {
    let mut parts = no_parts(rt.alloc(), 4);
    add_all(&mut parts, rt.alloc(), main, body)?;
    code_of(rt, parts)
}

/// The code of main and of an iteration of its loop.
fn assembled(rt: &(impl Abort + AllocGlobal), main: &[Does], body: &[&[Does]]) -> Code {
    try_assembled(rt, main, body).expect(rt, "there is memory for code")
}

/// The core of a run in which each processor has its turn until the end, the last one first.
fn driven<'c>(rt: &(impl Abort + AllocGlobal), code: &'c Code, slots: u64, burst: u32) -> Core<'c> {
    let mut core = core_of(rt, code, b"", 3, slots);
    for _ in 0..ROUNDS {
        turn(rt, &mut core, 2, burst);
        turn(rt, &mut core, 1, burst);
        turn(rt, &mut core, 0, burst);
    }
    core
}

/// Whether a run has ended so, and so does the replay of its schedule, written and read again.
fn ends_so(rt: &(impl Abort + AllocGlobal), core: &Core<'_>, output: &[u8], end: End) -> bool {
    is_so(&answer_of(rt, core), output, end) && is_so(&replay_of(rt, core), output, end)
}

/// Slots and bursts.
static WAYS: [(u64, u32); 9] = [
    (1, 1),
    (1, 3),
    (1, 1_024),
    (2, 1),
    (2, 3),
    (2, 1_024),
    (4, 1),
    (4, 3),
    (4, 1_024),
];

/// How each run of a code ends, whatever its slots and bursts.
fn each_ends(rt: &(impl Abort + AllocGlobal), code: &Code, output: &[u8], end: End) {
    for (slots, burst) in &WAYS {
        let core = driven(rt, code, *slots, *burst);
        assert!(*rt;
            ends_so(rt, &core, output, end),
            "{slots} slots, bursts of {burst}"
        );
    }
}

/// What is stored behind the end of the loop.
static STORED: [(Name, usize, i64); 5] = [(A, 0, 0), (A, 1, 1), (A, 4, 4), (K, 0, 40), (I, 0, 5)];

fn is_stored(store: &Store) -> bool {
    for (name, place, value) in &STORED {
        if store.value(*name, *place) != Some(*value) {
            return false;
        }
    }
    true
}

/// Whether a run of a code ends with what is to be stored.
fn stores_all(rt: &(impl Abort + AllocGlobal), code: &Code) -> bool {
    let core = driven(rt, code, 3, 1);
    is_stored(&answer_of(rt, &core).store)
}

#[test]
fn elements_and_records_in_order(rt: HostRuntime) {
    let code = assembled(&rt, &MAIN, &[&ELEMENT, &RECORD]);
    each_ends(&rt, &code, b" 1\n 2\n 3\n 4\n 40 5\n", End::Done);
    assert!(rt; stores_all(&rt, &code));
}

/// A loop whose variable grows out of 64 bits after the last trip.
const TO_THE_GREATEST: [Does; 5] = [
    Does::Constant(9_223_372_036_854_775_806),
    Does::Constant(9_223_372_036_854_775_807),
    Does::Open(0),
    Does::Join,
    Does::Halt,
];

/// Code of main and of an iteration of its loop, with the records and the end of its runs.
struct Ending {
    main: &'static [Does],
    body: &'static [&'static [Does]],
    output: &'static [u8],
    end: End,
}

static ENDINGS: [Ending; 3] = [
    // The third iteration's division, after its record.
    Ending {
        main: &MAIN,
        body: &[&ELEMENT, &RECORD, &QUOTIENT],
        output: b" 1\n 2\n 3\n",
        end: End::Fault(Fault::ZeroDivisor, 30),
    },
    // The third iteration's STOP, before its record.
    Ending {
        main: &MAIN,
        body: &[&STOP, &ELEMENT, &RECORD],
        output: b" 1\n 2\n",
        end: End::Stopped(12),
    },
    Ending {
        main: &TO_THE_GREATEST,
        body: &[],
        output: b"",
        end: End::Fault(Fault::Overflow, 3),
    },
];

#[test]
fn ends_of_iterations_and_at_a_join(rt: HostRuntime) {
    for row in &ENDINGS {
        each_ends(
            &rt,
            &assembled(&rt, row.main, row.body),
            row.output,
            row.end,
        );
    }
}

/// A processor's turns until it holds nothing, or the run has ended.
fn settle(rt: &impl Abort, core: &mut Core<'_>, processor: usize) {
    for _ in 0..ROUNDS {
        if !holds(core, processor) {
            break;
        }
        turn(rt, core, processor, 8);
    }
}

/// What a processor does.
#[derive(Clone, Copy)]
enum Deed {
    /// It has turns until it holds nothing.
    Settles(usize),
    /// It takes this up, and this comes of it.
    Picks(usize, Choice, Stepped),
}

/// Whether a processor's deed comes to what it should.
fn is_done(rt: &impl Abort, core: &mut Core<'_>, deed: Deed) -> bool {
    match deed {
        Deed::Settles(processor) => {
            settle(rt, core, processor);
            true
        }
        Deed::Picks(processor, choice, wanted) => pick(rt, core, processor, choice) == wanted,
    }
}

/// Deeds come to what they should, one after another.
fn are_done(rt: &impl Abort, core: &mut Core<'_>, deeds: &[Deed]) {
    for (place, deed) in deeds.iter().enumerate() {
        assert!(*rt; is_done(rt, core, *deed), "deed {place}");
    }
}

/// Main opens its loop and waits for the end of it.
static OPENING: [Deed; 3] = [
    Deed::Picks(0, Choice::Ticket, Stepped::Idle),
    Deed::Picks(0, Choice::Main, Stepped::Went(None)),
    Deed::Settles(0),
];

/// A core whose main has opened a loop of two trips and waits for its end.
fn opened<'c>(rt: &(impl Abort + AllocGlobal), code: &'c Code) -> Core<'c> {
    let mut core = core_of(rt, code, b"", 2, 2);
    are_done(rt, &mut core, &OPENING);
    core
}

/// A loop over 1 and 2.
const TWO: [Does; 5] = [
    Does::Constant(1),
    Does::Constant(2),
    Does::Open(0),
    Does::Join,
    Does::Halt,
];

/// The code of a loop over 1 and 2, each of whose iterations prints its value.
fn of_two_records(rt: &(impl Abort + AllocGlobal)) -> Code {
    assembled(rt, &TWO, &[&RECORD])
}

/// Each processor takes a ticket, and the second iteration comes to its end first. Then the first
/// iteration retires, after it the second one, and main goes on.
static OVERTAKING: [Deed; 13] = [
    Deed::Picks(0, Choice::Ticket, Stepped::Went(Some(0))),
    Deed::Picks(1, Choice::Ticket, Stepped::Went(Some(1))),
    Deed::Settles(1),
    Deed::Picks(1, Choice::Ticket, Stepped::Idle),
    Deed::Picks(1, Choice::Main, Stepped::Idle),
    Deed::Picks(1, Choice::Iteration(1), Stepped::Idle),
    Deed::Settles(0),
    Deed::Picks(0, Choice::Main, Stepped::Idle),
    Deed::Picks(0, Choice::Iteration(1), Stepped::Went(None)),
    Deed::Settles(0),
    Deed::Picks(1, Choice::Main, Stepped::Went(None)),
    Deed::Settles(1),
    Deed::Picks(0, Choice::Main, Stepped::Ended),
];

/// The deeds come to what they should, and the records to theirs.
fn retire_in_order(rt: &(impl Abort + AllocGlobal), code: &Code) -> bool {
    let mut core = opened(rt, code);
    are_done(rt, &mut core, &OVERTAKING);
    ends_so(rt, &core, b" 1\n 2\n", End::Done)
}

#[test]
fn retires_in_order(rt: HostRuntime) {
    assert!(rt; retire_in_order(&rt, &of_two_records(&rt)));
}

/// Whether work that a processor hands in isn't taken, for this reason, and no entry is added.
pub fn is_left(core: &mut Core<'_>, processor: usize, done: Done<'_>, why: HandIn) -> bool {
    let before = core.schedule().len();
    hand_in(core, processor, done) == Err(why) && core.schedule().len() == before
}

/// Whether work of the first iteration isn't taken from this processor.
fn is_strange(rt: &impl Abort, core: &mut Core<'_>, processor: usize) -> bool {
    let done = work_of(rt, core, 0, 8);
    is_left(core, processor, done, HandIn::Stranger)
}

/// Whether processor 0's own work is taken.
fn is_taken(rt: &impl Abort, core: &mut Core<'_>) -> bool {
    let done = work_of(rt, core, 0, 8);
    hand_in(core, 0, done) == Ok(())
}

/// Whether work of the first iteration is taken from its processor once.
fn is_taken_once(rt: &impl Abort, core: &mut Core<'_>) -> bool {
    let again = work_of(rt, core, 0, 8);
    is_taken(rt, core) && is_left(core, 0, again, HandIn::Stranger)
}

/// Turns of both processors until the end.
fn both_end(rt: &impl Abort, core: &mut Core<'_>) {
    for _ in 0..ROUNDS {
        turn(rt, core, 0, 8);
        turn(rt, core, 1, 8);
    }
}

/// Whether work that was done before the end isn't taken behind it.
fn is_late(rt: &impl Abort, core: &mut Core<'_>) -> bool {
    let late = work_of(rt, core, 1, 8);
    both_end(rt, core);
    is_left(core, 1, late, HandIn::Ended)
}

/// Each processor takes a ticket.
static TICKETS: [Deed; 2] = [
    Deed::Picks(0, Choice::Ticket, Stepped::Went(Some(0))),
    Deed::Picks(1, Choice::Ticket, Stepped::Went(Some(1))),
];

/// A core whose processors hold the iterations of a loop of two trips.
fn holding<'c>(rt: &(impl Abort + AllocGlobal), code: &'c Code) -> Core<'c> {
    let mut core = opened(rt, code);
    are_done(rt, &mut core, &TICKETS);
    core
}

/// Whether work of the first iteration is taken once, of its own processor, and not of the second's
/// or of one that isn't there; and work of the second not behind the end.
fn is_handed_in_once(rt: &impl Abort, core: &mut Core<'_>) -> bool {
    is_strange(rt, core, 1)
        && is_strange(rt, core, 2)
        && is_taken_once(rt, core)
        && is_late(rt, core)
}

#[test]
fn work_is_handed_in_once(rt: HostRuntime) {
    let code = of_two_records(&rt);
    assert!(rt; is_handed_in_once(&rt, &mut holding(&rt, &code)));
}

/// Whether work of what a processor of another core holds isn't taken of processor 0, whose own
/// then is.
fn is_of_another(rt: &impl Abort, core: &mut Core<'_>, other: &Core<'_>, processor: usize) -> bool {
    let strange = work_of(rt, other, processor, 8);
    is_left(core, 0, strange, HandIn::Stranger) && is_taken(rt, core)
}

/// Whether work of one code's core isn't taken of another one's.
fn is_of_another_core(
    rt: &(impl Abort + AllocGlobal),
    code: &Code,
    other: &Code,
    processor: usize,
) -> bool {
    let stranger = holding(rt, other);
    is_of_another(rt, &mut holding(rt, code), &stranger, processor)
}

/// Of another frame of another core; and of another code, where the frames of both cores are equal.
#[test]
fn work_of_another_core(rt: HostRuntime) {
    let code = of_two_records(&rt);
    assert!(rt; is_of_another_core(&rt, &code, &code, 1));
    let other = assembled(&rt, &TWO, &[&RECORD, &QUOTIENT]);
    assert!(rt; is_of_another_core(&rt, &code, &other, 0));
}
