//! Which step stands next in a frame.

ghost use Rattle.std.specs.Prelude.{◌≡◌, ◌<◌, ◌^◌, ℕ, None, IfSome, MatchOption, if◌then◌else◌};
ghost use Rattle.std.specs.Prelude.{map, pos};
ghost use Rattle.std.specs.Prelude.{slice_get, true};
ghost use Rattle.ast.specs.Input.{next_integer};
ghost use Rattle.machine.specs.Code.{Code as Plain};
ghost use Rattle.machine.specs.CodeView.{code_of, part};
ghost use Rattle.machine.specs.Frame.{has_room};
ghost use Rattle.machine.specs.FrameView.{frame_of};
ghost use Rattle.machine.specs.Local.{going_on, local_act, one_of, two_of};
ghost use Rattle.machine.specs.Next.{Goes, Pushes, Tells, is_own};
ghost use Rattle.machine.specs.View.{act_view, advancing, awaiting_if, cell_from, doing_if};
ghost use Rattle.machine.specs.View.{element_loading, element_storing, frame_with, input_behind};
ghost use Rattle.machine.specs.View.{is_event, leaving_if, loading_if, opening_if, printing_if};
ghost use Rattle.machine.specs.View.{reading, scalar_loading, scalar_storing, storing_if, stuck};
ghost use Rattle.machine.specs.View.{values_wanted, view};

use crate::acting::Cursor;
use crate::code::{Await, Code, Open, Piece};
use crate::frame::Frame;
use crate::instr::Act;
use crate::stack::{one, two};
use crate::working::fits;
use ast::{Fault, Line, MOST_EVENTS};
use values::trips;

/// The step that stands next in a frame, with what it works on.
#[derive(Clone, Copy)]
pub enum Next<'c> {
    /// A local instruction.
    Local,
    /// The value of the cell of this number takes the place of so many operands.
    Load {
        cell: usize,
        popped: usize,
    },
    /// The cell of this number gets this value; so many operands go.
    Store {
        cell: usize,
        value: i64,
        popped: usize,
    },
    /// A record of these parts is printed, with the values of so many operands.
    Print {
        pieces: &'c [Piece],
        values: usize,
    },
    /// The next record of the input is taken; a fault has this line.
    TakeRecord {
        line: Line,
    },
    /// The next integer of the input becomes an operand; a fault has this line.
    TakeValue {
        line: Line,
    },
    /// What is left of the record that was taken last is dropped.
    DropRecord,
    /// Iteration j waits until the count of the event is at least j - distance + 1.
    Await {
        event: u32,
        distance: u128,
    },
    /// The count of the event grows by one.
    Advance {
        event: u32,
    },
    /// This loop is opened; two operands go.
    Opens(Open),
    /// The open loop is closed, once its iterations have retired; a fault has this line.
    Join {
        line: Line,
    },
    /// An iteration of the loop of this number ends.
    Retire {
        number: u32,
    },
    /// A fault is reported.
    Report {
        fault: Fault,
        line: Line,
    },
    /// A STOP is reported.
    Stop {
        line: Line,
    },
    /// The program ends.
    Halt,
    /// None: the frame doesn't fit what stands there.
    Stuck,
}

/// A load of a variable's cell at a place.
fn load<'c>(code: &'c Code, frame: &Frame, variable: u32, place: i64, popped: usize) -> Next<'c>
    requires pushes { Pushes (frame_of frame.now) popped }
    ensures { Tells (code_of code.now) (frame_of frame.now)
        (loading_if (cell_from (slice_get code.now.variables.items variable) place) popped
        (frame_of frame.now)) result }
{
    match code.cell(variable, place) {
        Some(cell) => Next::Load { cell, popped },
        None => Next::Stuck,
    }
}

/// A store to a variable's cell at a place.
fn store<'c>(
    code: &'c Code,
    frame: &Frame,
    variable: u32,
    place: i64,
    value: i64,
    popped: usize,
) -> Next<'c>
    requires goes { Goes (frame_of frame.now) popped }
    ensures { Tells (code_of code.now) (frame_of frame.now)
        (storing_if (cell_from (slice_get code.now.variables.items variable) place) value popped
        (frame_of frame.now)) result }
{
    match code.cell(variable, place) {
        Some(cell) => Next::Store {
            cell,
            value,
            popped,
        },
        None => Next::Stuck,
    }
}

fn scalar_load<'c>(code: &'c Code, frame: &Frame, variable: u32) -> Next<'c>
    requires place { (frame_of frame.now).place < 2 ^ 63 }
    ensures { Tells (code_of code.now) (frame_of frame.now)
        (scalar_loading (cell_from (slice_get code.now.variables.items variable) (pos 0))
        (frame_of frame.now)) result }
{
    if frame.has_room() {
        load(code, frame, variable, 0, 0)
    } else {
        Next::Stuck
    }
}

fn element_load<'c>(code: &'c Code, frame: &Frame, variable: u32) -> Next<'c>
    requires place { (frame_of frame.now).place < 2 ^ 63 }
    ensures { Tells (code_of code.now) (frame_of frame.now)
        (element_loading (slice_get code.now.variables.items variable)
        (one_of (frame_of frame.now).operands.items) (frame_of frame.now)) result }
{
    match one(frame.slots.as_slice(), frame.top) {
        Some(place) => load(code, frame, variable, place, 1),
        None => Next::Stuck,
    }
}

fn scalar_store<'c>(code: &'c Code, frame: &Frame, variable: u32) -> Next<'c>
    requires place { (frame_of frame.now).place < 2 ^ 63 }
    ensures { Tells (code_of code.now) (frame_of frame.now)
        (scalar_storing (slice_get code.now.variables.items variable)
        (one_of (frame_of frame.now).operands.items) (frame_of frame.now)) result }
{
    match one(frame.slots.as_slice(), frame.top) {
        Some(value) => store(code, frame, variable, 0, value, 1),
        None => Next::Stuck,
    }
}

fn element_store<'c>(code: &'c Code, frame: &Frame, variable: u32) -> Next<'c>
    requires place { (frame_of frame.now).place < 2 ^ 63 }
    ensures { Tells (code_of code.now) (frame_of frame.now)
        (element_storing (slice_get code.now.variables.items variable)
        (two_of (frame_of frame.now).operands.items) (frame_of frame.now)) result }
{
    match two(frame.slots.as_slice(), frame.top) {
        Some((value, place)) => store(code, frame, variable, place, value, 2),
        None => Next::Stuck,
    }
}

/// How many values a record prints.
fn values_wanted(pieces: &[Piece]) -> usize
    ensures { result ≡ values_wanted (map part pieces.now) }
{
    let mut wanted = 0;
    for piece in pieces {
        match piece {
            Piece::Operand => wanted += 1,
            Piece::Text(_) => {}
        }
    }
    wanted
}

fn print<'c>(code: &'c Code, frame: &Frame, number: u32) -> Next<'c>
    requires place { (frame_of frame.now).place < 2 ^ 63 }
    ensures { Tells (code_of code.now) (frame_of frame.now)
        (printing_if (slice_get (code_of code.now).records number) (frame_of frame.now))
        result }
{
    let records = code.records.as_slice();
    let number = number as usize;
    if number >= records.len() {
        return Next::Stuck;
    }
    let pieces = records[number].as_slice();
    let values = values_wanted(pieces);
    if values <= frame.operands().len() {
        Next::Print { pieces, values }
    } else {
        Next::Stuck
    }
}

/// Whether a loop may have an event of this number.
#[inline(always)]
pub fn is_event(event: u32) -> bool
    ensures { result ≡ is_event event }
{
    0 < event && event <= MOST_EVENTS as u32
}

fn await_at<'c>(code: &'c Code, frame: &Frame, number: u32) -> Next<'c>
    requires place { (frame_of frame.now).place < 2 ^ 63 }
    ensures { Tells (code_of code.now) (frame_of frame.now)
        (awaiting_if (slice_get code.now.awaits.items number) (frame_of frame.now)) result }
{
    let number = number as usize;
    if number >= code.awaits.len() {
        return Next::Stuck;
    }
    let Await { event, distance } = code.awaits[number];
    if is_event(event) {
        Next::Await { event, distance }
    } else {
        Next::Stuck
    }
}

fn advance<'c>(frame: &Frame, event: u32) -> Next<'c>
    requires place { frame.now.place < 2 ^ 63 }
    ensures { (code : Plain)
        → Tells code (frame_of frame.now)
        (if is_event event then advancing event
        (going_on (frame_of frame.now).operands (frame_of frame.now)) else stuck) result }
{
    if is_event(event) {
        Next::Advance { event }
    } else {
        Next::Stuck
    }
}

fn take_value<'c>(frame: &Frame, line: Line) -> Next<'c>
    requires place { frame.now.place < 2 ^ 63 }
    ensures { (code : Plain)
        → Tells code (frame_of frame.now)
        (if has_room (frame_of frame.now).operands then reading
        (λ i. input_behind (next_integer i.left i.records) i)
        (λ i. frame_with (next_integer i.left i.records) line (frame_of frame.now)) else stuck)
        result }
{
    if frame.has_room() {
        Next::TakeValue { line }
    } else {
        Next::Stuck
    }
}

fn open<'c>(code: &'c Code, frame: &Frame, number: u32) -> Next<'c>
    requires place { (frame_of frame.now).place < 2 ^ 63 }
    ensures { Tells (code_of code.now) (frame_of frame.now)
        (opening_if (slice_get (code_of code.now).loops number) number (frame_of frame.now))
        result }
{
    let loops = code.loops.as_slice();
    let at = number as usize;
    if at >= loops.len() {
        return Next::Stuck;
    }
    let step = loops[at].step;
    if step == 0 {
        return Next::Stuck;
    }
    match two(frame.slots.as_slice(), frame.top) {
        Some((first, last)) => Next::Opens(Open {
            number,
            first,
            trips: trips(first, last, step),
        }),
        None => Next::Stuck,
    }
}

fn retire<'c>(code: &'c Code, frame: &Frame, number: u32) -> Next<'c>
    ensures { Tells (code_of code.now) (frame_of frame.now)
        (leaving_if (code_of code.now) (slice_get (code_of code.now).loops number)
        (frame_of frame.now)) result }
{
    let loops = code.loops.as_slice();
    if (number as usize) < loops.len() {
        Next::Retire { number }
    } else {
        Next::Stuck
    }
}

/// A local instruction, where the frame fits it.
fn local<'c>(frame: &Frame, act: &Act) -> Next<'c>
    requires fault { frame.now.fault ≡ None }
    ensures { (code : Plain) (line : ℕ)
        → Tells code (frame_of frame.now) (doing_if (local_act act.now line (frame_of frame.now)))
        result }
{
    let cursor = Cursor {
        place: frame.place,
        top: frame.top,
        inner: frame.inner,
    };
    let stands = fits(
        act,
        frame.slots.as_slice(),
        frame.privates.as_slice(),
        frame.counters.as_slice(),
        cursor,
    );
    if stands { Next::Local } else { Next::Stuck }
}

/// The step of an instruction that isn't local.
fn shared<'c>(code: &'c Code, frame: &Frame, act: &Act, line: Line) -> Option<Next<'c>>
    requires place { frame.now.place < 2 ^ 63 }
    ensures { MatchOption result (is_own act.now
        ≡ true) (Tells (code_of code.now) (frame_of frame.now)
        (act_view (code_of code.now) act.now line (frame_of frame.now))) }
{
    match *act {
        Act::Constant(_)
        | Act::Private(_)
        | Act::SetPrivate(_)
        | Act::Index
        | Act::Binary(_)
        | Act::Modulo
        | Act::Greatest
        | Act::Least
        | Act::Unary(_)
        | Act::Absolute
        | Act::Check(_, _)
        | Act::Skip(_)
        | Act::SkipUnless(_)
        | Act::Back(_)
        | Act::SetUp
        | Act::CountDown(_)
        | Act::Step => None,
        Act::Load(x) => Some(scalar_load(code, frame, x)),
        Act::LoadElement(x) => Some(element_load(code, frame, x)),
        Act::Store(x) => Some(scalar_store(code, frame, x)),
        Act::StoreElement(x) => Some(element_store(code, frame, x)),
        Act::Print(r) => Some(print(code, frame, r)),
        Act::TakeRecord => Some(Next::TakeRecord { line }),
        Act::TakeValue => Some(take_value(frame, line)),
        Act::DropRecord => Some(Next::DropRecord),
        Act::Await(a) => Some(await_at(code, frame, a)),
        Act::Advance(e) => Some(advance(frame, e)),
        Act::Open(n) => Some(open(code, frame, n)),
        Act::Join => Some(Next::Join { line }),
        Act::Retire(n) => Some(retire(code, frame, n)),
        Act::Stop => Some(Next::Stop { line }),
        Act::Halt => Some(Next::Halt),
    }
}

/// The step of an instruction.
fn by_act<'c>(code: &'c Code, frame: &Frame, act: &Act, line: Line) -> Next<'c>
    requires place { frame.now.place < 2 ^ 63 }
    requires fault { frame.now.fault ≡ None }
    ensures { Tells (code_of code.now) (frame_of frame.now)
        (act_view (code_of code.now) act.now line (frame_of frame.now)) result }
{
    match shared(code, frame, act, line) {
        Some(next) => next,
        None => local(frame, act),
    }
}

/// The step that stands next in a frame of the code.
pub fn stands_next<'c>(code: &'c Code, frame: &Frame) -> Next<'c>
    ensures { Tells (code_of code.now) (frame_of frame.now)
        (view (code_of code.now) (frame_of frame.now)) result }
{
    if let Some((fault, line)) = frame.fault {
        return Next::Report { fault, line };
    }
    let instructions = code.instructions.as_slice();
    if frame.place >= instructions.len() {
        return Next::Stuck;
    }
    let instr = &instructions[frame.place];
    by_act(code, frame, &instr.act, instr.line)
}

/// The step of an await, an advance or a retirement.
#[inline(always)]
fn by_counts<'c>(code: &'c Code, frame: &Frame, act: &Act, line: Line) -> Option<Next<'c>>
    requires place { frame.now.place < 2 ^ 63 }
    ensures { IfSome result (Tells (code_of code.now) (frame_of frame.now)
        (act_view (code_of code.now) act.now line (frame_of frame.now))) }
{
    match *act {
        Act::Await(number) => Some(await_at(code, frame, number)),
        Act::Advance(event) => Some(advance(frame, event)),
        Act::Retire(number) => Some(retire(code, frame, number)),
        _ => None,
    }
}

/// The await, the advance or the retirement that stands next in a frame of the code, if one does:
/// these go by the counts of events and of retired iterations.
#[inline(always)]
pub fn synchronization<'c>(code: &'c Code, frame: &Frame) -> Option<Next<'c>>
    ensures { IfSome result (Tells (code_of code.now) (frame_of frame.now)
        (view (code_of code.now) (frame_of frame.now))) }
{
    if let Some(_) = frame.fault {
        return None;
    }
    let instructions = code.instructions.as_slice();
    if frame.place >= instructions.len() {
        return None;
    }
    let instr = &instructions[frame.place];
    by_counts(code, frame, &instr.act, instr.line)
}
