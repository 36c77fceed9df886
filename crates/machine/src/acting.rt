//! Local instructions, on the parts of a frame.

ghost use Rattle.std.specs.Prelude.{◌≡◌, ◌+◌, ◌-◌, ◌<◌, ◌^◌, ℕ, ℤ, List, Option, drop};
ghost use Rattle.std.specs.Prelude.{if◌then◌else◌, slice_get};
ghost use Rattle.ast.specs.Exact.{is_true};
ghost use Rattle.machine.specs.FrameView.{stack_of};
ghost use Rattle.machine.specs.ScalarView.{scalars_of};
ghost use Rattle.machine.specs.Local.{counted_down, if_pushed, if_replaced, local_act, loop_set_up};
ghost use Rattle.machine.specs.Local.{one_of, one_replaced, part_of, private_pushed, private_set};
ghost use Rattle.machine.specs.Local.{pushed, replaced_at, skipping_unless, step_pushed, three_of};
ghost use Rattle.machine.specs.Local.{two_replaced};
ghost use Rattle.machine.specs.Working.{IsNot, frame_at, made_of_one, made_of_two, went, went_by};
ghost use Rattle.machine.specs.declared.frame.Counter.{Counter as Loop};
ghost use Rattle.machine.specs.declared.scalar.Scalar.{Scalar as Own};

use crate::frame::Counter;
use crate::instr::{Act, Axis};
use crate::scalar::Scalar;
use crate::stack::{
    Pair, Single, one, one_counter, push, push_counter, replace_at, replace_one, replace_two, three,
};
use ast::Fault;
use values::trips;

/// Where a frame stands: its place in the code, and the tops of its operands and of its serial
/// loops.
#[derive(Clone, Copy)]
pub struct Cursor {
    pub place: usize,
    pub top: usize,
    pub inner: usize,
}

/// What an instruction did.
#[derive(Clone, Copy)]
pub enum Went {
    /// The frame goes on from there.
    On(Cursor),
    /// It faulted.
    Faulted(Fault),
    /// Nothing: it isn't local, or the frame doesn't fit it.
    Not,
}

/// The next instruction, with a new top of the operands.
#[inline(always)]
pub fn next(cursor: Cursor, top: usize) -> Cursor
    requires { cursor.place < 2 ^ 63 }
    ensures { result ≡ record { place = cursor.place + 1; top = top; inner = cursor.inner } }
{
    Cursor {
        place: cursor.place + 1,
        top,
        inner: cursor.inner,
    }
}

/// The instruction so many behind the next one.
#[inline(always)]
pub fn skip(cursor: Cursor, n: u32) -> Cursor
    requires { cursor.place < 2 ^ 63 }
    ensures { result ≡ record cursor { place = cursor.place + 1 + n } }
{
    Cursor {
        place: cursor.place + 1 + n as usize,
        top: cursor.top,
        inner: cursor.inner,
    }
}

#[inline(always)]
fn push_value(slots: &mut [i64], cursor: Cursor, value: i64) -> Went
    requires { cursor.place < 2 ^ 63 }
    ensures next { (line : ℕ) (ps : List Own) (cs : List Loop) (number : Option ℕ) (index : ℤ)
        → went result line cursor slots.new ps cs number index
        ≡ if_pushed (pushed value (stack_of cursor.top slots.old))
        (frame_at cursor slots.old ps cs number index) }
    ensures kept { IsNot result → slots.new ≡ slots.old }
{
    match push(slots, cursor.top, value) {
        Some(top) => Went::On(next(cursor, top)),
        None => Went::Not,
    }
}

#[inline(always)]
#[tactic(auto, using(crate::proofs::Privates::push_law, crate::proofs::Privates::push_past_law))]
fn push_private(slots: &mut [i64], privates: &[Scalar], cursor: Cursor, x: u32) -> Went
    requires { cursor.place < 2 ^ 63 }
    ensures next { (line : ℕ) (cs : List Loop) (number : Option ℕ) (index : ℤ)
        → went result line cursor slots.new privates.now cs number index
        ≡ private_pushed (slice_get (scalars_of privates.now) x)
        (frame_at cursor slots.old privates.now cs number index) }
    ensures kept { IsNot result → slots.new ≡ slots.old }
{
    let x = x as usize;
    if x < privates.len() {
        push_value(slots, cursor, privates[x].value)
    } else {
        Went::Not
    }
}

#[inline(always)]
fn set_private(slots: &[i64], privates: &mut [Scalar], cursor: Cursor, x: u32) -> Went
    requires { cursor.place < 2 ^ 63 }
    ensures next { (line : ℕ) (cs : List Loop) (number : Option ℕ) (index : ℤ)
        → went result line cursor slots.now privates.new cs number index
        ≡ private_set x (one_of (drop cursor.top slots.now))
        (frame_at cursor slots.now privates.old cs number index) }
    ensures kept { IsNot result → privates.new ≡ privates.old }
{
    let x = x as usize;
    match one(slots, cursor.top) {
        Some(value) => {
            if x < privates.len() {
                privates[x].set(value);
                Went::On(next(cursor, cursor.top + 1))
            } else {
                Went::Not
            }
        }
        None => Went::Not,
    }
}

/// Goes on where an answer has been put in the place of operands.
#[inline(always)]
fn replaced(cursor: Cursor, answer: Option<Result<usize, Fault>>) -> Went
    requires { cursor.place < 2 ^ 63 }
    ensures { result ≡ went_by cursor answer }
{
    match answer {
        Some(Ok(top)) => Went::On(next(cursor, top)),
        Some(Err(fault)) => Went::Faulted(fault),
        None => Went::Not,
    }
}

#[inline(always)]
#[tactic(auto, using(crate::proofs::Actions::replaced_law, crate::proofs::Actions::kept_law))]
fn make_one(slots: &mut [i64], cursor: Cursor, make: Single) -> Went
    requires { cursor.place < 2 ^ 63 }
    ensures next { (line : ℕ) (ps : List Own) (cs : List Loop) (number : Option ℕ) (index : ℤ)
        → went result line cursor slots.new ps cs number index
        ≡ if_replaced (one_replaced (made_of_one make) (stack_of cursor.top slots.old)) line
        (frame_at cursor slots.old ps cs number index) }
    ensures kept { IsNot result → slots.new ≡ slots.old }
{
    let answer = replace_one(slots, cursor.top, make);
    replaced(cursor, answer)
}

#[inline(always)]
#[tactic(auto, using(crate::proofs::Actions::replaced_law, crate::proofs::Actions::kept_law))]
fn make_two(slots: &mut [i64], cursor: Cursor, make: Pair) -> Went
    requires { cursor.place < 2 ^ 63 }
    ensures next { (line : ℕ) (ps : List Own) (cs : List Loop) (number : Option ℕ) (index : ℤ)
        → went result line cursor slots.new ps cs number index
        ≡ if_replaced (two_replaced (made_of_two make) (stack_of cursor.top slots.old)) line
        (frame_at cursor slots.old ps cs number index) }
    ensures kept { IsNot result → slots.new ≡ slots.old }
{
    let answer = replace_two(slots, cursor.top, make);
    replaced(cursor, answer)
}

#[inline(always)]
#[tactic(auto, using(crate::proofs::Actions::replaced_law, crate::proofs::Actions::kept_law))]
fn check(slots: &mut [i64], cursor: Cursor, above: u32, axis: Axis) -> Went
    requires { cursor.place < 2 ^ 63 }
    ensures next { (line : ℕ) (ps : List Own) (cs : List Loop) (number : Option ℕ) (index : ℤ)
        → went result line cursor slots.new ps cs number index
        ≡ if_replaced (replaced_at (part_of axis) above (stack_of cursor.top slots.old)) line
        (frame_at cursor slots.old ps cs number index) }
    ensures kept { IsNot result → slots.new ≡ slots.old }
{
    let answer = replace_at(slots, cursor.top, above, axis);
    replaced(cursor, answer)
}

/// How many instructions are skipped where a truth value is false.
#[inline(always)]
fn skipped(value: i64, n: u32) -> u32
    ensures { result ≡ (if is_true value then 0 else n) }
{
    if value != 0 { 0 } else { n }
}

#[inline(always)]
fn skip_unless(slots: &[i64], cursor: Cursor, n: u32) -> Went
    requires { cursor.place < 2 ^ 63 }
    ensures { (line : ℕ) (ps : List Own) (cs : List Loop) (number : Option ℕ) (index : ℤ)
        → went result line cursor slots.now ps cs number index
        ≡ skipping_unless n (one_of (drop cursor.top slots.now))
        (frame_at cursor slots.now ps cs number index) }
{
    match one(slots, cursor.top) {
        Some(value) => Went::On(Cursor {
            top: cursor.top + 1,
            ..skip(cursor, skipped(value, n))
        }),
        None => Went::Not,
    }
}

#[inline(always)]
fn set_up(slots: &[i64], counters: &mut [Counter], cursor: Cursor) -> Went
    requires { cursor.place < 2 ^ 63 }
    ensures next { (line : ℕ) (ps : List Own) (number : Option ℕ) (index : ℤ)
        → went result line cursor slots.now ps counters.new number index
        ≡ loop_set_up line (three_of (drop cursor.top slots.now))
        (frame_at cursor slots.now ps counters.old number index) }
    ensures kept { IsNot result → counters.new ≡ counters.old }
{
    match three(slots, cursor.top) {
        Some((m1, m2, m3)) => {
            if m3 == 0 {
                return Went::Faulted(Fault::ZeroStep);
            }
            let counter = Counter {
                left: trips(m1, m2, m3),
                step: m3,
            };
            match push_counter(counters, cursor.inner, counter) {
                Some(inner) => Went::On(Cursor {
                    place: cursor.place + 1,
                    top: cursor.top + 2,
                    inner,
                }),
                None => Went::Not,
            }
        }
        None => Went::Not,
    }
}

#[inline(always)]
#[tactic(auto, using(crate::proofs::Stacks::replace_law))]
fn count_down(counters: &mut [Counter], cursor: Cursor, n: u32) -> Went
    requires { cursor.place < 2 ^ 63 }
    ensures next { (line : ℕ) (xs : List ℤ) (ps : List Own) (number : Option ℕ) (index : ℤ)
        → went result line cursor xs ps counters.new number index
        ≡ counted_down (one_of (drop cursor.inner counters.old)) n
        (frame_at cursor xs ps counters.old number index) }
    ensures kept { IsNot result → counters.new ≡ counters.old }
{
    match one_counter(counters, cursor.inner) {
        Some(counter) => {
            if counter.left == 0 {
                Went::On(Cursor {
                    inner: cursor.inner + 1,
                    ..skip(cursor, n)
                })
            } else {
                counters[cursor.inner] = Counter {
                    left: counter.left - 1,
                    step: counter.step,
                };
                Went::On(skip(cursor, 0))
            }
        }
        None => Went::Not,
    }
}

#[inline(always)]
fn push_step(slots: &mut [i64], counters: &[Counter], cursor: Cursor) -> Went
    requires { cursor.place < 2 ^ 63 }
    ensures next { (line : ℕ) (ps : List Own) (number : Option ℕ) (index : ℤ)
        → went result line cursor slots.new ps counters.now number index
        ≡ step_pushed (one_of (drop cursor.inner counters.now))
        (frame_at cursor slots.old ps counters.now number index) }
    ensures kept { IsNot result → slots.new ≡ slots.old }
{
    match one_counter(counters, cursor.inner) {
        Some(counter) => push_value(slots, cursor, counter.step),
        None => Went::Not,
    }
}

/// The instruction so many before this one; the first where there are fewer.
#[inline(always)]
pub fn back(cursor: Cursor, n: u32) -> Cursor
    ensures { result ≡ record cursor { place = cursor.place - n } }
{
    Cursor {
        place: cursor.place.saturating_sub(n as usize),
        top: cursor.top,
        inner: cursor.inner,
    }
}

/// Makes a local instruction, on the parts of a frame that stands at the cursor. Nothing has
/// changed where the answer is `Not`: the instruction isn't local, or the frame doesn't fit it.
#[inline(always)]
pub fn act(
    act: &Act,
    slots: &mut [i64],
    privates: &mut [Scalar],
    counters: &mut [Counter],
    index: &i64,
    cursor: Cursor,
) -> Went
    requires { cursor.place < 2 ^ 63 }
    ensures next { (line : ℕ) (number : Option ℕ)
        → went result line cursor slots.new privates.new counters.new number index.now
        ≡ local_act act.now line
        (frame_at cursor slots.old privates.old counters.old number index.now) }
    ensures slots { IsNot result → slots.new ≡ slots.old }
    ensures privates { IsNot result → privates.new ≡ privates.old }
    ensures counters { IsNot result → counters.new ≡ counters.old }
{
    match *act {
        Act::Constant(value) => push_value(slots, cursor, value),
        Act::Private(x) => push_private(slots, privates, cursor, x),
        Act::SetPrivate(x) => set_private(slots, privates, cursor, x),
        Act::Index => push_value(slots, cursor, *index),
        Act::Binary(operator) => make_two(slots, cursor, Pair::Plain(operator)),
        Act::Modulo => make_two(slots, cursor, Pair::Modulo),
        Act::Greatest => make_two(slots, cursor, Pair::Greatest),
        Act::Least => make_two(slots, cursor, Pair::Least),
        Act::Unary(prefix) => make_one(slots, cursor, Single::Signed(prefix)),
        Act::Absolute => make_one(slots, cursor, Single::Absolute),
        Act::Check(above, axis) => check(slots, cursor, above, axis),
        Act::Skip(n) => Went::On(skip(cursor, n)),
        Act::SkipUnless(n) => skip_unless(slots, cursor, n),
        Act::Back(n) => Went::On(back(cursor, n)),
        Act::SetUp => set_up(slots, counters, cursor),
        Act::CountDown(n) => count_down(counters, cursor, n),
        Act::Step => push_step(slots, counters, cursor),
        Act::Load(_)
        | Act::LoadElement(_)
        | Act::Store(_)
        | Act::StoreElement(_)
        | Act::Print(_)
        | Act::TakeRecord
        | Act::TakeValue
        | Act::DropRecord
        | Act::Await(_)
        | Act::Advance(_)
        | Act::Open(_)
        | Act::Join
        | Act::Retire(_)
        | Act::Stop
        | Act::Halt => Went::Not,
    }
}
