//! Whether two frames are equal.

ghost use Rattle.std.specs.Prelude.{◌≡◌, drop};
ghost use Rattle.std.specs.Bool.{Decides};
ghost use Rattle.machine.specs.FrameView.{frame_of, room_of, stack_of};
ghost use Rattle.machine.specs.ScalarView.{scalar_of, scalars_of};

use crate::frame::{Counter, Frame};
use crate::scalar::Scalar;

/// What stands on a stack.
fn used<T>(slots: &[T], top: usize) -> &[T]
    ensures { result.now ≡ drop top slots.now }
{
    if top <= slots.len() {
        &slots[top..]
    } else {
        &[]
    }
}

/// What a stack has room for.
fn room(top: usize, slots: usize) -> usize
    ensures { result ≡ room_of top slots }
{
    if top <= slots { slots } else { 0 }
}

fn same_numbers(a: &[i64], b: &[i64]) -> bool
    ensures { Decides result (a.now ≡ b.now) }
{
    a == b
}

fn same_scalar(a: Scalar, b: Scalar) -> bool
    ensures { Decides result (scalar_of a ≡ scalar_of b) }
{
    a.get() == b.get()
}

fn same_privates(a: &[Scalar], b: &[Scalar]) -> bool
    ensures { Decides result (scalars_of a.now ≡ scalars_of b.now) }
{
    if a.len() != b.len() {
        return false;
    }
    for i in 0..a.len() {
        if !same_scalar(a[i], b[i]) {
            return false;
        }
    }
    true
}

fn same_counters(a: &[Counter], b: &[Counter]) -> bool
    ensures { Decides result (a.now ≡ b.now) }
{
    if a.len() != b.len() {
        return false;
    }
    for i in 0..a.len() {
        if a[i] != b[i] {
            return false;
        }
    }
    true
}

/// Whether two stacks of operands are equal, in what stands on them and in their room.
#[tactic(auto, using(crate::proofs::Equal::stack_law))]
fn same_operands(a: &[i64], top_a: usize, b: &[i64], top_b: usize) -> bool
    ensures { Decides result (stack_of top_a a.now ≡ stack_of top_b b.now) }
{
    room(top_a, a.len()) == room(top_b, b.len()) && same_numbers(used(a, top_a), used(b, top_b))
}

/// Whether two stacks of serial loops are equal, in what stands on them and in their room.
#[tactic(auto, using(crate::proofs::Equal::stack_law))]
fn same_loops(a: &[Counter], top_a: usize, b: &[Counter], top_b: usize) -> bool
    ensures { Decides result (stack_of top_a a.now ≡ stack_of top_b b.now) }
{
    room(top_a, a.len()) == room(top_b, b.len()) && same_counters(used(a, top_a), used(b, top_b))
}

/// Whether the places, numbers, values of the open loop's variable and faults of two frames are
/// equal.
fn same_rest(a: &Frame, b: &Frame) -> bool
    ensures { Decides result ((a.now.place ≡ b.now.place) × (a.now.index ≡ b.now.index)
        × (a.now.number ≡ b.now.number) × (a.now.fault ≡ b.now.fault)) }
{
    a.place == b.place && a.index == b.index && a.number == b.number && a.fault == b.fault
}

/// Whether stacks and private scalars of frames are equal.
fn same_values(a: &Frame, b: &Frame) -> bool
    ensures { Decides result (((frame_of a.now).operands ≡ (frame_of b.now).operands)
        × ((frame_of a.now).privates ≡ (frame_of b.now).privates)
        × ((frame_of a.now).counters ≡ (frame_of b.now).counters)) }
{
    same_operands(a.slots.as_slice(), a.top, b.slots.as_slice(), b.top)
        && same_privates(a.privates.as_slice(), b.privates.as_slice())
        && same_loops(
            a.counters.as_slice(),
            a.inner,
            b.counters.as_slice(),
            b.inner,
        )
}

impl Frame {
    ghost use Rattle.std.specs.Prelude.{◌≡◌};
    ghost use Rattle.std.specs.Bool.{Decides};
    ghost use Rattle.machine.specs.FrameView.{frame_of};

    /// Whether two frames are equal.
    #[tactic(auto, using(crate::proofs::Equal::frame_law))]
    pub fn is_same(&self, other: &Frame) -> bool
        ensures { Decides result (frame_of self.now ≡ frame_of other.now) }
    {
        same_rest(self, other) && same_values(self, other)
    }
}
