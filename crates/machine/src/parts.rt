//! What whoever makes an activity's shared steps sees of its frame, and how the frame goes on.

use crate::frame::Frame;
use crate::scalar::Scalar;
use crate::stack::push;
use ast::{Fault, Line};

impl Frame {
    ghost use Rattle.std.specs.Prelude.{◌≡◌, ◌<◌, ◌≤◌, ◌^◌, ◌∷◌, length, true};
    ghost use Rattle.machine.specs.Frame.{has_room, with_items};
    ghost use Rattle.machine.specs.FrameView.{frame_of};
    ghost use Rattle.machine.specs.ScalarView.{scalars_of};
    ghost use Rattle.machine.specs.Local.{faulted, going_on, without};
    ghost use Rattle.machine.specs.View.{with_operand};

    /// The place in the code.
    pub fn place(&self) -> usize
        ensures { result ≡ (frame_of self.now).place }
    {
        self.place
    }

    /// The fault that is to be reported, and the line of its statement.
    pub fn fault(&self) -> Option<(Fault, Line)>
        ensures { result ≡ (frame_of self.now).fault }
    {
        self.fault
    }

    /// The operands, the one that was pushed last first.
    pub fn operands(&self) -> &[i64]
        ensures { result.now ≡ (frame_of self.now).operands.items }
    {
        let slots = self.slots.as_slice();
        if self.top <= slots.len() {
            &slots[self.top..]
        } else {
            &[]
        }
    }

    /// Whether there is room for one more operand.
    pub fn has_room(&self) -> bool
        ensures { result ≡ has_room (frame_of self.now).operands }
    {
        crate::stack::has_room(self.slots.as_slice(), self.top)
    }

    /// The private scalars.
    pub fn privates(&self) -> &[Scalar]
        ensures { scalars_of result.now ≡ (frame_of self.now).privates }
    {
        self.privates.as_slice()
    }

    /// Goes on with the next instruction, so many operands fewer.
    #[tactic(auto, using(crate::proofs::Stacks::popped_law, crate::proofs::Stacks::popped_within))]
    pub fn go_on(&mut self, popped: usize)
        requires place { (frame_of self.old).place < 2 ^ 63 }
        requires popped { popped ≤ length (frame_of self.old).operands.items }
        ensures { frame_of self.new
            ≡ going_on (without popped (frame_of self.old).operands) (frame_of self.old) }
    {
        let slots = self.slots.len();
        if 0 < popped && popped <= slots {
            self.top += popped;
        }
        self.place += 1;
    }

    /// Pushes an operand.
    fn push(&mut self, value: i64)
        requires { has_room (frame_of self.old).operands ≡ true }
        ensures { frame_of self.new
            ≡ record (frame_of self.old) {
              operands = with_items (value
                  ∷ (frame_of self.old).operands.items) (frame_of self.old).operands;
            } }
    {
        if let Some(top) = push(self.slots.as_mut_slice(), self.top, value) {
            self.top = top;
        }
    }

    /// Goes on with the next instruction, so many operands fewer and then one more.
    pub fn go_on_with(&mut self, popped: usize, value: i64)
        requires place { (frame_of self.old).place < 2 ^ 63 }
        requires popped { popped ≤ length (frame_of self.old).operands.items }
        requires room { has_room (without popped (frame_of self.old).operands) ≡ true }
        ensures { frame_of self.new ≡ with_operand popped (frame_of self.old) value }
    {
        self.go_on(popped);
        self.push(value);
    }

    /// Stands at the report of a fault from now on.
    pub fn break_off(&mut self, fault: Fault, line: Line)
        ensures { frame_of self.new ≡ faulted fault line (frame_of self.old) }
    {
        self.fault = Some((fault, line));
    }
}
