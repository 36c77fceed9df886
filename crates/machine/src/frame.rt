//! Frames.

ghost use Rattle.std.specs.Prelude.{◌≡◌, ◌≤◌, IfOk, None, length, replicate};
ghost use Rattle.machine.specs.Code.{loop_at};
ghost use Rattle.machine.specs.CodeView.{code_of};
ghost use Rattle.machine.specs.ScalarView.{scalars_of};

use crate::code::{Code, Open};
use crate::room::{make_room, refill};
use crate::scalar::Scalar;
use ast::{Fault, Line};
use smallvec::SmallVec;
use std::alloc::{AllocError, Global};
use std::default::MadeWith;

/// A serial loop under way: the trips that it has left, and its step.
#[derive(Clone, Copy, Default, PartialEq, Eq)]
pub struct Counter {
    pub left: u128,
    pub step: i64,
}

/// What an activity has of its own: its place in the code, its operands, private scalars and serial
/// loops under way, and, of an iteration, its number and the value of the open loop's variable.
///
/// Operands and serial loops stand on stacks of a fixed number of slots, which grow from the last
/// slot to the first.
pub struct Frame {
    pub(crate) place: usize,
    pub(crate) slots: SmallVec<i64, 16>,
    /// The slot of the operand that was pushed last; the number of slots where there is none.
    pub(crate) top: usize,
    pub(crate) privates: SmallVec<Scalar, 8>,
    pub(crate) counters: SmallVec<Counter, 4>,
    /// The slot of the innermost serial loop.
    pub(crate) inner: usize,
    pub(crate) number: Option<u128>,
    pub(crate) index: i64,
    /// The fault that is to be reported, and the line of its statement.
    pub(crate) fault: Option<(Fault, Line)>,
}

// Written out, so that each place where a frame is dropped has one call in place of many.
impl Drop for Frame {
    fn drop(self) {
        let Frame {
            place: _,
            slots: _,
            top: _,
            privates: _,
            counters: _,
            inner: _,
            number: _,
            index: _,
            fault: _,
        } = self;
    }
}

/// So many private scalars, none of them defined.
#[tactic(auto, using(crate::proofs::Privates::undefined_law))]
fn undefined(alloc: Global, count: usize) -> Result<SmallVec<Scalar, 8>, AllocError>
    ensures { IfOk result (λ v. scalars_of v.items ≡ replicate count None) }
{
    SmallVec::from_elem(alloc, Scalar::default(), count)
}

/// So many elements, each of them this one.
fn fill_up<T: MadeWith<Global> + Copy, const N: usize>(
    vector: &mut SmallVec<T, N>,
    element: T,
    len: usize,
)
    requires room { len ≤ vector.old.capacity }
    ensures { vector.new.items ≡ replicate len element }
{
    vector.clear();
    while vector.len() < len {
        vector.push_reserved(element);
    }
}

/// So many elements, whatever they are; this one where there were another number of them.
fn set_length<T: MadeWith<Global> + Copy, const N: usize>(
    vector: &mut SmallVec<T, N>,
    element: T,
    len: usize,
)
    requires room { len ≤ vector.old.capacity }
    ensures { length vector.new.items ≡ len }
{
    if vector.len() != len {
        fill_up(vector, element, len);
    }
}

/// None of these private scalars is defined any more.
#[inline(always)]
#[tactic(auto, using(crate::proofs::Privates::undefined_law))]
fn undefine(privates: &mut [Scalar])
    ensures { scalars_of privates.new ≡ replicate (length privates.old) None }
{
    privates.fill(Scalar::default());
}

/// Where an iteration of a loop begins in the code, and how many private scalars it has.
fn first_place(code: &Code, number: u32) -> (usize, usize)
    ensures body { result.0 ≡ (loop_at (code_of code.now) number).body }
    ensures privates { result.1 ≡ length (loop_at (code_of code.now) number).privates }
{
    let number = number as usize;
    if number < code.loops.len() {
        let one = &code.loops[number];
        (one.body, one.privates.len())
    } else {
        (code.instructions.len(), 0)
    }
}

impl Frame {
    ghost use Rattle.std.specs.Prelude.{◌≡◌, IfOk, OnErr, OnOk, length, true};
    ghost use Rattle.machine.specs.CodeView.{code_of};
    ghost use Rattle.machine.specs.FrameView.{frame_of};
    ghost use Rattle.machine.specs.View.{begin, entry, index_at, main_frame};

    /// A frame at a place of the code, with room for all that the code can push.
    #[tactic(auto, using(crate::proofs::Stacks::empty_law))]
    pub(crate) fn at(
        alloc: Global,
        code: &Code,
        place: usize,
        privates: usize,
        number: Option<u128>,
        index: i64,
    ) -> Result<Frame, AllocError>
        ensures { IfOk result (λ frame. frame_of frame
            ≡ entry (code_of code.now) place privates number index) }
    {
        Ok(Frame {
            place,
            slots: SmallVec::from_elem(alloc, 0, code.operands)?,
            top: code.operands,
            privates: undefined(alloc, privates)?,
            counters: SmallVec::from_elem(alloc, Counter::default(), code.counters)?,
            inner: code.counters,
            number,
            index,
            fault: None,
        })
    }

    /// Main's frame as it begins.
    ///
    /// # Errors
    ///
    /// `AllocError` where memory is refused.
    pub fn main(alloc: Global, code: &Code) -> Result<Frame, AllocError>
        ensures { IfOk result (λ frame. frame_of frame ≡ main_frame (code_of code.now)) }
    {
        Frame::at(alloc, code, 0, 0, None, 0)
    }

    /// The frame of iteration `k` of an open loop as it begins; `index` is the value that the
    /// loop's variable has in it.
    ///
    /// # Errors
    ///
    /// `AllocError` where memory is refused.
    pub fn begin(
        alloc: Global,
        code: &Code,
        opened: Open,
        k: u128,
        index: i64,
    ) -> Result<Frame, AllocError>
        requires { index ≡ index_at (code_of code.now) opened k }
        ensures { IfOk result (λ frame. frame_of frame ≡ begin (code_of code.now) opened k) }
    {
        let (place, privates) = first_place(code, opened.number);
        Frame::at(alloc, code, place, privates, Some(k), index)
    }

    /// Becomes the frame of iteration `k` of an open loop as it begins, in the room that it has. It
    /// takes memory only where that is too little; where memory is refused it is as before.
    ///
    /// # Errors
    ///
    /// `AllocError` where memory is refused.
    #[inline(always)]
    #[tactic(auto, using(crate::proofs::Restarting::whole_law))]
    pub fn restart(
        &mut self,
        code: &Code,
        opened: Open,
        k: u128,
        index: i64,
    ) -> Result<(), AllocError>
        requires { index ≡ index_at (code_of code.now) opened k }
        ensures ok { OnOk result (frame_of self.new ≡ begin (code_of code.now) opened k) }
        ensures err { OnErr result (frame_of self.new ≡ frame_of self.old) }
    {
        let (place, privates) = first_place(code, opened.number);
        if !self.has_lengths(code, privates) {
            self.resize(code, privates)?;
        }
        undefine(self.privates.as_mut_slice());
        self.place = place;
        self.top = code.operands;
        self.inner = code.counters;
        self.number = Some(k);
        self.index = index;
        self.fault = None;
        Ok(())
    }

    /// Whether it has as many slots as the code wants, and so many private scalars.
    #[inline(always)]
    fn has_lengths(&self, code: &Code, privates: usize) -> bool
        ensures slots { result ≡ true → length self.now.slots.items ≡ code.now.operands }
        ensures privates { result ≡ true → length self.now.privates.items ≡ privates }
        ensures counters { result ≡ true → length self.now.counters.items ≡ code.now.counters }
    {
        self.slots.len() == code.operands
            && self.privates.len() == privates
            && self.counters.len() == code.counters
    }

    /// It gets as many slots as the code wants, and so many private scalars, whatever they hold. It
    /// takes memory only where the room that it has is too little.
    // Out of line, since nearly all frames have been those of such iterations before.
    #[inline(never)]
    fn resize(&mut self, code: &Code, privates: usize) -> Result<(), AllocError>
        ensures slots { OnOk result (length self.new.slots.items ≡ code.now.operands) }
        ensures privates { OnOk result (length self.new.privates.items ≡ privates) }
        ensures counters { OnOk result (length self.new.counters.items ≡ code.now.counters) }
        ensures err { OnErr result (frame_of self.new ≡ frame_of self.old) }
    {
        make_room(&mut self.slots, code.operands)?;
        make_room(&mut self.privates, privates)?;
        make_room(&mut self.counters, code.counters)?;
        set_length(&mut self.slots, 0, code.operands);
        set_length(&mut self.privates, Scalar::default(), privates);
        set_length(&mut self.counters, Counter::default(), code.counters);
        Ok(())
    }

    /// An equal frame, with the same room, or `AllocError` where memory is refused.
    pub fn try_copy(&self) -> Result<Frame, AllocError>
        ensures { IfOk result (λ copy. frame_of copy ≡ frame_of self.now) }
    {
        let alloc = *self.slots.allocator();
        Ok(Frame {
            place: self.place,
            slots: SmallVec::from_slice(alloc, self.slots.as_slice())?,
            top: self.top,
            privates: SmallVec::from_slice(alloc, self.privates.as_slice())?,
            counters: SmallVec::from_slice(alloc, self.counters.as_slice())?,
            inner: self.inner,
            number: self.number,
            index: self.index,
            fault: self.fault,
        })
    }

    /// Becomes equal to another frame, in the room that it has. It takes memory only where that is
    /// too little; where memory is refused it is as before.
    pub fn copy_from(&mut self, other: &Frame) -> Result<(), AllocError>
        ensures ok { OnOk result (frame_of self.new ≡ frame_of other.now) }
        ensures err { OnErr result (frame_of self.new ≡ frame_of self.old) }
    {
        make_room(&mut self.slots, other.slots.len())?;
        make_room(&mut self.privates, other.privates.len())?;
        make_room(&mut self.counters, other.counters.len())?;
        refill(&mut self.slots, other.slots.as_slice());
        refill(&mut self.privates, other.privates.as_slice());
        refill(&mut self.counters, other.counters.as_slice());
        self.place = other.place;
        self.top = other.top;
        self.inner = other.inner;
        self.number = other.number;
        self.index = other.index;
        self.fault = other.fault;
        Ok(())
    }

    /// Its place in the code.
    #[inline(always)]
    pub fn stands_at(&self) -> usize
        ensures { result ≡ (frame_of self.now).place }
    {
        self.place
    }

    /// The number of the iteration whose frame it is; `None` of main.
    pub fn iteration(&self) -> Option<u128>
        ensures { result ≡ (frame_of self.now).number }
    {
        self.number
    }
}
