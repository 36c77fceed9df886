//! Stretches.

ghost use Rattle.std.proofs.Props.{props};
ghost use Rattle.std.specs.Prelude.{◌≡◌, true, false};
ghost use Rattle.machine.specs.CodeView.{code_of};
ghost use Rattle.machine.specs.FrameView.{frame_of};
ghost use Rattle.stretches.specs.Guesses.{notes_of};
ghost use Rattle.stretches.specs.Reached.{passed_by};
ghost use Rattle.stretches.specs.Stretches.{LeadsBy};

use crate::comparing::make_all;
use crate::guesses::Guesses;
use crate::mirror::Mirror;
use crate::reached::Reached;
use machine::{Code, Frame, Open, stride_past};
use std::alloc::{AllocError, Global};
use std::mem::swap;

/// Steps of a frame that were made on guesses, in room that is kept from one stretch to the next.
/// On all cells of which the notes hold, and past the awaits that are passed by counts that were
/// reached, they lead to the other frame, and to what the notes make of the cells.
#[derive(Drop)]
pub struct Stretch<'c> {
    pub code: &'c Code,
    /// The frame from which it leads.
    pub from: Frame,
    /// The frame to which it leads.
    pub to: Frame,
    pub guesses: Guesses<'c>,
    pub reached: Reached,
    /// Whether there is a frame from which it leads.
    pub loaded: bool,
    /// The number of steps; 0 where none has been made.
    pub made: u32,
    ghost leads: { loaded ≡ true → LeadsBy (passed_by reached) (code_of code.now) made
        (frame_of from) (frame_of to) (notes_of guesses) } by { Prim.hlevel props },
    ghost none: { loaded ≡ false → made ≡ 0 },
}

impl<'c> Stretch<'c> {
    ghost use Rattle.std.specs.Prelude.{◌≡◌, ◌≤◌, ◌+◌, IfOk, OnOk, OnErr, [], length};
    ghost use Rattle.std.specs.Prelude.{true, false};
    ghost use Rattle.machine.specs.CodeView.{code_of};
    ghost use Rattle.machine.specs.FrameView.{frame_of};
    ghost use Rattle.machine.specs.View.{begin, index_at};
    ghost use Rattle.stretches.specs.Guesses.{notes_of};
    ghost use Rattle.stretches.specs.Notes.{all_hold};
    ghost use Rattle.stretches.specs.Stretches.{Leads};

    /// Room for stretches of this code with `notes` accesses at most. None has been begun.
    ///
    /// # Errors
    ///
    /// `AllocError` where memory is refused.
    pub fn new(
        alloc: Global,
        code: &'c Code,
        mirror: &'c Mirror,
        notes: usize,
    ) -> Result<Stretch<'c>, AllocError>
        ensures code { IfOk result (λ s. code_of s.code.now ≡ code_of code.now) }
        ensures none { IfOk result (λ s. s.made ≡ 0) }
    {
        Ok(Stretch {
            code,
            from: Frame::main(alloc, code)?,
            to: Frame::main(alloc, code)?,
            guesses: Guesses::new(alloc, mirror, notes)?,
            reached: Reached::nothing(alloc),
            loaded: false,
            made: 0,
        })
    }

    /// The stretch is to lead from a frame equal to this one, of the iteration of that number,
    /// which passes awaits by these counts. No step has been made. Where memory is refused it leads
    /// nowhere until it is loaded again.
    ///
    /// # Errors
    ///
    /// `AllocError` where memory is refused.
    pub fn load(&mut self, from: &Frame, number: u128, counts: &[u128]) -> Result<(), AllocError>
        ensures code { code_of self.new.code.now ≡ code_of self.old.code.now }
        ensures none { self.new.made ≡ 0 }
        ensures notes { notes_of self.new.guesses ≡ [] }
        ensures from { OnOk result (frame_of self.new.from ≡ frame_of from.now) }
        ensures to { OnOk result (frame_of self.new.to ≡ frame_of from.now) }
        ensures loaded { OnOk result (self.new.loaded ≡ true) }
        ensures err { OnErr result (self.new.loaded ≡ false) }
    {
        self.loaded = false;
        self.made = 0;
        self.guesses.made = 0;
        self.reached.note(number, counts)?;
        self.from.copy_from(from)?;
        self.to.copy_from(from)?;
        self.loaded = true;
        Ok(())
    }

    /// The stretch is to lead from the frame of iteration `k` of an open loop as it begins, which
    /// passes awaits by these counts; `index` is the value that the loop's variable has in it. No
    /// step has been made. Where memory is refused it leads nowhere until it is loaded again.
    ///
    /// # Errors
    ///
    /// `AllocError` where memory is refused.
    pub fn begin(
        &mut self,
        opened: Open,
        k: u128,
        index: i64,
        counts: &[u128],
    ) -> Result<(), AllocError>
        requires { index ≡ index_at (code_of self.old.code.now) opened k }
        ensures code { code_of self.new.code.now ≡ code_of self.old.code.now }
        ensures none { self.new.made ≡ 0 }
        ensures notes { notes_of self.new.guesses ≡ [] }
        ensures from { OnOk result (frame_of self.new.from
            ≡ begin (code_of self.old.code.now) opened k) }
        ensures to { OnOk result (frame_of self.new.to ≡ frame_of self.new.from) }
        ensures loaded { OnOk result (self.new.loaded ≡ true) }
        ensures err { OnErr result (self.new.loaded ≡ false) }
    {
        self.loaded = false;
        self.made = 0;
        self.guesses.made = 0;
        self.reached.note(k, counts)?;
        self.from.restart(self.code, opened, k, index)?;
        self.to.copy_from(&self.from)?;
        self.loaded = true;
        Ok(())
    }

    /// Makes steps on guesses, at most `n`, behind those that were made since it was loaded.
    pub fn run(&mut self, n: u32)
        ensures code { code_of self.new.code.now ≡ code_of self.old.code.now }
        ensures from { frame_of self.new.from ≡ frame_of self.old.from }
        ensures reached { self.new.reached ≡ self.old.reached }
        ensures loaded { self.new.loaded ≡ self.old.loaded }
        ensures few { self.new.made ≤ self.old.made + n }
    {
        if !self.loaded {
            return;
        }
        let most = n.min(u32::MAX - self.made);
        let more = stride_past(
            self.code,
            &mut self.to,
            &mut self.guesses,
            &self.reached,
            most,
        );
        self.made += more;
    }

    /// Makes the steps on the frame and the cells themselves, where the frame is the one from which
    /// they lead and all notes hold; how many. Else it makes none. Afterwards none are left.
    /// Whether the counts were reached the caller knows.
    pub fn commit(&mut self, frame: &mut Frame, cells: &mut [i64]) -> u32
        ensures made { Leads (passed_by self.old.reached) (code_of self.old.code.now) result
            (frame_of frame.old) cells.old (frame_of frame.new) cells.new }
        ensures few { result ≤ self.old.made }
        ensures all { frame_of frame.old ≡ frame_of self.old.from
            → all_hold (notes_of self.old.guesses) cells.old ≡ true → result ≡ self.old.made }
        ensures frame { result ≡ 0 → frame_of frame.new ≡ frame_of frame.old }
        ensures cells { result ≡ 0 → cells.new ≡ cells.old }
        ensures length { length cells.new ≡ length cells.old }
        ensures code { code_of self.new.code.now ≡ code_of self.old.code.now }
        ensures notes { notes_of self.new.guesses ≡ notes_of self.old.guesses }
        ensures spent { self.new.made ≡ 0 }
    {
        let made = self.made;
        let whole = made > 0 && self.loaded && frame.is_same(&self.from);
        self.loaded = false;
        self.made = 0;
        if !whole || !make_all(self.guesses.noted(), cells) {
            return 0;
        }
        swap(frame, &mut self.to);
        made
    }

    /// The mirror is to show the values that the cells that are noted really have.
    pub fn mend(&self, cells: &[i64]) {
        for note in self.guesses.noted() {
            if let Some(value) = cells.get(note.cell) {
                self.guesses.mirror.correct(note.cell, *value);
            }
        }
    }
}
