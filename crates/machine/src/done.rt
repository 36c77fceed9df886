//! Local work that has been done.

ghost use Rattle.std.specs.Prelude.{◌≡◌, ◌≤◌, Some};
ghost use Rattle.std.proofs.Props.{props};
ghost use Rattle.machine.specs.CodeView.{code_of};
ghost use Rattle.machine.specs.FrameView.{frame_of};
ghost use Rattle.machine.specs.Local.{locals};

use crate::code::Code;
use crate::frame::Frame;
use crate::working::local;
use std::alloc::AllocError;

/// Local work: so many local instructions of the code lead from one frame to another.
#[derive(Drop)]
pub struct Done<'c> {
    code: &'c Code,
    from: Frame,
    to: Frame,
    made: u32,
    ghost leads: { locals (code_of code.now).instructions made (frame_of from) ≡ Some (frame_of to) } by { Prim.hlevel props },
    ghost some: { 1 ≤ made },
    ghost few: { made ≤ 1024 },
}

impl<'c> Done<'c> {
    ghost use Rattle.std.specs.Prelude.{◌≡◌, ◌≤◌, IfOk, Some, true};
    ghost use Rattle.machine.specs.CodeView.{code_of};
    ghost use Rattle.machine.specs.FrameView.{frame_of};
    ghost use Rattle.machine.specs.Local.{Works, is_local, locals};

    /// Takes the local instructions that stand next, at least one and at most `n`.
    ///
    /// # Errors
    ///
    /// `AllocError` where memory is refused.
    pub fn work(code: &'c Code, from: Frame, n: u32) -> Result<Done<'c>, AllocError>
        requires stands { is_local (code_of code.now).instructions (frame_of from) ≡ true }
        requires some { 1 ≤ n }
        requires few { n ≤ 1024 }
        ensures code { IfOk result (λ done. code_of done.code.now ≡ code_of code.now) }
        ensures from { IfOk result (λ done. frame_of done.from ≡ frame_of from) }
        ensures works { IfOk result (λ done.
            Works (code_of code.now).instructions n (frame_of from) done.made (frame_of done.to)) }
    {
        let mut to = from.try_copy()?;
        let stop = local(code, &mut to, n);
        Ok(Done {
            code,
            from,
            to,
            made: stop.made,
        })
    }

    /// The code.
    pub fn code(&self) -> &'c Code
        ensures { code_of result.now ≡ code_of self.now.code.now }
    {
        self.code
    }

    /// The frame from which it leads.
    pub fn from(&self) -> &Frame
        ensures { frame_of result.now ≡ frame_of self.now.from }
    {
        &self.from
    }

    /// The frame to which it leads.
    pub fn to(&self) -> &Frame
        ensures { frame_of result.now ≡ frame_of self.now.to }
    {
        &self.to
    }

    /// The number of instructions, from 1 to 1,024.
    pub fn made(&self) -> u32
        ensures number { result ≡ self.now.made }
        ensures leads { locals (code_of self.now.code.now).instructions result
            (frame_of self.now.from) ≡ Some (frame_of self.now.to) }
    {
        self.made
    }

    /// The frame to which it leads.
    pub fn into_frame(self) -> Frame
        ensures { frame_of result ≡ frame_of self.entry.to }
    {
        self.to
    }
}
