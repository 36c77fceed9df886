//! Where activities stand.

ghost use Rattle.std.specs.Prelude.{◌≡◌, ◌++◌, OnOk, Some, slice_get};
ghost use Rattle.machine.specs.CodeView.{code_of};
ghost use Rattle.machine.specs.FrameView.{frame_of};
ghost use Rattle.state_lines.specs.States.{activity_words, line_at, line_of, number_words};

use ast::Line;
use explanations::append_number;
use machine::{Code, Frame};
use std::alloc::AllocError;

/// Appends which activity has this number: an iteration, or main, which has none.
fn append_activity(out: &mut Vec<u8>, number: Option<u128>) -> Result<(), AllocError>
    ensures { OnOk result (out.new.items ≡ out.old.items ++ number_words number) }
{
    match number {
        None => out.extend_from_slice(b" MAIN"),
        Some(number) => {
            out.extend_from_slice(b" ITERATION ")?;
            append_number(out, number)
        }
    }
}

/// The line of the instruction at a place; 0 where there is none.
fn line_at(code: &Code, place: usize) -> Line
    ensures { result ≡ line_at (slice_get (code_of code.now).instructions place) }
{
    match code.instructions.get(place) {
        Some(instruction) => instruction.line,
        None => 0,
    }
}

/// The line of the source at which a frame stands: that of its fault, if it has one.
fn line_of(code: &Code, frame: &Frame) -> Line
    ensures { result ≡ line_of (code_of code.now) (frame_of frame.now) }
{
    match frame.fault() {
        Some((_, line)) => line,
        None => line_at(code, frame.place()),
    }
}

/// Appends which activity has a frame, and where it stands.
pub fn append_stand(out: &mut Vec<u8>, code: &Code, frame: &Frame) -> Result<(), AllocError>
    ensures { OnOk result (out.new.items
        ≡ out.old.items ++ activity_words (code_of code.now) (Some (frame_of frame.now))) }
{
    append_activity(out, frame.iteration())?;
    out.extend_from_slice(b" PLACE ")?;
    append_number(out, frame.place())?;
    out.extend_from_slice(b" LINE ")?;
    append_number(out, line_of(code, frame))
}
