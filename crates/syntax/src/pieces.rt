//! Blanks and character constants.

ghost use Rattle.std.specs.Prelude.{◌≡◌, ℕ, List, [], ◌∷◌, ◌++◌, map, length, Some, OnOk, IfOk};
ghost use Rattle.syntax.specs.Pieces.{folded};
ghost use Rattle.ast.specs.Answers.{Gives};
ghost use Rattle.syntax.specs.Squeezing.{left_of, squeezed, finished};

use ast::{Line, Refusal, Rule};
use expressions::refused;
use std::alloc::{AllocError, Global};
use std::mem;

/// A statement's text without blanks, folded to upper case.
#[derive(Drop)]
pub struct Squeezed {
    /// The marks, an apostrophe for each character constant.
    pub marks: Vec<u8>,
    /// The texts of the character constants.
    pub constants: Vec<Vec<u8>>,
}

/// Where a byte stands.
#[derive(Clone, Copy)]
enum Place {
    Outside,
    /// In a character constant.
    Inside,
    /// Behind an apostrophe that ends a character constant, unless another apostrophe follows.
    Closing,
}

/// A text as far as it was read.
#[derive(Drop)]
struct Squeezing {
    marks: Vec<u8>,
    constants: Vec<Vec<u8>>,
    /// The text of the character constant that is read.
    open: Vec<u8>,
    place: Place,
}

/// The marks and the character constants of a text. Rule 21.
pub fn squeeze(alloc: Global, text: &[u8], line: Line) -> Result<Squeezed, Refusal>
    ensures { Gives (λ s. (s.marks.items, map (λ v. v.items) s.constants.items)) result
        (finished line (squeezed text.now)) }
{
    let mut state = begin(alloc, text.len())?;
    for byte in text {
        take(alloc, &mut state, *byte)?;
    }
    finish(state, line)
}

fn begin(alloc: Global, length: usize) -> Result<Squeezing, AllocError>
    ensures { IfOk result (λ s. (t : List ℕ) → left_of s t ≡ squeezed t) }
{
    Ok(Squeezing {
        marks: Vec::with_capacity(alloc, length)?,
        constants: Vec::new(alloc),
        open: Vec::new(alloc),
        place: Place::Outside,
    })
}

fn take(alloc: Global, state: &mut Squeezing, byte: u8) -> Result<(), AllocError>
    ensures { OnOk result ((t : List ℕ) → left_of state.new t ≡ left_of state.old (byte ∷ t)) }
{
    match state.place {
        Place::Outside => take_outside(state, byte),
        Place::Inside => take_inside(state, byte),
        Place::Closing => take_closing(alloc, state, byte),
    }
}

fn take_outside(state: &mut Squeezing, byte: u8) -> Result<(), AllocError>
    requires { state.old.place ≡ Place.Outside }
    ensures { OnOk result ((t : List ℕ) → left_of state.new t ≡ left_of state.old (byte ∷ t)) }
{
    if byte == b'\'' {
        state.marks.push(byte)?;
        state.place = Place::Inside;
    } else {
        push_folded(&mut state.marks, byte)?;
    }
    Ok(())
}

fn take_inside(state: &mut Squeezing, byte: u8) -> Result<(), AllocError>
    requires { state.old.place ≡ Place.Inside }
    ensures { OnOk result ((t : List ℕ) → left_of state.new t ≡ left_of state.old (byte ∷ t)) }
{
    if byte == b'\'' {
        state.place = Place::Closing;
    } else {
        state.open.push(byte)?;
    }
    Ok(())
}

fn take_closing(alloc: Global, state: &mut Squeezing, byte: u8) -> Result<(), AllocError>
    requires { state.old.place ≡ Place.Closing }
    ensures { OnOk result ((t : List ℕ) → left_of state.new t ≡ left_of state.old (byte ∷ t)) }
{
    if byte == b'\'' {
        state.open.push(byte)?;
        state.place = Place::Inside;
    } else {
        let closed = mem::replace(&mut state.open, Vec::new(alloc));
        state.constants.push(closed)?;
        push_folded(&mut state.marks, byte)?;
        state.place = Place::Outside;
    }
    Ok(())
}

/// Appends a byte as a statement reads it: a blank means nothing, and lower case is folded.
fn push_folded(marks: &mut Vec<u8>, byte: u8) -> Result<(), AllocError>
    ensures { OnOk result (marks.new.items ≡ marks.old.items ++ folded byte) }
{
    match byte {
        b' ' => {}
        b'a'..=b'z' => marks.push(byte - 32)?,
        _ => marks.push(byte)?,
    }
    Ok(())
}

/// What was read of a text that ends outside a character constant.
fn finish_outside(state: Squeezing) -> Squeezed
    requires { state.place ≡ Place.Outside }
    ensures { left_of state []
        ≡ Some (result.marks.items, map (λ v. v.items) result.constants.items) }
{
    let Squeezing {
        marks,
        constants,
        ..
    } = state;
    Squeezed { marks, constants }
}

/// What was read of a text that ends behind the apostrophe that closes a character constant.
fn finish_closing(state: Squeezing) -> Result<Squeezed, AllocError>
    requires { state.place ≡ Place.Closing }
    ensures { IfOk result (λ s. left_of state []
        ≡ Some (s.marks.items, map (λ v. v.items) s.constants.items)) }
{
    let Squeezing {
        marks,
        mut constants,
        open: last,
        ..
    } = state;
    constants.push(last)?;
    Ok(Squeezed { marks, constants })
}

fn finish(state: Squeezing, line: Line) -> Result<Squeezed, Refusal>
    ensures { Gives (λ s. (s.marks.items, map (λ v. v.items) s.constants.items)) result
        (finished line (left_of state [])) }
{
    match state.place {
        Place::Outside => Ok(finish_outside(state)),
        Place::Inside => Err(refused(Rule::UnendedText, line)),
        Place::Closing => Ok(finish_closing(state)?),
    }
}
