//! What a walk over a plan's body notes.

ghost use Rattle.std.specs.Prelude.{◌≡◌, OnOk, map};
ghost use Rattle.ast.specs.View.{letters, ref};
ghost use Rattle.plan_check.specs.KnownView.{known as known_of};
ghost use Rattle.plan_check.specs.SeenView.{seen as seen_of};
ghost use Rattle.plan_check.specs.Walking as spec;

use crate::known::Known;
use crate::lists::{flag_at, has_awaited};
use ast::{Name, Reference};
use dependence::has_name;
use std::alloc::{AllocError, Global};

/// A reference, and what is known of the events before it.
#[derive(Drop)]
pub struct Note {
    /// The reference.
    pub reference: Reference,
    /// Whether it is given a value.
    pub defines: bool,
    /// How near each path to it has awaited the events, by their numbers.
    pub near: Vec<Option<u128>>,
    /// Which events no path to it has advanced, by their numbers.
    pub free: Vec<bool>,
}

/// What a walk over a plan's body has found so far.
#[derive(Drop)]
pub struct Seen {
    /// A private scalar is used where some path hasn't given it a value.
    pub early: bool,
    /// An event is advanced where some path has advanced it, or hasn't awaited it at distance 1.
    pub disorder: bool,
    /// The references, in order.
    pub notes: Vec<Note>,
}

impl Seen {
    ghost use Rattle.std.specs.Prelude.{◌≡◌};
    ghost use Rattle.plan_check.specs.SeenView.{seen};
    ghost use Rattle.plan_check.specs.Walking.{nothing_seen};

    /// Nothing yet.
    pub fn new(alloc: Global) -> Seen
        ensures { seen result ≡ nothing_seen }
    {
        Seen {
            early: false,
            disorder: false,
            notes: Vec::new(alloc),
        }
    }
}

fn push_note(
    alloc: Global,
    seen: &mut Seen,
    reference: &Reference,
    defines: bool,
    known: &Known,
) -> Result<(), AllocError>
    ensures { OnOk result (seen_of seen.new
        ≡ spec.noted (ref reference.now) defines (known_of known.now) (seen_of seen.old)) }
{
    let made = Note {
        reference: *reference,
        defines,
        near: Vec::from_slice(alloc, &known.near)?,
        free: Vec::from_slice(alloc, &known.free)?,
    };
    seen.notes.push(made)?;
    Ok(())
}

/// Notes a reference that is used.
///
/// # Errors
///
/// `AllocError` where memory is refused.
pub fn note_use(
    alloc: Global,
    seen: &mut Seen,
    privates: &[Name],
    reference: &Reference,
    known: &Known,
) -> Result<(), AllocError>
    ensures { OnOk result (seen_of seen.new
        ≡ spec.used (map letters privates.now) (ref reference.now) (known_of known.now)
        (seen_of seen.old)) }
{
    if has_name(privates, reference.name) && !flag_at(&known.defined, reference.cell) {
        seen.early = true;
    }
    push_note(alloc, seen, reference, false, known)
}

/// Notes a reference that is given a value.
///
/// # Errors
///
/// `AllocError` where memory is refused.
pub fn note_definition(
    alloc: Global,
    seen: &mut Seen,
    privates: &[Name],
    reference: &Reference,
    known: &Known,
) -> Result<(), AllocError>
    ensures { OnOk result (seen_of seen.new
        ≡ spec.given (map letters privates.now) (ref reference.now) (known_of known.now)
        (seen_of seen.old)) }
{
    push_note(alloc, seen, reference, true, known)
}

/// Notes whether an event that is advanced is so out of order.
pub fn note_advance(seen: &mut Seen, privates: &[Name], event: usize, known: &Known)
    ensures { seen_of seen.new
        ≡ spec.moved_on (map letters privates.now) event (known_of known.now) (seen_of seen.old) }
{
    if !(flag_at(&known.free, event) && has_awaited(&known.near, event, 1)) {
        seen.disorder = true;
    }
}
