//! The references of a loop that its iterations share.

ghost use Rattle.std.specs.Prelude.{◌≡◌, ◌<◌, ◌++◌, [], ◌∷◌, IfOk, IfSome, OnOk, ℕ};
ghost use Rattle.std.specs.Prelude.{if◌then◌else◌, length, map};
ghost use Rattle.ast.specs.View.{letters, ref};
ghost use Rattle.loop_tree.specs.TreeView.{seen};
ghost use Rattle.loop_tree.specs.View.{occurrence as occurrence_of};
ghost use Rattle.placement.specs.Listed.{list_at};
ghost use Rattle.placement.specs.Looked as spec;
ghost use Rattle.subscripts.specs.View.{form_in};

use crate::nested::{at, push_at};
use ast::{Name, Reference};
use dependence::{forms, has_name, have_same_forms};
use loop_tree::{LoopView, Occurrence};
use std::alloc::{AllocError, Global};
use subscripts::Affine;

/// So many of the newest kinds are asked whether one is a reference's.
const ASKED: usize = 128;

/// A reference that iterations share.
#[derive(Drop)]
pub struct Shared<'p> {
    pub occurrence: Occurrence<'p>,
    /// The number of the forms of its subscripts, among the kinds.
    pub kind: usize,
}

/// The references that iterations share, in order, and their places among these.
#[derive(Drop)]
pub struct Pairs<'p> {
    pub shared: Vec<Shared<'p>>,
    /// The forms that subscripts have, by their numbers: those of many references stand once.
    pub kinds: Vec<Vec<Affine>>,
    /// The places of those of a variable, by its cell.
    all: Vec<Vec<usize>>,
    /// The places of those that give it a value.
    defining: Vec<Vec<usize>>,
}

/// Whether a variable is the loop's, or each iteration has one of its own.
fn is_own(view: &LoopView<'_, '_>, privates: &[Name], reference: &Reference) -> bool
    ensures { result ≡ spec.is_own (seen view.now) (map letters privates.now) (ref reference.now) }
{
    reference.name == view.head().variable.name || has_name(privates, reference.name)
}

/// Adds the place of a reference to those of its variable, if it gives that a value.
fn add_defining(
    alloc: Global,
    defining: &mut Vec<Vec<usize>>,
    occurrence: &Occurrence<'_>,
    place: usize,
) -> Result<(), AllocError>
    ensures { OnOk result ((n : ℕ) → list_at defining.new.items n ≡ list_at defining.old.items n
        ++ (if spec.is_definition_of n (occurrence_of occurrence.now) then place ∷ [] else [])) }
{
    if occurrence.defines {
        push_at(alloc, defining, occurrence.reference.cell, place)?;
    }
    Ok(())
}

/// The number of these forms, if they are among the newest kinds.
fn recent_kind(kinds: &[Vec<Affine>], forms: &[Affine]) -> Option<usize>
    ensures same { IfSome result (λ n. map form_in (list_at kinds.now n) ≡ map form_in forms.now) }
    ensures inside { IfSome result (λ n. n < length kinds.now) }
{
    for kind in kinds.len().saturating_sub(ASKED)..kinds.len() {
        if have_same_forms(at(kinds, kind), forms) {
            return Some(kind);
        }
    }
    None
}

/// The number of these forms, which are added where they aren't among the newest kinds.
fn kind_of(kinds: &mut Vec<Vec<Affine>>, forms: Vec<Affine>) -> Result<usize, AllocError>
    ensures kept { spec.AreKept kinds.old.items kinds.new.items }
    ensures same { IfOk result (λ n. map form_in (list_at kinds.new.items n)
        ≡ map form_in forms.items) }
    ensures inside { IfOk result (λ n. n < length kinds.new.items) }
{
    if let Some(kind) = recent_kind(kinds, &forms) {
        return Ok(kind);
    }
    let kind = kinds.len();
    kinds.push(forms)?;
    Ok(kind)
}

/// Adds a shared reference.
fn add<'p>(alloc: Global, pairs: &mut Pairs<'p>, shared: Shared<'p>) -> Result<(), AllocError>
    requires { spec.AreGrouped pairs.old }
    ensures shared { OnOk result (pairs.new.shared.items ≡ pairs.old.shared.items ++ shared.entry
        ∷ []) }
    ensures kinds { pairs.new.kinds ≡ pairs.old.kinds }
    ensures grouped { OnOk result (spec.AreGrouped pairs.new) }
{
    let place = pairs.shared.len();
    let cell = shared.occurrence.reference.cell;
    push_at(alloc, &mut pairs.all, cell, place)?;
    add_defining(alloc, &mut pairs.defining, &shared.occurrence, place)?;
    pairs.shared.push(shared)?;
    Ok(())
}

/// Adds a reference if iterations share it.
fn add_if_shared<'p>(
    alloc: Global,
    view: &LoopView<'_, 'p>,
    privates: &[Name],
    occurrence: &Occurrence<'p>,
    pairs: &mut Pairs<'p>,
) -> Result<(), AllocError>
    requires forms { spec.HaveForms (seen view.now) pairs.old }
    requires grouped { spec.AreGrouped pairs.old }
    ensures shared { OnOk result
        (spec.HasOneMore (seen view.now) (map letters privates.now)
        (occurrence_of occurrence.now) pairs.old pairs.new) }
    ensures forms { OnOk result (spec.HaveForms (seen view.now) pairs.new) }
    ensures grouped { OnOk result (spec.AreGrouped pairs.new) }
{
    if is_own(view, privates, &occurrence.reference) {
        return Ok(());
    }
    let forms = forms(alloc, view, occurrence)?;
    let kind = kind_of(&mut pairs.kinds, forms)?;
    let occurrence = *occurrence;
    add(alloc, pairs, Shared { occurrence, kind })
}

impl<'p> Pairs<'p> {
    /// Those of a loop of which each iteration has private scalars of its own.
    pub fn new(
        alloc: Global,
        view: &LoopView<'_, 'p>,
        privates: &[Name],
    ) -> Result<Pairs<'p>, AllocError>
        ensures { IfOk result (λ pairs.
            spec.ArePairs (seen view.now) (map letters privates.now) pairs) }
    {
        let mut pairs = Pairs {
            shared: Vec::new(alloc),
            kinds: Vec::new(alloc),
            all: Vec::new(alloc),
            defining: Vec::new(alloc),
        };
        for occurrence in view.references() {
            add_if_shared(alloc, view, privates, occurrence, &mut pairs)?;
        }
        Ok(pairs)
    }

    /// The places of those that a reference is looked at with: of its variable, and one of the two
    /// gives it a value.
    pub fn partners(&self, occurrence: &Occurrence<'_>) -> &[usize]
        ensures { result.now ≡ spec.partners_of self.now (occurrence_of occurrence.now) }
    {
        let cell = occurrence.reference.cell;
        if occurrence.defines {
            at(&self.all, cell)
        } else {
            at(&self.defining, cell)
        }
    }
}
