//! Which statements are sources, however many there are.

ghost use Rattle.std.specs.Prelude.{◌≡◌, [], IfOk, OnOk, map, slice_get, true};
ghost use Rattle.ast.specs.View.{letters};
ghost use Rattle.loop_tree.specs.TreeView.{seen};
ghost use Rattle.placement.specs.Looked as spec;
ghost use Rattle.placement.specs.Looked.{AllRelate, HasForms, HaveForms, occurrence_in, shared_in};
ghost use Rattle.placement.specs.Placement.{AreSources, is_ascending};
ghost use Rattle.privatise.specs.Privates.{ArePrivate};

use crate::analysis::{Earlier, add_source, distance, related};
use crate::pairs::{Pairs, Shared};
use ast::Name;
use dependence::Recent;
use loop_tree::LoopView;
use std::alloc::{AllocError, Global};

/// Whether something is kept of a reference in one iteration and the one at a place, if there is
/// one, in a later one.
fn keeps_at(
    view: &LoopView<'_, '_>,
    pairs: &Pairs<'_>,
    first: &Shared<'_>,
    place: usize,
    recent: &mut Recent<Earlier>,
) -> bool
    requires first { HasForms (seen view.now) pairs.now.kinds.items first.now }
    requires all { HaveForms (seen view.now) pairs.now }
    requires recent { AllRelate (seen view.now) pairs.now.kinds.items
        (occurrence_in first.now) recent.old }
    ensures recent { AllRelate (seen view.now) pairs.now.kinds.items
        (occurrence_in first.now) recent.new }
    ensures kept { result
        ≡ spec.keeps_at (seen view.now) (occurrence_in first.now)
        (slice_get (shared_in pairs.now) place) }
{
    match pairs.shared.get(place) {
        Some(second) => { distance(related(view, &pairs.kinds, first, second, recent)).is_some() }
        None => false,
    }
}

/// Whether something is kept of a reference in one iteration and one of those at places in a later
/// one.
fn keeps(view: &LoopView<'_, '_>, pairs: &Pairs<'_>, first: &Shared<'_>, places: &[usize]) -> bool
    requires first { HasForms (seen view.now) pairs.now.kinds.items first.now }
    requires all { HaveForms (seen view.now) pairs.now }
    ensures { result
        ≡ spec.keeps (seen view.now) (shared_in pairs.now) (occurrence_in first.now) places.now }
{
    let mut recent = Recent::none();
    for place in places {
        if keeps_at(view, pairs, first, *place, &mut recent) {
            return true;
        }
    }
    false
}

/// Adds the statement of a reference to those that are sources, if something is kept of it.
fn add_if_source(
    view: &LoopView<'_, '_>,
    pairs: &Pairs<'_>,
    first: &Shared<'_>,
    sources: &mut Vec<usize>,
) -> Result<(), AllocError>
    requires first { HasForms (seen view.now) pairs.now.kinds.items first.now }
    requires all { HaveForms (seen view.now) pairs.now }
    requires ascending { is_ascending sources.old.items ≡ true }
    ensures sources { OnOk result (sources.new.items
        ≡ spec.sources_with (seen view.now) pairs.now (occurrence_in first.now) sources.old.items) }
    ensures ascending { OnOk result (is_ascending sources.new.items ≡ true) }
{
    let places = pairs.partners(&first.occurrence);
    if keeps(view, pairs, first, places) {
        add_source(sources, first.occurrence.statement)?;
    }
    Ok(())
}

/// The statements that are sources of what is kept among pairs.
fn sources_among(
    alloc: Global,
    view: &LoopView<'_, '_>,
    pairs: &Pairs<'_>,
) -> Result<Vec<usize>, AllocError>
    requires { HaveForms (seen view.now) pairs.now }
    ensures { IfOk result (λ sources. sources.items
        ≡ spec.sources_after (seen view.now) pairs.now (spec.shared_in pairs.now) []) }
{
    let mut sources = Vec::new(alloc);
    for first in &pairs.shared {
        add_if_source(view, pairs, first, &mut sources)?;
    }
    Ok(sources)
}

/// The statements of a loop that are sources of what is kept, in order, where each iteration has
/// private scalars of its own. There may be more of them than events.
pub fn sources(
    alloc: Global,
    view: &LoopView<'_, '_>,
    privates: &[Name],
) -> Result<Vec<usize>, AllocError>
    ensures { IfOk result (λ sources. ArePrivate (seen view.now) (map letters privates.now)
        → AreSources (seen view.now) sources.items) }
{
    let pairs = Pairs::new(alloc, view, privates)?;
    sources_among(alloc, view, &pairs)
}
