//! What is kept of a loop's dependences.

ghost use Rattle.std.specs.List.{Contains};
ghost use Rattle.std.specs.Prelude.{◌≡◌, ◌↔◌, IfOk, IfSome, OnOk, map, slice_get, true};
ghost use Rattle.ast.specs.View.{letters};
ghost use Rattle.dependence.specs.Formed.{forms_of};
ghost use Rattle.dependence.specs.Tests.{relation as relation_of};
ghost use Rattle.loop_tree.specs.Loops.{Loop};
ghost use Rattle.loop_tree.specs.Occurrences.{Occurrence as Occurring};
ghost use Rattle.loop_tree.specs.TreeView.{seen};
ghost use Rattle.placement.specs.Analysed.{IsFound, Triple, are_sorted, triple};
ghost use Rattle.placement.specs.Looked as spec;
ghost use Rattle.placement.specs.Looked.{AllRelate, HasForms, HaveForms, Kinds, Relates, forms_at};
ghost use Rattle.placement.specs.Looked.{found_in, occurrence_in, shared_in};
ghost use Rattle.placement.specs.Placement.{is_ascending};
ghost use Rattle.privatise.specs.Privates.{ArePrivate};

use crate::nested::at;
use crate::pairs::{Pairs, Shared};
use ast::{MOST_EVENTS, Name};
use dependence::{Recent, Relation, Relations, relate_forms};
use loop_tree::LoopView;
use std::alloc::{AllocError, Global};
use subscripts::Affine;

/// A dependence that the tests don't refute: the numbers of its statements, and over how many
/// iterations it goes. They are ordered by the sink, then by the source.
#[derive(Clone, Copy, PartialEq, Eq, PartialOrd, Ord)]
pub struct Kept {
    pub sink: usize,
    pub source: usize,
    pub distance: u128,
}

/// What is kept of a loop's dependences.
#[derive(Drop)]
pub struct Analysis {
    /// The statements that are sources, in order. Their events have the numbers from 1 on.
    pub sources: Vec<usize>,
    /// In order, each once.
    pub kept: Vec<Kept>,
    /// The relation of each pair that is looked at, by the first reference and then the second.
    pub relations: Relations,
}

/// At which distance a relation is kept, if it is.
pub fn distance(relation: Relation) -> Option<u128>
    ensures { result ≡ spec.kept_distance relation }
{
    match relation {
        Relation::Apart(_, _) => None,
        Relation::Distance(_, distance) => Some(distance),
        Relation::Any => Some(1),
    }
}

/// Adds a statement to others in order, if it isn't among them.
pub fn add_source(sources: &mut Vec<usize>, statement: usize) -> Result<(), AllocError>
    requires { is_ascending sources.old.items ≡ true }
    ensures added { OnOk result (sources.new.items ≡ spec.with_source statement sources.old.items) }
    ensures ascending { OnOk result (is_ascending sources.new.items ≡ true) }
{
    match sources.binary_search(&statement) {
        Ok(_) => Ok(()),
        Err(place) => Ok(sources.insert(place, statement)?),
    }
}

/// The relation of a reference to an earlier one of this kind.
#[derive(Clone, Copy)]
pub struct Earlier {
    pub kind: usize,
    pub relation: Relation,
}

/// What was found, if it is of this kind.
fn like(earlier: &Option<Earlier>, kind: usize) -> Option<Relation>
    ensures { (l : Loop) (kinds : Kinds) (a b : Occurring)
        → IfSome earlier.now (Relates l kinds a) → forms_at kinds kind ≡ forms_of l b.subscripts
        → IfSome result (λ r. r ≡ relation_of l a b) }
{
    match earlier {
        Some(earlier) if earlier.kind == kind => Some(earlier.relation),
        _ => None,
    }
}

/// What was found of the same kind, if it is among the newest.
fn found_like(recent: &Recent<Earlier>, kind: usize) -> Option<Relation>
    ensures { (l : Loop) (kinds : Kinds) (a b : Occurring)
        → AllRelate l kinds a recent.now → forms_at kinds kind ≡ forms_of l b.subscripts
        → IfSome result (λ r. r ≡ relation_of l a b) }
{
    match like(&recent.newest, kind) {
        Some(relation) => Some(relation),
        None => like(&recent.older, kind),
    }
}

/// The relation of a reference to another, which is found anew only where its kind is none of the
/// newest.
pub fn related(
    view: &LoopView<'_, '_>,
    kinds: &[Vec<Affine>],
    first: &Shared<'_>,
    second: &Shared<'_>,
    recent: &mut Recent<Earlier>,
) -> Relation
    requires first { HasForms (seen view.now) kinds.now first.now }
    requires second { HasForms (seen view.now) kinds.now second.now }
    requires recent { AllRelate (seen view.now) kinds.now (occurrence_in first.now) recent.old }
    ensures recent { AllRelate (seen view.now) kinds.now (occurrence_in first.now) recent.new }
    ensures relation { result
        ≡ relation_of (seen view.now) (occurrence_in first.now) (occurrence_in second.now) }
{
    let kind = second.kind;
    if let Some(relation) = found_like(recent, kind) {
        return relation;
    }
    let relation = relate_forms(view, at(kinds, first.kind), at(kinds, kind));
    recent.add(Earlier { kind, relation });
    relation
}

/// Looks at a reference in one iteration and another in a later one, to which it has this relation.
fn look_at(
    first: &Shared<'_>,
    second: &Shared<'_>,
    relation: Relation,
    analysis: &mut Analysis,
) -> Result<(), AllocError>
    ensures sources { analysis.new.sources ≡ analysis.old.sources }
    ensures found { OnOk result (found_in analysis.new
        ≡ spec.with_relation (occurrence_in first.now) (occurrence_in second.now) relation
        (found_in analysis.old)) }
{
    let id = first.occurrence.reference.id;
    let other = second.occurrence.reference.id;
    analysis.relations.push(id, other, relation)?;
    if let Some(distance) = distance(relation) {
        analysis.kept.push(Kept {
            sink: second.occurrence.statement,
            source: first.occurrence.statement,
            distance,
        })?;
    }
    Ok(())
}

/// Looks at a reference in one iteration with the one at a place, if there is one, in a later one.
fn look_at_place(
    view: &LoopView<'_, '_>,
    pairs: &Pairs<'_>,
    first: &Shared<'_>,
    place: usize,
    recent: &mut Recent<Earlier>,
    analysis: &mut Analysis,
) -> Result<(), AllocError>
    requires first { HasForms (seen view.now) pairs.now.kinds.items first.now }
    requires all { HaveForms (seen view.now) pairs.now }
    requires recent { AllRelate (seen view.now) pairs.now.kinds.items
        (occurrence_in first.now) recent.old }
    ensures recent { AllRelate (seen view.now) pairs.now.kinds.items
        (occurrence_in first.now) recent.new }
    ensures sources { analysis.new.sources ≡ analysis.old.sources }
    ensures found { OnOk result (found_in analysis.new
        ≡ spec.after_some (seen view.now) (occurrence_in first.now)
        (slice_get (shared_in pairs.now) place) (found_in analysis.old)) }
{
    match pairs.shared.get(place) {
        Some(second) => {
            let relation = related(view, &pairs.kinds, first, second, recent);
            look_at(first, second, relation, analysis)
        }
        None => Ok(()),
    }
}

/// Looks at a reference in one iteration with those at places in a later one.
fn look_at_all(
    view: &LoopView<'_, '_>,
    pairs: &Pairs<'_>,
    first: &Shared<'_>,
    places: &[usize],
    analysis: &mut Analysis,
) -> Result<(), AllocError>
    requires first { HasForms (seen view.now) pairs.now.kinds.items first.now }
    requires all { HaveForms (seen view.now) pairs.now }
    ensures sources { OnOk result (analysis.new.sources ≡ analysis.old.sources) }
    ensures found { OnOk result (found_in analysis.new
        ≡ spec.after_places (seen view.now) (shared_in pairs.now) (occurrence_in first.now)
        places.now (found_in analysis.old)) }
{
    let mut recent = Recent::none();
    for place in places {
        look_at_place(view, pairs, first, *place, &mut recent, analysis)?;
    }
    Ok(())
}

/// Looks at a reference in one iteration with each of its partners in a later one.
fn look(
    view: &LoopView<'_, '_>,
    pairs: &Pairs<'_>,
    first: &Shared<'_>,
    analysis: &mut Analysis,
) -> Result<(), AllocError>
    requires first { HasForms (seen view.now) pairs.now.kinds.items first.now }
    requires all { HaveForms (seen view.now) pairs.now }
    requires ascending { is_ascending analysis.old.sources.items ≡ true }
    ensures found { OnOk result (found_in analysis.new
        ≡ spec.after_first (seen view.now) pairs.now (occurrence_in first.now)
        (found_in analysis.old)) }
    ensures ascending { OnOk result (is_ascending analysis.new.sources.items ≡ true) }
{
    let before = analysis.kept.len();
    let places = pairs.partners(&first.occurrence);
    look_at_all(view, pairs, first, places, analysis)?;
    if before < analysis.kept.len() {
        add_source(&mut analysis.sources, first.occurrence.statement)?;
    }
    Ok(())
}

/// Looks at each reference with its partners; `None` as soon as more than 64 statements are
/// sources.
fn look_at_each(
    alloc: Global,
    view: &LoopView<'_, '_>,
    pairs: &Pairs<'_>,
) -> Result<Option<Analysis>, AllocError>
    requires { HaveForms (seen view.now) pairs.now }
    ensures { IfOk result (λ found.
        spec.IsAllFound (spec.all_found (seen view.now) pairs.now) found) }
{
    let mut analysis = Analysis {
        sources: Vec::new(alloc),
        kept: Vec::new(alloc),
        relations: Relations::new(alloc),
    };
    for first in &pairs.shared {
        look(view, pairs, first, &mut analysis)?;
        if analysis.sources.len() > MOST_EVENTS {
            return Ok(None);
        }
    }
    Ok(Some(analysis))
}

/// Puts what is kept in order, each once.
fn put_in_order(kept: &mut Vec<Kept>)
    ensures sorted { are_sorted (map triple kept.new.items) ≡ true }
    ensures same { (k : Triple)
        → Contains (map triple kept.new.items) k ↔ Contains (map triple kept.old.items) k }
{
    kept.sort_unstable();
    kept.dedup();
}

/// What is kept of the dependences of a loop of which each iteration has private scalars of its
/// own; `None` where more than 64 statements are sources.
pub fn analyse(
    alloc: Global,
    view: &LoopView<'_, '_>,
    privates: &[Name],
) -> Result<Option<Analysis>, AllocError>
    ensures { IfOk result (λ found. ArePrivate (seen view.now) (map letters privates.now)
        → IsFound (seen view.now) (map letters privates.now) found) }
{
    let pairs = Pairs::new(alloc, view, privates)?;
    match look_at_each(alloc, view, &pairs)? {
        None => Ok(None),
        Some(mut analysis) => {
            put_in_order(&mut analysis.kept);
            Ok(Some(analysis))
        }
    }
}
