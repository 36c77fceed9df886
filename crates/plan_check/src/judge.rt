//! What is wrong with pairs of references.

ghost use Rattle.std.specs.Prelude.{◌≡◌, ◌&&◌, ◌||◌, IfSome, map, slice_get, true};
ghost use Rattle.ast.specs.View.{letters};
ghost use Rattle.loop_tree.specs.Loops.{Loop};
ghost use Rattle.loop_tree.specs.TreeView.{seen};
ghost use Rattle.loop_tree.specs.View.{occurrence as occurrence_of};
ghost use Rattle.plan_check.specs.Checking.{distance_of as distance_in};
ghost use Rattle.plan_check.specs.ClaimsView.{IsOrdered, claim_in};
ghost use Rattle.plan_check.specs.EntryView.{AllTell, Tells, entry as entry_of};
ghost use Rattle.plan_check.specs.EntryView.{verdict as verdict_of};
ghost use Rattle.plan_check.specs.Grouping.{with_groups, with_optional, with_places, with_row};
ghost use Rattle.plan_check.specs.GroupsView.{groups as groups_of};
ghost use Rattle.plan_check.specs.Judging as spec;
ghost use Rattle.subscripts.specs.View.{form_in};

use crate::claims::{Claims, Cursor};
use crate::entry::Entry;
use crate::groups::Partners;
use crate::lists::{flag_at, has_awaited};
use ast::Name;
use dependence::{Recent, Relation, has_name, have_same_forms, is_given};
use loop_tree::{LoopView, Occurrence};
use subscripts::Affine;

/// Whether all pairs so far are ahead of an advance, held by an await, and claimed truly.
#[derive(Clone, Copy)]
pub struct Verdict {
    pub ahead: bool,
    pub held: bool,
    pub claims: bool,
}

/// Whether an event is left that isn't advanced.
fn is_ahead(events: &[usize], free: &[bool]) -> bool
    ensures { result ≡ spec.is_ahead events.now free.now }
{
    for event in events {
        if flag_at(free, *event) {
            return true;
        }
    }
    false
}

/// Whether such an event is awaited so near.
fn is_held(events: &[usize], free: &[bool], near: &[Option<u128>], distance: u128) -> bool
    ensures { result ≡ spec.is_held events.now free.now near.now distance }
{
    for event in events {
        if flag_at(free, *event) && has_awaited(near, *event, distance) {
            return true;
        }
    }
    false
}

/// At which distance a pair is to be kept, if it is.
fn distance_of(claim: Option<Relation>) -> Option<u128>
    ensures { result ≡ distance_in claim }
{
    match claim {
        None => None,
        Some(Relation::Apart(_, _)) => None,
        Some(Relation::Distance(_, distance)) => Some(distance),
        Some(Relation::Any) => Some(1),
    }
}

fn is_true(
    view: &LoopView<'_, '_>,
    first: &Entry<'_, '_>,
    second: &Entry<'_, '_>,
    claim: Option<Relation>,
) -> bool
    ensures { result ≡ spec.is_given (seen view.now) (entry_of first.now) (entry_of second.now)
        claim }
{
    match claim {
        None => false,
        Some(relation) => is_given(view, &first.forms, &second.forms, relation),
    }
}

/// What was claimed of a reference and an earlier one with these forms, and whether it is true.
#[derive(Clone, Copy)]
pub struct Earlier<'e> {
    pub forms: &'e [Affine],
    pub claim: Option<Relation>,
    pub is_true: bool,
}

/// Whether a relation is claimed twice.
fn is_same_claim(one: Option<Relation>, other: Option<Relation>) -> bool
    ensures { result ≡ true → one ≡ other }
{
    match one {
        None => false,
        Some(one) => match other {
            None => false,
            Some(other) => one == other,
        },
    }
}

/// Whether a claim is true, if that was found of the same claim and the same forms.
fn like(earlier: &Option<Earlier<'_>>, claim: Option<Relation>, forms: &[Affine]) -> Option<bool>
    ensures { (l : Loop) (x y : spec.Entry) → IfSome earlier.now (Tells l x) → map form_in forms.now
        ≡ y.forms → IfSome result (λ t. t ≡ spec.is_given l x y claim) }
{
    match earlier {
        Some(earlier)
            if is_same_claim(earlier.claim, claim) && have_same_forms(earlier.forms, forms) => {
            Some(earlier.is_true)
        }
        _ => None,
    }
}

/// The same, if it is among the newest that was found.
fn found_like(
    recent: &Recent<Earlier<'_>>,
    claim: Option<Relation>,
    forms: &[Affine],
) -> Option<bool>
    ensures { (l : Loop) (x y : spec.Entry) → AllTell l x recent.now → map form_in forms.now
        ≡ y.forms → IfSome result (λ t. t ≡ spec.is_given l x y claim) }
{
    match like(&recent.newest, claim, forms) {
        Some(is_true) => Some(is_true),
        None => like(&recent.older, claim, forms),
    }
}

/// Whether a claim is true, which is found anew only where claim and forms are none of the newest.
fn judged<'e>(
    view: &LoopView<'_, '_>,
    first: &Entry<'_, '_>,
    second: &'e Entry<'_, '_>,
    claim: Option<Relation>,
    recent: &mut Recent<Earlier<'e>>,
) -> bool
    requires { AllTell (seen view.now) (entry_of first.now) recent.old }
    ensures tells { AllTell (seen view.now) (entry_of first.now) recent.new }
    ensures given { result ≡ spec.is_given (seen view.now) (entry_of first.now)
        (entry_of second.now) claim }
{
    if let Some(is_true) = found_like(recent, claim, &second.forms) {
        return is_true;
    }
    let is_true = is_true(view, first, second, claim);
    let forms = &second.forms;
    recent.add(Earlier {
        forms,
        claim,
        is_true,
    });
    is_true
}

/// Judges a pair by what is claimed of it.
fn judge_claim<'e>(
    verdict: &mut Verdict,
    view: &LoopView<'_, '_>,
    events: &[usize],
    first: &Entry<'_, '_>,
    second: &'e Entry<'_, '_>,
    claim: Option<Relation>,
    recent: &mut Recent<Earlier<'e>>,
)
    requires { AllTell (seen view.now) (entry_of first.now) recent.old }
    ensures tells { AllTell (seen view.now) (entry_of first.now) recent.new }
    ensures verdict { verdict_of verdict.new
        ≡ spec.by_claim (seen view.now) events.now (λ _ _. claim) (entry_of first.now)
        (entry_of second.now) claim (verdict_of verdict.old) }
{
    match distance_of(claim) {
        None => {}
        Some(distance) => {
            verdict.ahead = verdict.ahead && is_ahead(events, &first.note.free);
            verdict.held = verdict.held
                && is_held(events, &first.note.free, &second.note.near, distance);
        }
    }
    let is_true = judged(view, first, second, claim, recent);
    verdict.claims = verdict.claims && is_true;
}

/// Whether two references are to one variable, and one of them gives it a value.
fn is_pair(first: &Occurrence<'_>, second: &Occurrence<'_>) -> bool
    ensures { result ≡ spec.is_pair (occurrence_of first.now) (occurrence_of second.now) }
{
    first.reference.name == second.reference.name && (first.defines || second.defines)
}

fn judge_pair<'e>(
    verdict: &mut Verdict,
    view: &LoopView<'_, '_>,
    events: &[usize],
    claims: &Claims<'_>,
    cursor: &mut Cursor,
    first: &Entry<'_, '_>,
    second: &'e Entry<'_, '_>,
    recent: &mut Recent<Earlier<'e>>,
)
    requires ordered { IsOrdered claims.now }
    requires tells { AllTell (seen view.now) (entry_of first.now) recent.old }
    ensures tells { AllTell (seen view.now) (entry_of first.now) recent.new }
    ensures verdict { verdict_of verdict.new
        ≡ spec.with_pair (seen view.now) events.now (claim_in claims.now) (entry_of first.now)
        (entry_of second.now) (verdict_of verdict.old) }
{
    if !is_pair(first.occurrence, second.occurrence) {
        return;
    }
    let claim = claims.find(
        cursor,
        first.occurrence.reference.id,
        second.occurrence.reference.id,
    );
    judge_claim(verdict, view, events, first, second, claim, recent);
}

/// Judges a reference with the one at a place.
fn judge_at<'e>(
    verdict: &mut Verdict,
    view: &LoopView<'_, '_>,
    events: &[usize],
    claims: &Claims<'_>,
    cursor: &mut Cursor,
    first: &Entry<'_, '_>,
    entries: &'e [Entry<'_, '_>],
    place: usize,
    recent: &mut Recent<Earlier<'e>>,
)
    requires ordered { IsOrdered claims.now }
    requires tells { AllTell (seen view.now) (entry_of first.now) recent.old }
    ensures tells { AllTell (seen view.now) (entry_of first.now) recent.new }
    ensures verdict { verdict_of verdict.new
        ≡ with_optional (seen view.now) events.now (claim_in claims.now) (entry_of first.now)
        (slice_get (map entry_of entries.now) place) (verdict_of verdict.old) }
{
    if place < entries.len() {
        let second = &entries[place];
        judge_pair(verdict, view, events, claims, cursor, first, second, recent);
    }
}

/// Judges a reference with those at places.
fn judge_partners(
    verdict: &mut Verdict,
    view: &LoopView<'_, '_>,
    events: &[usize],
    claims: &Claims<'_>,
    cursor: &mut Cursor,
    first: &Entry<'_, '_>,
    entries: &[Entry<'_, '_>],
    places: &[usize],
)
    requires { IsOrdered claims.now }
    ensures { verdict_of verdict.new
        ≡ with_places (seen view.now) events.now (claim_in claims.now) (entry_of first.now)
        (map entry_of entries.now) places.now (verdict_of verdict.old) }
{
    let mut recent = Recent::none();
    for place in places {
        judge_at(
            verdict,
            view,
            events,
            claims,
            cursor,
            first,
            entries,
            *place,
            &mut recent,
        );
    }
}

/// Whether a variable is the loop's, or each iteration has one of its own.
fn is_own(view: &LoopView<'_, '_>, privates: &[Name], occurrence: &Occurrence<'_>) -> bool
    ensures { result ≡ spec.is_own (seen view.now) (map letters privates.now)
        (occurrence_of occurrence.now) }
{
    occurrence.reference.name == view.head().variable.name
        || has_name(privates, occurrence.reference.name)
}

fn judge_entry(
    verdict: &mut Verdict,
    view: &LoopView<'_, '_>,
    events: &[usize],
    claims: &Claims<'_>,
    cursor: &mut Cursor,
    privates: &[Name],
    first: &Entry<'_, '_>,
    entries: &[Entry<'_, '_>],
    places: &[usize],
)
    requires { IsOrdered claims.now }
    ensures { verdict_of verdict.new
        ≡ with_row (seen view.now) events.now (claim_in claims.now) (map letters privates.now)
        (entry_of first.now) (map entry_of entries.now) places.now (verdict_of verdict.old) }
{
    if !is_own(view, privates, first.occurrence) {
        judge_partners(
            verdict, view, events, claims, cursor, first, entries, places,
        );
    }
}

/// Judges each reference with its partners.
pub fn judge(
    view: &LoopView<'_, '_>,
    events: &[usize],
    claims: &Claims<'_>,
    privates: &[Name],
    entries: &[Entry<'_, '_>],
    partners: &Partners,
) -> Verdict
    requires { IsOrdered claims.now }
    ensures { verdict_of result
        ≡ with_groups (seen view.now) events.now (claim_in claims.now) (map letters privates.now)
        (groups_of partners.now.all) (groups_of partners.now.defining)
        (map entry_of entries.now) (map entry_of entries.now) spec.best }
{
    let mut verdict = Verdict {
        ahead: true,
        held: true,
        claims: true,
    };
    let mut cursor = Cursor::new();
    for first in entries {
        judge_entry(
            &mut verdict,
            view,
            events,
            claims,
            &mut cursor,
            privates,
            first,
            entries,
            partners.of(first.occurrence),
        );
    }
    verdict
}
