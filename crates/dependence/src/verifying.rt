//! The check of a relation that is claimed.

ghost use Rattle.std.specs.Prelude.{◌≡◌, map, option_map};
ghost use Rattle.ast.specs.Tree.{terms};
ghost use Rattle.ast.specs.View.{term};
ghost use Rattle.dependence.specs.Meets.{IfYes, PromisesIf};
ghost use Rattle.dependence.specs.Tests as spec;
ghost use Rattle.loop_tree.specs.Occurrences.{numbered};
ghost use Rattle.loop_tree.specs.TreeView.{seen};
ghost use Rattle.loop_tree.specs.View.{occurrence};
ghost use Rattle.subscripts.specs.View.{form as form_of, form_in};

use crate::compare::{by_constant, by_distance, by_divisor, by_range};
use crate::relation::{Found, Reason, Relation};
use ast::{Expr, RefId};
use loop_tree::{LoopView, Occurrence};
use subscripts::{Affine, Form, affine};

/// The nth of subscripts, counted from 1.
fn nth(subscripts: &[Expr], number: usize) -> Option<&Expr>
    ensures { option_map (λ e. term e.now) result
        ≡ spec.nth_term (terms (map term subscripts.now)) number }
{
    match subscripts {
        [] => None,
        [first, others @ ..] => match number {
            0 => None,
            1 => Some(first),
            _ => nth(others, number - 1),
        },
    }
}

/// The form of the nth.
fn form_at(view: &LoopView<'_, '_>, subscripts: &[Expr], number: usize) -> Affine
    ensures { form_in result
        ≡ spec.form_at (seen view.now) (terms (map term subscripts.now)) number }
{
    match nth(subscripts, number) {
        Some(subscript) => affine(subscript, view),
        None => Affine::NotAffine,
    }
}

fn is_only(found: Found, distance: u128) -> bool
    ensures { result ≡ spec.is_only found distance }
{
    match found {
        Found::Only(only) => only == distance,
        Found::Nothing | Found::Nowhere => false,
    }
}

fn is_nowhere(found: Found) -> bool
    ensures { result ≡ spec.is_nowhere found }
{
    match found {
        Found::Nowhere => true,
        Found::Nothing | Found::Only(_) => false,
    }
}

/// Whether the test that a reason names says so.
fn says_apart(view: &LoopView<'_, '_>, reason: Reason, first: &Form, second: &Form) -> bool
    ensures { result ≡ spec.says_apart (seen view.now) reason (form_of first.now)
        (form_of second.now) }
{
    match reason {
        Reason::Constant => by_constant(view, first, second),
        Reason::Divisor => by_divisor(view, first, second),
        Reason::Distance => is_nowhere(by_distance(view, first, second)),
        Reason::Range => by_range(view, first, second),
    }
}

/// Whether forms are apart by the test that a reason names.
pub fn are_apart(view: &LoopView<'_, '_>, reason: Reason, first: &Affine, second: &Affine) -> bool
    ensures { result ≡ spec.on_forms (form_in first.now) (form_in second.now) (λ f g.
        spec.says_apart (seen view.now) reason f g) }
{
    match first {
        Affine::Form(first) => match second {
            Affine::Form(second) => says_apart(view, reason, first, second),
            Affine::NotAffine => false,
        },
        Affine::NotAffine => false,
    }
}

/// Whether the distance test gives forms just this distance.
pub fn are_distant(view: &LoopView<'_, '_>, distance: u128, first: &Affine, second: &Affine) -> bool
    ensures { result ≡ spec.on_forms (form_in first.now) (form_in second.now) (λ f g.
        spec.is_only (spec.by_distance (seen view.now) f g) distance) }
{
    match first {
        Affine::Form(first) => match second {
            Affine::Form(second) => is_only(by_distance(view, first, second), distance),
            Affine::NotAffine => false,
        },
        Affine::NotAffine => false,
    }
}

fn is_verified(
    view: &LoopView<'_, '_>,
    first: &Occurrence<'_>,
    second: &Occurrence<'_>,
    relation: Relation,
) -> bool
    ensures { result ≡ spec.is_verified (seen view.now) (occurrence first.now)
        (occurrence second.now) relation }
{
    match relation {
        Relation::Apart(dimension, reason) => are_apart(
            view,
            reason,
            &form_at(view, first.subscripts, dimension),
            &form_at(view, second.subscripts, dimension),
        ),
        Relation::Distance(dimension, distance) => are_distant(
            view,
            distance,
            &form_at(view, first.subscripts, dimension),
            &form_at(view, second.subscripts, dimension),
        ),
        Relation::Any => true,
    }
}

fn is_any(relation: Relation) -> bool
    ensures { result ≡ spec.is_any relation }
{
    match relation {
        Relation::Any => true,
        Relation::Apart(_, _) | Relation::Distance(_, _) => false,
    }
}

fn is_claim_verified(view: &LoopView<'_, '_>, a: RefId, b: RefId, relation: Relation) -> bool
    ensures { result ≡ spec.verified (seen view.now) a.0 b.0 relation }
{
    match view.reference(a) {
        Some(a) => match view.reference(b) {
            Some(b) => is_verified(view, &a, &b, relation),
            None => is_any(relation),
        },
        None => is_any(relation),
    }
}

/// Whether the test that a relation names gives it, in the dimension that it names, for the
/// reference `a` in an iteration and the reference `b` in a later one, both in the loop's range.
/// Yes to `Any` always.
///
/// A yes to `Apart` says that they never meet, and one to `Distance` that they meet at that
/// distance alone.
pub fn verify(view: &LoopView<'_, '_>, a: RefId, b: RefId, relation: Relation) -> bool
    ensures exact { result ≡ spec.verified (seen view.now) a.0 b.0 relation }
    ensures promise { IfYes result
        (PromisesIf (seen view.now) (numbered (seen view.now).references a.0)
        (numbered (seen view.now).references b.0) relation) }
{
    is_claim_verified(view, a, b, relation)
}
