//! Relations of references whose forms are made once for all pairs.

ghost use Rattle.std.specs.Prelude.{◌≡◌, ◌+◌, ◌<◌, ◌^◌, IfOk, length, map, true};
ghost use Rattle.dependence.specs.Formed as spec;
ghost use Rattle.dependence.specs.Tests.{by_distance, is_only, on_forms, relation as relation_of};
ghost use Rattle.dependence.specs.Tests.{says_apart};
ghost use Rattle.loop_tree.specs.Occurrences.{Occurrence as Occurring};
ghost use Rattle.loop_tree.specs.TreeView.{seen};
ghost use Rattle.loop_tree.specs.View.{occurrence as occurrence_of};
ghost use Rattle.subscripts.specs.SharesView.{share};
ghost use Rattle.subscripts.specs.View.{form, form_in};

use crate::relating::{before, by_forms};
use crate::relation::{Reason, Relation};
use crate::verifying::{are_apart, are_distant};
use loop_tree::{LoopView, Occurrence};
use std::alloc::{AllocError, Global};
use subscripts::{Affine, Form, Share, affine};

/// The affine forms of a reference's subscripts, dimension by dimension; none of a scalar.
///
/// # Errors
///
/// `AllocError` where memory is refused.
pub fn forms(
    alloc: Global,
    view: &LoopView<'_, '_>,
    occurrence: &Occurrence<'_>,
) -> Result<Vec<Affine>, AllocError>
    ensures { IfOk result (λ forms. map form_in forms.items
        ≡ spec.forms_of (seen view.now) (occurrence_of occurrence.now).subscripts) }
{
    let mut forms = Vec::with_capacity(alloc, occurrence.subscripts.len())?;
    for subscript in occurrence.subscripts {
        forms.push(affine(subscript, view))?;
    }
    Ok(forms)
}

/// Whether two forms are the same.
fn is_same(first: &Affine, second: &Affine) -> bool
    ensures { result ≡ true → form_in first.now ≡ form_in second.now }
{
    match first {
        Affine::NotAffine => false,
        Affine::Form(first) => match second {
            Affine::NotAffine => false,
            Affine::Form(second) => is_same_line(first, second),
        },
    }
}

/// Whether shares are the same, one after another.
fn are_same_shares(first: &[Share], second: &[Share]) -> bool
    ensures { result ≡ true → map share first.now ≡ map share second.now }
{
    match first {
        [] => second.is_empty(),
        [one, others @ ..] => match second {
            [] => false,
            [other, rest @ ..] => {
                one.cell == other.cell
                    && one.factor == other.factor
                    && are_same_shares(others, rest)
            }
        },
    }
}

/// Whether two forms have the same constant, the same coefficient and the same shares.
fn is_same_line(first: &Form, second: &Form) -> bool
    ensures { result ≡ true → form first.now ≡ form second.now }
{
    first.constant == second.constant
        && first.coefficient == second.coefficient
        && are_same_shares(first.shares.as_slice(), second.shares.as_slice())
}

/// Whether the forms of two references are seen to be the same, dimension by dimension. So they are
/// where this is true; where their shares stand in another order it is false.
pub fn have_same_forms(first: &[Affine], second: &[Affine]) -> bool
    ensures { result ≡ true → map form_in first.now ≡ map form_in second.now }
{
    match first {
        [] => second.is_empty(),
        [one, others @ ..] => match second {
            [] => false,
            [other, rest @ ..] => is_same(one, other) && have_same_forms(others, rest),
        },
    }
}

/// What the dimensions from one on give.
fn by_dimensions(
    view: &LoopView<'_, '_>,
    dimension: usize,
    first: &[Affine],
    second: &[Affine],
) -> Relation
    requires { dimension + length first.now < 2 ^ 64 }
    ensures { result ≡ spec.by_forms (seen view.now) dimension (map form_in first.now)
        (map form_in second.now) }
{
    match first {
        [] => Relation::Any,
        [a, others @ ..] => match second {
            [] => Relation::Any,
            [b, rest @ ..] => match by_forms(view, dimension, a, b) {
                Relation::Apart(number, reason) => Relation::Apart(number, reason),
                relation => before(relation, by_dimensions(view, dimension + 1, others, rest)),
            },
        },
    }
}

/// The relation of a reference with the first forms in an iteration to one with the second in a
/// later one, as `relate` has it.
pub fn relate_forms(view: &LoopView<'_, '_>, first: &[Affine], second: &[Affine]) -> Relation
    ensures { (a b : Occurring) → map form_in first.now ≡ spec.forms_of (seen view.now) a.subscripts
        → map form_in second.now ≡ spec.forms_of (seen view.now) b.subscripts → result
        ≡ relation_of (seen view.now) a b }
{
    by_dimensions(view, 1, first, second)
}

/// The nth of forms, counted from 1.
fn nth(forms: &[Affine], number: usize) -> Option<&Affine>
    ensures { spec.present (λ f. form_in f.now) result
        ≡ spec.nth_form (map form_in forms.now) number }
{
    match forms {
        [] => None,
        [first, others @ ..] => match number {
            0 => None,
            1 => Some(first),
            _ => nth(others, number - 1),
        },
    }
}

fn is_apart(
    view: &LoopView<'_, '_>,
    reason: Reason,
    first: Option<&Affine>,
    second: Option<&Affine>,
) -> bool
    ensures { result ≡ on_forms (spec.present (λ f. form_in f.now) first.entry)
        (spec.present (λ f. form_in f.now) second.entry)
        (λ f g. says_apart (seen view.now) reason f g) }
{
    match first {
        Some(first) => match second {
            Some(second) => are_apart(view, reason, first, second),
            None => false,
        },
        None => false,
    }
}

fn is_distant(
    view: &LoopView<'_, '_>,
    distance: u128,
    first: Option<&Affine>,
    second: Option<&Affine>,
) -> bool
    ensures { result ≡ on_forms (spec.present (λ f. form_in f.now) first.entry)
        (spec.present (λ f. form_in f.now) second.entry)
        (λ f g. is_only (by_distance (seen view.now) f g) distance) }
{
    match first {
        Some(first) => match second {
            Some(second) => are_distant(view, distance, first, second),
            None => false,
        },
        None => false,
    }
}

/// Whether the test that a relation names gives it, on forms.
pub fn is_given(
    view: &LoopView<'_, '_>,
    first: &[Affine],
    second: &[Affine],
    relation: Relation,
) -> bool
    ensures { result ≡ spec.verified_by (seen view.now) (map form_in first.now)
        (map form_in second.now) relation }
{
    match relation {
        Relation::Apart(dimension, reason) => {
            is_apart(view, reason, nth(first, dimension), nth(second, dimension))
        }
        Relation::Distance(dimension, distance) => {
            is_distant(
                view,
                distance,
                nth(first, dimension),
                nth(second, dimension),
            )
        }
        Relation::Any => true,
    }
}
