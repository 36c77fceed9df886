//! The four tests of two subscripts of one dimension.

ghost use Rattle.std.specs.Prelude.{◌≡◌, ◌<◌, ◌^◌, ◌-ℤ◌, ◌*ℤ◌, map, unsigned_abs};
ghost use Rattle.dependence.specs.Parts as parts;
ghost use Rattle.dependence.specs.Tests as spec;
ghost use Rattle.loop_tree.specs.TreeView.{seen};
ghost use Rattle.subscripts.specs.SharesView.{share as share_of};
ghost use Rattle.subscripts.specs.View.{form as form_of};

use crate::divisor::{gcd, with_gaps, with_others, with_varying};
use crate::relation::{Found, Reason, Relation};
use loop_tree::LoopView;
use subscripts::{Form, Share, factor_in, has_share};

/// Whether shares are of a scalar that the loop's range gives values.
fn has_varying(view: &LoopView<'_, '_>, shares: &[Share]) -> bool
    ensures { result ≡ spec.vary (seen view.now) (map share_of shares.now) }
{
    for share in shares {
        if view.assigns(share.cell) {
            return true;
        }
    }
    false
}

/// Whether the second takes each of the first's scalars as often, but for those that the range
/// gives values.
fn are_equal(view: &LoopView<'_, '_>, first: &[Share], second: &[Share]) -> bool
    ensures { result ≡ spec.no_gaps (seen view.now) (map share_of first.now)
        (map share_of second.now) }
{
    for share in first {
        if !view.assigns(share.cell) && share.factor.abs_diff(factor_in(second, share.cell)) != 0 {
            return false;
        }
    }
    true
}

/// Whether the second takes no scalar that the first lacks, but for those that the range gives
/// values.
fn are_no_others(view: &LoopView<'_, '_>, first: &[Share], second: &[Share]) -> bool
    ensures { result ≡ spec.no_others (seen view.now) (map share_of first.now)
        (map share_of second.now) }
{
    for share in second {
        if !view.assigns(share.cell)
            && !has_share(first, share.cell)
            && share.factor.unsigned_abs() != 0
        {
            return false;
        }
    }
    true
}

/// Whether forms take no scalar that the range gives values, and all others as often.
fn are_alike(view: &LoopView<'_, '_>, first: &Form, second: &Form) -> bool
    ensures { result ≡ spec.are_alike (seen view.now) (form_of first.now) (form_of second.now) }
{
    !has_varying(view, first.shares.as_slice())
        && !has_varying(view, second.shares.as_slice())
        && are_equal(view, first.shares.as_slice(), second.shares.as_slice())
        && are_no_others(view, first.shares.as_slice(), second.shares.as_slice())
}

/// Whether forms that are alike are two different constants.
fn are_constants(first: &Form, second: &Form) -> bool
    ensures { result ≡ spec.are_constants (form_of first.now) (form_of second.now) }
{
    first.coefficient == 0 && second.coefficient == 0 && first.constant != second.constant
}

/// Whether the forms are two different constants, but for scalars that they take alike.
pub fn by_constant(view: &LoopView<'_, '_>, first: &Form, second: &Form) -> bool
    ensures { result ≡ spec.by_constant (seen view.now) (form_of first.now) (form_of second.now) }
{
    are_alike(view, first, second) && are_constants(first, second)
}

/// Whether a number other than 0 doesn't divide another.
fn leaves_rest(divisor: u64, number: u64) -> bool
    ensures { result ≡ spec.leaves_rest divisor number }
{
    divisor != 0 && number % divisor != 0
}

/// What divides all but the constants, part by part.
fn divisor_by_parts(view: &LoopView<'_, '_>, first: &Form, second: &Form) -> u64
    ensures { result ≡ parts.divisor_by_parts (seen view.now) (form_of first.now)
        (form_of second.now) }
{
    let both = gcd(
        gcd(0, first.coefficient.unsigned_abs()),
        second.coefficient.unsigned_abs(),
    );
    let one = with_varying(view, both, first.shares.as_slice());
    let two = with_varying(view, one, second.shares.as_slice());
    let gaps = with_gaps(view, two, first.shares.as_slice(), second.shares.as_slice());
    with_others(
        view,
        gaps,
        first.shares.as_slice(),
        second.shares.as_slice(),
    )
}

/// What divides all but the constants.
fn divisor(view: &LoopView<'_, '_>, first: &Form, second: &Form) -> u64
    ensures { result ≡ spec.gcd_of
        (spec.divided (seen view.now) (form_of first.now) (form_of second.now)) }
{
    divisor_by_parts(view, first, second)
}

/// Whether what divides all but the constants doesn't divide their difference.
pub fn by_divisor(view: &LoopView<'_, '_>, first: &Form, second: &Form) -> bool
    ensures { result ≡ spec.by_divisor (seen view.now) (form_of first.now) (form_of second.now) }
{
    leaves_rest(
        divisor(view, first, second),
        first.constant.abs_diff(second.constant),
    )
}

fn only_positive(quotient: i128) -> Found
    ensures { result ≡ spec.only_positive quotient }
{
    if quotient > 0 {
        Found::Only(quotient.unsigned_abs())
    } else {
        Found::Nowhere
    }
}

/// A difference, exactly.
fn difference(a: i64, b: i64) -> i128
    ensures value { result ≡ a -ℤ b }
    ensures few { unsigned_abs result < 2 ^ 100 }
{
    i128::from(a) - i128::from(b)
}

/// A product, exactly.
fn stride(coefficient: i64, step: i64) -> i128
    ensures { result ≡ coefficient *ℤ step }
{
    i128::from(coefficient) * i128::from(step)
}

/// The positive whole number that a stride is to be taken to make a number.
fn by_stride(number: i128, stride: i128) -> Found
    requires { unsigned_abs number < 2 ^ 100 }
    ensures { result ≡ spec.by_stride number stride }
{
    if stride == 0 {
        Found::Nothing
    } else if number % stride == 0 {
        only_positive(number / stride)
    } else {
        Found::Nowhere
    }
}

/// At what distance equal coefficients meet.
fn at_step(step: Option<i64>, first: &Form, second: &Form) -> Found
    ensures { result ≡ spec.at_step step first.now.coefficient
        (first.now.constant -ℤ second.now.constant) }
{
    match step {
        None => Found::Nothing,
        Some(step) => by_stride(
            difference(first.constant, second.constant),
            stride(first.coefficient, step),
        ),
    }
}

/// At what distance the forms meet.
pub fn by_distance(view: &LoopView<'_, '_>, first: &Form, second: &Form) -> Found
    ensures { result ≡ spec.by_distance (seen view.now) (form_of first.now) (form_of second.now) }
{
    if are_alike(view, first, second) && first.coefficient == second.coefficient {
        at_step(view.step(), first, second)
    } else {
        Found::Nothing
    }
}

/// Whether iterations so far apart are never two of the loop's, as far as its trips are known.
fn is_beyond(trips: Option<u128>, distance: u128) -> bool
    ensures { result ≡ spec.is_beyond trips distance }
{
    match trips {
        Some(trips) => trips <= distance,
        None => false,
    }
}

/// Whether the forms meet at a distance alone that is beyond the loop's trips.
pub fn by_range(view: &LoopView<'_, '_>, first: &Form, second: &Form) -> bool
    ensures { result ≡ spec.by_range (seen view.now) (form_of first.now) (form_of second.now) }
{
    match by_distance(view, first, second) {
        Found::Only(distance) => is_beyond(view.trips(), distance),
        Found::Nothing | Found::Nowhere => false,
    }
}

fn by_found(dimension: usize, trips: Option<u128>, found: Found) -> Relation
    ensures { result ≡ spec.by_found dimension trips found }
{
    match found {
        Found::Nothing => Relation::Any,
        Found::Nowhere => Relation::Apart(dimension, Reason::Distance),
        Found::Only(distance) => {
            if is_beyond(trips, distance) {
                Relation::Apart(dimension, Reason::Range)
            } else {
                Relation::Distance(dimension, distance)
            }
        }
    }
}

/// What the tests give for a dimension. Whether the forms are alike is found once.
pub fn tested(view: &LoopView<'_, '_>, dimension: usize, first: &Form, second: &Form) -> Relation
    ensures { result ≡ spec.tested (seen view.now) dimension (form_of first.now)
        (form_of second.now) }
{
    let alike = are_alike(view, first, second);
    if alike && are_constants(first, second) {
        Relation::Apart(dimension, Reason::Constant)
    } else if by_divisor(view, first, second) {
        Relation::Apart(dimension, Reason::Divisor)
    } else if alike && first.coefficient == second.coefficient {
        by_found(dimension, view.trips(), at_step(view.step(), first, second))
    } else {
        Relation::Any
    }
}
