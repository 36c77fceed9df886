//! The dimensions of arrays.

ghost use Rattle.std.specs.Prelude.{◌≡◌, ◌+◌, ◌*◌, ◌<◌, ◌≤◌, ◌^◌, IfOk, OnOk, Option, filter};
ghost use Rattle.std.specs.Prelude.{is_none, length, map, option_map, unsigned_abs};
ghost use Rattle.std.specs.List.{list_any};
ghost use Rattle.indexmap.specs.IndexMap.{insert_entry};
ghost use Rattle.ast.specs.Store.{same_name};
ghost use Rattle.ast.specs.Symbols.{elements, width};
ghost use Rattle.ast.specs.View as view;
ghost use Rattle.profile_check.specs.Counted as counting;
ghost use Rattle.profile_check.specs.Declarations as spec;
ghost use Rattle.profile_check.specs.DeclaredView.{arrays_of, constants_of};
ghost use Rattle.profile_check.specs.Rules as rules;
ghost use Rattle.profile_check.specs.Uses.{has_bounds};

use crate::constants::{Constants, constant_value};
use crate::kinds::is_integral;
use ast::{Bounds, Declarator, Dimension, Expr, Name};
use indexmap::IndexMap;
use std::alloc::{AllocError, Global};

/// The dimensions of arrays.
pub type Arrays = IndexMap<Name, Vec<Dimension>>;

/// The most dimensions of an array.
const MOST_DIMENSIONS: usize = 7;

/// The value of a bound, if it has one: a logical bound has none.
fn bound_value(constants: &Constants, bound: &Expr) -> Option<i64>
    ensures { result ≡ spec.bound_value (constants_of constants.now.entries) (view.term bound.now) }
{
    if is_integral(bound) {
        constant_value(constants, bound)
    } else {
        None
    }
}

/// The value of a lower bound, 1 where it is absent.
fn lower_value(constants: &Constants, lower: &Option<Expr>) -> Option<i64>
    ensures { result ≡ spec.lower_value (constants_of constants.now.entries)
        (view.optional_term lower.now) }
{
    match lower {
        Some(expression) => bound_value(constants, expression),
        None => Some(1),
    }
}

/// A dimension by its bounds, if both have values.
fn dimension_of(constants: &Constants, bounds: &Bounds) -> Option<Dimension>
    ensures { option_map view.extent result
        ≡ spec.extent_of (constants_of constants.now.entries) (view.bounds bounds.now) }
{
    let lower = lower_value(constants, &bounds.lower)?;
    let upper = bound_value(constants, &bounds.upper)?;
    Some(Dimension { lower, upper })
}

/// Whether a dimension's upper bound is below the lower.
fn is_crossed(constants: &Constants, bounds: &Bounds) -> bool
    ensures { result ≡ rules.is_crossed
        (spec.extent_of (constants_of constants.now.entries) (view.bounds bounds.now)) }
{
    match dimension_of(constants, bounds) {
        Some(dimension) => dimension.upper < dimension.lower,
        None => false,
    }
}

fn are_crossed(constants: &Constants, bounds: &[Bounds]) -> bool
    ensures { result ≡ list_any (λ b.
        rules.is_crossed (spec.extent_of (constants_of constants.now.entries) b))
        (map view.bounds bounds.now) }
{
    for dimension in bounds {
        if is_crossed(constants, dimension) {
            return true;
        }
    }
    false
}

/// Whether a lower bound is a constant expression without a value.
fn lacks_lower(constants: &Constants, lower: &Option<Expr>) -> bool
    ensures { result ≡ rules.is_some_and (λ e.
        is_none (spec.constant_value (constants_of constants.now.entries) e))
        (view.optional_term lower.now) }
{
    match lower {
        Some(expression) => constant_value(constants, expression).is_none(),
        None => false,
    }
}

/// Whether one of two bounds is a constant expression without a value.
fn lacks_either(constants: &Constants, bounds: &Bounds) -> bool
    ensures { result ≡ rules.lacks_either (constants_of constants.now.entries)
        (view.bounds bounds.now) }
{
    lacks_lower(constants, &bounds.lower) || constant_value(constants, &bounds.upper).is_none()
}

fn lacks_bound(constants: &Constants, bounds: &[Bounds]) -> bool
    ensures { result ≡ list_any (rules.lacks_either (constants_of constants.now.entries))
        (map view.bounds bounds.now) }
{
    for dimension in bounds {
        if lacks_either(constants, dimension) {
            return true;
        }
    }
    false
}

#[tactic(auto, using(crate::proofs::Entries::bounds_length))]
fn is_ill_bounded(constants: &Constants, declarator: &Declarator) -> bool
    ensures { result ≡ rules.is_ill_bounded (constants_of constants.now.entries)
        (view.declarator declarator.now) }
{
    declarator.bounds.len() > MOST_DIMENSIONS || are_crossed(constants, &declarator.bounds)
}

/// Whether a declarator declares an array.
#[tactic(auto, using(crate::proofs::Entries::bounds_length))]
pub fn has_bounds(declarator: &Declarator) -> bool
    ensures { result ≡ has_bounds (view.declarator declarator.now) }
{
    declarator.bounds.len() > 0
}

/// Whether an array has more than seven dimensions or crossed bounds.
pub fn crosses_bounds(constants: &Constants, declared: &[Declarator]) -> bool
    ensures { result ≡ list_any (rules.is_ill_bounded (constants_of constants.now.entries))
        (filter has_bounds (map view.declarator declared.now)) }
{
    for declarator in declared {
        if has_bounds(declarator) && is_ill_bounded(constants, declarator) {
            return true;
        }
    }
    false
}

/// Whether a bound of an array has no value.
pub fn lacks_bounds(constants: &Constants, declared: &[Declarator]) -> bool
    ensures { result ≡ list_any (rules.lacks_bound (constants_of constants.now.entries))
        (filter has_bounds (map view.declarator declared.now)) }
{
    for declarator in declared {
        if has_bounds(declarator) && lacks_bound(constants, &declarator.bounds) {
            return true;
        }
    }
    false
}

/// How many values a subscript may have.
fn width(dimension: &Dimension) -> u128
    ensures width { result ≡ width (view.extent dimension.now) }
    ensures wide { result ≤ 2 ^ 64 }
{
    (i128::from(dimension.upper) - i128::from(dimension.lower)).unsigned_abs() + 1
}

/// How many dimensions a name has.
#[tactic(auto, using(crate::proofs::Entries::rank_found))]
pub fn rank(arrays: &Arrays, name: Name) -> usize
    ensures { result ≡ length (spec.dimensions_named (arrays_of arrays.now.entries) name.letters) }
{
    match arrays.get(&name) {
        Some(dimensions) => dimensions.len(),
        None => 0,
    }
}

/// The most elements that the arrays of a program have together.
pub const MOST_ELEMENTS: u128 = 1_048_576;

/// A count, no further than one more than the most.
fn few_or_more(count: u128) -> u128
    ensures count { result ≡ counting.few_or_more count }
    ensures few { result < 2 ^ 32 }
{
    if count > MOST_ELEMENTS {
        MOST_ELEMENTS + 1
    } else {
        count
    }
}

fn times(width: u128, few: u128) -> u128
    requires wide { width ≤ 2 ^ 64 }
    requires few { few < 2 ^ 32 }
    ensures count { result ≡ counting.few_or_more (width * few) }
    ensures small { result < 2 ^ 32 }
{
    few_or_more(width * few)
}

/// How many elements an array has, counted to one more than the most.
#[tactic(auto, using(crate::proofs::Sums::product_law))]
fn elements(dimensions: &[Dimension]) -> u128
    ensures elements { result ≡ counting.few_or_more (elements (map view.extent dimensions.now)) }
    ensures few { result < 2 ^ 32 }
{
    match dimensions {
        [] => 1,
        [dimension, others @ ..] => times(width(dimension), elements(others)),
    }
}

/// The dimensions of an array; none where a bound has no value.
fn dimensions_of(
    alloc: Global,
    constants: &Constants,
    bounds: &[Bounds],
) -> Result<Vec<Dimension>, AllocError>
    ensures { IfOk result (λ ds. map view.extent ds.items
        ≡ spec.or_no_extents
        (spec.extents_of (constants_of constants.now.entries) (map view.bounds bounds.now))) }
{
    let mut dimensions = Vec::new(alloc);
    for given in bounds {
        match dimension_of(constants, given) {
            Some(dimension) => dimensions.push(dimension)?,
            None => return Ok(Vec::new(alloc)),
        }
    }
    Ok(dimensions)
}

/// How many elements an array has, counted so; none where a bound has no value.
fn array_elements(dimensions: &[Dimension]) -> u128
    ensures elements { result
        ≡ counting.few_or_more (spec.array_elements (map view.extent dimensions.now)) }
    ensures few { result < 2 ^ 32 }
{
    match dimensions {
        [] => 0,
        [_first, _others @ ..] => elements(dimensions),
    }
}

#[tactic(auto, using(crate::proofs::Sums::sum_law))]
fn with_elements(total: u128, dimensions: &[Dimension]) -> u128
    requires { total < 2 ^ 32 }
    ensures sum { result ≡ counting.few_or_more
        (total + spec.array_elements (map view.extent dimensions.now)) }
    ensures few { result < 2 ^ 32 }
{
    few_or_more(total + array_elements(dimensions))
}

/// Takes in an array: how many elements there are with it.
#[tactic(auto, using(crate::proofs::Entries::array_added))]
fn add_array(
    alloc: Global,
    constants: &Constants,
    arrays: &mut Arrays,
    before: u128,
    declarator: &Declarator,
) -> Result<u128, AllocError>
    requires { before < 2 ^ 32 }
    ensures arrays { OnOk result (arrays_of arrays.new.entries
        ≡ insert_entry same_name (arrays_of arrays.old.entries) declarator.now.name.letters
        (spec.or_no_extents
        (spec.extents_of (constants_of constants.now.entries)
        (map view.bounds declarator.now.bounds.items)))) }
    ensures elements { IfOk result (λ total. total
        ≡ counting.few_or_more
        (before + spec.array_elements
        (spec.or_no_extents
        (spec.extents_of (constants_of constants.now.entries)
        (map view.bounds declarator.now.bounds.items))))) }
    ensures few { IfOk result (λ total. total < 2 ^ 32) }
{
    let dimensions = dimensions_of(alloc, constants, &declarator.bounds)?;
    let total = with_elements(before, &dimensions);
    arrays.insert(declarator.name, dimensions)?;
    Ok(total)
}

/// Takes in the arrays that a statement declares: how many elements there are with them.
pub fn add_arrays(
    alloc: Global,
    constants: &Constants,
    arrays: &mut Arrays,
    before: u128,
    declared: &[Declarator],
) -> Result<u128, AllocError>
    requires { before < 2 ^ 32 }
    ensures arrays { OnOk result (arrays_of arrays.new.entries
        ≡ spec.with_arrays (arrays_of arrays.old.entries)
        (spec.arrays_by (constants_of constants.now.entries)
        (filter has_bounds (map view.declarator declared.now)))) }
    ensures elements { IfOk result (λ total. total
        ≡ counting.counted before
        (spec.arrays_by (constants_of constants.now.entries)
        (filter has_bounds (map view.declarator declared.now)))) }
    ensures few { IfOk result (λ total. total < 2 ^ 32) }
{
    let mut total = before;
    for declarator in declared {
        if !has_bounds(declarator) {
            continue;
        }
        total = add_array(alloc, constants, arrays, total, declarator)?;
    }
    Ok(total)
}
