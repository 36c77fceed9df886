//! What is seen of a loop: its lines and numbers, subscripts, pairs of elements, private scalars,
//! and what is in the way of it.

use crate::calls::{
    affine, first_read, first_shared, first_sources, line_around, private_scalars, references,
    relate, verify,
};
use ast::{Expr, Line, Name, RefId, Reference};
use dependence::Relation;
use loop_tree::{LoopView, Occurrence};
use std::alloc::{AllocError, Global};
use subscripts::{Affine, Share};

/// What is wanted of a loop.
#[derive(Clone, Copy)]
pub struct Shape<'a> {
    /// How many loops its program has.
    pub count: usize,
    pub line: Line,
    /// The line of the loop around it.
    pub around: Option<Line>,
    pub step: Option<i64>,
    pub trips: Option<u128>,
    /// The scalars that it assigns.
    pub assigned: &'a [Name],
    /// The lines of the references of its range.
    pub lines: &'a [Line],
}

/// Whether scalars have these names, in this order.
fn are_named(scalars: &[Reference], wanted: &[Name]) -> bool {
    for (place, scalar) in scalars.iter().enumerate() {
        if place >= wanted.len() || scalar.name != wanted[place] {
            return false;
        }
    }
    scalars.len() == wanted.len()
}

/// Whether references belong to statements of these lines, in this order.
fn are_on(references: &[Occurrence<'_>], lines: &[Line], wanted: &[Line]) -> bool {
    for (place, occurrence) in references.iter().enumerate() {
        let statement = occurrence.statement;
        if place >= wanted.len() || statement >= lines.len() || lines[statement] != wanted[place] {
            return false;
        }
    }
    references.len() == wanted.len()
}

/// Whether a loop has this shape. The lines are those of its program's statements.
pub fn is_shaped(view: &LoopView<'_, '_>, lines: &[Line], wanted: &Shape<'_>) -> bool {
    view.count() == wanted.count
        && view.line() == wanted.line
        && line_around(view) == wanted.around
        && view.step() == wanted.step
        && view.trips() == wanted.trips
        && are_named(view.assigned(), wanted.assigned)
        && are_on(references(view), lines, wanted.lines)
}

/// The constant of a subscript's form, the coefficient of the loop's variable and the factors of
/// other scalars.
pub type Form<'a> = (i64, i64, &'a [i64]);

/// The subscript of the first element of one dimension that a loop's range assigns.
fn assigned_at<'p>(references: &[Occurrence<'p>]) -> Option<&'p Expr> {
    for occurrence in references {
        if let [subscript] = occurrence.subscripts
            && occurrence.defines
        {
            return Some(subscript);
        }
    }
    None
}

/// Whether shares have these factors.
fn have_factors(shares: &[Share], wanted: &[i64]) -> bool {
    for (place, share) in shares.iter().enumerate() {
        if place >= wanted.len() || share.factor != wanted[place] {
            return false;
        }
    }
    shares.len() == wanted.len()
}

/// Whether a form is this one, or there is none.
fn is_form(found: &Affine, wanted: Option<Form<'_>>) -> bool {
    match (found, wanted) {
        (Affine::Form(form), Some((constant, coefficient, factors))) => {
            form.constant == constant
                && form.coefficient == coefficient
                && have_factors(form.shares.as_slice(), factors)
        }
        (Affine::NotAffine, None) => true,
        _ => false,
    }
}

/// Whether the subscript of the first element that a loop's range assigns has this form, or has
/// none.
pub fn is_formed(view: &LoopView<'_, '_>, wanted: Option<Form<'_>>) -> bool {
    match assigned_at(references(view)) {
        Some(subscript) => is_form(&affine(subscript, view), wanted),
        None => false,
    }
}

/// The element of an array at a place, from 0, among those of a loop's range in order of
/// evaluation, in which a right side goes first.
pub fn element_at(references: &[Occurrence<'_>], place: usize) -> Option<RefId> {
    let mut before: usize = 0;
    for occurrence in references {
        if !occurrence.subscripts.is_empty() {
            if before == place {
                return Some(occurrence.reference.id);
            }
            before = before.wrapping_add(1);
        }
    }
    None
}

/// Two elements, by their places: the first in an iteration, the second in a later one.
pub type Places = (usize, usize);

/// The elements at two places.
pub fn elements_at(view: &LoopView<'_, '_>, places: Places) -> Option<(RefId, RefId)> {
    let all = references(view);
    match (element_at(all, places.0), element_at(all, places.1)) {
        (Some(first), Some(second)) => Some((first, second)),
        _ => None,
    }
}

/// The relation of two elements, where that is verified, as is that nothing is known of them.
pub fn relation_of(view: &LoopView<'_, '_>, first: RefId, second: RefId) -> Option<Relation> {
    let relation = relate(view, first, second);
    if verify(view, first, second, relation) && verify(view, first, second, Relation::Any) {
        Some(relation)
    } else {
        None
    }
}

/// Whether two elements have this relation.
pub fn are_related(view: &LoopView<'_, '_>, places: Places, wanted: Relation) -> bool {
    match elements_at(view, places) {
        Some((first, second)) => relation_of(view, first, second) == Some(wanted),
        None => false,
    }
}

/// Whether a claim of two elements is verified, or isn't.
pub fn is_judged(
    view: &LoopView<'_, '_>,
    places: Places,
    claim: Relation,
    is_verified: bool,
) -> bool {
    match elements_at(view, places) {
        Some((first, second)) => {
            relation_of(view, first, second).is_some()
                && verify(view, first, second, claim) == is_verified
        }
        None => false,
    }
}

/// Whether a loop has these private scalars.
pub fn has_privates(
    alloc: Global,
    view: &LoopView<'_, '_>,
    wanted: &[Name],
) -> Result<bool, AllocError> {
    let found = private_scalars(alloc, view)?;
    Ok(found.names.as_slice() == wanted)
}

/// Whether the first READ of a loop's range stands on this line.
pub fn has_read(view: &LoopView<'_, '_>, wanted: Option<Line>) -> bool {
    first_read(view) == wanted
}

/// Whether this is the first variable of a loop's range that isn't private, with its line.
pub fn has_shared(
    alloc: Global,
    view: &LoopView<'_, '_>,
    wanted: Option<(Name, Line)>,
) -> Result<bool, AllocError> {
    Ok(first_shared(alloc, view)? == wanted)
}

/// Lines that are wanted.
#[derive(Clone, Copy)]
pub enum Lines<'a> {
    These(&'a [Line]),
    /// So many, of which this is the last.
    Many(usize, Line),
}

/// Whether these lines are wanted.
fn are_wanted(found: &[Line], wanted: Lines<'_>) -> bool {
    match wanted {
        Lines::These(lines) => found == lines,
        Lines::Many(count, last) => found.len() == count && found.last() == Some(&last),
    }
}

/// Whether the first sources of a loop stand on these lines.
pub fn has_sources(
    alloc: Global,
    view: &LoopView<'_, '_>,
    lines: &[Line],
    wanted: Lines<'_>,
) -> Result<bool, AllocError> {
    let found = first_sources(alloc, view, lines)?;
    Ok(are_wanted(&found, wanted))
}
