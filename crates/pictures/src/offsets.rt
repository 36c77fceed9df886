//! How far apart two references are that meet, in the iterations of one loop.

use dependence::{Reason, Relation, have_same_forms, relate_forms};
use loop_tree::LoopView;
use subscripts::{Affine, Form};

/// How many iterations later the second of two references is where they meet.
#[derive(Clone, Copy, PartialEq, Eq)]
pub enum Offset {
    Unknown,
    /// They never meet.
    Nowhere,
    Same,
    Later(u128),
    Earlier(u128),
}

impl Offset {
    /// What two dimensions say together.
    fn and(self, other: Offset) -> Offset {
        match (self, other) {
            (Offset::Unknown, offset) | (offset, Offset::Unknown) => offset,
            (one, two) if one == two => one,
            _ => Offset::Nowhere,
        }
    }
}

/// The form of a dimension, if it has one.
fn form_of(dimension: &[Affine]) -> Option<&Form> {
    match dimension {
        [Affine::Form(form)] => Some(form),
        _ => None,
    }
}

/// Whether the forms of two dimensions have the same constant.
fn have_same_constant(first: &[Affine], second: &[Affine]) -> bool {
    match (form_of(first), form_of(second)) {
        (Some(first), Some(second)) => first.constant == second.constant,
        _ => false,
    }
}

/// What one dimension says that gives no positive distance.
fn backwards(view: &LoopView<'_, '_>, first: &[Affine], second: &[Affine]) -> Offset {
    match relate_forms(view, second, first) {
        Relation::Distance(_, distance) => Offset::Earlier(distance),
        _ if have_same_constant(first, second) => Offset::Same,
        _ => Offset::Nowhere,
    }
}

/// What one dimension says, by its forms.
fn in_dimension(view: &LoopView<'_, '_>, first: &[Affine], second: &[Affine]) -> Offset {
    match relate_forms(view, first, second) {
        Relation::Any => Offset::Unknown,
        Relation::Distance(_, distance) => Offset::Later(distance),
        Relation::Apart(_, Reason::Distance) => backwards(view, first, second),
        Relation::Apart(_, _) => Offset::Nowhere,
    }
}

/// Whether a form of the inner loop takes nothing that iterations of the outer one give values.
fn is_own(outer: &LoopView<'_, '_>, form: &Affine) -> bool {
    match form {
        Affine::Form(form) => form.shares.as_slice().iter().all(|share| {
            share.cell != outer.head().variable.cell && !outer.assigns(share.cell)
        }),
        Affine::NotAffine => false,
    }
}

/// Whether subscripts of the inner loop take nothing that iterations of the outer one give values,
/// so that each of these has the same elements.
pub fn are_own(outer: &LoopView<'_, '_>, forms: &[Affine]) -> bool {
    forms.iter().all(|form| is_own(outer, form))
}

/// Whether a form is the same number in all iterations of a loop.
fn is_steady(view: &LoopView<'_, '_>, form: &Affine) -> bool {
    match form {
        Affine::Form(form) => {
            form.coefficient == 0
                && form
                    .shares
                    .as_slice()
                    .iter()
                    .all(|share| !view.assigns(share.cell))
        }
        Affine::NotAffine => false,
    }
}

/// Whether two dimensions have the same form, or both none.
fn is_alike(one: &[Affine], two: &[Affine]) -> bool {
    match (one, two) {
        ([Affine::NotAffine], [Affine::NotAffine]) => true,
        _ => have_same_forms(one, two),
    }
}

/// Whether two references to one variable have the same forms, as far as they have any.
pub fn are_alike(first: &[Affine], second: &[Affine]) -> bool {
    let mut pairs = first.chunks(1).zip(second.chunks(1));
    pairs.all(|(one, two)| is_alike(one, two))
}

/// Whether two references are to one place, the same in all iterations of a loop.
pub fn is_one_place(view: &LoopView<'_, '_>, first: &[Affine], second: &[Affine]) -> bool {
    have_same_forms(first, second) && first.iter().all(|form| is_steady(view, form))
}

/// What the dimensions say together of the iterations of a loop.
pub fn outer_offset(view: &LoopView<'_, '_>, first: &[Affine], second: &[Affine]) -> Offset {
    let mut offset = Offset::Unknown;
    for (one, two) in first.chunks(1).zip(second.chunks(1)) {
        offset = offset.and(in_dimension(view, one, two));
    }
    offset
}

/// The same of the inner one of two loops, in whatever iterations of the outer one the references
/// are.
pub fn inner_offset(
    outer: &LoopView<'_, '_>,
    inner: &LoopView<'_, '_>,
    first: &[Affine],
    second: &[Affine],
) -> Offset {
    let mut offset = Offset::Unknown;
    for (one, two) in first.chunks(1).zip(second.chunks(1)) {
        if are_own(outer, one) && are_own(outer, two) {
            offset = offset.and(in_dimension(inner, one, two));
        }
    }
    offset
}
