//! Adding to a form, and subtracting from it, in its place.

ghost use Rattle.std.specs.Prelude.{◌≡◌, IfSome, option_map, pos};
ghost use Rattle.ast.specs.declared.expression.Prefix.TheVariants.{Minus};
ghost use Rattle.loop_tree.specs.TreeView.{seen};
ghost use Rattle.subscripts.specs.Proper.{IsProper, IsProperLeaf};
ghost use Rattle.subscripts.specs.Forms as spec;
ghost use Rattle.subscripts.specs.Leaves.{leaf_form};
ghost use Rattle.subscripts.specs.Steps.{Left};
ghost use Rattle.subscripts.specs.View.{form as form_of};

use crate::form::{Form, binary_form, number_form, other_form, total_form, total_of};
use crate::leaf::{Leaf, leaf_form};
use crate::shares::{has_share, put, total};
use ast::{Operator, Prefix};
use loop_tree::LoopView;

fn add_number(form: &mut Form, minus: bool, number: i64) -> Option<()>
    requires proper { IsProper (form_of form.old) }
    requires capacity { form.old.shares.capacity ≡ 8 }
    ensures left { Left result (form_of form.new)
        (spec.in_room (spec.total_form minus (form_of form.old) (spec.number_form number))) }
    ensures capacity { form.new.shares.capacity ≡ 8 }
{
    form.constant = total(minus, form.constant, number)?;
    Some(())
}

fn add_variable(form: &mut Form, minus: bool) -> Option<()>
    requires proper { IsProper (form_of form.old) }
    requires capacity { form.old.shares.capacity ≡ 8 }
    ensures left { Left result (form_of form.new)
        (spec.in_room (spec.total_form minus (form_of form.old) spec.variable_form)) }
    ensures capacity { form.new.shares.capacity ≡ 8 }
{
    form.coefficient = total(minus, form.coefficient, 1)?;
    Some(())
}

/// Puts another form in a form's place, if there is one.
fn replace(form: &mut Form, other: Option<Form>) -> Option<()>
    requires capacity { form.old.shares.capacity ≡ 8 }
    requires other { IfSome other (λ f. f.shares.capacity ≡ 8) }
    ensures left { Left result (form_of form.new) (option_map form_of other) }
    ensures capacity { form.new.shares.capacity ≡ 8 }
{
    match other {
        Some(other) => {
            *form = other;
            Some(())
        }
        None => None,
    }
}

/// The factor of a scalar that is added or subtracted once.
fn once(minus: bool) -> i64
    ensures { result ≡ spec.total minus (pos 0) (pos 1) }
{
    if minus { -1 } else { 1 }
}

/// Adds the form of another scalar than the loop's variable.
fn add_other_form(form: &mut Form, view: &LoopView<'_, '_>, minus: bool, cell: usize) -> Option<()>
    requires capacity { form.old.shares.capacity ≡ 8 }
    ensures left { Left result (form_of form.new)
        (spec.total_of (seen view.now) minus (form_of form.old) (spec.other_form cell)) }
    ensures capacity { form.new.shares.capacity ≡ 8 }
{
    let other = other_form(view.allocator(), cell);
    let sum = total_of(view, minus, form, &other);
    replace(form, sum)
}

/// Adds another scalar than the loop's variable.
fn add_other(form: &mut Form, view: &LoopView<'_, '_>, minus: bool, cell: usize) -> Option<()>
    requires proper { IsProper (form_of form.old) }
    requires capacity { form.old.shares.capacity ≡ 8 }
    ensures left { Left result (form_of form.new)
        (spec.total_of (seen view.now) minus (form_of form.old) (spec.other_form cell)) }
    ensures capacity { form.new.shares.capacity ≡ 8 }
{
    if has_share(form.shares.as_slice(), cell) {
        add_other_form(form, view, minus, cell)
    } else {
        put(&mut form.shares, cell, once(minus))
    }
}

fn add_scalar(form: &mut Form, view: &LoopView<'_, '_>, minus: bool, cell: usize) -> Option<()>
    requires proper { IsProper (form_of form.old) }
    requires capacity { form.old.shares.capacity ≡ 8 }
    ensures left { Left result (form_of form.new)
        (spec.total_of (seen view.now) minus (form_of form.old)
        (spec.scalar_form (seen view.now) cell)) }
    ensures capacity { form.new.shares.capacity ≡ 8 }
{
    if cell == view.head().variable.cell {
        add_variable(form, minus)
    } else {
        add_other(form, view, minus, cell)
    }
}

fn add_leaf(form: &mut Form, view: &LoopView<'_, '_>, minus: bool, leaf: Leaf) -> Option<()>
    requires proper { IsProper (form_of form.old) }
    requires capacity { form.old.shares.capacity ≡ 8 }
    ensures left { Left result (form_of form.new)
        (spec.total_of (seen view.now) minus (form_of form.old)
        (leaf_form (seen view.now) leaf)) }
    ensures capacity { form.new.shares.capacity ≡ 8 }
{
    match leaf {
        Leaf::Number(number) => add_number(form, minus, number),
        Leaf::Scalar(cell) => add_scalar(form, view, minus, cell),
    }
}

/// Makes a form that of an operation on it and another.
pub fn operate(
    form: &mut Form,
    view: &LoopView<'_, '_>,
    operator: Operator,
    other: &Form,
) -> Option<()>
    requires proper { IsProper (form_of form.old) }
    requires other { IsProper (form_of other.now) }
    requires capacity { form.old.shares.capacity ≡ 8 }
    ensures left { Left result (form_of form.new)
        (spec.binary_form (seen view.now) operator (form_of form.old) (form_of other.now)) }
    ensures proper { IfSome result (λ done. IsProper (form_of form.new)) }
    ensures capacity { form.new.shares.capacity ≡ 8 }
{
    let whole = binary_form(view, operator, form, other);
    replace(form, whole)
}

/// Makes a form that of an operation on it and a number or a scalar: a sum and a difference in its
/// place.
pub fn operate_leaf(
    form: &mut Form,
    view: &LoopView<'_, '_>,
    operator: Operator,
    leaf: Leaf,
) -> Option<()>
    requires proper { IsProper (form_of form.old) }
    requires leaf { IsProperLeaf leaf }
    requires capacity { form.old.shares.capacity ≡ 8 }
    ensures left { Left result (form_of form.new)
        (spec.binary_form (seen view.now) operator (form_of form.old)
        (leaf_form (seen view.now) leaf)) }
    ensures proper { IfSome result (λ done. IsProper (form_of form.new)) }
    ensures capacity { form.new.shares.capacity ≡ 8 }
{
    match operator {
        Operator::Add => add_leaf(form, view, false, leaf),
        Operator::Subtract => add_leaf(form, view, true, leaf),
        _ => operate(form, view, operator, &leaf_form(view, leaf)),
    }
}

/// A form with the other sign, where it has room.
fn negative(view: &LoopView<'_, '_>, form: &Form) -> Option<Form>
    ensures value { option_map form_of result
        ≡ spec.prefixed_form (seen view.now) Minus (form_of form.now) }
    ensures capacity { IfSome result (λ f. f.shares.capacity ≡ 8) }
{
    let zero = number_form(view.allocator(), 0);
    total_form(view.allocator(), true, &zero, form)
}

/// Subtracts a form from nothing, in its place.
fn negate(form: &mut Form, view: &LoopView<'_, '_>) -> Option<()>
    requires capacity { form.old.shares.capacity ≡ 8 }
    ensures left { Left result (form_of form.new)
        (spec.prefixed_form (seen view.now) Minus (form_of form.old)) }
    ensures capacity { form.new.shares.capacity ≡ 8 }
{
    let other = negative(view, form);
    replace(form, other)
}

/// Makes a form that of what stands behind a sign.
pub fn put_prefix(form: &mut Form, view: &LoopView<'_, '_>, prefix: Prefix) -> Option<()>
    requires proper { IsProper (form_of form.old) }
    requires capacity { form.old.shares.capacity ≡ 8 }
    ensures left { Left result (form_of form.new)
        (spec.prefixed_form (seen view.now) prefix (form_of form.old)) }
    ensures proper { IfSome result (λ done. IsProper (form_of form.new)) }
    ensures capacity { form.new.shares.capacity ≡ 8 }
{
    match prefix {
        Prefix::Plus => Some(()),
        Prefix::Minus => negate(form, view),
        Prefix::Not => None,
    }
}
