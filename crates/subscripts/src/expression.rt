//! The affine form of an expression.

ghost use Rattle.std.specs.Prelude.{◌≡◌, IfSome, map, pos};
ghost use Rattle.ast.specs.Tree.{terms};
ghost use Rattle.ast.specs.View.{ref, term};
ghost use Rattle.loop_tree.specs.TreeView.{seen};
ghost use Rattle.subscripts.specs.Proper.{IsProper};
ghost use Rattle.subscripts.specs.Forms as spec;
ghost use Rattle.subscripts.specs.Steps.{Left};
ghost use Rattle.subscripts.specs.Values.{IsForm};
ghost use Rattle.subscripts.specs.View.{HasForm, form as form_of, form_in};

use crate::adding::{operate, operate_leaf, put_prefix};
use crate::form::{Affine, Form, number_form};
use crate::leaf::leaf_of;
use crate::shares::Share;
use ast::{Expr, Reference};
use loop_tree::LoopView;

/// Puts a number into an empty form.
fn put_number(form: &mut Form, number: i64)
    requires empty { form_of form.old ≡ spec.number_form (pos 0) }
    requires capacity { form.old.shares.capacity ≡ 8 }
    ensures left { form_of form.new ≡ spec.number_form number }
    ensures proper { IsProper (form_of form.new) }
    ensures capacity { form.new.shares.capacity ≡ 8 }
{
    form.constant = number;
}

/// Puts a scalar into an empty form.
fn put_scalar(form: &mut Form, view: &LoopView<'_, '_>, cell: usize)
    requires empty { form_of form.old ≡ spec.number_form (pos 0) }
    requires capacity { form.old.shares.capacity ≡ 8 }
    ensures left { form_of form.new ≡ spec.scalar_form (seen view.now) cell }
    ensures proper { IsProper (form_of form.new) }
    ensures capacity { form.new.shares.capacity ≡ 8 }
{
    if cell == view.head().variable.cell {
        form.coefficient = 1;
    } else {
        form.shares.push_reserved(Share { cell, factor: 1 });
    }
}

/// Puts a variable without subscripts into an empty form; an array's element has none.
fn put_element(
    form: &mut Form,
    view: &LoopView<'_, '_>,
    reference: &Reference,
    subscripts: &[Expr],
) -> Option<()>
    requires empty { form_of form.old ≡ spec.number_form (pos 0) }
    requires capacity { form.old.shares.capacity ≡ 8 }
    ensures left { Left result (form_of form.new)
        (spec.element_form (seen view.now) (ref reference.now)
        (terms (map term subscripts.now))) }
    ensures proper { IfSome result (λ done. IsProper (form_of form.new)) }
    ensures capacity { form.new.shares.capacity ≡ 8 }
{
    match subscripts {
        [] => {
            put_scalar(form, view, reference.cell);
            Some(())
        }
        [_first, _others @ ..] => None,
    }
}

/// Puts an expression into an empty form. What stands to the right of an operator is put into a
/// form of its own where it has parts.
fn put_form(form: &mut Form, expression: &Expr, view: &LoopView<'_, '_>) -> Option<()>
    requires empty { form_of form.old ≡ spec.number_form (pos 0) }
    requires capacity { form.old.shares.capacity ≡ 8 }
    ensures left { Left result (form_of form.new)
        (spec.form_of (seen view.now) (term expression.now)) }
    ensures proper { IfSome result (λ done. IsProper (form_of form.new)) }
    ensures capacity { form.new.shares.capacity ≡ 8 }
{
    match expression {
        Expr::Constant(number) | Expr::Parameter(_, number) => {
            put_number(form, *number);
            Some(())
        }
        Expr::Truth(_) | Expr::Call(_, _) => None,
        Expr::Element(access) => put_element(form, view, &access.reference, &access.subscripts),
        Expr::Parentheses(inner) => put_form(form, inner, view),
        Expr::Unary(prefix, operand) => {
            put_form(form, operand, view)?;
            put_prefix(form, view, *prefix)
        }
        Expr::Binary(operator, left, right) => {
            put_form(form, left, view)?;
            match leaf_of(right) {
                Some(leaf) => operate_leaf(form, view, *operator, leaf),
                None => {
                    let mut other = number_form(view.allocator(), 0);
                    put_form(&mut other, right, view)?;
                    operate(form, view, *operator, &other)
                }
            }
        }
    }
}

fn found(expression: &Expr, view: &LoopView<'_, '_>) -> Affine
    ensures { form_in result ≡ spec.form_of (seen view.now) (term expression.now) }
{
    let mut form = number_form(view.allocator(), 0);
    match put_form(&mut form, expression, view) {
        Some(()) => Affine::Form(form),
        None => Affine::NotAffine,
    }
}

/// The affine form of a subscript in a loop: sums, differences, signs, and products with a number
/// keep it. Array elements, intrinsics, divisions and other products have none, nor a sum or a
/// difference both of whose sides take a scalar that the range gives values; nor has what takes
/// more than 8 scalars or has a number that is no 64-bit integer, in any part.
///
/// Whatever number stands where an element or a scalar that the range gives values does, the value
/// of the subscript is that of its form.
pub fn affine(expression: &Expr, view: &LoopView<'_, '_>) -> Affine
    ensures form { form_in result ≡ spec.form_of (seen view.now) (term expression.now) }
    ensures value { HasForm result (λ f. IsForm (seen view.now) (term expression.now) f) }
{
    found(expression, view)
}
