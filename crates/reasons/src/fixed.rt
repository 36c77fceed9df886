//! References that touch one place in all iterations, as is seen by how they are written.

use crate::spelled::{append_expression, append_reference};
use ast::{Access, Expr, Name};
use loop_tree::{LoopView, Occurrence};
use std::alloc::{AllocError, Global};

fn spelled(alloc: Global, name: &Name, subscripts: &[Expr]) -> Result<Vec<u8>, AllocError> {
    let mut text = Vec::new(alloc);
    append_reference(&mut text, name, subscripts)?;
    Ok(text)
}

/// Whether two references are written alike.
pub fn are_alike(alloc: Global, one: &Access, other: &Access) -> Result<bool, AllocError> {
    let first = spelled(alloc, &one.reference.name, &one.subscripts)?;
    Ok(first == spelled(alloc, &other.reference.name, &other.subscripts)?)
}

/// Whether two expressions are written alike.
pub fn are_same(alloc: Global, one: &Expr, other: &Expr) -> Result<bool, AllocError> {
    let mut first = Vec::new(alloc);
    append_expression(&mut first, one)?;
    let mut second = Vec::new(alloc);
    append_expression(&mut second, other)?;
    Ok(first == second)
}

/// Whether expressions have one value in all iterations.
#[cycle(fixed)]
pub fn are_fixed(view: &LoopView<'_, '_>, expressions: &[Expr]) -> bool {
    for expression in expressions {
        if !is_fixed(view, expression) {
            return false;
        }
    }
    true
}

/// Whether an expression has one value in all iterations, as is seen by its variables.
#[cycle(fixed)]
fn is_fixed(view: &LoopView<'_, '_>, expression: &Expr) -> bool {
    match expression {
        Expr::Constant(_) | Expr::Truth(_) | Expr::Parameter(_, _) => true,
        Expr::Element(access) => {
            access.subscripts.is_empty()
                && access.reference.name != view.head().variable.name
                && !view.assigns(access.reference.cell)
        }
        Expr::Call(_, arguments) => are_fixed(view, arguments),
        Expr::Parentheses(inner) => is_fixed(view, inner),
        Expr::Unary(_, operand) => is_fixed(view, operand),
        Expr::Binary(_, left, right) => is_fixed(view, left) && is_fixed(view, right),
    }
}

/// Whether two references to one variable touch one place of it, in all iterations.
pub fn is_one_place(
    alloc: Global,
    view: &LoopView<'_, '_>,
    one: &Occurrence<'_>,
    other: &Occurrence<'_>,
) -> Result<bool, AllocError> {
    if !are_fixed(view, one.subscripts) {
        return Ok(false);
    }
    let name = &one.reference.name;
    Ok(spelled(alloc, name, one.subscripts)? == spelled(alloc, name, other.subscripts)?)
}
