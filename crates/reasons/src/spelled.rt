//! References and expressions, as a source spells them but for its blanks.

use ast::{Access, Expr, Intrinsic, Name};
use explanations::append_number;
use std::alloc::AllocError;

/// Appends expressions in parentheses, with commas between them.
#[cycle(spelled)]
fn append_list(out: &mut Vec<u8>, expressions: &[Expr]) -> Result<(), AllocError> {
    out.extend_from_slice(b"(")?;
    for (place, expression) in expressions.iter().enumerate() {
        if place > 0 {
            out.extend_from_slice(b",")?;
        }
        append_expression(out, expression)?;
    }
    out.extend_from_slice(b")")
}

/// Appends a reference to a variable with these subscripts.
#[cycle(spelled)]
pub fn append_reference(
    out: &mut Vec<u8>,
    name: &Name,
    subscripts: &[Expr],
) -> Result<(), AllocError> {
    out.extend_from_slice(name.trimmed())?;
    if subscripts.is_empty() {
        return Ok(());
    }
    append_list(out, subscripts)
}

#[cycle(spelled)]
fn append_access(out: &mut Vec<u8>, access: &Access) -> Result<(), AllocError> {
    append_reference(out, &access.reference.name, &access.subscripts)
}

#[cycle(spelled)]
fn append_call(
    out: &mut Vec<u8>,
    intrinsic: Intrinsic,
    arguments: &[Expr],
) -> Result<(), AllocError> {
    out.extend_from_slice(intrinsic.name().trimmed())?;
    append_list(out, arguments)
}

/// Appends an expression.
#[cycle(spelled)]
pub fn append_expression(out: &mut Vec<u8>, expression: &Expr) -> Result<(), AllocError> {
    match expression {
        Expr::Constant(value) => append_number(out, *value),
        Expr::Truth(true) => out.extend_from_slice(b".TRUE."),
        Expr::Truth(false) => out.extend_from_slice(b".FALSE."),
        Expr::Parameter(name, _) => out.extend_from_slice(name.trimmed()),
        Expr::Element(access) => append_access(out, access),
        Expr::Call(intrinsic, arguments) => append_call(out, *intrinsic, arguments),
        Expr::Parentheses(inner) => {
            out.extend_from_slice(b"(")?;
            append_expression(out, inner)?;
            out.extend_from_slice(b")")
        }
        Expr::Unary(prefix, operand) => {
            out.extend_from_slice(prefix.spelling())?;
            append_expression(out, operand)
        }
        Expr::Binary(operator, left, right) => {
            append_expression(out, left)?;
            out.extend_from_slice(operator.spelling())?;
            append_expression(out, right)
        }
    }
}
