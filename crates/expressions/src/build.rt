//! Trees out of their parts.

ghost use Rattle.std.specs.Prelude.{◌≡◌, ◌++◌, ◌∷◌, [], map, IfOk};
ghost use Rattle.ast.specs.Tree.{parentheses, binary};
ghost use Rattle.ast.specs.View.{term};
ghost use Rattle.expressions.specs.Reading.{with_prefix};

use ast::{Expr, Operator, Prefix};
use std::alloc::{AllocError, Global};

/// An operator with its two operands.
///
/// # Errors
///
/// `AllocError` where memory is refused.
pub fn binary(
    alloc: Global,
    operator: Operator,
    left: Expr,
    right: Expr,
) -> Result<Expr, AllocError>
    ensures { IfOk result (λ e. term e ≡ binary operator (term left) (term right)) }
{
    let left = Box::new(alloc, left)?;
    let right = Box::new(alloc, right)?;
    Ok(Expr::Binary(operator, left, right))
}

/// An expression in parentheses.
///
/// # Errors
///
/// `AllocError` where memory is refused.
pub fn parentheses(alloc: Global, inner: Expr) -> Result<Expr, AllocError>
    ensures { IfOk result (λ e. term e ≡ parentheses (term inner)) }
{
    Ok(Expr::Parentheses(Box::new(alloc, inner)?))
}

/// The operand with its prefix, if there is one.
///
/// # Errors
///
/// `AllocError` where memory is refused.
pub fn with_prefix(alloc: Global, prefix: Option<Prefix>, operand: Expr) -> Result<Expr, AllocError>
    ensures { IfOk result (λ e. term e ≡ with_prefix prefix (term operand)) }
{
    match prefix {
        Some(prefix) => Ok(Expr::Unary(prefix, Box::new(alloc, operand)?)),
        None => Ok(operand),
    }
}

/// Expressions, with one more behind them.
///
/// # Errors
///
/// `AllocError` where memory is refused.
pub fn with_further(mut expressions: Vec<Expr>, next: Expr) -> Result<Vec<Expr>, AllocError>
    ensures { IfOk result (λ v. map term v.items ≡ map term expressions.items ++ term next ∷ []) }
{
    expressions.push(next)?;
    Ok(expressions)
}
