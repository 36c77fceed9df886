//! Expressions and statements that hold no others.

ghost use Rattle.std.specs.Prelude.{◌≡◌, OnOk, map};
ghost use Rattle.ast.specs.Tree.{accessed, terms};
ghost use Rattle.ast.specs.View.{access as access_of, action as action_of, head as head_of};
ghost use Rattle.ast.specs.View.{item as item_of, letters, optional_term, term};
ghost use Rattle.plan_check.specs.KnownView.{known as known_of};
ghost use Rattle.plan_check.specs.SeenView.{seen as seen_of};
ghost use Rattle.plan_check.specs.Walking as spec;

use crate::known::Known;
use crate::seen::{Seen, note_definition, note_use};
use ast::{Access, Action, DoHead, Expr, Item, Name};
use std::alloc::{AllocError, Global};

/// Notes the references of expressions, one after another.
#[cycle(terms)]
fn pass_terms(
    alloc: Global,
    seen: &mut Seen,
    privates: &[Name],
    expressions: &[Expr],
    known: &Known,
) -> Result<(), AllocError>
    ensures { OnOk result (seen_of seen.new
        ≡ spec.seen_terms (map letters privates.now) (terms (map term expressions.now))
        (known_of known.now) (seen_of seen.old)) }
{
    for expression in expressions {
        pass_term(alloc, seen, privates, expression, known)?;
    }
    Ok(())
}

/// Notes the references of an element's subscripts, and then the element.
#[cycle(terms)]
fn pass_element(
    alloc: Global,
    seen: &mut Seen,
    privates: &[Name],
    access: &Access,
    known: &Known,
) -> Result<(), AllocError>
    ensures { OnOk result (seen_of seen.new
        ≡ spec.seen_term (map letters privates.now) (accessed (access_of access.now))
        (known_of known.now) (seen_of seen.old)) }
{
    pass_terms(alloc, seen, privates, &access.subscripts, known)?;
    note_use(alloc, seen, privates, &access.reference, known)
}

/// Notes the references of an expression, in order of evaluation, with what is known there.
///
/// # Errors
///
/// `AllocError` where memory is refused; some of them may have been noted then.
#[cycle(terms)]
pub fn pass_term(
    alloc: Global,
    seen: &mut Seen,
    privates: &[Name],
    expression: &Expr,
    known: &Known,
) -> Result<(), AllocError>
    ensures { OnOk result (seen_of seen.new
        ≡ spec.seen_term (map letters privates.now) (term expression.now) (known_of known.now)
        (seen_of seen.old)) }
{
    match expression {
        Expr::Constant(_) | Expr::Truth(_) | Expr::Parameter(_, _) => Ok(()),
        Expr::Element(access) => pass_element(alloc, seen, privates, access, known),
        Expr::Call(_, arguments) => pass_terms(alloc, seen, privates, arguments, known),
        Expr::Parentheses(inner) => pass_term(alloc, seen, privates, inner, known),
        Expr::Unary(_, operand) => pass_term(alloc, seen, privates, operand, known),
        Expr::Binary(_, left, right) => {
            pass_term(alloc, seen, privates, left, known)?;
            pass_term(alloc, seen, privates, right, known)
        }
    }
}

/// Notes the references of an expression that may be absent, with what is known there.
///
/// # Errors
///
/// `AllocError` where memory is refused; some of them may have been noted then.
pub fn pass_optional(
    alloc: Global,
    seen: &mut Seen,
    privates: &[Name],
    expression: &Option<Expr>,
    known: &Known,
) -> Result<(), AllocError>
    ensures { OnOk result (seen_of seen.new
        ≡ spec.seen_optional (map letters privates.now) (optional_term expression.now)
        (known_of known.now) (seen_of seen.old)) }
{
    match expression {
        Some(expression) => pass_term(alloc, seen, privates, expression, known),
        None => Ok(()),
    }
}

/// Notes the references of the items of a PRINT.
fn pass_items(
    alloc: Global,
    seen: &mut Seen,
    privates: &[Name],
    items: &[Item],
    known: &Known,
) -> Result<(), AllocError>
    ensures { OnOk result (seen_of seen.new
        ≡ spec.seen_items (map letters privates.now) (map item_of items.now) (known_of known.now)
        (seen_of seen.old)) }
{
    for item in items {
        match item {
            Item::Value(value) => pass_term(alloc, seen, privates, value, known)?,
            Item::Text(_) => {}
        }
    }
    Ok(())
}

/// Notes the references of an element's subscripts, and then the element, which is given a value.
fn pass_target(
    alloc: Global,
    seen: &mut Seen,
    privates: &[Name],
    target: &Access,
    known: &Known,
) -> Result<(), AllocError>
    ensures { OnOk result (seen_of seen.new
        ≡ spec.seen_target (map letters privates.now) (access_of target.now) (known_of known.now)
        (seen_of seen.old)) }
{
    pass_terms(alloc, seen, privates, &target.subscripts, known)?;
    note_definition(alloc, seen, privates, &target.reference, known)
}

/// Notes the references of a statement that holds no others, and makes known what is known behind
/// it. A READ is passed over: the check refuses a loop with one.
///
/// # Errors
///
/// `AllocError` where memory is refused; some of them may have been noted then.
pub fn pass_kind(
    alloc: Global,
    known: &mut Known,
    seen: &mut Seen,
    privates: &[Name],
    action: &Action,
) -> Result<(), AllocError>
    ensures seen { OnOk result (seen_of seen.new
        ≡ spec.seen_kind (map letters privates.now) (action_of action.now) (known_of known.old)
        (seen_of seen.old)) }
    ensures known { OnOk result (known_of known.new
        ≡ spec.known_kind (map letters privates.now) (action_of action.now) (known_of known.old)) }
{
    match action {
        Action::Assign(target, value) => {
            pass_term(alloc, seen, privates, value, known)?;
            pass_target(alloc, seen, privates, target, known)?;
            known.define(target.reference.cell);
            Ok(())
        }
        Action::Print(items) => pass_items(alloc, seen, privates, items, known),
        Action::Stop => {
            known.end();
            Ok(())
        }
        Action::Read(_) | Action::Inert(_) => Ok(()),
    }
}

/// Notes the references of a DO, its variable the last, and makes known that this has a value.
///
/// # Errors
///
/// `AllocError` where memory is refused; some of them may have been noted then.
pub fn pass_head(
    alloc: Global,
    known: &mut Known,
    seen: &mut Seen,
    privates: &[Name],
    head: &DoHead,
) -> Result<(), AllocError>
    ensures seen { OnOk result (seen_of seen.new
        ≡ spec.seen_head (map letters privates.now) (head_of head.now) (known_of known.old)
        (seen_of seen.old)) }
    ensures known { OnOk result (known_of known.new
        ≡ spec.known_head (map letters privates.now) (head_of head.now) (known_of known.old)) }
{
    pass_term(alloc, seen, privates, &head.first, known)?;
    pass_term(alloc, seen, privates, &head.last, known)?;
    pass_optional(alloc, seen, privates, &head.step, known)?;
    note_definition(alloc, seen, privates, &head.variable, known)?;
    known.define(head.variable.cell);
    Ok(())
}
