//! Trees of expressions.

use ast::{Access, Expr, Name, Operator, Prefix, Refusal, Rule};
use std::alloc::Global;
use std::process::Abort;
use std::test::Fail;

/// The line of each text.
const LINE: u32 = 9;

/// The tree of a text. What is proved of it isn't carried through the tests.
fn expr(alloc: Global, text: &[u8], line: u32) -> Result<Expr, Refusal> {
    expressions::expr(alloc, text, line)
}

fn is_constant(expr: &Expr, wanted: i64) -> bool {
    match expr {
        Expr::Constant(value) => *value == wanted,
        _ => false,
    }
}

fn is_named(access: &Access, name: &[u8; 6]) -> bool {
    access.reference.name == Name { letters: *name }
}

/// -A
fn is_minus_a(expr: &Expr) -> bool {
    match expr {
        Expr::Unary(Prefix::Minus, operand) => match &**operand {
            Expr::Element(access) => is_named(access, b"A     ") && access.subscripts.is_empty(),
            _ => false,
        },
        _ => false,
    }
}

/// 2*(B12(1,3))
fn is_product(expr: &Expr) -> bool {
    match expr {
        Expr::Binary(Operator::Multiply, left, right) => {
            is_constant(left, 2) && is_in_parentheses(right)
        }
        _ => false,
    }
}

/// (B12(1,3))
fn is_in_parentheses(expr: &Expr) -> bool {
    match expr {
        Expr::Parentheses(inner) => match &**inner {
            Expr::Element(access) => is_element(access),
            _ => false,
        },
        _ => false,
    }
}

/// B12(1,3)
fn is_element(access: &Access) -> bool {
    is_named(access, b"B12   ")
        && match access.subscripts.as_slice() {
            [first, second] => is_constant(first, 1) && is_constant(second, 3),
            _ => false,
        }
}

/// What [`SUM`] spells.
fn is_sum(expr: &Expr) -> bool {
    match expr {
        Expr::Binary(Operator::Add, left, right) => is_minus_a(left) && is_product(right),
        _ => false,
    }
}

const SUM: &[u8] = b"-A+2*(B12(1,3))";

/// Whether the text is read as what it spells.
fn reads_sum(alloc: Global) -> Result<bool, Refusal> {
    let tree = expr(alloc, SUM, LINE)?;
    Ok(is_sum(&tree))
}

#[test]
fn want_of_memory_in_texts_of_expressions(rt: HostRuntime) -> Result<(), Fail> {
    match reads_sum(rt.alloc()) {
        Ok(is_read) => assert!(rt; is_read),
        Err(refusal) => {
            assert!(rt; refusal == Refusal::Memory);
            assert!(rt; matches!(reads_sum(rt.alloc()), Ok(true)));
            return Err(refusal.into());
        }
    }
    Ok(())
}

/// What is wanted of the text of an expression.
#[derive(Clone, Copy)]
pub enum Wanted {
    /// 7 in so many parentheses.
    Enclosed(usize),
    /// A name with so many in its list.
    List(usize),
    /// A refusal by this rule.
    Refused(Rule),
}

/// Whether an expression is 7 in so many parentheses.
fn is_enclosed(expr: &Expr, times: usize) -> bool {
    let mut inner = expr;
    for _ in 0..times {
        match inner {
            Expr::Parentheses(next) => inner = next,
            _ => return false,
        }
    }
    is_constant(inner, 7)
}

fn is_wanted(tree: &Expr, wanted: Wanted) -> bool {
    match (tree, wanted) {
        (_, Wanted::Enclosed(times)) => is_enclosed(tree, times),
        (Expr::Element(access), Wanted::List(count)) => access.subscripts.len() == count,
        _ => false,
    }
}

/// Whether this comes of a text.
pub fn comes(alloc: Global, text: &[u8], wanted: Wanted) -> bool {
    match (expr(alloc, text, LINE), wanted) {
        (Ok(tree), _) => is_wanted(&tree, wanted),
        (Err(refusal), Wanted::Refused(rule)) => {
            refusal
                == Refusal::Refused {
                    number: rule,
                    line: LINE,
                }
        }
        _ => false,
    }
}
