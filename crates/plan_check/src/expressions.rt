//! Whether two expressions are equal.

ghost use Rattle.std.specs.Prelude.{◌≡◌, map};
ghost use Rattle.std.specs.Bool.{Decides};
ghost use Rattle.ast.specs.Tree.{terms};
ghost use Rattle.ast.specs.View.{access as access_of, optional_term, ref, term};

use ast::{Access, Expr, Intrinsic, Name, Operator, Prefix, Reference};

/// Whether two references are equal.
pub fn is_same_reference(a: &Reference, b: &Reference) -> bool
    ensures { Decides result (ref a.now ≡ ref b.now) }
{
    *a == *b
}

/// Whether two names are equal.
pub fn is_same_name(a: Name, b: Name) -> bool
    ensures { Decides result (a.letters ≡ b.letters) }
{
    a == b
}

/// Whether two operators are equal.
fn is_same_operator(a: Operator, b: Operator) -> bool
    ensures { Decides result (a ≡ b) }
{
    a == b
}

/// Whether two prefixes are equal.
fn is_same_prefix(a: Prefix, b: Prefix) -> bool
    ensures { Decides result (a ≡ b) }
{
    a == b
}

/// Whether two intrinsic functions are the same.
fn is_same_intrinsic(a: Intrinsic, b: Intrinsic) -> bool
    ensures { Decides result (a ≡ b) }
{
    a == b
}

/// Whether two lists of expressions are equal.
#[cycle(same)]
fn are_same_expressions(a: &[Expr], b: &[Expr]) -> bool
    ensures { Decides result (terms (map term a.now) ≡ terms (map term b.now)) }
{
    are_same_one_by_one(a, b)
}

/// Whether there are as many of both, and each is equal to the one at its place.
#[cycle(same)]
fn are_same_one_by_one(a: &[Expr], b: &[Expr]) -> bool
    ensures { Decides result (map term a.now ≡ map term b.now) }
{
    if a.len() != b.len() {
        return false;
    }
    for i in 0..a.len() {
        if !is_same_expression(&a[i], &b[i]) {
            return false;
        }
    }
    true
}

/// Whether two accesses are equal, their subscripts included.
#[cycle(same)]
pub fn is_same_access(a: &Access, b: &Access) -> bool
    ensures { Decides result (access_of a.now ≡ access_of b.now) }
{
    is_same_reference(&a.reference, &b.reference)
        && are_same_expressions(&a.subscripts, &b.subscripts)
}

/// Whether two expressions are equal.
#[cycle(same)]
pub fn is_same_expression(a: &Expr, b: &Expr) -> bool
    ensures { Decides result (term a.now ≡ term b.now) }
{
    match a {
        Expr::Constant(x) => match b {
            Expr::Constant(y) => *x == *y,
            _ => false,
        },
        Expr::Truth(x) => match b {
            Expr::Truth(y) => *x == *y,
            _ => false,
        },
        Expr::Parameter(n, x) => match b {
            Expr::Parameter(m, y) => is_same_name(*n, *m) && *x == *y,
            _ => false,
        },
        Expr::Element(x) => match b {
            Expr::Element(y) => is_same_access(x, y),
            _ => false,
        },
        Expr::Call(f, xs) => match b {
            Expr::Call(g, ys) => is_same_intrinsic(*f, *g) && are_same_expressions(xs, ys),
            _ => false,
        },
        Expr::Parentheses(x) => match b {
            Expr::Parentheses(y) => is_same_expression(x, y),
            _ => false,
        },
        Expr::Unary(p, x) => match b {
            Expr::Unary(q, y) => is_same_prefix(*p, *q) && is_same_expression(x, y),
            _ => false,
        },
        Expr::Binary(o, x, v) => match b {
            Expr::Binary(p, y, w) => {
                is_same_operator(*o, *p) && is_same_expression(x, y) && is_same_expression(v, w)
            }
            _ => false,
        },
    }
}

/// Whether two expressions are equal that may be absent.
pub fn is_same_optional(a: &Option<Expr>, b: &Option<Expr>) -> bool
    ensures { Decides result (optional_term a.now ≡ optional_term b.now) }
{
    match a {
        Some(x) => match b {
            Some(y) => is_same_expression(x, y),
            None => false,
        },
        None => b.is_none(),
    }
}
