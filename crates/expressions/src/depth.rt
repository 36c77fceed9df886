//! How deep an expression is.

ghost use Rattle.std.specs.Prelude.{◌≡◌, nat_le, map};
ghost use Rattle.ast.specs.Tree.{accessed, depth, deepest, terms};
ghost use Rattle.ast.specs.View.{term, access};

use ast::{Access, Expr};

/// The greatest depth of an expression.
pub const DEPTH_LIMIT: usize = 128;

/// Whether an expression's depth is at most `room`.
#[cycle(within)]
pub fn is_within(tree: &Expr, room: usize) -> bool
    ensures { result ≡ nat_le (depth (term tree.now)) room }
{
    if room == 0 {
        return false;
    }
    match tree {
        Expr::Element(access) => is_access_within(access, room),
        Expr::Call(_, arguments) => are_within(arguments, room - 1),
        Expr::Parentheses(inner) => is_within(inner, room - 1),
        Expr::Unary(_, operand) => is_within(operand, room - 1),
        Expr::Binary(_, left, right) => is_within(left, room - 1) && is_within(right, room - 1),
        Expr::Constant(_) | Expr::Truth(_) | Expr::Parameter(_, _) => true,
    }
}

/// Whether the depth of an element or a variable is at most `room`.
#[cycle(within)]
pub fn is_access_within(tree: &Access, room: usize) -> bool
    ensures { result ≡ nat_le (depth (accessed (access tree.now))) room }
{
    room > 0 && are_within(&tree.subscripts, room - 1)
}

/// Whether the depths of all of these are at most `room`.
#[cycle(within)]
fn are_within(trees: &[Expr], room: usize) -> bool
    ensures { result ≡ nat_le (deepest (terms (map term trees.now))) room }
{
    for tree in trees {
        if !is_within(tree, room) {
            return false;
        }
    }
    true
}
