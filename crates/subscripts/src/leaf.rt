//! Subscripts that are a number or a scalar.

ghost use Rattle.std.specs.Prelude.{◌≡◌, IfSome, map};
ghost use Rattle.ast.specs.Tree.{terms};
ghost use Rattle.ast.specs.View.{ref, term};
ghost use Rattle.loop_tree.specs.TreeView.{seen};
ghost use Rattle.subscripts.specs.Proper.{IsProperLeaf};
ghost use Rattle.subscripts.specs.Leaves as spec;
ghost use Rattle.subscripts.specs.View.{form};

use crate::form::{Form, number_form, scalar_form};
use ast::{Expr, Reference};
use loop_tree::LoopView;

/// What an expression without parts is to a form.
#[derive(Clone, Copy)]
pub enum Leaf {
    Number(i64),
    /// The place of the scalar's name among the program's symbols.
    Scalar(usize),
}

fn number_leaf(number: i64) -> Leaf
    ensures leaf { result ≡ spec.number_leaf number }
    ensures proper { IsProperLeaf result }
{
    Leaf::Number(number)
}

fn scalar_of(reference: &Reference, subscripts: &[Expr]) -> Option<Leaf>
    ensures leaf { result ≡ spec.scalar_of (ref reference.now) (terms (map term subscripts.now)) }
    ensures proper { IfSome result (λ leaf. IsProperLeaf leaf) }
{
    match subscripts {
        [] => Some(Leaf::Scalar(reference.cell)),
        [_first, _others @ ..] => None,
    }
}

/// An expression that is a number or a scalar.
pub fn leaf_of(expression: &Expr) -> Option<Leaf>
    ensures leaf { result ≡ spec.leaf_of (term expression.now) }
    ensures proper { IfSome result (λ leaf. IsProperLeaf leaf) }
{
    match expression {
        Expr::Constant(number) | Expr::Parameter(_, number) => Some(number_leaf(*number)),
        Expr::Element(access) => scalar_of(&access.reference, &access.subscripts),
        Expr::Truth(_)
        | Expr::Call(_, _)
        | Expr::Parentheses(_)
        | Expr::Unary(_, _)
        | Expr::Binary(_, _, _) => None,
    }
}

/// Its form.
pub fn leaf_form(view: &LoopView<'_, '_>, leaf: Leaf) -> Form
    ensures { form result ≡ spec.leaf_form (seen view.now) leaf }
{
    match leaf {
        Leaf::Number(number) => number_form(view.allocator(), number),
        Leaf::Scalar(cell) => scalar_form(view, cell),
    }
}
