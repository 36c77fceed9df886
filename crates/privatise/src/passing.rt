//! What expressions and statements that hold no others do with scalars, in order of evaluation.

ghost use Rattle.std.specs.Prelude.{◌≡◌, map};
ghost use Rattle.ast.specs.Tree.{accessed, terms};
ghost use Rattle.ast.specs.View.{access as access_of, action as action_of, head as head_of};
ghost use Rattle.ast.specs.View.{item as item_of, optional_term, term};
ghost use Rattle.privatise.specs.Flow as spec;

use crate::cells::{go_on, stop};
use crate::walk::Walk;
use ast::{Access, Action, DoHead, Expr, Item};

#[cycle(terms)]
fn pass_terms(walks: &mut [Walk], expressions: &[Expr])
    ensures { walks.new ≡ spec.after_terms (terms (map term expressions.now)) walks.old }
{
    for expression in expressions {
        pass_term(walks, expression);
    }
}

#[cycle(terms)]
fn pass_element(walks: &mut [Walk], access: &Access)
    ensures { walks.new ≡ spec.after_term (accessed (access_of access.now)) walks.old }
{
    pass_terms(walks, &access.subscripts);
    go_on(walks, access.reference.cell, Walk::Early);
}

/// An expression uses its scalars.
#[cycle(terms)]
pub fn pass_term(walks: &mut [Walk], expression: &Expr)
    ensures { walks.new ≡ spec.after_term (term expression.now) walks.old }
{
    match expression {
        Expr::Constant(_) | Expr::Truth(_) | Expr::Parameter(_, _) => {}
        Expr::Element(access) => pass_element(walks, access),
        Expr::Call(_, arguments) => pass_terms(walks, arguments),
        Expr::Parentheses(inner) => pass_term(walks, inner),
        Expr::Unary(_, operand) => pass_term(walks, operand),
        Expr::Binary(_, left, right) => {
            pass_term(walks, left);
            pass_term(walks, right);
        }
    }
}

fn pass_optional(walks: &mut [Walk], expression: &Option<Expr>)
    ensures { walks.new ≡ spec.after_optional (optional_term expression.now) walks.old }
{
    match expression {
        Some(expression) => pass_term(walks, expression),
        None => {}
    }
}

fn pass_item(walks: &mut [Walk], item: &Item)
    ensures { walks.new ≡ spec.after_item (item_of item.now) walks.old }
{
    match item {
        Item::Value(value) => pass_term(walks, value),
        Item::Text(_) => {}
    }
}

fn pass_items(walks: &mut [Walk], items: &[Item])
    ensures { walks.new ≡ spec.after_items (map item_of items.now) walks.old }
{
    for item in items {
        pass_item(walks, item);
    }
}

/// An element is given a value: its subscripts go before it.
fn pass_target(walks: &mut [Walk], target: &Access)
    ensures { walks.new ≡ spec.after_target (access_of target.now) walks.old }
{
    pass_terms(walks, &target.subscripts);
    go_on(walks, target.reference.cell, Walk::Defined);
}

fn pass_targets(walks: &mut [Walk], targets: &[Access])
    ensures { walks.new ≡ spec.after_targets (map access_of targets.now) walks.old }
{
    for target in targets {
        pass_target(walks, target);
    }
}

/// A statement that holds no others. No path goes on after a STOP.
pub fn pass_kind(walks: &mut [Walk], action: &Action)
    ensures { walks.new ≡ spec.after_kind (action_of action.now) walks.old }
{
    match action {
        Action::Assign(target, value) => {
            pass_term(walks, value);
            pass_target(walks, target);
        }
        Action::Print(items) => pass_items(walks, items),
        Action::Read(targets) => pass_targets(walks, targets),
        Action::Stop => stop(walks),
        Action::Inert(_) => {}
    }
}

/// The parameters of a DO, then its variable.
pub fn pass_head(walks: &mut [Walk], head: &DoHead)
    ensures { walks.new ≡ spec.after_head (head_of head.now) walks.old }
{
    pass_term(walks, &head.first);
    pass_term(walks, &head.last);
    pass_optional(walks, &head.step);
    go_on(walks, head.variable.cell, Walk::Defined);
}
