//! References, with the statements that they belong to.

ghost use Rattle.std.specs.Prelude.{◌≡◌, ◌∷◌, ◌++◌, [], OnOk, map};
ghost use Rattle.ast.specs.Tree.{accessed, terms};
ghost use Rattle.ast.specs.View.{access as access_of, action as action_of, head as head_of};
ghost use Rattle.ast.specs.View.{item as item_of, optional_term, term};
ghost use Rattle.loop_tree.specs.Occurrences as spec;
ghost use Rattle.loop_tree.specs.View.{occurrence};

use ast::{Access, Action, DoHead, Expr, Item, Reference};
use std::alloc::AllocError;

/// A place of a program where a variable is read or assigned.
#[derive(Clone, Copy)]
pub struct Occurrence<'p> {
    /// The variable, and the number of this reference to it.
    pub reference: Reference,
    /// The subscripts, none of a scalar.
    pub subscripts: &'p [Expr],
    /// Whether the variable is given a value here.
    pub defines: bool,
    /// The number of the statement among those of the program, from 0: a DO with its parameters, an
    /// IF with the conditions of all its arms; what stands in a range or an arm is a statement of
    /// its own, the one of a logical IF too.
    pub statement: usize,
}

/// Appends a reference.
fn add_place<'p>(list: &mut Vec<Occurrence<'p>>, place: Occurrence<'p>) -> Result<(), AllocError>
    ensures { OnOk result (map occurrence list.new.items ≡ map occurrence list.old.items
        ++ occurrence place.entry ∷ []) }
{
    list.push(place)?;
    Ok(())
}

/// Appends the references of expressions, in order of evaluation.
#[cycle(occurrences)]
fn add_terms<'p>(
    list: &mut Vec<Occurrence<'p>>,
    statement: usize,
    expressions: &'p [Expr],
) -> Result<(), AllocError>
    ensures { OnOk result (map occurrence list.new.items ≡ map occurrence list.old.items
        ++ spec.terms_occurrences statement (terms (map term expressions.now))) }
{
    for expression in expressions {
        add_term(list, statement, expression)?;
    }
    Ok(())
}

/// Appends a reference behind those of its subscripts.
#[cycle(occurrences)]
fn add_element<'p>(
    list: &mut Vec<Occurrence<'p>>,
    statement: usize,
    access: &'p Access,
) -> Result<(), AllocError>
    ensures { OnOk result (map occurrence list.new.items ≡ map occurrence list.old.items
        ++ spec.term_occurrences statement (accessed (access_of access.now))) }
{
    add_terms(list, statement, &access.subscripts)?;
    let place = Occurrence {
        reference: access.reference,
        subscripts: &access.subscripts,
        defines: false,
        statement,
    };
    add_place(list, place)
}

/// Appends the references of an expression, in order of evaluation.
///
/// # Errors
///
/// `AllocError` where memory is refused; some of them may stand in the list then.
#[cycle(occurrences)]
pub fn add_term<'p>(
    list: &mut Vec<Occurrence<'p>>,
    statement: usize,
    expression: &'p Expr,
) -> Result<(), AllocError>
    ensures { OnOk result (map occurrence list.new.items ≡ map occurrence list.old.items
        ++ spec.term_occurrences statement (term expression.now)) }
{
    match expression {
        Expr::Constant(_) | Expr::Truth(_) | Expr::Parameter(_, _) => Ok(()),
        Expr::Element(access) => add_element(list, statement, access),
        Expr::Call(_, arguments) => add_terms(list, statement, arguments),
        Expr::Parentheses(inner) => add_term(list, statement, inner),
        Expr::Unary(_, operand) => add_term(list, statement, operand),
        Expr::Binary(_, left, right) => {
            add_term(list, statement, left)?;
            add_term(list, statement, right)
        }
    }
}

/// Appends the references of an expression that may be absent, in order of evaluation.
///
/// # Errors
///
/// `AllocError` where memory is refused; some of them may stand in the list then.
pub fn add_optional<'p>(
    list: &mut Vec<Occurrence<'p>>,
    statement: usize,
    expression: &'p Option<Expr>,
) -> Result<(), AllocError>
    ensures { OnOk result (map occurrence list.new.items ≡ map occurrence list.old.items
        ++ spec.optional_occurrences statement (optional_term expression.now)) }
{
    match expression {
        Some(expression) => add_term(list, statement, expression),
        None => Ok(()),
    }
}

/// Appends an element that is given a value behind the references of its subscripts.
fn add_target<'p>(
    list: &mut Vec<Occurrence<'p>>,
    statement: usize,
    access: &'p Access,
) -> Result<(), AllocError>
    ensures { OnOk result (map occurrence list.new.items ≡ map occurrence list.old.items
        ++ spec.target_occurrences statement (access_of access.now)) }
{
    add_terms(list, statement, &access.subscripts)?;
    let place = Occurrence {
        reference: access.reference,
        subscripts: &access.subscripts,
        defines: true,
        statement,
    };
    add_place(list, place)
}

fn add_targets<'p>(
    list: &mut Vec<Occurrence<'p>>,
    statement: usize,
    elements: &'p [Access],
) -> Result<(), AllocError>
    ensures { OnOk result (map occurrence list.new.items ≡ map occurrence list.old.items
        ++ spec.targets_occurrences statement (map access_of elements.now)) }
{
    for element in elements {
        add_target(list, statement, element)?;
    }
    Ok(())
}

fn add_item<'p>(
    list: &mut Vec<Occurrence<'p>>,
    statement: usize,
    item: &'p Item,
) -> Result<(), AllocError>
    ensures { OnOk result (map occurrence list.new.items ≡ map occurrence list.old.items
        ++ spec.item_occurrences statement (item_of item.now)) }
{
    match item {
        Item::Value(value) => add_term(list, statement, value),
        Item::Text(_) => Ok(()),
    }
}

fn add_items<'p>(
    list: &mut Vec<Occurrence<'p>>,
    statement: usize,
    items: &'p [Item],
) -> Result<(), AllocError>
    ensures { OnOk result (map occurrence list.new.items ≡ map occurrence list.old.items
        ++ spec.items_occurrences statement (map item_of items.now)) }
{
    for item in items {
        add_item(list, statement, item)?;
    }
    Ok(())
}

/// Appends the references of an assignment: of the value, then of what is assigned.
fn add_assignment<'p>(
    list: &mut Vec<Occurrence<'p>>,
    statement: usize,
    target: &'p Access,
    value: &'p Expr,
) -> Result<(), AllocError>
    ensures { OnOk result (map occurrence list.new.items ≡ map occurrence list.old.items
        ++ (spec.term_occurrences statement (term value.now)
        ++ spec.target_occurrences statement (access_of target.now))) }
{
    add_term(list, statement, value)?;
    add_target(list, statement, target)
}

/// Appends the references of a statement, in order of evaluation.
pub fn add_kind<'p>(
    list: &mut Vec<Occurrence<'p>>,
    statement: usize,
    action: &'p Action,
) -> Result<(), AllocError>
    ensures { OnOk result (map occurrence list.new.items ≡ map occurrence list.old.items
        ++ spec.kind_occurrences statement (action_of action.now)) }
{
    match action {
        Action::Assign(target, value) => add_assignment(list, statement, target, value),
        Action::Print(items) => add_items(list, statement, items),
        Action::Read(elements) => add_targets(list, statement, elements),
        Action::Stop | Action::Inert(_) => Ok(()),
    }
}

/// Appends the references of a DO's parameters.
fn add_parameters<'p>(
    list: &mut Vec<Occurrence<'p>>,
    statement: usize,
    head: &'p DoHead,
) -> Result<(), AllocError>
    ensures { OnOk result (map occurrence list.new.items ≡ map occurrence list.old.items
        ++ spec.term_occurrences statement (head_of head.now).first
        ++ spec.term_occurrences statement (head_of head.now).last
        ++ spec.optional_occurrences statement (head_of head.now).step) }
{
    add_term(list, statement, &head.first)?;
    add_term(list, statement, &head.last)?;
    add_optional(list, statement, &head.step)
}

/// Appends the references of a DO: of its parameters, then its variable.
pub fn add_head<'p>(
    list: &mut Vec<Occurrence<'p>>,
    statement: usize,
    head: &'p DoHead,
) -> Result<(), AllocError>
    ensures { OnOk result (map occurrence list.new.items ≡ map occurrence list.old.items
        ++ spec.head_occurrences statement (head_of head.now)) }
{
    add_parameters(list, statement, head)?;
    let variable = Occurrence {
        reference: head.variable,
        subscripts: &[],
        defines: true,
        statement,
    };
    add_place(list, variable)
}
