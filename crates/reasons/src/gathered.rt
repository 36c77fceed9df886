//! Variables that gather something of each iteration: sums, products, greatest and least values.

use crate::fixed::{are_alike, are_fixed, are_same};
use crate::spelled::append_reference;
use ast::{Access, Action, Arm, Expr, Intrinsic, Line, Name, Node, Operator, PlainStatement};
use explanations::append_number;
use loop_tree::LoopView;
use std::alloc::{AllocError, Global};

/// What is gathered.
#[derive(Clone, Copy, PartialEq, Eq)]
enum Gathering {
    Sum,
    Product,
    Maximum,
    Minimum,
}

impl Gathering {
    fn name(self) -> &'static [u8] {
        match self {
            Gathering::Sum => b"sum",
            Gathering::Product => b"product",
            Gathering::Maximum => b"maximum",
            Gathering::Minimum => b"minimum",
        }
    }

    fn names(self) -> &'static [u8] {
        match self {
            Gathering::Sum => b"sums",
            Gathering::Product => b"products",
            Gathering::Maximum => b"maxima",
            Gathering::Minimum => b"minima",
        }
    }

    /// What is gathered where the operands of a comparison change places.
    fn turned(self) -> Gathering {
        match self {
            Gathering::Maximum => Gathering::Minimum,
            Gathering::Minimum => Gathering::Maximum,
            Gathering::Sum | Gathering::Product => self,
        }
    }

    /// Whether this operator joins what is gathered to more of it.
    fn has(self, operator: Operator) -> bool {
        match self {
            Gathering::Sum => operator == Operator::Add || operator == Operator::Subtract,
            Gathering::Product => operator == Operator::Multiply,
            Gathering::Maximum | Gathering::Minimum => false,
        }
    }
}

/// A statement that gathers.
#[derive(Clone, Copy)]
struct Gatherer<'p> {
    target: &'p Access,
    line: Line,
    gathering: Gathering,
}

/// Whether an expression is a variable, or that joined by an operator to something else.
fn is_joined(
    alloc: Global,
    target: &Access,
    gathering: Gathering,
    expression: &Expr,
) -> Result<bool, AllocError> {
    match expression {
        Expr::Element(access) => are_alike(alloc, target, access),
        Expr::Parentheses(inner) => is_joined(alloc, target, gathering, inner),
        Expr::Binary(operator, left, right) if gathering.has(*operator) => {
            let is_left = is_joined(alloc, target, gathering, left)?;
            if is_left || *operator == Operator::Subtract {
                return Ok(is_left);
            }
            is_joined(alloc, target, gathering, right)
        }
        _ => Ok(false),
    }
}

/// Whether a variable is among arguments.
fn is_among(alloc: Global, target: &Access, arguments: &[Expr]) -> Result<bool, AllocError> {
    for argument in arguments {
        if is_variable(alloc, target, argument)? {
            return Ok(true);
        }
    }
    Ok(false)
}

/// What an expression might gather, by its form.
fn form_of(value: &Expr) -> Option<Gathering> {
    match value {
        Expr::Binary(Operator::Add | Operator::Subtract, _, _) => Some(Gathering::Sum),
        Expr::Binary(Operator::Multiply, _, _) => Some(Gathering::Product),
        Expr::Call(Intrinsic::Max | Intrinsic::Max0, _) => Some(Gathering::Maximum),
        Expr::Call(Intrinsic::Min | Intrinsic::Min0, _) => Some(Gathering::Minimum),
        _ => None,
    }
}

/// Whether a variable is given its own value with something more.
fn gathers(
    alloc: Global,
    target: &Access,
    gathering: Gathering,
    value: &Expr,
) -> Result<bool, AllocError> {
    match value {
        Expr::Call(_, arguments) => is_among(alloc, target, arguments),
        _ => is_joined(alloc, target, gathering, value),
    }
}

/// Adds a statement if it gathers.
fn add_statement<'p>(
    alloc: Global,
    found: &mut Vec<Gatherer<'p>>,
    statement: &'p PlainStatement,
) -> Result<(), AllocError> {
    let Action::Assign(target, value) = &statement.action else {
        return Ok(());
    };
    match form_of(value) {
        Some(gathering) if gathers(alloc, target, gathering, value)? => {
            add(found, statement, target, gathering)
        }
        _ => Ok(()),
    }
}

/// Adds a statement that gathers this in its target.
fn add<'p>(
    found: &mut Vec<Gatherer<'p>>,
    statement: &PlainStatement,
    target: &'p Access,
    gathering: Gathering,
) -> Result<(), AllocError> {
    found.push(Gatherer {
        target,
        line: statement.line,
        gathering,
    })?;
    Ok(())
}

/// What is gathered where a value takes the place of another that it is so compared with.
fn compared(operator: Operator) -> Option<Gathering> {
    match operator {
        Operator::Greater | Operator::GreaterOrEqual => Some(Gathering::Maximum),
        Operator::Less | Operator::LessOrEqual => Some(Gathering::Minimum),
        _ => None,
    }
}

/// Whether an expression is written as a variable is.
fn is_variable(alloc: Global, target: &Access, expression: &Expr) -> Result<bool, AllocError> {
    match expression {
        Expr::Element(access) => are_alike(alloc, target, access),
        _ => Ok(false),
    }
}

/// What a variable gathers that takes a value where this condition holds of the two.
fn chosen(
    alloc: Global,
    condition: &Expr,
    target: &Access,
    value: &Expr,
) -> Result<Option<Gathering>, AllocError> {
    let Expr::Binary(operator, left, right) = condition else {
        return Ok(None);
    };
    let Some(gathering) = compared(*operator) else {
        return Ok(None);
    };
    if is_variable(alloc, target, right)? && are_same(alloc, left, value)? {
        return Ok(Some(gathering));
    }
    if is_variable(alloc, target, left)? && are_same(alloc, right, value)? {
        return Ok(Some(gathering.turned()));
    }
    Ok(None)
}

/// Adds the statement of an arm, if it gathers by the arm's condition.
fn add_chosen<'p>(
    alloc: Global,
    found: &mut Vec<Gatherer<'p>>,
    condition: &Expr,
    statement: &'p PlainStatement,
) -> Result<(), AllocError> {
    let Action::Assign(target, value) = &statement.action else {
        return Ok(());
    };
    match chosen(alloc, condition, target, value)? {
        Some(gathering) => add(found, statement, target, gathering),
        None => Ok(()),
    }
}

/// Adds what an IF with one arm and one statement gathers, if it does.
fn add_choice<'p>(
    alloc: Global,
    found: &mut Vec<Gatherer<'p>>,
    arms: &'p [Arm],
) -> Result<(), AllocError> {
    let [arm] = arms else {
        return Ok(());
    };
    match (&arm.condition, arm.body.as_slice()) {
        (Some(condition), [Node::Plain(statement)]) => {
            add_chosen(alloc, found, condition, statement)
        }
        _ => Ok(()),
    }
}

#[cycle(gathered)]
fn add_arms<'p>(
    alloc: Global,
    found: &mut Vec<Gatherer<'p>>,
    arms: &'p [Arm],
) -> Result<(), AllocError> {
    for arm in arms {
        add_nodes(alloc, found, &arm.body)?;
    }
    Ok(())
}

/// Adds the statements that gather.
#[cycle(gathered)]
fn add_nodes<'p>(
    alloc: Global,
    found: &mut Vec<Gatherer<'p>>,
    nodes: &'p [Node],
) -> Result<(), AllocError> {
    for node in nodes {
        match node {
            Node::Plain(statement) => add_statement(alloc, found, statement)?,
            Node::Loop(_, _, range) => add_nodes(alloc, found, range)?,
            Node::Choice(arms) => {
                add_choice(alloc, found, arms)?;
                add_arms(alloc, found, arms)?;
            }
        }
    }
    Ok(())
}

/// How many references there are to the variable of a statement that gathers.
fn references_to(view: &LoopView<'_, '_>, one: &Gatherer<'_>) -> usize {
    let name = one.target.reference.name;
    view.references()
        .iter()
        .filter(|occurrence| occurrence.reference.name == name)
        .count()
}

/// How many of the references to its variable are of statements that gather the same.
fn gathering_references(found: &[Gatherer<'_>], one: &Gatherer<'_>) -> usize {
    let name = one.target.reference.name;
    let same = found.iter().filter(|other| other.target.reference.name == name
        && other.gathering == one.gathering);
    same.count().saturating_mul(2)
}

/// Whether what a statement gathers passes from one iteration to the next, and the range has no
/// other use for it.
fn is_whole(
    view: &LoopView<'_, '_>,
    privates: &[Name],
    found: &[Gatherer<'_>],
    one: &Gatherer<'_>,
) -> bool {
    !privates.contains(&one.target.reference.name)
        && are_fixed(view, &one.target.subscripts)
        && references_to(view, one) == gathering_references(found, one)
}

/// Appends what a statement gathers, and what the cure is.
fn append_gatherer(out: &mut Vec<u8>, one: &Gatherer<'_>) -> Result<(), AllocError> {
    out.extend_from_slice(b"  line ")?;
    append_number(out, one.line)?;
    out.extend_from_slice(b" gathers a ")?;
    out.extend_from_slice(one.gathering.name())?;
    out.extend_from_slice(b" in ")?;
    append_reference(out, &one.target.reference.name, &one.target.subscripts)?;
    out.extend_from_slice(b":\n    partial ")?;
    out.extend_from_slice(one.gathering.names())?;
    out.extend_from_slice(
        b" in an array, one for each block of iterations, wait for no other block\n",
    )
}

/// Appends what statements of a loop gather in variables that iterations share.
pub fn append_gathered(
    alloc: Global,
    out: &mut Vec<u8>,
    view: &LoopView<'_, '_>,
    privates: &[Name],
) -> Result<(), AllocError> {
    let mut found = Vec::new(alloc);
    add_nodes(alloc, &mut found, view.body())?;
    for one in &found {
        if is_whole(view, privates, &found, one) {
            append_gatherer(out, one)?;
        }
    }
    Ok(())
}
