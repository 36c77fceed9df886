//! Which statement is in the way where a loop doesn't suit.

ghost use Rattle.std.specs.Prelude.{◌≡◌, ◌+◌, IfOk, map, take};
ghost use Rattle.ast.specs.Tree.{arms as arms_of};
ghost use Rattle.ast.specs.View as tree;
ghost use Rattle.ast.specs.View.{arm as arm_of, block_view, letters, node as node_of};
ghost use Rattle.loop_tree.specs.TreeView.{seen};
ghost use Rattle.placement.specs.Hindering as spec;

use crate::origins::sources;
use ast::{Action, Arm, Line, MOST_EVENTS, Name, Node, PlainStatement};
use dependence::has_name;
use loop_tree::LoopView;
use privatise::private_scalars;
use std::alloc::{AllocError, Global};

/// The line of a statement that is a READ.
fn line_of_read(statement: &PlainStatement) -> Option<Line>
    ensures { result ≡ spec.line_of_read (tree.plain_statement statement.now) }
{
    match &statement.action {
        Action::Read(_) => Some(statement.line),
        Action::Assign(_, _) | Action::Print(_) | Action::Stop | Action::Inert(_) => None,
    }
}

#[cycle(reads)]
fn read_in_arms(arms: &[Arm]) -> Option<Line>
    ensures { result ≡ spec.arms_read (arms_of (map arm_of arms.now)) }
{
    for arm in arms {
        let found = read_in(&arm.body);
        if found.is_some() {
            return found;
        }
    }
    None
}

#[cycle(reads)]
fn read_in_node(node: &Node) -> Option<Line>
    ensures { result ≡ spec.node_read (node_of node.now) }
{
    match node {
        Node::Plain(statement) => line_of_read(statement),
        Node::Loop(_, _, range) => read_in(range),
        Node::Choice(arms) => read_in_arms(arms),
    }
}

/// The line of the first READ among statements.
#[cycle(reads)]
fn read_in(nodes: &[Node]) -> Option<Line>
    ensures { result ≡ spec.first_read (block_view nodes.now) }
{
    for node in nodes {
        let found = read_in_node(node);
        if found.is_some() {
            return found;
        }
    }
    None
}

/// The line of the first READ in a loop.
pub fn first_read(view: &LoopView<'_, '_>) -> Option<Line>
    ensures { result ≡ spec.first_read (seen view.now).body }
{
    read_in(view.body())
}

/// The variable of the DO in a line, with that line, if it isn't among names.
fn unless_among(names: &[Name], name: Name, line: Line) -> Option<(Name, Line)>
    ensures { spec.shown result ≡ spec.unless_among (map letters names.now) name.letters line }
{
    if has_name(names, name) {
        None
    } else {
        Some((name, line))
    }
}

#[cycle(variables)]
fn shared_in_arms(names: &[Name], arms: &[Arm]) -> Option<(Name, Line)>
    ensures { spec.shown result
        ≡ spec.arms_shared (map letters names.now) (arms_of (map arm_of arms.now)) }
{
    for arm in arms {
        let found = shared_in(names, &arm.body);
        if found.is_some() {
            return found;
        }
    }
    None
}

#[cycle(variables)]
fn shared_in_node(names: &[Name], node: &Node) -> Option<(Name, Line)>
    ensures { spec.shown result ≡ spec.node_shared (map letters names.now) (node_of node.now) }
{
    match node {
        Node::Plain(_) => None,
        Node::Loop(line, head, range) => match unless_among(names, head.variable.name, *line) {
            Some(found) => Some(found),
            None => shared_in(names, range),
        },
        Node::Choice(arms) => shared_in_arms(names, arms),
    }
}

/// The first variable of a DO among statements that isn't among names, and the line of the DO.
#[cycle(variables)]
fn shared_in(names: &[Name], nodes: &[Node]) -> Option<(Name, Line)>
    ensures { spec.shown result ≡ spec.first_shared (map letters names.now) (block_view nodes.now) }
{
    for node in nodes {
        let found = shared_in_node(names, node);
        if found.is_some() {
            return found;
        }
    }
    None
}

/// The first variable of a loop inside that isn't private, if one is, and the line of its DO.
///
/// # Errors
///
/// `AllocError` where memory is refused.
#[tactic(auto, using(crate::proofs::Hindered::is_shared))]
pub fn first_shared(
    alloc: Global,
    view: &LoopView<'_, '_>,
) -> Result<Option<(Name, Line)>, AllocError>
    ensures { IfOk result (spec.IsFirstShared (seen view.now)) }
{
    let privates = private_scalars(alloc, view)?;
    Ok(shared_in(&privates.names, view.body()))
}

/// The line of a statement, by the lines of all.
fn line_at(lines: &[Line], statement: usize) -> Line
    ensures { result ≡ spec.line_at lines.now statement }
{
    lines.get(statement).copied().unwrap_or(0)
}

/// The first so many of statements, or all where there are fewer.
fn front(statements: &[usize], count: usize) -> &[usize]
    ensures { result.now ≡ take count statements.now }
{
    if count < statements.len() {
        &statements[..count]
    } else {
        statements
    }
}

/// The lines of statements, by the lines of all.
fn lines_of(alloc: Global, lines: &[Line], statements: &[usize]) -> Result<Vec<Line>, AllocError>
    ensures { IfOk result (λ found. found.items ≡ map (spec.line_at lines.now) statements.now) }
{
    let mut found = Vec::with_capacity(alloc, statements.len())?;
    for statement in statements {
        found.push(line_at(lines, *statement))?;
    }
    Ok(found)
}

/// The lines of the first sources of a loop, one more than there may be events, or as many as there
/// are; by the lines of the program's statements.
///
/// # Errors
///
/// `AllocError` where memory is refused.
#[tactic(auto, using(crate::proofs::Hindered::are_first))]
pub fn first_sources(
    alloc: Global,
    view: &LoopView<'_, '_>,
    lines: &[Line],
) -> Result<Vec<Line>, AllocError>
    ensures { IfOk result (λ first. spec.AreFirstSources lines.now (seen view.now) first.items) }
{
    let privates = private_scalars(alloc, view)?;
    let sources = sources(alloc, view, &privates.names)?;
    lines_of(alloc, lines, front(&sources, MOST_EVENTS + 1))
}
