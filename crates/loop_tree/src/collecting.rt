//! What is collected on the way through a program.

ghost use Rattle.std.specs.Prelude.{◌≡◌, IfOk, None, OnOk, map};
ghost use Rattle.ast.specs.Tree.{arms as arms_of, choose, loop, plain};
ghost use Rattle.ast.specs.View.{arm as arm_of, block_view, head as head_of, node as node_of};
ghost use Rattle.ast.specs.View.{plain_statement as statement_of};
ghost use Rattle.loop_tree.specs.Collecting as spec;
ghost use Rattle.loop_tree.specs.CollectedView.{collected, span};
ghost use Rattle.loop_tree.specs.Occurrences.{first_line};

use crate::assigned::add_assigned;
use crate::constants::{step_of, trips_of};
use crate::occurrence::{Occurrence, add_head, add_kind, add_optional};
use crate::scalars::Scalars;
use ast::{Arm, DoHead, Line, Node, PlainStatement};
use std::alloc::{AllocError, Global};

/// What is known of a loop.
#[derive(Drop)]
pub struct Info<'p> {
    /// The number of the loop around it, from 1.
    pub around: Option<usize>,
    /// The number of its DO among the program's statements, from 0.
    pub statement: usize,
    pub line: Line,
    pub head: &'p DoHead,
    pub body: &'p [Node],
    pub step: Option<i64>,
    pub trips: Option<u128>,
    /// The place of the first reference of its range among the program's, and the place behind the
    /// last.
    pub first: usize,
    pub last: usize,
    pub assigned: Scalars,
}

/// What statements have.
#[derive(Drop)]
pub struct Collected<'p> {
    /// The line of each statement.
    pub lines: Vec<Line>,
    /// The references in order of evaluation.
    pub references: Vec<Occurrence<'p>>,
    /// The loops in the order of the text.
    pub loops: Vec<Info<'p>>,
}

/// What is known of a loop whose references begin at a place.
fn describe<'p>(
    alloc: Global,
    around: Option<usize>,
    statement: usize,
    line: Line,
    head: &'p DoHead,
    range: &'p [Node],
    place: usize,
) -> Result<Info<'p>, AllocError>
    ensures { IfOk result (λ i. span i
        ≡ spec.span_at around statement line (head_of head.now) (block_view range.now) place) }
{
    let mut assigned = Scalars::new(alloc);
    add_assigned(&mut assigned, range)?;
    let step = step_of(alloc, head)?;
    let trips = trips_of(alloc, head)?;
    Ok(Info {
        around,
        statement,
        line,
        head,
        body: range,
        step,
        trips,
        first: place,
        last: place,
        assigned,
    })
}

/// Adds what is known of a loop whose DO's references are the last ones.
fn add_info<'p>(
    alloc: Global,
    parts: &mut Collected<'p>,
    around: Option<usize>,
    statement: usize,
    line: Line,
    head: &'p DoHead,
    range: &'p [Node],
) -> Result<(), AllocError>
    ensures { OnOk result (collected parts.new
        ≡ spec.with_info around statement line (head_of head.now) (block_view range.now)
        (collected parts.old)) }
{
    let place = parts.references.len();
    let info = describe(alloc, around, statement, line, head, range, place)?;
    parts.loops.push(info)?;
    Ok(())
}

/// Adds the line of a statement.
fn add_line(parts: &mut Collected<'_>, line: Line) -> Result<(), AllocError>
    ensures { OnOk result (collected parts.new ≡ spec.with_line line (collected parts.old)) }
{
    parts.lines.push(line)?;
    Ok(())
}

/// Begins a loop.
fn begin<'p>(
    alloc: Global,
    parts: &mut Collected<'p>,
    around: Option<usize>,
    line: Line,
    head: &'p DoHead,
    range: &'p [Node],
) -> Result<(), AllocError>
    ensures { OnOk result (collected parts.new
        ≡ spec.begun around line (head_of head.now) (block_view range.now) (collected parts.old)) }
{
    let statement = parts.lines.len();
    add_line(parts, line)?;
    add_head(&mut parts.references, statement, head)?;
    add_info(alloc, parts, around, statement, line, head, range)
}

/// Ends the loop at a place.
fn end(loops: &mut Vec<Info<'_>>, place: usize, last: usize)
    ensures { map span loops.new.items ≡ spec.ended_at place last (map span loops.old.items) }
{
    if place < loops.len() {
        loops[place].last = last;
    }
}

/// Ends the loop at a place with the references of its range, which are the last ones.
fn end_range(parts: &mut Collected<'_>, place: usize)
    ensures { collected parts.new ≡ spec.ended place (collected parts.old) }
{
    let last = parts.references.len();
    end(&mut parts.loops, place, last);
}

/// Collects a statement that holds no others.
fn add_plain<'p>(
    parts: &mut Collected<'p>,
    around: Option<usize>,
    statement: &'p PlainStatement,
) -> Result<(), AllocError>
    ensures { OnOk result (collected parts.new
        ≡ spec.after_node around (plain (statement_of statement.now)) (collected parts.old)) }
{
    let number = parts.lines.len();
    add_line(parts, statement.line)?;
    add_kind(&mut parts.references, number, &statement.action)
}

/// The line of an IF, by its arms.
fn first_line(arms: &[Arm]) -> Line
    ensures { result ≡ first_line (arms_of (map arm_of arms.now)) }
{
    match arms {
        [] => 0,
        [first, ..] => first.line,
    }
}

#[cycle(collect)]
fn add_loop<'p>(
    alloc: Global,
    parts: &mut Collected<'p>,
    around: Option<usize>,
    line: Line,
    head: &'p DoHead,
    range: &'p [Node],
) -> Result<(), AllocError>
    ensures { OnOk result (collected parts.new
        ≡ spec.after_node around (loop line (head_of head.now) (block_view range.now))
        (collected parts.old)) }
{
    let place = parts.loops.len();
    begin(alloc, parts, around, line, head, range)?;
    add_nodes(alloc, parts, Some(place + 1), range)?;
    end_range(parts, place);
    Ok(())
}

/// Collects the arms of an IF that is the statement of this number.
#[cycle(collect)]
fn add_arms<'p>(
    alloc: Global,
    parts: &mut Collected<'p>,
    around: Option<usize>,
    number: usize,
    arms: &'p [Arm],
) -> Result<(), AllocError>
    ensures { OnOk result (collected parts.new
        ≡ spec.after_arms around number (arms_of (map arm_of arms.now)) (collected parts.old)) }
{
    for arm in arms {
        add_optional(&mut parts.references, number, &arm.condition)?;
        add_nodes(alloc, parts, around, &arm.body)?;
    }
    Ok(())
}

#[cycle(collect)]
fn add_choice<'p>(
    alloc: Global,
    parts: &mut Collected<'p>,
    around: Option<usize>,
    arms: &'p [Arm],
) -> Result<(), AllocError>
    ensures { OnOk result (collected parts.new
        ≡ spec.after_node around (choose (arms_of (map arm_of arms.now))) (collected parts.old)) }
{
    let number = parts.lines.len();
    add_line(parts, first_line(arms))?;
    add_arms(alloc, parts, around, number, arms)
}

#[cycle(collect)]
fn add_node<'p>(
    alloc: Global,
    parts: &mut Collected<'p>,
    around: Option<usize>,
    node: &'p Node,
) -> Result<(), AllocError>
    ensures { OnOk result (collected parts.new
        ≡ spec.after_node around (node_of node.now) (collected parts.old)) }
{
    match node {
        Node::Plain(statement) => add_plain(parts, around, statement),
        Node::Loop(line, head, range) => add_loop(alloc, parts, around, *line, head, range),
        Node::Choice(arms) => add_choice(alloc, parts, around, arms),
    }
}

/// Collects statements, which stand in a loop or in none.
#[cycle(collect)]
fn add_nodes<'p>(
    alloc: Global,
    parts: &mut Collected<'p>,
    around: Option<usize>,
    nodes: &'p [Node],
) -> Result<(), AllocError>
    ensures { OnOk result (collected parts.new
        ≡ spec.after_block around (block_view nodes.now) (collected parts.old)) }
{
    for node in nodes {
        add_node(alloc, parts, around, node)?;
    }
    Ok(())
}

/// What statements have.
pub fn collect<'p>(alloc: Global, nodes: &'p [Node]) -> Result<Collected<'p>, AllocError>
    ensures { IfOk result (λ parts. collected parts
        ≡ spec.after_block None (block_view nodes.now) spec.no_collected) }
{
    let mut parts = Collected {
        lines: Vec::new(alloc),
        references: Vec::new(alloc),
        loops: Vec::new(alloc),
    };
    add_nodes(alloc, &mut parts, None, nodes)?;
    Ok(parts)
}
