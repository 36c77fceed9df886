//! The range of a loop with its awaits and advances.

ghost use Rattle.std.specs.Prelude.{◌≡◌, ◌++◌, ◌&&◌, IfOk, OnOk, false, map, true};
ghost use Rattle.ast.specs.Tree as tree;
ghost use Rattle.ast.specs.Tree.{arms as arms_of};
ghost use Rattle.ast.specs.View.{arm as arm_of, block_view, head as head_of, node as node_of};
ghost use Rattle.dependence.specs.Plan.{choose, loop};
ghost use Rattle.dependence.specs.PlanView.{arm_view, arms as plan_arms, last_arm, nodes_of};
ghost use Rattle.dependence.specs.PlanView.{plan_block, plan_node};
ghost use Rattle.placement.specs.Listed as spec;
ghost use Rattle.placement.specs.Placing.{inner_node, placed_block, placed_node};

use crate::counting::{add, arms_size, block_size, node_size};
use ast::statement::copy_of_optional;
use ast::{Arm, DoHead, Line, Node};
use dependence::{PlanArm, PlanStmt};
use std::alloc::{AllocError, Global};

/// Where events are advanced and awaited.
#[derive(Drop)]
pub struct Spots {
    /// The statements that are sources, in order: the events, from 1 on.
    pub sources: Vec<usize>,
    /// What is awaited before each statement, by event and distance.
    pub awaits: Vec<Vec<(usize, u128)>>,
}

/// Appends awaits.
fn push_awaits(list: &mut Vec<PlanStmt>, awaits: &[(usize, u128)]) -> Result<(), AllocError>
    ensures { OnOk result (map plan_node list.new.items ≡ map plan_node list.old.items
        ++ spec.await_nodes awaits.now) }
{
    for await_at in awaits {
        list.push(PlanStmt::Await(await_at.0, await_at.1))?;
    }
    Ok(())
}

/// What is awaited before a statement.
fn awaited(spots: &Spots, statement: usize) -> &[(usize, u128)]
    ensures { result.now ≡ spec.awaited spots.now statement }
{
    if statement < spots.awaits.len() {
        &spots.awaits[statement]
    } else {
        &[]
    }
}

/// Appends what is awaited before a statement.
fn push_awaits_before(
    list: &mut Vec<PlanStmt>,
    spots: &Spots,
    statement: usize,
) -> Result<(), AllocError>
    ensures { OnOk result (map plan_node list.new.items ≡ map plan_node list.old.items
        ++ spec.await_nodes (spec.awaited spots.now statement)) }
{
    push_awaits(list, awaited(spots, statement))
}

/// Appends the advance of an event with the order await that stands before it.
fn push_advance(list: &mut Vec<PlanStmt>, event: usize) -> Result<(), AllocError>
    ensures { OnOk result (map plan_node list.new.items ≡ map plan_node list.old.items
        ++ spec.advance_nodes_of event) }
{
    list.push(PlanStmt::Await(event, 1))?;
    list.push(PlanStmt::Advance(event))?;
    Ok(())
}

/// Appends the advances of the events whose sources stand from one number on and before another.
fn push_advances(
    list: &mut Vec<PlanStmt>,
    sources: &[usize],
    first: usize,
    behind: usize,
) -> Result<(), AllocError>
    ensures { OnOk result (map plan_node list.new.items ≡ map plan_node list.old.items
        ++ spec.advance_nodes 1 sources.now first behind) }
{
    let mut event = 1;
    for source in sources {
        if first <= *source && *source < behind {
            push_advance(list, event)?;
        }
        event += 1;
    }
    Ok(())
}

/// Whether there is an ELSE among arms.
fn has_else(arms: &[Arm]) -> bool
    ensures { result ≡ spec.has_else (arms_of (map arm_of arms.now)) }
{
    for arm in arms {
        match arm.condition {
            Some(_) => {}
            None => return true,
        }
    }
    false
}

/// The made ELSE of an IF whose arms hold the sources of some events, where it has none.
fn made_else(
    alloc: Global,
    spots: &Spots,
    arms: &[Arm],
    first: usize,
    behind: usize,
) -> Result<Option<Vec<PlanStmt>>, AllocError>
    ensures { IfOk result (λ made. nodes_of (λ v. map plan_node v.items) made
        ≡ spec.listed_else spots.now.sources.items (spec.has_else (arms_of (map arm_of arms.now)))
        first behind) }
{
    if has_else(arms) {
        return Ok(None);
    }
    let mut body = Vec::new(alloc);
    push_advances(&mut body, &spots.sources, first, behind)?;
    if body.is_empty() {
        return Ok(None);
    }
    Ok(Some(body))
}

/// Appends the advances behind a statement.
fn push_anchored(
    list: &mut Vec<PlanStmt>,
    sources: &[usize],
    statement: usize,
    node: &Node,
) -> Result<(), AllocError>
    ensures { OnOk result (map plan_node list.new.items ≡ map plan_node list.old.items
        ++ spec.anchors sources.now statement (node_of node.now)) }
{
    let behind = match node {
        Node::Plain(_) | Node::Choice(_) => add(statement, 1)?,
        Node::Loop(_, _, _) => add(statement, node_size(node)?)?,
    };
    push_advances(list, sources, statement, behind)
}

/// Appends the advances of the other arms' events, which an arm begins with.
fn push_opening(
    list: &mut Vec<PlanStmt>,
    sources: &[usize],
    first: usize,
    behind: usize,
    statement: usize,
    nodes: &[Node],
) -> Result<(), AllocError>
    ensures { OnOk result (map plan_node list.new.items ≡ map plan_node list.old.items
        ++ spec.opening sources.now first behind statement (block_view nodes.now)) }
{
    push_advances(list, sources, first, statement)?;
    let end = add(statement, block_size(nodes)?)?;
    push_advances(list, sources, end, behind)
}

fn made_loop(line: Line, head: DoHead, range: Vec<PlanStmt>) -> PlanStmt
    ensures { plan_node result ≡ loop line (head_of head) (plan_block range.items) }
{
    PlanStmt::Loop(line, head, range)
}

fn made_choice(arms: Vec<PlanArm>, made: Option<Vec<PlanStmt>>) -> PlanStmt
    ensures { plan_node result
        ≡ choose (plan_arms (map arm_view arms.items)
        (last_arm (nodes_of (λ v. map plan_node v.items) made))) }
{
    PlanStmt::Choice(arms, made)
}

/// A loop inside: its range has awaits alone.
#[cycle(inner)]
fn inner_loop(
    alloc: Global,
    spots: &Spots,
    statement: usize,
    line: Line,
    head: &DoHead,
    range: &[Node],
) -> Result<PlanStmt, AllocError>
    ensures { IfOk result (λ placed. plan_node placed
        ≡ inner_node spots.now.sources.items (spec.awaited spots.now) statement
        (tree.loop line (head_of head.now) (block_view range.now))) }
{
    let first = add(statement, 1)?;
    let copy = head.try_copy(alloc)?;
    let placed = inner_range(alloc, spots, first, range)?;
    Ok(made_loop(line, copy, placed))
}

/// An IF of a loop inside.
#[cycle(inner)]
fn inner_choice(
    alloc: Global,
    spots: &Spots,
    statement: usize,
    arms: &[Arm],
) -> Result<PlanStmt, AllocError>
    ensures { IfOk result (λ placed. plan_node placed
        ≡ inner_node spots.now.sources.items (spec.awaited spots.now) statement
        (tree.choose (arms_of (map arm_of arms.now)))) }
{
    let first = add(statement, 1)?;
    let placed = inner_arms(alloc, spots, first, arms)?;
    Ok(made_choice(placed, None))
}

/// A statement of an inner loop: awaits alone are put there.
#[cycle(inner)]
fn inner(
    alloc: Global,
    spots: &Spots,
    statement: usize,
    node: &Node,
) -> Result<PlanStmt, AllocError>
    ensures { IfOk result (λ placed. plan_node placed
        ≡ inner_node spots.now.sources.items (spec.awaited spots.now) statement
        (node_of node.now)) }
{
    match node {
        Node::Plain(plain) => Ok(PlanStmt::Plain(plain.try_copy(alloc)?)),
        Node::Loop(line, head, range) => inner_loop(alloc, spots, statement, *line, head, range),
        Node::Choice(arms) => inner_choice(alloc, spots, statement, arms),
    }
}

/// Statements of an inner loop, from a number on.
#[cycle(inner)]
fn inner_range(
    alloc: Global,
    spots: &Spots,
    from: usize,
    nodes: &[Node],
) -> Result<Vec<PlanStmt>, AllocError>
    ensures { IfOk result (λ placed. map plan_node placed.items
        ≡ spec.inner_nodes spots.now.sources.items (spec.awaited spots.now) from
        (block_view nodes.now)) }
{
    let mut list = Vec::new(alloc);
    let mut statement = from;
    for node in nodes {
        push_awaits_before(&mut list, spots, statement)?;
        list.push(inner(alloc, spots, statement, node)?)?;
        statement = add(statement, node_size(node)?)?;
    }
    Ok(list)
}

#[cycle(inner)]
fn inner_arm(alloc: Global, spots: &Spots, from: usize, arm: &Arm) -> Result<PlanArm, AllocError>
    ensures { IfOk result (λ placed. arm_view placed
        ≡ spec.inner_arm spots.now.sources.items (spec.awaited spots.now) from (arm_of arm.now).line
        (arm_of arm.now).condition (arm_of arm.now).body) }
{
    let condition = copy_of_optional(alloc, &arm.condition)?;
    let body = inner_range(alloc, spots, from, &arm.body)?;
    Ok(PlanArm {
        line: arm.line,
        condition,
        body,
    })
}

#[cycle(inner)]
fn inner_arms(
    alloc: Global,
    spots: &Spots,
    from: usize,
    arms: &[Arm],
) -> Result<Vec<PlanArm>, AllocError>
    ensures { IfOk result (λ placed. map arm_view placed.items
        ≡ spec.inner_listed_arms spots.now.sources.items (spec.awaited spots.now) from
        (arms_of (map arm_of arms.now))) }
{
    let mut placed = Vec::new(alloc);
    let mut statement = from;
    for arm in arms {
        placed.push(inner_arm(alloc, spots, statement, arm)?)?;
        statement = add(statement, block_size(&arm.body)?)?;
    }
    Ok(placed)
}

/// An IF of the loop's own, outside inner loops.
#[cycle(placed)]
fn placed_choice(
    alloc: Global,
    spots: &Spots,
    statement: usize,
    arms: &[Arm],
) -> Result<PlanStmt, AllocError>
    ensures { IfOk result (λ placed. plan_node placed
        ≡ placed_node spots.now.sources.items (spec.awaited spots.now) statement
        (tree.choose (arms_of (map arm_of arms.now)))) }
{
    let first = add(statement, 1)?;
    let size = arms_size(arms)?;
    let behind = add(first, size)?;
    let placed = placed_arms(alloc, spots, first, behind, arms)?;
    let made = made_else(alloc, spots, arms, first, behind)?;
    Ok(made_choice(placed, made))
}

/// A statement of the loop's own, outside inner loops.
#[cycle(placed)]
fn placed(
    alloc: Global,
    spots: &Spots,
    statement: usize,
    node: &Node,
) -> Result<PlanStmt, AllocError>
    ensures { IfOk result (λ placed. plan_node placed
        ≡ placed_node spots.now.sources.items (spec.awaited spots.now) statement
        (node_of node.now)) }
{
    match node {
        Node::Plain(plain) => Ok(PlanStmt::Plain(plain.try_copy(alloc)?)),
        Node::Loop(line, head, range) => inner_loop(alloc, spots, statement, *line, head, range),
        Node::Choice(arms) => placed_choice(alloc, spots, statement, arms),
    }
}

/// The statements of an arm of an IF whose arms stand from one number on and before another. The
/// advances of the other arms' events go first.
#[cycle(placed)]
fn open_range(
    alloc: Global,
    spots: &Spots,
    first: usize,
    behind: usize,
    from: usize,
    nodes: &[Node],
) -> Result<Vec<PlanStmt>, AllocError>
    ensures { IfOk result (λ placed. map plan_node placed.items
        ≡ spec.opening spots.now.sources.items first behind from (block_view nodes.now)
        ++ spec.placed_nodes spots.now.sources.items (spec.awaited spots.now) from
        (block_view nodes.now)) }
{
    let mut list = Vec::new(alloc);
    push_opening(&mut list, &spots.sources, first, behind, from, nodes)?;
    let mut statement = from;
    for node in nodes {
        push_awaits_before(&mut list, spots, statement)?;
        list.push(placed(alloc, spots, statement, node)?)?;
        push_anchored(&mut list, &spots.sources, statement, node)?;
        statement = add(statement, node_size(node)?)?;
    }
    Ok(list)
}

/// An arm: one that isn't behind an ELSE begins with the advances of the other arms' events.
#[cycle(placed)]
fn placed_arm(
    alloc: Global,
    spots: &Spots,
    is_open: bool,
    first: usize,
    behind: usize,
    from: usize,
    arm: &Arm,
) -> Result<PlanArm, AllocError>
    ensures { IfOk result (λ placed. arm_view placed
        ≡ spec.listed_arm spots.now.sources.items (spec.awaited spots.now) is_open first behind from
        (arm_of arm.now).line (arm_of arm.now).condition (arm_of arm.now).body) }
{
    if !is_open {
        return inner_arm(alloc, spots, from, arm);
    }
    let condition = copy_of_optional(alloc, &arm.condition)?;
    let body = open_range(alloc, spots, first, behind, from, &arm.body)?;
    Ok(PlanArm {
        line: arm.line,
        condition,
        body,
    })
}

/// Whether no arm so far is an ELSE.
fn stays_open(is_open: bool, arm: &Arm) -> bool
    ensures { result ≡ (is_open && spec.is_some (arm_of arm.now).condition) }
{
    match arm.condition {
        Some(_) => is_open,
        None => false,
    }
}

/// Arms of an IF whose arms stand from one number on and before another.
#[cycle(placed)]
fn placed_arms(
    alloc: Global,
    spots: &Spots,
    first: usize,
    behind: usize,
    arms: &[Arm],
) -> Result<Vec<PlanArm>, AllocError>
    ensures { IfOk result (λ placed. map arm_view placed.items
        ≡ spec.listed_arms spots.now.sources.items (spec.awaited spots.now) true first behind first
        (arms_of (map arm_of arms.now))) }
{
    let mut placed = Vec::new(alloc);
    let mut statement = first;
    let mut is_open = true;
    for arm in arms {
        placed.push(placed_arm(alloc, spots, is_open, first, behind, statement, arm)?)?;
        is_open = stays_open(is_open, arm);
        statement = add(statement, block_size(&arm.body)?)?;
    }
    Ok(placed)
}

/// The statements of the range, in a list.
fn placed_list(
    alloc: Global,
    spots: &Spots,
    from: usize,
    nodes: &[Node],
) -> Result<Vec<PlanStmt>, AllocError>
    ensures { IfOk result (λ placed. map plan_node placed.items
        ≡ spec.placed_nodes spots.now.sources.items (spec.awaited spots.now) from
        (block_view nodes.now)) }
{
    let mut list = Vec::new(alloc);
    let mut statement = from;
    for node in nodes {
        push_awaits_before(&mut list, spots, statement)?;
        list.push(placed(alloc, spots, statement, node)?)?;
        push_anchored(&mut list, &spots.sources, statement, node)?;
        statement = add(statement, node_size(node)?)?;
    }
    Ok(list)
}

/// The range of a loop, from its first statement's number on, with awaits and advances.
pub fn placed_range(
    alloc: Global,
    spots: &Spots,
    from: usize,
    nodes: &[Node],
) -> Result<Vec<PlanStmt>, AllocError>
    ensures { IfOk result (λ placed. plan_block placed.items
        ≡ placed_block spots.now.sources.items (spec.awaited spots.now) from
        (block_view nodes.now)) }
{
    let list = placed_list(alloc, spots, from, nodes)?;
    Ok(list)
}
