//! How many statements there are.

ghost use Rattle.std.specs.Prelude.{◌≡◌, ◌+◌, IfOk, map};
ghost use Rattle.ast.specs.Tree.{arms as arms_of};
ghost use Rattle.ast.specs.View.{arm as arm_of, block_view, node as node_of};
ghost use Rattle.placement.specs.Placing as spec;

use ast::{Arm, Node};
use std::alloc::AllocError;

/// A sum of numbers of statements. One that no `usize` holds is want of memory: so many statements
/// have no place.
pub fn add(first: usize, second: usize) -> Result<usize, AllocError>
    ensures { IfOk result (λ sum. sum ≡ first + second) }
{
    match first.checked_add(second) {
        Some(sum) => Ok(sum),
        None => Err(AllocError),
    }
}

/// How many statements a node has, itself among them.
#[cycle(counting)]
pub fn node_size(node: &Node) -> Result<usize, AllocError>
    ensures { IfOk result (λ size. size ≡ spec.node_size (node_of node.now)) }
{
    match node {
        Node::Plain(_) => Ok(1),
        Node::Loop(_, _, range) => add(1, block_size(range)?),
        Node::Choice(arms) => add(1, arms_size(arms)?),
    }
}

/// How many statements the arms of an IF hold.
#[cycle(counting)]
pub fn arms_size(arms: &[Arm]) -> Result<usize, AllocError>
    ensures { IfOk result (λ size. size ≡ spec.arms_size (arms_of (map arm_of arms.now))) }
{
    let mut size = 0;
    for arm in arms {
        size = add(size, block_size(&arm.body)?)?;
    }
    Ok(size)
}

/// How many statements there are, those that stand in others among them.
#[cycle(counting)]
pub fn block_size(nodes: &[Node]) -> Result<usize, AllocError>
    ensures { IfOk result (λ size. size ≡ spec.block_size (block_view nodes.now)) }
{
    let mut size = 0;
    for node in nodes {
        size = add(size, node_size(node)?)?;
    }
    Ok(size)
}
