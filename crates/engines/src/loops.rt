//! How many loops a program has.

ghost use Rattle.std.specs.Prelude.{◌≡◌, ◌<◌, ◌^◌, map};
ghost use Rattle.ast.specs.Program as counted;
ghost use Rattle.ast.specs.Tree.{arms as arms_of};
ghost use Rattle.ast.specs.View.{arm as arm_of, block_view, node as node_of};

use ast::{Arm, Node};

#[cycle(loops)]
fn loops_in_node(node: &Node) -> usize
    requires { counted.loops_in_node (node_of node.now) < 2 ^ 64 }
    ensures { result ≡ counted.loops_in_node (node_of node.now) }
{
    match node {
        Node::Plain(_) => 0,
        Node::Loop(_, _, range) => 1 + loops_in(range),
        Node::Choice(arms) => loops_in_arms(arms),
    }
}

#[cycle(loops)]
fn loops_in_arms(arms: &[Arm]) -> usize
    requires { counted.loops_in_arms (arms_of (map arm_of arms.now)) < 2 ^ 64 }
    ensures { result ≡ counted.loops_in_arms (arms_of (map arm_of arms.now)) }
{
    let mut count = 0;
    for arm in arms {
        count += loops_in(&arm.body);
    }
    count
}

/// How many loops stand in statements, also one in another.
#[cycle(loops)]
pub fn loops_in(nodes: &[Node]) -> usize
    requires { counted.loops_in (block_view nodes.now) < 2 ^ 64 }
    ensures { result ≡ counted.loops_in (block_view nodes.now) }
{
    let mut count = 0;
    for node in nodes {
        count += loops_in_node(node);
    }
    count
}
