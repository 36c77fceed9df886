//! A STOP that END follows.

ghost use Rattle.std.specs.Prelude.{◌≡◌};
ghost use Rattle.ast.specs.Meaning.{is_last_stop_of};
ghost use Rattle.ast.specs.Stops.{is_end, is_stop};
ghost use Rattle.ast.specs.View.{block_view, node as node_of};

use crate::plain::{Action, Inert};
use crate::tree::Node;

fn is_stop(node: &Node) -> bool
    ensures { result ≡ is_stop (node_of node.now) }
{
    match node {
        Node::Plain(statement) => matches!(statement.action, Action::Stop),
        Node::Loop(_, _, _) | Node::Choice(_) => false,
    }
}

fn is_end(node: &Node) -> bool
    ensures { result ≡ is_end (node_of node.now) }
{
    match node {
        Node::Plain(statement) => matches!(statement.action, Action::Inert(Inert::End)),
        Node::Loop(_, _, _) | Node::Choice(_) => false,
    }
}

/// Whether nodes are a STOP and the END that follows it, which do what END alone does.
#[tactic(auto, using(crate::proofs::Stops::two_nodes, crate::proofs::Stops::other_nodes))]
pub fn is_last_stop(nodes: &[Node]) -> bool
    ensures { result ≡ is_last_stop_of (block_view nodes.now) }
{
    match nodes {
        [first, second] => is_stop(first) && is_end(second),
        _ => false,
    }
}
