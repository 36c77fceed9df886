//! What keeps a loop serial by itself: a READ, or the variable of a loop inside that is not hidden.

ghost use Rattle.std.specs.Prelude.{◌≡◌, map};
ghost use Rattle.ast.specs.Tree.{arms as arms_of};
ghost use Rattle.ast.specs.View.{action as action_of, arm as arm_of, block_view, letters};
ghost use Rattle.ast.specs.View.{node as node_of};
ghost use Rattle.dependence.specs.Fitting as spec;
ghost use Rattle.dependence.specs.Hiding.{has_name as is_among, hides};
ghost use Rattle.dependence.specs.Kept.{block_reads, is_read};
ghost use Rattle.loop_tree.specs.TreeView.{seen};

use ast::{Action, Arm, Name, Node};
use loop_tree::LoopView;

fn is_read(action: &Action) -> bool
    ensures { result ≡ is_read (action_of action.now) }
{
    match action {
        Action::Read(_) => true,
        Action::Assign(_, _) | Action::Print(_) | Action::Stop | Action::Inert(_) => false,
    }
}

#[cycle(reads)]
fn arms_read(arms: &[Arm]) -> bool
    ensures { result ≡ spec.arms_read (arms_of (map arm_of arms.now)) }
{
    for arm in arms {
        if reads(&arm.body) {
            return true;
        }
    }
    false
}

#[cycle(reads)]
fn node_reads(node: &Node) -> bool
    ensures { result ≡ spec.node_reads (node_of node.now) }
{
    match node {
        Node::Plain(statement) => is_read(&statement.action),
        Node::Loop(_, _, range) => reads(range),
        Node::Choice(arms) => arms_read(arms),
    }
}

/// Whether there is a READ among statements.
#[cycle(reads)]
fn reads(nodes: &[Node]) -> bool
    ensures { result ≡ spec.reads (block_view nodes.now) }
{
    for node in nodes {
        if node_reads(node) {
            return true;
        }
    }
    false
}

/// Whether a name is among others.
pub fn has_name(names: &[Name], name: Name) -> bool
    ensures { result ≡ is_among (map letters names.now) name.letters }
{
    for other in names {
        if *other == name {
            return true;
        }
    }
    false
}

#[cycle(inner)]
fn arms_hide(arms: &[Arm], names: &[Name]) -> bool
    ensures { result ≡ spec.arms_hide (map letters names.now) (arms_of (map arm_of arms.now)) }
{
    for arm in arms {
        if !hide_inner(&arm.body, names) {
            return false;
        }
    }
    true
}

#[cycle(inner)]
fn node_hides(node: &Node, names: &[Name]) -> bool
    ensures { result ≡ spec.node_hides (map letters names.now) (node_of node.now) }
{
    match node {
        Node::Plain(_) => true,
        Node::Loop(_, head, range) => {
            has_name(names, head.variable.name) && hide_inner(range, names)
        }
        Node::Choice(arms) => arms_hide(arms, names),
    }
}

/// Whether the variables of all loops inside are among names.
#[cycle(inner)]
fn hide_inner(nodes: &[Node], names: &[Name]) -> bool
    ensures { result ≡ spec.hide_inner (map letters names.now) (block_view nodes.now) }
{
    for node in nodes {
        if !node_hides(node, names) {
            return false;
        }
    }
    true
}

/// Whether there is a READ in a loop.
#[tactic(auto, using(crate::proofs::Fitted::has_read))]
pub fn has_read(view: &LoopView<'_, '_>) -> bool
    ensures { result ≡ block_reads (seen view.now).body }
{
    reads(view.body())
}

/// Whether the variables of all loops inside are among names.
#[tactic(auto, using(crate::proofs::Fitted::hides_inner))]
pub fn hides_inner(view: &LoopView<'_, '_>, names: &[Name]) -> bool
    ensures { result ≡ hides (map letters names.now) (seen view.now) }
{
    hide_inner(view.body(), names)
}
