//! Whether a plan's body is a loop's, with awaits, advances and made ELSEs.

ghost use Rattle.std.specs.Prelude.{◌≡◌, ◌&&◌, List, Option, map};
ghost use Rattle.std.specs.Bool.{Decides};
ghost use Rattle.ast.specs.View.{arm as arm_of, block_view, head as head_of, node as node_of};
ghost use Rattle.ast.specs.View.{optional_term};
ghost use Rattle.ast.specs.Tree as tree;
ghost use Rattle.dependence.specs.Plan.{PlanArms, PlanNode, no_nodes, then_node};
ghost use Rattle.dependence.specs.PlanView.{arm_view, arms as arms_of, last_arm, plan_block};
ghost use Rattle.dependence.specs.PlanView.{plan_node};
ghost use Rattle.plan_check.specs.GoodPlan.{made_bare, made_bare_arms, only_events as holds_events};
ghost use Rattle.plan_check.specs.GoodPlan.{stripped, stripped_arms};
ghost use Rattle.plan_check.specs.Stripping.{IsNode, stripped_arm};

use crate::expressions::is_same_optional;
use crate::statements::{is_same_head, is_same_statement};
use ast::{Arm, DoHead, Line, Node};
use dependence::{PlanArm, PlanStmt};

fn is_event(node: &PlanStmt) -> bool
    ensures { result ≡ holds_events (then_node (plan_node node.now) no_nodes) }
{
    match node {
        PlanStmt::Await(_, _) | PlanStmt::Advance(_) => true,
        PlanStmt::Plain(_) | PlanStmt::Loop(_, _, _) | PlanStmt::Choice(_, _) => false,
    }
}

/// Whether there is nothing but awaits and advances.
fn only_events(nodes: &[PlanStmt]) -> bool
    ensures { result ≡ holds_events (plan_block nodes.now) }
{
    for node in nodes {
        if !is_event(node) {
            return false;
        }
    }
    true
}

#[cycle(bare)]
fn are_bare_arms(arms: &[PlanArm]) -> bool
    ensures { (last : PlanArms) → made_bare_arms (arms_of (map arm_view arms.now) last)
        ≡ (result && made_bare_arms last) }
{
    for arm in arms {
        if !is_bare(&arm.body) {
            return false;
        }
    }
    true
}

#[cycle(bare)]
fn is_bare_node(node: &PlanStmt) -> bool
    ensures { result ≡ made_bare (then_node (plan_node node.now) no_nodes) }
{
    match node {
        PlanStmt::Await(_, _) | PlanStmt::Advance(_) | PlanStmt::Plain(_) => true,
        PlanStmt::Loop(_, _, range) => is_bare(range),
        PlanStmt::Choice(arms, made) => {
            are_bare_arms(arms)
                && match made {
                    Some(body) => only_events(body),
                    None => true,
                }
        }
    }
}

/// Whether each ELSE that was made holds awaits and advances alone.
#[cycle(bare)]
pub fn is_bare(nodes: &[PlanStmt]) -> bool
    ensures { result ≡ made_bare (plan_block nodes.now) }
{
    for node in nodes {
        if !is_bare_node(node) {
            return false;
        }
    }
    true
}

/// Whether an arm's line and condition are these.
fn is_same_opening(arm: &PlanArm, other: &Arm) -> bool
    ensures { Decides result ((arm.now.line ≡ other.now.line)
        × (optional_term arm.now.condition ≡ optional_term other.now.condition)) }
{
    arm.line == other.line && is_same_optional(&arm.condition, &other.condition)
}

/// Whether a DO and its line are these.
fn is_same_do(line: Line, head: &DoHead, other_line: Line, other_head: &DoHead) -> bool
    ensures { Decides result ((line ≡ other_line) × (head_of head.now ≡ head_of other_head.now)) }
{
    line == other_line && is_same_head(head, other_head)
}

#[cycle(same)]
fn is_same_arm(arm: &PlanArm, other: &Arm) -> bool
    ensures { Decides result (stripped_arm arm.now ≡ arm_of other.now) }
{
    is_same_opening(arm, other) && is_same_range(&arm.body, &other.body)
}

/// Whether the arms of an IF are these, whatever ELSE was made for it.
#[cycle(same)]
fn are_same_arms(arms: &[PlanArm], others: &[Arm]) -> bool
    ensures { (made : Option (List PlanNode))
        → Decides result (stripped_arms (arms_of (map arm_view arms.now) (last_arm made))
        ≡ tree.arms (map arm_of others.now)) }
{
    are_same_one_by_one(arms, others)
}

#[cycle(same)]
fn are_same_one_by_one(arms: &[PlanArm], others: &[Arm]) -> bool
    ensures { Decides result (map stripped_arm arms.now ≡ map arm_of others.now) }
{
    if arms.len() != others.len() {
        return false;
    }
    for i in 0..arms.len() {
        if !is_same_arm(&arms[i], &others[i]) {
            return false;
        }
    }
    true
}

#[cycle(same)]
fn is_same_node(node: &PlanStmt, other: &Node) -> bool
    ensures { Decides result (IsNode (plan_node node.now) (node_of other.now)) }
{
    match node {
        PlanStmt::Await(_, _) | PlanStmt::Advance(_) => false,
        PlanStmt::Plain(statement) => match other {
            Node::Plain(other) => is_same_statement(statement, other),
            _ => false,
        },
        PlanStmt::Loop(line, head, range) => match other {
            Node::Loop(other_line, other_head, other_range) => {
                is_same_do(*line, head, *other_line, other_head)
                    && is_same_range(range, other_range)
            }
            _ => false,
        },
        PlanStmt::Choice(arms, _) => match other {
            Node::Choice(others) => are_same_arms(arms, others),
            _ => false,
        },
    }
}

/// Whether nodes are a range, but for awaits, advances and made ELSEs.
#[cycle(same)]
pub fn is_same_range(nodes: &[PlanStmt], range: &[Node]) -> bool
    ensures { Decides result (stripped (plan_block nodes.now) ≡ block_view range.now) }
{
    let mut place = 0;
    for node in nodes {
        if is_event(node) {
            continue;
        }
        if place >= range.len() {
            return false;
        }
        if !is_same_node(node, &range[place]) {
            return false;
        }
        place += 1;
    }
    place == range.len()
}
