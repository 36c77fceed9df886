//! Where a plan advances events.

ghost use Rattle.std.specs.Prelude.{◌≡◌, ◌&&◌, map};
ghost use Rattle.std.specs.List.{list_all};
ghost use Rattle.dependence.specs.Plan.{PlanArms, no_nodes, then_node};
ghost use Rattle.dependence.specs.PlanView.{arm_view, arms as arms_of, plan_block, plan_node};
ghost use Rattle.plan_check.specs.Flow as spec;

use crate::lists::flag_at;
use dependence::{PlanArm, PlanStmt};

#[cycle(no_advance)]
fn no_advance_in_arms(arms: &[PlanArm]) -> bool
    ensures { (last : PlanArms) → spec.no_advance_arms (arms_of (map arm_view arms.now) last)
        ≡ (result && spec.no_advance_arms last) }
{
    for arm in arms {
        if !no_advance(&arm.body) {
            return false;
        }
    }
    true
}

#[cycle(no_advance)]
fn no_advance_in_node(node: &PlanStmt) -> bool
    ensures { result ≡ spec.no_advance (then_node (plan_node node.now) no_nodes) }
{
    match node {
        PlanStmt::Await(_, _) | PlanStmt::Plain(_) => true,
        PlanStmt::Advance(_) => false,
        PlanStmt::Loop(_, _, range) => no_advance(range),
        PlanStmt::Choice(arms, made) => {
            no_advance_in_arms(arms)
                && match made {
                    Some(body) => no_advance(body),
                    None => true,
                }
        }
    }
}

/// Whether no event is advanced.
#[cycle(no_advance)]
fn no_advance(nodes: &[PlanStmt]) -> bool
    ensures { result ≡ spec.no_advance (plan_block nodes.now) }
{
    for node in nodes {
        if !no_advance_in_node(node) {
            return false;
        }
    }
    true
}

#[cycle(outside)]
fn outside_in_arms(arms: &[PlanArm]) -> bool
    ensures { (last : PlanArms) → spec.outside_arms (arms_of (map arm_view arms.now) last)
        ≡ (result && spec.outside_arms last) }
{
    for arm in arms {
        if !outside(&arm.body) {
            return false;
        }
    }
    true
}

#[cycle(outside)]
fn outside_in_node(node: &PlanStmt) -> bool
    ensures { result ≡ spec.outside (then_node (plan_node node.now) no_nodes) }
{
    match node {
        PlanStmt::Await(_, _) | PlanStmt::Advance(_) | PlanStmt::Plain(_) => true,
        PlanStmt::Loop(_, _, range) => no_advance(range),
        PlanStmt::Choice(arms, made) => {
            outside_in_arms(arms)
                && match made {
                    Some(body) => outside(body),
                    None => true,
                }
        }
    }
}

/// Whether no event is advanced in a loop inside.
#[cycle(outside)]
pub fn outside(nodes: &[PlanStmt]) -> bool
    ensures { result ≡ spec.outside (plan_block nodes.now) }
{
    for node in nodes {
        if !outside_in_node(node) {
            return false;
        }
    }
    true
}

/// Whether all events are advanced.
pub fn all_advanced(events: &[(usize, u128)], advanced: &[bool]) -> bool
    ensures { result ≡ list_all (λ n. spec.flag_at advanced.now n.0) events.now }
{
    for (event, _) in events {
        if !flag_at(advanced, *event) {
            return false;
        }
    }
    true
}
