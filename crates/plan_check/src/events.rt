//! The events that a plan names.

ghost use Rattle.std.specs.Prelude.{◌≡◌, IfOk, OnOk, map};
ghost use Rattle.dependence.specs.Plan.{PlanArms};
ghost use Rattle.dependence.specs.PlanView.{arm_view, arms as arms_of, plan_block, plan_node};
ghost use Rattle.plan_check.specs.GoodPlan.{named};
ghost use Rattle.plan_check.specs.Listing.{with_arms, with_block, with_node};

use dependence::{PlanArm, PlanStmt};
use std::alloc::{AllocError, Global};

#[cycle(events)]
fn add_arms(list: &mut Vec<(usize, u128)>, arms: &[PlanArm]) -> Result<(), AllocError>
    ensures { OnOk result ((last : PlanArms)
        → with_arms (arms_of (map arm_view arms.now) last) list.old.items
        ≡ with_arms last list.new.items) }
{
    for arm in arms {
        add_block(list, &arm.body)?;
    }
    Ok(())
}

#[cycle(events)]
fn add_node(list: &mut Vec<(usize, u128)>, node: &PlanStmt) -> Result<(), AllocError>
    ensures { OnOk result (list.new.items ≡ with_node (plan_node node.now) list.old.items) }
{
    match node {
        PlanStmt::Await(event, distance) => {
            list.push((*event, *distance))?;
            Ok(())
        }
        PlanStmt::Advance(event) => {
            list.push((*event, 1))?;
            Ok(())
        }
        PlanStmt::Plain(_) => Ok(()),
        PlanStmt::Loop(_, _, range) => add_block(list, range),
        PlanStmt::Choice(arms, made) => {
            add_arms(list, arms)?;
            match made {
                Some(body) => add_block(list, body),
                None => Ok(()),
            }
        }
    }
}

#[cycle(events)]
fn add_block(list: &mut Vec<(usize, u128)>, nodes: &[PlanStmt]) -> Result<(), AllocError>
    ensures { OnOk result (list.new.items ≡ with_block (plan_block nodes.now) list.old.items) }
{
    for node in nodes {
        add_node(list, node)?;
    }
    Ok(())
}

/// The events that are awaited, each with its distance, or advanced, as at distance 1.
///
/// # Errors
///
/// `AllocError` where memory is refused.
#[tactic(auto, using(crate::proofs::Appending::listed))]
pub fn events_of(alloc: Global, nodes: &[PlanStmt]) -> Result<Vec<(usize, u128)>, AllocError>
    ensures { IfOk result (λ list. list.items ≡ named (plan_block nodes.now)) }
{
    let mut list = Vec::new(alloc);
    add_block(&mut list, nodes)?;
    Ok(list)
}
