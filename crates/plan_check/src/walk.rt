//! One walk over a plan's body.

ghost use Rattle.std.specs.Prelude.{◌≡◌, OnOk, map};
ghost use Rattle.ast.specs.View.{head as head_of, letters, optional_term};
ghost use Rattle.dependence.specs.Plan.{PlanArms, loop};
ghost use Rattle.dependence.specs.PlanView.{arm_view, arms as arms_of, plan_block, plan_node};
ghost use Rattle.plan_check.specs.KnownView.{known as known_of};
ghost use Rattle.plan_check.specs.SeenView.{seen as seen_of};
ghost use Rattle.plan_check.specs.Walking as spec;

use crate::known::Known;
use crate::seen::{Seen, note_advance};
use crate::terms::{pass_head, pass_kind, pass_optional};
use ast::{DoHead, Expr, Name};
use dependence::{PlanArm, PlanStmt};
use std::alloc::{AllocError, Global};

/// A loop: what was known before its range is known behind it.
#[cycle(walk)]
fn pass_loop(
    alloc: Global,
    known: &mut Known,
    seen: &mut Seen,
    privates: &[Name],
    head: &DoHead,
    range: &[PlanStmt],
) -> Result<(), AllocError>
    ensures seen { OnOk result (seen_of seen.new
        ≡ spec.seen_node (map letters privates.now)
        (loop 0 (head_of head.now) (plan_block range.now)) (known_of known.old)
        (seen_of seen.old)) }
    ensures known { OnOk result (known_of known.new
        ≡ spec.known_node (map letters privates.now)
        (loop 0 (head_of head.now) (plan_block range.now)) (known_of known.old)) }
{
    pass_head(alloc, known, seen, privates, head)?;
    let mut inner = known.try_copy(alloc)?;
    pass_block(alloc, &mut inner, seen, privates, range)
}

/// Behind an ELSE there is no path.
fn behind(known: &mut Known, privates: &[Name], condition: &Option<Expr>)
    ensures { known_of known.new
        ≡ spec.behind (map letters privates.now) (optional_term condition.now)
        (known_of known.old) }
{
    match condition {
        Some(_) => {}
        None => known.end(),
    }
}

/// The arms of an IF, whatever stands behind them.
#[cycle(walk)]
fn pass_arms(
    alloc: Global,
    known: &mut Known,
    ended: &mut Known,
    seen: &mut Seen,
    privates: &[Name],
    arms: &[PlanArm],
) -> Result<(), AllocError>
    ensures seen { OnOk result ((last : PlanArms)
        → spec.seen_arms (map letters privates.now) (arms_of (map arm_view arms.now) last)
        (known_of known.old) (seen_of seen.old)
        ≡ spec.seen_arms (map letters privates.now) last (known_of known.new) (seen_of seen.new)) }
    ensures known { OnOk result ((last : PlanArms)
        → spec.known_arms (map letters privates.now) (arms_of (map arm_view arms.now) last)
        (known_of ended.old) (known_of known.old)
        ≡ spec.known_arms (map letters privates.now) last (known_of ended.new)
        (known_of known.new)) }
{
    for arm in arms {
        pass_optional(alloc, seen, privates, &arm.condition, known)?;
        let mut branch = known.try_copy(alloc)?;
        pass_block(alloc, &mut branch, seen, privates, &arm.body)?;
        ended.join(&branch);
        behind(known, privates, &arm.condition);
    }
    Ok(())
}

#[cycle(walk)]
fn pass_node(
    alloc: Global,
    known: &mut Known,
    seen: &mut Seen,
    privates: &[Name],
    node: &PlanStmt,
) -> Result<(), AllocError>
    ensures seen { OnOk result (seen_of seen.new
        ≡ spec.seen_node (map letters privates.now) (plan_node node.now) (known_of known.old)
        (seen_of seen.old)) }
    ensures known { OnOk result (known_of known.new
        ≡ spec.known_node (map letters privates.now) (plan_node node.now) (known_of known.old)) }
{
    match node {
        PlanStmt::Await(event, distance) => {
            known.await_event(*event, *distance);
            Ok(())
        }
        PlanStmt::Advance(event) => {
            note_advance(seen, privates, *event, known);
            known.advance_event(*event);
            Ok(())
        }
        PlanStmt::Plain(statement) => pass_kind(alloc, known, seen, privates, &statement.action),
        PlanStmt::Loop(_, head, range) => pass_loop(alloc, known, seen, privates, head, range),
        PlanStmt::Choice(arms, made) => {
            let mut ended = known.try_copy(alloc)?;
            ended.end();
            pass_arms(alloc, known, &mut ended, seen, privates, arms)?;
            match made {
                Some(body) => pass_block(alloc, known, seen, privates, body)?,
                None => {}
            }
            known.join(&ended);
            Ok(())
        }
    }
}

/// Notes the references of a body and whether its advances are in order, and makes known what is
/// known behind it.
///
/// # Errors
///
/// `AllocError` where memory is refused; some of them may have been noted then.
#[cycle(walk)]
pub fn pass_block(
    alloc: Global,
    known: &mut Known,
    seen: &mut Seen,
    privates: &[Name],
    nodes: &[PlanStmt],
) -> Result<(), AllocError>
    ensures seen { OnOk result (seen_of seen.new
        ≡ spec.seen_block (map letters privates.now) (plan_block nodes.now) (known_of known.old)
        (seen_of seen.old)) }
    ensures known { OnOk result (known_of known.new
        ≡ spec.known_block (map letters privates.now) (plan_block nodes.now) (known_of known.old)) }
{
    for node in nodes {
        pass_node(alloc, known, seen, privates, node)?;
    }
    Ok(())
}
