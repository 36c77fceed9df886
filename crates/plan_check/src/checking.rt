//! The check of a plan.

ghost use Rattle.std.specs.Prelude.{◌≡◌, ◌&&◌, IfErr, IfOk, Some, not, true};
ghost use Rattle.std.specs.Bool.{Decides};
ghost use Rattle.std.specs.List.{IsDistinct};
ghost use Rattle.ast.specs.Store.{same_name};
ghost use Rattle.dependence.specs.PlanView.{plan_of};
ghost use Rattle.loop_tree.specs.TreeView.{seen};
ghost use Rattle.plan_check.specs.Checking.{IsChecked, cells_of, fits as is_fit, in_order};
ghost use Rattle.plan_check.specs.Checking.{reference_tokens, tokens_of};
ghost use Rattle.plan_check.specs.Checks.{Accepted, HasBody, HasNamesOnce, IsGood};
ghost use Rattle.plan_check.specs.EntryView.{verdict as verdict_of};
ghost use Rattle.plan_check.specs.GivenView.{given};
ghost use Rattle.plan_check.specs.GoodPlan.{GoodPlan, SameBody, named};
ghost use Rattle.plan_check.specs.Mistakes.{Refuses};
ghost use Rattle.plan_check.specs.Walked.{IsJudged, IsOrderly, points_of};
ghost use Rattle.plan_check.specs.WalkedView.{Answers};

use crate::advances::{all_advanced, outside};
use crate::bodies::{is_bare, is_same_range};
use crate::claims::claims_of;
use crate::distinct::distinct;
use crate::entry::entries_of;
use crate::events::events_of;
use crate::fault::{Mistake, PlanFault};
use crate::fits::fits;
use crate::given::Given;
use crate::groups::partners_of;
use crate::judge::{Verdict, judge};
use crate::shown::are_shown;
use crate::start::{Walked, walk_over};
use dependence::LoopPlan;
use loop_tree::LoopView;
use std::alloc::{AllocError, Global};

/// Whether a plan's body is the loop's, with awaits, advances and made ELSEs.
fn is_same_body(view: &LoopView<'_, '_>, plan: &Given<'_>) -> bool
    ensures { Decides result (SameBody (seen view.now) (given plan.now)) }
{
    is_same_range(plan.body, view.body()) && is_bare(plan.body)
}

/// Walks over the body of a plan that fits and has the loop's body.
fn walk(alloc: Global, view: &LoopView<'_, '_>, plan: &Given<'_>) -> Result<Walked, AllocError>
    requires fits { is_fit (seen view.now) (given plan.now) ≡ true }
    requires same { SameBody (seen view.now) (given plan.now) }
    ensures { IfOk result (λ walked. Answers view.now plan.now walked) }
{
    walk_over(alloc, view, plan)
}

/// Whether the references that the walk has noted are those that the loop shows.
fn shows(view: &LoopView<'_, '_>, plan: &Given<'_>, walked: &Walked) -> bool
    requires { Answers view.now plan.now walked.now }
    ensures { Decides result (tokens_of (seen view.now).references
        ≡ reference_tokens (points_of (seen view.now) (given plan.now))) }
{
    are_shown(view.references(), &walked.seen.notes)
}

fn are_ordered(outside: bool, disorder: bool, advanced: bool) -> bool
    ensures { result ≡ (outside && (not disorder && advanced)) }
{
    outside && !disorder && advanced
}

/// Whether events are advanced once, each behind an await of the iteration before, and all of them
/// where the end is reached.
fn is_in_order(
    view: &LoopView<'_, '_>,
    plan: &Given<'_>,
    events: &[(usize, u128)],
    walked: &Walked,
) -> bool
    requires named { events.now ≡ named (given plan.now).body }
    requires walked { Answers view.now plan.now walked.now }
    ensures { result ≡ in_order (cells_of (seen view.now)) (given plan.now) }
{
    are_ordered(
        outside(plan.body),
        walked.seen.disorder,
        all_advanced(events, &walked.known.advanced),
    )
}

/// Judges all pairs of the loop's references.
fn judge_all(
    alloc: Global,
    view: &LoopView<'_, '_>,
    plan: &Given<'_>,
    events: &[(usize, u128)],
    walked: &Walked,
) -> Result<Verdict, AllocError>
    requires named { events.now ≡ named (given plan.now).body }
    requires walked { Answers view.now plan.now walked.now }
    ensures { IfOk result (λ verdict.
        IsJudged (seen view.now) (given plan.now) (verdict_of verdict)) }
{
    let named = distinct(alloc, events)?;
    let claims = claims_of(plan.relations);
    let entries = entries_of(alloc, view, view.references(), &walked.seen.notes)?;
    let partners = partners_of(alloc, &entries)?;
    Ok(judge(view, &named, &claims, plan.privates, &entries, &partners))
}

/// The fault of pairs, if there is one.
#[tactic(auto, using(crate::proofs::Ranks::behind, crate::proofs::Ranks::unawaited, crate::proofs::Ranks::untrue, crate::proofs::Ranks::checked))]
fn check_pairs(
    alloc: Global,
    view: &LoopView<'_, '_>,
    plan: &Given<'_>,
    events: &[(usize, u128)],
    walked: &Walked,
) -> Result<(), PlanFault>
    requires named { events.now ≡ named (given plan.now).body }
    requires walked { Answers view.now plan.now walked.now }
    requires orderly { IsOrderly (seen view.now) (given plan.now) }
    ensures accepted { IfOk result (λ _. IsChecked (seen view.now) (given plan.now)) }
    ensures refused { IfErr result (Refuses (seen view.now) (Some (given plan.now))) }
{
    let verdict = judge_all(alloc, view, plan, events, walked)?;
    if !verdict.ahead {
        return Err(PlanFault::Refused(Mistake::Behind));
    }
    if !verdict.held {
        return Err(PlanFault::Refused(Mistake::Unawaited));
    }
    if !verdict.claims {
        return Err(PlanFault::Refused(Mistake::Untrue));
    }
    Ok(())
}

/// The fault of what a walk has noted, or of pairs.
#[tactic(auto, using(crate::proofs::Ranks::other_body, crate::proofs::Ranks::early, crate::proofs::Ranks::disorder))]
fn check_walked(
    alloc: Global,
    view: &LoopView<'_, '_>,
    plan: &Given<'_>,
    events: &[(usize, u128)],
    walked: &Walked,
) -> Result<(), PlanFault>
    requires fits { is_fit (seen view.now) (given plan.now) ≡ true }
    requires same { SameBody (seen view.now) (given plan.now) }
    requires named { events.now ≡ named (given plan.now).body }
    requires walked { Answers view.now plan.now walked.now }
    ensures accepted { IfOk result (λ _. IsChecked (seen view.now) (given plan.now)) }
    ensures refused { IfErr result (Refuses (seen view.now) (Some (given plan.now))) }
{
    if !shows(view, plan, walked) {
        return Err(PlanFault::Refused(Mistake::OtherBody));
    }
    if walked.seen.early {
        return Err(PlanFault::Refused(Mistake::Early));
    }
    if !is_in_order(view, plan, events, walked) {
        return Err(PlanFault::Refused(Mistake::Disorder));
    }
    check_pairs(alloc, view, plan, events, walked)
}

/// The fault of a plan that fits, if it has one.
#[tactic(auto, using(crate::proofs::Ranks::other_body))]
fn check_body(
    alloc: Global,
    view: &LoopView<'_, '_>,
    plan: &Given<'_>,
    events: &[(usize, u128)],
) -> Result<(), PlanFault>
    requires fits { is_fit (seen view.now) (given plan.now) ≡ true }
    requires named { events.now ≡ named (given plan.now).body }
    ensures accepted { IfOk result (λ _. IsChecked (seen view.now) (given plan.now)) }
    ensures refused { IfErr result (Refuses (seen view.now) (Some (given plan.now))) }
{
    if !is_same_body(view, plan) {
        return Err(PlanFault::Refused(Mistake::OtherBody));
    }
    let walked = walk(alloc, view, plan)?;
    check_walked(alloc, view, plan, events, &walked)
}

#[tactic(auto, using(crate::proofs::Ranks::unfit))]
fn check_given(alloc: Global, view: &LoopView<'_, '_>, plan: &Given<'_>) -> Result<(), PlanFault>
    ensures accepted { IfOk result (λ _. IsChecked (seen view.now) (given plan.now)) }
    ensures good { IfOk result (λ _. GoodPlan (seen view.now) (given plan.now)) }
    ensures once { IfOk result (λ _. IsDistinct same_name (given plan.now).privates) }
    ensures refused { IfErr result (Refuses (seen view.now) (Some (given plan.now))) }
{
    let events = events_of(alloc, plan.body)?;
    if !fits(view, plan, &events) {
        return Err(PlanFault::Refused(Mistake::Unfit));
    }
    check_body(alloc, view, plan, &events)
}

/// Whether a loop may be run by a plan. A serial plan is accepted. A plan with a body is accepted
/// where it meets all conditions; then it is a good plan, its body is the loop's, and it gives no
/// private name twice. Of several mistakes the first is told, in the order of 76, 75, 70, 71, 72,
/// 73, 74.
pub fn check(alloc: Global, view: &LoopView<'_, '_>, plan: &LoopPlan) -> Result<(), PlanFault>
    ensures accepted { IfOk result (λ _. Accepted (seen view.now) (plan_of plan.now)) }
    ensures good { IfOk result (λ _. IsGood (seen view.now) (plan_of plan.now)) }
    ensures same { IfOk result (λ _. HasBody (seen view.now) (plan_of plan.now)) }
    ensures once { IfOk result (λ _. HasNamesOnce (plan_of plan.now)) }
    ensures refused { IfErr result (Refuses (seen view.now) (plan_of plan.now)) }
{
    match plan {
        LoopPlan::Serial(_) => Ok(()),
        LoopPlan::Body {
            body,
            privates,
            relations,
        } => check_given(
            alloc,
            view,
            &Given {
                body,
                privates: &privates.names,
                relations,
            },
        ),
    }
}
