//! The loops whose iterations are run at once, as a listing heads them.

ghost use Rattle.std.specs.Prelude.{◌≡◌, IfOk, is_some};
ghost use Rattle.dependence.specs.PlanView.{plan_of};
ghost use Rattle.modelled.specs.Modelling.{heads_from};

use ast::Line;
use codegen::LoopReport;
use dependence::LoopPlan;
use std::alloc::{AllocError, Global};

/// The number of a loop among those of the text, from 1 on, and the line of its DO.
#[derive(Clone, Copy)]
pub struct Head {
    pub number: usize,
    pub line: Line,
}

/// Whether the code opens a loop of this plan.
fn is_open(plan: &LoopPlan) -> bool
    ensures { result ≡ is_some (plan_of plan.now) }
{
    matches!(plan, LoopPlan::Body { .. })
}

/// The loops that the code opens, in the order of the text, which is that of the code's loops.
pub fn heads(alloc: Global, reports: &[LoopReport]) -> Result<Vec<Head>, AllocError>
    ensures { IfOk result (λ v. v.items ≡ heads_from 1 reports.now) }
{
    let mut heads = Vec::new(alloc);
    for place in 0..reports.len() {
        let report = &reports[place];
        if is_open(&report.plan) {
            heads.push(Head {
                number: place + 1,
                line: report.line,
            })?;
        }
    }
    Ok(heads)
}
