//! What stands in the bodies of plans.

use crate::calls::plan;
use crate::changes::is_answered;
use ast::{Line, Name};
use dependence::{LoopPlan, PlanArm, PlanStmt, SerialReason};
use loop_tree::LoopView;
use std::alloc::{AllocError, Global};

/// What stands in a plan's body, in turn.
#[derive(Clone, Copy, PartialEq, Eq)]
pub enum Mark {
    /// An await of this event, so many iterations back.
    Await(usize, u128),
    /// An advance of this event.
    Advance(usize),
    /// A statement of this line, which holds no others.
    Plain(Line),
    /// The DO of this line. Its range follows.
    Loop(Line),
    /// The end of a range.
    EndLoop,
    /// An IF. Its arms follow.
    If,
    /// The IF, ELSE IF or ELSE of this line. The statements of its arm follow.
    Arm(Line),
    /// An ELSE that was made. What it holds follows.
    MadeElse,
    /// The end of an IF.
    EndIf,
}

/// Marks that are gone through.
#[derive(Drop)]
struct Marks<'a> {
    left: &'a [Mark],
}

impl Marks<'_> {
    /// Goes on to what follows, and says whether this was next.
    fn next_is(&mut self, wanted: Mark) -> bool {
        match self.left {
            [first, left @ ..] => {
                self.left = left;
                *first == wanted
            }
            [] => false,
        }
    }
}

/// Whether the arms of an IF follow.
#[cycle(marking)]
fn arms_follow(arms: &[PlanArm], marks: &mut Marks<'_>) -> bool {
    for arm in arms {
        if !marks.next_is(Mark::Arm(arm.line)) || !body_follows(&arm.body, marks) {
            return false;
        }
    }
    true
}

/// Whether a node follows, with all that stands in it.
#[cycle(marking)]
fn node_follows(node: &PlanStmt, marks: &mut Marks<'_>) -> bool {
    match node {
        PlanStmt::Await(event, distance) => marks.next_is(Mark::Await(*event, *distance)),
        PlanStmt::Advance(event) => marks.next_is(Mark::Advance(*event)),
        PlanStmt::Plain(statement) => marks.next_is(Mark::Plain(statement.line)),
        PlanStmt::Loop(line, _, range) => {
            marks.next_is(Mark::Loop(*line))
                && body_follows(range, marks)
                && marks.next_is(Mark::EndLoop)
        }
        PlanStmt::Choice(arms, made) => {
            marks.next_is(Mark::If)
                && arms_follow(arms, marks)
                && match made {
                    Some(body) => marks.next_is(Mark::MadeElse) && body_follows(body, marks),
                    None => true,
                }
                && marks.next_is(Mark::EndIf)
        }
    }
}

/// Whether what stands in a body follows.
#[cycle(marking)]
fn body_follows(body: &[PlanStmt], marks: &mut Marks<'_>) -> bool {
    for node in body {
        if !node_follows(node, marks) {
            return false;
        }
    }
    true
}

/// Whether this stands in a body, and no more.
fn is_marked(body: &[PlanStmt], wanted: &[Mark]) -> bool {
    let mut marks = Marks { left: wanted };
    body_follows(body, &mut marks) && marks.left.is_empty()
}

/// What is wanted of a plan.
#[derive(Clone, Copy)]
pub enum Wanted<'a> {
    /// It is serial, for this reason.
    Serial(SerialReason),
    /// It has these private scalars, and this stands in its body.
    Body(&'a [Name], &'a [Mark]),
}

/// Whether a plan is the wanted one.
fn is_wanted(found: &LoopPlan, wanted: Wanted<'_>) -> bool {
    match (found, wanted) {
        (LoopPlan::Serial(reason), Wanted::Serial(wanted)) => *reason == wanted,
        (LoopPlan::Body { body, privates, .. }, Wanted::Body(names, marks)) => {
            privates.names.as_slice() == names && is_marked(body, marks)
        }
        _ => false,
    }
}

/// Whether a loop has this plan, and the plan is accepted.
pub fn is_planned(
    alloc: Global,
    view: &LoopView<'_, '_>,
    wanted: Wanted<'_>,
) -> Result<bool, AllocError> {
    let found = plan(alloc, view)?;
    if !is_wanted(&found, wanted) {
        return Ok(false);
    }
    is_answered(alloc, view, &found, None)
}
