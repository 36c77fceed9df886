//! Plans of loops.

use crate::relations::Relations;
use crate::serial::SerialReason;
use ast::{DoHead, Expr, Line, PlainStatement};
use loop_tree::ScalarSet;

/// A statement of a plan's body.
#[cycle(plan)]
pub enum PlanStmt {
    /// Waits until the iteration so many before this one has advanced the event.
    Await(usize, u128),
    /// Advances the event.
    Advance(usize),
    /// A statement that holds no others.
    Plain(PlainStatement),
    /// A loop: the line of its DO, what that says, and its range.
    Loop(Line, DoHead, Vec<PlanStmt>),
    /// An IF: its arms, and, where it has no ELSE, the body of one that was made for it.
    Choice(Vec<PlanArm>, Option<Vec<PlanStmt>>),
}

impl Drop for PlanStmt {
    #[cycle(dropping)]
    fn drop(self) {
        match self {
            PlanStmt::Await(_, _) => {}
            PlanStmt::Advance(_) => {}
            PlanStmt::Plain(_) => {}
            PlanStmt::Loop(_, _, _) => {}
            PlanStmt::Choice(_, _) => {}
        }
    }
}

/// An arm of an IF of a plan.
#[derive(Drop)]
#[cycle(plan)]
pub struct PlanArm {
    /// The line of its IF, ELSE IF or ELSE.
    pub line: Line,
    /// Its condition; an ELSE has none.
    pub condition: Option<Expr>,
    pub body: Vec<PlanStmt>,
}

/// How a loop is to be run.
#[derive(Drop)]
pub enum LoopPlan {
    /// One iteration after another, for this reason.
    Serial(SerialReason),
    /// Iterations at once.
    Body {
        /// The loop's range with awaits and advances.
        body: Vec<PlanStmt>,
        /// The scalars of which each iteration has one of its own.
        privates: ScalarSet,
        /// What is claimed of pairs of references: the first in an iteration, the second in a later
        /// one.
        relations: Relations,
    },
}
