//! Loops, their private scalars, their plans and the check of these.

use crate::calls::{check, loops, plan, private_scalars};
use crate::programs::program_of;
use crate::rows::{AGAIN, Mark, OTHERWISE, Planned, Range, rows};
use ast::{Name, Program};
use dependence::{LoopPlan, PlanStmt};
use loop_tree::{LoopTree, LoopView, ScalarSet};
use plan_check::PlanFault;
use std::process::Abort;

/// The loops of a program.
fn tree_of<'p>(rt: &(impl Abort + AllocGlobal), program: &'p Program) -> LoopTree<'p> {
    match loops(rt.alloc(), program) {
        Ok(tree) => tree,
        Err(_) => loops(rt.alloc(), program).expect(rt, AGAIN),
    }
}

/// Whether names are these, in this order.
fn are_named(names: &[Name], wanted: &[&[u8]]) -> bool {
    for (name, wanted) in names.iter().zip(wanted) {
        if name.trimmed() != *wanted {
            return false;
        }
    }
    names.len() == wanted.len()
}

/// The private scalars of a loop.
fn privates_of(rt: &(impl Abort + AllocGlobal), view: &LoopView<'_, '_>) -> ScalarSet {
    match private_scalars(rt.alloc(), view) {
        Ok(found) => found,
        Err(_) => private_scalars(rt.alloc(), view).expect(rt, AGAIN),
    }
}

/// What a part of a body is, IFs aside.
fn mark_of(part: &PlanStmt) -> Option<Mark> {
    match part {
        PlanStmt::Await(event, distance) => Some(Mark::Await(*event, *distance)),
        PlanStmt::Advance(event) => Some(Mark::Advance(*event)),
        PlanStmt::Plain(statement) => Some(Mark::Plain(statement.line)),
        PlanStmt::Loop(line, _, _) => Some(Mark::Loop(*line)),
        _ => None,
    }
}

/// Whether the parts of a body are these.
fn are_parts(body: &[PlanStmt], wanted: &[Mark]) -> bool {
    for (part, mark) in body.iter().zip(wanted) {
        if mark_of(part) != Some(*mark) {
            return false;
        }
    }
    body.len() == wanted.len()
}

/// Whether a plan is the wanted one.
pub fn is_planned(found: &LoopPlan, wanted: &Range) -> bool {
    match (found, &wanted.plan) {
        (LoopPlan::Serial(reason), Planned::Serial(wanted)) => reason == wanted,
        (LoopPlan::Body { body, privates, .. }, Planned::Body(marks)) => {
            are_named(&privates.names, wanted.privates) && are_parts(body, marks)
        }
        _ => false,
    }
}

/// The plan of a loop.
fn plan_of(rt: &(impl Abort + AllocGlobal), view: &LoopView<'_, '_>) -> LoopPlan {
    match plan(rt.alloc(), view) {
        Ok(found) => found,
        Err(_) => plan(rt.alloc(), view).expect(rt, AGAIN),
    }
}

/// A plan is accepted.
fn is_accepted(rt: &(impl Abort + AllocGlobal), view: &LoopView<'_, '_>, found: &LoopPlan) {
    match check(rt.alloc(), view, found) {
        Err(PlanFault::Memory) => check(rt.alloc(), view, found).expect(rt, AGAIN),
        given => given.expect(rt, OTHERWISE),
    }
}

/// Whether a loop's plan, which is accepted, is the wanted one.
fn has_plan(rt: &(impl Abort + AllocGlobal), view: &LoopView<'_, '_>, wanted: &Range) -> bool {
    let found = plan_of(rt, view);
    is_accepted(rt, view, &found);
    is_planned(&found, wanted)
}

/// Whether a loop is the wanted one.
fn is_loop(rt: &(impl Abort + AllocGlobal), view: &LoopView<'_, '_>, wanted: &Range) -> bool {
    view.line() == wanted.first
        && are_named(&privates_of(rt, view).names, wanted.privates)
        && has_plan(rt, view, wanted)
}

/// The loops of a program are these.
fn are_loops(rt: &(impl Abort + AllocGlobal), tree: &LoopTree<'_>, wanted: &[Range]) {
    assert!(*rt; tree.count() == wanted.len());
    let mut number: usize = 0;
    for range in wanted {
        number = number.wrapping_add(1);
        assert!(*rt; 1 <= number);
        assert!(*rt; number <= tree.count());
        assert!(*rt; is_loop(rt, &tree.view(number), range));
    }
}

/// The loops of a row are these.
fn has_loops(rt: &(impl Abort + AllocGlobal), program: &Program, wanted: &[Range]) {
    are_loops(rt, &tree_of(rt, program), wanted);
}

#[test]
fn want_of_memory_in_loops(rt: HostRuntime) {
    for row in rows() {
        has_loops(&rt, &program_of(&rt, row), row.loops);
    }
}
