//! Calls of the crates of loops. No test rests on what is proved of them, and so these functions
//! say nothing of it: it would be carried through each test that makes such a call.

use ast::{Expr, Line, Name, Program, RefId, Refusal};
use dependence::{LoopPlan, Relation};
use loop_tree::{LoopTree, LoopView, Occurrence, ScalarSet};
use plan_check::PlanFault;
use std::alloc::{AllocError, Global};
use subscripts::Affine;

pub fn program(alloc: Global, source: &[u8]) -> Result<Program, Refusal> {
    profile_check::program(alloc, source)
}

pub fn loops<'p>(alloc: Global, program: &'p Program) -> Result<LoopTree<'p>, AllocError> {
    loop_tree::loops(alloc, program)
}

/// The loop of a number, if there is one.
pub fn loop_of<'t, 'p>(tree: &'t LoopTree<'p>, number: usize) -> Option<LoopView<'t, 'p>> {
    if number < 1 || number > tree.count() {
        return None;
    }
    Some(tree.view(number))
}

/// The references of a loop's range.
pub fn references<'t, 'p>(view: &LoopView<'t, 'p>) -> &'t [Occurrence<'p>] {
    view.references()
}

/// The line of the loop around a loop, if it is in one.
pub fn line_around(view: &LoopView<'_, '_>) -> Option<Line> {
    match view.around() {
        Some(outer) => Some(outer.line()),
        None => None,
    }
}

pub fn affine(expression: &Expr, view: &LoopView<'_, '_>) -> Affine {
    subscripts::affine(expression, view)
}

pub fn relate(view: &LoopView<'_, '_>, first: RefId, second: RefId) -> Relation {
    dependence::relate(view, first, second)
}

pub fn verify(view: &LoopView<'_, '_>, first: RefId, second: RefId, relation: Relation) -> bool {
    dependence::verify(view, first, second, relation)
}

pub fn private_scalars(alloc: Global, view: &LoopView<'_, '_>) -> Result<ScalarSet, AllocError> {
    privatise::private_scalars(alloc, view)
}

pub fn plan(alloc: Global, view: &LoopView<'_, '_>) -> Result<LoopPlan, AllocError> {
    placement::plan(alloc, view)
}

pub fn check(alloc: Global, view: &LoopView<'_, '_>, plan: &LoopPlan) -> Result<(), PlanFault> {
    plan_check::check(alloc, view, plan)
}

pub fn first_read(view: &LoopView<'_, '_>) -> Option<Line> {
    placement::first_read(view)
}

pub fn first_shared(
    alloc: Global,
    view: &LoopView<'_, '_>,
) -> Result<Option<(Name, Line)>, AllocError> {
    placement::first_shared(alloc, view)
}

pub fn first_sources(
    alloc: Global,
    view: &LoopView<'_, '_>,
    lines: &[Line],
) -> Result<Vec<Line>, AllocError> {
    placement::first_sources(alloc, view, lines)
}
