//! The calls whose allocations are refused. No test rests on what is proved of them, and so these
//! functions say nothing of it: it would be carried through each test that makes such a call.

use ast::{Answer, Expr, Program, Refusal, Stmt};
use codegen::{Compiled, compile};
use dependence::LoopPlan;
use expr_code::{Places, emit};
use fixed_form::Labelled;
use loop_tree::{LoopTree, LoopView, ScalarSet};
use machine::{Code, Done, Frame, Instr, stands_local};
use plan_check::PlanFault;
use processors::{NoGate, Report, RunRefusal};
use replay::{Choice, Core, CoreRefusal, HandIn, Stepped};
use schedules::{ReplayRefusal, Schedule};
use std::alloc::{AllocError, Global};
use std::sync::Wait;
use std::thread::Threads;
use structure::Blocks;

pub fn statements(alloc: Global, source: &[u8]) -> Result<Vec<Labelled>, Refusal> {
    fixed_form::statements(alloc, source)
}

pub fn statement(alloc: Global, line: &Labelled) -> Result<Stmt, Refusal> {
    syntax::statement(alloc, line)
}

pub fn blocks(alloc: Global, lines: &[Labelled], trees: &[Stmt]) -> Result<Blocks, Refusal> {
    structure::blocks(alloc, lines, trees)
}

pub fn program(alloc: Global, source: &[u8]) -> Result<Program, Refusal> {
    profile_check::program(alloc, source)
}

pub fn run_seq(alloc: Global, program: &Program, input: &[u8]) -> Result<Answer, AllocError> {
    interpreter::run_seq(alloc, program, input)
}

pub fn expr(alloc: Global, text: &[u8], line: u32) -> Result<Expr, Refusal> {
    expressions::expr(alloc, text, line)
}

pub fn add_code(
    value: &Expr,
    places: &Places<'_>,
    code: &mut Vec<Instr>,
) -> Result<(), AllocError> {
    emit(value, places, code)
}

pub fn loops<'p>(alloc: Global, program: &'p Program) -> Result<LoopTree<'p>, AllocError> {
    loop_tree::loops(alloc, program)
}

pub fn private_scalars(alloc: Global, view: &LoopView<'_, '_>) -> Result<ScalarSet, AllocError> {
    privatise::private_scalars(alloc, view)
}

pub fn plan(alloc: Global, view: &LoopView<'_, '_>) -> Result<LoopPlan, AllocError> {
    placement::plan(alloc, view)
}

pub fn check(alloc: Global, view: &LoopView<'_, '_>, plan: &LoopPlan) -> Result<(), PlanFault> {
    plan_check::check(alloc, view, plan)
}

pub fn compiled(alloc: Global, program: &Program) -> Result<Compiled, Refusal> {
    compile(alloc, program)
}

pub fn core_of<'c>(
    alloc: Global,
    code: &'c Code,
    input: &'c [u8],
) -> Result<Core<'c>, CoreRefusal> {
    Core::new(alloc, code, input, 2, 2)
}

pub fn step(core: &mut Core<'_>, q: usize) -> Result<Stepped, AllocError> {
    core.step(q)
}

pub fn pick(core: &mut Core<'_>, q: usize, choice: Choice) -> Result<Stepped, AllocError> {
    core.pick(q, choice)
}

pub fn frame(core: &Core<'_>, q: usize) -> Result<Option<Frame>, AllocError> {
    core.frame(q)
}

pub fn copy(frame: &Frame) -> Result<Frame, AllocError> {
    frame.try_copy()
}

/// Local work that leads from a frame, if any stands next.
pub fn work(code: &Code, from: Frame) -> Result<Option<Done<'_>>, AllocError> {
    if !stands_local(code, &from) {
        return Ok(None);
    }
    Ok(Some(Done::work(code, from, 8)?))
}

pub fn hand_in(core: &mut Core<'_>, q: usize, done: Done<'_>) -> Result<(), HandIn> {
    core.hand_in(q, done)
}

pub fn answer(core: &Core<'_>) -> Result<Option<Answer>, AllocError> {
    core.answer()
}

pub fn copy_of(schedule: &Schedule) -> Result<Schedule, AllocError> {
    schedule.try_copy()
}

pub fn text(schedule: &Schedule) -> Result<Vec<u8>, AllocError> {
    schedule.text()
}

pub fn parsed(alloc: Global, text: &[u8]) -> Result<Schedule, ReplayRefusal> {
    Schedule::parse(alloc, text)
}

pub fn replayed(
    alloc: Global,
    code: &Code,
    input: &[u8],
    schedule: &Schedule,
) -> Result<Answer, ReplayRefusal> {
    replay::replay(alloc, code, input, schedule)
}

pub fn upgraded(
    alloc: Global,
    code: &Code,
    input: &[u8],
    schedule: &Schedule,
) -> Result<Schedule, ReplayRefusal> {
    replay::upgrade(alloc, code, input, schedule)
}

pub fn ran<R: Threads + Wait + Sync + AllocGlobal>(
    rt: &R,
    code: &Code,
    input: &[u8],
    p: u64,
    s: u64,
) -> Result<Report, RunRefusal> {
    processors::run(rt, rt.alloc(), code, input, p, s, &NoGate)
}

pub fn answered<R: Threads + Wait + Sync + AllocGlobal>(
    rt: &R,
    code: &Code,
    input: &[u8],
    p: u64,
    s: u64,
) -> Result<Answer, RunRefusal> {
    processors::run_unrecorded(rt, rt.alloc(), code, input, p, s, &NoGate)
}
