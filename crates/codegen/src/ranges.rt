//! Code of the ranges of loops that are opened.

ghost use Rattle.std.specs.Prelude.{◌≡◌, IfOk, OnOk, is_some, length, map};
ghost use Rattle.ast.specs.ProgramView.{program as program_of};
ghost use Rattle.ast.specs.View.{letters, symbol};
ghost use Rattle.codegen.specs.Made.{bare_plan, made_of, with_range, with_ranges};
ghost use Rattle.codegen.specs.Program.{entry_of, place_of_name};
ghost use Rattle.codegen.specs.Reports.{planned_by, planned_in};
ghost use Rattle.dependence.specs.PlanView.{plan_block, plan_of};
ghost use Rattle.expr_code.specs.Emitted.{short};
ghost use Rattle.loop_tree.specs.TreeView.{loops_seen, seen};
ghost use Rattle.machine.specs.CodeView.{loop_of};

use crate::plans::emit_plan;
use crate::reports::LoopReport;
use crate::statements::put;
use ast::{Name, Program, RefId, Symbol};
use dependence::{LoopPlan, PlanStmt};
use expr_code::{Places, short};
use loop_tree::{LoopTree, LoopView, ScalarSet};
use machine::{Act, Await, Instr, Loop, Piece};
use std::alloc::{AllocError, Global};

/// Instructions so far, and what they cite.
#[derive(Drop)]
pub struct Made {
    pub instructions: Vec<Instr>,
    pub records: Vec<Vec<Piece>>,
    pub awaits: Vec<Await>,
    pub loops: Vec<Loop>,
}

/// The number of a name among the symbols; how many they are where it is none of them.
fn number_of(symbols: &[Symbol], name: Name) -> usize
    ensures { result ≡ place_of_name 0 (map symbol symbols.now) name.letters }
{
    let mut number = 0;
    for symbol in symbols {
        if symbol.name == name {
            return number;
        }
        number += 1;
    }
    number
}

fn numbers_of(alloc: Global, symbols: &[Symbol], names: &[Name]) -> Result<Vec<u32>, AllocError>
    ensures { IfOk result (λ numbers. numbers.items
        ≡ map (λ name. short (place_of_name 0 (map symbol symbols.now) name))
        (map letters names.now)) }
{
    let mut numbers = Vec::with_capacity(alloc, names.len())?;
    for name in names {
        numbers.push(short(number_of(symbols, *name)))?;
    }
    Ok(numbers)
}

/// What code tells of a loop whose iterations begin at this place and have these private scalars.
fn entry(
    alloc: Global,
    program: &Program,
    view: &LoopView<'_, '_>,
    names: &[Name],
    place: usize,
) -> Result<Loop, AllocError>
    ensures { IfOk result (λ l. loop_of l
        ≡ entry_of (program_of program.now).symbols place (seen view.now) (map letters names.now)) }
{
    Ok(Loop {
        body: place,
        variable: view.head().variable.cell,
        step: view.step().unwrap_or(0),
        privates: numbers_of(alloc, &program.symbols, names)?,
    })
}

/// Appends what an iteration of a loop does by a plan's body.
fn emit_iteration(
    alloc: Global,
    program: &Program,
    view: &LoopView<'_, '_>,
    body: &[PlanStmt],
    privates: &ScalarSet,
    made: &mut Made,
) -> Result<(), AllocError>
    ensures { OnOk result (made_of made.new
        ≡ with_range (program_of program.now).symbols
        (bare_plan (seen view.now) (plan_block body.now) (map letters privates.now.names.items))
        (made_of made.old)) }
{
    let number = short(made.loops.len());
    let place = made.instructions.len();
    made.loops
        .push(entry(alloc, program, view, &privates.names, place)?)?;
    let places = Places {
        program,
        privates,
        loop_name: Some(view.head().variable.name),
        line: view.line(),
    };
    emit_plan(
        alloc,
        body,
        &places,
        &mut made.records,
        &mut made.awaits,
        &mut made.instructions,
    )?;
    put(&mut made.instructions, view.line(), Act::Retire(number))
}

/// Appends the range of a loop whose plan has a body.
fn emit_range(
    alloc: Global,
    program: &Program,
    view: &LoopView<'_, '_>,
    plan: &LoopPlan,
    made: &mut Made,
) -> Result<(), AllocError>
    ensures { OnOk result (made_of made.new
        ≡ with_ranges (program_of program.now).symbols
        (planned_by (seen view.now) (plan_of plan.now)) (made_of made.old)) }
{
    match plan {
        LoopPlan::Serial(_) => Ok(()),
        LoopPlan::Body { body, privates, .. } => {
            emit_iteration(alloc, program, view, body, privates, made)
        }
    }
}

/// Appends the ranges of the loops that are opened, in order.
pub fn emit_ranges(
    alloc: Global,
    program: &Program,
    tree: &LoopTree<'_>,
    reports: &[LoopReport],
    made: &mut Made,
) -> Result<(), AllocError>
    requires count { length reports.now ≡ length (loops_seen tree.now) }
    ensures { OnOk result (made_of made.new
        ≡ with_ranges (program_of program.now).symbols
        (planned_in (loops_seen tree.now) reports.now) (made_of made.old)) }
{
    for place in 0..tree.count() {
        let view = tree.view(place + 1);
        emit_range(alloc, program, &view, &reports[place].plan, made)?;
    }
    Ok(())
}

fn is_open(plan: &LoopPlan) -> bool
    ensures { result ≡ is_some (plan_of plan.now) }
{
    matches!(plan, LoopPlan::Body { .. })
}

/// The DO variables of the loops that are opened, in order.
pub fn variables_of(
    alloc: Global,
    tree: &LoopTree<'_>,
    reports: &[LoopReport],
) -> Result<Vec<RefId>, AllocError>
    requires count { length reports.now ≡ length (loops_seen tree.now) }
    ensures { IfOk result (λ variables. map (λ v. v.0) variables.items
        ≡ map (λ x. x.loop.head.variable.id) (planned_in (loops_seen tree.now) reports.now)) }
{
    let mut variables = Vec::new(alloc);
    for place in 0..tree.count() {
        let view = tree.view(place + 1);
        if is_open(&reports[place].plan) {
            variables.push(view.head().variable.id)?;
        }
    }
    Ok(variables)
}
