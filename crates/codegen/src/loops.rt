//! What a loop's code has around that of its range.

ghost use Rattle.std.specs.Prelude.{◌≡◌, ◌++◌, OnOk};
ghost use Rattle.ast.specs.View.{head as head_of, optional_term, ref};
ghost use Rattle.codegen.specs.Blocks.{begun_code, trip_ended};
ghost use Rattle.codegen.specs.Emitted.{grown_code, opened_code, step_code, variable_code};
ghost use Rattle.expr_code.specs.PlacesView.{places_of};

use crate::skips::fill;
use crate::statements::put;
use ast::{DoHead, Expr, Operator, Reference};
use expr_code::{Places, emit, short};
use machine::{Act, Instr};
use std::alloc::AllocError;

/// The step of a loop; 1 where it is absent.
fn emit_step(
    step: &Option<Expr>,
    places: &Places<'_>,
    code: &mut Vec<Instr>,
) -> Result<(), AllocError>
    ensures { OnOk result (code.new.items ≡ code.old.items
        ++ step_code (places_of places.now) (optional_term step.now)) }
{
    match step {
        Some(step) => emit(step, places, code),
        None => put(code, places.line, Act::Constant(1)),
    }
}

/// A DO variable gets the operand.
fn set_variable(
    variable: &Reference,
    places: &Places<'_>,
    code: &mut Vec<Instr>,
) -> Result<(), AllocError>
    ensures { OnOk result (code.new.items ≡ code.old.items
        ++ variable_code (places_of places.now) (ref variable.now)) }
{
    put(
        code,
        places.line,
        places.store_scalar(variable.name, variable.cell),
    )
}

/// A serial loop is set up, and its variable gets its first value.
pub fn emit_head(
    head: &DoHead,
    places: &Places<'_>,
    code: &mut Vec<Instr>,
) -> Result<(), AllocError>
    ensures { OnOk result (code.new.items ≡ code.old.items
        ++ begun_code (places_of places.now) (head_of head.now)) }
{
    emit(&head.first, places, code)?;
    emit(&head.last, places, code)?;
    emit_step(&head.step, places, code)?;
    put(code, places.line, Act::SetUp)?;
    set_variable(&head.variable, places, code)
}

/// A loop of a number is opened, and what runs it waits for its iterations.
pub fn emit_opened(
    head: &DoHead,
    number: usize,
    places: &Places<'_>,
    code: &mut Vec<Instr>,
) -> Result<(), AllocError>
    ensures { OnOk result (code.new.items ≡ code.old.items
        ++ opened_code (places_of places.now) (head_of head.now) number) }
{
    emit(&head.first, places, code)?;
    emit(&head.last, places, code)?;
    put(code, places.line, Act::Open(short(number)))?;
    put(code, places.line, Act::Join)
}

/// A DO variable grows by the step.
fn grow(variable: &Reference, places: &Places<'_>, code: &mut Vec<Instr>) -> Result<(), AllocError>
    ensures { OnOk result (code.new.items ≡ code.old.items
        ++ grown_code (places_of places.now) (ref variable.now)) }
{
    put(
        code,
        places.line,
        places.scalar(variable.name, variable.cell),
    )?;
    put(code, places.line, Act::Step)?;
    put(code, places.line, Act::Binary(Operator::Add))?;
    set_variable(variable, places, code)
}

/// The trip of a serial loop ends that began at a place: it goes back there, and what counts trips
/// there goes behind it.
pub fn end_trip(
    variable: &Reference,
    start: usize,
    places: &Places<'_>,
    code: &mut Vec<Instr>,
) -> Result<(), AllocError>
    ensures { OnOk result (code.new.items
        ≡ trip_ended (places_of places.now) (ref variable.now) start code.old.items) }
{
    grow(variable, places, code)?;
    let trip = short(code.len().saturating_sub(start));
    put(code, places.line, Act::Back(trip))?;
    fill(code, start, places.line, Act::CountDown(trip));
    Ok(())
}
