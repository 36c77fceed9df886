//! Code of plans' bodies: what one iteration of an opened loop does. Its own loops are serial.

ghost use Rattle.std.specs.Prelude.{◌≡◌, ◌++◌, ◌∷◌, [], OnOk, length};
ghost use Rattle.ast.specs.View.{head as head_of, ref};
ghost use Rattle.codegen.specs.Blocks.{body_left_open};
ghost use Rattle.codegen.specs.Emitted.{arms_awaits, arms_code, arms_records, block_awaits};
ghost use Rattle.codegen.specs.Emitted.{block_code, block_records, node_awaits, node_code};
ghost use Rattle.codegen.specs.Emitted.{node_records, serial_code, turns_code};
ghost use Rattle.codegen.specs.PlanParts.{arms_of, ends_with_stop, is_plan_end, is_plan_stop};
ghost use Rattle.codegen.specs.PlanParts.{made_arms};
ghost use Rattle.codegen.specs.Program.{none_open};
ghost use Rattle.codegen.specs.Records.{records_of};
ghost use Rattle.dependence.specs.PlanView.{plan_block, plan_node};
ghost use Rattle.expr_code.specs.Emitted.{instr, short};
ghost use Rattle.expr_code.specs.PlacesView.{places_of};
ghost use Rattle.machine.specs.declared.instr.Act.TheVariants as acts;

use crate::loops::{emit_head, end_trip};
use crate::skips::{Pending, close, end_body};
use crate::statements::{emit_plain, on, put};
use ast::{Action, DoHead, Inert, Line, Reference};
use dependence::{PlanArm, PlanStmt};
use expr_code::{Places, emit, short};
use machine::{Act, Await, Instr, Piece};
use std::alloc::{AllocError, Global};

fn is_stop(statement: &PlanStmt) -> bool
    ensures { result ≡ is_plan_stop (plan_node statement.now) }
{
    match statement {
        PlanStmt::Plain(statement) => matches!(statement.action, Action::Stop),
        PlanStmt::Await(_, _)
        | PlanStmt::Advance(_)
        | PlanStmt::Loop(_, _, _)
        | PlanStmt::Choice(_, _) => false,
    }
}

fn is_end(statement: &PlanStmt) -> bool
    ensures { result ≡ is_plan_end (plan_node statement.now) }
{
    match statement {
        PlanStmt::Plain(statement) => matches!(statement.action, Action::Inert(Inert::End)),
        PlanStmt::Await(_, _)
        | PlanStmt::Advance(_)
        | PlanStmt::Loop(_, _, _)
        | PlanStmt::Choice(_, _) => false,
    }
}

/// Whether statements are a STOP and the END that follows it, which do what END alone does.
fn is_last_stop(body: &[PlanStmt]) -> bool
    ensures { result ≡ ends_with_stop (plan_block body.now) }
{
    match body {
        [first, second] => is_stop(first) && is_end(second),
        _ => false,
    }
}

/// Waits until an earlier iteration has advanced an event: so many before this one.
fn emit_await(
    event: usize,
    distance: u128,
    places: &Places<'_>,
    awaits: &mut Vec<Await>,
    code: &mut Vec<Instr>,
) -> Result<(), AllocError>
    ensures code { OnOk result (code.new.items ≡ code.old.items
        ++ instr (places_of places.now).line (acts.Await (short (length awaits.old.items))) ∷ []) }
    ensures awaits { OnOk result (awaits.new.items ≡ awaits.old.items
        ++ record { event = short event; distance = distance } ∷ []) }
{
    let number = short(awaits.len());
    awaits.push(Await {
        event: short(event),
        distance,
    })?;
    put(code, places.line, Act::Await(number))
}

/// The trips of a loop of a line.
#[cycle(plans)]
fn emit_trips(
    alloc: Global,
    line: Line,
    variable: &Reference,
    range: &[PlanStmt],
    places: &Places<'_>,
    records: &mut Vec<Vec<Piece>>,
    awaits: &mut Vec<Await>,
    code: &mut Vec<Instr>,
) -> Result<(), AllocError>
    ensures code { OnOk result (code.new.items ≡ code.old.items
        ++ turns_code (record (places_of places.now) { line = line }) (ref variable.now)
        (block_code (places_of places.now) none_open (length records.old.items)
        (length awaits.old.items) (plan_block range.now))) }
    ensures records { OnOk result (records_of records.new ≡ records_of records.old
        ++ block_records (places_of places.now) none_open (plan_block range.now)) }
    ensures awaits { OnOk result (awaits.new.items ≡ awaits.old.items
        ++ block_awaits (places_of places.now) none_open (plan_block range.now)) }
{
    let start = code.len();
    put(code, line, Act::CountDown(0))?;
    emit_plan(alloc, range, places, records, awaits, code)?;
    end_trip(variable, start, &on(places, line), code)
}

/// A loop of a line.
#[cycle(plans)]
fn emit_loop(
    alloc: Global,
    line: Line,
    head: &DoHead,
    range: &[PlanStmt],
    places: &Places<'_>,
    records: &mut Vec<Vec<Piece>>,
    awaits: &mut Vec<Await>,
    code: &mut Vec<Instr>,
) -> Result<(), AllocError>
    ensures code { OnOk result (code.new.items ≡ code.old.items
        ++ serial_code (record (places_of places.now) { line = line }) (head_of head.now)
        (block_code (places_of places.now) none_open (length records.old.items)
        (length awaits.old.items) (plan_block range.now))) }
    ensures records { OnOk result (records_of records.new ≡ records_of records.old
        ++ block_records (places_of places.now) none_open (plan_block range.now)) }
    ensures awaits { OnOk result (awaits.new.items ≡ awaits.old.items
        ++ block_awaits (places_of places.now) none_open (plan_block range.now)) }
{
    emit_head(head, &on(places, line), code)?;
    let variable = &head.variable;
    emit_trips(alloc, line, variable, range, places, records, awaits, code)
}

/// The body of an arm of a line, behind its condition; the skip behind the body is left open.
#[cycle(plans)]
fn emit_body(
    alloc: Global,
    line: Line,
    body: &[PlanStmt],
    places: &Places<'_>,
    records: &mut Vec<Vec<Piece>>,
    awaits: &mut Vec<Await>,
    code: &mut Vec<Instr>,
) -> Result<(), AllocError>
    ensures code { OnOk result (code.new.items ≡ code.old.items
        ++ body_left_open line
        (block_code (places_of places.now) none_open (length records.old.items)
        (length awaits.old.items) (plan_block body.now))) }
    ensures records { OnOk result (records_of records.new ≡ records_of records.old
        ++ block_records (places_of places.now) none_open (plan_block body.now)) }
    ensures awaits { OnOk result (awaits.new.items ≡ awaits.old.items
        ++ block_awaits (places_of places.now) none_open (plan_block body.now)) }
{
    let start = code.len();
    put(code, line, Act::SkipUnless(0))?;
    emit_plan(alloc, body, places, records, awaits, code)?;
    end_body(code, start, line)
}

/// The ELSE that was made for an IF, if any.
#[cycle(plans)]
fn emit_made(
    alloc: Global,
    made: &Option<Vec<PlanStmt>>,
    places: &Places<'_>,
    records: &mut Vec<Vec<Piece>>,
    awaits: &mut Vec<Await>,
    code: &mut Vec<Instr>,
) -> Result<(), AllocError>
    ensures code { OnOk result (code.new.items ≡ code.old.items
        ++ arms_code (places_of places.now) none_open (length records.old.items)
        (length awaits.old.items) (made_arms made.now)) }
    ensures records { OnOk result (records_of records.new ≡ records_of records.old
        ++ arms_records (places_of places.now) none_open (made_arms made.now)) }
    ensures awaits { OnOk result (awaits.new.items ≡ awaits.old.items
        ++ arms_awaits (places_of places.now) none_open (made_arms made.now)) }
{
    match made {
        Some(body) => emit_plan(alloc, body, places, records, awaits, code),
        None => Ok(()),
    }
}

/// The arms of an IF, with the ELSE that was made for it.
#[cycle(plans)]
fn emit_arms(
    alloc: Global,
    arms: &[PlanArm],
    made: &Option<Vec<PlanStmt>>,
    places: &Places<'_>,
    records: &mut Vec<Vec<Piece>>,
    awaits: &mut Vec<Await>,
    code: &mut Vec<Instr>,
) -> Result<(), AllocError>
    ensures code { OnOk result (code.new.items ≡ code.old.items
        ++ arms_code (places_of places.now) none_open (length records.old.items)
        (length awaits.old.items) (arms_of arms.now made.now)) }
    ensures records { OnOk result (records_of records.new ≡ records_of records.old
        ++ arms_records (places_of places.now) none_open (arms_of arms.now made.now)) }
    ensures awaits { OnOk result (awaits.new.items ≡ awaits.old.items
        ++ arms_awaits (places_of places.now) none_open (arms_of arms.now made.now)) }
{
    let mut pending = Vec::new(alloc);
    for arm in arms {
        let Some(condition) = &arm.condition else {
            emit_plan(alloc, &arm.body, places, records, awaits, code)?;
            close(code, &pending);
            return Ok(());
        };
        emit(condition, &on(places, arm.line), code)?;
        emit_body(alloc, arm.line, &arm.body, places, records, awaits, code)?;
        pending.push(Pending {
            place: code.len() - 1,
            line: arm.line,
        })?;
    }
    emit_made(alloc, made, places, records, awaits, code)?;
    close(code, &pending);
    Ok(())
}

/// A statement with what belongs to it.
#[cycle(plans)]
fn emit_statement(
    alloc: Global,
    statement: &PlanStmt,
    places: &Places<'_>,
    records: &mut Vec<Vec<Piece>>,
    awaits: &mut Vec<Await>,
    code: &mut Vec<Instr>,
) -> Result<(), AllocError>
    ensures code { OnOk result (code.new.items ≡ code.old.items
        ++ node_code (places_of places.now) none_open (length records.old.items)
        (length awaits.old.items) (plan_node statement.now)) }
    ensures records { OnOk result (records_of records.new ≡ records_of records.old
        ++ node_records (places_of places.now) none_open (plan_node statement.now)) }
    ensures awaits { OnOk result (awaits.new.items ≡ awaits.old.items
        ++ node_awaits (places_of places.now) none_open (plan_node statement.now)) }
{
    match statement {
        PlanStmt::Await(event, distance) => emit_await(*event, *distance, places, awaits, code),
        PlanStmt::Advance(event) => put(code, places.line, Act::Advance(short(*event))),
        PlanStmt::Plain(statement) => {
            let places = on(places, statement.line);
            emit_plain(alloc, &statement.action, &places, records, code)
        }
        PlanStmt::Loop(line, head, range) => {
            emit_loop(alloc, *line, head, range, places, records, awaits, code)
        }
        PlanStmt::Choice(arms, made) => {
            emit_arms(alloc, arms, made, places, records, awaits, code)
        }
    }
}

/// Appends the code of a plan's body, the records that it prints, and what it awaits. Awaits and
/// advances are told to stand in the line of the places. A STOP that END follows has no code: it
/// does what END does.
///
/// # Errors
///
/// `AllocError` where memory is refused; a part may have been appended then.
#[cycle(plans)]
pub fn emit_plan(
    alloc: Global,
    body: &[PlanStmt],
    places: &Places<'_>,
    records: &mut Vec<Vec<Piece>>,
    awaits: &mut Vec<Await>,
    code: &mut Vec<Instr>,
) -> Result<(), AllocError>
    ensures code { OnOk result (code.new.items ≡ code.old.items
        ++ block_code (places_of places.now) none_open (length records.old.items)
        (length awaits.old.items) (plan_block body.now)) }
    ensures records { OnOk result (records_of records.new ≡ records_of records.old
        ++ block_records (places_of places.now) none_open (plan_block body.now)) }
    ensures awaits { OnOk result (awaits.new.items ≡ awaits.old.items
        ++ block_awaits (places_of places.now) none_open (plan_block body.now)) }
{
    for i in 0..body.len() {
        if is_last_stop(&body[i..]) {
            return Ok(());
        }
        emit_statement(alloc, &body[i], places, records, awaits, code)?;
    }
    Ok(())
}
