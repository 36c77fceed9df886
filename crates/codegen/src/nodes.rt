//! Code of a program's statements that hold others, and of its blocks, as main runs them.

ghost use Rattle.std.specs.Prelude.{◌≡◌, ◌++◌, OnOk, length, map};
ghost use Rattle.ast.specs.Tree.{arms as arms_tree};
ghost use Rattle.ast.specs.View.{arm as arm_of, block_view, head as head_of, node as node_of, ref};
ghost use Rattle.codegen.specs.Blocks.{body_left_open, code_of_arms, code_of_block, code_of_node};
ghost use Rattle.codegen.specs.Blocks.{records_in_arms, records_in_block, records_in_node};
ghost use Rattle.codegen.specs.Emitted.{if_serial, loop_code, serial_code, turns_code};
ghost use Rattle.codegen.specs.OpenedView.{opens_in};
ghost use Rattle.codegen.specs.Records.{records_of};
ghost use Rattle.expr_code.specs.PlacesView.{places_of};

use crate::loops::{emit_head, emit_opened, end_trip};
use crate::opened::Opened;
use crate::skips::{Pending, close, end_body};
use crate::statements::{emit_plain, on, put};
use ast::{Arm, DoHead, Line, Node, Reference, is_last_stop};
use expr_code::{Places, emit};
use machine::{Act, Instr, Piece};
use std::alloc::{AllocError, Global};

/// The trips of a serial loop of a line.
#[cycle(nodes)]
fn emit_trips(
    alloc: Global,
    line: Line,
    variable: &Reference,
    range: &[Node],
    opened: &Opened,
    places: &Places<'_>,
    records: &mut Vec<Vec<Piece>>,
    code: &mut Vec<Instr>,
) -> Result<(), AllocError>
    ensures code { OnOk result (code.new.items ≡ code.old.items
        ++ turns_code (record (places_of places.now) { line = line }) (ref variable.now)
        (code_of_block (opens_in opened.now) (places_of places.now) (length records.old.items)
        (block_view range.now))) }
    ensures records { OnOk result (records_of records.new ≡ records_of records.old
        ++ records_in_block (opens_in opened.now) (places_of places.now) (block_view range.now)) }
{
    let start = code.len();
    put(code, line, Act::CountDown(0))?;
    emit_block(alloc, range, opened, places, records, code)?;
    end_trip(variable, start, &on(places, line), code)
}

/// A serial loop of a line.
#[cycle(nodes)]
fn emit_serial(
    alloc: Global,
    line: Line,
    head: &DoHead,
    range: &[Node],
    opened: &Opened,
    places: &Places<'_>,
    records: &mut Vec<Vec<Piece>>,
    code: &mut Vec<Instr>,
) -> Result<(), AllocError>
    ensures code { OnOk result (code.new.items ≡ code.old.items
        ++ serial_code (record (places_of places.now) { line = line }) (head_of head.now)
        (code_of_block (opens_in opened.now) (places_of places.now) (length records.old.items)
        (block_view range.now))) }
    ensures records { OnOk result (records_of records.new ≡ records_of records.old
        ++ records_in_block (opens_in opened.now) (places_of places.now) (block_view range.now)) }
{
    emit_head(head, &on(places, line), code)?;
    let variable = &head.variable;
    emit_trips(alloc, line, variable, range, opened, places, records, code)
}

/// A loop of a line. The range of one that is opened has its code elsewhere.
#[cycle(nodes)]
fn emit_loop(
    alloc: Global,
    line: Line,
    head: &DoHead,
    range: &[Node],
    opened: &Opened,
    places: &Places<'_>,
    records: &mut Vec<Vec<Piece>>,
    code: &mut Vec<Instr>,
) -> Result<(), AllocError>
    ensures code { OnOk result (code.new.items ≡ code.old.items
        ++ loop_code (opens_in opened.now (head_of head.now).variable.id)
        (record (places_of places.now) { line = line }) (head_of head.now)
        (code_of_block (opens_in opened.now) (places_of places.now) (length records.old.items)
        (block_view range.now))) }
    ensures records { OnOk result (records_of records.new ≡ records_of records.old
        ++ if_serial (opens_in opened.now (head_of head.now).variable.id)
        (records_in_block (opens_in opened.now) (places_of places.now)
        (block_view range.now))) }
{
    match opened.number(head.variable.id) {
        Some(number) => emit_opened(head, number, &on(places, line), code),
        None => emit_serial(alloc, line, head, range, opened, places, records, code),
    }
}

/// The body of an arm of a line, behind its condition; the skip behind the body is left open.
#[cycle(nodes)]
fn emit_body(
    alloc: Global,
    line: Line,
    body: &[Node],
    opened: &Opened,
    places: &Places<'_>,
    records: &mut Vec<Vec<Piece>>,
    code: &mut Vec<Instr>,
) -> Result<(), AllocError>
    ensures code { OnOk result (code.new.items ≡ code.old.items
        ++ body_left_open line
        (code_of_block (opens_in opened.now) (places_of places.now) (length records.old.items)
        (block_view body.now))) }
    ensures records { OnOk result (records_of records.new ≡ records_of records.old
        ++ records_in_block (opens_in opened.now) (places_of places.now) (block_view body.now)) }
{
    let start = code.len();
    put(code, line, Act::SkipUnless(0))?;
    emit_block(alloc, body, opened, places, records, code)?;
    end_body(code, start, line)
}

/// The arms of an IF.
#[cycle(nodes)]
fn emit_arms(
    alloc: Global,
    arms: &[Arm],
    opened: &Opened,
    places: &Places<'_>,
    records: &mut Vec<Vec<Piece>>,
    code: &mut Vec<Instr>,
) -> Result<(), AllocError>
    ensures code { OnOk result (code.new.items ≡ code.old.items
        ++ code_of_arms (opens_in opened.now) (places_of places.now) (length records.old.items)
        (arms_tree (map arm_of arms.now))) }
    ensures records { OnOk result (records_of records.new ≡ records_of records.old
        ++ records_in_arms (opens_in opened.now) (places_of places.now)
        (arms_tree (map arm_of arms.now))) }
{
    let mut pending = Vec::new(alloc);
    for arm in arms {
        let Some(condition) = &arm.condition else {
            emit_block(alloc, &arm.body, opened, places, records, code)?;
            close(code, &pending);
            return Ok(());
        };
        emit(condition, &on(places, arm.line), code)?;
        emit_body(alloc, arm.line, &arm.body, opened, places, records, code)?;
        pending.push(Pending {
            place: code.len() - 1,
            line: arm.line,
        })?;
    }
    close(code, &pending);
    Ok(())
}

/// A statement with what belongs to it.
#[cycle(nodes)]
fn emit_node(
    alloc: Global,
    node: &Node,
    opened: &Opened,
    places: &Places<'_>,
    records: &mut Vec<Vec<Piece>>,
    code: &mut Vec<Instr>,
) -> Result<(), AllocError>
    ensures code { OnOk result (code.new.items ≡ code.old.items
        ++ code_of_node (opens_in opened.now) (places_of places.now) (length records.old.items)
        (node_of node.now)) }
    ensures records { OnOk result (records_of records.new ≡ records_of records.old
        ++ records_in_node (opens_in opened.now) (places_of places.now) (node_of node.now)) }
{
    match node {
        Node::Plain(statement) => {
            let places = on(places, statement.line);
            emit_plain(alloc, &statement.action, &places, records, code)
        }
        Node::Loop(line, head, range) => {
            emit_loop(alloc, *line, head, range, opened, places, records, code)
        }
        Node::Choice(arms) => emit_arms(alloc, arms, opened, places, records, code),
    }
}

/// Appends the code of nodes, and the records that they print. A STOP that END follows has none: it
/// does what END does.
///
/// # Errors
///
/// `AllocError` where memory is refused; a part may have been appended then.
#[cycle(nodes)]
pub fn emit_block(
    alloc: Global,
    nodes: &[Node],
    opened: &Opened,
    places: &Places<'_>,
    records: &mut Vec<Vec<Piece>>,
    code: &mut Vec<Instr>,
) -> Result<(), AllocError>
    ensures code { OnOk result (code.new.items ≡ code.old.items
        ++ code_of_block (opens_in opened.now) (places_of places.now) (length records.old.items)
        (block_view nodes.now)) }
    ensures records { OnOk result (records_of records.new ≡ records_of records.old
        ++ records_in_block (opens_in opened.now) (places_of places.now) (block_view nodes.now)) }
{
    for i in 0..nodes.len() {
        if is_last_stop(&nodes[i..]) {
            return Ok(());
        }
        emit_node(alloc, &nodes[i], opened, places, records, code)?;
    }
    Ok(())
}
