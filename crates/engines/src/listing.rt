//! The lines of a listing of loops.

ghost use Rattle.std.specs.Prelude.{◌≡◌, ◌∷◌, ◌++◌, [], IfOk, OnOk, false, map, true};
ghost use Rattle.ast.specs.View.{letters};
ghost use Rattle.dependence.specs.PlanView.{plan_block};
ghost use Rattle.command_output.specs.Shown.{Extends};
ghost use Rattle.engines.specs.Advanced.{spots as spots_in};
ghost use Rattle.engines.specs.Listing as spec;
ghost use Rattle.engines.specs.Listing.{InByteOrder, Lines, Listing};
ghost use Rattle.engines.specs.declared.spots.Spot.TheVariants.{Behind};

use crate::spots::{Spot, add_spots};
use ast::{Line, Name};
use codegen::LoopReport;
use command_output::{Outcome, Page, append_line};
use dependence::{LoopPlan, PlanStmt, SerialReason};
use explanations::append_number;
use std::alloc::{AllocError, Global};

/// Appends the beginning of a loop's line.
fn append_loop(out: &mut Vec<u8>, number: usize, line: Line) -> Result<(), AllocError>
    ensures { OnOk result (out.new.items ≡ out.old.items ++ spec.loop_words number line) }
{
    out.extend_from_slice(b"LOOP ")?;
    append_number(out, number)?;
    out.extend_from_slice(b" LINE ")?;
    append_number(out, line)
}

/// Appends the line of a loop that stays serial.
fn append_serial(
    out: &mut Vec<u8>,
    number: usize,
    line: Line,
    reason: SerialReason,
) -> Result<(), AllocError>
    ensures { OnOk result (out.new.items ≡ out.old.items ++ spec.serial_line number line reason) }
{
    append_loop(out, number, line)?;
    out.extend_from_slice(b" SERIAL ")?;
    append_number(out, reason.number())?;
    out.extend_from_slice(b"\n")
}

/// Appends the line of a loop that may be open.
fn append_open(
    out: &mut Vec<u8>,
    number: usize,
    line: Line,
    events: usize,
) -> Result<(), AllocError>
    ensures { OnOk result (out.new.items ≡ out.old.items ++ spec.open_line number line events) }
{
    append_loop(out, number, line)?;
    out.extend_from_slice(b" DOACROSS EVENTS ")?;
    append_number(out, events)?;
    out.extend_from_slice(b"\n")
}

/// Appends a blank and a name.
fn append_name(out: &mut Vec<u8>, name: &Name) -> Result<(), AllocError>
    ensures { OnOk result (out.new.items ≡ out.old.items
        ++ spec.name_words (letters name.now ∷ [])) }
{
    out.extend_from_slice(b" ")?;
    out.extend_from_slice(name.trimmed())
}

fn append_names(out: &mut Vec<u8>, names: &[Name]) -> Result<(), AllocError>
    ensures { OnOk result (out.new.items ≡ out.old.items
        ++ spec.name_words (map letters names.now)) }
{
    for name in names {
        append_name(out, name)?;
    }
    Ok(())
}

/// Appends the line of private names; none where there is no name.
fn append_private(out: &mut Vec<u8>, names: &[Name]) -> Result<(), AllocError>
    ensures { OnOk result (out.new.items ≡ out.old.items
        ++ spec.private_line (map letters names.now)) }
{
    if names.is_empty() {
        return Ok(());
    }
    out.extend_from_slice(b" PRIVATE")?;
    append_names(out, names)?;
    out.extend_from_slice(b"\n")
}

fn append_event(out: &mut Vec<u8>, event: usize, line: Line) -> Result<(), AllocError>
    ensures { OnOk result (out.new.items ≡ out.old.items ++ spec.event_line event line) }
{
    out.extend_from_slice(b" EVENT ")?;
    append_number(out, event)?;
    out.extend_from_slice(b" SOURCE")?;
    append_line(out, line)
}

/// Appends a line for each event, by the lines of their sources.
fn append_events(out: &mut Vec<u8>, sources: &[Line]) -> Result<(), AllocError>
    ensures { OnOk result (out.new.items ≡ out.old.items ++ spec.event_lines 1 sources.now) }
{
    for (place, line) in sources.iter().enumerate() {
        append_event(out, place + 1, *line)?;
    }
    Ok(())
}

/// Appends what is awaited: an event, a distance and the line of the sink.
fn append_await(out: &mut Vec<u8>, kept: &(usize, u128, Line)) -> Result<(), AllocError>
    ensures { OnOk result (out.new.items ≡ out.old.items ++ spec.await_line kept.now) }
{
    out.extend_from_slice(b" AWAIT ")?;
    append_number(out, kept.0)?;
    out.extend_from_slice(b" ")?;
    append_number(out, kept.1)?;
    out.extend_from_slice(b" BEFORE")?;
    append_line(out, kept.2)
}

fn append_awaits(out: &mut Vec<u8>, kept: &[(usize, u128, Line)]) -> Result<(), AllocError>
    ensures { OnOk result (out.new.items ≡ out.old.items ++ spec.await_lines kept.now) }
{
    for one in kept {
        append_await(out, one)?;
    }
    Ok(())
}

fn append_spot(out: &mut Vec<u8>, spot: Spot) -> Result<(), AllocError>
    ensures { OnOk result (out.new.items ≡ out.old.items ++ spec.spot_words spot) }
{
    match spot {
        Spot::Behind(line) => {
            out.extend_from_slice(b" AFTER")?;
            append_line(out, line)
        }
        Spot::Arm(line) => {
            out.extend_from_slice(b" IN ARM")?;
            append_line(out, line)
        }
        Spot::Made(line) => {
            out.extend_from_slice(b" IN MADE ELSE OF")?;
            append_line(out, line)
        }
    }
}

fn append_advance(out: &mut Vec<u8>, event: usize, spot: Spot) -> Result<(), AllocError>
    ensures { OnOk result (out.new.items ≡ out.old.items ++ spec.advance_line event spot) }
{
    out.extend_from_slice(b" ADVANCE ")?;
    append_number(out, event)?;
    append_spot(out, spot)
}

/// Whether an advance is one of an event, and behind a statement or elsewhere.
fn is_of(event: usize, behind: bool, advance: &(usize, Spot)) -> bool
    ensures { result ≡ spec.is_of event behind advance.now }
{
    if behind {
        advance.0 == event && advance.1.is_behind()
    } else {
        advance.0 == event && !advance.1.is_behind()
    }
}

/// Appends the advances of an event that are behind statements, or the others.
fn append_advances(
    out: &mut Vec<u8>,
    event: usize,
    behind: bool,
    advanced: &[(usize, Spot)],
) -> Result<(), AllocError>
    ensures { OnOk result (out.new.items ≡ out.old.items
        ++ spec.advance_lines event behind advanced.now) }
{
    for advance in advanced {
        if is_of(event, behind, advance) {
            append_advance(out, event, advance.1)?;
        }
    }
    Ok(())
}

/// Appends the advances of an event.
fn append_advances_of(
    out: &mut Vec<u8>,
    event: usize,
    advanced: &[(usize, Spot)],
) -> Result<(), AllocError>
    ensures { OnOk result (out.new.items ≡ out.old.items
        ++ (spec.advance_lines event true advanced.now
        ++ spec.advance_lines event false advanced.now)) }
{
    append_advances(out, event, true, advanced)?;
    append_advances(out, event, false, advanced)
}

/// Appends the advances of each event, of which there are as many as sources.
fn append_all_advances(
    out: &mut Vec<u8>,
    sources: &[Line],
    advanced: &[(usize, Spot)],
) -> Result<(), AllocError>
    ensures { OnOk result (out.new.items ≡ out.old.items
        ++ spec.advances_by_event 1 sources.now advanced.now) }
{
    for place in 0..sources.len() {
        append_advances_of(out, place + 1, advanced)?;
    }
    Ok(())
}

/// Names in byte order.
fn in_order(alloc: Global, names: &[Name]) -> Result<Vec<Name>, AllocError>
    ensures { IfOk result (λ sorted.
        InByteOrder (map letters names.now) (map letters sorted.items)) }
{
    let mut sorted = Vec::from_slice(alloc, names)?;
    sorted.sort_unstable();
    Ok(sorted)
}

/// The advances in the body of a loop's plan.
fn advances_in(
    alloc: Global,
    line: Line,
    body: &[PlanStmt],
) -> Result<Vec<(usize, Spot)>, AllocError>
    ensures { IfOk result (λ found. found.items ≡ spots_in (Behind line) (plan_block body.now)) }
{
    let mut found = Vec::new(alloc);
    add_spots(Spot::Behind(line), body, &mut found)?;
    Ok(found)
}

/// Appends the lines of a loop that may be open, by its private names in byte order and its
/// advances.
fn append_body(
    out: &mut Vec<u8>,
    number: usize,
    line: Line,
    names: &[Name],
    sources: &[Line],
    kept: &[(usize, u128, Line)],
    advanced: &[(usize, Spot)],
) -> Result<(), AllocError>
    ensures { OnOk result (out.new.items ≡ out.old.items
        ++ spec.open_lines number line (map letters names.now) sources.now kept.now advanced.now) }
{
    append_open(out, number, line, sources.len())?;
    append_private(out, names)?;
    append_events(out, sources)?;
    append_awaits(out, kept)?;
    append_all_advances(out, sources, advanced)?;
    Ok(())
}

/// Appends the lines of a loop.
pub fn append_report(
    alloc: Global,
    number: usize,
    report: &LoopReport,
    out: &mut Vec<u8>,
) -> Result<(), AllocError>
    ensures { OnOk result (Extends (Lines number report.now) out.old.items out.new.items) }
{
    match &report.plan {
        LoopPlan::Serial(reason) => append_serial(out, number, report.line, *reason),
        LoopPlan::Body { body, privates, .. } => {
            let names = in_order(alloc, &privates.names)?;
            let advanced = advances_in(alloc, report.line, body)?;
            append_body(
                out,
                number,
                report.line,
                &names,
                &report.sources,
                &report.kept,
                &advanced,
            )
        }
    }
}

/// The lines of a program's loops.
fn listing(alloc: Global, reports: &[LoopReport]) -> Result<Vec<u8>, AllocError>
    ensures { IfOk result (λ text. Listing 1 reports.now text.items) }
{
    let mut text = Vec::new(alloc);
    for (place, report) in reports.iter().enumerate() {
        append_report(alloc, place + 1, report, &mut text)?;
    }
    Ok(text)
}

/// The page that lists a program's loops.
pub fn listed(alloc: Global, reports: &[LoopReport]) -> Result<Page, AllocError>
    ensures { IfOk result (λ page. (page.outcome ≡ Outcome.Completed)
        × Listing 1 reports.now page.text.items) }
{
    Ok(Page {
        text: listing(alloc, reports)?,
        outcome: Outcome::Completed,
    })
}
