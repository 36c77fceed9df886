//! What is reported of loops.

ghost use Rattle.std.specs.Prelude.{◌≡◌, ◌+◌, ◌++◌, ◌||◌, [], ◌∷◌, IfOk, OnOk, Some, length, map};
ghost use Rattle.loop_tree.specs.Loops.{AreWhole, IsWhole, loop_numbered};
ghost use Rattle.loop_tree.specs.TreeView.{all_seen, lines_seen, loops_seen, seen};
ghost use Rattle.codegen.specs.Noted.{AreNested, AreNoted, is_noted};
ghost use Rattle.dependence.specs.PlanView.{plan_of};
ghost use Rattle.placement.specs.Placement.{IsPlacement};
ghost use Rattle.plan_check.specs.Checks.{HasBody, HasNamesOnce, IsGood};
ghost use Rattle.codegen.specs.Reports as spec;
ghost use Rattle.codegen.specs.Reports.{AreReports, IsPlacedReport, IsReport};

use ast::Line;
use dependence::{LoopPlan, SerialReason};
use loop_tree::{LoopTree, LoopView};
use placement::{Kept, Placed, place};
use plan_check::{PlanFault, check};
use std::alloc::{AllocError, Global};

/// What is reported of a loop.
#[derive(Drop)]
pub struct LoopReport {
    /// The line of its DO.
    pub line: Line,
    pub plan: LoopPlan,
    /// Of a plan with a body, the line of each event's source; the first event has the number 1.
    pub sources: Vec<Line>,
    /// Of a plan with a body, what is awaited, by the sink's place in the text, the event and the
    /// distance: an event, over how many iterations, and the sink's line.
    pub kept: Vec<(usize, u128, Line)>,
}

/// The line of a statement; 0 where there is no such statement.
fn line_at(lines: &[Line], statement: usize) -> Line
    ensures { result ≡ spec.line_at lines.now statement }
{
    if statement < lines.len() {
        lines[statement]
    } else {
        0
    }
}

/// The number of a source's event: one more than how many sources stand before it.
fn event_of(sources: &[usize], source: usize) -> usize
    ensures { result ≡ spec.event_of 1 sources.now source }
{
    let mut event = 1;
    for other in sources {
        if *other == source {
            return event;
        }
        event += 1;
    }
    event
}

fn source_lines(alloc: Global, lines: &[Line], sources: &[usize]) -> Result<Vec<Line>, AllocError>
    ensures { IfOk result (λ found. found.items ≡ map (spec.line_at lines.now) sources.now) }
{
    let mut found = Vec::with_capacity(alloc, sources.len())?;
    for source in sources {
        found.push(line_at(lines, *source))?;
    }
    Ok(found)
}

fn kept_lines(
    alloc: Global,
    lines: &[Line],
    sources: &[usize],
    kept: &[Kept],
) -> Result<Vec<(usize, u128, Line)>, AllocError>
    ensures { IfOk result (λ found. found.items
        ≡ map (spec.kept_line lines.now sources.now) kept.now) }
{
    let mut found = Vec::with_capacity(alloc, kept.len())?;
    for one in kept {
        found.push((
            event_of(sources, one.source),
            one.distance,
            line_at(lines, one.sink),
        ))?;
    }
    Ok(found)
}

/// The report of a loop of this line, by what placement gives for it.
fn report(
    alloc: Global,
    lines: &[Line],
    line: Line,
    placed: Placed,
) -> Result<LoopReport, AllocError>
    ensures { IfOk result (IsReport lines.now line placed) }
{
    let sources = source_lines(alloc, lines, &placed.sources)?;
    let kept = kept_lines(alloc, lines, &placed.sources, &placed.kept)?;
    Ok(LoopReport {
        line,
        plan: placed.plan,
        sources,
        kept,
    })
}

/// Whether a loop stands in one that may be open, by what was noted of the loops before it: by
/// number, and nothing of 0.
fn is_inside(view: &LoopView<'_, '_>, noted: &[bool]) -> bool
    ensures { result ≡ is_noted noted.now (seen view.now).around }
{
    match view.outer() {
        Some(number) if number < noted.len() => noted[number],
        _ => false,
    }
}

/// Notes whether the next loop or one around it may be open.
fn note(noted: &mut Vec<bool>, inside: bool, suits: bool) -> Result<(), AllocError>
    ensures { OnOk result (noted.new.items ≡ noted.old.items ++ (inside || suits) ∷ []) }
{
    noted.push(inside || suits)?;
    Ok(())
}

/// What placement gives for a loop, where the check of plans accepts it. One that it refused would
/// leave the loop serial for that reason; it refuses none.
fn checked(alloc: Global, view: &LoopView<'_, '_>, placed: Placed) -> Result<Placed, AllocError>
    requires whole { IsWhole (seen view.now) }
    requires placed { IsPlacement (all_seen view.now) (seen view.now) placed.plan }
    ensures same { IfOk result (λ given. given ≡ placed) }
    ensures good { IfOk result (λ given. IsGood (seen view.now) (plan_of given.plan)) }
    ensures body { IfOk result (λ given. HasBody (seen view.now) (plan_of given.plan)) }
    ensures once { IfOk result (λ given. HasNamesOnce (plan_of given.plan)) }
{
    match check(alloc, view, &placed.plan) {
        Ok(()) => Ok(placed),
        Err(PlanFault::Memory) => Err(AllocError),
        Err(PlanFault::Refused(_)) => Ok(Placed {
            plan: LoopPlan::Serial(SerialReason::Refused),
            suits: placed.suits,
            sources: placed.sources,
            kept: placed.kept,
        }),
    }
}

/// The report of the next loop, which a view shows. It is noted whether this loop or one around it
/// may be open.
fn next_report(
    alloc: Global,
    lines: &[Line],
    view: &LoopView<'_, '_>,
    noted: &mut Vec<bool>,
) -> Result<LoopReport, AllocError>
    requires whole { IsWhole (seen view.now) }
    requires nested { AreNested (all_seen view.now) }
    requires next { loop_numbered (all_seen view.now) (length noted.old.items)
        ≡ Some (seen view.now) }
    requires noted { AreNoted (all_seen view.now) noted.old.items }
    ensures report { IfOk result (IsPlacedReport (all_seen view.now) lines.now (seen view.now)) }
    ensures noted { OnOk result (AreNoted (all_seen view.now) noted.new.items) }
    ensures count { OnOk result (length noted.new.items ≡ length noted.old.items + 1) }
{
    let inside = is_inside(view, noted);
    let placed = place(alloc, view, inside)?;
    note(noted, inside, placed.suits)?;
    let accepted = checked(alloc, view, placed)?;
    report(alloc, lines, view.line(), accepted)
}

/// The reports of a program's loops, in order.
///
/// # Errors
///
/// `AllocError` where memory is refused.
pub fn reports(alloc: Global, tree: &LoopTree<'_>) -> Result<Vec<LoopReport>, AllocError>
    requires whole { AreWhole (loops_seen tree.now) }
    requires nested { AreNested (loops_seen tree.now) }
    ensures { IfOk result (λ reports.
        AreReports (loops_seen tree.now) (lines_seen tree.now) (loops_seen tree.now)
        reports.items) }
{
    let mut noted = vec![in alloc; false]?;
    let mut reports = Vec::with_capacity(alloc, tree.count())?;
    for place in 0..tree.count() {
        let view = tree.view(place + 1);
        reports.push(next_report(alloc, tree.lines(), &view, &mut noted)?)?;
    }
    Ok(reports)
}
