//! Pictures of a program's loops.

ghost use Rattle.std.specs.Prelude.{◌≡◌, ◌≤◌, ◌-◌, [], IfOk, option_map};
ghost use Rattle.ast.specs.ProgramView.{program as program_of};
ghost use Rattle.pictures.specs.Dependences.{AreArrows};
ghost use Rattle.engines.specs.Drawing as spec;
ghost use Rattle.engines.specs.Drawing.{Draws, DrawsReport, IsLoopPicture, kept_of};
ghost use Rattle.engines.specs.Lists.{IsReported};

use crate::drawn::Drawn;
use crate::prepared::{Prepared, prepare};
use ast::{Line, Node, Program};
use codegen::LoopReport;
use dependence::{LoopPlan, PlanStmt, SerialReason};
use loop_tree::{LoopTree, ScalarSet, loops};
use pictures::{
    Frame, LoopPicture, OpenLoop, SerialLoop, draw as draw_loop, lines_of, open_picture,
    serial_picture, space_of,
};
use reasons::{Hindrance, hindrance_of};
use std::alloc::{AllocError, Global};

/// Which loop of a program is drawn, and how much of it.
#[derive(Clone, Copy)]
pub struct Portion {
    /// The loop's number, from 1.
    pub number: usize,
    /// How many iterations are drawn, 1 to 64.
    pub columns: u64,
}

/// The report of the loop of a number, from 1.
fn report_of(reports: &[LoopReport], number: usize) -> Option<&LoopReport>
    ensures { option_map (λ r. r.now) result ≡ spec.report_of reports.now number }
{
    if number == 0 {
        return None;
    }
    reports.get(number - 1)
}

/// The range of a program's loop, by its number.
fn range_of<'p>(tree: &LoopTree<'p>, number: usize) -> &'p [Node] {
    if number < 1 || number > tree.count() {
        return &[];
    }
    tree.view(number).body()
}

/// How many iterations the loop of a number has, where that is known.
fn trips_of(tree: &LoopTree<'_>, number: usize) -> Option<u128> {
    if number < 1 || number > tree.count() {
        return None;
    }
    tree.view(number).trips()
}

/// How many arrows a loop's picture has at most.
pub const MOST_ARROWS: u128 = 20_000;

/// How many of so many iterations have one so far behind them among them.
fn pairs(columns: u64, distance: u128) -> u128
    ensures { result ≡ columns - distance }
{
    u128::from(columns).saturating_sub(distance)
}

/// How many arrows so many iterations have of what is kept: of each dependence one for each pair of
/// them that is so far apart.
fn arrow_count(kept: &[(usize, u128, Line)], columns: u64) -> u128
    ensures { result ≡ spec.arrow_count columns kept.now }
{
    let mut count: u128 = 0;
    for dependence in kept {
        count += pairs(columns, dependence.1);
    }
    count
}

/// What is kept of a loop, by its report: of one that stays serial nothing.
fn kept_of(report: &LoopReport) -> &[(usize, u128, Line)]
    ensures { result.now ≡ kept_of report.now report.now.plan }
{
    match &report.plan {
        LoopPlan::Serial(_) => &[],
        LoopPlan::Body { .. } => &report.kept,
    }
}

/// How many arrows the picture of a loop has, beside those of the order of a serial one.
fn arrows_of(report: &LoopReport, columns: u64) -> u128
    ensures { result ≡ spec.arrows_of report.now columns }
{
    arrow_count(kept_of(report), columns)
}

/// A hindrance as a sentence.
fn sentence(alloc: Global, hindrance: Option<&Hindrance>) -> Result<Vec<u8>, AllocError> {
    match hindrance {
        Some(hindrance) => {
            let told = format!(in alloc; "{hindrance}")?;
            Vec::from_slice(alloc, told.as_bytes())
        }
        None => Ok(Vec::new(alloc)),
    }
}

/// What there is to draw of a loop that stays serial for a reason.
fn serial<'a>(
    alloc: Global,
    source: &'a [u8],
    tree: &LoopTree<'_>,
    reports: &[LoopReport],
    frame: Frame,
    reason: SerialReason,
) -> Result<LoopPicture<'a>, AllocError>
    ensures frame { IfOk result (λ p. (p.number ≡ frame.number) × (p.line ≡ frame.line) ×
        (p.columns ≡ frame.columns)) }
    ensures arrows { IfOk result (λ p. p.arrows.items ≡ []) }
{
    let found = hindrance_of(alloc, tree, frame.number, reason, reports)?;
    let found = found.as_ref();
    let reason = sentence(alloc, found)?;
    let serial = SerialLoop {
        range: range_of(tree, frame.number),
        reason: &reason,
        hindered: found.and_then(|hindrance| hindrance.line(frame.line)),
        around: found.and_then(|hindrance| hindrance.around()),
        sources: found.map_or(&[], |hindrance| hindrance.sources()),
    };
    let space = space_of(alloc, tree, frame.number)?;
    serial_picture(alloc, lines_of(alloc, source)?, frame, serial, space)
}

/// What there is to draw of a loop whose iterations may overlap, by its report, the body of its
/// plan and its private scalars.
fn opened<'a>(
    alloc: Global,
    source: &'a [u8],
    tree: &LoopTree<'_>,
    report: &LoopReport,
    frame: Frame,
    body: &[PlanStmt],
    privates: &ScalarSet,
) -> Result<LoopPicture<'a>, AllocError>
    ensures frame { IfOk result (λ p. (p.number ≡ frame.number) × (p.line ≡ frame.line) ×
        (p.columns ≡ frame.columns)) }
    ensures arrows { IfOk result
        (λ p. AreArrows report.now.sources.items report.now.kept.items p.arrows.items) }
{
    let opened = OpenLoop {
        body,
        privates: &privates.names,
        sources: &report.sources,
        kept: &report.kept,
    };
    let space = space_of(alloc, tree, frame.number)?;
    open_picture(alloc, lines_of(alloc, source)?, frame, opened, space)
}

/// What there is to draw of a loop, by its report.
fn picture_of<'a>(
    alloc: Global,
    source: &'a [u8],
    program: &Program,
    reports: &[LoopReport],
    report: &LoopReport,
    portion: Portion,
) -> Result<LoopPicture<'a>, AllocError>
    ensures frame { IfOk result (λ p. (p.number ≡ portion.number) × (p.line ≡ report.now.line) ×
        (p.columns ≡ portion.columns)) }
    ensures arrows { IfOk result (λ p. AreArrows report.now.sources.items
        (kept_of report.now report.now.plan) p.arrows.items) }
{
    let tree = loops(alloc, program)?;
    let frame = Frame {
        number: portion.number,
        line: report.line,
        columns: portion.columns,
        trips: trips_of(&tree, portion.number),
    };
    match &report.plan {
        LoopPlan::Serial(reason) => serial(alloc, source, &tree, reports, frame, *reason),
        LoopPlan::Body { body, privates, .. } => {
            opened(alloc, source, &tree, report, frame, body, privates)
        }
    }
}

/// The text of the picture of a loop, by its report.
fn text_of(
    alloc: Global,
    source: &[u8],
    program: &Program,
    reports: &[LoopReport],
    report: &LoopReport,
    portion: Portion,
) -> Result<Vec<u8>, AllocError>
    requires { spec.arrows_of report.now portion.columns ≤ MOST_ARROWS }
    ensures { IfOk result (λ text. IsLoopPicture portion report.now text.items) }
{
    let picture = picture_of(alloc, source, program, reports, report, portion)?;
    draw_loop(alloc, &picture)
}

/// What drawing a loop comes to, by its report.
fn drawn_report(
    alloc: Global,
    source: &[u8],
    program: &Program,
    reports: &[LoopReport],
    report: &LoopReport,
    portion: Portion,
) -> Result<Drawn, AllocError>
    ensures { IfOk result (DrawsReport portion report.now) }
{
    let count = arrows_of(report, portion.columns);
    if count > MOST_ARROWS {
        return Ok(Drawn::TooDense(count));
    }
    Ok(Drawn::Picture(text_of(alloc, source, program, reports, report, portion)?))
}

/// What drawing one of a program's loops comes to, by their reports.
fn drawn_loop(
    alloc: Global,
    source: &[u8],
    program: &Program,
    reports: &[LoopReport],
    portion: Portion,
) -> Result<Drawn, AllocError>
    requires { IsReported source.now (program_of program.now) reports.now }
    ensures { IfOk result (Draws source.now portion) }
{
    match report_of(reports, portion.number) {
        Some(report) => drawn_report(alloc, source, program, reports, report, portion),
        None => Ok(Drawn::NoLoop(reports.len())),
    }
}

/// What drawing one of a source's loops comes to.
///
/// # Errors
///
/// `AllocError` where memory is refused.
#[tactic(auto, using(crate::proofs::Lists::of_coded))]
pub fn draw_text(alloc: Global, source: &[u8], portion: Portion) -> Result<Drawn, AllocError>
    ensures { IfOk result (Draws source.now portion) }
{
    match prepare(alloc, source)? {
        Prepared::Coded(coded) => {
            drawn_loop(alloc, source, &coded.program, &coded.reports, portion)
        }
        Prepared::Refused(page) => Ok(Drawn::Shown(page)),
    }
}
