//! What standard error says of loops that stay serial.

use ast::{Line, MOST_EVENTS, Name, Program};
use codegen::LoopReport;
use dependence::{LoopPlan, SerialReason};
use loop_tree::{LoopTree, LoopView, loops};
use placement::{first_read, first_shared, first_sources};
use places::{Place, Visible};
use std::alloc::{AllocError, Global};
use std::fmt::{Display, Formatter, Result as FmtResult, Write};

/// What keeps a loop serial.
#[derive(Drop)]
pub enum Hindrance {
    /// The step is 0.
    ZeroStep,
    /// The step is no constant.
    NoConstant,
    /// There is a READ in this line.
    Read(Line),
    /// The variable of the DO in this line isn't private.
    Variable { name: Name, line: Line },
    /// More statements are sources than there may be events: the lines of the first ones, one more
    /// than there may be events.
    Sources(Vec<Line>),
    /// The loop whose DO is in this line may be open.
    Outer(Line),
    /// The check refused the plan.
    Refused,
}

impl Hindrance {
    /// The line of the statement that is in the way, if one is: in the range of the loop; its own
    /// DO, which stands in this line; or the DO of a loop around it.
    pub fn line(&self, own: Line) -> Option<Line> {
        match self {
            Hindrance::ZeroStep | Hindrance::NoConstant => Some(own),
            Hindrance::Read(line) | Hindrance::Variable { line, .. } | Hindrance::Outer(line) => {
                Some(*line)
            }
            Hindrance::Sources(lines) => lines.last().copied(),
            Hindrance::Refused => None,
        }
    }

    /// The line of the DO around it that is in the way, if one is.
    pub fn around(&self) -> Option<Line> {
        match self {
            Hindrance::Outer(line) => Some(*line),
            _ => None,
        }
    }

    /// The lines of its first sources, if there are too many.
    pub fn sources(&self) -> &[Line] {
        match self {
            Hindrance::Sources(lines) => lines,
            _ => &[],
        }
    }
}

impl Display for Hindrance {
    fn fmt<W: Write>(&self, f: &mut Formatter<W>) -> FmtResult {
        match self {
            Hindrance::ZeroStep => f.write_str("its step is 0"),
            Hindrance::NoConstant => f.write_str("its step is no constant"),
            Hindrance::Read(line) => write!(f, "there is a READ in line {line}"),
            Hindrance::Variable { name, line } => {
                write!(
                    f,
                    "{}, the variable of the DO in line {line}, may be used before that DO sets it",
                    Visible::new(name.trimmed())
                )
            }
            Hindrance::Sources(lines) => write_sources(f, lines),
            Hindrance::Outer(line) => {
                write!(
                    f,
                    "iterations of the loop in line {line} around it may overlap"
                )
            }
            Hindrance::Refused => f.write_str("the check refused its plan"),
        }
    }
}

fn write_sources<W: Write>(f: &mut Formatter<W>, lines: &[Line]) -> FmtResult {
    write!(
        f,
        "later iterations wait for more than {MOST_EVENTS} of its statements"
    )?;
    match lines.last() {
        Some(line) => write!(f, "; the {}th is in line {line}", lines.len()),
        None => Ok(()),
    }
}

/// Of the loops around a loop, that which may be open.
fn outer_of(view: &LoopView<'_, '_>, reports: &[LoopReport]) -> Option<Hindrance> {
    let mut outer = view.around();
    let mut number = view.outer();
    for _ in 0..view.count() {
        let (Some(around), Some(place)) = (outer, number) else {
            return None;
        };
        if let Some(report) = reports.get(place.wrapping_sub(1)) {
            if let LoopPlan::Body { .. } | LoopPlan::Serial(SerialReason::Refused) = report.plan {
                return Some(Hindrance::Outer(report.line));
            }
        }
        number = around.outer();
        outer = around.around();
    }
    None
}

/// What keeps the loop of a view serial, for a reason, by the lines of the program's statements.
fn hindrance_in(
    alloc: Global,
    reason: SerialReason,
    view: &LoopView<'_, '_>,
    lines: &[Line],
    reports: &[LoopReport],
) -> Result<Option<Hindrance>, AllocError> {
    Ok(match reason {
        SerialReason::NoStep => match view.step() {
            Some(_) => Some(Hindrance::ZeroStep),
            None => Some(Hindrance::NoConstant),
        },
        SerialReason::Reads => first_read(view).map(Hindrance::Read),
        SerialReason::SharedVariable => {
            first_shared(alloc, view)?.map(|(name, line)| Hindrance::Variable { name, line })
        }
        SerialReason::ManySources => {
            Some(Hindrance::Sources(first_sources(alloc, view, lines)?))
        }
        SerialReason::Inside => outer_of(view, reports),
        SerialReason::Refused => Some(Hindrance::Refused),
    })
}

/// What keeps the loop of a number serial, for a reason; the reports are those of the program's
/// loops.
///
/// # Errors
///
/// `AllocError` where memory is refused.
pub fn hindrance_of(
    alloc: Global,
    tree: &LoopTree<'_>,
    number: usize,
    reason: SerialReason,
    reports: &[LoopReport],
) -> Result<Option<Hindrance>, AllocError> {
    if number < 1 || number > tree.count() {
        return Ok(None);
    }
    hindrance_in(alloc, reason, &tree.view(number), tree.lines(), reports)
}

/// Says of a loop on standard error what keeps it serial.
fn say<R: Eprint + AllocGlobal>(
    rt: &R,
    file: &str,
    tree: &LoopTree<'_>,
    number: usize,
    report: &LoopReport,
    reports: &[LoopReport],
) {
    let LoopPlan::Serial(reason) = report.plan else {
        return;
    };
    if let Ok(Some(hindrance)) = hindrance_of(rt.alloc(), tree, number, reason, reports) {
        let line = report.line;
        let _ = eprintln!(rt; "{}serial: {hindrance}", Place { file, line });
    }
}

/// Says of each loop that stays serial, in a line of standard error, what is in the way. The
/// reports are those of the program's loops.
pub fn say_why_serial<R: Eprint + AllocGlobal>(
    rt: &R,
    file: &str,
    program: &Program,
    reports: &[LoopReport],
) {
    if let Ok(tree) = loops(rt.alloc(), program) {
        for (place, report) in reports.iter().enumerate() {
            say(rt, file, &tree, place.saturating_add(1), report, reports);
        }
    }
}
