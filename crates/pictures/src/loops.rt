//! What there is to draw of a loop, by its source, its plan and what is reported of it.

ghost use Rattle.std.specs.Prelude.{◌≡◌, [], IfOk, Some, option_map};
ghost use Rattle.pictures.specs.Dependences as spec;
ghost use Rattle.pictures.specs.Dependences.{AreArrows};
ghost use Rattle.pictures.specs.Looks.{AreMarked, Marks};

use crate::sketch::{Sketch, add_plan, add_range, look_of};
use crate::source_text::statement_of;
use arrows::{Arrow, Look, LoopPicture, Space, Statement};
use ast::{Line, Name, Node};
use dependence::PlanStmt;
use std::alloc::{AllocError, Global};

/// A loop of which iterations may overlap.
#[derive(Clone, Copy)]
pub struct OpenLoop<'r> {
    /// The body of its plan.
    pub body: &'r [PlanStmt],
    /// Its private scalars.
    pub privates: &'r [Name],
    /// The line of each event's source; the first event has the number 1.
    pub sources: &'r [Line],
    /// What is awaited, by sink, event and distance: an event, over how many iterations, and the
    /// sink's line.
    pub kept: &'r [(usize, u128, Line)],
}

/// A loop that stays serial.
#[derive(Clone, Copy)]
pub struct SerialLoop<'r> {
    pub range: &'r [Node],
    /// What keeps it serial, as a sentence.
    pub reason: &'r [u8],
    /// The line of the statement that does, if one does: of its range, its own DO, or one around
    /// it.
    pub hindered: Option<Line>,
    /// The line of the DO around it that does, if one does.
    pub around: Option<Line>,
    /// The lines of its first sources, where there are too many.
    pub sources: &'r [Line],
}

/// Which loop is drawn, and how much of it.
#[derive(Clone, Copy)]
pub struct Frame {
    /// The loop's number, from 1.
    pub number: usize,
    /// The line of its DO.
    pub line: Line,
    /// How many iterations are drawn, 1 to 64.
    pub columns: u64,
    /// How many iterations the loop has, where that is known.
    pub trips: Option<u128>,
}

/// The line of an event's source.
fn line_of(sources: &[Line], event: usize) -> Line
    ensures { result ≡ spec.source_line sources.now event }
{
    sources.get(event.saturating_sub(1)).copied().unwrap_or(0)
}

/// The dependences that are kept.
fn arrows(
    alloc: Global,
    sources: &[Line],
    kept: &[(usize, u128, Line)],
) -> Result<Vec<Arrow>, AllocError>
    ensures { IfOk result (λ arrows. AreArrows sources.now kept.now arrows.items) }
{
    let mut arrows = Vec::with_capacity(alloc, kept.len())?;
    for (event, distance, sink_line) in kept {
        arrows.push(Arrow {
            event: *event,
            distance: *distance,
            source_line: line_of(sources, *event),
            sink_line: *sink_line,
        })?;
    }
    Ok(arrows)
}

/// Private names in byte order.
fn in_order(alloc: Global, names: &[Name]) -> Result<Vec<Name>, AllocError> {
    let mut sorted = Vec::from_slice(alloc, names)?;
    sorted.sort_unstable();
    Ok(sorted)
}

/// What there is to draw of a loop of which iterations may overlap, by the lines of its source.
///
/// # Errors
///
/// `AllocError` where memory is refused.
pub fn open_picture<'a>(
    alloc: Global,
    lines: Vec<&'a [u8]>,
    frame: Frame,
    opened: OpenLoop<'_>,
    space: Option<Space>,
) -> Result<LoopPicture<'a>, AllocError>
    ensures frame { IfOk result (λ p. (p.number ≡ frame.number) × (p.line ≡ frame.line) ×
        (p.columns ≡ frame.columns)) }
    ensures arrows { IfOk result
        (λ p. AreArrows opened.entry.sources.now opened.entry.kept.now p.arrows.items) }
    ensures space { IfOk result (λ p. p.space ≡ space) }
{
    let Frame {
        number,
        line,
        columns,
        trips,
    } = frame;
    let head = statement_of(&lines, line);
    let mut sketch = Sketch::new(alloc, lines, None, Vec::new(alloc));
    add_plan(&mut sketch, opened.body, 0)?;
    let Sketch { rows, advances, .. } = sketch;
    let arrows = arrows(alloc, opened.sources, opened.kept)?;
    Ok(LoopPicture {
        number,
        line,
        head,
        look: Look::Plain,
        around: None,
        rows,
        arrows,
        advances,
        privates: in_order(alloc, opened.privates)?,
        serial: None,
        columns,
        trips,
        space,
    })
}

/// The DO of the line of a loop around, if there is one.
fn around<'a>(lines: &[&'a [u8]], line: Option<Line>) -> Option<Statement<'a>>
    ensures { option_map (λ s. s.line) result ≡ line }
{
    match line {
        Some(line) => Some(statement_of(lines, line)),
        None => None,
    }
}

/// The rows of a loop that stays serial.
fn serial_sketch<'a>(
    alloc: Global,
    lines: Vec<&'a [u8]>,
    serial: SerialLoop<'_>,
) -> Result<Sketch<'a>, AllocError>
    ensures { IfOk result (λ sketch.
        AreMarked serial.entry.hindered serial.entry.sources.now sketch.rows.items) }
{
    let sources = Vec::from_slice(alloc, serial.sources)?;
    let mut sketch = Sketch::new(alloc, lines, serial.hindered, sources);
    add_range(&mut sketch, serial.range, 0)?;
    Ok(sketch)
}

/// What there is to draw of a loop that stays serial, by the lines of its source.
///
/// # Errors
///
/// `AllocError` where memory is refused.
pub fn serial_picture<'a>(
    alloc: Global,
    lines: Vec<&'a [u8]>,
    frame: Frame,
    serial: SerialLoop<'_>,
    space: Option<Space>,
) -> Result<LoopPicture<'a>, AllocError>
    ensures frame { IfOk result (λ p. (p.number ≡ frame.number) × (p.line ≡ frame.line) ×
        (p.columns ≡ frame.columns)) }
    ensures arrows { IfOk result (λ p. p.arrows.items ≡ []) }
    ensures marks { IfOk result
        (Marks serial.entry.hindered serial.entry.around serial.entry.sources.now) }
    ensures reason { IfOk result
        (λ p. option_map (λ v. v.items) p.serial ≡ Some serial.entry.reason.now) }
    ensures space { IfOk result (λ p. p.space ≡ space) }
{
    let Frame {
        number,
        line,
        columns,
        trips,
    } = frame;
    let head = statement_of(&lines, line);
    let around = around(&lines, serial.around);
    let Sketch { rows, advances, .. } = serial_sketch(alloc, lines, serial)?;
    Ok(LoopPicture {
        number,
        line,
        head,
        look: look_of(line, serial.hindered),
        around,
        rows,
        arrows: Vec::new(alloc),
        advances,
        privates: Vec::new(alloc),
        serial: Some(Vec::from_slice(alloc, serial.reason)?),
        columns,
        trips,
        space,
    })
}
