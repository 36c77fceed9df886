//! Arrows between iterations, one group for each dependence that is kept.

ghost use Rattle.std.specs.Prelude.{◌≡◌, ◌+◌, ◌++◌, ◌-◌, ◌<◌, ◌^◌, IfOk, OnOk};
ghost use Rattle.arrows.specs.Arrows as spec;
ghost use Rattle.arrows.specs.Markup as markup;

use crate::picture::{Advance, Arrow, LoopPicture, Row};
use crate::places::{Ends, Place, exit, row_of, tip};
use crate::style::hue;
use crate::svg::{Point, append_number};
use std::alloc::{AllocError, Global};

/// How many of so many iterations have one so far behind them among them.
pub fn starts(columns: u64, distance: u128) -> u64
    ensures { result ≡ columns - distance }
{
    let left = u128::from(columns).saturating_sub(distance);
    u64::try_from(left).unwrap_or(0)
}

pub fn append_point(out: &mut Vec<u8>, point: Point) -> Result<(), AllocError>
    ensures { OnOk result (out.new.items ≡ out.old.items ++ markup.point point) }
{
    out.extend_from_slice(b" ")?;
    append_number(out, point.x)?;
    out.extend_from_slice(b" ")?;
    append_number(out, point.y)
}

fn append_start(out: &mut Vec<u8>, from: Point) -> Result<(), AllocError>
    ensures { OnOk result (out.new.items ≡ out.old.items ++ markup.start from) }
{
    out.extend_from_slice(b"<path d=\"M")?;
    append_point(out, from)?;
    out.extend_from_slice(b" C")
}

/// Appends how an arrow goes on from where it begins.
fn append_bent(out: &mut Vec<u8>, from: Point, to: Point, bend: u128) -> Result<(), AllocError>
    requires from { (from.x + 22 < 2 ^ 128) × (from.y + bend < 2 ^ 128) }
    requires to { to.y + bend < 2 ^ 128 }
    ensures { OnOk result (out.new.items ≡ out.old.items ++ markup.bent from to bend) }
{
    append_point(
        out,
        Point {
            x: from.x + 22,
            y: from.y + bend,
        },
    )?;
    append_point(
        out,
        Point {
            x: to.x.saturating_sub(22),
            y: to.y + bend,
        },
    )?;
    append_point(out, to)
}

/// Appends an arrow from one point to another.
fn append_curve(out: &mut Vec<u8>, from: Point, to: Point, bend: u128) -> Result<(), AllocError>
    requires from { (from.x + 22 < 2 ^ 128) × (from.y + bend < 2 ^ 128) }
    requires to { to.y + bend < 2 ^ 128 }
    ensures { OnOk result (out.new.items ≡ out.old.items ++ markup.curve from to bend) }
{
    append_start(out, from)?;
    append_bent(out, from, to, bend)?;
    out.extend_from_slice(b"\"/>")
}

/// How far an arrow over so many iterations bends, so that it passes the boxes between its ends.
fn bend(distance: u128) -> u128
    ensures { result ≡ spec.bend distance }
{
    if distance <= 1 { 0 } else { 24 }
}

/// Appends the arrow between two rows that begins in an iteration and ends so many later.
fn append_arrow(
    out: &mut Vec<u8>,
    ends: Ends,
    distance: u128,
    column: u64,
) -> Result<(), AllocError>
    requires { column + distance < 2 ^ 64 }
    ensures { OnOk result (out.new.items ≡ out.old.items
        ++ spec.stroke (spec.arrow_in ends distance column)) }
{
    let column = u128::from(column);
    let from = Place {
        column,
        row: ends.source,
    };
    let to = Place {
        column: column + distance,
        row: ends.sink,
    };
    append_curve(out, exit(from), tip(to), bend(distance))
}

/// The arrows between two rows, from each of so many iterations that has one so far on.
fn strokes(alloc: Global, ends: Ends, distance: u128, columns: u64) -> Result<Vec<u8>, AllocError>
    ensures { IfOk result (λ text. text.items ≡ spec.strokes_between ends distance columns) }
{
    let mut out = Vec::new(alloc);
    for column in 0..starts(columns, distance) {
        append_arrow(&mut out, ends, distance, column)?;
    }
    Ok(out)
}

/// The first row of these, from that of an event's source on, behind which the event is advanced;
/// that of the source where there is none.
fn leaving(advances: &[Advance], event: usize, source: usize) -> usize
    ensures { result ≡ spec.leaving advances.now event source }
{
    for advance in advances {
        if advance.event == event && source <= advance.row {
            return advance.row;
        }
    }
    source
}

/// The rows of a dependence: where its event is advanced, and that of its sink's line, where both
/// its lines have one.
fn ends_of(rows: &[Row<'_>], advances: &[Advance], arrow: &Arrow) -> Option<Ends>
    ensures { result ≡ spec.ends_of rows.now advances.now arrow.now }
{
    let source = row_of(rows, arrow.source_line);
    let sink = row_of(rows, arrow.sink_line);
    match (source, sink) {
        (Some(source), Some(sink)) => Some(Ends {
            source: leaving(advances, arrow.event, source),
            sink,
        }),
        _ => None,
    }
}

/// Of each dependence, the row of its sink, from 0, if both its lines have one.
///
/// # Errors
///
/// `AllocError` where memory is refused.
pub fn sinks(alloc: Global, picture: &LoopPicture<'_>) -> Result<Vec<Option<usize>>, AllocError> {
    let mut sinks = Vec::with_capacity(alloc, picture.arrows.len())?;
    for arrow in &picture.arrows {
        sinks.push(ends_of(&picture.rows, &picture.advances, arrow).map(|ends| ends.sink))?;
    }
    Ok(sinks)
}

/// The arrows of a dependence among so many iterations.
fn strokes_of(
    alloc: Global,
    rows: &[Row<'_>],
    advances: &[Advance],
    arrow: &Arrow,
    columns: u64,
) -> Result<Vec<u8>, AllocError>
    ensures { IfOk result (λ text. text.items ≡ spec.strokes_of columns arrow.now.distance
        (spec.ends_of rows.now advances.now arrow.now)) }
{
    match ends_of(rows, advances, arrow) {
        Some(ends) => strokes(alloc, ends, arrow.distance, columns),
        None => Ok(Vec::new(alloc)),
    }
}

/// Appends the lines of a dependence.
fn append_lines(out: &mut Vec<u8>, arrow: &Arrow) -> Result<(), AllocError>
    ensures { OnOk result (out.new.items ≡ out.old.items ++ spec.lines arrow.now) }
{
    out.extend_from_slice(b"what line ")?;
    append_number(out, arrow.source_line)?;
    out.extend_from_slice(b" does in an iteration comes before line ")?;
    append_number(out, arrow.sink_line)
}

/// Appends over how many iterations a dependence goes, and by which event it is kept.
fn append_span(out: &mut Vec<u8>, arrow: &Arrow) -> Result<(), AllocError>
    ensures { OnOk result (out.new.items ≡ out.old.items ++ spec.span arrow.now) }
{
    out.extend_from_slice(b" of the iteration ")?;
    append_number(out, arrow.distance)?;
    out.extend_from_slice(b" later, by event ")?;
    append_number(out, arrow.event)
}

/// Appends what tells a dependence's hue.
fn append_hue(out: &mut Vec<u8>, arrow: &Arrow) -> Result<(), AllocError>
    ensures { OnOk result (out.new.items ≡ out.old.items ++ spec.hued arrow.now) }
{
    out.extend_from_slice(b"<g class=\"arrow hue")?;
    append_number(out, hue(arrow.event))?;
    out.extend_from_slice(b"\"><title>")
}

/// Appends the beginning of a dependence's group.
fn append_head(out: &mut Vec<u8>, arrow: &Arrow) -> Result<(), AllocError>
    ensures { OnOk result (out.new.items ≡ out.old.items ++ spec.head arrow.now) }
{
    append_hue(out, arrow)?;
    append_lines(out, arrow)?;
    append_span(out, arrow)?;
    out.extend_from_slice(b"</title>")?;
    Ok(())
}

/// The group of a dependence among so many iterations.
fn group(
    alloc: Global,
    rows: &[Row<'_>],
    advances: &[Advance],
    arrow: &Arrow,
    columns: u64,
) -> Result<Vec<u8>, AllocError>
    ensures { IfOk result (λ text. text.items
        ≡ spec.group columns rows.now advances.now arrow.now) }
{
    let mut out = Vec::new(alloc);
    append_head(&mut out, arrow)?;
    let strokes = strokes_of(alloc, rows, advances, arrow, columns)?;
    out.extend_from_slice(&strokes)?;
    out.extend_from_slice(b"</g>\n")?;
    Ok(out)
}

/// The groups of dependences, one after another.
fn groups(
    alloc: Global,
    rows: &[Row<'_>],
    advances: &[Advance],
    arrows: &[Arrow],
    columns: u64,
) -> Result<Vec<u8>, AllocError>
    ensures { IfOk result (λ text. text.items
        ≡ spec.groups columns rows.now advances.now arrows.now) }
{
    let mut out = Vec::new(alloc);
    for arrow in arrows {
        let group = group(alloc, rows, advances, arrow, columns)?;
        out.extend_from_slice(&group)?;
    }
    Ok(out)
}

/// From the last row of an iteration to the first one of the next.
fn in_turn(rows: &[Row<'_>]) -> Ends
    ensures { result ≡ spec.in_turn rows.now }
{
    Ends {
        source: rows.len().saturating_sub(1),
        sink: 0,
    }
}

/// What shows that iterations go one after another.
fn order(alloc: Global, rows: &[Row<'_>], columns: u64) -> Result<Vec<u8>, AllocError>
    ensures { IfOk result (λ text. text.items ≡ spec.one_by_one columns rows.now) }
{
    let mut out = Vec::new(alloc);
    out.extend_from_slice(b"<g class=\"order\"><title>one iteration after another</title>")?;
    let strokes = strokes(alloc, in_turn(rows), 1, columns)?;
    out.extend_from_slice(&strokes)?;
    out.extend_from_slice(b"</g>\n")?;
    Ok(out)
}

/// The order of a loop's iterations, where it stays serial.
fn order_of(alloc: Global, picture: &LoopPicture<'_>) -> Result<Vec<u8>, AllocError>
    ensures { IfOk result (λ text. text.items ≡ spec.order picture.now) }
{
    match &picture.serial {
        Some(_) => order(alloc, &picture.rows, picture.columns),
        None => Ok(Vec::new(alloc)),
    }
}

/// The arrows of a loop's picture, as elements of an SVG file.
///
/// # Errors
///
/// `AllocError` where memory is refused.
pub fn arrows_of(alloc: Global, picture: &LoopPicture<'_>) -> Result<Vec<u8>, AllocError>
    ensures { IfOk result (λ text. text.items ≡ spec.arrows picture.now) }
{
    let mut out = order_of(alloc, picture)?;
    let LoopPicture {
        rows,
        advances,
        arrows,
        columns,
        ..
    } = picture;
    let groups = groups(alloc, rows, advances, arrows, *columns)?;
    out.extend_from_slice(&groups)?;
    Ok(out)
}
