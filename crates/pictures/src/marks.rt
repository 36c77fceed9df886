//! Where iterations wait, and where they tell that they have come so far.

use crate::layout::{below, beside};
use arrows::{Advance, Arrow, Class, Mark, Point, entry, exit, hue, place_in};
use std::alloc::{AllocError, Global};

/// How far two marks of one box are apart, and how far a second line of them is below the first.
const APART: u128 = 19;

const BELOW: u128 = 20;
/// How many marks of one box there are in a line, and how many are drawn.
const ACROSS: u128 = 3;

const DRAWN: u128 = 6;

/// How far the mark behind so many others of its box stands from where the first one is.
fn offset(before: u128) -> Point {
    let line = before.min(DRAWN).wrapping_div(ACROSS).min(1);
    let place = before
        .min(DRAWN)
        .saturating_sub(ACROSS.saturating_mul(line));
    Point {
        x: APART.saturating_mul(place),
        y: BELOW.saturating_mul(line),
    }
}

/// Adds a disc behind so many others of its box; for those that have no room there are two full
/// stops.
fn add_disc(
    alloc: Global,
    marks: &mut Vec<Mark>,
    at: Point,
    disc: Mark,
    before: u128,
) -> Result<(), AllocError> {
    if before < DRAWN {
        return Ok(marks.push(disc)?);
    }
    if before == DRAWN {
        let words = Vec::from_slice(alloc, b"..")?;
        marks.push(Mark::Words(Class::plain(b"middle"), at, words))?;
    }
    Ok(())
}

/// The class of an event's marks.
pub fn class_of(name: &'static [u8], event: usize) -> Class {
    Class {
        name,
        hue: Some(hue(event)),
    }
}

/// Adds the mark of what is awaited in a row of an iteration, behind so many others.
fn add_awaited(
    alloc: Global,
    marks: &mut Vec<Mark>,
    arrow: &Arrow,
    row: usize,
    before: u128,
    column: u64,
) -> Result<(), AllocError> {
    let Arrow {
        event,
        distance,
        sink_line,
        ..
    } = *arrow;
    let title = format!(in alloc;
        "before line {sink_line} it awaits event {event} of the iteration {distance} before"
    )?;
    let Point { x, y } = offset(before);
    let at = below(beside(entry(place_in(column, row)), x), y);
    let disc = Mark::Disc(class_of(b"await", event), at, event, title.into_bytes());
    add_disc(alloc, marks, at, disc, before)
}

/// Adds what an iteration waits for that others do, by the rows of the sinks; what one sink awaits
/// stands together. The first iterations have no such one before them.
pub fn add_awaits(
    alloc: Global,
    marks: &mut Vec<Mark>,
    arrows: &[Arrow],
    sinks: &[Option<usize>],
    column: u64,
) -> Result<(), AllocError> {
    let mut before = 0u128;
    let mut last = None;
    for (arrow, sink) in arrows.iter().zip(sinks) {
        if arrow.distance > u128::from(column) {
            continue;
        }
        if let Some(row) = *sink {
            before = if last == Some(row) {
                before.saturating_add(1)
            } else {
                0
            };
            last = Some(row);
            add_awaited(alloc, marks, arrow, row, before, column)?;
        }
    }
    Ok(())
}

/// Adds the mark of an advance in an iteration, behind so many others.
fn add_advanced(
    alloc: Global,
    marks: &mut Vec<Mark>,
    advance: Advance,
    before: u128,
    column: u64,
) -> Result<(), AllocError> {
    let Advance { event, row } = advance;
    let title = format!(in alloc; "it advances event {event}")?;
    let edge = exit(place_in(column, row));
    let Point { x, y } = offset(before);
    let at = Point {
        x: edge.x.saturating_sub(x),
        y: edge.y.saturating_add(y),
    };
    let disc = Mark::Disc(class_of(b"advance", event), at, event, title.into_bytes());
    add_disc(alloc, marks, at, disc, before)
}

/// Adds what is advanced in an iteration, of which those of one row stand together.
pub fn add_advances(
    alloc: Global,
    marks: &mut Vec<Mark>,
    advances: &[Advance],
    column: u64,
) -> Result<(), AllocError> {
    let mut before = 0u128;
    let mut last = None;
    for advance in advances {
        before = if last == Some(advance.row) {
            before.saturating_add(1)
        } else {
            0
        };
        last = Some(advance.row);
        add_advanced(alloc, marks, *advance, before, column)?;
    }
    Ok(())
}
