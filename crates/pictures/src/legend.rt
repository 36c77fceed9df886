//! What is said below the picture of a loop.

use crate::drawing::add_words;
use crate::layout::{above, beside};
use crate::marks::class_of;
use crate::points::depth;
use arrows::{Arrow, LoopPicture, Mark, Point, bottom, grid_of};
use std::alloc::{AllocError, Global};

/// How many dependences are told in words.
const TOLD: usize = 12;
/// How far two lines are apart.
const PITCH: u128 = 22;
/// Where lines begin.
const LEFT: u128 = 20;

/// The lines that have been written, and those to come.
#[derive(Clone, Copy)]
pub struct Pen {
    /// Where the last line stands, from the top.
    pub y: u128,
}

impl Pen {
    /// Where the next line begins.
    pub fn next(&mut self) -> Point {
        self.y = self.y.saturating_add(PITCH);
        Point { x: LEFT, y: self.y }
    }
}

/// Adds what the marks of a kind mean, with one of them.
fn add_meaning(
    alloc: Global,
    marks: &mut Vec<Mark>,
    pen: &mut Pen,
    kind: &'static [u8],
    meaning: &[u8],
) -> Result<(), AllocError> {
    let at = pen.next();
    let disc = above(beside(at, 8), 4);
    let title = Vec::from_slice(alloc, meaning)?;
    marks.push(Mark::Disc(class_of(kind, 1), disc, 1, title))?;
    add_words(alloc, marks, b"faint", beside(at, 24), meaning)
}

/// How many iterations later a sink comes.
fn later(alloc: Global, distance: u128) -> Result<String, AllocError> {
    match distance {
        1 => format!(in alloc; " of the next iteration"),
        _ => format!(in alloc; ", {distance} iterations later"),
    }
}

/// What is said of a dependence of which no arrow is seen among so many iterations.
fn unseen(arrow: &Arrow, columns: u64) -> &'static str {
    if arrow.distance < u128::from(columns) {
        ""
    } else {
        " (beyond what is drawn)"
    }
}

/// A dependence in words.
fn told_of(alloc: Global, arrow: &Arrow, columns: u64) -> Result<Vec<u8>, AllocError> {
    let Arrow {
        event,
        source_line,
        sink_line,
        ..
    } = arrow;
    let later = later(alloc, arrow.distance)?;
    let unseen = unseen(arrow, columns);
    let told = format!(in alloc;
        "event {event}: line {source_line} comes before line {sink_line}{later}{unseen}"
    )?;
    Ok(told.into_bytes())
}

/// Adds a dependence in words.
fn add_told(
    alloc: Global,
    marks: &mut Vec<Mark>,
    pen: &mut Pen,
    arrow: &Arrow,
    columns: u64,
) -> Result<(), AllocError> {
    let told = told_of(alloc, arrow, columns)?;
    Ok(marks.push(Mark::Words(class_of(b"told", arrow.event), pen.next(), told))?)
}

fn add_all_told(
    alloc: Global,
    marks: &mut Vec<Mark>,
    pen: &mut Pen,
    arrows: &[Arrow],
    columns: u64,
) -> Result<(), AllocError> {
    for arrow in arrows.iter().take(TOLD) {
        add_told(alloc, marks, pen, arrow, columns)?;
    }
    match arrows.len().saturating_sub(TOLD) {
        0 => Ok(()),
        more => add_more(alloc, marks, pen, more),
    }
}

/// Adds how many dependences more there are.
fn add_more(
    alloc: Global,
    marks: &mut Vec<Mark>,
    pen: &mut Pen,
    more: usize,
) -> Result<(), AllocError> {
    let told = format!(in alloc; "and {more} more")?;
    add_words(alloc, marks, b"faint", pen.next(), told.as_bytes())
}

/// Whether more iterations are drawn than the loop has.
fn is_short(picture: &LoopPicture<'_>) -> bool {
    picture
        .trips
        .is_some_and(|trips| trips < u128::from(picture.columns))
}

/// Adds how many iterations the loop has, where more are drawn.
fn add_trips(
    alloc: Global,
    marks: &mut Vec<Mark>,
    pen: &mut Pen,
    picture: &LoopPicture<'_>,
) -> Result<(), AllocError> {
    match picture.trips {
        Some(trips) if is_short(picture) => {
            let told = format!(in alloc;
                "iterations of the loop: {trips}; the others show how it would go on"
            )?;
            add_words(alloc, marks, b"faint", pen.next(), told.as_bytes())
        }
        _ => Ok(()),
    }
}

/// Whether sources are counted.
fn is_counted(picture: &LoopPicture<'_>) -> bool {
    picture.rows.iter().any(|row| row.counted.is_some())
}

/// Adds what is said below the picture of a loop that stays serial.
fn add_serial(
    alloc: Global,
    marks: &mut Vec<Mark>,
    pen: &mut Pen,
    picture: &LoopPicture<'_>,
) -> Result<(), AllocError> {
    if is_counted(picture) {
        let told =
            b"the numbers count the statements that later iterations wait for, up to the one too many";
        add_words(alloc, marks, b"faint", pen.next(), told)?;
    }
    let told = b"each iteration begins when the one before has ended";
    add_words(alloc, marks, b"faint", pen.next(), told)
}

/// Where that ends which stands above, from the top.
fn foot(picture: &LoopPicture<'_>) -> u128 {
    match &picture.space {
        Some(space) => grid_of(picture, space).top.saturating_add(depth(space)),
        None => bottom(picture.rows.len()),
    }
}

/// Adds what is said below the picture of a loop.
pub fn add_legend(
    alloc: Global,
    marks: &mut Vec<Mark>,
    picture: &LoopPicture<'_>,
) -> Result<(), AllocError> {
    let mut pen = Pen { y: foot(picture) };
    add_trips(alloc, marks, &mut pen, picture)?;
    if picture.serial.is_some() {
        return add_serial(alloc, marks, &mut pen, picture);
    }
    if picture.arrows.is_empty() {
        let told = b"no iteration waits for another one";
        return add_words(alloc, marks, b"faint", pen.next(), told);
    }
    let told =
        b"here an iteration waits until the one where the arrow begins has advanced this event";
    add_meaning(alloc, marks, &mut pen, b"await", told)?;
    let told = b"here it advances this event, as what a later one waits for is done";
    add_meaning(alloc, marks, &mut pen, b"advance", told)?;
    add_all_told(alloc, marks, &mut pen, &picture.arrows, picture.columns)
}

/// How high the picture of a loop is with what is said below it.
pub fn height(picture: &LoopPicture<'_>) -> u128 {
    let told = picture.arrows.len().min(TOLD.saturating_add(1)) as u128;
    let lines = told
        .saturating_add(3)
        .saturating_add(u128::from(is_short(picture)));
    foot(picture).saturating_add(PITCH.saturating_mul(lines))
}
