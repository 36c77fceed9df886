//! The picture of a loop.

ghost use Rattle.std.specs.Prelude.{◌≡◌, ◌++◌, IfOk, OnOk};
ghost use Rattle.arrows.specs.Markup as markup;
ghost use Rattle.arrows.specs.Vectors.{vectors};
ghost use Rattle.arrows.specs.Arrows.{arrows as arrows_in};
ghost use Rattle.pictures.specs.Drawn.{IsDrawn};

use crate::layout::{above, below, beside};
use crate::legend::{add_legend, height};
use crate::marks::{add_advances, add_awaits};
use crate::points::add_space;
use arrows::{
    BOX, Class, Counted, Look, LoopPicture, Mark, Place, Point, Row, SHEET, Size, Statement,
    append_marks, arrows_of, corner, exit, opening, place_in, sinks, vectors_of, width,
};
use ast::{Line, Name};
use std::alloc::{AllocError, Global};

/// How many characters of a statement have room beside the boxes.
const SHOWN: usize = 36;
/// How many characters of a statement a line has at most.
const WHOLE: usize = 66;
/// How many of them go for each loop or IF around it.
const INDENT: usize = 2;
/// At how many loops and IFs it is moved no further to the right.
const DEEPEST: u64 = 8;
/// How many private names are shown.
const NAMED: usize = 10;
/// How wide a picture is at least, so that what is said above and below has room.
const NARROWEST: u128 = 800;

/// How many characters of a statement are shown in so many loops and IFs.
fn room(depth: u64) -> usize {
    SHOWN.saturating_sub(INDENT.saturating_mul(depth.min(DEEPEST) as usize))
}

/// A statement's text, of which so many characters are shown; two full stops say that it goes on.
fn cut(alloc: Global, text: &[u8], room: usize, goes_on: bool) -> Result<Vec<u8>, AllocError> {
    let mut shown = Vec::from_slice(alloc, text.get(..room).unwrap_or(text))?;
    if goes_on || text.len() > room {
        shown.extend_from_slice(b" ..")?;
    }
    Ok(shown)
}

/// Private names, one behind another: the first ones, and how many more there are.
fn private(alloc: Global, names: &[Name]) -> Result<Vec<u8>, AllocError> {
    let mut text = Vec::new(alloc);
    if names.is_empty() {
        return Ok(text);
    }
    text.extend_from_slice(b"each iteration has its own")?;
    for name in names.iter().take(NAMED) {
        text.extend_from_slice(b" ")?;
        text.extend_from_slice(name.trimmed())?;
    }
    if names.len() > NAMED {
        let more = names.len().saturating_sub(NAMED);
        let told = format!(in alloc; " and {more} more")?;
        text.extend_from_slice(told.as_bytes())?;
    }
    Ok(text)
}

/// How wide so many iterations are, or as far as the narrowest picture has room.
fn across(columns: u64) -> u128 {
    let left = corner(place_in(0, 0)).x;
    let right = exit(place_in(columns.saturating_sub(1), 0)).x;
    right.max(NARROWEST.saturating_sub(20)).saturating_sub(left)
}

/// Adds words at a point.
pub fn add_words(
    alloc: Global,
    marks: &mut Vec<Mark>,
    class: &'static [u8],
    at: Point,
    words: &[u8],
) -> Result<(), AllocError> {
    let words = Vec::from_slice(alloc, words)?;
    Ok(marks.push(Mark::Words(Class::plain(class), at, words))?)
}

/// Adds a statement's text, as far as it has room beside the boxes.
fn add_statement(
    alloc: Global,
    marks: &mut Vec<Mark>,
    class: &'static [u8],
    at: Point,
    statement: &Statement<'_>,
    room: usize,
) -> Result<(), AllocError> {
    let text = cut(alloc, statement.text, room, statement.goes_on)?;
    add_words(alloc, marks, class, at, &text)
}

/// What the box says of itself that shows the whole iteration of a loop around it.
fn title_around(alloc: Global, line: Line) -> Result<Vec<u8>, AllocError> {
    let title = format!(in alloc; "each iteration of the loop in line {line} has all of these")?;
    Ok(title.into_bytes())
}

/// Adds the DO of the loop around it that is in the way, the whole of whose iteration a box shows.
fn add_around(
    alloc: Global,
    marks: &mut Vec<Mark>,
    picture: &LoopPicture<'_>,
    around: &Statement<'_>,
    reason: &[u8],
) -> Result<(), AllocError> {
    let top = Point { x: 20, y: 52 };
    add_statement(alloc, marks, b"code marked", top, around, SHOWN)?;
    let inner = Point { x: 38, y: 74 };
    add_statement(alloc, marks, b"code", inner, &picture.head, SHOWN)?;
    let at = corner(place_in(0, 0));
    let corner = Point { x: at.x, y: 37 };
    let size = Size {
        width: across(picture.columns),
        height: BOX.height,
    };
    let title = title_around(alloc, around.line)?;
    marks.push(Mark::Tile(Class::plain(b"marked"), corner, size, title))?;
    let inside = beside(Point { x: at.x, y: 52 }, 10);
    add_words(alloc, marks, b"reason", inside, reason)
}

/// Adds the DO of a loop, and below it why it stays serial or what each iteration has of its own.
fn add_head(
    alloc: Global,
    marks: &mut Vec<Mark>,
    picture: &LoopPicture<'_>,
) -> Result<(), AllocError> {
    let class = classes(picture.look).1;
    let top = Point { x: 20, y: 52 };
    add_statement(alloc, marks, class, top, &picture.head, WHOLE)?;
    let below = Point { x: 20, y: 74 };
    match &picture.serial {
        Some(reason) => add_words(alloc, marks, b"reason", below, reason),
        None => {
            let names = private(alloc, &picture.privates)?;
            add_words(alloc, marks, b"private", below, &names)
        }
    }
}

/// Adds which loop it is.
fn add_top(
    alloc: Global,
    marks: &mut Vec<Mark>,
    picture: &LoopPicture<'_>,
) -> Result<(), AllocError> {
    let LoopPicture { number, line, .. } = picture;
    let says = match &picture.serial {
        Some(_) => "stays serial",
        None => "iterations may overlap",
    };
    let heading = format!(in alloc; "Loop {number}, line {line}: {says}")?;
    let top = Point { x: 20, y: 30 };
    add_words(alloc, marks, b"heading", top, heading.as_bytes())
}

/// Adds what is said above the rows.
fn add_heading(
    alloc: Global,
    marks: &mut Vec<Mark>,
    picture: &LoopPicture<'_>,
) -> Result<(), AllocError> {
    add_top(alloc, marks, picture)?;
    match (&picture.around, &picture.serial) {
        (Some(around), Some(reason)) => add_around(alloc, marks, picture, around, reason),
        _ => add_head(alloc, marks, picture),
    }
}

/// The classes of a row's boxes, and of its text.
fn classes(look: Look) -> (&'static [u8], &'static [u8]) {
    match look {
        Look::Plain => (b"box", b"code"),
        Look::Marked => (b"marked", b"code marked"),
        Look::Made => (b"made", b"code made"),
        Look::End => (b"box", b"code made"),
    }
}

/// Adds the number of a line.
fn add_line(alloc: Global, marks: &mut Vec<Mark>, at: Point, line: Line) -> Result<(), AllocError> {
    let told = format!(in alloc; "{line}")?;
    add_words(alloc, marks, b"faint right", at, told.as_bytes())
}

/// Adds what stands to the left of a row's boxes.
fn add_label(
    alloc: Global,
    marks: &mut Vec<Mark>,
    number: usize,
    row: &Row<'_>,
) -> Result<(), AllocError> {
    let y = corner(place_in(0, number)).y.saturating_add(15);
    if row.look.is_in_source() {
        add_line(alloc, marks, Point { x: 44, y }, row.line)?;
    }
    let depth = u128::from(row.depth.min(DEEPEST));
    let x = 56u128.saturating_add(depth.saturating_mul(14));
    let text = cut(alloc, row.text, room(row.depth), row.goes_on)?;
    add_words(alloc, marks, classes(row.look).1, Point { x, y }, &text)
}

fn add_labels(alloc: Global, marks: &mut Vec<Mark>, rows: &[Row<'_>]) -> Result<(), AllocError> {
    for (number, row) in rows.iter().enumerate() {
        add_label(alloc, marks, number, row)?;
    }
    Ok(())
}

/// Adds to the box of a row the numbers of the sources in it, where they are counted.
fn add_numbers(
    alloc: Global,
    marks: &mut Vec<Mark>,
    row: &Row<'_>,
    place: Place,
) -> Result<(), AllocError> {
    let Some(Counted { first, last }) = row.counted else {
        return Ok(());
    };
    let numbers = if first < last {
        format!(in alloc; "{first}, {last}")?
    } else {
        format!(in alloc; "{last}")?
    };
    let at = below(beside(corner(place), BOX.width.wrapping_div(2)), 15);
    add_words(alloc, marks, b"count", at, numbers.as_bytes())
}

/// What the box of a row in an iteration says of itself.
fn title_of(alloc: Global, row: &Row<'_>, iteration: u64) -> Result<Vec<u8>, AllocError> {
    let Row { line, .. } = row;
    let title = match row.look {
        Look::Made => {
            format!(in alloc; "iteration {iteration}: ELSE made for the IF of line {line}")?
        }
        Look::End => {
            format!(in alloc; "iteration {iteration}: the end of what begins in line {line}")?
        }
        Look::Plain | Look::Marked => format!(in alloc; "iteration {iteration}: line {line}")?,
    };
    Ok(title.into_bytes())
}

/// How the box of a row looks in an iteration that the loop has, or has not.
fn box_class(look: Look, has: bool) -> Class {
    if has {
        Class::plain(classes(look).0)
    } else {
        Class::plain(b"beyond")
    }
}

/// Adds the boxes of an iteration, which the loop has or has not.
fn add_boxes(
    alloc: Global,
    marks: &mut Vec<Mark>,
    rows: &[Row<'_>],
    column: u64,
    has: bool,
) -> Result<(), AllocError> {
    for (number, row) in rows.iter().enumerate() {
        let title = title_of(alloc, row, column)?;
        let class = box_class(row.look, has);
        marks.push(Mark::Tile(class, corner(place_in(column, number)), BOX, title))?;
        add_numbers(alloc, marks, row, place_in(column, number))?;
    }
    Ok(())
}

/// Whether the loop has an iteration behind so many, as far as that is known.
pub fn has_iteration(picture: &LoopPicture<'_>, column: u64) -> bool {
    picture
        .trips
        .map_or(true, |trips| u128::from(column) < trips)
}

/// Adds the number of an iteration, which the loop has or has not.
fn add_above(
    alloc: Global,
    marks: &mut Vec<Mark>,
    at: Point,
    number: u64,
    has: bool,
) -> Result<(), AllocError> {
    let told = if has {
        format!(in alloc; "iteration {number}")?
    } else {
        format!(in alloc; "(iteration {number})")?
    };
    add_words(alloc, marks, b"faint middle", at, told.as_bytes())
}

/// Adds an iteration.
fn add_column(
    alloc: Global,
    marks: &mut Vec<Mark>,
    picture: &LoopPicture<'_>,
    column: u64,
) -> Result<(), AllocError> {
    let head = corner(place_in(column, 0));
    let at = above(beside(head, BOX.width.wrapping_div(2)), 14);
    let has = has_iteration(picture, column);
    add_above(alloc, marks, at, column, has)?;
    add_boxes(alloc, marks, &picture.rows, column, has)
}

/// What stands in a picture under its arrows.
fn front(alloc: Global, picture: &LoopPicture<'_>) -> Result<Vec<Mark>, AllocError> {
    let mut marks = Vec::new(alloc);
    add_heading(alloc, &mut marks, picture)?;
    add_labels(alloc, &mut marks, &picture.rows)?;
    for column in 0..picture.columns {
        add_column(alloc, &mut marks, picture, column)?;
    }
    Ok(marks)
}

/// What stands in a picture over its arrows: what iterations await and advance, and what is said
/// below.
fn back(alloc: Global, picture: &LoopPicture<'_>) -> Result<Vec<Mark>, AllocError> {
    let mut marks = Vec::new(alloc);
    let sinks = sinks(alloc, picture)?;
    for column in 0..picture.columns {
        add_awaits(alloc, &mut marks, &picture.arrows, &sinks, column)?;
        add_advances(alloc, &mut marks, &picture.advances, column)?;
    }
    if let Some(space) = &picture.space {
        add_space(alloc, &mut marks, picture, space)?;
    }
    add_legend(alloc, &mut marks, picture)?;
    Ok(marks)
}

/// The arrows of a loop's picture, and behind them the vectors of its space.
fn lines(alloc: Global, picture: &LoopPicture<'_>) -> Result<Vec<u8>, AllocError>
    ensures { IfOk result (λ text. text.items ≡ arrows_in picture.now ++ vectors picture.now) }
{
    let mut text = arrows_of(alloc, picture)?;
    let vectors = vectors_of(alloc, picture)?;
    text.extend_from_slice(&vectors)?;
    Ok(text)
}

/// How wide and how high the picture of a loop is.
fn size(picture: &LoopPicture<'_>) -> Size {
    Size {
        width: width(picture.columns).max(NARROWEST),
        height: height(picture),
    }
}

/// Appends a picture's arrows, between what stands under them and over them.
fn append_body(
    out: &mut Vec<u8>,
    front: &[Mark],
    arrows: &[u8],
    back: &[Mark],
) -> Result<(), AllocError>
    ensures { OnOk result (out.new.items ≡ out.old.items
        ++ (markup.marks front.now ++ arrows.now ++ markup.marks back.now)) }
{
    append_marks(out, front)?;
    out.extend_from_slice(arrows)?;
    append_marks(out, back)
}

/// The text of the picture of a loop: an SVG file.
///
/// # Errors
///
/// `AllocError` where memory is refused.
pub fn draw(alloc: Global, picture: &LoopPicture<'_>) -> Result<Vec<u8>, AllocError>
    ensures { IfOk result (λ text. IsDrawn picture.now text.items) }
{
    let front = front(alloc, picture)?;
    let arrows = lines(alloc, picture)?;
    let back = back(alloc, picture)?;
    let mut text = opening(alloc, size(picture), SHEET)?;
    append_body(&mut text, &front, &arrows, &back)?;
    text.extend_from_slice(b"</svg>\n")?;
    Ok(text)
}
