//! The points of a two-dimensional iteration space, and what is said of it.

ghost use Rattle.std.specs.Prelude.{◌<◌, ◌^◌};

use crate::drawing::{add_words, has_iteration};
use crate::legend::Pen;
use arrows::{
    Class, Grid, LoopPicture, Mark, Point, Size, Space, Spot, Vector, append_pair, corner, grid_of,
    hue, middle, place_in,
};
use ast::Name;
use std::alloc::{AllocError, Global};

/// How large a point is.
const POINT: Size = Size {
    width: 12,
    height: 12,
};
/// How far the words above the points are from the first of them.
const ABOVE: u128 = 40;
/// Where the lines of vectors begin.
const LEFT: u128 = 20;
/// How far two of them are apart.
const PITCH: u128 = 22;
/// How many names of which distances aren't known are told.
const TOLD: usize = 4;

/// How far below its first points a space with so many rows and vectors goes.
pub fn depth(space: &Space) -> u128 {
    let told = (space.vectors.len() as u128).saturating_add(2);
    let rows = u128::from(space.rows).saturating_mul(48).saturating_sub(20);
    rows.max(told.saturating_mul(PITCH))
}

/// What a point says of itself.
fn title_of(alloc: Global, spot: Spot) -> Result<Vec<u8>, AllocError> {
    let Spot { outer, inner } = spot;
    let title = format!(in alloc; "outer iteration {outer}, inner iteration {inner}")?;
    Ok(title.into_bytes())
}

/// Adds a point, which the outer loop has or has not.
fn add_point(
    alloc: Global,
    marks: &mut Vec<Mark>,
    grid: Grid,
    spot: Spot,
    has: bool,
) -> Result<(), AllocError>
    requires spot { (spot.outer < 2 ^ 64) × (spot.inner < 2 ^ 64) }
    requires top { grid.top < 2 ^ 72 }
{
    let Point { x, y } = middle(grid.top, spot);
    let at = Point {
        x: x.saturating_sub(6),
        y: y.saturating_sub(6),
    };
    let class = Class::plain(if has { b"point" } else { b"absent" });
    Ok(marks.push(Mark::Tile(class, at, POINT, title_of(alloc, spot)?))?)
}

/// Adds the points of an iteration of the outer loop.
fn add_column(
    alloc: Global,
    marks: &mut Vec<Mark>,
    grid: Grid,
    column: u64,
    has: bool,
) -> Result<(), AllocError>
    requires { grid.top < 2 ^ 72 }
{
    for row in 0..grid.rows {
        let spot = Spot {
            outer: u128::from(column),
            inner: u128::from(row),
        };
        add_point(alloc, marks, grid, spot, has)?;
    }
    Ok(())
}

/// Adds the numbers of the inner loop's iterations beside the points.
fn add_numbers(alloc: Global, marks: &mut Vec<Mark>, grid: Grid) -> Result<(), AllocError>
    requires { grid.top < 2 ^ 72 }
{
    let right = corner(place_in(0, 0)).x.saturating_sub(4);
    for row in 0..grid.rows {
        let spot = Spot {
            outer: 0,
            inner: u128::from(row),
        };
        let at = Point {
            x: right,
            y: middle(grid.top, spot).y.saturating_add(4),
        };
        let told = format!(in alloc; "{row}")?;
        add_words(alloc, marks, b"faint right", at, told.as_bytes())?;
    }
    Ok(())
}

/// Adds a vector in words.
fn add_told(
    alloc: Global,
    marks: &mut Vec<Mark>,
    pen: &mut Pen,
    number: usize,
    vector: &Vector,
) -> Result<(), AllocError> {
    let Vector {
        source_line,
        sink_line,
        ..
    } = vector;
    let mut told = Vec::new(alloc);
    append_pair(&mut told, vector)?;
    told.extend_from_slice(b" ")?;
    told.extend_from_slice(vector.name.trimmed())?;
    let lines = format!(in alloc; ": line {source_line} before line {sink_line}")?;
    told.extend_from_slice(lines.as_bytes())?;
    let class = Class {
        name: b"vector",
        hue: Some(hue(number)),
    };
    Ok(marks.push(Mark::Words(class, pen.next(), told))?)
}

/// Adds all vectors in words.
fn add_all_told(
    alloc: Global,
    marks: &mut Vec<Mark>,
    pen: &mut Pen,
    vectors: &[Vector],
) -> Result<(), AllocError> {
    if vectors.is_empty() {
        return add_words(alloc, marks, b"faint", pen.next(), b"no vectors");
    }
    for (place, vector) in vectors.iter().enumerate() {
        add_told(alloc, marks, pen, place + 1, vector)?;
    }
    Ok(())
}

/// Adds the names of which distances aren't known.
fn add_unknown(
    alloc: Global,
    marks: &mut Vec<Mark>,
    pen: &mut Pen,
    names: &[Name],
) -> Result<(), AllocError> {
    if names.is_empty() {
        return Ok(());
    }
    let mut told = Vec::from_slice(alloc, b"distances unknown:")?;
    for name in names.iter().take(TOLD) {
        told.extend_from_slice(b" ")?;
        told.extend_from_slice(name.trimmed())?;
    }
    if names.len() > TOLD {
        told.extend_from_slice(b" ..")?;
    }
    add_words(alloc, marks, b"faint", pen.next(), &told)
}

/// Adds what goes to the right and what goes down.
fn add_directions(
    alloc: Global,
    marks: &mut Vec<Mark>,
    space: &Space,
    top: u128,
) -> Result<(), AllocError> {
    let mut told = Vec::from_slice(alloc, b"to the right iterations of ")?;
    told.extend_from_slice(space.outer.trimmed())?;
    told.extend_from_slice(b", down those of ")?;
    told.extend_from_slice(space.inner.trimmed())?;
    told.extend_from_slice(b", each a point; broken lines stay in one iteration of ")?;
    told.extend_from_slice(space.outer.trimmed())?;
    let at = Point {
        x: corner(place_in(0, 0)).x,
        y: top.saturating_sub(ABOVE),
    };
    add_words(alloc, marks, b"faint", at, &told)
}

/// Adds what is said beside the points.
fn add_beside(
    alloc: Global,
    marks: &mut Vec<Mark>,
    space: &Space,
    top: u128,
) -> Result<(), AllocError> {
    let at = Point {
        x: LEFT,
        y: top.saturating_sub(ABOVE),
    };
    add_words(alloc, marks, b"heading", at, b"Iteration space")?;
    let mut pen = Pen {
        y: top.saturating_sub(PITCH),
    };
    add_all_told(alloc, marks, &mut pen, &space.vectors)?;
    add_unknown(alloc, marks, &mut pen, &space.unknown)
}

/// Adds the points of a space over its vectors, and what is said of them.
pub fn add_space(
    alloc: Global,
    marks: &mut Vec<Mark>,
    picture: &LoopPicture<'_>,
    space: &Space,
) -> Result<(), AllocError> {
    let grid = grid_of(picture, space);
    add_directions(alloc, marks, space, grid.top)?;
    add_beside(alloc, marks, space, grid.top)?;
    add_numbers(alloc, marks, grid)?;
    for column in 0..grid.columns {
        add_column(alloc, marks, grid, column, has_iteration(picture, column))?;
    }
    Ok(())
}
