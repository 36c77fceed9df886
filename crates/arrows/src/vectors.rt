//! The vectors of a two-dimensional iteration space.

ghost use Rattle.std.specs.Prelude.{◌≡◌, ◌+◌, ◌-◌, ◌++◌, ◌<◌, ◌^◌, IfOk, OnOk, length};
ghost use Rattle.arrows.specs.Markup as markup;
ghost use Rattle.arrows.specs.Vectors as spec;

use crate::arrows::{append_point, starts};
use crate::picture::{LoopPicture, Space, Vector};
use crate::places::{LEFT, PITCH, STEP, TOP};
use crate::style::hue;
use crate::svg::{Point, append_number};
use std::alloc::{AllocError, Global};

/// How far the middle of a point is from where an iteration begins.
const HALF: u128 = 32;
/// How far two points of an iteration of the outer loop are apart.
const DROP: u128 = 48;
/// How far the first points are below the rows.
const ABOVE: u128 = 72;

/// Where the points of a space are.
#[derive(Clone, Copy)]
pub struct Grid {
    /// The height of the first of each iteration of the outer loop.
    pub top: u128,
    /// How many iterations of the outer loop there are, 64 at most.
    pub columns: u64,
    /// And how many of the inner one.
    pub rows: u64,
}

/// A point of a space, by the iterations of both loops, from 0.
#[derive(Clone, Copy)]
pub struct Spot {
    pub outer: u128,
    pub inner: u128,
}

/// The middle of a point.
pub fn middle(top: u128, spot: Spot) -> Point
    requires { (spot.outer < 2 ^ 64) × (spot.inner < 2 ^ 64) × (top < 2 ^ 72) }
    ensures value { result ≡ spec.middle top spot }
    ensures room { (result.x < 2 ^ 73) × (result.y < 2 ^ 73) }
{
    Point {
        x: LEFT + HALF + STEP * spot.outer,
        y: top + DROP * spot.inner,
    }
}

/// How far a vector passes beside the straight line between its ends.
fn bow(vector: &Vector) -> u128
    ensures value { result ≡ spec.bow vector.now }
    ensures few { result < 25 }
{
    if vector.over <= 1 && vector.down <= 1 && vector.up <= 1 {
        0
    } else {
        24
    }
}

/// The point between two, or so far to the right and below.
fn control(from: Point, to: Point, bow: u128) -> Point
    requires from { (from.x < 2 ^ 73) × (from.y < 2 ^ 73) }
    requires to { (to.x < 2 ^ 73) × (to.y < 2 ^ 73) }
    requires bow { bow < 25 }
    ensures { result ≡ spec.control from to bow }
{
    Point {
        x: (from.x + to.x) / 2 + bow,
        y: (from.y + to.y) / 2 + bow,
    }
}

fn append_begun(out: &mut Vec<u8>, from: Point) -> Result<(), AllocError>
    ensures { OnOk result (out.new.items ≡ out.old.items ++ spec.begun from) }
{
    out.extend_from_slice(b"<path d=\"M")?;
    append_point(out, from)?;
    out.extend_from_slice(b" Q")
}

fn append_ended(out: &mut Vec<u8>, by: Point, to: Point) -> Result<(), AllocError>
    ensures { OnOk result (out.new.items ≡ out.old.items ++ spec.ended by to) }
{
    append_point(out, by)?;
    append_point(out, to)?;
    out.extend_from_slice(b"\"/>")
}

/// Appends a line from one point to another.
fn append_line(out: &mut Vec<u8>, from: Point, to: Point, bow: u128) -> Result<(), AllocError>
    requires from { (from.x < 2 ^ 73) × (from.y < 2 ^ 73) }
    requires to { (to.x < 2 ^ 73) × (to.y < 2 ^ 73) }
    requires bow { bow < 25 }
    ensures { OnOk result (out.new.items ≡ out.old.items ++ spec.line from to bow) }
{
    append_begun(out, from)?;
    append_ended(out, control(from, to, bow), to)
}

/// Appends a vector from the source of a number in an iteration of the outer loop to its sink.
fn append_stroke(
    out: &mut Vec<u8>,
    top: u128,
    vector: &Vector,
    outer: u64,
    number: u64,
) -> Result<(), AllocError>
    requires over { outer + vector.now.over < 2 ^ 64 }
    requires along { number + vector.now.down + vector.now.up < 2 ^ 64 }
    requires top { top < 2 ^ 72 }
    ensures { OnOk result (out.new.items ≡ out.old.items
        ++ spec.stroke top vector.now outer number) }
{
    let source = Spot {
        outer: u128::from(outer),
        inner: u128::from(number) + vector.up,
    };
    let sink = Spot {
        outer: u128::from(outer) + vector.over,
        inner: u128::from(number) + vector.down,
    };
    append_line(out, middle(top, source), middle(top, sink), bow(vector))
}

/// A vector's strokes in an iteration of the outer loop.
fn strokes_in(alloc: Global, grid: Grid, vector: &Vector, outer: u64) -> Result<Vec<u8>, AllocError>
    requires over { outer + vector.now.over < 2 ^ 64 }
    requires top { grid.top < 2 ^ 72 }
    ensures { IfOk result (λ text. text.items ≡ spec.strokes_in grid vector.now outer) }
{
    let mut out = Vec::new(alloc);
    let lower = starts(grid.rows, vector.down);
    for number in 0..starts(lower, vector.up) {
        append_stroke(&mut out, grid.top, vector, outer, number)?;
    }
    Ok(out)
}

/// All strokes of a vector.
fn strokes(alloc: Global, grid: Grid, vector: &Vector) -> Result<Vec<u8>, AllocError>
    requires { grid.top < 2 ^ 72 }
    ensures { IfOk result (λ text. text.items ≡ spec.strokes grid vector.now) }
{
    let mut out = Vec::new(alloc);
    for outer in 0..starts(grid.columns, vector.over) {
        let strokes = strokes_in(alloc, grid, vector, outer)?;
        out.extend_from_slice(&strokes)?;
    }
    Ok(out)
}

/// Appends a distance of the inner loop.
fn append_along(out: &mut Vec<u8>, down: u128, up: u128) -> Result<(), AllocError>
    ensures { OnOk result (out.new.items ≡ out.old.items ++ spec.along down up) }
{
    if up == 0 {
        return append_number(out, down);
    }
    out.extend_from_slice(b"-")?;
    append_number(out, up)
}

/// Appends a vector's distances in both loops.
///
/// # Errors
///
/// `AllocError` where memory is refused; a part may have been appended then.
pub fn append_pair(out: &mut Vec<u8>, vector: &Vector) -> Result<(), AllocError>
    ensures { OnOk result (out.new.items ≡ out.old.items ++ spec.pair vector.now) }
{
    out.extend_from_slice(b"(")?;
    append_number(out, vector.over)?;
    out.extend_from_slice(b",")?;
    append_along(out, vector.down, vector.up)?;
    out.extend_from_slice(b")")
}

/// What the group of a vector begins with.
fn kind(vector: &Vector) -> &'static [u8]
    ensures { result.now ≡ spec.kind vector.now }
{
    if vector.over == 0 {
        b"<g class=\"vector own hue"
    } else {
        b"<g class=\"vector hue"
    }
}

/// Appends the beginning of a vector's group, by its number.
fn append_head(out: &mut Vec<u8>, number: usize, vector: &Vector) -> Result<(), AllocError>
    ensures { OnOk result (out.new.items ≡ out.old.items ++ spec.head number vector.now) }
{
    out.extend_from_slice(kind(vector))?;
    append_number(out, hue(number))?;
    out.extend_from_slice(b"\"><title>")?;
    append_pair(out, vector)?;
    out.extend_from_slice(b"</title>")
}

/// The group of a vector.
fn group(alloc: Global, grid: Grid, number: usize, vector: &Vector) -> Result<Vec<u8>, AllocError>
    requires { grid.top < 2 ^ 72 }
    ensures { IfOk result (λ text. text.items ≡ spec.group grid number vector.now) }
{
    let mut out = Vec::new(alloc);
    append_head(&mut out, number, vector)?;
    let strokes = strokes(alloc, grid, vector)?;
    out.extend_from_slice(&strokes)?;
    out.extend_from_slice(b"</g>\n")?;
    Ok(out)
}

/// The groups of vectors, one after another.
fn groups(alloc: Global, grid: Grid, vectors: &[Vector]) -> Result<Vec<u8>, AllocError>
    requires { grid.top < 2 ^ 72 }
    ensures { IfOk result (λ text. text.items ≡ spec.groups grid 1 vectors.now) }
{
    let mut out = Vec::new(alloc);
    for (place, vector) in vectors.iter().enumerate() {
        let group = group(alloc, grid, place + 1, vector)?;
        out.extend_from_slice(&group)?;
    }
    Ok(out)
}

/// Where the points of a loop's space are.
pub fn grid_of(picture: &LoopPicture<'_>, space: &Space) -> Grid
    ensures value { result ≡ spec.grid_of picture.now space.now }
    ensures room { result.top < 2 ^ 72 }
{
    Grid {
        top: TOP + PITCH * picture.rows.len() as u128 + ABOVE,
        columns: picture.columns,
        rows: space.rows,
    }
}

/// The vectors of a loop's picture, as elements of an SVG file; none where it has no space.
///
/// # Errors
///
/// `AllocError` where memory is refused.
pub fn vectors_of(alloc: Global, picture: &LoopPicture<'_>) -> Result<Vec<u8>, AllocError>
    ensures { IfOk result (λ text. text.items ≡ spec.vectors picture.now) }
{
    match &picture.space {
        Some(space) => groups(alloc, grid_of(picture, space), &space.vectors),
        None => Ok(Vec::new(alloc)),
    }
}
