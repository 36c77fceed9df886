//! Where rows and iterations stand in the picture of a loop.

ghost use Rattle.std.specs.Prelude.{◌≡◌, ◌<◌, ◌^◌};
ghost use Rattle.arrows.specs.Arrows as spec;

use crate::picture::Row;
use crate::svg::{Point, Size};
use ast::Line;

/// Where the rows begin.
pub const TOP: u128 = 112;
/// Where the middle of the first row is.
const MIDDLE: u128 = 123;
/// How far two rows are apart.
pub const PITCH: u128 = 40;
/// Where the first iteration begins.
pub const LEFT: u128 = 372;
/// How far two iterations are apart.
pub const STEP: u128 = 112;
/// How wide a statement's box is.
const ACROSS: u128 = 64;
/// How long the tip of an arrow is.
const TIP: u128 = 16;

/// How wide and how high a statement's box is.
pub const BOX: Size = Size {
    width: ACROSS,
    height: 22,
};

/// A place of a picture: the box of a row in an iteration; both are counted from 0.
#[derive(Clone, Copy)]
pub struct Place {
    pub column: u128,
    pub row: usize,
}

/// The rows between which a dependence goes.
#[derive(Clone, Copy)]
pub struct Ends {
    pub source: usize,
    pub sink: usize,
}

/// The first row in which a line stands.
pub fn row_of(rows: &[Row<'_>], line: Line) -> Option<usize>
    ensures { result ≡ spec.row_from 0 rows.now line }
{
    for (place, row) in rows.iter().enumerate() {
        if row.line == line {
            return Some(place);
        }
    }
    None
}

/// The place of a row in an iteration.
pub fn place_in(column: u64, row: usize) -> Place
    ensures { result ≡ record { column = column; row = row } }
{
    Place {
        column: u128::from(column),
        row,
    }
}

/// The upper left corner of a place's box.
pub fn corner(place: Place) -> Point {
    Point {
        x: LEFT.saturating_add(STEP.saturating_mul(place.column)),
        y: TOP.saturating_add(PITCH.saturating_mul(place.row as u128)),
    }
}

/// The middle of the left edge of a place's box.
pub fn entry(place: Place) -> Point {
    let Point { x, y } = corner(place);
    Point {
        x,
        y: y.saturating_add(11),
    }
}

/// The middle of the right edge of a place's box.
pub fn exit(place: Place) -> Point
    requires { place.column < 2 ^ 64 }
    ensures { result ≡ spec.exit place }
{
    Point {
        x: LEFT + STEP * place.column + ACROSS,
        y: MIDDLE + PITCH * place.row as u128,
    }
}

/// Where the tip begins of an arrow to a place.
pub fn tip(place: Place) -> Point
    requires { place.column < 2 ^ 64 }
    ensures { result ≡ spec.tip place }
{
    Point {
        x: LEFT + STEP * place.column - TIP,
        y: MIDDLE + PITCH * place.row as u128,
    }
}

/// How wide a picture of so many iterations is, in pixels.
pub fn width(columns: u64) -> u128 {
    corner(place_in(columns, 0)).x
}

/// Where that begins which is below so many rows, in pixels from the top.
pub fn bottom(rows: usize) -> u128 {
    corner(place_in(0, rows)).y
}
