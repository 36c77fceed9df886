//! Where things stand in the picture of a run, and beside one another.

use arrows::{Point, Size};

/// Where the lanes begin, from the left and from the top.
pub const LEFT: u128 = 130;

const TOP: u128 = 214;
/// How far two lanes are apart, and how high a bar is.
const PITCH: u128 = 54;

pub const BAR: u128 = 24;
/// How wide all columns are together at most, and one of them.
const WIDE: u128 = 1100;

const WIDEST: u128 = 24;
/// How large a mark is.
pub const MARK: Size = Size {
    width: 12,
    height: 7,
};

/// The point so far below another.
pub fn below(at: Point, down: u128) -> Point {
    Point {
        y: at.y.saturating_add(down),
        ..at
    }
}

/// The point so far above another.
pub fn above(at: Point, up: u128) -> Point {
    Point {
        y: at.y.saturating_sub(up),
        ..at
    }
}

/// The point so far to the right of another.
pub fn beside(at: Point, right: u128) -> Point {
    Point {
        x: at.x.saturating_add(right),
        ..at
    }
}

/// How wide a column is.
pub fn wide(columns: u64) -> u128 {
    WIDE.checked_div(u128::from(columns))
        .unwrap_or(WIDEST)
        .max(1)
        .min(WIDEST)
}

/// How wide all are together.
pub fn across(columns: u64) -> u128 {
    wide(columns).saturating_mul(u128::from(columns))
}

/// The upper left corner of a column of a processor's lane.
pub fn corner(processor: usize, column: u64, wide: u128) -> Point {
    Point {
        x: LEFT.saturating_add(wide.saturating_mul(u128::from(column))),
        y: TOP.saturating_add(PITCH.saturating_mul(processor as u128)),
    }
}

/// Where that begins which is below the lanes of so many processors, from the top.
pub fn foot(processors: usize) -> u128 {
    corner(processors, 0, 0).y.saturating_sub(6)
}
