//! The axis of time of a run's picture, and what goes from one time to another.

use crate::gathering::Gathered;
use crate::layout::{BAR, LEFT, above, across, below, beside, corner, foot, wide};
use crate::wakes::{Moment, Wake};
use arrows::{Class, Point, append_class, append_number, append_point, append_words, hue};
use std::alloc::{AllocError, Global};

/// How far two numbers of the axis are apart at least.
const APART: u128 = 64;

/// The least of 1, 2, 5, 10, 20, .. that isn't less.
fn rounded(least: u128) -> u128 {
    let mut power: u128 = 1;
    for _ in 0..24 {
        for factor in [1, 2, 5] {
            if least <= power.saturating_mul(factor) {
                return power.saturating_mul(factor);
            }
        }
        power = power.saturating_mul(10);
    }
    power
}

/// How many units of time there are between two numbers of the axis.
fn pace(gathered: &Gathered) -> u128 {
    let units = u128::from(gathered.units);
    let least = units
        .saturating_mul(APART)
        .checked_div(across(gathered.columns))
        .unwrap_or(0);
    rounded(least.max(1))
}

/// Where a unit of time is, from the left.
fn place_of(gathered: &Gathered, unit: u128) -> u128 {
    let right = unit
        .saturating_mul(across(gathered.columns))
        .checked_div(u128::from(gathered.units))
        .unwrap_or(0);
    LEFT.saturating_add(right)
}

/// Appends a straight line from one point to another.
fn append_straight(out: &mut Vec<u8>, from: Point, to: Point) -> Result<(), AllocError> {
    out.extend_from_slice(b"M")?;
    append_point(out, from)?;
    out.extend_from_slice(b" L")?;
    append_point(out, to)
}

/// Appends a number of the axis.
fn append_tick(
    alloc: Global,
    out: &mut Vec<u8>,
    gathered: &Gathered,
    unit: u128,
    y: u128,
) -> Result<(), AllocError> {
    let at = Point {
        x: place_of(gathered, unit),
        y,
    };
    append_class(out, b"<path class=\"", Class::plain(b"axis"))?;
    out.extend_from_slice(b" d=\"")?;
    append_straight(out, at, below(at, 5))?;
    out.extend_from_slice(b"\"/>\n")?;
    let told = format!(in alloc; "{unit}")?;
    append_words(
        out,
        Class::plain(b"faint middle"),
        below(at, 19),
        told.as_bytes(),
    )
}

/// Appends the axis of time below the lanes.
pub fn append_axis(
    alloc: Global,
    out: &mut Vec<u8>,
    gathered: &Gathered,
) -> Result<(), AllocError> {
    let y = foot(gathered.lanes.len());
    append_class(out, b"<path class=\"", Class::plain(b"axis"))?;
    out.extend_from_slice(b" d=\"")?;
    let right = LEFT.saturating_add(across(gathered.columns));
    append_straight(out, Point { x: LEFT, y }, Point { x: right, y })?;
    out.extend_from_slice(b"\"/>\n")?;
    let words = below(Point { x: 112, y }, 19);
    append_words(out, Class::plain(b"faint right"), words, b"units of time")?;
    let pace = pace(gathered);
    let count = u128::from(gathered.units).checked_div(pace).unwrap_or(0);
    for number in 0..=count {
        append_tick(alloc, out, gathered, number.saturating_mul(pace), y)?;
    }
    Ok(())
}

/// How far from a bar an arrow to it ends, which its tip fills.
const TIP: u128 = 8;

/// Where a processor's bar is at a moment, so far from it, on the side of another processor.
fn edge(gathered: &Gathered, moment: Moment, other: usize, away: u128) -> Point {
    let column = gathered.column(moment.unit);
    let at = corner(moment.processor, column, wide(gathered.columns));
    if other > moment.processor {
        below(at, BAR.saturating_add(away))
    } else {
        above(at, away)
    }
}

/// Appends the arrow from an advance to where the iteration is taken up that it wakes.
fn append_wake(
    alloc: Global,
    out: &mut Vec<u8>,
    gathered: &Gathered,
    wake: &Wake,
) -> Result<(), AllocError> {
    let Wake { event, from, to } = wake;
    let class = Class {
        name: b"wake",
        hue: Some(hue(*event as usize)),
    };
    append_class(out, b"<g class=\"", class)?;
    let title = format!(in alloc; "><title>event {event} wakes it</title><path d=\"")?;
    out.extend_from_slice(title.as_bytes())?;
    let start = edge(gathered, *from, to.processor, 0);
    let half = beside(start, wide(gathered.columns).wrapping_div(2));
    append_straight(out, half, edge(gathered, *to, from.processor, TIP))?;
    out.extend_from_slice(b"\"/></g>\n")
}

/// Appends the arrows from advances to what they wake.
pub fn append_wakes(
    alloc: Global,
    out: &mut Vec<u8>,
    gathered: &Gathered,
) -> Result<(), AllocError> {
    for wake in &gathered.wakes.all {
        append_wake(alloc, out, gathered, wake)?;
    }
    Ok(())
}
