//! What a processor of a run does, as bars.

use crate::gathering::{Awaited, Deed, Gathered, Held};
use crate::layout::{BAR, below, beside, corner, wide};
use arrows::{Class, Point, Size, append_tile, append_words};
use std::alloc::{AllocError, Global};

/// How many colours iterations have.
const COLOURS: u128 = 7;
/// How wide a letter of a bar is.
const LETTER: u128 = 7;

/// The class of an iteration's bar, by its colour.
fn coloured(colour: u128) -> &'static [u8] {
    match colour {
        0 => b"bar colour0",
        1 => b"bar colour1",
        2 => b"bar colour2",
        3 => b"bar colour3",
        4 => b"bar colour4",
        5 => b"bar colour5",
        _ => b"bar colour6",
    }
}

/// A stretch of columns in which a processor does one thing.
#[derive(Clone, Copy)]
struct Stretch {
    first: u64,
    last: u64,
    deed: Deed,
}

/// The class of a bar.
fn class_of(deed: Deed) -> Class {
    let name: &'static [u8] = match deed {
        Deed::Nothing | Deed::Several => b"bar several",
        Deed::Works(Held::Main) => b"bar main",
        Deed::Works(Held::Iteration(k)) => coloured(k.wrapping_rem(COLOURS)),
        Deed::Waits(_, _) => b"bar waits",
    };
    Class::plain(name)
}

/// An activity in words.
fn name_of(alloc: Global, held: Held) -> Result<String, AllocError> {
    match held {
        Held::Main => format!(in alloc; "main"),
        Held::Iteration(k) => format!(in alloc; "iteration {k}"),
    }
}

/// What a bar says of itself.
fn title_of(alloc: Global, processor: usize, deed: Deed) -> Result<String, AllocError> {
    match deed {
        Deed::Nothing => format!(in alloc; "processor {processor} has nothing to do"),
        Deed::Several => format!(in alloc; "processor {processor} held several activities"),
        Deed::Works(held) => {
            let name = name_of(alloc, held)?;
            format!(in alloc; "processor {processor} held {name}")
        }
        Deed::Waits(held, None) => {
            let name = name_of(alloc, held)?;
            format!(in alloc; "processor {processor} has nothing to do while {name} waits")
        }
        Deed::Waits(held, Some(Awaited { event, iteration })) => {
            let name = name_of(alloc, held)?;
            format!(in alloc;
                "processor {processor} has nothing to do while {name} awaits event {event} of iteration {iteration}"
            )
        }
    }
}

/// The letters on a bar, where there is much room.
fn long_label(alloc: Global, deed: Deed) -> Result<String, AllocError> {
    match deed {
        Deed::Waits(Held::Main, _) => format!(in alloc; "main waits for the end of the loop"),
        Deed::Waits(Held::Iteration(k), None) => format!(in alloc; "{k} waits for its turn to end"),
        Deed::Waits(Held::Iteration(k), Some(Awaited { event, iteration })) => {
            format!(in alloc; "{k} awaits event {event} of {iteration}")
        }
        _ => short_label(alloc, deed),
    }
}

/// The letters on a bar, where there is little.
fn short_label(alloc: Global, deed: Deed) -> Result<String, AllocError> {
    match deed {
        Deed::Nothing | Deed::Several => format!(in alloc; ""),
        Deed::Works(Held::Main) => format!(in alloc; "main"),
        Deed::Works(Held::Iteration(k)) => format!(in alloc; "{k}"),
        Deed::Waits(Held::Main, _) => format!(in alloc; "main waits"),
        Deed::Waits(Held::Iteration(k), None) => format!(in alloc; "{k} waits"),
        Deed::Waits(Held::Iteration(k), Some(Awaited { iteration, .. })) => {
            format!(in alloc; "{k} awaits {iteration}")
        }
    }
}

/// Whether so many letters have room on a bar.
fn has_room(label: &str, size: Size) -> bool {
    let needed = (label.len() as u128).saturating_mul(LETTER);
    needed.saturating_add(2) <= size.width
}

/// Appends the letters on a bar, where they have room.
fn append_label(
    alloc: Global,
    out: &mut Vec<u8>,
    deed: Deed,
    at: Point,
    size: Size,
) -> Result<(), AllocError> {
    let long = long_label(alloc, deed)?;
    let short = short_label(alloc, deed)?;
    let label = if has_room(&long, size) { long } else { short };
    if label.is_empty() || !has_room(&label, size) {
        return Ok(());
    }
    let middle = below(beside(at, size.width.wrapping_div(2)), 16);
    let class = match deed {
        Deed::Waits(_, _) => Class::plain(b"waiting"),
        _ => Class::plain(b"label"),
    };
    append_words(out, class, middle, label.as_bytes())
}

/// Appends the bar of a stretch, if the processor does something then.
fn append_stretch(
    alloc: Global,
    out: &mut Vec<u8>,
    processor: usize,
    stretch: Stretch,
    wide: u128,
) -> Result<(), AllocError> {
    if stretch.deed == Deed::Nothing {
        return Ok(());
    }
    let at = corner(processor, stretch.first, wide);
    let length = stretch.last.saturating_sub(stretch.first).saturating_add(1);
    let all = wide.saturating_mul(u128::from(length));
    let size = Size {
        width: all.saturating_sub(1).max(1),
        height: BAR,
    };
    let title = title_of(alloc, processor, stretch.deed)?;
    append_tile(out, class_of(stretch.deed), at, size, title.as_bytes())?;
    append_label(alloc, out, stretch.deed, at, size)
}

/// Appends the lane of a processor.
pub fn append_lane(
    alloc: Global,
    out: &mut Vec<u8>,
    gathered: &Gathered,
    processor: usize,
) -> Result<(), AllocError> {
    let wide = wide(gathered.columns);
    let mut stretch = Stretch {
        first: 0,
        last: 0,
        deed: Deed::Nothing,
    };
    let mut rest = Deed::Nothing;
    for column in 0..gathered.columns {
        let cell = gathered.cell(processor, column);
        let deed = cell.deed.unwrap_or(rest);
        if deed != stretch.deed {
            append_stretch(alloc, out, processor, stretch, wide)?;
            stretch.first = column;
            stretch.deed = deed;
        }
        stretch.last = column;
        if cell.deed.is_some() {
            rest = cell.rest;
        }
    }
    append_stretch(alloc, out, processor, stretch, wide)
}
