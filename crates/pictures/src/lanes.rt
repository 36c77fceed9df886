//! The picture of a run.

ghost use Rattle.std.specs.Prelude.{◌≡◌, ◌++◌, IfOk, OnOk};
ghost use Rattle.arrows.specs.Markup as markup;
ghost use Rattle.pictures.specs.Runs as spec;
ghost use Rattle.pictures.specs.Runs.{AreFigures, TellsRun};

use crate::axis::{append_axis, append_wakes};
use crate::bars::append_lane;
use crate::gathering::{Cell, Gathered, Lane, Level};
use crate::layout::{BAR, LEFT, MARK, above, across, below, beside, corner, foot, wide};
use arrows::{
    Class, Point, SHEET, Size, append_class, append_number, append_tile, append_words, opening,
};
use std::alloc::{AllocError, Global};

/// Where the curve of open iterations stands, and how high it is.
const BASE: u128 = 178;

const RISE: u128 = 60;
/// How large the sample of a bar is.
const SAMPLE: Size = Size {
    width: 16,
    height: 12,
};

/// What marks say.
const ADVANCED: &str = "advanced an event";

const PARKED: &str = "it was parked";

const RETIRED: &str = "the iteration retired";

const ENDED: &str = "the run ended";

/// How a run ended, and what it is compared with.
#[derive(Clone, Copy)]
pub struct Ending<'a> {
    /// The name of its program's file.
    pub name: &'a [u8],
    /// In words.
    pub words: &'a [u8],
    /// Whether it was a fault or a STOP.
    pub early: bool,
    /// How many steps it took in all.
    pub made: u128,
    /// How many steps the program takes alone, with one processor and one open iteration.
    pub alone: u128,
}

/// Appends a mark of a column, of this class and way, if something happened there so often.
fn append_mark(
    alloc: Global,
    out: &mut Vec<u8>,
    class: &'static [u8],
    at: Point,
    times: u64,
    says: &str,
) -> Result<(), AllocError> {
    if times == 0 {
        return Ok(());
    }
    let title = if times > 1 {
        format!(in alloc; "{says} {times} times")?
    } else {
        format!(in alloc; "{says}")?
    };
    append_tile(out, Class::plain(class), at, MARK, title.as_bytes())
}

/// Appends the marks of a cell.
fn append_marks(
    alloc: Global,
    out: &mut Vec<u8>,
    cell: Cell,
    at: Point,
    wide: u128,
) -> Result<(), AllocError> {
    let middle = beside(at, wide.wrapping_div(2));
    let mark = Point {
        x: middle.x.saturating_sub(MARK.width.wrapping_div(2)),
        y: at.y,
    };
    let higher = above(mark, MARK.height.saturating_add(1));
    let low = below(mark, BAR.saturating_add(1));
    let lower = below(low, MARK.height);
    append_mark(alloc, out, b"advanced", higher, cell.advanced, ADVANCED)?;
    append_mark(alloc, out, b"parked", low, cell.parked, PARKED)?;
    append_mark(alloc, out, b"retired", lower, cell.retired, RETIRED)?;
    append_mark(alloc, out, b"ended", lower, cell.ended, ENDED)
}

/// Appends the marks of a processor's lane.
fn append_lane_marks(
    alloc: Global,
    out: &mut Vec<u8>,
    gathered: &Gathered,
    processor: usize,
) -> Result<(), AllocError> {
    let wide = wide(gathered.columns);
    for column in 0..gathered.columns {
        let at = corner(processor, column, wide);
        append_marks(alloc, out, gathered.cell(processor, column), at, wide)?;
    }
    Ok(())
}

/// How many iterations were open at most, or one.
fn highest(gathered: &Gathered) -> u64 {
    let mut most = 1;
    for level in gathered.open.iter().flatten() {
        most = level.most.max(most);
    }
    most
}

/// How high the curve is where so many iterations are open, and so many at most; one is seen too.
fn rise(open: u64, highest: u64) -> u128 {
    RISE.saturating_mul(u128::from(open))
        .saturating_add(u128::from(highest.saturating_sub(1)))
        .checked_div(u128::from(highest))
        .unwrap_or(0)
}

/// Appends the line of the curve of open iterations.
fn append_line(out: &mut Vec<u8>, gathered: &Gathered) -> Result<(), AllocError> {
    let wide = wide(gathered.columns);
    let highest = highest(gathered);
    let mut last = 0;
    for level in &gathered.open {
        let Level { most, last: then } = level.unwrap_or(Level { most: last, last });
        out.extend_from_slice(b"V")?;
        append_number(out, BASE.saturating_sub(rise(most.max(last), highest)))?;
        last = then;
        out.extend_from_slice(b"h")?;
        append_number(out, wide)?;
    }
    Ok(())
}

/// Appends the curve itself.
fn append_path(out: &mut Vec<u8>, gathered: &Gathered) -> Result<(), AllocError> {
    append_class(out, b"<path class=\"", Class::plain(b"curve"))?;
    out.extend_from_slice(b" d=\"M")?;
    append_number(out, LEFT)?;
    out.extend_from_slice(b" ")?;
    append_number(out, BASE)?;
    append_line(out, gathered)?;
    out.extend_from_slice(b"V")?;
    append_number(out, BASE)?;
    out.extend_from_slice(b"Z\"><title>open iterations</title></path>\n")
}

/// Appends how many iterations were open at most.
fn append_highest(alloc: Global, out: &mut Vec<u8>, gathered: &Gathered) -> Result<(), AllocError> {
    let highest = format!(in alloc; "{}", highest(gathered))?;
    let class = Class::plain(b"faint right");
    append_words(out, class, Point { x: 122, y: 126 }, highest.as_bytes())
}

/// Appends the curve of open iterations.
fn append_curve(alloc: Global, out: &mut Vec<u8>, gathered: &Gathered) -> Result<(), AllocError> {
    append_path(out, gathered)?;
    append_highest(alloc, out, gathered)?;
    let class = Class::plain(b"faint right");
    append_words(out, class, Point { x: 122, y: 154 }, b"iterations open")?;
    append_words(out, class, Point { x: 122, y: 180 }, b"0")
}

/// Appends how many steps a processor made.
fn append_steps(out: &mut Vec<u8>, processor: usize, steps: u64) -> Result<(), AllocError>
    ensures { OnOk result (out.new.items ≡ out.old.items ++ spec.made processor steps) }
{
    out.extend_from_slice(b"processor ")?;
    append_number(out, processor)?;
    out.extend_from_slice(b": steps ")?;
    append_number(out, steps)
}

/// What a processor did, in words.
fn figure(alloc: Global, processor: usize, lane: &Lane) -> Result<Vec<u8>, AllocError>
    ensures { IfOk result (λ told. told.items ≡ spec.figure processor lane.now) }
{
    let mut told = Vec::new(alloc);
    append_steps(&mut told, processor, lane.steps)?;
    told.extend_from_slice(b", parked ")?;
    append_number(&mut told, lane.parked)?;
    Ok(told)
}

/// The text of words at a point.
fn words(alloc: Global, class: Class, at: Point, told: &[u8]) -> Result<Vec<u8>, AllocError>
    ensures { IfOk result (λ text. text.items ≡ markup.words class at told.now) }
{
    let mut text = Vec::new(alloc);
    append_words(&mut text, class, at, told)?;
    Ok(text)
}

/// Where the line of a processor stands, below a height.
fn line_at(processor: usize, y: u128) -> Point {
    Point {
        x: 20,
        y: y.saturating_add((processor as u128).saturating_mul(20)),
    }
}

/// The lines of what processors did, below a height.
fn figures(alloc: Global, lanes: &[Lane], y: u128) -> Result<Vec<u8>, AllocError>
    ensures { IfOk result (λ text. AreFigures lanes.now text.items) }
{
    let class = Class::plain(b"figure");
    let mut text = Vec::new(alloc);
    for (processor, lane) in lanes.iter().enumerate() {
        let told = figure(alloc, processor, lane)?;
        let line = words(alloc, class, line_at(processor, y), &told)?;
        text.extend_from_slice(&line)?;
    }
    Ok(text)
}

/// Appends what is said of the whole run.
fn append_whole(
    alloc: Global,
    out: &mut Vec<u8>,
    ending: &Ending<'_>,
    y: u128,
) -> Result<(), AllocError> {
    let Ending { made, alone, .. } = ending;
    let steps = format!(in alloc;
        "steps {made}; with one processor and one open iteration {alone}"
    )?;
    let class = Class::plain(b"figure");
    append_words(out, class, Point { x: 20, y }, steps.as_bytes())
}

/// Appends how often what was held was parked at an await.
fn append_awaits(alloc: Global, out: &mut Vec<u8>, awaits: u64, y: u128) -> Result<(), AllocError> {
    let told = format!(in alloc; "awaits that parked an iteration: {awaits}")?;
    append_words(
        out,
        Class::plain(b"awaits"),
        Point { x: 20, y },
        told.as_bytes(),
    )
}

/// Appends a mark of a kind, and what it means.
fn append_meaning(
    alloc: Global,
    out: &mut Vec<u8>,
    class: &'static [u8],
    at: Point,
    says: &str,
) -> Result<(), AllocError> {
    append_mark(alloc, out, class, above(at, 8), 1, says)?;
    append_words(out, Class::plain(b"faint"), beside(at, 18), says.as_bytes())
}

/// Appends a bar of a kind, and what it means.
fn append_bar_meaning(
    out: &mut Vec<u8>,
    class: &'static [u8],
    at: Point,
    says: &[u8],
) -> Result<(), AllocError> {
    append_tile(out, Class::plain(class), above(at, 10), SAMPLE, says)?;
    append_words(out, Class::plain(b"faint"), beside(at, 22), says)
}

/// Appends what an arrow means.
fn append_arrow_meaning(out: &mut Vec<u8>, at: Point) -> Result<(), AllocError> {
    let told = b"arrow: an advance, and what it wakes is taken up";
    append_words(out, Class::plain(b"faint"), at, told)
}

/// Appends what the marks mean.
fn append_mark_meanings(alloc: Global, out: &mut Vec<u8>, y: u128) -> Result<(), AllocError> {
    append_meaning(alloc, out, b"advanced", Point { x: 20, y }, ADVANCED)?;
    append_meaning(alloc, out, b"parked", Point { x: 190, y }, PARKED)?;
    append_meaning(alloc, out, b"retired", Point { x: 310, y }, RETIRED)?;
    append_meaning(alloc, out, b"ended", Point { x: 480, y }, ENDED)
}

/// Appends what the marks and the bars mean.
fn append_meanings(alloc: Global, out: &mut Vec<u8>, y: u128) -> Result<(), AllocError> {
    append_mark_meanings(alloc, out, y)?;
    let y = y.saturating_add(22);
    append_bar_meaning(
        out,
        b"bar colour0",
        Point { x: 20, y },
        b"an iteration, by its number from 0",
    )?;
    append_bar_meaning(out, b"bar main", Point { x: 300, y }, b"main")?;
    append_bar_meaning(
        out,
        b"bar several",
        Point { x: 380, y },
        b"several, too short to be told apart",
    )?;
    let y = y.saturating_add(22);
    append_bar_meaning(
        out,
        b"bar waits",
        Point { x: 20, y },
        b"what it held waits, and it has nothing else to do",
    )?;
    append_arrow_meaning(out, Point { x: 380, y })
}

/// How many characters of a file's name are shown.
const SHOWN: usize = 48;

/// Appends whose run it is.
fn append_program(out: &mut Vec<u8>, name: &[u8]) -> Result<(), AllocError> {
    let mut heading = Vec::from_slice(*out.allocator(), b"A run of ")?;
    heading.extend_from_slice(name.get(..SHOWN).unwrap_or(name))?;
    if name.len() > SHOWN {
        heading.extend_from_slice(b"..")?;
    }
    let class = Class::plain(b"heading");
    append_words(out, class, Point { x: 20, y: 30 }, &heading)
}

/// Appends how many processors a run had, and how many iterations could be open.
fn append_sizes(alloc: Global, out: &mut Vec<u8>, gathered: &Gathered) -> Result<(), AllocError> {
    let Gathered { slots, .. } = gathered;
    let processors = gathered.lanes.len();
    let sizes = format!(in alloc;
        "processors: {processors}, iterations that may be open: {slots}"
    )?;
    let class = Class::plain(b"faint");
    append_words(out, class, Point { x: 20, y: 52 }, sizes.as_bytes())
}

/// Appends what goes from left to right.
fn append_time(alloc: Global, out: &mut Vec<u8>, gathered: &Gathered) -> Result<(), AllocError> {
    let Gathered {
        units,
        columns,
        noted,
        ..
    } = gathered;
    let time = format!(in alloc;
        "from left to right: time {units}, where each step takes 1; entries {noted}, columns {columns}"
    )?;
    let class = Class::plain(b"faint");
    append_words(out, class, Point { x: 20, y: 72 }, time.as_bytes())
}

/// Appends what stands above the lanes.
fn append_heading(
    alloc: Global,
    out: &mut Vec<u8>,
    gathered: &Gathered,
    ending: &Ending<'_>,
) -> Result<(), AllocError> {
    append_program(out, ending.name)?;
    append_sizes(alloc, out, gathered)?;
    append_time(alloc, out, gathered)?;
    let class = Class::plain(if ending.early { b"early" } else { b"faint" });
    append_words(out, class, Point { x: 20, y: 92 }, ending.words)
}

/// Appends the name of a processor beside its lane.
fn append_name(alloc: Global, out: &mut Vec<u8>, processor: usize) -> Result<(), AllocError> {
    let Point { y, .. } = below(corner(processor, 0, 0), 15);
    let name = format!(in alloc; "processor {processor}")?;
    append_words(
        out,
        Class::plain(b"right"),
        Point { x: 122, y },
        name.as_bytes(),
    )
}

/// Appends the lanes of all processors.
fn append_lanes(alloc: Global, out: &mut Vec<u8>, gathered: &Gathered) -> Result<(), AllocError> {
    append_wakes(alloc, out, gathered)?;
    for processor in 0..gathered.lanes.len() {
        append_name(alloc, out, processor)?;
        append_lane(alloc, out, gathered, processor)?;
        append_lane_marks(alloc, out, gathered, processor)?;
    }
    append_axis(alloc, out, gathered)
}

/// Where it is said what marks mean, below the lanes of so many processors.
fn meanings(processors: usize) -> u128 {
    foot(processors).saturating_add(52)
}

/// What is below that.
fn figures_top(processors: usize) -> u128 {
    meanings(processors).saturating_add(48)
}

/// How wide and how high the picture of a run is.
fn size(gathered: &Gathered) -> Size {
    let all = across(gathered.columns);
    let lines = (gathered.lanes.len() as u128).saturating_mul(20);
    Size {
        width: LEFT.saturating_add(all).max(740).saturating_add(20),
        height: figures_top(gathered.lanes.len())
            .saturating_add(lines)
            .saturating_add(84),
    }
}

/// What stands in the picture of a run above what is said of its processors.
fn front(alloc: Global, gathered: &Gathered, ending: &Ending<'_>) -> Result<Vec<u8>, AllocError> {
    let mut out = opening(alloc, size(gathered), SHEET)?;
    append_heading(alloc, &mut out, gathered, ending)?;
    append_curve(alloc, &mut out, gathered)?;
    append_lanes(alloc, &mut out, gathered)?;
    append_meanings(alloc, &mut out, meanings(gathered.lanes.len()))?;
    Ok(out)
}

/// What stands in the picture of a run behind what is said of its processors.
fn back(alloc: Global, gathered: &Gathered, ending: &Ending<'_>) -> Result<Vec<u8>, AllocError> {
    let lines = (gathered.lanes.len() as u128).saturating_mul(20);
    let y = figures_top(gathered.lanes.len())
        .saturating_add(lines)
        .saturating_add(24);
    let mut out = Vec::new(alloc);
    append_awaits(alloc, &mut out, gathered.awaits, y)?;
    append_whole(alloc, &mut out, ending, y.saturating_add(20))?;
    out.extend_from_slice(b"</svg>\n")?;
    Ok(out)
}

/// The text of the picture of a run: an SVG file.
///
/// # Errors
///
/// `AllocError` where memory is refused.
pub fn timeline(
    alloc: Global,
    gathered: &Gathered,
    ending: &Ending<'_>,
) -> Result<Vec<u8>, AllocError>
    ensures { IfOk result (λ text. TellsRun gathered.now text.items) }
{
    let mut text = front(alloc, gathered, ending)?;
    let y = figures_top(gathered.lanes.len()).saturating_add(24);
    let figures = figures(alloc, &gathered.lanes, y)?;
    text.extend_from_slice(&figures)?;
    let back = back(alloc, gathered, ending)?;
    text.extend_from_slice(&back)?;
    Ok(text)
}
