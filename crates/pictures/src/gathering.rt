//! What the processors of a run did, gathered into as many columns as a picture may have.

ghost use Rattle.std.specs.Prelude.{◌≡◌, ◌<◌, IfOk, OnOk, replicate};
ghost use Rattle.pictures.specs.Runs as spec;

use crate::clocks::{Clocks, Duty};
use crate::wakes::{Moment, Wakes};
use std::alloc::{AllocError, Global};

/// How many columns there are at most.
const MOST: u64 = 960;
/// How many columns all lanes have together at most, so that the picture stays small.
const CELLS: u64 = 4_000;

/// An activity that a processor holds.
#[derive(Clone, Copy, PartialEq, Eq)]
pub enum Held {
    Main,
    /// The iteration of this number.
    Iteration(u128),
}

/// What came of an entry, beside its steps.
#[derive(Clone, Copy, PartialEq, Eq)]
pub enum Came {
    Nothing,
    /// The processor advanced an event.
    Advanced,
    /// What it held waits.
    Parked,
    /// The iteration that it held has retired.
    Retired,
    /// The run ended, by itself or with a fault or a STOP.
    Ended,
}

/// What an iteration waits for that was parked at an await.
#[derive(Clone, Copy, PartialEq, Eq)]
pub struct Awaited {
    pub event: u32,
    /// The number of the iteration that is to advance the event.
    pub iteration: u128,
}

/// An entry of a schedule, as it was made.
#[derive(Clone, Copy)]
pub struct Turn {
    /// The processor, from 0.
    pub processor: usize,
    /// How many steps it made, 1 to 1,024.
    pub steps: u64,
    /// Whether they touched what processors share.
    pub shared: bool,
    /// What it held before.
    pub before: Option<Held>,
    /// What it held after.
    pub after: Option<Held>,
    pub came: Came,
    /// The event that it advanced, if it did.
    pub advanced: Option<u32>,
    /// What it awaits, where that was why what it held was parked.
    pub awaited: Option<Awaited>,
    /// How many iterations were open after.
    pub open: u64,
}

/// What a processor does in a column.
#[derive(Clone, Copy, PartialEq, Eq)]
pub enum Deed {
    /// It has nothing to do.
    Nothing,
    Works(Held),
    /// It works on one activity after another.
    Several,
    /// It has nothing to do while what it held waits, for this event if it stands at an await.
    Waits(Held, Option<Awaited>),
}

/// What a processor did in a column.
#[derive(Clone, Copy)]
pub struct Cell {
    /// What it worked on in entries, if it made any.
    pub deed: Option<Deed>,
    /// What it does from the last of them on.
    pub rest: Deed,
    /// How often something was advanced, parked and retired, and whether the run ended.
    pub advanced: u64,
    pub parked: u64,
    pub retired: u64,
    pub ended: u64,
}

/// In which nothing was done.
const EMPTY: Cell = Cell {
    deed: None,
    rest: Deed::Nothing,
    advanced: 0,
    parked: 0,
    retired: 0,
    ended: 0,
};

/// How many iterations were open in a column.
#[derive(Clone, Copy)]
pub struct Level {
    /// At most.
    pub most: u64,
    /// At its end.
    pub last: u64,
}

/// What a processor did in the whole run.
#[derive(Clone, Copy)]
pub struct Lane {
    pub steps: u64,
    /// How often what it held had to wait.
    pub parked: u64,
}

/// What the processors of a run did, by columns of its time.
#[derive(Drop)]
pub struct Gathered {
    /// How many units of time it takes.
    pub units: u64,
    /// How many columns they are gathered into.
    pub columns: u64,
    /// How many iterations may be open.
    pub slots: u64,
    pub lanes: Vec<Lane>,
    /// Those of the first processor, then those of the next, each by column.
    pub cells: Vec<Cell>,
    /// How many iterations were open, by column, where that may have changed.
    pub open: Vec<Option<Level>>,
    /// How many entries were noted.
    pub noted: u64,
    /// How often what was held was parked at an await.
    pub awaits: u64,
    pub wakes: Wakes,
    clocks: Clocks,
}

/// How many columns so many units have, in which so many processors are busy: one for each unit, as
/// far as there are not too many.
fn columns(units: u64, busy: u64) -> u64 {
    let room = CELLS.checked_div(busy).unwrap_or(CELLS);
    units.min(MOST).min(room).max(1)
}

/// What a processor did that has done nothing.
const NOTHING: Lane = Lane {
    steps: 0,
    parked: 0,
};

/// The lanes of so many processors that have done nothing.
fn no_lanes(alloc: Global, processors: usize) -> Result<Vec<Lane>, AllocError>
    ensures { IfOk result (λ lanes. lanes.items ≡ replicate processors spec.nothing) }
{
    let mut lanes = Vec::new(alloc);
    while lanes.len() < processors {
        lanes.push(NOTHING)?;
    }
    Ok(lanes)
}

/// So many empty cells.
fn no_cells(alloc: Global, count: u64) -> Result<Vec<Cell>, AllocError> {
    let mut cells = Vec::new(alloc);
    for _ in 0..count {
        cells.push(EMPTY)?;
    }
    Ok(cells)
}

/// What a processor did, with one entry more.
fn counted(lane: Lane, turn: Turn) -> Lane
    ensures { result ≡ spec.counted turn lane }
{
    Lane {
        steps: lane.steps.saturating_add(turn.steps),
        parked: lane.parked.saturating_add(parks(turn.came)),
    }
}

/// One where what a processor held had to wait.
fn parks(came: Came) -> u64
    ensures { result ≡ spec.parks came }
{
    match came {
        Came::Parked => 1,
        Came::Nothing | Came::Advanced | Came::Retired | Came::Ended => 0,
    }
}

/// Counts an entry in its processor's lane, if there is one.
fn count(lanes: &mut [Lane], turn: Turn)
    ensures { lanes.new ≡ spec.with_turn turn lanes.old }
{
    if turn.processor < lanes.len() {
        lanes[turn.processor] = counted(lanes[turn.processor], turn);
    }
}

impl Gathered {
    /// Nothing yet, of a run of so many units of time; of its processors so many are busy.
    ///
    /// # Errors
    ///
    /// `AllocError` where memory is refused.
    pub fn new(
        alloc: Global,
        units: u64,
        processors: usize,
        busy: u64,
        slots: u64,
    ) -> Result<Gathered, AllocError>
        ensures lanes { IfOk result
            (λ gathered. gathered.lanes.items ≡ replicate processors spec.nothing) }
    {
        let columns = columns(units, busy);
        let lanes = no_lanes(alloc, processors)?;
        let cells = no_cells(alloc, columns.saturating_mul(processors as u64))?;
        Ok(Gathered {
            units,
            columns,
            slots,
            lanes,
            cells,
            open: vec![in alloc; None; columns as usize]?,
            noted: 0,
            awaits: 0,
            wakes: Wakes::new(alloc),
            clocks: Clocks::new(alloc, processors)?,
        })
    }

    /// The column of a unit of time.
    pub fn column(&self, unit: u64) -> u64 {
        let place = u128::from(unit).saturating_mul(u128::from(self.columns));
        let column = place.checked_div(u128::from(self.units)).unwrap_or(0);
        u64::try_from(column)
            .unwrap_or(0)
            .min(self.columns.saturating_sub(1))
    }

    /// The cell of a processor in a column.
    pub fn cell(&self, processor: usize, column: u64) -> Cell {
        let place = place(self.columns, processor, column);
        self.cells.get(place).copied().unwrap_or(EMPTY)
    }

    /// How many steps all processors made.
    pub fn made(&self) -> u128 {
        let mut made = 0u128;
        for lane in &self.lanes {
            made = made.saturating_add(u128::from(lane.steps));
        }
        made
    }

    /// Notes how many iterations are open from a column on, behind an entry that may change that.
    fn note_open(&mut self, turn: &Turn, column: u64)
        ensures { self.new.lanes ≡ self.old.lanes }
    {
        let open = turn.open;
        if !turn.shared {
            return;
        }
        if let Some(level) = self.open.get_mut(column as usize) {
            *level = Some(Level {
                most: level.map_or(open, |level| level.most.max(open)),
                last: open,
            });
        }
    }

    /// Notes an entry in the cells of its processor, from a column to the one in which it ends.
    fn note_cells(&mut self, turn: &Turn, first: u64, last: u64)
        ensures { self.new.lanes ≡ self.old.lanes }
    {
        for column in first..=last {
            let place = place(self.columns, turn.processor, column);
            if let Some(cell) = self.cells.get_mut(place) {
                *cell = grown(*cell, turn, column == last);
            }
        }
    }

    /// Notes the next entry.
    ///
    /// # Errors
    ///
    /// `AllocError` where memory is refused.
    pub fn note(&mut self, turn: Turn) -> Result<(), AllocError>
        ensures lanes { OnOk result
            (self.new.lanes.items ≡ spec.with_turn turn self.old.lanes.items) }
    {
        count(&mut self.lanes, turn);
        let unit = self.clocks.make(duty_of(&turn));
        let moment = Moment {
            processor: turn.processor,
            unit,
        };
        self.wakes.note(&turn, moment)?;
        let first = self.column(unit);
        let last = self.column(unit.saturating_add(turn.steps).saturating_sub(1));
        self.note_cells(&turn, first, last);
        self.note_open(&turn, first);
        self.noted = self.noted.saturating_add(1);
        self.awaits = self
            .awaits
            .saturating_add(u64::from(turn.awaited.is_some()));
        Ok(())
    }
}

/// What an entry takes.
fn duty_of(turn: &Turn) -> Duty {
    Duty {
        processor: turn.processor,
        steps: turn.steps,
        shared: turn.shared,
    }
}

/// Where the cell of a processor in a column stands.
fn place(columns: u64, processor: usize, column: u64) -> usize {
    processor
        .saturating_mul(columns as usize)
        .saturating_add(column as usize)
}

/// What a processor works on in an entry.
fn worked(turn: &Turn) -> Option<Deed> {
    let held = match turn.before {
        Some(held) => Some(held),
        None => turn.after,
    };
    held.map(Deed::Works)
}

/// What a processor does after an entry.
fn rest(turn: &Turn) -> Deed {
    match (turn.after, turn.before, turn.came) {
        (Some(held), _, _) => Deed::Works(held),
        (None, Some(held), Came::Parked) => Deed::Waits(held, turn.awaited),
        _ => Deed::Nothing,
    }
}

/// What a processor does in a column in which it also works on this.
fn joined(before: Option<Deed>, deed: Option<Deed>) -> Option<Deed> {
    match (before, deed) {
        (None, deed) => deed,
        (before, None) => before,
        (Some(one), Some(two)) if one == two => Some(one),
        _ => Some(Deed::Several),
    }
}

/// A cell with one entry more, which ends there or goes on.
fn grown(cell: Cell, turn: &Turn, ends: bool) -> Cell {
    let came = |wanted: Came| u64::from(ends && turn.came == wanted);
    Cell {
        deed: joined(cell.deed, worked(turn)),
        rest: rest(turn),
        advanced: cell.advanced.saturating_add(came(Came::Advanced)),
        parked: cell.parked.saturating_add(came(Came::Parked)),
        retired: cell.retired.saturating_add(came(Came::Retired)),
        ended: cell.ended.saturating_add(came(Came::Ended)),
    }
}
