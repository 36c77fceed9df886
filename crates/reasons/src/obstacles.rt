//! Why an entry of a schedule can't be made, or the run hasn't ended behind the last one.

use crate::making::{make, new_core};
use crate::unfinished::Unfinished;
use ast::Name;
use codegen::compile;
use machine::{Code, Done, Frame, Next, stands_local, stands_next};
use places::Visible;
use profile_check::program;
use replay::{Choice, Core};
use schedules::{Act, Entry, FIRST_ENTRY_LINE, LONGEST_BURST, Schedule, Version};
use std::alloc::{AllocError, Global};
use std::fmt::{Display, Formatter, Result as FmtResult, Write};

/// The shared step that stands next.
#[derive(Clone, Copy)]
pub enum SharedStep {
    Load(Option<Name>),
    Store(Option<Name>),
    Print,
    Read,
    Await(u32),
    Advance(u32),
    Open,
    Join,
    Retire,
    Report,
    Stop,
    Halt,
}

/// Why an entry can't be made.
#[derive(Clone, Copy)]
pub enum Obstacle {
    /// The run has ended.
    Ended,
    /// The processor holds nothing, so it has no local instruction.
    HoldsNothing,
    /// So many local instructions stand before this step, fewer than are wanted.
    Few {
        count: u32,
        wanted: u16,
        step: Option<SharedStep>,
    },
    /// So many local instructions stand before the shared step.
    Local {
        count: u32,
    },
    /// The processor holds this already.
    Holds(Choice),
    /// The processor holds nothing, and what it is to pick isn't named.
    PicksNothing,
    /// There is nothing for the processor to pick.
    NothingReady,
    /// What is to be picked is held by this processor.
    Held {
        choice: Choice,
        holder: usize,
    },
    /// What is to be picked isn't parked, or what it waits for isn't reached.
    NotReady(Choice),
    /// As many iterations are open as may be.
    Full,
    /// The shared step that stands next isn't possible yet.
    NotPossible(Option<SharedStep>),
}

/// What is met in the way of a schedule.
#[derive(Drop)]
pub enum Met {
    /// By the processor of an entry.
    Entry { processor: u8, obstacle: Obstacle },
    /// Behind the last entry.
    End(Unfinished),
}

impl Met {
    /// Why the entry in a line of a schedule's text can't be made in a run of the source on the
    /// input, or where the run stands if that is the line behind the last entry.
    pub fn of(
        alloc: Global,
        source: &[u8],
        input: &[u8],
        schedule: &[u8],
        line: usize,
    ) -> Option<Self> {
        let place = line.checked_sub(FIRST_ENTRY_LINE)?;
        let accepted = program(alloc, source).ok()?;
        let compiled = compile(alloc, &accepted).ok()?;
        let schedule = Schedule::parse(alloc, schedule).ok()?;
        met_at(alloc, &compiled.code, input, &schedule, place).unwrap_or(None)
    }
}

/// What is met at a place of a schedule.
fn met_at(
    alloc: Global,
    code: &Code,
    input: &[u8],
    schedule: &Schedule,
    place: usize,
) -> Result<Option<Met>, AllocError> {
    let processors = u64::from(schedule.processors());
    let slots = u64::from(schedule.slots());
    let Some(mut core) = new_core(alloc, code, input, processors, slots)? else {
        return Ok(None);
    };
    met_behind(alloc, &mut core, schedule, place)
}

/// What is met at a place, once the entries before it are made.
fn met_behind(
    alloc: Global,
    core: &mut Core<'_>,
    schedule: &Schedule,
    place: usize,
) -> Result<Option<Met>, AllocError> {
    let mut entries = schedule.entries();
    for _ in 0..place {
        match entries.next() {
            Some(entry) => {
                let _ = make(core, entry)?;
            }
            None => return Ok(None),
        }
    }
    match entries.next() {
        Some(entry) => Ok(Some(met_by(core, schedule.version(), entry)?)),
        None if core.has_ended() => Ok(None),
        None => Ok(Some(Met::End(Unfinished::of(alloc, core)?))),
    }
}

/// What an entry of a schedule of a version meets.
fn met_by(core: &Core<'_>, version: Version, entry: Entry) -> Result<Met, AllocError> {
    let q = usize::from(entry.processor);
    let obstacle = match entry.act {
        _ if core.has_ended() => Obstacle::Ended,
        Act::Work(wanted) => at_work(core, q, wanted)?,
        Act::Share => at_share(core, version, q)?,
        Act::PickMain => at_pick(core, q, Choice::Main)?,
        Act::PickIteration(number) => at_pick(core, q, Choice::Iteration(number))?,
        Act::TakeTicket => at_pick(core, q, Choice::Ticket)?,
    };
    Ok(Met::Entry {
        processor: entry.processor,
        obstacle,
    })
}

/// What stands in the way of so many local instructions.
fn at_work(core: &Core<'_>, q: usize, wanted: u16) -> Result<Obstacle, AllocError> {
    match core.frame(q)? {
        None => Ok(Obstacle::HoldsNothing),
        Some(frame) => {
            let (count, step) = ahead(core.code(), frame)?;
            Ok(Obstacle::Few {
                count,
                wanted,
                step,
            })
        }
    }
}

/// How many local instructions stand before the next shared step of a frame, and which step that
/// is.
pub fn ahead(code: &Code, frame: Frame) -> Result<(u32, Option<SharedStep>), AllocError> {
    if !stands_local(code, &frame) {
        return Ok((0, step_of(code, &frame)));
    }
    let done = Done::work(code, frame, u32::from(LONGEST_BURST))?;
    Ok((done.made(), step_of(code, done.to())))
}

/// What stands in the way of a shared step.
fn at_share(core: &Core<'_>, version: Version, q: usize) -> Result<Obstacle, AllocError> {
    match core.frame(q)? {
        None if version == Version::First => Ok(Obstacle::NothingReady),
        None => Ok(Obstacle::PicksNothing),
        Some(frame) => match ahead(core.code(), frame)? {
            (0, step) => Ok(Obstacle::NotPossible(step)),
            (count, _) => Ok(Obstacle::Local { count }),
        },
    }
}

/// What stands in the way of a pick.
fn at_pick(core: &Core<'_>, q: usize, choice: Choice) -> Result<Obstacle, AllocError> {
    match core.frame(q)? {
        Some(frame) => Ok(Obstacle::Holds(held(&frame))),
        None if choice == Choice::Ticket && core.overlap() == core.slots() as u128 => {
            Ok(Obstacle::Full)
        }
        None => Ok(match holder_of(core, choice)? {
            Some(holder) => Obstacle::Held { choice, holder },
            None => Obstacle::NotReady(choice),
        }),
    }
}

/// What a processor holds that has this frame.
pub fn held(frame: &Frame) -> Choice {
    match frame.iteration() {
        Some(number) => Choice::Iteration(number),
        None => Choice::Main,
    }
}

/// The processor that holds what is to be picked, if one does.
fn holder_of(core: &Core<'_>, choice: Choice) -> Result<Option<usize>, AllocError> {
    for q in 0..core.processors() {
        if let Some(frame) = core.frame(q)? {
            if held(&frame) == choice {
                return Ok(Some(q));
            }
        }
    }
    Ok(None)
}

/// The shared step that stands next in a frame.
fn step_of(code: &Code, frame: &Frame) -> Option<SharedStep> {
    match stands_next(code, frame) {
        Next::Load { cell, .. } => Some(SharedStep::Load(name_of(code, cell))),
        Next::Store { cell, .. } => Some(SharedStep::Store(name_of(code, cell))),
        Next::Print { .. } => Some(SharedStep::Print),
        Next::TakeRecord { .. } | Next::TakeValue { .. } | Next::DropRecord => {
            Some(SharedStep::Read)
        }
        Next::Await { event, .. } => Some(SharedStep::Await(event)),
        Next::Advance { event } => Some(SharedStep::Advance(event)),
        Next::Opens(_) => Some(SharedStep::Open),
        Next::Join { .. } => Some(SharedStep::Join),
        Next::Retire { .. } => Some(SharedStep::Retire),
        Next::Report { .. } => Some(SharedStep::Report),
        Next::Stop { .. } => Some(SharedStep::Stop),
        Next::Halt => Some(SharedStep::Halt),
        Next::Local | Next::Stuck => None,
    }
}

/// The name of the variable that has a cell.
fn name_of(code: &Code, cell: usize) -> Option<Name> {
    let found = code.variables.iter().find(|variable| {
        variable.start <= cell && cell < variable.start.saturating_add(variable.size)
    });
    found.map(|variable| variable.name)
}

impl Display for SharedStep {
    fn fmt<W: Write>(&self, f: &mut Formatter<W>) -> FmtResult {
        match self {
            SharedStep::Load(name) => write_named(f, "load", *name),
            SharedStep::Store(name) => write_named(f, "store", *name),
            SharedStep::Print => f.write_str("print"),
            SharedStep::Read => f.write_str("read"),
            SharedStep::Await(event) => write!(f, "await event {event}"),
            SharedStep::Advance(event) => write!(f, "advance event {event}"),
            SharedStep::Open => f.write_str("open"),
            SharedStep::Join => f.write_str("join"),
            SharedStep::Retire => f.write_str("retire"),
            SharedStep::Report => f.write_str("report a fault"),
            SharedStep::Stop => f.write_str("stop"),
            SharedStep::Halt => f.write_str("halt"),
        }
    }
}

fn write_named<W: Write>(f: &mut Formatter<W>, word: &str, name: Option<Name>) -> FmtResult {
    f.write_str(word)?;
    match name {
        Some(name) => write!(f, " {}", Visible::new(name.trimmed())),
        None => Ok(()),
    }
}

impl Display for Met {
    fn fmt<W: Write>(&self, f: &mut Formatter<W>) -> FmtResult {
        match self {
            Met::Entry {
                processor,
                obstacle,
            } => obstacle.write(f, *processor),
            Met::End(unfinished) => write!(f, "{unfinished}"),
        }
    }
}

impl Obstacle {
    /// Writes what this processor meets.
    fn write<W: Write>(self, f: &mut Formatter<W>, q: u8) -> FmtResult {
        match self {
            Obstacle::Ended => f.write_str("the run has ended before this entry"),
            Obstacle::HoldsNothing => write!(f, "processor {q} holds nothing"),
            Obstacle::Few {
                count,
                wanted,
                step,
            } => write_few(f, q, count, wanted, step),
            Obstacle::Local { count } => {
                let count = LocalsNext(count);
                write!(f, "processor {q} has {count}, before its shared step")
            }
            Obstacle::Holds(choice) => write!(f, "processor {q} holds {}", Picked(choice)),
            Obstacle::PicksNothing => {
                write!(
                    f,
                    "processor {q} holds nothing; what it picks is named first"
                )
            }
            Obstacle::NothingReady => {
                write!(f, "processor {q} holds nothing, and nothing is ready")
            }
            Obstacle::Held { choice, holder } => {
                let picked = Picked(choice);
                write!(f, "{picked} isn't ready: processor {holder} holds it")
            }
            Obstacle::NotReady(choice) => write_unready(f, choice),
            Obstacle::Full => {
                f.write_str("no iteration may begin: as many are open as line 2 allows")
            }
            Obstacle::NotPossible(step) => write_step(f, q, step),
        }
    }
}

/// So many local instructions, which stand next.
#[derive(Clone, Copy)]
pub struct LocalsNext(pub u32);

impl Display for LocalsNext {
    fn fmt<W: Write>(&self, f: &mut Formatter<W>) -> FmtResult {
        match self.0 {
            0 => f.write_str("no local instruction next"),
            1 => f.write_str("1 local instruction next"),
            count => write!(f, "{count} local instructions next"),
        }
    }
}

/// What is picked, or held.
#[derive(Clone, Copy)]
pub struct Picked(pub Choice);

impl Display for Picked {
    fn fmt<W: Write>(&self, f: &mut Formatter<W>) -> FmtResult {
        match self.0 {
            Choice::Main => f.write_str("main"),
            Choice::Iteration(number) => write!(f, "iteration {number}"),
            Choice::Ticket => f.write_str("a ticket"),
        }
    }
}

fn write_few<W: Write>(
    f: &mut Formatter<W>,
    q: u8,
    count: u32,
    wanted: u16,
    step: Option<SharedStep>,
) -> FmtResult {
    write!(f, "processor {q} has {}", LocalsNext(count))?;
    if count > 0 {
        write!(f, ", not {wanted}")?;
    }
    write_behind(f, count, step)
}

/// Writes which shared step stands behind so many local instructions, if one does.
pub fn write_behind<W: Write>(
    f: &mut Formatter<W>,
    count: u32,
    step: Option<SharedStep>,
) -> FmtResult {
    match step {
        Some(step) if count > 0 => write!(f, "; then a shared step stands next: {step}"),
        Some(step) => write!(f, "; a shared step stands next: {step}"),
        None => Ok(()),
    }
}

fn write_unready<W: Write>(f: &mut Formatter<W>, choice: Choice) -> FmtResult {
    match choice {
        Choice::Main => f.write_str("main isn't ready: it waits for iterations to retire"),
        Choice::Iteration(number) => write!(
            f,
            "iteration {number} isn't ready: it hasn't begun, waits, or has retired"
        ),
        Choice::Ticket => f.write_str("no iteration may begin: no loop is open, or none is left"),
    }
}

fn write_step<W: Write>(f: &mut Formatter<W>, q: u8, step: Option<SharedStep>) -> FmtResult {
    match step {
        Some(step) => write!(f, "processor {q} can't {step} yet"),
        None => write!(f, "processor {q} has no step"),
    }
}
