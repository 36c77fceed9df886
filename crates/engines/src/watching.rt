//! Runs that schedules describe, watched turn by turn.

ghost use Rattle.std.specs.Prelude.{◌<◌, length};
ghost use Rattle.activities.specs.Activities.{AreActivities};

use crate::driving::begun;
use machine::{Code, Next, stands_next};
use pictures::{Awaited, Came, Clocks, Duty, Gathered, Held, Turn};
use replay::{Activities, Choice, Holder, upgrade};
use schedules::{Act, Entry, Schedule, Version};
use std::alloc::{AllocError, Global};

/// What stands next in an iteration.
#[derive(Clone, Copy)]
enum Stands {
    /// An advance of an event.
    Advance(u32),
    /// An await of an event of the iteration so many before.
    Await(u32, u128),
    /// Something else.
    Other,
}

/// What is seen of a processor before an entry of its is made.
#[derive(Clone, Copy)]
struct Before {
    held: Option<Held>,
    /// What stands next in the iteration that it holds.
    stands: Stands,
    /// How many iterations are open.
    open: u128,
}

/// What processor `q` holds.
fn held_by(activities: &Activities<'_>, q: usize) -> Option<Held> {
    match activities.held.get(q)? {
        None => None,
        Some(Holder::Main) => Some(Held::Main),
        Some(Holder::Iteration { number, .. }) => Some(Held::Iteration(*number)),
    }
}

/// What stands next in what processor `q` holds.
fn ahead(activities: &Activities<'_>, q: usize) -> Stands
    requires stand { AreActivities activities.now }
    requires processor { q < length activities.now.held.items }
{
    match activities.frame(q) {
        Some(frame) => match stands_next(activities.code, frame) {
            Next::Advance { event } => Stands::Advance(event),
            Next::Await { event, distance } => Stands::Await(event, distance),
            _ => Stands::Other,
        },
        None => Stands::Other,
    }
}

/// What is seen before an entry.
fn seen_before(activities: &Activities<'_>, entry: Entry) -> Before
    requires stand { AreActivities activities.now }
    requires processor { entry.processor < length activities.now.held.items }
{
    let q = usize::from(entry.processor);
    let held = held_by(activities, q);
    let stands = match (entry.act, held) {
        (Act::Share, Some(Held::Iteration(_))) => ahead(activities, q),
        _ => Stands::Other,
    };
    Before {
        held,
        stands,
        open: activities.overlap(),
    }
}

/// What came of an entry, by what its processor holds after it and how many iterations are open
/// then.
fn came(ended: bool, before: Before, after: Option<Held>, open: u128) -> Came {
    match (before.held, after) {
        _ if ended => Came::Ended,
        (Some(_), None) if open < before.open => Came::Retired,
        (Some(_), None) => Came::Parked,
        _ if matches!(before.stands, Stands::Advance(_)) => Came::Advanced,
        _ => Came::Nothing,
    }
}

/// What is awaited by what was parked, if it is an iteration that stood at an await.
fn awaited(came: Came, before: Before) -> Option<Awaited> {
    match (came, before.held, before.stands) {
        (Came::Parked, Some(Held::Iteration(number)), Stands::Await(event, distance)) => {
            Some(Awaited {
                event,
                iteration: number.saturating_sub(distance),
            })
        }
        _ => None,
    }
}

/// The event that was advanced, if one was.
fn advanced(came: Came, before: Before) -> Option<u32> {
    match (came, before.stands) {
        (Came::Advanced, Stands::Advance(event)) => Some(event),
        _ => None,
    }
}

/// Whether an entry touches what processors share.
fn is_shared(act: Act) -> bool {
    !matches!(act, Act::Work(_))
}

/// How many steps an entry makes.
fn steps_of(act: Act) -> u64 {
    match act {
        Act::Work(count) => u64::from(count),
        _ => 1,
    }
}

/// Makes an entry of a schedule whose picks are named.
fn make(activities: &mut Activities<'_>, entry: Entry) -> Result<bool, AllocError>
    requires stand { AreActivities activities.old }
    requires processor { entry.processor < length activities.old.held.items }
    ensures stand { AreActivities activities.new }
{
    let q = usize::from(entry.processor);
    match entry.act {
        Act::Work(0) => Ok(false),
        Act::Work(count) => Ok(activities.work(q, u32::from(count))),
        Act::Share => activities.share(q),
        Act::PickMain => activities.pick(q, Choice::Main),
        Act::PickIteration(number) => activities.pick(q, Choice::Iteration(number)),
        Act::TakeTicket => activities.pick(q, Choice::Ticket),
    }
}

/// Makes an entry, and gives what it did.
fn turn(activities: &mut Activities<'_>, entry: Entry) -> Result<Turn, AllocError>
    requires stand { AreActivities activities.old }
    requires processor { entry.processor < length activities.old.held.items }
    ensures stand { AreActivities activities.new }
{
    let q = usize::from(entry.processor);
    let before = seen_before(activities, entry);
    make(activities, entry)?;
    let after = held_by(activities, q);
    let open = activities.overlap();
    let came = came(activities.shared.ended.is_some(), before, after, open);
    Ok(Turn {
        processor: q,
        steps: steps_of(entry.act),
        shared: is_shared(entry.act),
        before: before.held,
        after,
        came,
        advanced: advanced(came, before),
        awaited: awaited(came, before),
        open: u64::try_from(open).unwrap_or(u64::MAX),
    })
}

/// How many of a schedule's processors have an entry.
fn busy(alloc: Global, schedule: &Schedule) -> Result<u64, AllocError> {
    let mut seen = vec![in alloc; false; usize::from(schedule.processors())]?;
    let mut entries = schedule.entries();
    while let Some(entry) = entries.next() {
        if let Some(seen) = seen.get_mut(usize::from(entry.processor)) {
            *seen = true;
        }
    }
    Ok(seen.iter().filter(|seen| **seen).count() as u64)
}

/// How many units of time a schedule takes, each step one.
fn units(alloc: Global, schedule: &Schedule) -> Result<u64, AllocError> {
    let mut clocks = Clocks::new(alloc, usize::from(schedule.processors()))?;
    let mut entries = schedule.entries();
    while let Some(entry) = entries.next() {
        clocks.make(Duty {
            processor: usize::from(entry.processor),
            steps: steps_of(entry.act),
            shared: is_shared(entry.act),
        });
    }
    Ok(clocks.end())
}

/// Makes the entries of a schedule whose picks are named, and gathers what its processors do.
fn gather(
    alloc: Global,
    activities: &mut Activities<'_>,
    schedule: &Schedule,
) -> Result<Gathered, AllocError>
    requires stand { AreActivities activities.old }
{
    let processors = usize::from(schedule.processors());
    let slots = u64::from(schedule.slots());
    let busy = busy(alloc, schedule)?;
    let units = units(alloc, schedule)?;
    let mut gathered = Gathered::new(alloc, units, processors, busy, slots)?;
    let mut entries = schedule.entries();
    while let Some(entry) = entries.next() {
        if usize::from(entry.processor) < activities.held.len() {
            gathered.note(turn(activities, entry)?)?;
        }
    }
    Ok(gathered)
}

/// What the processors do in the run that a schedule, whose picks are named, describes.
fn watched_named(
    alloc: Global,
    code: &Code,
    input: &[u8],
    schedule: &Schedule,
) -> Result<Gathered, AllocError> {
    let processors = usize::from(schedule.processors());
    let slots = usize::from(schedule.slots());
    match begun(alloc, code, input, processors, slots)? {
        Some(mut activities) => gather(alloc, &mut activities, schedule),
        None => Gathered::new(alloc, 0, 0, 0, 0),
    }
}

/// What the processors do in the run that a schedule describes, all of whose entries are possible.
pub fn watched(
    alloc: Global,
    code: &Code,
    input: &[u8],
    schedule: &Schedule,
) -> Result<Gathered, AllocError> {
    if schedule.version() == Version::Second {
        return watched_named(alloc, code, input, schedule);
    }
    match upgrade(alloc, code, input, schedule) {
        Ok(named) => watched_named(alloc, code, input, &named),
        Err(_) => Err(AllocError),
    }
}
