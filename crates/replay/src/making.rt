//! Entries of schedules, made by activities.

ghost use Rattle.std.specs.Prelude.{◌≡◌, ◌<◌, IfOk, false, length, option_map};
ghost use Rattle.schedules.specs.Schedules.{IsAct, shares, works};
ghost use Rattle.schedules.specs.declared.entry.Version.TheVariants.{First, Second};
ghost use Rattle.schedules.specs.View.{act as act_view};
ghost use Rattle.activities.specs.Activities.{AreActivities, Stays, chosen, code_in, point_in};
ghost use Rattle.replay.specs.Making.{Made, pick_of};
ghost use Rattle.activities.specs.Points.{Moves, Point};

use activities::{Activities, Choice};
use schedules::{Act, Entry, Version};
use std::alloc::AllocError;

/// The entry of a choice.
pub fn pick_of(choice: Choice) -> Act
    ensures is { act_view result ≡ pick_of (chosen choice) }
    ensures allowed { IsAct Second (act_view result) }
{
    match choice {
        Choice::Main => Act::PickMain,
        Choice::Iteration(number) => Act::PickIteration(number),
        Choice::Ticket => Act::TakeTicket,
    }
}

/// Processor `q` picks; where it can't, nothing changes.
fn pick(
    activities: &mut Activities<'_>,
    version: Version,
    q: usize,
    choice: Choice,
) -> Result<Option<Act>, AllocError>
    requires stand { AreActivities activities.old }
    requires processor { q < length activities.old.held.items }
    ensures made { IfOk result (λ o.
        Made version (pick_of (chosen choice)) q (option_map act_view o) activities.old
        activities.new) }
    ensures stand { AreActivities activities.new }
    ensures stays { Stays activities.old activities.new }
{
    if activities.pick(q, choice)? {
        Ok(Some(pick_of(choice)))
    } else {
        Ok(None)
    }
}

/// Processor `q` picks by the rule of the first version; where it can't, nothing changes.
fn pick_by_rule(activities: &mut Activities<'_>, q: usize) -> Result<Option<Act>, AllocError>
    requires stand { AreActivities activities.old }
    requires processor { q < length activities.old.held.items }
    requires still { (b : Point)
        → Moves (code_in activities.old) activities.old.slots false (point_in activities.old) q b
        → ⊥ }
    ensures made { IfOk result (λ o.
        Made First shares q (option_map act_view o) activities.old activities.new) }
    ensures stand { AreActivities activities.new }
    ensures stays { Stays activities.old activities.new }
{
    let choice = activities.choice();
    if activities.pick(q, choice)? {
        Ok(Some(pick_of(choice)))
    } else {
        Ok(None)
    }
}

/// Processor `q` makes a shared step, which in the first version may be a pick.
fn share(
    activities: &mut Activities<'_>,
    version: Version,
    q: usize,
) -> Result<Option<Act>, AllocError>
    requires stand { AreActivities activities.old }
    requires processor { q < length activities.old.held.items }
    ensures made { IfOk result (λ o.
        Made version shares q (option_map act_view o) activities.old activities.new) }
    ensures stand { AreActivities activities.new }
    ensures stays { Stays activities.old activities.new }
{
    if activities.share(q)? {
        return Ok(Some(Act::Share));
    }
    match version {
        Version::First => pick_by_rule(activities, q),
        Version::Second => Ok(None),
    }
}

/// Processor `q` makes so many local instructions.
fn work(activities: &mut Activities<'_>, version: Version, q: usize, count: u16) -> Option<Act>
    requires stand { AreActivities activities.old }
    requires processor { q < length activities.old.held.items }
    requires allowed { IsAct version (works count) }
    ensures made { Made version (works count) q (option_map act_view result) activities.old
        activities.new }
    ensures stand { AreActivities activities.new }
    ensures stays { Stays activities.old activities.new }
{
    if activities.work(q, u32::from(count)) {
        Some(Act::Work(count))
    } else {
        None
    }
}

/// Makes an entry, and gives what it did, each pick named; `None` where it isn't possible.
pub fn make(
    activities: &mut Activities<'_>,
    version: Version,
    entry: Entry,
) -> Result<Option<Act>, AllocError>
    requires stand { AreActivities activities.old }
    requires processor { entry.processor < length activities.old.held.items }
    requires allowed { IsAct version (act_view entry.act) }
    ensures made { IfOk result (λ o.
        Made version (act_view entry.act) entry.processor (option_map act_view o) activities.old
        activities.new) }
    ensures stand { AreActivities activities.new }
    ensures stays { Stays activities.old activities.new }
{
    let q = usize::from(entry.processor);
    match entry.act {
        Act::Work(count) => Ok(work(activities, version, q, count)),
        Act::Share => share(activities, version, q),
        Act::PickMain => pick(activities, version, q, Choice::Main),
        Act::PickIteration(number) => pick(activities, version, q, Choice::Iteration(number)),
        Act::TakeTicket => pick(activities, version, q, Choice::Ticket),
    }
}
