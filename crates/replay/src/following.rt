//! The entries of a schedule, one after another.

ghost use Rattle.std.specs.Prelude.{◌≡◌, ◌<◌, ◌+◌, IfOk, IfErr, OnOk, length, None};
ghost use Rattle.machine.specs.CodeView.{code_of};
ghost use Rattle.schedules.specs.Refusals.{Explains};
ghost use Rattle.schedules.specs.Schedules.{IsAct};
ghost use Rattle.schedules.specs.View.{act as act_view};
ghost use Rattle.activities.specs.Activities.{AreActivities, AreOf, Stays, code_in, point_in};
ghost use Rattle.replay.specs.Making.{MadeAs};
ghost use Rattle.replay.specs.Followed.{Follows, SaysNoneLead, SaysStop};
ghost use Rattle.replay.specs.Replayed.{CannotBeMade};
ghost use Rattle.activities.specs.Points.{beginning};

use crate::making::make;
use activities::Activities;
use machine::Code;
use schedules::{Act, Entry, FIRST_ENTRY_LINE, Flaw, ReplayRefusal, Schedule, Version};
use std::alloc::Global;

/// Makes the entry at a line, and gives what it did, each pick named.
///
/// # Errors
///
/// `BehindEnd` where the run has ended, `Impossible` where the entry isn't possible; and want of
/// memory.
pub fn make_at(
    activities: &mut Activities<'_>,
    version: Version,
    entry: Entry,
    line: usize,
) -> Result<Act, ReplayRefusal>
    requires stand { AreActivities activities.old }
    requires processor { entry.processor < length activities.old.held.items }
    requires allowed { IsAct version (act_view entry.act) }
    ensures made { IfOk result (λ named.
        MadeAs version (code_in activities.old) activities.old.slots (act_view entry.act)
        (point_in activities.old) entry.processor (act_view named) (point_in activities.new)) }
    ensures refused { IfErr result (λ fault.
        Explains fault (λ flaw at. (at ≡ line)
        × CannotBeMade version (code_in activities.old) activities.old.slots (act_view entry.act)
        (point_in activities.old) entry.processor flaw)) }
    ensures stand { AreActivities activities.new }
    ensures stays { Stays activities.old activities.new }
{
    if activities.shared.ended.is_some() {
        return Err(ReplayRefusal::Refused {
            number: Flaw::BehindEnd,
            line,
        });
    }
    match make(activities, version, entry)? {
        Some(act) => Ok(act),
        None => Err(ReplayRefusal::Refused {
            number: Flaw::Impossible,
            line,
        }),
    }
}

/// The activities at the beginning of a schedule's run.
pub fn begun<'c>(
    alloc: Global,
    code: &'c Code,
    input: &'c [u8],
    schedule: &Schedule,
) -> Result<Activities<'c>, ReplayRefusal>
    ensures point { IfOk result (λ a. point_in a
        ≡ beginning (code_of code.now) input.now schedule.now.slots) }
    ensures are { IfOk result (λ a.
        AreOf (code_of code.now) schedule.now.processors schedule.now.slots a) }
    ensures stand { IfOk result AreActivities }
    ensures memory { IfErr result (λ fault. Explains fault (λ flaw line. ⊥)) }
{
    let processors = usize::from(schedule.processors());
    let slots = usize::from(schedule.slots());
    Ok(Activities::new(alloc, code, input, processors, slots)?)
}

/// Makes the entries of a schedule from the beginning on.
///
/// # Errors
///
/// `BehindEnd` at the first entry behind the end of the run, `Impossible` at the first that isn't
/// possible before that; and want of memory.
pub fn follow(activities: &mut Activities<'_>, schedule: &Schedule) -> Result<(), ReplayRefusal>
    requires stand { AreActivities activities.old }
    requires of { AreOf (code_in activities.old) schedule.now.processors schedule.now.slots
        activities.old }
    ensures leads { OnOk result (Follows schedule.now activities.old activities.new) }
    ensures refused { IfErr result (SaysStop schedule.now activities.old) }
    ensures only { IfErr result (SaysNoneLead schedule.now activities.old) }
    ensures stand { AreActivities activities.new }
    ensures stays { Stays activities.old activities.new }
{
    let version = schedule.version();
    let mut entries = schedule.entries();
    let mut line = FIRST_ENTRY_LINE;
    while let Some(entry) = entries.next() {
        if let Err(refusal) = make_at(activities, version, entry, line) {
            return Err(refusal);
        }
        line += 1;
    }
    Ok(())
}
