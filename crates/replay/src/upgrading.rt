//! Schedules in which each pick is named.

ghost use Rattle.std.specs.Prelude.{◌≡◌, IfOk, IfErr, OnOk, []};
ghost use Rattle.machine.specs.CodeView.{code_of};
ghost use Rattle.schedules.specs.Refusals.{Explains};
ghost use Rattle.schedules.specs.Schedules.{IsSchedule};
ghost use Rattle.schedules.specs.declared.entry.Version.TheVariants.{First, Second};
ghost use Rattle.activities.specs.Activities.{AreActivities, AreOf, code_in, point_in};
ghost use Rattle.replay.specs.Followed.{Follows, SaysNoneLead, SaysStop};
ghost use Rattle.replay.specs.Making.{AreNamed};
ghost use Rattle.replay.specs.Replayed.{HasStop, IsUpgrade, LeadsNowhere, NamesPicks};
ghost use Rattle.replay.specs.Replays.{Leads};

use crate::following::{begun, follow, make_at};
use activities::Activities;
use machine::Code;
use schedules::{Entry, FIRST_ENTRY_LINE, ReplayRefusal, Schedule, Version};
use std::alloc::Global;

/// Makes the entries of a schedule from the beginning on, and adds them to another one, each pick
/// named. The errors are those of [`follow`].
fn follow_naming(
    activities: &mut Activities<'_>,
    schedule: &Schedule,
    named: &mut Schedule,
) -> Result<(), ReplayRefusal>
    requires stand { AreActivities activities.old }
    requires of { AreOf (code_in activities.old) schedule.now.processors schedule.now.slots
        activities.old }
    requires new { named.old ≡ record schedule.now { version = Second; entries = [] } }
    ensures leads { OnOk result (Follows schedule.now activities.old activities.new) }
    ensures named { OnOk result
        (Leads Second (code_in activities.old) schedule.now.slots (point_in activities.old)
        named.new.entries (point_in activities.new)) }
    ensures each { OnOk result (AreNamed schedule.now.entries named.new.entries) }
    ensures sizes { named.new ≡ record named.old { entries = named.new.entries } }
    ensures refused { IfErr result (SaysStop schedule.now activities.old) }
    ensures only { IfErr result (SaysNoneLead schedule.now activities.old) }
{
    let version = schedule.version();
    let mut entries = schedule.entries();
    let mut line = FIRST_ENTRY_LINE;
    while let Some(entry) = entries.next() {
        match make_at(activities, version, entry, line) {
            Ok(act) => named.push(Entry {
                processor: entry.processor,
                act,
            })?,
            Err(refusal) => return Err(refusal),
        }
        line += 1;
    }
    Ok(())
}

/// The schedule with its picks named.
fn with_names(
    alloc: Global,
    activities: &mut Activities<'_>,
    schedule: &Schedule,
) -> Result<Schedule, ReplayRefusal>
    requires stand { AreActivities activities.old }
    requires of { AreOf (code_in activities.old) schedule.now.processors schedule.now.slots
        activities.old }
    requires first { schedule.now.version ≡ First }
    ensures found { IfOk result
        (NamesPicks (code_in activities.old) (point_in activities.old) schedule.now) }
    ensures refused { IfErr result (SaysStop schedule.now activities.old) }
    ensures only { IfErr result (SaysNoneLead schedule.now activities.old) }
{
    let mut named = Schedule::new(
        alloc,
        Version::Second,
        schedule.processors(),
        schedule.slots(),
    );
    match follow_naming(activities, schedule, &mut named) {
        Ok(()) => Ok(named),
        Err(refusal) => Err(refusal),
    }
}

/// The schedule itself, whose picks are named.
fn as_it_is(activities: &mut Activities<'_>, schedule: &Schedule) -> Result<Schedule, ReplayRefusal>
    requires stand { AreActivities activities.old }
    requires of { AreOf (code_in activities.old) schedule.now.processors schedule.now.slots
        activities.old }
    requires second { schedule.now.version ≡ Second }
    ensures found { IfOk result
        (NamesPicks (code_in activities.old) (point_in activities.old) schedule.now) }
    ensures refused { IfErr result (SaysStop schedule.now activities.old) }
    ensures only { IfErr result (SaysNoneLead schedule.now activities.old) }
{
    match follow(activities, schedule) {
        Ok(()) => Ok(schedule.try_copy()?),
        Err(refusal) => Err(refusal),
    }
}

/// A schedule of the second version that leads to the same point, whether the run ends there or
/// not. Its entries are the same, one by one, but for shared steps that turn out to be picks; one
/// that is of that version already is given back as it is.
///
/// # Errors
///
/// `Impossible` at the first entry that isn't possible, `BehindEnd` at the first one behind the end
/// of the run; and want of memory.
pub fn upgrade<'c>(
    alloc: Global,
    code: &'c Code,
    input: &'c [u8],
    schedule: &Schedule,
) -> Result<Schedule, ReplayRefusal>
    ensures found { IfOk result (IsUpgrade (code_of code.now) input.now schedule.now) }
    ensures kept { IfOk result IsSchedule }
    ensures refused { IfErr result (λ fault.
        Explains fault (HasStop (code_of code.now) input.now schedule.now)) }
    ensures only { IfErr result (λ fault.
        Explains fault (λ flaw line. LeadsNowhere (code_of code.now) input.now schedule.now)) }
{
    let mut activities = begun(alloc, code, input, schedule)?;
    match schedule.version() {
        Version::First => with_names(alloc, &mut activities, schedule),
        Version::Second => as_it_is(&mut activities, schedule),
    }
}
