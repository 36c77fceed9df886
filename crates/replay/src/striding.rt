//! Strides of activities with their entries in a schedule.

ghost use Rattle.std.specs.Prelude.{◌≡◌, ◌≤◌, ◌<◌, ◌^◌, IfOk, OnOk, OnErr, false, true};
ghost use Rattle.std.specs.Prelude.{length, replicate};
ghost use Rattle.machine.specs.CodeView.{code_of};
ghost use Rattle.schedules.specs.Noting.{AllNoted, Notes};
ghost use Rattle.schedules.specs.Schedules.{IsSchedule};
ghost use Rattle.activities.specs.Activities.{Stays, code_in};
ghost use Rattle.activities.specs.Kinds.{IsPath, kinds};
ghost use Rattle.replay.specs.Striding.{IsStrode, Left, kinds_of, steps_in};
ghost use Rattle.replay.specs.Whole.{AreParts, IsSame};

use crate::legs::{Leg, Legs};
use crate::stepped::Tally;
use activities::Activities;
use schedules::{Act, Entry, Schedule};
use std::alloc::AllocError;

/// So many local instructions of processor `q` are added, from 1 to 1,024. Where memory is refused
/// nothing changes.
fn note_run(schedule: &mut Schedule, q: usize, steps: u32) -> Result<(), AllocError>
    requires kept { IsSchedule schedule.old }
    requires processor { q < schedule.old.processors }
    requires some { 1 ≤ steps }
    requires few { steps ≤ 1024 }
    ensures ok { OnOk result (AllNoted q (replicate steps true) schedule.old schedule.new) }
    ensures err { OnErr result (schedule.new ≡ schedule.old) }
    ensures kept { IsSchedule schedule.new }
    ensures few { length schedule.old.entries < 2 ^ 63 }
{
    let processor = q as u8;
    if schedule.lengthen(processor, steps as u16) {
        return Ok(());
    }
    schedule.push(Entry {
        processor,
        act: Act::Work(steps as u16),
    })?;
    Ok(())
}

/// A load or a store of processor `q` is added. Where memory is refused nothing changes.
fn note_share(schedule: &mut Schedule, q: usize) -> Result<(), AllocError>
    requires kept { IsSchedule schedule.old }
    requires processor { q < schedule.old.processors }
    ensures ok { OnOk result (Notes q false schedule.old schedule.new) }
    ensures err { OnErr result (schedule.new ≡ schedule.old) }
    ensures kept { IsSchedule schedule.new }
    ensures few { length schedule.old.entries < 2 ^ 63 }
{
    schedule.push(Entry {
        processor: q as u8,
        act: Act::Share,
    })
}

/// A leg of processor `q` is added. Where memory is refused nothing changes.
fn note_leg(schedule: &mut Schedule, q: usize, leg: Leg) -> Result<(), AllocError>
    requires kept { IsSchedule schedule.old }
    requires processor { q < schedule.old.processors }
    requires some { 1 ≤ leg.steps }
    requires few { leg.steps ≤ 1024 }
    ensures ok { OnOk result (AllNoted q (kinds_of leg) schedule.old schedule.new) }
    ensures err { OnErr result (schedule.new ≡ schedule.old) }
    ensures kept { IsSchedule schedule.new }
    ensures few { length schedule.old.entries < 2 ^ 63 }
{
    if leg.shared {
        note_share(schedule, q)
    } else {
        note_run(schedule, q, leg.steps)
    }
}

/// Of so many steps that were added last, the last ones are taken back, so that so many are left.
fn cut(schedule: &mut Schedule, planned: u32, made: u32)
    requires kept { IsSchedule schedule.old }
    requires few { made ≤ planned }
    ensures left { Left planned made schedule.old schedule.new }
    ensures kept { IsSchedule schedule.new }
{
    let mut left = planned;
    while left > made {
        schedule.shorten();
        left -= 1;
    }
}

/// The steps of processor `q` whose kinds the code tells from a place on are added, at most so
/// many; how many. Where memory is refused nothing changes.
fn plan(
    legs: &Legs<'_>,
    schedule: &mut Schedule,
    q: usize,
    start: usize,
    most: u32,
) -> Result<u32, AllocError>
    requires kept { IsSchedule schedule.old }
    requires processor { q < schedule.old.processors }
    requires most { most ≤ 1024 }
    ensures path { IfOk result (λ n. IsPath (code_of legs.now.code.now).instructions n start) }
    ensures noted { IfOk result (λ n. AllNoted q
        (kinds (code_of legs.now.code.now).instructions n start) schedule.old schedule.new) }
    ensures few { IfOk result (λ n. n ≤ most) }
    ensures err { OnErr result (schedule.new ≡ schedule.old) }
    ensures kept { IsSchedule schedule.new }
    ensures some { IfOk result (λ n. 1 ≤ n → length schedule.old.entries < 2 ^ 63) }
    ensures none { IfOk result (λ n. n ≡ 0 → schedule.new ≡ schedule.old) }
{
    let mut place = start;
    let mut planned = 0;
    while planned < most {
        let leg = legs.at(place, most - planned);
        if leg.steps == 0 {
            break;
        }
        if let Err(error) = note_leg(schedule, q, leg) {
            cut(schedule, planned, 0);
            return Err(error);
        }
        place = leg.next;
        planned += leg.steps;
    }
    Ok(planned)
}

/// Local instructions, loads and stores of what processor `q` holds, in its own place, at most `n`,
/// which is at most 1,024; how many. They are those whose kinds the code alone tells, and are added
/// to the schedule. Where memory is refused nothing changes.
pub fn stride(
    activities: &mut Activities<'_>,
    schedule: &mut Schedule,
    tally: &mut Tally,
    legs: &Legs<'_>,
    q: usize,
    n: u32,
) -> Result<u32, AllocError>
    requires parts { AreParts activities.old schedule.old tally.old }
    requires counted { tally.old.made ≡ steps_in schedule.old.entries }
    requires processor { q < schedule.old.processors }
    requires own { code_of legs.now.code.now ≡ code_in activities.old }
    requires most { n ≤ 1024 }
    ensures did { IfOk result (λ made. IsStrode q made activities.old schedule.old tally.old
        activities.new schedule.new tally.new) }
    ensures few { IfOk result (λ made. made ≤ n) }
    ensures err { OnErr result (IsSame activities.old schedule.old tally.old
        activities.new schedule.new tally.new) }
    ensures parts { AreParts activities.new schedule.new tally.new }
    ensures stays { Stays activities.old activities.new }
{
    let Some(frame) = activities.frame(q) else {
        return Ok(0);
    };
    let place = frame.stands_at();
    // Steps aren't taken back, so their entries have room before they are made.
    let planned = plan(legs, schedule, q, place, n)?;
    if planned == 0 {
        return Ok(0);
    }
    let made = activities.stride(q, planned);
    cut(schedule, planned, made);
    tally.count(made, false);
    Ok(made)
}
