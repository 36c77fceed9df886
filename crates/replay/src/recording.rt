//! Steps of activities with their entries in a schedule.

ghost use Rattle.std.specs.Prelude.{◌≡◌, ◌≤◌, ◌<◌, IfOk, OnOk, OnErr, Some, None, false, true};
ghost use Rattle.std.specs.Prelude.{is_some, length, option_map};
ghost use Rattle.machine.specs.FrameView.{frame_of};
ghost use Rattle.machine.specs.State.{iteration};
ghost use Rattle.activities.specs.Activities.{AreActivities, Stays, chosen, frame_at, kept_in};
ghost use Rattle.activities.specs.Activities.{code_in, point_in, who};
ghost use Rattle.activities.specs.Parts.{held_of};
ghost use Rattle.activities.specs.Putting.{LeadTo};
ghost use Rattle.activities.specs.Points.{NoLocal, wait_of};
ghost use Rattle.replay.specs.Tallies.{takes_parked};
ghost use Rattle.replay.specs.Whole.{AreParts, IsBurst, IsSame, IsWorked, Shares, TakesUp};

use crate::making::pick_of;
use crate::stepped::Tally;
use activities::{Activities, Choice, Holder};
use machine::Frame;
use schedules::{Act, Entry, Schedule};
use std::alloc::AllocError;

/// Whether iteration `number` is what a processor holds.
fn is_iteration(held: Option<Holder>, number: u128) -> bool
    ensures { result ≡ true → option_map who held ≡ Some (iteration number) }
{
    match held {
        Some(Holder::Iteration { number: k, .. }) => k == number,
        Some(Holder::Main) | None => false,
    }
}

/// Whether an activity is parked. If processor `q` holds it, it isn't.
fn is_parked(activities: &Activities<'_>, q: usize, holder: Holder) -> bool
    requires stand { AreActivities activities.now }
    requires processor { q < length activities.now.held.items }
    ensures { result ≡ is_some (wait_of (point_in activities.now).machine (who holder)) }
{
    match holder {
        Holder::Main => activities.main.wait.is_some(),
        Holder::Iteration { number, .. } => {
            if is_iteration(activities.held[q], number) {
                return false;
            }
            match &activities.iterations[activities.place_of(number)] {
                Some(iteration) => iteration.number == number && iteration.wait.is_some(),
                None => false,
            }
        }
    }
}

/// Whether who is taken up was parked.
fn was_parked(choice: Choice) -> bool
    ensures { result ≡ takes_parked (chosen choice) }
{
    match choice {
        Choice::Main | Choice::Iteration(_) => true,
        Choice::Ticket => false,
    }
}

/// Processor `q` makes the shared step of what it holds; where there is none it answers false, and
/// nothing changes, as where memory is refused.
pub fn share(
    activities: &mut Activities<'_>,
    schedule: &mut Schedule,
    tally: &mut Tally,
    q: usize,
    holder: Holder,
) -> Result<bool, AllocError>
    requires parts { AreParts activities.old schedule.old tally.old }
    requires processor { q < schedule.old.processors }
    requires holds { held_of (kept_in activities.old).held q ≡ Some (who holder) }
    ensures did { IfOk result (λ did. Shares did q activities.old schedule.old tally.old
        activities.new schedule.new tally.new) }
    ensures err { OnErr result (IsSame activities.old schedule.old tally.old
        activities.new schedule.new tally.new) }
    ensures parts { AreParts activities.new schedule.new tally.new }
    ensures stays { Stays activities.old activities.new }
{
    schedule.push(Entry {
        processor: q as u8,
        act: Act::Share,
    })?;
    match activities.share(q) {
        Ok(true) => {
            let parked = is_parked(activities, q, holder);
            tally.count(1, parked);
            Ok(true)
        }
        Ok(false) => {
            schedule.take_back();
            Ok(false)
        }
        Err(error) => {
            schedule.take_back();
            Err(error)
        }
    }
}

/// Processor `q`, which holds nothing, takes this up; where it can't it answers false, and nothing
/// changes, as where memory is refused.
pub fn pick(
    activities: &mut Activities<'_>,
    schedule: &mut Schedule,
    tally: &mut Tally,
    q: usize,
    choice: Choice,
) -> Result<bool, AllocError>
    requires parts { AreParts activities.old schedule.old tally.old }
    requires processor { q < schedule.old.processors }
    ensures did { IfOk result (λ did. TakesUp did q (chosen choice)
        activities.old schedule.old tally.old activities.new schedule.new tally.new) }
    ensures err { OnErr result (IsSame activities.old schedule.old tally.old
        activities.new schedule.new tally.new) }
    ensures parts { AreParts activities.new schedule.new tally.new }
    ensures stays { Stays activities.old activities.new }
{
    schedule.push(Entry {
        processor: q as u8,
        act: pick_of(choice),
    })?;
    match activities.pick(q, choice) {
        Ok(true) => {
            tally.count(1, was_parked(choice));
            Ok(true)
        }
        Ok(false) => {
            schedule.take_back();
            Ok(false)
        }
        Err(error) => {
            schedule.take_back();
            Err(error)
        }
    }
}

/// What processor `q` holds gets the frame to which so many local instructions of its own lead,
/// from 1 to 1,024. Where memory is refused nothing changes.
pub fn put(
    activities: &mut Activities<'_>,
    schedule: &mut Schedule,
    tally: &mut Tally,
    q: usize,
    mut to: Frame,
    made: u32,
) -> Result<(), AllocError>
    requires parts { AreParts activities.old schedule.old tally.old }
    requires processor { q < schedule.old.processors }
    requires going { activities.old.shared.ended ≡ None }
    requires some { 1 ≤ made }
    requires few { made ≤ 1024 }
    requires leads { LeadTo activities.old q made (frame_of to) }
    requires holds { is_some (frame_at q (point_in activities.old)) ≡ true }
    ensures did { OnOk result (IsBurst q made activities.old schedule.old tally.old
        activities.new schedule.new tally.new) }
    ensures err { OnErr result (IsSame activities.old schedule.old tally.old
        activities.new schedule.new tally.new) }
    ensures parts { AreParts activities.new schedule.new tally.new }
    ensures stays { Stays activities.old activities.new }
{
    schedule.push(Entry {
        processor: q as u8,
        act: Act::Work(made as u16),
    })?;
    activities.put(q, &mut to);
    tally.count(made, false);
    Ok(())
}

/// What processor `q` holds gets the frame to which so many local instructions of its own lead, and
/// gives its own for it. The schedule gets as many entries as that takes. Where memory is refused
/// nothing changes.
pub fn put_all(
    activities: &mut Activities<'_>,
    schedule: &mut Schedule,
    tally: &mut Tally,
    q: usize,
    to: &mut Frame,
    made: u32,
) -> Result<(), AllocError>
    requires parts { AreParts activities.old schedule.old tally.old }
    requires processor { q < schedule.old.processors }
    requires going { activities.old.shared.ended ≡ None }
    requires some { 1 ≤ made }
    requires leads { LeadTo activities.old q made (frame_of to.old) }
    requires holds { is_some (frame_at q (point_in activities.old)) ≡ true }
    ensures did { OnOk result (IsWorked q made activities.old schedule.old tally.old
        activities.new schedule.new tally.new) }
    ensures err { OnErr result (IsSame activities.old schedule.old tally.old
        activities.new schedule.new tally.new) }
    ensures kept { OnErr result (frame_of to.new ≡ frame_of to.old) }
    ensures parts { AreParts activities.new schedule.new tally.new }
    ensures stays { Stays activities.old activities.new }
{
    schedule.push_work(q as u8, made)?;
    activities.put(q, to);
    tally.count(made, false);
    Ok(())
}

/// As many local instructions as stand next of what processor `q` holds, at most `n`, which is from
/// 1 to 1,024, in its own place; how many. The schedule gets an entry of them, if there are any.
/// Where memory is refused nothing changes.
pub fn labour(
    activities: &mut Activities<'_>,
    schedule: &mut Schedule,
    tally: &mut Tally,
    q: usize,
    n: u32,
) -> Result<u32, AllocError>
    requires parts { AreParts activities.old schedule.old tally.old }
    requires processor { q < schedule.old.processors }
    requires some { 1 ≤ n }
    requires few { n ≤ 1024 }
    ensures did { IfOk result (λ made. IsWorked q made activities.old schedule.old tally.old
        activities.new schedule.new tally.new) }
    ensures all { IfOk result (λ made. made < n
        → NoLocal (code_in activities.old) schedule.old.slots (point_in activities.new) q) }
    ensures few { IfOk result (λ made. made ≤ n) }
    ensures err { OnErr result (IsSame activities.old schedule.old tally.old
        activities.new schedule.new tally.new) }
    ensures parts { AreParts activities.new schedule.new tally.new }
    ensures stays { Stays activities.old activities.new }
{
    // Instructions aren't taken back, so the entry has its room before they are made.
    schedule.push(Entry {
        processor: q as u8,
        act: Act::Work(n as u16),
    })?;
    let made = activities.labour(q, n);
    schedule.recount(made as u16);
    tally.count(made, false);
    Ok(made)
}
