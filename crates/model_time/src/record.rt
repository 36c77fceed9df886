//! The schedule of a run in model time.

ghost use Rattle.std.specs.Prelude.{◌≡◌, ◌<◌, IfSome, OnOk, option_map};
ghost use Rattle.machine.specs.State.{AreSizes};
ghost use Rattle.schedules.specs.Schedules.{IsAct, IsSchedule, with_entries};
ghost use Rattle.schedules.specs.View.{act as act_view};
ghost use Rattle.schedules.specs.declared.entry.Version.TheVariants.{Second};
ghost use Rattle.model_time.specs.Records.{act_of, entries_of, new_schedule};

use crate::turned::Turned;
use activities::Choice;
use schedules::{Act, Entry, Schedule, Version};
use std::alloc::{AllocError, Global};

/// What is written of a turn: nothing where no step was made.
fn act_of(turned: Turned) -> Option<Act>
    ensures is { option_map act_view result ≡ act_of turned }
    ensures allowed { IfSome result (λ act. IsAct Second (act_view act)) }
{
    match turned {
        Turned::Local => Some(Act::Work(1)),
        Turned::Shared(_) => Some(Act::Share),
        Turned::Picked(Choice::Main) => Some(Act::PickMain),
        Turned::Picked(Choice::Iteration(number)) => Some(Act::PickIteration(number)),
        Turned::Picked(Choice::Ticket) => Some(Act::TakeTicket),
        Turned::Waited => None,
    }
}

/// A schedule without entries, if one is wanted.
pub fn schedule_at_first(alloc: Global, wanted: bool, p: u64, s: u64) -> Option<Schedule>
    requires sizes { AreSizes p s }
    ensures new { result ≡ new_schedule wanted p s }
{
    if wanted {
        Some(Schedule::new(alloc, Version::Second, p as u16, s as u16))
    } else {
        None
    }
}

/// A turn of processor `q` is added to a schedule.
fn push(schedule: &mut Schedule, q: usize, turned: Turned) -> Result<(), AllocError>
    requires version { schedule.old.version ≡ Second }
    requires kept { IsSchedule schedule.old }
    requires processor { q < schedule.old.processors }
    ensures ok { OnOk result (schedule.new ≡ with_entries schedule.old (entries_of q turned)) }
    ensures kept { IsSchedule schedule.new }
{
    let Some(act) = act_of(turned) else {
        return Ok(());
    };
    schedule.push(Entry {
        processor: q as u8,
        act,
    })
}

/// A turn of processor `q` is added to the schedule, if one is kept.
pub fn note(kept: &mut Option<Schedule>, q: usize, turned: Turned) -> Result<(), AllocError>
    requires of { IfSome kept.old (λ x. (x.version ≡ Second) × IsSchedule x × (q < x.processors)) }
    ensures ok { OnOk result (kept.new
        ≡ option_map (λ x. with_entries x (entries_of q turned)) kept.old) }
    ensures kept { IfSome kept.new IsSchedule }
{
    match kept {
        Some(schedule) => push(schedule, q, turned),
        None => Ok(()),
    }
}
