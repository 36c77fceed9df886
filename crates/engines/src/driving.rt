//! Activities, driven on one thread.

ghost use Rattle.std.specs.Prelude.{IfOk, IfSome};
ghost use Rattle.activities.specs.Activities.{AreActivities};

use machine::{Code, stands_local};
use replay::Activities;
use schedules::{MOST_PROCESSORS, MOST_SLOTS};
use std::alloc::{AllocError, Global};

/// The activities at the beginning of a run of so many processors with so many open iterations;
/// `None` where there are no such runs.
pub fn begun<'c>(
    alloc: Global,
    code: &'c Code,
    input: &'c [u8],
    processors: usize,
    slots: usize,
) -> Result<Option<Activities<'c>>, AllocError>
    ensures stand { IfOk result (λ o. IfSome o AreActivities) }
{
    let most = usize::from(MOST_PROCESSORS);
    if processors < 1 || processors > most || slots < 1 || slots > usize::from(MOST_SLOTS) {
        return Ok(None);
    }
    Ok(Some(Activities::new(alloc, code, input, processors, slots)?))
}

/// The one processor of a run does what it does next; whether it did something.
fn go_on(activities: &mut Activities<'_>) -> Result<bool, AllocError>
    requires stand { AreActivities activities.old }
    ensures stand { AreActivities activities.new }
{
    if activities.held.is_empty() {
        return Ok(false);
    }
    let local = match activities.frame(0) {
        Some(frame) => stands_local(activities.code, frame),
        None => {
            let choice = activities.choice();
            return activities.pick(0, choice);
        }
    };
    if local {
        Ok(activities.work(0, 1))
    } else {
        activities.share(0)
    }
}

/// How many steps code takes on an input with one processor and one open iteration.
pub fn steps_alone(alloc: Global, code: &Code, input: &[u8]) -> Result<u128, AllocError> {
    let Some(mut activities) = begun(alloc, code, input, 1, 1)? else {
        return Ok(0);
    };
    let mut made = 0u128;
    for _ in 0..u64::MAX {
        if !go_on(&mut activities)? {
            break;
        }
        made = made.saturating_add(1);
    }
    Ok(made)
}
