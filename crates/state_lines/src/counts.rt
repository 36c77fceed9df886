//! The counts of events.

ghost use Rattle.std.specs.Prelude.{◌≡◌, ◌++◌, ◌+◌, OnOk};
ghost use Rattle.activities.specs.Activities.{AreActivities, point_in};
ghost use Rattle.state_lines.specs.States.{count_line, count_lines};

use activities::Activities;
use ast::MOST_EVENTS;
use explanations::append_number;
use std::alloc::AllocError;

/// The count of an event; 0 where there is none of this number.
pub fn count_of(activities: &Activities<'_>, event: usize) -> u128
    requires stand { AreActivities activities.now }
    ensures { result ≡ (point_in activities.now).machine.counts event }
{
    if event == 0 || event > MOST_EVENTS {
        return 0;
    }
    activities.shared.kernel.read(event)
}

/// Appends the line of an event's count, where that isn't 0.
fn append_count(out: &mut Vec<u8>, event: usize, count: u128) -> Result<(), AllocError>
    ensures { OnOk result (out.new.items ≡ out.old.items ++ count_line event count) }
{
    if count == 0 {
        return Ok(());
    }
    out.extend_from_slice(b" EVENT ")?;
    append_number(out, event)?;
    out.extend_from_slice(b" COUNT ")?;
    append_number(out, count)?;
    out.extend_from_slice(b"\n")
}

/// Appends the lines of the counts of so many events.
pub fn append_counts(
    out: &mut Vec<u8>,
    activities: &Activities<'_>,
    events: u32,
) -> Result<(), AllocError>
    requires stand { AreActivities activities.now }
    ensures { OnOk result (out.new.items ≡ out.old.items
        ++ count_lines (point_in activities.now).machine.counts 1 events) }
{
    let mut left = events;
    let mut event: usize = 1;
    while left > 0 {
        append_count(out, event, count_of(activities, event))?;
        event += 1;
        left -= 1;
    }
    Ok(())
}
