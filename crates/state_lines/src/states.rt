//! States.

ghost use Rattle.std.specs.Prelude.{◌≡◌, ◌<◌, ◌++◌, OnOk, Some, length};
ghost use Rattle.machine.specs.CodeView.{code_of};
ghost use Rattle.machine.specs.FrameView.{frame_of};
ghost use Rattle.activities.specs.Activities.{AreActivities, code_in, frame_at, point_in};
ghost use Rattle.state_lines.specs.States.{ended_line, event_lines, held_line, held_lines};
ghost use Rattle.state_lines.specs.States.{open_line, state_lines};

use crate::counts::append_counts;
use crate::parked::{append_iterations, append_main};
use crate::standing::append_stand;
use activities::Activities;
use ast::MOST_EVENTS;
use explanations::append_number;
use machine::{Code, Frame};
use std::alloc::AllocError;

/// Appends the line of a processor that holds the activity of a frame.
fn append_holding(out: &mut Vec<u8>, code: &Code, q: usize, frame: &Frame) -> Result<(), AllocError>
    ensures { OnOk result (out.new.items ≡ out.old.items
        ++ held_line (code_of code.now) q (Some (frame_of frame.now))) }
{
    out.extend_from_slice(b" PROCESSOR ")?;
    append_number(out, q)?;
    append_stand(out, code, frame)?;
    out.extend_from_slice(b"\n")
}

/// Appends the line of processor `q`, if it holds anything.
fn append_held(out: &mut Vec<u8>, activities: &Activities<'_>, q: usize) -> Result<(), AllocError>
    requires stand { AreActivities activities.now }
    requires processor { q < length activities.now.held.items }
    ensures { OnOk result (out.new.items ≡ out.old.items
        ++ held_line (code_in activities.now) q (frame_at q (point_in activities.now))) }
{
    match activities.frame(q) {
        Some(frame) => append_holding(out, activities.code, q, frame),
        None => Ok(()),
    }
}

/// Appends the lines of the processors that hold something.
fn append_all_held(out: &mut Vec<u8>, activities: &Activities<'_>) -> Result<(), AllocError>
    requires stand { AreActivities activities.now }
    ensures { OnOk result (out.new.items ≡ out.old.items
        ++ held_lines (code_in activities.now) (point_in activities.now) 0
        (length activities.now.held.items)) }
{
    for q in 0..activities.held.len() {
        append_held(out, activities, q)?;
    }
    Ok(())
}

/// Appends how many iterations have retired, and which ticket is next.
fn append_open(out: &mut Vec<u8>, activities: &Activities<'_>) -> Result<(), AllocError>
    requires stand { AreActivities activities.now }
    ensures { OnOk result (out.new.items ≡ out.old.items
        ++ open_line (point_in activities.now).machine) }
{
    out.extend_from_slice(b" RETIRED ")?;
    append_number(out, activities.shared.kernel.read(0))?;
    out.extend_from_slice(b" TICKET ")?;
    append_number(out, activities.shared.kernel.next_ticket())?;
    out.extend_from_slice(b"\n")
}

/// Appends the counts of events that aren't 0.
fn append_events(out: &mut Vec<u8>, activities: &Activities<'_>) -> Result<(), AllocError>
    requires stand { AreActivities activities.now }
    ensures { OnOk result (out.new.items ≡ out.old.items
        ++ event_lines (point_in activities.now).machine) }
{
    append_counts(out, activities, MOST_EVENTS as u32)
}

/// Appends that the run has ended, where it has.
fn append_ended(out: &mut Vec<u8>, ended: bool) -> Result<(), AllocError>
    ensures { OnOk result (out.new.items ≡ out.old.items ++ ended_line ended) }
{
    if ended {
        out.extend_from_slice(b" ENDED\n")
    } else {
        Ok(())
    }
}

/// Appends the lines of a state.
pub fn append_state(out: &mut Vec<u8>, activities: &Activities<'_>) -> Result<(), AllocError>
    requires stand { AreActivities activities.now }
    ensures { OnOk result (out.new.items ≡ out.old.items
        ++ state_lines (code_in activities.now) (length activities.now.held.items)
        (point_in activities.now)) }
{
    append_open(out, activities)?;
    append_events(out, activities)?;
    append_all_held(out, activities)?;
    append_main(out, activities)?;
    append_iterations(out, activities)?;
    append_ended(out, activities.shared.ended.is_some())
}
