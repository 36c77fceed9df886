//! Who is parked, and on what.

ghost use Rattle.std.specs.Prelude.{◌≡◌, ◌++◌, ◌-◌, ◌+◌, OnOk, None, Some, get_or, option_map, ◌%◌};
ghost use Rattle.machine.specs.FrameView.{frame_of};
ghost use Rattle.activities.specs.Activities.{AreActivities, code_in, kept_in, point_in};
ghost use Rattle.activities.specs.Parts.{numbered, standing};
ghost use Rattle.activities.specs.PartsView.{standing_of, wait as wait_of};
ghost use Rattle.state_lines.specs.States.{is_reached, iteration_line, parked_line, parked_lines};
ghost use Rattle.state_lines.specs.States.{main_line, state_word, until_words};

use crate::counts::count_of;
use crate::standing::append_stand;
use activities::{Activities, Iteration, Until};
use explanations::append_number;
use machine::Frame;
use std::alloc::AllocError;

/// Whether what is waited for is reached.
fn is_reached(activities: &Activities<'_>, until: Until) -> bool
    requires stand { AreActivities activities.now }
    ensures { result ≡ is_reached (point_in activities.now).machine (wait_of until) }
{
    match until {
        Until::Count { event, value } => value <= count_of(activities, event as usize),
        Until::Retired { value } => value <= activities.shared.kernel.read(0),
    }
}

/// Appends what is waited for.
fn append_until(out: &mut Vec<u8>, until: Until) -> Result<(), AllocError>
    ensures { OnOk result (out.new.items ≡ out.old.items ++ until_words (wait_of until)) }
{
    match until {
        Until::Count { event, value } => {
            out.extend_from_slice(b" UNTIL EVENT ")?;
            append_number(out, event)?;
            out.extend_from_slice(b" COUNT ")?;
            append_number(out, value)
        }
        Until::Retired { value } => {
            out.extend_from_slice(b" UNTIL RETIRED ")?;
            append_number(out, value)
        }
    }
}

/// Appends whether somebody who is parked may be taken up.
fn append_state(out: &mut Vec<u8>, reached: bool) -> Result<(), AllocError>
    ensures { OnOk result (out.new.items ≡ out.old.items ++ state_word reached) }
{
    if reached {
        out.extend_from_slice(b" READY")
    } else {
        out.extend_from_slice(b" WAITS")
    }
}

/// Appends the line of an activity that has this frame, if it is parked.
fn append_parked(
    out: &mut Vec<u8>,
    activities: &Activities<'_>,
    frame: &Frame,
    until: Option<Until>,
) -> Result<(), AllocError>
    requires stand { AreActivities activities.now }
    ensures { OnOk result (out.new.items ≡ out.old.items
        ++ parked_line (code_in activities.now) (point_in activities.now).machine
        (Some (frame_of frame.now)) (option_map wait_of until)) }
{
    let Some(until) = until else {
        return Ok(());
    };
    append_state(out, is_reached(activities, until))?;
    append_stand(out, activities.code, frame)?;
    append_until(out, until)?;
    out.extend_from_slice(b"\n")
}

/// Appends the line of main, if it is parked.
pub fn append_main(out: &mut Vec<u8>, activities: &Activities<'_>) -> Result<(), AllocError>
    requires stand { AreActivities activities.now }
    ensures { OnOk result (out.new.items ≡ out.old.items
        ++ main_line (code_in activities.now) (point_in activities.now).machine) }
{
    append_parked(
        out,
        activities,
        &activities.main.frame,
        activities.main.wait,
    )
}

/// What stands in the place of iteration `k`, if that is this one.
fn iteration_in<'a>(activities: &'a Activities<'_>, k: u128) -> Option<&'a Iteration>
    requires stand { AreActivities activities.now }
    ensures { option_map (λ i. standing_of i.now) result
        ≡ numbered k (get_or (kept_in activities.now).iterations (k % activities.now.slots) None) }
{
    let place = (k % activities.slots as u128) as usize;
    match &activities.iterations[place] {
        Some(iteration) if iteration.number == k => Some(iteration),
        _ => None,
    }
}

/// Iteration `k`, where it is open.
fn open_iteration<'a>(activities: &'a Activities<'_>, k: u128) -> Option<&'a Iteration>
    requires stand { AreActivities activities.now }
    ensures { option_map (λ i. standing_of i.now) result
        ≡ standing (kept_in activities.now).iterations activities.now.slots k }
{
    iteration_in(activities, k)
}

/// Appends the line of iteration `k`, if it is parked.
fn append_iteration(
    out: &mut Vec<u8>,
    activities: &Activities<'_>,
    k: u128,
) -> Result<(), AllocError>
    requires stand { AreActivities activities.now }
    ensures { OnOk result (out.new.items ≡ out.old.items
        ++ iteration_line (code_in activities.now) (point_in activities.now).machine k) }
{
    match open_iteration(activities, k) {
        Some(Iteration { frame, wait, .. }) => append_parked(out, activities, frame, *wait),
        None => Ok(()),
    }
}

/// Appends the lines of the iterations that are parked.
pub fn append_iterations(out: &mut Vec<u8>, activities: &Activities<'_>) -> Result<(), AllocError>
    requires stand { AreActivities activities.now }
    ensures { OnOk result (out.new.items ≡ out.old.items
        ++ parked_lines (code_in activities.now) (point_in activities.now).machine
        (point_in activities.now).machine.retired
        ((point_in activities.now).machine.ticket - (point_in activities.now).machine.retired)) }
{
    let mut k = activities.shared.kernel.read(0);
    let mut left = activities.overlap();
    while left > 0 {
        append_iteration(out, activities, k)?;
        k += 1;
        left -= 1;
    }
    Ok(())
}
