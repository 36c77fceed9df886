//! Blocks of lines, each of a line of a schedule.

ghost use Rattle.std.specs.Prelude.{◌≡◌, ◌++◌, OnOk, length};
ghost use Rattle.schedules.specs.Schedules.{act_text};
ghost use Rattle.schedules.specs.View.{act as act_view, entry as entry_view};
ghost use Rattle.activities.specs.Activities.{AreActivities, code_in, point_in};
ghost use Rattle.state_lines.specs.States.{block, first_block, head_line};

use crate::records::{append_marked, behind};
use crate::states::append_state;
use activities::Activities;
use explanations::append_number;
use schedules::{Act, Entry};
use std::alloc::AllocError;

/// Appends what a processor does, as a schedule's text has it.
fn append_act(out: &mut Vec<u8>, act: Act) -> Result<(), AllocError>
    ensures { OnOk result (out.new.items ≡ out.old.items ++ act_text (act_view act)) }
{
    match act {
        Act::Work(count) => append_number(out, count),
        Act::Share => out.extend_from_slice(b"0"),
        Act::PickMain => out.extend_from_slice(b"M"),
        Act::PickIteration(number) => {
            out.extend_from_slice(b"I ")?;
            append_number(out, number)
        }
        Act::TakeTicket => out.extend_from_slice(b"T"),
    }
}

/// Appends the line that heads the block of an entry.
fn append_head(out: &mut Vec<u8>, entry: Entry, line: usize) -> Result<(), AllocError>
    ensures { OnOk result (out.new.items ≡ out.old.items ++ head_line line (entry_view entry)) }
{
    out.extend_from_slice(b"LINE ")?;
    append_number(out, line)?;
    out.extend_from_slice(b" ENTRY ")?;
    append_number(out, entry.processor)?;
    out.push(b' ')?;
    append_act(out, entry.act)?;
    out.extend_from_slice(b"\n")
}

/// Appends the block of a schedule's second line: the state in which a run begins.
///
/// # Errors
///
/// `AllocError` where memory is refused; a part may have been appended then.
pub fn append_first(out: &mut Vec<u8>, activities: &Activities<'_>) -> Result<(), AllocError>
    requires stand { AreActivities activities.now }
    ensures { OnOk result (out.new.items ≡ out.old.items
        ++ first_block (code_in activities.now) (length activities.now.held.items)
        (point_in activities.now)) }
{
    out.extend_from_slice(b"LINE 2\n")?;
    append_state(out, activities)
}

/// Appends the block of the entry in this line of a schedule, which has led to where the activities
/// stand: the records that went out since the output had so many bytes, and the state.
///
/// # Errors
///
/// `AllocError` where memory is refused; a part may have been appended then.
pub fn append_block(
    out: &mut Vec<u8>,
    activities: &Activities<'_>,
    entry: Entry,
    line: usize,
    before: usize,
) -> Result<(), AllocError>
    requires stand { AreActivities activities.now }
    ensures { OnOk result (out.new.items ≡ out.old.items
        ++ block (code_in activities.now) (length activities.now.held.items) line
        (entry_view entry) before (point_in activities.now)) }
{
    append_head(out, entry, line)?;
    append_marked(out, behind(&activities.shared.output, before))?;
    append_state(out, activities)
}
