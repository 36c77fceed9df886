//! The entries of a schedule, each with the state to which it leads.

ghost use Rattle.std.specs.Prelude.{◌≡◌, [], IfErr, OnOk, length};
ghost use Rattle.std.specs.Io.KnownBytes.{Appends};
ghost use Rattle.schedules.specs.View.{entry as entry_view};
ghost use Rattle.activities.specs.Activities.{AreActivities, AreOf, Stays, code_in, point_in};
ghost use Rattle.state_lines.specs.States.{block, first_block};
ghost use Rattle.states.specs.Followed.{AreShown, Falls, Halts};

use activities::Activities;
use record_writer::write_all;
use replay::make_at;
use schedules::{Entry, FIRST_ENTRY_LINE, ReplayRefusal, Schedule};
use state_lines::{append_block, append_first};
use std::alloc::AllocError;
use std::io::{Error, Write};

/// Why no further state is shown.
#[derive(Drop)]
pub enum Halt {
    /// The next entry is refused, or there was no memory.
    Replay(ReplayRefusal),
    /// The writer failed.
    Writing(Error),
}

impl From<AllocError> for Halt {
    ghost use Rattle.std.specs.Prelude.{◌≡◌};
    ghost use Rattle.schedules.specs.declared.refusal.ReplayRefusal.TheVariants.{Memory};
    ghost use Rattle.states.specs.declared.following.Halt.TheVariants.{Replay};

    ghost from_gives = { λ _ halt. halt ≡ Replay Memory };

    fn from(_error: AllocError) -> Halt {
        Halt::Replay(ReplayRefusal::Memory)
    }
}

/// Writes a text.
fn put<W: Write>(text: &[u8], out: &mut W) -> Result<(), Halt>
    ensures ok { OnOk result (Appends (W.contents out.old) (W.contents out.new) text.now) }
    ensures err { IfErr result (Falls (W.contents out.old) (W.contents out.new) text.now) }
{
    match write_all(out, text) {
        Ok(()) => Ok(()),
        Err(error) => Err(Halt::Writing(error)),
    }
}

/// Writes the block of a schedule's second line: the state in which a run begins.
fn show_first<W: Write>(activities: &Activities<'_>, out: &mut W) -> Result<(), Halt>
    requires stand { AreActivities activities.now }
    ensures ok { OnOk result (Appends (W.contents out.old) (W.contents out.new)
        (first_block (code_in activities.now) (length activities.now.held.items)
        (point_in activities.now))) }
    ensures err { IfErr result (Falls (W.contents out.old) (W.contents out.new)
        (first_block (code_in activities.now) (length activities.now.held.items)
        (point_in activities.now))) }
{
    let mut text = Vec::new(*activities.shared.output.allocator());
    append_first(&mut text, activities)?;
    put(&text, out)
}

/// Writes the block of the entry in this line, which has led to where the activities stand; the
/// output had so many bytes before.
fn show_entry<W: Write>(
    activities: &Activities<'_>,
    entry: Entry,
    line: usize,
    before: usize,
    out: &mut W,
) -> Result<(), Halt>
    requires stand { AreActivities activities.now }
    ensures ok { OnOk result (Appends (W.contents out.old) (W.contents out.new)
        (block (code_in activities.now) (length activities.now.held.items) line
        (entry_view entry) before (point_in activities.now))) }
    ensures err { IfErr result (Falls (W.contents out.old) (W.contents out.new)
        (block (code_in activities.now) (length activities.now.held.items) line
        (entry_view entry) before (point_in activities.now))) }
{
    let mut text = Vec::new(*activities.shared.output.allocator());
    append_block(&mut text, activities, entry, line, before)?;
    put(&text, out)
}

/// How many bytes have gone out.
fn gone_out(activities: &Activities<'_>) -> usize
    ensures { result ≡ length (point_in activities.now).machine.output }
{
    activities.shared.output.len()
}

/// Makes the entries of a schedule from where the activities stand, and writes the block of each.
fn show_entries<W: Write>(
    activities: &mut Activities<'_>,
    schedule: &Schedule,
    out: &mut W,
) -> Result<(), Halt>
    requires stand { AreActivities activities.old }
    requires of { AreOf (code_in activities.old) schedule.now.processors schedule.now.slots
        activities.old }
    ensures shown { OnOk result (AreShown [] schedule.now activities.old activities.new
        (W.contents out.old) (W.contents out.new)) }
    ensures halted { IfErr result (Halts [] schedule.now activities.old (W.contents out.old)
        (W.contents out.new)) }
    ensures stand { AreActivities activities.new }
    ensures stays { Stays activities.old activities.new }
{
    let version = schedule.version();
    let mut entries = schedule.entries();
    let mut line = FIRST_ENTRY_LINE;
    while let Some(entry) = entries.next() {
        let before = gone_out(activities);
        if let Err(refusal) = make_at(activities, version, entry, line) {
            return Err(Halt::Replay(refusal));
        }
        if let Err(halt) = show_entry(activities, entry, line, before, out) {
            return Err(halt);
        }
        line += 1;
    }
    Ok(())
}

/// Writes the states of the run that a schedule describes, from where it begins.
///
/// # Errors
///
/// Those of `replay` but for a run that hasn't ended, with the states before the refused line
/// written; want of memory, with those of some lines written; and the writer's, with a beginning of
/// such states.
pub fn show<W: Write>(
    activities: &mut Activities<'_>,
    schedule: &Schedule,
    out: &mut W,
) -> Result<(), Halt>
    requires stand { AreActivities activities.old }
    requires of { AreOf (code_in activities.old) schedule.now.processors schedule.now.slots
        activities.old }
    ensures shown { OnOk result (AreShown
        (first_block (code_in activities.old) schedule.now.processors (point_in activities.old))
        schedule.now activities.old activities.new (W.contents out.old) (W.contents out.new)) }
    ensures halted { IfErr result (Halts
        (first_block (code_in activities.old) schedule.now.processors (point_in activities.old))
        schedule.now activities.old (W.contents out.old) (W.contents out.new)) }
    ensures stand { AreActivities activities.new }
    ensures stays { Stays activities.old activities.new }
{
    if let Err(halt) = show_first(activities, out) {
        return Err(halt);
    }
    show_entries(activities, schedule, out)
}
