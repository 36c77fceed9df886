//! Replays of schedules.

ghost use Rattle.std.specs.Prelude.{IfOk, IfErr};
ghost use Rattle.machine.specs.CodeView.{code_of};
ghost use Rattle.schedules.specs.Refusals.{Explains};
ghost use Rattle.replay.specs.Replayed.{GivesNone, IsReplay, NeverEnds};

use crate::answering::answer_of;
use crate::following::{begun, follow};
use ast::Answer;
use machine::Code;
use schedules::{Flaw, ReplayRefusal, Schedule};
use std::alloc::Global;

/// The answer of the run that a schedule describes, turn by turn.
///
/// # Errors
///
/// `Impossible` at the first entry that isn't possible, `Unended` at the last line where the run
/// hasn't ended then, `BehindEnd` at the first entry behind its end; and want of memory.
pub fn replay<'c>(
    alloc: Global,
    code: &'c Code,
    input: &'c [u8],
    schedule: &Schedule,
) -> Result<Answer, ReplayRefusal>
    ensures found { IfOk result (IsReplay (code_of code.now) input.now schedule.now) }
    ensures refused { IfErr result (λ fault.
        Explains fault (GivesNone (code_of code.now) input.now schedule.now)) }
    ensures only { IfErr result (λ fault.
        Explains fault (λ flaw line. NeverEnds (code_of code.now) input.now schedule.now)) }
{
    let mut activities = begun(alloc, code, input, schedule)?;
    if let Err(refusal) = follow(&mut activities, schedule) {
        return Err(refusal);
    }
    let Some(end) = activities.shared.ended else {
        return Err(ReplayRefusal::Refused {
            number: Flaw::Unended,
            line: 2 + schedule.len(),
        });
    };
    Ok(answer_of(alloc, code, activities.shared, end)?)
}
