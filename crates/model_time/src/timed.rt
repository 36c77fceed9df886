//! Runs in model time, and what comes of them.

ghost use Rattle.std.specs.Prelude.{IfErr, IfOk};
ghost use Rattle.machine.specs.CodeView.{code_of};
ghost use Rattle.replay.specs.Stepping.{NoCore};
ghost use Rattle.model_time.specs.Timed.{IsTimed};

use crate::clock::{Totals, units};
use crate::figures::Figures;
use crate::pace::Pace;
use crate::record::schedule_at_first;
use ast::Answer;
use machine::Code;
use replay::CoreRefusal;
use schedules::Schedule;
use std::alloc::Global;
use unrecorded::Run;

/// What came of a run in model time.
#[derive(Drop)]
pub struct Timed {
    /// The answer; none where the run hasn't ended.
    pub answer: Option<Answer>,
    pub program: Figures,
    /// Of each loop of the code, by its number, in the units at whose beginning it was open.
    pub loops: Vec<Figures>,
    /// The schedule so far, each step an entry of its own, where it is wanted.
    pub schedule: Option<Schedule>,
}

/// Runs code on an input in model time until it has ended, or until `pace.most` steps or more were
/// made. It is the same each time. Memory grows with what is printed, and with the steps only where
/// a schedule is wanted.
///
/// # Errors
///
/// `OutOfRange` where a number of the pace is out of its range; and want of memory.
pub fn time(alloc: Global, code: &Code, input: &[u8], pace: Pace) -> Result<Timed, CoreRefusal>
    ensures ok { IfOk result (IsTimed (code_of code.now) input.now pace) }
    ensures err { IfErr result (NoCore pace.processors pace.slots) }
{
    let mut run = Run::new(alloc, code, input, pace.processors, pace.slots)?;
    let mut kept = schedule_at_first(alloc, pace.schedule, pace.processors, pace.slots);
    let mut totals = Totals::none(alloc, code)?;
    units(&mut run, &mut kept, &mut totals, pace.most)?;
    let answer = run.answer()?;
    let Totals { program, loops } = totals;
    Ok(Timed {
        answer,
        program,
        loops,
        schedule: kept,
    })
}
