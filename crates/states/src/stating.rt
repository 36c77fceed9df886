//! What is shown of the states of a source's run that a schedule describes.

ghost use Rattle.std.specs.Prelude.{◌≡◌, [], Err, IfErr, IfOk, false};
ghost use Rattle.activities.specs.Activities.{point_in};
ghost use Rattle.command_output.specs.Outcomes.{outcome_of};
ghost use Rattle.command_output.specs.Shown.{EndShown};
ghost use Rattle.command_output.specs.declared.fault.EngineFault.TheVariants as faults;
ghost use Rattle.states.specs.Shown.{IsLast, StatesStream, WrotePage};

use crate::following::{Halt, show};
use activities::Activities;
use ast::End;
use command_output::{EngineFault, Outcome, Page, append_end, outcome};
use engines::{Described, describe, unscheduled};
use replay::begun;
use schedules::{Flaw, ReplayRefusal};
use std::alloc::{AllocError, Global};
use std::io::Write;

/// The page of what follows the states of a run that has ended so.
fn ended(alloc: Global, end: End) -> Result<Page, AllocError>
    ensures { IfOk result (λ page. (page.outcome ≡ outcome_of end)
        × EndShown false [] end page.text.items) }
{
    let mut text = Vec::new(alloc);
    append_end(&mut text, end, &mut [], false)?;
    Ok(Page {
        text,
        outcome: outcome(end),
    })
}

/// What follows the states of all entries, of which the last stands in this line.
fn last_page(alloc: Global, activities: &Activities<'_>, line: usize) -> Result<Page, AllocError>
    ensures { IfOk result (λ page. IsLast (point_in activities.now).machine.ended line page.outcome
        page.text.items) }
{
    match activities.shared.ended {
        Some(end) => ended(alloc, end),
        None => unscheduled(alloc, Flaw::Unended, line),
    }
}

/// Writes a page, where there was memory for it.
fn put<W: Write>(page: Result<Page, AllocError>, out: &mut W) -> Result<Outcome, EngineFault>
    ensures page { IfOk page (λ page. WrotePage page.outcome page.text.items (W.contents out.old)
        (W.contents out.new) result) }
    ensures memory { IfErr page (λ _. (result ≡ Err faults.Memory)
        × (W.contents out.new ≡ W.contents out.old)) }
{
    page?.write(out)
}

/// Writes the states of the run that a schedule's text describes, of a source on an input, and then
/// what follows the records of that run; where the schedule is refused the states before the
/// refused line, and the line that says why. Each state is written at once.
///
/// # Errors
///
/// A fault of the writer, or of memory, each with nothing or a beginning of the text or of states
/// written.
pub fn state_texts<W: Write>(
    alloc: Global,
    source: &[u8],
    input: &[u8],
    schedule: &[u8],
    out: &mut W,
) -> Result<Outcome, EngineFault>
    ensures { StatesStream source.now input.now schedule.now (W.contents out.old)
        (W.contents out.new) result }
{
    let run = match describe(alloc, source, schedule)? {
        Described::Run(run) => run,
        Described::Refused(page) => return put(Ok(page), out),
    };
    let Ok(mut activities) = begun(alloc, &run.coded.code, input, &run.schedule) else {
        return Err(EngineFault::Memory);
    };
    match show(&mut activities, &run.schedule, out) {
        Ok(()) => put(last_page(alloc, &activities, 2 + run.schedule.len()), out),
        Err(Halt::Replay(ReplayRefusal::Refused { number, line })) => {
            put(unscheduled(alloc, number, line), out)
        }
        Err(Halt::Replay(ReplayRefusal::Memory)) => Err(EngineFault::Memory),
        Err(Halt::Writing(error)) => Err(EngineFault::Writing(error)),
    }
}
