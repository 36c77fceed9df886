//! What is written of replays and upgrades.

ghost use Rattle.std.specs.Prelude.{◌≡◌, [], IfOk, false};
ghost use Rattle.command_output.specs.Outcomes.{outcome_of};
ghost use Rattle.command_output.specs.Shown.{EndShown, Extends};
ghost use Rattle.engines.specs.Schedules.{Replaying, Upgrading};

use crate::made::Made;
use crate::prepared::{Described, describe, unscheduled};
use ast::Answer;
use command_output::{Page, append_end, outcome};
use replay::{replay, upgrade};
use schedules::ReplayRefusal;
use std::alloc::{AllocError, Global};

/// The page of an answer, without its store.
fn answered(answer: Answer) -> Result<Page, AllocError>
    ensures { IfOk result (λ page. (page.outcome ≡ outcome_of answer.end)
        × Extends (EndShown false [] answer.end) answer.output.items page.text.items) }
{
    let mut text = answer.output;
    append_end(&mut text, answer.end, &mut [], false)?;
    Ok(Page {
        text,
        outcome: outcome(answer.end),
    })
}

/// What `replay` writes of a source, an input and the text of a schedule.
pub fn replayed(
    alloc: Global,
    source: &[u8],
    input: &[u8],
    schedule: &[u8],
) -> Result<Page, AllocError>
    ensures { IfOk result (λ page.
        Replaying source.now input.now schedule.now page.outcome page.text.items) }
{
    let run = match describe(alloc, source, schedule)? {
        Described::Run(run) => run,
        Described::Refused(page) => return Ok(page),
    };
    match replay(alloc, &run.coded.code, input, &run.schedule) {
        Ok(answer) => answered(answer),
        Err(ReplayRefusal::Refused { number, line }) => unscheduled(alloc, number, line),
        Err(ReplayRefusal::Memory) => Err(AllocError),
    }
}

/// What `upgrade` comes to with a source, an input and the text of a schedule.
///
/// # Errors
///
/// `AllocError` where memory is refused.
pub fn upgrade_texts(
    alloc: Global,
    source: &[u8],
    input: &[u8],
    schedule: &[u8],
) -> Result<Made, AllocError>
    ensures { IfOk result (Upgrading source.now input.now schedule.now) }
{
    let run = match describe(alloc, source, schedule)? {
        Described::Run(run) => run,
        Described::Refused(page) => return Ok(Made::Shown(page)),
    };
    match upgrade(alloc, &run.coded.code, input, &run.schedule) {
        Ok(named) => Ok(Made::Text(named.text()?)),
        Err(ReplayRefusal::Refused { number, line }) => {
            Ok(Made::Shown(unscheduled(alloc, number, line)?))
        }
        Err(ReplayRefusal::Memory) => Err(AllocError),
    }
}
