//! Runs of sources in model time.

ghost use Rattle.std.specs.Prelude.{◌≡◌, IfErr, IfOk, OnOk};
ghost use Rattle.ast.specs.ProgramView.{program as program_of};
ghost use Rattle.codegen.specs.Headline.{Headline};
ghost use Rattle.codegen.specs.Reports.{Reports};
ghost use Rattle.machine.specs.CodeView.{code_of};
ghost use Rattle.command_output.specs.Shown.{Extends};
ghost use Rattle.modelled.specs.Modelling.{AreTexts, EndsSo, IsEarly, IsShown, IsTextOf};
ghost use Rattle.modelled.specs.Modelling.{Modelling, ShowsModel, heads_from, outcome_with};
ghost use Rattle.modelled.specs.Modelling.{text_of};

use crate::heads::heads;
use crate::lines::{append_loops, append_program};
use ast::Answer;
use codegen::LoopReport;
use command_output::{EngineFault, Outcome, Page, append_end, outcome};
use engines::{Coded, Prepared, prepare};
use model_time::{Pace, Timed, time};
use replay::CoreRefusal;
use schedules::Schedule;
use std::alloc::{AllocError, Global};

/// What comes of a source in model time.
#[derive(Drop)]
pub struct Timing {
    /// What is shown.
    pub page: Page,
    /// The text of the run's schedule, where it is wanted and the source isn't refused.
    pub schedule: Option<Vec<u8>>,
}

/// Appends what follows the figures of a run: at a fault or a STOP its line, and one of its own
/// where it hasn't ended.
fn append_answer(text: &mut Vec<u8>, answer: &Option<Answer>) -> Result<Outcome, AllocError>
    ensures ended { IfOk result (λ outcome. outcome ≡ outcome_with answer.now) }
    ensures shown { OnOk result (Extends (EndsSo answer.now) text.old.items text.new.items) }
{
    let Some(answer) = answer else {
        text.extend_from_slice(b"NOT ENDED\n")?;
        return Ok(Outcome::Completed);
    };
    append_end(text, answer.end, &mut [], false)?;
    Ok(outcome(answer.end))
}

/// The page of a run of code, of whose loops these are the reports.
fn shown(alloc: Global, reports: &[LoopReport], timed: &Timed) -> Result<Page, AllocError>
    ensures { IfOk result (λ page. IsShown (heads_from 1 reports.now) timed.now page.outcome
        page.text.items) }
{
    let heads = heads(alloc, reports)?;
    let mut text = Vec::new(alloc);
    append_program(&mut text, &timed.program)?;
    append_loops(&mut text, &heads, &timed.loops)?;
    let outcome = append_answer(&mut text, &timed.answer)?;
    Ok(Page { text, outcome })
}

/// The text of a schedule, if there is one.
fn schedule_text(kept: &Option<Schedule>) -> Result<Option<Vec<u8>>, AllocError>
    ensures { IfOk result (λ text. IsTextOf kept.now (text_of text)) }
{
    match kept {
        Some(schedule) => Ok(Some(schedule.text()?)),
        None => Ok(None),
    }
}

/// What comes of a run of code, of whose loops these are the reports.
fn texts(alloc: Global, reports: &[LoopReport], timed: Timed) -> Result<Timing, AllocError>
    ensures { IfOk result (AreTexts (heads_from 1 reports.now) timed) }
{
    Ok(Timing {
        page: shown(alloc, reports, &timed)?,
        schedule: schedule_text(&timed.schedule)?,
    })
}

/// What comes of a run of code.
fn model_code(alloc: Global, coded: &Coded, input: &[u8], pace: Pace) -> Result<Timing, EngineFault>
    requires headline { Headline (code_of coded.now.code) (program_of coded.now.program) }
    requires reports { Reports (program_of coded.now.program) coded.now.reports.items }
    ensures ok { IfOk result (ShowsModel
        (program_of coded.now.program) (code_of coded.now.code) input.now pace) }
    ensures err { IfErr result IsEarly }
{
    match time(alloc, &coded.code, input, pace) {
        Ok(timed) => Ok(texts(alloc, &coded.reports, timed)?),
        Err(CoreRefusal::OutOfRange) => Err(EngineFault::OutOfRange),
        Err(CoreRefusal::Memory) => Err(EngineFault::Memory),
    }
}

/// What comes of a run of a source on an input, in model time.
///
/// # Errors
///
/// That the numbers of processors or of open iterations are out of range; and want of memory.
pub fn model_texts(
    alloc: Global,
    source: &[u8],
    input: &[u8],
    pace: Pace,
) -> Result<Timing, EngineFault>
    ensures ok { IfOk result (Modelling pace source.now input.now) }
    ensures err { IfErr result IsEarly }
{
    match prepare(alloc, source)? {
        Prepared::Coded(coded) => model_code(alloc, &coded, input, pace),
        Prepared::Refused(page) => Ok(Timing {
            page,
            schedule: None,
        }),
    }
}
