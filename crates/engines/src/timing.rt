//! Pictures of runs.

ghost use Rattle.std.specs.Prelude.{IfOk};
ghost use Rattle.engines.specs.Timeline.{Times};

use crate::driving::steps_alone;
use crate::made::Made;
use crate::prepared::{Described, Run, describe, unscheduled};
use crate::watching::watched;
use ast::End;
use bstr::ByteSlice;
use command_output::append_end;
use pictures::{Ending, Gathered, timeline as draw_run};
use replay::replay;
use schedules::{Flaw, ReplayRefusal};
use std::alloc::{AllocError, Global};

/// How a run ended, in words, by the line that says so, if one does.
fn words_of(alloc: Global, told: &[u8]) -> Result<Vec<u8>, AllocError> {
    if told.is_empty() {
        return Vec::from_slice(alloc, b"it came to END");
    }
    let mut words = Vec::from_slice(alloc, b"it ended with ")?;
    words.extend_from_slice(told)?;
    Ok(words)
}

/// How a run ended, in words, if it did.
fn words(alloc: Global, end: Option<End>) -> Result<Vec<u8>, AllocError> {
    let Some(end) = end else {
        return Vec::from_slice(alloc, b"the schedule ends before the run does");
    };
    let mut line = Vec::new(alloc);
    append_end(&mut line, end, &mut [], false)?;
    words_of(alloc, line.as_slice().trim())
}

/// Whether a run ended with a fault or a STOP.
fn is_early(end: Option<End>) -> bool {
    match end {
        Some(End::Stopped(_) | End::Fault(_, _)) => true,
        Some(End::Done) | None => false,
    }
}

/// The text of the picture of a run that came to this end, or to none.
fn text_of(
    alloc: Global,
    name: &[u8],
    run: &Run,
    input: &[u8],
    end: Option<End>,
) -> Result<Vec<u8>, AllocError> {
    let code = &run.coded.code;
    let alone = steps_alone(alloc, code, input)?;
    let gathered = watched(alloc, code, input, &run.schedule)?;
    drawn_run(alloc, name, &gathered, end, alone)
}

/// The text of the picture of a run of which this was gathered.
fn drawn_run(
    alloc: Global,
    name: &[u8],
    gathered: &Gathered,
    end: Option<End>,
    alone: u128,
) -> Result<Vec<u8>, AllocError> {
    let words = words(alloc, end)?;
    let ending = Ending {
        name,
        words: &words,
        early: is_early(end),
        made: gathered.made(),
        alone,
    };
    draw_run(alloc, gathered, &ending)
}

/// What drawing a run comes to, by the name of a program's file, its source, an input and the text
/// of a schedule. A run that hasn't ended behind the last entry is drawn as far as it went.
///
/// # Errors
///
/// `AllocError` where memory is refused.
pub fn timeline_texts(
    alloc: Global,
    name: &[u8],
    source: &[u8],
    input: &[u8],
    schedule: &[u8],
) -> Result<Made, AllocError>
    ensures { IfOk result (Times source.now input.now schedule.now) }
{
    let run = match describe(alloc, source, schedule)? {
        Described::Run(run) => run,
        Described::Refused(page) => return Ok(Made::Shown(page)),
    };
    match replay(alloc, &run.coded.code, input, &run.schedule) {
        Ok(answer) => {
            let end = Some(answer.end);
            Ok(Made::Text(text_of(alloc, name, &run, input, end)?))
        }
        Err(ReplayRefusal::Refused { number, line }) => match number {
            Flaw::Unended => Ok(Made::Text(text_of(alloc, name, &run, input, None)?)),
            _ => Ok(Made::Shown(unscheduled(alloc, number, line)?)),
        },
        Err(ReplayRefusal::Memory) => Err(AllocError),
    }
}
