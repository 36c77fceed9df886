//! `model`: in which time a source runs.

ghost use Rattle.std.specs.Prelude.{◌≡◌, option_map};
ghost use Rattle.doac.specs.Commands.{ModelsFiles};
ghost use Rattle.doac.specs.Deeds.{AfterGiven};
ghost use Rattle.doac.specs.Models.{EndsModel, ModelsRead, ShowsTiming, schedule_of};
ghost use Rattle.doac.specs.Running.{Shown, WritesRun};

use crate::keeping::{check_onto, write_first};
use crate::told::{refuse_file, tell_ended, warn_of_names};
use command_line::Modelled;
use command_output::{EngineFault, Outcome, Status};
use modelled::{Pace, Timing, model_texts};
use named_files::{Given, NamedFiles, Unread, read_given};
use std::io::Write;

/// Runs the source of a file in model time, if the file for its schedule may be written. Where the
/// sequential run tells more of its fault that is made behind it, onto `nowhere`.
pub fn model_files<R: Eprint + AllocGlobal, F: NamedFiles, W: Write>(
    rt: &R,
    files: &mut F,
    out: &mut W,
    nowhere: &mut W,
    asked: Modelled<'_>,
) -> Status
    ensures { ModelsFiles asked.entry
        (F.done files.old) (F.done files.new) (W.contents out.old) (W.contents out.new) result }
{
    match check_onto(rt, files, asked.schedule, asked.source, asked.input) {
        Ok(()) => model_read(rt, files, out, nowhere, asked),
        Err(status) => status,
    }
}

/// Reads the source of a file and runs it.
fn model_read<R: Eprint + AllocGlobal, F: NamedFiles, W: Write>(
    rt: &R,
    files: &mut F,
    out: &mut W,
    nowhere: &mut W,
    asked: Modelled<'_>,
) -> Status
    ensures { ModelsRead asked.entry
        (F.done files.old) (F.done files.new) (W.contents out.old) (W.contents out.new) result }
{
    warn_of_names(rt, asked.source, asked.input);
    let given = read_given(files, asked.source, asked.input);
    model_given(rt, files, out, nowhere, asked, given)
}

/// What `model` makes of the bytes of its files.
fn model_given<R: Eprint + AllocGlobal, F: NamedFiles, W: Write>(
    rt: &R,
    files: &mut F,
    out: &mut W,
    nowhere: &mut W,
    asked: Modelled<'_>,
    given: Result<Given, Unread<'_>>,
) -> Status
    ensures { AfterGiven given.entry
        (F.done files.old) (F.done files.new) (W.contents out.old) (W.contents out.new) result
        (λ text given. EndsModel asked.entry text given
        (F.done files.old) (F.done files.new) (W.contents out.old) (W.contents out.new) result) }
{
    match given {
        Ok(given) => model_source(rt, files, out, nowhere, asked, &given.source, &given.input),
        Err(Unread { name, fault }) => refuse_file(rt, name, &fault),
    }
}

/// Runs the text of a file on an input.
fn model_source<R: Eprint + AllocGlobal, F: NamedFiles, W: Write>(
    rt: &R,
    files: &mut F,
    out: &mut W,
    nowhere: &mut W,
    asked: Modelled<'_>,
    text: &[u8],
    input: &[u8],
) -> Status
    ensures { EndsModel asked.entry text.now input.now
        (F.done files.old) (F.done files.new) (W.contents out.old) (W.contents out.new) result }
{
    let pace = Pace {
        processors: asked.processors,
        slots: asked.slots,
        most: asked.most,
        schedule: asked.schedule.is_some(),
    };
    let came = model_texts(rt.alloc(), text, input, pace);
    write_timing(rt, files, out, nowhere, asked, text, input, came)
}

/// The text of a run's schedule, if it has one.
fn schedule_text(came: &Result<Timing, EngineFault>) -> Option<&[u8]>
    ensures { option_map (λ text. text.now) result ≡ schedule_of came.now }
{
    match came {
        Ok(
            Timing {
                schedule: Some(text),
                ..
            },
        ) => Some(text.as_slice()),
        _ => None,
    }
}

/// Writes the schedule, if there is one and a file for it, and then what is shown.
fn write_timing<R: Eprint + AllocGlobal, F: NamedFiles, W: Write>(
    rt: &R,
    files: &mut F,
    out: &mut W,
    nowhere: &mut W,
    asked: Modelled<'_>,
    text: &[u8],
    input: &[u8],
    came: Result<Timing, EngineFault>,
) -> Status
    ensures { WritesRun (option_map (λ o. o.now) asked.entry.schedule) (schedule_of came)
        (ShowsTiming came)
        (F.done files.old) (F.done files.new) (W.contents out.old) (W.contents out.new) result }
{
    match write_first(rt, files, asked.schedule, schedule_text(&came)) {
        Ok(()) => write_shown(rt, out, nowhere, asked, text, input, came),
        Err(status) => status,
    }
}

/// Writes what is shown of a run, whose schedule was written before.
fn show<W: Write>(came: Result<Timing, EngineFault>, out: &mut W) -> Result<Outcome, EngineFault>
    ensures { ShowsTiming came (W.contents out.old) (W.contents out.new) result }
{
    match came {
        Ok(Timing { page, .. }) => page.write(out),
        Err(fault) => Err(fault),
    }
}

/// Writes what is shown; standard error has the message.
fn write_shown<R: Eprint + AllocGlobal, W: Write>(
    rt: &R,
    out: &mut W,
    nowhere: &mut W,
    asked: Modelled<'_>,
    text: &[u8],
    input: &[u8],
    came: Result<Timing, EngineFault>,
) -> Status
    ensures { Shown (ShowsTiming came) (W.contents out.old) (W.contents out.new) result }
{
    let no_memory = matches!(&came, Err(EngineFault::Memory));
    let outcome = show(came, out);
    let status = tell_ended(rt, nowhere, asked.source, text, asked.input, input, outcome);
    if no_memory {
        say_kept(rt, asked);
    }
    status
}

/// Says that a schedule takes memory, where one was wanted and there was no memory.
fn say_kept<R: Eprint>(rt: &R, asked: Modelled<'_>) {
    if asked.schedule.is_some() {
        let _ = eprintln!(rt;
            "hint: --schedule keeps the whole schedule in memory, 4 bytes and more a step"
        );
    }
}
