//! `run`: programs in threads, their files, and what is said of them on standard error.

ghost use Rattle.std.specs.Prelude.{◌≡◌, option_map};
ghost use Rattle.doac.specs.Commands.{RunsFiles};
ghost use Rattle.doac.specs.Deeds.{AfterGiven};
ghost use Rattle.doac.specs.Running.{EndsRecord, EndsRun, EndsStream, RunsRead, ShowsRan, Shown};
ghost use Rattle.doac.specs.Running.{WritesRun, schedule_of, wants_of};

use crate::keeping::{check_onto, write_first};
use crate::told::{refuse_file, tell_ended, warn_of_names};
use command_line::Threaded;
use command_output::{EngineFault, Outcome, Status};
use engines::Wants;
use messages::say_figures;
use named_files::{Given, NamedFiles, Unread, read_given};
use std::io;
use std::io::Write;
use std::sync::Wait;
use std::thread::Threads;
use threaded::{Nowhere, Ran, Whole, run_onto, run_texts};

/// Runs the source of a file in threads, if the file for its schedule may be written. Where the
/// sequential run tells more of its fault that is made behind it, onto `nowhere`.
pub fn run_files<
    R: Eprint + AllocGlobal + Threads + Wait + Sync,
    F: NamedFiles,
    W: Write + Nowhere + Drop,
>(
    rt: &R,
    files: &mut F,
    out: &mut W,
    nowhere: &mut W,
    asked: Threaded<'_>,
    most_waiting: usize,
) -> Status
    ensures { RunsFiles asked.entry
        (F.done files.old) (F.done files.new) (W.contents out.old) (W.contents out.new) result }
{
    match check_onto(rt, files, asked.schedule, asked.source, asked.input) {
        Ok(()) => run_read(rt, files, out, nowhere, asked, most_waiting),
        Err(status) => status,
    }
}

/// Reads the source of a file and runs it.
fn run_read<
    R: Eprint + AllocGlobal + Threads + Wait + Sync,
    F: NamedFiles,
    W: Write + Nowhere + Drop,
>(
    rt: &R,
    files: &mut F,
    out: &mut W,
    nowhere: &mut W,
    asked: Threaded<'_>,
    most_waiting: usize,
) -> Status
    ensures { RunsRead asked.entry
        (F.done files.old) (F.done files.new) (W.contents out.old) (W.contents out.new) result }
{
    warn_of_names(rt, asked.source, asked.input);
    let given = read_given(files, asked.source, asked.input);
    run_given(rt, files, out, nowhere, asked, most_waiting, given)
}

/// What `run` makes of the bytes of its files.
fn run_given<
    R: Eprint + AllocGlobal + Threads + Wait + Sync,
    F: NamedFiles,
    W: Write + Nowhere + Drop,
>(
    rt: &R,
    files: &mut F,
    out: &mut W,
    nowhere: &mut W,
    asked: Threaded<'_>,
    most_waiting: usize,
    given: Result<Given, Unread<'_>>,
) -> Status
    ensures { AfterGiven given.entry
        (F.done files.old) (F.done files.new) (W.contents out.old) (W.contents out.new) result
        (λ text given. EndsRun asked.entry text given
        (F.done files.old) (F.done files.new) (W.contents out.old) (W.contents out.new) result) }
{
    match given {
        Ok(given) => {
            run_source(
                rt,
                files,
                out,
                nowhere,
                asked,
                most_waiting,
                &given.source,
                &given.input,
            )
        }
        Err(Unread { name, fault }) => refuse_file(rt, name, &fault),
    }
}

/// Runs the text of a file on an input.
fn run_source<
    R: Eprint + AllocGlobal + Threads + Wait + Sync,
    F: NamedFiles,
    W: Write + Nowhere + Drop,
>(
    rt: &R,
    files: &mut F,
    out: &mut W,
    nowhere: &mut W,
    asked: Threaded<'_>,
    most_waiting: usize,
    text: &[u8],
    input: &[u8],
) -> Status
    ensures { EndsRun asked.entry text.now input.now
        (F.done files.old) (F.done files.new) (W.contents out.old) (W.contents out.new) result }
{
    if asked.schedule.is_some() || asked.tally {
        record_source(rt, files, out, nowhere, asked, text, input)
    } else {
        stream_source(rt, out, nowhere, asked, text, input, most_waiting)
    }
}

/// What is wanted of a run.
fn wants_of(asked: Threaded<'_>) -> Wants
    ensures { result ≡ wants_of asked.entry }
{
    Wants {
        processors: asked.processors,
        slots: asked.slots,
        store: asked.store,
        schedule: asked.schedule.is_some(),
        tally: asked.tally,
    }
}

/// Runs the text of a file on an input, and writes its records while it goes on.
fn stream_source<R: Eprint + AllocGlobal + Threads + Wait + Sync, W: Write + Nowhere + Drop>(
    rt: &R,
    out: &mut W,
    nowhere: &mut W,
    asked: Threaded<'_>,
    text: &[u8],
    input: &[u8],
    most_waiting: usize,
) -> Status
    ensures { EndsStream asked.entry text.now input.now
        (W.contents out.old) (W.contents out.new) result }
{
    let outcome = run_onto(
        rt,
        rt.alloc(),
        text,
        input,
        wants_of(asked),
        most_waiting,
        out,
    );
    tell_ended(rt, nowhere, asked.source, text, asked.input, input, outcome)
}

/// Runs the text of a file on an input, keeps the schedule, and writes it and what is shown.
fn record_source<R: Eprint + AllocGlobal + Threads + Wait + Sync, F: NamedFiles, W: Write>(
    rt: &R,
    files: &mut F,
    out: &mut W,
    nowhere: &mut W,
    asked: Threaded<'_>,
    text: &[u8],
    input: &[u8],
) -> Status
    ensures { EndsRecord asked.entry text.now input.now
        (F.done files.old) (F.done files.new) (W.contents out.old) (W.contents out.new) result }
{
    let ran = run_texts(rt, rt.alloc(), text, input, wants_of(asked));
    write_run(rt, files, out, nowhere, asked, text, input, &ran)
}

/// The text of a run's schedule, if it has one.
fn schedule_text(ran: &Ran) -> Option<&[u8]>
    ensures { option_map (λ text. text.now) result ≡ schedule_of ran.now }
{
    match ran {
        Ran::Whole(
            Whole {
                schedule: Some(text),
                ..
            },
        ) => Some(text.as_slice()),
        _ => None,
    }
}

/// Writes the schedule, if there is one and a file for it, and then what is shown.
fn write_run<R: Eprint + AllocGlobal, F: NamedFiles, W: Write>(
    rt: &R,
    files: &mut F,
    out: &mut W,
    nowhere: &mut W,
    asked: Threaded<'_>,
    text: &[u8],
    input: &[u8],
    ran: &Ran,
) -> Status
    ensures { WritesRun (option_map (λ o. o.now) asked.entry.schedule) (schedule_of ran.now)
        (ShowsRan ran.now)
        (F.done files.old) (F.done files.new) (W.contents out.old) (W.contents out.new) result }
{
    match write_first(rt, files, asked.schedule, schedule_text(ran)) {
        Ok(()) => write_shown(rt, out, nowhere, asked, text, input, ran),
        Err(status) => status,
    }
}

/// Writes what is shown of a run, whose schedule was written before.
fn show<W: Write>(ran: &Ran, out: &mut W) -> Result<Outcome, EngineFault>
    ensures { ShowsRan ran.now (W.contents out.old) (W.contents out.new) result }
{
    match ran {
        Ran::Whole(whole) => whole.page.write(out),
        _ => ran.write(&mut io::sink(), out),
    }
}

/// Writes what is shown; standard error has the message, and how the run went.
fn write_shown<R: Eprint + AllocGlobal, W: Write>(
    rt: &R,
    out: &mut W,
    nowhere: &mut W,
    asked: Threaded<'_>,
    text: &[u8],
    input: &[u8],
    ran: &Ran,
) -> Status
    ensures { Shown (ShowsRan ran.now) (W.contents out.old) (W.contents out.new) result }
{
    let outcome = show(ran, out);
    if let Ran::Whole(
        Whole {
            figures: Some(figures),
            ..
        },
    ) = ran
    {
        say_figures(rt, figures);
    }
    let status = tell_ended(rt, nowhere, asked.source, text, asked.input, input, outcome);
    say_kept(rt, asked, ran);
    status
}

/// Says that a run whose schedule is kept takes memory for that too, where there was no memory.
fn say_kept<R: Eprint>(rt: &R, asked: Threaded<'_>, ran: &Ran) {
    if matches!(ran, Ran::Memory(_)) && (asked.schedule.is_some() || asked.tally) {
        let _ = eprintln!(rt;
            "hint: --schedule and --tally keep the whole schedule in memory, 4 bytes and more an entry"
        );
    }
}
