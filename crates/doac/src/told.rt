//! What is said on standard error, and the exit status that goes with it.

ghost use Rattle.std.specs.Prelude.{◌≡◌, OnErr, OnOk};
ghost use Rattle.named_files.specs.Deeds.{file_status, unput};
ghost use Rattle.doac.specs.Deeds.{GivesFile, OfError, OfWrite, clash_status};
ghost use Rattle.doac.specs.Statuses.{Ends, IsPage, OfPrint, exit_of};

use command_line::TextFiles;
use command_output::{EngineFault, Outcome, Page, Status, Texts};
use engines::{Note, Sequential, known_of};
use messages::{LastRecord, Message};
use named_files::{Clash, FileFault, NamedFiles, STANDARD_INPUT};
use places::Place;
use reasons::Met;
use schedules::Flaw;
use source_hints::warn_of_columns;
use std::io::{self, Write};

/// Says that writing failed; where nobody reads any more nobody needs to know.
fn say_unwritten<R: Eprint>(rt: &R, error: &io::Error) {
    match error.kind() {
        io::ErrorKind::BrokenPipe => {}
        _ => {
            let _ = eprintln!(rt; "doac: writing failed: {error}");
        }
    }
}

/// The exit status of what was printed.
pub fn status_of_print<R: Eprint>(rt: &R, printed: io::Result<()>) -> Status
    ensures either { OfPrint result }
    ensures ok { OnOk printed (result ≡ Status.Done) }
    ensures err { OnErr printed (result ≡ Status.FileFailed) }
{
    match printed {
        Ok(()) => Status::Done,
        Err(error) => {
            say_unwritten(rt, &error);
            Status::FileFailed
        }
    }
}

/// Says on standard error that a file couldn't be given its text, and gives the exit status.
pub fn refuse_write<R: Eprint>(rt: &R, name: &str, error: &io::Error) -> Status
    ensures { OfError error.now Status.FileFailed result }
{
    let file = name;
    let _ = eprintln!(rt; "{}writing failed: {error}", Place { file, line: 0 });
    match error.kind() {
        io::ErrorKind::OutOfMemory => Status::NoMemory,
        _ => Status::FileFailed,
    }
}

/// The exit status of giving a file its text.
pub fn status_of_write<R: Eprint>(rt: &R, name: &str, written: io::Result<()>) -> Status
    ensures { OfWrite (unput written) result }
{
    match written {
        Ok(()) => Status::Done,
        Err(error) => refuse_write(rt, name, &error),
    }
}

/// Gives a file its text, a schedule or a picture, and gives the exit status.
pub fn give_file<R: Eprint, F: NamedFiles>(rt: &R, files: &mut F, onto: &str, text: &[u8]) -> Status
    ensures { GivesFile onto.now text.now (F.done files.old) (F.done files.new) result }
{
    let written = files.replace(onto, text);
    status_of_write(rt, onto, written)
}

/// Warns of lines of which not all was read, where their source was run.
pub fn warn_of_run<R: Eprint>(
    rt: &R,
    name: &str,
    text: &[u8],
    outcome: &Result<Outcome, EngineFault>,
) {
    match outcome {
        Ok(Outcome::Completed) | Ok(Outcome::Faulted { .. }) => warn_of_columns(rt, name, text),
        _ => {}
    }
}

/// Says which file standard input is, where it is named both for a source and for its input.
pub fn warn_of_names<R: Eprint>(rt: &R, source: &str, input: Option<&str>) {
    if source == STANDARD_INPUT && input == Some(STANDARD_INPUT) {
        let _ = eprintln!(rt;
            "doac: standard input is the source, all of it, so INPUT, which is - too, is empty"
        );
    }
}

/// Says on standard error why there is no outcome.
fn say_fault<R: Eprint>(rt: &R, fault: &EngineFault) {
    match fault {
        EngineFault::Writing(error) => say_unwritten(rt, error),
        _ => {
            let _ = eprintln!(rt; "doac: {fault}");
        }
    }
}

/// Says on standard error why a file may not be written, and gives the exit status.
pub fn refuse_out<R: Eprint>(rt: &R, name: &str, clash: Clash) -> Status
    ensures { result ≡ clash_status clash }
{
    let file = name;
    let place = Place { file, line: 0 };
    match clash {
        Clash::Read => {
            let _ = eprintln!(rt; "{place}this file is read too, so it isn't written");
            Status::FileFailed
        }
        Clash::Output => {
            let _ = eprintln!(rt;
                "{place}standard output goes to this file, so nothing else is written to it"
            );
            Status::WrongCommand
        }
    }
}

/// Says on standard error why a file's bytes can't be had, and gives the exit status.
pub fn refuse_file<R: Eprint>(rt: &R, name: &str, fault: &FileFault) -> Status
    ensures { result ≡ file_status fault.now }
{
    let file = name;
    let _ = eprintln!(rt; "{}{fault}", Place { file, line: 0 });
    fault.status()
}

/// Says on standard error what is wrong with a file's text, or what failed, and gives the exit
/// status.
pub fn tell<R: Eprint + AllocGlobal>(
    rt: &R,
    name: &str,
    text: &[u8],
    outcome: Result<Outcome, EngineFault>,
) -> Status
    ensures { result ≡ exit_of outcome }
{
    tell_noted(rt, name, text, outcome, None)
}

/// Says on standard error what is wrong with a file's text, or what failed, with what is known
/// beside the line, if something is, and gives the exit status.
pub fn tell_noted<R: Eprint + AllocGlobal>(
    rt: &R,
    name: &str,
    text: &[u8],
    outcome: Result<Outcome, EngineFault>,
    note: Option<Note>,
) -> Status
    ensures { result ≡ exit_of outcome }
{
    match outcome {
        Ok(outcome) => {
            if let Some(message) = Message::of(rt.alloc(), name, text, outcome) {
                let _ = rt.eprint(message.with_note(note));
            }
            outcome.status()
        }
        Err(fault) => {
            say_fault(rt, &fault);
            fault.status()
        }
    }
}

/// Says on standard error what is wrong with a source, or how its run failed, and gives the exit
/// status. The input is that of the file `given`, if one is; at a fault of the input the record
/// that it was at is told too.
pub fn tell_run<R: Eprint + AllocGlobal>(
    rt: &R,
    name: &str,
    text: &[u8],
    given: Option<&str>,
    input: &[u8],
    run: Sequential,
) -> Status
    ensures { result ≡ exit_of run.came }
{
    let Sequential { came, note, left } = run;
    let last = LastRecord::of(given, input, &came, left);
    let status = tell_noted(rt, name, text, came, note);
    if let Some(record) = last {
        let _ = rt.eprint(record);
    }
    status
}

/// Says on standard error what is wrong with a source, or how a run in threads or a replay failed
/// whose answer is written, and gives the exit status. Where the sequential run tells more of the
/// fault it is made, with its records onto `nowhere`.
pub fn tell_known<R: Eprint + AllocGlobal, W: Write>(
    rt: &R,
    nowhere: &mut W,
    name: &str,
    text: &[u8],
    given: Option<&str>,
    input: &[u8],
    came: Result<Outcome, EngineFault>,
) -> Status
    ensures { result ≡ exit_of came }
{
    let run = known_of(rt.alloc(), text, input, came, nowhere);
    tell_run(rt, name, text, given, input, run)
}

/// Says on standard error of a run in threads or in model time, whose answer is written, which
/// lines of its source weren't all read, and then what [`tell_known`] says.
pub fn tell_ended<R: Eprint + AllocGlobal, W: Write>(
    rt: &R,
    nowhere: &mut W,
    name: &str,
    text: &[u8],
    given: Option<&str>,
    input: &[u8],
    came: Result<Outcome, EngineFault>,
) -> Status
    ensures { result ≡ exit_of came }
{
    warn_of_run(rt, name, text, &came);
    tell_known(rt, nowhere, name, text, given, input, came)
}

/// Why the entry in a line of a schedule can't be made, or where the run stands behind the last
/// line, where the schedule is refused for that.
fn met<R: AllocGlobal>(rt: &R, texts: &Texts, flaw: Flaw, line: usize) -> Option<Note> {
    let Texts {
        source,
        input,
        schedule,
    } = texts;
    let line = match flaw {
        Flaw::Impossible | Flaw::BehindEnd => line,
        Flaw::Unended => line.saturating_add(1),
        Flaw::Header | Flaw::Entry | Flaw::Processor => return None,
    };
    Met::of(rt.alloc(), source, input, schedule, line).map(Note::Met)
}

/// Says on standard error what is wrong with a schedule's text, or with its source's.
pub fn tell_of<R: Eprint + AllocGlobal>(
    rt: &R,
    names: TextFiles<'_>,
    texts: &Texts,
    outcome: Result<Outcome, EngineFault>,
) -> Status
    ensures { result ≡ exit_of outcome }
{
    match outcome {
        Ok(Outcome::NoSchedule { number, line }) => {
            let outcome = Outcome::NoSchedule { number, line };
            let note = met(rt, texts, number, line);
            tell_noted(rt, names.schedule, &texts.schedule, Ok(outcome), note)
        }
        outcome => tell(rt, names.source, &texts.source, outcome),
    }
}

/// Says on standard error what is wrong with a schedule's text or with its source's, or at which
/// fault its replay ended, with what is known of that, and gives the exit status.
pub fn tell_replay<R: Eprint + AllocGlobal, W: Write>(
    rt: &R,
    nowhere: &mut W,
    names: TextFiles<'_>,
    texts: &Texts,
    outcome: Result<Outcome, EngineFault>,
) -> Status
    ensures { result ≡ exit_of outcome }
{
    match outcome {
        Ok(Outcome::Faulted { fault, line }) => tell_known(
            rt,
            nowhere,
            names.source,
            &texts.source,
            Some(names.input),
            &texts.input,
            Ok(Outcome::Faulted { fault, line }),
        ),
        outcome => tell_of(rt, names, texts, outcome),
    }
}

/// Writes what is shown of texts that have no schedule or picture to give, tells of it on standard
/// error, and gives the exit status.
pub fn show_page<R: Eprint + AllocGlobal, W: Write>(
    rt: &R,
    out: &mut W,
    names: TextFiles<'_>,
    texts: &Texts,
    page: &Page,
) -> Status
    ensures { Ends (IsPage page.now) (W.contents out.old) (W.contents out.new) result }
{
    let outcome = page.write(out);
    tell_of(rt, names, texts, outcome)
}
