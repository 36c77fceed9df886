//! `check`, `list` and `seq`: what is made of a source.

ghost use Rattle.std.specs.Prelude.{option_map};
ghost use Rattle.engines.specs.Engines.{Checks};
ghost use Rattle.named_files.specs.Deeds.{got};
ghost use Rattle.doac.specs.Commands.{ListsFile, OnInput, OnSource};
ghost use Rattle.doac.specs.Deeds.{AfterFile, AfterGiven};
ghost use Rattle.doac.specs.Statuses.{Ends, EndsList, EndsSeq};

use crate::told::{refuse_file, tell, tell_run, warn_of_names, warn_of_run};
use command_output::{EngineFault, Status};
use engines::{Prepared, Verdict, judged, prepare, seq_noted, tell_loops, tell_verdict};
use messages::tell_further;
use named_files::{FileFault, Given, NamedFiles, Unread, read_given};
use reasons::say_why_serial;
use source_hints::warn;
use std::io::Write;

/// Checks the source of a file.
pub fn check_file<R: Eprint + AllocGlobal, F: NamedFiles, W: Write>(
    rt: &R,
    files: &mut F,
    out: &mut W,
    name: &str,
) -> Status
    ensures { OnSource Checks name.now
        (F.done files.old) (F.done files.new) (W.contents out.old) (W.contents out.new) result }
{
    let text = files.read(name);
    check_given(rt, out, name, text)
}

/// What `check` makes of the bytes of its file.
fn check_given<R: Eprint + AllocGlobal, W: Write>(
    rt: &R,
    out: &mut W,
    name: &str,
    text: Result<Vec<u8>, FileFault>,
) -> Status
    ensures { (done : _) → AfterFile (got text) done done
        (W.contents out.old) (W.contents out.new) result
        (λ text. Ends (Checks text) (W.contents out.old) (W.contents out.new) result) }
{
    match text {
        Ok(text) => check_source(rt, out, name, &text),
        Err(fault) => refuse_file(rt, name, &fault),
    }
}

/// Checks the text of a file; standard error has its warnings or its message.
fn check_source<R: Eprint + AllocGlobal, W: Write>(
    rt: &R,
    out: &mut W,
    name: &str,
    text: &[u8],
) -> Status
    ensures { Ends (Checks text.now) (W.contents out.old) (W.contents out.new) result }
{
    match judged(rt.alloc(), text) {
        Ok(verdict) => {
            let outcome = tell_verdict(rt.alloc(), &verdict, out);
            let is_told = outcome.is_ok();
            if is_told {
                warn_of_accepted(rt, name, text, &verdict);
            }
            let status = tell(rt, name, text, outcome);
            if is_told {
                tell_further(rt, name, text, &verdict);
            }
            status
        }
        Err(_) => tell(rt, name, text, Err(EngineFault::Memory)),
    }
}

/// Says on standard error what is odd about a source that is accepted.
fn warn_of_accepted<R: Eprint + AllocGlobal>(rt: &R, name: &str, text: &[u8], verdict: &Verdict) {
    if let Verdict::Accepted(program) = verdict {
        warn(rt, name, text, program);
    }
}

/// Says on standard error what keeps loops serial.
fn say_of_loops<R: Eprint + AllocGlobal>(rt: &R, name: &str, prepared: &Prepared) {
    if let Prepared::Coded(coded) = prepared {
        say_why_serial(rt, name, &coded.program, &coded.reports);
    }
}

/// Lists the loops of the source of a file.
pub fn list_file<R: Eprint + AllocGlobal, F: NamedFiles, W: Write>(
    rt: &R,
    files: &mut F,
    out: &mut W,
    name: &str,
    why: bool,
) -> Status
    ensures { ListsFile why name.now
        (F.done files.old) (F.done files.new) (W.contents out.old) (W.contents out.new) result }
{
    let text = files.read(name);
    list_given(rt, out, name, text, why)
}

/// What `list` makes of the bytes of its file.
fn list_given<R: Eprint + AllocGlobal, W: Write>(
    rt: &R,
    out: &mut W,
    name: &str,
    text: Result<Vec<u8>, FileFault>,
    why: bool,
) -> Status
    ensures { (done : _) → AfterFile (got text) done done
        (W.contents out.old) (W.contents out.new) result
        (λ text. EndsList why text (W.contents out.old) (W.contents out.new) result) }
{
    match text {
        Ok(text) => list_source(rt, out, name, &text, why),
        Err(fault) => refuse_file(rt, name, &fault),
    }
}

/// Lists the loops of the text of a file; standard error says what keeps them serial, where the
/// listing doesn't, or has its message.
fn list_source<R: Eprint + AllocGlobal, W: Write>(
    rt: &R,
    out: &mut W,
    name: &str,
    text: &[u8],
    why: bool,
) -> Status
    ensures { EndsList why text.now (W.contents out.old) (W.contents out.new) result }
{
    match prepare(rt.alloc(), text) {
        Ok(prepared) => {
            let outcome = tell_loops(rt.alloc(), &prepared, why, out);
            if outcome.is_ok() && !why {
                say_of_loops(rt, name, &prepared);
            }
            tell(rt, name, text, outcome)
        }
        Err(_) => tell(rt, name, text, Err(EngineFault::Memory)),
    }
}

/// Runs the source of a file, one statement after another. Of the records that it prints `most`
/// bytes may wait to be written.
pub fn seq_files<R: Eprint + AllocGlobal, F: NamedFiles, W: Write>(
    rt: &R,
    files: &mut F,
    out: &mut W,
    name: &str,
    input: Option<&str>,
    store: bool,
    most: usize,
) -> Status
    ensures { OnInput (EndsSeq store) name.now (option_map (λ i. i.now) input.entry)
        (F.done files.old) (F.done files.new) (W.contents out.old) (W.contents out.new) result }
{
    warn_of_names(rt, name, input);
    let given = read_given(files, name, input);
    seq_given(rt, out, name, input, store, most, given)
}

/// What `seq` makes of the bytes of its files.
fn seq_given<R: Eprint + AllocGlobal, W: Write>(
    rt: &R,
    out: &mut W,
    name: &str,
    input: Option<&str>,
    store: bool,
    most: usize,
    given: Result<Given, Unread<'_>>,
) -> Status
    ensures { (done : _) → AfterGiven given.entry done done
        (W.contents out.old) (W.contents out.new) result
        (λ text given. EndsSeq store text given (W.contents out.old) (W.contents out.new) result) }
{
    match given {
        Ok(given) => seq_source(
            rt,
            out,
            name,
            &given.source,
            input,
            &given.input,
            store,
            most,
        ),
        Err(Unread { name, fault }) => refuse_file(rt, name, &fault),
    }
}

/// Runs the text of a file on an input, which is that of a file if one is given; standard error has
/// its message, and at a fault of the input its record.
fn seq_source<R: Eprint + AllocGlobal, W: Write>(
    rt: &R,
    out: &mut W,
    name: &str,
    text: &[u8],
    given: Option<&str>,
    input: &[u8],
    store: bool,
    most: usize,
) -> Status
    ensures { EndsSeq store text.now input.now
        (W.contents out.old) (W.contents out.new) result }
{
    let run = seq_noted(rt.alloc(), text, input, store, most, out);
    warn_of_run(rt, name, text, &run.came);
    tell_run(rt, name, text, given, input, run)
}
