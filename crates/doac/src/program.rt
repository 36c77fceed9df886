//! The program: its words, its files, and what it says on standard error.

ghost use Rattle.std.specs.Prelude.{map};
ghost use Rattle.doac.specs.Deeds.{OfError};
ghost use Rattle.doac.specs.Following.{EndsLine, Follows};

use crate::obeying::obey;
use crate::told::status_of_print;
use command_line::{LineFault, hint};
use command_output::Status;
use either::Either::{Left, Right};
use named_files::{HostFiles, NamedFiles};
use places::VisibleLines;
use std::convert::AsStr;
use std::io::Write;
use std::rt::{Env, Files};
use std::sync::Wait;
use std::thread::Threads;
use std::{env, io};
use threaded::Nowhere;

/// How many bytes of records may wait to be written where standard output is no terminal. A run
/// that is ended from outside loses these, so they are few.
const MOST_WAITING: usize = 4_096;

/// Does what the words of the command line ask for, and gives the exit status. On a terminal each
/// record of a sequential run is written at once. Standard output and the writer that shows nothing
/// have one type, so that the sequential run is compiled once.
pub fn run<R: Env + Files + Input + Print + Eprint + AllocGlobal + Threads + Wait + Sync>(
    rt: &R,
    is_terminal: bool,
) -> Status {
    let most = if is_terminal { 0 } else { MOST_WAITING };
    match words(rt) {
        Ok(words) => follow(
            rt,
            &mut HostFiles::new(rt),
            &mut Left(io::writer(rt)),
            &mut Right(io::sink()),
            words.as_slice(),
            most,
        ),
        Err(error) => refuse_words(rt, &error),
    }
}

/// Does what these words ask for, of which the first is the program's name.
fn follow<
    S: AsStr,
    R: Print + Eprint + AllocGlobal + Threads + Wait + Sync,
    F: NamedFiles,
    W: Write + Nowhere + Drop,
>(rt: &R, files: &mut F, out: &mut W, nowhere: &mut W, words: &[S], most: usize) -> Status
    ensures { Follows (map S.text words.now)
        (F.done files.old) (F.done files.new) (W.contents out.old) (W.contents out.new) result }
{
    match command_line::read(rt.alloc(), words) {
        Ok(command) => obey(rt, files, out, nowhere, command, most),
        Err(fault) => refuse_line(rt, words, &fault),
    }
}

fn words<R: Env + AllocGlobal>(rt: &R) -> io::Result<Vec<String>> {
    let mut words = Vec::new(rt.alloc());
    for word in env::args(rt)? {
        words.push(word)?;
    }
    Ok(words)
}

/// Says on standard error that the words can't be had, and gives the exit status.
fn refuse_words<R: Eprint>(rt: &R, error: &io::Error) -> Status
    ensures { OfError error.now Status.WrongCommand result }
{
    match error.kind() {
        io::ErrorKind::OutOfMemory => {
            let _ = eprintln!(rt; "doac: out of memory");
            Status::NoMemory
        }
        io::ErrorKind::InvalidData => {
            let _ = eprintln!(rt; "doac: a word of the command line is not UTF-8");
            Status::WrongCommand
        }
        _ => {
            let _ = eprintln!(rt; "doac: reading the command line failed: {error}");
            Status::WrongCommand
        }
    }
}

/// Says on standard error what is wrong with words, or what they ask for on standard output, and
/// gives the exit status.
fn refuse_line<S: AsStr, R: Print + Eprint + AllocGlobal>(
    rt: &R,
    words: &[S],
    fault: &LineFault,
) -> Status
    ensures { EndsLine fault.now result }
{
    match fault {
        LineFault::Help(text) => status_of_print(rt, rt.print(text)),
        LineFault::Memory => {
            let _ = eprintln!(rt; "doac: out of memory");
            fault.status()
        }
        _ => {
            say_line(rt, fault);
            if let Some(hint) = hint(words, fault) {
                let _ = eprintln!(rt; "hint: {hint}");
            }
            let _ = eprintln!(rt;
                "The commands are check, list, code, seq, run, model, replay, upgrade, draw, timeline and explain."
            );
            fault.status()
        }
    }
}

/// Says what is wrong with a command line, whose words may hold any characters.
fn say_line<R: Eprint + AllocGlobal>(rt: &R, fault: &LineFault) {
    if let Ok(text) = format!(in rt.alloc(); "{fault}") {
        let _ = rt.eprint(VisibleLines::new(text.as_str()));
    }
}
