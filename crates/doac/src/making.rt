//! `upgrade` and `timeline`: what is made of a source, an input and a schedule for a file.

ghost use Rattle.std.specs.Prelude.{IfOk};
ghost use Rattle.doac.specs.Deeds.{AfterCompare, AfterTexts, ReadsTexts};
ghost use Rattle.doac.specs.Making.{Allows, EndsMaking, MakesFiles};

use crate::told::{give_file, refuse_file, refuse_out, show_page, tell_of};
use command_line::TextFiles;
use command_output::{EngineFault, Status, Texts};
use engines::{Made, timeline_texts, upgrade_texts};
use named_files::{Clash, NamedFiles, Unread, read_texts};
use std::alloc::{AllocError, Global};
use std::io::Write;

/// What is made.
#[derive(Clone, Copy)]
pub enum Making {
    /// The schedule with its picks named.
    Schedule,
    /// The picture of the run that the schedule describes.
    Picture,
}

/// Makes a schedule or a picture of files for the file `onto`, if that may be written beside those
/// that are read.
pub fn make_files<R: Eprint + AllocGlobal, F: NamedFiles, W: Write>(
    rt: &R,
    files: &mut F,
    out: &mut W,
    making: Making,
    names: TextFiles<'_>,
    onto: &str,
) -> Status
    ensures { MakesFiles making
        names.entry.source.now names.entry.input.now names.entry.schedule.now onto.now
        (F.done files.old) (F.done files.new) (W.contents out.old) (W.contents out.new) result }
{
    let clash = files.clash(onto, &[names.source, names.input, names.schedule]);
    make_unless(rt, files, out, making, names, onto, clash)
}

/// The same, where it is known whether the file `onto` may be written.
fn make_unless<R: Eprint + AllocGlobal, F: NamedFiles, W: Write>(
    rt: &R,
    files: &mut F,
    out: &mut W,
    making: Making,
    names: TextFiles<'_>,
    onto: &str,
    clash: Option<Clash>,
) -> Status
    ensures { AfterCompare clash
        (F.done files.old) (F.done files.new) (W.contents out.old) (W.contents out.new) result
        (ReadsTexts names.entry.source.now names.entry.input.now names.entry.schedule.now
        (F.done files.old) (F.done files.new) (W.contents out.old) (W.contents out.new) result
        (λ done text given picks. EndsMaking making onto.now text given picks
        done (F.done files.new) (W.contents out.old) (W.contents out.new) result)) }
{
    if let Some(clash) = clash {
        return refuse_out(rt, onto, clash);
    }
    let texts = read_texts(files, names.source, names.input, names.schedule);
    make_given(rt, files, out, making, names, onto, texts)
}

/// What is made of the bytes of the files.
fn make_given<R: Eprint + AllocGlobal, F: NamedFiles, W: Write>(
    rt: &R,
    files: &mut F,
    out: &mut W,
    making: Making,
    names: TextFiles<'_>,
    onto: &str,
    texts: Result<Texts, Unread<'_>>,
) -> Status
    ensures { AfterTexts texts.entry
        (F.done files.old) (F.done files.new) (W.contents out.old) (W.contents out.new) result
        (λ text given picks. EndsMaking making onto.now text given picks
        (F.done files.old) (F.done files.new) (W.contents out.old) (W.contents out.new) result) }
{
    match texts {
        Ok(texts) => make_read(rt, files, out, making, names, onto, &texts),
        Err(Unread { name, fault }) => refuse_file(rt, name, &fault),
    }
}

/// A file's name without the folders that it is in.
fn own_name(name: &str) -> &[u8] {
    let bytes = name.as_bytes();
    match bytes.iter().rposition(|byte| *byte == b'/') {
        Some(place) => bytes.get(place.saturating_add(1)..).unwrap_or(bytes),
        None => bytes,
    }
}

/// What is made of the texts of files.
fn made(
    alloc: Global,
    making: Making,
    names: TextFiles<'_>,
    texts: &Texts,
) -> Result<Made, AllocError>
    ensures { IfOk result (Allows making
        texts.now.source.items texts.now.input.items texts.now.schedule.items) }
{
    let Texts {
        source,
        input,
        schedule,
    } = texts;
    match making {
        Making::Schedule => upgrade_texts(alloc, source, input, schedule),
        Making::Picture => timeline_texts(alloc, own_name(names.source), source, input, schedule),
    }
}

/// Writes what is made of the texts of files to another one, which is made where there is something
/// to write; standard error has its message.
fn make_read<R: Eprint + AllocGlobal, F: NamedFiles, W: Write>(
    rt: &R,
    files: &mut F,
    out: &mut W,
    making: Making,
    names: TextFiles<'_>,
    onto: &str,
    texts: &Texts,
) -> Status
    ensures { EndsMaking making onto.now
        texts.now.source.items texts.now.input.items texts.now.schedule.items
        (F.done files.old) (F.done files.new) (W.contents out.old) (W.contents out.new) result }
{
    match made(rt.alloc(), making, names, texts) {
        Ok(Made::Text(text)) => give_file(rt, files, onto, &text),
        Ok(Made::Shown(page)) => show_page(rt, out, names, texts, &page),
        Err(_) => tell_of(rt, names, texts, Err(EngineFault::Memory)),
    }
}
