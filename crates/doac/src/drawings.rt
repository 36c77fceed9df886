//! `draw`: the picture of a loop of the source of a file.

ghost use Rattle.std.specs.Prelude.{◌≡◌};
ghost use Rattle.engines.specs.Drawing.{Draws};
ghost use Rattle.named_files.specs.Deeds.{got};
ghost use Rattle.doac.specs.Deeds.{AfterCompare, AfterFile, ReadsFile};
ghost use Rattle.doac.specs.Pictures.{DrawsFile, EndsDrawing};
ghost use Rattle.doac.specs.Statuses.{Ends, IsPage};

use crate::told::{give_file, refuse_file, refuse_out, tell};
use command_line::Drawing;
use command_output::{EngineFault, Page, Status};
use engines::{Drawn, MOST_ARROWS, Portion, draw_text};
use named_files::{Clash, FileFault, NamedFiles};
use places::Place;
use std::io::Write;

/// Draws a loop of the source of a file to another file, if that may be written.
pub fn draw_file<R: Eprint + AllocGlobal, F: NamedFiles, W: Write>(
    rt: &R,
    files: &mut F,
    out: &mut W,
    drawing: Drawing<'_>,
) -> Status
    ensures { DrawsFile drawing.entry
        (F.done files.old) (F.done files.new) (W.contents out.old) (W.contents out.new) result }
{
    let portion = Portion {
        number: drawing.number as usize,
        columns: drawing.iterations,
    };
    let clash = files.clash(drawing.out, &[drawing.source]);
    draw_unless(rt, files, out, drawing.source, drawing.out, portion, clash)
}

/// The same, where it is known whether the file `onto` may be written.
fn draw_unless<R: Eprint + AllocGlobal, F: NamedFiles, W: Write>(
    rt: &R,
    files: &mut F,
    out: &mut W,
    source: &str,
    onto: &str,
    portion: Portion,
    clash: Option<Clash>,
) -> Status
    ensures { AfterCompare clash (F.done files.old) (F.done files.new) (W.contents out.old)
        (W.contents out.new) result
        (ReadsFile source.now (F.done files.old) (F.done files.new) (W.contents out.old)
        (W.contents out.new) result
        (λ done text. EndsDrawing (Draws text portion) onto.now
        done (F.done files.new) (W.contents out.old) (W.contents out.new) result)) }
{
    if let Some(clash) = clash {
        return refuse_out(rt, onto, clash);
    }
    let text = files.read(source);
    draw_given(rt, files, out, source, onto, portion, text)
}

/// What `draw` makes of the bytes of its file.
fn draw_given<R: Eprint + AllocGlobal, F: NamedFiles, W: Write>(
    rt: &R,
    files: &mut F,
    out: &mut W,
    source: &str,
    onto: &str,
    portion: Portion,
    text: Result<Vec<u8>, FileFault>,
) -> Status
    ensures { AfterFile (got text) (F.done files.old) (F.done files.new) (W.contents out.old)
        (W.contents out.new) result
        (λ text. EndsDrawing (Draws text portion) onto.now
        (F.done files.old) (F.done files.new) (W.contents out.old) (W.contents out.new) result) }
{
    match text {
        Ok(text) => draw_source(rt, files, out, source, onto, portion, &text),
        Err(fault) => refuse_file(rt, source, &fault),
    }
}

/// Draws a loop of the text of a file to another one; standard error has its message.
fn draw_source<R: Eprint + AllocGlobal, F: NamedFiles, W: Write>(
    rt: &R,
    files: &mut F,
    out: &mut W,
    source: &str,
    onto: &str,
    portion: Portion,
    text: &[u8],
) -> Status
    ensures { EndsDrawing (Draws text.now portion) onto.now
        (F.done files.old) (F.done files.new) (W.contents out.old) (W.contents out.new) result }
{
    match draw_text(rt.alloc(), text, portion) {
        Ok(Drawn::Picture(picture)) => give_file(rt, files, onto, &picture),
        Ok(Drawn::Shown(page)) => draw_shown(rt, out, source, text, &page),
        Ok(Drawn::NoLoop(count)) => refuse_loop(rt, source, portion.number, count),
        Ok(Drawn::TooDense(count)) => refuse_dense(rt, source, portion.number, count),
        Err(_) => tell(rt, source, text, Err(EngineFault::Memory)),
    }
}

/// Writes why there is no picture of a loop.
fn draw_shown<R: Eprint + AllocGlobal, W: Write>(
    rt: &R,
    out: &mut W,
    source: &str,
    text: &[u8],
    page: &Page,
) -> Status
    ensures { Ends (IsPage page.now) (W.contents out.old) (W.contents out.new) result }
{
    let outcome = page.write(out);
    tell(rt, source, text, outcome)
}

/// Says on standard error that a source has no loop of a number, but so many, and gives the exit
/// status.
fn refuse_loop<R: Eprint>(rt: &R, name: &str, number: usize, count: usize) -> Status
    ensures { result ≡ Status.WrongCommand }
{
    let place = Place {
        file: name,
        line: 0,
    };
    let _ = match count {
        0 => eprintln!(rt; "{place}there is no loop to draw"),
        1 => eprintln!(rt; "{place}there is no loop {number}: the one loop is loop 1"),
        _ => eprintln!(rt;
            "{place}there is no loop {number}: loops are numbered from 1 to {count}"
        ),
    };
    Status::WrongCommand
}

/// Says on standard error that the picture of a loop would have so many arrows, and gives the exit
/// status.
fn refuse_dense<R: Eprint>(rt: &R, name: &str, number: usize, count: u128) -> Status
    ensures { result ≡ Status.WrongCommand }
{
    let place = Place {
        file: name,
        line: 0,
    };
    let _ = eprintln!(rt;
        "{place}the picture of loop {number} would have {count} arrows, and {MOST_ARROWS} at most are drawn"
    );
    let _ = eprintln!(rt; "hint: fewer iterations, by --iterations, have fewer arrows");
    Status::WrongCommand
}
