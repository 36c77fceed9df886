//! `code`: what is made of a source.

ghost use Rattle.engines.specs.Coded.{ShowsCode};
ghost use Rattle.named_files.specs.Deeds.{got};
ghost use Rattle.doac.specs.Commands.{OnSource};
ghost use Rattle.doac.specs.Deeds.{AfterFile};
ghost use Rattle.doac.specs.Statuses.{Ends};

use crate::told::{refuse_file, tell};
use command_output::Status;
use engines::code_text;
use named_files::{FileFault, NamedFiles};
use std::io::Write;

/// Shows the code of the source of a file.
pub fn code_file<R: Eprint + AllocGlobal, F: NamedFiles, W: Write>(
    rt: &R,
    files: &mut F,
    out: &mut W,
    name: &str,
) -> Status
    ensures { OnSource ShowsCode name.now
        (F.done files.old) (F.done files.new) (W.contents out.old) (W.contents out.new) result }
{
    let text = files.read(name);
    code_given(rt, out, name, text)
}

/// What `code` makes of the bytes of its file.
fn code_given<R: Eprint + AllocGlobal, W: Write>(
    rt: &R,
    out: &mut W,
    name: &str,
    text: Result<Vec<u8>, FileFault>,
) -> Status
    ensures { (done : _) → AfterFile (got text) done done
        (W.contents out.old) (W.contents out.new) result
        (λ text. Ends (ShowsCode text) (W.contents out.old) (W.contents out.new) result) }
{
    match text {
        Ok(text) => code_source(rt, out, name, &text),
        Err(fault) => refuse_file(rt, name, &fault),
    }
}

/// Shows the code of the text of a file; standard error has its message.
fn code_source<R: Eprint + AllocGlobal, W: Write>(
    rt: &R,
    out: &mut W,
    name: &str,
    text: &[u8],
) -> Status
    ensures { Ends (ShowsCode text.now) (W.contents out.old) (W.contents out.new) result }
{
    let outcome = code_text(rt.alloc(), text, out);
    tell(rt, name, text, outcome)
}
