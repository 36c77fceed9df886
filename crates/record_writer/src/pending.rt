//! Records on their way to a writer.

ghost use Rattle.std.specs.Prelude.{◌≡◌, [], OnErr, OnOk};
ghost use Rattle.std.specs.Io.KnownBytes.{Appends};
ghost use Rattle.record_writer.specs.Written.{AppendsPart};

use std::io::{Error, ErrorKind, Result, Write};

/// Bytes of whole records that are still to be handed on, how many of them may wait, and why the
/// writer failed, if it did.
#[derive(Drop)]
pub struct Pending {
    pub bytes: Vec<u8>,
    pub most: usize,
    pub failed: Option<Error>,
}

/// Writes a whole text. A writer that takes no byte has failed.
///
/// # Errors
///
/// The writer's error, with a beginning of the text written, not all of it.
pub fn write_all<W: Write>(writer: &mut W, text: &[u8]) -> Result<()>
    ensures ok { OnOk result (Appends (W.contents writer.old) (W.contents writer.new) text.now) }
    ensures err { OnErr result
        (AppendsPart (W.contents writer.old) (W.contents writer.new) text.now) }
{
    let mut done = 0;
    while done < text.len() {
        match writer.write(&text[done..])? {
            0 => return Err(Error::from(ErrorKind::WriteZero)),
            taken => done += taken,
        }
    }
    Ok(())
}

/// Hands on what is pending. Nothing is then pending, also where the writer failed.
///
/// # Errors
///
/// The writer's error, with a beginning of what was pending written, not all of it.
pub fn hand_on<W: Write>(pending: &mut Vec<u8>, writer: &mut W) -> Result<()>
    ensures ok { OnOk result
        (Appends (W.contents writer.old) (W.contents writer.new) pending.old.items) }
    ensures err { OnErr result
        (AppendsPart (W.contents writer.old) (W.contents writer.new) pending.old.items) }
    ensures empty { pending.new.items ≡ [] }
{
    let done = write_all(writer, pending);
    pending.clear();
    done
}
