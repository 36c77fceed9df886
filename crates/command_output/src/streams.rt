//! Whole texts from readers.

ghost use Rattle.std.specs.Prelude.{◌≡◌, ◌<◌, ◌++◌, ℕ, List, length, true, false, IfOk, OnOk};
ghost use Rattle.std.specs.Io.KnownBytes.{Consumes, IsAtEnd};
ghost use Rattle.command_output.specs.Reading.{Gives};

use crate::fault::ReadFault;
use std::alloc::Global;
use std::io::Read;

/// How many bytes are asked for at once.
const CHUNK: usize = 4096;

/// Appends what one read gives; whether it gave a byte. A reader that gives none is at its end.
fn read_some<R: Read>(reader: &mut R, bytes: &mut Vec<u8>) -> Result<bool, ReadFault>
    ensures given { IfOk result (λ gave. (given : List ℕ)
        × (bytes.new.items ≡ bytes.old.items ++ given)
        × Consumes (R.remaining reader.old) (R.remaining reader.new) given) }
    ensures some { IfOk result (λ gave. gave ≡ true → length bytes.old.items
        < length bytes.new.items) }
    ensures none { IfOk result (λ gave. gave ≡ false → (bytes.new.items ≡ bytes.old.items)
        × IsAtEnd (R.remaining reader.new)) }
{
    let mut chunk = [0; CHUNK];
    match reader.read(&mut chunk) {
        Ok(count) => {
            bytes.extend_from_slice(&chunk[..count])?;
            Ok(count > 0)
        }
        Err(error) => Err(ReadFault::Reader(error)),
    }
}

/// All bytes that a reader has left.
///
/// # Errors
///
/// Every error of a read, also an interrupted one; and want of memory.
pub fn read_all<R: Read>(alloc: Global, reader: &mut R) -> Result<Vec<u8>, ReadFault>
    ensures all { IfOk result (λ bytes. Gives (R.remaining reader.old) bytes.items) }
    ensures end { OnOk result (IsAtEnd (R.remaining reader.new)) }
{
    let mut bytes = Vec::new(alloc);
    while read_some(reader, &mut bytes)? {}
    Ok(bytes)
}
