//! Records among other lines.

ghost use Rattle.std.specs.Prelude.{◌≡◌, ◌++◌, ◌==◌, OnOk, drop, true};
ghost use Rattle.state_lines.specs.States.{marked, marked_byte};

use std::alloc::AllocError;

/// Appends a byte, behind a mark where it begins a line.
fn append_byte(out: &mut Vec<u8>, begins: bool, byte: u8) -> Result<(), AllocError>
    ensures { OnOk result (out.new.items ≡ out.old.items ++ marked_byte begins byte) }
{
    if begins {
        out.extend_from_slice(b"> ")?;
    }
    out.push(byte)?;
    Ok(())
}

/// Appends records, each line behind a mark.
pub fn append_marked(out: &mut Vec<u8>, records: &[u8]) -> Result<(), AllocError>
    ensures { OnOk result (out.new.items ≡ out.old.items ++ marked true records.now) }
{
    let mut begins = true;
    for byte in records {
        append_byte(out, begins, *byte)?;
        begins = *byte == b'\n';
    }
    Ok(())
}

/// What follows so many bytes of a text.
pub fn behind(text: &[u8], count: usize) -> &[u8]
    ensures { result.now ≡ drop count text.now }
{
    if count <= text.len() {
        &text[count..]
    } else {
        &[]
    }
}
