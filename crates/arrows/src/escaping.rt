//! Text of any bytes, as an SVG file may hold it.

ghost use Rattle.std.specs.Prelude.{◌≡◌, ◌++◌, OnOk};
ghost use Rattle.arrows.specs.Escaped as spec;

use std::alloc::AllocError;

/// Appends what stands for a byte: an entity for one that marks up, a question mark for one that is
/// no printable character of ASCII, and itself otherwise.
fn append_byte(out: &mut Vec<u8>, byte: u8) -> Result<(), AllocError>
    ensures { OnOk result (out.new.items ≡ out.old.items ++ spec.escape byte) }
{
    match byte {
        b'&' => out.extend_from_slice(b"&amp;"),
        b'<' => out.extend_from_slice(b"&lt;"),
        b'>' => out.extend_from_slice(b"&gt;"),
        b'"' => out.extend_from_slice(b"&quot;"),
        b'\'' => out.extend_from_slice(b"&#39;"),
        b' '..=b'~' => Ok(out.push(byte)?),
        _ => Ok(out.push(b'?')?),
    }
}

/// Appends a text of any bytes, so that nothing of it is markup.
pub fn append_escaped(out: &mut Vec<u8>, text: &[u8]) -> Result<(), AllocError>
    ensures { OnOk result (out.new.items ≡ out.old.items ++ spec.escaped text.now) }
{
    for byte in text {
        append_byte(out, *byte)?;
    }
    Ok(())
}
