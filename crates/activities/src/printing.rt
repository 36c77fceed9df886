//! Records of PRINTs.

ghost use Rattle.std.specs.Prelude.{◌≡◌, ◌≤◌, ◌<◌, ◌++◌, IfOk, OnOk, OnErr, length, map, reverse};
ghost use Rattle.ast.specs.Record.{Keeps, number, record_of, shown};
ghost use Rattle.machine.specs.CodeView.{part};
ghost use Rattle.machine.specs.View.{filled, values_wanted};
ghost use Rattle.activities.specs.Printing.{PrintsPiece};

use itoa::Buffer;
use machine::Piece;
use std::alloc::AllocError;

/// Appends an integer, with a blank before it unless it is the first item.
fn append_number(out: &mut Vec<u8>, is_first: bool, n: i64) -> Result<(), AllocError>
    ensures appended { OnOk result (out.new.items ≡ out.old.items ++ shown is_first (number n)) }
    ensures kept { Keeps out.old.items out.new.items }
{
    if !is_first {
        out.push(b' ')?;
    }
    let mut buffer = Buffer::new();
    out.extend_from_slice(buffer.format(n).as_bytes())
}

/// Appends a piece of a record; of the operands so many are left to print, the last one first.
fn append_piece(
    out: &mut Vec<u8>,
    is_first: bool,
    piece: &Piece,
    operands: &[i64],
    left: usize,
) -> Result<usize, AllocError>
    requires left { left ≤ length operands.now }
    ensures printed { IfOk result (λ rest.
        PrintsPiece is_first (part piece.now) left operands.now out.old.items rest out.new.items) }
    ensures left { IfOk result (λ rest. rest ≤ left) }
    ensures kept { Keeps out.old.items out.new.items }
{
    match piece {
        Piece::Operand => {
            if left == 0 {
                return Ok(0);
            }
            append_number(out, is_first, operands[left - 1])?;
            Ok(left - 1)
        }
        Piece::Text(text) => {
            out.extend_from_slice(text)?;
            Ok(left)
        }
    }
}

/// Appends a record; where memory is refused, a beginning of it.
fn append_record(out: &mut Vec<u8>, pieces: &[Piece], operands: &[i64]) -> Result<(), AllocError>
    requires values { length operands.now ≡ values_wanted (map part pieces.now) }
    ensures appended { OnOk result (out.new.items ≡ out.old.items
        ++ record_of (filled (map part pieces.now) (reverse operands.now))) }
    ensures kept { Keeps out.old.items out.new.items }
{
    out.push(b' ')?;
    let mut is_first = true;
    let mut left = operands.len();
    for piece in pieces {
        left = append_piece(out, is_first, piece, operands, left)?;
        is_first = false;
    }
    out.push(b'\n')?;
    Ok(())
}

/// Appends a record of operands, the last one first; nothing of it where memory is refused.
pub fn print(out: &mut Vec<u8>, pieces: &[Piece], operands: &[i64]) -> Result<(), AllocError>
    requires values { length operands.now ≡ values_wanted (map part pieces.now) }
    ensures appended { OnOk result (out.new.items ≡ out.old.items
        ++ record_of (filled (map part pieces.now) (reverse operands.now))) }
    ensures err { OnErr result (out.new.items ≡ out.old.items) }
{
    let before = out.len();
    let printed = append_record(out, pieces, operands);
    if printed.is_err() {
        out.truncate(before);
    }
    printed
}
