//! Skips whose lengths aren't known yet where they are emitted, and are filled in.

ghost use Rattle.std.specs.Prelude.{◌≡◌, OnOk, length, set};
ghost use Rattle.codegen.specs.Blocks.{body_ended, closed};
ghost use Rattle.expr_code.specs.Emitted.{instr};

use crate::statements::put;
use ast::Line;
use expr_code::short;
use machine::{Act, Instr};
use std::alloc::AllocError;

/// A skip to the end of an IF's code, which isn't there yet: its place in the code, and its line.
#[derive(Clone, Copy)]
pub struct Pending {
    pub place: usize,
    pub line: Line,
}

/// An instruction takes the place of one that was left open.
pub fn fill(code: &mut Vec<Instr>, place: usize, line: Line, act: Act)
    ensures { code.new.items ≡ set code.old.items place (instr line act) }
{
    if place < code.len() {
        code[place] = Instr { line, act };
    }
}

/// All skips that were left open go to the code's end.
pub fn close(code: &mut Vec<Instr>, pending: &[Pending])
    ensures { code.new.items ≡ closed (length code.old.items) pending.now code.old.items }
{
    let end = code.len();
    let mut left = pending.len();
    while left > 0 {
        left -= 1;
        let Pending { place, line } = pending[left];
        let skipped = end.saturating_sub(place).saturating_sub(1);
        fill(code, place, line, Act::Skip(short(skipped)));
    }
}

/// The body of an arm of a line ends, which the skip at a place goes behind; the skip behind the
/// body is left open.
pub fn end_body(code: &mut Vec<Instr>, start: usize, line: Line) -> Result<(), AllocError>
    ensures { OnOk result (code.new.items ≡ body_ended line start code.old.items) }
{
    let behind = short(code.len().saturating_sub(start));
    put(code, line, Act::Skip(0))?;
    fill(code, start, line, Act::SkipUnless(behind));
    Ok(())
}
