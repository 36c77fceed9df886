//! Steps in place, on the cells of a store, where it is noted which cells were stored to.

ghost use Rattle.std.specs.Prelude.{◌≡◌, ◌≤◌, Some, length};
ghost use Rattle.machine.specs.CodeView.{code_of};
ghost use Rattle.machine.specs.Strides.{held_by, strides_past};

use crate::stale::Stale;
use machine::{Awaits, Code, Frame, Memory, stride_past};
use std::mem::replace;

/// The cells themselves. Those that were stored to are noted.
#[derive(Drop)]
pub struct Noting {
    cells: Vec<i64>,
    stale: Stale,
}

impl Memory for Noting {
    ghost use Rattle.std.specs.Prelude.{◌==◌, length};

    ghost seen = { λ s. record { agrees = λ cells. length cells == length s.cells.items; now = λ _. s.cells.items } };

    #[inline(always)]
    fn value(&mut self, cell: usize) -> Option<i64> {
        self.cells.value(cell)
    }

    #[inline(always)]
    fn put(&mut self, cell: usize, value: i64) -> bool {
        if !self.cells.put(cell, value) {
            return false;
        }
        self.stale.note(cell);
        true
    }

    #[inline(always)]
    fn is_swept(&self) -> bool {
        false
    }
}

/// Local instructions, loads, stores and awaits that are passed of a frame, those that stand next,
/// at most `n`, in its own place and on the cells of a store; how many.
#[inline(never)]
fn stride_unnoted<A: Awaits>(
    code: &Code,
    frame: &mut Frame,
    cells: &mut Vec<i64>,
    awaits: &A,
    n: u32,
) -> u32
    ensures made { strides_past (A.passed awaits.now) (code_of code.now) result
        (held_by code.now frame.old cells.old.items)
        ≡ Some (held_by code.now frame.new cells.new.items) }
    ensures few { result ≤ n }
    ensures cells { length cells.new.items ≡ length cells.old.items }
{
    stride_past(code, frame, cells, awaits, n)
}

/// The same. Cells that were stored to are stale.
// Out of line, as the other one: its caller would clear room for the memory at each call.
#[inline(never)]
fn stride_noted<A: Awaits>(
    code: &Code,
    frame: &mut Frame,
    cells: &mut Vec<i64>,
    stale: &mut Stale,
    awaits: &A,
    n: u32,
) -> u32
    ensures made { strides_past (A.passed awaits.now) (code_of code.now) result
        (held_by code.now frame.old cells.old.items)
        ≡ Some (held_by code.now frame.new cells.new.items) }
    ensures few { result ≤ n }
    ensures cells { length cells.new.items ≡ length cells.old.items }
{
    let alloc = *cells.allocator();
    let mut memory = Noting {
        cells: replace(cells, Vec::new(alloc)),
        stale: replace(stale, Stale::nothing(alloc)),
    };
    let made = stride_past(code, frame, &mut memory, awaits, n);
    let Noting {
        cells: changed,
        stale: noted,
    } = memory;
    *cells = changed;
    *stale = noted;
    made
}

/// Local instructions, loads, stores and awaits that are passed of a frame, those that stand next,
/// at most `n`, in its own place and on the cells of a store; how many. Cells that were stored to
/// are stale, where they are noted.
#[inline(always)]
pub fn stride_noting<A: Awaits>(
    code: &Code,
    frame: &mut Frame,
    cells: &mut Vec<i64>,
    stale: &mut Stale,
    awaits: &A,
    n: u32,
) -> u32
    ensures made { strides_past (A.passed awaits.now) (code_of code.now) result
        (held_by code.now frame.old cells.old.items)
        ≡ Some (held_by code.now frame.new cells.new.items) }
    ensures few { result ≤ n }
    ensures cells { length cells.new.items ≡ length cells.old.items }
{
    if stale.is_unused() {
        stride_unnoted(code, frame, cells, awaits, n)
    } else {
        stride_noted(code, frame, cells, stale, awaits, n)
    }
}
