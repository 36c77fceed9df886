//! Steps of a frame in its own place, on a memory.

ghost use Rattle.std.specs.Prelude.{◌≡◌, ◌≤◌, Some};
ghost use Rattle.machine.specs.CodeView.{code_of};
ghost use Rattle.machine.specs.Memory.{Within};
ghost use Rattle.machine.specs.Strides.{held_by, strides, strides_past};

use crate::acting::Cursor;
use crate::awaits::{Awaits, Unknown};
use crate::code::Code;
use crate::frame::Frame;
use crate::going::go;
use crate::memory::Memory;

/// Local instructions, loads and stores of a frame that stand next, at most `n`, in its own place
/// and on a memory; how many. It takes no memory of the allocator.
#[inline(always)]
pub fn stride<M: Memory>(code: &Code, frame: &mut Frame, memory: &mut M, n: u32) -> u32
    ensures made { Within (M.seen memory.old) (M.seen memory.new) (λ cells ds.
        strides (code_of code.now) result (held_by code.now frame.old cells)
        ≡ Some (held_by code.now frame.new ds)) }
    ensures few { result ≤ n }
{
    stride_past(code, frame, memory, &Unknown, n)
}

/// The same, and awaits that are passed.
pub fn stride_past<M: Memory, A: Awaits>(
    code: &Code,
    frame: &mut Frame,
    memory: &mut M,
    awaits: &A,
    n: u32,
) -> u32
    ensures made { Within (M.seen memory.old) (M.seen memory.new) (λ cells ds.
        strides_past (A.passed awaits.now) (code_of code.now) result
        (held_by code.now frame.old cells) ≡ Some (held_by code.now frame.new ds)) }
    ensures few { result ≤ n }
{
    if frame.fault.is_some() {
        return 0;
    }
    let start = Cursor {
        place: frame.place,
        top: frame.top,
        inner: frame.inner,
    };
    let gone = go(
        code,
        frame.slots.as_mut_slice(),
        frame.privates.as_mut_slice(),
        frame.counters.as_mut_slice(),
        &frame.index,
        memory,
        awaits,
        start,
        n,
    );
    frame.place = gone.cursor.place;
    frame.top = gone.cursor.top;
    frame.inner = gone.cursor.inner;
    frame.fault = gone.fault;
    n - gone.left
}
