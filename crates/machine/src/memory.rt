//! What code loads from and stores to.

ghost use Rattle.std.specs.Prelude.{IfSome};
ghost use Rattle.machine.specs.Memory.{IsValue, Looks, Puts, Seen};

/// The cells of a store, or what is taken for them: whoever loads from it knows no more of a value
/// than that the cell has it wherever the memory is right.
pub trait Memory {
    /// Which cells these may be, and what has become of them.
    ghost seen: { Self → Seen };

    /// The value of a cell, if it can be had.
    fn value(&mut self, cell: usize) -> Option<i64>
        ensures looks { Looks (seen self.old) (seen self.new) }
        ensures value { IfSome result (IsValue (seen self.new) cell) };

    /// Gives a cell a value; whether that could be done.
    fn put(&mut self, cell: usize, value: i64) -> bool
        ensures { Puts result (seen self.old) cell value (seen self.new) };

    /// Whether loops of one statement are swept on it. It is always the same, so that strides have
    /// no code for sweeps where there are none.
    fn is_swept(&self) -> bool;
}

/// The cells themselves. However many cells agree are as many as there are.
impl Memory for Vec<i64> {
    ghost use Rattle.std.specs.Prelude.{◌==◌, length};

    ghost seen = { λ v. record { agrees = λ cells. length cells == length v.items; now = λ _. v.items } };

    #[inline(always)]
    fn value(&mut self, cell: usize) -> Option<i64> {
        if cell < self.len() {
            Some(self[cell])
        } else {
            None
        }
    }

    #[inline(always)]
    fn put(&mut self, cell: usize, value: i64) -> bool {
        if cell >= self.len() {
            return false;
        }
        self[cell] = value;
        true
    }

    // With sweeps the compiler lays out the loop of strides anew, and other loops are slower.
    #[inline(always)]
    fn is_swept(&self) -> bool {
        false
    }
}
