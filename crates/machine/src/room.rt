//! Vectors that are filled anew in the room that they have.

ghost use Rattle.std.specs.Prelude.{◌≡◌, ◌≤◌, length, OnOk};

use smallvec::SmallVec;
use std::alloc::{AllocError, Global};
use std::default::MadeWith;

/// Room for so many elements in all. It takes memory only where there is too little.
pub fn make_room<T: MadeWith<Global> + Copy, const N: usize>(
    vector: &mut SmallVec<T, N>,
    len: usize,
) -> Result<(), AllocError>
    ensures room { OnOk result (len ≤ vector.new.capacity) }
    ensures items { vector.new.items ≡ vector.old.items }
{
    let held = vector.len();
    if held < len {
        vector.reserve(len - held)?;
    }
    Ok(())
}

/// Copies of these elements in the place of those that are there.
#[tactic(auto, using(crate::proofs::Runs::refilled))]
pub fn refill<T: MadeWith<Global> + Copy, const N: usize>(
    vector: &mut SmallVec<T, N>,
    elements: &[T],
)
    requires room { length elements.now ≤ vector.old.capacity }
    ensures { vector.new.items ≡ elements.now }
{
    if vector.len() == elements.len() {
        vector.as_mut_slice().copy_from_slice(elements);
        return;
    }
    vector.clear();
    match vector.extend_from_slice(elements) {
        Ok(()) => {}
        Err(_) => unreachable!(),
    }
}
