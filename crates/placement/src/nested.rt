//! Lists of lists, by number.

ghost use Rattle.std.specs.Prelude.{◌≡◌, ◌<◌, ◌++◌, ◌==◌, [], ◌∷◌, OnOk, ℕ, if◌then◌else◌, length};
ghost use Rattle.placement.specs.Listed.{list_at};

use std::alloc::{AllocError, Global};

/// The list of a number, empty beyond the end.
pub fn at<T>(lists: &[Vec<T>], number: usize) -> &[T]
    ensures { result.now ≡ list_at lists.now number }
{
    if number < lists.len() {
        &lists[number]
    } else {
        &[]
    }
}

/// Makes a list for each number up to one.
fn lengthen<T: Drop>(
    alloc: Global,
    lists: &mut Vec<Vec<T>>,
    number: usize,
) -> Result<(), AllocError>
    ensures same { (n : ℕ) → list_at lists.new.items n ≡ list_at lists.old.items n }
    ensures long { OnOk result (number < length lists.new.items) }
{
    while lists.len() <= number {
        lists.push(Vec::new(alloc))?;
    }
    Ok(())
}

/// Appends a value to the list of a number.
pub fn push_at<T: Drop>(
    alloc: Global,
    lists: &mut Vec<Vec<T>>,
    number: usize,
    value: T,
) -> Result<(), AllocError>
    ensures { OnOk result ((n : ℕ) → list_at lists.new.items n ≡ list_at lists.old.items n
        ++ (if number == n then value ∷ [] else [])) }
{
    lengthen(alloc, lists, number)?;
    lists[number].push(value)?;
    Ok(())
}
