//! The values of a DO variable.

ghost use Rattle.std.specs.Prelude.{◌≡◌, ◌+ℤ◌, ◌*ℤ◌, IfSome, pos};
ghost use Rattle.ast.specs.Exact.{in_range};

use ast::Fault;
use values::add;

/// The greatest number of trips after which a variable that starts at a 64-bit integer can be one.
const MOST_TRIPS: u128 = 18_446_744_073_709_551_616;

/// The way of so many trips, where it and their number are 64-bit integers.
fn short_way(trips: u128, step: i64) -> Option<i64>
    ensures { IfSome result (λ way. way ≡ pos trips *ℤ step) }
{
    if trips > 9_223_372_036_854_775_807 {
        return None;
    }
    (trips as i64).checked_mul(step)
}

/// The value that a DO variable has after so many trips, or OVERFLOW.
pub fn value_after(first: i64, trips: u128, step: i64) -> Result<i64, Fault>
    ensures { result ≡ in_range (first +ℤ (pos trips *ℤ step)) }
{
    // A product of 128 bits takes ten times as long.
    match short_way(trips, step) {
        Some(way) => add(first, way),
        None => long_value(first, trips, step),
    }
}

/// The same, however long the way is.
fn long_value(first: i64, trips: u128, step: i64) -> Result<i64, Fault>
    ensures { result ≡ in_range (first +ℤ (pos trips *ℤ step)) }
{
    if step == 0 {
        return Ok(first);
    }
    if trips > MOST_TRIPS {
        return Err(Fault::Overflow);
    }
    match (trips as i128).checked_mul(i128::from(step)) {
        Some(way) => sum(first, way),
        None => Err(Fault::Overflow),
    }
}

/// The sum of a 64-bit integer and another, or OVERFLOW.
fn sum(first: i64, way: i128) -> Result<i64, Fault>
    ensures { result ≡ in_range (first +ℤ way) }
{
    match i128::from(first).checked_add(way) {
        Some(value) if value >= -9_223_372_036_854_775_808 && value <= 9_223_372_036_854_775_807 =>
            { Ok(value as i64) }
        _ => Err(Fault::Overflow),
    }
}
