//! Operations on 64-bit integers: the exact value, or the fault in its place.

ghost use Rattle.std.specs.Prelude.{◌≡◌, ◌≢◌, ◌-ℤ◌, ◌+ℤ◌, ◌*ℤ◌, int_div, pos, ◌<◌, ◌^◌};
ghost use Rattle.std.specs.Prelude.{unsigned_abs, ℤ};
ghost use Rattle.ast.specs.Exact.{absolute, negated, positive_part, prefixed_value, remainder};
ghost use Rattle.ast.specs.Exact.{trips, truth_value, value_of};
ghost use Rattle.ast.specs.declared.expression.Operator.TheVariants.{Add, Subtract, Multiply};
ghost use Rattle.ast.specs.declared.expression.Operator.TheVariants.{Divide};

use ast::{Fault, Operator, Prefix};

/// The sum; `Overflow` where it is no 64-bit integer.
pub fn add(a: i64, b: i64) -> Result<i64, Fault>
    ensures { result ≡ value_of Add a b }
{
    let sum = a.wrapping_add(b);
    if (sum < 0) != (a < 0) && (sum < 0) != (b < 0) {
        Err(Fault::Overflow)
    } else {
        Ok(sum)
    }
}

/// The difference; `Overflow` where it is no 64-bit integer.
pub fn sub(a: i64, b: i64) -> Result<i64, Fault>
    ensures { result ≡ value_of Subtract a b }
{
    let difference = a.wrapping_sub(b);
    if (difference < 0) != (a < 0) && (a < 0) != (b < 0) {
        Err(Fault::Overflow)
    } else {
        Ok(difference)
    }
}

/// The product, exactly.
#[inline(always)]
fn exact_product(a: i64, b: i64) -> i128
    ensures { result ≡ a *ℤ b }
{
    i128::from(a) * i128::from(b)
}

/// The product; `Overflow` where it is no 64-bit integer.
pub fn mul(a: i64, b: i64) -> Result<i64, Fault>
    ensures { result ≡ value_of Multiply a b }
{
    let product = exact_product(a, b);
    if product < i128::from(i64::MIN) || product > i128::from(i64::MAX) {
        Err(Fault::Overflow)
    } else {
        Ok(product as i64)
    }
}

/// The quotient, truncated toward zero; `ZeroDivisor` where `b` is 0, and `Overflow` where the
/// least integer is divided by -1.
pub fn div(a: i64, b: i64) -> Result<i64, Fault>
    ensures { result ≡ value_of Divide a b }
{
    if b == 0 {
        return Err(Fault::ZeroDivisor);
    }
    a.checked_div(b).ok_or(Fault::Overflow)
}

/// MOD: `a` less its truncated quotient by `b` times `b`; `ZeroDivisor` where `b` is 0. The least
/// integer leaves 0 by -1.
pub fn modulo(a: i64, b: i64) -> Result<i64, Fault>
    ensures { result ≡ remainder a b }
{
    if b == 0 {
        return Err(Fault::ZeroDivisor);
    }
    if b == -1 {
        return Ok(0);
    }
    Ok(a % b)
}

/// The number with its sign changed; `Overflow` at the least integer.
pub fn neg(a: i64) -> Result<i64, Fault>
    ensures { result ≡ negated a }
{
    a.checked_neg().ok_or(Fault::Overflow)
}

/// The number without its sign; `Overflow` at the least integer.
pub fn abs(a: i64) -> Result<i64, Fault>
    ensures { result ≡ absolute a }
{
    a.checked_abs().ok_or(Fault::Overflow)
}

/// A truth value as it is kept: 1 where it is true, 0 where it is false.
pub fn truth(holds: bool) -> i64
    ensures { result ≡ truth_value holds }
{
    if holds { 1 } else { 0 }
}

/// What a sign or `.NOT.` makes of a value.
pub fn apply_prefix(prefix: Prefix, a: i64) -> Result<i64, Fault>
    ensures { result ≡ prefixed_value prefix a }
{
    match prefix {
        Prefix::Plus => Ok(a),
        Prefix::Minus => neg(a),
        Prefix::Not => Ok(truth(a == 0)),
    }
}

/// What an operator makes of two values; a fault where `add`, `sub`, `mul` or `div` has one.
pub fn apply_operator(operator: Operator, a: i64, b: i64) -> Result<i64, Fault>
    ensures { result ≡ value_of operator a b }
{
    match operator {
        Operator::Add => add(a, b),
        Operator::Subtract => sub(a, b),
        Operator::Multiply => mul(a, b),
        Operator::Divide => div(a, b),
        Operator::Less => Ok(truth(a < b)),
        Operator::LessOrEqual => Ok(truth(a <= b)),
        Operator::Equal => Ok(truth(a == b)),
        Operator::NotEqual => Ok(truth(a != b)),
        Operator::Greater => Ok(truth(a > b)),
        Operator::GreaterOrEqual => Ok(truth(a >= b)),
        Operator::And => Ok(truth(a != 0 && b != 0)),
        Operator::Or => Ok(truth(a != 0 || b != 0)),
        Operator::Equivalent => Ok(truth((a != 0) == (b != 0))),
        Operator::NotEquivalent => Ok(truth((a != 0) != (b != 0))),
    }
}

/// `m2 - m1 + m3`, exactly.
fn span(m1: i64, m2: i64, m3: i64) -> i128
    ensures { result ≡ (m2 -ℤ m1) +ℤ m3 }
{
    i128::from(m2) - i128::from(m1) + i128::from(m3)
}

/// A quotient, truncated toward zero.
fn truncated(whole: i128, step: i64) -> i128
    requires nonzero { step ≢ pos 0 }
    requires few { unsigned_abs whole < 2 ^ 100 }
    ensures { result ≡ int_div whole step }
{
    whole / i128::from(step)
}

/// A count, 0 where it is negative.
fn count(trips: i128) -> u128
    ensures { result ≡ positive_part trips }
{
    if trips < 0 { 0 } else { trips as u128 }
}

/// How often the range of a DO with these parameters is gone through, exactly.
pub fn trips(m1: i64, m2: i64, m3: i64) -> u128
    requires { m3 ≢ pos 0 }
    ensures { result ≡ trips m1 m2 m3 }
{
    count(truncated(span(m1, m2, m3), m3))
}
