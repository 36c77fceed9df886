//! Greatest common divisors.

ghost use Rattle.std.specs.Prelude.{◌≡◌, map, unsigned_abs};
ghost use Rattle.dependence.specs.Tests as spec;
ghost use Rattle.loop_tree.specs.TreeView.{seen};
ghost use Rattle.subscripts.specs.Forms.{factor_in, others};
ghost use Rattle.subscripts.specs.SharesView.{share as share_of};

use loop_tree::LoopView;
use subscripts::{Share, factor_in, has_share};

/// The greatest common divisor of two numbers, 0 where both are 0.
#[tactic(auto, using(crate::proofs::Divisors::gcd_zero, crate::proofs::Divisors::gcd_step))]
pub fn gcd(a: u64, b: u64) -> u64
    ensures { result ≡ spec.gcd a b }
{
    if b == 0 { a } else { gcd(b, a % b) }
}

/// The greatest common divisor of a number and the factors of the scalars that the loop's range
/// gives values.
pub fn with_varying(view: &LoopView<'_, '_>, number: u64, shares: &[Share]) -> u64
    ensures { result ≡ spec.gcd_with number
        (spec.sizes (spec.varying (seen view.now) (map share_of shares.now))) }
{
    let mut divisor = number;
    for share in shares {
        if view.assigns(share.cell) {
            divisor = gcd(divisor, share.factor.unsigned_abs());
        }
    }
    divisor
}

/// By how much a factor differs from the second's of the same scalar.
fn gap(share: Share, second: &[Share]) -> u64
    ensures { result ≡ spec.gap (share_of share).factor
        (factor_in (map share_of second.now) share.cell) }
{
    share.factor.abs_diff(factor_in(second, share.cell))
}

/// The greatest common divisor of a number and of the differences between the first's factors and
/// the second's of the same scalars, for those scalars of the first that the range gives no values.
pub fn with_gaps(view: &LoopView<'_, '_>, number: u64, first: &[Share], second: &[Share]) -> u64
    ensures { result ≡ spec.gcd_with number
        (spec.gaps (spec.steady (seen view.now) (map share_of first.now))
        (map share_of second.now)) }
{
    let mut divisor = number;
    for share in first {
        if !view.assigns(share.cell) {
            divisor = gcd(divisor, gap(*share, second));
        }
    }
    divisor
}

/// The greatest common divisor of a number and of the second's factors of scalars that the range
/// gives no values and the first lacks.
pub fn with_others(view: &LoopView<'_, '_>, number: u64, first: &[Share], second: &[Share]) -> u64
    ensures { result ≡ spec.gcd_with number
        (spec.sizes
        (others (map share_of first.now)
        (spec.steady (seen view.now) (map share_of second.now)))) }
{
    let mut divisor = number;
    for share in second {
        if !view.assigns(share.cell) && !has_share(first, share.cell) {
            divisor = gcd(divisor, share.factor.unsigned_abs());
        }
    }
    divisor
}
