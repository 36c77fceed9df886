//! Laws about the dependence tests.

ghost use Rattle.dependence.specs.Divisors.{IsByDivisor, IsGreatest};

/// The number that the divisor test takes is the greatest common divisor.
pub fn greatest_divisor()
    ensures { IsGreatest }
{}

/// The divisor test says so exactly where all but the constants are not all 0, and some number
/// divides each of them, but not the constants' difference.
#[tactic(auto, using(crate::proofs::Greatest::is_by_divisor))]
pub fn divisor_test()
    ensures { IsByDivisor }
{}
