//! 64-bit integers: operations on them, and the integers that a record of the input holds.
#![tactic(auto)]

mod arithmetic;
mod modulus;
mod scanner;

pub use arithmetic::{
    abs, add, apply_operator, apply_prefix, div, modulo, mul, neg, sub, trips, truth,
};
pub use modulus::Modulus;
pub use scanner::scan;
