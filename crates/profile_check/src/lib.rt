//! From a source text to its program.
#![tactic(auto)]

mod arrays;
mod check;
mod constants;
mod declarations;
mod kinds;
mod names;
mod nesting;
mod reading;
mod resolving;
mod rules;
mod symbols;
mod tree;
mod uses;
mod whole;

pub use whole::program;
