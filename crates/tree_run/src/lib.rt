//! The run of a program by its tree: one statement after another, as the meaning of `ast` says.
#![tactic(auto)]

mod expressions;
pub mod input;
pub mod machine;
pub mod memory;
mod places;
pub mod print;
pub mod statements;
pub mod stop;
