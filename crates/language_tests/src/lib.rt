//! Tests over the public calls of the crates of the language, of what no clause says. They stand in
//! a crate of their own, as each crate with tests is proved once more with them.
#![tactic(auto)]

#[cfg(test)]
mod grammar;
#[cfg(test)]
mod lines;
#[cfg(test)]
mod nests;
#[cfg(test)]
mod tables;
#[cfg(test)]
mod trees;
