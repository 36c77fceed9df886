//! The command that the words of a command line name, or why they name none, as clap reads them.
#![tactic(auto)]

mod command;
mod help;
mod hints;
mod matches;
mod parser;

pub use command::{Command, Drawing, Modelled, TextFiles, Threaded};
pub use hints::hint;
pub use matches::LineFault;
pub use parser::read;
