//! The files that the program reads and writes, by their names: the machine's, or any others.
#![tactic(auto)]

mod fault;
mod files;
mod host_files;

pub use fault::FileFault;
pub use files::{Clash, Given, NamedFiles, Unread, read_given, read_texts};
pub use host_files::{HostFiles, STANDARD_INPUT};
