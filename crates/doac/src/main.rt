//! `doac`: checks and runs FORTRAN 77 programs, also in threads and in model time, and repeats runs
//! of the machine.
#![tactic(auto)]

mod code_file;
mod drawings;
mod keeping;
mod making;
mod models;
mod obeying;
mod program;
mod replays;
mod sources;
mod threads;
mod told;

use std::io::IsTerminal;
use std::process::ExitCode;

fn main(rt: HostRuntime) -> ExitCode {
    let status = program::run(&rt, rt.stdout().is_terminal());
    ExitCode::from(status.number())
}
