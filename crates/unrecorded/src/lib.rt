//! Runs of which no schedule is kept: their type says that a run of the machine leads to where they
//! are.
#![tactic(auto)]

mod run;

pub use run::Run;
