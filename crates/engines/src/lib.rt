//! The engines of the commands: what each writes of its texts, over any readers and writers.
#![tactic(auto)]

mod code_lines;
mod coded;
mod commands;
mod drawing;
mod drawn;
mod driving;
mod explained;
mod given;
mod listing;
mod loops;
mod made;
mod note;
mod prepared;
mod replays;
mod sequential;
mod spots;
mod timing;
mod told;
mod verdict;
mod watching;

pub use commands::{
    check, code_text, list, replay, replay_texts, seq, tell_loops, tell_verdict, upgrade,
};
pub use drawing::{MOST_ARROWS, Portion, draw_text};
pub use drawn::Drawn;
pub use given::{Given, Wants, read_given};
pub use made::Made;
pub use note::Note;
pub use prepared::{Coded, Described, Prepared, Run, describe, prepare, unscheduled};
pub use replays::upgrade_texts;
pub use sequential::{Sequential, known_of, seq_noted};
pub use timing::timeline_texts;
pub use verdict::{Verdict, judged};
