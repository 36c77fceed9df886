//! What words that name no command were meant as.

use crate::matches::LineFault;
use std::convert::AsStr;

/// How other programs spell an option for a number of processors.
const SPELLINGS: [&str; 3] = ["--threads", "--jobs", "-j"];

/// Whether a word begins with an option for a number of processors, as others spell it.
fn is_for_processors(word: &str) -> bool {
    SPELLINGS.iter().any(|spelling| word.starts_with(*spelling))
}

/// What the words of a command line that is at fault were meant as, where one of them tells.
pub fn hint<S: AsStr>(words: &[S], fault: &LineFault) -> Option<&'static str> {
    if !matches!(fault, LineFault::Mistake(_)) {
        return None;
    }
    words
        .iter()
        .any(|word| is_for_processors(word.as_str()))
        .then_some("the number of processors is -p")
}
