//! Remarks on sources, for standard error: which name is meant, where a statement stops being one,
//! what may have been wanted in its place, and what is warned of. No clause says what they are, and
//! no answer rests on them.
#![tactic(auto)]

mod breaks;
mod caret;
mod causes;
mod columns;
mod hints;
mod mentions;
mod rules;
mod squeezed;
mod tokens;
mod usage;
mod warnings;

pub use breaks::break_place;
pub use caret::Caret;
pub use causes::{Cause, cause_of};
pub use columns::{is_blank, is_comment, is_continuation};
pub use hints::{hint, hint_of_fault, hint_of_schedule};
pub use rules::{is_of_profile, is_of_text};
pub use squeezed::Squeezed;
pub use warnings::{warn, warn_of_columns};
