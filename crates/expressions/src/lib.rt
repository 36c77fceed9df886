//! The text of an expression to its tree. Texts are folded to upper case and without blanks.
#![tactic(auto)]

mod build;
mod depth;
mod level;
mod literal;
mod parse;
mod scan;

pub use ast::Refusal as SyntaxRefusal;
pub use depth::{DEPTH_LIMIT, is_access_within, is_within};
pub use literal::{end, misplaced, name, reference_to, refused, wanted};
pub use parse::{access, expr, expression, whole};
pub use scan::{after, begins_digit, begins_letter, begins_with, digits, letters_and_digits};
