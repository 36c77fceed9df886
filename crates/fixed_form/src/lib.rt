//! Source lines in the fixed form of FORTRAN 77: from the bytes of a text to its labelled
//! statements.
#![tactic(auto)]

mod label;
mod labelled;
mod line;
mod reading;

pub use ast::Refusal as LineRefusal;
pub use labelled::Labelled;
pub use line::{LAST_COLUMN, LAST_LABEL_COLUMN, TEXT_WIDTH, is_end};
pub use reading::statements;
