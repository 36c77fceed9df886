//! The text of one statement to the statement's tree.
#![tactic(auto)]

mod class;
mod depths;
mod keywords;
mod lists;
mod loops;
mod pieces;
mod statements;

pub use ast::Refusal as SyntaxRefusal;
pub use statements::statement;
