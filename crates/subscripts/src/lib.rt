//! Affine forms of subscripts.
#![tactic(auto)]

mod adding;
mod expression;
mod form;
mod leaf;
mod shares;

pub use expression::affine;
pub use form::{Affine, Form};
pub use shares::{Share, factor_in, has_share};
