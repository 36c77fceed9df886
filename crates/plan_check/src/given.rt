//! A plan that has a body.

use ast::Name;
use dependence::{PlanStmt, Relations};

/// The parts of a plan with a body.
#[derive(Clone, Copy)]
pub struct Given<'a> {
    pub body: &'a [PlanStmt],
    /// The scalars of which each iteration has one of its own.
    pub privates: &'a [Name],
    /// What is claimed of pairs of references.
    pub relations: &'a Relations,
}
