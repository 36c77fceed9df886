//! Dependence tests.
#![tactic(auto)]

mod compare;
mod divisor;
mod fitting;
mod formed;
mod laws;
mod plan;
mod recent;
mod relating;
mod relation;
mod relations;
mod run;
mod serial;
mod verifying;

pub use fitting::{has_name, has_read, hides_inner};
pub use formed::{forms, have_same_forms, is_given, relate_forms};
pub use laws::{divisor_test, greatest_divisor};
pub use plan::{LoopPlan, PlanArm, PlanStmt};
pub use recent::Recent;
pub use relating::relate;
pub use relation::{Reason, Relation};
pub use relations::Relations;
pub use run::Run;
pub use serial::SerialReason;
pub use verifying::verify;
