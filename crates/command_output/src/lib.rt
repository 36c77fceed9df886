//! What is written of a source and a run, and how that ended.
#![tactic(auto)]

mod fault;
mod outcomes;
mod page;
mod row;
mod shown;
mod status;
mod store;
mod store_rows;
mod streams;
mod texts;

pub use fault::{EngineFault, ReadFault};
pub use outcomes::Outcome;
pub use page::{Page, append_end, outcome, refused, unshown};
pub use row::Row;
pub use shown::{append_accepted, append_line, append_no_schedule};
pub use status::Status;
pub use store_rows::rows;
pub use streams::read_all;
pub use texts::{Texts, read_three};
