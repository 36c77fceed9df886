//! Answers of a run.

use crate::fault::End;
use crate::store::Store;

/// What a run gave.
#[derive(Drop)]
pub struct Answer {
    /// The records that it printed, each with its LF.
    pub output: Vec<u8>,
    /// The store at its end, also at a fault.
    pub store: Store,
    /// How it ended.
    pub end: End,
}
