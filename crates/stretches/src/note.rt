//! What is noted of an access.

/// An access to a cell: a load has the same value twice, the one that was taken for the cell's own.
#[derive(Clone, Copy)]
pub struct Note {
    pub cell: usize,
    /// The value that the cell was taken to have.
    pub was: i64,
    /// The value that it has afterwards.
    pub is: i64,
}
