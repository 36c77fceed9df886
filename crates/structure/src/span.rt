//! Where structures stand.

/// Where a DO range or an IF block stands: the places of its first and its last statement,
/// statements numbered from 0.
#[derive(Clone, Copy, PartialEq, Eq)]
pub struct Span {
    pub first: usize,
    pub last: usize,
}

/// The DO ranges and IF blocks of a program.
#[derive(Drop)]
pub struct Blocks {
    /// In the order of their first statements.
    pub spans: Vec<Span>,
}
