//! How two references of one array may meet.

/// Why no two iterations meet.
#[derive(Clone, Copy, Debug, PartialEq, Eq)]
pub enum Reason {
    /// The subscripts are two different constants.
    Constant,
    /// The difference of their constants is no multiple of what divides all else.
    Divisor,
    /// They would meet at no positive whole distance.
    Distance,
    /// The distance at which they would meet is beyond the loop's trips.
    Range,
}

/// What is known of a reference in one iteration and a reference in a later one.
#[derive(Clone, Copy, Debug, PartialEq, Eq)]
pub enum Relation {
    /// They never meet, by this dimension, from 1, for this reason.
    Apart(usize, Reason),
    /// They meet so many iterations apart alone, by this dimension, from 1.
    Distance(usize, u128),
    /// Nothing is known.
    Any,
}

/// What the distance test gives.
#[derive(Clone, Copy)]
pub enum Found {
    /// Nothing.
    Nothing,
    /// They meet at no positive whole distance.
    Nowhere,
    /// They meet so many iterations apart alone.
    Only(u128),
}
