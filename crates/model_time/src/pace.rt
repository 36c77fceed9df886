//! How code is to be run in model time.

/// How code is to be run in model time.
#[derive(Clone, Copy)]
pub struct Pace {
    /// How many processors there are to be, 1 to 64.
    pub processors: u64,
    /// How many iterations may be open, 1 to 256.
    pub slots: u64,
    /// After how many steps a run is left that hasn't ended.
    pub most: u64,
    /// Whether its schedule is wanted.
    pub schedule: bool,
}
