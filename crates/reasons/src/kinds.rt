//! The kinds of dependences, by what two references do.

/// What a later iteration needs of an earlier one.
#[derive(Clone, Copy)]
pub enum Dependence {
    /// It reads what was given.
    Flow,
    /// It overwrites what was read.
    Anti,
    /// It overwrites what was given.
    Output,
}

impl Dependence {
    /// The kind by what the two references do.
    pub fn between(gives: bool, overwrites: bool) -> Dependence {
        match (gives, overwrites) {
            (true, false) => Dependence::Flow,
            (false, _) => Dependence::Anti,
            (true, true) => Dependence::Output,
        }
    }

    pub fn name(self) -> &'static [u8] {
        match self {
            Dependence::Flow => b"flow",
            Dependence::Anti => b"anti",
            Dependence::Output => b"output",
        }
    }

    /// What the earlier iteration does.
    pub fn does(self) -> &'static [u8] {
        match self {
            Dependence::Flow | Dependence::Output => b"gives",
            Dependence::Anti => b"reads",
        }
    }

    /// What the later iteration does.
    pub fn then_does(self) -> &'static [u8] {
        match self {
            Dependence::Flow => b"reads",
            Dependence::Anti | Dependence::Output => b"overwrites",
        }
    }

    /// The same, as a verb behind another.
    pub fn then_do(self) -> &'static [u8] {
        match self {
            Dependence::Flow => b"read",
            Dependence::Anti | Dependence::Output => b"overwrite",
        }
    }
}
