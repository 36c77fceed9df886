//! What is wrong with a schedule.

/// Why a schedule's text can't be read, or its entries can't be followed.
#[derive(Clone, Copy, Debug, PartialEq, Eq)]
pub enum Flaw {
    /// Line 1 or 2 is absent, or not of its form or range.
    Header,
    /// A line is no entry.
    Entry,
    /// An entry is of a processor that isn't there.
    Processor,
    /// An entry isn't possible where it stands.
    Impossible,
    /// The run hasn't ended behind all entries.
    Unended,
    /// An entry stands behind the end of the run.
    BehindEnd,
}

impl Flaw {
    ghost use Rattle.std.specs.Prelude.{◌≡◌};
    ghost use Rattle.schedules.specs.Flaw.{number_of};

    /// The number by which the refusal is known, from 51 to 56.
    pub fn number(self) -> u8
        ensures { result ≡ number_of self }
    {
        match self {
            Flaw::Header => 51,
            Flaw::Entry => 52,
            Flaw::Processor => 53,
            Flaw::Impossible => 54,
            Flaw::Unended => 55,
            Flaw::BehindEnd => 56,
        }
    }
}
