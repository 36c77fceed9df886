//! What the calls of a core come to.

use std::alloc::AllocError;

/// What a processor did.
#[derive(Clone, Copy, PartialEq, Eq)]
pub enum Stepped {
    /// A step, and the number of the iteration where it took a ticket.
    Went(Option<u128>),
    /// None: nothing has changed.
    Idle,
    /// None, since the run had ended.
    Ended,
}

/// Why local work wasn't taken.
#[derive(Clone, Copy, Debug, PartialEq, Eq)]
pub enum HandIn {
    /// The run had ended.
    Ended,
    /// The processor holds no activity, or one with another frame, or the work is of other code.
    Stranger,
    /// There was no memory.
    Memory,
}

/// Why there is no core.
#[derive(Clone, Copy, Debug, PartialEq, Eq)]
pub enum CoreRefusal {
    /// There was no memory.
    Memory,
    /// There are not 1 to 64 processors and 1 to 256 slots: refusal 57.
    OutOfRange,
}

/// How many steps were made, and how many of them parked an activity or took up a parked one.
#[derive(Clone, Copy, PartialEq, Eq)]
pub struct Tally {
    pub made: u128,
    pub again: u128,
}

impl Tally {
    ghost use Rattle.std.specs.Prelude.{◌≡◌, ◌+◌, ◌<◌, ◌^◌, if◌then◌else◌};

    /// Counts so many steps, and whether they did that.
    pub fn count(&mut self, steps: u32, again: bool)
        requires made { self.old.made < 2 ^ 127 }
        requires again { self.old.again < 2 ^ 127 }
        ensures made { self.new.made ≡ self.old.made + steps }
        ensures again { self.new.again ≡ self.old.again + (if again then 1 else 0) }
    {
        self.made += u128::from(steps);
        if again {
            self.again += 1;
        }
    }
}

impl From<AllocError> for HandIn {
    ghost use Rattle.std.specs.Prelude.{◌≡◌};
    ghost use Rattle.replay.specs.declared.stepped.HandIn.TheVariants.{Memory};

    ghost from_gives = { λ _ refusal. refusal ≡ Memory };

    fn from(_error: AllocError) -> HandIn {
        HandIn::Memory
    }
}

impl From<AllocError> for CoreRefusal {
    ghost use Rattle.std.specs.Prelude.{◌≡◌};
    ghost use Rattle.replay.specs.declared.stepped.CoreRefusal.TheVariants.{Memory};

    ghost from_gives = { λ _ refusal. refusal ≡ Memory };

    fn from(_error: AllocError) -> CoreRefusal {
        CoreRefusal::Memory
    }
}
