//! Why a plan is refused.

ghost use Rattle.std.specs.Prelude.{◌≡◌};
ghost use Rattle.plan_check.specs.declared.fault.PlanFault.TheVariants.{Memory};
ghost use Rattle.plan_check.specs.Mistakes.{number_of};

use std::alloc::{AllocError, AllocFailed};

/// What is wrong with a plan.
#[derive(Clone, Copy, Debug, PartialEq, Eq)]
pub enum Mistake {
    /// A private scalar is read where some path hasn't given it a value.
    Early,
    /// An event isn't advanced once on each path, behind an await of the iteration before.
    Disorder,
    /// No event is left that is advanced behind a source on each path.
    Behind,
    /// No such event is awaited before the sink, no further back than the claimed distance.
    Unawaited,
    /// What is claimed of two references is not so, or nothing is.
    Untrue,
    /// The body isn't the loop's with awaits, advances and made ELSEs that hold nothing else.
    OtherBody,
    /// The step is no constant other than 0, there is a READ inside, an inner DO variable isn't
    /// private, a private name is no scalar that the range gives a value or is given twice, an
    /// event isn't from 1 to 64, or a distance isn't at least 1.
    Unfit,
}

impl Mistake {
    ghost use Rattle.std.specs.Prelude.{◌≡◌};
    ghost use Rattle.plan_check.specs.Mistakes.{number_of};

    /// The number of the refusal, from 70 to 76.
    pub fn number(self) -> u8
        ensures { result ≡ number_of self }
    {
        match self {
            Mistake::Early => 70,
            Mistake::Disorder => 71,
            Mistake::Behind => 72,
            Mistake::Unawaited => 73,
            Mistake::Untrue => 74,
            Mistake::OtherBody => 75,
            Mistake::Unfit => 76,
        }
    }
}

/// Why a plan can't be accepted.
#[derive(Clone, Copy, Debug, PartialEq, Eq)]
pub enum PlanFault {
    /// There was no memory.
    Memory,
    /// The plan has this mistake.
    Refused(Mistake),
}

impl PlanFault {
    ghost use Rattle.std.specs.Prelude.{◌≡◌};
    ghost use Rattle.plan_check.specs.Mistakes.{fault_number};

    /// The number of the refusal, from 70 to 76; none where there was no memory.
    pub fn number(self) -> Option<u8>
        ensures { result ≡ fault_number self }
    {
        match self {
            PlanFault::Memory => None,
            PlanFault::Refused(mistake) => Some(mistake.number()),
        }
    }
}

impl From<AllocError> for PlanFault {
    ghost from_gives = { λ _ fault. fault ≡ Memory };

    fn from(_error: AllocError) -> PlanFault {
        PlanFault::Memory
    }
}

impl<T: Drop> From<AllocFailed<T>> for PlanFault {
    ghost from_gives = { λ _ fault. fault ≡ Memory };

    fn from(_error: AllocFailed<T>) -> PlanFault {
        PlanFault::Memory
    }
}
