//! Why loops stay serial.

/// Why a loop's iterations are run one after another.
#[derive(Clone, Copy, Debug, PartialEq, Eq)]
pub enum SerialReason {
    /// Its step is no constant other than 0.
    NoStep,
    /// It has a READ.
    Reads,
    /// The variable of a loop inside it is not private.
    SharedVariable,
    /// More than 64 of its statements are sources.
    ManySources,
    /// A loop around it may be open.
    Inside,
    /// The check of plans refuses its plan.
    Refused,
}

impl SerialReason {
    ghost use Rattle.std.specs.Prelude.{◌≡◌};
    ghost use Rattle.dependence.specs.Serial.{number_of};

    /// The number by which the reason is known, from 1 to 6.
    pub fn number(self) -> u8
        ensures { result ≡ number_of self }
    {
        match self {
            SerialReason::NoStep => 1,
            SerialReason::Reads => 2,
            SerialReason::SharedVariable => 3,
            SerialReason::ManySources => 4,
            SerialReason::Inside => 5,
            SerialReason::Refused => 6,
        }
    }
}
