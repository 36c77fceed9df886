//! What the paths through a part of a program do with a scalar.

ghost use Rattle.std.specs.Prelude.{◌≡◌};
ghost use Rattle.privatise.specs.Walks as spec;

/// What paths do with a scalar.
#[derive(Clone, Copy)]
pub enum Walk {
    /// Each path that comes to the end defines it, and none uses it before.
    Defined,
    /// None uses it before its definition, and one comes to the end without.
    Missed,
    /// One uses it before its definition.
    Early,
}

impl Walk {
    ghost use Rattle.std.specs.Prelude.{◌≡◌};
    ghost use Rattle.privatise.specs.Walks as spec;

    /// Of paths by one part or by another.
    pub fn or(self, other: Walk) -> Walk
        ensures { result ≡ spec.more self other }
    {
        match self {
            Walk::Early => Walk::Early,
            Walk::Missed => match other {
                Walk::Early => Walk::Early,
                Walk::Missed | Walk::Defined => Walk::Missed,
            },
            Walk::Defined => other,
        }
    }

    /// Of paths by one part and then by another.
    pub fn and_after(self, other: Walk) -> Walk
        ensures { result ≡ spec.then_walk self other }
    {
        match self {
            Walk::Missed => other,
            Walk::Defined | Walk::Early => self,
        }
    }
}
