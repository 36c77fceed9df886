//! Awaits that are passed.

ghost use Rattle.std.specs.Prelude.{◌≡◌, true};

/// What tells of an await that it needn't wait.
pub trait Awaits {
    ghost use Rattle.std.specs.Prelude.{ℕ, Bool};

    /// Of which it is known, by event and distance.
    ghost passed: { Self → ℕ → ℕ → Bool };

    /// Whether it is known that the await of an event at a distance needn't wait.
    fn is_passed(&self, event: u32, distance: u128) -> bool
        ensures { result ≡ true → passed self.now event distance ≡ true };
}

/// Of none it is known.
pub struct Unknown;

impl Awaits for Unknown {
    ghost use Rattle.std.specs.Prelude.{false};

    ghost passed = { λ _ _ _. false };

    #[inline(always)]
    fn is_passed(&self, _event: u32, _distance: u128) -> bool {
        false
    }
}
