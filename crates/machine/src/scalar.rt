//! Private scalars.

ghost use Rattle.std.specs.Prelude.{◌≡◌, false, pos};

/// A private scalar.
#[derive(Clone, Copy, Drop)]
pub struct Scalar {
    /// 0 where it wasn't defined.
    pub(crate) value: i64,
    pub(crate) defined: bool,
    ghost zero: { defined ≡ false → value ≡ pos 0 },
}

impl Default for Scalar {
    ghost use Rattle.std.specs.Prelude.{◌≡◌, None};
    ghost use Rattle.machine.specs.ScalarView.{scalar_of};

    ghost is_default = { λ x. scalar_of x ≡ None };

    fn default() -> Scalar {
        Scalar {
            value: 0,
            defined: false,
        }
    }
}

impl Scalar {
    ghost use Rattle.std.specs.Prelude.{◌≡◌, Some};
    ghost use Rattle.machine.specs.ScalarView.{scalar_of};

    /// Gives it a value.
    #[inline(always)]
    pub(crate) fn set(&mut self, value: i64)
        ensures { scalar_of self.new ≡ Some value }
    {
        self.value = value;
        self.defined = true;
    }

    /// Its value; `None` where it wasn't defined.
    pub fn get(self) -> Option<i64>
        ensures { result ≡ scalar_of self }
    {
        if self.defined { Some(self.value) } else { None }
    }
}
