//! Which awaits of an iteration are passed.

ghost use Rattle.std.specs.Prelude.{◌≡◌, length};

use ec_kernel::Kernel;
use machine::Awaits;

/// What an iteration of this number may pass by these counts.
#[derive(Clone, Copy)]
pub struct Counts<'k> {
    pub kernel: &'k Kernel,
    pub number: u128,
    ghost counts: { length kernel.now.counts ≡ 65 },
}

/// Which awaits an activity may pass: main none, and an iteration those of which it was told.
// One type for both, so that there is one copy of what makes their steps.
#[derive(Clone, Copy)]
pub enum Told<'k> {
    Nothing,
    Counts(Counts<'k>),
}

impl Awaits for Told<'_> {
    ghost use Rattle.activities.specs.Told.{is_told_by};

    ghost passed = { is_told_by };

    #[inline(always)]
    fn is_passed(&self, event: u32, distance: u128) -> bool {
        let Told::Counts(counts) = self else {
            return false;
        };
        if event == 0 || event > 64 {
            return false;
        }
        counts.number < distance || counts.number - distance < counts.kernel.read(event as usize)
    }
}
