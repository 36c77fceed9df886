//! Counts of events that were reached.

ghost use Rattle.std.specs.Prelude.{◌≡◌, OnOk, true};
ghost use Rattle.stretches.specs.Reached.{passes};

use machine::Awaits;
use std::alloc::{AllocError, Global};

/// Counts of events, from event 0 on, as somebody saw them, and the number of an iteration: it
/// passes the awaits that need no greater counts. While a loop is open its counts only grow, so
/// what is passed by these is passed later too.
#[derive(Drop)]
pub struct Reached {
    pub number: u128,
    pub counts: Vec<u128>,
}

impl Reached {
    /// No counts at all. It takes no memory.
    pub fn nothing(alloc: Global) -> Reached {
        Reached {
            number: 0,
            counts: Vec::new(alloc),
        }
    }

    /// These counts were seen, and the iteration has this number.
    ///
    /// # Errors
    ///
    /// `AllocError` where memory is refused.
    pub fn note(&mut self, number: u128, counts: &[u128]) -> Result<(), AllocError>
        ensures number { OnOk result (self.new.number ≡ number) }
        ensures counts { OnOk result (self.new.counts.items ≡ counts.now) }
    {
        self.counts.clear();
        self.counts.extend_from_slice(counts)?;
        self.number = number;
        Ok(())
    }
}

/// Whether an iteration of this number passes the await of an event at a distance by these counts.
#[inline(always)]
pub fn passes(counts: &[u128], number: u128, event: u32, distance: u128) -> bool
    ensures { result ≡ true → passes counts.now number event distance ≡ true }
{
    let event = event as usize;
    if event == 0 || event >= counts.len() {
        return false;
    }
    number < distance || number - distance < counts[event]
}

impl Awaits for Reached {
    ghost use Rattle.stretches.specs.Reached.{passed_by};

    ghost passed = { passed_by };

    #[inline(always)]
    fn is_passed(&self, event: u32, distance: u128) -> bool {
        passes(&self.counts, self.number, event, distance)
    }
}
