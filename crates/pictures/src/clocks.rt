//! When the entries of a schedule are made, where each step takes one unit of time.

ghost use Rattle.std.specs.Prelude.{◌≡◌, get_or};
ghost use Rattle.pictures.specs.Times as spec;

use std::alloc::{AllocError, Global};

/// What an entry of a schedule takes.
#[derive(Clone, Copy)]
pub struct Duty {
    /// The processor, from 0.
    pub processor: usize,
    /// How many steps it makes.
    pub steps: u64,
    /// Whether they touch what processors share, and so keep their place in the schedule.
    pub shared: bool,
}

/// When the processors of a run have come so far.
#[derive(Drop)]
pub struct Clocks {
    /// When each is free.
    pub free: Vec<u64>,
    /// When the last step was made that touches what they share.
    pub unit: u64,
    /// The least number of a processor that may make such a step in the same unit.
    pub least: usize,
}

/// When a processor is free.
fn free_at(free: &[u64], processor: usize) -> u64
    ensures { result ≡ get_or free.now processor 0 }
{
    free.get(processor).copied().unwrap_or(0)
}

/// Notes when a processor is free, if there is one.
fn note_free(free: &mut [u64], processor: usize, unit: u64)
    ensures { free.new ≡ spec.freed free.old processor unit }
{
    if processor < free.len() {
        free[processor] = unit;
    }
}

impl Clocks {
    ghost use Rattle.std.specs.Prelude.{◌≡◌, IfOk, replicate};
    ghost use Rattle.pictures.specs.Times as spec;
    ghost use Rattle.pictures.specs.Times.{IsAfter};

    /// Those of so many processors at the beginning of a run.
    ///
    /// # Errors
    ///
    /// `AllocError` where memory is refused.
    pub fn new(alloc: Global, processors: usize) -> Result<Clocks, AllocError>
        ensures { IfOk result (λ clocks. (clocks.free.items ≡ replicate processors 0)
            × (clocks.unit ≡ 0) × (clocks.least ≡ 0)) }
    {
        Ok(Clocks {
            free: vec![in alloc; 0; processors]?,
            unit: 0,
            least: 0,
        })
    }

    /// When a processor may make the next step that touches what they share.
    fn in_order(&self, processor: usize) -> u64
        ensures { result ≡ spec.in_order self.now processor }
    {
        if self.least <= processor {
            self.unit
        } else {
            self.unit.saturating_add(1)
        }
    }

    /// When an entry begins.
    fn begins(&self, duty: Duty) -> u64
        ensures { result ≡ spec.begins self.now duty }
    {
        let free = free_at(&self.free, duty.processor);
        if duty.shared {
            free.max(self.in_order(duty.processor))
        } else {
            free
        }
    }

    /// Notes that an entry is made, and gives when it begins.
    pub fn make(&mut self, duty: Duty) -> u64
        ensures begins { result ≡ spec.begins self.old duty }
        ensures after { IsAfter self.old duty self.new }
    {
        let begins = self.begins(duty);
        let ends = begins.saturating_add(duty.steps);
        note_free(&mut self.free, duty.processor, ends);
        if duty.shared {
            self.unit = begins;
            self.least = duty.processor.saturating_add(1);
        }
        begins
    }

    /// When the last of them is free.
    pub fn end(&self) -> u64 {
        self.free.iter().copied().max().unwrap_or(0)
    }
}
