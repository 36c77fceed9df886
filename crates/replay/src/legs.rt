//! Steps whose kinds the code alone tells, from each place on.

ghost use Rattle.std.specs.Prelude.{◌≡◌, ◌≤◌, false};
ghost use Rattle.machine.specs.CodeView.{code_of};
ghost use Rattle.replay.specs.Striding.{AllLegs, IsLegOf, IsRun, Legs-prop};

use activities::{Ahead, ahead_at};
use machine::Code;
use std::alloc::{AllocError, Global};

/// How many local instructions a leg has at most.
const MOST: u32 = 64;

/// Steps that stand next at a place: local instructions, or one load or store, or none.
#[derive(Clone, Copy)]
pub struct Leg {
    pub steps: u32,
    /// Whether it is a load or a store.
    pub shared: bool,
    /// Where it leads.
    pub next: usize,
}

/// The local instructions that stand next at a place, at most so many.
fn run_at(code: &Code, place: usize, most: u32) -> Leg
    ensures few { result.steps ≤ most }
    ensures run { IsRun code.now.instructions.items place result.steps result.next }
    ensures local { result.shared ≡ false }
{
    let mut next = place;
    let mut steps = 0;
    while steps < most {
        let Some(ahead) = ahead_at(code, next) else {
            break;
        };
        if !ahead.local {
            break;
        }
        next = ahead.next;
        steps += 1;
    }
    Leg {
        steps,
        shared: false,
        next,
    }
}

/// The leg at a place, of at most so many steps, at least one.
fn leg_at(code: &Code, place: usize, most: u32) -> Leg
    requires some { 1 ≤ most }
    ensures few { result.steps ≤ most }
    ensures leg { IsLegOf code.now.instructions.items place result }
{
    match ahead_at(code, place) {
        Some(Ahead { local: false, next }) => Leg {
            steps: 1,
            shared: true,
            next,
        },
        _ => run_at(code, place, most),
    }
}

/// The legs of code.
#[derive(Drop)]
pub struct Legs<'c> {
    pub code: &'c Code,
    /// One from each place on.
    pub legs: Vec<Leg>,
    ghost stand: { AllLegs code.now.instructions.items 0 legs.items } by { Legs-prop code.now.instructions.items 0 legs.items },
}

impl<'c> Legs<'c> {
    ghost use Rattle.std.specs.Prelude.{◌≡◌, ◌≤◌, IfOk};
    ghost use Rattle.machine.specs.CodeView.{code_of};
    ghost use Rattle.replay.specs.Striding.{AllLegs, IsLegOf};

    /// Those of code.
    ///
    /// # Errors
    ///
    /// `AllocError` where memory is refused.
    pub fn new(alloc: Global, code: &'c Code) -> Result<Legs<'c>, AllocError>
        ensures { IfOk result (λ x. code_of x.code.now ≡ code_of code.now) }
    {
        let mut legs = Vec::with_capacity(alloc, code.instructions.len())?;
        while legs.len() < code.instructions.len() {
            legs.push(leg_at(code, legs.len(), MOST))?;
        }
        Ok(Legs { code, legs })
    }

    /// The leg at a place, of at most so many steps, at least one.
    #[inline(always)]
    pub fn at(&self, place: usize, most: u32) -> Leg
        requires some { 1 ≤ most }
        ensures few { result.steps ≤ most }
        ensures leg { IsLegOf self.now.code.now.instructions.items place result }
    {
        if place >= self.legs.len() || self.legs[place].steps > most {
            return leg_at(self.code, place, most);
        }
        self.legs[place]
    }
}
