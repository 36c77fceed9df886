//! Iterations that a processor makes outside the lock before their tickets are drawn.

ghost use Rattle.std.specs.Prelude.{◌≡◌};
ghost use Rattle.std.proofs.Props.{props};
ghost use Rattle.machine.specs.CodeView.{code_of};

use crate::call::Call;
use crate::turnstile::Turnstile;
use activities::index_of;
use machine::{Code, Next, Open, stands_next};
use std::alloc::{AllocError, Global};
use std::hint::spin_loop;
use std::marker::PhantomData;
use stretches::{Mirror, Stretch};

/// How many iterations a chunk has, at most.
pub const MOST_DRAFTS: usize = 16;

/// How many loads and stores a draft has, at most.
const MOST_NOTES: usize = 256;

/// How many steps a draft has, at most.
const MOST_WORK: u32 = 16 * 1024;

/// How often a processor looks whether it is its turn, at most: for some 200 microseconds. Whoever
/// is before it is late then.
const MOST_LOOKS: u32 = 4000;

/// A stretch from the beginning of an iteration whose ticket hasn't been drawn.
#[derive(Drop)]
pub struct Draft<'c, C: Call> {
    pub stretch: Stretch<'c>,
    of: PhantomData<C>,
    ghost is: { code_of stretch.code.now ≡ C.code } by { Prim.hlevel props },
}

impl<'c, C: Call> Draft<'c, C> {
    /// Room for one.
    ///
    /// # Errors
    ///
    /// `AllocError` where memory is refused.
    fn new(alloc: Global, code: &'c Code, mirror: &'c Mirror) -> Result<Draft<'c, C>, AllocError>
        requires { code_of code.now ≡ C.code }
    {
        Ok(Draft {
            stretch: Stretch::new(alloc, code, mirror, MOST_NOTES)?,
            of: PhantomData,
        })
    }

    /// Makes iteration `k` of an open loop, which passes awaits by these counts, as far as that
    /// goes.
    ///
    /// # Errors
    ///
    /// `AllocError` where memory is refused.
    fn make(&mut self, opened: Open, k: u128, counts: &[u128]) -> Result<(), AllocError> {
        if let Some(index) = index_of(self.stretch.code, opened, k) {
            self.stretch.begin(opened, k, index, counts)?;
            self.stretch.run(MOST_WORK);
        }
        Ok(())
    }

    /// Whether drafts behind it are worth making: it came to where the iteration ends or others are
    /// told of it, or to where it only waits for the one before it.
    fn may_be_followed(&self) -> bool {
        matches!(
            stands_next(self.stretch.code, &self.stretch.to),
            Next::Retire { .. } | Next::Advance { .. } | Next::Await { distance: 1, .. },
        )
    }
}

/// Iterations of an open loop, one behind the other, that are left to a processor: it makes drafts
/// of them, and draws their tickets when it is its turn.
#[derive(Drop)]
pub struct Chunk<'c, C: Call> {
    drafts: Vec<Draft<'c, C>>,
    turnstile: &'c Turnstile,
    opened: Open,
    /// The first of the iterations.
    first: u128,
    /// The first iteration behind them.
    end: u128,
    /// How many drafts were made, of the first of them.
    made: usize,
}

impl<'c, C: Call> Chunk<'c, C> {
    /// Room for this many drafts. No iterations are left to the processor.
    ///
    /// # Errors
    ///
    /// `AllocError` where memory is refused.
    pub fn new(
        alloc: Global,
        code: &'c Code,
        mirror: &'c Mirror,
        turnstile: &'c Turnstile,
        room: usize,
    ) -> Result<Chunk<'c, C>, AllocError>
        requires { code_of code.now ≡ C.code }
    {
        let mut drafts = Vec::new(alloc);
        for _ in 0..room {
            drafts.push(Draft::new(alloc, code, mirror)?)?;
        }
        Ok(Chunk {
            drafts,
            turnstile,
            opened: Open {
                number: 0,
                first: 0,
                trips: 0,
            },
            first: 0,
            end: 0,
            made: 0,
        })
    }

    /// The first iteration that is left to the processor.
    pub fn first(&self) -> u128 {
        self.first
    }

    /// Whether none are.
    pub fn is_empty(&self) -> bool {
        self.first >= self.end
    }

    /// These are left to it.
    pub fn take(&mut self, opened: Open, first: u128, end: u128) {
        self.opened = opened;
        self.first = first;
        self.end = end;
    }

    /// None are.
    pub fn clear(&mut self) {
        self.end = self.first;
    }

    /// This ticket is next: iterations before it have begun.
    pub fn pass(&mut self, ticket: u128) {
        self.first = self.first.max(ticket);
    }

    /// It is the turn of the chunk that has this iteration, or begins with it.
    pub fn announce_turn(&self, first: u128) {
        self.turnstile.show(first);
    }

    /// Makes drafts that pass awaits by these counts, as long as further ones are worth making.
    ///
    /// # Errors
    ///
    /// `AllocError` where memory is refused.
    fn make(&mut self, counts: &[u128]) -> Result<(), AllocError> {
        self.made = 0;
        let mut k = self.first;
        for draft in self.drafts.iter_mut() {
            if k >= self.end {
                break;
            }
            draft.make(self.opened, k, counts)?;
            self.made = self.made.saturating_add(1);
            if !draft.may_be_followed() {
                break;
            }
            k = k.saturating_add(1);
        }
        Ok(())
    }

    /// Waits a while until it is its turn.
    fn queue(&self) {
        for _ in 0..MOST_LOOKS {
            if !self.turnstile.is_before(self.first) {
                return;
            }
            spin_loop();
        }
    }

    /// Makes drafts that pass awaits by these counts, and waits a while until it is its turn.
    ///
    /// # Errors
    ///
    /// `AllocError` where memory is refused.
    pub fn run(&mut self, counts: &[u128]) -> Result<(), AllocError> {
        self.make(counts)?;
        self.queue();
        Ok(())
    }

    /// The drafts that were made. They count as not made then.
    pub fn take_drafts(&mut self) -> &mut [Draft<'c, C>] {
        let made = self.made.min(self.drafts.len());
        self.made = 0;
        &mut self.drafts[..made]
    }
}
