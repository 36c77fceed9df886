//! What processors do outside the lock.

ghost use Rattle.std.specs.Prelude.{◌≡◌};
ghost use Rattle.std.proofs.Props.{props};
ghost use Rattle.machine.specs.CodeView.{code_of};

use crate::call::Call;
use crate::chunk::{Chunk, MOST_DRAFTS};
use crate::driven::Trial;
use crate::telling::Told;
use crate::turnstile::Turnstile;
use ast::MOST_EVENTS;
use machine::{Code, Work};
use std::alloc::{AllocError, Global};
use std::marker::PhantomData;
use stretches::{Mirror, Stretch};

/// How many steps are made outside the lock in a row, at most. Too few would be done sooner than
/// the lock is had, and with too many a processor would be long in finding that the run is over.
const MOST_WORK: u32 = 32 * 1024;

/// A stretch of fewer steps is short: to load it and to commit it takes as long as to make its
/// steps in place.
const FEW: u32 = 128;

/// After short stretches, one behind the other, steps are made in place so often, at most, before
/// another stretch is tried.
const LONGEST_PAUSE: u32 = 64;

/// The code of a call, the mirror of its store, and what shows whose turn it is to draw tickets.
#[derive(Drop)]
pub struct Coded<'c, C: Call> {
    alloc: Global,
    code: &'c Code,
    mirror: &'c Mirror,
    turnstile: &'c Turnstile,
    /// How many loads and stores a stretch has, at most.
    notes: usize,
    of: PhantomData<C>,
    ghost is: { code_of code.now ≡ C.code } by { Prim.hlevel props },
}

/// What was loaded, and is done outside the lock.
#[derive(Clone, Copy, PartialEq, Eq)]
pub enum Loaded {
    Nothing,
    Work,
    Stretch,
    Chunk,
}

/// When a processor loads stretches: not where they have been short.
#[derive(Clone, Copy)]
pub struct Pause {
    /// When stretches were found to be short.
    trial: Trial,
    /// How often it makes steps in place before it loads another stretch.
    left: u32,
    /// How often it will do so after the next short one.
    next: u32,
}

impl Pause {
    /// There is none yet.
    fn none(trial: Trial) -> Pause {
        Pause {
            trial,
            left: 0,
            next: 1,
        }
    }

    /// Whether another stretch is to be loaded, in this trial. Where none is, steps are made in
    /// place.
    pub fn is_over(&mut self, trial: Trial) -> bool {
        if self.trial != trial {
            *self = Pause::none(trial);
        }
        if self.left == 0 {
            return true;
        }
        self.left -= 1;
        false
    }

    /// So many steps of a stretch were made; none where a guess was wrong. Then at least one is
    /// made in place, so that the processor goes on.
    pub fn note(&mut self, made: u32) {
        if made >= FEW {
            self.next = 1;
            return;
        }
        self.left = self.next;
        if made > 0 {
            self.next = LONGEST_PAUSE.min(self.next.saturating_mul(2));
        }
    }
}

/// What a processor does outside the lock, which is of a call's code. Its room is kept from one
/// turn to the next.
#[derive(Drop)]
pub struct Own<'c, C: Call> {
    pub work: Work<'c>,
    pub stretch: Stretch<'c>,
    pub chunk: Chunk<'c, C>,
    pub mirror: &'c Mirror,
    /// The counts of events as it saw them last, from event 0 on.
    pub counts: Vec<u128>,
    pub loaded: Loaded,
    pub pause: Pause,
    of: PhantomData<C>,
    ghost is: { code_of work.code.now ≡ C.code } by { Prim.hlevel props },
    ghost also: { code_of stretch.code.now ≡ C.code } by { Prim.hlevel props },
}

impl<'c, C: Call> Coded<'c, C> {
    ghost use Rattle.std.specs.Prelude.{◌≡◌, true};
    ghost use Rattle.machine.specs.CodeView.{code_of};

    /// The code of a call, with what its processors' room is taken from, the mirror of its store,
    /// what shows whose turn it is, and how many loads and stores a stretch has, at most.
    pub fn new(
        alloc: Global,
        code: &'c Code,
        mirror: &'c Mirror,
        turnstile: &'c Turnstile,
        notes: usize,
    ) -> Coded<'c, C>
        requires { code_of code.now ≡ C.code }
    {
        Coded {
            alloc,
            code,
            mirror,
            turnstile,
            notes,
            of: PhantomData,
        }
    }

    /// How many loops it has whose iterations are run at once.
    pub fn loops(&self) -> usize {
        self.code.loops.len()
    }

    /// Records of which none have been taken; none will be where `streams` is false.
    pub fn told(&self, streams: bool) -> Told<C>
        requires { streams ≡ true → C.streams ≡ true }
        ensures { result.shown ≡ 0 }
    {
        Told::new(self.alloc, streams)
    }

    /// How many drafts a chunk has, at most: none where no stretches are made.
    fn drafts(&self) -> usize {
        if self.notes == 0 { 0 } else { MOST_DRAFTS }
    }

    /// How many counts a processor looks at: from event 0 to the greatest event that is awaited.
    fn counts(&self) -> usize {
        let mut counts = 1;
        for one in &self.code.awaits {
            counts = counts.max((one.event as usize).min(MOST_EVENTS).saturating_add(1));
        }
        counts
    }

    /// Room for a processor's work, of which none has been done.
    ///
    /// # Errors
    ///
    /// `AllocError` where memory is refused.
    pub fn own(&self) -> Result<Own<'c, C>, AllocError> {
        Ok(Own {
            work: Work::new(self.alloc, self.code)?,
            stretch: Stretch::new(self.alloc, self.code, self.mirror, self.notes)?,
            chunk: Chunk::new(
                self.alloc,
                self.code,
                self.mirror,
                self.turnstile,
                self.drafts(),
            )?,
            mirror: self.mirror,
            counts: vec![in self.alloc; 0; self.counts()]?,
            loaded: Loaded::Nothing,
            pause: Pause::none(Trial { open: 0, trials: 0 }),
            of: PhantomData,
        })
    }
}

impl<'c, C: Call> Own<'c, C> {
    /// Whether the code has awaits, so that counts of events are seen.
    pub fn sees_events(&self) -> bool {
        self.counts.len() > 1
    }

    /// Does what was loaded.
    ///
    /// # Errors
    ///
    /// `AllocError` where memory is refused.
    pub fn run(&mut self) -> Result<(), AllocError> {
        match self.loaded {
            Loaded::Nothing => {}
            Loaded::Work => self.work.run(MOST_WORK)?,
            Loaded::Stretch => self.stretch.run(MOST_WORK),
            Loaded::Chunk => self.chunk.run(&self.counts)?,
        }
        Ok(())
    }
}
