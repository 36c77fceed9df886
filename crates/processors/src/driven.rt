//! What processors drive under the lock.

use crate::call::Call;
use crate::telling::Told;
use crate::work::Own;
use replay::{HandIn, Stepped};
use std::alloc::AllocError;

/// What a processor that made steps in one go does next.
#[derive(Clone, Copy, PartialEq, Eq)]
pub enum Onward {
    /// It does what was loaded outside the lock.
    Works,
    /// It has made as many steps as it may in one go, and makes more in its next turn.
    Pauses,
    /// A step of another kind stands next, if any does.
    Shares,
}

/// When it was tried how long iterations are: of which loop, and how often before.
#[derive(Clone, Copy, PartialEq, Eq)]
pub struct Trial {
    pub open: usize,
    pub trials: u32,
}

/// How a processor goes about its iterations.
#[derive(Clone, Copy, PartialEq, Eq)]
pub struct Pace {
    /// Whether it begins any.
    pub begins: bool,
    /// Whether steps of them are made outside the lock.
    pub stretches: bool,
    /// How many of them are made in a chunk, at most; they aren't where it is less than two.
    pub chunk: usize,
    pub trial: Trial,
}

/// What a processor did outside the lock.
#[derive(Clone, Copy, Default)]
pub struct Handed {
    /// How many steps it made there.
    pub steps: u32,
    /// How many more it made in place as it handed these in.
    pub more: u32,
    /// How many iterations it began, of those steps.
    pub begun: u32,
    /// How many of these iterations left at most an eighth of their draft's steps to make in place.
    pub fitting: u32,
}

impl Handed {
    /// So many steps outside the lock.
    pub fn of(steps: u32) -> Handed {
        Handed {
            steps,
            ..Handed::default()
        }
    }

    /// It began an iteration more, and made so many steps of it outside the lock and in place.
    pub fn begin(&mut self, steps: u32, more: u32) {
        self.begun = self.begun.saturating_add(1);
        self.steps = self.steps.saturating_add(steps);
        self.more = self.more.saturating_add(more).saturating_add(1);
        if more <= steps / 8 {
            self.fitting = self.fitting.saturating_add(1);
        }
    }
}

/// How far a processor came in one go.
#[derive(Clone, Copy, PartialEq, Eq)]
pub struct Advanced {
    /// How many steps it made.
    pub steps: u32,
    /// How many iterations it began, of those steps.
    pub begun: u32,
    pub onward: Onward,
}

/// A run of a call, whether or not its schedule is kept. Its type says what is so of it, so that
/// whoever drives it needs to know nothing of its calls.
pub trait Driven<C: Call> {
    ghost use Rattle.std.specs.Prelude.{◌≡◌};

    /// How many processors there are.
    fn processors(&self) -> usize;

    /// Whether the run has ended.
    fn has_ended(&self) -> bool;

    /// Whether processor `q` holds an activity.
    fn holds(&self, q: usize) -> bool;

    /// Whether an activity is ready: parked, and what it waits for has been reached.
    fn has_ready(&self) -> bool;

    /// Whether the next iteration of an open loop may begin.
    fn has_ticket(&self) -> bool;

    /// How many iterations are open.
    fn overlap(&self) -> u128;

    /// The number of the loop that is open; 0 where none is, or it isn't known.
    fn open_loop(&self) -> usize;

    /// How many bytes have gone out, where they are handed on; else 0.
    fn printed(&self) -> usize;

    /// What has gone out by now is taken, where it is handed on.
    fn tell(&self, told: &mut Told<C>)
        ensures { told.new.shown ≡ told.old.shown };

    /// The frame of what processor `q` holds is loaded, if a local instruction stands next, which
    /// is told.
    ///
    /// # Errors
    ///
    /// `AllocError` where memory is refused.
    fn load(&self, q: usize, own: &mut Own<'_, C>) -> Result<bool, AllocError>;

    /// Processor `q` hands in what it did outside the lock, if anything. A stretch that was made on
    /// wrong guesses counts for nothing.
    ///
    /// # Errors
    ///
    /// Those of `replay::Core::hand_in`.
    fn hand_in(&mut self, q: usize, own: &mut Own<'_, C>) -> Result<Handed, HandIn>;

    /// Processor `q` makes steps in one go, or loads what it does outside the lock.
    ///
    /// # Errors
    ///
    /// `AllocError` where memory is refused.
    fn advance(
        &mut self,
        q: usize,
        own: &mut Own<'_, C>,
        pace: Pace,
    ) -> Result<Advanced, AllocError>;

    /// Processor `q` makes the shared step of what it holds.
    ///
    /// # Errors
    ///
    /// `AllocError` where memory is refused.
    fn share(&mut self, q: usize) -> Result<Stepped, AllocError>;

    /// Processor `q`, which holds nothing, takes up main where it is ready, else the least
    /// iteration that is, and a ticket only where nothing is.
    ///
    /// # Errors
    ///
    /// `AllocError` where memory is refused.
    fn pick(&mut self, q: usize) -> Result<Stepped, AllocError>;
}
