//! Which advances wake the iterations that were parked at awaits.

use crate::gathering::{Held, Turn};
use std::alloc::{AllocError, Global};

/// How many arrows from advances to what they wake are drawn at most.
const MOST: usize = 400;

/// When a processor did something, in units of time.
#[derive(Clone, Copy)]
pub struct Moment {
    pub processor: usize,
    pub unit: u64,
}

/// An iteration that is parked at an await.
#[derive(Clone, Copy)]
struct Sleeper {
    iteration: u128,
    event: u32,
    /// The iteration that is to advance the event.
    awaited: u128,
    /// When that has advanced it.
    woken: Option<Moment>,
}

/// An iteration that was woken.
#[derive(Clone, Copy)]
pub struct Wake {
    pub event: u32,
    /// When the event was advanced that it awaited.
    pub from: Moment,
    /// When it was taken up again.
    pub to: Moment,
}

/// Those of a run so far.
#[derive(Drop)]
pub struct Wakes {
    sleepers: Vec<Sleeper>,
    pub all: Vec<Wake>,
    /// How many more there are than are kept.
    pub more: u64,
}

impl Wakes {
    /// None.
    pub fn new(alloc: Global) -> Wakes {
        Wakes {
            sleepers: Vec::new(alloc),
            all: Vec::new(alloc),
            more: 0,
        }
    }

    /// Notes what a processor did at a moment.
    ///
    /// # Errors
    ///
    /// `AllocError` where memory is refused.
    pub fn note(&mut self, turn: &Turn, moment: Moment) -> Result<(), AllocError> {
        match (turn.before, turn.after) {
            (Some(Held::Iteration(number)), None) => self.park(turn, number),
            (Some(Held::Iteration(number)), Some(_)) => {
                self.advance(turn, number, moment);
                Ok(())
            }
            (None, Some(Held::Iteration(number))) => self.take_up(number, moment),
            _ => Ok(()),
        }
    }

    /// Notes that an iteration is parked, if it is at an await.
    fn park(&mut self, turn: &Turn, iteration: u128) -> Result<(), AllocError> {
        match turn.awaited {
            Some(awaited) => Ok(
                self.sleepers.push(Sleeper {
                    iteration,
                    event: awaited.event,
                    awaited: awaited.iteration,
                    woken: None,
                })?,
            ),
            None => Ok(()),
        }
    }

    /// Notes that an iteration advances an event, if it does.
    fn advance(&mut self, turn: &Turn, iteration: u128, moment: Moment) {
        let Some(event) = turn.advanced else {
            return;
        };
        for sleeper in self.sleepers.iter_mut() {
            if sleeper.event == event && sleeper.awaited == iteration {
                sleeper.woken = Some(moment);
            }
        }
    }

    /// Notes that an iteration is taken up, and by what it was woken, if it was parked.
    fn take_up(&mut self, iteration: u128, to: Moment) -> Result<(), AllocError> {
        let Some(place) = self
            .sleepers
            .iter()
            .position(|sleeper| sleeper.iteration == iteration)
        else {
            return Ok(());
        };
        let sleeper = self.sleepers.swap_remove(place);
        match sleeper.woken {
            Some(from) => self.add(Wake {
                event: sleeper.event,
                from,
                to,
            }),
            None => Ok(()),
        }
    }

    /// Adds one, as far as there is room.
    fn add(&mut self, wake: Wake) -> Result<(), AllocError> {
        if self.all.len() < MOST {
            return Ok(self.all.push(wake)?);
        }
        self.more = self.more.saturating_add(1);
        Ok(())
    }
}
