//! How long the iterations of a loop are.

use crate::chunk::MOST_DRAFTS;
use crate::driven::Handed;

/// So many iterations are begun before it is asked how long they are.
const FIRST_FEW: u64 = 64;

/// Of how many iterations, at most, it is counted how long they are: behind these each counts for
/// half as much, so that those of before are forgotten little by little.
const MOST_COUNTED: u64 = 1024;

/// Short iterations are tried again after so many, first; after each trial that finds them short,
/// after twice as many.
const FIRST_REST: u64 = 2048;

/// After how many iterations short ones are tried again, or chunks, at most.
const LONGEST_REST: u64 = 1024 * 1024;

/// Iterations are short where they make fewer steps each outside the lock. Of several processors
/// one alone begins them, and makes their steps in place, and the others sleep: to hand the lock
/// from one to another takes longer.
const SHORT: u64 = 768;

/// They are long where they make so many. A processor that sleeps is woken for another iteration
/// only where they are: to wake one takes longer than a shorter iteration.
const LONG: u64 = 1024;

/// Iterations that are made in chunks are short where they make fewer steps.
const SHORT_IN_CHUNKS: u64 = 128;

/// They are long where they make so many.
const LONG_IN_CHUNKS: u64 = 160;

/// How many steps a chunk has, about.
const CHUNK: u64 = 8192;

/// Where iterations don't suit chunks of so many, none are made for a while: processors would
/// mostly wait for one another.
const FEWEST: usize = 4;

/// Chunks are tried again after so many iterations, first; after each time that these don't suit
/// them, after twice as many.
const FIRST_UNCHUNKED: u64 = 256;

/// How many iterations of a loop have begun of late, and how many steps of them were made outside
/// the lock.
#[derive(Clone, Copy)]
pub struct Lengths {
    begun: u64,
    worked: u64,
    /// After how many iterations short ones are tried again.
    rest: u64,
    /// How often they were.
    trials: u32,
    /// How many iterations a chunk has, at most, for all that was seen. Where these are too few
    /// none are made in chunks for a while.
    most: usize,
    /// How many are left to begin in that while.
    unchunked: u64,
    /// How many are to begin in the next one.
    next_unchunked: u64,
}

impl Default for Lengths {
    fn default() -> Lengths {
        Lengths {
            begun: 0,
            worked: 0,
            rest: FIRST_REST,
            trials: 0,
            most: MOST_DRAFTS,
            unchunked: 0,
            next_unchunked: FIRST_UNCHUNKED,
        }
    }
}

impl Lengths {
    /// So many more iterations have begun.
    pub fn begin(&mut self, begun: u32) {
        if self.are_short() {
            if self.begun >= self.rest {
                self.try_again();
            }
        } else if self.begun >= MOST_COUNTED {
            self.begun /= 2;
            self.worked /= 2;
        }
        self.begun = self.begun.wrapping_add(u64::from(begun));
        self.rest_chunks(begun);
    }

    /// What is known is forgotten, so that iterations are made outside the lock for a while.
    fn try_again(&mut self) {
        self.begun = 0;
        self.worked = 0;
        self.rest = LONGEST_REST.min(self.rest.saturating_mul(2));
        self.trials = self.trials.wrapping_add(1);
        self.most = MOST_DRAFTS;
    }

    /// So many more steps were made outside the lock.
    pub fn add(&mut self, steps: u32) {
        self.worked = self.worked.wrapping_add(u64::from(steps));
    }

    /// How often it was tried again how long iterations are.
    pub fn trials(&self) -> u32 {
        self.trials
    }

    /// Whether iterations are short, as far as enough have begun to tell.
    pub fn are_short(&self) -> bool {
        !self.have_done(if self.suit_chunks() {
            SHORT_IN_CHUNKS
        } else {
            SHORT
        })
    }

    /// Whether they are long, or too few have begun to tell.
    pub fn are_long(&self) -> bool {
        self.have_done(if self.suit_chunks() {
            LONG_IN_CHUNKS
        } else {
            LONG
        })
    }

    /// A chunk was handed in, if any. Where much was left to do in place, chunks are too far ahead
    /// of other iterations, or iterations don't suit them: they get smaller, at most by half.
    pub fn learn(&mut self, handed: Handed) {
        if handed.fitting < handed.begun {
            self.narrow((handed.fitting as usize).max(self.most / 2));
        } else if handed.begun > 0 {
            self.widen();
        }
    }

    /// A chunk may have so many iterations, at most.
    fn narrow(&mut self, most: usize) {
        if self.suit_chunks() && most < FEWEST {
            self.unchunked = self.next_unchunked;
            self.next_unchunked = LONGEST_REST.min(self.next_unchunked.saturating_mul(2));
        }
        self.most = self.most.min(most);
    }

    /// A chunk may have one iteration more.
    fn widen(&mut self) {
        if self.suit_chunks() && self.most < MOST_DRAFTS {
            self.most += 1;
            self.next_unchunked = FIRST_UNCHUNKED.max(self.next_unchunked / 2);
        }
    }

    /// So many more iterations have begun. Where they weren't made in chunks for a while, they are
    /// again.
    fn rest_chunks(&mut self, begun: u32) {
        if self.suit_chunks() {
            return;
        }
        self.unchunked = self.unchunked.saturating_sub(u64::from(begun));
        if self.unchunked == 0 {
            // Some were made in place meanwhile, of which no steps were counted.
            self.begun = 0;
            self.worked = 0;
            self.most = FEWEST;
        }
    }

    /// Whether they may be made in chunks.
    fn suit_chunks(&self) -> bool {
        self.most >= FEWEST
    }

    /// How many iterations a chunk has; 0 where none are made, or too few have begun to tell.
    pub fn chunk(&self) -> usize {
        if !self.suit_chunks() || self.begun < FIRST_FEW {
            return 0;
        }
        let each = (self.worked / self.begun).max(1);
        ((CHUNK / each) as usize).min(self.most)
    }

    /// Whether iterations have made so many steps each outside the lock, or too few have begun to
    /// tell.
    fn have_done(&self, each: u64) -> bool {
        self.begun < FIRST_FEW || self.begun.saturating_mul(each) <= self.worked
    }
}
