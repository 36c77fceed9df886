//! Whose turn it is to draw tickets, told without the lock.

use std::sync::atomic::{AtomicU64, Ordering};

/// The number of an iteration, as far as there is room for it.
fn shown(iteration: u128) -> u64 {
    u64::try_from(iteration).unwrap_or(u64::MAX)
}

/// Shows which iteration's turn it is. Nothing is known of it: who goes by it looks again under the
/// lock.
#[derive(Drop)]
pub struct Turnstile {
    turn: AtomicU64,
}

impl Turnstile {
    /// It shows 0.
    pub fn new() -> Turnstile {
        Turnstile {
            turn: AtomicU64::new(0),
        }
    }

    /// It is to show this iteration.
    pub fn show(&self, iteration: u128) {
        self.turn.store(shown(iteration), Ordering::SeqCst);
    }

    /// Whether the iteration that it shows is before this one.
    pub fn is_before(&self, iteration: u128) -> bool {
        self.turn.load(Ordering::SeqCst) < shown(iteration)
    }
}
