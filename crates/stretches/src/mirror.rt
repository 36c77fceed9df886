//! A mirror of cells that threads share: what it shows is a guess.

use std::alloc::{AllocError, Global};
use std::sync::atomic::{AtomicI64, Ordering};

/// Guesses at the values of cells. Nothing is known of them.
#[derive(Drop)]
pub struct Mirror {
    cells: Vec<AtomicI64>,
}

impl Mirror {
    /// A mirror of `n` cells, which shows 0 for each.
    ///
    /// # Errors
    ///
    /// `AllocError` where memory is refused.
    pub fn new(alloc: Global, n: usize) -> Result<Mirror, AllocError> {
        let mut cells = Vec::new(alloc);
        for _ in 0..n {
            cells.push(AtomicI64::new(0))?;
        }
        Ok(Mirror { cells })
    }

    /// A guess at the value of a cell; `None` where the mirror has no such cell.
    #[inline(always)]
    pub fn get(&self, cell: usize) -> Option<i64> {
        match self.cells.get(cell) {
            Some(guess) => Some(guess.load(Ordering::SeqCst)),
            None => None,
        }
    }

    /// A cell is to show a value; the guess of before, or `None` where the mirror has no such cell.
    #[inline(always)]
    pub fn swap(&self, cell: usize, value: i64) -> Option<i64> {
        match self.cells.get(cell) {
            Some(guess) => Some(guess.swap(value, Ordering::SeqCst)),
            None => None,
        }
    }

    /// A cell is to show a value. What is shown already isn't shown again, since showing takes
    /// longer than looking, and keeps other processors from looking.
    pub fn correct(&self, cell: usize, value: i64) {
        if self.get(cell) != Some(value) {
            self.show(cell, value);
        }
    }

    /// The cells of a block are shown as they are: so many from that number of them on.
    pub fn refresh(&self, cells: &[i64], block: usize, size: usize) {
        let first = block.saturating_mul(size);
        for (cell, value) in cells.iter().enumerate().skip(first).take(size) {
            self.correct(cell, *value);
        }
    }

    /// A cell is to show a value, where the mirror has such a cell.
    #[inline(always)]
    pub fn show(&self, cell: usize, value: i64) {
        if let Some(guess) = self.cells.get(cell) {
            guess.store(value, Ordering::SeqCst);
        }
    }
}
