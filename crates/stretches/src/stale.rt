//! Which cells a mirror may no longer show as they are.

use crate::mirror::Mirror;
use std::alloc::{AllocError, Global};

/// So many cells, one behind the other, are a block: as many as a line of most processors' caches
/// holds.
const BLOCK: usize = 8;

/// The blocks of cells that were stored to in place since a mirror showed them. Nothing is known of
/// them: what a mirror shows is a guess.
#[derive(Drop)]
pub struct Stale {
    /// Whether each block is among them.
    noted: Vec<bool>,
    /// Their numbers.
    blocks: Vec<usize>,
}

impl Stale {
    /// None of `n` cells are stale.
    ///
    /// # Errors
    ///
    /// `AllocError` where memory is refused.
    pub fn new(alloc: Global, n: usize) -> Result<Stale, AllocError> {
        Ok(Stale {
            noted: Vec::from_elem(alloc, false, n.div_ceil(BLOCK))?,
            blocks: Vec::new(alloc),
        })
    }

    /// No cells at all. It takes no memory.
    pub fn nothing(alloc: Global) -> Stale {
        Stale {
            noted: Vec::new(alloc),
            blocks: Vec::new(alloc),
        }
    }

    /// Whether there are no cells, so that none can be stale.
    #[inline(always)]
    pub fn is_unused(&self) -> bool {
        self.noted.is_empty()
    }

    /// A cell was stored to. It stays stale where memory is refused.
    #[inline(always)]
    pub fn note(&mut self, cell: usize) {
        let block = cell / BLOCK;
        if block < self.noted.len() && !self.noted[block] {
            self.add(block);
        }
    }

    #[inline(never)]
    fn add(&mut self, block: usize) {
        if self.blocks.push(block).is_ok() && block < self.noted.len() {
            self.noted[block] = true;
        }
    }

    /// A mirror shows what all of these cells hold. None are stale then.
    pub fn show(&mut self, cells: &[i64], mirror: &Mirror) {
        for block in &self.blocks {
            mirror.refresh(cells, *block, BLOCK);
            if *block < self.noted.len() {
                self.noted[*block] = false;
            }
        }
        self.blocks.clear();
    }
}
