//! A memory of guesses, which notes each access.

ghost use Rattle.std.specs.Prelude.{◌≡◌, [], IfOk, length};
ghost use Rattle.stretches.specs.Guesses.{notes_of};

use crate::mirror::Mirror;
use crate::note::Note;
use machine::Memory;
use std::alloc::{AllocError, Global};

/// What a mirror shows is taken for the cells' own, and noted.
#[derive(Drop)]
pub struct Guesses<'m> {
    pub mirror: &'m Mirror,
    /// Room for notes, of which the first `made` count.
    pub notes: Vec<Note>,
    pub made: usize,
}

impl<'m> Guesses<'m> {
    /// Room for `n` notes, of which none has been made.
    ///
    /// # Errors
    ///
    /// `AllocError` where memory is refused.
    pub fn new(alloc: Global, mirror: &'m Mirror, n: usize) -> Result<Guesses<'m>, AllocError>
        ensures none { IfOk result (λ g. notes_of g ≡ []) }
        ensures room { IfOk result (λ g. length g.notes.items ≡ n) }
    {
        let blank = Note {
            cell: 0,
            was: 0,
            is: 0,
        };
        Ok(Guesses {
            mirror,
            notes: Vec::from_elem(alloc, blank, n)?,
            made: 0,
        })
    }

    /// The notes that count.
    pub fn noted(&self) -> &[Note]
        ensures { result.now ≡ notes_of self.now }
    {
        if self.made <= self.notes.len() {
            &self.notes[..self.made]
        } else {
            &self.notes
        }
    }
}

impl Memory for Guesses<'_> {
    ghost use Rattle.stretches.specs.Guesses.{notes_of, seen_by};

    ghost seen = { λ g. seen_by (notes_of g) };

    #[inline(always)]
    fn value(&mut self, cell: usize) -> Option<i64> {
        if self.made >= self.notes.len() {
            return None;
        }
        let guess = self.mirror.get(cell)?;
        self.notes[self.made] = Note {
            cell,
            was: guess,
            is: guess,
        };
        self.made += 1;
        Some(guess)
    }

    #[inline(always)]
    fn put(&mut self, cell: usize, value: i64) -> bool {
        if self.made >= self.notes.len() {
            return false;
        }
        match self.mirror.swap(cell, value) {
            Some(was) => {
                self.notes[self.made] = Note {
                    cell,
                    was,
                    is: value,
                };
                self.made += 1;
                true
            }
            None => false,
        }
    }

    #[inline(always)]
    fn is_swept(&self) -> bool {
        true
    }
}
