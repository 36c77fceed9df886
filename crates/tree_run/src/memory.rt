//! The values of a program's variables, found by their references.

ghost use Rattle.std.specs.Prelude.{◌≡◌, map, true};
ghost use Rattle.std.specs.List.{IsDistinct, list_all};
ghost use Rattle.std.proofs.Props.{props};
ghost use Rattle.ast.specs.Store.{same_name};
ghost use Rattle.ast.specs.Symbols.{is_sized, names_of};
ghost use Rattle.ast.specs.View.{cells, symbol};
ghost use Rattle.ast.specs.Symbols.{shapes_of};
ghost use Rattle.tree_run.specs.Shapes.{shapes_in};

use ast::{Dimension, Program, Reference, Store, Symbol};
use std::alloc::{AllocError, Global};

/// A program's symbols and its store: as many values for each name as it has elements.
#[derive(Drop)]
pub struct Memory<'p> {
    symbols: &'p [Symbol],
    store: Store,
    ghost fits: { shapes_in (cells store) ≡ shapes_of (map symbol symbols.now) } by { Prim.hlevel props },
    ghost distinct: { IsDistinct same_name (names_of (map symbol symbols.now)) } by { Prim.hlevel props },
    ghost sized: { list_all is_sized (map symbol symbols.now) ≡ true } by { Prim.hlevel props },
}

impl<'p> Memory<'p> {
    ghost use Rattle.std.specs.Prelude.{◌≡◌, ◌<◌, ◌≤◌, IfOk, int_lt, map, not, true};
    ghost use Rattle.std.specs.List.{list_all};
    ghost use Rattle.ast.specs.Program.{is_placed};
    ghost use Rattle.ast.specs.ProgramView.{program as program_of};
    ghost use Rattle.ast.specs.Store.{put, zeros};
    ghost use Rattle.ast.specs.Symbols.{cells_of, dimensions_in, elements, most_elements};
    ghost use Rattle.ast.specs.View.{cells, extent, ref};
    ghost use Rattle.tree_run.specs.View.{store_in, symbols_in};

    /// The memory of a program, all zeros.
    pub fn zeros(alloc: Global, program: &'p Program) -> Result<Memory<'p>, AllocError>
        ensures symbols { IfOk result (λ m. symbols_in m ≡ (program_of program.now).symbols) }
        ensures store { IfOk result (λ m. store_in m ≡ zeros) }
    {
        let symbols = program.symbols.as_slice();
        let store = Store::zeros(alloc, symbols)?;
        Ok(Memory { symbols, store })
    }

    /// The dimensions of a reference's name.
    pub fn dimensions(&self, reference: &Reference) -> &'p [Dimension]
        requires placed { is_placed (symbols_in self.now) (ref reference.now) ≡ true }
        ensures dimensions { map extent result.now
            ≡ dimensions_in (symbols_in self.now) reference.now.name.letters }
        ensures open { list_all (λ d. not (int_lt d.upper d.lower)) (map extent result.now) ≡ true }
        ensures few { elements (map extent result.now) ≤ most_elements }
    {
        self.symbols[reference.cell].kind.dimensions()
    }

    /// The value of an element.
    pub fn load(&self, reference: &Reference, place: usize) -> i64
        requires placed { is_placed (symbols_in self.now) (ref reference.now) ≡ true }
        requires within { place < elements
            (dimensions_in (symbols_in self.now) reference.now.name.letters) }
        ensures { result ≡ store_in self.now reference.now.name.letters place }
    {
        self.store.load(reference.cell, place)
    }

    /// Gives an element another value.
    pub fn set(&mut self, reference: &Reference, place: usize, value: i64)
        requires placed { is_placed (symbols_in self.old) (ref reference.now) ≡ true }
        requires within { place < elements
            (dimensions_in (symbols_in self.old) reference.now.name.letters) }
        ensures store { store_in self.new
            ≡ put (store_in self.old) reference.now.name.letters place value }
        ensures symbols { symbols_in self.new ≡ symbols_in self.old }
    {
        self.store.set(reference.cell, place, value);
    }

    /// The store.
    pub fn into_store(self) -> Store
        ensures { cells result ≡ cells_of (symbols_in self.entry) (store_in self.entry) }
    {
        self.store
    }
}
