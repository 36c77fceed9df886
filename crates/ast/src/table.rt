//! The names of a store, and where the elements of each stand.

ghost use Rattle.std.specs.Prelude.{◌≡◌, true};
ghost use Rattle.std.proofs.Props.{props};
ghost use Rattle.ast.specs.Laid.{is_laid};

use crate::name::Name;
use crate::program::Symbol;
use std::alloc::{AllocError, Global};

/// A name, and where its elements stand among those of all.
#[derive(Clone, Copy, Drop)]
struct Seat {
    name: Name,
    /// The place of the first of them.
    start: usize,
    /// How many there are: a scalar has one, a constant none.
    size: usize,
}

/// Names, the elements of each behind those of the one before it.
#[derive(Drop)]
pub struct Table {
    seats: Vec<Seat>,
    /// How many elements all of them have.
    total: usize,
    ghost laid: { is_laid 0 seats.items total ≡ true } by { Prim.hlevel props },
}

impl Table {
    ghost use Rattle.std.specs.Prelude.{◌≡◌, ◌<◌, ◌++◌, ◌∷◌, IfOk, OnOk, OnErr, [], get_or, length};
    ghost use Rattle.std.specs.Prelude.{map, take, true};
    ghost use Rattle.std.specs.List.{list_all};
    ghost use Rattle.ast.specs.Store.{total_of};
    ghost use Rattle.ast.specs.Symbols.{is_sized, shapes_of};
    ghost use Rattle.ast.specs.View.{shapes, symbol as symbol_of};

    /// No names.
    pub fn new(alloc: Global) -> Table
        ensures { shapes result ≡ [] }
    {
        Table {
            seats: Vec::new(alloc),
            total: 0,
        }
    }

    /// Adds a name with so many elements behind the others. Where memory is refused, or more
    /// elements than a `usize` counts, nothing has changed.
    #[tactic(auto, using(crate::proofs::Cells::laid_push))]
    pub fn push(&mut self, name: Name, size: usize) -> Result<(), AllocError>
        ensures ok { OnOk result (shapes self.new ≡ shapes self.old ++ (name.letters, size) ∷ []) }
        ensures err { OnErr result (shapes self.new ≡ shapes self.old) }
    {
        let Some(total) = self.total.checked_add(size) else {
            return Err(AllocError);
        };
        let start = self.total;
        self.seats.push(Seat { name, start, size })?;
        self.total = total;
        Ok(())
    }

    /// The names of a program's symbols, in their order.
    ///
    /// # Errors
    ///
    /// `AllocError` where memory is refused.
    pub fn of(alloc: Global, symbols: &[Symbol]) -> Result<Table, AllocError>
        requires { list_all is_sized (map symbol_of symbols.now) ≡ true }
        ensures { IfOk result (λ table. shapes table ≡ shapes_of (map symbol_of symbols.now)) }
    {
        let mut table = Table::new(alloc);
        for symbol in symbols {
            table.push(symbol.name, symbol.kind.size())?;
        }
        Ok(table)
    }

    /// How many names it has.
    pub fn len(&self) -> usize
        ensures { result ≡ length (shapes self.now) }
    {
        self.seats.len()
    }

    /// How many elements all its names have.
    #[tactic(auto, using(crate::proofs::Cells::all_of))]
    pub fn total(&self) -> usize
        ensures { result ≡ total_of (shapes self.now) }
    {
        self.total
    }

    /// The name at a place.
    pub fn name(&self, cell: usize) -> Name
        requires { cell < length (shapes self.now) }
        ensures { result.letters ≡ (get_or (shapes self.now) cell ([], 0)).0 }
    {
        self.seats[cell].name
    }

    /// The place of the first element of a name, or how many elements all names have where it is
    /// none.
    #[tactic(auto, using(crate::proofs::Cells::start_of, crate::proofs::Cells::start_past))]
    pub fn start(&self, cell: usize) -> usize
        ensures { result ≡ total_of (take cell (shapes self.now)) }
    {
        if cell < self.seats.len() {
            self.seats[cell].start
        } else {
            self.total
        }
    }

    /// How many elements a name has.
    pub fn size(&self, cell: usize) -> usize
        requires { cell < length (shapes self.now) }
        ensures { result ≡ (get_or (shapes self.now) cell ([], 0)).1 }
    {
        self.seats[cell].size
    }
}
