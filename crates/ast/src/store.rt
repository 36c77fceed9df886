//! Stores.

ghost use Rattle.std.specs.Prelude.{◌≡◌, IfOk, drop, map, pos, slice_get, take};

use crate::name::Name;
use crate::program::Symbol;
use crate::table::Table;
use std::alloc::{AllocError, Global};

/// The values of a program's variables: each name once.
pub struct Store {
    /// The names, in the order of the program's symbols.
    table: Table,
    /// The elements of the first name in storage order, then those of the second one, and so on.
    numbers: Vec<i64>,
}

impl Drop for Store {
    fn drop(self) {
        let Store {
            table: _,
            numbers: _,
        } = self;
    }
}

/// The element at a place, if there is one.
fn element(values: &[i64], place: usize) -> Option<i64>
    ensures { result ≡ slice_get values.now place }
{
    if place < values.len() {
        Some(values[place])
    } else {
        None
    }
}

/// So many numbers from a place on, as far as there are any.
#[tactic(auto, using(std::proofs::lemmas::List::drop_min))]
fn part(numbers: &[i64], start: usize, size: usize) -> &[i64]
    ensures { result.now ≡ take size (drop start numbers.now) }
{
    let rest = &numbers[start.min(numbers.len())..];
    &rest[..size.min(rest.len())]
}

impl Store {
    ghost use Rattle.std.specs.Prelude.{◌≡◌, ◌<◌, IfOk, [], get_or, length, map, pos};
    ghost use Rattle.std.specs.Prelude.{slice_index_or, true};
    ghost use Rattle.std.specs.List.{list_all};
    ghost use Rattle.std.proofs.Math.ListN.{set};
    ghost use Rattle.ast.specs.Store.{dealt, value_at, values_in, zeros};
    ghost use Rattle.ast.specs.Symbols.{cells_of, is_sized};
    ghost use Rattle.ast.specs.View.{cells, shapes, symbol as symbol_of};

    /// A store of these names and numbers: the first name has the first numbers, as many as it has
    /// elements, and so on.
    pub fn over(table: Table, numbers: Vec<i64>) -> Store
        ensures { cells result ≡ dealt (shapes table) numbers.items }
    {
        Store { table, numbers }
    }

    /// A store of zeros, in the order of a program's symbols.
    ///
    /// # Errors
    ///
    /// `AllocError` where memory is refused.
    #[tactic(auto, using(crate::proofs::Cells::zeros_dealt))]
    pub fn zeros(alloc: Global, symbols: &[Symbol]) -> Result<Store, AllocError>
        requires { list_all is_sized (map symbol_of symbols.now) ≡ true }
        ensures { IfOk result (λ store. cells store ≡ cells_of (map symbol_of symbols.now) zeros) }
    {
        let table = Table::of(alloc, symbols)?;
        let numbers = vec![in alloc; 0; table.total()]?;
        Ok(Store::over(table, numbers))
    }

    /// How many names it holds.
    #[tactic(auto, using(crate::proofs::Cells::dealt_length))]
    pub fn len(&self) -> usize
        ensures { result ≡ length (cells self.now) }
    {
        self.table.len()
    }

    /// The name at a place of the program's symbols.
    #[tactic(auto, using(crate::proofs::Cells::dealt_length, crate::proofs::Cells::dealt_name))]
    pub fn name(&self, cell: usize) -> Name
        requires { cell < length (cells self.now) }
        ensures { result.letters ≡ (get_or (cells self.now) cell ([], [])).0 }
    {
        self.table.name(cell)
    }

    /// The values of that name, its elements in storage order.
    #[tactic(auto, using(crate::proofs::Cells::dealt_length, crate::proofs::Cells::dealt_values))]
    pub fn values(&self, cell: usize) -> &[i64]
        requires { cell < length (cells self.now) }
        ensures { result.now ≡ values_in (cells self.now) cell }
    {
        part(&self.numbers, self.table.start(cell), self.table.size(cell))
    }

    /// The value of one of its elements.
    #[tactic(auto, using(crate::proofs::Cells::within, crate::proofs::Cells::read_at))]
    pub fn load(&self, cell: usize, place: usize) -> i64
        requires { place < length (values_in (cells self.now) cell) }
        ensures { result ≡ slice_index_or (values_in (cells self.now) cell) place (pos 0) }
    {
        self.numbers[self.table.start(cell) + place]
    }

    /// Gives one of its elements another value.
    #[tactic(auto, using(crate::proofs::Cells::within, crate::proofs::Cells::written))]
    pub fn set(&mut self, cell: usize, place: usize, value: i64)
        requires { place < length (values_in (cells self.old) cell) }
        ensures { cells self.new ≡ set (cells self.old) cell (
          (get_or (cells self.old) cell ([], [])).0,
          set (values_in (cells self.old) cell) place value,
        ) }
    {
        let at = self.table.start(cell) + place;
        self.numbers[at] = value;
    }

    /// The value of the element of `name` whose number in storage order, from 0, is `place`; a
    /// scalar has the place 0 alone. `None` where the store has no such element.
    pub fn value(&self, name: Name, place: usize) -> Option<i64>
        ensures { result ≡ value_at (cells self.now) name.letters place }
    {
        for cell in 0..self.len() {
            if self.name(cell) == name {
                return element(self.values(cell), place);
            }
        }
        None
    }
}
