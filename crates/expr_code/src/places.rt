//! Where the code of an expression finds its variables.

ghost use Rattle.std.specs.Prelude.{◌≡◌, length, map};
ghost use Rattle.ast.specs.View.{extent, letters, symbol};
ghost use Rattle.expr_code.specs.Emitted.{short};
ghost use Rattle.expr_code.specs.Places.{dimensions_at, number_in};

use ast::{Dimension, Line, Name, Program, Reference, Symbol};
use loop_tree::ScalarSet;
use machine::Act;

/// Where the code of an expression finds its variables, and the line of its statement.
///
/// A scalar is found in the frame if it is the open loop's variable, or one of the private scalars;
/// any other variable is a cell.
#[derive(Clone, Copy)]
pub struct Places<'p> {
    pub program: &'p Program,
    /// In the order in which frames hold them.
    pub privates: &'p ScalarSet,
    /// The variable of the loop that is open, if any.
    pub loop_name: Option<Name>,
    /// The statement's line, for its faults.
    pub line: Line,
}

/// A number in 32 bits; the greatest one where they can't hold it.
pub fn short(n: usize) -> u32
    ensures { result ≡ short n }
{
    if n < 4_294_967_296 {
        n as u32
    } else {
        4_294_967_295
    }
}

/// The number of a name among names.
fn number_in(names: &[Name], name: Name) -> Option<usize>
    ensures { result ≡ number_in 0 name.letters (map letters names.now) }
{
    let mut number = 0;
    while number < names.len() {
        if names[number] == name {
            return Some(number);
        }
        number += 1;
    }
    None
}

/// The dimensions of the symbol at a place of the symbols, none where there is no such symbol.
fn dimensions_in(symbols: &[Symbol], cell: usize) -> &[Dimension]
    ensures dimensions { map extent result.now ≡ dimensions_at (map symbol symbols.now) cell }
    ensures count { length result.now ≡ length (dimensions_at (map symbol symbols.now) cell) }
{
    if cell < symbols.len() {
        symbols[cell].kind.dimensions()
    } else {
        &[]
    }
}

impl<'p> Places<'p> {
    ghost use Rattle.std.specs.Prelude.{◌≡◌, [], length, map};
    ghost use Rattle.ast.specs.View.{extent};
    ghost use Rattle.expr_code.specs.Emitted.{given_act, scalar_act};
    ghost use Rattle.expr_code.specs.Places.{dimensions_at, home, is_loop_name};
    ghost use Rattle.expr_code.specs.PlacesView.{places_of};

    /// Whether a name is that of the open loop's variable.
    fn is_loop_name(&self, name: Name) -> bool
        ensures { result ≡ is_loop_name (places_of self.now).loop_name name.letters }
    {
        match self.loop_name {
            Some(variable) => variable == name,
            None => false,
        }
    }

    /// Pops the new value of a scalar.
    pub fn store_scalar(&self, name: Name, cell: usize) -> Act
        ensures { result ≡ given_act [] (home (places_of self.now) [] name.letters) cell }
    {
        if self.is_loop_name(name) {
            return Act::Store(short(cell));
        }
        match number_in(&self.privates.names, name) {
            Some(number) => Act::SetPrivate(short(number)),
            None => Act::Store(short(cell)),
        }
    }

    /// Pops the new value of a variable, and before it the place of an element.
    pub fn store(&self, reference: &Reference) -> Act
        ensures { result ≡ given_act (dimensions_at (places_of self.now).symbols reference.now.cell)
            (home (places_of self.now)
            (dimensions_at (places_of self.now).symbols reference.now.cell)
            reference.now.name.letters) reference.now.cell }
    {
        match self.dimensions(reference.cell) {
            [] => self.store_scalar(reference.name, reference.cell),
            [_first, _others @ ..] => Act::StoreElement(short(reference.cell)),
        }
    }

    /// Pushes the value of a scalar.
    pub fn scalar(&self, name: Name, cell: usize) -> Act
        ensures { result ≡ scalar_act (home (places_of self.now) [] name.letters) cell }
    {
        if self.is_loop_name(name) {
            return Act::Index;
        }
        match number_in(&self.privates.names, name) {
            Some(number) => Act::Private(short(number)),
            None => Act::Load(short(cell)),
        }
    }

    /// The dimensions of the symbol at a place of the symbols, none where there is no such symbol.
    pub(crate) fn dimensions(&self, cell: usize) -> &'p [Dimension]
        ensures dimensions { map extent result.now
            ≡ dimensions_at (places_of self.now).symbols cell }
        ensures count { length result.now
            ≡ length (dimensions_at (places_of self.now).symbols cell) }
    {
        dimensions_in(&self.program.symbols, cell)
    }
}
