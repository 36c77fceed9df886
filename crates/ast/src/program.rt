//! Programs.

ghost use Rattle.std.specs.Prelude.{◌≡◌, ◌≤◌, IfOk, int_lt, map, not, true};
ghost use Rattle.ast.specs.Program.{are_placed, are_shallow};
ghost use Rattle.ast.specs.References.{are_numbered, block_references};
ghost use Rattle.ast.specs.Regular.{are_fitting, is_regular};
ghost use Rattle.ast.specs.Store.{same_name};
ghost use Rattle.ast.specs.Symbols.{elements, is_sized, most_elements, names_of};
ghost use Rattle.ast.specs.View.{block_view, extent, symbol};
ghost use Rattle.std.specs.List.{IsDistinct, list_all};
ghost use Rattle.std.proofs.Props.{props};

use crate::name::Name;
use crate::tree::{Node, copy_of_body};
use std::alloc::{AllocError, Global};

/// A dimension of an array: its bounds, the lower one not above the upper.
#[derive(Clone, Copy, PartialEq, Eq)]
pub struct Dimension {
    pub lower: i64,
    pub upper: i64,
}

/// What a name stands for.
#[derive(Drop)]
pub enum SymbolKind {
    /// A variable: an array with these dimensions, a scalar where there are none.
    Variable(Vec<Dimension>),
    /// A constant that a PARAMETER statement gives its value.
    Constant(i64),
}

/// A name of a program.
#[derive(Drop)]
pub struct Symbol {
    pub name: Name,
    pub kind: SymbolKind,
}

/// A program. Its references hold the places of their names among the symbols, and they are
/// numbered from 0 in order of evaluation.
pub struct Program {
    /// What its names stand for, each name once.
    pub symbols: Vec<Symbol>,
    /// Its statements in order.
    pub body: Vec<Node>,
    /// How many statements its text has, END counted, and ELSE, ELSE IF and END IF too.
    pub statements: usize,
    ghost distinct: { IsDistinct same_name (names_of (map symbol symbols.items)) } by { Prim.hlevel props },
    ghost sized: { list_all is_sized (map symbol symbols.items) ≡ true } by { Prim.hlevel props },
    ghost placed: { are_placed (map symbol symbols.items) (block_view body.items) ≡ true } by { Prim.hlevel props },
    ghost numbered: { are_numbered 0 (block_references (block_view body.items)) ≡ true } by { Prim.hlevel props },
    ghost shallow: { are_shallow (block_view body.items) ≡ true } by { Prim.hlevel props },
    ghost regular: { is_regular (map symbol symbols.items) (block_view body.items) ≡ true } by { Prim.hlevel props },
    ghost fitting: { are_fitting (block_view body.items) ≡ true } by { Prim.hlevel props },
}

impl Drop for Program {
    fn drop(self) {
        let Program {
            symbols: _,
            body: _,
            statements: _,
        } = self;
    }
}

impl Symbol {
    ghost use Rattle.std.specs.Prelude.{◌≡◌, IfOk};
    ghost use Rattle.ast.specs.View.{symbol};

    /// An equal symbol, or `AllocError` where memory is refused.
    pub fn try_copy(&self, alloc: Global) -> Result<Symbol, AllocError>
        ensures { IfOk result (λ copy. symbol copy ≡ symbol self.now) }
    {
        let kind = match &self.kind {
            SymbolKind::Variable(dimensions) => {
                SymbolKind::Variable(Vec::from_slice(alloc, dimensions)?)
            }
            SymbolKind::Constant(value) => SymbolKind::Constant(*value),
        };
        Ok(Symbol {
            name: self.name,
            kind,
        })
    }
}

fn copies_of_symbols(alloc: Global, symbols: &[Symbol]) -> Result<Vec<Symbol>, AllocError>
    ensures { IfOk result (λ copies. map symbol copies.items ≡ map symbol symbols.now) }
{
    let mut copies = Vec::with_capacity(alloc, symbols.len())?;
    for symbol in symbols {
        copies.push(symbol.try_copy(alloc)?)?;
    }
    Ok(copies)
}

impl Program {
    ghost use Rattle.std.specs.Prelude.{◌≡◌, IfOk};
    ghost use Rattle.ast.specs.ProgramView.{program};

    /// An equal program, or `AllocError` where memory is refused.
    pub fn try_copy(&self) -> Result<Program, AllocError>
        ensures { IfOk result (λ copy. program copy ≡ program self.now) }
    {
        let alloc = *self.body.allocator();
        let symbols = copies_of_symbols(alloc, &self.symbols)?;
        let body = copy_of_body(alloc, &self.body)?;
        Ok(Program {
            symbols,
            body,
            statements: self.statements,
        })
    }
}

impl Dimension {
    ghost use Rattle.std.specs.Prelude.{◌≡◌, ◌≤◌, IsTrue, int_lt, false};
    ghost use Rattle.ast.specs.Symbols.{most_elements, width, is_within};
    ghost use Rattle.ast.specs.View.{extent};

    /// How many values a subscript may have.
    pub fn width(&self) -> usize
        requires open { int_lt self.now.upper self.now.lower ≡ false }
        requires few { width (extent self.now) ≤ most_elements }
        ensures { result ≡ width (extent self.now) }
    {
        (self.upper - self.lower) as usize + 1
    }

    /// Whether a subscript is within the bounds.
    pub fn holds(&self, subscript: i64) -> bool
        ensures { result ≡ is_within (extent self.now) subscript }
    {
        self.lower <= subscript && subscript <= self.upper
    }
}

/// How many elements dimensions make: one where there are none.
#[tactic(auto, using(crate::proofs::Sizes::fewer, crate::proofs::Sizes::narrow_first))]
pub fn elements(dimensions: &[Dimension]) -> usize
    requires open { list_all (λ d. not (int_lt d.upper d.lower)) (map extent dimensions.now)
        ≡ true }
    requires few { elements (map extent dimensions.now) ≤ most_elements }
    ensures { result ≡ elements (map extent dimensions.now) }
{
    match dimensions {
        [] => 1,
        [dimension, others @ ..] => dimension.width() * elements(others),
    }
}

impl SymbolKind {
    ghost use Rattle.std.specs.Prelude.{◌≡◌, ◌≤◌, map, true};
    ghost use Rattle.ast.specs.Symbols.{dimensions_of, is_sized_sort, size};
    ghost use Rattle.ast.specs.View.{extent, sort};

    /// How many values the name has a place for.
    pub fn size(&self) -> usize
        requires { is_sized_sort (sort self.now) ≡ true }
        ensures { result ≡ size (sort self.now) }
    {
        match self {
            SymbolKind::Variable(dimensions) => elements(dimensions),
            SymbolKind::Constant(_) => 0,
        }
    }

    /// The dimensions of an array, none of a scalar or a constant.
    pub fn dimensions(&self) -> &[Dimension]
        ensures { map extent result.now ≡ dimensions_of (sort self.now) }
    {
        match self {
            SymbolKind::Variable(dimensions) => dimensions,
            SymbolKind::Constant(_) => &[],
        }
    }
}
