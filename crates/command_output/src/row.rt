//! A row of a store.

ghost use Rattle.std.specs.Prelude.{◌≡◌, true};
ghost use Rattle.std.proofs.Props.{props};
ghost use Rattle.ast.specs.Symbols.{is_sized};
ghost use Rattle.ast.specs.View.{symbol as symbol_of};

use ast::Symbol;

/// A symbol with its values in storage order: one for a scalar, none for a constant.
#[derive(Clone, Copy)]
pub struct Row<'a> {
    pub symbol: &'a Symbol,
    pub values: &'a [i64],
    ghost sized: { is_sized (symbol_of symbol.now) ≡ true } by { Prim.hlevel props },
}
