//! The symbols of a program: what each of its names stands for.

ghost use Rattle.std.specs.Prelude.{◌≡◌, IfOk, map, true};
ghost use Rattle.std.specs.List.{list_all};
ghost use Rattle.ast.specs.View as view;
ghost use Rattle.profile_check.specs.Declarations as spec;
ghost use Rattle.profile_check.specs.DeclarationsView.{declared};
ghost use Rattle.profile_check.specs.DeclaredView.{arrays_of};
ghost use Rattle.profile_check.specs.Fitting.{sort_fits, symbol_fits};

use crate::arrays::Arrays;
use crate::declarations::Declarations;
use ast::{Dimension, Name, Symbol, SymbolKind};
use std::alloc::{AllocError, Global};

/// The dimensions of a name: none where it is no array.
#[tactic(auto, using(crate::proofs::Entries::array_found))]
fn dimensions_of(alloc: Global, arrays: &Arrays, name: &Name) -> Result<Vec<Dimension>, AllocError>
    ensures { IfOk result (λ ds. map view.extent ds.items
        ≡ spec.dimensions_named (arrays_of arrays.now.entries) name.now.letters) }
{
    match arrays.get(name) {
        Some(dimensions) => Vec::from_slice(alloc, dimensions),
        None => Ok(Vec::new(alloc)),
    }
}

/// What a name stands for.
#[tactic(auto, using(crate::proofs::Entries::constant_found))]
fn kind_of(
    alloc: Global,
    declarations: &Declarations,
    name: &Name,
) -> Result<SymbolKind, AllocError>
    ensures found { IfOk result (λ kind. view.sort kind
        ≡ spec.sort_of (declared declarations.now) name.now.letters) }
    ensures fitting { IfOk result (λ kind. sort_fits (view.sort kind) ≡ true) }
{
    match declarations.constants.get(name) {
        Some(value) => Ok(SymbolKind::Constant(*value)),
        None => {
            let dimensions = dimensions_of(alloc, &declarations.arrays, name)?;
            Ok(SymbolKind::Variable(dimensions))
        }
    }
}

fn symbol_of(alloc: Global, declarations: &Declarations, name: Name) -> Result<Symbol, AllocError>
    ensures found { IfOk result (λ s. view.symbol s
        ≡ spec.symbol_of (declared declarations.now) name.letters) }
    ensures fitting { IfOk result (λ s. symbol_fits (view.symbol s) ≡ true) }
{
    let kind = kind_of(alloc, declarations, &name)?;
    Ok(Symbol { name, kind })
}

/// A symbol for each name that is declared, in their order.
///
/// # Errors
///
/// `AllocError` where memory is refused.
pub fn symbols_of(alloc: Global, declarations: &Declarations) -> Result<Vec<Symbol>, AllocError>
    ensures found { IfOk result (λ symbols. map view.symbol symbols.items
        ≡ spec.symbols_of (declared declarations.now)) }
    ensures fitting { IfOk result (λ symbols. list_all symbol_fits (map view.symbol symbols.items)
        ≡ true) }
{
    let names = declarations.names.as_slice();
    let mut symbols = Vec::with_capacity(alloc, names.len())?;
    for name in names {
        symbols.push(symbol_of(alloc, declarations, *name)?)?;
    }
    Ok(symbols)
}
