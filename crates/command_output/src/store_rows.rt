//! The rows of a store.

ghost use Rattle.std.specs.Prelude.{◌≡◌, IfOk, length, map, true};
ghost use Rattle.std.specs.List.{list_all};
ghost use Rattle.std.specs.List.Sorted.{IsPermutation, IsSortedByKey};
ghost use Rattle.ast.specs.Symbols.{is_sized};
ghost use Rattle.ast.specs.View.{cells, symbol as symbol_of};
ghost use Rattle.command_output.specs.Shown.{byte_order};
ghost use Rattle.command_output.specs.View.{row_view, rows_from};

use crate::row::Row;
use ast::{Store, Symbol};
use std::alloc::{AllocError, Global};

/// A row for each of a program's symbols, with the values that a store has for it.
///
/// # Errors
///
/// `AllocError` where memory is refused.
pub fn rows<'a>(
    alloc: Global,
    symbols: &'a [Symbol],
    store: &'a Store,
) -> Result<Vec<Row<'a>>, AllocError>
    requires sized { list_all is_sized (map symbol_of symbols.now) ≡ true }
    requires whole { length (cells store.now) ≡ length symbols.now }
    ensures { IfOk result (λ rows. map row_view rows.items
        ≡ rows_from (cells store.now) 0 (map symbol_of symbols.now)) }
{
    let mut rows = Vec::with_capacity(alloc, symbols.len())?;
    for (place, symbol) in symbols.iter().enumerate() {
        rows.push(Row {
            symbol,
            values: store.values(place),
        })?;
    }
    Ok(rows)
}

/// Puts names into byte order.
pub(crate) fn sort_by_name(rows: &mut [Row<'_>])
    ensures same { IsPermutation (map row_view rows.old) (map row_view rows.new) }
    ensures order { IsSortedByKey (λ r. r.symbol.name) byte_order (map row_view rows.new) }
{
    rows.sort_unstable_by_key(|row| row.symbol.name);
}
