//! The lines of a store.

ghost use Rattle.std.specs.Prelude.{◌≡◌, ◌++◌, ◌<◌, ◌≤◌, ◌+ℤ◌, ◌%◌, pos, int_lt, false, true, not};
ghost use Rattle.std.specs.Prelude.{map, OnOk};
ghost use Rattle.std.specs.Fmt.{signed_decimal};
ghost use Rattle.std.specs.List.{list_all};
ghost use Rattle.ast.specs.Symbols.{elements, most_elements, width};
ghost use Rattle.ast.specs.View.{extent};
ghost use Rattle.command_output.specs.Shown.{Extends, StoreShown, element_line, further};
ghost use Rattle.command_output.specs.Shown.{in_parentheses};
ghost use Rattle.command_output.specs.Shown.{lines_from, row_lines, rows_lines, subscripts_at};
ghost use Rattle.command_output.specs.View.{row_view};

use crate::row::Row;
use crate::store_rows::sort_by_name;
use ast::{Dimension, Name};
use explanations::append_number;
use std::alloc::AllocError;

/// The subscript that is so far above the lower one of two bounds.
fn subscript(lower: i64, upper: i64, distance: usize) -> i64
    requires open { int_lt upper lower ≡ false }
    requires few { width (record { lower = lower; upper = upper }) ≤ most_elements }
    requires near { distance < width (record { lower = lower; upper = upper }) }
    ensures { result ≡ lower +ℤ pos distance }
{
    lower + distance as i64
}

/// Appends the subscript by one dimension of a place.
fn append_subscript(
    out: &mut Vec<u8>,
    dimension: &Dimension,
    place: usize,
) -> Result<(), AllocError>
    requires open { int_lt dimension.now.upper dimension.now.lower ≡ false }
    requires few { width (extent dimension.now) ≤ most_elements }
    ensures { OnOk result (out.new.items ≡ out.old.items
        ++ signed_decimal (dimension.now.lower +ℤ pos (place % width (extent dimension.now)))) }
{
    let distance = place % dimension.width();
    append_number(out, subscript(dimension.lower, dimension.upper, distance))
}

/// Appends the subscripts of a place behind the first, and the parenthesis that closes them.
#[tactic(auto, using(ast::proofs::Sizes::fewer, ast::proofs::Sizes::narrow_first))]
fn append_further(
    out: &mut Vec<u8>,
    dimensions: &[Dimension],
    place: usize,
) -> Result<(), AllocError>
    requires open { list_all (λ d. not (int_lt d.upper d.lower)) (map extent dimensions.now)
        ≡ true }
    requires few { elements (map extent dimensions.now) ≤ most_elements }
    ensures { OnOk result (out.new.items ≡ out.old.items
        ++ further (subscripts_at (map extent dimensions.now) place)) }
{
    match dimensions {
        [] => Ok(out.push(b')')?),
        [dimension, others @ ..] => {
            out.push(b',')?;
            append_subscript(out, dimension, place)?;
            append_further(out, others, place / dimension.width())
        }
    }
}

/// Appends the subscripts of a place in parentheses, and nothing for a scalar.
#[tactic(auto, using(ast::proofs::Sizes::fewer, ast::proofs::Sizes::narrow_first))]
fn append_subscripts(
    out: &mut Vec<u8>,
    dimensions: &[Dimension],
    place: usize,
) -> Result<(), AllocError>
    requires open { list_all (λ d. not (int_lt d.upper d.lower)) (map extent dimensions.now)
        ≡ true }
    requires few { elements (map extent dimensions.now) ≤ most_elements }
    ensures { OnOk result (out.new.items ≡ out.old.items
        ++ in_parentheses (subscripts_at (map extent dimensions.now) place)) }
{
    match dimensions {
        [] => Ok(()),
        [dimension, others @ ..] => {
            out.push(b'(')?;
            append_subscript(out, dimension, place)?;
            append_further(out, others, place / dimension.width())
        }
    }
}

fn append_element(
    out: &mut Vec<u8>,
    name: &Name,
    dimensions: &[Dimension],
    place: usize,
    value: i64,
) -> Result<(), AllocError>
    requires open { list_all (λ d. not (int_lt d.upper d.lower)) (map extent dimensions.now)
        ≡ true }
    requires few { elements (map extent dimensions.now) ≤ most_elements }
    ensures { OnOk result (out.new.items ≡ out.old.items
        ++ element_line name.now.letters (subscripts_at (map extent dimensions.now) place) value) }
{
    out.extend_from_slice(name.trimmed())?;
    append_subscripts(out, dimensions, place)?;
    out.extend_from_slice(b" = ")?;
    append_number(out, value)?;
    out.extend_from_slice(b"\n")
}

fn append_elements(
    out: &mut Vec<u8>,
    name: &Name,
    dimensions: &[Dimension],
    values: &[i64],
) -> Result<(), AllocError>
    requires open { list_all (λ d. not (int_lt d.upper d.lower)) (map extent dimensions.now)
        ≡ true }
    requires few { elements (map extent dimensions.now) ≤ most_elements }
    ensures { OnOk result (out.new.items ≡ out.old.items
        ++ lines_from name.now.letters (map extent dimensions.now) 0 values.now) }
{
    for (place, value) in values.iter().enumerate() {
        append_element(out, name, dimensions, place, *value)?;
    }
    Ok(())
}

fn append_row(out: &mut Vec<u8>, row: &Row<'_>) -> Result<(), AllocError>
    ensures { OnOk result (out.new.items ≡ out.old.items ++ row_lines (row_view row.now)) }
{
    append_elements(
        out,
        &row.symbol.name,
        row.symbol.kind.dimensions(),
        row.values,
    )
}

fn append_rows(out: &mut Vec<u8>, rows: &[Row<'_>]) -> Result<(), AllocError>
    ensures { OnOk result (out.new.items ≡ out.old.items ++ rows_lines (map row_view rows.now)) }
{
    for row in rows {
        append_row(out, row)?;
    }
    Ok(())
}

/// Appends a line for each element of each variable, names in byte order, elements in storage
/// order, and leaves the rows in that order.
pub fn append_store(out: &mut Vec<u8>, rows: &mut [Row<'_>]) -> Result<(), AllocError>
    ensures { OnOk result (Extends (StoreShown (map row_view rows.old)) out.old.items
        out.new.items) }
{
    sort_by_name(rows);
    append_rows(out, rows)
}
