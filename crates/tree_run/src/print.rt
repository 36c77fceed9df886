//! PRINT.

ghost use Rattle.std.specs.Prelude.{◌≡◌, ◌++◌, ◌∷◌, [], OnOk, map, true};
ghost use Rattle.ast.specs.Meaning.{exec_plain};
ghost use Rattle.ast.specs.Record.{Keeps, number, shown};
ghost use Rattle.ast.specs.Tree.{print};
ghost use Rattle.ast.specs.View.{item as item_of};
ghost use Rattle.ast.specs.declared.fault.End.TheVariants.{Done};
ghost use Rattle.tree_run.specs.Placed.{PlacedItems};
ghost use Rattle.tree_run.specs.Printing.{item_onto, items_onto, record_onto};
ghost use Rattle.tree_run.specs.Runs.{Gives, Reaches, run_of, symbols_of};
ghost use Rattle.tree_run.specs.View.{look, symbols_in};

use crate::expressions::value_at;
use crate::machine::Machine;
use crate::memory::Memory;
use crate::stop::Stop;
use ast::{Item, Line};
use itoa::Buffer;
use std::alloc::AllocError;

/// Appends an integer, with a blank before it unless it is the first item.
///
/// # Errors
///
/// `AllocError` where memory is refused; a part may have been appended then.
pub fn append_number(output: &mut Vec<u8>, is_first: bool, n: i64) -> Result<(), AllocError>
    ensures appended { OnOk result (output.new.items ≡ output.old.items
        ++ shown is_first (number n)) }
    ensures kept { Keeps output.old.items output.new.items }
{
    if !is_first {
        output.push(b' ')?;
    }
    let mut buffer = Buffer::new();
    output.extend_from_slice(buffer.format(n).as_bytes())
}

/// Appends what an item prints.
fn append_item(
    memory: &Memory<'_>,
    line: Line,
    item: &Item,
    is_first: bool,
    output: &mut Vec<u8>,
) -> Result<(), Stop>
    requires placed { PlacedItems (symbols_in memory.now) (item_of item.now ∷ []) }
    ensures appended { Gives result line output.new.items
        (item_onto output.old.items is_first (item_of item.now) (look memory.now)) }
    ensures kept { Keeps output.old.items output.new.items }
{
    match item {
        Item::Value(expression) => {
            let n = value_at(memory, line, expression)?;
            append_number(output, is_first, n)?;
        }
        Item::Text(text) => output.extend_from_slice(text)?,
    }
    Ok(())
}

/// Appends what the items of a PRINT print; where one faults, a beginning of it.
#[tactic(auto, using(crate::proofs::Items::placed_first, crate::proofs::Items::placed_rest))]
fn append_items(
    memory: &Memory<'_>,
    line: Line,
    items: &[Item],
    output: &mut Vec<u8>,
) -> Result<(), Stop>
    requires placed { PlacedItems (symbols_in memory.now) (map item_of items.now) }
    ensures appended { Gives result line output.new.items
        (items_onto output.old.items true (map item_of items.now) (look memory.now)) }
    ensures kept { Keeps output.old.items output.new.items }
{
    let mut is_first = true;
    for item in items {
        append_item(memory, line, item, is_first, output)?;
        is_first = false;
    }
    Ok(())
}

/// Appends the record of a PRINT; where an item faults, a beginning of it.
fn append_record(
    memory: &Memory<'_>,
    line: Line,
    items: &[Item],
    output: &mut Vec<u8>,
) -> Result<(), Stop>
    requires placed { PlacedItems (symbols_in memory.now) (map item_of items.now) }
    ensures appended { Gives result line output.new.items
        (record_onto output.old.items (map item_of items.now) (look memory.now)) }
    ensures kept { Keeps output.old.items output.new.items }
{
    output.push(b' ')?;
    append_items(memory, line, items, output)?;
    output.push(b'\n')?;
    Ok(())
}

/// Prints a record, nothing of it where an item faults.
pub fn print(machine: &mut Machine<'_>, line: Line, items: &[Item]) -> Result<(), Stop>
    requires placed { PlacedItems (symbols_of machine.old) (map item_of items.now) }
    ensures reached { Reaches result (run_of machine.new)
        (exec_plain (symbols_of machine.old) line (print (map item_of items.now))
        (run_of machine.old Done)) }
    ensures symbols { symbols_of machine.new ≡ symbols_of machine.old }
{
    let before = machine.output.len();
    let printed = append_record(&machine.memory, line, items, &mut machine.output);
    if printed.is_err() {
        machine.output.truncate(before);
    }
    printed
}
