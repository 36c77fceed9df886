//! Answers of runs that have ended.

ghost use Rattle.std.specs.Prelude.{◌≡◌, IfOk, length, true};
ghost use Rattle.ast.specs.View.{cells as named_values, shapes};
ghost use Rattle.machine.specs.CodeView.{code_of};
ghost use Rattle.machine.specs.Laid.{are_distinct, are_laid, count_of, names_in};
ghost use Rattle.machine.specs.StoreView.{store_of};
ghost use Rattle.replay.specs.Replayed.{shapes_of, stored};

use activities::Shared;
use ast::{Answer, End, Store, Table};
use machine::{Code, Variable};
use std::alloc::{AllocError, Global};

/// The names of variables, each with as many elements as it has cells.
fn table_of(alloc: Global, variables: &[Variable]) -> Result<Table, AllocError>
    ensures { IfOk result (λ table. shapes table ≡ shapes_of variables.now) }
{
    let mut table = Table::new(alloc);
    for variable in variables {
        table.push(variable.name, variable.size)?;
    }
    Ok(table)
}

/// The store of variables whose values stand in cells.
#[tactic(auto, using(crate::proofs::Cells::dealt_stored))]
fn stored(alloc: Global, variables: &[Variable], cells: &[i64]) -> Result<Store, AllocError>
    requires distinct { are_distinct (names_in variables.now) ≡ true }
    requires laid { are_laid 0 variables.now ≡ true }
    requires cells { length cells.now ≡ count_of variables.now }
    ensures { IfOk result (λ store. named_values store ≡
        stored variables.now (store_of variables.now cells.now)) }
{
    let table = table_of(alloc, variables)?;
    let numbers = Vec::from_slice(alloc, cells)?;
    Ok(Store::over(table, numbers))
}

/// The answer of a run with this output that has ended so.
///
/// # Errors
///
/// `AllocError` where memory is refused.
pub fn answer(
    alloc: Global,
    code: &Code,
    cells: &[i64],
    output: Vec<u8>,
    end: End,
) -> Result<Answer, AllocError>
    requires { length cells.now ≡ count_of (code_of code.now).variables }
    ensures output { IfOk result (λ answer. answer.output.items ≡ output.items) }
    ensures store { IfOk result (λ answer. named_values answer.store
        ≡ stored (code_of code.now).variables (store_of (code_of code.now).variables cells.now)) }
    ensures end { IfOk result (λ answer. answer.end ≡ end) }
{
    let store = stored(alloc, &code.variables, cells)?;
    Ok(Answer { output, store, end })
}

/// The answer of a run that has ended so, from what all activities share.
///
/// # Errors
///
/// `AllocError` where memory is refused.
pub fn answer_of(alloc: Global, code: &Code, shared: Shared, end: End) -> Result<Answer, AllocError>
    requires { length shared.cells.items ≡ count_of (code_of code.now).variables }
    ensures output { IfOk result (λ answer. answer.output.items ≡ shared.output.items) }
    ensures store { IfOk result (λ answer. named_values answer.store
        ≡ stored (code_of code.now).variables
        (store_of (code_of code.now).variables shared.cells.items)) }
    ensures end { IfOk result (λ answer. answer.end ≡ end) }
{
    let Shared { cells, output, .. } = shared;
    answer(alloc, code, &cells, output, end)
}
