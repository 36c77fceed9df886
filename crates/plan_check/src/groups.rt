//! References by their variables.

ghost use Rattle.std.specs.Prelude.{◌≡◌, ◌<◌, ◌==◌, ◌&&◌, ◌||◌, IfOk, OnOk, false, length, map};
ghost use Rattle.std.specs.Prelude.{true, ℕ};
ghost use Rattle.loop_tree.specs.View.{occurrence as occurrence_of};
ghost use Rattle.plan_check.specs.EntryView.{entry as entry_of};
ghost use Rattle.plan_check.specs.Grouping.{at_cell, chosen, row_at, with_place};
ghost use Rattle.plan_check.specs.GroupsView.{groups as rows_of};

use crate::entry::Entry;
use loop_tree::Occurrence;
use std::alloc::{AllocError, Global};

/// The places of references by the cells of their variables.
#[derive(Drop)]
struct Groups {
    rows: Vec<Vec<usize>>,
}

/// Has a row for each cell up to one.
fn lengthen(alloc: Global, groups: &mut Groups, cell: usize) -> Result<(), AllocError>
    ensures same { OnOk result ((c : ℕ) → row_at (rows_of groups.new) c
        ≡ row_at (rows_of groups.old) c) }
    ensures long { OnOk result (cell < length groups.new.rows.items) }
{
    while groups.rows.len() <= cell {
        groups.rows.push(Vec::new(alloc))?;
    }
    Ok(())
}

/// Adds a place to a row.
fn add(groups: &mut Groups, cell: usize, place: usize) -> Result<(), AllocError>
    requires { cell < length groups.old.rows.items }
    ensures { OnOk result ((c : ℕ) → row_at (rows_of groups.new) c
        ≡ with_place (c == cell) place (row_at (rows_of groups.old) c)) }
{
    groups.rows[cell].push(place)?;
    Ok(())
}

/// Adds the place of a reference, if it is wanted.
fn join(
    alloc: Global,
    groups: &mut Groups,
    wanted: bool,
    cell: usize,
    place: usize,
) -> Result<(), AllocError>
    ensures { OnOk result ((c : ℕ) → row_at (rows_of groups.new) c
        ≡ with_place (wanted && (c == cell)) place (row_at (rows_of groups.old) c)) }
{
    if !wanted {
        return Ok(());
    }
    lengthen(alloc, groups, cell)?;
    add(groups, cell, place)
}

/// Whether all references are wanted, or this one gives its variable a value.
fn is_wanted(all: bool, occurrence: &Occurrence<'_>) -> bool
    ensures { result ≡ all || (occurrence_of occurrence.now).defines }
{
    all || occurrence.defines
}

/// The groups of all references, or of those that give their variables values.
fn groups_of(alloc: Global, entries: &[Entry<'_, '_>], all: bool) -> Result<Groups, AllocError>
    ensures { IfOk result (λ groups. (c : ℕ)
        → chosen (map entry_of entries.now) (row_at (rows_of groups) c)
        ≡ at_cell all c (map entry_of entries.now)) }
{
    let mut groups = Groups {
        rows: Vec::new(alloc),
    };
    for place in 0..entries.len() {
        let occurrence = entries[place].occurrence;
        join(
            alloc,
            &mut groups,
            is_wanted(all, occurrence),
            occurrence.reference.cell,
            place,
        )?;
    }
    Ok(groups)
}

/// The references that each is judged with.
#[derive(Drop)]
pub struct Partners {
    all: Groups,
    /// Of those that give their variables values.
    defining: Groups,
}

/// The partners of references.
///
/// # Errors
///
/// `AllocError` where memory is refused.
pub fn partners_of(alloc: Global, entries: &[Entry<'_, '_>]) -> Result<Partners, AllocError>
    ensures all { IfOk result (λ p. (c : ℕ)
        → chosen (map entry_of entries.now) (row_at (rows_of p.all) c)
        ≡ at_cell true c (map entry_of entries.now)) }
    ensures defining { IfOk result (λ p. (c : ℕ)
        → chosen (map entry_of entries.now) (row_at (rows_of p.defining) c)
        ≡ at_cell false c (map entry_of entries.now)) }
{
    Ok(Partners {
        all: groups_of(alloc, entries, true)?,
        defining: groups_of(alloc, entries, false)?,
    })
}

impl Partners {
    ghost use Rattle.std.specs.Prelude.{◌≡◌};
    ghost use Rattle.loop_tree.specs.View.{occurrence as occurrence_of};
    ghost use Rattle.plan_check.specs.Grouping.{row_for};
    ghost use Rattle.plan_check.specs.GroupsView.{groups as rows_of};

    /// The places of those that a reference is judged with: two that only use a variable are no
    /// pair.
    pub fn of(&self, first: &Occurrence<'_>) -> &[usize]
        ensures { result.now ≡ row_for (rows_of self.now.all) (rows_of self.now.defining)
            (occurrence_of first.now) }
    {
        if first.defines {
            self.all.row(first.reference.cell)
        } else {
            self.defining.row(first.reference.cell)
        }
    }
}

impl Groups {
    ghost use Rattle.std.specs.Prelude.{◌≡◌};
    ghost use Rattle.plan_check.specs.Grouping.{row_at};
    ghost use Rattle.plan_check.specs.GroupsView.{groups as rows_of};

    /// Those of a cell.
    fn row(&self, cell: usize) -> &[usize]
        ensures { result.now ≡ row_at (rows_of self.now) cell }
    {
        if cell >= self.rows.len() {
            return &[];
        }
        &self.rows[cell]
    }
}
