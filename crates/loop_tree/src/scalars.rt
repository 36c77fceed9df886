//! Sets of scalars.

ghost use Rattle.std.specs.Prelude.{◌≡◌, ◌<◌, ◌||◌, ◌==◌, OnOk, length, map, ℕ};
ghost use Rattle.ast.specs.View.{ref};
ghost use Rattle.loop_tree.specs.Loops.{has_cell};
ghost use Rattle.loop_tree.specs.Marks.{mark_at};
ghost use Rattle.std.proofs.Props.{props};

use ast::{Name, Reference};
use std::alloc::{AllocError, Global};

/// Scalars by their names, each once.
#[derive(Drop)]
pub struct ScalarSet {
    /// In the order of their first definitions.
    pub names: Vec<Name>,
}

/// The scalars of a range, each once; they are told by their cells.
#[derive(Drop)]
pub struct Scalars {
    /// A reference to each, in the order in which they came.
    list: Vec<Reference>,
    /// Whether the scalar of a cell is among them; those beyond the end aren't.
    marks: Vec<bool>,
    ghost marked: { (c : ℕ) → mark_at marks.items c ≡ has_cell c (map ref list.items) } by { Prim.hlevel props },
}

/// Whether a cell is marked.
pub fn is_marked(marks: &[bool], cell: usize) -> bool
    ensures { result ≡ mark_at marks.now cell }
{
    if cell < marks.len() {
        marks[cell]
    } else {
        false
    }
}

/// Has a mark for each cell up to one.
fn lengthen(marks: &mut Vec<bool>, cell: usize) -> Result<(), AllocError>
    ensures same { (c : ℕ) → mark_at marks.new.items c ≡ mark_at marks.old.items c }
    ensures long { OnOk result (cell < length marks.new.items) }
{
    while marks.len() <= cell {
        marks.push(false)?;
    }
    Ok(())
}

/// Marks a cell.
fn set(marks: &mut Vec<bool>, cell: usize)
    requires { cell < length marks.old.items }
    ensures { (c : ℕ) → mark_at marks.new.items c ≡ (c == cell || mark_at marks.old.items c) }
{
    marks[cell] = true;
}

impl Scalars {
    ghost use Rattle.std.specs.Prelude.{◌≡◌, ◌<◌, [], OnErr, OnOk, map, true, ℕ};
    ghost use Rattle.ast.specs.View.{ref};
    ghost use Rattle.loop_tree.specs.Loops.{has_cell, with_scalar};
    ghost use Rattle.loop_tree.specs.ScalarsView.{scalars};

    /// None yet.
    pub fn new(alloc: Global) -> Scalars
        ensures { scalars result ≡ [] }
    {
        Scalars {
            list: Vec::new(alloc),
            marks: Vec::new(alloc),
        }
    }

    /// A reference to each, in the order in which they came.
    pub fn list(&self) -> &[Reference]
        ensures { map ref result.now ≡ scalars self.now }
    {
        &self.list
    }

    /// Whether the scalar of a cell is among them.
    pub fn contains(&self, cell: usize) -> bool
        ensures { result ≡ has_cell cell (scalars self.now) }
    {
        is_marked(&self.marks, cell)
    }

    /// A number that is greater than the cell of each.
    #[tactic(auto, using(crate::proofs::Marked::all_within))]
    pub fn cells(&self) -> usize
        ensures { (c : ℕ) → has_cell c (scalars self.now) ≡ true → c < result }
    {
        self.marks.len()
    }

    /// Adds a scalar, unless it is among them. Where memory is refused they stay as they were.
    pub fn add(&mut self, reference: Reference) -> Result<(), AllocError>
        ensures ok { OnOk result (scalars self.new
            ≡ with_scalar (scalars self.old) (ref reference)) }
        ensures err { OnErr result (scalars self.new ≡ scalars self.old) }
    {
        if self.contains(reference.cell) {
            return Ok(());
        }
        self.list.reserve(1)?;
        lengthen(&mut self.marks, reference.cell)?;
        set(&mut self.marks, reference.cell);
        self.list.push(reference)?;
        Ok(())
    }
}
