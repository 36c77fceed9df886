//! Where a walk over a plan's body begins, and what it answers.

ghost use Rattle.std.specs.Prelude.{◌≡◌, ◌+◌, IfOk, map, max};
ghost use Rattle.ast.specs.View.{ref};
ghost use Rattle.loop_tree.specs.TreeView.{seen as shown};
ghost use Rattle.plan_check.specs.Checking.{cells_from, cells_of, first};
ghost use Rattle.plan_check.specs.GivenView.{given};
ghost use Rattle.plan_check.specs.KnownView.{known as known_of};
ghost use Rattle.plan_check.specs.SeenView.{seen as seen_of};
ghost use Rattle.plan_check.specs.Walked.{known_over, seen_over};

use crate::given::Given;
use crate::known::Known;
use crate::seen::Seen;
use crate::walk::pass_block;
use ast::{MOST_EVENTS, Reference};
use loop_tree::LoopView;
use std::alloc::{AllocError, Global};

/// What is known at the end of a walk, and what it has noted.
#[derive(Drop)]
pub struct Walked {
    pub known: Known,
    pub seen: Seen,
}

/// A number of cells that holds one more. One that no `usize` holds is want of memory: so many
/// cells have no place.
fn beyond(cells: usize, cell: usize) -> Result<usize, AllocError>
    ensures { IfOk result (λ count. count ≡ max cells (cell + 1)) }
{
    match cell.checked_add(1) {
        Some(next) => Ok(cells.max(next)),
        None => Err(AllocError),
    }
}

/// One more than the greatest cell of scalars.
fn count_cells(scalars: &[Reference]) -> Result<usize, AllocError>
    ensures { IfOk result (λ count. count ≡ cells_from 0 (map ref scalars.now)) }
{
    let mut count = 0;
    for scalar in scalars {
        count = beyond(count, scalar.cell)?;
    }
    Ok(count)
}

/// What is known at the beginning of the plan's body, of events up to 64.
fn begin(alloc: Global, view: &LoopView<'_, '_>) -> Result<Known, AllocError>
    ensures { IfOk result (λ known. known_of known ≡ first (cells_of (shown view.now))) }
{
    let cells = count_cells(view.assigned())?;
    Known::beginning(alloc, cells, MOST_EVENTS + 1)
}

/// Walks over a plan's body.
///
/// # Errors
///
/// `AllocError` where memory is refused.
pub fn walk_over(
    alloc: Global,
    view: &LoopView<'_, '_>,
    plan: &Given<'_>,
) -> Result<Walked, AllocError>
    ensures known { IfOk result (λ w. known_of w.known
        ≡ known_over (shown view.now) (given plan.now)) }
    ensures seen { IfOk result (λ w. seen_of w.seen ≡ seen_over (shown view.now) (given plan.now)) }
{
    let mut known = begin(alloc, view)?;
    let mut seen = Seen::new(alloc);
    pass_block(alloc, &mut known, &mut seen, plan.privates, plan.body)?;
    Ok(Walked { known, seen })
}
