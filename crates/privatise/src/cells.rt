//! What paths have done with each scalar, in a list by their cells.

ghost use Rattle.std.specs.Prelude.{◌≡◌};
ghost use Rattle.privatise.specs.Cells as spec;

use crate::walk::Walk;

/// What they have done with the scalar of a cell. One beyond the list counts as used early.
pub fn walk_at(walks: &[Walk], cell: usize) -> Walk
    ensures { result ≡ spec.walk_at walks.now cell }
{
    if cell < walks.len() {
        walks[cell]
    } else {
        Walk::Early
    }
}

/// They go on, and do this with the scalar of a cell.
pub fn go_on(walks: &mut [Walk], cell: usize, walk: Walk)
    ensures { walks.new ≡ spec.gone_on walks.old cell walk }
{
    if cell < walks.len() {
        walks[cell] = walks[cell].and_after(walk);
    }
}

/// None of them goes on.
pub fn stop(walks: &mut [Walk])
    ensures { walks.new ≡ spec.stopped walks.old }
{
    let mut cell = 0;
    while cell < walks.len() {
        walks[cell] = walks[cell].and_after(Walk::Defined);
        cell += 1;
    }
}

/// Other paths come to where they have come.
pub fn join(walks: &mut [Walk], others: &[Walk])
    ensures { walks.new ≡ spec.joined walks.old others.now }
{
    let mut cell = 0;
    while cell < walks.len() {
        walks[cell] = walks[cell].or(walk_at(others, cell));
        cell += 1;
    }
}
