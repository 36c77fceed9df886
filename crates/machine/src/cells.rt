//! Numbers of cells.

ghost use Rattle.std.specs.Prelude.{◌≡◌, ◌<◌, ◌^◌, ◌+◌, Some};
ghost use Rattle.machine.specs.Laid.{cell_number};

use crate::code::{Code, Variable};

/// The number of a variable's cell at a place, if it has one there.
fn number_in(variable: &Variable, place: i64) -> Option<usize>
    requires { variable.now.start + variable.now.size < 2 ^ 62 }
    ensures { result ≡ cell_number (Some variable.now) place }
{
    if place < 0 {
        return None;
    }
    let place = place as usize;
    if place < variable.size {
        Some(variable.start + place)
    } else {
        None
    }
}

impl Code {
    ghost use Rattle.std.specs.Prelude.{◌≡◌, slice_get};
    ghost use Rattle.machine.specs.Laid.{cell_number, count_of};

    /// The number of a variable's cell at a place, if it has one there.
    pub fn cell(&self, variable: u32, place: i64) -> Option<usize>
        ensures { result ≡ cell_number (slice_get self.now.variables.items variable) place }
    {
        self.cell_at(variable as usize, place)
    }

    /// The number of a cell of the variable that stands at this place of the code's variables, if
    /// there is one.
    #[tactic(auto, using(crate::proofs::Lying::few_cells))]
    pub fn cell_at(&self, variable: usize, place: i64) -> Option<usize>
        ensures { result ≡ cell_number (slice_get self.now.variables.items variable) place }
    {
        if variable < self.variables.len() {
            number_in(&self.variables[variable], place)
        } else {
            None
        }
    }

    /// How many cells a store of it has.
    #[tactic(auto, using(crate::proofs::Naming::last_of, crate::proofs::Naming::none_counted, crate::proofs::Lying::few_cells))]
    pub fn cells(&self) -> usize
        ensures { result ≡ count_of self.now.variables.items }
    {
        let variables = self.variables.as_slice();
        if variables.is_empty() {
            return 0;
        }
        let last = variables[variables.len() - 1];
        last.start + last.size
    }
}
