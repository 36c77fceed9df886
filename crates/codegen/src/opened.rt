//! The loops that are opened.

ghost use Rattle.std.specs.Prelude.{◌≡◌, IfOk, OnOk, ◌==◌, if◌then◌else◌, Some, ℕ, map};
ghost use Rattle.codegen.specs.OpenedView.{number_of, opens_in};

use ast::RefId;
use std::alloc::{AllocError, Global};
use std::collections::BTreeMap;

/// Which loops are opened: their numbers, by those of their DO variables' references.
#[derive(Drop)]
pub struct Opened {
    numbers: BTreeMap<usize, usize>,
}

/// Adds a loop in front of others.
fn add(opened: &mut Opened, variable: RefId, number: usize) -> Result<(), AllocError>
    ensures { OnOk result ((id : ℕ) → opens_in opened.new id
        ≡ (if variable.0 == id then Some number else opens_in opened.old id)) }
{
    opened.numbers.insert(variable.0, number)?;
    Ok(())
}

impl Opened {
    ghost use Rattle.std.specs.Prelude.{◌≡◌, IfOk, ℕ, map};
    ghost use Rattle.codegen.specs.OpenedView.{number_of, opens_in};

    /// The loops with these DO variables, in the order of their numbers, the first of which is 0.
    pub fn new(alloc: Global, variables: &[RefId]) -> Result<Opened, AllocError>
        ensures { IfOk result (λ opened. (id : ℕ) → opens_in opened id
            ≡ number_of 0 (map (λ v. v.0) variables.now) id) }
    {
        let mut opened = Opened {
            numbers: BTreeMap::new(alloc),
        };
        let mut left = variables.len();
        while left > 0 {
            left -= 1;
            add(&mut opened, variables[left], left)?;
        }
        Ok(opened)
    }

    /// The number of the loop with this DO variable, if it is opened.
    pub fn number(&self, variable: RefId) -> Option<usize>
        ensures { result ≡ opens_in self.now variable.0 }
    {
        self.numbers.get(&variable.0).copied()
    }
}
