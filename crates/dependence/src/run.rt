//! Pairs of references that have one relation.

ghost use Rattle.std.specs.Prelude.{◌≡◌, ◌+◌, ◌*◌, ◌<◌, ◌++◌, [], ◌∷◌, IfSome, List, OnErr, OnOk};
ghost use Rattle.std.specs.Prelude.{true, ℕ};
ghost use Rattle.dependence.specs.Runs.{are_numbered, pair_at, relation_at, run as run_of};
ghost use Rattle.dependence.specs.Runs.{runs as runs_of, stepped};
ghost use Rattle.dependence.specs.declared.relation.Relation.{Relation};

use ast::RefId;
use std::alloc::AllocError;

/// A reference with others that have one relation to it. The numbers of these go up by a step.
#[derive(Clone, Copy)]
pub struct Run {
    pub first: u32,
    /// The number of the first of the others.
    pub second: u32,
    pub step: u32,
    /// How many others there are.
    pub count: u32,
    /// The number of their relation, from 0.
    pub relation: u32,
}

impl Run {
    /// The references of the pair at a place, from 0.
    pub fn pair(&self, place: u32) -> (RefId, RefId)
        ensures { (result.0.0, result.1.0) ≡ pair_at self.now place }
    {
        let second = self.second as usize + self.step as usize * place as usize;
        (RefId(self.first as usize), RefId(second))
    }

    /// The step by which a number is the next of the others, if it is.
    fn step_to(&self, second: u32) -> Option<u32>
        ensures same { IfSome result (λ step. (r : Relation)
            → stepped self.now.first self.now.second step self.now.count r
            ≡ stepped self.now.first self.now.second self.now.step self.now.count r) }
        ensures next { IfSome result (λ step. second ≡ self.now.second + step * self.now.count) }
    {
        if self.count == 1 {
            return second.checked_sub(self.second);
        }
        let next = self.second as u64 + self.step as u64 * self.count as u64;
        if next == second as u64 {
            Some(self.step)
        } else {
            None
        }
    }

    /// Whether it is of a reference and a relation.
    fn is_of(&self, first: u32, relation: u32) -> bool
        ensures first { result ≡ true → self.now.first ≡ first }
        ensures relation { result ≡ true → self.now.relation ≡ relation }
    {
        self.first == first && self.relation == relation
    }

    /// It with a pair more, if that continues it.
    fn longer(&self, first: u32, second: u32, relation: u32) -> Option<Run>
        ensures longer { IfSome result (λ longer. (different : List Relation)
            → run_of different longer ≡ run_of different self.now
            ++ (first, second, relation_at different relation) ∷ []) }
        ensures relation { IfSome result (λ longer. longer.relation ≡ relation) }
    {
        if !self.is_of(first, relation) {
            return None;
        }
        let step = self.step_to(second)?;
        let count = self.count.checked_add(1)?;
        Some(Run {
            first,
            second: self.second,
            step,
            count,
            relation,
        })
    }
}

/// Adds a run of one pair behind others.
fn begin(runs: &mut Vec<Run>, first: u32, second: u32, relation: u32) -> Result<(), AllocError>
    ensures pairs { OnOk result ((different : List Relation) → runs_of different runs.new.items
        ≡ runs_of different runs.old.items ++ (first, second, relation_at different relation)
        ∷ []) }
    ensures err { OnErr result (runs.new.items ≡ runs.old.items) }
    ensures numbered { (n : ℕ) → are_numbered n runs.old.items ≡ true → relation < n
        → are_numbered n runs.new.items ≡ true }
{
    runs.push(Run {
        first,
        second,
        step: 1,
        count: 1,
        relation,
    })?;
    Ok(())
}

/// Adds a pair behind runs.
pub fn put(runs: &mut Vec<Run>, first: u32, second: u32, relation: u32) -> Result<(), AllocError>
    ensures pairs { OnOk result ((different : List Relation) → runs_of different runs.new.items
        ≡ runs_of different runs.old.items ++ (first, second, relation_at different relation)
        ∷ []) }
    ensures err { OnErr result (runs.new.items ≡ runs.old.items) }
    ensures numbered { (n : ℕ) → are_numbered n runs.old.items ≡ true → relation < n
        → are_numbered n runs.new.items ≡ true }
{
    let Some(last) = runs.pop() else {
        return begin(runs, first, second, relation);
    };
    let Some(longer) = last.longer(first, second, relation) else {
        runs.push(last)?;
        return begin(runs, first, second, relation);
    };
    runs.push(longer)?;
    Ok(())
}
