//! Relations of pairs of references.

ghost use Rattle.std.proofs.Props.{props};
ghost use Rattle.std.specs.Prelude.{◌≡◌, ◌<◌, ◌≤◌, ◌++◌, [], ◌∷◌, IfOk, IfSome, List, length, true};
ghost use Rattle.dependence.specs.Runs.{are_numbered, relation_at, runs};
ghost use Rattle.dependence.specs.declared.run.Run.{Run};

use crate::relation::Relation;
use crate::run::{Run, put};
use ast::RefId;
use std::alloc::{AllocError, Global};

/// So many of the newest relations are asked whether they are one that is added.
const ASKED: usize = 8;

/// Relations of pairs, in order: of a reference in an iteration, and of one in a later iteration.
pub struct Relations {
    pub runs: Vec<Run>,
    /// The relations that runs name by their numbers, from 0.
    pub different: Vec<Relation>,
    ghost numbered: { are_numbered (length different.items) runs.items ≡ true } by { Prim.hlevel props },
}

impl Drop for Relations {
    fn drop(self) {
        let Relations {
            runs: _,
            different: _,
        } = self;
    }
}

/// A number in 32 bits. One beyond these is want of memory: so many references have no place.
fn narrow(number: usize) -> Result<u32, AllocError>
    ensures { IfOk result (λ narrow. narrow ≡ number) }
{
    match u32::try_from(number) {
        Ok(number) => Ok(number),
        Err(_) => Err(AllocError),
    }
}

/// The number of a relation, if it is one of the newest.
fn recent_number(different: &[Relation], relation: Relation) -> Option<usize>
    ensures number { IfSome result (λ n. relation_at different.now n ≡ relation) }
    ensures inside { IfSome result (λ n. n < length different.now) }
{
    for number in different.len().saturating_sub(ASKED)..different.len() {
        if different[number] == relation {
            return Some(number);
        }
    }
    None
}

/// The number of a relation, which is added where it isn't one of the newest.
fn number_of(different: &mut Vec<Relation>, relation: Relation) -> Result<u32, AllocError>
    ensures kept { (rs : List Run) → are_numbered (length different.old.items) rs ≡ true
        → runs different.new.items rs ≡ runs different.old.items rs }
    ensures more { length different.old.items ≤ length different.new.items }
    ensures number { IfOk result (λ n. relation_at different.new.items n ≡ relation) }
    ensures inside { IfOk result (λ n. n < length different.new.items) }
{
    if let Some(number) = recent_number(different, relation) {
        return narrow(number);
    }
    let number = narrow(different.len())?;
    different.push(relation)?;
    Ok(number)
}

impl Relations {
    ghost use Rattle.std.specs.Prelude.{◌≡◌, ◌++◌, [], ◌∷◌, OnErr, OnOk};
    ghost use Rattle.dependence.specs.Related.{relations};
    ghost use Rattle.dependence.specs.Runs.{relation_at};

    /// No relations.
    pub fn new(alloc: Global) -> Relations
        ensures { relations result ≡ [] }
    {
        Relations {
            runs: Vec::new(alloc),
            different: Vec::new(alloc),
        }
    }

    /// The relation of a run's pairs.
    pub fn relation(&self, run: &Run) -> Relation
        ensures { result ≡ relation_at self.now.different.items run.now.relation }
    {
        match self.different.get(run.relation as usize) {
            Some(relation) => *relation,
            None => Relation::Any,
        }
    }

    /// Adds the relation of a pair behind the others. Where memory is refused they stay as they
    /// were.
    #[tactic(auto, using(crate::proofs::Runs::still_numbered))]
    pub fn push(
        &mut self,
        first: RefId,
        second: RefId,
        relation: Relation,
    ) -> Result<(), AllocError>
        ensures ok { OnOk result (relations self.new ≡ relations self.old
            ++ (first.0, second.0, relation) ∷ []) }
        ensures err { OnErr result (relations self.new ≡ relations self.old) }
    {
        let first = narrow(first.0)?;
        let second = narrow(second.0)?;
        let relation = number_of(&mut self.different, relation)?;
        put(&mut self.runs, first, second, relation)
    }
}
