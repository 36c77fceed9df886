//! What a plan claims of pairs of references.

ghost use Rattle.std.specs.Prelude.{◌≡◌, ◌==◌, ◌&&◌, ◌+◌, ◌*◌, ◌++◌, IfSome, List, Some};
ghost use Rattle.std.specs.Prelude.{if◌then◌else◌, true, ℕ};
ghost use Rattle.dependence.specs.Related.{relations as relations_of};
ghost use Rattle.dependence.specs.Runs.{relation_at, run as run_of, runs as runs_of};
ghost use Rattle.dependence.specs.declared.relation.Relation.{Relation};
ghost use Rattle.plan_check.specs.Checking.{claimed};
ghost use Rattle.plan_check.specs.ClaimsView.{IsOrdered, claim_in};
ghost use Rattle.plan_check.specs.Claiming as spec;

use ast::RefId;
use dependence::{Relation, Relations, Run};

/// What is claimed.
#[derive(Clone, Copy)]
pub struct Claims<'a> {
    relations: &'a Relations,
    /// Whether the claims are in order, and so each pair has one.
    ordered: bool,
}

/// Where the next claim is looked for first.
#[derive(Drop)]
pub struct Cursor {
    run: usize,
    place: u32,
}

/// The number behind the last of the others of a run.
fn end(run: &Run) -> usize
    ensures { result ≡ spec.end run.now }
{
    if run.count == 0 {
        return run.second as usize;
    }
    run.second as usize + run.step as usize * (run.count - 1) as usize + 1
}

/// Whether the pairs of a run are behind those before a pair.
fn is_behind(first: u32, second: usize, run: &Run) -> bool
    ensures { result ≡ spec.is_behind first second run.now }
{
    (first < run.first || (first == run.first && second <= run.second as usize)) && 1 <= run.step
}

/// Whether runs are in order, by the first reference and then the second.
fn ascend(runs: &[Run]) -> bool
    ensures { result ≡ spec.ascend 0 0 runs.now }
{
    let mut first = 0;
    let mut second = 0;
    for run in runs {
        if !is_behind(first, second, run) {
            return false;
        }
        first = run.first;
        second = end(run);
    }
    true
}

/// Whether the pair at a place of a run is this one.
fn is_at(run: &Run, place: u32, first: usize, second: usize) -> bool
    ensures { result ≡ ((run.now.first == first)
        && (run.now.second + run.now.step * place == second)) }
{
    let pair = run.pair(place);
    pair.0.0 == first && pair.1.0 == second
}

/// Whether a run has a pair.
fn has(run: &Run, first: usize, second: usize) -> bool
    ensures { (different : List Relation) (rest : List (ℕ × ℕ × Relation))
        → claimed (run_of different run.now ++ rest) first second
        ≡ (if result then Some (relation_at different run.now.relation) else claimed rest first
        second) }
{
    if run.first as usize != first {
        return false;
    }
    let mut place = 0;
    while place < run.count {
        if is_at(run, place, first, second) {
            return true;
        }
        place += 1;
    }
    false
}

/// The relation of a pair by the first run that has it.
fn scan(relations: &Relations, runs: &[Run], first: usize, second: usize) -> Option<Relation>
    ensures { result ≡ claimed (runs_of relations.now.different.items runs.now) first second }
{
    for run in runs {
        if has(run, first, second) {
            return Some(relations.relation(run));
        }
    }
    None
}

/// The relation of a pair at a place of runs in order, if it stands there.
fn at(
    relations: &Relations,
    runs: &[Run],
    run: usize,
    place: u32,
    first: usize,
    second: usize,
) -> Option<Relation>
    requires { spec.ascend 0 0 runs.now ≡ true }
    ensures { IfSome result (λ r.
        claimed (runs_of relations.now.different.items runs.now) first second ≡ Some r) }
{
    if run >= runs.len() {
        return None;
    }
    let one = runs[run];
    if place >= one.count || !is_at(&one, place, first, second) {
        return None;
    }
    Some(relations.relation(&one))
}

/// The claims of a plan.
pub fn claims_of(relations: &Relations) -> Claims<'_>
    ensures claims { (a b : ℕ) → claim_in result a b ≡ claimed (relations_of relations.now) a b }
    ensures ordered { IsOrdered result }
{
    Claims {
        relations,
        ordered: ascend(&relations.runs),
    }
}

impl Cursor {
    /// Before all claims.
    pub fn new() -> Cursor {
        Cursor { run: 0, place: 0 }
    }

    /// Goes on by a claim.
    fn step(&mut self, runs: &[Run]) {
        self.place = self.place.saturating_add(1);
        if self.run < runs.len() && self.place >= runs[self.run].count {
            self.run = self.run.saturating_add(1);
            self.place = 0;
        }
    }
}

impl Claims<'_> {
    ghost use Rattle.std.specs.Prelude.{◌≡◌};
    ghost use Rattle.plan_check.specs.ClaimsView.{IsOrdered, claim_in};

    /// What is claimed of a reference in an iteration and one in a later iteration: by the claim
    /// that the cursor is at, behind which it is then, where that is one of the pair.
    pub fn find(&self, cursor: &mut Cursor, first: RefId, second: RefId) -> Option<Relation>
        requires { IsOrdered self.now }
        ensures { result ≡ claim_in self.now first.0 second.0 }
    {
        let relations = self.relations;
        let runs = &relations.runs;
        if self.ordered {
            let found = at(relations, runs, cursor.run, cursor.place, first.0, second.0);
            if let Some(relation) = found {
                cursor.step(runs);
                return Some(relation);
            }
        }
        scan(relations, runs, first.0, second.0)
    }
}
