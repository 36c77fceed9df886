//! Local instructions of what processors hold.

ghost use Rattle.std.specs.Prelude.{◌≡◌, ◌≤◌, IfSome, option_map};
ghost use Rattle.machine.specs.CodeView.{code_of};
ghost use Rattle.machine.specs.FrameView.{frame_of};
ghost use Rattle.activities.specs.PartsView.{standing_of};
ghost use Rattle.activities.specs.Putting.{HasGot};
ghost use Rattle.activities.specs.Sharing.{MadeAt, WorkedAt, Working};

use crate::holding::{Activities, Holder};
use crate::parts::Iteration;
use machine::{Code, Frame, local};
use std::mem::swap;

/// So many local instructions; false where there aren't so many, and then it has made those that
/// there are.
fn work_on(code: &Code, frame: &mut Frame, n: u32) -> bool
    ensures { Working (code_of code.now).instructions n result (frame_of frame.old)
        (frame_of frame.new) }
{
    local(code, frame, n).made == n
}

/// The same of what stands in a place.
fn work_at(code: &Code, place: &mut Option<Iteration>, n: u32) -> bool
    ensures { IfSome (option_map standing_of place.old) (λ a.
        WorkedAt (code_of code.now).instructions n result a (option_map standing_of place.new)) }
{
    match place {
        Some(iteration) => work_on(code, &mut iteration.frame, n),
        None => false,
    }
}

/// As many local instructions as stand next, at most `n`, of what stands in a place; how many.
fn labour_at(code: &Code, place: &mut Option<Iteration>, n: u32) -> u32
    ensures made { IfSome (option_map standing_of place.old) (λ a.
        MadeAt (code_of code.now).instructions n result a (option_map standing_of place.new)) }
    ensures few { result ≤ n }
{
    match place {
        Some(iteration) => local(code, &mut iteration.frame, n).made,
        None => 0,
    }
}

/// What stands in a place gets a frame, and gives its own for it.
fn put_at(place: &mut Option<Iteration>, to: &mut Frame)
    ensures { HasGot (frame_of to.old) place.old place.new }
{
    if let Some(iteration) = place {
        swap(&mut *iteration.frame, to);
    }
}

impl<'c> Activities<'c> {
    ghost use Rattle.std.specs.Prelude.{◌≡◌, ◌≤◌, ◌<◌, None, Some, length, true, false};
    ghost use Rattle.machine.specs.FrameView.{frame_of};
    ghost use Rattle.machine.specs.State.{iteration};
    ghost use Rattle.activities.specs.Activities.{AreActivities, Stays, code_in, kept_in, point_in};
    ghost use Rattle.activities.specs.Parts.{held_of};
    ghost use Rattle.activities.specs.Putting.{PutsOn};
    ghost use Rattle.activities.specs.Points.{NoLocal, Point, Works};

    /// `n` local instructions of iteration `k`, which processor `q` holds, and which may stand in
    /// this place.
    fn work_iteration(&mut self, q: usize, k: u128, place: usize, n: u32) -> bool
        requires stand { AreActivities self.old }
        requires going { self.old.shared.ended ≡ None }
        requires holds { held_of (kept_in self.old).held q ≡ Some (iteration k) }
        ensures went { result ≡ true
            → Works (code_in self.old) self.old.slots n (point_in self.old) q (point_in self.new) }
        ensures fails { result ≡ false → (b : Point)
            → Works (code_in self.old) self.old.slots n (point_in self.old) q b → ⊥ }
        ensures stand { AreActivities self.new }
        ensures stays { Stays self.old self.new }
    {
        let at = self.place_from(k, place);
        work_at(self.code, &mut self.iterations[at], n)
    }

    /// `n` local instructions of what processor `q` holds; false where it can't make so many, and
    /// then it has made those that it can.
    pub fn work(&mut self, q: usize, n: u32) -> bool
        requires stand { AreActivities self.old }
        requires processor { q < length self.old.held.items }
        requires some { 1 ≤ n }
        ensures went { result ≡ true
            → Works (code_in self.old) self.old.slots n (point_in self.old) q (point_in self.new) }
        ensures fails { result ≡ false → (b : Point)
            → Works (code_in self.old) self.old.slots n (point_in self.old) q b → ⊥ }
        ensures stand { AreActivities self.new }
        ensures stays { Stays self.old self.new }
    {
        if self.shared.ended.is_some() {
            return false;
        }
        match self.held[q] {
            None => false,
            Some(Holder::Main) => work_on(self.code, &mut self.main.frame, n),
            Some(Holder::Iteration { number, place }) => self.work_iteration(q, number, place, n),
        }
    }

    /// As many local instructions as stand next of iteration `k`, at most `n`, which processor `q`
    /// holds, and which may stand in this place; how many.
    fn labour_iteration(&mut self, q: usize, k: u128, place: usize, n: u32) -> u32
        requires stand { AreActivities self.old }
        requires going { self.old.shared.ended ≡ None }
        requires holds { held_of (kept_in self.old).held q ≡ Some (iteration k) }
        ensures made { Works (code_in self.old) self.old.slots result (point_in self.old) q
            (point_in self.new) }
        ensures all { result < n → NoLocal (code_in self.old) self.old.slots (point_in self.new) q }
        ensures few { result ≤ n }
        ensures stand { AreActivities self.new }
        ensures stays { Stays self.old self.new }
    {
        let at = self.place_from(k, place);
        labour_at(self.code, &mut self.iterations[at], n)
    }

    /// As many local instructions as stand next of what processor `q` holds, at most `n`, in its
    /// own place; how many. It takes no memory.
    pub fn labour(&mut self, q: usize, n: u32) -> u32
        requires stand { AreActivities self.old }
        requires processor { q < length self.old.held.items }
        ensures made { Works (code_in self.old) self.old.slots result (point_in self.old) q
            (point_in self.new) }
        ensures all { result < n → NoLocal (code_in self.old) self.old.slots (point_in self.new) q }
        ensures few { result ≤ n }
        ensures stand { AreActivities self.new }
        ensures stays { Stays self.old self.new }
    {
        if self.shared.ended.is_some() {
            return 0;
        }
        match self.held[q] {
            None => 0,
            Some(Holder::Main) => local(self.code, &mut self.main.frame, n).made,
            Some(Holder::Iteration { number, place }) => self.labour_iteration(q, number, place, n),
        }
    }

    /// Iteration `k`, which processor `q` holds, and which may stand in this place, gets the frame
    /// to which local instructions of its own lead, and gives its own for it.
    fn put_iteration(&mut self, q: usize, k: u128, place: usize, to: &mut Frame)
        requires stand { AreActivities self.old }
        requires going { self.old.shared.ended ≡ None }
        requires holds { held_of (kept_in self.old).held q ≡ Some (iteration k) }
        ensures works { PutsOn self.old q (frame_of to.old) self.new }
        ensures stand { AreActivities self.new }
        ensures stays { Stays self.old self.new }
    {
        let at = self.place_from(k, place);
        put_at(&mut self.iterations[at], to);
    }

    /// What processor `q` holds gets the frame to which local instructions of its own lead, and
    /// gives its own for it.
    pub fn put(&mut self, q: usize, to: &mut Frame)
        requires stand { AreActivities self.old }
        requires processor { q < length self.old.held.items }
        requires going { self.old.shared.ended ≡ None }
        ensures works { PutsOn self.old q (frame_of to.old) self.new }
        ensures stand { AreActivities self.new }
        ensures stays { Stays self.old self.new }
    {
        match self.held[q] {
            None => {}
            Some(Holder::Main) => swap(&mut self.main.frame, to),
            Some(Holder::Iteration { number, place }) => self.put_iteration(q, number, place, to),
        }
    }
}
