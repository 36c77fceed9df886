//! Steps of what processors hold, in its own place.

ghost use Rattle.std.specs.Prelude.{◌≡◌, ◌≤◌, IfSome, Some, length, option_map, true};
ghost use Rattle.machine.specs.CodeView.{code_of};
ghost use Rattle.machine.specs.FrameView.{frame_of};
ghost use Rattle.stretches.specs.Reached.{AreReached, passed_by};
ghost use Rattle.stretches.specs.Stretches.{Leads};
ghost use Rattle.activities.specs.PartsView.{standing_of};
ghost use Rattle.activities.specs.Sharing.{StrodeAt};

use crate::holding::{Activities, Holder};
use crate::parts::Iteration;
use crate::told::{Counts, Told};
use ec_kernel::Kernel;
use machine::{Code, Frame};
use stretches::{Stale, Stretch, stride_noting};

/// Local instructions, loads and stores, one after another, at most `n`, of what stands in a
/// place; how many.
fn stride_at(
    code: &Code,
    place: &mut Option<Iteration>,
    cells: &mut Vec<i64>,
    kernel: &Kernel,
    stale: &mut Stale,
    n: u32,
) -> u32
    requires counts { length kernel.now.counts ≡ 65 }
    ensures made { IfSome (option_map standing_of place.old) (λ a.
        StrodeAt (code_of code.now) kernel.now.counts result cells.old.items a cells.new.items
        (option_map standing_of place.new)) }
    ensures few { result ≤ n }
    ensures cells { length cells.new.items ≡ length cells.old.items }
{
    match place {
        Some(iteration) => {
            let told = Told::Counts(Counts {
                kernel,
                number: iteration.number,
            });
            stride_noting(code, &mut iteration.frame, cells, stale, &told, n)
        }
        None => 0,
    }
}

/// The steps of a stretch are made of a frame, if it is right; how many.
fn commit_on(frame: &mut Frame, cells: &mut Vec<i64>, stretch: &mut Stretch<'_>) -> u32
    ensures made { Leads (passed_by stretch.old.reached) (code_of stretch.old.code.now) result
        (frame_of frame.old) cells.old.items (frame_of frame.new) cells.new.items }
    ensures few { result ≤ stretch.old.made }
    ensures cells { length cells.new.items ≡ length cells.old.items }
    ensures code { code_of stretch.new.code.now ≡ code_of stretch.old.code.now }
{
    stretch.commit(frame, cells.as_mut_slice())
}

/// Whether all counts that were seen are reached.
fn are_reached(seen: &[u128], kernel: &Kernel) -> bool
    requires counts { length kernel.now.counts ≡ 65 }
    ensures { result ≡ true → AreReached seen.now kernel.now.counts }
{
    let mut event = 0;
    while event < seen.len() {
        if event > 64 || seen[event] > kernel.read(event) {
            return false;
        }
        event += 1;
    }
    true
}

/// The same of an iteration, where it is the stretch's and the counts that the stretch saw are
/// reached.
#[inline(always)]
pub fn commit_to(
    iteration: &mut Iteration,
    cells: &mut Vec<i64>,
    kernel: &Kernel,
    stretch: &mut Stretch<'_>,
) -> u32
    requires counts { length kernel.now.counts ≡ 65 }
    ensures made { StrodeAt (code_of stretch.old.code.now) kernel.now.counts result
        cells.old.items (standing_of iteration.old) cells.new.items
        (Some (standing_of iteration.new)) }
    ensures few { result ≤ stretch.old.made }
    ensures cells { length cells.new.items ≡ length cells.old.items }
    ensures code { code_of stretch.new.code.now ≡ code_of stretch.old.code.now }
{
    let seen = &stretch.reached;
    if seen.number != iteration.number || !are_reached(&seen.counts, kernel) {
        return 0;
    }
    commit_on(&mut iteration.frame, cells, stretch)
}

/// The same of what stands in a place.
fn commit_at(
    place: &mut Option<Iteration>,
    cells: &mut Vec<i64>,
    kernel: &Kernel,
    stretch: &mut Stretch<'_>,
) -> u32
    requires counts { length kernel.now.counts ≡ 65 }
    ensures made { IfSome (option_map standing_of place.old) (λ a.
        StrodeAt (code_of stretch.old.code.now) kernel.now.counts result cells.old.items a
        cells.new.items (option_map standing_of place.new)) }
    ensures few { result ≤ stretch.old.made }
    ensures cells { length cells.new.items ≡ length cells.old.items }
    ensures code { code_of stretch.new.code.now ≡ code_of stretch.old.code.now }
{
    match place {
        Some(iteration) => commit_to(iteration, cells, kernel, stretch),
        None => 0,
    }
}

impl<'c> Activities<'c> {
    ghost use Rattle.std.specs.Prelude.{◌≡◌, ◌≤◌, ◌<◌, None, Some, length};
    ghost use Rattle.machine.specs.CodeView.{code_of};
    ghost use Rattle.machine.specs.State.{iteration, the_main};
    ghost use Rattle.activities.specs.Activities.{AreActivities, Stays, code_in, kept_in, point_in};
    ghost use Rattle.activities.specs.Along.{GoesAlong};
    ghost use Rattle.activities.specs.Parts.{held_of};
    ghost use Rattle.activities.specs.Points.{Steps};

    /// Local instructions, loads and stores of main, one after another, which processor `q`
    /// holds, at most `n`; how many.
    fn stride_main(&mut self, q: usize, n: u32, stale: &mut Stale) -> u32
        requires stand { AreActivities self.old }
        requires going { self.old.shared.ended ≡ None }
        requires holds { held_of (kept_in self.old).held q ≡ Some the_main }
        ensures made { Steps (code_in self.old) self.old.slots result (point_in self.old) q
            (point_in self.new) }
        ensures along { GoesAlong self.old q result self.new }
        ensures few { result ≤ n }
        ensures stand { AreActivities self.new }
        ensures stays { Stays self.old self.new }
    {
        stride_noting(
            self.code,
            &mut self.main.frame,
            &mut self.shared.cells,
            stale,
            &Told::Nothing,
            n,
        )
    }

    /// The same of iteration `k`, which processor `q` holds, and which may stand in this place.
    fn stride_iteration(
        &mut self,
        q: usize,
        k: u128,
        place: usize,
        n: u32,
        stale: &mut Stale,
    ) -> u32
        requires stand { AreActivities self.old }
        requires going { self.old.shared.ended ≡ None }
        requires holds { held_of (kept_in self.old).held q ≡ Some (iteration k) }
        ensures made { Steps (code_in self.old) self.old.slots result (point_in self.old) q
            (point_in self.new) }
        ensures along { GoesAlong self.old q result self.new }
        ensures few { result ≤ n }
        ensures stand { AreActivities self.new }
        ensures stays { Stays self.old self.new }
    {
        let at = self.place_from(k, place);
        stride_at(
            self.code,
            &mut self.iterations[at],
            &mut self.shared.cells,
            &self.shared.kernel,
            stale,
            n,
        )
    }

    /// Local instructions, loads and stores of what processor `q` holds, one after another, at
    /// most `n`, in its own place; how many.
    fn stride_alone(&mut self, q: usize, n: u32, stale: &mut Stale) -> u32
        requires stand { AreActivities self.old }
        requires processor { q < length self.old.held.items }
        ensures made { Steps (code_in self.old) self.old.slots result (point_in self.old) q
            (point_in self.new) }
        ensures along { GoesAlong self.old q result self.new }
        ensures few { result ≤ n }
        ensures stand { AreActivities self.new }
        ensures stays { Stays self.old self.new }
    {
        if self.shared.ended.is_some() {
            return 0;
        }
        match self.held[q] {
            None => 0,
            Some(Holder::Main) => self.stride_main(q, n, stale),
            Some(Holder::Iteration { number, place }) => {
                self.stride_iteration(q, number, place, n, stale)
            }
        }
    }

    /// What an iteration that processor `q` holds awaits or advances, or its retirement, or, where
    /// none of these stands next, strides; how many steps, at most `n`.
    #[inline(always)]
    pub(crate) fn next_steps(&mut self, q: usize, n: u32, stale: &mut Stale) -> u32
        requires stand { AreActivities self.old }
        requires processor { q < length self.old.held.items }
        requires some { 0 < n }
        ensures made { Steps (code_in self.old) self.old.slots result (point_in self.old) q
            (point_in self.new) }
        ensures few { result ≤ n }
        ensures stand { AreActivities self.new }
        ensures stays { Stays self.old self.new }
    {
        if self.synchronize(q) {
            return 1;
        }
        self.stride_alone(q, n, stale)
    }

    /// The steps of a stretch are made of iteration `k`, which processor `q` holds, and which may
    /// stand in this place, if the stretch is right; how many.
    fn commit_iteration(
        &mut self,
        q: usize,
        k: u128,
        place: usize,
        stretch: &mut Stretch<'_>,
    ) -> u32
        requires stand { AreActivities self.old }
        requires going { self.old.shared.ended ≡ None }
        requires own { code_of stretch.old.code.now ≡ code_in self.old }
        requires holds { held_of (kept_in self.old).held q ≡ Some (iteration k) }
        ensures made { Steps (code_in self.old) self.old.slots result (point_in self.old) q
            (point_in self.new) }
        ensures few { result ≤ stretch.old.made }
        ensures stand { AreActivities self.new }
        ensures stays { Stays self.old self.new }
        ensures code { code_of stretch.new.code.now ≡ code_of stretch.old.code.now }
    {
        let at = self.place_from(k, place);
        commit_at(
            &mut self.iterations[at],
            &mut self.shared.cells,
            &self.shared.kernel,
            stretch,
        )
    }

    /// Writes the counts of events, from event 0 on, as far as there are some and there is room,
    /// for those who are to pass awaits by them. No clause says that they are right: `commit`
    /// compares them.
    pub fn see_counts(&self, seen: &mut [u128])
        requires stand { AreActivities self.now }
    {
        for event in 0..seen.len().min(65) {
            seen[event] = self.shared.kernel.read(event);
        }
    }

    /// The steps of a stretch of the same code are made of the iteration that processor `q` holds,
    /// where it is in the frame from which they lead, all that was guessed is right, and the counts
    /// that were seen are reached; how many. Else nothing changes.
    pub fn commit(&mut self, q: usize, stretch: &mut Stretch<'_>) -> u32
        requires stand { AreActivities self.old }
        requires processor { q < length self.old.held.items }
        requires own { code_of stretch.old.code.now ≡ code_in self.old }
        ensures made { Steps (code_in self.old) self.old.slots result (point_in self.old) q
            (point_in self.new) }
        ensures few { result ≤ stretch.old.made }
        ensures stand { AreActivities self.new }
        ensures stays { Stays self.old self.new }
        ensures code { code_of stretch.new.code.now ≡ code_of stretch.old.code.now }
    {
        if self.shared.ended.is_some() {
            return 0;
        }
        match self.held[q] {
            None | Some(Holder::Main) => 0,
            Some(Holder::Iteration { number, place }) => {
                self.commit_iteration(q, number, place, stretch)
            }
        }
    }

    /// Local instructions, loads and stores of what processor `q` holds, one after another, at
    /// most `n`, in its own place; how many. Where the code alone tells the kinds of so many, no
    /// await is among them.
    pub fn stride(&mut self, q: usize, n: u32) -> u32
        requires stand { AreActivities self.old }
        requires processor { q < length self.old.held.items }
        ensures along { GoesAlong self.old q result self.new }
        ensures few { result ≤ n }
        ensures stand { AreActivities self.new }
        ensures stays { Stays self.old self.new }
    {
        let mut stale = Stale::nothing(*self.shared.cells.allocator());
        self.stride_alone(q, n, &mut stale)
    }
}
