//! Shared steps of what processors hold.

ghost use Rattle.std.specs.Prelude.{◌≡◌, ◌+◌, ◌<◌, List, Option, None, Some, IfOk, IfSome, OnErr};
ghost use Rattle.std.specs.Prelude.{get_or, length, map, option_map, pos, true};
ghost use Rattle.ast.specs.Exact.{fits};
ghost use Rattle.machine.specs.CodeView.{code_of};
ghost use Rattle.machine.specs.FrameView.{frame_of};
ghost use Rattle.machine.specs.Next.{Tells};
ghost use Rattle.machine.specs.State.{Who};
ghost use Rattle.machine.specs.View.{view};
ghost use Rattle.machine.specs.declared.code.Open.{Open};
ghost use Rattle.machine.specs.declared.next.Next.TheVariants.{Opens};
ghost use Rattle.activities.specs.Core.{HaveIndices};
ghost use Rattle.activities.specs.MainTurns.{MayLead, after_of, kept_of, main_part};
ghost use Rattle.activities.specs.PartsView.{shared_of, standing_of};
ghost use Rattle.activities.specs.Sharing.{Led, Turned};
ghost use Rattle.activities.specs.Turns.{May, none_open, staying};

use crate::holding::{Activities, Holder};
use crate::main_turn::main_turn;
use crate::parts::{Iteration, Main, Shared};
use crate::turn::{Outcome, advance, await_event, iteration_turn, retire};
use machine::{Code, Frame, Next, stands_next, synchronization};
use std::alloc::AllocError;

/// Whether no iteration is open.
fn none_open(iterations: &[Option<Iteration>]) -> bool
    ensures { result ≡ none_open (map (λ o. option_map standing_of o) iterations.now) }
{
    for iteration in iterations {
        if iteration.is_some() {
            return false;
        }
    }
    true
}

/// An operand, by how many lie above it; 0 where there is none.
fn operand(frame: &Frame, above: usize) -> i64
    ensures value { get_or (frame_of frame.now).operands.items above (pos 0) ≡ result }
    ensures fits { fits result ≡ true }
{
    let operands = frame.operands();
    if above < operands.len() {
        operands[above]
    } else {
        0
    }
}

/// Whether a loop is to be opened, and may be. In each of its iterations its variable has a 64-bit
/// integer.
fn may_open(code: &Code, frame: &Frame, next: Next<'_>, iterations: &[Option<Iteration>]) -> bool
    requires told { Tells (code_of code.now) (frame_of frame.now)
        (view (code_of code.now) (frame_of frame.now)) next }
    ensures opens { (l : Open) → next.entry ≡ Opens l → result
        ≡ none_open (map (λ o. option_map standing_of o) iterations.now) }
    ensures only { result ≡ true → none_open (map (λ o. option_map standing_of o) iterations.now)
        ≡ true }
    ensures indices { (l : Open) → next.entry ≡ Opens l → HaveIndices (code_of code.now) (Some l) }
{
    match next {
        Next::Opens(_) => {
            // Its contract says that the operand is a 64-bit integer: so are the loop's parameters.
            let _last = operand(frame, 0);
            let _first = operand(frame, 1);
            none_open(iterations)
        }
        _ => false,
    }
}

/// Nothing stands in a place any more. What stood there leaves its frame; where that finds no room
/// it is dropped.
// Out of line, since its caller would clear room for an iteration at each other step.
#[inline(never)]
fn clear(place: &mut Option<Iteration>, spare: &mut Vec<Box<Frame>>)
    ensures { place.new ≡ None }
{
    if let Some(iteration) = place.take() {
        keep(iteration, spare);
    }
}

/// The frame of an iteration is left to those that begin later; where it finds no room it is
/// dropped.
#[inline(always)]
pub fn keep(iteration: Iteration, spare: &mut Vec<Box<Frame>>) {
    let Iteration { frame, .. } = iteration;
    let _ = spare.push(frame);
}

/// An iteration, in this slot, makes the step that stands next. Where memory is refused nothing
/// changes.
fn step_of(
    shared: &mut Shared,
    iteration: &mut Iteration,
    slot: usize,
    code: &Code,
) -> Result<Outcome, AllocError>
    requires may { May (code_of code.now) slot (shared_of shared.old) (standing_of iteration.old) }
    ensures ok { IfOk result (λ o.
        Turned (code_of code.now) slot (shared_of shared.old) (standing_of iteration.old) o
        (shared_of shared.new) (staying o (standing_of iteration.new))) }
    ensures err { OnErr result ((shared_of shared.new ≡ shared_of shared.old)
        × (standing_of iteration.new ≡ standing_of iteration.old)) }
{
    let next = stands_next(code, &iteration.frame);
    iteration_turn(shared, iteration, slot, code, next)
}

/// What stands in a place, in this slot, makes the step that stands next. Where memory is refused
/// nothing changes.
fn step_at(
    shared: &mut Shared,
    place: &mut Option<Iteration>,
    slot: usize,
    code: &Code,
) -> Result<Outcome, AllocError>
    requires may { IfSome (option_map standing_of place.old) (λ a.
        May (code_of code.now) slot (shared_of shared.old) a) }
    ensures ok { IfOk result (λ o.
        IfSome (option_map standing_of place.old)
        (λ a. Turned (code_of code.now) slot (shared_of shared.old) a o (shared_of shared.new)
        (option_map standing_of place.new))) }
    ensures err { OnErr result ((shared_of shared.new ≡ shared_of shared.old)
        × (option_map standing_of place.new ≡ option_map standing_of place.old)) }
{
    let outcome = match place {
        Some(iteration) => step_of(shared, iteration, slot, code)?,
        None => return Ok(Outcome::Idle),
    };
    if outcome != Outcome::Leaves {
        return Ok(outcome);
    }
    clear(place, &mut shared.spare);
    Ok(Outcome::Leaves)
}

/// An iteration, in this slot, makes the await, the advance or the retirement that stands next.
/// Where none does, or memory is refused, nothing changes.
#[inline(always)]
pub fn synchronize(
    shared: &mut Shared,
    iteration: &mut Iteration,
    slot: usize,
    code: &Code,
) -> Option<Outcome>
    requires may { May (code_of code.now) slot (shared_of shared.old) (standing_of iteration.old) }
    ensures some { IfSome result (λ o.
        Turned (code_of code.now) slot (shared_of shared.old) (standing_of iteration.old) o
        (shared_of shared.new) (staying o (standing_of iteration.new))) }
    ensures shared { result ≡ None → shared_of shared.new ≡ shared_of shared.old }
    ensures iteration { result ≡ None → standing_of iteration.new ≡ standing_of iteration.old }
{
    let next = synchronization(code, &iteration.frame)?;
    match next {
        Next::Await { event, distance } => {
            Some(await_event(shared, iteration, slot, event, distance))
        }
        Next::Advance { event } => Some(advance(shared, iteration, event)),
        Next::Retire { number } => retire(shared, iteration, slot, code, number).ok(),
        _ => None,
    }
}

/// The same of what stands in a place, in this slot.
fn synchronize_at(
    shared: &mut Shared,
    place: &mut Option<Iteration>,
    slot: usize,
    code: &Code,
) -> Option<Outcome>
    requires may { IfSome (option_map standing_of place.old) (λ a.
        May (code_of code.now) slot (shared_of shared.old) a) }
    ensures some { IfSome result (λ o.
        IfSome (option_map standing_of place.old)
        (λ a. Turned (code_of code.now) slot (shared_of shared.old) a o (shared_of shared.new)
        (option_map standing_of place.new))) }
    ensures shared { result ≡ None → shared_of shared.new ≡ shared_of shared.old }
    ensures place { result ≡ None → option_map standing_of place.new
        ≡ option_map standing_of place.old }
{
    let outcome = match place {
        Some(iteration) => synchronize(shared, iteration, slot, code)?,
        None => return None,
    };
    if outcome == Outcome::Leaves {
        clear(place, &mut shared.spare);
    }
    Some(outcome)
}

/// Main makes the step that stands next. Where memory is refused nothing changes.
fn lead(
    shared: &mut Shared,
    main: &mut Main<'_>,
    iterations: &[Option<Iteration>],
    code: &Code,
) -> Result<Outcome, AllocError>
    requires may { MayLead (code_of code.now) (shared_of shared.old)
        (none_open (map (λ o. option_map standing_of o) iterations.now)) }
    ensures ok { IfOk result (λ o. (hs : List (Option Who))
        → Led (code_of code.now)
        (kept_of (shared_of shared.old) (main_part main.old)
        (map (λ o. option_map standing_of o) iterations.now) hs)
        (after_of o (shared_of shared.new) (main_part main.new))) }
    ensures err { OnErr result ((shared_of shared.new ≡ shared_of shared.old)
        × (main_part main.new ≡ main_part main.old)) }
{
    let next = stands_next(code, &main.frame);
    let none = may_open(code, &main.frame, next, iterations);
    main_turn(shared, main, none, code, next)
}

impl<'c> Activities<'c> {
    ghost use Rattle.std.specs.Prelude.{◌≡◌, ◌<◌, ◌%◌, true, false, IfOk, OnErr, None, Some};
    ghost use Rattle.std.specs.Prelude.{length};
    ghost use Rattle.machine.specs.State.{iteration, the_main};
    ghost use Rattle.activities.specs.Activities.{AreActivities, Did, Stays, code_in, kept_in};
    ghost use Rattle.activities.specs.Activities.{point_in};
    ghost use Rattle.activities.specs.Parts.{held_of};
    ghost use Rattle.activities.specs.Points.{Moves};
    ghost use Rattle.activities.specs.Sharing.{went};
    ghost use Rattle.activities.specs.Turns.{held_after};

    /// Processor `q` has made a step that came to this; whether there was one.
    fn note(&mut self, q: usize, outcome: Outcome) -> bool
        requires processor { q < length self.old.held.items }
        ensures kept { kept_in self.new
            ≡ record (kept_in self.old) { held = held_after outcome q (kept_in self.old).held } }
        ensures went { result ≡ went outcome }
        ensures stays { Stays self.old self.new }
    {
        match outcome {
            Outcome::Idle => false,
            Outcome::Stays | Outcome::Ends => true,
            Outcome::Parks | Outcome::Leaves => {
                self.held[q] = None;
                true
            }
        }
    }

    /// Where iteration `k` stands.
    pub fn place_of(&self, k: u128) -> usize
        requires { 0 < self.now.slots }
        ensures { result ≡ k % self.now.slots }
    {
        // A division of 128 bits takes ten times as long.
        match u64::try_from(k) {
            Ok(short) => (short % self.slots as u64) as usize,
            Err(_) => (k % self.slots as u128) as usize,
        }
    }

    /// Whether iteration `k` stands in a place.
    fn stands_at(&self, k: u128, place: usize) -> bool
        requires stand { AreActivities self.now }
        ensures { result ≡ true → place ≡ k % self.now.slots }
    {
        if place >= self.iterations.len() {
            return false;
        }
        match &self.iterations[place] {
            Some(iteration) => iteration.number == k,
            None => false,
        }
    }

    /// Where iteration `k` stands. A place in which it may stand is looked at first: a division
    /// takes longer.
    pub(crate) fn place_from(&self, k: u128, place: usize) -> usize
        requires stand { AreActivities self.now }
        ensures { result ≡ k % self.now.slots }
    {
        if self.stands_at(k, place) {
            return place;
        }
        self.place_of(k)
    }

    /// The shared step of main, which processor `q` holds.
    fn share_main(&mut self, q: usize) -> Result<bool, AllocError>
        requires stand { AreActivities self.old }
        requires processor { q < length self.old.held.items }
        requires going { self.old.shared.ended ≡ None }
        requires holds { held_of (kept_in self.old).held q ≡ Some the_main }
        ensures did { IfOk result (λ did.
            Did did (λ a b. Moves (code_in self.old) self.old.slots false a q b) self.old
            self.new) }
        ensures err { OnErr result (kept_in self.new ≡ kept_in self.old) }
        ensures stand { AreActivities self.new }
        ensures stays { Stays self.old self.new }
    {
        let outcome = lead(
            &mut self.shared,
            &mut self.main,
            &self.iterations,
            self.code,
        )?;
        Ok(self.note(q, outcome))
    }

    /// The shared step of iteration `k`, which processor `q` holds, and which may stand in this
    /// place.
    fn share_iteration(&mut self, q: usize, k: u128, place: usize) -> Result<bool, AllocError>
        requires stand { AreActivities self.old }
        requires processor { q < length self.old.held.items }
        requires going { self.old.shared.ended ≡ None }
        requires holds { held_of (kept_in self.old).held q ≡ Some (iteration k) }
        ensures did { IfOk result (λ did.
            Did did (λ a b. Moves (code_in self.old) self.old.slots false a q b) self.old
            self.new) }
        ensures err { OnErr result (kept_in self.new ≡ kept_in self.old) }
        ensures stand { AreActivities self.new }
        ensures stays { Stays self.old self.new }
    {
        let at = self.place_from(k, place);
        let outcome = step_at(
            &mut self.shared,
            &mut self.iterations[at],
            at + 1,
            self.code,
        )?;
        Ok(self.note(q, outcome))
    }

    /// The await, the advance or the retirement of iteration `k`, which processor `q` holds, and
    /// which may stand in this place. Where none stands next, or memory is refused, nothing
    /// changes.
    fn synchronize_iteration(&mut self, q: usize, k: u128, place: usize) -> bool
        requires stand { AreActivities self.old }
        requires processor { q < length self.old.held.items }
        requires going { self.old.shared.ended ≡ None }
        requires holds { held_of (kept_in self.old).held q ≡ Some (iteration k) }
        ensures did { result ≡ true → Moves (code_in self.old) self.old.slots false
            (point_in self.old) q (point_in self.new) }
        ensures same { result ≡ false → kept_in self.new ≡ kept_in self.old }
        ensures stand { AreActivities self.new }
        ensures stays { Stays self.old self.new }
    {
        let at = self.place_from(k, place);
        match synchronize_at(
            &mut self.shared,
            &mut self.iterations[at],
            at + 1,
            self.code,
        ) {
            Some(outcome) => self.note(q, outcome),
            None => false,
        }
    }

    /// The await, the advance or the retirement of an iteration that processor `q` holds. Where
    /// none stands next, or memory is refused, it answers false, and nothing changes.
    pub(crate) fn synchronize(&mut self, q: usize) -> bool
        requires stand { AreActivities self.old }
        requires processor { q < length self.old.held.items }
        ensures did { result ≡ true → Moves (code_in self.old) self.old.slots false
            (point_in self.old) q (point_in self.new) }
        ensures same { result ≡ false → kept_in self.new ≡ kept_in self.old }
        ensures stand { AreActivities self.new }
        ensures stays { Stays self.old self.new }
    {
        if self.shared.ended.is_some() {
            return false;
        }
        match self.held[q] {
            Some(Holder::Iteration { number, place }) => {
                self.synchronize_iteration(q, number, place)
            }
            None | Some(Holder::Main) => false,
        }
    }

    /// The shared step of what processor `q` holds. Where there is none it answers false, and
    /// nothing changes, as where memory is refused.
    pub fn share(&mut self, q: usize) -> Result<bool, AllocError>
        requires stand { AreActivities self.old }
        requires processor { q < length self.old.held.items }
        ensures did { IfOk result (λ did.
            Did did (λ a b. Moves (code_in self.old) self.old.slots false a q b) self.old
            self.new) }
        ensures err { OnErr result (kept_in self.new ≡ kept_in self.old) }
        ensures stand { AreActivities self.new }
        ensures stays { Stays self.old self.new }
    {
        if self.shared.ended.is_some() {
            return Ok(false);
        }
        match self.held[q] {
            None => Ok(false),
            Some(Holder::Main) => self.share_main(q),
            Some(Holder::Iteration { number, place }) => self.share_iteration(q, number, place),
        }
    }
}
