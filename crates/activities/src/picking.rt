//! What processors that hold nothing take up.

ghost use Rattle.std.specs.Prelude.{◌≡◌, ◌+◌, ◌<◌, IfOk, IfSome, None, Some, false, length};
ghost use Rattle.std.specs.Prelude.{option_map, true};
ghost use Rattle.ast.specs.Exact.{fits};
ghost use Rattle.ec_kernel.specs.View.{IsKernel};
ghost use Rattle.machine.specs.CodeView.{code_of};
ghost use Rattle.machine.specs.FrameView.{frame_of};
ghost use Rattle.machine.specs.View.{begin, index_at};
ghost use Rattle.activities.specs.Parts.{numbered, wait_in};
ghost use Rattle.activities.specs.PartsView.{standing_of, wait};
ghost use Rattle.activities.specs.Picking.{IsCounted, begun, is_due, no_longer_ready, unparked};
ghost use Rattle.activities.specs.Waiting.{Stands};

use crate::holding::{Activities, Choice, Holder};
use crate::main_turn::variable_and_step;
use crate::parts::{Iteration, Until};
use crate::values_at::value_after;
use ec_kernel::Kernel;
use machine::{Code, Frame, Open};
use std::alloc::{AllocError, Global};

/// Whether what an activity is parked on, if it is, has been reached.
fn is_due(kernel: &Kernel, until: Option<Until>) -> bool
    requires zero { 0 < length kernel.now.counts }
    requires counted { IsCounted kernel.now (option_map wait until) }
    ensures { result ≡ is_due kernel.now (option_map wait until) }
{
    match until {
        None => false,
        Some(Until::Count { event, value }) => value <= kernel.read(event as usize),
        Some(Until::Retired { value }) => value <= kernel.read(0),
    }
}

/// Whether iteration `k` stands in this place and slot, and what it is parked on has been reached.
fn stands_ready(kernel: &Kernel, place: &Option<Iteration>, slot: usize, k: u128) -> bool
    requires zero { 0 < length kernel.now.counts }
    requires stands { Stands kernel.now slot (wait_in (option_map standing_of place.now)) }
    ensures { result ≡ is_due kernel.now (wait_in (numbered k (option_map standing_of place.now))) }
{
    match place {
        Some(iteration) => iteration.number == k && is_due(kernel, iteration.wait),
        None => false,
    }
}

/// Iteration `k` is taken up where it stands in this place and slot, and what it is parked on has
/// been reached.
fn take_up(kernel: &mut Kernel, place: &mut Option<Iteration>, slot: usize, k: u128) -> bool
    requires zero { 0 < length kernel.old.counts }
    requires stands { Stands kernel.old slot (wait_in (option_map standing_of place.old)) }
    ensures due { result ≡ is_due kernel.old
        (wait_in (numbered k (option_map standing_of place.old))) }
    ensures taken { result ≡ true → (kernel.new ≡ no_longer_ready slot kernel.old)
        × (option_map standing_of place.new
        ≡ option_map unparked (option_map standing_of place.old)) × IsKernel kernel.new }
    ensures same { result ≡ false → (kernel.new ≡ kernel.old)
        × (option_map standing_of place.new ≡ option_map standing_of place.old) }
{
    let Some(iteration) = place else {
        return false;
    };
    if iteration.number != k || !is_due(kernel, iteration.wait) {
        return false;
    }
    kernel.take_ready(slot);
    iteration.wait = None;
    true
}

/// The value of an open loop's variable in iteration `k`; `None` where it isn't a 64-bit integer.
pub fn index_of(code: &Code, opened: Open, k: u128) -> Option<i64>
    ensures some { IfSome result (λ index. index ≡ index_at (code_of code.now) opened k) }
    ensures none { result ≡ None → fits (index_at (code_of code.now) opened k) ≡ false }
{
    let (_, step) = variable_and_step(code, opened.number);
    value_after(opened.first, k, step).ok()
}

/// The value of an open loop's variable in an iteration.
fn index_in(code: &Code, opened: Open, k: u128) -> i64
    requires { fits (index_at (code_of code.now) opened k) ≡ true }
    ensures { result ≡ index_at (code_of code.now) opened k }
{
    match index_of(code, opened, k) {
        Some(index) => index,
        None => unreachable!(),
    }
}

/// A new frame of iteration `k` of an open loop as it begins.
// Out of line, since its caller would clear room for a frame at each ticket.
#[inline(never)]
fn new_frame(
    alloc: Global,
    code: &Code,
    opened: Open,
    k: u128,
    index: i64,
) -> Result<Box<Frame>, AllocError>
    requires { index ≡ index_at (code_of code.now) opened k }
    ensures { IfOk result (λ b. frame_of b.value ≡ begin (code_of code.now) opened k) }
{
    let frame = Frame::begin(alloc, code, opened, k, index)?;
    Ok(Box::new(alloc, frame)?)
}

/// The frame of iteration `k` of an open loop as it begins, in the room of a spare one where there
/// is one.
#[inline(always)]
fn first_frame(
    spare: &mut Vec<Box<Frame>>,
    code: &Code,
    opened: Open,
    k: u128,
) -> Result<Box<Frame>, AllocError>
    requires { fits (index_at (code_of code.now) opened k) ≡ true }
    ensures { IfOk result (λ b. frame_of b.value ≡ begin (code_of code.now) opened k) }
{
    let index = index_in(code, opened, k);
    match spare.pop() {
        Some(mut frame) => {
            frame.restart(code, opened, k, index)?;
            Ok(frame)
        }
        None => new_frame(*spare.allocator(), code, opened, k, index),
    }
}

/// Iteration `k` of an open loop as it begins.
#[inline(always)]
pub fn begin(
    spare: &mut Vec<Box<Frame>>,
    code: &Code,
    opened: Open,
    k: u128,
) -> Result<Iteration, AllocError>
    requires { fits (index_at (code_of code.now) opened k) ≡ true }
    ensures { IfOk result (λ a. standing_of a ≡ begun (code_of code.now) opened k) }
{
    let frame = first_frame(spare, code, opened, k)?;
    Ok(Iteration {
        number: k,
        frame,
        out: Vec::new(*spare.allocator()),
        wait: None,
    })
}

impl<'c> Activities<'c> {
    ghost use Rattle.std.specs.Prelude.{◌≡◌, ◌<◌, ◌+◌, ◌-◌, ◌^◌, ℕ, IfOk, OnErr, None, Some};
    ghost use Rattle.std.specs.Prelude.{get_or, is_none, length, ◌&&◌, nat_lt, true};
    ghost use Rattle.activities.specs.Parts.{Standing};
    ghost use Rattle.ec_kernel.specs.View.{count_at};
    ghost use Rattle.machine.specs.State.{Choice as PlainChoice, take_iteration, take_main};
    ghost use Rattle.machine.specs.State.{take_ticket};
    ghost use Rattle.activities.specs.Activities.{AreActivities, Did, Stays, chosen, code_in};
    ghost use Rattle.activities.specs.Activities.{kept_in, point_in};
    ghost use Rattle.activities.specs.Least.{IsLeast, IsLeastReady, IsReached, IsReady, has_ticket};
    ghost use Rattle.activities.specs.Parts.{held_of};
    ghost use Rattle.activities.specs.Points.{ByRule, Picks, Point};
    ghost use Rattle.std.specs.Bool.{Decides};

    /// Whether processor `q` holds nothing.
    pub(crate) fn is_free(&self, q: usize) -> bool
        requires processor { q < length self.now.held.items }
        ensures { result ≡ is_none (held_of (kept_in self.now).held q) }
    {
        match self.held[q] {
            None => true,
            Some(_) => false,
        }
    }

    /// Processor `q` takes up main.
    fn pick_main(&mut self, q: usize) -> bool
        requires stand { AreActivities self.old }
        requires processor { q < length self.old.held.items }
        requires going { self.old.shared.ended ≡ None }
        requires idle { held_of (kept_in self.old).held q ≡ None }
        ensures did { Did result (λ a b.
            Picks (code_in self.old) self.old.slots take_main a q b) self.old self.new }
        ensures stand { AreActivities self.new }
        ensures stays { Stays self.old self.new }
    {
        if !is_due(&self.shared.kernel, self.main.wait) {
            return false;
        }
        self.shared.kernel.take_ready(0);
        self.main.wait = None;
        self.held[q] = Some(Holder::Main);
        true
    }

    /// Processor `q` takes up iteration `k`.
    fn pick_iteration(&mut self, q: usize, k: u128) -> bool
        requires stand { AreActivities self.old }
        requires processor { q < length self.old.held.items }
        requires going { self.old.shared.ended ≡ None }
        requires idle { held_of (kept_in self.old).held q ≡ None }
        ensures did { Did result (λ a b.
            Picks (code_in self.old) self.old.slots (take_iteration k) a q b) self.old self.new }
        ensures stand { AreActivities self.new }
        ensures stays { Stays self.old self.new }
    {
        let at = self.place_of(k);
        if !take_up(&mut self.shared.kernel, &mut self.iterations[at], at + 1, k) {
            return false;
        }
        self.held[q] = Some(Holder::Iteration {
            number: k,
            place: at,
        });
        true
    }

    /// Whether the next iteration of an open loop may begin.
    pub(crate) fn has_ticket(&self, opened: Open) -> bool
        requires counts { 0 < length self.now.shared.kernel.counts }
        ensures may { result ≡ nat_lt self.now.shared.kernel.ticket opened.trips
            && nat_lt self.now.shared.kernel.ticket
            (count_at self.now.shared.kernel 0 + self.now.slots) }
        ensures few { result ≡ true → self.now.shared.kernel.ticket < 2 ^ 128 - 1 }
    {
        let k = self.shared.kernel.next_ticket();
        let retired = self.shared.kernel.read(0);
        k < opened.trips && (k < retired || k - retired < self.slots as u128)
    }

    /// Processor `q` takes the next ticket.
    // Out of line, since its caller would clear room for an iteration at each other step.
    #[inline(never)]
    fn take_ticket(&mut self, q: usize) -> Result<bool, AllocError>
        requires stand { AreActivities self.old }
        requires processor { q < length self.old.held.items }
        requires going { self.old.shared.ended ≡ None }
        requires idle { held_of (kept_in self.old).held q ≡ None }
        ensures did { IfOk result (λ did.
            Did did (λ a b. Picks (code_in self.old) self.old.slots take_ticket a q b) self.old
            self.new) }
        ensures err { OnErr result (kept_in self.new ≡ kept_in self.old) }
        ensures stand { AreActivities self.new }
        ensures stays { Stays self.old self.new }
    {
        let Some(opened) = self.shared.open else {
            return Ok(false);
        };
        if !self.has_ticket(opened) {
            return Ok(false);
        }
        let next = self.shared.kernel.next_ticket();
        let iteration = begin(&mut self.shared.spare, self.code, opened, next)?;
        let k = self.shared.kernel.ticket();
        let at = self.place_of(k);
        self.iterations[at] = Some(iteration);
        self.held[q] = Some(Holder::Iteration {
            number: k,
            place: at,
        });
        Ok(true)
    }

    /// Processor `q`, which holds nothing, takes this up. Where it can't it answers false, and
    /// nothing changes, as where memory is refused.
    pub fn pick(&mut self, q: usize, choice: Choice) -> Result<bool, AllocError>
        requires stand { AreActivities self.old }
        requires processor { q < length self.old.held.items }
        ensures did { IfOk result (λ did.
            Did did (λ a b. Picks (code_in self.old) self.old.slots (chosen choice) a q b) self.old
            self.new) }
        ensures err { OnErr result (kept_in self.new ≡ kept_in self.old) }
        ensures stand { AreActivities self.new }
        ensures stays { Stays self.old self.new }
    {
        if self.shared.ended.is_some() || !self.is_free(q) {
            return Ok(false);
        }
        match choice {
            Choice::Main => Ok(self.pick_main(q)),
            Choice::Iteration(k) => Ok(self.pick_iteration(q, k)),
            Choice::Ticket => self.take_ticket(q),
        }
    }

    /// The number of the iteration that stands in a place; 0 where there is none.
    fn number_at(&self, at: usize) -> u128
        requires { at < length self.now.iterations.items }
        ensures { (a : Standing) → get_or (kept_in self.now).iterations at None ≡ Some a → result
            ≡ a.number }
    {
        match &self.iterations[at] {
            Some(iteration) => iteration.number,
            None => 0,
        }
    }

    /// What a processor that holds nothing takes up by the rule: who became ready first, and a
    /// ticket only where nobody is ready. Nothing else that the rule allows can be taken up.
    pub fn choice(&self) -> Choice
        requires stand { AreActivities self.now }
        ensures rule { ByRule self.now.slots (point_in self.now).order (chosen result) }
        ensures only { (c : PlainChoice) (q : ℕ) (b : Point)
            → ByRule self.now.slots (point_in self.now).order c
            → Picks (code_in self.now) self.now.slots c (point_in self.now) q b → c
            ≡ chosen result }
    {
        match self.shared.kernel.first_ready() {
            None => Choice::Ticket,
            Some(0) => Choice::Main,
            Some(slot) => Choice::Iteration(self.number_at(slot - 1)),
        }
    }

    /// Whether the next iteration of the open loop, if one is open, may begin.
    pub fn may_begin(&self) -> bool
        requires stand { AreActivities self.now }
        ensures { result ≡ has_ticket self.now.slots (point_in self.now).machine }
    {
        match self.shared.open {
            Some(opened) => self.has_ticket(opened),
            None => false,
        }
    }

    /// How many iterations are open.
    pub fn overlap(&self) -> u128
        requires stand { AreActivities self.now }
        ensures { result ≡ (point_in self.now).machine.ticket -
            (point_in self.now).machine.retired }
    {
        self.shared.kernel.next_ticket() - self.shared.kernel.read(0)
    }

    /// Whether iteration `k` is parked, and what it waits for has been reached.
    fn is_ready(&self, k: u128) -> bool
        requires stand { AreActivities self.now }
        ensures { Decides result (IsReady (point_in self.now).machine k) }
    {
        let at = self.place_of(k);
        stands_ready(&self.shared.kernel, &self.iterations[at], at + 1, k)
    }

    /// Whether main is parked, and what it waits for has been reached.
    fn main_is_ready(&self) -> bool
        requires stand { AreActivities self.now }
        ensures { Decides result
            (IsReached (point_in self.now).machine (point_in self.now).machine.waiting) }
    {
        is_due(&self.shared.kernel, self.main.wait)
    }

    /// The least iteration that is ready. The walk is as long as iterations are open before it.
    fn least_ready(&self) -> Option<u128>
        requires stand { AreActivities self.now }
        ensures { IsLeastReady (point_in self.now).machine result }
    {
        let mut k = self.shared.kernel.read(0);
        while k < self.shared.kernel.next_ticket() {
            if self.is_ready(k) {
                return Some(k);
            }
            k += 1;
        }
        None
    }

    /// What a processor that holds nothing takes up so that iterations retire early: main where it
    /// is ready, else the least iteration that is, and a ticket only where nothing is ready.
    pub fn least(&self) -> Choice
        requires stand { AreActivities self.now }
        ensures { IsLeast (point_in self.now).machine (chosen result) }
    {
        if self.shared.kernel.first_ready().is_none() {
            return Choice::Ticket;
        }
        if self.main_is_ready() {
            return Choice::Main;
        }
        match self.least_ready() {
            Some(k) => Choice::Iteration(k),
            None => Choice::Ticket,
        }
    }
}
