//! The kernel.

ghost use Rattle.std.specs.Prelude.{ℕ, ◌≡◌, ◌<◌, ◌≤◌, ◌+◌, ◌-◌, ◌^◌, ◌++◌, ◌∷◌, [], length, drop};
ghost use Rattle.std.specs.Prelude.{IfOk, IfSome, IsTrue, ◌↔◌};
ghost use Rattle.ready_list.specs.Lists.{IsLinked, list_at, with_list, places_in};
ghost use Rattle.ec_kernel.specs.View.{View, IsKernel, NoWaiter, count_at, places, times};
ghost use Rattle.ec_kernel.specs.View.{new_kernel, parked, wakes, advanced, restarted, first_of};
ghost use Rattle.ec_kernel.specs.View.{without, StandsNowhere};
ghost use Rattle.ec_kernel.specs.Kept.{reached_part, woken, due_of, in_turn};

use ready_list::Links;
use std::alloc::{AllocError, Global};
use std::marker::Model;

/// The list of the slots that have woken.
const READY: usize = 0;

/// The list of the free slots.
const FREE: usize = 1;

/// The list of the waiters of event 0; those of the other events follow.
const WAITERS: usize = 2;

/// Eventcounts, a sequencer and the slots that wait for the eventcounts.
#[derive(Drop)]
pub struct Kernel {
    links: Links,
    counts: Vec<u128>,
    next: u128,
}

impl Model for Kernel {
    ghost use Rattle.ec_kernel.specs.View.{View};

    ghost Value = { View };

    ghost use Rattle.ec_kernel.specs.Kept.{seen, IsKept};

    ghost view = { λ a. seen a.links a.counts.items a.next };

    ghost invariant = { λ a. IsKept a.links a.counts.items };
}

/// The first slot of a list, if the count has reached its value.
fn due(links: &Links, list: usize, count: u128) -> Option<usize>
    requires { list < length links.now.lists }
    ensures { result ≡ due_of count (list_at links.now list) }
{
    match links.front(list) {
        Some((slot, value)) if value <= count => Some(slot),
        _ => None,
    }
}

/// Moves the slots at the front of a list whose values the count has reached to the end of the
/// ready list, in order, and tells how many they are.
fn wake(links: &mut Links, list: usize, count: u128) -> usize
    requires list_in_range { list < length links.old.lists }
    requires not_ready { READY < list }
    requires was_linked { IsLinked links.old }
    ensures number { result ≡ reached_part count (list_at links.old list) }
    ensures lists { links.new ≡ woken links.old list count }
    ensures linked { IsLinked links.new }
{
    let mut woken = 0;
    while let Some(slot) = due(links, list, count) {
        links.pop_front(list);
        links.push_back(READY, slot);
        woken += 1;
    }
    woken
}

/// Puts all slots, which are in no list, into the free list, in order.
fn free_all(links: &mut Links, slots: usize)
    requires all_slots { slots ≡ links.old.slots }
    requires list_in_range { FREE < length links.old.lists }
    requires in_no_list { (slot : ℕ) → places_in slot links.old.lists ≡ 0 }
    requires was_linked { IsLinked links.old }
    ensures lists { links.new ≡ with_list links.old FREE (list_at links.old FREE ++ in_turn slots) }
    ensures linked { IsLinked links.new }
{
    for slot in 0..slots {
        links.push_back(FREE, slot);
    }
}

impl Kernel {
    /// A kernel of so many slots, all of them free, and so many events, whose counts are 0, as the
    /// next ticket is. An error where memory is refused; no other call takes memory.
    pub fn new(alloc: Global, slots: usize, events: usize) -> Result<Kernel, AllocError>
        ensures kernel { IfOk result (λ kernel. kernel ≡ new_kernel slots events) }
        ensures kept { IfOk result IsKernel }
    {
        let counts = vec![in alloc; 0; events]?;
        let mut links = Links::new(alloc, slots, WAITERS + events)?;
        free_all(&mut links, slots);
        Ok(Kernel {
            links,
            counts,
            next: 0,
        })
    }

    /// Sets all counts and the ticket to 0, where nobody waits. The ready list and the free list
    /// stay.
    pub fn reset(&mut self)
        requires { NoWaiter self.old.waiters }
        ensures kernel { self.new ≡ restarted self.old }
        ensures kept { IsKernel self.new }
    {
        self.counts.fill(0);
        self.next = 0;
    }

    /// Draws the next ticket of the sequencer: 0, 1, 2 and so on, each once.
    pub fn ticket(&mut self) -> u128
        requires { self.old.ticket < 2 ^ 128 - 1 }
        ensures ticket { result ≡ self.old.ticket }
        ensures kernel { self.new ≡ record self.old { ticket = self.old.ticket + 1 } }
        ensures kept { IsKernel self.new }
    {
        let ticket = self.next;
        self.next += 1;
        ticket
    }

    /// The ticket that is drawn next.
    pub fn next_ticket(&self) -> u128
        ensures { result ≡ self.now.ticket }
    {
        self.next
    }

    /// The count of an event.
    pub fn read(&self, event: usize) -> u128
        requires { event < length self.now.counts }
        ensures { result ≡ count_at self.now event }
    {
        self.counts[event]
    }

    /// Whether the count of an event has reached a value.
    pub fn reached(&self, event: usize, value: u128) -> bool
        requires { event < length self.now.counts }
        ensures { IsTrue result ↔ value ≤ count_at self.now event }
    {
        self.read(event) >= value
    }

    /// Lets a slot wait until the count of an event is at least `value`, behind all waiters of the
    /// same or a lower value.
    pub fn park(&mut self, event: usize, value: u128, slot: usize)
        requires event_in_range { event < length self.old.counts }
        requires slot_in_range { slot < self.old.slots }
        requires not_reached { count_at self.old event < value }
        requires nowhere { places slot self.old ≡ 0 }
        ensures kernel { self.new ≡ parked self.old event value slot }
        ensures kept { IsKernel self.new }
    {
        self.links.insert_by_value(WAITERS + event, slot, value);
    }

    /// Raises the count of an event by one. The waiters whose values it reaches wake: their slots
    /// go to the end of the ready list, by value and then arrival. Tells how many they are.
    pub fn advance(&mut self, event: usize) -> usize
        requires event_in_range { event < length self.old.counts }
        requires below_greatest { count_at self.old event < 2 ^ 128 - 1 }
        ensures number { result ≡ wakes self.old event }
        ensures kernel { self.new ≡ advanced self.old event }
        ensures kept { IsKernel self.new }
    {
        let count = self.counts[event] + 1;
        self.counts[event] = count;
        wake(&mut self.links, WAITERS + event, count)
    }

    /// The slot that woke first.
    pub fn first_ready(&self) -> Option<usize>
        ensures { result ≡ first_of self.now.ready }
    {
        match self.links.front(READY) {
            Some((slot, _)) => Some(slot),
            None => None,
        }
    }

    /// Takes the slot that woke first.
    pub fn next_ready(&mut self) -> Option<usize>
        ensures slot { result ≡ first_of self.old.ready }
        ensures kernel { self.new ≡ record self.old { ready = drop 1 self.old.ready } }
        ensures nowhere { IfSome result (StandsNowhere self.new) }
        ensures kept { IsKernel self.new }
    {
        self.links.pop_front(READY)
    }

    /// Takes the slot that has been free for longest.
    pub fn take_slot(&mut self) -> Option<usize>
        ensures slot { result ≡ first_of self.old.free }
        ensures kernel { self.new ≡ record self.old { free = drop 1 self.old.free } }
        ensures nowhere { IfSome result (StandsNowhere self.new) }
        ensures kept { IsKernel self.new }
    {
        self.links.pop_front(FREE)
    }

    /// Gives a slot back.
    pub fn free_slot(&mut self, slot: usize)
        requires slot_in_range { slot < self.old.slots }
        requires nowhere { places slot self.old ≡ 0 }
        ensures kernel { self.new ≡ record self.old { free = self.old.free ++ slot ∷ [] } }
        ensures kept { IsKernel self.new }
    {
        self.links.push_back(FREE, slot);
    }

    /// Takes a slot that has woken, wherever it stands in the ready list.
    pub fn take_ready(&mut self, slot: usize)
        requires { 0 < times slot self.old.ready }
        ensures kernel { self.new ≡ record self.old { ready = without slot self.old.ready } }
        ensures nowhere { StandsNowhere self.new slot }
        ensures kept { IsKernel self.new }
    {
        self.links.remove(slot);
    }
}
