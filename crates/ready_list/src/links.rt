//! The lists.

ghost use Rattle.std.specs.Prelude.{◌≡◌, ◌<◌, ◌++◌, ◌∷◌, [], length, drop, map, replicate};
ghost use Rattle.std.specs.Prelude.{option_map, IfOk, MatchOption, IsTrue, ◌↔◌};
ghost use Rattle.ready_list.specs.Lists.{Lists, IsLinked, list_at, with_list, times_in, places_in};
ghost use Rattle.ready_list.specs.Lists.{inserted, without, front_of};

use crate::table::{Node, add_heads, free_slots, place_for, put_between, take_from_between};
use std::alloc::{AllocError, Global};
use std::marker::Model;

/// The greatest value, that of each slot that `push_back` puts into a list.
pub const LAST: u128 = u128::MAX;

/// Lists of slots. The slots have the numbers from 0 on, and so have the lists. Each slot stands
/// in one list or in none, and has a value there; each list is in order of value.
#[derive(Drop)]
pub struct Links {
    table: Vec<Node>,
    slots: usize,
}

impl Model for Links {
    ghost use Rattle.ready_list.specs.Lists.{Lists};

    ghost Value = { Lists };

    ghost use Rattle.ready_list.specs.Table.{lists_of, seen_as, Holds};

    ghost view = { λ a. seen_as a.table.items a.slots };

    ghost invariant = { λ a. Holds a.table.items a.slots (lists_of a.table.items a.slots) };
}

impl Links {
    /// So many slots, each in no list, and so many lists without slots. An error where memory is
    /// refused; no other call takes memory.
    pub fn new(alloc: Global, slots: usize, lists: usize) -> Result<Links, AllocError>
        ensures lists { IfOk result (λ links. links
            ≡ record { slots = slots; lists = replicate lists [] }) }
        ensures linked { IfOk result IsLinked }
    {
        let mut table = free_slots(alloc, slots, lists)?;
        add_heads(&mut table, lists)?;
        Ok(Links { table, slots })
    }

    /// Puts a slot at the end of a list, with the value `LAST`.
    pub fn push_back(&mut self, list: usize, slot: usize)
        requires list_in_range { list < length self.old.lists }
        requires slot_in_range { slot < self.old.slots }
        requires in_no_list { places_in slot self.old.lists ≡ 0 }
        ensures lists { self.new
            ≡ with_list self.old list (list_at self.old list ++ (slot, LAST) ∷ []) }
        ensures linked { IsLinked self.new }
    {
        let head = self.slots + list;
        let last = self.table[head].previous;
        put_between(&mut self.table, last, head, list, slot, LAST);
    }

    /// Puts a slot into a list, behind all slots of the same or a lower value.
    pub fn insert_by_value(&mut self, list: usize, slot: usize, value: u128)
        requires list_in_range { list < length self.old.lists }
        requires slot_in_range { slot < self.old.slots }
        requires in_no_list { places_in slot self.old.lists ≡ 0 }
        ensures lists { self.new
            ≡ with_list self.old list (inserted (slot, value) (list_at self.old list)) }
        ensures linked { IsLinked self.new }
    {
        let place = place_for(&self.table, self.slots, list, value);
        let after = self.table[place].next;
        put_between(&mut self.table, place, after, list, slot, value);
    }

    /// The first slot of a list, and its value.
    pub fn front(&self, list: usize) -> Option<(usize, u128)>
        requires { list < length self.now.lists }
        ensures { result ≡ front_of (list_at self.now list) }
    {
        let first = self.table[self.slots + list].next;
        if first < self.slots {
            Some((first, self.table[first].value))
        } else {
            None
        }
    }

    /// Takes the first slot out of a list.
    pub fn pop_front(&mut self, list: usize) -> Option<usize>
        requires { list < length self.old.lists }
        ensures slot { result ≡ option_map (λ x. x.0) (front_of (list_at self.old list)) }
        ensures lists { self.new ≡ with_list self.old list (drop 1 (list_at self.old list)) }
        ensures linked { IsLinked self.new }
    {
        let head = self.slots + list;
        let first = self.table[head].next;
        if first < self.slots {
            let after = self.table[first].next;
            take_from_between(&mut self.table, head, after, first);
            Some(first)
        } else {
            None
        }
    }

    /// Takes a slot out of the list that holds it.
    pub fn remove(&mut self, slot: usize)
        requires { 0 < places_in slot self.old.lists }
        ensures lists { self.new ≡ record self.old { lists = map (without slot) self.old.lists } }
        ensures linked { IsLinked self.new }
    {
        let Node { previous, next, .. } = self.table[slot];
        take_from_between(&mut self.table, previous, next, slot);
    }

    /// The list that holds a slot.
    pub fn place_of(&self, slot: usize) -> Option<usize>
        requires { slot < self.now.slots }
        ensures { MatchOption
            result
            (places_in slot self.now.lists ≡ 0)
            (λ list. (list < length self.now.lists) × (0 < times_in slot (list_at self.now list))) }
    {
        self.table[slot].owner
    }

    /// Whether a list holds the slot.
    pub fn is_in(&self, slot: usize) -> bool
        requires { slot < self.now.slots }
        ensures { IsTrue result ↔ 0 < places_in slot self.now.lists }
    {
        self.place_of(slot).is_some()
    }
}
