//! The table behind the lists: a node for each slot, then a head for each list.

ghost use Rattle.std.specs.Prelude.{◌≡◌, ◌<◌, length, Some, IfOk};
ghost use Rattle.ready_list.specs.Table.{joined, parted, lists_of, Holds};
ghost use Rattle.ready_list.specs.Places.{IsPlaceFor};
ghost use Rattle.ready_list.specs.Empty.{IsEmptyTable};

use std::alloc::{AllocError, Global};

/// A slot, or the head of a list.
#[derive(Clone, Copy)]
pub(crate) struct Node {
    /// The node that follows in the ring: a slot, or the list's head after its last slot.
    pub(crate) next: usize,
    /// The node before it in the ring.
    pub(crate) previous: usize,
    /// The list that holds the slot. A head is held by its own list.
    pub(crate) owner: Option<usize>,
    /// The slot's value; 0 at a head, so that a search for a place from the end stops there.
    pub(crate) value: u128,
}

/// A table of slots in no list, with room for the heads of so many lists.
pub(crate) fn free_slots(alloc: Global, slots: usize, lists: usize) -> Result<Vec<Node>, AllocError>
    ensures { IfOk result (λ table. IsEmptyTable table.items slots 0) }
{
    let mut table = Vec::with_capacity(alloc, slots.saturating_add(lists))?;
    for slot in 0..slots {
        table.push(Node {
            next: slot,
            previous: slot,
            owner: None,
            value: 0,
        })?;
    }
    Ok(table)
}

/// Adds the heads of so many empty lists to a table of slots.
pub(crate) fn add_heads(table: &mut Vec<Node>, lists: usize) -> Result<(), AllocError>
    requires { IsEmptyTable table.old.items (length table.old.items) 0 }
    ensures { IfOk result (λ _. IsEmptyTable table.new.items (length table.old.items) lists) }
{
    for list in 0..lists {
        let head = table.len();
        table.push(Node {
            next: head,
            previous: head,
            owner: Some(list),
            value: 0,
        })?;
    }
    Ok(())
}

/// Puts a slot of a list between two neighbours.
pub(crate) fn put_between(
    table: &mut [Node],
    before: usize,
    after: usize,
    list: usize,
    slot: usize,
    value: u128,
)
    requires before_in_range { before < length table.old }
    requires after_in_range { after < length table.old }
    requires slot_in_range { slot < length table.old }
    ensures { table.new ≡ joined table.old before after slot
        (record { next = after; previous = before; owner = Some list; value = value }) }
{
    table[slot] = Node {
        next: after,
        previous: before,
        owner: Some(list),
        value,
    };
    table[before].next = slot;
    table[after].previous = slot;
}

/// Links the neighbours of a slot past it; the slot then stands alone.
pub(crate) fn take_from_between(table: &mut [Node], before: usize, after: usize, slot: usize)
    requires before_in_range { before < length table.old }
    requires after_in_range { after < length table.old }
    requires slot_in_range { slot < length table.old }
    ensures { table.new ≡ parted table.old before after slot }
{
    table[before].next = after;
    table[after].previous = before;
    let value = table[slot].value;
    table[slot] = Node {
        next: slot,
        previous: slot,
        owner: None,
        value,
    };
}

/// The last node of a list with at most this value: the place behind which the value belongs.
/// Looks from the list's end.
pub(crate) fn place_for(table: &[Node], slots: usize, list: usize, value: u128) -> usize
    requires holds { Holds table.now slots (lists_of table.now slots) }
    requires list_in_range { list < length (lists_of table.now slots) }
    ensures { IsPlaceFor table.now slots list value result }
{
    let mut place = table[slots + list].previous;
    while table[place].value > value {
        place = table[place].previous;
    }
    place
}
