//! Lists of slots.

ghost use Rattle.std.specs.Prelude.{◌≡◌, ◌∷◌, []};

use ready_list::{LAST, Links};
use std::alloc::AllocError;
use std::test::Fail;

/// Slots that go into two of three empty lists come out in turn, and by value.
fn come_by_value(links: &mut Links) -> bool
    requires { links.old ≡ record { slots = 5; lists = [] ∷ [] ∷ [] ∷ [] } }
{
    links.push_back(0, 4);
    links.push_back(0, 1);
    links.insert_by_value(1, 0, 7);
    links.insert_by_value(1, 2, 3);
    links.insert_by_value(1, 3, 7);
    let in_turn = [links.pop_front(0), links.pop_front(0), links.pop_front(0)];
    let by_value = [
        links.pop_front(1),
        links.pop_front(1),
        links.pop_front(1),
        links.pop_front(1),
    ];
    in_turn == [Some(4), Some(1), None] && by_value == [Some(2), Some(0), Some(3), None]
}

#[test]
fn values_in_order(rt: HostRuntime) -> Result<(), Fail> {
    let mut links = Links::new(rt.alloc(), 5, 3)?;
    assert!(rt; come_by_value(&mut links));
    Ok(())
}

/// The same slots, of which one is taken out of the midst of its list.
fn come_without_one(links: &mut Links) -> bool
    requires { links.old ≡ record { slots = 5; lists = [] ∷ [] ∷ [] ∷ [] } }
{
    links.push_back(0, 4);
    links.push_back(0, 1);
    links.insert_by_value(1, 0, 7);
    links.insert_by_value(1, 2, 3);
    links.insert_by_value(1, 3, 7);
    let places = [links.place_of(0), links.place_of(4)];
    links.remove(0);
    let fronts = [links.front(0), links.front(1)];
    let is_in = links.is_in(0);
    let by_value = [links.pop_front(1), links.pop_front(1), links.pop_front(1)];
    places == [Some(1), Some(0)]
        && fronts == [Some((4, LAST)), Some((2, 3))]
        && !is_in
        && by_value == [Some(2), Some(3), None]
}

#[test]
fn calls_in_order(rt: HostRuntime) -> Result<(), Fail> {
    let mut links = Links::new(rt.alloc(), 5, 3)?;
    assert!(rt; come_without_one(&mut links));
    Ok(())
}

/// Whether a slot put into new lists stands there.
fn holds_a_slot(rt: &HostRuntime) -> Result<bool, AllocError> {
    let mut links = Links::new(rt.alloc(), 5, 3)?;
    links.insert_by_value(2, 4, 9);
    Ok(links.front(2) == Some((4, 9)) && links.place_of(3).is_none())
}

#[test]
fn want_of_memory_in_links(rt: HostRuntime) -> Result<(), Fail> {
    match holds_a_slot(&rt) {
        Ok(holds) => assert!(rt; holds),
        Err(error) => {
            assert!(rt; holds_a_slot(&rt).expect(&rt, "there is memory"));
            return Err(error.into());
        }
    }
    Ok(())
}
