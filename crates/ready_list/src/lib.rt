//! Lists of slots, linked by index in one table.
//!
//! A coordination kernel moves slots between lists all the time: from a list of waiters to a list
//! of those that may run, from there to nowhere, from nowhere to a list of free slots. `Links` has
//! a fixed number of slots and of lists. Each slot stands in one list or in none; it has a value
//! there, and each list is in order of value. Everything stands in one table that `Links::new`
//! takes; no later call takes memory.
//!
//! Each call takes constant time, with one exception: `insert_by_value` goes from the end of its
//! list past the slots of greater values, so it takes constant time too where later values are
//! greater, as tickets are.
//!
//! ```
//! let mut links = Links::new(rt.alloc(), 4, 2)?;
//! links.insert_by_value(0, 3, 10);
//! links.insert_by_value(0, 1, 5);
//! links.insert_by_value(0, 2, 10);
//! assert_eq!(rt; links.front(0), Some((1, 5)));
//! links.remove(3);
//! links.push_back(1, 3);
//! assert_eq!(rt; links.place_of(3), Some(1));
//! assert_eq!(rt; links.pop_front(0), Some(1));
//! assert_eq!(rt; links.pop_front(0), Some(2));
//! assert_eq!(rt; links.pop_front(0), None);
//! ```
//!
//! What is proved: after each call the lists are exactly those that the call's contract says, in
//! the same order and with the same values; all other lists are as they were; no slot stands in
//! two places; no call panics, wraps or runs for ever where its conditions hold.
#![tactic(auto)]

mod links;
mod table;

pub use links::{LAST, Links};
