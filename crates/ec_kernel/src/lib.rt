//! Eventcounts and a sequencer, after Reed and Kanodia (1979).
//!
//! An eventcount counts events: `advance` adds one, `read` gives the count, and who awaits a value
//! goes on once the count has reached it. A sequencer gives tickets: 0, 1, 2 and so on, each once.
//! `Kernel` holds eventcounts, a sequencer and the slots of those who wait: by event, by value and
//! then by arrival. An advance moves the slots that it wakes to a ready list. Slots that nobody
//! uses stand in a free list.
//!
//! To await a value, ask whether the count has `reached` it and otherwise `park` a slot. Only
//! `Kernel::new` takes memory. An advance takes time only for the slots that it wakes.
//!
//! ```
//! let mut kernel = Kernel::new(rt.alloc(), 2, 1)?;
//! assert_eq!(rt; kernel.take_slot(), Some(0));
//! kernel.park(0, 2, 0);
//! assert_eq!(rt; kernel.advance(0), 0);
//! assert!(rt; !kernel.reached(0, 2));
//! assert_eq!(rt; kernel.advance(0), 1);
//! assert_eq!(rt; kernel.read(0), 2);
//! assert_eq!(rt; kernel.next_ready(), Some(0));
//! kernel.free_slot(0);
//! assert_eq!(rt; kernel.ticket(), 0);
//! assert_eq!(rt; kernel.ticket(), 1);
//! ```
//!
//! What is proved: each call leaves exactly the kernel that its contract says; each waiter's value
//! is above its event's count; no slot stands in two places; no call panics, wraps or runs for ever
//! where its conditions hold.
#![tactic(auto)]

mod kernel;

pub use kernel::Kernel;
