//! A core under a lock, at which two threads take turns.

use crate::driven::is_sequential;
use crate::drivers::turn;
use crate::sure::{compiled, core_of};
use crate::worked::SQUARES;
use replay::{Core, Stepped};
use std::process::Abort;
use std::sync::{Mutex, Wait};
use std::thread::{Threads, join, yield_now};

/// How many turns a thread takes at most.
const TURNS: u32 = 1_000_000;

/// Turns of processor `q` until the run has ended: whether it has.
fn takes_turns<R: Wait>(rt: &R, core: &Mutex<Core<'_>>, q: usize) -> bool {
    for _ in 0..TURNS {
        let mut held = core.lock(rt);
        match turn(&mut held, q, 8) {
            Ok(Stepped::Ended) => return true,
            Ok(_) => {}
            Err(_) => return false,
        }
        drop(held);
        yield_now();
    }
    false
}

/// A core at which two threads have taken turns until its run had ended.
fn shared<'c, R: Abort + Threads + Wait + Sync>(rt: &R, core: Core<'c>) -> Core<'c> {
    let core = Mutex::new(core);
    let ended = join(
        rt,
        || takes_turns(rt, &core, 0),
        || takes_turns(rt, &core, 1),
    );
    assert!(*rt; ended == (true, true));
    core.into_inner()
}

/// Two threads take turns at a core until its run has ended. The answer is the sequential one.
#[test]
fn core_under_a_lock(rt: HostRuntime) {
    let code = compiled(&rt, SQUARES);
    let core = shared(&rt, core_of(&rt, &code, b"", 2, 2));
    assert!(rt; is_sequential(&rt, &core, SQUARES));
}
