//! Drivers of cores on one thread: which processor goes next, and how far.

use crate::calls::{hand_in, step, work_of};
use crate::sure;
use replay::{Core, HandIn, Stepped};
use std::process::Abort;

/// How many turns each of these runs takes at most.
const TURNS: usize = 20_000;

/// Which processor goes next, of those that can.
#[derive(Clone, Copy, Debug)]
pub enum Driver {
    Lowest,
    Highest,
    /// The first behind the one that went last.
    RoundRobin,
}

impl Driver {
    /// The processor that is asked after so many others of `count`, where `last` went last.
    fn nth(self, asked: usize, count: usize, last: usize) -> usize {
        match self {
            Driver::Lowest => asked,
            Driver::Highest => count.wrapping_sub(1).wrapping_sub(asked),
            Driver::RoundRobin => {
                let next = last.wrapping_add(1).wrapping_add(asked);
                next.checked_rem(count).unwrap_or(0)
            }
        }
    }
}

/// Processor `q` hands in the local instructions that stand next, so many at most.
fn works(core: &mut Core<'_>, q: usize, burst: u32) -> Result<Stepped, HandIn> {
    match work_of(core, q, burst)? {
        Some(done) => {
            hand_in(core, q, done)?;
            Ok(Stepped::Went(None))
        },
        None => Ok(Stepped::Idle),
    }
}

/// A turn of processor `q`: a shared step or, where local instructions stand next, so many at most,
/// 1 to 1,024.
pub fn turn(core: &mut Core<'_>, q: usize, burst: u32) -> Result<Stepped, HandIn> {
    match step(core, q)? {
        Stepped::Idle => works(core, q, burst),
        stepped => Ok(stepped),
    }
}

/// One processor goes: which; none where the run has ended, or none can go.
fn go(
    rt: &impl Abort,
    core: &mut Core<'_>,
    driver: Driver,
    burst: u32,
    last: usize,
) -> Option<usize> {
    let count = core.processors();
    for asked in 0..count {
        let q = driver.nth(asked, count, last);
        match sure::turn(rt, core, q, burst) {
            Stepped::Went(_) => return Some(q),
            Stepped::Idle => {}
            Stepped::Ended => break,
        }
    }
    None
}

/// Drives a core until its run has ended. One that hasn't in so many turns, or whose processors
/// can't go before, has no answer then.
pub fn drive(rt: &impl Abort, core: &mut Core<'_>, driver: Driver, burst: u32) {
    let mut last = 0;
    for _ in 0..TURNS {
        match go(rt, core, driver, burst, last) {
            Some(q) => last = q,
            None => break,
        }
    }
}
