//! A run that is made by a rule of its own.

use crate::driven::is_sequential;
use crate::sure::{compiled, core_of};
use crate::worked::SQUARES;
use machine::{Done, stands_local};
use replay::{Core, HandIn};
use std::test::Fail;

/// Processor `q` does the local work of what it holds, if any is next, and else makes a shared step
/// or takes something up, if it can.
fn go(core: &mut Core<'_>, q: usize) -> Result<(), HandIn> {
    if let Some(from) = core.frame(q)? {
        if stands_local(core.code(), &from) {
            let done = Done::work(core.code(), from, 1_024)?;
            return core.hand_in(q, done);
        }
    }
    core.step(q)?;
    Ok(())
}

/// Rounds until the run has ended, so many at most; in each of them each processor moves once.
fn go_rounds(core: &mut Core<'_>, most: u32) -> Result<(), HandIn> {
    for _ in 0..most {
        for q in 0..core.processors() {
            if core.has_ended() {
                return Ok(());
            }
            go(core, q)?;
        }
    }
    Ok(())
}

#[test]
fn a_run_in_rounds(rt: HostRuntime) -> Result<(), Fail> {
    let code = compiled(&rt, SQUARES);
    let mut core = core_of(&rt, &code, &[], 2, 4);
    assert!(rt; go_rounds(&mut core, 1_000).is_ok());
    assert!(rt; is_sequential(&rt, &core, SQUARES));
    Ok(())
}
