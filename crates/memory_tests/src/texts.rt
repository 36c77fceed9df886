//! The engines, over texts.

use crate::rows::{AGAIN, OTHERWISE, Row, rows};
use command_output::{EngineFault, Status};
use engines::{Wants, check, list, replay, seq, upgrade};
use std::alloc::{AllocError, Global};
use std::process::Abort;
use std::sync::Wait;
use std::test::Fail;
use std::thread::Threads;
use threaded::run;

/// More than each of these writes, so that a writer takes no memory.
const ROOM: usize = 4_096;

/// The status of a run that shows its faults.
fn status_of(row: &Row) -> u8 {
    if row.told.is_empty() { 0 } else { 2 }
}

/// What is wanted of an engine.
#[derive(Clone, Copy)]
enum Asked<'s> {
    Check,
    List,
    Seq,
    /// The replay of this schedule.
    Replay(&'s [u8]),
    /// The upgrade of this schedule, which is of the second version.
    Upgrade(&'s [u8]),
}

/// The status that an engine is to give.
fn wanted_status(row: &Row, asked: Asked<'_>) -> u8 {
    match asked {
        Asked::Seq | Asked::Replay(_) => status_of(row),
        _ => 0,
    }
}

/// Whether as much as this may have been written where an engine found no memory. Only `seq` writes
/// before its end.
fn may_be_begun(out: &[u8], row: &Row, asked: Asked<'_>) -> bool {
    match asked {
        Asked::Seq => row.output.starts_with(out),
        _ => out.is_empty(),
    }
}

/// Whether these parts, one behind the other, were written.
fn are_written(out: &[u8], first: &[u8], second: &[u8], third: &[u8]) -> bool {
    match out.strip_prefix(first) {
        Some(behind) => behind.strip_prefix(second) == Some(third),
        None => false,
    }
}

/// Whether an engine has written what it should.
fn is_written(out: &[u8], row: &Row, asked: Asked<'_>) -> bool {
    match asked {
        Asked::Check => out == row.accepted,
        Asked::List => out == row.listing,
        Asked::Seq => are_written(out, row.output, row.told, row.stored),
        Asked::Replay(_) => are_written(out, row.output, row.told, b""),
        Asked::Upgrade(schedule) => out == schedule,
    }
}

fn check_into(alloc: Global, row: &Row, out: &mut Vec<u8>) -> Result<u8, EngineFault> {
    let mut source = row.source;
    check(alloc, &mut source, out)
}

fn list_into(alloc: Global, row: &Row, out: &mut Vec<u8>) -> Result<u8, EngineFault> {
    let mut source = row.source;
    list(alloc, &mut source, out)
}

fn seq_into(alloc: Global, row: &Row, out: &mut Vec<u8>) -> Result<u8, EngineFault> {
    let mut source = row.source;
    let mut input = row.input;
    seq(alloc, &mut source, &mut input, true, 65_536, out)
}

fn replay_into(
    alloc: Global,
    row: &Row,
    mut schedule: &[u8],
    out: &mut Vec<u8>,
) -> Result<u8, EngineFault> {
    let mut source = row.source;
    let mut input = row.input;
    replay(alloc, &mut source, &mut input, &mut schedule, out)
}

/// What `upgrade` gives; 1, which is wrong, where it shows something.
fn upgrade_into(
    alloc: Global,
    row: &Row,
    mut schedule: &[u8],
    upgraded: &mut Vec<u8>,
) -> Result<u8, EngineFault> {
    let mut source = row.source;
    let mut input = row.input;
    let mut shown = Vec::new(alloc);
    let given = upgrade(
        alloc,
        &mut source,
        &mut input,
        &mut schedule,
        upgraded,
        &mut shown,
    );
    if shown.is_empty() { given } else { Ok(1) }
}

/// What an engine gives.
fn given(alloc: Global, row: &Row, asked: Asked<'_>, out: &mut Vec<u8>) -> Result<u8, EngineFault> {
    match asked {
        Asked::Check => check_into(alloc, row, out),
        Asked::List => list_into(alloc, row, out),
        Asked::Seq => seq_into(alloc, row, out),
        Asked::Replay(schedule) => replay_into(alloc, row, schedule, out),
        Asked::Upgrade(schedule) => upgrade_into(alloc, row, schedule, out),
    }
}

/// The status that an engine gave, at once or when it was asked again.
fn status_at_last(
    rt: &(impl Abort + AllocGlobal),
    row: &Row,
    asked: Asked<'_>,
    out: &mut Vec<u8>,
) -> u8 {
    match given(rt.alloc(), row, asked, out) {
        Err(EngineFault::Memory) => {
            assert!(*rt; may_be_begun(out, row, asked));
            out.clear();
            given(rt.alloc(), row, asked, out).expect(rt, AGAIN)
        }
        first => first.expect(rt, OTHERWISE),
    }
}

/// Whether an engine writes what it should.
fn writes(
    rt: &(impl Abort + AllocGlobal),
    row: &Row,
    asked: Asked<'_>,
) -> Result<bool, AllocError> {
    let mut out = Vec::with_capacity(rt.alloc(), ROOM)?;
    let status = status_at_last(rt, row, asked, &mut out);
    Ok(status == wanted_status(row, asked) && is_written(&out, row, asked))
}

#[test]
fn want_of_memory_in_sources(rt: HostRuntime) -> Result<(), Fail> {
    for row in rows() {
        assert!(rt; writes(&rt, row, Asked::Check)?);
        assert!(rt; writes(&rt, row, Asked::List)?);
        assert!(rt; writes(&rt, row, Asked::Seq)?);
    }
    Ok(())
}

const WANTS: Wants = Wants {
    processors: 2,
    slots: 2,
    store: true,
    schedule: true,
    tally: false,
};

fn run_into<R: Abort + AllocGlobal + Threads + Wait + Sync>(
    rt: &R,
    row: &Row,
    schedule: &mut Vec<u8>,
    out: &mut Vec<u8>,
) -> Result<u8, EngineFault> {
    let mut source = row.source;
    let mut input = row.input;
    run(
        rt,
        rt.alloc(),
        &mut source,
        &mut input,
        WANTS,
        schedule,
        out,
    )
}

/// Whether a run gave up: for want of memory, or as a thread couldn't be started.
fn is_given_up(fault: &EngineFault) -> bool {
    fault.status() == Status::NoMemory
}

/// The status that a run in threads gives, at once or when it's made again.
fn status_of_run<R: Abort + AllocGlobal + Threads + Wait + Sync>(
    rt: &R,
    row: &Row,
    schedule: &mut Vec<u8>,
    out: &mut Vec<u8>,
) -> u8 {
    match run_into(rt, row, schedule, out) {
        Ok(status) => status,
        Err(fault) => {
            assert!(rt; is_given_up(&fault));
            assert!(rt; schedule.is_empty() && row.output.starts_with(out));
            out.clear();
            run_into(rt, row, schedule, out).expect(rt, AGAIN)
        }
    }
}

/// Whether a run of a row in threads shows what it should.
fn runs<R: Abort + AllocGlobal + Threads + Wait + Sync>(
    rt: &R,
    row: &Row,
    schedule: &mut Vec<u8>,
) -> Result<bool, AllocError> {
    let mut out = Vec::with_capacity(rt.alloc(), ROOM)?;
    let status = status_of_run(rt, row, schedule, &mut out);
    Ok(status == status_of(row) && is_written(&out, row, Asked::Seq))
}

/// Whether a run of a row, its replay and its upgrade write what they should.
fn has_schedule<R: Abort + AllocGlobal + Threads + Wait + Sync>(
    rt: &R,
    row: &Row,
) -> Result<bool, AllocError> {
    let mut schedule = Vec::with_capacity(rt.alloc(), ROOM)?;
    Ok(
        runs(rt, row, &mut schedule)?
            && writes(rt, row, Asked::Replay(&schedule))?
            && writes(rt, row, Asked::Upgrade(&schedule))?,
    )
}

#[test]
fn want_of_memory_in_schedules(rt: HostRuntime) -> Result<(), Fail> {
    for row in rows() {
        assert!(rt; has_schedule(&rt, row)?);
    }
    Ok(())
}
