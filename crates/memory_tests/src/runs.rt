//! Runs in threads.

use crate::calls::{answered, ran};
use crate::cores::code_of;
use crate::programs::is_answer;
use crate::rows::{AGAIN, Row, rows};
use ast::Answer;
use machine::Code;
use processors::{Report, RunRefusal};
use std::process::Abort;
use std::sync::Wait;
use std::thread::Threads;

/// Whether a run found no memory, and a beginning of the row's records had gone out, or couldn't
/// start a thread.
fn is_given_up(refusal: &RunRefusal, row: &Row) -> bool {
    match refusal {
        RunRefusal::Memory { output } => {
            row.output.starts_with(output) && (output.is_empty() || output.ends_with(b"\n"))
        }
        RunRefusal::NotStarted(_) => true,
        RunRefusal::OutOfRange | RunRefusal::Stuck => false,
    }
}

/// The report of a run, at once or when it's made again.
fn report_of<R: Abort + AllocGlobal + Threads + Wait + Sync>(
    rt: &R,
    code: &Code,
    row: &Row,
    p: u64,
    s: u64,
) -> Report {
    match ran(rt, code, row.input, p, s) {
        Ok(report) => report,
        Err(refusal) => {
            assert!(rt; is_given_up(&refusal, row));
            ran(rt, code, row.input, p, s).expect(rt, AGAIN)
        }
    }
}

/// A run that finds no memory, or can't start a thread, gives up; the next one has its answer.
fn ends<R: Abort + AllocGlobal + Threads + Wait + Sync>(rt: &R, row: &Row, p: u64, s: u64) {
    let report = report_of(rt, &code_of(rt, row), row, p, s);
    assert!(rt; is_answer(&report.answer, row));
}

#[test]
fn want_of_memory_by_one_processor(rt: HostRuntime) {
    for row in rows() {
        ends(&rt, row, 1, 1);
    }
}

#[test]
fn want_of_memory_by_three_processors(rt: HostRuntime) {
    for row in rows() {
        ends(&rt, row, 3, 4);
    }
}

/// The answer of a run of which no schedule is kept, at once or when it's made again.
fn answer_of<R: Abort + AllocGlobal + Threads + Wait + Sync>(
    rt: &R,
    code: &Code,
    row: &Row,
    p: u64,
    s: u64,
) -> Answer {
    match answered(rt, code, row.input, p, s) {
        Ok(answer) => answer,
        Err(refusal) => {
            assert!(rt; is_given_up(&refusal, row));
            answered(rt, code, row.input, p, s).expect(rt, AGAIN)
        }
    }
}

/// The same of a run of which no schedule is kept.
fn ends_unrecorded<R: Abort + AllocGlobal + Threads + Wait + Sync>(
    rt: &R,
    row: &Row,
    p: u64,
    s: u64,
) {
    assert!(rt; is_answer(&answer_of(rt, &code_of(rt, row), row, p, s), row));
}

#[test]
fn want_of_memory_unrecorded_by_one_processor(rt: HostRuntime) {
    for row in rows() {
        ends_unrecorded(&rt, row, 1, 1);
    }
}

#[test]
fn want_of_memory_unrecorded_by_three_processors(rt: HostRuntime) {
    for row in rows() {
        ends_unrecorded(&rt, row, 3, 4);
    }
}
