//! Runs in threads: what comes of them for many numbers of processors and open iterations.

use crate::calls::{replay_of_text, text_of_schedule};
use crate::sure::{compiled, sequential};
use crate::worked::{TWO_APART, Worked, programs, same_answers, worked_out};
use ast::Answer;
use machine::Code;
use processors::{NoGate, Report, RunRefusal, run, run_unrecorded};
use schedules::ReplayRefusal;
use std::alloc::Global;
use std::process::Abort;
use std::sync::Wait;
use std::thread::Threads;

/// A run in threads. What is proved of it isn't carried through the tests.
pub fn ran<R: Threads + Wait + Sync + AllocGlobal>(
    rt: &R,
    code: &Code,
    input: &[u8],
    p: u64,
    s: u64,
) -> Result<Report, RunRefusal> {
    run(rt, rt.alloc(), code, input, p, s, &NoGate)
}

/// A run in threads of which no schedule is kept.
pub fn answered<R: Threads + Wait + Sync + AllocGlobal>(
    rt: &R,
    code: &Code,
    input: &[u8],
    p: u64,
    s: u64,
) -> Result<Answer, RunRefusal> {
    run_unrecorded(rt, rt.alloc(), code, input, p, s, &NoGate)
}

/// What the schedule of a run leads to, once it was written and read.
fn replay_of(
    alloc: Global,
    code: &Code,
    input: &[u8],
    report: &Report,
) -> Result<Answer, ReplayRefusal> {
    replay_of_text(alloc, code, input, &text_of_schedule(&report.schedule)?)
}

/// Whether the schedule of a run replays to the run's answer, once it was written and read.
fn replays(alloc: Global, code: &Code, input: &[u8], report: &Report) -> bool {
    match replay_of(alloc, code, input, report) {
        Ok(again) => same_answers(code, &again, &report.answer),
        Err(_) => false,
    }
}

/// Whether the steps of the processors are those of the run, and no more iterations overlapped than
/// may.
fn adds_up(report: &Report, p: u64, s: u64) -> bool {
    let mut steps: u128 = 0;
    for effort in &report.efforts {
        steps = steps.wrapping_add(u128::from(effort.steps));
    }
    steps == report.tally.made
        && report.efforts.len() as u64 == p
        && report.overlap <= u128::from(s)
}

/// The report of a run that comes to its end.
fn report_of<R: Abort + AllocGlobal + Threads + Wait + Sync>(
    rt: &R,
    code: &Code,
    input: &[u8],
    p: u64,
    s: u64,
) -> Report {
    ran(rt, code, input, p, s).expect(rt, "the run comes to its end")
}

/// Whether the answer of a run is this one, and its schedule replays to it.
fn is_answered(alloc: Global, code: &Code, input: &[u8], report: &Report, answer: &Answer) -> bool {
    same_answers(code, &report.answer, answer) && replays(alloc, code, input, report)
}

/// Whether a run has this answer, to which its schedule replays, and adds up.
fn is_right<R: Abort + AllocGlobal + Threads + Wait + Sync>(
    rt: &R,
    code: &Code,
    input: &[u8],
    p: u64,
    s: u64,
    answer: &Answer,
) -> bool {
    let report = report_of(rt, code, input, p, s);
    adds_up(&report, p, s) && is_answered(rt.alloc(), code, input, &report, answer)
}

/// Whether a run of which no schedule is kept has this answer.
fn is_right_unrecorded<R: Threads + Wait + Sync + AllocGlobal>(
    rt: &R,
    code: &Code,
    input: &[u8],
    p: u64,
    s: u64,
    answer: &Answer,
) -> bool {
    match answered(rt, code, input, p, s) {
        Ok(own) => same_answers(code, &own, answer),
        Err(_) => false,
    }
}

/// The runs of code by so many processors, with so many iterations open, have this answer, with a
/// schedule and without.
fn sizes_run<R: Abort + AllocGlobal + Threads + Wait + Sync>(
    rt: &R,
    code: &Code,
    input: &[u8],
    sizes: &[(u64, u64)],
    answer: &Answer,
) {
    for (p, s) in sizes {
        assert!(rt; is_right(rt, code, input, *p, *s, answer), "p {p}, s {s}");
        assert!(rt;
            is_right_unrecorded(rt, code, input, *p, *s, answer),
            "p {p}, s {s}"
        );
    }
}

/// The runs of a source have this answer.
pub fn source_runs<R: Abort + AllocGlobal + Threads + Wait + Sync>(
    rt: &R,
    source: &[u8],
    input: &[u8],
    sizes: &[(u64, u64)],
    answer: &Answer,
) {
    sizes_run(rt, &compiled(rt, source), input, sizes, answer);
}

/// One to four processors, with few slots and with many.
static SIZES: [(u64, u64); 16] = [
    (1, 1),
    (1, 2),
    (1, 4),
    (1, 256),
    (2, 1),
    (2, 2),
    (2, 4),
    (2, 256),
    (3, 1),
    (3, 2),
    (3, 4),
    (3, 256),
    (4, 1),
    (4, 2),
    (4, 4),
    (4, 256),
];

/// The runs of a row.
fn row_runs<R: Abort + AllocGlobal + Threads + Wait + Sync>(rt: &R, row: &Worked) {
    let answer = worked_out(rt, row);
    source_runs(rt, row.source, row.input, &SIZES, &answer);
}

#[test]
fn rows(rt: HostRuntime) {
    for row in programs() {
        row_runs(&rt, row);
    }
}

/// So many short iterations that one processor alone goes on to begin them.
const SHORT: &[u8] = b"      INTEGER A(200)
      DO 10 I=1,200
   10 A(I)=I
      PRINT *,A(200)
      END
";

/// Iterations of middling length, which several processors make in chunks.
const MIDDLING: &[u8] = b"      INTEGER A(500),B(400),S
      DO 10 I=1,500
   10 A(I)=I
      DO 30 I=1,400
      S=0
      DO 20 K=1,20
   20 S=S+A(I+K)*K
   30 B(I)=S
      PRINT *,B(1),B(400)
      END
";

/// The same with a fault in one of them.
const MIDDLING_WITH_A_FAULT: &[u8] = b"      INTEGER A(500),B(400),S
      DO 10 I=1,500
   10 A(I)=I
      DO 30 I=1,400
      S=0
      DO 20 K=1,20
   20 S=S+A(I+K)*K
   30 B(I)=S/(300-I)
      PRINT *,B(1),B(400)
      END
";

/// The same where each waits for the 40th before it, and then where each waits for the one before
/// it.
const MIDDLING_THAT_WAIT: &[u8] = b"      INTEGER A(500),B(500),S
      DO 10 I=1,500
      B(I)=0
   10 A(I)=I
      DO 30 I=41,440
      S=B(I-40)
      DO 20 K=1,20
   20 S=MOD(S+A(I+K)*K,1009)
   30 B(I)=S
      DO 50 I=2,400
      S=0
      DO 40 K=1,20
   40 S=S+A(I+K)*K
   50 B(I)=MOD(S+B(I-1),1009)
      PRINT *,B(1),B(440)
      END
";

/// Processors and slots by which chunks are made, and one by which they aren't.
const IN_CHUNKS: &[(u64, u64)] = &[(1, 64), (2, 1), (2, 64), (4, 64), (8, 256)];

/// Sources, and the sizes by which they run: many processors with one iteration at a time, few and
/// many of them with short iterations, and with middling ones.
static FURTHER: [(&[u8], &[(u64, u64)]); 5] = [
    (TWO_APART, &[(64, 1)]),
    (SHORT, &[(1, 4), (2, 4), (4, 4), (64, 4)]),
    (MIDDLING, IN_CHUNKS),
    (MIDDLING_WITH_A_FAULT, IN_CHUNKS),
    (MIDDLING_THAT_WAIT, IN_CHUNKS),
];

#[test]
fn one_iteration_and_short_and_middling_ones(rt: HostRuntime) {
    for (source, sizes) in &FURTHER {
        source_runs(&rt, source, b"", sizes, &sequential(&rt, source, b""));
    }
}

/// The number of a run's refusal, and 0 where it isn't refused. None where it finds no memory.
fn refusal_of<R: Threads + Wait + Sync + AllocGlobal>(
    rt: &R,
    code: &Code,
    p: u64,
    s: u64,
) -> Option<u8> {
    match ran(rt, code, b"", p, s) {
        Ok(_) => Some(0),
        Err(refusal) => refusal.number(),
    }
}

/// The same of a run of which no schedule is kept.
fn unrecorded_refusal_of<R: Threads + Wait + Sync + AllocGlobal>(
    rt: &R,
    code: &Code,
    p: u64,
    s: u64,
) -> Option<u8> {
    match answered(rt, code, b"", p, s) {
        Ok(_) => Some(0),
        Err(refusal) => refusal.number(),
    }
}

/// Numbers of processors and slots, and the number of the refusal of a run by so many.
static NUMBERS: [(u64, u64, u8); 10] = [
    (0, 1, 57),
    (65, 1, 57),
    (257, 1, 57),
    (u64::MAX, 1, 57),
    (1, 0, 57),
    (1, 257, 57),
    (1, u64::MAX, 57),
    (1, 65, 0),
    (1, 256, 0),
    (64, 256, 0),
];

/// The runs of code by these numbers of processors and slots are refused so.
pub fn are_refused<R: Abort + AllocGlobal + Threads + Wait + Sync>(
    rt: &R,
    code: &Code,
    numbers: &[(u64, u64, u8)],
) {
    for (p, s, wanted) in numbers {
        assert!(rt;
            refusal_of(rt, code, *p, *s) == Some(*wanted),
            "p {p}, s {s}"
        );
        assert!(rt;
            unrecorded_refusal_of(rt, code, *p, *s) == Some(*wanted),
            "p {p}, s {s}"
        );
    }
}

#[test]
fn numbers_out_of_range(rt: HostRuntime) {
    are_refused(&rt, &compiled(&rt, b"      END\n"), &NUMBERS);
}
