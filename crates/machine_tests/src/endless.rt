//! Runs in threads that end though iterations past the first fault or STOP turn without end, and
//! runs of code made by hand that come to no end.

use crate::sure::sequential;
use crate::threads::{are_refused, ran, source_runs};
use crate::worked::{FAULTS, compiled};
use ast::{Answer, End, Fault};
use machine::{Act as Does, Await, Code, Instr, Loop, Parts};
use processors::RunRefusal;
use std::alloc::{AllocError, Global};
use std::process::Abort;
use std::sync::Wait;
use std::test::Fail;
use std::thread::Threads;

/// From the fourth iteration on each turns for ages in an inner loop, without a load or a store;
/// the third faults.
const TURNS: &[u8] = b"      INTEGER A(0:9)
      DO 20 I=1,9
      A(I)=A(I-1)+1
      N=1
      IF (I.GT.3) N=9223372036854775806
      M=0
      DO 10 J=1,N
   10 M=MOD(M+J,1000)
   20 K=10/(3-I)
      END
";

/// The same with loads and stores in the inner loop, and a STOP in the third iteration.
const LOADS: &[u8] = b"      INTEGER A(0:9),B(9),C(9)
      DO 20 I=1,9
      A(I)=A(I-1)+1
      N=1
      IF (I.GT.3) N=9223372036854775806
      DO 10 J=1,N
   10 B(I)=MOD(B(I)+C(1)+1,1000)
      PRINT *,A(I)
      IF (I.EQ.3) STOP
   20 CONTINUE
      END
";

/// The same with records in the inner loop, and an element out of bounds.
const PRINTS: &[u8] = b"      INTEGER A(0:9),B(9)
      DO 20 I=1,9
      A(I)=A(I-1)+1
      N=1
      IF (I.GT.3) N=9223372036854775806
      DO 10 J=1,N
   10 PRINT *,I
   20 B(I+7*(I/3))=1
      END
";

/// What the sequential program says of the three.
static ENDS: [(&[u8], &[u8], End); 3] = [
    (TURNS, b"", End::Fault(Fault::ZeroDivisor, 9)),
    (LOADS, b" 1\n 2\n 3\n", End::Stopped(9)),
    (PRINTS, b" 1\n 2\n 3\n", End::Fault(Fault::Index, 8)),
];

/// Numbers of processors and slots.
static SIZES: [(u64, u64); 15] = [
    (1, 1),
    (1, 4),
    (1, 256),
    (2, 1),
    (2, 4),
    (2, 256),
    (3, 1),
    (3, 4),
    (3, 256),
    (4, 1),
    (4, 4),
    (4, 256),
    (64, 1),
    (64, 4),
    (64, 256),
];

/// Whether an answer has these records and this end.
pub fn is_so(answer: &Answer, output: &[u8], end: End) -> bool {
    answer.output.as_slice() == output && answer.end == end
}

/// The runs of a source come to what the sequential program says.
fn all_end<R: Abort + AllocGlobal + Threads + Wait + Sync>(
    rt: &R,
    source: &[u8],
    output: &[u8],
    end: End,
) {
    let answer = sequential(rt, source, b"");
    assert!(rt; is_so(&answer, output, end));
    source_runs(rt, source, b"", &SIZES, &answer);
}

#[test]
fn iterations_past_the_end(rt: HostRuntime) {
    for (source, output, end) in &ENDS {
        all_end(&rt, source, output, *end);
    }
}

/// Main waits for a loop that isn't open.
const JOINS: [Does; 2] = [Does::Join, Does::Halt];

/// Each of three iterations but the first waits for an event that none advances.
const WAITS: [Does; 7] = [
    Does::Constant(1),
    Does::Constant(3),
    Does::Open(0),
    Does::Join,
    Does::Halt,
    Does::Await(0),
    Does::Retire(0),
];

/// Code of these parts. It is laid.
pub fn code_of(rt: &(impl Abort + AllocGlobal), parts: Parts) -> Result<Code, AllocError> {
    match Code::new(rt.alloc(), parts)? {
        Some(code) => Ok(code),
        None => panic!(*rt; "the code is laid"),
    }
}

/// Adds instructions to parts, and a loop whose iterations begin at place 5.
fn add(parts: &mut Parts, acts: &[Does], alloc: Global) -> Result<(), AllocError> {
    for act in acts {
        parts.instructions.push(Instr { line: 1, act: *act })?;
    }
    parts.awaits.push(Await {
        event: 1,
        distance: 1,
    })?;
    parts.loops.push(Loop {
        body: 5,
        variable: 0,
        step: 1,
        privates: Vec::new(alloc),
    })?;
    Ok(())
}

/// Parts with room for so many operands, and with nothing else.
pub fn no_parts(alloc: Global, operands: usize) -> Parts {
    Parts {
        instructions: Vec::new(alloc),
        records: Vec::new(alloc),
        awaits: Vec::new(alloc),
        variables: Vec::new(alloc),
        loops: Vec::new(alloc),
        operands,
        counters: 0,
    }
}

/// The code of these, with a loop whose iterations begin at place 5.
pub fn assembled(rt: &(impl Abort + AllocGlobal), acts: &[Does]) -> Result<Code, AllocError> {
    let mut parts = no_parts(rt.alloc(), 2);
    add(&mut parts, acts, rt.alloc())?;
    code_of(rt, parts)
}

/// Code from a state of which no step leads.
static STUCK: [&[Does]; 2] = [&JOINS, &WAITS];

/// Numbers of processors and slots of its runs, which can't go on.
static STUCK_SIZES: [(u64, u64, u8); 15] = [
    (1, 1, 59),
    (1, 2, 59),
    (1, 256, 59),
    (2, 1, 59),
    (2, 2, 59),
    (2, 256, 59),
    (3, 1, 59),
    (3, 2, 59),
    (3, 256, 59),
    (4, 1, 59),
    (4, 2, 59),
    (4, 256, 59),
    (64, 1, 59),
    (64, 2, 59),
    (64, 256, 59),
];

#[test]
fn no_step_is_left(rt: HostRuntime) -> Result<(), Fail> {
    for acts in &STUCK {
        are_refused(&rt, &assembled(&rt, acts)?, &STUCK_SIZES);
    }
    Ok(())
}

/// The records of the source whose second iteration faults.
const RECORDS: &[u8] = b" 1\n 2\n";

/// Whether a run found no memory, and as much of the records had gone out as it says, or couldn't
/// start a thread.
fn is_given_up(refusal: &RunRefusal) -> bool {
    match refusal {
        RunRefusal::Memory { output } => {
            RECORDS.starts_with(output) && matches!(output.len(), 0 | 3 | 6)
        }
        RunRefusal::NotStarted(_) => true,
        RunRefusal::OutOfRange | RunRefusal::Stuck => false,
    }
}

/// What a test says that wants memory. Where something had gone out, it has that.
fn want_of(refusal: RunRefusal) -> Fail {
    match refusal {
        RunRefusal::Memory { output } => RunRefusal::Memory { output }.into(),
        RunRefusal::OutOfRange | RunRefusal::NotStarted(_) | RunRefusal::Stuck => AllocError.into(),
    }
}

/// Whether a run has the answer of that source.
fn has_answer<R: Threads + Wait + Sync + AllocGlobal>(rt: &R, code: &Code, p: u64, s: u64) -> bool {
    match ran(rt, code, b"", p, s) {
        Ok(report) => is_so(&report.answer, RECORDS, End::Fault(Fault::ZeroDivisor, 5)),
        Err(_) => false,
    }
}

/// A run that finds no memory, or can't start a thread, gives up; the next one has its answer.
fn refused_once<R: Abort + AllocGlobal + Threads + Wait + Sync>(
    rt: &R,
    code: &Code,
    p: u64,
    s: u64,
) -> Result<(), Fail> {
    match ran(rt, code, b"", p, s) {
        Ok(report) => {
            assert!(rt; is_so(&report.answer, RECORDS, End::Fault(Fault::ZeroDivisor, 5)));
            Ok(())
        }
        Err(refusal) => {
            assert!(rt; is_given_up(&refusal) && has_answer(rt, code, p, s));
            Err(want_of(refusal))
        }
    }
}

#[test]
fn want_of_memory_in_a_run(rt: HostRuntime) -> Result<(), Fail> {
    refused_once(&rt, &compiled(rt.alloc(), FAULTS)?, 1, 1)
}

#[test]
fn want_of_memory_in_threads(rt: HostRuntime) -> Result<(), Fail> {
    refused_once(&rt, &compiled(rt.alloc(), FAULTS)?, 3, 4)
}
