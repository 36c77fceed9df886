//! Two runs of different programs at once, in one process.

use crate::sure::{compiled, sequential};
use crate::threads::{answered, ran};
use crate::worked::{SQUARES, TWO_APART, same_answers};
use ast::Answer;
use machine::Code;
use std::process::Abort;
use std::sync::Wait;
use std::thread::{Threads, join};

/// How often each of the two runs is made.
const ROUNDS: u32 = 12;

/// The sizes of the first program's runs, and those of the second one's.
const SIZES: [(u64, u64); 2] = [(2, 4), (3, 2)];

/// Whether the runs of code, one after another, with a schedule and without, have this answer.
fn runs<R: Threads + Wait + Sync + AllocGlobal>(
    rt: &R,
    code: &Code,
    sizes: (u64, u64),
    answer: &Answer,
) -> bool {
    for _ in 0..ROUNDS {
        let Ok(report) = ran(rt, code, b"", sizes.0, sizes.1) else {
            return false;
        };
        let Ok(own) = answered(rt, code, b"", sizes.0, sizes.1) else {
            return false;
        };
        if !same_answers(code, &report.answer, answer) || !same_answers(code, &own, answer) {
            return false;
        }
    }
    true
}

/// While the runs of one program go on, those of another do: each has its own sequential answer.
fn both<R: Abort + AllocGlobal + Threads + Wait + Sync>(rt: &R, one: &[u8], other: &[u8]) {
    let (first, second) = (compiled(rt, one), compiled(rt, other));
    let (mine, theirs) = (sequential(rt, one, b""), sequential(rt, other, b""));
    let right = join(
        rt,
        || runs(rt, &first, SIZES[0], &mine),
        || runs(rt, &second, SIZES[1], &theirs),
    );
    assert!(*rt; right == (true, true));
}

#[test]
fn two_programs_at_once(rt: HostRuntime) {
    both(&rt, SQUARES, TWO_APART);
}
