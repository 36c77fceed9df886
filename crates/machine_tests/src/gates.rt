//! Gates of runs in threads: that iterations are open at once, on the processors that the schedule
//! names.

use crate::calls::hand_in;
use crate::sure::{compiled, core_of, pick, step, work_of};
use crate::worked::SQUARES;
use machine::Code;
use processors::{Gate, Report, run};
use replay::{Choice, Core, Stepped};
use schedules::{Act, Entry, Schedule};
use std::process::Abort;
use std::sync::Wait;
use std::sync::atomic::{AtomicU64, Ordering};
use std::thread::{Threads, yield_now};

/// How many turns of waiting a gate yields before it gives up.
const PATIENCE: u32 = 100_000;

/// Holds the first iterations until as many as are wanted have come to their gates.
#[derive(Drop)]
struct Meeting {
    wanted: u64,
    come: AtomicU64,
    gave_up: AtomicU64,
    /// How many times a gate was called.
    calls: AtomicU64,
    /// One more than the processor of iteration 0, of iteration 1, and so on; 0 where none has
    /// come.
    seen: [AtomicU64; 10],
}

impl Meeting {
    fn of(wanted: u64) -> Meeting {
        Meeting {
            wanted,
            come: AtomicU64::new(0),
            gave_up: AtomicU64::new(0),
            calls: AtomicU64::new(0),
            seen: [
                AtomicU64::new(0),
                AtomicU64::new(0),
                AtomicU64::new(0),
                AtomicU64::new(0),
                AtomicU64::new(0),
                AtomicU64::new(0),
                AtomicU64::new(0),
                AtomicU64::new(0),
                AtomicU64::new(0),
                AtomicU64::new(0),
            ],
        }
    }

    /// Waits until all have come.
    fn wait(&self) {
        for _ in 0..PATIENCE {
            if self.come.load(Ordering::SeqCst) >= self.wanted {
                return;
            }
            yield_now();
        }
        self.gave_up.store(1, Ordering::SeqCst);
    }
}

impl Gate for Meeting {
    fn before(&self, processor: usize, iteration: u128) {
        self.calls.fetch_add(1, Ordering::SeqCst);
        if iteration < 10 {
            let name = (processor as u64).wrapping_add(1);
            self.seen[iteration as usize].store(name, Ordering::SeqCst);
        }
        if iteration < u128::from(self.wanted) {
            self.come.fetch_add(1, Ordering::SeqCst);
            self.wait();
        }
    }
}

/// Processor `q` hands in so many local instructions.
fn work(rt: &impl Abort, core: &mut Core<'_>, q: usize, made: u32) {
    let done = work_of(rt, core, q, made);
    hand_in(core, q, done).expect(rt, "the work is taken");
}

/// What an entry says, of a core.
fn share(rt: &impl Abort, core: &mut Core<'_>, q: usize, act: Act) -> Stepped {
    match act {
        Act::Work(made) => {
            work(rt, core, q, u32::from(made));
            Stepped::Went(None)
        }
        Act::Share => step(rt, core, q),
        Act::PickMain => pick(rt, core, q, Choice::Main),
        Act::PickIteration(k) => pick(rt, core, q, Choice::Iteration(k)),
        Act::TakeTicket => pick(rt, core, q, Choice::Ticket),
    }
}

/// What an entry says, of a core, that can go on so. The iteration whose ticket was taken, if one
/// was.
fn follow(rt: &impl Abort, core: &mut Core<'_>, entry: Entry) -> Option<u128> {
    match share(rt, core, usize::from(entry.processor), entry.act) {
        Stepped::Went(begun) => begun,
        _ => panic!(*rt; "the core can do what the entry says"),
    }
}

/// Whether the gates saw this processor begin this iteration.
fn saw(meeting: &Meeting, q: u8, k: u128) -> bool {
    k < 10 && meeting.seen[k as usize].load(Ordering::SeqCst) == u64::from(q).wrapping_add(1)
}

/// How many tickets were taken, and how many of them the gates saw, as a core that is driven by the
/// schedule takes them.
fn tickets(
    rt: &impl Abort,
    meeting: &Meeting,
    core: &mut Core<'_>,
    schedule: &Schedule,
) -> (u64, u64) {
    let mut taken: u64 = 0;
    let mut seen: u64 = 0;
    let mut entries = schedule.entries();
    for _ in 0..schedule.len() {
        let Some(entry) = entries.next() else {
            break;
        };
        if let Some(k) = follow(rt, core, entry) {
            taken = taken.wrapping_add(1);
            seen = seen.wrapping_add(u64::from(saw(meeting, entry.processor, k)));
        }
    }
    (taken, seen)
}

/// Whether the gates saw the ten tickets that a core takes which is driven by the schedule, and no
/// others.
fn are_seen(
    rt: &(impl Abort + AllocGlobal),
    meeting: &Meeting,
    code: &Code,
    schedule: &Schedule,
) -> bool {
    let mut core = core_of(rt, code, b"", meeting.wanted, meeting.wanted);
    tickets(rt, meeting, &mut core, schedule) == (10, 10)
        && meeting.calls.load(Ordering::SeqCst) == 10
}

/// Whether all that were wanted have met, in a run that comes to its end.
fn have_met(meeting: &Meeting, report: &Report) -> bool {
    meeting.gave_up.load(Ordering::SeqCst) == 0
        && report.answer.output.as_slice() == b" 100\n".as_slice()
        && report.overlap == u128::from(meeting.wanted)
}

/// A run of as many processors as are wanted at a meeting.
fn report_of<R: Abort + AllocGlobal + Threads + Wait + Sync>(
    rt: &R,
    code: &Code,
    meeting: &Meeting,
) -> Report {
    let n = meeting.wanted;
    run(rt, rt.alloc(), code, b"", n, n, meeting).expect(rt, "the run comes to its end")
}

/// A run of so many processors, whose first iterations meet.
fn meets<R: Abort + AllocGlobal + Threads + Wait + Sync>(rt: &R, code: &Code, n: u64) {
    let meeting = Meeting::of(n);
    let report = report_of(rt, code, &meeting);
    assert!(rt; have_met(&meeting, &report), "n {n}");
    assert!(rt; are_seen(rt, &meeting, code, &report.schedule), "n {n}");
}

/// Runs of two to four processors.
#[test]
fn two_open(rt: HostRuntime) {
    let code = compiled(&rt, SQUARES);
    for n in 2..5 {
        meets(&rt, &code, n);
    }
}
