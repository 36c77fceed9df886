//! Runs in threads.

ghost use Rattle.std.specs.Prelude.{◌≡◌, ℕ, List, Err, IfOk, IfErr, OnErr, is_some, true};
ghost use Rattle.machine.specs.Code.{Code as PlainCode};
ghost use Rattle.machine.specs.CodeView.{code_of};
ghost use Rattle.machine.specs.State.{AreSizes};
ghost use Rattle.processors.specs.Calls.{HasTally, IsCoreOf, IsRunOf};
ghost use Rattle.processors.specs.Reached.{IsAnswerOf, IsLeftAt, IsRunIn, IsUnanswered};
ghost use Rattle.processors.specs.Refused.{IsGivenUp, IsRefused};
ghost use Rattle.processors.specs.Telling.{AreBeginnings, Breaks, IsBroken, MayTell, Shows};
ghost use Rattle.processors.specs.Telling.{WasBegun, WritesNone};

use crate::board::{Board, Next, Standing};
use crate::call::Call;
use crate::desk::Desk;
use crate::driven::Driven;
use crate::gate::Gate;
use crate::report::{Broken, Report, RunRefusal, StartFailure, Streamed};
use crate::runs::{Recorded, Unrecorded};
use crate::telling::Told;
use crate::turnstile::Turnstile;
use crate::work::{Coded, Own};
use ast::Answer;
use machine::Code;
use replay::{Core, CoreRefusal, Legs};
use std::alloc::Global;
use std::io::{Sink, Write};
use std::marker::Brand;
use std::sync::Wait;
use std::thread::Threads;
use std::{io, thread};
use stretches::{Mirror, Stale};
use unrecorded::Run;

/// How many loads and stores a processor makes outside the lock in a row, at most.
const MOST_NOTES: usize = 4096;

/// The turns of processor `q` until it leaves. What it does between two of them is `own`; it hands
/// on the records that it is told, and gives how many bytes.
///
/// # Errors
///
/// The writer's.
fn take_turns<C: Call, D: Driven<C> + Drop, G: Gate, R: Wait, W: Write>(
    rt: &R,
    desk: &Desk<C, D>,
    own: &mut Own<'_, C>,
    q: usize,
    gate: &G,
    told: Told<C>,
    out: &mut W,
) -> io::Result<usize>
    requires { told.shown ≡ 0 }
    ensures ok { IfOk result (λ n. Shows C.text n (W.contents out.old) (W.contents out.new)) }
    ensures err { OnErr result (Breaks C.text (W.contents out.old) (W.contents out.new)) }
{
    let mut told = told;
    for _ in rt.forever() {
        let next = desk.turn(rt, q, own, &mut told);
        told.hand_on(out)?;
        match next {
            Next::Leave => return Ok(told.shown),
            Next::Wait | Next::Again => {}
            Next::Begin(k) => gate.before(q, k),
            Next::Work(begun) => {
                if let Some(k) = begun {
                    gate.before(q, k);
                }
                if own.run().is_err() {
                    desk.give_up(rt);
                }
            }
        }
    }
    unreachable!()
}

/// What processor `q` does, and how many bytes of records it handed on: none where `streams` is
/// false. Where there is no memory for its work the run is given up, and where the writer fails.
///
/// # Errors
///
/// The writer's.
fn process<C: Call, D: Driven<C> + Drop, G: Gate, R: Wait, W: Write>(
    rt: &R,
    desk: &Desk<C, D>,
    coded: &Coded<'_, C>,
    q: usize,
    gate: &G,
    streams: bool,
    out: &mut W,
) -> io::Result<usize>
    requires { streams ≡ true → C.streams ≡ true }
    ensures ok { IfOk result (λ n. Shows C.text n (W.contents out.old) (W.contents out.new)) }
    ensures err { OnErr result (Breaks C.text (W.contents out.old) (W.contents out.new)) }
{
    let Ok(mut own) = coded.own() else {
        desk.give_up(rt);
        return Ok(0);
    };
    let came = take_turns(rt, desk, &mut own, q, gate, coded.told(streams), out);
    if came.is_err() {
        desk.give_up(rt);
    }
    came
}

/// What any processor but the first does: it hands no records on.
fn assist<C: Call, D: Driven<C> + Drop, G: Gate, R: Wait>(
    rt: &R,
    desk: &Desk<C, D>,
    coded: &Coded<'_, C>,
    q: usize,
    gate: &G,
) {
    let _ = process(rt, desk, coded, q, gate, false, &mut io::sink());
}

/// Starts a thread for each processor but the first, which the caller is, and joins all of them.
/// The first hands records on, and gives the writer back with how many bytes.
///
/// # Errors
///
/// That a thread couldn't be started; then the first has done nothing. And that of the writer.
fn run_all<
    C: Call + Send + Sync,
    D: Driven<C> + Drop + Send,
    G: Gate + Sync,
    R: Threads + Wait + Sync,
    W: Write + Drop,
>(
    rt: &R,
    desk: &Desk<C, D>,
    coded: &Coded<'_, C>,
    processors: usize,
    gate: &G,
    streams: bool,
    out: W,
) -> (W, Result<usize, Broken>)
    requires { streams ≡ true → C.streams ≡ true }
    ensures ok { IfOk result.1 (λ n. Shows C.text n (W.contents out) (W.contents result.0)) }
    ensures err { IfErr result.1 (λ why.
        IsBroken why C.text (W.contents out) (W.contents result.0)) }
{
    thread::scope(
        thread::scope_env(),
        rt,
        move |scope| -> (W, Result<usize, Broken>)
            requires { streams ≡ true → C.streams ≡ true }
            ensures ok { IfOk result.1 (λ n.
                Shows C.text n (W.contents out) (W.contents result.0)) }
            ensures err { IfErr result.1 (λ why.
                IsBroken why C.text (W.contents out) (W.contents result.0)) }
        {
            for q in 1..processors {
                if let Err(error) = scope.spawn(move || assist(rt, desk, coded, q, gate)) {
                    desk.give_up(rt);
                    return (out, Err(Broken::NotStarted(StartFailure::of(&error))));
                }
            }
            let mut out = out;
            match process(rt, desk, coded, 0, gate, streams, &mut out) {
                Ok(shown) => (out, Ok(shown)),
                Err(error) => (out, Err(Broken::Writing(error))),
            }
        },
    )
}

/// What processors have left of a run, the writer, and how many bytes of records were handed on to
/// it; or why the first of them left before the end.
struct Left<C: Call, D: Driven<C> + Drop, W> {
    board: Board<C, D>,
    out: W,
    shown: Result<usize, Broken>,
}

/// A run is driven to its end by as many processors as it has, and is found on the board then.
fn driven<
    C: Call + Send + Sync,
    D: Driven<C> + Drop + Send,
    G: Gate + Sync,
    R: Threads + Wait + Sync,
    W: Write + Drop,
>(
    rt: &R,
    board: Board<C, D>,
    coded: &Coded<'_, C>,
    gate: &G,
    streams: bool,
    out: W,
) -> Left<C, D, W>
    requires { streams ≡ true → C.streams ≡ true }
    ensures ok { IfOk result.shown (λ n.
        Shows C.text n (W.contents out) (W.contents result.out)) }
    ensures err { IfErr result.shown (λ why.
        IsBroken why C.text (W.contents out) (W.contents result.out)) }
{
    let processors = board.processors();
    let desk = Desk::new(board);
    let (out, shown) = run_all(rt, &desk, coded, processors, gate, streams, out);
    Left {
        board: desk.into_board(),
        out,
        shown,
    }
}

/// There was no memory to begin with.
fn nothing(alloc: Global) -> RunRefusal
    ensures recorded { (code : PlainCode) (input : List ℕ) (p s : ℕ) → AreSizes p s
        → IsGivenUp code input p s result }
    ensures unrecorded { (code : PlainCode) (input : List ℕ) (p s : ℕ) → AreSizes p s
        → IsLeftAt code input p s result }
    ensures begun { WasBegun result }
{
    RunRefusal::Memory {
        output: Vec::new(alloc),
    }
}

/// What has come of a recorded run when all threads have left.
fn reported<'c, C: Call, R: Wait>(
    rt: &R,
    board: Board<C, Recorded<'c, C>>,
    coded: &Coded<'_, C>,
) -> Result<Report, RunRefusal>
    ensures ok { IfOk result (λ r.
        IsRunOf C.code C.input C.processors C.slots r.answer r.schedule) }
    ensures tally { IfOk result (λ r.
        HasTally C.code C.input C.slots r.schedule r.tally.made r.tally.again) }
    ensures err { IfErr result (IsGivenUp C.code C.input C.processors C.slots) }
{
    let standing = board.standing();
    let (run, efforts, overlap) = board.into_parts();
    match standing {
        Standing::Going | Standing::Stuck => run.report(rt, coded, efforts, overlap),
        Standing::GivenUp => Err(run.out_of_memory()),
    }
}

/// The recorded run of a call.
fn run_call<'c, C: Call + Send + Sync, G: Gate + Sync, R: Threads + Wait + Sync>(
    rt: &R,
    alloc: Global,
    core: Core<'c>,
    code: &Code,
    gate: &G,
) -> Result<Report, RunRefusal>
    requires of { IsCoreOf C.code C.input C.processors C.slots core }
    requires code { code_of code.now ≡ C.code }
    ensures ok { IfOk result (λ r.
        IsRunOf C.code C.input C.processors C.slots r.answer r.schedule) }
    ensures tally { IfOk result (λ r.
        HasTally C.code C.input C.slots r.schedule r.tally.made r.tally.again) }
    ensures err { IfErr result (IsGivenUp C.code C.input C.processors C.slots) }
{
    let Ok(mirror) = Mirror::new(alloc, 0) else {
        return Err(nothing(alloc));
    };
    let turnstile = Turnstile::new();
    let coded = Coded::<C>::new(alloc, code, &mirror, &turnstile, 0);
    let Ok(legs) = Legs::new(alloc, code) else {
        return Err(nothing(alloc));
    };
    let run = Recorded::new(core, legs);
    let Ok(board) = Board::new(alloc, run, coded.loops(), gate.wants_calls(), None) else {
        return Err(nothing(alloc));
    };
    let Left {
        board,
        out: _,
        shown,
    } = driven(rt, board, &coded, gate, false, io::sink());
    match shown {
        Err(Broken::NotStarted(failure)) => Err(RunRefusal::NotStarted(failure)),
        Ok(_) | Err(Broken::Writing(_)) => reported(rt, board, &coded),
    }
}

/// Runs code on an input by `p` processors, 1 to 64, each a thread of which the caller's is the
/// first, with at most `s` iterations open, 1 to 256. It returns when all threads have left.
/// Iterations overlap where they are long enough, and which processor does what is another matter
/// at each call; the schedule tells it.
///
/// # Errors
///
/// 57 where p or s is out of its range; 58 where a thread couldn't be started, whatever else was
/// met; 59 where code, made by hand, has come to a state that hasn't ended and from which no step
/// leads; and want of memory, with the output of the state in which it was met.
pub fn run<G: Gate + Sync, R: Threads + Wait + Sync>(
    rt: &R,
    alloc: Global,
    code: &Code,
    input: &[u8],
    p: u64,
    s: u64,
    gate: &G,
) -> Result<Report, RunRefusal>
    ensures ok { IfOk result (λ r. IsRunOf (code_of code.now) input.now p s r.answer r.schedule) }
    ensures tally { IfOk result (λ r.
        HasTally (code_of code.now) input.now s r.schedule r.tally.made r.tally.again) }
    ensures err { IfErr result (IsRefused (code_of code.now) input.now p s) }
{
    let core = match Core::new(alloc, code, input, p, s) {
        Ok(core) => core,
        Err(CoreRefusal::OutOfRange) => return Err(RunRefusal::OutOfRange),
        Err(CoreRefusal::Memory) => return Err(nothing(alloc)),
    };
    run_call::<Brand, G, R>(rt, alloc, core, code, gate)
}

/// What has come of a run without a record when all threads have left.
fn answered<'c, C: Call, R: Wait>(
    rt: &R,
    board: Board<C, Unrecorded<'c, C>>,
    coded: &Coded<'_, C>,
) -> Result<Answer, RunRefusal>
    ensures ok { IfOk result (IsAnswerOf C.code C.input C.processors C.slots) }
    ensures err { IfErr result (IsLeftAt C.code C.input C.processors C.slots) }
    ensures begun { IfErr result WasBegun }
{
    let standing = board.standing();
    let (run, _, _) = board.into_parts();
    match standing {
        Standing::Going | Standing::Stuck => run.answer(rt, coded),
        Standing::GivenUp => Err(run.out_of_memory()),
    }
}

/// There is no answer, and nothing was handed on.
fn unshown(refusal: RunRefusal) -> Streamed
    ensures came { result.came ≡ Err refusal }
    ensures none { result.shown ≡ 0 }
{
    Streamed {
        came: Err(refusal),
        shown: 0,
    }
}

/// How many cells the mirror of a run without a record has, and how many loads and stores a
/// stretch: none where there is one processor, which makes no stretches.
fn room(code: &Code, processors: usize) -> (usize, usize) {
    if processors == 1 {
        return (0, 0);
    }
    (code.cells(), MOST_NOTES)
}

/// The run of a call without a record, with the writer, and how many bytes of its records were
/// handed on to it. None are where `most_waiting` is `None`.
///
/// # Errors
///
/// That a thread couldn't be started; and that of the writer.
fn answer_call<
    'c,
    C: Call + Send + Sync,
    G: Gate + Sync,
    R: Threads + Wait + Sync,
    W: Write + Drop,
>(
    rt: &R,
    alloc: Global,
    run: Run<'c>,
    code: &Code,
    gate: &G,
    most_waiting: Option<usize>,
    out: W,
) -> (W, Result<Streamed, Broken>)
    requires of { IsRunIn C.code C.input C.processors C.slots run }
    requires code { code_of code.now ≡ C.code }
    requires streams { is_some most_waiting ≡ true → C.streams ≡ true }
    requires begins { MayTell C.streams C.code C.input C.processors C.slots C.text }
    ensures ok { IfOk result.1 (λ s.
        IfOk s.came (IsAnswerOf C.code C.input C.processors C.slots)) }
    ensures left { IfOk result.1 (λ s.
        IfErr s.came (IsLeftAt C.code C.input C.processors C.slots)) }
    ensures begun { IfOk result.1 (λ s. IfErr s.came WasBegun) }
    ensures shown { IfOk result.1 (λ s.
        Shows C.text s.shown (W.contents out) (W.contents result.0)) }
    ensures broken { IfErr result.1 (λ why.
        IsBroken why C.text (W.contents out) (W.contents result.0)) }
{
    let (cells, notes) = room(code, run.processors());
    let Ok(mirror) = Mirror::new(alloc, cells) else {
        return (out, Ok(unshown(nothing(alloc))));
    };
    let Ok(stale) = Stale::new(alloc, cells) else {
        return (out, Ok(unshown(nothing(alloc))));
    };
    let turnstile = Turnstile::new();
    let coded = Coded::<C>::new(alloc, code, &mirror, &turnstile, notes);
    let run = Unrecorded::new(run, stale);
    let wants_calls = gate.wants_calls();
    let Ok(board) = Board::new(alloc, run, coded.loops(), wants_calls, most_waiting) else {
        return (out, Ok(unshown(nothing(alloc))));
    };
    let left = driven(rt, board, &coded, gate, most_waiting.is_some(), out);
    let Left { board, out, shown } = left;
    match shown {
        Ok(shown) => {
            let came = answered(rt, board, &coded);
            (out, Ok(Streamed { came, shown }))
        }
        Err(broken) => (out, Err(broken)),
    }
}

/// As `run`, but keeps no schedule: the memory that it takes grows only with what is printed.
/// Several processors also make loads and stores of iterations outside the lock, on a mirror of the
/// store. What it gives is the answer.
///
/// # Errors
///
/// Those of `run`.
pub fn run_unrecorded<G: Gate + Sync, R: Threads + Wait + Sync>(
    rt: &R,
    alloc: Global,
    code: &Code,
    input: &[u8],
    p: u64,
    s: u64,
    gate: &G,
) -> Result<Answer, RunRefusal>
    ensures ok { IfOk result (IsAnswerOf (code_of code.now) input.now p s) }
    ensures err { IfErr result (IsUnanswered (code_of code.now) input.now p s) }
{
    let run = match Run::new(alloc, code, input, p, s) {
        Ok(run) => run,
        Err(CoreRefusal::OutOfRange) => return Err(RunRefusal::OutOfRange),
        Err(CoreRefusal::Memory) => return Err(nothing(alloc)),
    };
    match answer_call::<Brand, G, R, Sink>(rt, alloc, run, code, gate, None, io::sink()) {
        (_, Ok(Streamed { came, shown: _ })) => came,
        (_, Err(Broken::NotStarted(failure))) => Err(RunRefusal::NotStarted(failure)),
        (_, Err(Broken::Writing(_))) => Err(nothing(alloc)),
    }
}

/// As `run_unrecorded`, of code whose runs each print a beginning of one text: its records are
/// handed on to `out` while it goes on, and `out` is given back. Of these some `most_waiting` bytes
/// may wait; at 0 each goes on as soon as the caller's thread is told. What is still to be written
/// of the output stands behind what was handed on.
///
/// # Errors
///
/// The writer's, with a beginning of the text written, not all; the run was given up then.
pub fn run_onto<G: Gate + Sync, R: Threads + Wait + Sync, W: Write + Drop>(
    rt: &R,
    alloc: Global,
    code: &Code,
    input: &[u8],
    p: u64,
    s: u64,
    gate: &G,
    most_waiting: usize,
    out: W,
) -> (W, io::Result<Streamed>)
    ghost text: { List ℕ }
    requires begins { AreBeginnings (code_of code.now) input.now p s text }
    ensures ok { IfOk result.1 (λ x. IfOk x.came (IsAnswerOf (code_of code.now) input.now p s)) }
    ensures refused { IfOk result.1 (λ x.
        IfErr x.came (IsUnanswered (code_of code.now) input.now p s)) }
    ensures shown { IfOk result.1 (λ x.
        Shows text x.shown (W.contents out) (W.contents result.0)) }
    ensures none { IfOk result.1 (λ x.
        IfErr x.came (WritesNone (W.contents out) (W.contents result.0))) }
    ensures err { OnErr result.1 (AreSizes p s
        × Breaks text (W.contents out) (W.contents result.0)) }
{
    let run = match Run::new(alloc, code, input, p, s) {
        Ok(run) => run,
        Err(CoreRefusal::OutOfRange) => return (out, Ok(unshown(RunRefusal::OutOfRange))),
        Err(CoreRefusal::Memory) => return (out, Ok(unshown(nothing(alloc)))),
    };
    match answer_call::<Brand, G, R, W>(rt, alloc, run, code, gate, Some(most_waiting), out) {
        (out, Ok(streamed)) => (out, Ok(streamed)),
        (out, Err(Broken::NotStarted(failure))) => {
            (out, Ok(unshown(RunRefusal::NotStarted(failure))))
        }
        (out, Err(Broken::Writing(error))) => (out, Err(error)),
    }
}
