//! The engines, over any readers and writers: they read to the end, work over values, and write
//! what came of it.

ghost use Rattle.std.specs.Prelude.{◌≡◌, IfOk, IfErr};
ghost use Rattle.command_output.specs.Outcomes.{of_input, of_source};
ghost use Rattle.command_output.specs.Reading.{LeavesThree};
ghost use Rattle.engines.specs.Coded.{ShowsCode};
ghost use Rattle.engines.specs.Engines.{AfterRead, Checks, EndsOfSource, FailsOfSource, IsJudged};
ghost use Rattle.engines.specs.Engines.{LeavesReader, LeavesReaders, SeqEnds, SeqFails, Streaming};
ghost use Rattle.engines.specs.Engines.{StreamingWith, Tells, Works};
ghost use Rattle.engines.specs.Lists.{Lists, StreamsWhy, TellsLoops, WritesLoops};
ghost use Rattle.engines.specs.Schedules.{ReplayEnds, ReplayFails, Replaying, UpgradeEnds};
ghost use Rattle.engines.specs.Schedules.{UpgradeFails, UpgradeWorks, Upgrading};

use crate::coded::coded;
use crate::explained::explain_loops;
use crate::listing::listed;
use crate::prepared::{Prepared, prepare};
use crate::replays::{replayed, upgrade_texts};
use crate::sequential::seq_texts;
use crate::told::told;
use crate::verdict::{Verdict, judged};
use command_output::{EngineFault, Outcome, ReadFault, read_all, read_three};
use std::alloc::Global;
use std::io::{Read, Write};

/// Writes the line of a verdict.
///
/// # Errors
///
/// A fault of the writer, with a beginning of the line written; or of memory, with nothing written.
pub fn tell_verdict<W: Write>(
    alloc: Global,
    verdict: &Verdict,
    out: &mut W,
) -> Result<Outcome, EngineFault>
    requires { IsJudged verdict.now }
    ensures { Works (Tells verdict.now) (W.contents out.old) (W.contents out.new) result }
{
    let page = told(alloc, verdict)?;
    page.write(out)
}

/// Checks a text and writes its line. The errors are those of [`tell_verdict`].
fn check_text<W: Write>(alloc: Global, source: &[u8], out: &mut W) -> Result<Outcome, EngineFault>
    ensures { Works (Checks source.now) (W.contents out.old) (W.contents out.new) result }
{
    let verdict = judged(alloc, source)?;
    tell_verdict(alloc, &verdict, out)
}

/// Writes the lines of each loop of a prepared source, or that of its refusal.
///
/// # Errors
///
/// A fault of the writer, with a beginning of the lines written; or of memory, with nothing
/// written.
fn tell_listing<W: Write>(
    alloc: Global,
    prepared: &Prepared,
    out: &mut W,
) -> Result<Outcome, EngineFault>
    ensures { Works (TellsLoops prepared.now) (W.contents out.old) (W.contents out.new) result }
{
    match prepared {
        Prepared::Coded(coded) => {
            let page = listed(alloc, &coded.reports)?;
            page.write(out)
        }
        Prepared::Refused(page) => page.write(out),
    }
}

/// Writes the lines of a prepared source's loops as [`tell_listing`] does, and where it is wanted
/// behind those of each loop some that say why; these are written while they are made.
///
/// # Errors
///
/// Those of [`tell_listing`]; where reasons are wanted a beginning of the lines may have been
/// written when memory is refused.
pub fn tell_loops<W: Write>(
    alloc: Global,
    prepared: &Prepared,
    why: bool,
    out: &mut W,
) -> Result<Outcome, EngineFault>
    ensures { WritesLoops why prepared.now (W.contents out.old) (W.contents out.new) result }
{
    if why {
        tell_reasons(alloc, prepared, out)
    } else {
        tell_listing(alloc, prepared, out)
    }
}

/// Writes the lines of a prepared source's loops, and behind those of each some that say why.
fn tell_reasons<W: Write>(
    alloc: Global,
    prepared: &Prepared,
    out: &mut W,
) -> Result<Outcome, EngineFault>
    ensures { StreamsWhy prepared.now (W.contents out.old) (W.contents out.new) result }
{
    match prepared {
        Prepared::Coded(coded) => explain_loops(alloc, &coded.program, &coded.reports, out),
        Prepared::Refused(page) => page.write(out),
    }
}

/// Writes the lines of a text's loops. The errors are those of [`tell_listing`].
fn list_text<W: Write>(alloc: Global, source: &[u8], out: &mut W) -> Result<Outcome, EngineFault>
    ensures { Works (Lists source.now) (W.contents out.old) (W.contents out.new) result }
{
    let prepared = prepare(alloc, source)?;
    tell_listing(alloc, &prepared, out)
}

/// Writes the lines of the code of a text, or that of its refusal.
///
/// # Errors
///
/// A fault of the writer, with a beginning of the lines written; or of memory, with nothing
/// written.
pub fn code_text<W: Write>(
    alloc: Global,
    source: &[u8],
    out: &mut W,
) -> Result<Outcome, EngineFault>
    ensures { Works (ShowsCode source.now) (W.contents out.old) (W.contents out.new) result }
{
    let page = coded(alloc, source)?;
    page.write(out)
}

/// Replays a schedule of a text on an input, and writes its records and what follows them: at a
/// fault or a STOP its line. Where there is nothing to replay the line says why.
///
/// # Errors
///
/// A fault of the writer, with a beginning of the text written; or of memory, with nothing written.
pub fn replay_texts<W: Write>(
    alloc: Global,
    source: &[u8],
    input: &[u8],
    schedule: &[u8],
    out: &mut W,
) -> Result<Outcome, EngineFault>
    ensures { Works (Replaying source.now input.now schedule.now) (W.contents out.old)
        (W.contents out.new) result }
{
    let page = replayed(alloc, source, input, schedule)?;
    page.write(out)
}

/// Upgrades a schedule of a text on an input: writes the text of the schedule with its picks named
/// to `upgraded`, or where there is none the line that says why to `out`.
fn upgrade_given<W: Write, V: Write>(
    alloc: Global,
    source: &[u8],
    input: &[u8],
    schedule: &[u8],
    out: &mut W,
    upgraded: &mut V,
) -> Result<Outcome, EngineFault>
    ensures { UpgradeWorks (Upgrading source.now input.now schedule.now) (W.contents out.old)
        (W.contents out.new) (V.contents upgraded.old) (V.contents upgraded.new) result }
{
    let made = upgrade_texts(alloc, source, input, schedule)?;
    made.write(out, upgraded)
}

/// What `check` makes of its read.
fn check_read<W: Write>(
    alloc: Global,
    source: Result<Vec<u8>, ReadFault>,
    out: &mut W,
) -> Result<Outcome, EngineFault>
    ensures { AfterRead source of_source (W.contents out.old) (W.contents out.new) result
        (λ text. Works (Checks text) (W.contents out.old) (W.contents out.new) result) }
{
    let source = source.map_err(EngineFault::of_source)?;
    check_text(alloc, &source, out)
}

/// What `list` makes of its read.
fn list_read<W: Write>(
    alloc: Global,
    source: Result<Vec<u8>, ReadFault>,
    out: &mut W,
) -> Result<Outcome, EngineFault>
    ensures { AfterRead source of_source (W.contents out.old) (W.contents out.new) result
        (λ text. Works (Lists text) (W.contents out.old) (W.contents out.new) result) }
{
    let source = source.map_err(EngineFault::of_source)?;
    list_text(alloc, &source, out)
}

/// What `seq` makes of the read of its input, the source's having succeeded.
fn seq_given<W: Write>(
    alloc: Global,
    source: &[u8],
    input: Result<Vec<u8>, ReadFault>,
    store: bool,
    most: usize,
    out: &mut W,
) -> Result<Outcome, EngineFault>
    ensures { AfterRead input of_input (W.contents out.old) (W.contents out.new) result
        (λ given. Streaming store source.now given (W.contents out.old) (W.contents out.new)
        result) }
{
    let input = input.map_err(EngineFault::of_input)?;
    seq_texts(alloc, source, &input, store, most, out)
}

/// What `seq` makes of the read of its source: only where that succeeded is the input read.
fn seq_read<I: Read, W: Write>(
    alloc: Global,
    source: Result<Vec<u8>, ReadFault>,
    input: &mut I,
    store: bool,
    most: usize,
    out: &mut W,
) -> Result<Outcome, EngineFault>
    ensures work { AfterRead source of_source (W.contents out.old) (W.contents out.new) result
        (λ text. StreamingWith (I.remaining input.old) store text (W.contents out.old)
        (W.contents out.new) result) }
    ensures untouched { IfErr source (λ _. I.remaining input.new ≡ I.remaining input.old) }
    ensures readers { IfOk source (λ _.
        IfErr result (λ fault. LeavesReader fault (I.remaining input.new))) }
{
    let source = source.map_err(EngineFault::of_source)?;
    let read = read_all(alloc, input);
    seq_given(alloc, &source, read, store, most, out)
}

/// Checks a source, writes its line and gives the exit status: 0, or 1 for a source that is
/// refused.
///
/// # Errors
///
/// A fault of the source's reader, with nothing written; of the writer, with a beginning of the
/// line written; or of memory, with nothing written.
pub fn check<R: Read, W: Write>(
    alloc: Global,
    source: &mut R,
    out: &mut W,
) -> Result<u8, EngineFault>
    ensures ok { IfOk result (EndsOfSource Checks (R.remaining source.old) (W.contents out.old)
        (W.contents out.new)) }
    ensures err { IfErr result (FailsOfSource Checks (R.remaining source.old) (W.contents out.old)
        (W.contents out.new)) }
    ensures readers { IfErr result (λ fault. LeavesReader fault (R.remaining source.new)) }
{
    let read = read_all(alloc, source);
    let outcome = check_read(alloc, read, out)?;
    Ok(outcome.status().number())
}

/// Writes the lines of a source's loops and gives the exit status: 0, or 1 for a source that is
/// refused, by its text or for its code.
///
/// # Errors
///
/// A fault of the source's reader, with nothing written; of the writer, with a beginning of the
/// lines written; or of memory, with nothing written.
pub fn list<R: Read, W: Write>(
    alloc: Global,
    source: &mut R,
    out: &mut W,
) -> Result<u8, EngineFault>
    ensures ok { IfOk result (EndsOfSource Lists (R.remaining source.old) (W.contents out.old)
        (W.contents out.new)) }
    ensures err { IfErr result (FailsOfSource Lists (R.remaining source.old) (W.contents out.old)
        (W.contents out.new)) }
    ensures readers { IfErr result (λ fault. LeavesReader fault (R.remaining source.new)) }
{
    let read = read_all(alloc, source);
    let outcome = list_read(alloc, read, out)?;
    Ok(outcome.status().number())
}

/// Runs a source on an input, writes its records and what follows them, and gives the exit status:
/// 0, 1 for a source that is refused, 2 for a fault. The input is read after the source. The
/// records are written while the program runs, whole records, of which `most` bytes may wait at
/// most.
///
/// # Errors
///
/// A fault of one of the readers, with nothing written; of the writer, with part of the text or a
/// beginning of the records written; or of memory, with nothing or a beginning of the records
/// written.
pub fn seq<R: Read, I: Read, W: Write>(
    alloc: Global,
    source: &mut R,
    input: &mut I,
    store: bool,
    most: usize,
    out: &mut W,
) -> Result<u8, EngineFault>
    ensures ok { IfOk result (SeqEnds store (R.remaining source.old) (I.remaining input.old)
        (W.contents out.old) (W.contents out.new)) }
    ensures err { IfErr result (SeqFails store (R.remaining source.old) (I.remaining input.old)
        (W.contents out.old) (W.contents out.new)) }
    ensures readers { IfErr result (λ fault.
        LeavesReaders fault (R.remaining source.new) (I.remaining input.old)
        (I.remaining input.new)) }
{
    let read = read_all(alloc, source);
    let outcome = seq_read(alloc, read, input, store, most, out)?;
    Ok(outcome.status().number())
}

/// Replays a schedule of a source on an input, writes its records and what follows them, and gives
/// the exit status: 0, 1 for a source that is refused, 2 for a fault, 6 for a schedule that is
/// refused. The input is read after the source, and the schedule after the input.
///
/// # Errors
///
/// A fault of one of the readers, with nothing written; of the writer, with a beginning of the text
/// written; or of memory, with nothing written.
pub fn replay<R: Read, I: Read, S: Read, W: Write>(
    alloc: Global,
    source: &mut R,
    input: &mut I,
    schedule: &mut S,
    out: &mut W,
) -> Result<u8, EngineFault>
    ensures ok { IfOk result (ReplayEnds (R.remaining source.old) (I.remaining input.old)
        (S.remaining schedule.old) (W.contents out.old) (W.contents out.new)) }
    ensures err { IfErr result (ReplayFails (R.remaining source.old) (I.remaining input.old)
        (S.remaining schedule.old) (W.contents out.old) (W.contents out.new)) }
    ensures readers { IfErr result (λ fault.
        LeavesThree fault (R.remaining source.new) (I.remaining input.old)
        (I.remaining input.new) (S.remaining schedule.old) (S.remaining schedule.new)) }
{
    let texts = read_three(alloc, source, input, schedule)?;
    let outcome = replay_texts(alloc, &texts.source, &texts.input, &texts.schedule, out)?;
    Ok(outcome.status().number())
}

/// Upgrades a schedule of a source on an input: writes the text of a schedule in which each pick is
/// named to `upgraded`, or where there is none the line that says why to `out`, and gives the exit
/// status: 0, 1 for a source that is refused, 6 for a schedule that is refused. The readers are
/// read as by [`replay`].
///
/// # Errors
///
/// A fault of one of the readers, with nothing written; of one of the writers, with a beginning of
/// its text written and nothing to the other; or of memory, with nothing written.
pub fn upgrade<R: Read, I: Read, S: Read, W: Write, V: Write>(
    alloc: Global,
    source: &mut R,
    input: &mut I,
    schedule: &mut S,
    upgraded: &mut V,
    out: &mut W,
) -> Result<u8, EngineFault>
    ensures ok { IfOk result (UpgradeEnds (R.remaining source.old) (I.remaining input.old)
        (S.remaining schedule.old) (W.contents out.old) (W.contents out.new)
        (V.contents upgraded.old) (V.contents upgraded.new)) }
    ensures err { IfErr result (UpgradeFails (R.remaining source.old) (I.remaining input.old)
        (S.remaining schedule.old) (W.contents out.old) (W.contents out.new)
        (V.contents upgraded.old) (V.contents upgraded.new)) }
    ensures readers { IfErr result (λ fault.
        LeavesThree fault (R.remaining source.new) (I.remaining input.old)
        (I.remaining input.new) (S.remaining schedule.old) (S.remaining schedule.new)) }
{
    let texts = read_three(alloc, source, input, schedule)?;
    let outcome = upgrade_given(
        alloc,
        &texts.source,
        &texts.input,
        &texts.schedule,
        out,
        upgraded,
    )?;
    Ok(outcome.status().number())
}
