//! The lines of a program's loops with those that say why, written while they are made.

ghost use Rattle.std.specs.Prelude.{◌≡◌, [], IfErr, IfOk, OnOk};
ghost use Rattle.engines.specs.Explained.{BreaksEach, BreaksLoop, BreaksOff, BreaksSome, Grows};
ghost use Rattle.engines.specs.Explained.{GrowsSome, StreamsLoops, TellsEach, TellsLoop};
ghost use Rattle.engines.specs.Listing.{Lines};

use crate::listing::append_report;
use ast::Program;
use codegen::LoopReport;
use command_output::{EngineFault, Outcome};
use loop_tree::{LoopTree, loops};
use reasons::{PairLines, Why, why_of};
use record_writer::hand_on;
use std::alloc::{AllocError, Global};
use std::io::Write;

/// So many bytes may wait to be written.
const MOST_WAITING: usize = 65_536;

/// Writes what waits.
fn hand<W: Write>(waiting: &mut Vec<u8>, out: &mut W) -> Result<(), EngineFault>
    ensures ok { OnOk result (Grows (W.contents out.old) waiting.old.items (W.contents out.new)
        waiting.new.items []) }
    ensures empty { waiting.new.items ≡ [] }
    ensures err { IfErr result (BreaksOff (W.contents out.old) waiting.old.items
        (W.contents out.new) []) }
{
    match hand_on(waiting, out) {
        Ok(()) => Ok(()),
        Err(error) => Err(EngineFault::Writing(error)),
    }
}

/// Adds lines behind what waits, and writes all of it where that is much.
fn tell<W: Write>(text: &[u8], waiting: &mut Vec<u8>, out: &mut W) -> Result<(), EngineFault>
    ensures ok { OnOk result (Grows (W.contents out.old) waiting.old.items (W.contents out.new)
        waiting.new.items text.now) }
    ensures err { IfErr result (BreaksOff (W.contents out.old) waiting.old.items
        (W.contents out.new) text.now) }
{
    waiting.extend_from_slice(text)?;
    if waiting.len() < MOST_WAITING {
        return Ok(());
    }
    hand(waiting, out)
}

/// Tells a part of a run of pairs.
fn tell_part<W: Write>(
    alloc: Global,
    pairs: &PairLines<'_, '_>,
    run: usize,
    part: u32,
    waiting: &mut Vec<u8>,
    out: &mut W,
) -> Result<(), EngineFault>
    ensures ok { OnOk result (GrowsSome (W.contents out.old) waiting.old.items (W.contents out.new)
        waiting.new.items) }
    ensures err { IfErr result (BreaksSome (W.contents out.old) waiting.old.items
        (W.contents out.new)) }
{
    let lines = pairs.part(alloc, run, part)?;
    tell(&lines, waiting, out)
}

/// Tells a run of pairs, if it is one of those of whose pairs something is kept, or of the others.
fn tell_run<W: Write>(
    alloc: Global,
    pairs: &PairLines<'_, '_>,
    run: usize,
    kept: bool,
    waiting: &mut Vec<u8>,
    out: &mut W,
) -> Result<(), EngineFault>
    ensures ok { OnOk result (GrowsSome (W.contents out.old) waiting.old.items (W.contents out.new)
        waiting.new.items) }
    ensures err { IfErr result (BreaksSome (W.contents out.old) waiting.old.items
        (W.contents out.new)) }
{
    for part in 0..pairs.parts(run, kept) {
        tell_part(alloc, pairs, run, part, waiting, out)?;
    }
    Ok(())
}

/// Tells the pairs of whose relation something is kept, or the others.
fn tell_runs<W: Write>(
    alloc: Global,
    pairs: &PairLines<'_, '_>,
    kept: bool,
    waiting: &mut Vec<u8>,
    out: &mut W,
) -> Result<(), EngineFault>
    ensures ok { OnOk result (GrowsSome (W.contents out.old) waiting.old.items (W.contents out.new)
        waiting.new.items) }
    ensures err { IfErr result (BreaksSome (W.contents out.old) waiting.old.items
        (W.contents out.new)) }
{
    for run in 0..pairs.runs() {
        tell_run(alloc, pairs, run, kept, waiting, out)?;
    }
    Ok(())
}

/// Tells all pairs that were looked at, those first of whose relation something is kept.
fn tell_pairs<W: Write>(
    alloc: Global,
    pairs: &PairLines<'_, '_>,
    waiting: &mut Vec<u8>,
    out: &mut W,
) -> Result<(), EngineFault>
    ensures ok { OnOk result (GrowsSome (W.contents out.old) waiting.old.items (W.contents out.new)
        waiting.new.items) }
    ensures err { IfErr result (BreaksSome (W.contents out.old) waiting.old.items
        (W.contents out.new)) }
{
    tell_runs(alloc, pairs, true, waiting, out)?;
    tell_runs(alloc, pairs, false, waiting, out)
}

/// Tells the pairs of a loop, if it has such.
fn tell_if_pairs<W: Write>(
    alloc: Global,
    pairs: &Option<PairLines<'_, '_>>,
    waiting: &mut Vec<u8>,
    out: &mut W,
) -> Result<(), EngineFault>
    ensures ok { OnOk result (GrowsSome (W.contents out.old) waiting.old.items (W.contents out.new)
        waiting.new.items) }
    ensures err { IfErr result (BreaksSome (W.contents out.old) waiting.old.items
        (W.contents out.new)) }
{
    match pairs {
        Some(pairs) => tell_pairs(alloc, pairs, waiting, out),
        None => Ok(()),
    }
}

/// Tells the pairs of a loop, and the lines behind them.
fn tell_rest<W: Write>(
    alloc: Global,
    why: &Why<'_, '_>,
    waiting: &mut Vec<u8>,
    out: &mut W,
) -> Result<(), EngineFault>
    ensures ok { OnOk result (GrowsSome (W.contents out.old) waiting.old.items (W.contents out.new)
        waiting.new.items) }
    ensures err { IfErr result (BreaksSome (W.contents out.old) waiting.old.items
        (W.contents out.new)) }
{
    tell_if_pairs(alloc, &why.pairs, waiting, out)?;
    tell(&why.last, waiting, out)
}

/// Tells why a loop is as it is.
fn tell_why<W: Write>(
    alloc: Global,
    why: &Why<'_, '_>,
    waiting: &mut Vec<u8>,
    out: &mut W,
) -> Result<(), EngineFault>
    ensures ok { OnOk result (GrowsSome (W.contents out.old) waiting.old.items (W.contents out.new)
        waiting.new.items) }
    ensures err { IfErr result (BreaksSome (W.contents out.old) waiting.old.items
        (W.contents out.new)) }
{
    tell(&why.first, waiting, out)?;
    tell_rest(alloc, why, waiting, out)
}

/// The lines of a loop without those that say why.
fn lines_of(alloc: Global, number: usize, report: &LoopReport) -> Result<Vec<u8>, AllocError>
    ensures { IfOk result (λ lines. Lines number report.now lines.items) }
{
    let mut lines = Vec::new(alloc);
    append_report(alloc, number, report, &mut lines)?;
    Ok(lines)
}

/// Tells the lines of a loop, and behind them those that say why it is so.
fn tell_loop<W: Write>(
    alloc: Global,
    number: usize,
    report: &LoopReport,
    reports: &[LoopReport],
    tree: &LoopTree<'_>,
    waiting: &mut Vec<u8>,
    out: &mut W,
) -> Result<(), EngineFault>
    ensures ok { OnOk result (TellsLoop number report.now (W.contents out.old) waiting.old.items
        (W.contents out.new) waiting.new.items) }
    ensures err { IfErr result (BreaksLoop number report.now (W.contents out.old)
        waiting.old.items (W.contents out.new)) }
{
    let lines = lines_of(alloc, number, report)?;
    let why = why_of(alloc, tree, number, report, reports)?;
    tell(&lines, waiting, out)?;
    tell_why(alloc, &why, waiting, out)
}

/// Tells the lines of loops, one after another.
fn tell_each<W: Write>(
    alloc: Global,
    tree: &LoopTree<'_>,
    reports: &[LoopReport],
    waiting: &mut Vec<u8>,
    out: &mut W,
) -> Result<(), EngineFault>
    ensures ok { OnOk result (TellsEach reports.now (W.contents out.old) waiting.old.items
        (W.contents out.new) waiting.new.items) }
    ensures err { IfErr result (BreaksEach reports.now (W.contents out.old) waiting.old.items
        (W.contents out.new)) }
{
    for (place, report) in reports.iter().enumerate() {
        tell_loop(alloc, place + 1, report, reports, tree, waiting, out)?;
    }
    Ok(())
}

/// Writes the lines of a program's loops, behind those of each some that say why. Some 64 KiB of
/// lines are kept at most beside those of one loop without its reasons.
///
/// # Errors
///
/// A fault of the writer, or of memory, each with a beginning of the lines written.
pub fn explain_loops<W: Write>(
    alloc: Global,
    program: &Program,
    reports: &[LoopReport],
    out: &mut W,
) -> Result<Outcome, EngineFault>
    ensures { StreamsLoops reports.now (W.contents out.old) (W.contents out.new) result }
{
    let tree = loops(alloc, program)?;
    let mut waiting = Vec::new(alloc);
    tell_each(alloc, &tree, reports, &mut waiting, out)?;
    hand(&mut waiting, out)?;
    Ok(Outcome::Completed)
}
