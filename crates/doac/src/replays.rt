//! `replay`: what is made of a source, an input and a schedule.

ghost use Rattle.doac.specs.Commands.{Replays};
ghost use Rattle.doac.specs.Deeds.{AfterTexts};
ghost use Rattle.doac.specs.Statuses.{EndsReplay, WritesReplay};

use crate::told::{refuse_file, tell_replay, warn_of_names, warn_of_run};
use command_line::TextFiles;
use command_output::{EngineFault, Outcome, Status, Texts};
use engines::replay_texts;
use named_files::{NamedFiles, Unread, read_texts};
use states::state_texts;
use std::alloc::Global;
use std::io::Write;

/// Replays the schedule of a file, and shows its states if they are wanted. Where the sequential
/// run tells more of its fault that is made behind it, onto `nowhere`.
pub fn replay_files<R: Eprint + AllocGlobal, F: NamedFiles, W: Write>(
    rt: &R,
    files: &mut F,
    out: &mut W,
    nowhere: &mut W,
    names: TextFiles<'_>,
    states: bool,
) -> Status
    ensures { Replays states
        names.entry.source.now names.entry.input.now names.entry.schedule.now
        (F.done files.old) (F.done files.new) (W.contents out.old) (W.contents out.new) result }
{
    warn_of_names(rt, names.source, Some(names.input));
    let texts = read_texts(files, names.source, names.input, names.schedule);
    replay_given(rt, out, nowhere, names, states, texts)
}

/// What `replay` makes of the bytes of its files.
fn replay_given<R: Eprint + AllocGlobal, W: Write>(
    rt: &R,
    out: &mut W,
    nowhere: &mut W,
    names: TextFiles<'_>,
    states: bool,
    texts: Result<Texts, Unread<'_>>,
) -> Status
    ensures { (done : _) → AfterTexts texts.entry done done
        (W.contents out.old) (W.contents out.new) result
        (λ text given picks. EndsReplay states text given picks
        (W.contents out.old) (W.contents out.new) result) }
{
    match texts {
        Ok(texts) => replay_read(rt, out, nowhere, names, states, &texts),
        Err(Unread { name, fault }) => refuse_file(rt, name, &fault),
    }
}

/// Replays the schedule of a file; standard error has its message.
fn replay_read<R: Eprint + AllocGlobal, W: Write>(
    rt: &R,
    out: &mut W,
    nowhere: &mut W,
    names: TextFiles<'_>,
    states: bool,
    texts: &Texts,
) -> Status
    ensures { EndsReplay states
        texts.now.source.items texts.now.input.items texts.now.schedule.items
        (W.contents out.old) (W.contents out.new) result }
{
    let outcome = write_replay(rt.alloc(), out, states, texts);
    warn_of_run(rt, names.source, &texts.source, &outcome);
    tell_replay(rt, nowhere, names, texts, outcome)
}

/// Writes what `replay` shows of texts, or the states of the run that the schedule describes.
fn write_replay<W: Write>(
    alloc: Global,
    out: &mut W,
    states: bool,
    texts: &Texts,
) -> Result<Outcome, EngineFault>
    ensures { WritesReplay states
        texts.now.source.items texts.now.input.items texts.now.schedule.items
        (W.contents out.old) (W.contents out.new) result }
{
    let Texts {
        source,
        input,
        schedule,
    } = texts;
    if states {
        state_texts(alloc, source, input, schedule, out)
    } else {
        replay_texts(alloc, source, input, schedule, out)
    }
}
