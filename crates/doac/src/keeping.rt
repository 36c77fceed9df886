//! The file that is to have the schedule of a run, for `run` and `model`.

ghost use Rattle.std.specs.Prelude.{◌≡◌, ◌∷◌, option_map};
ghost use Rattle.named_files.specs.Deeds.{Compares, noted};
ghost use Rattle.doac.specs.Deeds.{MayWrite, WroteFirst, named};

use crate::told::{refuse_out, refuse_write};
use command_output::Status;
use named_files::{Clash, NamedFiles};

/// Why a file may not be written where the source's and the input's are read.
fn clash_of<F: NamedFiles>(
    files: &mut F,
    onto: &str,
    source: &str,
    input: Option<&str>,
) -> Option<Clash>
    ensures { F.done files.new ≡ noted (F.done files.old)
        (Compares onto.now (source.now ∷ named (option_map (λ i. i.now) input.entry)) result) }
{
    match input {
        Some(input) => files.clash(onto, &[source, input]),
        None => files.clash(onto, &[source]),
    }
}

/// Finds out whether the file `onto`, if one is named, may be written where the source's and the
/// input's are read.
///
/// # Errors
///
/// The exit status, where it may not; standard error says why.
pub fn check_onto<R: Eprint, F: NamedFiles>(
    rt: &R,
    files: &mut F,
    onto: Option<&str>,
    source: &str,
    input: Option<&str>,
) -> Result<(), Status>
    ensures { MayWrite (option_map (λ o. o.now) onto.entry) source.now
        (option_map (λ i. i.now) input.entry) (F.done files.old) (F.done files.new) result }
{
    let Some(onto) = onto else {
        return Ok(());
    };
    match clash_of(files, onto, source, input) {
        Some(clash) => Err(refuse_out(rt, onto, clash)),
        None => Ok(()),
    }
}

/// Writes the text of a schedule, if there is one, to the file `onto`, if one is named.
///
/// # Errors
///
/// The exit status, where that failed; standard error says why.
pub fn write_first<R: Eprint, F: NamedFiles>(
    rt: &R,
    files: &mut F,
    onto: Option<&str>,
    schedule: Option<&[u8]>,
) -> Result<(), Status>
    ensures { WroteFirst (option_map (λ o. o.now) onto.entry)
        (option_map (λ text. text.now) schedule.entry)
        (F.done files.old) (F.done files.new) result }
{
    let (Some(onto), Some(schedule)) = (onto, schedule) else {
        return Ok(());
    };
    match files.replace(onto, schedule) {
        Ok(()) => Ok(()),
        Err(error) => Err(refuse_write(rt, onto, &error)),
    }
}
