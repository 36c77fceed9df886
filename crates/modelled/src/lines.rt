//! The lines of figures.

ghost use Rattle.std.specs.Prelude.{◌≡◌, ◌<◌, ◌^◌, ◌++◌, OnOk};
ghost use Rattle.modelled.specs.Lines.{paced, program_line, rounded, tenths, waiting_words};
ghost use Rattle.modelled.specs.Lines.{head_words, loop_line, loop_lines, loop_shown};
ghost use Rattle.modelled.specs.Lines.{overlap_words, retired_words};

use crate::heads::Head;
use explanations::append_number;
use model_time::Figures;
use std::alloc::AllocError;

/// So many times a part of a whole, to the nearest whole number, a half upwards; 0 of nothing.
fn rounded(scale: u128, part: u128, whole: u128) -> u128
    requires scale { scale < 2 ^ 8 }
    requires part { part < 2 ^ 70 }
    requires whole { whole < 2 ^ 70 }
    ensures { result ≡ rounded scale part whole }
{
    if whole == 0 {
        return 0;
    }
    (2 * scale * part + whole) / (2 * whole)
}

/// Appends a number of tenths, with its decimal.
fn append_tenths(out: &mut Vec<u8>, number: u128) -> Result<(), AllocError>
    ensures { OnOk result (out.new.items ≡ out.old.items ++ tenths number) }
{
    append_number(out, number / 10)?;
    out.push(b'.')?;
    append_number(out, number % 10)
}

/// Appends how many steps were made in which time.
fn append_pace(out: &mut Vec<u8>, figures: &Figures) -> Result<(), AllocError>
    ensures { OnOk result (out.new.items ≡ out.old.items ++ paced figures.now) }
{
    out.extend_from_slice(b" STEPS ")?;
    append_number(out, figures.steps)?;
    out.extend_from_slice(b" TIME ")?;
    append_number(out, figures.time)?;
    out.extend_from_slice(b" SPEEDUP ")?;
    append_tenths(
        out,
        rounded(10, u128::from(figures.steps), u128::from(figures.time)),
    )
}

/// Appends in which share of the turns no step was made, and ends the line.
fn append_waiting(out: &mut Vec<u8>, figures: &Figures) -> Result<(), AllocError>
    ensures { OnOk result (out.new.items ≡ out.old.items ++ waiting_words figures.now) }
{
    let waits = u128::from(figures.waits);
    let turns = u128::from(figures.steps) + u128::from(figures.again) + waits;
    out.extend_from_slice(b" WAITING ")?;
    append_number(out, rounded(100, waits, turns))?;
    out.extend_from_slice(b"%\n")
}

/// Appends the line of a whole run.
pub fn append_program(out: &mut Vec<u8>, figures: &Figures) -> Result<(), AllocError>
    ensures { OnOk result (out.new.items ≡ out.old.items ++ program_line figures.now) }
{
    out.extend_from_slice(b"PROGRAM")?;
    append_pace(out, figures)?;
    append_waiting(out, figures)
}

/// Appends the beginning of a loop's line.
fn append_head(out: &mut Vec<u8>, head: Head) -> Result<(), AllocError>
    ensures { OnOk result (out.new.items ≡ out.old.items ++ head_words head.number head.line) }
{
    out.extend_from_slice(b"LOOP ")?;
    append_number(out, head.number)?;
    out.extend_from_slice(b" LINE ")?;
    append_number(out, head.line)
}

/// Appends how many iterations retired.
fn append_retired(out: &mut Vec<u8>, retired: u64) -> Result<(), AllocError>
    ensures { OnOk result (out.new.items ≡ out.old.items ++ retired_words retired) }
{
    out.extend_from_slice(b" ITERATIONS ")?;
    append_number(out, retired)
}

/// Appends how many iterations were open at once.
fn append_overlap(out: &mut Vec<u8>, overlap: u128) -> Result<(), AllocError>
    ensures { OnOk result (out.new.items ≡ out.old.items ++ overlap_words overlap) }
{
    out.extend_from_slice(b" OPEN ")?;
    append_number(out, overlap)
}

/// Appends the line of a loop.
fn append_loop(out: &mut Vec<u8>, head: Head, figures: &Figures) -> Result<(), AllocError>
    ensures { OnOk result (out.new.items ≡ out.old.items
        ++ loop_line head.number head.line figures.now) }
{
    append_head(out, head)?;
    append_retired(out, figures.retired)?;
    append_pace(out, figures)?;
    append_overlap(out, figures.overlap)?;
    append_waiting(out, figures)
}

/// Appends the line of a loop that was open for a time.
fn append_opened(out: &mut Vec<u8>, head: Head, figures: &Figures) -> Result<(), AllocError>
    ensures { OnOk result (out.new.items ≡ out.old.items ++ loop_shown head figures.now) }
{
    if figures.time == 0 {
        return Ok(());
    }
    append_loop(out, head, figures)
}

/// Appends the lines of the loops that were open for a time.
pub fn append_loops(out: &mut Vec<u8>, heads: &[Head], loops: &[Figures]) -> Result<(), AllocError>
    ensures { OnOk result (out.new.items ≡ out.old.items ++ loop_lines heads.now loops.now) }
{
    let mut left = loops;
    for head in heads {
        let [figures, rest @ ..] = left else {
            break;
        };
        append_opened(out, *head, figures)?;
        left = rest;
    }
    Ok(())
}
