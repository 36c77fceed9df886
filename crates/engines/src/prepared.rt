//! What commands begin from: a source that is judged and compiled, and a run of its code that a
//! schedule describes.

ghost use Rattle.std.specs.Prelude.{◌≡◌, IfOk, List, ℕ};
ghost use Rattle.ast.specs.ProgramView.{program as program_of};
ghost use Rattle.profile_check.specs.Reads.{Reads};
ghost use Rattle.command_output.specs.Shown.{no_schedule};
ghost use Rattle.command_output.specs.declared.outcomes.Outcome.TheVariants as outcomes;
ghost use Rattle.engines.specs.Prepared.{IsCoded, IsDescribed, IsPrepared};

use crate::verdict::{Verdict, judged};
use ast::Program;
use codegen::{CompileRefusal, Compiled, LoopReport, compile};
use command_output::{Outcome, Page, append_no_schedule, refused};
use machine::Code;
use schedules::{Flaw, ReplayRefusal, Schedule};
use std::alloc::{AllocError, Global};

/// A program with its code, and the reports of its loops.
#[derive(Drop)]
pub struct Coded {
    pub program: Program,
    pub code: Code,
    pub reports: Vec<LoopReport>,
}

/// What a source is prepared to be.
#[derive(Drop)]
pub enum Prepared {
    /// A program with its code.
    Coded(Coded),
    /// Neither: the page of its refusal, by its text or for its code.
    Refused(Page),
}

/// A run of a program's code, by the schedule that describes it.
#[derive(Drop)]
pub struct Run {
    pub coded: Coded,
    pub schedule: Schedule,
}

/// What a source and the text of a schedule describe.
#[derive(Drop)]
pub enum Described {
    /// A run.
    Run(Run),
    /// None: the page of the refusal of the source or of the schedule's text.
    Refused(Page),
}

/// The page of a schedule that is refused.
///
/// # Errors
///
/// `AllocError` where memory is refused.
pub fn unscheduled(alloc: Global, flaw: Flaw, line: usize) -> Result<Page, AllocError>
    ensures { IfOk result (λ page. (page.outcome ≡ outcomes.NoSchedule flaw line)
        × (page.text.items ≡ no_schedule flaw line)) }
{
    let mut text = Vec::new(alloc);
    append_no_schedule(&mut text, flaw, line)?;
    Ok(Page {
        text,
        outcome: Outcome::NoSchedule { number: flaw, line },
    })
}

/// Compiles the program of a source.
fn compiled(alloc: Global, program: Program) -> Result<Prepared, AllocError>
    ensures { IfOk result (λ prepared. (source : List ℕ) → Reads source (program_of program)
        → IsPrepared source prepared) }
{
    match compile(alloc, &program) {
        Ok(Compiled { code, reports }) => Ok(Prepared::Coded(Coded {
            program,
            code,
            reports,
        })),
        Err(CompileRefusal::Refused { number, line }) => {
            Ok(Prepared::Refused(refused(alloc, number, line)?))
        }
        Err(CompileRefusal::Memory) => Err(AllocError),
    }
}

/// Judges a source and compiles it.
///
/// # Errors
///
/// `AllocError` where memory is refused.
pub fn prepare(alloc: Global, source: &[u8]) -> Result<Prepared, AllocError>
    ensures { IfOk result (IsPrepared source.now) }
{
    match judged(alloc, source)? {
        Verdict::Accepted(program) => compiled(alloc, program),
        Verdict::Refused { number, line } => Ok(Prepared::Refused(refused(alloc, number, line)?)),
    }
}

/// Reads the schedule of a run of code.
fn read(alloc: Global, coded: Coded, schedule: &[u8]) -> Result<Described, AllocError>
    ensures { IfOk result (λ described. (source : List ℕ) → IsCoded source coded
        → IsDescribed source schedule.now described) }
{
    match Schedule::parse(alloc, schedule) {
        Ok(schedule) => Ok(Described::Run(Run { coded, schedule })),
        Err(ReplayRefusal::Refused { number, line }) => {
            Ok(Described::Refused(unscheduled(alloc, number, line)?))
        }
        Err(ReplayRefusal::Memory) => Err(AllocError),
    }
}

/// Judges a source, compiles it, and reads the schedule of a run of its code.
///
/// # Errors
///
/// `AllocError` where memory is refused.
pub fn describe(alloc: Global, source: &[u8], schedule: &[u8]) -> Result<Described, AllocError>
    ensures { IfOk result (IsDescribed source.now schedule.now) }
{
    match prepare(alloc, source)? {
        Prepared::Coded(coded) => read(alloc, coded, schedule),
        Prepared::Refused(page) => Ok(Described::Refused(page)),
    }
}
