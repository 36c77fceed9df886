//! Units of time, one after another.

ghost use Rattle.std.specs.Prelude.{◌≡◌, IfOk, None, OnOk, length};
ghost use Rattle.unrecorded.specs.View.{IsGoing};
ghost use Rattle.model_time.specs.Records.{AlsoRecords, Records};
ghost use Rattle.model_time.specs.Units.{AreUnits, IsLeft, IsUnit, IsUnitOf, added_to};
ghost use Rattle.model_time.specs.Units.{no_figures_of};

use crate::figures::Figures;
use crate::record::note;
use crate::turned::turn;
use machine::{Code, Loop, Open};
use schedules::Schedule;
use std::alloc::{AllocError, Global};
use unrecorded::Run;

/// What was counted of a run so far.
#[derive(Drop)]
pub struct Totals {
    pub program: Figures,
    /// Of each loop of the code, by its number, in the units at whose beginning it was open.
    pub loops: Vec<Figures>,
}

/// Nothing, of each of these loops.
fn no_figures_of(alloc: Global, loops: &[Loop]) -> Result<Vec<Figures>, AllocError>
    ensures { IfOk result (λ v. v.items ≡ no_figures_of (length loops.now)) }
{
    let mut figures = Vec::new(alloc);
    while figures.len() < loops.len() {
        figures.push(Figures::none())?;
    }
    Ok(figures)
}

/// The figures of a unit are added to those of the loop that was open at its beginning, if one was.
fn add_to(loops: &mut [Figures], around: Option<Open>, unit: Figures)
    ensures { loops.new ≡ added_to around unit loops.old }
{
    let Some(around) = around else {
        return;
    };
    let place = around.number as usize;
    if place < loops.len() {
        loops[place] = loops[place].joined(unit);
    }
}

impl Totals {
    ghost use Rattle.std.specs.Prelude.{◌≡◌, IfOk, length};
    ghost use Rattle.model_time.specs.Figures.{joined, no_figures};
    ghost use Rattle.model_time.specs.Units.{added_to, no_figures_of};

    /// Nothing, of code.
    pub fn none(alloc: Global, code: &Code) -> Result<Totals, AllocError>
        ensures program { IfOk result (λ t. t.program ≡ no_figures) }
        ensures loops { IfOk result (λ t.
            t.loops.items ≡ no_figures_of (length code.now.loops.items)) }
    {
        Ok(Totals {
            program: Figures::none(),
            loops: no_figures_of(alloc, &code.loops)?,
        })
    }

    /// A unit is added, at whose beginning this loop was open, if any.
    fn add(&mut self, around: Option<Open>, unit: Figures)
        ensures program { self.new.program ≡ joined self.old.program unit }
        ensures loops { self.new.loops.items ≡ added_to around unit self.old.loops.items }
    {
        self.program = self.program.joined(unit);
        add_to(&mut self.loops, around, unit);
    }
}

/// The turns of all processors, one after another, which are added to the schedule, if one is kept.
fn turns(run: &mut Run<'_>, kept: &mut Option<Schedule>) -> Result<Figures, AllocError>
    requires records { Records run.old kept.old }
    ensures unit { IfOk result (λ figures. IsUnit run.old figures run.new) }
    ensures records { OnOk result (AlsoRecords kept.old run.new kept.new) }
{
    let mut figures = Figures::unit();
    for q in 0..run.processors() {
        let turned = turn(run, q)?;
        note(kept, q, turned)?;
        figures = figures.counted(turned, run.overlap());
    }
    Ok(figures)
}

/// A unit of time of a run that hasn't ended; what was counted of it.
fn unit(
    run: &mut Run<'_>,
    kept: &mut Option<Schedule>,
    totals: &mut Totals,
) -> Result<Figures, AllocError>
    requires going { IsGoing run.old }
    requires records { Records run.old kept.old }
    ensures unit { IfOk result (λ figures. IsUnitOf figures
        run.old totals.old.program totals.old.loops.items
        run.new totals.new.program totals.new.loops.items) }
    ensures records { OnOk result (AlsoRecords kept.old run.new kept.new) }
{
    let around = run.open_loop();
    let figures = turns(run, kept)?;
    totals.add(around, figures);
    Ok(figures)
}

/// Units of time until the run has ended, or so many steps were made, or a unit had none.
pub fn units(
    run: &mut Run<'_>,
    kept: &mut Option<Schedule>,
    totals: &mut Totals,
    most: u64,
) -> Result<(), AllocError>
    requires records { Records run.old kept.old }
    ensures units { OnOk result (AreUnits run.old totals.old.program totals.old.loops.items run.new
        totals.new.program totals.new.loops.items) }
    ensures records { OnOk result (AlsoRecords kept.old run.new kept.new) }
    ensures left { OnOk result (IsLeft most run.new totals.new.program) }
{
    let mut left = most;
    while left > 0 && !run.has_ended() {
        let Figures { steps, again, .. } = unit(run, kept, totals)?;
        let made = steps.saturating_add(again);
        if made == 0 {
            break;
        }
        left = left.saturating_sub(made);
    }
    Ok(())
}
