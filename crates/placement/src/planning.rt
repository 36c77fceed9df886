//! Plans of loops.

ghost use Rattle.std.specs.Prelude.{◌≡◌, IfOk, false, true};
ghost use Rattle.dependence.specs.Kept.{IsNonzero};
ghost use Rattle.loop_tree.specs.Loops.{AreWhole, IsWhole};
ghost use Rattle.loop_tree.specs.TreeView.{all_seen, seen};
ghost use Rattle.placement.specs.Judged.{IsInside, IsJudged, IsOpened, IsPlaced, IsSerial};
ghost use Rattle.placement.specs.Judged.{IsSuiting};
ghost use Rattle.placement.specs.Placement.{IsPlacement, around_in};
ghost use Rattle.placement.specs.declared.planning.Judged.TheVariants as judged;

use crate::analysis::{Analysis, Kept, analyse};
use crate::counting::add;
use crate::placing::placed_range;
use crate::spots::spots_of;
use dependence::{LoopPlan, SerialReason, has_read, hides_inner};
use loop_tree::{LoopView, ScalarSet};
use privatise::private_scalars;
use std::alloc::{AllocError, Global};

/// What a loop is by itself.
#[derive(Drop)]
enum Judged {
    /// It stays serial, for this reason.
    Serial(SerialReason),
    /// Its iterations may overlap.
    Suits {
        privates: ScalarSet,
        analysis: Analysis,
    },
}

impl Judged {
    ghost use Rattle.std.specs.Prelude.{◌≡◌};
    ghost use Rattle.placement.specs.Judged.{suits_by};

    /// Whether its iterations may overlap.
    fn suits(&self) -> bool
        ensures { result ≡ suits_by self.now }
    {
        match self {
            Judged::Serial(_) => false,
            Judged::Suits { .. } => true,
        }
    }
}

/// A loop's plan, and what it is made of.
#[derive(Drop)]
pub struct Placed {
    pub plan: LoopPlan,
    /// Whether its iterations might overlap if no loop around it were open.
    pub suits: bool,
    /// Of a plan with a body, the statements that are sources, in order: their events have the
    /// numbers from 1 on.
    pub sources: Vec<usize>,
    /// Of a plan with a body, what is kept, in order, each once.
    pub kept: Vec<Kept>,
}

/// Whether a step is a constant other than 0.
fn is_nonzero(step: Option<i64>) -> bool
    ensures yes { result ≡ true → IsNonzero step }
    ensures no { result ≡ false → IsNonzero step → ⊥ }
{
    match step {
        Some(step) => step != 0,
        None => false,
    }
}

fn judge(alloc: Global, view: &LoopView<'_, '_>) -> Result<Judged, AllocError>
    ensures { IfOk result (λ judged. IsJudged (seen view.now) judged) }
{
    if !is_nonzero(view.step()) {
        return Ok(Judged::Serial(SerialReason::NoStep));
    }
    if has_read(view) {
        return Ok(Judged::Serial(SerialReason::Reads));
    }
    let privates = private_scalars(alloc, view)?;
    if !hides_inner(view, &privates.names) {
        return Ok(Judged::Serial(SerialReason::SharedVariable));
    }
    match analyse(alloc, view, &privates.names)? {
        Some(analysis) => Ok(Judged::Suits { privates, analysis }),
        None => Ok(Judged::Serial(SerialReason::ManySources)),
    }
}

/// The plan that opens a loop.
fn opened(
    alloc: Global,
    view: &LoopView<'_, '_>,
    privates: ScalarSet,
    analysis: Analysis,
) -> Result<Placed, AllocError>
    ensures { IfOk result (λ placed. (placed.suits ≡ true)
        × (IsJudged (seen view.now) (judged.Suits privates analysis)
        → IsOpened (seen view.now) placed)) }
{
    let spots = spots_of(alloc, analysis.sources, &analysis.kept)?;
    let first = add(view.statement(), 1)?;
    let body = placed_range(alloc, &spots, first, view.body())?;
    Ok(Placed {
        plan: LoopPlan::Body {
            body,
            privates,
            relations: analysis.relations,
        },
        suits: true,
        sources: spots.sources,
        kept: analysis.kept,
    })
}

/// A loop that stays serial.
fn serial(alloc: Global, reason: SerialReason, suits: bool) -> Placed
    ensures serial { IsSerial reason result }
    ensures suits { result.suits ≡ suits }
{
    Placed {
        plan: LoopPlan::Serial(reason),
        suits,
        sources: Vec::new(alloc),
        kept: Vec::new(alloc),
    }
}

/// The plan of a loop of which the caller knows whether it stands in one that is open, as [`plan`]
/// gives it.
///
/// # Errors
///
/// `AllocError` where memory is refused.
pub fn place(alloc: Global, view: &LoopView<'_, '_>, inside: bool) -> Result<Placed, AllocError>
    ensures { IfOk result (λ placed. IsWhole (seen view.now)
        → IsPlaced (seen view.now) inside placed) }
{
    match judge(alloc, view)? {
        Judged::Serial(reason) => Ok(serial(alloc, reason, false)),
        Judged::Suits { .. } if inside => Ok(serial(alloc, SerialReason::Inside, true)),
        Judged::Suits { privates, analysis } => opened(alloc, view, privates, analysis),
    }
}

/// Whether the iterations of a loop might overlap if no loop around it were open.
fn suits(alloc: Global, view: &LoopView<'_, '_>) -> Result<bool, AllocError>
    ensures { IfOk result (λ yes. IsWhole (seen view.now) → IsSuiting (seen view.now) yes) }
{
    let judged = judge(alloc, view)?;
    Ok(judged.suits())
}

/// Whether one of the loops around this one may be open; `most` of them are looked at.
fn is_inside(alloc: Global, view: &LoopView<'_, '_>, most: usize) -> Result<bool, AllocError>
    ensures { IfOk result (λ inside. AreWhole (all_seen view.now)
        → IsInside (around_in most (all_seen view.now) (seen view.now)) inside) }
{
    if most == 0 {
        return Ok(false);
    }
    match view.around() {
        None => Ok(false),
        Some(outer) => Ok(is_inside(alloc, &outer, most - 1)? || suits(alloc, &outer)?),
    }
}

/// The plan of a loop: where its iterations wait and tell, or the reason of the lowest number that
/// keeps it serial, which is never that the check refuses its plan.
pub fn plan(alloc: Global, view: &LoopView<'_, '_>) -> Result<LoopPlan, AllocError>
    ensures { IfOk result (λ plan. AreWhole (all_seen view.now) → IsWhole (seen view.now)
        → IsPlacement (all_seen view.now) (seen view.now) plan) }
{
    let inside = is_inside(alloc, view, view.count())?;
    Ok(place(alloc, view, inside)?.plan)
}
