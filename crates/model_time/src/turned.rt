//! What a processor does in a unit of time.

ghost use Rattle.std.specs.Prelude.{◌≡◌, ◌<◌, IfOk};
ghost use Rattle.unrecorded.specs.View.{RunView, Shares, point_at};
ghost use Rattle.model_time.specs.Turns.{IsTurn, left};

use activities::Choice;
use std::alloc::AllocError;
use unrecorded::Run;

/// Where a step of what a processor holds leaves that.
#[derive(Clone, Copy, PartialEq, Eq)]
pub enum Left {
    /// The processor holds it.
    Held,
    /// It is parked.
    Parked,
    /// It was an iteration, and has retired.
    Retired,
}

/// What a processor did in a unit of time.
#[derive(Clone, Copy, PartialEq, Eq)]
pub enum Turned {
    /// The local instruction of what it holds.
    Local,
    /// The shared step of what it holds.
    Shared(Left),
    /// It took this up.
    Picked(Choice),
    /// Nothing.
    Waited,
}

/// Where a step of processor `q` leaves what it held; so many iterations were open before it.
fn left_by(run: &Run<'_>, q: usize, before: u128) -> Left
    requires processor { q < run.now.processors }
    ensures { result ≡ left before q (point_at run.now) }
{
    if run.holds(q) {
        Left::Held
    } else if run.overlap() == before {
        Left::Parked
    } else {
        Left::Retired
    }
}

/// The turn of processor `q`: the local instruction that stands next; else the shared step of what
/// it holds; where it holds nothing it takes up what is least; and else it waits.
pub fn turn(run: &mut Run<'_>, q: usize) -> Result<Turned, AllocError>
    requires processor { q < run.old.processors }
    ensures { IfOk result (λ turned. IsTurn run.old q turned run.new) }
{
    if run.labour(q) {
        return Ok(Turned::Local);
    }
    let before = run.overlap();
    if run.share(q)? {
        return Ok(Turned::Shared(left_by(run, q, before)));
    }
    let choice = run.least();
    if run.pick(q, choice)? {
        return Ok(Turned::Picked(choice));
    }
    Ok(Turned::Waited)
}
