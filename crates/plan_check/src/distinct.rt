//! The different events that a plan names.

ghost use Rattle.std.specs.Prelude.{◌≡◌, ◌||◌, Bool, IfOk, OnOk, ℕ};
ghost use Rattle.std.specs.List.{list_any};
ghost use Rattle.plan_check.specs.Judging.{has_event};

use std::alloc::{AllocError, Global};

fn has_event(events: &[usize], event: usize) -> bool
    ensures { result ≡ has_event events.now event }
{
    for other in events {
        if *other == event {
            return true;
        }
    }
    false
}

/// Adds an event, unless it is among them.
#[tactic(auto, using(crate::proofs::EachOnce::any_more, crate::proofs::EachOnce::any_same))]
fn add_event(events: &mut Vec<usize>, event: usize) -> Result<(), AllocError>
    ensures { OnOk result ((test : ℕ → Bool) → list_any test events.new.items
        ≡ (list_any test events.old.items || test event)) }
{
    if has_event(events, event) {
        return Ok(());
    }
    events.push(event)?;
    Ok(())
}

/// The events that are named, each once.
///
/// # Errors
///
/// `AllocError` where memory is refused.
pub fn distinct(alloc: Global, named: &[(usize, u128)]) -> Result<Vec<usize>, AllocError>
    ensures { IfOk result (λ events. (test : ℕ → Bool) → list_any test events.items
        ≡ list_any (λ n. test n.0) named.now) }
{
    let mut events = Vec::new(alloc);
    for (event, _) in named {
        add_event(&mut events, *event)?;
    }
    Ok(events)
}
