//! What a loop and a plan are by themselves.

ghost use Rattle.std.specs.Prelude.{◌≡◌, ◌&&◌, map, not};
ghost use Rattle.std.specs.List.{list_all};
ghost use Rattle.ast.specs.View.{letters, ref};
ghost use Rattle.loop_tree.specs.TreeView.{seen};
ghost use Rattle.plan_check.specs.Checking as spec;
ghost use Rattle.plan_check.specs.GivenView.{given};
ghost use Rattle.plan_check.specs.GoodPlan.{named};

use crate::given::Given;
use ast::{MOST_EVENTS, Name, Reference};
use dependence::{has_name, has_read, hides_inner};
use loop_tree::LoopView;

/// Whether a step is a constant other than 0.
fn is_step(step: Option<i64>) -> bool
    ensures { result ≡ spec.is_step step }
{
    match step {
        Some(step) => step != 0,
        None => false,
    }
}

fn is_assigned(scalars: &[Reference], name: Name) -> bool
    ensures { result ≡ spec.has_named (map ref scalars.now) name.letters }
{
    for scalar in scalars {
        if scalar.name == name {
            return true;
        }
    }
    false
}

/// Whether names are all those of scalars.
fn are_assigned(scalars: &[Reference], names: &[Name]) -> bool
    ensures { result ≡ list_all (λ n.
        spec.has_named (map ref scalars.now) n) (map letters names.now) }
{
    for name in names {
        if !is_assigned(scalars, *name) {
            return false;
        }
    }
    true
}

/// Whether no name stands twice.
fn are_once(names: &[Name]) -> bool
    ensures { result ≡ spec.are_once (map letters names.now) }
{
    for place in 0..names.len() {
        if has_name(&names[place + 1..], names[place]) {
            return false;
        }
    }
    true
}

fn is_proper(event: usize, distance: u128) -> bool
    ensures { result ≡ spec.is_proper (event, distance) }
{
    1 <= event && event <= MOST_EVENTS && 1 <= distance
}

fn are_proper(events: &[(usize, u128)]) -> bool
    ensures { result ≡ list_all (λ n. spec.is_proper n) events.now }
{
    for (event, distance) in events {
        if !is_proper(*event, *distance) {
            return false;
        }
    }
    true
}

fn is_fit(step: bool, read: bool, hidden: bool, assigned: bool, once: bool, proper: bool) -> bool
    ensures { result ≡ (step && (not read && (hidden && (assigned && (once && proper))))) }
{
    step && !read && hidden && assigned && once && proper
}

/// Whether the step is a constant other than 0, there is no READ, inner DO variables are private,
/// private names are those of scalars that the range gives values, none of them given twice, and
/// the events that the plan names are from 1 to 64, at distances of at least 1.
pub fn fits(view: &LoopView<'_, '_>, plan: &Given<'_>, events: &[(usize, u128)]) -> bool
    requires { events.now ≡ named (given plan.now).body }
    ensures { result ≡ spec.fits (seen view.now) (given plan.now) }
{
    is_fit(
        is_step(view.step()),
        has_read(view),
        hides_inner(view, plan.privates),
        are_assigned(view.assigned(), plan.privates),
        are_once(plan.privates),
        are_proper(events),
    )
}
