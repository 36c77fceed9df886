//! Where the events of a plan's body are advanced.

ghost use Rattle.std.specs.Prelude.{◌≡◌, ◌++◌, List, OnOk, Option, map, ℕ};
ghost use Rattle.dependence.specs.Plan.{PlanArms, PlanNode};
ghost use Rattle.dependence.specs.PlanView.{arm_view, arms as arms_of, last_arm, plan_block};
ghost use Rattle.dependence.specs.PlanView.{plan_node};
ghost use Rattle.engines.specs.Advanced as spec;

use ast::Line;
use dependence::{PlanArm, PlanStmt};
use std::alloc::AllocError;

/// Where an event is advanced.
#[derive(Clone, Copy)]
pub enum Spot {
    /// Behind the statement of this line.
    Behind(Line),
    /// At the beginning of the arm of this line: that of its IF, ELSE IF or ELSE.
    Arm(Line),
    /// In an ELSE that was made for the IF of this line.
    Made(Line),
}

impl Spot {
    ghost use Rattle.std.specs.Prelude.{◌≡◌};
    ghost use Rattle.engines.specs.Advanced as spec;

    /// Whether it is behind a statement.
    pub fn is_behind(self) -> bool
        ensures { result ≡ spec.is_behind self }
    {
        match self {
            Spot::Behind(_) => true,
            Spot::Arm(_) | Spot::Made(_) => false,
        }
    }
}

/// The line of an IF, by its arms, of which there is always one.
fn first_line(arms: &[PlanArm]) -> Line
    ensures { (made : Option (List PlanNode)) → result
        ≡ spec.first_line (arms_of (map arm_view arms.now) (last_arm made)) }
{
    match arms {
        [] => 0,
        [first, ..] => first.line,
    }
}

/// Appends the advances of arms, whatever stands behind them.
#[cycle(spots)]
fn add_arms(arms: &[PlanArm], found: &mut Vec<(usize, Spot)>) -> Result<(), AllocError>
    ensures { OnOk result ((line : ℕ) → (last : PlanArms) → found.old.items
        ++ spec.arm_spots line (arms_of (map arm_view arms.now) last) ≡ found.new.items
        ++ spec.arm_spots line last) }
{
    for arm in arms {
        add_spots(Spot::Arm(arm.line), &arm.body, found)?;
    }
    Ok(())
}

/// Appends the advances of a statement, of which some may stand in it, and moves the spot behind
/// it.
#[cycle(spots)]
fn add_node(
    here: &mut Spot,
    node: &PlanStmt,
    found: &mut Vec<(usize, Spot)>,
) -> Result<(), AllocError>
    ensures found { OnOk result (found.new.items ≡ found.old.items
        ++ spec.node_spots here.old (plan_node node.now)) }
    ensures moved { OnOk result (here.new ≡ spec.moved here.old (plan_node node.now)) }
{
    match node {
        PlanStmt::Await(_, _) => {}
        PlanStmt::Advance(event) => found.push((*event, *here))?,
        PlanStmt::Plain(statement) => *here = Spot::Behind(statement.line),
        PlanStmt::Loop(line, _, _) => *here = Spot::Behind(*line),
        PlanStmt::Choice(arms, made) => {
            let line = first_line(arms);
            add_arms(arms, found)?;
            match made {
                Some(body) => add_spots(Spot::Made(line), body, found)?,
                None => {}
            }
            *here = Spot::Behind(line);
        }
    }
    Ok(())
}

/// Appends the advances of statements, of which the first stands at a spot: each event with its
/// spot, in source order.
#[cycle(spots)]
pub fn add_spots(
    first: Spot,
    nodes: &[PlanStmt],
    found: &mut Vec<(usize, Spot)>,
) -> Result<(), AllocError>
    ensures { OnOk result (found.new.items ≡ found.old.items
        ++ spec.spots first (plan_block nodes.now)) }
{
    let mut here = first;
    for node in nodes {
        add_node(&mut here, node, found)?;
    }
    Ok(())
}
