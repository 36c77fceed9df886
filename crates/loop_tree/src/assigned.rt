//! The scalars that a range gives values.

ghost use Rattle.std.specs.Prelude.{◌≡◌, OnOk, map};
ghost use Rattle.ast.specs.Tree.{arms as arms_of, terms};
ghost use Rattle.ast.specs.View.{access as access_of, action as action_of, arm as arm_of};
ghost use Rattle.ast.specs.View.{block_view, node as node_of, ref, term};
ghost use Rattle.loop_tree.specs.Loops.{with_arms, with_block, with_kind, with_named, with_node};
ghost use Rattle.loop_tree.specs.Loops.{with_scalar, with_target, with_targets};
ghost use Rattle.loop_tree.specs.ScalarsView.{scalars as scalars_of};

use crate::scalars::Scalars;
use ast::{Access, Action, Arm, Expr, Node, Reference};
use std::alloc::AllocError;

/// Adds a name that is given a value, if it has no subscripts.
fn add_named(
    scalars: &mut Scalars,
    reference: Reference,
    subscripts: &[Expr],
) -> Result<(), AllocError>
    ensures { OnOk result (scalars_of scalars.new
        ≡ with_named (scalars_of scalars.old) (ref reference) (terms (map term subscripts.now))) }
{
    match subscripts {
        [] => scalars.add(reference),
        [_first, _others @ ..] => Ok(()),
    }
}

/// Adds a scalar that is given a value.
fn add_target(scalars: &mut Scalars, target: &Access) -> Result<(), AllocError>
    ensures { OnOk result (scalars_of scalars.new
        ≡ with_target (scalars_of scalars.old) (access_of target.now)) }
{
    add_named(scalars, target.reference, &target.subscripts)
}

fn add_targets(scalars: &mut Scalars, targets: &[Access]) -> Result<(), AllocError>
    ensures { OnOk result (scalars_of scalars.new
        ≡ with_targets (scalars_of scalars.old) (map access_of targets.now)) }
{
    for target in targets {
        add_target(scalars, target)?;
    }
    Ok(())
}

/// Adds the scalars that a statement gives values.
fn add_kind(scalars: &mut Scalars, action: &Action) -> Result<(), AllocError>
    ensures { OnOk result (scalars_of scalars.new
        ≡ with_kind (scalars_of scalars.old) (action_of action.now)) }
{
    match action {
        Action::Assign(target, _) => add_target(scalars, target),
        Action::Read(targets) => add_targets(scalars, targets),
        Action::Print(_) | Action::Stop | Action::Inert(_) => Ok(()),
    }
}

#[cycle(assigned)]
fn add_arms(scalars: &mut Scalars, arms: &[Arm]) -> Result<(), AllocError>
    ensures { OnOk result (scalars_of scalars.new
        ≡ with_arms (scalars_of scalars.old) (arms_of (map arm_of arms.now))) }
{
    for arm in arms {
        add_assigned(scalars, &arm.body)?;
    }
    Ok(())
}

/// Adds a loop's variable and the scalars of its range.
#[cycle(assigned)]
fn add_range(scalars: &mut Scalars, variable: Reference, range: &[Node]) -> Result<(), AllocError>
    ensures { OnOk result (scalars_of scalars.new
        ≡ with_block (with_scalar (scalars_of scalars.old) (ref variable)) (block_view range.now)) }
{
    scalars.add(variable)?;
    add_assigned(scalars, range)
}

#[cycle(assigned)]
fn add_node(scalars: &mut Scalars, node: &Node) -> Result<(), AllocError>
    ensures { OnOk result (scalars_of scalars.new
        ≡ with_node (scalars_of scalars.old) (node_of node.now)) }
{
    match node {
        Node::Plain(statement) => add_kind(scalars, &statement.action),
        Node::Loop(_, head, range) => add_range(scalars, head.variable, range),
        Node::Choice(arms) => add_arms(scalars, arms),
    }
}

/// Adds the scalars that statements give values, variables of loops among them.
#[cycle(assigned)]
pub fn add_assigned(scalars: &mut Scalars, nodes: &[Node]) -> Result<(), AllocError>
    ensures { OnOk result (scalars_of scalars.new
        ≡ with_block (scalars_of scalars.old) (block_view nodes.now)) }
{
    for node in nodes {
        add_node(scalars, node)?;
    }
    Ok(())
}
