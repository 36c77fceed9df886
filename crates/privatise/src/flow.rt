//! What the paths through a loop's range do with its scalars, in one pass.

ghost use Rattle.std.specs.Prelude.{◌≡◌, IfOk, OnOk, map, replicate};
ghost use Rattle.ast.specs.Tree.{arms as arms_of, choose, loop};
ghost use Rattle.ast.specs.View.{arm as arm_of, block_view, head as head_of, letters};
ghost use Rattle.ast.specs.View.{node as node_of, ref};
ghost use Rattle.loop_tree.specs.TreeView.{seen};
ghost use Rattle.privatise.specs.Flow as spec;
ghost use Rattle.privatise.specs.Privates.{ArePrivate, private_names};
ghost use Rattle.privatise.specs.declared.walk.Walk.TheVariants.{Missed};

use crate::cells::{join, walk_at};
use crate::passing::{pass_head, pass_kind, pass_term};
use crate::walk::Walk;
use ast::{Arm, DoHead, Name, Node, Reference};
use loop_tree::{LoopView, ScalarSet};
use std::alloc::{AllocError, Global};

/// A loop: its range may be left out.
#[cycle(flow)]
fn pass_loop(
    alloc: Global,
    walks: &mut [Walk],
    head: &DoHead,
    range: &[Node],
) -> Result<(), AllocError>
    ensures { OnOk result (walks.new
        ≡ spec.after_node (loop 0 (head_of head.now) (block_view range.now)) walks.old) }
{
    pass_head(walks, head);
    let before = Vec::from_slice(alloc, walks)?;
    pass_block(alloc, walks, range)?;
    join(walks, &before);
    Ok(())
}

/// The arms of an IF: by one of them, or by none where there is no ELSE.
#[cycle(flow)]
fn pass_arms(alloc: Global, walks: &mut [Walk], arms: &[Arm]) -> Result<(), AllocError>
    ensures { OnOk result (walks.new
        ≡ spec.after_node (choose (arms_of (map arm_of arms.now))) walks.old) }
{
    let mut ended = vec![in alloc; Walk::Defined; walks.len()]?;
    for arm in arms {
        match &arm.condition {
            None => {
                pass_block(alloc, walks, &arm.body)?;
                join(walks, &ended);
                return Ok(());
            }
            Some(condition) => {
                pass_term(walks, condition);
                let mut branch = Vec::from_slice(alloc, walks)?;
                pass_block(alloc, &mut branch, &arm.body)?;
                join(&mut ended, &branch);
            }
        }
    }
    join(walks, &ended);
    Ok(())
}

#[cycle(flow)]
fn pass_node(alloc: Global, walks: &mut [Walk], node: &Node) -> Result<(), AllocError>
    ensures { OnOk result (walks.new ≡ spec.after_node (node_of node.now) walks.old) }
{
    match node {
        Node::Plain(statement) => {
            pass_kind(walks, &statement.action);
            Ok(())
        }
        Node::Loop(_, head, range) => pass_loop(alloc, walks, head, range),
        Node::Choice(arms) => pass_arms(alloc, walks, arms),
    }
}

/// Statements one after another.
#[cycle(flow)]
fn pass_block(alloc: Global, walks: &mut [Walk], nodes: &[Node]) -> Result<(), AllocError>
    ensures { OnOk result (walks.new ≡ spec.after_block (block_view nodes.now) walks.old) }
{
    for node in nodes {
        pass_node(alloc, walks, node)?;
    }
    Ok(())
}

/// What the paths through statements do with the scalars of the first cells.
fn walks_of(alloc: Global, nodes: &[Node], cells: usize) -> Result<Vec<Walk>, AllocError>
    ensures { IfOk result (λ walks. walks.items
        ≡ spec.after_block (block_view nodes.now) (replicate cells Missed)) }
{
    let mut walks = vec![in alloc; Walk::Missed; cells]?;
    pass_block(alloc, &mut walks, nodes)?;
    Ok(walks)
}

fn is_private(walks: &[Walk], cell: usize) -> bool
    ensures { result ≡ spec.is_never_early_at walks.now cell }
{
    match walk_at(walks, cell) {
        Walk::Early => false,
        Walk::Defined | Walk::Missed => true,
    }
}

/// The names of the scalars that no path uses early.
fn private_names(
    alloc: Global,
    walks: &[Walk],
    assigned: &[Reference],
) -> Result<Vec<Name>, AllocError>
    ensures { IfOk result (λ names. map letters names.items
        ≡ private_names walks.now (map ref assigned.now)) }
{
    let mut names = Vec::new(alloc);
    for scalar in assigned {
        if is_private(walks, scalar.cell) {
            names.push(scalar.name)?;
        }
    }
    Ok(names)
}

/// The scalars that a loop's range gives values and that on no path through it are used before
/// their definition, by their first definitions.
///
/// # Errors
///
/// `AllocError` where memory is refused.
pub fn private_scalars(alloc: Global, view: &LoopView<'_, '_>) -> Result<ScalarSet, AllocError>
    ensures { IfOk result (λ set. ArePrivate (seen view.now) (map letters set.names.items)) }
{
    let walks = walks_of(alloc, view.body(), view.cells())?;
    Ok(ScalarSet {
        names: private_names(alloc, &walks, view.assigned())?,
    })
}
