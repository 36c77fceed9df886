//! From a program to its loops.

ghost use Rattle.std.specs.Prelude.{◌≡◌, IfOk};
ghost use Rattle.ast.specs.View.{block_view};
ghost use Rattle.loop_tree.specs.Loops.{AreWhole, loops_of};
ghost use Rattle.loop_tree.specs.Occurrences.{block_lines, block_occurrences};
ghost use Rattle.loop_tree.specs.TreeView.{lines_seen, loops_seen, references_seen};

use crate::collecting::collect;
use crate::tree::LoopTree;
use ast::Program;
use std::alloc::{AllocError, Global};

/// The loops of a program, numbered from 1 in the order of the text. Each shows what its DO and its
/// range have.
///
/// # Errors
///
/// `AllocError` where memory is refused.
pub fn loops<'p>(alloc: Global, program: &'p Program) -> Result<LoopTree<'p>, AllocError>
    ensures all { IfOk result (λ tree. loops_seen tree
        ≡ loops_of (block_view program.now.body.items)) }
    ensures whole { IfOk result (λ tree. AreWhole (loops_seen tree)) }
    ensures references { IfOk result (λ tree. references_seen tree
        ≡ block_occurrences 0 (block_view program.now.body.items)) }
    ensures lines { IfOk result (λ tree. lines_seen tree
        ≡ block_lines (block_view program.now.body.items)) }
{
    let collected = collect(alloc, &program.body)?;
    Ok(LoopTree::new(collected))
}
