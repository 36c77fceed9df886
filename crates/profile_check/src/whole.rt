//! Whole texts.

ghost use Rattle.std.specs.Prelude.{◌≡◌, ℕ, IfOk, IfErr, Ok, Err};
ghost use Rattle.ast.specs.Answers.{Gives, Says};
ghost use Rattle.ast.specs.Program.{ProgramTree};
ghost use Rattle.ast.specs.ProgramView.{program as program_of};
ghost use Rattle.ast.specs.declared.rule.Rule.{Rule};
ghost use Rattle.profile_check.specs.Causes.{Refuses};
ghost use Rattle.profile_check.specs.Reads.{Reads};

use crate::check::check;
use crate::reading::parse;
use crate::symbols::symbols_of;
use crate::tree::tree;
use ast::{Program, Refusal};
use fixed_form::statements;
use std::alloc::Global;

/// The program of a source text: what its names stand for, and its statements nested, with all
/// references resolved and numbered in order of evaluation.
///
/// # Errors
///
/// `Refused` with the first rule that is broken and its line: rules of lines (1 to 8)
/// are looked at first, then those of statements (20 to 27), then those of the profile (30 to 43),
/// each over the whole text. `Memory` where memory is refused.
pub fn program(alloc: Global, text: &[u8]) -> Result<Program, Refusal>
    ensures found { IfOk result (λ p. Reads text.now (program_of p)) }
    ensures only { (tree : ProgramTree) → Reads text.now tree → Gives program_of result (Ok tree) }
    ensures refused { IfErr result (Says (Refuses text.now)) }
    ensures exactly { (rule : Rule) (line : ℕ) → Refuses text.now rule line
        → Gives program_of result (Err (record { rule = rule; line = line })) }
    ensures one { (p q : ProgramTree) → Reads text.now p → Reads text.now q → p ≡ q }
{
    let labelled = statements(alloc, text)?;
    let stmts = parse(alloc, &labelled)?;
    let declarations = check(alloc, &stmts)?;
    let statements = stmts.len();
    let symbols = symbols_of(alloc, &declarations)?;
    let body = tree(alloc, stmts, &declarations)?;
    Ok(Program {
        symbols,
        body,
        statements,
    })
}
