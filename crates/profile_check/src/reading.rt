//! The statements of a text.

ghost use Rattle.std.specs.Prelude.{List, IfOk, IfErr, Ok};
ghost use Rattle.ast.specs.Answers.{Gives, Says};
ghost use Rattle.ast.specs.Tree.{Statement};
ghost use Rattle.ast.specs.View.{statement as statement_tree};
ghost use Rattle.fixed_form.specs.Answers.{entry, entries};
ghost use Rattle.syntax.specs.Statements.{IsStatement};
ghost use Rattle.profile_check.specs.Causes.{IsNoStatement, UnspelledAt};
ghost use Rattle.profile_check.specs.Reads.{Spelled};
ghost use Rattle.profile_check.specs.ReadsView.{statements_of};

use ast::{Refusal, Stmt};
use fixed_form::Labelled;
use std::alloc::Global;
use syntax::statement;

/// The statement of a text. Rules 20 to 27.
fn parse_one(alloc: Global, labelled: &Labelled) -> Result<Stmt, Refusal>
    ensures found { IfOk result (λ stmt.
        IsStatement labelled.now.line labelled.now.label labelled.now.text.items
        (statement_tree stmt)) }
    ensures only { (s : Statement)
        → IsStatement labelled.now.line labelled.now.label labelled.now.text.items s
        → Gives statement_tree result (Ok s) }
    ensures refused { IfErr result (Says (IsNoStatement (entry labelled.now))) }
{
    statement(alloc, labelled)
}

/// The statements of the texts, up to the first that has none.
pub fn parse(alloc: Global, labelled: &[Labelled]) -> Result<Vec<Stmt>, Refusal>
    ensures found { IfOk result (λ stmts. Spelled (entries labelled.now) (statements_of stmts)) }
    ensures only { (ss : List Statement) → Spelled (entries labelled.now) ss
        → Gives statements_of result (Ok ss) }
    ensures refused { IfErr result (Says (UnspelledAt (entries labelled.now))) }
{
    let mut stmts = Vec::with_capacity(alloc, labelled.len())?;
    for one in labelled {
        stmts.push(parse_one(alloc, one)?)?;
    }
    Ok(stmts)
}
