//! The rules on order, labels, ranges and blocks, over all statements, and the spans of structures.

ghost use Rattle.std.specs.Prelude.{◌≡◌, ℕ, Err, IfErr, IfOk, Ok, OnOk, map};
ghost use Rattle.ast.specs.Answers.{Gives, Says};
ghost use Rattle.ast.specs.View.{statement};
ghost use Rattle.ast.specs.declared.rule.Rule.{Rule};
ghost use Rattle.structure.specs.Backward.{span_of, spans_in};
ghost use Rattle.structure.specs.Rules.{BreakFirst, Keep, checks};
ghost use Rattle.structure.specs.Spans.{spans_of};

use crate::gathered::Gathered;
use crate::span::{Blocks, Span};
use crate::structure::Structure;
use ast::{Refusal, Stmt};
use fixed_form::Labelled;
use std::alloc::{AllocError, Global};

/// Whether the statements keep the rules: the first one that doesn't, with the lowest rule it
/// breaks.
fn keep_rules(alloc: Global, statements: &[Stmt]) -> Result<(), Refusal>
    ensures kept { OnOk result (Keep checks (map statement statements.now)) }
    ensures refused { IfErr result (Says (BreakFirst checks (map statement statements.now))) }
{
    let mut structure = Structure::new(alloc);
    for stmt in statements {
        if let Some(rule) = structure.rule_broken(stmt)? {
            return Err(Refusal::Refused {
                number: rule,
                line: stmt.line,
            });
        }
    }
    Ok(())
}

/// The spans of all that the statements open.
fn spans(alloc: Global, statements: &[Stmt]) -> Result<Vec<Span>, AllocError>
    ensures { IfOk result (λ spans. map span_of spans.items
        ≡ spans_of (map statement statements.now)) }
{
    let mut gathered = Gathered::new(alloc);
    let total = statements.len();
    let mut place = total;
    while place > 0 {
        place -= 1;
        gathered.note(place, total, &statements[place])?;
    }
    Ok(gathered.into_spans())
}

/// The DO ranges and IF blocks of statements, given with what their lines say; END is the last of
/// them and stands nowhere else. Or the first statement that breaks a rule of order, labels, ranges
/// or blocks, by its line and the lowest such rule: `OutOfOrder` (30), `OpenLoop` (34),
/// `WrongTerminal` (35), `CrossedBlocks` (36) or `RepeatedLabel` (41).
pub fn blocks(alloc: Global, _labelled: &[Labelled], statements: &[Stmt]) -> Result<Blocks, Refusal>
    ensures found { IfOk result (λ b. spans_in b ≡ spans_of (map statement statements.now)) }
    ensures kept { IfOk result (λ b. Keep checks (map statement statements.now)) }
    ensures only { Keep checks (map statement statements.now)
        → Gives spans_in result (Ok (spans_of (map statement statements.now))) }
    ensures refused { IfErr result (Says (BreakFirst checks (map statement statements.now))) }
    ensures exactly { (rule : Rule) (line : ℕ)
        → BreakFirst checks (map statement statements.now) rule line
        → Gives spans_in result (Err (record { rule = rule; line = line })) }
{
    keep_rules(alloc, statements)?;
    let spans = spans(alloc, statements)?;
    Ok(Blocks { spans })
}
