//! DO statements.

ghost use Rattle.std.specs.Prelude.{◌≡◌, ◌≤◌, length};
ghost use Rattle.ast.specs.Answers.{Gives};
ghost use Rattle.ast.specs.View.{head, optional_term, term};
ghost use Rattle.expressions.specs.Characters.{value};
ghost use Rattle.syntax.specs.ReadingStatements.{step_at, bounded_by, head_of, counted_by, do_at};
ghost use Rattle.syntax.specs.Statements.{most_digits};

use crate::class::without_comma;
use crate::keywords::{MOST_DIGITS, malformed};
use ast::{DoHead, Expr, Label, Line, Name, Refusal};
use expressions::{digits, expression, name, reference_to, wanted, whole};
use std::alloc::Global;

/// What the digits of a label write.
#[tactic(auto, using(crate::proofs::Labels::ones_next, crate::proofs::Labels::ones_zero, crate::proofs::Labels::ones_few))]
fn number(digits: &[u8]) -> Label
    requires { length digits.now ≤ most_digits }
    ensures { result ≡ value digits.now }
{
    let mut total: u32 = 0;
    for digit in digits {
        total = 10 * total + u32::from(digit.saturating_sub(b'0'));
    }
    total
}

/// The incrementation parameter behind the terminal one, if there is one. Rules 22 to 25.
fn step(alloc: Global, text: &[u8], line: Line) -> Result<Option<Expr>, Refusal>
    ensures { Gives optional_term result (step_at line text.now) }
{
    if text.is_empty() {
        return Ok(None);
    }
    let behind = wanted(text, b",", line)?;
    Ok(Some(whole(alloc, behind, line)?))
}

/// A DO behind whose `=` the text stands. Rules 22 to 25.
fn head(
    alloc: Global,
    terminal: Label,
    variable: Name,
    text: &[u8],
    line: Line,
) -> Result<DoHead, Refusal>
    ensures { Gives head result (head_of line terminal variable.letters text.now) }
{
    let (first, rest) = expression(alloc, text, line)?;
    let behind = wanted(rest, b",", line)?;
    bounded(alloc, terminal, variable, first, behind, line)
}

/// A DO behind the comma of whose initial parameter the text stands. Rules 22 to 25.
fn bounded(
    alloc: Global,
    terminal: Label,
    variable: Name,
    first: Expr,
    text: &[u8],
    line: Line,
) -> Result<DoHead, Refusal>
    ensures { Gives head result (bounded_by line terminal variable.letters (term first) text.now) }
{
    let (last, rest) = expression(alloc, text, line)?;
    let step = step(alloc, rest, line)?;
    let variable = reference_to(variable);
    Ok(DoHead {
        terminal,
        variable,
        first,
        last,
        step,
    })
}

/// A DO behind whose label the text stands, at its variable. Rules 22 to 25.
fn counted(alloc: Global, terminal: Label, text: &[u8], line: Line) -> Result<DoHead, Refusal>
    ensures { Gives head result (counted_by line terminal text.now) }
{
    let (variable, rest) = name(text, line)?;
    let behind = wanted(rest, b"=", line)?;
    head(alloc, terminal, variable, behind, line)
}

/// A DO behind whose keyword the text stands. Rules 22 to 25.
pub fn do_head(alloc: Global, text: &[u8], line: Line) -> Result<DoHead, Refusal>
    ensures { Gives head result (do_at line text.now) }
{
    let count = digits(text);
    if count > MOST_DIGITS {
        return Err(malformed(line));
    }
    let terminal = number(&text[..count]);
    counted(alloc, terminal, without_comma(&text[count..]), line)
}
