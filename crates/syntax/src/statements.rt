//! Statements.

ghost use Rattle.std.specs.Prelude.{◌≡◌, List, map, IfOk, IfErr, Ok, take};
ghost use Rattle.ast.specs.Answers.{Gives, Says};
ghost use Rattle.ast.specs.declared.rule.Rule.TheVariants.{UnendedText};
ghost use Rattle.ast.specs.Tree.{Statement, logical_if};
ghost use Rattle.ast.specs.View.{access, kind, statement, term};
ghost use Rattle.expressions.specs.Answers.{IsOfStatement, IsRefused, refuse};
ghost use Rattle.syntax.specs.Pieces.{Piece, Cut, marks, constants};
ghost use Rattle.syntax.specs.ReadingStatements.{accepted, assigned_at, assigned_behind};
ghost use Rattle.syntax.specs.ReadingStatements.{block_if_at, do_loop_at, kind_at, checked_at};
ghost use Rattle.syntax.specs.ReadingStatements.{statement_at};
ghost use Rattle.syntax.specs.Squeezing.{texts_left, text_at};
ghost use Rattle.syntax.specs.Statements.{is_initial, IsStatement};

use crate::class::{Class, class_of};
use crate::depths::is_shallow;
use crate::keywords::{malformed, worded};
use crate::lists::{room, spent};
use crate::loops::do_head;
use crate::pieces::{Squeezed, squeeze};
use ast::{Access, Expr, Kind, Line, Refusal, Rule, Stmt};
use expressions::{DEPTH_LIMIT, access, refused, wanted, whole};
use fixed_form::{Labelled, TEXT_WIDTH, is_end};
use std::alloc::Global;
use std::vec::IntoIter;

fn assignment(alloc: Global, text: &[u8], line: Line) -> Result<Kind, Refusal>
    ensures { Gives kind result (assigned_at line text.now) }
{
    let (target, rest) = access(alloc, text, line)?;
    assigned(alloc, target, rest, line)
}

/// An assignment behind whose target the text stands. Rules 22 to 25.
fn assigned(alloc: Global, target: Access, text: &[u8], line: Line) -> Result<Kind, Refusal>
    ensures { Gives kind result (assigned_behind line (access target) text.now) }
{
    let behind = wanted(text, b"=", line)?;
    let value = whole(alloc, behind, line)?;
    Ok(Kind::Assign(target, value))
}

fn block_if(alloc: Global, condition: &[u8], line: Line) -> Result<Kind, Refusal>
    ensures { Gives kind result (block_if_at line condition.now) }
{
    let condition = whole(alloc, condition, line)?;
    Ok(Kind::If(condition))
}

fn do_loop(alloc: Global, text: &[u8], line: Line) -> Result<Kind, Refusal>
    ensures { Gives kind result (do_loop_at line text.now) }
{
    let head = do_head(alloc, text, line)?;
    Ok(Kind::Do(head))
}

fn logical_if(alloc: Global, condition: Expr, inner: Kind) -> Result<Kind, Refusal>
    ensures { Gives kind result (Ok (logical_if (term condition) (kind inner))) }
{
    Ok(Kind::LogicalIf(condition, Box::new(alloc, inner)?))
}

/// What the statement of these marks and character constants does. `room` bounds how many logical
/// IFs hold one another. Rules 20, 22 to 25, and 27.
fn kind(
    alloc: Global,
    text: &[u8],
    constants: &mut IntoIter<Vec<u8>>,
    line: Line,
    room: u128,
) -> Result<Kind, Refusal>
    ensures { Gives kind result (kind_at line room text.now (texts_left constants.old)) }
{
    if room == 0 {
        return Err(spent(line));
    }
    match class_of(text) {
        Class::BlockIf(condition) => block_if(alloc, condition, line),
        Class::LogicalIf(condition, rest) => {
            let condition = whole(alloc, condition, line)?;
            let inner = kind(alloc, rest, constants, line, room - 1)?;
            logical_if(alloc, condition, inner)
        }
        Class::Do(rest) => do_loop(alloc, rest, line),
        Class::Assignment(text) => assignment(alloc, text, line),
        Class::Worded(keyword, rest) => worded(alloc, keyword, rest, constants, line),
        Class::Unclosed => Err(malformed(line)),
        Class::Unknown => Err(refused(Rule::UnknownStatement, line)),
    }
}

// ---- whole statements

/// The first characters of a text, `count` of them where there are as many.
fn front(text: &[u8], count: usize) -> &[u8]
    ensures { result.now ≡ take count text.now }
{
    text.get(..count).unwrap_or(text)
}

/// Whether END, if the statement is one, stands on its initial line alone.
fn is_initial(does: &Kind, text: &[u8]) -> bool
    ensures { result ≡ is_initial (kind does.now) text.now }
{
    match does {
        Kind::End => is_end(front(text, TEXT_WIDTH)),
        _ => true,
    }
}

/// Whether a statement that does this may stand there: its text and its depth. Rules 25 and 26.
fn check(does: &Kind, labelled: &Labelled) -> Result<(), Refusal>
    ensures reads { Gives (λ _.
        kind does.now) result (accepted labelled.now.line labelled.now.text.items (kind does.now)) }
    ensures sure { IfErr result IsRefused }
{
    let line = labelled.line;
    if !is_initial(does, &labelled.text) {
        return Err(malformed(line));
    }
    if !is_shallow(does, DEPTH_LIMIT) {
        return Err(refused(Rule::Deep, line));
    }
    Ok(())
}

/// The statement that does this. Rules 25 and 26.
fn checked(does: Kind, labelled: &Labelled) -> Result<Stmt, Refusal>
    ensures reads { Gives statement result
        (checked_at labelled.now.line labelled.now.label labelled.now.text.items (kind does)) }
    ensures sure { IfErr result IsRefused }
{
    check(&does, labelled)?;
    Ok(Stmt {
        line: labelled.line,
        label: labelled.label,
        kind: does,
    })
}

fn statement_of(alloc: Global, labelled: &Labelled, squeezed: Squeezed) -> Result<Stmt, Refusal>
    ensures { Gives statement result
        (statement_at labelled.now.line labelled.now.label labelled.now.text.items
        squeezed.marks.items (map (λ v. v.items) squeezed.constants.items)) }
{
    let Squeezed { marks, constants } = squeezed;
    let mut left = constants.into_iter();
    let does = kind(alloc, &marks, &mut left, labelled.line, room(&marks))?;
    checked(does, labelled)
}

fn read(alloc: Global, labelled: &Labelled) -> Result<Stmt, Refusal>
    ensures { Gives statement result
        (text_at labelled.now.line labelled.now.label labelled.now.text.items) }
{
    let squeezed = squeeze(alloc, &labelled.text, labelled.line)?;
    statement_of(alloc, labelled, squeezed)
}

/// The statement of a text, columns 7 to 72 of its lines joined.
///
/// Refused are `UnendedText` (21), an unfinished character constant, before all else; `LeftOut`
/// (27), a statement that the language leaves out by name; `UnknownStatement` (20); `RealConstant`
/// (22), `LargeConstant` (23), `LongName` (24) and `Malformed` (25), the first fault from the left;
/// and `Deep` (26), an expression deeper than 128, where the text is a statement otherwise. The
/// line is the statement's.
pub fn statement(alloc: Global, labelled: &Labelled) -> Result<Stmt, Refusal>
    ensures found { IfOk result (λ s.
        IsStatement labelled.now.line labelled.now.label labelled.now.text.items (statement s)) }
    ensures only { (s : Statement)
        → IsStatement labelled.now.line labelled.now.label labelled.now.text.items s
        → Gives statement result (Ok s) }
    ensures refused { IfErr result
        (Says (λ rule at. (at ≡ labelled.now.line) × IsOfStatement rule
        × ((s : Statement)
        → IsStatement labelled.now.line labelled.now.label labelled.now.text.items s → ⊥))) }
    ensures unfinished { ((ps : List Piece) → Cut ps labelled.now.text.items → ⊥)
        → Gives statement result (refuse labelled.now.line UnendedText) }
    ensures finished { IfErr result
        (Says (λ rule at. rule ≡ UnendedText → (ps : List Piece)
        → Cut ps labelled.now.text.items → ⊥)) }
    ensures exact { (ps : List Piece) → Cut ps labelled.now.text.items
        → Gives statement result
        (statement_at labelled.now.line labelled.now.label labelled.now.text.items (marks ps)
        (constants ps)) }
{
    read(alloc, labelled)
}
