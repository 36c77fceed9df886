//! Parsing by levels of precedence.

ghost use Rattle.std.specs.Prelude.{◌≡◌, map, IfOk, IfErr, Ok, option_map};
ghost use Rattle.ast.specs.declared.refusal.Refusal.TheVariants.{Refused};
ghost use Rattle.ast.specs.Answers.{Gives, Says};
ghost use Rattle.ast.specs.Tree.{Term};
ghost use Rattle.ast.specs.View.{term, access};
ghost use Rattle.expressions.specs.Answers.{IsOfStatement};
ghost use Rattle.expressions.specs.Grammar.{IsExpression};
ghost use Rattle.expressions.specs.Ranks.{rank};
ghost use Rattle.expressions.specs.Reading.{level_at, chain_at, primary_at, operand_at, access_at};
ghost use Rattle.expressions.specs.Reading.{subscripts_at, list_at, further_at, front_at};
ghost use Rattle.expressions.specs.Reading.{element_at, closed_at, whole_at, expression_at, room};
ghost use Rattle.expressions.specs.Reading.{spent};

use crate::build::{binary, parentheses, with_further, with_prefix};
use crate::depth::{DEPTH_LIMIT, is_within};
use crate::level::{Level, operator_at, prefix_at};
use crate::literal::{end, literal, name, reference_to, refused, wanted};
use crate::scan::after;
use ast::{Access, Expr, Line, Refusal, Rule};
use std::alloc::Global;

/// What reading needs beside the text.
#[derive(Clone, Copy)]
struct Reader {
    alloc: Global,
    /// The statement's line.
    line: Line,
}

/// The expression that a whole text is.
///
/// Refused are `RealConstant` (22), `LargeConstant` (23), `LongName` (24) and `Malformed` (25), the
/// first fault from the left; and `Deep` (26), an expression deeper than 128, where the text is one
/// otherwise. The line is that of its statement.
pub fn expr(alloc: Global, text: &[u8], line: Line) -> Result<Expr, Refusal>
    ensures found { IfOk result (λ e. IsExpression text.now (term e)) }
    ensures only { (e : Term) → IsExpression text.now e → Gives term result (Ok e) }
    ensures refused { IfErr result
        (Says (λ rule at. (at ≡ line) × IsOfStatement rule
        × ((e : Term) → IsExpression text.now e → ⊥))) }
    ensures exact { Gives term result (expression_at line text.now) }
{
    read(alloc, text, line)
}

fn read(alloc: Global, text: &[u8], line: Line) -> Result<Expr, Refusal>
    ensures { Gives term result (expression_at line text.now) }
{
    let tree = whole(alloc, text, line)?;
    if is_within(&tree, DEPTH_LIMIT) {
        Ok(tree)
    } else {
        Err(refused(Rule::Deep, line))
    }
}

/// The expression that the whole text is, of any depth. Rules 22 to 25.
pub fn whole(alloc: Global, text: &[u8], line: Line) -> Result<Expr, Refusal>
    ensures { Gives term result (whole_at line text.now) }
{
    let (tree, rest) = expression(alloc, text, line)?;
    end(rest, line)?;
    Ok(tree)
}

/// The expression, of any depth, that the text begins with, and what stands after it. Rules 22 to
/// 25.
pub fn expression(alloc: Global, text: &[u8], line: Line) -> Result<(Expr, &[u8]), Refusal>
    ensures { Gives (λ x. (term x.0, x.1.now)) result (front_at line text.now) }
{
    level(Reader { alloc, line }, Level::Equivalence, text, room(text))
}

/// The name with its list of expressions, if it has one, that the text begins with, and what stands
/// after it. Rules 22 to 25.
pub fn access(alloc: Global, text: &[u8], line: Line) -> Result<(Access, &[u8]), Refusal>
    ensures { Gives (λ x. (access x.0, x.1.now)) result (element_at line text.now) }
{
    element(Reader { alloc, line }, text, room(text))
}

/// Room for the calls that a text may need.
fn room(text: &[u8]) -> u128
    ensures { result ≡ room text.now }
{
    12 * text.len() as u128 + 12
}

/// The refusal where the room ends: of no rule of statements. No text comes there.
fn spent(line: Line) -> Refusal
    ensures { result ≡ Refused spent line }
{
    refused(Rule::LargeProgram, line)
}

/// Operands of the level below, with operators of this level between them, from the left, and at
/// some levels a prefix before the first. `room` bounds the depth of the calls.
#[cycle(parse)]
fn level(reader: Reader, at: Level, text: &[u8], room: u128) -> Result<(Expr, &[u8]), Refusal>
    ensures { Gives (λ x. (term x.0, x.1.now)) result
        (level_at reader.line room (rank at) text.now) }
{
    if room == 0 {
        return Err(spent(reader.line));
    }
    if at.is_primary() {
        return primary(reader, text, room - 1);
    }
    let (prefix, unprefixed) = prefix_at(at, text);
    let (operand, rest) = level(reader, at.below(), unprefixed, room - 1)?;
    let first = with_prefix(reader.alloc, prefix, operand)?;
    chain(reader, at, first, rest, room - 1)
}

/// The operand on the left with what operators of the level add to it.
#[cycle(parse)]
fn chain(
    reader: Reader,
    at: Level,
    left: Expr,
    text: &[u8],
    room: u128,
) -> Result<(Expr, &[u8]), Refusal>
    ensures { Gives (λ x. (term x.0, x.1.now)) result
        (chain_at reader.line room (rank at) (term left) text.now) }
{
    if room == 0 {
        return Err(spent(reader.line));
    }
    match operator_at(at, text) {
        Some((operator, after)) => {
            let (right, rest) = level(reader, at.below(), after, room - 1)?;
            let both = binary(reader.alloc, operator, left, right)?;
            if at.is_relation() {
                Ok((both, rest))
            } else {
                chain(reader, at, both, rest, room - 1)
            }
        }
        None => Ok((left, text)),
    }
}

/// A constant, a name with its list, or an expression in parentheses.
#[cycle(parse)]
fn primary(reader: Reader, text: &[u8], room: u128) -> Result<(Expr, &[u8]), Refusal>
    ensures { Gives (λ x. (term x.0, x.1.now)) result (primary_at reader.line room text.now) }
{
    if room == 0 {
        return Err(spent(reader.line));
    }
    match after(text, b"(") {
        Some(inside) => {
            let (inner, rest) = level(reader, Level::Equivalence, inside, room - 1)?;
            closed(reader, inner, rest)
        }
        None => {
            let found = literal(text, reader.line)?;
            operand(reader, found, text, room - 1)
        }
    }
}

/// The literal that stands here, or what a name begins.
#[cycle(parse)]
fn operand<'a>(
    reader: Reader,
    found: Option<(Expr, &'a [u8])>,
    text: &'a [u8],
    room: u128,
) -> Result<(Expr, &'a [u8]), Refusal>
    ensures { Gives (λ x. (term x.0, x.1.now)) result
        (operand_at reader.line room (option_map (λ x. (term x.0, x.1.now)) found.entry)
        text.now) }
{
    if room == 0 {
        return Err(spent(reader.line));
    }
    match found {
        Some(literal) => Ok(literal),
        None => {
            let (access, rest) = element(reader, text, room - 1)?;
            Ok((Expr::Element(access), rest))
        }
    }
}

/// A name with its list of expressions, if it has one.
#[cycle(parse)]
fn element(reader: Reader, text: &[u8], room: u128) -> Result<(Access, &[u8]), Refusal>
    ensures { Gives (λ x. (access x.0, x.1.now)) result (access_at reader.line room text.now) }
{
    if room == 0 {
        return Err(spent(reader.line));
    }
    let (name, rest) = name(text, reader.line)?;
    let (subscripts, rest) = subscripts(reader, rest, room - 1)?;
    let reference = reference_to(name);
    Ok((
        Access {
            reference,
            subscripts,
        },
        rest,
    ))
}

/// A list of expressions in parentheses, or none where no parenthesis stands.
#[cycle(parse)]
fn subscripts(reader: Reader, text: &[u8], room: u128) -> Result<(Vec<Expr>, &[u8]), Refusal>
    ensures { Gives (λ x. (map term x.0.items, x.1.now)) result
        (subscripts_at reader.line room text.now) }
{
    if room == 0 {
        return Err(spent(reader.line));
    }
    match after(text, b"(") {
        Some(inside) => list(reader, Vec::new(reader.alloc), inside, room - 1),
        None => Ok((Vec::new(reader.alloc), text)),
    }
}

/// Expressions after those that were read, the first right here.
#[cycle(parse)]
fn list(
    reader: Reader,
    read: Vec<Expr>,
    text: &[u8],
    room: u128,
) -> Result<(Vec<Expr>, &[u8]), Refusal>
    ensures { Gives (λ x. (map term x.0.items, x.1.now)) result
        (list_at reader.line room (map term read.items) text.now) }
{
    if room == 0 {
        return Err(spent(reader.line));
    }
    let (next, rest) = level(reader, Level::Equivalence, text, room - 1)?;
    let longer = with_further(read, next)?;
    further(reader, longer, rest, room - 1)
}

/// Expressions after those that were read, each behind a comma, and the closing parenthesis.
#[cycle(parse)]
fn further(
    reader: Reader,
    read: Vec<Expr>,
    text: &[u8],
    room: u128,
) -> Result<(Vec<Expr>, &[u8]), Refusal>
    ensures { Gives (λ x. (map term x.0.items, x.1.now)) result
        (further_at reader.line room (map term read.items) text.now) }
{
    if room == 0 {
        return Err(spent(reader.line));
    }
    match after(text, b",") {
        Some(next) => list(reader, read, next, room - 1),
        None => Ok((read, wanted(text, b")", reader.line)?)),
    }
}

/// An expression in parentheses whose closing one is still to come.
fn closed(reader: Reader, inner: Expr, text: &[u8]) -> Result<(Expr, &[u8]), Refusal>
    ensures { Gives (λ x. (term x.0, x.1.now)) result
        (closed_at reader.line (term inner) text.now) }
{
    let rest = wanted(text, b")", reader.line)?;
    Ok((parentheses(reader.alloc, inner)?, rest))
}
