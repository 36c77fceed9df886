//! Names and constants.

ghost use Rattle.std.specs.Prelude.{◌≡◌, pos, nat_lt, if◌then◌else◌, Some, None, map, IfErr};
ghost use Rattle.std.specs.Prelude.{option_map};
ghost use Rattle.ast.specs.Answers.{Gives};
ghost use Rattle.ast.specs.View.{ref, term};
ghost use Rattle.expressions.specs.Answers.{IsRefused};
ghost use Rattle.expressions.specs.Characters.{value, constant_limit, begins_with};
ghost use Rattle.expressions.specs.Grammar.{reference_to};
ghost use Rattle.expressions.specs.Reading.{name_at, constant_at, truth_at, literal_at, misplaced};
ghost use Rattle.expressions.specs.Reading.{wanted_at, end_at};
ghost use Rattle.expressions.specs.Real.{begins_operator, begins_any, begins_exponent};
ghost use Rattle.expressions.specs.Real.{continues_real, begins_fraction, begins_real};
ghost use Rattle.ast.specs.declared.refusal.Refusal.TheVariants.{Refused};

use crate::scan::{after, begins_digit, begins_letter, begins_with, digits, letters_and_digits};
use ast::{Expr, LONGEST_NAME, Line, Name, RefId, Reference, Refusal, Rule};

/// The least constant that is too large.
const CONSTANT_LIMIT: u128 = 1 << 63;

/// The operators that a full stop may begin.
const OPERATORS: [&[u8]; 11] = [
    b".EQV.", b".NEQV.", b".OR.", b".AND.", b".NOT.", b".LT.", b".LE.", b".EQ.", b".NE.", b".GT.",
    b".GE.",
];

/// Whether the text begins with one of the words.
fn begins_any(text: &[u8], words: &[&[u8]]) -> bool
    ensures { result ≡ begins_any (map (λ w. w.now) words.now) text.now }
{
    for word in words {
        if text.starts_with(word) {
            return true;
        }
    }
    false
}

#[tactic(auto, unfolding(crate::specs::Real::begins_operator))]
fn begins_operator(text: &[u8]) -> bool
    ensures { result ≡ begins_operator text.now }
{
    begins_any(text, &OPERATORS)
}

fn begins_exponent(text: &[u8]) -> bool
    ensures { result ≡ begins_exponent text.now }
{
    match text {
        [b'E' | b'D', b'+' | b'-', rest @ ..] => begins_digit(rest),
        [b'E' | b'D', rest @ ..] => begins_digit(rest),
        _ => false,
    }
}

fn continues_real(text: &[u8]) -> bool
    ensures { result ≡ continues_real text.now }
{
    (begins_with(text, b'.') && !begins_operator(text)) || begins_exponent(text)
}

fn begins_fraction(text: &[u8]) -> bool
    ensures { result ≡ begins_fraction text.now }
{
    match text {
        [b'.', rest @ ..] => begins_digit(rest),
        _ => false,
    }
}

/// Whether the text begins with a real constant.
fn begins_real(text: &[u8]) -> bool
    ensures { result ≡ begins_real text.now }
{
    begins_fraction(text) || (begins_digit(text) && continues_real(&text[digits(text)..]))
}

/// The refusal of a text that breaks a rule.
pub fn refused(rule: Rule, line: Line) -> Refusal
    ensures { result ≡ Refused rule line }
{
    Refusal::Refused { number: rule, line }
}

/// The refusal of what stands after an operand, a name, an item or a parenthesis, where it may not
/// stand: `RealConstant`, or else `Malformed`.
pub fn misplaced(text: &[u8], line: Line) -> Refusal
    ensures { result ≡ Refused (misplaced text.now) line }
{
    let rule = if begins_real(text) {
        Rule::RealConstant
    } else {
        Rule::Malformed
    };
    refused(rule, line)
}

/// What stands behind a mark that is wanted after an operand, a name or a parenthesis.
/// `RealConstant` (22) and `Malformed` (25).
pub fn wanted<'a>(text: &'a [u8], mark: &[u8], line: Line) -> Result<&'a [u8], Refusal>
    ensures reads { Gives (λ x. x.now) result (wanted_at line mark.now text.now) }
    ensures sure { IfErr result IsRefused }
{
    match after(text, mark) {
        Some(rest) => Ok(rest),
        None => Err(misplaced(text, line)),
    }
}

/// The empty text, where nothing is wanted any more. `RealConstant` (22) and `Malformed` (25).
pub fn end(text: &[u8], line: Line) -> Result<&[u8], Refusal>
    ensures reads { Gives (λ x. x.now) result (end_at line text.now) }
    ensures sure { IfErr result IsRefused }
{
    if text.is_empty() {
        Ok(text)
    } else {
        Err(misplaced(text, line))
    }
}

/// What digits write, where it is below the limit of constants.
pub fn value(digits: &[u8]) -> Option<i64>
    ensures { result ≡ (if nat_lt (value digits.now) constant_limit then Some
        (pos (value digits.now)) else None) }
{
    let mut total: u64 = 0;
    for digit in digits {
        let longer = 10 * u128::from(total) + u128::from(digit.saturating_sub(b'0'));
        if longer >= CONSTANT_LIMIT {
            return None;
        }
        total = longer as u64;
    }
    Some(total as i64)
}

/// The name that the text begins with, and what stands after it. `LongName` (24) and
/// `Malformed` (25).
pub fn name(text: &[u8], line: Line) -> Result<(Name, &[u8]), Refusal>
    ensures reads { Gives (λ x. (x.0.letters, x.1.now)) result (name_at line text.now) }
    ensures sure { IfErr result IsRefused }
{
    if !begins_letter(text) {
        return Err(refused(Rule::Malformed, line));
    }
    let count = letters_and_digits(text);
    if count > LONGEST_NAME {
        return Err(refused(Rule::LongName, line));
    }
    Ok((Name::padded(&text[..count]), &text[count..]))
}

/// The digits that the text begins with as a constant, and what stands after them.
/// `LargeConstant` (23).
fn constant(text: &[u8], line: Line) -> Result<(Expr, &[u8]), Refusal>
    ensures reads { Gives (λ x. (term x.0, x.1.now)) result (constant_at line text.now) }
    ensures sure { IfErr result IsRefused }
{
    let count = digits(text);
    match value(&text[..count]) {
        Some(value) => Ok((Expr::Constant(value), &text[count..])),
        None => Err(refused(Rule::LargeConstant, line)),
    }
}

fn truth(text: &[u8]) -> Option<(Expr, &[u8])>
    ensures { option_map (λ x. (term x.0, x.1.now)) result ≡ truth_at text.now }
{
    if let Some(rest) = after(text, b".TRUE.") {
        return Some((Expr::Truth(true), rest));
    }
    match after(text, b".FALSE.") {
        Some(rest) => Some((Expr::Truth(false), rest)),
        None => None,
    }
}

/// The constant or logical constant that the text begins with, and what stands after it, if there
/// is one. `RealConstant` (22) and `LargeConstant` (23).
pub fn literal(text: &[u8], line: Line) -> Result<Option<(Expr, &[u8])>, Refusal>
    ensures reads { Gives (λ o.
        option_map (λ x. (term x.0, x.1.now)) o) result (literal_at line text.now) }
    ensures sure { IfErr result IsRefused }
{
    if begins_real(text) {
        return Err(refused(Rule::RealConstant, line));
    }
    if begins_digit(text) {
        Ok(Some(constant(text, line)?))
    } else {
        Ok(truth(text))
    }
}

/// A reference to a name, in a statement that is of no program yet.
pub fn reference_to(name: Name) -> Reference
    ensures { ref result ≡ reference_to name.letters }
{
    Reference {
        name,
        id: RefId(0),
        cell: 0,
    }
}
