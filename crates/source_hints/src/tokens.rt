//! Where the first real constant, constant that is too large, or name that is too long stands, or
//! the text that isn't finished.

use ast::{LONGEST_NAME, Rule};

/// The operators that stand between points.
pub const OPERATORS: [&[u8]; 11] = [
    b"LT", b"LE", b"EQ", b"NE", b"GT", b"GE", b"AND", b"OR", b"EQV", b"NEQV", b"NOT",
];

/// The digits of the largest constant.
const LARGEST: &[u8] = b"9223372036854775807";

/// The place of the first token that a rule refuses, in a text that is looked at from a place on.
pub fn refused_token(rule: Rule, text: &[u8], start: usize) -> Option<usize> {
    let mut at = start;
    for _ in start..text.len() {
        let rest = text.get(at..)?;
        if begins_refused(rule, rest) {
            return Some(at);
        }
        at = at.saturating_add(token_length(rest));
    }
    None
}

/// Whether a text begins with a token that a rule refuses.
fn begins_refused(rule: Rule, text: &[u8]) -> bool {
    match (rule, text.first()) {
        (Rule::RealConstant, Some(b'.')) => digits_of(past(text, 1)) > 0,
        (Rule::RealConstant, Some(b'0'..=b'9')) => is_real(text),
        (Rule::LargeConstant, Some(b'0'..=b'9')) => is_too_large(text),
        (Rule::LongName, Some(b'A'..=b'Z')) => word_length(text) > LONGEST_NAME,
        _ => false,
    }
}

/// The place of the text that isn't finished, if there is one.
pub fn open_text(text: &[u8]) -> Option<usize> {
    let mut start = None;
    let mut is_open = false;
    let mut before = 0;
    for (place, byte) in text.iter().enumerate() {
        if *byte == b'\'' {
            is_open = !is_open;
            // Two apostrophes within a text stand for one.
            if is_open && before != b'\'' {
                start = Some(place);
            }
        }
        before = *byte;
    }
    if is_open { start } else { None }
}

/// How long the token is that a text begins with: a name, digits, a text between apostrophes, an
/// operator between points, or one sign.
fn token_length(text: &[u8]) -> usize {
    match text.first() {
        Some(b'A'..=b'Z') => word_length(text),
        Some(b'0'..=b'9') => digits_of(text),
        Some(b'.') => operator_length(text).unwrap_or(1),
        Some(b'\'') => quoted_length(text),
        _ => 1,
    }
}

/// How many letters and digits a text begins with.
pub fn word_length(text: &[u8]) -> usize {
    text.iter()
        .take_while(|byte| byte.is_ascii_alphanumeric())
        .count()
}

/// How many digits a text begins with.
pub fn digits_of(text: &[u8]) -> usize {
    text.iter().take_while(|byte| byte.is_ascii_digit()).count()
}

/// What stands past so many bytes of a text.
pub fn past(text: &[u8], length: usize) -> &[u8] {
    text.get(length..).unwrap_or(&[])
}

/// The first bytes of a text, at most so many.
pub fn front(text: &[u8], length: usize) -> &[u8] {
    text.get(..length).unwrap_or(text)
}

/// How long the operator is that a text begins with, with its points, if it begins with one.
pub fn operator_length(text: &[u8]) -> Option<usize> {
    let rest = text.strip_prefix(b".".as_slice())?;
    let word = rest.get(..rest.iter().position(|byte| *byte == b'.')?)?;
    OPERATORS
        .contains(&word)
        .then_some(word.len().saturating_add(2))
}

/// How long the text between apostrophes is, with them, that a text begins with. Two apostrophes
/// within it stand for one.
pub fn quoted_length(text: &[u8]) -> usize {
    let mut is_open = false;
    for (place, byte) in text.iter().enumerate() {
        if *byte == b'\'' {
            is_open = !is_open;
        } else if !is_open {
            return place;
        }
    }
    text.len()
}

/// Whether the digits at the beginning of a text go on as a real constant.
fn is_real(text: &[u8]) -> bool {
    let rest = past(text, digits_of(text));
    match rest {
        [b'.', ..] => operator_length(rest).is_none(),
        [b'E' | b'D', b'+' | b'-', rest @ ..] | [b'E' | b'D', rest @ ..] => digits_of(rest) > 0,
        _ => false,
    }
}

/// Whether the digits at the beginning of a text are a constant that is too large.
fn is_too_large(text: &[u8]) -> bool {
    let digits = front(text, digits_of(text));
    let figures = past(
        digits,
        digits.iter().take_while(|byte| **byte == b'0').count(),
    );
    match figures.len().checked_sub(LARGEST.len()) {
        Some(0) => figures > LARGEST,
        longer => longer.is_some(),
    }
}
