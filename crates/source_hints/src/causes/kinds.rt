//! Which operand of a statement is of the wrong kind: an integer where a logical value is wanted,
//! or the other way round.

use super::{Cause, Told};
use crate::mentions::Mention;
use crate::squeezed::{Squeezed, TRANSFERS, begins_with, behind_parentheses, has_outer, is_if};
use crate::tokens::{front, past};
use bstr::ByteSlice;

/// The operators that compare integers.
const RELATIONS: [&[u8]; 6] = [b"EQ.", b"NE.", b"LT.", b"LE.", b"GT.", b"GE."];

/// The operators between logical values, and the one before a logical value.
const CONNECTIVES: [&[u8]; 5] = [b".AND.", b".OR.", b".EQV.", b".NEQV.", b".NOT."];

/// What is of the wrong kind in a statement with these names that does what has the second names,
/// as far as that can be told.
pub fn wrong_kind(
    statement: &Squeezed,
    names: &[Mention],
    done: &Squeezed,
    names_done: &[Mention],
) -> Option<Cause> {
    let text = statement.text.as_slice();
    let operand = CONNECTIVES
        .iter()
        .find_map(|operator| beside(text, operator));
    if let Some(place) = operand.or(condition(text)) {
        let named = names.iter().find(|mention| mention.place == place);
        let told = Told::Text("is an integer, and a logical value is wanted");
        return named.map(|mention| Cause::of(mention, told));
    }
    match names_done.first() {
        Some(mention) if mention.is_given && mention.depth == 0 && gives_logical(done) => {
            let told = Told::Text("is an integer, and is given a logical value");
            Some(Cause::of(mention, told))
        }
        _ if wants_numbers(done) && done.text.contains(&b'.') || compares_logical(text) => {
            Some(Cause::text("a logical value stands where a number is wanted"))
        }
        _ => None,
    }
}

/// Whether an assignment gives a logical value.
fn gives_logical(done: &Squeezed) -> bool {
    let text = done.text.as_slice();
    let value = text
        .find_byte(b'=')
        .map_or(text, |place| past(text, place.saturating_add(1)));
    !done.is_loop() && (has_outer(b'.', value) || is_parenthesised(value) && value.contains(&b'.'))
}

/// Whether one pair of parentheses stands around a whole text.
fn is_parenthesised(text: &[u8]) -> bool {
    text.starts_with(b"(") && behind_parentheses(text) == Some(b"".as_slice())
}

/// Whether all values of a statement are numbers.
fn wants_numbers(done: &Squeezed) -> bool {
    has_outer(b'=', &done.text) || begins_with(&done.text, &TRANSFERS)
}

/// Whether a logical value stands beside an operator that compares integers.
fn compares_logical(text: &[u8]) -> bool {
    (0..text.len()).any(|place| {
        let behind = behind_relation(past(text, place));
        behind.is_some_and(|behind| has_logical(front(text, place), behind))
    })
}

/// What stands behind the operator that a text begins with, if it compares.
fn behind_relation(text: &[u8]) -> Option<&[u8]> {
    let text = text.strip_prefix(b".".as_slice())?;
    let relation = RELATIONS
        .iter()
        .find(|relation| text.starts_with(relation))?;
    text.get(relation.len()..)
}

/// Whether a logical value ends the text before an operator or begins the one behind.
fn has_logical(before: &[u8], behind: &[u8]) -> bool {
    past(before, last_start(before)).contains(&b'.')
        || front(behind, first_length(behind)).contains(&b'.')
}

/// The place of the integer beside the first of these operators, if there is one.
fn beside(text: &[u8], operator: &[u8]) -> Option<usize> {
    let at = text.find(operator)?;
    let before = integer_before(text.get(..at)?);
    before.or(integer_behind(text, at.saturating_add(operator.len())))
}

/// The place of the condition of an IF that is an integer alone.
fn condition(text: &[u8]) -> Option<usize> {
    let start = text.find_byte(b'(')?.saturating_add(1);
    let rest = past(text, start);
    match rest.get(first_length(rest)) {
        Some(b')') if is_if(text) => name_in(front(rest, first_length(rest)), start),
        _ => None,
    }
}

/// The place of the integer at the end of a text, unless it is compared there.
fn integer_before(text: &[u8]) -> Option<usize> {
    let start = last_start(text);
    if RELATIONS
        .iter()
        .any(|relation| front(text, start).ends_with(relation))
    {
        return None;
    }
    name_in(past(text, start), start)
}

/// The place of the integer that begins at a place, unless it is compared there.
fn integer_behind(text: &[u8], start: usize) -> Option<usize> {
    let rest = past(text, start);
    let length = first_length(rest);
    if behind_relation(past(rest, length)).is_some() {
        return None;
    }
    name_in(front(rest, length), start)
}

/// An operand that is being read from one of its ends.
#[derive(Drop)]
struct Operand {
    /// The sign that opens a parenthesis.
    opening: u8,
    depth: usize,
}

impl Operand {
    /// Whether a byte belongs to it too.
    fn takes(&mut self, byte: u8) -> bool {
        match byte {
            b'(' | b')' if byte == self.opening => self.depth = self.depth.saturating_add(1),
            b'(' | b')' | b'.' | b'=' | b',' if self.depth == 0 => return false,
            b'(' | b')' => self.depth = self.depth.saturating_sub(1),
            _ => {}
        }
        true
    }
}

/// How many bytes the operand at the beginning of a text has.
fn first_length(text: &[u8]) -> usize {
    let mut operand = Operand {
        opening: b'(',
        depth: 0,
    };
    text.iter().take_while(|byte| operand.takes(**byte)).count()
}

/// Where the operand at the end of a text begins.
fn last_start(text: &[u8]) -> usize {
    let mut operand = Operand {
        opening: b')',
        depth: 0,
    };
    let length = text
        .iter()
        .rev()
        .take_while(|byte| operand.takes(**byte))
        .count();
    text.len().saturating_sub(length)
}

/// The place of the first name in an operand without points that begins at a place.
fn name_in(operand: &[u8], start: usize) -> Option<usize> {
    if operand.contains(&b'.') {
        return None;
    }
    let place = operand.iter().position(|byte| byte.is_ascii_alphabetic())?;
    Some(start.saturating_add(place))
}
