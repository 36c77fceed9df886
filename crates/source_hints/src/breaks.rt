//! Where the text of a statement stops being one, as far as the order of operands and operators
//! tells.

use crate::mentions::without_keyword;
use crate::squeezed::{Squeezed, action, begins_with, has_outer, is_if, transfer_length};
use crate::tokens::{
    digits_of, open_text, operator_length, past, quoted_length, refused_token, word_length,
};
use ast::Rule;
use bstr::ByteSlice;

/// What may stand next in an expression.
#[derive(Clone, Copy)]
enum Wanted {
    /// An operand, before which a sign may stand.
    First,
    /// An operand without a sign.
    Next,
    /// An operator, or what ends an operand.
    Behind,
    /// The same, or subscripts.
    BehindName,
}

/// A part of a statement that is being read.
#[derive(Drop)]
struct Reading<'a> {
    text: &'a [u8],
    at: usize,
    depth: usize,
    wanted: Wanted,
    /// Whether an equals sign may still come.
    may_assign: bool,
    /// Whether commas stand between expressions.
    is_list: bool,
}

/// The place in the text of a statement of what it is refused for by a rule that is of texts, if
/// that can be told.
pub fn break_place(rule: Rule, statement: &Squeezed) -> Option<usize> {
    let text = statement.text.as_slice();
    match rule {
        Rule::UnknownStatement | Rule::LeftOut => action_place(text),
        Rule::UnendedText => open_text(text),
        Rule::RealConstant | Rule::LargeConstant | Rule::LongName => {
            let start = text.len().saturating_sub(without_keyword(statement).len());
            refused_token(rule, text, start)
        }
        Rule::Malformed => end_of_form(statement),
        _ => None,
    }
}

/// Where what a logical IF does begins.
fn action_place(text: &[u8]) -> Option<usize> {
    match text.len().saturating_sub(action(text).len()) {
        0 => None,
        place => Some(place),
    }
}

/// Where the operands and operators of a statement stop being in the order of one.
fn end_of_form(statement: &Squeezed) -> Option<usize> {
    let text = statement.text.as_slice();
    if let Some(start) = transfer_length(text) {
        return in_list(text, start);
    }
    if statement.is_loop() {
        let start = text.find_byte(b'=')?.saturating_add(1);
        return Reading::new(text, start, false, true).end(false);
    }
    if is_if(text) {
        return in_condition(text);
    }
    in_assignment(text, 0)
}

/// Where an assignment that begins at a place stops being one, if there is an equals sign.
fn in_assignment(text: &[u8], start: usize) -> Option<usize> {
    if !has_outer(b'=', past(text, start)) {
        return None;
    }
    Reading::new(text, start, true, false).end(false)
}

/// Where a PRINT or a READ stops being one, whose list may begin here.
fn in_list(text: &[u8], start: usize) -> Option<usize> {
    let sign = text.get(start)?;
    let wants_comma = begins_with(text, &[b"PRINT*", b"READ*"]);
    if wants_comma != (*sign == b',') {
        return Some(start);
    }
    let first = start.saturating_add(usize::from(wants_comma));
    Reading::new(text, first, false, true).end(false)
}

/// Where an IF stops being one: in its condition, or in the statement behind it.
fn in_condition(text: &[u8]) -> Option<usize> {
    let mut reading = Reading::new(text, text.find_byte(b'(')?, false, false);
    reading.end(true).or(in_assignment(text, reading.at))
}

impl<'a> Reading<'a> {
    fn new(text: &'a [u8], at: usize, may_assign: bool, is_list: bool) -> Self {
        Reading {
            text,
            at,
            depth: 0,
            wanted: Wanted::First,
            may_assign,
            is_list,
        }
    }

    /// Where it breaks, read to the end, or to the parenthesis that closes the first one.
    fn end(&mut self, is_closed: bool) -> Option<usize> {
        for _ in 0..=self.text.len() {
            let Some(byte) = self.text.get(self.at).copied() else {
                return (!self.is_whole()).then_some(self.text.len());
            };
            let Some((length, wanted)) = self.token(byte) else {
                return Some(self.at);
            };
            self.at = self.at.saturating_add(length);
            self.wanted = wanted;
            if is_closed && self.depth == 0 {
                break;
            }
        }
        None
    }

    fn is_whole(&self) -> bool {
        self.depth == 0 && matches!(self.wanted, Wanted::Behind | Wanted::BehindName)
    }

    /// The length of the token that begins with a byte, if it may stand here, and what may stand
    /// behind it.
    fn token(&mut self, byte: u8) -> Option<(usize, Wanted)> {
        match self.wanted {
            Wanted::First => self.operand(byte, true),
            Wanted::Next => self.operand(byte, false),
            Wanted::Behind => self.operator(byte, false),
            Wanted::BehindName => self.operator(byte, true),
        }
    }

    /// The length of what begins an operand, and what may stand behind it.
    fn operand(&mut self, byte: u8, may_sign: bool) -> Option<(usize, Wanted)> {
        match byte {
            b'(' => {
                self.depth = self.depth.saturating_add(1);
                Some((1, Wanted::First))
            }
            b'+' | b'-' if may_sign => Some((1, Wanted::Next)),
            b'0'..=b'9' => Some((digits_of(self.rest()), Wanted::Behind)),
            b'A'..=b'Z' => Some((word_length(self.rest()), Wanted::BehindName)),
            b'\'' if self.is_list => Some((quoted_length(self.rest()), Wanted::Behind)),
            b'.' => self.dotted_operand(),
            _ => None,
        }
    }

    /// The same of an operator, or of what ends an operand.
    fn operator(&mut self, byte: u8, is_behind_name: bool) -> Option<(usize, Wanted)> {
        match byte {
            b'+' | b'-' | b'*' | b'/' => Some((1, Wanted::Next)),
            b',' if self.depth > 0 || self.is_list => Some((1, Wanted::First)),
            b')' if self.depth > 0 => {
                self.depth = self.depth.saturating_sub(1);
                Some((1, Wanted::Behind))
            }
            b'(' if is_behind_name => {
                self.depth = self.depth.saturating_add(1);
                Some((1, Wanted::First))
            }
            b'=' if self.depth == 0 && self.may_assign => {
                self.may_assign = false;
                Some((1, Wanted::First))
            }
            b'.' => self.dotted_operator(),
            _ => None,
        }
    }

    /// What is left to be read.
    fn rest(&self) -> &'a [u8] {
        past(self.text, self.at)
    }

    fn dotted_operand(&self) -> Option<(usize, Wanted)> {
        let rest = self.rest();
        if rest.starts_with(b".NOT.") {
            return Some((5, Wanted::First));
        }
        let words: [&[u8]; 2] = [b".TRUE.", b".FALSE."];
        let word = words.iter().find(|word| rest.starts_with(word))?;
        Some((word.len(), Wanted::Behind))
    }

    /// The length of an operator between points, and what may stand behind it.
    fn dotted_operator(&self) -> Option<(usize, Wanted)> {
        let rest = self.rest();
        if rest.starts_with(b".NOT.") {
            return None;
        }
        Some((operator_length(rest)?, Wanted::First))
    }
}
