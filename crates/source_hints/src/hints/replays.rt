//! Hints at the commonest causes of a schedule's refusal, by the line that is refused.

use crate::tokens::{digits_of, past};
use bstr::ByteSlice;
use schedules::Flaw;

/// How many digits 2^128 has.
const LONGEST_NUMBER: usize = 39;

/// What may have caused the refusal of a schedule with this flaw, at a line with its end.
pub fn hint_of_schedule(flaw: Flaw, line: &[u8]) -> Option<&'static str> {
    if !matches!(flaw, Flaw::Header | Flaw::Entry) {
        return None;
    }
    let [text @ .., b'\n'] = line else {
        return Some("no LF stands behind the line");
    };
    if text.ends_with(b"\r") {
        return Some("a CR stands at the end of the line; a schedule's line ends in LF alone");
    }
    if text.starts_with(b" ") || text.ends_with(b" ") {
        return Some("no blank stands before or behind what a line has");
    }
    match flaw {
        Flaw::Header => of_head(text),
        _ => of_entry(text),
    }
}

/// What is said of one of the first two lines.
fn of_head(text: &[u8]) -> Option<&'static str> {
    if digits_of(text) > 0 {
        return Some("line 2 has the processors, 1 to 64, and the open iterations, 1 to 256");
    }
    Some("a schedule begins with DOACROSS SCHEDULE 1 or DOACROSS SCHEDULE 2")
}

/// What is said of an entry.
fn of_entry(text: &[u8]) -> Option<&'static str> {
    let blank = text.find_byte(b' ').unwrap_or(text.len());
    match past(text, blank.saturating_add(1)) {
        [] => Some("an entry has a processor and what it does, as in 0 5"),
        [b'M' | b'T'] => Some("M, T and I are of DOACROSS SCHEDULE 2"),
        [b'I', b' ', number @ ..] if are_digits(number) => of_iteration(number),
        [b'm' | b't' | b'i', ..] => Some("M, T and I are capitals"),
        [b'1'..=b'9', rest @ ..] if are_digits(rest) => {
            Some("an entry has 1,024 local instructions at most; more take more lines")
        }
        _ => None,
    }
}

/// What is said of a pick of an iteration of this number.
fn of_iteration(number: &[u8]) -> Option<&'static str> {
    if number.len() < LONGEST_NUMBER {
        return Some("M, T and I are of DOACROSS SCHEDULE 2");
    }
    Some("the number of an iteration is below 2^128")
}

fn are_digits(text: &[u8]) -> bool {
    digits_of(text) == text.len()
}
