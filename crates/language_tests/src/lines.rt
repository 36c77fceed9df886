//! Statements of texts.

use ast::{Refusal, Rule};
use fixed_form::Labelled;
use std::alloc::Global;
use std::process::Abort;
use std::test::Fail;

/// The statements of a text. What is proved of them isn't carried through the tests.
fn statements(alloc: Global, text: &[u8]) -> Result<Vec<Labelled>, Refusal> {
    fixed_form::statements(alloc, text)
}

/// A label, a line, and the text by its lines, without the blanks behind each.
pub type Statement = (Option<u32>, u32, &'static [&'static [u8]]);

/// What is wanted of the statements of a text.
#[derive(Clone, Copy)]
pub enum Wanted {
    Statements(&'static [Statement]),
    /// A refusal by this rule and this line.
    Refused(Rule, u32),
    /// So many statements as long as one may be, and one more.
    Longest(usize),
}

/// Some characters, and blanks behind them.
fn is_filled(text: &[u8], characters: &[u8]) -> bool {
    for (place, byte) in text.iter().enumerate() {
        if *byte != *characters.get(place).unwrap_or(&b' ') {
            return false;
        }
    }
    characters.len() <= text.len()
}

/// Whether a text is these parts, each filled up to the width of a line's.
fn is_text(text: &[u8], parts: &[&[u8]]) -> bool {
    let mut rest = text;
    for characters in parts {
        if rest.len() < 66 {
            return false;
        }
        let (line, behind) = rest.split_at(66);
        if !is_filled(line, characters) {
            return false;
        }
        rest = behind;
    }
    rest.is_empty()
}

fn is_statement(statement: &Labelled, (label, line, parts): Statement) -> bool {
    statement.label == label && statement.line == line && is_text(&statement.text, parts)
}

fn are_statements(list: &[Labelled], wanted: &[Statement]) -> bool {
    for (place, statement) in list.iter().enumerate() {
        if place >= wanted.len() || !is_statement(statement, wanted[place]) {
            return false;
        }
    }
    list.len() == wanted.len()
}

/// Whether the first statements of a list, all but one, are as long as one may be.
fn are_longest(list: &[Labelled], count: usize) -> bool {
    for (place, statement) in list.iter().enumerate() {
        if place < count && statement.text.len() != 1_320 {
            return false;
        }
    }
    list.len() == count.wrapping_add(1)
}

fn is_wanted(list: &[Labelled], wanted: Wanted) -> bool {
    match wanted {
        Wanted::Statements(statements) => are_statements(list, statements),
        Wanted::Longest(count) => are_longest(list, count),
        Wanted::Refused(_, _) => false,
    }
}

/// Whether this comes of a text.
pub fn comes(alloc: Global, text: &[u8], wanted: Wanted) -> bool {
    match (statements(alloc, text), wanted) {
        (Ok(list), _) => is_wanted(&list, wanted),
        (Err(refusal), Wanted::Refused(rule, line)) => {
            refusal == Refusal::Refused { number: rule, line }
        }
        _ => false,
    }
}

// ---- texts of one byte

/// By which rule a byte alone is refused.
fn refused_in_column_1(byte: u8) -> Rule {
    match byte {
        b'\n' | b'C' | b'c' | b'*' | b' ' | b'1'..=b'9' => Rule::NoEnd,
        32..=126 => Rule::MalformedLabel,
        _ => Rule::StrangeByte,
    }
}

/// By which rule a byte behind five blanks is refused.
fn refused_in_column_6(byte: u8) -> Rule {
    match byte {
        b'\n' | b' ' | b'0' => Rule::NoEnd,
        32..=126 => Rule::LooseContinuation,
        _ => Rule::StrangeByte,
    }
}

/// Whether a byte is refused in both columns.
fn is_refused(alloc: Global, byte: u8) -> bool {
    let first = Wanted::Refused(refused_in_column_1(byte), 1);
    let sixth = Wanted::Refused(refused_in_column_6(byte), 1);
    comes(alloc, &[byte], first) && comes(alloc, &[b' ', b' ', b' ', b' ', b' ', byte], sixth)
}

#[test]
fn texts_of_one_byte(rt: HostRuntime) {
    for byte in 0..=255u8 {
        assert!(rt; is_refused(rt.alloc(), byte), "byte {byte}");
    }
}

// ---- want of memory

/// Whether a text has its two statements.
fn has_two(alloc: Global) -> Result<bool, Refusal> {
    let list = statements(alloc, b"   10 K=1\n     1+2\n      END\n")?;
    Ok(are_statements(
        &list,
        &[(Some(10), 1, &[b"K=1", b"+2"]), (None, 3, &[b"END"])],
    ))
}

#[test]
fn want_of_memory(rt: HostRuntime) -> Result<(), Fail> {
    match has_two(rt.alloc()) {
        Ok(is_right) => assert!(rt; is_right),
        Err(refusal) => {
            assert!(rt; refusal == Refusal::Memory);
            assert!(rt; matches!(has_two(rt.alloc()), Ok(true)));
            return Err(refusal.into());
        }
    }
    Ok(())
}
