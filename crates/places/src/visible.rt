//! Texts of files and names as they can be shown: with no control characters, and not too long.

use bstr::ByteSlice;
use std::fmt::{Display, Formatter, Result as FmtResult, Write};

/// How many bytes of a text are shown.
const WIDTH: usize = 132;

/// A text of any bytes, to be shown.
#[derive(Drop)]
pub struct Visible<'a> {
    text: &'a [u8],
}

impl<'a> Visible<'a> {
    pub fn new(text: &'a [u8]) -> Self {
        Visible { text }
    }
}

impl<'a> Display for Visible<'a> {
    fn fmt<W: Write>(&self, f: &mut Formatter<W>) -> FmtResult {
        let (front, mark) = match self.text.get(..WIDTH) {
            Some(front) if front.len() < self.text.len() => (front, " .."),
            _ => (self.text, ""),
        };
        for character in front.chars() {
            write_visible(f, character)?;
        }
        f.write_str(mark)
    }
}

/// A text of several lines, to be shown whole.
#[derive(Drop)]
pub struct VisibleLines<'a> {
    text: &'a str,
}

impl<'a> VisibleLines<'a> {
    pub fn new(text: &'a str) -> Self {
        VisibleLines { text }
    }
}

impl<'a> Display for VisibleLines<'a> {
    fn fmt<W: Write>(&self, f: &mut Formatter<W>) -> FmtResult {
        for character in self.text.chars() {
            if character == '\n' {
                f.write_char(character)?;
            } else {
                write_visible(f, character)?;
            }
        }
        Ok(())
    }
}

/// Writes a character, or its name where a terminal would obey it.
fn write_visible<W: Write>(f: &mut Formatter<W>, character: char) -> FmtResult {
    if character.is_control() || is_unseen(character) {
        write_escaped(f, character)
    } else {
        f.write_char(character)
    }
}

/// Writes the name of a character.
fn write_escaped<W: Write>(f: &mut Formatter<W>, character: char) -> FmtResult {
    for part in character.escape_default() {
        f.write_char(part)?;
    }
    Ok(())
}

/// Whether a character looks like a blank or like nothing, or changes the direction of the text
/// behind it.
fn is_unseen(character: char) -> bool {
    matches!(
        character,
        '\u{A0}'
            | '\u{AD}'
            | '\u{61C}'
            | '\u{2000}'..='\u{200F}'
            | '\u{2028}'..='\u{202F}'
            | '\u{205F}'..='\u{206F}'
            | '\u{3000}'
            | '\u{FEFF}'
    )
}
