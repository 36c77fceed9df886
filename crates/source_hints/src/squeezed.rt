//! Statements of a source as hints look at them.

use crate::columns::{
    has_late_label, is_blank, is_comment, is_continuation, is_cut, label_of, number_in, text_of,
};
use crate::tokens::{digits_of, front, past, word_length};
use ast::{Label, Line};
use bstr::ByteSlice;
use places::line_at;
use std::alloc::{AllocError, Global};

/// What stands for each character of a text.
const BLOT: u8 = b'~';

/// What begins the statement that gives a program its name.
pub const PROGRAM: &[u8] = b"PROGRAM";

/// What begins the statements that others stand on, but for a DO and the parts of an IF.
const DECLARATIONS: [&[u8]; 4] = [b"INTEGER", b"DIMENSION", b"PARAMETER", PROGRAM];

/// What begins the statements that read and print, whatever stands behind it.
pub const TRANSFERS: [&[u8]; 3] = [b"PRINT", b"READ", b"WRITE"];

/// What begins those of the language, before their lists.
const LISTS: [&[u8]; 4] = [b"PRINT*", b"WRITE(*,*)", b"READ*", b"READ(*,*)"];

/// What else begins the statements that don't stand behind a condition, but for a DO.
const UNCONDITIONAL: [&[u8]; 3] = [b"IF(", b"ELSE", b"END"];

/// Whether a sign stands outside all parentheses.
pub fn has_outer(sign: u8, text: &[u8]) -> bool {
    let mut depth: u32 = 0;
    for byte in text {
        match byte {
            b'(' => depth = depth.saturating_add(1),
            b')' => depth = depth.saturating_sub(1),
            _ if *byte == sign && depth == 0 => return true,
            _ => {}
        }
    }
    false
}

/// What stands behind the parenthesis that closes the first one of a text, if it is closed.
pub fn behind_parentheses(text: &[u8]) -> Option<&[u8]> {
    let mut depth: u32 = 0;
    for (place, byte) in text.iter().enumerate() {
        match byte {
            b'(' => depth = depth.saturating_add(1),
            b')' if depth <= 1 => return text.get(place.saturating_add(1)..),
            b')' => depth = depth.saturating_sub(1),
            _ => {}
        }
    }
    None
}

/// What a statement does: what stands behind the condition of a logical IF, else the whole.
pub fn action(text: &[u8]) -> &[u8] {
    if text.starts_with(b"IF(") {
        return behind_parentheses(text).unwrap_or(text);
    }
    text
}

/// Whether a text begins as an IF with a condition.
pub fn is_if(text: &[u8]) -> bool {
    text.starts_with(b"IF(") || text.starts_with(b"ELSEIF(")
}

/// How much of a text stands before the list of a PRINT, a WRITE or a READ, if it is one.
pub fn transfer_length(text: &[u8]) -> Option<usize> {
    let front = LISTS.iter().find(|front| text.starts_with(front))?;
    Some(front.len())
}

/// Whether a text begins with one of these.
pub fn begins_with(text: &[u8], fronts: &[&[u8]]) -> bool {
    fronts.iter().any(|front| text.starts_with(front))
}

/// Whether a text begins with a name, with subscripts or without, and an equals sign.
pub fn assigns(text: &[u8]) -> bool {
    let rest = past(text, word_length(text));
    match behind_parentheses(rest) {
        Some(behind) if rest.starts_with(b"(") => behind.starts_with(b"="),
        _ => rest.starts_with(b"="),
    }
}

/// Whether a text begins as a DO with a label.
pub fn names_label(text: &[u8]) -> bool {
    matches!(text, [b'D', b'O', b'0'..=b'9', ..])
}

/// A statement without blanks, in capitals, its texts blotted out.
#[derive(Drop)]
pub struct Squeezed {
    /// Its initial line.
    pub line: Line,
    pub label: Option<Label>,
    /// How many characters of its statement stand before it, where it is what a logical IF does.
    pub front: usize,
    pub text: Vec<u8>,
    /// Whether something that may be of it stands past the columns that are read.
    pub is_cut: bool,
    /// The first of its continuation lines that looks as if it began with a label, if one does.
    pub late_label: Option<Line>,
    /// Whether a text has begun and not ended.
    is_open: bool,
}

impl Squeezed {
    /// The statement that begins in a line, or else the last one before, with its continuation
    /// lines.
    pub fn of(alloc: Global, source: &[u8], line: Line) -> Result<Self, AllocError> {
        let mut statements = Squeezed::all(alloc, source)?;
        let count = statements
            .iter()
            .filter(|statement| statement.line <= line)
            .count();
        statements.truncate(count);
        Ok(statements.pop().unwrap_or(Squeezed::new(alloc, line, None)))
    }

    /// All statements of a source whose lines are in order.
    pub fn all(alloc: Global, source: &[u8]) -> Result<Vec<Self>, AllocError> {
        let mut statements = Vec::new(alloc);
        for (place, text) in source.lines().enumerate() {
            if is_comment(text) || is_blank(text) {
                continue;
            }
            if !is_continuation(text) {
                statements.push(Squeezed::new(alloc, line_at(place), label_of(text)))?;
            }
            if let Some(statement) = statements.last_mut() {
                statement.add_line(line_at(place), text)?;
            }
        }
        Ok(statements)
    }

    fn new(alloc: Global, line: Line, label: Option<Label>) -> Self {
        Squeezed {
            line,
            label,
            front: 0,
            text: Vec::new(alloc),
            is_cut: false,
            late_label: None,
            is_open: false,
        }
    }

    /// What it does, as a statement of its own.
    pub fn action(&self, alloc: Global) -> Result<Self, AllocError> {
        let mut done = Squeezed::new(alloc, self.line, self.label);
        done.text.extend_from_slice(action(&self.text))?;
        done.front = self.text.len().saturating_sub(done.text.len());
        Ok(done)
    }

    /// Whether behind the condition of a logical IF stands what can't stand there.
    pub fn is_misplaced(&self) -> bool {
        let done = action(&self.text);
        done.len() < self.text.len()
            && (names_label(done)
                || begins_with(done, &UNCONDITIONAL)
                || begins_with(done, &DECLARATIONS))
    }

    /// Whether it is a DO, if it is a statement.
    pub fn is_loop(&self) -> bool {
        names_label(&self.text) && has_outer(b'=', &self.text) && has_outer(b',', &self.text)
    }

    /// Whether it assigns to a variable or an element, if it is a statement.
    pub fn is_assignment(&self) -> bool {
        assigns(&self.text)
    }

    /// Whether no other statement stands on it, whatever it was meant as: an assignment, a READ or
    /// a PRINT, also in a logical IF.
    pub fn stands_alone(&self) -> bool {
        let done = action(&self.text);
        if done.starts_with(b"THEN") || begins_with(done, &DECLARATIONS) {
            return false;
        }
        if self.is_assignment() {
            return true;
        }
        begins_with(done, &TRANSFERS) || has_outer(b'=', done) && !has_outer(b',', done)
    }

    /// Whether it is a READ, if it is a statement.
    pub fn is_read(&self) -> bool {
        self.text.starts_with(b"READ") && !self.is_assignment()
    }

    /// The label that a DO names.
    pub fn terminal(&self) -> Label {
        let text = past(&self.text, 2);
        number_in(front(text, digits_of(text)))
    }

    /// Whether it is the IF of a block, if it is a statement.
    pub fn is_block(&self) -> bool {
        self.text.starts_with(b"IF(")
            && self.text.ends_with(b")THEN")
            && !has_outer(b'=', &self.text)
    }

    /// Whether it declares names with bounds, if it is a statement.
    pub fn is_declaration(&self) -> bool {
        begins_with(&self.text, &[b"INTEGER", b"DIMENSION"]) && !self.is_assignment()
    }

    /// Whether it names constants, if it is a statement.
    pub fn is_parameter(&self) -> bool {
        self.text.starts_with(b"PARAMETER(")
    }

    /// Whether it is executable, if it is a statement.
    pub fn is_executable(&self) -> bool {
        let is_program = self.text.starts_with(PROGRAM) && !self.is_assignment();
        !is_program && !self.is_declaration() && !self.is_parameter()
    }

    fn add_line(&mut self, number: Line, line: &[u8]) -> Result<(), AllocError> {
        self.is_cut |= is_cut(line);
        if self.late_label.is_none() && is_continuation(line) && has_late_label(line) {
            self.late_label = Some(number);
        }
        for byte in text_of(line) {
            self.add(*byte)?;
        }
        Ok(())
    }

    fn add(&mut self, byte: u8) -> Result<(), AllocError> {
        if byte == b'\'' {
            self.is_open = !self.is_open;
            self.text.push(byte)?;
        } else if self.is_open {
            self.text.push(BLOT)?;
        } else if byte != b' ' {
            self.text.push(byte.to_ascii_uppercase())?;
        }
        Ok(())
    }
}
