//! A place in the text of a statement, as it stands among the lines of its source.

use crate::columns::{is_blank, is_comment, is_continuation, text_of};
use ast::Line;
use bstr::ByteSlice;
use fixed_form::LAST_LABEL_COLUMN;
use places::line_at;

/// A place in a line: its column, from 0, and the line's text.
#[derive(Clone, Copy)]
pub struct Caret<'a> {
    pub line: Line,
    pub column: usize,
    pub text: &'a [u8],
}

/// How a statement's characters are counted.
#[derive(Drop)]
struct Counter {
    /// How many come before the one that is looked for.
    left: usize,
    /// Whether a text has begun and not ended.
    is_open: bool,
}

impl<'a> Caret<'a> {
    /// Where the character of this number, from 0, of the statement that begins in a line stands,
    /// blanks outside of texts left out; behind the last character where there is none of that
    /// number.
    pub fn of(source: &'a [u8], line: Line, number: usize) -> Option<Self> {
        let mut counter = Counter {
            left: number,
            is_open: false,
        };
        let mut last = None;
        for (index, text) in source.lines().enumerate() {
            let at = line_at(index);
            if at < line || is_comment(text) || is_blank(text) {
                continue;
            }
            if at > line && !is_continuation(text) {
                break;
            }
            if let Some(column) = counter.column_in(text_of(text)) {
                return Some(Caret::at(at, column, text));
            }
            last = Some(Caret::at(at, text_of(text).trim_end().len(), text));
        }
        last
    }

    fn at(line: Line, place: usize, text: &'a [u8]) -> Self {
        let column = place.saturating_add(LAST_LABEL_COLUMN).saturating_add(1);
        Caret { line, column, text }
    }
}

impl Counter {
    /// The place of the character among those of a line, if it is there.
    fn column_in(&mut self, text: &[u8]) -> Option<usize> {
        for (place, byte) in text.iter().enumerate() {
            if *byte == b'\'' {
                self.is_open = !self.is_open;
            }
            if *byte != b' ' || self.is_open {
                if self.left == 0 {
                    return Some(place);
                }
                self.left = self.left.saturating_sub(1);
            }
        }
        None
    }
}
