//! The columns of a line.

use crate::tokens::{digits_of, front, past};
use ast::Label;
use bstr::ByteSlice;
use fixed_form::{LAST_COLUMN, LAST_LABEL_COLUMN};

/// How many columns a card has past the last one that is read.
const CARD_WIDTH: usize = 8;

/// What stands past the last column that is read; nothing, where the line ends before it.
pub fn unread(line: &[u8]) -> &[u8] {
    past(line, LAST_COLUMN)
}

/// Whether past the last column something stands that may be of a statement: neither blanks nor
/// digits alone, nor what names a card; or the rest of a number.
pub fn is_cut(line: &[u8]) -> bool {
    splits_number(line) || is_told(unread(line)) && !names_card(unread(line))
}

/// Whether a digit stands in the last column that is read, and one behind it.
fn splits_number(line: &[u8]) -> bool {
    line.get(LAST_COLUMN - 1).is_some_and(u8::is_ascii_digit)
        && unread(line).first().is_some_and(u8::is_ascii_digit)
}

/// Whether a text has more than blanks and digits.
fn is_told(text: &[u8]) -> bool {
    text.iter()
        .any(|byte| *byte != b' ' && !byte.is_ascii_digit())
}

/// Whether past the last column stands what names a card: letters, and digits behind them.
pub fn names_card(text: &[u8]) -> bool {
    let text = text.trim();
    let letters = text
        .iter()
        .take_while(|byte| byte.is_ascii_alphabetic())
        .count();
    let digits = past(text, letters);
    digits.len() < text.len()
        && 2 <= digits.len()
        && text.len() <= CARD_WIDTH
        && digits_of(digits) == digits.len()
}

/// What stands in the columns that are read.
fn read(line: &[u8]) -> &[u8] {
    front(line, LAST_COLUMN)
}

/// What stands in the columns of a statement's text.
pub fn text_of(line: &[u8]) -> &[u8] {
    past(read(line), LAST_LABEL_COLUMN + 1)
}

/// Whether a line is a comment by its first column.
pub fn is_comment(line: &[u8]) -> bool {
    matches!(line.first(), Some(b'C' | b'c' | b'*'))
}

/// Whether nothing stands in the columns that are read.
pub fn is_blank(line: &[u8]) -> bool {
    read(line).iter().all(|byte| *byte == b' ')
}

/// Whether a line that is no comment goes on with the statement above it.
pub fn is_continuation(line: &[u8]) -> bool {
    !matches!(line.get(LAST_LABEL_COLUMN), None | Some(b' ' | b'0'))
}

/// Whether a line has a number of two digits or more that begins in column 6 or behind it, and a
/// word behind that, as where a label stands too far to the right.
pub fn has_late_label(line: &[u8]) -> bool {
    let text = line.trim_start();
    let rest = past(text, digits_of(text));
    let is_number = line.len().saturating_sub(text.len()) == LAST_LABEL_COLUMN
        && rest.len().saturating_add(2) <= text.len();
    let is_behind_blank = rest.first() == Some(&b' ');
    let word = rest.trim_start();
    is_number && is_behind_blank && word.first().is_some_and(u8::is_ascii_alphabetic)
}

/// The number that the digits of a text are.
pub fn number_in(text: &[u8]) -> Label {
    let digits = text.iter().filter(|byte| byte.is_ascii_digit());
    digits.fold(0, |number: Label, digit| {
        number
            .saturating_mul(10)
            .saturating_add(Label::from(digit.saturating_sub(b'0')))
    })
}

/// The label of a line, if it has one.
pub fn label_of(line: &[u8]) -> Option<Label> {
    let columns = front(line, LAST_LABEL_COLUMN);
    let is_label = !is_continuation(line)
        && columns.iter().any(u8::is_ascii_digit)
        && columns
            .iter()
            .all(|byte| *byte == b' ' || byte.is_ascii_digit());
    is_label.then_some(number_in(columns))
}
