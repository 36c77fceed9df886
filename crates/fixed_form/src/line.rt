//! One line: its columns, and what they make of it.

ghost use Rattle.std.specs.Prelude.{◌≡◌, ◌≤◌, ◌++◌, take, drop, slice_index_or, OnOk, OnErr};
ghost use Rattle.std.specs.List.{list_all};
ghost use Rattle.fixed_form.specs.Limits.{last_label_column, last_column};
ghost use Rattle.fixed_form.specs.Line as spec;
ghost use Rattle.fixed_form.specs.Steps.{field_of, class_of};

use crate::label::{LabelField, read_label};
use ast::Rule;
use std::alloc::AllocError;

/// The last column of a label.
pub const LAST_LABEL_COLUMN: usize = 5;

/// The column that tells a continuation line. The statement's text stands behind it.
const CONTINUATION_COLUMN: usize = 6;

/// The last column that is read.
pub const LAST_COLUMN: usize = 72;

/// The columns of a statement's text on one line.
pub const TEXT_WIDTH: usize = LAST_COLUMN - CONTINUATION_COLUMN;

/// What a line is, and the rule that it breaks wherever it stands.
#[derive(Clone, Copy)]
pub enum Class {
    Comment,
    Refused(Rule),
    Continuation,
    Initial(Option<u32>),
}

/// The first characters of a line, `count` of them where there are as many.
fn front(line: &[u8], count: usize) -> &[u8]
    ensures { result.now ≡ take count line.now }
{
    if count < line.len() {
        &line[..count]
    } else {
        line
    }
}

/// The character at an index, a blank behind the line's end.
fn character_at(line: &[u8], index: usize) -> u8
    ensures { result ≡ slice_index_or line.now index spec.blank }
{
    if index < line.len() {
        line[index]
    } else {
        b' '
    }
}

fn are_blank(characters: &[u8]) -> bool
    ensures { result ≡ list_all spec.is_blank characters.now }
{
    characters.iter().all(|c| *c == b' ')
}

fn are_printable(characters: &[u8]) -> bool
    ensures { result ≡ list_all spec.is_printable characters.now }
{
    characters.iter().all(|c| 32 <= *c && *c <= 126)
}

/// Whether the columns of a line are blank, up to the last that counts.
#[tactic(auto, using(crate::proofs::Columns::blank_columns))]
fn is_blank_to(line: &[u8], last: usize) -> bool
    ensures { result ≡ list_all spec.is_blank (spec.columns 1 last line.now) }
{
    are_blank(front(line, last))
}

/// Whether the columns of a line hold characters of the profile alone, up to the last that counts.
#[tactic(auto, using(crate::proofs::Columns::printable_columns))]
fn is_printable_to(line: &[u8], last: usize) -> bool
    ensures { result ≡ list_all spec.is_printable (spec.columns 1 last line.now) }
{
    are_printable(front(line, last))
}

fn is_comment(line: &[u8]) -> bool
    ensures { result ≡ spec.is_comment line.now }
{
    let mark = character_at(line, 0);
    mark == b'C' || mark == b'c' || mark == b'*' || is_blank_to(line, LAST_COLUMN)
}

fn is_continuation(line: &[u8]) -> bool
    ensures { result ≡ spec.is_continuation line.now }
{
    let mark = character_at(line, CONTINUATION_COLUMN - 1);
    !(mark == b' ' || mark == b'0')
}

/// What the label's columns say.
#[tactic(auto, using(crate::proofs::Columns::label_columns))]
fn label_field(line: &[u8], last: usize) -> LabelField
    requires { last ≤ last_label_column }
    ensures { result ≡ field_of (spec.without_blanks (spec.columns 1 last line.now)) }
{
    read_label(front(line, last))
}

/// What a line is.
pub fn classify(line: &[u8]) -> Class
    ensures { result ≡ class_of line.now }
{
    if is_comment(line) {
        return Class::Comment;
    }
    if !is_printable_to(line, LAST_COLUMN) {
        return Class::Refused(Rule::StrangeByte);
    }
    match (is_continuation(line), label_field(line, LAST_LABEL_COLUMN)) {
        (true, LabelField::Blank) => Class::Continuation,
        (true, _) => Class::Refused(Rule::LabelledContinuation),
        (false, LabelField::Blank) => Class::Initial(None),
        (false, LabelField::Label(label)) => Class::Initial(Some(label)),
        (false, LabelField::Malformed) => Class::Refused(Rule::MalformedLabel),
    }
}

/// The characters from an index on.
fn rest(line: &[u8], index: usize) -> &[u8]
    ensures { result.now ≡ drop index line.now }
{
    if index < line.len() {
        &line[index..]
    } else {
        &[]
    }
}

/// Adds some characters to a text, filled with blanks or cut to a number of them. The text stays as
/// it was where memory is refused.
#[tactic(auto, using(crate::proofs::Columns::filled_onto))]
fn append_filled(text: &mut Vec<u8>, characters: &[u8], count: usize) -> Result<(), AllocError>
    requires { count ≤ last_column }
    ensures ok { OnOk result (text.new.items ≡ text.old.items ++ spec.filled count characters.now) }
    ensures err { OnErr result (text.new.items ≡ text.old.items) }
{
    text.reserve(count)?;
    let width = text.len() + count;
    text.extend_from_slice(front(characters, count))?;
    text.resize(width, b' ')
}

/// Adds columns 7 to 72 of a line to a text, which stays as it was where memory is refused.
#[tactic(auto, unfolding(crate::specs::Line::columns))]
pub fn append_part(text: &mut Vec<u8>, line: &[u8]) -> Result<(), AllocError>
    ensures ok { OnOk result (text.new.items ≡ text.old.items ++ spec.part_of line.now) }
    ensures err { OnErr result (text.new.items ≡ text.old.items) }
{
    append_filled(text, rest(line, CONTINUATION_COLUMN), TEXT_WIDTH)
}

/// Whether a text is END, blanks and case aside.
pub fn is_end(text: &[u8]) -> bool
    ensures { result ≡ spec.is_end text.now }
{
    let mut left: &[u8] = b"END";
    for character in text {
        if *character != b' ' {
            match left {
                [first, others @ ..] if *first == character.to_ascii_uppercase() => left = others,
                _ => return false,
            }
        }
    }
    left.is_empty()
}
