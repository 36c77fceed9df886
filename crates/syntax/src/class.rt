//! The class of a statement.

ghost use Rattle.std.specs.Prelude.{◌≡◌, option_map, map};
ghost use Rattle.syntax.specs.Classes.{stands_at_level_zero, enclosed, is_word, is_digits};
ghost use Rattle.syntax.specs.Classes.{after_label, are_labels, if_class, without_comma};
ghost use Rattle.syntax.specs.Classes.{is_do_value, is_do_variable, is_do, first_keyword};
ghost use Rattle.syntax.specs.Classes.{class_by_keyword, simple_class, other_class};
ghost use Rattle.syntax.specs.Classes.{class_behind_if, class_of};
ghost use Rattle.syntax.specs.Views.{class};

use expressions::{after, begins_digit, begins_letter, begins_with, digits, letters_and_digits};

/// A keyword that a statement begins with.
#[derive(Clone, Copy)]
pub enum Keyword {
    Program,
    Integer,
    Dimension,
    Parameter,
    /// `PRINT*`
    Print,
    /// `WRITE(*,*)`
    Write,
    /// `READ*`
    Read,
    /// `READ(*,*)`
    ReadUnit,
    Continue,
    Else,
    ElseIf,
    EndIf,
    Stop,
    End,
    /// A keyword of a statement that the language leaves out.
    LeftOut,
}

/// The class of a statement, with what stands behind its keyword.
#[derive(Clone, Copy)]
pub enum Class<'a> {
    /// A block IF: its condition.
    BlockIf(&'a [u8]),
    /// A logical IF: its condition, and its statement.
    LogicalIf(&'a [u8], &'a [u8]),
    Do(&'a [u8]),
    /// An assignment: its text.
    Assignment(&'a [u8]),
    Worded(Keyword, &'a [u8]),
    /// An IF whose parenthesis isn't closed.
    Unclosed,
    Unknown,
}

/// The words that a statement may begin with, in the order in which they are tried.
const KEYWORDS: [(&[u8], Keyword); 48] = [
    (b"INTEGER*", Keyword::LeftOut),
    (b"REAL", Keyword::LeftOut),
    (b"DOUBLEPRECISION", Keyword::LeftOut),
    (b"COMPLEX", Keyword::LeftOut),
    (b"LOGICAL", Keyword::LeftOut),
    (b"CHARACTER", Keyword::LeftOut),
    (b"COMMON", Keyword::LeftOut),
    (b"EQUIVALENCE", Keyword::LeftOut),
    (b"DATA", Keyword::LeftOut),
    (b"SAVE", Keyword::LeftOut),
    (b"IMPLICIT", Keyword::LeftOut),
    (b"EXTERNAL", Keyword::LeftOut),
    (b"INTRINSIC", Keyword::LeftOut),
    (b"SUBROUTINE", Keyword::LeftOut),
    (b"FUNCTION", Keyword::LeftOut),
    (b"BLOCKDATA", Keyword::LeftOut),
    (b"ENTRY", Keyword::LeftOut),
    (b"CALL", Keyword::LeftOut),
    (b"RETURN", Keyword::LeftOut),
    (b"GOTO", Keyword::LeftOut),
    (b"ASSIGN", Keyword::LeftOut),
    (b"PAUSE", Keyword::LeftOut),
    (b"FORMAT", Keyword::LeftOut),
    (b"OPEN", Keyword::LeftOut),
    (b"CLOSE", Keyword::LeftOut),
    (b"INQUIRE", Keyword::LeftOut),
    (b"BACKSPACE", Keyword::LeftOut),
    (b"ENDFILE", Keyword::LeftOut),
    (b"REWIND", Keyword::LeftOut),
    (b"ENDDO", Keyword::LeftOut),
    (b"DOWHILE", Keyword::LeftOut),
    (b"PROGRAM", Keyword::Program),
    (b"INTEGER", Keyword::Integer),
    (b"DIMENSION", Keyword::Dimension),
    (b"PARAMETER", Keyword::Parameter),
    (b"PRINT*", Keyword::Print),
    (b"PRINT", Keyword::LeftOut),
    (b"WRITE(*,*)", Keyword::Write),
    (b"WRITE", Keyword::LeftOut),
    (b"READ*", Keyword::Read),
    (b"READ(*,*)", Keyword::ReadUnit),
    (b"READ", Keyword::LeftOut),
    (b"CONTINUE", Keyword::Continue),
    (b"ELSEIF", Keyword::ElseIf),
    (b"ELSE", Keyword::Else),
    (b"ENDIF", Keyword::EndIf),
    (b"STOP", Keyword::Stop),
    (b"END", Keyword::End),
];

/// Whether a mark stands outside all parentheses.
fn stands_at_level_zero(text: &[u8], wanted: u8) -> bool
    ensures { result ≡ stands_at_level_zero wanted text.now }
{
    let mut level: usize = 0;
    for mark in text {
        if level == 0 && *mark == wanted {
            return true;
        }
        level = match *mark {
            b'(' => level + 1,
            b')' => level.saturating_sub(1),
            _ => level,
        };
    }
    false
}

/// What stands before the parenthesis that closes one opened before the text, and what stands
/// behind that parenthesis.
fn enclosed(text: &[u8]) -> Option<(&[u8], &[u8])>
    ensures { option_map (λ x. (x.0.now, x.1.now)) result ≡ enclosed text.now }
{
    let mut level: usize = 0;
    for (index, mark) in text.iter().enumerate() {
        if level == 0 && *mark == b')' {
            return Some((&text[..index], &text[index + 1..]));
        }
        level = match *mark {
            b'(' => level + 1,
            b')' => level.saturating_sub(1),
            _ => level,
        };
    }
    None
}

/// Whether the text is this word.
pub fn is_word(text: &[u8], word: &[u8]) -> bool
    ensures { result ≡ is_word word.now text.now }
{
    match after(text, word) {
        Some(rest) => rest.is_empty(),
        None => false,
    }
}

/// Whether the text is digits, one at least.
pub fn is_digits(text: &[u8]) -> bool
    ensures { result ≡ is_digits text.now }
{
    begins_digit(text) && digits(text) == text.len()
}

/// The text behind digits and a comma.
fn after_label(text: &[u8]) -> Option<&[u8]>
    ensures { option_map (λ x. x.now) result ≡ after_label text.now }
{
    if begins_digit(text) {
        after(&text[digits(text)..], b",")
    } else {
        None
    }
}

/// Whether the text is the three labels of an arithmetic IF.
fn are_labels(text: &[u8]) -> bool
    ensures { result ≡ are_labels text.now }
{
    match after_label(text) {
        Some(second) => match after_label(second) {
            Some(third) => is_digits(third),
            None => false,
        },
        None => false,
    }
}

/// The class of an IF, by its condition and what follows the matching parenthesis.
fn if_class<'a>(condition: &'a [u8], rest: &'a [u8]) -> Class<'a>
    ensures { class result ≡ if_class condition.now rest.now }
{
    if is_word(rest, b"THEN") {
        Class::BlockIf(condition)
    } else if are_labels(rest) {
        Class::Worded(Keyword::LeftOut, rest)
    } else {
        Class::LogicalIf(condition, rest)
    }
}

/// The text behind a comma, where one stands first, and otherwise the text.
pub fn without_comma(text: &[u8]) -> &[u8]
    ensures { result.now ≡ without_comma text.now }
{
    match after(text, b",") {
        Some(rest) => rest,
        None => text,
    }
}

fn is_do_value(text: &[u8]) -> bool
    ensures { result ≡ is_do_value text.now }
{
    begins_with(text, b'=') && stands_at_level_zero(text, b',')
}

fn is_do_variable(text: &[u8]) -> bool
    ensures { result ≡ is_do_variable text.now }
{
    begins_letter(text) && is_do_value(&text[letters_and_digits(text)..])
}

/// Whether what stands behind `DO` makes a DO of it.
fn is_do(text: &[u8]) -> bool
    ensures { result ≡ is_do text.now }
{
    begins_digit(text) && is_do_variable(without_comma(&text[digits(text)..]))
}

/// The class by the first of the words that the text begins with.
fn first_keyword<'a>(text: &'a [u8], words: &[(&[u8], Keyword)]) -> Class<'a>
    ensures { class result ≡ first_keyword (map (λ w. (w.0.now, w.1)) words.now) text.now }
{
    for entry in words {
        if let Some(rest) = after(text, entry.0) {
            return Class::Worded(entry.1, rest);
        }
    }
    Class::Unknown
}

#[tactic(auto, unfolding(crate::specs::Classes::class_by_keyword))]
fn class_by_keyword(text: &[u8]) -> Class<'_>
    ensures { class result ≡ class_by_keyword text.now }
{
    first_keyword(text, &KEYWORDS)
}

fn simple_class(text: &[u8]) -> Class<'_>
    ensures { class result ≡ simple_class text.now }
{
    if stands_at_level_zero(text, b'=') {
        Class::Assignment(text)
    } else {
        class_by_keyword(text)
    }
}

/// The class of a statement that is no IF.
fn other_class(text: &[u8]) -> Class<'_>
    ensures { class result ≡ other_class text.now }
{
    match after(text, b"DO") {
        Some(rest) if is_do(rest) => Class::Do(rest),
        _ => simple_class(text),
    }
}

/// The class of a text behind whose `IF(` the rest stands.
fn class_behind_if<'a>(text: &'a [u8], rest: &'a [u8]) -> Class<'a>
    ensures { class result ≡ class_behind_if text.now rest.now }
{
    match enclosed(rest) {
        Some((_, behind)) if begins_with(behind, b'=') => other_class(text),
        Some((condition, behind)) => if_class(condition, behind),
        None => Class::Unclosed,
    }
}

/// The class of a statement's marks: its text without blanks, folded to upper case, an apostrophe
/// standing for each character constant.
pub fn class_of(text: &[u8]) -> Class<'_>
    ensures { class result ≡ class_of text.now }
{
    match after(text, b"IF(") {
        Some(rest) => class_behind_if(text, rest),
        None => other_class(text),
    }
}
