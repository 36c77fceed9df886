//! Hints at the commonest causes of a refusal, by what stands in its statement.

mod replays;
mod signs;

use crate::columns::{is_continuation, label_of, text_of};
use crate::mentions::behind_label;
use crate::squeezed::{
    Squeezed, action, assigns, begins_with, behind_parentheses, has_outer, is_if, names_label,
    transfer_length,
};
use crate::tokens::{OPERATORS, digits_of, front, past, word_length};
use ast::{Fault, Rule};
use bstr::ByteSlice;
use fixed_form::LAST_LABEL_COLUMN;
pub use replays::hint_of_schedule;
use signs::{BEGINNINGS, CHARACTERS, FOREIGN, LEFT_OUT, LENGTHS, WHILE, earliest_of, first_of};
use std::cmp::Ordering;

/// What is said of a name that is not integer, where nothing more is known.
const DECLARE: &str = "INTEGER X declares a name, and INTEGER A(5) an array; the functions are \
MOD, ABS, IABS, MAX, MAX0, MIN and MIN0";

/// What is said of wrong subscripts.
const FIT: &str = "an array stands with all its subscripts, a variable without; the functions are \
MOD of two arguments, ABS and IABS of one, MAX, MAX0, MIN and MIN0 of two or more";

/// What is said of a label in other columns.
const LABEL: &str = "a label stands in columns 1 to 5";

/// What is said of a comment by other signs, or in other columns.
const COMMENT: &str = "a comment has a C or * in column 1";

/// What is said of operators without their points.
const POINTS: &str = "an operator has a point at each end, as in .EQ. and .AND.; there are .LT., \
.LE., .EQ., .NE., .GT., .GE., .NOT., .AND., .OR., .EQV. and .NEQV.";

/// What is said of a parenthesis without its end.
const OPEN: &str = "a parenthesis is not closed";

/// What may have caused the refusal of a source by this rule, at this line and the statement that
/// begins there.
pub fn hint(rule: Rule, line: &[u8], statement: &Squeezed) -> Option<&'static str> {
    let text = statement.text.as_slice();
    match rule {
        Rule::StrangeByte => of_character(line),
        Rule::MalformedLabel | Rule::LooseContinuation | Rule::LabelledContinuation => {
            of_columns(line)
        }
        Rule::NoEnd => of_missing_end(line, text),
        Rule::LineBehindEnd => of_rest(line, text),
        Rule::UnknownStatement | Rule::Malformed => of_form(line, statement),
        Rule::LongName => of_signs(text)
            .or(first_of(LENGTHS, text))
            .or(of_constant(text))
            .or(of_form(line, statement))
            .or(Some("a name has six characters at most")),
        Rule::UnendedText => of_mark(text)
            .or(past_columns(statement))
            .or(of_apostrophes(text)),
        Rule::RealConstant => of_real(text).or(of_points(text)),
        Rule::LargeConstant => text
            .contains_str(b"-9223372036854775808")
            .then_some("write -9223372036854775807-1"),
        Rule::LeftOut => of_left_out(text),
        Rule::NotInteger => of_name(text).or(Some(DECLARE)),
        Rule::WrongSubscripts => Some(FIT),
        Rule::WrongTerminal => Some("give the label to a CONTINUE behind the statement"),
        Rule::WrongKind => of_kind(line, text),
        _ => None,
    }
}

/// What may have caused a fault, at the statement.
pub fn hint_of_fault(fault: Fault, statement: &Squeezed) -> Option<&'static str> {
    let text = statement.text.as_slice();
    let is_guarded = matches!(fault, Fault::Index | Fault::ZeroDivisor);
    (is_guarded && is_if(text) && holds_one(&[b".AND.", b".OR."], text)).then_some(
        "both sides of .AND. and .OR. have to have a value; put one IF into another",
    )
}

/// What is said of a PARAMETER without its parentheses.
fn of_constant(text: &[u8]) -> Option<&'static str> {
    let first = text.strip_prefix(b"PARAMETER".as_slice())?.first()?;
    first.is_ascii_alphabetic().then_some(
        "parentheses stand around what PARAMETER gives, as in PARAMETER (N=5)",
    )
}

fn of_character(line: &[u8]) -> Option<&'static str> {
    if let Some(known) = first_of(CHARACTERS, line) {
        return Some(known);
    }
    if matches!(line.first(), Some(0x80..=0xBF | 0xF8..=0xFF)) {
        return Some("the line begins with a byte that begins no character; this is no text file");
    }
    if line.chars().any(is_typographic) {
        return Some("a dash or a quotation mark is not one of the keyboard");
    }
    line.iter()
        .any(|byte| *byte > b'~')
        .then_some("a character that is not of ASCII stands in the line")
}

/// Whether a character is a dash or a quotation mark of a word processor.
fn is_typographic(character: char) -> bool {
    matches!(
        character,
        '\u{2010}'..='\u{2015}' | '\u{2018}' | '\u{2019}' | '\u{201C}' | '\u{201D}'
    )
}

fn of_columns(line: &[u8]) -> Option<&'static str> {
    let columns = front(line, LAST_LABEL_COLUMN + 1);
    let is_comment = matches!(
        columns,
        [b'!' | b'#' | b'/' | b'%', ..] | [b'D' | b'd', b' ', ..]
    );
    if is_comment || is_note(line.trim_start()) {
        return Some(COMMENT);
    }
    if columns.contains(&b':') {
        return Some("a label has no colon behind it");
    }
    if is_free_form(line) {
        return Some("this looks like free form; doac reads fixed form");
    }
    if columns.iter().any(u8::is_ascii_alphabetic) {
        return Some(of_letters(columns));
    }
    if goes_past_label(line) {
        return Some(LABEL);
    }
    let label = front(line, LAST_LABEL_COLUMN);
    if is_continuation(line) && label.iter().any(u8::is_ascii_digit) {
        return Some("column 6 is blank in the line that a statement begins in");
    }
    (label_of(line) == Some(0)).then_some("a label is a number from 1 to 99999")
}

/// Whether a line looks as if it began in any column: a word of free form stands first, or a sign
/// that goes on with the next line stands last.
fn is_free_form(line: &[u8]) -> bool {
    let words: [&[u8]; 5] = [
        b"program ",
        b"module ",
        b"use ",
        b"implicit ",
        b"subroutine ",
    ];
    let text = line.trim();
    text.ends_with(b"&")
        || text.contains_str(b"::")
        || words
            .iter()
            .any(|word| front(text, word.len()).eq_ignore_ascii_case(word))
}

/// What is said of letters in columns 1 to 6.
fn of_letters(columns: &[u8]) -> &'static str {
    if digits_of(columns.trim_start()) > 0 {
        "the text behind a label begins in column 7"
    } else {
        "a statement begins in column 7, with six blanks before it"
    }
}

/// Whether a text looks like a comment that begins in another column.
fn is_note(text: &[u8]) -> bool {
    matches!(text, [b'C' | b'c' | b'*', b' ', ..])
}

/// Whether digits stand before a blank, and not all in the columns of a label.
fn goes_past_label(line: &[u8]) -> bool {
    let text = line.trim_start();
    let length = digits_of(text);
    let start = line.len().saturating_sub(text.len());
    length > 0
        && start.saturating_add(length) > LAST_LABEL_COLUMN
        && text.get(length) == Some(&b' ')
}

/// What is said of signs of other languages, up to the first that makes a comment or a text there.
fn of_signs(text: &[u8]) -> Option<&'static str> {
    let before = front(text, place_of_mark(text).unwrap_or(text.len()));
    if past(before, word_length(before)).starts_with(b"/=") {
        return Some("write it out, as in K=K/2");
    }
    earliest_of(FOREIGN, before).or(of_mark(text))
}

fn of_mark(text: &[u8]) -> Option<&'static str> {
    match text.get(place_of_mark(text)?) {
        Some(b'!') => Some("'!' begins no comment; a comment is a line with a C in column 1"),
        _ => Some("a text stands between apostrophes"),
    }
}

/// The place of the first quotation mark, or '!' that is not of the '!=' of other languages.
fn place_of_mark(text: &[u8]) -> Option<usize> {
    (0..text.len()).find(|place| match past(text, *place) {
        [b'"', ..] | [b'!', b'=', b'=', ..] => true,
        [b'!', b'=', ..] => false,
        rest => rest.starts_with(b"!"),
    })
}

fn of_left_out(text: &[u8]) -> Option<&'static str> {
    let done = action(text);
    if is_if(text) && digits_of(done) > 0 {
        return Some("there is no arithmetic IF; write an IF block");
    }
    first_of(LEFT_OUT, done)
}

fn of_end(text: &[u8]) -> Option<&'static str> {
    let rest = text.strip_prefix(b"END".as_slice())?;
    let ends_word = rest
        .first()
        .is_some_and(|sign| !sign.is_ascii_alphanumeric());
    (ends_word || rest.starts_with(b"PROGRAM")).then_some("END stands alone")
}

/// What is said of a source without END, by its last line and statement.
fn of_missing_end(line: &[u8], text: &[u8]) -> Option<&'static str> {
    if is_continuation(line) && line.trim().eq_ignore_ascii_case(b"END") {
        return Some("END begins in column 7; in column 6 it goes on with the line above");
    }
    of_end(text)
}

/// What is said of a line behind END.
fn of_rest(line: &[u8], text: &[u8]) -> Option<&'static str> {
    if let Some(known) = first_of(CHARACTERS, line) {
        return Some(known);
    }
    if line.trim_start().starts_with(b"!") {
        return Some(COMMENT);
    }
    if holds_one(&[b"SUBROUTINE", b"FUNCTION", b"BLOCKDATA"], text) {
        return Some("a source is one program, with no subroutines and functions behind it");
    }
    Some("the END above ends the program")
}

/// How often a sign stands in a text.
fn count(sign: u8, text: &[u8]) -> usize {
    text.iter().filter(|byte| **byte == sign).count()
}

/// What is said of apostrophes, of which there is an odd number.
fn of_apostrophes(text: &[u8]) -> Option<&'static str> {
    (count(b'\'', text) >= 3).then_some("an apostrophe within a text is written twice")
}

fn of_form(line: &[u8], statement: &Squeezed) -> Option<&'static str> {
    let text = statement.text.as_slice();
    let done = action(text);
    of_signs(text)
        .or(past_columns(statement))
        .or(of_label(line, text))
        .or(of_first(line, text))
        .or(of_condition(text))
        .or(of_loop(line, text))
        .or(of_star(done))
        .or(of_end(text))
        .or(of_parentheses(text))
        .or(of_list(done))
        .or(first_of(BEGINNINGS, done))
        .or(of_neighbours(text))
        .or(of_points(text))
        .or(of_text(text))
}

/// What is said of a statement by its first character, or of a comment in its place.
fn of_first(line: &[u8], text: &[u8]) -> Option<&'static str> {
    if is_note(text_of(line).trim_start()) {
        return Some(COMMENT);
    }
    match text.first() {
        None => Some("a label stands before a statement, as in 10 CONTINUE"),
        Some(b'+' | b'-' | b'/' | b',' | b'.' | b')' | b'=') => {
            Some("a statement goes on in a line with a sign in column 6")
        }
        Some(_) => None,
    }
}

/// What is said of the list of a PRINT, a WRITE or a READ.
fn of_list(text: &[u8]) -> Option<&'static str> {
    transfer_length(text)?;
    if text.starts_with(b"WRITE(*,*),") || text.starts_with(b"READ(*,*),") {
        return Some("no comma stands behind (*,*)");
    }
    if text.ends_with(b",") {
        return Some("nothing stands behind the last comma");
    }
    let behind = past(text, text.find_byte(b'=')?);
    if has_outer(b'=', text) && (!has_outer(b',', behind) || behind.starts_with(b"=,")) {
        return Some("no '=' stands in a list; a text stands between apostrophes");
    }
    if text.starts_with(b"READ") {
        return Some("there is no implied DO; name the elements, or read in a loop");
    }
    Some("there is no implied DO; name the elements, or print in a loop")
}

/// What is said of a text where none may stand: in a condition, or in what is done.
fn of_text(text: &[u8]) -> Option<&'static str> {
    let done = action(text);
    let condition = text.get(..text.len().saturating_sub(done.len()));
    let is_list = transfer_length(done).is_some();
    let is_tested = condition.is_some_and(|condition| condition.contains(&b'\''));
    (is_tested || done.contains(&b'\'') && !is_list).then_some(
        "a text stands in a PRINT, a WRITE or a STOP alone",
    )
}

fn past_columns(statement: &Squeezed) -> Option<&'static str> {
    statement.is_cut.then_some("the line goes past column 72, and what stands there is not read")
}

fn of_label(line: &[u8], text: &[u8]) -> Option<&'static str> {
    let length = digits_of(text);
    match text.get(length) {
        _ if length == 0 => None,
        Some(b'A'..=b'Z') if label_of(line).is_none() => Some(LABEL),
        _ => Some("a statement begins with a letter, and goes on behind a sign in column 6"),
    }
}

fn of_parentheses(text: &[u8]) -> Option<&'static str> {
    match count(b'(', text).cmp(&count(b')', text)) {
        Ordering::Greater => Some(OPEN),
        Ordering::Less => Some("a parenthesis is closed that is not open"),
        Ordering::Equal => None,
    }
}

fn of_condition(text: &[u8]) -> Option<&'static str> {
    if is_if(text) {
        return within_condition(text);
    }
    if assigns(text) {
        return None;
    }
    if begins_with(text, &[b"IF", b"ELSEIF"]) {
        let is_meant = text.contains(&b'.') || text.ends_with(b"THEN");
        return is_meant.then_some("parentheses stand around the condition of an IF");
    }
    text.starts_with(b"ELSE")
        .then_some("ELSE stands alone in its line")
}

fn within_condition(text: &[u8]) -> Option<&'static str> {
    let Some(rest) = behind_parentheses(text) else {
        return Some(OPEN);
    };
    if front(text, text.len().saturating_sub(rest.len())).contains(&b'=') {
        return Some("write .EQ. in the place of '=' in a condition");
    }
    if let Some(behind) = rest.strip_prefix(b"THEN".as_slice()) {
        let is_more = !behind.is_empty();
        return is_more.then_some("THEN ends its line; the statement stands in the next one");
    }
    if text.starts_with(b"ELSE") {
        return Some("THEN is missing");
    }
    rest.is_empty()
        .then_some("THEN is missing, or what is done if the condition holds")
}

fn of_loop(line: &[u8], text: &[u8]) -> Option<&'static str> {
    if !names_label(text) {
        let is_do = matches!(line.trim_start(), [b'D' | b'd', b'O' | b'o', b' ', ..]);
        return is_do.then_some("a DO names the label of its last statement, as in DO 10 I=1,3");
    }
    if behind_label(text).starts_with(b"WHILE(") {
        return Some(WHILE);
    }
    let parameters = past(text, text.find_byte(b'=').unwrap_or(text.len()));
    let are_whole = has_outer(b',', parameters) && !text.ends_with(b",");
    (!are_whole).then_some("a DO has an '=' and then commas, as in DO 10 I=1,5")
}

fn of_star(text: &[u8]) -> Option<&'static str> {
    let has_star = begins_with(text, &[b"PRINT*", b"READ*"]);
    (has_star && !begins_with(text, &[b"PRINT*,", b"READ*,"])).then_some(
        "a comma stands behind the '*'",
    )
}

fn of_real(text: &[u8]) -> Option<&'static str> {
    names_label(text).then_some(if text.contains(&b',') {
        "a DO goes by whole numbers, its step too"
    } else {
        "commas stand between the parameters of a DO"
    })
}

fn of_name(text: &[u8]) -> Option<&'static str> {
    if names_label(text) && !text.contains(&b',') {
        return Some("without commas this is no DO; it assigns to a name that begins with DO");
    }
    if text.starts_with(b"IF(") && text.contains_str(b")THEN") && !text.ends_with(b"THEN") {
        return Some("THEN ends its line; here it begins the name that is assigned to");
    }
    (text.starts_with(b"ELSE") && assigns(text)).then_some(
        "ELSE stands alone in its line; here it begins the name that is assigned to",
    )
}

fn of_kind(line: &[u8], text: &[u8]) -> Option<&'static str> {
    if !is_if(text) || text.contains(&b'.') {
        return None;
    }
    if has_word(&[b"EQ", b"NE", b"LT", b"LE", b"GT", b"GE"], line) {
        return Some("points stand around an operator, as in .EQ.");
    }
    Some("a condition compares, as in K.NE.0")
}

/// Whether one of these words of two letters stands between blanks in a line.
fn has_word(words: &[&[u8]], line: &[u8]) -> bool {
    line.windows(4).any(|part| {
        let word = part.get(1..3).unwrap_or(&[]);
        part.starts_with(b" ")
            && part.ends_with(b" ")
            && words.iter().any(|known| word.eq_ignore_ascii_case(known))
    })
}

/// What is said of operators whose points are missing, or of words between points that are none.
fn of_points(text: &[u8]) -> Option<&'static str> {
    if text.contains_str(b".XOR.") {
        return Some("there is no .XOR.; write .NEQV.");
    }
    let mut closing = None;
    for (place, byte) in text.iter().enumerate() {
        if *byte != b'.' || closing == Some(place) {
            continue;
        }
        let rest = past(text, place.saturating_add(1));
        let word = front(
            rest,
            rest.iter()
                .take_while(|byte| byte.is_ascii_alphabetic())
                .count(),
        );
        let end = place.saturating_add(word.len()).saturating_add(1);
        let is_closed = text.get(end) == Some(&b'.');
        if lacks_point(front(text, place), word, is_closed) {
            return Some(POINTS);
        }
        if is_closed && !word.is_empty() {
            closing = Some(end);
        }
    }
    None
}

/// Whether a point lacks the other one of an operator, by the text before it and the word behind.
fn lacks_point(before: &[u8], word: &[u8], is_closed: bool) -> bool {
    if word.is_empty() {
        OPERATORS.iter().any(|known| before.ends_with(known))
    } else if is_closed {
        !is_word(word)
    } else {
        is_word(word) || OPERATORS.iter().any(|known| word.starts_with(known))
    }
}

/// Whether a word stands between points.
fn is_word(word: &[u8]) -> bool {
    OPERATORS.contains(&word) || matches!(word, b"TRUE" | b"FALSE")
}

fn of_neighbours(text: &[u8]) -> Option<&'static str> {
    if text.ends_with(b"++") || text.ends_with(b"--") {
        return Some("write it out, as in K=K+1");
    }
    let neighbours: [&[u8]; 8] = [b"*-", b"*+", b"/-", b"/+", b"+-", b"-+", b"--", b"++"];
    holds_one(&neighbours, text).then_some(
        "a sign behind an operator stands in parentheses, as in 2*(-1)",
    )
}

fn holds_one(parts: &[&[u8]], text: &[u8]) -> bool {
    parts.iter().any(|part| text.contains_str(part))
}
