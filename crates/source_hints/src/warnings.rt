//! What is warned of on standard error. No warning changes an answer.

use crate::columns::{is_comment, is_cut, names_card, unread};
use crate::squeezed::{Squeezed, behind_parentheses};
use crate::tokens::{front, past};
use crate::usage::{Seen, Usage};
use ast::{Action, Inert, LONGEST_NAME, Label, Line, Name, Node, Program, Symbol, SymbolKind};
use bstr::ByteSlice;
use places::{Place, Visible, line_at};
use std::alloc::AllocError;
use std::fmt::Display;

/// How many lines are warned of for one thing.
const MOST: u32 = 20;

/// What begins the statement that calls a subroutine.
const CALL: &[u8] = b"CALL ";

/// Warns of what stands past the last column that is read, of comments that look like statements,
/// of names that have no value or no use, and of labels that no DO names.
pub fn warn<R: Eprint + AllocGlobal>(rt: &R, file: &str, source: &[u8], program: &Program) {
    warn_of_columns(rt, file, source);
    warn_of_comments(rt, file, source);
    if let Ok(usage) = Usage::of(rt.alloc(), program) {
        warn_of_names(rt, file, program, &usage);
        warn_of_constants(rt, file, program, &usage);
    }
    let _ = warn_of_labels(rt, file, source);
}

/// Says what is warned of in a line.
fn say<R: Eprint, T: Display + Drop>(rt: &R, file: &str, line: Line, told: T) {
    let _ = eprintln!(rt; "{}warning: {told}", Place { file, line });
}

/// Warns of each line with something past the last column that is read, of the first 20, and of
/// the first one with the name of a card there.
pub fn warn_of_columns<R: Eprint>(rt: &R, file: &str, source: &[u8]) {
    warn_of_cuts(rt, file, source);
    warn_of_cards(rt, file, source);
}

/// Warns of each line that may be cut, of the first 20.
fn warn_of_cuts<R: Eprint>(rt: &R, file: &str, source: &[u8]) {
    let mut left = MOST;
    for (index, text) in source.lines().enumerate() {
        if is_comment(text) || !is_cut(text) {
            continue;
        }
        if left == 0 {
            let _ = eprintln!(rt; "doac: more than {MOST} lines go past column 72");
            return;
        }
        left -= 1;
        say_unread(rt, file, index, text);
    }
}

/// Warns of the first line with the name of a card, and says how many there are.
fn warn_of_cards<R: Eprint>(rt: &R, file: &str, source: &[u8]) {
    let mut count: usize = 0;
    for (index, text) in source.lines().enumerate() {
        if !is_comment(text) && names_card(unread(text)) {
            if count == 0 {
                say_unread(rt, file, index, text);
            }
            count = count.saturating_add(1);
        }
    }
    if count > 1 {
        let _ = eprintln!(rt; "doac: {count} lines have letters and digits there, as cards do");
    }
}

/// Says what stands in a line past the last column that is read.
fn say_unread<R: Eprint>(rt: &R, file: &str, index: usize, text: &[u8]) {
    let cut = Visible::new(unread(text).trim());
    say(
        rt,
        file,
        line_at(index),
        format_args!("what stands past column 72 is not read: {cut}"),
    );
}

/// Warns of comments that look like assignments to a name that begins with C, or like a CONTINUE or
/// a CALL.
fn warn_of_comments<R: Eprint>(rt: &R, file: &str, source: &[u8]) {
    let mut left = MOST;
    for (index, text) in source.lines().enumerate() {
        if left > 0 && looks_like_statement(text) {
            left -= 1;
            say(
                rt,
                file,
                line_at(index),
                "with a C in column 1 this is a comment",
            );
        }
    }
}

/// Whether a name that begins in column 1 with a C stands before an equals sign, with subscripts or
/// without, is CONTINUE, or is CALL before a name with arguments.
fn looks_like_statement(line: &[u8]) -> bool {
    if !matches!(line, [b'C' | b'c', second, ..] if second.is_ascii_alphanumeric()) {
        return false;
    }
    if line.trim().eq_ignore_ascii_case(b"CONTINUE") {
        return true;
    }
    if front(line, CALL.len()).eq_ignore_ascii_case(CALL) {
        let arguments = behind_name(past(line, CALL.len()));
        return arguments.is_some_and(|rest| rest.starts_with(b"(") && is_closed(rest));
    }
    match behind_name(line) {
        Some(rest) if rest.starts_with(b"(") => {
            behind_parentheses(rest).is_some_and(|behind| behind.trim_start().starts_with(b"="))
        }
        Some(rest) => rest.starts_with(b"="),
        None => false,
    }
}

/// Whether a text ends with the parenthesis that closes its first one.
fn is_closed(text: &[u8]) -> bool {
    behind_parentheses(text).is_some_and(|rest| rest.trim().is_empty())
}

/// What stands behind the letters and digits, and the blanks, that a text begins with, where they
/// may be a name.
fn behind_name(text: &[u8]) -> Option<&[u8]> {
    let end = text
        .iter()
        .position(|byte| *byte != b' ' && !byte.is_ascii_alphanumeric())?;
    let name = text.get(..end)?;
    match name.iter().filter(|byte| **byte != b' ').count() {
        1..=LONGEST_NAME => text.get(end..),
        _ => None,
    }
}

fn warn_of_names<R: Eprint>(rt: &R, file: &str, program: &Program, usage: &Usage) {
    for (symbol, seen) in program.symbols.iter().zip(usage.symbols.iter()) {
        if let Some((line, told)) = told_of(program, symbol, *seen) {
            let name = Visible::new(symbol.name.trimmed());
            say(rt, file, line, format_args!("{name} {told}"));
        }
    }
}

/// What is told of a variable by how it is used, and the line that is meant.
fn told_of(program: &Program, symbol: &Symbol, seen: Seen) -> Option<(Line, &'static str)> {
    if let SymbolKind::Constant(_) = symbol.kind {
        return None;
    }
    match (seen.first_read, seen.is_given) {
        (None, false) => Some((declared_at(&program.body, symbol.name), "is never used")),
        (Some(line), false) => Some((line, "never gets a value, so it is 0")),
        (None, true) => Some((seen.first_assigned?, "is assigned and never read")),
        (Some(_), true) => None,
    }
}

fn warn_of_constants<R: Eprint>(rt: &R, file: &str, program: &Program, usage: &Usage) {
    for constant in &usage.constants {
        if !constant.is_used {
            let line = declared_at(&program.body, constant.name);
            let name = Visible::new(constant.name.trimmed());
            say(rt, file, line, format_args!("{name} is never used"));
        }
    }
}

fn warn_of_labels<R: Eprint + AllocGlobal>(
    rt: &R,
    file: &str,
    source: &[u8],
) -> Result<(), AllocError> {
    let statements = Squeezed::all(rt.alloc(), source)?;
    let loops = statements.iter().filter(|statement| statement.is_loop());
    let mut terminals: Vec<Label> = loops
        .map(|statement| statement.terminal())
        .collect(rt.alloc())?;
    terminals.sort_unstable();
    for statement in &statements {
        if let Some(label) = statement.label {
            if terminals.binary_search(&label).is_err() {
                say(
                    rt,
                    file,
                    statement.line,
                    format_args!("no DO names the label {label}"),
                );
            }
        }
    }
    Ok(())
}

/// The line where a name is declared, 0 where it isn't.
fn declared_at(body: &[Node], name: Name) -> Line {
    let found = body.iter().find_map(|node| match node {
        Node::Plain(statement) => declares(&statement.action, name).then_some(statement.line),
        _ => None,
    });
    found.unwrap_or(0)
}

fn declares(action: &Action, name: Name) -> bool {
    match action {
        Action::Inert(Inert::Integer(list) | Inert::Dimension(list)) => {
            list.iter().any(|one| one.name == name)
        }
        Action::Inert(Inert::Parameter(list)) => list.iter().any(|one| one.name == name),
        _ => false,
    }
}
