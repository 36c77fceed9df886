//! Lines of a source, and the statements in them.

ghost use Rattle.std.specs.Prelude.{◌≡◌};

use arrows::Statement;
use ast::Line;
use bstr::ByteSlice;
use std::alloc::{AllocError, Global};

/// Where a statement begins in its line, and where it ends at the latest.
const FIRST: usize = 6;

const LAST: usize = 72;
/// Where a line has the mark of a continuation line.
const MARK: usize = 5;

/// The lines of a source, as far as its statements have lines.
///
/// # Errors
///
/// `AllocError` where memory is refused.
pub fn lines_of<'a>(alloc: Global, source: &'a [u8]) -> Result<Vec<&'a [u8]>, AllocError> {
    let mut lines = Vec::new(alloc);
    for line in source.lines() {
        lines.push(line)?;
    }
    Ok(lines)
}

/// What a line has of its statement, without the blanks around it.
fn part(line: &[u8]) -> &[u8] {
    let front = match line.get(..LAST) {
        Some(front) => front,
        None => line,
    };
    match front.get(FIRST..) {
        Some(text) => text.trim(),
        None => b"",
    }
}

/// Whether a line goes on with the statement of the line before.
fn is_continuation(line: &[u8]) -> bool {
    match line.get(MARK) {
        Some(mark) => line.starts_with(b"     ") && *mark != b' ' && *mark != b'0',
        None => false,
    }
}

/// Whether the statement of a line goes on in the next; lines are numbered from 1.
fn goes_on(lines: &[&[u8]], line: Line) -> bool {
    match lines.get(line as usize) {
        Some(next) => is_continuation(next),
        None => false,
    }
}

/// What the initial line of a statement has of it; lines are numbered from 1.
fn statement_text<'a>(lines: &[&'a [u8]], line: Line) -> &'a [u8] {
    match lines.get((line as usize).saturating_sub(1)) {
        Some(text) => part(text),
        None => b"",
    }
}

/// The statement whose initial line has a number; lines are numbered from 1.
pub fn statement_of<'a>(lines: &[&'a [u8]], line: Line) -> Statement<'a>
    ensures { result.line ≡ line }
{
    Statement {
        line,
        text: statement_text(lines, line),
        goes_on: goes_on(lines, line),
    }
}
