//! What standard error says of a refusal or a fault.

use ast::{Line, Rule};
use bstr::ByteSlice;
use command_output::Outcome;
use engines::Note;
use explanations::explain::{Explanation, fault, refusal};
use explanations::fault_number;
use places::{Place, Visible};
use source_hints::{
    Caret, Cause, Squeezed, break_place, cause_of, hint, hint_of_fault, hint_of_schedule,
};
use std::alloc::Global;
use std::fmt::{Display, Formatter, Result as FmtResult, Write};

/// The message of a refusal or a fault: the file and the line, what is wrong, the line itself, a
/// hint where there is one, and where more is said.
#[derive(Drop)]
pub struct Message<'a> {
    file: &'a str,
    line: Line,
    text: Option<&'a [u8]>,
    caret: Option<Caret<'a>>,
    /// What it is that has the explanation.
    verdict: &'static str,
    explanation: Explanation,
    cause: Option<Cause>,
    note: Option<Note>,
    hint: Option<&'static str>,
    /// Whether another message of the source stands before it.
    is_further: bool,
}

impl<'a> Message<'a> {
    /// The message of an outcome, if it has one; the file is the source's, or the schedule's where
    /// that is refused. It has no hint where memory is refused.
    pub fn of(alloc: Global, file: &'a str, source: &'a [u8], outcome: Outcome) -> Option<Self> {
        match outcome {
            Outcome::Completed => None,
            Outcome::Refused { number, line } => {
                Message::of_refusal(alloc, file, source, number, line)
            }
            Outcome::Faulted { fault: kind, line } => {
                let explanation = fault(fault_number(kind))?;
                let statement = Squeezed::of(alloc, source, line).ok();
                let hint = statement.and_then(|statement| hint_of_fault(kind, &statement));
                let message = Message::new(file, source, line, "fault", explanation);
                Some(Message { hint, ..message })
            }
            Outcome::NoSchedule { number, line } => {
                let explanation = refusal(number.number())?;
                let line = Line::try_from(line).unwrap_or(Line::MAX);
                let text = whole_line(source, line);
                let hint = text.and_then(|text| hint_of_schedule(number, text));
                let message = Message::new(file, source, line, "schedule refused", explanation);
                Some(Message { hint, ..message })
            }
        }
    }

    /// The message of a refusal of a source by a rule.
    fn of_refusal(
        alloc: Global,
        file: &'a str,
        source: &'a [u8],
        rule: Rule,
        line: Line,
    ) -> Option<Self> {
        let explanation = refusal(rule.number())?;
        let message = Message::new(file, source, line, "refused", explanation);
        let Ok(statement) = Squeezed::of(alloc, source, line) else {
            return Some(message);
        };
        let cause = cause_of(alloc, source, rule, line).unwrap_or(None);
        Some(Message {
            caret: caret_of(source, rule, line, cause, &statement),
            cause,
            hint: message.text.and_then(|text| hint(rule, text, &statement)),
            ..message
        })
    }

    /// A message without what is known beside.
    fn new(
        file: &'a str,
        source: &'a [u8],
        line: Line,
        verdict: &'static str,
        explanation: Explanation,
    ) -> Self {
        Message {
            file,
            line,
            text: text_of_line(source, line),
            caret: None,
            verdict,
            explanation,
            cause: None,
            note: None,
            hint: None,
            is_further: false,
        }
    }

    /// The message with what is known beside, if anything is.
    pub fn with_note(self, note: Option<Note>) -> Self {
        Message { note, ..self }
    }

    /// The message as one behind the first of a source, of which it shows the line.
    pub fn as_further(self, source: &'a [u8]) -> Self {
        Message {
            is_further: true,
            text: text_of_line(source, self.line),
            ..self
        }
    }
}

impl<'a> Display for Message<'a> {
    fn fmt<W: Write>(&self, f: &mut Formatter<W>) -> FmtResult {
        self.write_head(f)?;
        self.write_line(f)?;
        self.write_rest(f)?;
        if self.is_further {
            return Ok(());
        }
        let number = self.explanation.number;
        writeln!(f, "For what this means, try 'doac explain {number}'.")
    }
}

impl<'a> Message<'a> {
    /// Writes where it is, and what is wrong.
    fn write_head<W: Write>(&self, f: &mut Formatter<W>) -> FmtResult {
        let Explanation { number, page, .. } = &self.explanation;
        let sentence = page.sentence;
        let verdict = self.verdict;
        let place = Place {
            file: self.file,
            line: self.line,
        };
        if self.is_further {
            writeln!(f, "{place}also {verdict}, by {number}: {sentence}")
        } else {
            writeln!(f, "{place}{verdict}: {sentence}")
        }
    }

    /// Writes the line itself, and what stands below it.
    fn write_line<W: Write>(&self, f: &mut Formatter<W>) -> FmtResult {
        if let Some(text) = self.text {
            writeln!(f, "{}", Visible::new(text))?;
        }
        match &self.caret {
            Some(caret) => write_caret(f, self.line, caret),
            None => Ok(()),
        }
    }

    /// Writes what more is known, and the hint.
    fn write_rest<W: Write>(&self, f: &mut Formatter<W>) -> FmtResult {
        if let Some(cause) = &self.cause {
            writeln!(f, "{cause}")?;
        }
        if let Some(note) = &self.note {
            writeln!(f, "{note}")?;
        }
        match self.hint {
            Some(hint) => writeln!(f, "hint: {hint}"),
            None => Ok(()),
        }
    }
}

/// Where in a statement that is refused stands what is meant.
fn caret_of<'a>(
    source: &'a [u8],
    rule: Rule,
    line: Line,
    cause: Option<Cause>,
    statement: &Squeezed,
) -> Option<Caret<'a>> {
    let place = match cause {
        Some(cause) => cause.mention?.place,
        None => break_place(rule, statement)?,
    };
    Caret::of(source, line, place)
}

/// Writes a caret below the line in which it stands, and that line too, if it isn't the one above.
fn write_caret<W: Write>(f: &mut Formatter<W>, line: Line, caret: &Caret<'_>) -> FmtResult {
    if caret.line != line {
        writeln!(f, "{}", Visible::new(caret.text))?;
    }
    for _ in 0..caret.column {
        f.write_char(' ')?;
    }
    writeln!(f, "^")
}

/// The text of a line, counted from 1.
fn text_of_line(source: &[u8], line: Line) -> Option<&[u8]> {
    let before = line.checked_sub(1)?;
    source.lines().nth(before as usize)
}

/// A line with its end, counted from 1.
fn whole_line(source: &[u8], line: Line) -> Option<&[u8]> {
    let before = line.checked_sub(1)?;
    source.lines_with_terminator().nth(before as usize)
}
