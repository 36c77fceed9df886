//! What else is wrong with a source, behind its first refusal.

use crate::message::Message;
use ast::{Label, Line, Name, Rule};
use bstr::ByteSlice;
use command_output::Outcome;
use engines::{Verdict, judged};
use fixed_form::LAST_LABEL_COLUMN;
use places::line_at;
use source_hints::{
    Squeezed, cause_of, is_blank, is_comment, is_continuation, is_of_profile, is_of_text,
};
use std::alloc::{AllocError, Global};

/// How many further refusals are told at most.
const MOST: usize = 20;

/// How many statements are left out at most.
const MOST_STRUCK: usize = 60;

/// A source without the statements that were refused, and its first refusal.
#[derive(Drop)]
struct Reduced {
    source: Vec<u8>,
    rule: Rule,
    line: Line,
    /// Whether what was left out can't be what another statement stands on.
    is_sure: bool,
    /// The names that refusals were of, with their rules.
    names: Vec<(Rule, Name)>,
}

/// Says on standard error what else is wrong with a source that is refused at a statement: of the
/// other statements those that are none, and then, where that makes sense, those that break a rule;
/// at most 20.
pub fn tell_further<R: Eprint + AllocGlobal>(rt: &R, file: &str, source: &[u8], first: &Verdict) {
    let Verdict::Refused { number, line } = first else {
        return;
    };
    if let Ok(mut reduced) = Reduced::of(rt.alloc(), source, *number, *line) {
        let _ = reduced.tell(rt, file, source);
    }
}

impl Reduced {
    fn of(alloc: Global, source: &[u8], rule: Rule, line: Line) -> Result<Self, AllocError> {
        Ok(Reduced {
            source: Vec::from_slice(alloc, source)?,
            rule,
            line,
            is_sure: true,
            names: Vec::new(alloc),
        })
    }

    /// Says what is wrong with a source behind the refusal that it has.
    fn tell<R: Eprint + AllocGlobal>(
        &mut self,
        rt: &R,
        file: &str,
        source: &[u8],
    ) -> Result<(), AllocError> {
        let mut left = MOST;
        let _ = self.is_news(rt.alloc())?;
        for _ in 0..MOST_STRUCK {
            if !self.strike(rt.alloc())? {
                return Ok(());
            }
            if !self.is_news(rt.alloc())? {
                continue;
            }
            self.say(rt, file, source);
            left = left.saturating_sub(1);
            if left == 0 {
                break;
            }
        }
        let _ = if left == 0 {
            eprintln!(rt; "doac: more than {MOST} further refusals are not looked for")
        } else {
            eprintln!(rt; "doac: further refusals are not looked for")
        };
        Ok(())
    }

    /// Whether the refusal isn't one of a name that was told before; notes the name.
    fn is_news(&mut self, alloc: Global) -> Result<bool, AllocError> {
        if !matches!(self.rule, Rule::NotInteger | Rule::WrongSubscripts) {
            return Ok(true);
        }
        let cause = cause_of(alloc, &self.source, self.rule, self.line)?;
        let Some(mention) = cause.and_then(|cause| cause.mention) else {
            return Ok(true);
        };
        let known = (self.rule, mention.name);
        if self.names.contains(&known) {
            return Ok(false);
        }
        self.names.push(known)?;
        Ok(true)
    }

    /// Says the refusal that it has, of a source.
    fn say<R: Eprint + AllocGlobal>(&self, rt: &R, file: &str, source: &[u8]) {
        let outcome = Outcome::Refused {
            number: self.rule,
            line: self.line,
        };
        if let Some(message) = Message::of(rt.alloc(), file, &self.source, outcome) {
            let _ = rt.eprint(message.as_further(source));
        }
    }

    /// Leaves the refused statement out: whether what is left has a refusal that is worth telling.
    fn strike(&mut self, alloc: Global) -> Result<bool, AllocError> {
        // A program that is too large most often still is without a statement.
        if self.rule == Rule::LargeProgram {
            return Ok(false);
        }
        let is_isolated = self.is_isolated(alloc)?;
        if !is_of_text(self.rule) && !(is_of_profile(self.rule) && is_isolated) {
            return Ok(false);
        }
        self.is_sure = self.is_sure && is_isolated;
        self.source = struck(alloc, &self.source, self.rule, self.line)?;
        self.judge(alloc)
    }

    /// Whether no other statement stands on what is left out: a statement, or a label that stands
    /// twice, on which a DO may stand.
    fn is_isolated(&self, alloc: Global) -> Result<bool, AllocError> {
        let statement = Squeezed::of(alloc, &self.source, self.line)?;
        match statement.label {
            Some(label) if self.rule == Rule::RepeatedLabel => {
                Ok(!ends_loop(&Squeezed::all(alloc, &self.source)?, label))
            }
            _ => Ok(statement.stands_alone()),
        }
    }

    /// Judges what is left: whether it has a refusal that is worth telling.
    fn judge(&mut self, alloc: Global) -> Result<bool, AllocError> {
        match judged(alloc, &self.source)? {
            Verdict::Accepted(_) => Ok(false),
            Verdict::Refused { number, line } => {
                self.rule = number;
                self.line = line;
                Ok(is_of_text(number) || self.is_sure && is_of_profile(number))
            }
        }
    }
}

/// Whether a DO among statements names a label.
fn ends_loop(statements: &[Squeezed], label: Label) -> bool {
    statements.iter().any(|statement| statement.is_loop() && statement.terminal() == label)
}

/// A source without the statement that was refused by a rule, or without its label where that
/// stands twice.
fn struck(alloc: Global, source: &[u8], rule: Rule, line: Line) -> Result<Vec<u8>, AllocError> {
    if rule == Rule::RepeatedLabel {
        unlabelled(alloc, source, line)
    } else {
        without(alloc, source, line)
    }
}

/// A source in which the statement that begins in a line has lost its label.
fn unlabelled(alloc: Global, source: &[u8], line: Line) -> Result<Vec<u8>, AllocError> {
    let mut kept = Vec::with_capacity(alloc, source.len())?;
    for (place, text) in source.lines_with_terminator().enumerate() {
        match text.get(LAST_LABEL_COLUMN..) {
            Some(rest) if line_at(place) == line => {
                kept.extend_from_slice(b"     ")?;
                kept.extend_from_slice(rest)?;
            }
            _ => kept.extend_from_slice(text)?,
        }
    }
    Ok(kept)
}

/// A source in which comments stand in the place of the statement that begins in a line; its label
/// stays, with CONTINUE.
fn without(alloc: Global, source: &[u8], line: Line) -> Result<Vec<u8>, AllocError> {
    let mut kept = Vec::with_capacity(alloc, source.len())?;
    let mut is_struck = false;
    for (place, text) in source.lines_with_terminator().enumerate() {
        let is_first = line_at(place) == line;
        let goes_on = is_comment(text) || is_blank(text.trim_end()) || is_continuation(text);
        is_struck = is_first || is_struck && goes_on;
        if is_struck {
            append_struck(&mut kept, text, is_first)?;
        } else {
            kept.extend_from_slice(text)?;
        }
    }
    Ok(kept)
}

fn append_struck(kept: &mut Vec<u8>, text: &[u8], is_first: bool) -> Result<(), AllocError> {
    let label = text.get(..LAST_LABEL_COLUMN).unwrap_or(b"");
    if is_first && label.iter().any(|byte| byte.is_ascii_digit()) {
        kept.extend_from_slice(label)?;
        kept.extend_from_slice(b" CONTINUE\n")
    } else {
        kept.extend_from_slice(b"C\n")
    }
}
