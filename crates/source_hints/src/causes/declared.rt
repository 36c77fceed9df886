//! What statements declare, and what a declaration may not have.

use super::{Cause, Told, targets};
use crate::mentions::Mention;
use crate::squeezed::{PROGRAM, Squeezed};
use ast::{Intrinsic, LONGEST_NAME, Line, Name};
use std::alloc::{AllocError, Global};

/// What a statement declares of a name.
#[derive(Clone, Copy)]
struct Entry {
    name: Name,
    line: Line,
    has_type: bool,
    /// How many bounds it gives the name.
    rank: usize,
    is_constant: bool,
}

impl Entry {
    /// What a statement declares where it mentions a name.
    fn of(statement: &Squeezed, mention: &Mention) -> Option<Self> {
        let is_constant = statement.is_parameter() && mention.is_given;
        let is_variable = statement.is_declaration() && mention.depth == 0;
        if !is_constant && !is_variable {
            return None;
        }
        Some(Entry {
            name: mention.name,
            line: statement.line,
            has_type: is_variable && statement.text.starts_with(b"INTEGER"),
            rank: if is_variable { mention.count } else { 0 },
            is_constant,
        })
    }

    /// Whether two declarations can't both stand.
    fn opposes(self, other: Entry) -> bool {
        let both_typed = self.has_type && other.has_type;
        let is_fixed = self.rank > 0 || self.is_constant;
        let is_other_fixed = other.rank > 0 || other.is_constant;
        self.name == other.name && (both_typed || is_fixed && is_other_fixed)
    }
}

/// What some statements declare.
#[derive(Drop)]
pub struct Declared {
    program: Option<Name>,
    entries: Vec<Entry>,
}

impl Declared {
    /// What no statement declares.
    pub fn new(alloc: Global) -> Self {
        Declared {
            program: None,
            entries: Vec::new(alloc),
        }
    }

    /// Takes a statement in.
    pub fn take(&mut self, statement: &Squeezed, names: &[Mention]) -> Result<(), AllocError> {
        if statement.text.starts_with(PROGRAM) {
            self.program = self.program.or(program_of(statement));
        }
        for mention in names {
            if let Some(entry) = Entry::of(statement, mention) {
                self.entries.push(entry)?;
            }
        }
        Ok(())
    }

    /// How many bounds a name has.
    pub fn rank(&self, name: Name) -> usize {
        let found = self
            .entries
            .iter()
            .find(|entry| entry.rank > 0 && entry.name == name);
        found.map_or(0, |entry| entry.rank)
    }

    /// The line that makes a name a constant.
    fn constant(&self, name: Name) -> Option<Line> {
        let found = self
            .entries
            .iter()
            .find(|entry| entry.is_constant && entry.name == name);
        found.map(|entry| entry.line)
    }

    /// The constant that a statement gives a value, if it gives one to a constant.
    pub fn assigned(&self, statement: &Squeezed, names: &[Mention]) -> Option<Cause> {
        for mention in targets(statement, names) {
            if let (0, Some(line)) = (mention.depth, self.constant(mention.name)) {
                let told = Told::Line("is a constant, by line ", line, "");
                return Some(Cause::of(mention, told));
            }
        }
        None
    }

    /// The first name of a statement that means something else already.
    pub fn twice(&mut self, statement: &Squeezed, names: &[Mention]) -> Option<Cause> {
        for mention in names {
            let name = mention.name;
            let is_own = mention.depth == 0 && (mention.is_given || statement.is_declaration());
            if Intrinsic::named(&name).is_some() && (is_own || mention.count == 0) {
                let told = Told::Text("is a function of the language");
                return Some(Cause::of(mention, told));
            }
            if self.program == Some(name) {
                return Some(Cause::of(mention, Told::Text("is the program's name")));
            }
            let entry = Entry::of(statement, mention);
            if let Some(line) = entry.and_then(|entry| self.opposed(entry)) {
                let told = if line == statement.line {
                    Told::Text("is declared twice here")
                } else {
                    Told::Line("is declared in line ", line, " too")
                };
                return Some(Cause::of(mention, told));
            }
            self.add(entry).ok()?;
        }
        None
    }

    fn add(&mut self, entry: Option<Entry>) -> Result<(), AllocError> {
        match entry {
            Some(entry) => Ok(self.entries.push(entry)?),
            None => Ok(()),
        }
    }

    /// The line of a declaration that can't stand beside another one.
    fn opposed(&self, entry: Entry) -> Option<Line> {
        let found = self.entries.iter().find(|other| other.opposes(entry));
        found.map(|other| other.line)
    }

    /// What has no value in the constant expressions of a statement: a name, or else a whole one.
    pub fn unknown(&mut self, statement: &Squeezed, names: &[Mention]) -> Option<Cause> {
        let mut last = None;
        for mention in names {
            match Entry::of(statement, mention) {
                Some(entry) => {
                    self.add(last).ok()?;
                    last = Some(entry);
                }
                None if self.constant(mention.name).is_none() => {
                    let told = Told::Text("is no constant that is given before");
                    return Some(Cause::of(mention, told));
                }
                None => {}
            }
        }
        Some(Cause::text("a value here overflows, or is divided by zero"))
    }
}

/// The name that a statement gives the program.
fn program_of(statement: &Squeezed) -> Option<Name> {
    let text = statement.text.get(PROGRAM.len()..)?;
    if text.len() <= LONGEST_NAME {
        Some(Name::padded(text))
    } else {
        None
    }
}
