//! Which name a refusal is of, and which open DO or IF.

mod declared;
mod kinds;
mod limits;
mod near;

use crate::mentions::{Mention, mentions};
use crate::rules::{is_of_profile, is_of_text};
use crate::squeezed::Squeezed;
use ast::{Intrinsic, Label, Line, Name, Rule};
use declared::Declared;
use kinds::wrong_kind;
use limits::limit;
use near::meant_by;
use places::Visible;
use std::alloc::{AllocError, Global};
use std::fmt::{Display, Formatter, Result as FmtResult, Write};

/// What a refusal is of.
#[derive(Clone, Copy)]
pub struct Cause {
    /// The name that is meant, if one is.
    pub mention: Option<Mention>,
    told: Told,
}

/// What is told, behind the name that is meant if one is.
#[derive(Clone, Copy)]
enum Told {
    Text(&'static str),
    /// A line, with these words before its number and behind it.
    Line(&'static str, Line, &'static str),
    /// A number behind these words.
    Count(&'static str, usize),
    /// How many subscripts it has, and how many stand there.
    Ranks(usize, usize),
    /// A label that stands in a line before.
    Label(Label, Line),
    /// A DO that is open, which ends at a label.
    Loop(Label, Line),
    /// That it isn't an integer, and a name that may be meant.
    Real(Option<Name>),
}

/// A DO or an IF that is open.
#[derive(Clone, Copy)]
enum Open {
    Range {
        label: Label,
        line: Line,
        variable: Option<Name>,
    },
    Block {
        line: Line,
        has_else: bool,
    },
}

/// What stands before a line of a source.
#[derive(Drop)]
struct Before {
    opened: Vec<Open>,
    declared: Declared,
    labels: Vec<(Label, Line)>,
}

/// What the refusal of a source by this rule, at this line, is of, as far as that can be told.
pub fn cause_of(
    alloc: Global,
    source: &[u8],
    rule: Rule,
    line: Line,
) -> Result<Option<Cause>, AllocError> {
    let has_cause = is_of_text(rule) || is_of_profile(rule) && rule != Rule::CrossedBounds;
    if !has_cause {
        return Ok(None);
    }
    let statements = Squeezed::all(alloc, source)?;
    match statements.iter().find(|statement| statement.line == line) {
        Some(statement) => cause_in(alloc, rule, &statements, statement),
        None => Ok(None),
    }
}

/// What the refusal of a statement by this rule is of.
fn cause_in(
    alloc: Global,
    rule: Rule,
    statements: &[Squeezed],
    statement: &Squeezed,
) -> Result<Option<Cause>, AllocError> {
    if is_of_text(rule) {
        return Ok(statement.late_label.map(late_label));
    }
    let names = mentions(alloc, statement)?;
    let mut before = Before::of(alloc, statements, statement.line)?;
    Ok(match rule {
        Rule::OutOfOrder => early(statements, statement.line),
        Rule::NotInteger => real(&typed(alloc, statements)?, &names),
        Rule::DeclaredTwice => before.declared.twice(statement, &names),
        Rule::NoValue => before.declared.unknown(statement, &names),
        Rule::WrongSubscripts => before.misfit(statement, &names),
        Rule::WrongTerminal => before.ended(statement).or(before.open()),
        Rule::CrossedBlocks if statement.is_misplaced() => {
            Some(Cause::text("such a statement can't stand behind the condition of an IF"))
        }
        Rule::CrossedBlocks if is_part_of_block(&statement.text) => before.block(),
        Rule::LargeProgram => Some(Cause::text(limit(
            alloc,
            statements,
            before.opened.len(),
            statement,
        )?)),
        Rule::RepeatedLabel => before.labelled(statement),
        Rule::ActiveVariable | Rule::ChangedConstant | Rule::WrongKind => {
            let done = statement.action(alloc)?;
            let names_done = mentions(alloc, &done)?;
            match rule {
                Rule::ActiveVariable => before.active(&done, &names_done),
                Rule::ChangedConstant => before.declared.assigned(&done, &names_done),
                _ => wrong_kind(statement, &names, &done, &names_done),
            }
        }
        _ => before.open(),
    })
}

/// That a line continues another, and may have been meant to begin with a label.
fn late_label(line: Line) -> Cause {
    let told = " has a sign in column 6, so it goes on with the line above; \
a label is in columns 1 to 5";
    Cause::line("line ", line, told)
}

/// The first executable statement before a line, or else the first statement of all.
fn early(statements: &[Squeezed], line: Line) -> Option<Cause> {
    let first = statements
        .iter()
        .find(|statement| statement.line < line && statement.is_executable())
        .or(statements.first())?;
    let told = " it is too late; PROGRAM comes first, then declarations";
    Some(Cause::line("behind line ", first.line, told))
}

/// The first name that isn't an integer, where these have a type.
fn real(typed: &[Name], names: &[Mention]) -> Option<Cause> {
    for mention in names {
        let is_call = mention.count > 0 && Intrinsic::named(&mention.name).is_some();
        let is_integer = matches!(mention.name.letters[0], b'I'..=b'N');
        if !is_call && !is_integer && !typed.contains(&mention.name) {
            return Some(Cause::of(mention, Told::Real(meant_by(mention.name, typed))));
        }
    }
    None
}

/// The names that INTEGER statements give a type.
fn typed(alloc: Global, statements: &[Squeezed]) -> Result<Vec<Name>, AllocError> {
    let mut names = Vec::new(alloc);
    for statement in statements {
        if statement.text.starts_with(b"INTEGER") {
            append_outer(&mut names, &mentions(alloc, statement)?)?;
        }
    }
    Ok(names)
}

fn append_outer(names: &mut Vec<Name>, found: &[Mention]) -> Result<(), AllocError> {
    for mention in found {
        if mention.depth == 0 {
            names.push(mention.name)?;
        }
    }
    Ok(())
}

/// Whether a text begins as a part of an IF block other than its IF.
fn is_part_of_block(text: &[u8]) -> bool {
    text.starts_with(b"ELSE") || text.starts_with(b"ENDIF")
}

/// The names among which those are that a statement gives a value: of a READ all, else the first.
fn targets<'m>(statement: &Squeezed, names: &'m [Mention]) -> &'m [Mention] {
    if statement.is_read() {
        return names;
    }
    names.get(..1).unwrap_or(names)
}

/// What is told of a name that has subscripts or arguments in another number than it takes, by how
/// many subscripts are declared.
fn misfit(mention: &Mention, rank: usize) -> Option<Told> {
    let count = mention.count;
    match (Intrinsic::named(&mention.name), rank) {
        (Some(Intrinsic::Mod), _) if count != 2 => {
            Some(Told::Count("takes two arguments, not ", count))
        }
        (Some(Intrinsic::Abs | Intrinsic::Iabs), _) if count != 1 => {
            Some(Told::Count("takes one argument, not ", count))
        }
        (Some(Intrinsic::Mod | Intrinsic::Abs | Intrinsic::Iabs), _) => None,
        (Some(_), _) if count < 2 => Some(Told::Count("takes two arguments or more, not ", count)),
        (Some(_), _) => None,
        (None, rank) if count == rank => None,
        (None, 0) => Some(Told::Text("is no array, and no function of the language")),
        (None, _) if count == 0 => Some(Told::Text("is an array, and stands with its subscripts")),
        (None, 1) => Some(Told::Count("has one subscript, not ", count)),
        (None, rank) => Some(Told::Ranks(rank, count)),
    }
}

impl Before {
    fn of(alloc: Global, statements: &[Squeezed], line: Line) -> Result<Self, AllocError> {
        let mut before = Before {
            opened: Vec::new(alloc),
            declared: Declared::new(alloc),
            labels: Vec::new(alloc),
        };
        for statement in statements {
            if statement.line >= line {
                break;
            }
            before.take(statement, &mentions(alloc, statement)?)?;
        }
        Ok(before)
    }

    /// Takes a statement in.
    fn take(&mut self, statement: &Squeezed, names: &[Mention]) -> Result<(), AllocError> {
        let line = statement.line;
        let text = statement.text.as_slice();
        self.declared.take(statement, names)?;
        if let Some(label) = statement.label {
            self.labels.push((label, line))?;
        }
        if statement.is_loop() {
            let label = statement.terminal();
            let variable = names.first().map(|mention| mention.name);
            self.opened.push(Open::Range {
                label,
                line,
                variable,
            })?;
        } else if statement.is_block() {
            self.opened.push(Open::Block {
                line,
                has_else: false,
            })?;
        } else if text == b"ENDIF".as_slice() {
            let _ = self.opened.pop();
        } else if text == b"ELSE".as_slice() {
            self.note_else();
        } else if let Some(label) = statement.label {
            self.end_ranges(label);
        }
        Ok(())
    }

    /// Notes that the innermost IF that is open has its ELSE.
    fn note_else(&mut self) {
        if let Some(Open::Block { has_else, .. }) = self.opened.last_mut() {
            *has_else = true;
        }
    }

    /// Ends the innermost ranges of a label.
    fn end_ranges(&mut self, label: Label) {
        let other = self.opened.iter().rposition(
            |open| !matches!(open, Open::Range { label: own, .. } if *own == label),
        );
        let left = other.map_or(0, |place| place.saturating_add(1));
        self.opened.truncate(left);
    }

    /// The first name whose subscripts or arguments don't fit.
    fn misfit(&self, statement: &Squeezed, names: &[Mention]) -> Option<Cause> {
        let is_declaration = statement.is_declaration();
        for mention in names {
            if is_declaration && mention.depth == 0 {
                continue;
            }
            if let Some(told) = misfit(mention, self.declared.rank(mention.name)) {
                return Some(Cause::of(mention, told));
            }
        }
        None
    }

    /// The innermost DO or IF that is open.
    fn open(&self) -> Option<Cause> {
        match self.opened.last()? {
            Open::Range { label, line, .. } => Some(Cause::unnamed(Told::Loop(*label, *line))),
            Open::Block { line, .. } => Some(Cause::line("the IF in line ", *line, " is open")),
        }
    }

    /// What is in the way of a part of an IF: what is open, or that no IF is.
    fn block(&self) -> Option<Cause> {
        match self.opened.last() {
            Some(
                Open::Block {
                    line,
                    has_else: true,
                },
            ) => Some(Cause::line("the IF in line ", *line, " has its ELSE already")),
            None => Some(Cause::text("no IF with THEN is open here")),
            Some(_) => self.open(),
        }
    }

    /// The innermost open DO that a statement ends by its label.
    fn ended(&self, statement: &Squeezed) -> Option<Cause> {
        let own = statement.label?;
        self.opened.iter().rev().find_map(|open| match open {
            Open::Range { label, line, .. } if *label == own => {
                Some(Cause::line("the DO in line ", *line, " ends with this statement"))
            }
            _ => None,
        })
    }

    /// The variable of an open DO that a statement gives a value.
    fn active(&self, statement: &Squeezed, names: &[Mention]) -> Option<Cause> {
        for mention in targets(statement, names) {
            if let (0, Some(line)) = (mention.depth, self.line_of(mention.name)) {
                let before = "is the variable of the DO in line ";
                return Some(Cause::of(mention, Told::Line(before, line, ", which is open")));
            }
        }
        None
    }

    /// The line of the open DO with this variable.
    fn line_of(&self, name: Name) -> Option<Line> {
        self.opened.iter().find_map(|open| match open {
            Open::Range {
                variable: Some(variable),
                line,
                ..
            } if *variable == name => Some(*line),
            _ => None,
        })
    }

    /// Where the label of a statement stood before.
    fn labelled(&self, statement: &Squeezed) -> Option<Cause> {
        let own = statement.label?;
        let (_, line) = self.labels.iter().find(|(label, _)| *label == own)?;
        Some(Cause::unnamed(Told::Label(own, *line)))
    }
}

impl Cause {
    /// What is told of a name.
    fn of(mention: &Mention, told: Told) -> Self {
        Cause {
            mention: Some(*mention),
            told,
        }
    }

    /// What is told of no name.
    fn unnamed(told: Told) -> Self {
        Cause {
            mention: None,
            told,
        }
    }

    fn text(text: &'static str) -> Self {
        Cause::unnamed(Told::Text(text))
    }

    /// A line, with these words before its number and behind it.
    fn line(before: &'static str, line: Line, behind: &'static str) -> Self {
        Cause::unnamed(Told::Line(before, line, behind))
    }
}

impl Display for Cause {
    fn fmt<W: Write>(&self, f: &mut Formatter<W>) -> FmtResult {
        if let Some(mention) = &self.mention {
            write!(f, "{} ", Visible::new(mention.name.trimmed()))?;
        }
        match self.told {
            Told::Text(text) => f.write_str(text),
            Told::Line(before, line, behind) => write!(f, "{before}{line}{behind}"),
            Told::Count(text, count) => write!(f, "{text}{count}"),
            Told::Ranks(rank, count) => write!(f, "has {rank} subscripts, not {count}"),
            Told::Label(label, line) => write!(f, "the label {label} stands in line {line} too"),
            Told::Loop(label, line) => {
                write!(
                    f,
                    "the DO in line {line} is open, which ends at the label {label}"
                )
            }
            Told::Real(meant) => write_real(f, meant),
        }
    }
}

fn write_real<W: Write>(f: &mut Formatter<W>, meant: Option<Name>) -> FmtResult {
    f.write_str("doesn't begin with I to N, and no INTEGER statement names it")?;
    match meant {
        Some(name) => write!(f, "; is {} meant?", Visible::new(name.trimmed())),
        None => Ok(()),
    }
}
