//! What a loop's picture has from top to bottom.

ghost use Rattle.std.specs.Prelude.{◌≡◌, OnOk};
ghost use Rattle.pictures.specs.Looks as looks;
ghost use Rattle.pictures.specs.Sketches.{HasSameMarks, KeepsMarks};

use crate::source_text::statement_of;
use arrows::{Advance, Counted, Look, Row, Statement};
use ast::{Arm, Line, Node};
use dependence::{PlanArm, PlanStmt};
use std::alloc::{AllocError, Global};

/// What stands where an ELSE was made.
const MADE_ELSE: &[u8] = b"(an ELSE is made)";

/// What stands where a loop or an IF has ended.
const END_OF_LOOP: &[u8] = b"(end of the DO)";

const END_OF_IF: &[u8] = b"(end of the IF)";

/// A loop or an IF, behind which no row stands.
#[derive(Clone, Copy)]
struct Ended {
    line: Line,
    depth: u64,
    text: &'static [u8],
}

/// The rows of a loop's picture, and where its events are advanced.
#[derive(Drop)]
pub struct Sketch<'a> {
    /// The lines of the source.
    pub lines: Vec<&'a [u8]>,
    pub rows: Vec<Row<'a>>,
    pub advances: Vec<Advance>,
    /// The line of the statement that is in the way, if one is.
    pub hindered: Option<Line>,
    /// The lines of the sources that are counted, in order.
    pub sources: Vec<Line>,
    /// The loop or IF that ended last, while no row stands behind it.
    ended: Option<Ended>,
}

impl<'a> Sketch<'a> {
    ghost use Rattle.std.specs.Prelude.{◌≡◌, [], OnOk};
    ghost use Rattle.pictures.specs.Sketches.{HasSameMarks, KeepsMarks};

    /// The beginning of a picture by these lines of a source.
    pub fn new(
        alloc: Global,
        lines: Vec<&'a [u8]>,
        hindered: Option<Line>,
        sources: Vec<Line>,
    ) -> Self
        ensures rows { result.rows.items ≡ [] }
        ensures hindered { result.hindered ≡ hindered }
        ensures sources { result.sources ≡ sources }
    {
        Sketch {
            lines,
            rows: Vec::new(alloc),
            advances: Vec::new(alloc),
            hindered,
            sources,
            ended: None,
        }
    }

    /// Adds the row of a statement. One on the line of the row above, as behind a logical IF, has
    /// that row.
    fn add_row(&mut self, line: Line, depth: u64) -> Result<(), AllocError>
        ensures same { HasSameMarks self.old self.new }
        ensures marked { OnOk result (KeepsMarks self.old self.new) }
    {
        self.ended = None;
        if let Some(above) = self.rows.last() {
            if above.line == line && above.look.is_in_source() {
                return Ok(());
            }
        }
        let Statement { text, goes_on, .. } = statement_of(&self.lines, line);
        Ok(
            self.rows.push(Row {
                line,
                depth,
                text,
                goes_on,
                look: look_of(line, self.hindered),
                counted: counted_in(&self.sources, line),
            })?,
        )
    }

    /// Adds the row of an ELSE that was made for the IF of a line.
    fn add_made(&mut self, line: Line, depth: u64) -> Result<(), AllocError> {
        self.ended = None;
        Ok(
            self.rows.push(Row {
                line,
                depth,
                text: MADE_ELSE,
                goes_on: false,
                look: Look::Made,
                counted: None,
            })?,
        )
    }

    /// Notes that a loop or an IF has ended.
    fn end(&mut self, line: Line, depth: u64, text: &'static [u8]) {
        self.ended = Some(Ended { line, depth, text });
    }

    /// Adds the row of the end of a loop or an IF, if one ended last.
    fn add_end(&mut self) -> Result<(), AllocError> {
        if let Some(Ended { line, depth, text }) = self.ended {
            self.ended = None;
            self.rows.push(Row {
                line,
                depth,
                text,
                goes_on: false,
                look: Look::End,
                counted: None,
            })?;
        }
        Ok(())
    }

    /// Adds an advance behind what stands in the last row, or behind the loop or IF that ended
    /// last.
    fn add_advance(&mut self, event: usize) -> Result<(), AllocError> {
        self.add_end()?;
        let row = self.rows.len().saturating_sub(1);
        Ok(self.advances.push(Advance { event, row })?)
    }
}

/// How the statement of a line looks, by the line of the one that is in the way.
pub fn look_of(line: Line, hindered: Option<Line>) -> Look
    ensures { result ≡ looks.look_of line hindered }
{
    match hindered {
        Some(hindered) if hindered == line => Look::Marked,
        _ => Look::Plain,
    }
}

/// A number more of what is counted.
fn with_number(number: usize, found: Option<Counted>) -> Counted
    ensures { result ≡ looks.with_number number found }
{
    match found {
        Some(counted) => Counted {
            first: counted.first,
            last: number,
        },
        None => Counted {
            first: number,
            last: number,
        },
    }
}

/// The numbers of the sources in a line, by the lines of all.
fn counted_in(sources: &[Line], line: Line) -> Option<Counted>
    ensures { result ≡ looks.counted_in sources.now line }
{
    let mut found = None;
    for (place, source) in sources.iter().enumerate() {
        if *source == line {
            found = Some(with_number(place + 1, found));
        }
    }
    found
}

#[cycle(plans)]
fn add_plan_arms(sketch: &mut Sketch<'_>, arms: &[PlanArm], depth: u64) -> Result<(), AllocError> {
    for arm in arms {
        sketch.add_row(arm.line, depth)?;
        add_plan(sketch, &arm.body, depth.saturating_add(1))?;
    }
    Ok(())
}

#[cycle(plans)]
fn add_plan_node(sketch: &mut Sketch<'_>, node: &PlanStmt, depth: u64) -> Result<(), AllocError> {
    match node {
        PlanStmt::Await(_, _) => Ok(()),
        PlanStmt::Advance(event) => sketch.add_advance(*event),
        PlanStmt::Plain(statement) => sketch.add_row(statement.line, depth),
        PlanStmt::Loop(line, _, range) => {
            sketch.add_row(*line, depth)?;
            add_plan(sketch, range, depth.saturating_add(1))?;
            sketch.end(*line, depth, END_OF_LOOP);
            Ok(())
        }
        PlanStmt::Choice(arms, made) => {
            let line = arms.first().map_or(0, |arm| arm.line);
            add_plan_arms(sketch, arms, depth)?;
            if let Some(body) = made {
                sketch.add_made(line, depth)?;
                add_plan(sketch, body, depth.saturating_add(1))?;
            }
            sketch.end(line, depth, END_OF_IF);
            Ok(())
        }
    }
}

/// Adds the rows of statements of a plan, and their advances.
#[cycle(plans)]
pub fn add_plan(sketch: &mut Sketch<'_>, nodes: &[PlanStmt], depth: u64) -> Result<(), AllocError> {
    for node in nodes {
        add_plan_node(sketch, node, depth)?;
    }
    Ok(())
}

#[cycle(ranges)]
fn add_arms(sketch: &mut Sketch<'_>, arms: &[Arm], depth: u64) -> Result<(), AllocError>
    ensures same { OnOk result (HasSameMarks sketch.old sketch.new) }
    ensures marked { OnOk result (KeepsMarks sketch.old sketch.new) }
{
    for arm in arms {
        sketch.add_row(arm.line, depth)?;
        add_range(sketch, &arm.body, depth.saturating_add(1))?;
    }
    Ok(())
}

#[cycle(ranges)]
fn add_node(sketch: &mut Sketch<'_>, node: &Node, depth: u64) -> Result<(), AllocError>
    ensures same { OnOk result (HasSameMarks sketch.old sketch.new) }
    ensures marked { OnOk result (KeepsMarks sketch.old sketch.new) }
{
    match node {
        Node::Plain(statement) => sketch.add_row(statement.line, depth),
        Node::Loop(line, _, range) => {
            sketch.add_row(*line, depth)?;
            add_range(sketch, range, depth.saturating_add(1))
        }
        Node::Choice(arms) => add_arms(sketch, arms, depth),
    }
}

/// Adds the rows of statements of a loop that has no plan.
#[cycle(ranges)]
pub fn add_range(sketch: &mut Sketch<'_>, nodes: &[Node], depth: u64) -> Result<(), AllocError>
    ensures same { OnOk result (HasSameMarks sketch.old sketch.new) }
    ensures marked { OnOk result (KeepsMarks sketch.old sketch.new) }
{
    for node in nodes {
        add_node(sketch, node, depth)?;
    }
    Ok(())
}
