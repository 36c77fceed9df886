//! Where DO ranges and IF blocks stand.

use ast::{Refusal, Rule, Stmt};
use fixed_form::{Labelled, statements};
use std::alloc::Global;
use std::process::Abort;
use std::test::Fail;
use structure::{Blocks, Span, blocks};
use syntax::statement;

/// The statements of a source. What is proved of these calls isn't carried through the tests.
fn lines_of(alloc: Global, source: &[u8]) -> Result<Vec<Labelled>, Refusal> {
    statements(alloc, source)
}

/// The tree of a statement.
fn tree_of(alloc: Global, line: &Labelled) -> Result<Stmt, Refusal> {
    statement(alloc, line)
}

/// Adds the trees of statements.
fn add_trees(alloc: Global, lines: &[Labelled], trees: &mut Vec<Stmt>) -> Result<(), Refusal> {
    for line in lines {
        trees.push(tree_of(alloc, line)?)?;
    }
    Ok(())
}

fn read(alloc: Global, lines: &[Labelled]) -> Result<Vec<Stmt>, Refusal> {
    let mut trees = Vec::with_capacity(alloc, lines.len())?;
    add_trees(alloc, lines, &mut trees)?;
    Ok(trees)
}

/// The trees of a source's statements.
pub fn trees_of(alloc: Global, source: &[u8]) -> Result<Vec<Stmt>, Refusal> {
    read(alloc, &lines_of(alloc, source)?)
}

/// The ranges and blocks of statements. What is proved of them isn't carried through the tests.
fn blocks_in(alloc: Global, lines: &[Labelled], trees: &[Stmt]) -> Result<Blocks, Refusal> {
    blocks(alloc, lines, trees)
}

/// The ranges and blocks of lines.
fn found_in(alloc: Global, lines: &[Labelled]) -> Result<Blocks, Refusal> {
    let trees = read(alloc, lines)?;
    blocks_in(alloc, lines, &trees)
}

/// The ranges and blocks of a source's statements.
fn blocks_of(alloc: Global, source: &[u8]) -> Result<Blocks, Refusal> {
    let lines = lines_of(alloc, source)?;
    found_in(alloc, &lines)
}

/// Two ranges that end together, a block in them, and a range in its first arm
const NEST: &[u8] = b"      DO 10 I=1,2
      DO 10 J=1,2
      IF (I.EQ.J) THEN
      DO 20 K=1,2
   20 CONTINUE
      ELSE IF (I.GT.J) THEN
      ELSE
      END IF
   10 CONTINUE
      END
";

/// The spans of [`NEST`], its statements numbered from 0.
const SPANS: [Span; 4] = [
    Span { first: 0, last: 8 },
    Span { first: 1, last: 8 },
    Span { first: 2, last: 7 },
    Span { first: 3, last: 4 },
];

/// Whether [`NEST`] has its spans.
fn has_spans(alloc: Global) -> Result<bool, Refusal> {
    let made = blocks_of(alloc, NEST)?;
    Ok(made.spans.as_slice() == SPANS.as_slice())
}

#[test]
fn want_of_memory_in_nests(rt: HostRuntime) -> Result<(), Fail> {
    match has_spans(rt.alloc()) {
        Ok(is_right) => assert!(rt; is_right),
        Err(refusal) => {
            assert!(rt; refusal == Refusal::Memory);
            assert!(rt; matches!(has_spans(rt.alloc()), Ok(true)));
            return Err(refusal.into());
        }
    }
    Ok(())
}

/// What is wanted of the blocks of a source.
#[derive(Clone, Copy)]
pub enum Wanted {
    /// So many, one behind the other.
    InTurn(usize),
    /// A refusal by this rule and this line.
    Refused(Rule, u32),
}

/// Whether spans are of two statements each, one behind the other.
fn are_in_turn(spans: &[Span]) -> bool {
    for (number, span) in spans.iter().enumerate() {
        let first = number.wrapping_mul(2);
        if span.first != first || span.last != first.wrapping_add(1) {
            return false;
        }
    }
    true
}

/// Whether this comes of a source.
pub fn comes(alloc: Global, source: &[u8], wanted: Wanted) -> bool {
    match (blocks_of(alloc, source), wanted) {
        (Ok(made), Wanted::InTurn(count)) => made.spans.len() == count && are_in_turn(&made.spans),
        (Err(refusal), Wanted::Refused(rule, line)) => {
            refusal == Refusal::Refused { number: rule, line }
        }
        _ => false,
    }
}
