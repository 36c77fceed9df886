//! From texts to programs, and to their answers one statement after another.

use crate::calls::{blocks, program, run_seq, statement, statements};
use crate::rows::{AGAIN, OTHERWISE, Range, Row, rows};
use ast::{Answer, Kind, Line, Program, Refusal, Stmt};
use fixed_form::Labelled;
use std::alloc::AllocError;
use std::process::Abort;
use std::test::Fail;
use structure::Blocks;

/// The statements of a source.
fn statements_of(rt: &(impl Abort + AllocGlobal), source: &[u8]) -> Vec<Labelled> {
    match statements(rt.alloc(), source) {
        Err(Refusal::Memory) => statements(rt.alloc(), source).expect(rt, AGAIN),
        given => given.expect(rt, OTHERWISE),
    }
}

/// Whether there are so many statements, each of which has a line of its own.
fn are_lines(list: &[Labelled], count: usize) -> bool {
    for (place, one) in list.iter().enumerate() {
        if one.line as usize != place.wrapping_add(1) {
            return false;
        }
    }
    list.len() == count
}

/// Whether a DO stands on this line.
fn begins_loop(row: &Row, line: Line) -> bool {
    for range in row.loops {
        if range.first == line {
            return true;
        }
    }
    false
}

/// The tree of a statement.
fn tree_of(rt: &(impl Abort + AllocGlobal), line: &Labelled) -> Stmt {
    match statement(rt.alloc(), line) {
        Err(Refusal::Memory) => statement(rt.alloc(), line).expect(rt, AGAIN),
        given => given.expect(rt, OTHERWISE),
    }
}

/// Whether a tree is that of a statement. Those that begin loops are the row's.
fn is_tree(tree: &Stmt, row: &Row, line: &Labelled) -> bool {
    tree.line == line.line
        && tree.label == line.label
        && matches!(&tree.kind, Kind::Do(_)) == begins_loop(row, tree.line)
}

/// A statement.
fn read(rt: &(impl Abort + AllocGlobal), row: &Row, line: &Labelled) -> Stmt {
    let tree = tree_of(rt, line);
    assert!(*rt; is_tree(&tree, row, line));
    tree
}

fn trees_of(
    rt: &(impl Abort + AllocGlobal),
    row: &Row,
    lines: &[Labelled],
) -> Result<Vec<Stmt>, AllocError> {
    let mut trees = Vec::with_capacity(rt.alloc(), lines.len())?;
    for line in lines {
        trees.push(read(rt, row, line))?;
    }
    Ok(trees)
}

/// Where the ranges of statements stand.
fn ranges_of(rt: &(impl Abort + AllocGlobal), lines: &[Labelled], trees: &[Stmt]) -> Blocks {
    match blocks(rt.alloc(), lines, trees) {
        Err(Refusal::Memory) => blocks(rt.alloc(), lines, trees).expect(rt, AGAIN),
        given => given.expect(rt, OTHERWISE),
    }
}

/// Whether ranges are these; a statement's number is one less than its line.
fn are_ranges(found: &Blocks, wanted: &[Range]) -> bool {
    for (span, range) in found.spans.iter().zip(wanted) {
        if span.first.wrapping_add(1) != range.first as usize
            || span.last.wrapping_add(1) != range.last as usize
        {
            return false;
        }
    }
    found.spans.len() == wanted.len()
}

/// Whether the trees of a row's statements have its ranges.
fn has_trees(
    rt: &(impl Abort + AllocGlobal),
    row: &Row,
    lines: &[Labelled],
) -> Result<bool, AllocError> {
    let trees = trees_of(rt, row, lines)?;
    Ok(are_ranges(&ranges_of(rt, lines, &trees), row.loops))
}

/// Whether the statements of a row are these.
fn has_statements(rt: &(impl Abort + AllocGlobal), row: &Row) -> Result<bool, AllocError> {
    let lines = statements_of(rt, row.source);
    Ok(are_lines(&lines, row.statements) && has_trees(rt, row, &lines)?)
}

#[test]
fn want_of_memory_in_statements(rt: HostRuntime) -> Result<(), Fail> {
    for row in rows() {
        assert!(rt; has_statements(&rt, row)?);
    }
    Ok(())
}

/// The program of a row.
pub fn program_of(rt: &(impl Abort + AllocGlobal), row: &Row) -> Program {
    match program(rt.alloc(), row.source) {
        Err(Refusal::Memory) => program(rt.alloc(), row.source).expect(rt, AGAIN),
        given => given.expect(rt, OTHERWISE),
    }
}

/// What comes of a program on a row's input.
fn answer_of(rt: &(impl Abort + AllocGlobal), program: &Program, row: &Row) -> Answer {
    match run_seq(rt.alloc(), program, row.input) {
        Ok(answer) => answer,
        Err(_) => run_seq(rt.alloc(), program, row.input).expect(rt, AGAIN),
    }
}

/// Whether an answer is the row's.
pub fn is_answer(answer: &Answer, row: &Row) -> bool {
    answer.output.as_slice() == row.output && answer.end == row.end
}

fn copy_of(rt: &impl Abort, program: &Program) -> Program {
    match program.try_copy() {
        Ok(copy) => copy,
        Err(_) => program.try_copy().expect(rt, AGAIN),
    }
}

/// Whether the copy of a row's program has the row's answer.
fn has_answer(rt: &(impl Abort + AllocGlobal), program: &Program, row: &Row) -> bool {
    program.statements == row.statements
        && is_answer(&answer_of(rt, &copy_of(rt, program), row), row)
}

#[test]
fn want_of_memory_in_programs(rt: HostRuntime) {
    for row in rows() {
        assert!(rt; has_answer(&rt, &program_of(&rt, row), row));
    }
}
