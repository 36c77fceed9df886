//! Loops of sources, and what is asked of them.

use crate::calls::{loop_of, loops, program};
use crate::changes::{Change, is_changed};
use crate::looks::{
    Form, Lines, Places, Shape, are_related, has_privates, has_read, has_shared, has_sources,
    is_formed, is_judged, is_shaped,
};
use crate::marks::{Wanted, is_planned};
use ast::{Line, Name, Program, Refusal};
use dependence::Relation;
use loop_tree::LoopView;
use std::alloc::{AllocError, Global};
use std::process::Abort;
use std::test::Fail;

/// What is asked of a loop, with the answer that is wanted.
#[derive(Clone, Copy)]
pub enum Question<'a> {
    /// Its lines and numbers.
    Shape(Shape<'a>),
    /// The form of the subscript of the first element that its range assigns, if that has one.
    Form(Option<Form<'a>>),
    /// The relation of two elements.
    Related(Places, Relation),
    /// Whether a claim of two elements is verified.
    Judged(Places, Relation, bool),
    /// Its private scalars.
    Privates(&'a [Name]),
    /// Its plan, which is accepted.
    Planned(Wanted<'a>),
    /// By which number its plan with changes is refused, if it is.
    Changed(&'a [Change<'a>], Option<u8>),
    /// The line of its first READ, if it has one.
    Read(Option<Line>),
    /// The first variable that isn't private, with its line, if there is one.
    Shared(Option<(Name, Line)>),
    /// The lines of its first sources.
    Sources(Lines<'a>),
}

/// Whether a loop answers so. The lines are those of its program's statements.
fn answers(
    alloc: Global,
    view: &LoopView<'_, '_>,
    lines: &[Line],
    question: Question<'_>,
) -> Result<bool, AllocError> {
    match question {
        Question::Shape(wanted) => Ok(is_shaped(view, lines, &wanted)),
        Question::Form(wanted) => Ok(is_formed(view, wanted)),
        Question::Related(places, wanted) => Ok(are_related(view, places, wanted)),
        Question::Judged(places, claim, wanted) => Ok(is_judged(view, places, claim, wanted)),
        Question::Privates(wanted) => has_privates(alloc, view, wanted),
        Question::Planned(wanted) => is_planned(alloc, view, wanted),
        Question::Changed(changes, wanted) => is_changed(alloc, view, changes, wanted),
        Question::Read(wanted) => Ok(has_read(view, wanted)),
        Question::Shared(wanted) => has_shared(alloc, view, wanted),
        Question::Sources(wanted) => has_sources(alloc, view, lines, wanted),
    }
}

/// Whether the loop of a number answers so.
fn answers_in(
    alloc: Global,
    program: &Program,
    number: usize,
    question: Question<'_>,
) -> Result<bool, AllocError> {
    let tree = loops(alloc, program)?;
    match loop_of(&tree, number) {
        Some(view) => answers(alloc, &view, tree.lines(), question),
        None => Ok(false),
    }
}

/// A source.
#[derive(Clone, Copy)]
pub enum Source<'a> {
    Whole(&'a [u8]),
    /// The head of a loop whose range assigns two elements, and J.
    OfTwo(&'a [u8], &'a [u8], &'a [u8]),
    /// A loop of so many sources, one to a line, behind one that is none.
    Counting(usize),
}

/// Appends parts.
pub fn add(text: &mut Vec<u8>, parts: &[&[u8]]) -> Result<(), AllocError> {
    for part in parts {
        text.extend_from_slice(part)?;
    }
    Ok(())
}

/// Appends a loop of so many sources, behind one that is none.
fn add_sources(text: &mut Vec<u8>, count: usize) -> Result<(), AllocError> {
    add(text, &[b"      DO 10 I=1,9\n      J=I\n"])?;
    for _ in 0..count {
        add(text, &[b"      K=K+I\n"])?;
    }
    add(text, &[b"   10 CONTINUE\n      END\n"])
}

/// Appends the text of a source. Where it has two elements, N is a constant.
fn add_source(text: &mut Vec<u8>, source: Source<'_>) -> Result<(), AllocError> {
    match source {
        Source::Whole(whole) => add(text, &[whole]),
        Source::OfTwo(head, first, second) => add(
            text,
            &[
                b"      PARAMETER (N=3)\n      INTEGER A(9),B(9,9)\n      DO 10 ",
                head,
                b"\n      ",
                first,
                b"=0\n      ",
                second,
                b"=0\n   10 J=0\n      END\n",
            ],
        ),
        Source::Counting(count) => add_sources(text, count),
    }
}

/// The text of a source.
fn text_of(alloc: Global, source: Source<'_>) -> Result<Vec<u8>, AllocError> {
    let mut text = Vec::new(alloc);
    add_source(&mut text, source)?;
    Ok(text)
}

/// The program of a source.
fn read(alloc: Global, source: Source<'_>) -> Result<Program, Refusal> {
    program(alloc, &text_of(alloc, source)?)
}

/// A source, a loop's number, and what is asked of that loop.
pub type Row<'a> = (Source<'a>, usize, Question<'a>);

/// Whether the loop of a row answers so.
fn is_right(alloc: Global, (source, number, question): Row<'_>) -> Result<bool, Refusal> {
    let program = read(alloc, source)?;
    Ok(answers_in(alloc, &program, number, question)?)
}

/// Each row is answered as wanted.
pub fn are_right(rt: &(impl Abort + AllocGlobal), rows: &[Row<'_>]) -> Result<(), Fail> {
    for (place, row) in rows.iter().enumerate() {
        assert!(*rt; is_right(rt.alloc(), *row)?, "row {place}, from 0");
    }
    Ok(())
}

/// The loop of a number answers so, at once or when it is asked again.
fn answers_again(
    rt: &(impl Abort + AllocGlobal),
    program: &Program,
    number: usize,
    question: Question<'_>,
) -> Result<(), AllocError> {
    match answers_in(rt.alloc(), program, number, question) {
        Ok(is_right) => assert!(*rt; is_right),
        Err(error) => {
            let again = answers_in(rt.alloc(), program, number, question);
            assert!(*rt; again.expect(rt, "there is memory"));
            return Err(error);
        }
    }
    Ok(())
}

/// The loop of a row answers so, at once or where it found no memory when it is asked again.
pub fn is_right_again(
    rt: &(impl Abort + AllocGlobal),
    (source, number, question): Row<'_>,
) -> Result<(), Fail> {
    let program = read(rt.alloc(), source)?;
    Ok(answers_again(rt, &program, number, question)?)
}
