//! What the plan of a loop amounts to, in words.

use crate::course::{Amount, Stretch};
use crate::fixed::is_one_place;
use ast::{Action, Arm, Inert, Line, Name, Node, RefId, Reference};
use codegen::LoopReport;
use dependence::{Relation, Relations, Run};
use explanations::append_number;
use loop_tree::{LoopTree, LoopView};
use std::alloc::{AllocError, Global};

/// The line of the statement that a reference is of.
fn line_of(tree: &LoopTree<'_>, number: RefId) -> Option<Line> {
    let occurrence = tree.references().get(number.0)?;
    tree.lines().get(occurrence.statement).copied()
}

/// Whether two references, which have this relation, surely touch one place in neighbouring
/// iterations.
fn is_near(
    alloc: Global,
    tree: &LoopTree<'_>,
    view: &LoopView<'_, '_>,
    pair: (RefId, RefId),
    relation: Relation,
) -> Result<bool, AllocError> {
    match relation {
        Relation::Apart(_, _) => Ok(false),
        Relation::Distance(_, distance) => Ok(distance == 1),
        Relation::Any => {
            let references = tree.references();
            match (references.get(pair.0.0), references.get(pair.1.0)) {
                (Some(first), Some(second)) => is_one_place(alloc, view, first, second),
                _ => Ok(false),
            }
        }
    }
}

/// Whether a run, whose pairs have this relation, has one of statements in these lines that surely
/// touch one place in neighbouring iterations.
fn has_near(
    alloc: Global,
    tree: &LoopTree<'_>,
    view: &LoopView<'_, '_>,
    run: &Run,
    relation: Relation,
    lines: (Line, Line),
) -> Result<bool, AllocError> {
    for place in 0..run.count {
        let pair = run.pair(place);
        let is_there = line_of(tree, pair.0) == Some(lines.0)
            && line_of(tree, pair.1) == Some(lines.1);
        if is_there && is_near(alloc, tree, view, pair, relation)? {
            return Ok(true);
        }
    }
    Ok(false)
}

/// Whether it is known, and not only feared, that the statement of the second line needs what that
/// of the first did an iteration before.
fn is_known(
    alloc: Global,
    tree: &LoopTree<'_>,
    view: &LoopView<'_, '_>,
    relations: &Relations,
    lines: (Line, Line),
) -> Result<bool, AllocError> {
    for run in &relations.runs {
        if has_near(alloc, tree, view, run, relations.relation(run), lines)? {
            return Ok(true);
        }
    }
    Ok(false)
}

/// Appends a line's number behind these words.
fn append_line(out: &mut Vec<u8>, words: &[u8], line: Line) -> Result<(), AllocError> {
    out.extend_from_slice(words)?;
    append_number(out, line)
}

/// Appends where a stretch ends, whose event's source is in a line.
fn append_end(out: &mut Vec<u8>, stretch: &Stretch, source: Line) -> Result<(), AllocError> {
    if stretch.last == source {
        append_line(out, b"line ", source)
    } else {
        append_line(out, b"the end of the loop in line ", stretch.last)
    }
}

/// Appends that iterations are a chain: the statement that waits, and for what.
fn append_chain(
    out: &mut Vec<u8>,
    stretch: &Stretch,
    source: Line,
    known: bool,
) -> Result<(), AllocError> {
    out.extend_from_slice(b"  a chain")?;
    if !known {
        out.extend_from_slice(b" (distance unknown)")?;
    }
    append_line(out, b": line ", stretch.first)?;
    out.extend_from_slice(b" waits for ")?;
    if stretch.first == source && stretch.last == source {
        out.extend_from_slice(b"itself")?;
    } else {
        append_end(out, stretch, source)?;
    }
    out.extend_from_slice(b", one iteration before\n")
}

/// Appends how many iterations may be in a stretch at once, and from where to where it goes.
fn append_few(out: &mut Vec<u8>, stretch: &Stretch, source: Line) -> Result<(), AllocError> {
    out.extend_from_slice(b"  waits at distance ")?;
    append_number(out, stretch.distance)?;
    out.extend_from_slice(b": up to ")?;
    append_number(out, stretch.distance)?;
    out.extend_from_slice(b" iterations at once ")?;
    if stretch.first == source && stretch.last == source {
        append_line(out, b"in line ", source)?;
    } else {
        append_line(out, b"from line ", stretch.first)?;
        out.extend_from_slice(b" to ")?;
        append_end(out, stretch, source)?;
    }
    out.extend_from_slice(b"\n")
}

/// Appends what a loop's stretch with the fewest iterations at once amounts to.
fn append_stretch(
    alloc: Global,
    out: &mut Vec<u8>,
    tree: &LoopTree<'_>,
    view: &LoopView<'_, '_>,
    report: &LoopReport,
    relations: &Relations,
    stretch: &Stretch,
) -> Result<(), AllocError> {
    let place = stretch.event.saturating_sub(1);
    let source = report.sources.get(place).copied().unwrap_or(stretch.last);
    if stretch.distance > 1 {
        return append_few(out, stretch, source);
    }
    let known = is_known(alloc, tree, view, relations, (source, stretch.first))?;
    append_chain(out, stretch, source, known)
}

/// Appends the line that says what a loop's plan amounts to.
pub fn append_amount(
    alloc: Global,
    out: &mut Vec<u8>,
    tree: &LoopTree<'_>,
    view: &LoopView<'_, '_>,
    report: &LoopReport,
    relations: &Relations,
    amount: &Amount,
) -> Result<(), AllocError> {
    match amount {
        Amount::Nobody => out.extend_from_slice(b"  iterations wait for nobody (DOALL)\n"),
        Amount::Passing(distance) => {
            out.extend_from_slice(b"  waits at distance ")?;
            append_number(out, *distance)?;
            out.extend_from_slice(
                b", but only for lines before: any number of iterations at once\n",
            )
        }
        Amount::Within(stretch) => {
            append_stretch(alloc, out, tree, view, report, relations, stretch)
        }
    }
}

#[cycle(counted)]
fn count_arms(arms: &[Arm]) -> usize {
    let mut count = 0usize;
    for arm in arms {
        count = count.saturating_add(count_nodes(&arm.body));
    }
    count
}

#[cycle(counted)]
fn count_node(node: &Node) -> usize {
    match node {
        Node::Plain(statement) => usize::from(!matches!(
            statement.action,
            Action::Inert(Inert::Continue)
        )),
        Node::Loop(_, _, range) => count_nodes(range).saturating_add(1),
        Node::Choice(arms) => count_arms(arms).saturating_add(1),
    }
}

/// How many statements there are, but for CONTINUE.
#[cycle(counted)]
fn count_nodes(nodes: &[Node]) -> usize {
    let mut count = 0usize;
    for node in nodes {
        count = count.saturating_add(count_node(node));
    }
    count
}

/// Whether each iteration has a variable of its own.
fn is_own(view: &LoopView<'_, '_>, privates: &[Name], reference: &Reference) -> bool {
    reference.name == view.head().variable.name || privates.contains(&reference.name)
}

/// The numbers of the statements that touch what iterations share, each once.
fn touching(
    alloc: Global,
    view: &LoopView<'_, '_>,
    privates: &[Name],
) -> Result<Vec<usize>, AllocError> {
    let mut statements = Vec::new(alloc);
    for occurrence in view.references() {
        if !is_own(view, privates, &occurrence.reference) {
            statements.push(occurrence.statement)?;
        }
    }
    statements.sort_unstable();
    statements.dedup();
    Ok(statements)
}

/// Appends how many of an iteration's statements touch what iterations share.
pub fn append_touching(
    alloc: Global,
    out: &mut Vec<u8>,
    view: &LoopView<'_, '_>,
    privates: &[Name],
) -> Result<(), AllocError> {
    let touching = touching(alloc, view, privates)?.len();
    out.extend_from_slice(b"  statements that touch what iterations share: ")?;
    append_number(out, touching)?;
    out.extend_from_slice(b" of ")?;
    append_number(out, count_nodes(view.body()))?;
    out.extend_from_slice(b"\n")
}
