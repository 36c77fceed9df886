//! Why iterations of a loop wait for one another, or needn't, in words.

use crate::amounts::{append_amount, append_touching};
use crate::conditions::Conditions;
use crate::course::Amount;
use crate::fixed::is_one_place;
use crate::gathered::append_gathered;
use crate::inner::append_inner;
use crate::kinds::Dependence;
use crate::serial::hindrance_of;
use crate::spelled::append_reference;
use ast::{Line, Name, RefId};
use codegen::LoopReport;
use dependence::{LoopPlan, PlanStmt, Reason, Relation, Relations, Run, SerialReason};
use explanations::append_number;
use loop_tree::{LoopTree, LoopView, Occurrence};
use places::early_use;
use std::alloc::{AllocError, Global};

/// How long a line with two references is at most, with its end.
const WIDEST: usize = 101;

/// Two references that were looked at, the first in an iteration and the second in a later one.
#[derive(Clone, Copy)]
struct Pair<'p> {
    first: Occurrence<'p>,
    first_line: Line,
    second: Occurrence<'p>,
    second_line: Line,
    relation: Relation,
    /// Whether nothing is known but that both touch one place, in all iterations.
    is_one_place: bool,
}

/// The references of these numbers, if there are such.
fn pair_of<'p>(
    alloc: Global,
    tree: &LoopTree<'p>,
    view: &LoopView<'_, '_>,
    conditions: &Conditions,
    numbers: (RefId, RefId),
    relation: Relation,
) -> Result<Option<Pair<'p>>, AllocError> {
    let first = occurrence_of(tree, conditions, numbers.0);
    let second = occurrence_of(tree, conditions, numbers.1);
    let (Some((first, first_line)), Some((second, second_line))) = (first, second) else {
        return Ok(None);
    };
    let is_one_place = match relation {
        Relation::Apart(_, _) | Relation::Distance(_, _) => false,
        Relation::Any => is_one_place(alloc, view, &first, &second)?,
    };
    Ok(Some(Pair {
        first,
        first_line,
        second,
        second_line,
        relation,
        is_one_place,
    }))
}

/// The reference of a number, and the line that it stands in.
fn occurrence_of<'p>(
    tree: &LoopTree<'p>,
    conditions: &Conditions,
    number: RefId,
) -> Option<(Occurrence<'p>, Line)> {
    let occurrence = *tree.references().get(number.0)?;
    let own = *tree.lines().get(occurrence.statement)?;
    Some((occurrence, conditions.line(number).unwrap_or(own)))
}

fn append_occurrence(
    out: &mut Vec<u8>,
    occurrence: &Occurrence<'_>,
    line: Line,
) -> Result<(), AllocError> {
    append_reference(out, &occurrence.reference.name, occurrence.subscripts)?;
    out.extend_from_slice(b" of line ")?;
    append_number(out, line)
}

/// What a later iteration needs at the second reference of what one did at the first, if they meet.
fn kind_of(pair: &Pair<'_>) -> Dependence {
    Dependence::between(pair.first.defines, pair.second.defines)
}

/// Appends that a later iteration needs what an iteration does, so many iterations before.
fn append_need(out: &mut Vec<u8>, pair: &Pair<'_>, distance: u128) -> Result<(), AllocError> {
    let kind = kind_of(pair);
    out.extend_from_slice(kind.name())?;
    out.extend_from_slice(b" at distance ")?;
    append_number(out, distance)?;
    out.extend_from_slice(b": iteration k ")?;
    out.extend_from_slice(kind.does())?;
    out.extend_from_slice(b" what k+")?;
    append_number(out, distance)?;
    out.extend_from_slice(b" ")?;
    out.extend_from_slice(kind.then_does())
}

/// Appends that a later iteration may need what an iteration does.
fn append_doubt(out: &mut Vec<u8>, pair: &Pair<'_>) -> Result<(), AllocError> {
    let kind = kind_of(pair);
    out.extend_from_slice(b"perhaps ")?;
    out.extend_from_slice(kind.name())?;
    out.extend_from_slice(b", at an unknown distance: what iteration k ")?;
    out.extend_from_slice(kind.does())?;
    out.extend_from_slice(b" a later one may ")?;
    out.extend_from_slice(kind.then_do())
}

/// Appends that no later iteration needs what an iteration does.
fn append_none(out: &mut Vec<u8>, pair: &Pair<'_>) -> Result<(), AllocError> {
    let kind = kind_of(pair);
    out.extend_from_slice(b"what iteration k ")?;
    out.extend_from_slice(kind.does())?;
    out.extend_from_slice(b" no later one ")?;
    out.extend_from_slice(kind.then_does())?;
    out.extend_from_slice(b"; ")
}

/// The test by which two references are apart.
fn test(reason: Reason) -> &'static [u8] {
    match reason {
        Reason::Constant => b"constant test",
        Reason::Divisor => b"divisor test",
        Reason::Distance => b"distance test",
        Reason::Range => b"range test",
    }
}

/// Appends a dimension.
fn append_dimension(out: &mut Vec<u8>, dimension: usize) -> Result<(), AllocError> {
    out.extend_from_slice(b" in dimension ")?;
    append_number(out, dimension)
}

/// Appends what two references are to one another, and which test says so.
fn append_relation(out: &mut Vec<u8>, pair: &Pair<'_>) -> Result<(), AllocError> {
    match pair.relation {
        Relation::Apart(dimension, reason) => {
            append_none(out, pair)?;
            out.extend_from_slice(test(reason))?;
            append_dimension(out, dimension)
        }
        Relation::Distance(dimension, distance) => {
            append_need(out, pair, distance)?;
            out.extend_from_slice(b"; distance test")?;
            append_dimension(out, dimension)
        }
        Relation::Any if pair.first.subscripts.is_empty() => {
            append_need(out, pair, 1)?;
            out.extend_from_slice(b"; the scalar isn't private")
        }
        Relation::Any if pair.is_one_place => {
            append_need(out, pair, 1)?;
            out.extend_from_slice(b"; the subscripts stay the same")
        }
        Relation::Any => append_doubt(out, pair),
    }
}

/// Appends two references, with this between them.
fn append_both(out: &mut Vec<u8>, pair: &Pair<'_>, between: &[u8]) -> Result<(), AllocError> {
    out.extend_from_slice(b"  ")?;
    append_occurrence(out, &pair.first, pair.first_line)?;
    out.extend_from_slice(between)?;
    append_occurrence(out, &pair.second, pair.second_line)?;
    out.extend_from_slice(b":\n")
}

/// Appends the lines of two references, which have a line each where they are too long for one.
fn append_pair(out: &mut Vec<u8>, pair: &Pair<'_>) -> Result<(), AllocError> {
    let start = out.len();
    append_both(out, pair, b" and ")?;
    if out.len().saturating_sub(start) > WIDEST {
        out.truncate(start);
        append_both(out, pair, b"\n  and ")?;
    }
    out.extend_from_slice(b"    ")?;
    append_relation(out, pair)?;
    out.extend_from_slice(b"\n")
}

/// Whether something is kept of two references.
fn is_kept(relation: Relation) -> bool {
    !matches!(relation, Relation::Apart(_, _))
}

/// So many pairs of a run are told at a time.
const TOLD_AT_ONCE: u32 = 64;

/// The pairs of references of a loop that were looked at.
#[derive(Drop)]
pub struct PairLines<'t, 'p> {
    tree: &'t LoopTree<'p>,
    view: LoopView<'t, 'p>,
    conditions: Conditions,
    relations: &'t Relations,
}

impl PairLines<'_, '_> {
    /// How many runs of pairs there are.
    pub fn runs(&self) -> usize {
        self.relations.runs.len()
    }

    /// In how many parts the lines of a run are told where the runs of whose pairs something is
    /// kept are wanted, or the others.
    pub fn parts(&self, run: usize, kept: bool) -> u32 {
        match self.relations.runs.get(run) {
            Some(run) if is_kept(self.relations.relation(run)) == kept => {
                run.count / TOLD_AT_ONCE + 1
            }
            _ => 0,
        }
    }

    /// The lines of a part of a run, from 0.
    ///
    /// # Errors
    ///
    /// `AllocError` where memory is refused.
    pub fn part(&self, alloc: Global, run: usize, part: u32) -> Result<Vec<u8>, AllocError> {
        let mut lines = Vec::new(alloc);
        if let Some(run) = self.relations.runs.get(run) {
            let start = part.saturating_mul(TOLD_AT_ONCE);
            let end = start.saturating_add(TOLD_AT_ONCE).min(run.count);
            self.append_places(alloc, &mut lines, run, start, end)?;
        }
        Ok(lines)
    }

    /// Appends the lines of the pairs of a run from a place to another.
    fn append_places(
        &self,
        alloc: Global,
        out: &mut Vec<u8>,
        run: &Run,
        start: u32,
        end: u32,
    ) -> Result<(), AllocError> {
        let relation = self.relations.relation(run);
        for place in start..end {
            let numbers = run.pair(place);
            let pair = pair_of(
                alloc,
                self.tree,
                &self.view,
                &self.conditions,
                numbers,
                relation,
            )?;
            if let Some(pair) = pair {
                append_pair(out, &pair)?;
            }
        }
        Ok(())
    }
}

/// Appends why a scalar isn't private, if a path uses it before it gives it a value.
fn append_shared(out: &mut Vec<u8>, view: &LoopView<'_, '_>, name: Name) -> Result<(), AllocError> {
    let Some(line) = early_use(view.body(), name) else {
        return Ok(());
    };
    out.extend_from_slice(b"  ")?;
    out.extend_from_slice(name.trimmed())?;
    out.extend_from_slice(b" isn't private: a path uses it in line ")?;
    append_number(out, line)?;
    out.extend_from_slice(b" before it gives it a value\n")
}

/// Appends why scalars that the range gives values aren't private.
fn append_all_shared(
    out: &mut Vec<u8>,
    view: &LoopView<'_, '_>,
    privates: &[Name],
) -> Result<(), AllocError> {
    for reference in view.assigned() {
        if !privates.contains(&reference.name) {
            append_shared(out, view, reference.name)?;
        }
    }
    Ok(())
}

/// What says why iterations of a loop wait for one another, or needn't, or why it stays serial.
#[derive(Drop)]
pub struct Why<'t, 'p> {
    /// The lines before those of pairs.
    pub first: Vec<u8>,
    pub pairs: Option<PairLines<'t, 'p>>,
    /// The lines behind those of pairs.
    pub last: Vec<u8>,
}

/// What says why a loop stays serial.
fn why_serial<'t, 'p>(
    alloc: Global,
    tree: &'t LoopTree<'p>,
    number: usize,
    reason: SerialReason,
    reports: &[LoopReport],
) -> Result<Why<'t, 'p>, AllocError> {
    let mut first = Vec::new(alloc);
    if let Some(hindrance) = hindrance_of(alloc, tree, number, reason, reports)? {
        let told = format!(in alloc; "  it stays serial: {hindrance}\n")?;
        first.extend_from_slice(told.as_bytes())?;
    }
    Ok(Why {
        first,
        pairs: None,
        last: Vec::new(alloc),
    })
}

/// What says why iterations of a loop wait for one another, or needn't.
fn why_open<'t, 'p>(
    alloc: Global,
    tree: &'t LoopTree<'p>,
    number: usize,
    report: &'t LoopReport,
    reports: &[LoopReport],
    body: &[PlanStmt],
    privates: &[Name],
    relations: &'t Relations,
) -> Result<Why<'t, 'p>, AllocError> {
    let mut first = Vec::new(alloc);
    let mut last = Vec::new(alloc);
    if number < 1 || number > tree.count() {
        return Ok(Why {
            first,
            pairs: None,
            last,
        });
    }
    let view = tree.view(number);
    let amount = Amount::of(alloc, body)?;
    append_amount(alloc, &mut first, tree, &view, report, relations, &amount)?;
    append_touching(alloc, &mut first, &view, privates)?;
    append_gathered(alloc, &mut first, &view, privates)?;
    if amount.is_chain() {
        append_inner(alloc, &mut first, tree, number, view.step(), reports)?;
    }
    append_all_shared(&mut last, &view, privates)?;
    let pairs = PairLines {
        tree,
        view,
        conditions: Conditions::of(alloc, view.body())?,
        relations,
    };
    Ok(Why {
        first,
        pairs: Some(pairs),
        last,
    })
}

/// What says why a loop is as its report says, by its number.
///
/// # Errors
///
/// `AllocError` where memory is refused.
pub fn why_of<'t, 'p>(
    alloc: Global,
    tree: &'t LoopTree<'p>,
    number: usize,
    report: &'t LoopReport,
    reports: &[LoopReport],
) -> Result<Why<'t, 'p>, AllocError> {
    match &report.plan {
        LoopPlan::Serial(reason) => why_serial(alloc, tree, number, *reason, reports),
        LoopPlan::Body {
            body,
            privates,
            relations,
        } => {
            let names = &privates.names;
            why_open(alloc, tree, number, report, reports, body, names, relations)
        }
    }
}
