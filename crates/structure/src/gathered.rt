//! What is gathered of statements from the last to the first: where structures end, and their
//! spans.

ghost use Rattle.std.specs.Prelude.{◌≡◌, ◌++◌, ℕ, OnOk, Some, cond, get_or, nat_eq, reverse};
ghost use Rattle.std.specs.Option.{unwrap_or};
ghost use Rattle.indexmap.specs.IndexMap.{get};
ghost use Rattle.structure.specs.Backward.{last_place, span_to, spans_kept, with_end};
ghost use Rattle.structure.specs.Rules.{is_some_and};
ghost use Rattle.structure.specs.View.{part};

use crate::kinds::{Part, part_of};
use crate::span::Span;
use ast::{Label, Stmt};
use indexmap::IndexMap;
use std::alloc::{AllocError, Global};

/// What is known of the statements from a place on.
pub struct Gathered {
    /// The place of the first statement with each label.
    labels: IndexMap<Label, usize>,
    /// The places of the END IFs that no IF matches, the first of them last.
    ends: Vec<usize>,
    /// The spans of all that the statements open, the first of them last.
    spans: Vec<Span>,
}

impl Drop for Gathered {
    fn drop(self) {
        let Gathered {
            labels: _,
            ends: _,
            spans: _,
        } = self;
    }
}

/// The place of the first statement with a label.
fn place_of(labels: &IndexMap<Label, usize>, label: Label, total: usize) -> usize
    ensures { result ≡ unwrap_or (get nat_eq labels.now label) total }
{
    match labels.get(&label) {
        Some(place) => *place,
        None => total,
    }
}

/// The place of the first END IF that no IF matches.
fn innermost_end(ends: &[usize], total: usize) -> usize
    ensures { result ≡ get_or (reverse ends.now) 0 total }
{
    if ends.is_empty() {
        total
    } else {
        ends[ends.len() - 1]
    }
}

/// The last place of what a statement opens.
fn last_place(
    labels: &IndexMap<Label, usize>,
    ends: &[usize],
    total: usize,
    one: Part,
) -> Option<usize>
    ensures { result ≡ last_place (get nat_eq labels.now) (reverse ends.now) total (part one) }
{
    match one {
        Part::Do(terminal, _) => Some(place_of(labels, terminal, total)),
        Part::If => Some(innermost_end(ends, total)),
        Part::Else | Part::EndIf | Part::Other => None,
    }
}

/// Notes the place of a label.
fn note_label(
    labels: &mut IndexMap<Label, usize>,
    label: Option<Label>,
    place: usize,
) -> Result<(), AllocError>
    ensures { OnOk result ((l : ℕ) → get nat_eq labels.new l
        ≡ cond (is_some_and (λ own. nat_eq own l) label) (Some place) (get nat_eq labels.old l)) }
{
    if let Some(own) = label {
        labels.insert(own, place)?;
    }
    Ok(())
}

/// Notes the place of an END IF, or that an IF matches the innermost.
fn note_end(ends: &mut Vec<usize>, one: Part, place: usize) -> Result<(), AllocError>
    ensures { OnOk result (reverse ends.new.items
        ≡ with_end place (part one) (reverse ends.old.items)) }
{
    match one {
        Part::EndIf => ends.push(place)?,
        Part::If => {
            ends.pop();
        }
        Part::Do(_, _) | Part::Else | Part::Other => {}
    }
    Ok(())
}

/// Adds the span of what is opened at a place, if its last place is given.
fn add_span(spans: &mut Vec<Span>, first: usize, last: Option<usize>) -> Result<(), AllocError>
    ensures { OnOk result (spans_kept spans.new.items ≡ span_to first last
        ++ spans_kept spans.old.items) }
{
    if let Some(last) = last {
        spans.push(Span { first, last })?;
    }
    Ok(())
}

impl Gathered {
    ghost use Rattle.std.specs.Prelude.{◌≡◌, ◌++◌, ℕ, [], None, OnOk, Some, cond, nat_eq, reverse};
    ghost use Rattle.indexmap.specs.IndexMap.{get};
    ghost use Rattle.ast.specs.View.{kind as kind_of};
    ghost use Rattle.structure.specs.Backward.{last_place, span_to, spans_kept, with_end};
    ghost use Rattle.structure.specs.Parts.{part_of};
    ghost use Rattle.structure.specs.Rules.{is_some_and};

    /// Of no statements.
    pub fn new(alloc: Global) -> Self
        ensures labels { (l : ℕ) → get nat_eq result.labels l ≡ None }
        ensures ends { result.ends.items ≡ [] }
        ensures spans { result.spans.items ≡ [] }
    {
        Gathered {
            labels: IndexMap::new(alloc),
            ends: Vec::new(alloc),
            spans: Vec::new(alloc),
        }
    }

    /// Takes in the statement before those so far, which stands at the place; `total` is the number
    /// of all statements.
    pub fn note(&mut self, place: usize, total: usize, stmt: &Stmt) -> Result<(), AllocError>
        ensures labels { OnOk result ((l : ℕ) → get nat_eq self.new.labels l
            ≡ cond (is_some_and (λ own. nat_eq own l) stmt.now.label) (Some place)
            (get nat_eq self.old.labels l)) }
        ensures ends { OnOk result (reverse self.new.ends.items
            ≡ with_end place (part_of (kind_of stmt.now.kind)) (reverse self.old.ends.items)) }
        ensures spans { OnOk result (spans_kept self.new.spans.items
            ≡ span_to place
            (last_place (get nat_eq self.old.labels) (reverse self.old.ends.items) total
            (part_of (kind_of stmt.now.kind))) ++ spans_kept self.old.spans.items) }
    {
        let part = part_of(&stmt.kind);
        let last = last_place(&self.labels, &self.ends, total, part);
        add_span(&mut self.spans, place, last)?;
        note_label(&mut self.labels, stmt.label, place)?;
        note_end(&mut self.ends, part, place)
    }

    /// The spans in the order of their first statements.
    pub fn into_spans(self) -> Vec<Span>
        ensures { result.items ≡ reverse self.spans.items }
    {
        let Gathered {
            labels: _,
            ends: _,
            mut spans,
        } = self;
        spans.reverse();
        spans
    }
}
