//! References with what is known of them.

ghost use Rattle.std.specs.Prelude.{◌≡◌, IfOk, map, min};
ghost use Rattle.loop_tree.specs.TreeView.{seen};
ghost use Rattle.loop_tree.specs.View.{occurrence as occurrence_of};
ghost use Rattle.plan_check.specs.EntryView.{entry as entry_of};
ghost use Rattle.plan_check.specs.Entries.{entries_by, entry_by};
ghost use Rattle.plan_check.specs.SeenView.{note as note_of};

use crate::seen::Note;
use dependence::forms;
use loop_tree::{LoopView, Occurrence};
use std::alloc::{AllocError, Global};
use subscripts::Affine;

/// A reference, what is known of the events before it, and the forms of its subscripts.
#[derive(Drop)]
pub struct Entry<'a, 'p> {
    pub occurrence: &'a Occurrence<'p>,
    pub note: &'a Note,
    pub forms: Vec<Affine>,
}

fn shorter(first: usize, second: usize) -> usize
    ensures { result ≡ min first second }
{
    first.min(second)
}

fn entry_of<'a, 'p>(
    alloc: Global,
    view: &LoopView<'_, '_>,
    occurrence: &'a Occurrence<'p>,
    note: &'a Note,
) -> Result<Entry<'a, 'p>, AllocError>
    ensures { IfOk result (λ made. entry_of made
        ≡ entry_by (seen view.now) (occurrence_of occurrence.now) (note_of note.now)) }
{
    Ok(Entry {
        occurrence,
        note,
        forms: forms(alloc, view, occurrence)?,
    })
}

/// The references one by one, each with its note.
///
/// # Errors
///
/// `AllocError` where memory is refused.
pub fn entries_of<'a, 'p>(
    alloc: Global,
    view: &LoopView<'_, '_>,
    references: &'a [Occurrence<'p>],
    notes: &'a [Note],
) -> Result<Vec<Entry<'a, 'p>>, AllocError>
    ensures { IfOk result (λ made. map entry_of made.items
        ≡ entries_by (seen view.now) (map occurrence_of references.now) (map note_of notes.now)) }
{
    let mut entries = Vec::new(alloc);
    let count = shorter(references.len(), notes.len());
    for place in 0..count {
        entries.push(entry_of(alloc, view, &references[place], &notes[place])?)?;
    }
    Ok(entries)
}
