//! Whether the references that a walk has noted are those that the loop shows.

ghost use Rattle.std.specs.Prelude.{◌≡◌, map};
ghost use Rattle.std.specs.Bool.{Decides};
ghost use Rattle.loop_tree.specs.View.{occurrence};
ghost use Rattle.plan_check.specs.GoodPlan.{token_of};
ghost use Rattle.plan_check.specs.SeenView.{note as note_of};
ghost use Rattle.plan_check.specs.Walking.{token_noted};

use crate::expressions::is_same_reference;
use crate::seen::Note;
use loop_tree::Occurrence;

fn is_shown(shown: &Occurrence<'_>, note: &Note) -> bool
    ensures { Decides result (token_of (occurrence shown.now) ≡ token_noted (note_of note.now)) }
{
    shown.defines == note.defines && is_same_reference(&shown.reference, &note.reference)
}

/// Whether references are those of the notes, one by one.
pub fn are_shown(references: &[Occurrence<'_>], notes: &[Note]) -> bool
    ensures { Decides result (map (λ o. token_of (occurrence o)) references.now
        ≡ map (λ n. token_noted (note_of n)) notes.now) }
{
    if references.len() != notes.len() {
        return false;
    }
    for i in 0..references.len() {
        if !is_shown(&references[i], &notes[i]) {
            return false;
        }
    }
    true
}
