//! Notes are compared with the cells themselves, and made there.

ghost use Rattle.std.specs.Prelude.{◌≡◌, ◌≤◌, ◌<◌, true, false, if◌then◌else◌, length, take};
ghost use Rattle.stretches.specs.Notes.{all_hold, behind, cells_by, holds, undone};

use crate::note::Note;

/// Whether a note holds of the cells.
#[inline(always)]
fn is_right(note: &Note, cells: &[i64]) -> bool
    ensures { result ≡ holds note.now cells.now }
{
    note.cell < cells.len() && cells[note.cell] == note.was
}

/// The cell of a note that holds gets the value that it has behind it. Where it has it nothing is
/// written, since memory that is only read can be near several processors at once.
#[inline(always)]
fn settle(note: &Note, cells: &mut [i64])
    requires { holds note.now cells.old ≡ true }
    ensures { cells.new ≡ behind note.now cells.old }
{
    if note.is != note.was {
        cells[note.cell] = note.is;
    }
}

/// Makes notes, one after another, as far as they hold; how many.
fn make(notes: &[Note], cells: &mut [i64]) -> usize
    ensures few { result ≤ length notes.now }
    ensures hold { all_hold (take result notes.now) cells.old ≡ true }
    ensures made { cells.new ≡ cells_by (take result notes.now) cells.old }
    ensures stops { result < length notes.now → all_hold notes.now cells.old ≡ false }
{
    let mut made = 0;
    while made < notes.len() {
        let note = notes[made];
        if !is_right(&note, cells) {
            return made;
        }
        settle(&note, cells);
        made += 1;
    }
    made
}

/// Undoes the first `made` notes, from the last to the first.
fn undo(notes: &[Note], made: usize, cells: &mut [i64])
    requires { made ≤ length notes.now }
    ensures { cells.new ≡ undone (take made notes.now) cells.old }
{
    let mut left = made;
    while left > 0 {
        left -= 1;
        let note = notes[left];
        if note.cell < cells.len() {
            cells[note.cell] = note.was;
        }
    }
}

/// Makes all notes, one after another, where they hold; else it answers false, and the cells are
/// as they were.
pub fn make_all(notes: &[Note], cells: &mut [i64]) -> bool
    ensures hold { result ≡ all_hold notes.now cells.old }
    ensures made { cells.new
        ≡ (if result then cells_by notes.now cells.old else cells.old) }
{
    let made = make(notes, cells);
    if made == notes.len() {
        return true;
    }
    undo(notes, made, cells);
    false
}
