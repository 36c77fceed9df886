//! References by their numbers.

ghost use Rattle.std.specs.Prelude.{◌≡◌, map, option_map, slice_get};
ghost use Rattle.loop_tree.specs.Collecting as spec;
ghost use Rattle.loop_tree.specs.Occurrences.{numbered};
ghost use Rattle.loop_tree.specs.View.{occurrence};

use crate::occurrence::Occurrence;

/// The part of a list between two places.
pub fn part<'t, 'p>(list: &'t [Occurrence<'p>], first: usize, last: usize) -> &'t [Occurrence<'p>]
    ensures { result.now ≡ spec.part list.now first last }
{
    if first <= last && last <= list.len() {
        &list[first..last]
    } else {
        &[]
    }
}

/// The reference at a place, if there is one.
fn element<'p>(list: &[Occurrence<'p>], place: usize) -> Option<Occurrence<'p>>
    ensures { result ≡ slice_get list.now place }
{
    if place < list.len() {
        Some(list[place])
    } else {
        None
    }
}

/// What the reference at a place shows.
#[tactic(auto, using(crate::proofs::Ends::seen_at))]
fn at<'p>(list: &[Occurrence<'p>], place: usize) -> Option<Occurrence<'p>>
    ensures { option_map occurrence result ≡ slice_get (map occurrence list.now) place }
{
    element(list, place)
}

/// The reference of a number, in a list of references that are numbered one after another.
pub fn numbered<'p>(list: &[Occurrence<'p>], number: usize) -> Option<Occurrence<'p>>
    ensures { option_map occurrence result ≡ numbered (map occurrence list.now) number }
{
    match list {
        [] => None,
        [first, ..] => {
            if first.reference.id.0 <= number {
                at(list, number - first.reference.id.0)
            } else {
                None
            }
        }
    }
}
