//! Where events are awaited and advanced, by what is kept.

ghost use Rattle.std.specs.Prelude.{◌≡◌, IfOk, map, true, ℕ};
ghost use Rattle.loop_tree.specs.Loops.{Loop};
ghost use Rattle.placement.specs.Analysed.{AreTriples, triple};
ghost use Rattle.placement.specs.Listed.{awaited, list_at};
ghost use Rattle.placement.specs.Placement.{AreAwaits, AreSources, is_ascending};
ghost use Rattle.placement.specs.Spotted as spec;

use crate::analysis::Kept;
use crate::nested::push_at;
use crate::placing::Spots;
use std::alloc::{AllocError, Global};

/// The number of a source's event, where the sources are in order.
fn event_of(sources: &[usize], source: usize) -> usize
    ensures { is_ascending sources.now ≡ true → result ≡ spec.event_of 1 sources.now source }
{
    match sources.binary_search(&source) {
        Ok(place) => place + 1,
        Err(place) => place + 1,
    }
}

/// What is awaited before each statement.
fn awaits_of(
    alloc: Global,
    sources: &[usize],
    kept: &[Kept],
) -> Result<Vec<Vec<(usize, u128)>>, AllocError>
    ensures { IfOk result (λ awaits. is_ascending sources.now ≡ true → (t : ℕ)
        → list_at awaits.items t ≡ spec.awaits_of sources.now t (map triple kept.now)) }
{
    let mut awaits = Vec::new(alloc);
    for one in kept {
        let event = event_of(sources, one.source);
        push_at(alloc, &mut awaits, one.sink, (event, one.distance))?;
    }
    Ok(awaits)
}

/// The spots of sources in order, and of what is kept in order.
pub fn spots_of(alloc: Global, sources: Vec<usize>, kept: &[Kept]) -> Result<Spots, AllocError>
    ensures sources { IfOk result (λ spots. spots.sources.items ≡ sources.items) }
    ensures awaits { IfOk result (λ spots. (l : Loop) → AreSources l sources.items
        → AreTriples l (map triple kept.now) → (t : ℕ)
        → AreAwaits l sources.items t (awaited spots t)) }
{
    let awaits = awaits_of(alloc, &sources, kept)?;
    Ok(Spots { sources, awaits })
}
