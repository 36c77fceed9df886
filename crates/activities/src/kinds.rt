//! The kinds of the steps that stand next, so far as the code alone tells them.

ghost use Rattle.std.specs.Prelude.{◌≡◌, Some, true};
ghost use Rattle.activities.specs.Kinds.{ahead_at};

use machine::{Act, Code};

/// What the code tells of a step.
#[derive(Clone, Copy)]
pub struct Ahead {
    /// Whether it is a local one; else it is a load or a store.
    pub local: bool,
    /// The place to which it leads; the end of the code where there are two.
    pub next: usize,
}

/// A local step, which leads to a place.
#[inline(always)]
fn local_to(next: usize) -> Option<Ahead>
    ensures { result ≡ Some (record { local = true; next = next }) }
{
    Some(Ahead { local: true, next })
}

/// What the code tells of the step that stands next at a place, if it is a local one, a load or a
/// store.
#[inline(always)]
pub fn ahead_at(code: &Code, place: usize) -> Option<Ahead>
    ensures { result ≡ ahead_at code.now.instructions.items place }
{
    let end = code.instructions.len();
    if place >= end {
        return None;
    }
    match code.instructions[place].act {
        Act::Constant(_)
        | Act::Private(_)
        | Act::SetPrivate(_)
        | Act::Index
        | Act::Binary(_)
        | Act::Modulo
        | Act::Greatest
        | Act::Least
        | Act::Unary(_)
        | Act::Absolute
        | Act::Check(_, _)
        | Act::SetUp
        | Act::Step => local_to(place + 1),
        Act::Skip(n) => local_to(place + 1 + n as usize),
        Act::Back(n) => local_to(place.saturating_sub(n as usize)),
        Act::SkipUnless(_) | Act::CountDown(_) => local_to(end),
        Act::Load(_) | Act::LoadElement(_) | Act::Store(_) | Act::StoreElement(_) => Some(Ahead {
            local: false,
            next: place + 1,
        }),
        Act::Print(_)
        | Act::TakeRecord
        | Act::TakeValue
        | Act::DropRecord
        | Act::Await(_)
        | Act::Advance(_)
        | Act::Open(_)
        | Act::Join
        | Act::Retire(_)
        | Act::Stop
        | Act::Halt => None,
    }
}
