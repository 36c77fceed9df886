//! Laws about plans that are placed.

ghost use Rattle.placement.specs.Acceptance.{IsAccepted};
ghost use Rattle.placement.specs.Awaiting.{AreKept};
ghost use Rattle.placement.specs.Opening.{IsOutermost};

/// The check accepts each plan that is placed.
pub fn accepted()
    ensures { IsAccepted }
{}

/// A loop may be open exactly where it suits and no loop around it does.
pub fn outermost()
    ensures { IsOutermost }
{}

/// The awaits of a plan that is placed are order awaits, one of each advance, and those of what is
/// kept.
pub fn kept()
    ensures { AreKept }
{}
