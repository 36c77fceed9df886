//! Entries of schedules.

/// Whether a schedule names what a processor picks.
#[derive(Clone, Copy, PartialEq, Eq)]
pub enum Version {
    /// A shared step of an idle processor picks by the rule: what became ready first, and a ticket
    /// only where nothing is ready.
    First,
    /// Each pick is named.
    Second,
}

/// What a processor does.
#[derive(Clone, Copy, PartialEq, Eq)]
pub enum Act {
    /// So many local instructions, from 1 to 1,024, of the activity that it holds.
    Work(u16),
    /// One shared step of that activity; in the first version also a pick.
    Share,
    /// It picks main, which is parked.
    PickMain,
    /// It picks the parked iteration of this number.
    PickIteration(u128),
    /// It takes the next ticket and begins that iteration.
    TakeTicket,
}

/// What one of the processors does. They are numbered from 0.
#[derive(Clone, Copy, PartialEq, Eq)]
pub struct Entry {
    pub processor: u8,
    pub act: Act,
}
