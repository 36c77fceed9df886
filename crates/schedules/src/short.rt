//! Entries as they are kept.

use crate::entry::{Act, Entry};

/// An entry in four bytes. The number of an iteration that is picked is kept beside.
#[derive(Clone, Copy, PartialEq, Eq)]
pub enum Short {
    Work { processor: u8, count: u16 },
    Share { processor: u8 },
    PickMain { processor: u8 },
    PickIteration { processor: u8 },
    TakeTicket { processor: u8 },
}

impl Short {
    ghost use Rattle.std.specs.Prelude.{◌≡◌, if◌then◌else◌};
    ghost use Rattle.schedules.specs.Kept.{burst_of, counting, taken};

    /// Whether a number is kept beside it.
    pub fn has_number(self) -> bool
        ensures { taken self ≡ (if result then 1 else 0) }
    {
        match self {
            Short::PickIteration { .. } => true,
            Short::Work { .. }
            | Short::Share { .. }
            | Short::PickMain { .. }
            | Short::TakeTicket { .. } => false,
        }
    }

    /// Its processor, and how many local instructions it is of, if it is of any.
    pub fn burst(self) -> Option<(u8, u16)>
        ensures { result ≡ burst_of self }
    {
        match self {
            Short::Work { processor, count } => Some((processor, count)),
            Short::Share { .. }
            | Short::PickMain { .. }
            | Short::PickIteration { .. }
            | Short::TakeTicket { .. } => None,
        }
    }

    /// The same of so many local instructions, if it is of any.
    pub fn counting(self, count: u16) -> Short
        ensures { result ≡ counting count self }
    {
        match self {
            Short::Work { processor, .. } => Short::Work { processor, count },
            Short::Share { .. }
            | Short::PickMain { .. }
            | Short::PickIteration { .. }
            | Short::TakeTicket { .. } => self,
        }
    }
}

/// The entries of a schedule, one after another.
#[derive(Drop)]
pub struct Entries<'a> {
    shorts: &'a [Short],
    picked: &'a [u128],
}

impl<'a> Entries<'a> {
    ghost use Rattle.std.specs.Prelude.{◌≡◌, ◌≤◌, ◌∷◌, [], ◌<◌, length, drop, get_or, IfSome, None};
    ghost use Rattle.schedules.specs.Kept.{entries_of};
    ghost use Rattle.schedules.specs.View.{entry as entry_view};

    /// The entries that are kept so: `picked` has the numbers of the iterations that are picked, in
    /// order.
    pub fn new(shorts: &'a [Short], picked: &'a [u128]) -> Entries<'a>
        ensures shorts { result.shorts.now ≡ shorts.now }
        ensures picked { result.picked.now ≡ picked.now }
    {
        Entries { shorts, picked }
    }

    /// The next entries, as they are kept.
    pub fn shorts(&self) -> &'a [Short]
        ensures { result.now ≡ self.now.shorts.now }
    {
        self.shorts
    }

    /// Goes past so many entries, none of which picks an iteration.
    pub fn pass(&mut self, count: usize)
        requires there { count ≤ length self.old.shorts.now }
        ensures shorts { self.new.shorts.now ≡ drop count self.old.shorts.now }
        ensures picked { self.new.picked.now ≡ self.old.picked.now }
    {
        self.shorts = &self.shorts[count..];
    }

    /// The number of the next iteration that is picked; 0 where there is none.
    fn take_number(&mut self) -> u128
        ensures number { result ≡ get_or self.old.picked.now 0 0 }
        ensures picked { self.new.picked.now ≡ drop 1 self.old.picked.now }
        ensures shorts { self.new.shorts.now ≡ self.old.shorts.now }
    {
        match self.picked {
            [first, rest @ ..] => {
                self.picked = rest;
                *first
            }
            [] => 0,
        }
    }

    /// The next entry.
    pub fn next(&mut self) -> Option<Entry>
        ensures some { IfSome result (λ e. entries_of self.old.shorts.now self.old.picked.now
            ≡ entry_view e ∷ entries_of self.new.shorts.now self.new.picked.now) }
        ensures fewer { IfSome result (λ _. length self.new.shorts.now
            < length self.old.shorts.now) }
        ensures none { result ≡ None → entries_of self.old.shorts.now self.old.picked.now ≡ [] }
    {
        let [short, rest @ ..] = self.shorts else {
            return None;
        };
        self.shorts = rest;
        Some(match *short {
            Short::Work { processor, count } => Entry {
                processor,
                act: Act::Work(count),
            },
            Short::Share { processor } => Entry {
                processor,
                act: Act::Share,
            },
            Short::PickMain { processor } => Entry {
                processor,
                act: Act::PickMain,
            },
            Short::PickIteration { processor } => {
                let act = Act::PickIteration(self.take_number());
                Entry { processor, act }
            }
            Short::TakeTicket { processor } => Entry {
                processor,
                act: Act::TakeTicket,
            },
        })
    }
}
