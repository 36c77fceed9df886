//! Schedules.

ghost use Rattle.std.specs.Prelude.{◌≡◌, ◌≢◌, ◌<◌, ◌≤◌, ◌^◌, ◌++◌, [], ℕ, IfOk, IfErr, OnOk, OnErr};
ghost use Rattle.std.specs.Prelude.{length, suc, Some, IfSome, true, false};
ghost use Rattle.machine.specs.State.{AreSizes};
ghost use Rattle.schedules.specs.Kept.{entries_of, entry_of, short_bursts, taken};
ghost use Rattle.schedules.specs.Refusals.{Explains, IsHeaded, Refuses, WantsMemory, flaw_of};
ghost use Rattle.schedules.specs.Schedules.{Entry as EntryOf, IsAct, IsSchedule, SchedText};
ghost use Rattle.schedules.specs.Schedules.{Schedule as ScheduleOf, bursts, text_before, text_of};
ghost use Rattle.schedules.specs.Schedules.{longest_burst, picks, shares, with_entries, with_entry};
ghost use Rattle.schedules.specs.Schedules.{works};
ghost use Rattle.schedules.specs.Noting.{EndsIn, IsLonger};
ghost use Rattle.schedules.specs.View.{act as act_view, entry as entry_view};

use crate::entry::{Act, Entry, Version};
use crate::flaw::Flaw;
use crate::reading::{LONGEST_BURST, NoEntry, entry, header, sizes};
use crate::refusal::ReplayRefusal;
use crate::short::{Entries, Short};
use crate::writing::{append_entries, append_header, append_sizes};
use std::alloc::{AllocError, Global};
use std::marker::Model;

/// How many local instructions an entry holds at most, as a run counts them.
const LONGEST: u32 = LONGEST_BURST as u32;

/// What each processor of a run did, turn by turn.
pub struct Schedule {
    version: Version,
    processors: u16,
    slots: u16,
    shorts: Vec<Short>,
    picked: Vec<u128>,
}

impl Drop for Schedule {
    fn drop(self) {
        let Schedule {
            version: _,
            processors: _,
            slots: _,
            shorts: _,
            picked: _,
        } = self;
    }
}

impl Model for Schedule {
    ghost use Rattle.schedules.specs.Schedules.{Schedule as ScheduleOf};

    ghost Value = { ScheduleOf };

    ghost use Rattle.schedules.specs.Kept.{IsKept, seen};

    ghost view = { λ a. seen a.version a.processors a.slots a.shorts.items a.picked.items };

    ghost invariant = { λ a. IsKept a.version a.processors a.slots a.shorts.items a.picked.items };
}

/// What is wrong with a schedule where a line is no entry.
fn flaw_of(fault: NoEntry) -> Flaw
    ensures { result ≡ flaw_of fault }
{
    match fault {
        NoEntry::Form => Flaw::Entry,
        NoEntry::Processor => Flaw::Processor,
    }
}

/// Appends entries of so many local instructions, each as long as it may be.
fn append_bursts(shorts: &mut Vec<Short>, processor: u8, made: u32) -> Result<(), AllocError>
    ensures ok { OnOk result (shorts.new.items ≡ shorts.old.items ++ short_bursts processor made) }
    ensures err { OnErr result (shorts.new.items ≡ shorts.old.items) }
{
    let whole = (made / LONGEST) as usize;
    let rest = (made % LONGEST) as u16;
    shorts.reserve(whole + 1)?;
    let longest = Short::Work {
        processor,
        count: LONGEST_BURST,
    };
    shorts.resize(shorts.len() + whole, longest)?;
    if rest > 0 {
        shorts.push_reserved(Short::Work {
            processor,
            count: rest,
        });
    }
    Ok(())
}

impl Schedule {
    /// The schedule of a run that has not begun, of so many processors, 1 to 64, and slots, 1 to
    /// 256.
    pub fn new(alloc: Global, version: Version, processors: u16, slots: u16) -> Schedule
        requires sizes { AreSizes processors slots }
        ensures new { result ≡ record
            { version = version; processors = processors; slots = slots; entries = [] } }
        ensures kept { IsSchedule result }
    {
        Schedule {
            version,
            processors,
            slots,
            shorts: Vec::new(alloc),
            picked: Vec::new(alloc),
        }
    }

    /// Whether its picks are named.
    pub fn version(&self) -> Version
        ensures { result ≡ self.now.version }
    {
        self.version
    }

    /// How many processors there are, 1 to 64.
    pub fn processors(&self) -> u16
        ensures is { result ≡ self.now.processors }
        ensures sizes { AreSizes self.now.processors self.now.slots }
    {
        self.processors
    }

    /// How many iterations may be open, 1 to 256.
    pub fn slots(&self) -> u16
        ensures { result ≡ self.now.slots }
    {
        self.slots
    }

    /// How many entries there are.
    #[tactic(auto, using(crate::proofs::Keeping::length_entries))]
    pub fn len(&self) -> usize
        ensures is { result ≡ length self.now.entries }
        ensures few { result < 2 ^ 63 }
    {
        self.shorts.len()
    }

    /// The entries, in order.
    #[tactic(auto, using(crate::proofs::Keeping::length_entries))]
    pub fn entries(&self) -> Entries<'_>
        ensures entries { entries_of result.shorts.now result.picked.now ≡ self.now.entries }
        ensures kept { IsSchedule self.now }
        ensures few { length self.now.entries < 2 ^ 63 }
    {
        Entries::new(&self.shorts, &self.picked)
    }

    /// An equal schedule, or `AllocError` where memory is refused.
    pub fn try_copy(&self) -> Result<Schedule, AllocError>
        ensures { IfOk result (λ copy. copy ≡ self.now) }
    {
        let alloc = *self.shorts.allocator();
        let mut shorts = Vec::new(alloc);
        shorts.extend_from_slice(&self.shorts)?;
        let mut picked = Vec::new(alloc);
        picked.extend_from_slice(&self.picked)?;
        Ok(Schedule {
            version: self.version,
            processors: self.processors,
            slots: self.slots,
            shorts,
            picked,
        })
    }

    /// Takes back the entry that was added last, if there is one.
    pub fn take_back(&mut self)
        ensures last { (x : ScheduleOf) (e : EntryOf) → self.old ≡ with_entry x e → self.new ≡ x }
        ensures none { self.old.entries ≡ [] → self.new ≡ self.old }
        ensures kept { IsSchedule self.new }
    {
        let Some(last) = self.shorts.pop() else {
            return;
        };
        if last.has_number() {
            self.picked.pop();
        }
    }

    /// The entry that was added last, of local instructions, becomes one of so many; where they are
    /// none, it is taken back.
    pub fn recount(&mut self, made: u16)
        requires few { made ≤ longest_burst }
        ensures last { (x : ScheduleOf) (q n : ℕ)
            → self.old ≡ with_entry x (record { processor = q; act = works n })
            → self.new ≡ with_entries x (bursts q made) }
        ensures kept { IsSchedule self.new }
    {
        if made == 0 {
            self.take_back();
            return;
        }
        if let Some(last) = self.shorts.pop() {
            self.shorts.push_reserved(last.counting(made));
        }
    }

    /// The processor of the entry that was added last, and how many local instructions it has, if
    /// it is of local instructions.
    #[tactic(auto, using(crate::proofs::Keeping::length_entries))]
    fn last_burst(&self) -> Option<(u8, u16)>
        ensures some { IfSome result (λ r. EndsIn r.0 r.1 self.now) }
        ensures none { (x : ScheduleOf) (q n : ℕ)
            → self.now ≡ with_entry x (record { processor = q; act = works n })
            → result ≡ Some (q, n) }
        ensures few { length self.now.entries < 2 ^ 63 }
    {
        let len = self.shorts.len();
        if len == 0 {
            return None;
        }
        self.shorts[len - 1].burst()
    }

    /// The entry that was added last becomes one of so many local instructions more, if it is of
    /// this processor's, and not too long then; else nothing changes. It takes no memory.
    pub fn lengthen(&mut self, processor: u8, more: u16) -> bool
        requires some { 1 ≤ more }
        ensures longer { result ≡ true → IsLonger processor more self.old self.new }
        ensures same { result ≡ false → self.new ≡ self.old }
        ensures kept { result ≡ true → IsSchedule self.new }
        ensures few { length self.old.entries < 2 ^ 63 }
    {
        let Some((last, count)) = self.last_burst() else {
            return false;
        };
        if last != processor || more > LONGEST_BURST || count > LONGEST_BURST - more {
            return false;
        }
        self.recount(count + more);
        true
    }

    /// The entry that was added last has a step less; if it has none then, it is taken back. It
    /// takes no memory.
    pub fn shorten(&mut self)
        ensures burst { (x : ScheduleOf) (q n : ℕ)
            → self.old ≡ with_entry x (record { processor = q; act = works (suc n) })
            → self.new ≡ with_entries x (bursts q n) }
        ensures share { (x : ScheduleOf) (q : ℕ)
            → self.old ≡ with_entry x (record { processor = q; act = shares }) → self.new ≡ x }
        ensures kept { IsSchedule self.new }
    {
        match self.last_burst() {
            Some((_, count)) => self.recount(count.saturating_sub(1)),
            None => self.take_back(),
        }
    }

    /// Adds an entry at the end. Where memory is refused nothing has changed.
    #[inline(always)]
    #[tactic(auto, using(crate::proofs::Keeping::length_entries))]
    pub fn push(&mut self, entry: Entry) -> Result<(), AllocError>
        requires below { entry.processor < self.old.processors }
        requires allowed { IsAct self.old.version (act_view entry.act) }
        ensures ok { OnOk result (self.new ≡ with_entry self.old (entry_view entry)) }
        ensures kept { IsSchedule self.new }
        ensures err { OnErr result (self.new ≡ self.old) }
        ensures few { length self.old.entries < 2 ^ 63 }
    {
        let processor = entry.processor;
        match entry.act {
            Act::Work(count) => self.keep(Short::Work { processor, count }),
            Act::Share => self.keep(Short::Share { processor }),
            Act::PickMain => self.keep(Short::PickMain { processor }),
            Act::PickIteration(iteration) => self.push_pick(processor, iteration),
            Act::TakeTicket => self.keep(Short::TakeTicket { processor }),
        }
    }

    #[inline(always)]
    #[tactic(auto, using(crate::proofs::Keeping::length_entries))]
    fn keep(&mut self, short: Short) -> Result<(), AllocError>
        requires plain { taken short ≡ 0 }
        requires below { (entry_of short []).processor < self.old.processors }
        requires allowed { IsAct self.old.version (entry_of short []).act }
        ensures ok { OnOk result (self.new ≡ with_entry self.old (entry_of short [])) }
        ensures kept { IsSchedule self.new }
        ensures err { OnErr result (self.new ≡ self.old) }
        ensures few { length self.old.entries < 2 ^ 63 }
    {
        self.shorts.push(short)?;
        Ok(())
    }

    /// Adds entries of so many local instructions of a processor, each as long as it may be. Where
    /// memory is refused nothing has changed.
    #[tactic(auto, using(crate::proofs::Keeping::length_entries))]
    pub fn push_work(&mut self, processor: u8, made: u32) -> Result<(), AllocError>
        requires below { processor < self.old.processors }
        ensures ok { OnOk result (self.new ≡ with_entries self.old (bursts processor made)) }
        ensures kept { IsSchedule self.new }
        ensures err { OnErr result (self.new ≡ self.old) }
        ensures few { length self.old.entries < 2 ^ 63 }
    {
        append_bursts(&mut self.shorts, processor, made)?;
        Ok(())
    }

    #[tactic(auto, using(crate::proofs::Keeping::length_entries))]
    fn push_pick(&mut self, processor: u8, iteration: u128) -> Result<(), AllocError>
        requires below { processor < self.old.processors }
        requires allowed { IsAct self.old.version (picks iteration) }
        ensures ok { OnOk result (self.new
            ≡ with_entry self.old (record { processor = processor; act = picks iteration })) }
        ensures kept { IsSchedule self.new }
        ensures err { OnErr result (self.new ≡ self.old) }
        ensures few { length self.old.entries < 2 ^ 63 }
    {
        self.picked.push(iteration)?;
        match self.shorts.push(Short::PickIteration { processor }) {
            Ok(()) => Ok(()),
            Err(error) => {
                self.picked.pop();
                Err(error.into())
            }
        }
    }

    /// Reads the entry that a text begins with, adds it, and gives what stands after its line.
    fn read_entry<'a>(&mut self, text: &'a [u8]) -> Result<&'a [u8], ReplayRefusal>
        requires some { text.now ≢ [] }
        ensures ok { IfOk result (λ rest. (length rest.now < length text.now)
            × (text_before self.new rest.now ≡ text_before self.old text.now)) }
        ensures err { IfErr result (λ fault.
            Explains fault (λ flaw line. Refuses (text_before self.old text.now) flaw line)) }
        ensures kept { IsSchedule self.new }
    {
        match entry(self.version, self.processors, text) {
            Ok((entry, rest)) => {
                self.push(entry)?;
                Ok(rest)
            }
            Err(fault) => Err(ReplayRefusal::Refused {
                number: flaw_of(fault),
                line: 3 + self.shorts.len(),
            }),
        }
    }

    /// Reads the entries of a text, and adds them.
    fn read(&mut self, text: &[u8]) -> Result<(), ReplayRefusal>
        requires kept { IsSchedule self.old }
        ensures ok { OnOk result (text_of self.new ≡ text_before self.old text.now) }
        ensures err { IfErr result (λ fault.
            Explains fault (λ flaw line. Refuses (text_before self.old text.now) flaw line)) }
        ensures kept { IsSchedule self.new }
    {
        let mut rest = text;
        while !rest.is_empty() {
            rest = self.read_entry(rest)?;
        }
        Ok(())
    }

    /// The schedule that a text is.
    ///
    /// # Errors
    ///
    /// `Header` where line 1 or 2 is absent or not of its form or range, `Entry` at a line that is
    /// no entry, `Processor` at an entry of a processor that isn't there; and want of memory, which
    /// only entries take.
    pub fn parse(alloc: Global, bytes: &[u8]) -> Result<Schedule, ReplayRefusal>
        ensures found { IfOk result (λ x. SchedText x bytes.now) }
        ensures refused { IfErr result (λ fault.
            Explains fault (λ flaw line. Refuses bytes.now flaw line)) }
        ensures only { IfErr result (λ fault.
            Explains fault (λ flaw line. (x : ScheduleOf) → SchedText x bytes.now → ⊥)) }
        ensures memory { IfErr result (λ fault. WantsMemory fault (IsHeaded bytes.now)) }
        ensures one { (x y : ScheduleOf) → SchedText x bytes.now → SchedText y bytes.now → x ≡ y }
    {
        let Some((version, rest)) = header(bytes) else {
            return Err(ReplayRefusal::Refused {
                number: Flaw::Header,
                line: 1,
            });
        };
        let Some((processors, slots, rest)) = sizes(rest) else {
            return Err(ReplayRefusal::Refused {
                number: Flaw::Header,
                line: 2,
            });
        };
        let mut schedule = Schedule::new(alloc, version, processors, slots);
        match schedule.read(rest) {
            Ok(()) => Ok(schedule),
            Err(refusal) => Err(refusal),
        }
    }

    /// The text of the schedule.
    ///
    /// # Errors
    ///
    /// `AllocError` where memory is refused.
    pub fn text(&self) -> Result<Vec<u8>, AllocError>
        ensures { IfOk result (λ text. SchedText self.now text.items) }
    {
        let mut out = Vec::new(*self.shorts.allocator());
        append_header(&mut out, self.version)?;
        append_sizes(&mut out, self.processors, self.slots)?;
        append_entries(&mut out, Entries::new(&self.shorts, &self.picked))?;
        Ok(out)
    }
}
