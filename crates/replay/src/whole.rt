//! The whole machine with its schedule.

ghost use Rattle.std.specs.Prelude.{◌≡◌};
ghost use Rattle.activities.specs.Activities.{chosen};
ghost use Rattle.replay.specs.Stepping.{begun_by};

use crate::answering::answer;
use crate::legs::Legs;
use crate::stepped::{CoreRefusal, HandIn, Stepped, Tally};
use crate::{recording, striding};
use activities::{Activities, Choice, Holder, Shared};
use ast::Answer;
use machine::{Code, Done, Frame, Work, stands_local};
use schedules::{MOST_PROCESSORS, MOST_SLOTS, Schedule, Version};
use std::alloc::{AllocError, Global};
use std::marker::Model;

/// The iteration that begins where this is taken up, the next ticket being known.
fn begun_by(choice: Choice, ticket: u128) -> Option<u128>
    ensures { result ≡ begun_by (chosen choice) ticket }
{
    match choice {
        Choice::Ticket => Some(ticket),
        Choice::Main | Choice::Iteration(_) => None,
    }
}

/// What has gone out.
fn output_of(activities: Activities<'_>) -> Vec<u8>
    ensures { result.items ≡ activities.entry.shared.output.items }
{
    let Activities { shared, .. } = activities;
    let Shared { output, .. } = shared;
    output
}

/// A run of code on an input, with the schedule of what its processors did.
pub struct Core<'c> {
    input: &'c [u8],
    activities: Activities<'c>,
    schedule: Schedule,
    tally: Tally,
}

impl Drop for Core<'_> {
    fn drop(self) {
        let Core {
            input: _,
            activities: _,
            schedule: _,
            tally: _,
        } = self;
    }
}

impl<'c> Model for Core<'c> {
    ghost use Rattle.replay.specs.CoreView.{CoreView};

    ghost Value = { CoreView };

    ghost use Rattle.replay.specs.Whole.{IsWhole, seen_as};

    ghost view = { λ c. seen_as c.input.now c.activities c.schedule };

    ghost invariant = { λ c. IsWhole c.input.now c.activities c.schedule c.tally };
}

impl<'c> Core<'c> {
    ghost use Rattle.std.specs.Bool.{Decides};
    ghost use Rattle.std.specs.Prelude.{◌≡◌, ◌<◌, ◌≤◌, ◌-◌, true, IfOk, IfErr, IfSome, OnOk, OnErr};
    ghost use Rattle.std.specs.Prelude.{Some, None, is_some, option_map};
    ghost use Rattle.ec_kernel.specs.View.{first_of};
    ghost use Rattle.machine.specs.CodeView.{code_of};
    ghost use Rattle.machine.specs.FrameView.{frame_of};
    ghost use Rattle.machine.specs.WorkView.{IsSpent, work_of};
    ghost use Rattle.schedules.specs.declared.entry.Version.TheVariants.{Second};
    ghost use Rattle.activities.specs.Activities.{chosen, frame_at, who};
    ghost use Rattle.replay.specs.CoreView.{CoreView, IsNew, IsRecorded, point_at};
    ghost use Rattle.activities.specs.Least.{IsLeast, has_ticket};
    ghost use Rattle.replay.specs.Loading.{CannotHandInWork, HandsInWork, HasFrame, Loads};
    ghost use Rattle.activities.specs.Parts.{held_of};
    ghost use Rattle.replay.specs.Replayed.{IsAnswer};
    ghost use Rattle.activities.specs.Points.{beginning, local_in};
    ghost use Rattle.replay.specs.Stepping.{CannotHandIn, HandsIn, HasLocal, IsFrom, IsGoing};
    ghost use Rattle.replay.specs.Stepping.{HasEnded, IsDone, KeepsGoing, Labours, MayTry, NoCore};
    ghost use Rattle.replay.specs.Stepping.{PicksUp, Steps};
    ghost use Rattle.replay.specs.Stepping.{WentOrLocal};
    ghost use Rattle.replay.specs.Striding.{Strides};
    ghost use Rattle.replay.specs.Tallies.{Tallies};

    /// A run at its beginning, of `p` processors, 1 to 64, with `s` iterations open at most, 1 to
    /// 256.
    ///
    /// # Errors
    ///
    /// `OutOfRange` where p or s is out of its range; and want of memory.
    pub fn new(
        alloc: Global,
        code: &'c Code,
        input: &'c [u8],
        p: u64,
        s: u64,
    ) -> Result<Core<'c>, CoreRefusal>
        ensures new { IfOk result (IsNew (code_of code.now) input.now p s) }
        ensures refused { IfErr result (NoCore p s) }
    {
        if p < 1 || p > u64::from(MOST_PROCESSORS) || s < 1 || s > u64::from(MOST_SLOTS) {
            return Err(CoreRefusal::OutOfRange);
        }
        let activities = Activities::new(alloc, code, input, p as usize, s as usize)?;
        Ok(Core {
            input,
            activities,
            schedule: Schedule::new(alloc, Version::Second, p as u16, s as u16),
            tally: Tally { made: 0, again: 0 },
        })
    }

    /// The code.
    pub fn code(&self) -> &'c Code
        ensures { code_of result.now ≡ self.now.code }
    {
        self.activities.code
    }

    /// The input.
    pub fn input(&self) -> &'c [u8]
        ensures { result.now ≡ self.now.input }
    {
        self.input
    }

    /// How many processors there are, 1 to 64.
    pub fn processors(&self) -> usize
        ensures { result ≡ self.now.schedule.processors }
    {
        usize::from(self.schedule.processors())
    }

    /// How many iterations may be open, 1 to 256.
    pub fn slots(&self) -> usize
        ensures { result ≡ self.now.schedule.slots }
    {
        usize::from(self.schedule.slots())
    }

    /// What the processors did so far. The state is its replay.
    pub fn schedule(&self) -> &Schedule
        ensures schedule { result.now ≡ self.now.schedule }
        ensures recorded { IsRecorded self.now }
    {
        &self.schedule
    }

    /// The frame of what processor `q` holds.
    fn held_frame(&self, q: usize) -> Option<&Frame>
        ensures { option_map (λ f. frame_of f.now) result ≡ frame_at q (point_at self.now) }
    {
        if q >= self.activities.held.len() {
            return None;
        }
        self.activities.frame(q)
    }

    /// A copy of the frame of what processor `q` holds, if it holds anything.
    ///
    /// # Errors
    ///
    /// `AllocError` where memory is refused, which is wanted only where it does.
    pub fn frame(&self, q: usize) -> Result<Option<Frame>, AllocError>
        ensures ok { IfOk result (λ o. option_map frame_of o ≡ frame_at q (point_at self.now)) }
        ensures memory { OnErr result (is_some (frame_at q (point_at self.now)) ≡ true) }
    {
        match self.held_frame(q) {
            Some(frame) => Ok(Some(frame.try_copy()?)),
            None => Ok(None),
        }
    }

    /// Processor `q` makes the shared step of what it holds.
    fn share(&mut self, q: usize, holder: Holder) -> Result<Stepped, AllocError>
        requires going { IsGoing self.old }
        requires processor { q < self.old.schedule.processors }
        requires holds { held_of self.old.kept.held q ≡ Some (who holder) }
        ensures ok { IfOk result (λ stepped. Steps self.old q stepped self.new) }
        ensures err { OnErr result (self.new ≡ self.old) }
    {
        let went = match recording::share(
            &mut self.activities,
            &mut self.schedule,
            &mut self.tally,
            q,
            holder,
        ) {
            Ok(went) => went,
            Err(error) => return Err(error),
        };
        if went {
            return Ok(Stepped::Went(None));
        }
        Ok(Stepped::Idle)
    }

    /// Processor `q` takes this up.
    fn take(&mut self, q: usize, choice: Choice) -> Result<Stepped, AllocError>
        requires going { IsGoing self.old }
        requires processor { q < self.old.schedule.processors }
        ensures ok { IfOk result (λ stepped. PicksUp self.old q (chosen choice) stepped self.new) }
        ensures err { OnErr result (self.new ≡ self.old) }
    {
        let ticket = self.activities.shared.kernel.next_ticket();
        let went = match recording::pick(
            &mut self.activities,
            &mut self.schedule,
            &mut self.tally,
            q,
            choice,
        ) {
            Ok(went) => went,
            Err(error) => return Err(error),
        };
        if went {
            return Ok(Stepped::Went(begun_by(choice, ticket)));
        }
        Ok(Stepped::Idle)
    }

    /// Processor `q` makes a shared step of what it holds. Where it holds nothing it picks: what
    /// became ready first, and a ticket only where nothing is ready. Where memory is refused
    /// nothing changes.
    pub fn step(&mut self, q: usize) -> Result<Stepped, AllocError>
        ensures ok { IfOk result (λ stepped. Steps self.old q stepped self.new) }
        ensures goes_on { KeepsGoing self.old }
        ensures went { IfOk result (WentOrLocal self.old q) }
        ensures err { OnErr result (self.new ≡ self.old) }
        ensures memory { OnErr result (MayTry self.old q) }
    {
        if self.activities.shared.ended.is_some() {
            return Ok(Stepped::Ended);
        }
        if q >= self.activities.held.len() {
            return Ok(Stepped::Idle);
        }
        match self.activities.held[q] {
            Some(holder) => self.share(q, holder),
            None => {
                let choice = self.activities.choice();
                self.take(q, choice)
            }
        }
    }

    /// Processor `q`, which holds nothing, takes this up where it may. Where memory is refused
    /// nothing changes.
    pub fn pick(&mut self, q: usize, choice: Choice) -> Result<Stepped, AllocError>
        ensures ok { IfOk result (λ stepped. PicksUp self.old q (chosen choice) stepped self.new) }
        ensures err { OnErr result (self.new ≡ self.old) }
        ensures memory { OnErr result (MayTry self.old q) }
    {
        if self.activities.shared.ended.is_some() {
            return Ok(Stepped::Ended);
        }
        if q >= self.activities.held.len() {
            return Ok(Stepped::Idle);
        }
        self.take(q, choice)
    }

    /// As many local instructions as stand next of what processor `q` holds, at most `n`, which is
    /// from 1 to 1,024, in its own place; how many. Where memory is refused nothing changes.
    pub fn labour(&mut self, q: usize, n: u32) -> Result<u32, AllocError>
        requires some { 1 ≤ n }
        requires few { n ≤ 1024 }
        ensures made { IfOk result (λ made. Labours self.old q made self.new) }
        ensures all { IfOk result (λ made. made < n → IsDone self.new q) }
        ensures few { IfOk result (λ made. made ≤ n) }
        ensures err { OnErr result (self.new ≡ self.old) }
        ensures memory { OnErr result (MayTry self.old q) }
    {
        if self.activities.shared.ended.is_some() {
            return Ok(0);
        }
        if q >= self.activities.held.len() {
            return Ok(0);
        }
        let made = match recording::labour(
            &mut self.activities,
            &mut self.schedule,
            &mut self.tally,
            q,
            n,
        ) {
            Ok(made) => made,
            Err(error) => return Err(error),
        };
        Ok(made)
    }

    /// Local instructions, loads and stores of what processor `q` holds, in its own place, at most
    /// `n`, as far as the code alone tells their kinds; how many. Where memory is refused nothing
    /// changes.
    fn stride_on(&mut self, q: usize, n: u32, legs: &Legs<'_>) -> Result<u32, AllocError>
        requires own { code_of legs.now.code.now ≡ self.old.code }
        requires processor { q < self.old.schedule.processors }
        requires few { n ≤ 1024 }
        ensures made { IfOk result (λ made. Strides self.old q made self.new) }
        ensures few { IfOk result (λ made. made ≤ n) }
        ensures err { OnErr result (self.new ≡ self.old) }
    {
        let made = match striding::stride(
            &mut self.activities,
            &mut self.schedule,
            &mut self.tally,
            legs,
            q,
            n,
        ) {
            Ok(made) => made,
            Err(error) => return Err(error),
        };
        Ok(made)
    }

    /// Local instructions, loads and stores of what processor `q` holds, in its own place, at most
    /// `n`, which is from 1 to 1,024; how many. Where memory is refused before the first of them
    /// nothing changes.
    #[tactic(auto, using(crate::proofs::Strode::holds_first))]
    pub fn stride(&mut self, q: usize, n: u32, legs: &Legs<'_>) -> Result<u32, AllocError>
        requires own { code_of legs.now.code.now ≡ self.old.code }
        requires some { 1 ≤ n }
        requires few { n ≤ 1024 }
        ensures made { IfOk result (λ made. Strides self.old q made self.new) }
        ensures few { IfOk result (λ made. made ≤ n) }
        ensures err { OnErr result (self.new ≡ self.old) }
    {
        if self.activities.shared.ended.is_some() {
            return Ok(0);
        }
        if q >= self.activities.held.len() {
            return Ok(0);
        }
        let mut made = self.stride_on(q, n, legs)?;
        let mut goes = made > 0;
        while goes && made < n {
            match self.stride_on(q, n - made, legs) {
                Ok(more) => {
                    made += more;
                    goes = more > 0;
                }
                Err(_) => goes = false,
            }
        }
        Ok(made)
    }

    /// Whether local work leads from the frame of what processor `q` holds, in this code.
    fn is_from(&self, q: usize, done: &Done<'_>) -> bool
        ensures { Decides result
            (IsFrom self.now q (code_of done.now.code.now) (frame_of done.now.from)) }
    {
        match self.held_frame(q) {
            Some(frame) => frame.is_same(done.from()) && self.activities.code.is_same(done.code()),
            None => false,
        }
    }

    /// Whether local work leads from the frame of what processor `q` holds.
    fn is_at(&self, q: usize, work: &Work<'_>) -> bool
        ensures { Decides result (HasFrame self.now q (frame_of work.now.from)) }
    {
        match self.held_frame(q) {
            Some(frame) => frame.is_same(&work.from),
            None => false,
        }
    }

    /// What processor `q` holds gets the frame to which local work leads, in this code, from its
    /// own.
    fn put(&mut self, q: usize, done: Done<'_>) -> Result<(), HandIn>
        requires going { IsGoing self.old }
        requires from { IsFrom self.old q (code_of done.code.now) (frame_of done.from) }
        ensures ok { OnOk result
            (HandsIn self.old q (code_of done.entry.code.now) (frame_of done.entry.from)
            done.entry.made self.new) }
        ensures frame { OnOk result (frame_at q (point_at self.new)
            ≡ Some (frame_of done.entry.to)) }
        ensures refused { IfErr result
            (CannotHandIn self.old q (code_of done.entry.code.now) (frame_of done.entry.from)) }
        ensures err { OnErr result (self.new ≡ self.old) }
    {
        let made = done.made();
        let to = done.into_frame();
        if let Err(error) = recording::put(
            &mut self.activities,
            &mut self.schedule,
            &mut self.tally,
            q,
            to,
            made,
        ) {
            return Err(error.into());
        }
        Ok(())
    }

    /// What processor `q` holds gets the frame to which local work leads from its own.
    ///
    /// # Errors
    ///
    /// `Ended` where the run had ended; otherwise `Stranger` where the processor holds no activity,
    /// or one with another frame, or the work is of other code; and want of memory. Nothing has
    /// changed then.
    pub fn hand_in(&mut self, q: usize, done: Done<'_>) -> Result<(), HandIn>
        ensures ok { OnOk result
            (HandsIn self.old q (code_of done.entry.code.now) (frame_of done.entry.from)
            done.entry.made self.new) }
        ensures frame { OnOk result (frame_at q (point_at self.new)
            ≡ Some (frame_of done.entry.to)) }
        ensures refused { IfErr result
            (CannotHandIn self.old q (code_of done.entry.code.now) (frame_of done.entry.from)) }
        ensures err { OnErr result (self.new ≡ self.old) }
    {
        if self.has_ended() {
            return Err(HandIn::Ended);
        }
        if !self.is_from(q, &done) {
            return Err(HandIn::Stranger);
        }
        self.put(q, done)
    }

    /// What processor `q` holds gets the frame to which local work of the core's own code leads
    /// from its own.
    fn put_work(&mut self, q: usize, work: &mut Work<'_>) -> Result<(), HandIn>
        requires going { IsGoing self.old }
        requires some { 1 ≤ work.old.made }
        requires from { IsFrom self.old q (code_of work.old.code.now) (frame_of work.old.from) }
        ensures ok { OnOk result (HandsInWork self.old q work.old self.new) }
        ensures frame { OnOk result (HasFrame self.new q (frame_of work.old.to)) }
        ensures spent { OnOk result (IsSpent work.old work.new) }
        ensures refused { IfErr result (CannotHandInWork self.old q work.old) }
        ensures err { OnErr result (self.new ≡ self.old) }
        ensures kept { OnErr result (work_of work.new ≡ work_of work.old) }
    {
        if let Err(error) = recording::put_all(
            &mut self.activities,
            &mut self.schedule,
            &mut self.tally,
            q,
            &mut work.to,
            work.made,
        ) {
            return Err(error.into());
        }
        work.made = 0;
        Ok(())
    }

    /// As `hand_in`, of local work of any length of which the caller knows that it is of the core's
    /// own code: codes are not compared, so that it takes no longer where the code is longer. The
    /// schedule grows by as many entries as it takes, each as long as it may be, and memory is
    /// taken for them alone. None of the work is left to be handed in then.
    ///
    /// # Errors
    ///
    /// Those of `hand_in`. The work hasn't changed then either.
    pub fn hand_in_own(&mut self, q: usize, work: &mut Work<'_>) -> Result<(), HandIn>
        requires own { code_of work.old.code.now ≡ self.old.code }
        requires some { 1 ≤ work.old.made }
        ensures ok { OnOk result (HandsInWork self.old q work.old self.new) }
        ensures frame { OnOk result (HasFrame self.new q (frame_of work.old.to)) }
        ensures spent { OnOk result (IsSpent work.old work.new) }
        ensures refused { IfErr result (CannotHandInWork self.old q work.old) }
        ensures err { OnErr result (self.new ≡ self.old) }
        ensures kept { OnErr result (work_of work.new ≡ work_of work.old) }
    {
        if self.has_ended() {
            Err(HandIn::Ended)
        } else if self.is_at(q, work) {
            self.put_work(q, work)
        } else {
            Err(HandIn::Stranger)
        }
    }

    /// Room for local work of the core's code, of which none has been done.
    ///
    /// # Errors
    ///
    /// `AllocError` where memory is refused.
    pub fn work(&self) -> Result<Work<'c>, AllocError>
        ensures code { IfOk result (λ work. code_of work.code.now ≡ self.now.code) }
        ensures none { IfOk result (λ work. work.made ≡ 0) }
    {
        let alloc = *self.activities.shared.output.allocator();
        Work::new(alloc, self.activities.code)
    }

    /// Loads the frame of what processor `q` holds, where a local instruction of it stands next,
    /// and tells whether one does. Where none does, or memory is refused, the work hasn't changed.
    pub fn load(&self, q: usize, work: &mut Work<'_>) -> Result<bool, AllocError>
        ensures ok { IfOk result (Loads self.now q work.old work.new) }
        ensures code { code_of work.new.code.now ≡ code_of work.old.code.now }
        ensures memory { OnErr result (HasLocal self.now q) }
        ensures err { OnErr result (work_of work.new ≡ work_of work.old) }
    {
        match self.held_frame(q) {
            Some(frame) => {
                if !stands_local(self.activities.code, frame) {
                    return Ok(false);
                }
                work.load(frame)?;
                Ok(true)
            }
            None => Ok(false),
        }
    }

    /// Whether processor `q` holds an activity.
    pub fn holds(&self, q: usize) -> bool
        ensures { result ≡ is_some (frame_at q (point_at self.now)) }
    {
        if q >= self.activities.held.len() {
            return false;
        }
        self.activities.holds(q)
    }

    /// Whether a local instruction of what processor `q` holds stands next.
    pub fn is_local(&self, q: usize) -> bool
        ensures { result ≡ local_in self.now.code (frame_at q (point_at self.now)) }
    {
        match self.held_frame(q) {
            Some(frame) => stands_local(self.activities.code, frame),
            None => false,
        }
    }

    /// Whether the run has ended.
    pub fn has_ended(&self) -> bool
        ensures { result ≡ is_some (point_at self.now).machine.ended }
    {
        self.activities.shared.ended.is_some()
    }

    /// Whether an activity is ready: parked, and what it waits for has been reached.
    pub fn has_ready(&self) -> bool
        ensures { result ≡ is_some (first_of (point_at self.now).order.ready) }
    {
        self.activities.shared.kernel.first_ready().is_some()
    }

    /// Whether the next iteration of an open loop may begin.
    pub fn has_ticket(&self) -> bool
        ensures { result ≡ has_ticket self.now.schedule.slots (point_at self.now).machine }
    {
        self.activities.may_begin()
    }

    /// How many iterations are open.
    pub fn overlap(&self) -> u128
        ensures { result ≡ (point_at self.now).machine.ticket -
            (point_at self.now).machine.retired }
    {
        self.activities.overlap()
    }

    /// What a processor that holds nothing takes up so that iterations retire early: main where it
    /// is ready, else the least iteration that is, and a ticket only where nothing is ready.
    pub fn least(&self) -> Choice
        ensures { IsLeast (point_at self.now).machine (chosen result) }
    {
        self.activities.least()
    }

    /// How many steps were made, and how many of them parked an activity or took up a parked one.
    pub fn tally(&self) -> Tally
        ensures { Tallies Second self.now.code self.now.schedule.slots
            (beginning self.now.code self.now.input self.now.schedule.slots)
            self.now.schedule.entries (point_at self.now) result.made result.again }
    {
        self.tally
    }

    /// The answer, where the run has ended. Ended or not, the schedule leads to where it is.
    ///
    /// # Errors
    ///
    /// `AllocError` where memory is refused, which is wanted only there.
    pub fn answer(&self) -> Result<Option<Answer>, AllocError>
        ensures some { IfOk result (λ o.
            IfSome o (IsAnswer self.now.code (point_at self.now).machine)) }
        ensures none { IfOk result (λ o. o ≡ None → IsGoing self.now) }
        ensures memory { OnErr result (HasEnded self.now) }
        ensures recorded { IsRecorded self.now }
    {
        let shared = &self.activities.shared;
        let Some(end) = shared.ended else {
            return Ok(None);
        };
        let alloc = *shared.output.allocator();
        let mut output = Vec::new(alloc);
        output.extend_from_slice(&shared.output)?;
        Ok(Some(answer(alloc, self.activities.code, &shared.cells, output, end)?))
    }

    /// What has gone out so far, and the schedule, which leads there.
    pub fn into_parts(self) -> (Vec<u8>, Schedule)
        ensures output { result.0.items ≡ (point_at self.entry).machine.output }
        ensures schedule { result.1 ≡ self.entry.schedule }
        ensures recorded { IsRecorded self.entry }
    {
        let Core {
            input: _,
            activities,
            schedule,
            tally: _,
        } = self;
        (output_of(activities), schedule)
    }
}
