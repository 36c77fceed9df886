//! A run without a record.

ghost use Rattle.std.specs.Prelude.{◌≡◌};

use activities::{Activities, Choice, Drafted, Holder, Shared};
use ast::Answer;
use machine::{Code, Frame, Next, Open, Work, stands_local, stands_next};
use replay::{CoreRefusal, HandIn, answer};
use schedules::{MOST_PROCESSORS, MOST_SLOTS};
use std::alloc::{AllocError, Global};
use std::marker::Model;
use stretches::{Mirror, Stale, Stretch, passes};

/// What has gone out.
fn output_of(activities: Activities<'_>) -> Vec<u8>
    ensures { result.items ≡ activities.entry.shared.output.items }
{
    let Activities { shared, .. } = activities;
    let Shared { output, .. } = shared;
    output
}

/// A run of code on an input, of which no schedule is kept. Its memory grows only with what is
/// printed.
pub struct Run<'c> {
    input: &'c [u8],
    activities: Activities<'c>,
}

impl Drop for Run<'_> {
    fn drop(self) {
        let Run {
            input: _,
            activities: _,
        } = self;
    }
}

impl<'c> Model for Run<'c> {
    ghost use Rattle.unrecorded.specs.View.{RunView};

    ghost Value = { RunView };

    ghost use Rattle.unrecorded.specs.Whole.{IsWhole, seen_as};

    ghost view = { λ r. seen_as r.input.now r.activities };

    ghost invariant = { λ r. IsWhole r.input.now r.activities };
}

impl<'c> Run<'c> {
    ghost use Rattle.std.specs.Bool.{Decides};
    ghost use Rattle.std.specs.Prelude.{◌≡◌, ◌<◌, ◌≤◌, ◌+◌, ◌-◌, IfOk, IfErr, IfSome, OnErr, OnOk};
    ghost use Rattle.std.specs.Prelude.{None, is_some, option_map, true};
    ghost use Rattle.ec_kernel.specs.View.{first_of};
    ghost use Rattle.machine.specs.CodeView.{code_of};
    ghost use Rattle.machine.specs.FrameView.{frame_of};
    ghost use Rattle.machine.specs.WorkView.{IsSpent, work_of};
    ghost use Rattle.activities.specs.Activities.{chosen, frame_at};
    ghost use Rattle.activities.specs.Least.{IsLeast, has_ticket};
    ghost use Rattle.activities.specs.Points.{NoLocal};
    ghost use Rattle.replay.specs.Replayed.{IsAnswer};
    ghost use Rattle.replay.specs.Stepping.{NoCore};
    ghost use Rattle.unrecorded.specs.Handing.{CannotHandIn, HandsIn, HasFrame, Loads, is_local};
    ghost use Rattle.unrecorded.specs.View.{Drives, GoesOn, HasEnded, IsGoing, IsNew, IsRun};
    ghost use Rattle.unrecorded.specs.View.{Labours};
    ghost use Rattle.unrecorded.specs.View.{Shares, TakesUp, point_at};

    /// A run at its beginning, of `p` processors, 1 to 64, with `s` iterations open at most, 1 to
    /// 256.
    ///
    /// # Errors
    ///
    /// `OutOfRange` where p or s is out of its range; and want of memory.
    pub fn new(
        alloc: Global,
        code: &'c Code,
        input: &'c [u8],
        p: u64,
        s: u64,
    ) -> Result<Run<'c>, CoreRefusal>
        ensures new { IfOk result (IsNew (code_of code.now) input.now p s) }
        ensures refused { IfErr result (NoCore p s) }
    {
        if p < 1 || p > u64::from(MOST_PROCESSORS) || s < 1 || s > u64::from(MOST_SLOTS) {
            return Err(CoreRefusal::OutOfRange);
        }
        let activities = Activities::new(alloc, code, input, p as usize, s as usize)?;
        Ok(Run { input, activities })
    }

    /// How many processors there are, 1 to 64.
    pub fn processors(&self) -> usize
        ensures { result ≡ self.now.processors }
    {
        self.activities.held.len()
    }

    /// Whether the run has ended.
    pub fn has_ended(&self) -> bool
        ensures { result ≡ is_some (point_at self.now).machine.ended }
    {
        self.activities.shared.ended.is_some()
    }

    /// Whether processor `q` holds an activity.
    pub fn holds(&self, q: usize) -> bool
        requires processor { q < self.now.processors }
        ensures { result ≡ is_some (frame_at q (point_at self.now)) }
    {
        self.activities.holds(q)
    }

    /// Whether an activity is ready: parked, and what it waits for has been reached.
    pub fn has_ready(&self) -> bool
        ensures { result ≡ is_some (first_of (point_at self.now).order.ready) }
    {
        self.activities.shared.kernel.first_ready().is_some()
    }

    /// Whether the next iteration of an open loop may begin.
    pub fn has_ticket(&self) -> bool
        ensures { result ≡ has_ticket self.now.slots (point_at self.now).machine }
    {
        self.activities.may_begin()
    }

    /// The number of the iteration that the next ticket begins.
    pub fn next_ticket(&self) -> u128
        ensures { result ≡ (point_at self.now).machine.ticket }
    {
        self.activities.shared.kernel.next_ticket()
    }

    /// How many iterations are open.
    pub fn overlap(&self) -> u128
        ensures { result ≡ (point_at self.now).machine.ticket -
            (point_at self.now).machine.retired }
    {
        self.activities.overlap()
    }

    /// The loop that is open, if any.
    pub fn open_loop(&self) -> Option<Open>
        ensures { result ≡ (point_at self.now).machine.loop }
    {
        self.activities.shared.open
    }

    /// What a processor that holds nothing takes up so that iterations retire early: main where it
    /// is ready, else the least iteration that is, and a ticket only where nothing is ready.
    pub fn least(&self) -> Choice
        ensures { IsLeast (point_at self.now).machine (chosen result) }
    {
        self.activities.least()
    }

    /// Processor `q` makes the shared step of what it holds. Where there is none it answers false,
    /// and nothing changes, as where memory is refused.
    pub fn share(&mut self, q: usize) -> Result<bool, AllocError>
        requires processor { q < self.old.processors }
        ensures did { IfOk result (λ did. Shares did self.old q self.new) }
        ensures err { OnErr result (self.new ≡ self.old) }
    {
        self.activities.share(q)
    }

    /// Processor `q`, which holds nothing, takes this up. Where it can't it answers false, and
    /// nothing changes, as where memory is refused.
    pub fn pick(&mut self, q: usize, choice: Choice) -> Result<bool, AllocError>
        requires processor { q < self.old.processors }
        ensures did { IfOk result (λ did. TakesUp did self.old q (chosen choice) self.new) }
        ensures err { OnErr result (self.new ≡ self.old) }
    {
        self.activities.pick(q, choice)
    }

    /// As many local instructions of what processor `q` holds as stand next, at most `n`, in its
    /// own place; how many.
    pub fn work(&mut self, q: usize, n: u32) -> u32
        requires processor { q < self.old.processors }
        ensures drives { Drives self.old q result self.new }
        ensures all { result < n → NoLocal self.old.code self.old.slots (point_at self.new) q }
        ensures few { result ≤ n }
    {
        self.activities.labour(q, n)
    }

    /// Processor `q` makes the local instruction of what it holds that stands next. Where none does
    /// it answers false, and the run stands where it stood.
    pub fn labour(&mut self, q: usize) -> bool
        requires processor { q < self.old.processors }
        ensures { Labours result self.old q self.new }
    {
        self.activities.labour(q, 1) == 1
    }

    /// Steps of what processor `q` holds, one after another, at most `n`, in its own place; how
    /// many: local instructions, loads and stores, and what an iteration awaits or advances, and
    /// its retirement. Where `begins` says so, and no activity is ready, it begins iterations too,
    /// each of which is a step. A step for which memory is refused isn't made. Cells that were
    /// stored to in place are stale.
    pub fn proceed(&mut self, q: usize, n: u32, begins: bool, stale: &mut Stale) -> u32
        requires processor { q < self.old.processors }
        ensures proceeds { GoesOn begins self.old q result self.new }
        ensures few { result ≤ n }
    {
        self.activities.proceed(q, n, begins, stale)
    }

    /// The frame of what processor `q` holds.
    fn held_frame(&self, q: usize) -> Option<&Frame>
        requires processor { q < self.now.processors }
        ensures { option_map (λ f. frame_of f.now) result ≡ frame_at q (point_at self.now) }
    {
        self.activities.frame(q)
    }

    /// Whether local work leads from the frame of what processor `q` holds.
    fn is_at(&self, q: usize, work: &Work<'_>) -> bool
        requires processor { q < self.now.processors }
        ensures { Decides result (HasFrame self.now q (frame_of work.now.from)) }
    {
        match self.held_frame(q) {
            Some(frame) => frame.is_same(&work.from),
            None => false,
        }
    }

    /// Loads the frame of what processor `q` holds, where a local instruction of it stands next,
    /// and tells whether one does. Where none does, or memory is refused, the work hasn't changed.
    pub fn load(&self, q: usize, work: &mut Work<'_>) -> Result<bool, AllocError>
        requires processor { q < self.now.processors }
        ensures ok { IfOk result (Loads self.now q work.old work.new) }
        ensures code { code_of work.new.code.now ≡ code_of work.old.code.now }
        ensures memory { OnErr result (is_local self.now q ≡ true) }
        ensures err { OnErr result (work_of work.new ≡ work_of work.old) }
    {
        match self.held_frame(q) {
            Some(frame) => {
                if !stands_local(self.activities.code, frame) {
                    return Ok(false);
                }
                work.load(frame)?;
                Ok(true)
            }
            None => Ok(false),
        }
    }

    /// What processor `q` holds gets the frame to which local work of the run's own code leads from
    /// its own, and none of the work is left. Codes aren't compared.
    fn put(&mut self, q: usize, work: &mut Work<'_>)
        requires processor { q < self.old.processors }
        requires going { IsGoing self.old }
        requires own { code_of work.old.code.now ≡ self.old.code }
        requires some { 1 ≤ work.old.made }
        requires from { HasFrame self.old q (frame_of work.old.from) }
        ensures made { HandsIn self.old q work.old self.new }
        ensures spent { IsSpent work.old work.new }
    {
        self.activities.put(q, &mut work.to);
        work.made = 0;
    }

    /// What processor `q` holds gets the frame to which local work leads from its own. The caller
    /// knows that the work is of the run's own code. None of it is left then.
    ///
    /// # Errors
    ///
    /// `Ended` where the run had ended; otherwise `Stranger` where the processor holds no activity,
    /// or one with another frame. Nothing has changed then.
    pub fn hand_in(&mut self, q: usize, work: &mut Work<'_>) -> Result<(), HandIn>
        requires processor { q < self.old.processors }
        requires own { code_of work.old.code.now ≡ self.old.code }
        requires some { 1 ≤ work.old.made }
        ensures ok { OnOk result (HandsIn self.old q work.old self.new) }
        ensures spent { OnOk result (IsSpent work.old work.new) }
        ensures refused { IfErr result (CannotHandIn self.old q work.old) }
        ensures err { OnErr result (self.new ≡ self.old) }
        ensures kept { OnErr result (work_of work.new ≡ work_of work.old) }
    {
        if self.has_ended() {
            return Err(HandIn::Ended);
        }
        if !self.is_at(q, work) {
            return Err(HandIn::Stranger);
        }
        self.put(q, work);
        Ok(())
    }

    /// Writes the counts of events, from event 0 on, as far as there are some and there is room,
    /// for those who are to pass awaits by them. No clause says that they are right: `commit`
    /// compares them.
    pub fn see_counts(&self, seen: &mut [u128]) {
        self.activities.see_counts(seen);
    }

    /// The number of the iteration that processor `q` holds, if it holds one.
    fn iteration(&self, q: usize) -> Option<u128>
        requires processor { q < self.now.processors }
    {
        match self.activities.held[q] {
            Some(Holder::Iteration { number, .. }) => Some(number),
            None | Some(Holder::Main) => None,
        }
    }

    /// Whether a stretch that passes awaits by these counts could begin at a frame of an iteration:
    /// a local instruction, a load, a store or such an await stands next.
    fn begins_stretch(&self, frame: &Frame, number: u128, counts: &[u128]) -> bool {
        match stands_next(self.activities.code, frame) {
            Next::Local | Next::Load { .. } | Next::Store { .. } => true,
            Next::Await { event, distance } => passes(counts, number, event, distance),
            _ => false,
        }
    }

    /// Loads a stretch with the frame of the iteration that processor `q` holds, where one that
    /// passes awaits by these counts could begin there, and tells whether one could.
    ///
    /// # Errors
    ///
    /// `AllocError` where memory is refused. The stretch leads nowhere then.
    pub fn load_stretch(
        &self,
        q: usize,
        counts: &[u128],
        stretch: &mut Stretch<'_>,
    ) -> Result<bool, AllocError>
        requires processor { q < self.now.processors }
        ensures ok { IfOk result (λ did. did ≡ true
            → HasFrame self.now q (frame_of stretch.new.from)) }
        ensures code { code_of stretch.new.code.now ≡ code_of stretch.old.code.now }
    {
        let Some(number) = self.iteration(q) else {
            return Ok(false);
        };
        match self.held_frame(q) {
            Some(frame) => {
                if !self.begins_stretch(frame, number, counts) {
                    return Ok(false);
                }
                stretch.load(frame, number, counts)?;
                Ok(true)
            }
            None => Ok(false),
        }
    }

    /// The steps of a stretch of the run's own code are made of the iteration that processor `q`
    /// holds, where it is in the frame from which they lead, and all that was guessed is right; how
    /// many. Else nothing changes.
    pub fn commit(&mut self, q: usize, stretch: &mut Stretch<'_>) -> u32
        requires processor { q < self.old.processors }
        requires own { code_of stretch.old.code.now ≡ self.old.code }
        ensures drives { Drives self.old q result self.new }
        ensures few { result ≤ stretch.old.made }
        ensures code { code_of stretch.new.code.now ≡ code_of stretch.old.code.now }
    {
        self.activities.commit(q, stretch)
    }

    /// Processor `q` begins the next iteration, where it holds nothing, an iteration may begin and
    /// no activity is ready, makes the steps of a stretch of it, if all that was guessed is right,
    /// and then others, at most `n` with its beginning. A stretch that is wrong changes nothing.
    pub fn run_draft(
        &mut self,
        q: usize,
        stretch: &mut Stretch<'_>,
        n: u32,
        stale: &mut Stale,
    ) -> Drafted
        requires processor { q < self.old.processors }
        requires own { code_of stretch.old.code.now ≡ self.old.code }
        ensures made { GoesOn true self.old q (result.more + result.followed) self.new }
        ensures few { (result.followed ≤ stretch.old.made) × (result.more ≤ n) }
        ensures code { code_of stretch.new.code.now ≡ code_of stretch.old.code.now }
    {
        self.activities.run_draft(q, stretch, n, stale)
    }

    /// A mirror is to show the true values of all stale cells.
    pub fn show(&self, stale: &mut Stale, mirror: &Mirror) {
        stale.show(&self.activities.shared.cells, mirror);
    }

    /// The mirror of a stretch is to show the true values of all cells that it guessed.
    pub fn mend(&self, stretch: &Stretch<'_>) {
        stretch.mend(&self.activities.shared.cells);
    }

    /// What has gone out. A run of the machine leads to where it is.
    pub fn output(&self) -> &[u8]
        ensures output { result.now ≡ (point_at self.now).machine.output }
        ensures reached { IsRun self.now }
    {
        &self.activities.shared.output
    }

    /// The answer, where the run has ended. A run of the machine leads to where it is.
    ///
    /// # Errors
    ///
    /// `AllocError` where memory is refused, which is wanted only there.
    pub fn answer(&self) -> Result<Option<Answer>, AllocError>
        ensures some { IfOk result (λ o.
            IfSome o (IsAnswer self.now.code (point_at self.now).machine)) }
        ensures none { IfOk result (λ o. o ≡ None → IsGoing self.now) }
        ensures memory { OnErr result (HasEnded self.now) }
        ensures reached { IsRun self.now }
    {
        let shared = &self.activities.shared;
        let Some(end) = shared.ended else {
            return Ok(None);
        };
        let alloc = *shared.output.allocator();
        let mut output = Vec::new(alloc);
        output.extend_from_slice(&shared.output)?;
        Ok(Some(answer(alloc, self.activities.code, &shared.cells, output, end)?))
    }

    /// What has gone out so far. A run of the machine leads to where it was.
    pub fn into_output(self) -> Vec<u8>
        ensures output { result.items ≡ (point_at self.entry).machine.output }
        ensures reached { IsRun self.entry }
    {
        let Run {
            input: _,
            activities,
        } = self;
        output_of(activities)
    }
}
