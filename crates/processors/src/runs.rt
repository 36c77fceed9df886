//! Runs of a call, with a schedule of what is done and without one.

mod chunks;

use crate::call::Call;
use crate::dispatcher::Dispatcher;
use crate::driven::{Advanced, Driven, Handed, Onward, Pace, Trial};
use crate::report::{Effort, Report, RunRefusal};
use crate::telling::Told;
use crate::work::{Coded, Loaded, Own};
use ast::Answer;
use replay::{Choice, Core, HandIn, Legs, Stepped};
use std::alloc::AllocError;
use std::marker::{Model, PhantomData};
use std::sync::Wait;
use stretches::Stale;
use unrecorded::Run;

/// How many steps are made in place in a row, at most, before it is asked again whether more are
/// made outside the lock.
const MOST_IN_PLACE: u32 = 1_024;

/// So many entries of a schedule, at most, hold the steps that are made in place in a row where
/// they are local.
const FEW_ENTRIES: usize = 2;

/// How many steps are made in place in a row, at most, by the only processor of a run, and of an
/// iteration whose draft was handed in.
const MOST_ALONE: u32 = 4096;

/// How often in one go steps are made in place and then one of another kind, at most.
const MOST_ROUNDS: u32 = 64;

/// In one go no more rounds are begun after so many steps.
const MOST_STEPS: u32 = 4096;

/// What a processor made in one go.
#[derive(Clone, Copy, Default)]
struct Made {
    steps: u32,
    /// How many iterations it began.
    begun: u32,
}

impl Made {
    /// So many steps more.
    fn add(&mut self, steps: u32) {
        self.steps = self.steps.saturating_add(steps);
    }

    /// So many iterations more.
    fn begin(&mut self, begun: u32) {
        self.begun = self.begun.saturating_add(begun);
    }

    /// With what the processor does next.
    fn and(self, onward: Onward) -> Advanced {
        Advanced {
            steps: self.steps,
            begun: self.begun,
            onward,
        }
    }
}

/// The core of a call's run, with the schedule of what its processors did.
#[derive(Drop)]
pub struct Recorded<'c, C: Call> {
    core: Core<'c>,
    /// Where the code alone tells the kinds of steps.
    legs: Legs<'c>,
    /// How many iterations were open at once, at most, as one began in one go.
    overlap: u128,
    of: PhantomData<C>,
}

impl<'c, C: Call> Model for Recorded<'c, C> {
    ghost use Rattle.std.specs.Prelude.{◌≡◌};
    ghost use Rattle.machine.specs.CodeView.{code_of};
    ghost use Rattle.replay.specs.CoreView.{CoreView};
    ghost use Rattle.processors.specs.Calls.{IsCoreOf};

    ghost Value = { CoreView };

    ghost view = { λ r. r.core };

    ghost invariant = { λ r. IsCoreOf C.code C.input C.processors C.slots r.core
        × (code_of r.legs.code.now ≡ C.code) };
}

impl<'c, C: Call> Recorded<'c, C> {
    ghost use Rattle.std.specs.Prelude.{◌≡◌, IfOk, IfErr, OnOk, false};
    ghost use Rattle.machine.specs.CodeView.{code_of};
    ghost use Rattle.processors.specs.Calls.{HasTally, IsCoreOf, IsRunOf};
    ghost use Rattle.processors.specs.Left.{HasNoLocal, HasNoStep, NoneSteps};
    ghost use Rattle.processors.specs.Refused.{IsGivenUp};
    ghost use Rattle.replay.specs.CoreView.{IsRecorded, point_at};
    ghost use Rattle.replay.specs.Replayed.{IsAnswer};
    ghost use Rattle.replay.specs.Stepping.{IsGoing};

    /// The run of a core of the call, with the legs of its code.
    pub fn new(core: Core<'c>, legs: Legs<'c>) -> Recorded<'c, C>
        requires of { IsCoreOf C.code C.input C.processors C.slots core }
        requires legs { code_of legs.code.now ≡ C.code }
    {
        Recorded {
            core,
            legs,
            overlap: 0,
            of: PhantomData,
        }
    }

    /// What has come of a run that was given up for want of memory.
    pub fn out_of_memory(self) -> RunRefusal
        ensures { IsGivenUp C.code C.input C.processors C.slots result }
    {
        let Recorded { core, .. } = self;
        let (output, _) = core.into_parts();
        RunRefusal::Memory { output }
    }

    /// What has come of a run that has ended with this answer.
    fn report_of(self, answer: Answer, efforts: Vec<Effort>, overlap: u128) -> Report
        requires { IsAnswer self.code (point_at self).machine answer }
        ensures run { IsRunOf C.code C.input C.processors C.slots result.answer result.schedule }
        ensures tally { HasTally C.code C.input C.slots result.schedule result.tally.made
            result.tally.again }
    {
        let Recorded {
            core,
            overlap: in_one_go,
            ..
        } = self;
        let tally = core.tally();
        let (_, schedule) = core.into_parts();
        Report {
            answer,
            schedule,
            tally,
            efforts,
            overlap: overlap.max(in_one_go),
        }
    }

    /// Processor `q` does local work, if any stands next.
    fn work(&mut self, q: usize, own: &mut Own<'_, C>) -> Result<bool, AllocError>
        ensures { IfOk result (λ did. did ≡ false → (self.new ≡ self.old) × HasNoLocal self.old q) }
    {
        if !self.core.load(q, &mut own.work)? {
            return Ok(false);
        }
        own.loaded = Loaded::Work;
        own.run()?;
        match self.hand_in(q, own) {
            Err(HandIn::Memory) => Err(AllocError),
            Ok(_) | Err(HandIn::Ended | HandIn::Stranger) => Ok(true),
        }
    }

    /// Processor `q` makes steps, if it has any.
    fn go_on(&mut self, q: usize, own: &mut Own<'_, C>) -> Result<bool, AllocError>
        ensures { IfOk result (λ did. did ≡ false → (self.new ≡ self.old) × HasNoStep self.old q) }
    {
        if self.core.has_ended() {
            return Ok(false);
        }
        if self.work(q, own)? {
            return Ok(true);
        }
        match self.core.step(q)? {
            Stepped::Went(_) => Ok(true),
            Stepped::Idle | Stepped::Ended => Ok(false),
        }
    }

    /// A processor makes steps, if any has one.
    fn one_goes_on(&mut self, own: &mut Own<'_, C>) -> Result<bool, AllocError>
        ensures { IfOk result (λ did. did ≡ false → NoneSteps self.new) }
    {
        for q in 0..self.core.processors() {
            if self.go_on(q, own)? {
                return Ok(true);
            }
        }
        Ok(false)
    }

    /// Processors make steps one after another until none has one.
    fn go_on_alone<R: Wait>(&mut self, rt: &R, own: &mut Own<'_, C>) -> Result<(), AllocError>
        ensures { OnOk result (NoneSteps self.new) }
    {
        for _ in rt.forever() {
            if !self.one_goes_on(own)? {
                return Ok(());
            }
        }
        unreachable!()
    }

    /// What is left to do of a run is done: its threads leave nothing, but their type doesn't say
    /// so.
    fn finish<R: Wait>(&mut self, rt: &R, coded: &Coded<'_, C>) -> Result<(), AllocError>
        ensures { OnOk result (NoneSteps self.new) }
    {
        let mut own = coded.own()?;
        self.go_on_alone(rt, &mut own)
    }

    /// What has come of a run that hasn't ended, and in which no processor has a step.
    fn stuck(self) -> RunRefusal
        requires going { IsGoing self }
        requires none { NoneSteps self }
        requires recorded { IsRecorded self }
        ensures { IsGivenUp C.code C.input C.processors C.slots result }
    {
        RunRefusal::Stuck
    }

    /// What has come of a run that has ended, or in which no processor has a step.
    ///
    /// # Errors
    ///
    /// That it is stuck where it hasn't ended; and want of memory for the answer.
    fn ended(self, efforts: Vec<Effort>, overlap: u128) -> Result<Report, RunRefusal>
        requires none { IsGoing self → NoneSteps self }
        ensures ok { IfOk result (λ r.
            IsRunOf C.code C.input C.processors C.slots r.answer r.schedule) }
        ensures tally { IfOk result (λ r.
            HasTally C.code C.input C.slots r.schedule r.tally.made r.tally.again) }
        ensures err { IfErr result (IsGivenUp C.code C.input C.processors C.slots) }
    {
        match self.core.answer() {
            Ok(Some(answer)) => Ok(self.report_of(answer, efforts, overlap)),
            Ok(None) => Err(self.stuck()),
            Err(_) => Err(self.out_of_memory()),
        }
    }

    /// Processor `q` makes local instructions, loads and stores in place; how many.
    fn stride(&mut self, q: usize, made: &mut Made) -> Result<u32, AllocError> {
        let steps = self.core.stride(q, MOST_IN_PLACE, &self.legs)?;
        made.add(steps);
        Ok(steps)
    }

    /// Processor `q` makes local instructions in place; what it does next, where there are none.
    fn labour(&mut self, q: usize, made: &mut Made) -> Result<Option<Onward>, AllocError> {
        let steps = self.core.labour(q, MOST_IN_PLACE)?;
        made.add(steps);
        Ok(if steps == 0 {
            Some(Onward::Shares)
        } else {
            None
        })
    }

    /// Whether the schedule has hardly more entries than so many.
    fn has_few_behind(&self, entries: usize) -> bool {
        self.core.schedule().len().saturating_sub(entries) <= FEW_ENTRIES
    }

    /// Processor `q`, which holds nothing, takes something up: an iteration that begins only where
    /// it may begin any; what it does next, where it is not to make more steps in place.
    fn take_up(
        &mut self,
        q: usize,
        begins: bool,
        made: &mut Made,
    ) -> Result<Option<Onward>, AllocError> {
        let choice = self.core.least();
        if choice == Choice::Ticket && !begins {
            return Ok(Some(Onward::Shares));
        }
        match self.core.pick(q, choice)? {
            Stepped::Went(Some(_)) => {
                made.add(1);
                made.begin(1);
                self.overlap = self.overlap.max(self.core.overlap());
                Ok(None)
            }
            Stepped::Went(None) => {
                made.add(1);
                Ok(None)
            }
            Stepped::Idle | Stepped::Ended => Ok(Some(Onward::Shares)),
        }
    }

    /// The shared step of processor `q`, or what it takes up; what it does next, where it is not to
    /// make more steps in place.
    fn move_on(
        &mut self,
        q: usize,
        begins: bool,
        made: &mut Made,
    ) -> Result<Option<Onward>, AllocError> {
        if !self.core.holds(q) {
            return self.take_up(q, begins, made);
        }
        match self.core.step(q)? {
            Stepped::Went(_) => {
                made.add(1);
                Ok(None)
            }
            // No clause says that strides are made wherever one stands next; local work always is.
            Stepped::Idle => self.labour(q, made),
            Stepped::Ended => Ok(Some(Onward::Shares)),
        }
    }

    /// Processor `q` makes local instructions, loads and stores in place, and then a step of
    /// another kind; where many local ones stand next and another processor could have the lock
    /// meanwhile, it loads them. What it does next, where it is not to make more in place.
    fn round(
        &mut self,
        q: usize,
        own: &mut Own<'_, C>,
        begins: bool,
        made: &mut Made,
    ) -> Result<Option<Onward>, AllocError> {
        let entries = self.core.schedule().len();
        if self.stride(q, made)? < MOST_IN_PLACE {
            return self.move_on(q, begins, made);
        }
        if self.has_few_behind(entries) && self.load(q, own)? {
            return Ok(Some(Onward::Works));
        }
        Ok(None)
    }

    /// What has come of a run that nobody gave up, or that can't go on.
    ///
    /// # Errors
    ///
    /// That it is stuck where it hasn't ended and no processor has a step; and want of memory, with
    /// the output.
    pub fn report<R: Wait>(
        mut self,
        rt: &R,
        coded: &Coded<'_, C>,
        efforts: Vec<Effort>,
        overlap: u128,
    ) -> Result<Report, RunRefusal>
        ensures ok { IfOk result (λ r.
            IsRunOf C.code C.input C.processors C.slots r.answer r.schedule) }
        ensures tally { IfOk result (λ r.
            HasTally C.code C.input C.slots r.schedule r.tally.made r.tally.again) }
        ensures err { IfErr result (IsGivenUp C.code C.input C.processors C.slots) }
    {
        if !self.core.has_ended() && self.finish(rt, coded).is_err() {
            return Err(self.out_of_memory());
        }
        self.ended(efforts, overlap)
    }
}

impl<'c, C: Call> Driven<C> for Recorded<'c, C> {
    fn processors(&self) -> usize {
        self.core.processors()
    }

    fn has_ended(&self) -> bool {
        self.core.has_ended()
    }

    fn holds(&self, q: usize) -> bool {
        self.core.holds(q)
    }

    fn has_ready(&self) -> bool {
        self.core.has_ready()
    }

    fn has_ticket(&self) -> bool {
        self.core.has_ticket()
    }

    fn overlap(&self) -> u128 {
        self.core.overlap()
    }

    fn open_loop(&self) -> usize {
        0
    }

    fn printed(&self) -> usize {
        0
    }

    fn tell(&self, _told: &mut Told<C>) {}

    fn load(&self, q: usize, own: &mut Own<'_, C>) -> Result<bool, AllocError> {
        let loads = self.core.load(q, &mut own.work)?;
        if loads {
            own.loaded = Loaded::Work;
        }
        Ok(loads)
    }

    fn hand_in(&mut self, q: usize, own: &mut Own<'_, C>) -> Result<Handed, HandIn> {
        let made = own.work.made;
        own.loaded = Loaded::Nothing;
        if made > 0 {
            self.core.hand_in_own(q, &mut own.work)?;
        }
        Ok(Handed::of(made))
    }

    fn advance(
        &mut self,
        q: usize,
        own: &mut Own<'_, C>,
        pace: Pace,
    ) -> Result<Advanced, AllocError> {
        let mut made = Made::default();
        for _ in 0..MOST_ROUNDS {
            if let Some(onward) = self.round(q, own, pace.begins, &mut made)? {
                return Ok(made.and(onward));
            }
            if made.steps >= MOST_STEPS {
                break;
            }
        }
        Ok(made.and(Onward::Pauses))
    }

    fn share(&mut self, q: usize) -> Result<Stepped, AllocError> {
        self.core.step(q)
    }

    fn pick(&mut self, q: usize) -> Result<Stepped, AllocError> {
        let choice = self.core.least();
        self.core.pick(q, choice)
    }
}

/// A call's run of which no schedule is kept.
#[derive(Drop)]
pub struct Unrecorded<'c, C: Call> {
    run: Run<'c>,
    /// The cells that the mirror may no longer show as they are.
    stale: Stale,
    dispatcher: Dispatcher,
    of: PhantomData<C>,
}

impl<'c, C: Call> Model for Unrecorded<'c, C> {
    ghost use Rattle.unrecorded.specs.View.{RunView};
    ghost use Rattle.processors.specs.Reached.{IsRunIn};
    ghost use Rattle.processors.specs.Telling.{MayTell};

    ghost Value = { RunView };

    ghost view = { λ u. u.run };

    ghost invariant = { λ u. IsRunIn C.code C.input C.processors C.slots u.run
        × MayTell C.streams C.code C.input C.processors C.slots C.text };
}

impl<'c, C: Call> Unrecorded<'c, C> {
    ghost use Rattle.std.specs.Prelude.{◌≡◌, ◌<◌, IfOk, IfErr, OnOk, false};
    ghost use Rattle.processors.specs.Left.{NoLocalIn, NoPickIn, NoStepIn, NoneStepsIn};
    ghost use Rattle.processors.specs.Reached.{IsAnswerOf, IsLeftAt, IsRunIn};
    ghost use Rattle.processors.specs.Telling.{MayTell, WasBegun};
    ghost use Rattle.unrecorded.specs.View.{IsGoing};

    /// A run of the call. None of its mirror's cells are stale.
    pub fn new(run: Run<'c>, stale: Stale) -> Unrecorded<'c, C>
        requires of { IsRunIn C.code C.input C.processors C.slots run }
        requires begins { MayTell C.streams C.code C.input C.processors C.slots C.text }
    {
        Unrecorded {
            run,
            stale,
            dispatcher: Dispatcher::default(),
            of: PhantomData,
        }
    }

    /// What has come of a run that was given up for want of memory.
    pub fn out_of_memory(self) -> RunRefusal
        ensures left { IsLeftAt C.code C.input C.processors C.slots result }
        ensures begun { WasBegun result }
    {
        let Unrecorded { run, .. } = self;
        RunRefusal::Memory {
            output: run.into_output(),
        }
    }

    /// Processor `q` does local work, if any stands next.
    fn work(&mut self, q: usize, own: &mut Own<'_, C>) -> Result<bool, AllocError>
        requires processor { q < self.old.processors }
        ensures { IfOk result (λ did. did ≡ false → (self.new ≡ self.old) × NoLocalIn self.old q) }
    {
        if !self.run.load(q, &mut own.work)? {
            return Ok(false);
        }
        own.loaded = Loaded::Work;
        own.run()?;
        match self.hand_in(q, own) {
            Err(HandIn::Memory) => Err(AllocError),
            Ok(_) | Err(HandIn::Ended | HandIn::Stranger) => Ok(true),
        }
    }

    /// Processor `q` takes something up, if it holds nothing and may.
    fn take(&mut self, q: usize) -> Result<bool, AllocError>
        requires processor { q < self.old.processors }
        ensures { IfOk result (λ did. did ≡ false → (self.new ≡ self.old) × NoPickIn self.old q) }
    {
        let choice = self.run.least();
        self.run.pick(q, choice)
    }

    /// Processor `q` makes steps, if it has any.
    fn go_on(&mut self, q: usize, own: &mut Own<'_, C>) -> Result<bool, AllocError>
        requires processor { q < self.old.processors }
        ensures { IfOk result (λ did. did ≡ false → (self.new ≡ self.old) × NoStepIn self.old q) }
    {
        if self.run.has_ended() {
            return Ok(false);
        }
        if self.work(q, own)? || self.run.share(q)? {
            return Ok(true);
        }
        self.take(q)
    }

    /// A processor makes steps, if any has one.
    fn one_goes_on(&mut self, own: &mut Own<'_, C>) -> Result<bool, AllocError>
        ensures { IfOk result (λ did. did ≡ false → NoneStepsIn self.new) }
    {
        for q in 0..self.run.processors() {
            if self.go_on(q, own)? {
                return Ok(true);
            }
        }
        Ok(false)
    }

    /// Processors make steps one after another until none has one.
    fn go_on_alone<R: Wait>(&mut self, rt: &R, own: &mut Own<'_, C>) -> Result<(), AllocError>
        ensures { OnOk result (NoneStepsIn self.new) }
    {
        for _ in rt.forever() {
            if !self.one_goes_on(own)? {
                return Ok(());
            }
        }
        unreachable!()
    }

    /// What is left to do of a run is done: its threads leave nothing, but their type doesn't say
    /// so.
    fn finish<R: Wait>(&mut self, rt: &R, coded: &Coded<'_, C>) -> Result<(), AllocError>
        ensures { OnOk result (NoneStepsIn self.new) }
    {
        let mut own = coded.own()?;
        self.go_on_alone(rt, &mut own)
    }

    /// What has come of a run that has ended, or in which no processor has a step.
    ///
    /// # Errors
    ///
    /// That it is stuck where it hasn't ended; and want of memory for the answer.
    fn ended(self) -> Result<Answer, RunRefusal>
        requires none { IsGoing self → NoneStepsIn self }
        ensures ok { IfOk result (IsAnswerOf C.code C.input C.processors C.slots) }
        ensures err { IfErr result (IsLeftAt C.code C.input C.processors C.slots) }
        ensures begun { IfErr result WasBegun }
    {
        match self.run.answer() {
            Ok(Some(answer)) => Ok(answer),
            Ok(None) => Err(RunRefusal::Stuck),
            Err(_) => Err(self.out_of_memory()),
        }
    }

    /// How many iterations have begun since the next ticket was this one.
    fn begun_since(&self, ticket: u128) -> u32 {
        let begun = self.run.next_ticket().saturating_sub(ticket);
        u32::try_from(begun).unwrap_or(u32::MAX)
    }

    /// Steps of processor `q` in place; whether as many as are made in a row. It begins iterations
    /// unless their steps are to be made outside the lock.
    fn proceed(&mut self, q: usize, pace: Pace, made: &mut Made) -> bool {
        let processors = self.run.processors();
        if q >= processors {
            return false;
        }
        let is_alone = processors == 1;
        let most = if is_alone { MOST_ALONE } else { MOST_IN_PLACE };
        let begins = pace.begins && (is_alone || !pace.stretches);
        let ticket = self.run.next_ticket();
        let steps = self.run.proceed(q, most, begins, &mut self.stale);
        made.add(steps);
        made.begin(self.begun_since(ticket));
        steps == most
    }

    /// Processor `q` loads a stretch, if it holds an iteration, another processor could have the
    /// lock meanwhile, and stretches weren't short of late.
    fn stretch(
        &mut self,
        q: usize,
        own: &mut Own<'_, C>,
        trial: Trial,
    ) -> Result<bool, AllocError> {
        let processors = self.run.processors();
        if q >= processors || processors == 1 || !own.pause.is_over(trial) {
            return Ok(false);
        }
        self.run.see_counts(&mut own.counts);
        let loads = self.run.load_stretch(q, &own.counts, &mut own.stretch)?;
        if loads {
            self.run.show(&mut self.stale, own.mirror);
            own.loaded = Loaded::Stretch;
        }
        Ok(loads)
    }

    /// The shared step of processor `q`, or what it takes up; what it does next, where it is not to
    /// make more steps in place.
    fn move_on(
        &mut self,
        q: usize,
        pace: Pace,
        made: &mut Made,
    ) -> Result<Option<Onward>, AllocError> {
        if q >= self.run.processors() {
            return Ok(Some(Onward::Shares));
        }
        if !self.run.holds(q) {
            return self.take_up(q, pace, made);
        }
        if self.run.share(q)? {
            made.add(1);
            return self.take_up(q, pace, made);
        }
        // No clause says that strides are made wherever one stands next; local work always is.
        let worked = self.run.work(q, MOST_IN_PLACE);
        made.add(worked);
        Ok(if worked == 0 {
            Some(Onward::Shares)
        } else {
            None
        })
    }

    /// Processor `q` draws the next ticket, where it may begin iterations and one is left to
    /// nobody; where they are made in chunks it goes on with these.
    fn draw(
        &mut self,
        q: usize,
        pace: Pace,
        made: &mut Made,
    ) -> Result<Option<Onward>, AllocError> {
        if q >= self.run.processors() || !pace.begins || !self.leaves_ticket() {
            return Ok(Some(Onward::Shares));
        }
        if self.makes_chunks(pace) {
            return Ok(None);
        }
        if !self.run.pick(q, Choice::Ticket)? {
            return Ok(Some(Onward::Shares));
        }
        made.add(1);
        made.begin(1);
        Ok(None)
    }

    /// Processor `q` takes something up, if it holds nothing.
    fn take_up(
        &mut self,
        q: usize,
        pace: Pace,
        made: &mut Made,
    ) -> Result<Option<Onward>, AllocError> {
        if q >= self.run.processors() {
            return Ok(Some(Onward::Shares));
        }
        if self.run.holds(q) {
            return Ok(None);
        }
        let choice = self.run.least();
        if choice == Choice::Ticket {
            return self.draw(q, pace, made);
        }
        if !self.run.pick(q, choice)? {
            return Ok(Some(Onward::Shares));
        }
        made.add(1);
        Ok(None)
    }

    /// Processor `q` loads a chunk or a stretch, or makes steps in place, and then one of another
    /// kind; what it does next, where it is not to make more.
    fn round(
        &mut self,
        q: usize,
        own: &mut Own<'_, C>,
        pace: Pace,
        made: &mut Made,
    ) -> Result<Option<Onward>, AllocError> {
        if self.load_chunk(q, own, pace) {
            return Ok(Some(Onward::Works));
        }
        if pace.stretches && self.stretch(q, own, pace.trial)? {
            return Ok(Some(Onward::Works));
        }
        if !self.proceed(q, pace, made) {
            return self.move_on(q, pace, made);
        }
        // This iteration is longer than others were.
        if !pace.stretches && self.stretch(q, own, pace.trial)? {
            return Ok(Some(Onward::Works));
        }
        Ok(None)
    }

    /// A stretch of processor `q` is made in place, if what it guessed is right; how many steps
    /// were. Else its mirror is mended.
    fn commit(&mut self, q: usize, own: &mut Own<'_, C>) -> Result<u32, HandIn> {
        if self.run.has_ended() {
            return Err(HandIn::Ended);
        }
        if q >= self.run.processors() {
            return Err(HandIn::Stranger);
        }
        let made = self.run.commit(q, &mut own.stretch);
        if made == 0 {
            self.run.mend(&own.stretch);
        }
        own.pause.note(made);
        Ok(made)
    }

    /// Local work of processor `q` is handed in; how many instructions.
    fn put(&mut self, q: usize, own: &mut Own<'_, C>) -> Result<u32, HandIn> {
        let made = own.work.made;
        if made == 0 {
            return Ok(0);
        }
        if q >= self.run.processors() {
            return Err(HandIn::Stranger);
        }
        self.run.hand_in(q, &mut own.work)?;
        Ok(made)
    }

    /// What has come of a run that nobody gave up, or that can't go on.
    ///
    /// # Errors
    ///
    /// That it is stuck where it hasn't ended and no processor has a step; and want of memory, with
    /// the output.
    pub fn answer<R: Wait>(mut self, rt: &R, coded: &Coded<'_, C>) -> Result<Answer, RunRefusal>
        ensures ok { IfOk result (IsAnswerOf C.code C.input C.processors C.slots) }
        ensures err { IfErr result (IsLeftAt C.code C.input C.processors C.slots) }
        ensures begun { IfErr result WasBegun }
    {
        if !self.run.has_ended() && self.finish(rt, coded).is_err() {
            return Err(self.out_of_memory());
        }
        self.ended()
    }

    /// What a step that was made or wasn't comes to.
    fn stepped(&self, went: bool, begun: Option<u128>) -> Stepped {
        if went {
            Stepped::Went(begun)
        } else if self.run.has_ended() {
            Stepped::Ended
        } else {
            Stepped::Idle
        }
    }
}

impl<'c, C: Call> Driven<C> for Unrecorded<'c, C> {
    fn processors(&self) -> usize {
        self.run.processors()
    }

    fn has_ended(&self) -> bool {
        self.run.has_ended()
    }

    fn holds(&self, q: usize) -> bool {
        q < self.run.processors() && self.run.holds(q)
    }

    fn has_ready(&self) -> bool {
        self.run.has_ready()
    }

    fn has_ticket(&self) -> bool {
        self.leaves_ticket()
    }

    fn overlap(&self) -> u128 {
        self.run.overlap()
    }

    fn open_loop(&self) -> usize {
        match self.run.open_loop() {
            Some(open) => open.number as usize,
            None => 0,
        }
    }

    fn printed(&self) -> usize {
        self.run.output().len()
    }

    fn tell(&self, told: &mut Told<C>) {
        told.take(self.run.output());
    }

    fn load(&self, q: usize, own: &mut Own<'_, C>) -> Result<bool, AllocError> {
        if q >= self.run.processors() {
            return Ok(false);
        }
        let loads = self.run.load(q, &mut own.work)?;
        if loads {
            own.loaded = Loaded::Work;
        }
        Ok(loads)
    }

    fn hand_in(&mut self, q: usize, own: &mut Own<'_, C>) -> Result<Handed, HandIn> {
        let loaded = own.loaded;
        own.loaded = Loaded::Nothing;
        match loaded {
            Loaded::Nothing => Ok(Handed::default()),
            Loaded::Work => Ok(Handed::of(self.put(q, own)?)),
            Loaded::Stretch => Ok(Handed::of(self.commit(q, own)?)),
            Loaded::Chunk => {
                let handed = self.commit_chunk(q, own)?;
                self.announce_turn(own);
                Ok(handed)
            }
        }
    }

    fn advance(
        &mut self,
        q: usize,
        own: &mut Own<'_, C>,
        pace: Pace,
    ) -> Result<Advanced, AllocError> {
        let mut made = Made::default();
        for _ in 0..MOST_ROUNDS {
            let onward = self.round(q, own, pace, &mut made)?;
            self.announce_turn(own);
            if let Some(onward) = onward {
                return Ok(made.and(onward));
            }
            if made.steps >= MOST_STEPS {
                break;
            }
        }
        Ok(made.and(Onward::Pauses))
    }

    fn share(&mut self, q: usize) -> Result<Stepped, AllocError> {
        if q >= self.run.processors() {
            return Ok(Stepped::Idle);
        }
        let went = self.run.share(q)?;
        Ok(self.stepped(went, None))
    }

    fn pick(&mut self, q: usize) -> Result<Stepped, AllocError> {
        if q >= self.run.processors() {
            return Ok(Stepped::Idle);
        }
        let choice = self.run.least();
        let ticket = self.run.next_ticket();
        let went = self.run.pick(q, choice)?;
        let begun = match choice {
            Choice::Ticket => Some(ticket),
            Choice::Main | Choice::Iteration(_) => None,
        };
        Ok(self.stepped(went, begun))
    }
}
