//! What lies under the lock.

use crate::call::Call;
use crate::driven::{Advanced, Driven, Onward, Pace, Trial};
use crate::lengths::Lengths;
use crate::report::Effort;
use crate::telling::Told;
use crate::work::Own;
use replay::{HandIn, Stepped};
use std::alloc::{AllocError, Global};
use std::marker::PhantomData;

/// How often in one turn steps are made in one go and then a shared one, at most.
const MOST_STEPS: u32 = 32;

/// The processor that hands records on: the caller's thread, which has the writer.
const TELLER: usize = 0;

/// How a run stands.
#[derive(Clone, Copy, PartialEq, Eq)]
pub enum Standing {
    Going,
    /// It was given up: a processor has found no memory, a thread couldn't be started, or the
    /// writer of the records has failed.
    GivenUp,
    /// It hasn't ended, and no step is possible.
    Stuck,
}

/// What a processor does next.
#[derive(Clone, Copy, PartialEq, Eq)]
pub enum Next {
    /// Its thread ends.
    Leave,
    /// It sleeps until it is told that something has changed.
    Wait,
    /// It takes its next turn.
    Again,
    /// It goes through the gate, with the iteration of that number, and takes its next turn.
    Begin(u128),
    /// It does what was loaded; where it has taken the ticket of an iteration, it goes through the
    /// gate first.
    Work(Option<u128>),
}

/// A run, and what its processors tell each other.
#[derive(Drop)]
pub struct Board<C: Call, D: Driven<C> + Drop> {
    run: D,
    standing: Standing,
    /// Whether the gate is to be told of iterations as they begin.
    tells_gate: bool,
    /// How many processors sleep, or have been woken and have not had their turn yet. Each of them
    /// holds nothing.
    asleep: usize,
    /// How long the iterations of each loop are.
    lengths: Vec<Lengths>,
    overlap: u128,
    efforts: Vec<Effort>,
    /// How many bytes of records may wait, where they are handed on while the run goes on.
    most_waiting: Option<usize>,
    /// How many bytes of them were told.
    told: usize,
    /// Whether the one who hands them on sleeps, and wasn't called since.
    teller_sleeps: bool,
    of: PhantomData<C>,
}

impl<C: Call, D: Driven<C> + Drop> Board<C, D> {
    ghost use Rattle.std.specs.Prelude.{◌≡◌};

    /// A run of code with so many loops in which nothing has happened, whether the gate is to be
    /// told of iterations, and how many bytes of records may wait, where they are handed on while
    /// it goes on.
    ///
    /// # Errors
    ///
    /// `AllocError` where memory is refused.
    pub fn new(
        alloc: Global,
        run: D,
        loops: usize,
        tells_gate: bool,
        most_waiting: Option<usize>,
    ) -> Result<Board<C, D>, AllocError> {
        let efforts = vec![in alloc; Effort::default(); run.processors()]?;
        let lengths = vec![in alloc; Lengths::default(); loops]?;
        Ok(Board {
            run,
            standing: Standing::Going,
            tells_gate,
            asleep: 0,
            lengths,
            overlap: 0,
            efforts,
            most_waiting,
            told: 0,
            teller_sleeps: false,
            of: PhantomData,
        })
    }

    /// How many processors there are.
    pub fn processors(&self) -> usize {
        self.run.processors()
    }

    /// The run is given up.
    pub fn give_up(&mut self) {
        self.standing = Standing::GivenUp;
    }

    /// Whether the run goes on, and if not, why.
    pub fn standing(&self) -> Standing {
        self.standing
    }

    /// The run, what each processor did, and how many iterations were open at once, at most.
    pub fn into_parts(self) -> (D, Vec<Effort>, u128) {
        let Board {
            run,
            efforts,
            overlap,
            ..
        } = self;
        (run, efforts, overlap)
    }

    /// Processor `q` falls asleep.
    pub fn fall_asleep(&mut self, q: usize) {
        self.asleep = self.asleep.wrapping_add(1);
        self.teller_sleeps |= q == TELLER;
        if let Some(effort) = self.efforts.get_mut(q) {
            effort.waits = effort.waits.wrapping_add(1);
        }
    }

    /// Processor `q`, which slept, has its turn.
    pub fn wake_up(&mut self, q: usize) {
        self.asleep = self.asleep.wrapping_sub(1);
        self.teller_sleeps &= q != TELLER;
    }

    /// Whether more records wait than may.
    fn has_news(&self) -> bool {
        match self.most_waiting {
            Some(most) => self.run.printed().saturating_sub(self.told) > most,
            None => false,
        }
    }

    /// The same for one who hands them on.
    pub fn has_news_for(&self, told: &Told<C>) -> bool {
        told.streams && self.has_news()
    }

    /// Records are told to one who hands them on, where more wait than may.
    pub fn tell(&mut self, told: &mut Told<C>)
        ensures { told.new.shown ≡ told.old.shown }
    {
        if self.has_news_for(told) {
            self.told = self.run.printed();
            self.run.tell(told);
        }
    }

    /// Whether the one who hands records on is to be woken for them.
    pub fn calls_teller(&mut self) -> bool {
        let calls = self.teller_sleeps && self.has_news();
        self.teller_sleeps &= !calls;
        calls
    }

    /// Whether all are to leave.
    pub fn is_over(&self) -> bool {
        self.standing != Standing::Going || self.run.has_ended()
    }

    /// Whether iterations of the loop that is open are long, or too few have begun to tell.
    fn are_long(&self) -> bool {
        match self.lengths.get(self.run.open_loop()) {
            Some(lengths) => lengths.are_long(),
            None => true,
        }
    }

    /// How many iterations of the loop that is open are made in a chunk; 0 where none are.
    fn chunk(&self) -> usize {
        match self.lengths.get(self.run.open_loop()) {
            Some(lengths) => lengths.chunk(),
            None => 0,
        }
    }

    /// Whether iterations of the loop that is open are short, as far as enough have begun to tell.
    fn are_short(&self) -> bool {
        match self.lengths.get(self.run.open_loop()) {
            Some(lengths) => lengths.are_short(),
            None => false,
        }
    }

    /// Which loop is open, and how often it was tried how long its iterations are.
    fn trial(&self) -> Trial {
        let open = self.run.open_loop();
        let trials = match self.lengths.get(open) {
            Some(lengths) => lengths.trials(),
            None => 0,
        };
        Trial { open, trials }
    }

    /// Whether one who sleeps is worth waking: an activity is ready, or an iteration may begin and
    /// iterations are long. Where they are short, one who comes back at once takes up what is
    /// ready.
    pub fn wants_another(&self, comes_back: bool) -> bool {
        if self.asleep == 0 || comes_back && self.are_short() {
            return false;
        }
        self.run.has_ready() || self.are_long() && self.run.has_ticket()
    }

    /// Whether all processors but one sleep.
    fn is_last_awake(&self) -> bool {
        self.asleep.saturating_add(1) >= self.run.processors()
    }

    /// Whether iterations that may begin are left to another processor that is awake, since
    /// iterations are short.
    fn leaves_tickets(&self) -> bool {
        self.are_short() && !self.is_last_awake()
    }

    /// Whether a processor that holds nothing takes up nothing: there is nothing, or only an
    /// iteration that may begin, which it leaves to another one that is awake where iterations are
    /// short.
    fn takes_nothing(&self) -> bool {
        if self.run.has_ready() || self.run.has_ended() {
            return false;
        }
        self.leaves_tickets() || !self.run.has_ticket()
    }

    /// Processor `q` made so many steps.
    fn count(&mut self, q: usize, steps: u32) {
        if let Some(effort) = self.efforts.get_mut(q) {
            effort.steps = effort.steps.wrapping_add(u64::from(steps));
        }
    }

    /// Processor `q` hands in what it did outside the lock, if anything.
    fn hand_in(&mut self, q: usize, own: &mut Own<'_, C>) -> Result<(), HandIn> {
        let handed = self.run.hand_in(q, own)?;
        self.count(q, handed.steps);
        self.count(q, handed.more);
        if let Some(lengths) = self.lengths.get_mut(self.run.open_loop()) {
            lengths.add(handed.steps);
            lengths.begin(handed.begun);
            lengths.learn(handed);
        }
        Ok(())
    }

    /// A shared step of processor `q`. Where it holds nothing it picks.
    fn step(&mut self, q: usize) -> Result<Stepped, AllocError> {
        if self.run.holds(q) {
            return self.run.share(q);
        }
        if self.takes_nothing() {
            return Ok(Stepped::Idle);
        }
        self.run.pick(q)
    }

    /// So many more iterations have begun.
    fn count_begun(&mut self, begun: u32) {
        if let Some(lengths) = self.lengths.get_mut(self.run.open_loop()) {
            lengths.begin(begun);
        }
    }

    fn no_memory(&mut self) -> Next {
        self.give_up();
        Next::Leave
    }

    /// Processor `q` has taken the ticket of iteration `k`. It keeps the lock where nobody is told.
    fn begin(&mut self, q: usize, k: u128, own: &mut Own<'_, C>) -> Option<Next> {
        self.count_begun(1);
        self.overlap = self.overlap.max(self.run.overlap());
        if !self.tells_gate {
            return None;
        }
        Some(match self.run.load(q, own) {
            Ok(true) => Next::Work(Some(k)),
            Ok(false) => Next::Begin(k),
            Err(_) => self.no_memory(),
        })
    }

    /// Processor `q` has no step. Where it holds something, or all others sleep, none will come.
    fn idle(&mut self, q: usize) -> Next {
        if self.run.holds(q) || self.is_last_awake() {
            self.standing = Standing::Stuck;
            return Next::Leave;
        }
        Next::Wait
    }

    /// Processor `q`, before which no local instruction stands, makes a shared step; what it does
    /// next, where its turn is over.
    fn share(&mut self, q: usize, own: &mut Own<'_, C>) -> Option<Next> {
        match self.step(q) {
            Ok(Stepped::Went(begun)) => {
                self.count(q, 1);
                self.begin(q, begun?, own)
            }
            Ok(Stepped::Idle) => Some(self.idle(q)),
            Ok(Stepped::Ended) => Some(Next::Leave),
            Err(_) => Some(self.no_memory()),
        }
    }

    /// How a processor goes about iterations: it begins none in one go where the gate is told of
    /// each, or where they are left to another processor, and makes their steps in place where they
    /// are short.
    fn pace(&self) -> Pace {
        Pace {
            begins: !self.tells_gate && !self.leaves_tickets(),
            stretches: !self.are_short(),
            chunk: self.chunk(),
            trial: self.trial(),
        }
    }

    /// Processor `q` makes steps in one go, and then, where one of another kind stands next, that;
    /// what it does next, where its turn is over.
    fn go_on(&mut self, q: usize, own: &mut Own<'_, C>) -> Option<Next> {
        let pace = self.pace();
        match self.run.advance(q, own, pace) {
            Ok(
                Advanced {
                    steps,
                    begun,
                    onward,
                },
            ) => {
                self.count(q, steps);
                self.count_begun(begun);
                match onward {
                    Onward::Works => Some(Next::Work(None)),
                    Onward::Pauses => Some(Next::Again),
                    Onward::Shares => self.share(q, own),
                }
            }
            Err(_) => Some(self.no_memory()),
        }
    }

    /// Processor `q` makes steps as long as one stands next, no more records wait than may, and its
    /// turn isn't over.
    fn steps(&mut self, q: usize, own: &mut Own<'_, C>) -> Next {
        for _ in 0..MOST_STEPS {
            if let Some(next) = self.go_on(q, own) {
                return next;
            }
            if self.has_news() {
                break;
            }
        }
        Next::Again
    }

    /// A turn of processor `q`: it hands in what it did outside the lock, if anything, and makes
    /// steps. What the run doesn't take is forgotten.
    pub fn turn(&mut self, q: usize, own: &mut Own<'_, C>) -> Next {
        if self.standing != Standing::Going {
            return Next::Leave;
        }
        match self.hand_in(q, own) {
            Ok(()) | Err(HandIn::Stranger) => self.steps(q, own),
            Err(HandIn::Ended) => Next::Leave,
            Err(HandIn::Memory) => self.no_memory(),
        }
    }
}
