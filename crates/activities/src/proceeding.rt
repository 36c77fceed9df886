//! What a processor does in one go: steps of what it holds, and iterations that it begins.

ghost use Rattle.std.specs.Prelude.{◌≡◌, ◌≤◌, if◌then◌else◌};
ghost use Rattle.activities.specs.Sharing.{went};
ghost use Rattle.activities.specs.declared.turn.Outcome.TheVariants as outcomes;

use crate::holding::{Activities, Holder};
use crate::parts::Iteration;
use crate::picking::begin;
use crate::sharing::{keep, synchronize};
use crate::striding::commit_to;
use crate::told::{Counts, Told};
use crate::turn::Outcome;
use machine::Open;
use stretches::{Stale, Stretch, stride_noting};

/// How far an iteration came.
#[derive(Clone, Copy, PartialEq, Eq)]
struct Came {
    /// How many steps it made.
    made: u32,
    /// What the last of them came to.
    outcome: Outcome,
}

/// What became of an iteration that a stretch was made of before it began: how many steps were the
/// stretch's, and how many others, with its beginning; none where it didn't begin.
#[derive(Clone, Copy)]
pub struct Drafted {
    pub followed: u32,
    pub more: u32,
}

impl Default for Drafted {
    ghost use Rattle.std.specs.Prelude.{◌≡◌};

    ghost is_default = { λ d. d ≡ record { followed = 0; more = 0 } };

    fn default() -> Drafted {
        Drafted {
            followed: 0,
            more: 0,
        }
    }
}

/// How many steps were made.
#[inline(always)]
fn steps_of(outcome: Outcome) -> u32
    ensures made { result ≡ (if went outcome then 1 else 0) }
    ensures few { result ≤ 1 }
{
    match outcome {
        Outcome::Idle => 0,
        Outcome::Stays | Outcome::Parks | Outcome::Leaves | Outcome::Ends => 1,
    }
}

impl<'c> Activities<'c> {
    ghost use Rattle.std.specs.Prelude.{◌≡◌, ◌≤◌, ◌<◌, ◌+◌, ◌%◌, IfSome};
    ghost use Rattle.std.specs.Prelude.{None, get_or, length, true};
    ghost use Rattle.machine.specs.CodeView.{code_of};
    ghost use Rattle.activities.specs.Activities.{AreActivities, Stays, code_in, kept_in, point_in};
    ghost use Rattle.activities.specs.Parts.{held_of};
    ghost use Rattle.activities.specs.Points.{Proceeds, Steps};
    ghost use Rattle.activities.specs.Seating.{MayBegin, seat, seated};

    /// The await, the advance or the retirement of an iteration that processor `q` has begun, or,
    /// where none stands next, strides of it; at most `n` steps.
    #[inline(always)]
    fn go_on(
        &mut self,
        q: usize,
        place: usize,
        iteration: &mut Iteration,
        n: u32,
        stale: &mut Stale,
    ) -> Came
        requires seated { AreActivities (seated q place iteration.old self.old) }
        requires going { self.old.shared.ended ≡ None }
        requires processor { q < length self.old.held.items }
        requires place { place ≡ iteration.old.number % self.old.slots }
        requires some { 0 < n }
        ensures made { Steps (code_in self.old) self.old.slots result.made
            (point_in (seated q place iteration.old self.old)) q
            (point_in (seat result.outcome q place iteration.new self.new)) }
        ensures few { result.made ≤ n }
        ensures seated { AreActivities (seat result.outcome q place iteration.new self.new) }
        ensures number { result.outcome ≡ outcomes.Stays
            → iteration.new.number ≡ iteration.old.number }
        ensures going { result.outcome ≡ outcomes.Stays → self.new.shared.ended ≡ None }
        ensures others { self.new ≡ record self.old { shared = self.new.shared } }
    {
        match synchronize(&mut self.shared, iteration, place + 1, self.code) {
            Some(outcome) => Came {
                made: steps_of(outcome),
                outcome,
            },
            None => {
                let told = Told::Counts(Counts {
                    kernel: &self.shared.kernel,
                    number: iteration.number,
                });
                let cells = &mut self.shared.cells;
                Came {
                    made: stride_noting(self.code, &mut iteration.frame, cells, stale, &told, n),
                    outcome: Outcome::Stays,
                }
            }
        }
    }

    /// Steps of an iteration that processor `q` has begun, one after another, at most `n`.
    #[inline(always)]
    fn go_through(
        &mut self,
        q: usize,
        place: usize,
        iteration: &mut Iteration,
        n: u32,
        stale: &mut Stale,
    ) -> Came
        requires seated { AreActivities (seated q place iteration.old self.old) }
        requires going { self.old.shared.ended ≡ None }
        requires processor { q < length self.old.held.items }
        requires place { place ≡ iteration.old.number % self.old.slots }
        ensures made { Steps (code_in self.old) self.old.slots result.made
            (point_in (seated q place iteration.old self.old)) q
            (point_in (seat result.outcome q place iteration.new self.new)) }
        ensures few { result.made ≤ n }
        ensures seated { AreActivities (seat result.outcome q place iteration.new self.new) }
        ensures others { self.new ≡ record self.old { shared = self.new.shared } }
    {
        let mut left = n;
        while left > 0 {
            let Came { made, outcome } = self.go_on(q, place, iteration, left, stale);
            left -= made;
            if made == 0 || outcome != Outcome::Stays {
                return Came {
                    made: n - left,
                    outcome,
                };
            }
        }
        Came {
            made: n,
            outcome: Outcome::Stays,
        }
    }

    /// The open loop, where its next iteration may begin and no activity is ready.
    #[inline(always)]
    fn next_open(&self) -> Option<Open>
        requires stand { AreActivities self.now }
        ensures { IfSome result (MayBegin self.now) }
    {
        if self.shared.ended.is_some() || self.shared.kernel.first_ready().is_some() {
            return None;
        }
        let opened = self.shared.open?;
        if !self.has_ticket(opened) {
            return None;
        }
        Some(opened)
    }

    /// An iteration stands where a step of processor `q` that came to this leaves it.
    #[inline(always)]
    fn put_iteration_down(&mut self, q: usize, place: usize, iteration: Iteration, outcome: Outcome)
        requires place { place < length self.old.iterations.items }
        requires processor { q < length self.old.held.items }
        requires free { get_or (kept_in self.old).iterations place None ≡ None }
        requires idle { held_of (kept_in self.old).held q ≡ None }
        ensures kept { kept_in self.new ≡ kept_in (seat outcome q place iteration self.old) }
        ensures stays { Stays self.old self.new }
    {
        match outcome {
            Outcome::Leaves => keep(iteration, &mut self.shared.spare),
            Outcome::Parks => self.iterations[place] = Some(iteration),
            Outcome::Stays | Outcome::Ends | Outcome::Idle => {
                let number = iteration.number;
                self.iterations[place] = Some(iteration);
                self.held[q] = Some(Holder::Iteration { number, place });
            }
        }
    }

    /// Processor `q`, which holds nothing, begins the next iteration, where it may and no activity
    /// is ready, and makes steps of it; how many steps in all, at most `n`. An iteration that
    /// retires among them stands in no place.
    fn run_next(&mut self, q: usize, n: u32, stale: &mut Stale) -> u32
        requires stand { AreActivities self.old }
        requires processor { q < length self.old.held.items }
        requires idle { held_of (kept_in self.old).held q ≡ None }
        requires some { 0 < n }
        ensures made { Proceeds true (code_in self.old) self.old.slots result (point_in self.old) q
            (point_in self.new) }
        ensures few { result ≤ n }
        ensures stand { AreActivities self.new }
        ensures stays { Stays self.old self.new }
    {
        let Some(opened) = self.next_open() else {
            return 0;
        };
        let next = self.shared.kernel.next_ticket();
        let Ok(mut iteration) = begin(&mut self.shared.spare, self.code, opened, next) else {
            return 0;
        };
        let number = self.shared.kernel.ticket();
        let place = self.place_of(number);
        let Came { made, outcome } = self.go_through(q, place, &mut iteration, n - 1, stale);
        self.put_iteration_down(q, place, iteration, outcome);
        made + 1
    }

    /// The steps of a stretch are made of an iteration that processor `q` has begun, if the stretch
    /// is right; how many.
    #[inline(always)]
    fn follow(
        &mut self,
        q: usize,
        place: usize,
        iteration: &mut Iteration,
        stretch: &mut Stretch<'_>,
    ) -> u32
        requires seated { AreActivities (seated q place iteration.old self.old) }
        requires going { self.old.shared.ended ≡ None }
        requires own { code_of stretch.old.code.now ≡ code_in self.old }
        requires processor { q < length self.old.held.items }
        requires place { place ≡ iteration.old.number % self.old.slots }
        ensures made { Steps (code_in self.old) self.old.slots result
            (point_in (seated q place iteration.old self.old)) q
            (point_in (seated q place iteration.new self.new)) }
        ensures few { result ≤ stretch.old.made }
        ensures seated { AreActivities (seated q place iteration.new self.new) }
        ensures number { iteration.new.number ≡ iteration.old.number }
        ensures going { self.new.shared.ended ≡ None }
        ensures others { self.new ≡ record self.old { shared = self.new.shared } }
        ensures code { code_of stretch.new.code.now ≡ code_of stretch.old.code.now }
    {
        let shared = &mut self.shared;
        commit_to(iteration, &mut shared.cells, &shared.kernel, stretch)
    }

    /// Processor `q` begins the next iteration, where it holds nothing, an iteration may begin and
    /// no activity is ready, makes the steps of a stretch of it, if that is right, and then others,
    /// at most `n` with its beginning. An iteration that retires among them stands in no place.
    pub fn run_draft(
        &mut self,
        q: usize,
        stretch: &mut Stretch<'_>,
        n: u32,
        stale: &mut Stale,
    ) -> Drafted
        requires stand { AreActivities self.old }
        requires processor { q < length self.old.held.items }
        requires own { code_of stretch.old.code.now ≡ code_in self.old }
        ensures made { Proceeds true (code_in self.old) self.old.slots
            (result.more + result.followed) (point_in self.old) q (point_in self.new) }
        ensures few { (result.followed ≤ stretch.old.made) × (result.more ≤ n) }
        ensures stand { AreActivities self.new }
        ensures stays { Stays self.old self.new }
        ensures code { code_of stretch.new.code.now ≡ code_of stretch.old.code.now }
    {
        if n == 0 || !self.is_free(q) {
            return Drafted::default();
        }
        let Some(opened) = self.next_open() else {
            return Drafted::default();
        };
        let next = self.shared.kernel.next_ticket();
        let Ok(mut iteration) = begin(&mut self.shared.spare, self.code, opened, next) else {
            return Drafted::default();
        };
        let drawn = self.shared.kernel.ticket();
        let place = self.place_of(drawn);
        let followed = self.follow(q, place, &mut iteration, stretch);
        let Came { made, outcome } = self.go_through(q, place, &mut iteration, n - 1, stale);
        self.put_iteration_down(q, place, iteration, outcome);
        Drafted {
            followed,
            more: made + 1,
        }
    }

    /// Steps of what processor `q` holds; or, where it holds nothing and may begin an iteration,
    /// those of `run_next`; how many.
    #[inline(always)]
    fn proceed_once(&mut self, q: usize, n: u32, begins: bool, stale: &mut Stale) -> u32
        requires stand { AreActivities self.old }
        requires processor { q < length self.old.held.items }
        requires some { 0 < n }
        ensures made { Proceeds begins (code_in self.old) self.old.slots result (point_in self.old)
            q (point_in self.new) }
        ensures few { result ≤ n }
        ensures stand { AreActivities self.new }
        ensures stays { Stays self.old self.new }
    {
        if !self.is_free(q) {
            return self.next_steps(q, n, stale);
        }
        if !begins {
            return 0;
        }
        self.run_next(q, n, stale)
    }

    /// Steps of what processor `q` holds, one after another, at most `n`, in its own place; how
    /// many: local instructions, loads and stores, and what an iteration awaits or advances, and
    /// its retirement. Where `begins` says so, and no activity is ready, it begins iterations too,
    /// each of which is a step. A step for which memory is refused isn't made. Cells that were
    /// stored to in place are stale.
    pub fn proceed(&mut self, q: usize, n: u32, begins: bool, stale: &mut Stale) -> u32
        requires stand { AreActivities self.old }
        requires processor { q < length self.old.held.items }
        ensures made { Proceeds begins (code_in self.old) self.old.slots result (point_in self.old)
            q (point_in self.new) }
        ensures few { result ≤ n }
        ensures stand { AreActivities self.new }
        ensures stays { Stays self.old self.new }
    {
        let mut left = n;
        while left > 0 {
            let made = self.proceed_once(q, left, begins, stale);
            if made == 0 {
                return n - left;
            }
            left -= made;
        }
        n
    }
}
