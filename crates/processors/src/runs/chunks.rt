//! Chunks of a run without a schedule.

use crate::call::Call;
use crate::chunk::MOST_DRAFTS;
use crate::driven::{Handed, Pace};
use crate::runs::{MOST_ALONE, Unrecorded};
use crate::work::{Loaded, Own};
use activities::Drafted;
use machine::Open;
use replay::{Choice, HandIn};
use stretches::Stretch;

impl<'c, C: Call> Unrecorded<'c, C> {
    ghost use Rattle.std.specs.Prelude.{◌≡◌};
    ghost use Rattle.machine.specs.CodeView.{code_of};

    /// Whether the next iteration of an open loop may begin, and one is left to nobody.
    pub(super) fn leaves_ticket(&self) -> bool {
        match self.run.open_loop() {
            Some(opened) => {
                let ticket = self.run.next_ticket();
                self.run.has_ticket() && self.dispatcher.first(ticket) < opened.trips
            }
            None => false,
        }
    }

    /// Whether processor `q` holds nothing.
    fn is_free(&self, q: usize) -> bool {
        q < self.run.processors() && !self.run.holds(q)
    }

    /// Whether iterations are made in chunks.
    pub(super) fn makes_chunks(&self, pace: Pace) -> bool {
        self.run.processors() > 1 && pace.begins && pace.stretches && pace.chunk > 1
    }

    /// The loop of whose iterations processor `q` may make a chunk: it holds nothing, and there is
    /// nothing else to take up.
    fn chunked_loop(&self, q: usize, pace: Pace) -> Option<Open> {
        if !self.is_free(q) || !self.makes_chunks(pace) {
            return None;
        }
        if self.run.least() != Choice::Ticket || !self.run.has_ticket() {
            return None;
        }
        self.run.open_loop()
    }

    /// What is left to a processor is left to all.
    fn give_back(&mut self, own: &mut Own<'_, C>) {
        if !own.chunk.is_empty() {
            self.dispatcher.give_back(own.chunk.first());
            own.chunk.clear();
        }
    }

    /// Whose turn it is: the chunk's that has this iteration or begins with it. It is the next to
    /// begin; where the code has awaits, the first that hasn't retired, since one that is drawn
    /// while those before it are open is likely to be parked.
    fn turn(&self, own: &Own<'_, C>) -> u128 {
        let ticket = self.run.next_ticket();
        if own.sees_events() {
            ticket.saturating_sub(self.run.overlap())
        } else {
            ticket
        }
    }

    /// Processors that wait for their turn are told whose it is.
    pub(super) fn announce_turn(&self, own: &Own<'_, C>) {
        if self.dispatcher.is_used() {
            own.chunk.announce_turn(self.turn(own));
        }
    }

    /// Iterations before the next ticket are no longer left to a processor.
    fn pass(&mut self, own: &mut Own<'_, C>) {
        let had_some = !own.chunk.is_empty();
        own.chunk.pass(self.run.next_ticket());
        if had_some && own.chunk.is_empty() {
            self.dispatcher.settle();
        }
    }

    /// Iterations of an open loop that are left to nobody are left to a processor, so many at most.
    fn dispatch(&mut self, own: &mut Own<'_, C>, opened: Open, most: usize) {
        let first = self.dispatcher.first(self.run.next_ticket());
        let end = opened.trips.min(first.saturating_add(most as u128));
        if first < end {
            self.dispatcher.dispatch(end);
            own.chunk.take(opened, first, end);
        }
    }

    /// Processor `q` loads a chunk, where it may make one: what is left to it, or else iterations
    /// that are left to nobody.
    pub(super) fn load_chunk(&mut self, q: usize, own: &mut Own<'_, C>, pace: Pace) -> bool {
        let Some(opened) = self.chunked_loop(q, pace) else {
            self.give_back(own);
            return false;
        };
        self.pass(own);
        if own.chunk.is_empty() {
            self.dispatch(own, opened, pace.chunk.min(MOST_DRAFTS));
        }
        if own.chunk.is_empty() {
            return false;
        }
        self.run.see_counts(&mut own.counts);
        self.run.show(&mut self.stale, own.mirror);
        own.loaded = Loaded::Chunk;
        true
    }

    /// Processor `q` begins the next iteration, and makes the steps of its draft, and others in
    /// place. Where the draft isn't wanted the mirror is mended.
    fn commit_draft(&mut self, q: usize, stretch: &mut Stretch<'_>, handed: &mut Handed)
        requires own { code_of stretch.old.code.now ≡ C.code }
        ensures code { code_of stretch.new.code.now ≡ code_of stretch.old.code.now }
    {
        if q >= self.run.processors() {
            return;
        }
        let Drafted { followed, more } = self
            .run
            .run_draft(q, stretch, MOST_ALONE, &mut self.stale);
        if followed == 0 {
            self.run.mend(stretch);
        }
        if more > 0 {
            handed.begin(followed, more - 1);
        }
    }

    /// Processor `q` commits its drafts, one behind the other, as long as it is their turn. Where a
    /// draft isn't wanted the mirror is mended.
    fn commit_drafts(&mut self, q: usize, own: &mut Own<'_, C>) -> Handed {
        let mut k = own.chunk.first();
        let mut handed = Handed::default();
        for draft in own.chunk.take_drafts() {
            if k == self.run.next_ticket() && self.is_free(q) {
                self.commit_draft(q, &mut draft.stretch, &mut handed);
            } else {
                self.run.mend(&draft.stretch);
            }
            k = k.saturating_add(1);
        }
        handed
    }

    /// A processor's drafts are forgotten, since those before it are late. The mirror is mended,
    /// and what was left to anybody is left to all.
    fn forget(&mut self, own: &mut Own<'_, C>) {
        for draft in own.chunk.take_drafts() {
            self.run.mend(&draft.stretch);
        }
        own.chunk.clear();
        self.dispatcher.give_back(self.run.next_ticket());
    }

    /// Processor `q` hands in a chunk.
    ///
    /// # Errors
    ///
    /// `Ended` where the run has ended.
    pub(super) fn commit_chunk(
        &mut self,
        q: usize,
        own: &mut Own<'_, C>,
    ) -> Result<Handed, HandIn> {
        if self.run.has_ended() {
            return Err(HandIn::Ended);
        }
        if own.chunk.first() > self.run.next_ticket() {
            self.forget(own);
            return Ok(Handed::default());
        }
        let handed = self.commit_drafts(q, own);
        self.pass(own);
        Ok(handed)
    }
}
