//! Which iterations are left to processors.

/// Which iterations of the open loop are left to processors that make them in chunks, before their
/// tickets are drawn.
#[derive(Clone, Copy, Default, Drop)]
pub struct Dispatcher {
    /// The first iteration behind all of them.
    end: u128,
    /// To how many processors they are left.
    processors: usize,
}

impl Dispatcher {
    /// Whether some are left to a processor.
    pub fn is_used(&self) -> bool {
        self.processors > 0
    }

    /// The first iteration that is left to nobody, where this ticket is next.
    pub fn first(&self, ticket: u128) -> u128 {
        if self.processors == 0 {
            ticket
        } else {
            self.end.max(ticket)
        }
    }

    /// Iterations up to this one are left to one more processor.
    pub fn dispatch(&mut self, end: u128) {
        self.end = end;
        self.processors = self.processors.saturating_add(1);
    }

    /// A processor has no more iterations left to it.
    pub fn settle(&mut self) {
        self.processors = self.processors.saturating_sub(1);
    }

    /// A processor leaves iterations from this one on to all.
    pub fn give_back(&mut self, first: u128) {
        self.end = self.end.min(first);
        self.settle();
    }
}
