//! What is told of iterations as they begin.

/// What a processor calls each time it has taken a ticket, before the first instruction of that
/// iteration. The lock isn't held then, so that a gate may keep the processor as long as it wants
/// to.
pub trait Gate {
    /// Whether it wants to be told. Where it doesn't, a processor keeps the lock as it begins.
    fn wants_calls(&self) -> bool {
        true
    }

    /// Processor `processor`, from 0 on, has taken the ticket of iteration `iteration`.
    fn before(&self, processor: usize, iteration: u128);
}

/// A gate through which iterations go at once.
#[derive(Clone, Copy)]
pub struct NoGate;

impl Gate for NoGate {
    fn wants_calls(&self) -> bool {
        false
    }

    fn before(&self, _processor: usize, _iteration: u128) {}
}
