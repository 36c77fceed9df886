//! What a core keeps of activities, and what they share.

use crate::input::Input;
use ast::End;
use ec_kernel::Kernel;
use machine::{Frame, Open};

/// What a parked activity waits for.
#[derive(Clone, Copy, PartialEq, Eq)]
pub enum Until {
    /// That the count of an event reaches a value.
    Count { event: u32, value: u128 },
    /// That so many iterations have retired.
    Retired { value: u128 },
}

/// An open iteration.
#[derive(Drop)]
pub struct Iteration {
    pub number: u128,
    pub frame: Box<Frame>,
    /// What it has printed.
    pub out: Vec<u8>,
    /// What it is parked on.
    pub wait: Option<Until>,
}

/// What all activities share.
#[derive(Drop)]
pub struct Shared {
    /// The store: the cells of each variable behind those of the variables before it.
    pub cells: Vec<i64>,
    /// The counts, the ticket, and who waits.
    pub kernel: Kernel,
    /// What has gone out.
    pub output: Vec<u8>,
    /// The loop that is open.
    pub open: Option<Open>,
    /// How the run has ended.
    pub ended: Option<End>,
    /// The frames of iterations that have retired, in whose room others begin.
    pub spare: Vec<Box<Frame>>,
}

/// What main has of its own.
#[derive(Drop)]
pub struct Main<'p> {
    pub frame: Frame,
    /// What it is parked on.
    pub wait: Option<Until>,
    pub input: Input<'p>,
}
