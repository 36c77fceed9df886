//! What is known of all paths that come to a place of a plan.

ghost use Rattle.std.specs.Prelude.{◌≡◌, IfOk};
ghost use Rattle.plan_check.specs.Flow as spec;
ghost use Rattle.plan_check.specs.KnownView.{known};

use crate::lists::{join_flags, join_nears, put, put_await, set_flags, set_nears};
use std::alloc::{AllocError, Global};

/// What is known of all paths that come to a place of a plan's body: of scalars by their cells, of
/// events by their numbers.
#[derive(Drop)]
pub struct Known {
    /// Each path has given the scalar a value.
    pub defined: Vec<bool>,
    /// Each path has awaited the event, no further back than that; `None` where one hasn't.
    pub near: Vec<Option<u128>>,
    /// No path has advanced the event.
    pub free: Vec<bool>,
    /// Each path has advanced the event.
    pub advanced: Vec<bool>,
}

impl Known {
    ghost use Rattle.std.specs.Prelude.{◌≡◌, IfOk};
    ghost use Rattle.loop_tree.specs.Paths.{await, advance};
    ghost use Rattle.plan_check.specs.Flow as spec;
    ghost use Rattle.plan_check.specs.KnownView.{known};

    /// What is known at the beginning of a body, of so many cells and events.
    ///
    /// # Errors
    ///
    /// `AllocError` where memory is refused.
    pub fn beginning(alloc: Global, cells: usize, events: usize) -> Result<Known, AllocError>
        ensures { IfOk result (λ made. known made ≡ spec.beginning cells events) }
    {
        Ok(Known {
            defined: vec![in alloc; false; cells]?,
            near: vec![in alloc; None; events]?,
            free: vec![in alloc; true; events]?,
            advanced: vec![in alloc; false; events]?,
        })
    }

    /// An equal account, or `AllocError` where memory is refused.
    pub fn try_copy(&self, alloc: Global) -> Result<Known, AllocError>
        ensures { IfOk result (λ copy. known copy ≡ known self.now) }
    {
        Ok(Known {
            defined: Vec::from_slice(alloc, &self.defined)?,
            near: Vec::from_slice(alloc, &self.near)?,
            free: Vec::from_slice(alloc, &self.free)?,
            advanced: Vec::from_slice(alloc, &self.advanced)?,
        })
    }

    /// A scalar is given a value; nothing changes where there is no such cell.
    pub fn define(&mut self, cell: usize)
        ensures { known self.new ≡ spec.defined_too (known self.old) cell }
    {
        put(&mut self.defined, cell, true);
    }

    /// An event is awaited; nothing changes where there is none of that number.
    pub fn await_event(&mut self, event: usize, distance: u128)
        ensures { known self.new ≡ spec.step (await event distance) (known self.old) }
    {
        put_await(&mut self.near, event, distance);
    }

    /// An event is advanced; nothing changes where there is none of that number.
    pub fn advance_event(&mut self, event: usize)
        ensures { known self.new ≡ spec.step (advance event) (known self.old) }
    {
        put(&mut self.free, event, false);
        put(&mut self.advanced, event, true);
    }

    /// Other paths come to the same place: what is known then holds of both.
    pub fn join(&mut self, other: &Known)
        ensures { known self.new ≡ spec.joined (known self.old) (known other.now) }
    {
        join_flags(&mut self.defined, &other.defined);
        join_nears(&mut self.near, &other.near);
        join_flags(&mut self.free, &other.free);
        join_flags(&mut self.advanced, &other.advanced);
    }

    /// No path goes on here, so that everything holds of each.
    pub fn end(&mut self)
        ensures { known self.new ≡ spec.nowhere (known self.old) }
    {
        set_flags(&mut self.defined);
        set_nears(&mut self.near);
        set_flags(&mut self.free);
        set_flags(&mut self.advanced);
    }
}
