//! The activities of a core and what they share, one step a function.

ghost use Rattle.std.specs.Prelude.{◌≡◌, ◌≤◌, [], IfOk, None, Some, map, option_map, replicate};
ghost use Rattle.ec_kernel.specs.View.{IsKernel};
ghost use Rattle.machine.specs.CodeView.{code_of};
ghost use Rattle.machine.specs.FrameView.{frame_of};
ghost use Rattle.machine.specs.View.{main_frame};
ghost use Rattle.activities.specs.Activities.{input_at_first, shared_at_first};
ghost use Rattle.activities.specs.PartsView.{input_of, shared_of, standing_of};
ghost use Rattle.activities.specs.Points.{at_first};
ghost use Rattle.activities.specs.declared.parts.Until.TheVariants.{Retired};

use crate::input::Input;
use crate::parts::{Iteration, Main, Shared, Until};
use ast::MOST_EVENTS;
use ec_kernel::Kernel;
use machine::{Code, Frame};
use std::alloc::{AllocError, Global};

/// The activity that a processor holds.
#[derive(Clone, Copy, PartialEq, Eq)]
pub enum Holder {
    Main,
    /// The iteration of this number, which stood in this place when it was taken up.
    Iteration { number: u128, place: usize },
}

/// What a processor that holds nothing may take up.
#[derive(Clone, Copy, PartialEq, Eq)]
pub enum Choice {
    /// Main, where it is parked and what it waits for has been reached.
    Main,
    /// The iteration of this number, where it is parked and what it waits for has been reached.
    Iteration(u128),
    /// The next ticket, which begins an iteration.
    Ticket,
}

/// Activities, and the processors that hold them.
#[derive(Drop)]
pub struct Activities<'c> {
    pub code: &'c Code,
    /// How many iterations may be open.
    pub slots: usize,
    pub shared: Shared,
    pub main: Main<'c>,
    /// Iteration k stands at k mod the number of slots.
    pub iterations: Vec<Option<Iteration>>,
    /// What each processor holds.
    pub held: Vec<Option<Holder>>,
}

/// How many counts there are: those of events, and that of the iterations that have retired.
const COUNTS: usize = MOST_EVENTS + 1;

/// Takes all free slots.
fn take_slots(kernel: &mut Kernel)
    requires kept { IsKernel kernel.old }
    ensures kernel { kernel.new ≡ record kernel.old { free = [] } }
    ensures kept { IsKernel kernel.new }
{
    while kernel.take_slot().is_some() {}
}

/// A kernel in which main is ready, and nothing else has happened.
fn first_kernel(alloc: Global, slots: usize) -> Result<Kernel, AllocError>
    requires { slots ≤ 256 }
    ensures kernel { IfOk result (λ kernel. kernel ≡ at_first slots) }
    ensures kept { IfOk result (λ kernel. IsKernel kernel) }
{
    let mut kernel = Kernel::new(alloc, 1 + slots, COUNTS)?;
    take_slots(&mut kernel);
    kernel.park(0, 1, 0);
    kernel.advance(0);
    kernel.reset();
    Ok(kernel)
}

/// What is shared as main begins.
fn first_shared(alloc: Global, code: &Code, slots: usize) -> Result<Shared, AllocError>
    requires { slots ≤ 256 }
    ensures shared { IfOk result (λ s. shared_of s ≡ shared_at_first (code_of code.now) slots) }
    ensures kept { IfOk result (λ s. IsKernel s.kernel) }
{
    Ok(Shared {
        cells: vec![in alloc; 0; code.cells()]?,
        kernel: first_kernel(alloc, slots)?,
        output: Vec::new(alloc),
        open: None,
        ended: None,
        spare: Vec::with_capacity(alloc, slots)?,
    })
}

/// Main as it begins.
fn first_main<'c>(alloc: Global, code: &Code, input: &'c [u8]) -> Result<Main<'c>, AllocError>
    ensures frame { IfOk result (λ m. frame_of m.frame ≡ main_frame (code_of code.now)) }
    ensures wait { IfOk result (λ m. m.wait ≡ Some (Retired 0)) }
    ensures input { IfOk result (λ m. input_of m.input ≡ input_at_first input.now) }
{
    Ok(Main {
        frame: Frame::main(alloc, code)?,
        wait: Some(Until::Retired { value: 0 }),
        input: Input::new(alloc, input),
    })
}

/// So many places in which no iteration stands.
fn no_iterations(alloc: Global, slots: usize) -> Result<Vec<Option<Iteration>>, AllocError>
    ensures { IfOk result (λ v. map (λ o. option_map standing_of o) v.items
        ≡ replicate slots None) }
{
    let mut places = Vec::new(alloc);
    while places.len() < slots {
        places.push(None)?;
    }
    Ok(places)
}

/// So many processors that hold nothing.
fn free_processors(alloc: Global, processors: usize) -> Result<Vec<Option<Holder>>, AllocError>
    ensures { IfOk result (λ v. v.items ≡ replicate processors None) }
{
    let mut held = Vec::new(alloc);
    while held.len() < processors {
        held.push(None)?;
    }
    Ok(held)
}

/// Places and processors of which none is taken.
fn none_taken(
    alloc: Global,
    processors: usize,
    slots: usize,
) -> Result<(Vec<Option<Iteration>>, Vec<Option<Holder>>), AllocError>
    ensures iterations { IfOk result (λ r. map (λ o. option_map standing_of o) r.0.items
        ≡ replicate slots None) }
    ensures held { IfOk result (λ r. r.1.items ≡ replicate processors None) }
{
    let iterations = no_iterations(alloc, slots)?;
    Ok((iterations, free_processors(alloc, processors)?))
}

impl<'c> Activities<'c> {
    ghost use Rattle.std.specs.Prelude.{◌≡◌, ◌≤◌, ◌<◌, IfOk, None, Some, get_or, is_some, length};
    ghost use Rattle.std.specs.Prelude.{option_map, ◌%◌};
    ghost use Rattle.machine.specs.CodeView.{code_of};
    ghost use Rattle.machine.specs.FrameView.{frame_of};
    ghost use Rattle.machine.specs.State.{AreSizes};
    ghost use Rattle.activities.specs.Activities.{AreActivities, AreOf, frame_at, frame_there};
    ghost use Rattle.activities.specs.Activities.{kept_in, point_in};
    ghost use Rattle.activities.specs.Points.{beginning};

    /// Main is ready, and nothing else has happened. There are 1 to 64 processors and 1 to 256
    /// slots.
    pub fn new(
        alloc: Global,
        code: &'c Code,
        input: &'c [u8],
        processors: usize,
        slots: usize,
    ) -> Result<Activities<'c>, AllocError>
        requires sizes { AreSizes processors slots }
        ensures point { IfOk result (λ a. point_in a
            ≡ beginning (code_of code.now) input.now slots) }
        ensures are { IfOk result (λ a. AreOf (code_of code.now) processors slots a) }
        ensures stand { IfOk result AreActivities }
    {
        let shared = first_shared(alloc, code, slots)?;
        let main = first_main(alloc, code, input)?;
        let (iterations, held) = none_taken(alloc, processors, slots)?;
        Ok(Activities {
            code,
            slots,
            shared,
            main,
            iterations,
            held,
        })
    }

    /// The frame of what stands in the place of iteration `k`, which may be this one.
    fn iteration_frame(&self, k: u128, place: usize) -> Option<&Frame>
        requires stand { AreActivities self.now }
        requires place { 0 < self.now.slots }
        requires room { length self.now.iterations.items ≡ self.now.slots }
        ensures { option_map (λ f. frame_of f.now) result
            ≡ frame_there (get_or (kept_in self.now).iterations (k % self.now.slots) None) }
    {
        match &self.iterations[self.place_from(k, place)] {
            Some(iteration) => Some(&iteration.frame),
            None => None,
        }
    }

    /// Whether processor `q` holds an activity.
    pub fn holds(&self, q: usize) -> bool
        requires stand { AreActivities self.now }
        requires processor { q < length self.now.held.items }
        ensures { result ≡ is_some (frame_at q (point_in self.now)) }
    {
        self.held[q].is_some()
    }

    /// The frame of what processor `q` holds.
    pub fn frame(&self, q: usize) -> Option<&Frame>
        requires stand { AreActivities self.now }
        requires processor { q < length self.now.held.items }
        ensures { option_map (λ f. frame_of f.now) result ≡ frame_at q (point_in self.now) }
    {
        match self.held[q] {
            None => None,
            Some(Holder::Main) => Some(&self.main.frame),
            Some(Holder::Iteration { number, place }) => self.iteration_frame(number, place),
        }
    }
}
