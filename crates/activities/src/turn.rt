//! Steps of activities.

ghost use Rattle.std.specs.Prelude.{ℕ, ◌≡◌, ◌==◌, ◌<◌, ◌≤◌, ◌+◌, ◌++◌, map, ◌-◌, ◌^◌, IfOk, OnOk};
ghost use Rattle.std.specs.Prelude.{OnErr};
ghost use Rattle.std.specs.Prelude.{get_or, length, pos, set};
ghost use Rattle.ec_kernel.specs.View.{IsKernel, count_at, places};
ghost use Rattle.machine.specs.Code.{Code as Plain};
ghost use Rattle.machine.specs.CodeView.{code_of, part};
ghost use Rattle.machine.specs.FrameView.{frame_of};
ghost use Rattle.machine.specs.Laid.{count_of};
ghost use Rattle.machine.specs.Local.{going_on, without};
ghost use Rattle.machine.specs.Next.{Goes, Pushes, Tells};
ghost use Rattle.machine.specs.ScalarView.{scalars_of};
ghost use Rattle.machine.specs.State.{until_count};
ghost use Rattle.machine.specs.View.{values_wanted, view, with_operand};
ghost use Rattle.machine.specs.declared.next.Next.TheVariants.{Await, Advance, Retire};
ghost use Rattle.activities.specs.PartsView.{shared_of, standing_of};
ghost use Rattle.activities.specs.Turns.{May, cells_after, ends, iteration_after, leaves};
ghost use Rattle.activities.specs.Turns.{one_after, parks, printed_own, reported, waits_its_turn};

use crate::parts::{Iteration, Shared, Until};
use crate::printing::print;
use ast::End;
use machine::{Code, Frame, Next, Piece, Scalar};
use std::alloc::AllocError;

/// What a step of an activity came to.
#[derive(Clone, Copy, PartialEq, Eq)]
pub enum Outcome {
    /// The activity goes on.
    Stays,
    /// It is parked.
    Parks,
    /// It has retired.
    Leaves,
    /// The run has ended.
    Ends,
    /// There is no such step now; nothing has changed.
    Idle,
}

/// The value of a cell takes the place of operands.
pub fn load(frame: &mut Frame, cells: &[i64], cell: usize, popped: usize)
    requires pushes { Pushes (frame_of frame.old) popped }
    requires cell { cell < length cells.now }
    ensures { frame_of frame.new
        ≡ with_operand popped (frame_of frame.old) (get_or cells.now cell (pos 0)) }
{
    frame.go_on_with(popped, cells[cell]);
}

/// A cell gets a value.
pub fn store(frame: &mut Frame, cells: &mut [i64], cell: usize, value: i64, popped: usize)
    requires goes { Goes (frame_of frame.old) popped }
    requires cell { cell < length cells.old }
    ensures frame { frame_of frame.new
        ≡ going_on (without popped (frame_of frame.old).operands) (frame_of frame.old) }
    ensures cells { cells.new ≡ set cells.old cell value }
{
    cells[cell] = value;
    frame.go_on(popped);
}

/// An iteration is parked until an event's count has reached a value.
fn park(shared: &mut Shared, iteration: &mut Iteration, slot: usize, event: u32, value: u128)
    requires event { event < length shared.old.kernel.counts }
    requires slot { slot < shared.old.kernel.slots }
    requires nowhere { places slot shared.old.kernel ≡ 0 }
    requires far { count_at shared.old.kernel event < value }
    ensures shared { shared_of shared.new
        ≡ (parks slot event value (until_count event value) (shared_of shared.old)
        (standing_of iteration.old)).shared }
    ensures iteration { standing_of iteration.new
        ≡ (parks slot event value (until_count event value) (shared_of shared.old)
        (standing_of iteration.old)).standing }
    ensures kept { IsKernel shared.new.kernel }
{
    shared.kernel.park(event as usize, value, slot);
    iteration.wait = Some(Until::Count { event, value });
}

/// An iteration is parked until it is the next to retire.
#[inline(never)]
pub fn wait_for_turn(shared: &mut Shared, iteration: &mut Iteration, slot: usize)
    requires event { 0 < length shared.old.kernel.counts }
    requires slot { slot < shared.old.kernel.slots }
    requires nowhere { places slot shared.old.kernel ≡ 0 }
    requires far { count_at shared.old.kernel 0 < iteration.old.number }
    ensures shared { shared_of shared.new
        ≡ (waits_its_turn slot (shared_of shared.old) (standing_of iteration.old)).shared }
    ensures iteration { standing_of iteration.new
        ≡ (waits_its_turn slot (shared_of shared.old) (standing_of iteration.old)).standing }
    ensures kept { IsKernel shared.new.kernel }
{
    let value = iteration.number;
    shared.kernel.park(0, value, slot);
    iteration.wait = Some(Until::Retired { value });
}

/// An iteration awaits that the one so many before it has advanced an event.
pub fn await_event(
    shared: &mut Shared,
    iteration: &mut Iteration,
    slot: usize,
    event: u32,
    distance: u128,
) -> Outcome
    requires kept { IsKernel shared.old.kernel }
    requires event { event < length shared.old.kernel.counts }
    requires slot { slot < shared.old.kernel.slots }
    requires nowhere { places slot shared.old.kernel ≡ 0 }
    requires goes { Goes (frame_of iteration.old.frame.value) 0 }
    requires number { iteration.old.number < 2 ^ 128 - 1 }
    ensures after { (code : Plain)
        → record {
          outcome = result;
          shared = shared_of shared.new;
          standing = standing_of
              iteration.new;
        }
        ≡ iteration_after code slot (Await event distance) (shared_of shared.old)
        (standing_of iteration.old) }
    ensures kept { IsKernel shared.new.kernel }
{
    let number = iteration.number;
    if number < distance || number - distance < shared.kernel.read(event as usize) {
        iteration.frame.go_on(0);
        return Outcome::Stays;
    }
    park(shared, iteration, slot, event, number - distance + 1);
    Outcome::Parks
}

/// An iteration advances an event, where all before it have.
pub fn advance(shared: &mut Shared, iteration: &mut Iteration, event: u32) -> Outcome
    requires kept { IsKernel shared.old.kernel }
    requires event { event < length shared.old.kernel.counts }
    requires goes { Goes (frame_of iteration.old.frame.value) 0 }
    requires number { iteration.old.number < 2 ^ 128 - 1 }
    ensures after { (code : Plain) (slot : ℕ)
        → record {
          outcome = result;
          shared = shared_of shared.new;
          standing = standing_of
              iteration.new;
        }
        ≡ iteration_after code slot (Advance event) (shared_of shared.old)
        (standing_of iteration.old) }
    ensures kept { IsKernel shared.new.kernel }
{
    if shared.kernel.read(event as usize) != iteration.number {
        return Outcome::Idle;
    }
    shared.kernel.advance(event as usize);
    iteration.frame.go_on(0);
    Outcome::Stays
}

/// A private scalar's value, where it was defined, becomes that of its variable.
fn store_private(cells: &mut [i64], code: &Code, variable: u32, private: Option<i64>)
    requires cells { length cells.old ≡ count_of code.now.variables.items }
    ensures { cells.new ≡ one_after (code_of code.now) variable private cells.old }
{
    if let Some(value) = private {
        if let Some(cell) = code.cell(variable, 0) {
            cells[cell] = value;
        }
    }
}

/// The private scalars that were defined become the values of their variables.
// Out of line, so that an iteration without any retires in its caller.
#[inline(never)]
fn store_all(cells: &mut [i64], code: &Code, variables: &[u32], values: &[Scalar])
    requires cells { length cells.old ≡ count_of code.now.variables.items }
    ensures { cells.new ≡ cells_after (code_of code.now) variables.now (scalars_of values.now)
        cells.old }
{
    let mut i = if variables.len() < values.len() {
        variables.len()
    } else {
        values.len()
    };
    while i > 0 {
        i -= 1;
        store_private(cells, code, variables[i], values[i].get());
    }
}

/// The same, where there are some.
#[inline(always)]
fn store_privates(cells: &mut [i64], code: &Code, variables: &[u32], values: &[Scalar])
    requires cells { length cells.old ≡ count_of code.now.variables.items }
    ensures { cells.new ≡ cells_after (code_of code.now) variables.now (scalars_of values.now)
        cells.old }
{
    if !variables.is_empty() {
        store_all(cells, code, variables, values);
    }
}

/// What an iteration printed goes out. Most print nothing.
#[inline(always)]
fn go_out(output: &mut Vec<u8>, out: &[u8]) -> Result<(), AllocError>
    ensures ok { OnOk result (output.new.items ≡ output.old.items ++ out.now) }
    ensures err { OnErr result (output.new.items ≡ output.old.items) }
{
    if out.is_empty() {
        return Ok(());
    }
    output.extend_from_slice(out)
}

/// An iteration of a loop retires: what it printed goes out.
#[inline(always)]
pub fn leave(
    shared: &mut Shared,
    iteration: &Iteration,
    code: &Code,
    number: u32,
) -> Result<(), AllocError>
    requires number { number < length code.now.loops.items }
    requires cells { length shared.old.cells.items ≡ count_of code.now.variables.items }
    requires counts { 0 < length shared.old.kernel.counts }
    requires few { count_at shared.old.kernel 0 < 2 ^ 128 - 1 }
    ensures ok { OnOk result (shared_of shared.new
        ≡ (leaves (code_of code.now) number (shared_of shared.old)
        (standing_of iteration.now)).shared) }
    ensures kept { OnOk result (IsKernel shared.new.kernel) }
    ensures err { OnErr result (shared_of shared.new ≡ shared_of shared.old) }
{
    go_out(&mut shared.output, &iteration.out)?;
    let variables = code.loops[number as usize].privates.as_slice();
    store_privates(
        &mut shared.cells,
        code,
        variables,
        iteration.frame.privates(),
    );
    shared.kernel.advance(0);
    Ok(())
}

/// The run ends: what the iteration printed goes out.
pub fn finish(shared: &mut Shared, iteration: &Iteration, end: End) -> Result<(), AllocError>
    ensures ok { OnOk result (shared_of shared.new
        ≡ (ends end (shared_of shared.old) (standing_of iteration.now)).shared) }
    ensures err { OnErr result (shared_of shared.new ≡ shared_of shared.old) }
{
    shared.output.extend_from_slice(&iteration.out)?;
    shared.ended = Some(end);
    Ok(())
}

/// Whether all iterations before this one have retired.
fn is_next(shared: &Shared, iteration: &Iteration) -> bool
    requires counts { 0 < length shared.now.kernel.counts }
    ensures { result ≡ (count_at shared.now.kernel 0 == iteration.now.number) }
{
    shared.kernel.read(0) == iteration.number
}

/// An iteration retires, or waits until it is the next to do so.
#[inline(always)]
pub fn retire(
    shared: &mut Shared,
    iteration: &mut Iteration,
    slot: usize,
    code: &Code,
    number: u32,
) -> Result<Outcome, AllocError>
    requires number { number < length code.now.loops.items }
    requires may { May (code_of code.now) slot (shared_of shared.old) (standing_of iteration.old) }
    ensures ok { IfOk result (λ o.
        record { outcome = o; shared = shared_of shared.new; standing = standing_of iteration.new }
        ≡ iteration_after (code_of code.now) slot (Retire number) (shared_of shared.old)
        (standing_of iteration.old)) }
    ensures kept { OnOk result (IsKernel shared.new.kernel) }
    ensures err { OnErr result ((shared_of shared.new ≡ shared_of shared.old)
        × (standing_of iteration.new ≡ standing_of iteration.old)) }
{
    if !is_next(shared, iteration) {
        wait_for_turn(shared, iteration, slot);
        return Ok(Outcome::Parks);
    }
    leave(shared, iteration, code, number)?;
    Ok(Outcome::Leaves)
}

/// An iteration ends the run, or waits until all before it have retired.
fn report(
    shared: &mut Shared,
    iteration: &mut Iteration,
    slot: usize,
    end: End,
) -> Result<Outcome, AllocError>
    requires kept { IsKernel shared.old.kernel }
    requires counts { 0 < length shared.old.kernel.counts }
    requires slot { slot < shared.old.kernel.slots }
    requires nowhere { places slot shared.old.kernel ≡ 0 }
    requires turn { count_at shared.old.kernel 0 ≤ iteration.old.number }
    ensures ok { IfOk result (λ o.
        record { outcome = o; shared = shared_of shared.new; standing = standing_of iteration.new }
        ≡ reported slot end (shared_of shared.old) (standing_of iteration.old)) }
    ensures kept { OnOk result (IsKernel shared.new.kernel) }
    ensures err { OnErr result ((shared_of shared.new ≡ shared_of shared.old)
        × (standing_of iteration.new ≡ standing_of iteration.old)) }
{
    if !is_next(shared, iteration) {
        wait_for_turn(shared, iteration, slot);
        return Ok(Outcome::Parks);
    }
    finish(shared, iteration, end)?;
    Ok(Outcome::Ends)
}

/// A record goes to the iteration's own output.
fn print_own(iteration: &mut Iteration, pieces: &[Piece], values: usize) -> Result<(), AllocError>
    requires goes { Goes (frame_of iteration.old.frame.value) values }
    requires wanted { values ≡ values_wanted (map part pieces.now) }
    ensures ok { OnOk result (standing_of iteration.new
        ≡ printed_own pieces.now values (standing_of iteration.old)) }
    ensures err { OnErr result (standing_of iteration.new ≡ standing_of iteration.old) }
{
    print(
        &mut iteration.out,
        pieces,
        &iteration.frame.operands()[..values],
    )?;
    iteration.frame.go_on(values);
    Ok(())
}

/// An iteration makes the step that stands next.
pub fn iteration_turn(
    shared: &mut Shared,
    iteration: &mut Iteration,
    slot: usize,
    code: &Code,
    next: Next<'_>,
) -> Result<Outcome, AllocError>
    requires may { May (code_of code.now) slot (shared_of shared.old) (standing_of iteration.old) }
    requires tells { Tells (code_of code.now) (frame_of iteration.old.frame.value)
        (view (code_of code.now) (frame_of iteration.old.frame.value)) next }
    ensures ok { IfOk result (λ o.
        record { outcome = o; shared = shared_of shared.new; standing = standing_of iteration.new }
        ≡ iteration_after (code_of code.now) slot next.entry (shared_of shared.old)
        (standing_of iteration.old)) }
    ensures kept { OnOk result (IsKernel shared.new.kernel) }
    ensures err { OnErr result ((shared_of shared.new ≡ shared_of shared.old)
        × (standing_of iteration.new ≡ standing_of iteration.old)) }
{
    match next {
        Next::Load { cell, popped } => {
            load(&mut iteration.frame, &shared.cells, cell, popped);
            Ok(Outcome::Stays)
        }
        Next::Store {
            cell,
            value,
            popped,
        } => {
            store(&mut iteration.frame, &mut shared.cells, cell, value, popped);
            Ok(Outcome::Stays)
        }
        Next::Print { pieces, values } => {
            print_own(iteration, pieces, values)?;
            Ok(Outcome::Stays)
        }
        Next::Await { event, distance } => {
            Ok(await_event(shared, iteration, slot, event, distance))
        }
        Next::Advance { event } => Ok(advance(shared, iteration, event)),
        Next::Retire { number } => retire(shared, iteration, slot, code, number),
        Next::Report { fault, line } => report(shared, iteration, slot, End::Fault(fault, line)),
        Next::Stop { line } => report(shared, iteration, slot, End::Stopped(line)),
        Next::Local
        | Next::TakeRecord { .. }
        | Next::TakeValue { .. }
        | Next::DropRecord
        | Next::Opens(_)
        | Next::Join { .. }
        | Next::Halt
        | Next::Stuck => Ok(Outcome::Idle),
    }
}
