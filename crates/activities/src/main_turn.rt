//! Steps of main.

ghost use Rattle.std.specs.Prelude.{◌≡◌, ◌<◌, List, Option, Some, None, IfOk, OnErr, OnOk, length};
ghost use Rattle.std.specs.Prelude.{map, pos, set, slice_get, true};
ghost use Rattle.ast.specs.Exact.{in_range};
ghost use Rattle.ast.specs.Input.{next_integer, taken};
ghost use Rattle.ec_kernel.specs.View.{IsKernel, NoWaiter, places};
ghost use Rattle.machine.specs.Code.{Code as Plain, loop_at};
ghost use Rattle.machine.specs.CodeView.{code_of, part};
ghost use Rattle.machine.specs.FrameView.{frame_of};
ghost use Rattle.machine.specs.Laid.{cell_number, count_of};
ghost use Rattle.machine.specs.Local.{going_on, without};
ghost use Rattle.machine.specs.Next.{Goes, Pushes, Tells};
ghost use Rattle.machine.specs.State.{Who};
ghost use Rattle.machine.specs.View.{frame_after, frame_joined, frame_with, index_at, input_after};
ghost use Rattle.machine.specs.View.{input_behind, values_wanted, view};
ghost use Rattle.machine.specs.declared.next.Next.TheVariants.{Opens};
ghost use Rattle.activities.specs.MainTurns.{MayLead, after_of, kept_of, main_part, printed_out};
ghost use Rattle.activities.specs.Parts.{Standing};
ghost use Rattle.activities.specs.PartsView.{shared_of};
ghost use Rattle.activities.specs.declared.turn.Outcome.TheVariants.{Ends};
ghost use Rattle.activities.specs.Turns.{joins, main_after, none_open, set_if, with_last};

use crate::parts::{Main, Shared, Until};
use crate::printing::print;
use crate::turn::{Outcome, load, store};
use crate::values_at::value_after;
use ast::{End, Line};
use machine::{Code, Frame, Next, Open, Piece};
use std::alloc::AllocError;

/// A record goes out.
fn print_out(
    shared: &mut Shared,
    frame: &mut Frame,
    pieces: &[Piece],
    values: usize,
) -> Result<(), AllocError>
    requires goes { Goes (frame_of frame.old) values }
    requires wanted { values ≡ values_wanted (map part pieces.now) }
    ensures ok { OnOk result
        ((shared_of shared.new
        ≡ printed_out pieces.now (frame_of frame.old) (shared_of shared.old))
        × (frame_of frame.new
        ≡ going_on (without values (frame_of frame.old).operands) (frame_of frame.old))) }
    ensures err { OnErr result ((shared_of shared.new ≡ shared_of shared.old)
        × (frame_of frame.new ≡ frame_of frame.old)) }
{
    print(&mut shared.output, pieces, &frame.operands()[..values])?;
    frame.go_on(values);
    Ok(())
}

/// A record of the input is taken.
fn take_record(main: &mut Main<'_>, line: Line) -> Result<(), AllocError>
    requires goes { Goes (frame_of main.old.frame) 0 }
    ensures ok { OnOk result (main_part main.new
        ≡ record (main_part main.old) {
          frame = frame_after (taken (main_part main.old).input.records) line
              (main_part main.old).frame;
          input = input_after
              (taken (main_part main.old).input.records) (main_part main.old).input;
        }) }
    ensures err { OnErr result (main_part main.new ≡ main_part main.old) }
{
    match main.input.take()? {
        Ok(()) => main.frame.go_on(0),
        Err(fault) => main.frame.break_off(fault, line),
    }
    Ok(())
}

/// An integer of the input becomes an operand.
fn take_value(main: &mut Main<'_>, line: Line) -> Result<(), AllocError>
    requires pushes { Pushes (frame_of main.old.frame) 0 }
    ensures ok { OnOk result (main_part main.new
        ≡ record (main_part main.old) {
          frame = frame_with
              (next_integer (main_part main.old).input.left (main_part main.old).input.records) line
              (main_part main.old).frame;
          input = input_behind
              (next_integer (main_part main.old).input.left (main_part main.old).input.records)
              (main_part main.old).input;
        }) }
    ensures err { OnErr result (main_part main.new ≡ main_part main.old) }
{
    match main.input.take_value()? {
        Ok(value) => main.frame.go_on_with(0, value),
        Err(fault) => main.frame.break_off(fault, line),
    }
    Ok(())
}

/// A loop is opened, where no iteration is open.
fn open(shared: &mut Shared, main: &mut Main<'_>, none: bool, opened: Open) -> Outcome
    requires kept { IsKernel shared.old.kernel }
    requires alone { none ≡ true → NoWaiter shared.old.kernel.waiters }
    requires goes { Goes (frame_of main.old.frame) 2 }
    ensures after { (code : Plain) (xs : List (Option Standing)) (hs : List (Option Who))
        → none_open xs ≡ none → after_of result (shared_of shared.new) (main_part main.new)
        ≡ main_after code (Opens opened)
        (kept_of (shared_of shared.old) (main_part main.old) xs hs) }
    ensures kept { IsKernel shared.new.kernel }
{
    if !none {
        return Outcome::Idle;
    }
    shared.kernel.reset();
    shared.open = Some(opened);
    main.frame.go_on(2);
    Outcome::Stays
}

/// A cell gets a value.
fn set_cell(cells: &mut [i64], cell: usize, value: i64)
    requires cell { cell < length cells.old }
    ensures { cells.new ≡ set cells.old cell value }
{
    cells[cell] = value;
}

/// The open loop's variable gets its last value.
fn store_last(shared: &mut Shared, code: &Code, variable: usize, value: i64)
    requires cells { length shared.old.cells.items ≡ count_of code.now.variables.items }
    ensures { shared_of shared.new
        ≡ record (shared_of shared.old) {
          cells = set_if (cell_number (slice_get code.now.variables.items variable) (pos 0))
              value shared.old.cells.items;
        } }
{
    if let Some(cell) = code.cell_at(variable, 0) {
        set_cell(&mut shared.cells, cell, value);
    }
}

/// The DO variable of a loop, by its place among the code's variables, and the loop's step.
pub fn variable_and_step(code: &Code, number: u32) -> (usize, i64)
    ensures variable { result.0 ≡ (loop_at (code_of code.now) number).variable }
    ensures step { result.1 ≡ (loop_at (code_of code.now) number).step }
{
    let loops = code.loops.as_slice();
    let number = number as usize;
    if number < loops.len() {
        (loops[number].variable, loops[number].step)
    } else {
        (code.variables.len(), 0)
    }
}

/// The open loop is closed.
fn close(shared: &mut Shared, frame: &mut Frame, code: &Code, line: Line, opened: Open)
    requires cells { length shared.old.cells.items ≡ count_of code.now.variables.items }
    requires goes { Goes (frame_of frame.old) 0 }
    ensures shared { shared_of shared.new
        ≡ record (shared_of shared.old) {
          cells = with_last (code_of code.now) opened
              (in_range (index_at (code_of code.now) opened opened.trips)) shared.old.cells.items;
          loop = None;
        } }
    ensures frame { frame_of frame.new
        ≡ frame_joined (in_range (index_at (code_of code.now) opened opened.trips)) line
        (frame_of frame.old) }
    ensures kernel { shared.new.kernel ≡ shared.old.kernel }
{
    let (variable, step) = variable_and_step(code, opened.number);
    shared.open = None;
    match value_after(opened.first, opened.trips, step) {
        Ok(value) => {
            store_last(shared, code, variable, value);
            frame.go_on(0);
        }
        Err(fault) => frame.break_off(fault, line),
    }
}

/// The open loop is closed, or main waits until its iterations have retired.
fn join(shared: &mut Shared, main: &mut Main<'_>, code: &Code, line: Line) -> Outcome
    requires kept { IsKernel shared.old.kernel }
    requires counts { 0 < length shared.old.kernel.counts }
    requires slot { 0 < shared.old.kernel.slots }
    requires nowhere { places 0 shared.old.kernel ≡ 0 }
    requires cells { length shared.old.cells.items ≡ count_of code.now.variables.items }
    requires goes { Goes (frame_of main.old.frame) 0 }
    ensures after { (xs : List (Option Standing)) (hs : List (Option Who))
        → after_of result (shared_of shared.new) (main_part main.new)
        ≡ joins (code_of code.now) line shared.old.open
        (kept_of (shared_of shared.old) (main_part main.old) xs hs) }
    ensures kept { IsKernel shared.new.kernel }
{
    let Some(opened) = shared.open else {
        return Outcome::Idle;
    };
    if opened.trips <= shared.kernel.read(0) {
        close(shared, &mut main.frame, code, line, opened);
        return Outcome::Stays;
    }
    let value = opened.trips;
    shared.kernel.park(0, value, 0);
    main.wait = Some(Until::Retired { value });
    Outcome::Parks
}

/// Main makes the step that stands next; `none` says whether no iteration is open.
pub fn main_turn(
    shared: &mut Shared,
    main: &mut Main<'_>,
    none: bool,
    code: &Code,
    next: Next<'_>,
) -> Result<Outcome, AllocError>
    requires may { MayLead (code_of code.now) (shared_of shared.old) none }
    requires tells { Tells (code_of code.now) (frame_of main.old.frame)
        (view (code_of code.now) (frame_of main.old.frame)) next }
    ensures ok { IfOk result (λ o. (xs : List (Option Standing)) (hs : List (Option Who))
        → none_open xs ≡ none → after_of o (shared_of shared.new) (main_part main.new)
        ≡ main_after (code_of code.now) next.entry
        (kept_of (shared_of shared.old) (main_part main.old) xs hs)) }
    ensures kept { OnOk result (IsKernel shared.new.kernel) }
    ensures err { OnErr result ((shared_of shared.new ≡ shared_of shared.old)
        × (main_part main.new ≡ main_part main.old)) }
{
    match next {
        Next::Load { cell, popped } => {
            load(&mut main.frame, &shared.cells, cell, popped);
            Ok(Outcome::Stays)
        }
        Next::Store {
            cell,
            value,
            popped,
        } => {
            store(&mut main.frame, &mut shared.cells, cell, value, popped);
            Ok(Outcome::Stays)
        }
        Next::Print { pieces, values } => {
            print_out(shared, &mut main.frame, pieces, values)?;
            Ok(Outcome::Stays)
        }
        Next::TakeRecord { line } => {
            take_record(main, line)?;
            Ok(Outcome::Stays)
        }
        Next::TakeValue { line } => {
            take_value(main, line)?;
            Ok(Outcome::Stays)
        }
        Next::DropRecord => {
            main.input.drop_rest();
            main.frame.go_on(0);
            Ok(Outcome::Stays)
        }
        Next::Opens(opened) => Ok(open(shared, main, none, opened)),
        Next::Join { line } => Ok(join(shared, main, code, line)),
        Next::Report { fault, line } => Ok(end(shared, End::Fault(fault, line))),
        Next::Stop { line } => Ok(end(shared, End::Stopped(line))),
        Next::Halt => Ok(end(shared, End::Done)),
        Next::Local
        | Next::Await { .. }
        | Next::Advance { .. }
        | Next::Retire { .. }
        | Next::Stuck => Ok(Outcome::Idle),
    }
}

/// The run ends.
fn end(shared: &mut Shared, end: End) -> Outcome
    ensures outcome { result ≡ Ends }
    ensures shared { shared_of shared.new ≡ record (shared_of shared.old) { ended = Some end } }
{
    shared.ended = Some(end);
    Outcome::Ends
}
