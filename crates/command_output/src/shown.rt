//! Lines of standard output.

ghost use Rattle.std.specs.Prelude.{◌≡◌, ◌++◌, OnOk};
ghost use Rattle.command_output.specs.Shown.{accepted_with, at_line, no_schedule, refused};
ghost use Rattle.command_output.specs.Shown.{faulted, stopped};

use ast::{Fault, Line, Rule};
use explanations::{append_number, fault_name, fault_number};
use schedules::Flaw;
use std::alloc::AllocError;

/// Appends the number of a source line, and ends the line of output.
///
/// # Errors
///
/// `AllocError` where memory is refused; a part may have been appended then.
pub fn append_line(out: &mut Vec<u8>, line: Line) -> Result<(), AllocError>
    ensures { OnOk result (out.new.items ≡ out.old.items ++ at_line line) }
{
    out.extend_from_slice(b" LINE ")?;
    append_number(out, line)?;
    out.extend_from_slice(b"\n")
}

/// Appends the line of a source that is accepted; `statements` counts END.
///
/// # Errors
///
/// `AllocError` where memory is refused; a part may have been appended then.
pub fn append_accepted(out: &mut Vec<u8>, statements: usize, loops: usize) -> Result<(), AllocError>
    ensures { OnOk result (out.new.items ≡ out.old.items ++ accepted_with statements loops) }
{
    out.extend_from_slice(b"ACCEPTED STATEMENTS ")?;
    append_number(out, statements)?;
    out.extend_from_slice(b" LOOPS ")?;
    append_number(out, loops)?;
    out.extend_from_slice(b"\n")
}

/// Appends the line of a source that is refused.
pub fn append_refused(out: &mut Vec<u8>, rule: Rule, line: Line) -> Result<(), AllocError>
    ensures { OnOk result (out.new.items ≡ out.old.items ++ refused rule line) }
{
    out.extend_from_slice(b"REFUSED ")?;
    append_number(out, rule.number())?;
    append_line(out, line)
}

/// Appends the line of a schedule that is refused.
pub fn append_no_schedule(out: &mut Vec<u8>, flaw: Flaw, line: usize) -> Result<(), AllocError>
    ensures { OnOk result (out.new.items ≡ out.old.items ++ no_schedule flaw line) }
{
    out.extend_from_slice(b"SCHEDULE ")?;
    append_number(out, flaw.number())?;
    out.extend_from_slice(b" LINE ")?;
    append_number(out, line)?;
    out.extend_from_slice(b"\n")
}

/// Appends the line of a fault.
pub fn append_fault(out: &mut Vec<u8>, fault: Fault, line: Line) -> Result<(), AllocError>
    ensures { OnOk result (out.new.items ≡ out.old.items ++ faulted fault line) }
{
    out.extend_from_slice(b"FAULT ")?;
    append_number(out, fault_number(fault))?;
    out.extend_from_slice(b" ")?;
    out.extend_from_slice(fault_name(fault))?;
    append_line(out, line)
}

/// Appends the line of a STOP.
pub fn append_stopped(out: &mut Vec<u8>, line: Line) -> Result<(), AllocError>
    ensures { OnOk result (out.new.items ≡ out.old.items ++ stopped line) }
{
    out.extend_from_slice(b"STOPPED")?;
    append_line(out, line)
}
