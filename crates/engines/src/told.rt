//! What `check` writes.

ghost use Rattle.std.specs.Prelude.{◌≡◌, ◌≤◌, IfOk};
ghost use Rattle.ast.specs.Program.{loops_in};
ghost use Rattle.ast.specs.ProgramView.{program as program_of};
ghost use Rattle.command_output.specs.Shown.{accepted};
ghost use Rattle.engines.specs.Engines.{IsJudged, Tells};

use crate::loops::loops_in;
use crate::verdict::Verdict;
use ast::Program;
use command_output::{Outcome, Page, append_accepted, refused};
use std::alloc::{AllocError, Global};

/// What `check` writes of a verdict.
pub fn told(alloc: Global, verdict: &Verdict) -> Result<Page, AllocError>
    requires { IsJudged verdict.now }
    ensures { IfOk result (λ page. Tells verdict.now page.outcome page.text.items) }
{
    match verdict {
        Verdict::Accepted(program) => accepted(alloc, program),
        Verdict::Refused { number, line } => refused(alloc, *number, *line),
    }
}

fn accepted(alloc: Global, program: &Program) -> Result<Page, AllocError>
    requires { loops_in (program_of program.now).block ≤ (program_of program.now).count }
    ensures { IfOk result (λ page. (page.outcome ≡ Outcome.Completed)
        × (page.text.items ≡ accepted (program_of program.now))) }
{
    let mut text = Vec::new(alloc);
    append_accepted(&mut text, program.statements, loops_in(&program.body))?;
    Ok(Page {
        text,
        outcome: Outcome::Completed,
    })
}
