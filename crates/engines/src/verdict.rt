//! What a source is judged to be.

ghost use Rattle.std.specs.Prelude.{IfOk};
ghost use Rattle.engines.specs.Engines.{IsVerdict};

use ast::{Line, Program, Refusal, Rule};
use profile_check::program;
use std::alloc::{AllocError, Global};

/// What a source is judged to be.
#[derive(Drop)]
pub enum Verdict {
    /// A program of the profile.
    Accepted(Program),
    /// None: the first rule that it breaks, and the line.
    Refused { number: Rule, line: Line },
}

/// Judges a source.
///
/// # Errors
///
/// `AllocError` where memory is refused.
pub fn judged(alloc: Global, source: &[u8]) -> Result<Verdict, AllocError>
    ensures { IfOk result (λ verdict. IsVerdict source.now verdict) }
{
    match program(alloc, source) {
        Ok(program) => Ok(Verdict::Accepted(program)),
        Err(Refusal::Refused { number, line }) => Ok(Verdict::Refused { number, line }),
        Err(Refusal::Memory) => Err(AllocError),
    }
}
