//! What `code` writes of a source.

ghost use Rattle.std.specs.Prelude.{IfOk};
ghost use Rattle.engines.specs.Coded.{ShowsCode};

use crate::code_lines::code_lines;
use crate::prepared::{Prepared, prepare};
use command_output::{Outcome, Page};
use std::alloc::{AllocError, Global};

/// The lines of the code of a source, or of its refusal.
pub fn coded(alloc: Global, source: &[u8]) -> Result<Page, AllocError>
    ensures { IfOk result (λ page. ShowsCode source.now page.outcome page.text.items) }
{
    match prepare(alloc, source)? {
        Prepared::Coded(coded) => Ok(Page {
            text: code_lines(alloc, &coded.code)?,
            outcome: Outcome::Completed,
        }),
        Prepared::Refused(page) => Ok(page),
    }
}
