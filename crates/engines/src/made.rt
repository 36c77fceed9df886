//! What commands come to that make a text for a file.

use command_output::{EngineFault, Outcome, Page};
use record_writer::write_all;
use std::io::Write;

/// What a command comes to that makes a text of a source, an input and a schedule for a file.
#[derive(Drop)]
pub enum Made {
    /// The text: a schedule in which each pick is named, or a picture of a run, an SVG file.
    Text(Vec<u8>),
    /// What is shown where there is none.
    Shown(Page),
}

impl Made {
    ghost use Rattle.std.specs.Prelude.{◌≡◌, IfOk, IfErr};
    ghost use Rattle.command_output.specs.Outcomes.{IsWriting};
    ghost use Rattle.engines.specs.Schedules.{WritesPart, WritesUpgraded, upgrade_outcome};

    /// Writes the text to `upgraded`, or the page to `out`.
    ///
    /// # Errors
    ///
    /// A fault of the writer, with a beginning of the text written.
    pub fn write<W: Write, V: Write>(
        &self,
        out: &mut W,
        upgraded: &mut V,
    ) -> Result<Outcome, EngineFault>
        ensures ok { IfOk result (λ outcome. (outcome ≡ upgrade_outcome self.now)
            × WritesUpgraded self.now (W.contents out.old) (W.contents out.new)
            (V.contents upgraded.old) (V.contents upgraded.new)) }
        ensures err { IfErr result (λ fault. IsWriting fault
            × WritesPart self.now (W.contents out.old) (W.contents out.new)
            (V.contents upgraded.old) (V.contents upgraded.new)) }
    {
        match self {
            Made::Text(text) => match write_all(upgraded, text) {
                Ok(()) => Ok(Outcome::Completed),
                Err(error) => Err(EngineFault::Writing(error)),
            },
            Made::Shown(page) => page.write(out),
        }
    }
}
