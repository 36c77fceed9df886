//! Which call of `run` something belongs to.

use std::marker::Brand;

/// A call of `run`: its code and input, its number of processors, and how many iterations may be
/// open. Each call has a type of its own, so that what threads share can't be another call's.
pub trait Call {
    ghost use Rattle.std.specs.Prelude.{ℕ, Bool, List};
    ghost use Rattle.machine.specs.Code.{Code};

    ghost code: { Code };

    ghost input: { List ℕ };

    ghost processors: { ℕ };

    ghost slots: { ℕ };

    /// Whether records are handed on while the run goes on. Then each state that a run reaches has
    /// printed a beginning of `text`.
    ghost streams: { Bool };

    ghost text: { List ℕ };
}

impl Call for Brand {
    ghost use Rattle.std.specs.Prelude.{[], false};

    ghost code = { record { instructions = []; records = []; awaits = []; variables = []; loops = []; operands = 0; counters = 0 } };

    ghost input = { [] };

    ghost processors = { 1 };

    ghost slots = { 1 };

    ghost streams = { false };

    ghost text = { [] };
}
