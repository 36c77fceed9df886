//! A run under way.

use crate::input::Input;
use crate::memory::Memory;
use ast::{Answer, End, Program};
use std::alloc::{AllocError, Global};

/// What a run holds: its values, its input and its output.
#[derive(Drop)]
pub struct Machine<'p> {
    pub memory: Memory<'p>,
    pub input: Input<'p>,
    /// The records that were printed.
    pub output: Vec<u8>,
}

impl<'p> Machine<'p> {
    ghost use Rattle.std.specs.Prelude.{IfOk, ◌≡◌};
    ghost use Rattle.ast.specs.Meaning.{start};
    ghost use Rattle.ast.specs.ProgramView.{program as program_of};
    ghost use Rattle.ast.specs.declared.fault.End.TheVariants.{Done};
    ghost use Rattle.tree_run.specs.Answers.{Tells};
    ghost use Rattle.tree_run.specs.Runs.{run_of, symbols_of};

    /// Before the first statement: all values are zero, and nothing was read or printed.
    ///
    /// # Errors
    ///
    /// `AllocError` where memory is refused.
    pub fn new(
        alloc: Global,
        program: &'p Program,
        input: &'p [u8],
    ) -> Result<Machine<'p>, AllocError>
        ensures start { IfOk result (λ m. run_of m Done ≡ start input.now) }
        ensures symbols { IfOk result (λ m. symbols_of m ≡ (program_of program.now).symbols) }
    {
        let memory = Memory::zeros(alloc, program)?;
        Ok(Machine {
            memory,
            input: Input::new(alloc, input),
            output: Vec::new(alloc),
        })
    }

    /// The answer of a run that ended so.
    pub fn into_answer(self, end: End) -> Answer
        ensures { Tells (symbols_of self.entry) (run_of self.entry end) result }
    {
        Answer {
            output: self.output,
            store: self.memory.into_store(),
            end,
        }
    }
}
