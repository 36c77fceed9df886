//! Which command is obeyed how.

ghost use Rattle.doac.specs.Commands.{Obeys};

use crate::code_file::code_file;
use crate::drawings::draw_file;
use crate::making::{Making, make_files};
use crate::models::model_files;
use crate::replays::replay_files;
use crate::sources::{check_file, list_file, seq_files};
use crate::threads::run_files;
use crate::told::status_of_print;
use command_line::Command;
use command_output::Status;
use explanations::explain;
use named_files::NamedFiles;
use std::io::Write;
use std::sync::Wait;
use std::thread::Threads;
use threaded::Nowhere;

/// Does what a command asks for. Of a sequential run's records `most` bytes may wait to be written.
/// What a sequential run prints that is made for a message alone, at a fault of `run` or `replay`,
/// goes to `nowhere`, which is to show nothing.
pub fn obey<
    R: Print + Eprint + AllocGlobal + Threads + Wait + Sync,
    F: NamedFiles,
    W: Write + Nowhere + Drop,
>(rt: &R, files: &mut F, out: &mut W, nowhere: &mut W, command: Command<'_>, most: usize) -> Status
    ensures { Obeys command.entry
        (F.done files.old) (F.done files.new) (W.contents out.old) (W.contents out.new) result }
{
    match command {
        Command::Check(source) => check_file(rt, files, out, source),
        Command::ListLoops { source, why } => list_file(rt, files, out, source, why),
        Command::ShowCode(source) => code_file(rt, files, out, source),
        Command::Seq {
            source,
            input,
            store,
        } => seq_files(rt, files, out, source, input, store, most),
        Command::Run(asked) => run_files(rt, files, out, nowhere, asked, most),
        Command::Model(asked) => model_files(rt, files, out, nowhere, asked),
        Command::Replay { names, states } => replay_files(rt, files, out, nowhere, names, states),
        Command::Upgrade(names, onto) => {
            make_files(rt, files, out, Making::Schedule, names, onto)
        }
        Command::Draw(drawing) => draw_file(rt, files, out, drawing),
        Command::Timeline(names, onto) => {
            make_files(rt, files, out, Making::Picture, names, onto)
        }
        Command::Explain(Some(number)) => status_of_print(rt, explain::explain(rt, number)),
        Command::Explain(None) => status_of_print(rt, explain::list(rt)),
        Command::ExplainSerial(reason) => status_of_print(rt, explain::explain_serial(rt, reason)),
    }
}
