//! What the matches of a command line hold.

ghost use Rattle.std.specs.Prelude.{◌≡◌, IfErr, IfOk, codes, option_map, ℕ};
ghost use Rattle.clap.specs.Words.{first_of, found_of, one_of, rows_of, subcommand_rows_of};
ghost use Rattle.command_line.specs.CommandLine.{HasNoCount, HasNoSize, HeldIn, HeldInNone};
ghost use Rattle.command_line.specs.CommandLine.{HoldsNone, Holds, IsCountOf, IsFlag, IsNumber};
ghost use Rattle.command_line.specs.CommandLine.{IsReason, IsSizeOf, MadeOf, NamesTexts};
ghost use Rattle.command_line.specs.declared.matches.LineFault.TheVariants.{Memory, NoPortion};
ghost use Rattle.command_line.specs.declared.matches.LineFault.TheVariants.{NoSize, NoSuchNumber};

use crate::command::{Command, Drawing, Modelled, TextFiles, Threaded};
use clap::ArgMatches;
use clap::error::ErrorKind;
use command_output::Status;
use explanations::explain::{is_explained, is_reason};
use std::alloc::AllocError;
use thiserror::Error;

/// Why the words of a command line name no command.
#[derive(Debug, Drop, Error)]
pub enum LineFault {
    /// They ask for help or for the version, which is no mistake.
    #[error("{0}")]
    Help(clap::Error),
    /// They are none of the program's command lines.
    #[error("{0}")]
    Mistake(clap::Error),
    /// They hold no command.
    #[error("error: no command was given\n\nUsage: doac <COMMAND>\n\nFor more information, try '--help'.\n")]
    NoCommand,
    /// They ask to explain a number that is no refusal's and no fault's, or, of a serial loop, no
    /// reason's.
    #[error("error: nothing has this number; there are 1 to 8, 20 to 27, 30 to 43, 51 to 59 and 61, and behind serial 1 to 6\n\nUsage: doac explain [N]\n       doac explain serial <REASON>\n\nFor more information, try '--help'.\n")]
    NoSuchNumber,
    /// They name no whole number of 64 bits where one is wanted.
    #[error("error: -p takes 1 to 64, -s 1 to 256, --most a whole number\n\nUsage: doac run [-p <N>] [-s <N>] <F> [INPUT]\n       doac model [-p <N>] [-s <N>] [--most <STEPS>] [--schedule <OUT>] <F> [INPUT]\n\nFor more information, try '--help'.\n")]
    NoSize,
    /// They ask for a picture by no whole number of 64 bits, or of no 1 to 64 iterations.
    #[error("error: --loop takes a whole number, and --iterations one from 1 to 64\n\nUsage: doac draw [--loop <N>] [--iterations <K>] <F> <OUT>\n\nFor more information, try '--help'.\n")]
    NoPortion,
    /// Memory was refused.
    #[error("out of memory\n")]
    Memory,
}

impl LineFault {
    ghost use Rattle.std.specs.Prelude.{◌≡◌};
    ghost use Rattle.command_line.specs.CommandLine.{line_status};

    /// The exit status.
    pub fn status(&self) -> Status
        ensures { result ≡ line_status self.now }
    {
        match self {
            LineFault::Help(_) => Status::Done,
            LineFault::Mistake(_) => Status::WrongCommand,
            LineFault::NoCommand => Status::WrongCommand,
            LineFault::NoSuchNumber => Status::WrongCommand,
            LineFault::NoSize => Status::WrongCommand,
            LineFault::NoPortion => Status::WrongCommand,
            LineFault::Memory => Status::NoMemory,
        }
    }
}

impl From<AllocError> for LineFault {
    ghost from_gives = { λ _ fault. fault ≡ Memory };

    fn from(_: AllocError) -> Self {
        LineFault::Memory
    }
}

impl From<clap::Error> for LineFault {
    ghost from_gives = { MadeOf };

    fn from(error: clap::Error) -> Self {
        match error.kind() {
            ErrorKind::DisplayHelp => LineFault::Help(error),
            ErrorKind::DisplayVersion => LineFault::Help(error),
            ErrorKind::OutOfMemory => LineFault::Memory,
            _ => LineFault::Mistake(error),
        }
    }
}

/// The command that the matches of a command line hold.
///
/// # Errors
///
/// `NoCommand` where they hold none, or one without what it needs; `NoSuchNumber`, `NoSize` or
/// `NoPortion` where a number in it isn't one that it takes.
pub fn held<'a>(matches: &ArgMatches<'a>) -> Result<Command<'a>, LineFault>
    ensures found { IfOk result (HeldIn (subcommand_rows_of matches.now)) }
    ensures refused { IfErr result (HeldInNone (subcommand_rows_of matches.now)) }
{
    match matches.subcommand() {
        Some((name, given)) => named(name, given),
        None => Err(LineFault::NoCommand),
    }
}

fn named<'a>(name: &str, given: &ArgMatches<'a>) -> Result<Command<'a>, LineFault>
    ensures found { IfOk result (Holds name.now (rows_of (found_of given.now))) }
    ensures refused { IfErr result (HoldsNone name.now (rows_of (found_of given.now))) }
{
    match name {
        "check" => checking(given),
        "list" => listing(given),
        "code" => coding(given),
        "seq" => running(given),
        "run" => threading(given),
        "model" => modelling(given),
        "replay" => replaying(given),
        "upgrade" => upgrading(given),
        "draw" => drawing(given),
        "timeline" => timing(given),
        "explain" => explaining(given),
        _ => Err(LineFault::NoCommand),
    }
}

fn text<'a>(given: &ArgMatches<'a>, id: &str) -> Option<&'a str>
    ensures { option_map (λ s. s.now) result ≡ first_of id.now (rows_of (found_of given.now)) }
{
    given.get_str(id)
}

fn flag(given: &ArgMatches<'_>, id: &str) -> bool
    ensures { IsFlag result (one_of id.now (rows_of (found_of given.now))) }
{
    given.get_flag(id)
}

fn checking<'a>(given: &ArgMatches<'a>) -> Result<Command<'a>, LineFault>
    ensures found { IfOk result (Holds (codes "check") (rows_of (found_of given.now))) }
    ensures refused { IfErr result (HoldsNone (codes "check") (rows_of (found_of given.now))) }
{
    match text(given, "F") {
        Some(source) => Ok(Command::Check(source)),
        None => Err(LineFault::NoCommand),
    }
}

fn listing<'a>(given: &ArgMatches<'a>) -> Result<Command<'a>, LineFault>
    ensures found { IfOk result (Holds (codes "list") (rows_of (found_of given.now))) }
    ensures refused { IfErr result (HoldsNone (codes "list") (rows_of (found_of given.now))) }
{
    match text(given, "F") {
        Some(source) => Ok(Command::ListLoops {
            source,
            why: flag(given, "why"),
        }),
        None => Err(LineFault::NoCommand),
    }
}

fn coding<'a>(given: &ArgMatches<'a>) -> Result<Command<'a>, LineFault>
    ensures found { IfOk result (Holds (codes "code") (rows_of (found_of given.now))) }
    ensures refused { IfErr result (HoldsNone (codes "code") (rows_of (found_of given.now))) }
{
    match text(given, "F") {
        Some(source) => Ok(Command::ShowCode(source)),
        None => Err(LineFault::NoCommand),
    }
}

fn running<'a>(given: &ArgMatches<'a>) -> Result<Command<'a>, LineFault>
    ensures found { IfOk result (Holds (codes "seq") (rows_of (found_of given.now))) }
    ensures refused { IfErr result (HoldsNone (codes "seq") (rows_of (found_of given.now))) }
{
    match text(given, "F") {
        Some(source) => Ok(Command::Seq {
            source,
            input: text(given, "INPUT"),
            store: flag(given, "store"),
        }),
        None => Err(LineFault::NoCommand),
    }
}

/// The number of an option, or another one where the option isn't given.
fn size(given: Option<&str>, default: u64) -> Result<u64, LineFault>
    ensures found { IfOk result (IsSizeOf (option_map (λ s. s.now) given.entry) default) }
    ensures refused { IfErr result (λ fault. (fault ≡ NoSize)
        × HasNoSize (option_map (λ s. s.now) given.entry)) }
{
    let Some(text) = given else {
        return Ok(default);
    };
    match text.parse::<u64>() {
        Ok(number) => Ok(number),
        Err(_) => Err(LineFault::NoSize),
    }
}

fn threading<'a>(given: &ArgMatches<'a>) -> Result<Command<'a>, LineFault>
    ensures found { IfOk result (Holds (codes "run") (rows_of (found_of given.now))) }
    ensures refused { IfErr result (HoldsNone (codes "run") (rows_of (found_of given.now))) }
{
    let Some(source) = text(given, "F") else {
        return Err(LineFault::NoCommand);
    };
    let processors = size(text(given, "p"), 2)?;
    let slots = size(text(given, "s"), 4)?;
    Ok(Command::Run(Threaded {
        source,
        input: text(given, "INPUT"),
        processors,
        slots,
        schedule: text(given, "schedule"),
        store: flag(given, "store"),
        tally: flag(given, "tally"),
    }))
}

fn modelling<'a>(given: &ArgMatches<'a>) -> Result<Command<'a>, LineFault>
    ensures found { IfOk result (Holds (codes "model") (rows_of (found_of given.now))) }
    ensures refused { IfErr result (HoldsNone (codes "model") (rows_of (found_of given.now))) }
{
    let Some(source) = text(given, "F") else {
        return Err(LineFault::NoCommand);
    };
    Ok(Command::Model(Modelled {
        source,
        input: text(given, "INPUT"),
        processors: size(text(given, "p"), 2)?,
        slots: size(text(given, "s"), 4)?,
        most: size(text(given, "most"), 100_000_000)?,
        schedule: text(given, "schedule"),
    }))
}

/// The files of a replay, if all are named.
fn text_files<'a>(given: &ArgMatches<'a>) -> Option<TextFiles<'a>>
    ensures { NamesTexts result (rows_of (found_of given.now)) }
{
    let source = text(given, "F")?;
    let input = text(given, "INPUT")?;
    let schedule = text(given, "SCHEDULE")?;
    Some(TextFiles {
        source,
        input,
        schedule,
    })
}

fn replaying<'a>(given: &ArgMatches<'a>) -> Result<Command<'a>, LineFault>
    ensures found { IfOk result (Holds (codes "replay") (rows_of (found_of given.now))) }
    ensures refused { IfErr result (HoldsNone (codes "replay") (rows_of (found_of given.now))) }
{
    match text_files(given) {
        Some(names) => Ok(Command::Replay {
            names,
            states: flag(given, "states"),
        }),
        None => Err(LineFault::NoCommand),
    }
}

fn upgrading<'a>(given: &ArgMatches<'a>) -> Result<Command<'a>, LineFault>
    ensures found { IfOk result (Holds (codes "upgrade") (rows_of (found_of given.now))) }
    ensures refused { IfErr result (HoldsNone (codes "upgrade") (rows_of (found_of given.now))) }
{
    match (text_files(given), text(given, "OUT")) {
        (Some(names), Some(out)) => Ok(Command::Upgrade(names, out)),
        _ => Err(LineFault::NoCommand),
    }
}

/// The number of a loop, 1 where none is named.
fn loop_number(given: Option<&str>) -> Result<u64, LineFault>
    ensures found { IfOk result (IsSizeOf (option_map (λ s. s.now) given.entry) 1) }
    ensures refused { IfErr result (λ fault. (fault ≡ NoPortion) × HasNoSize
        (option_map (λ s. s.now) given.entry)) }
{
    match size(given, 1) {
        Ok(number) => Ok(number),
        Err(_) => Err(LineFault::NoPortion),
    }
}

/// The number of iterations that are drawn, 8 where none is named.
fn iterations(given: Option<&str>) -> Result<u64, LineFault>
    ensures found { IfOk result (IsCountOf (option_map (λ s. s.now) given.entry)) }
    ensures refused { IfErr result (λ fault. (fault ≡ NoPortion) × HasNoCount
        (option_map (λ s. s.now) given.entry)) }
{
    let Some(text) = given else {
        return Ok(8);
    };
    match text.parse::<u64>() {
        Ok(count) if 1 <= count && count <= 64 => Ok(count),
        _ => Err(LineFault::NoPortion),
    }
}

fn drawing<'a>(given: &ArgMatches<'a>) -> Result<Command<'a>, LineFault>
    ensures found { IfOk result (Holds (codes "draw") (rows_of (found_of given.now))) }
    ensures refused { IfErr result (HoldsNone (codes "draw") (rows_of (found_of given.now))) }
{
    let (Some(source), Some(out)) = (text(given, "F"), text(given, "OUT")) else {
        return Err(LineFault::NoCommand);
    };
    let number = loop_number(text(given, "loop"))?;
    let iterations = iterations(text(given, "iterations"))?;
    Ok(Command::Draw(Drawing {
        source,
        out,
        number,
        iterations,
    }))
}

fn timing<'a>(given: &ArgMatches<'a>) -> Result<Command<'a>, LineFault>
    ensures found { IfOk result (Holds (codes "timeline") (rows_of (found_of given.now))) }
    ensures refused { IfErr result (HoldsNone (codes "timeline") (rows_of (found_of given.now))) }
{
    match (text_files(given), text(given, "OUT")) {
        (Some(names), Some(out)) => Ok(Command::Timeline(names, out)),
        _ => Err(LineFault::NoCommand),
    }
}

fn explaining<'a>(given: &ArgMatches<'a>) -> Result<Command<'a>, LineFault>
    ensures found { IfOk result (Holds (codes "explain") (rows_of (found_of given.now))) }
    ensures refused { IfErr result (HoldsNone (codes "explain") (rows_of (found_of given.now))) }
{
    match (text(given, "N"), text(given, "REASON")) {
        (Some(word), Some(reason)) => Ok(Command::ExplainSerial(serial(word, reason)?)),
        (Some(number), None) => Ok(Command::Explain(Some(explained(number)?))),
        (None, _) => Ok(Command::Explain(None)),
    }
}

/// The number of a text behind the word `serial`, if it is that of a reason.
fn serial(word: &str, text: &str) -> Result<u8, LineFault>
    ensures found { IfOk result (λ reason. (word.now ≡ codes "serial") × IsReason reason text.now) }
    ensures refused { IfErr result (λ fault. (fault ≡ NoSuchNumber)
        × (word.now ≡ codes "serial" → (n : ℕ) → IsReason n text.now → ⊥)) }
{
    match word {
        "serial" => reason(text),
        _ => Err(LineFault::NoSuchNumber),
    }
}

/// The number of a text, if it is that of a reason.
fn reason(text: &str) -> Result<u8, LineFault>
    ensures found { IfOk result (λ reason. IsReason reason text.now) }
    ensures refused { IfErr result (λ fault. (fault ≡ NoSuchNumber)
        × ((n : ℕ) → IsReason n text.now → ⊥)) }
{
    match text.parse::<u8>() {
        Ok(number) if is_reason(number) => Ok(number),
        _ => Err(LineFault::NoSuchNumber),
    }
}

/// The number of a text, if it is that of a refusal or a fault.
fn explained(text: &str) -> Result<u8, LineFault>
    ensures found { IfOk result (λ number. IsNumber number text.now) }
    ensures refused { IfErr result (λ fault. (fault ≡ NoSuchNumber)
        × ((n : ℕ) → IsNumber n text.now → ⊥)) }
{
    match text.parse::<u8>() {
        Ok(number) if is_explained(number) => Ok(number),
        _ => Err(LineFault::NoSuchNumber),
    }
}
