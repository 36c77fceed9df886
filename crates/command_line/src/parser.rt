//! The command line, read by clap.

ghost use Rattle.std.specs.Prelude.{◌≡◌, ◌∷◌, [], IfErr, IfOk, false, map};
ghost use Rattle.clap.specs.Words.{App, Rule, new_app, rule_of, with_rule, with_subcommand};
ghost use Rattle.command_line.specs.CommandLine.{IsLine, Names, NamesNone, Reads, check, code};
ghost use Rattle.command_line.specs.CommandLine.{doac, draw, explain, flag, input, letter, list};
ghost use Rattle.command_line.specs.CommandLine.{model, named_option, needed, optional, out};
ghost use Rattle.command_line.specs.CommandLine.{processors, replay, run, schedule, schedule_out};
ghost use Rattle.command_line.specs.CommandLine.{seq, slots, source, store, timeline, upgrade};
ghost use Rattle.command_line.specs.CommandLine.{whole_input, with_subcommands};

use crate::command::Command;
use crate::help;
use crate::matches::{LineFault, held};
use clap::{Arg, ArgAction};
use std::alloc::{AllocError, Global};
use std::convert::AsStr;

/// An argument that can't be done without.
fn needed<'a>(alloc: Global, id: &'a str, help: &'a str) -> Arg<'a>
    ensures rule { rule_of result ≡ needed id.entry.now }
    ensures local { result.global ≡ false }
{
    Arg::new(alloc, id)
        .required(true)
        .action(ArgAction::Set)
        .help(help)
}

/// An argument that may be left out.
fn optional<'a>(alloc: Global, id: &'a str, help: &'a str) -> Arg<'a>
    ensures rule { rule_of result ≡ optional id.entry.now }
    ensures local { result.global ≡ false }
{
    Arg::new(alloc, id).action(ArgAction::Set).help(help)
}

/// An option with a word behind it, which help calls a value.
fn option<'a>(alloc: Global, id: &'a str, value: &'a str, help: &'a str) -> Arg<'a>
    ensures rule { rule_of result ≡ named_option id.entry.now }
    ensures local { result.global ≡ false }
{
    Arg::new(alloc, id)
        .long(id)
        .action(ArgAction::Set)
        .value_name(value)
        .help(help)
}

/// An option with nothing behind it.
fn flag<'a>(alloc: Global, id: &'a str, help: &'a str) -> Arg<'a>
    ensures rule { rule_of result ≡ flag id.entry.now }
    ensures local { result.global ≡ false }
{
    Arg::new(alloc, id)
        .long(id)
        .action(ArgAction::SetTrue)
        .help(help)
}

/// An option of one letter, with a number behind it.
fn letter<'a>(alloc: Global, id: &'a str, short: char, help: &'a str) -> Arg<'a>
    ensures rule { rule_of result ≡ letter id.entry.now short }
    ensures local { result.global ≡ false }
{
    Arg::new(alloc, id)
        .short(short)
        .action(ArgAction::Set)
        .value_name("N")
        .help(help)
}

fn source<'a>(alloc: Global) -> Arg<'a>
    ensures rule { rule_of result ≡ source }
    ensures local { result.global ≡ false }
{
    needed(
        alloc,
        "F",
        "The file of the FORTRAN 77 source, - for standard input",
    )
}

fn input<'a>(alloc: Global) -> Arg<'a>
    ensures rule { rule_of result ≡ input }
    ensures local { result.global ≡ false }
{
    optional(
        alloc,
        "INPUT",
        "The file of the input, - for standard input; without it the input is empty",
    )
}

fn whole_input<'a>(alloc: Global) -> Arg<'a>
    ensures rule { rule_of result ≡ whole_input }
    ensures local { result.global ≡ false }
{
    needed(
        alloc,
        "INPUT",
        "The file of the input, - for standard input",
    )
}

fn schedule<'a>(alloc: Global) -> Arg<'a>
    ensures rule { rule_of result ≡ schedule }
    ensures local { result.global ≡ false }
{
    needed(
        alloc,
        "SCHEDULE",
        "The file of the schedule, - for standard input",
    )
}

fn picture<'a>(alloc: Global) -> Arg<'a>
    ensures rule { rule_of result ≡ out }
    ensures local { result.global ≡ false }
{
    needed(alloc, "OUT", "The file that gets the picture, an SVG file")
}

fn store<'a>(alloc: Global) -> Arg<'a>
    ensures rule { rule_of result ≡ store }
    ensures local { result.global ≡ false }
{
    flag(
        alloc,
        "store",
        "Writes each variable's value after a run that comes to END",
    )
}

fn processors<'a>(alloc: Global) -> Arg<'a>
    ensures rule { rule_of result ≡ processors }
    ensures local { result.global ≡ false }
{
    letter(
        alloc,
        "p",
        'p',
        "How many processors, 1 to 64; without it 2",
    )
}

fn slots<'a>(alloc: Global) -> Arg<'a>
    ensures rule { rule_of result ≡ slots }
    ensures local { result.global ≡ false }
{
    letter(
        alloc,
        "s",
        's',
        "How many iterations may be open, 1 to 256; without it 4",
    )
}

fn schedule_out<'a>(alloc: Global) -> Arg<'a>
    ensures rule { rule_of result ≡ schedule_out }
    ensures local { result.global ≡ false }
{
    option(
        alloc,
        "schedule",
        "OUT",
        "The file that gets the schedule, by which replay repeats the run",
    )
}

/// A command of this name, with what stands at the beginning and at the end of its help.
fn named<'a>(alloc: Global, name: &'a str, about: &'a str, ending: &'a str) -> clap::Command<'a>
    ensures { IsLine (new_app name.entry.now) result }
{
    clap::Command::new(alloc, name)
        .about(about)
        .after_help(ending)
}

/// A command with one more argument, if there was memory for it.
fn with<'a>(
    line: Result<clap::Command<'a>, AllocError>,
    argument: Arg<'a>,
) -> Result<clap::Command<'a>, AllocError>
    requires { argument.global ≡ false }
    ensures { (app : App) (rule : Rule) → IfOk line.entry (IsLine app)
        → rule_of argument.entry ≡ rule → IfOk result (IsLine (with_rule app rule)) }
{
    line?.arg(argument)
}

/// The command line of `check`.
fn checking<'a>(alloc: Global) -> Result<clap::Command<'a>, AllocError>
    ensures { IfOk result (IsLine check) }
{
    let line = Ok(named(
        alloc,
        "check",
        "Checks a source and writes ACCEPTED or REFUSED",
        help::CHECK,
    ));
    with(line, source(alloc))
}

/// The command line of `list`.
fn listing<'a>(alloc: Global) -> Result<clap::Command<'a>, AllocError>
    ensures { IfOk result (IsLine list) }
{
    let line = Ok(named(
        alloc,
        "list",
        "Lists the loops of a source, and where iterations that overlap wait",
        help::LIST,
    ));
    let line = with(line, source(alloc));
    let why = flag(
        alloc,
        "why",
        "Says of each loop by which references its iterations wait, and which test says so",
    );
    with(line, why)
}

/// The command line of `code`.
fn coding<'a>(alloc: Global) -> Result<clap::Command<'a>, AllocError>
    ensures { IfOk result (IsLine code) }
{
    let line = Ok(named(
        alloc,
        "code",
        "Shows the code that a source is compiled to, instruction by instruction",
        help::CODE,
    ));
    with(line, source(alloc))
}

/// The command line of `seq`.
fn running<'a>(alloc: Global) -> Result<clap::Command<'a>, AllocError>
    ensures { IfOk result (IsLine seq) }
{
    let line = Ok(named(
        alloc,
        "seq",
        "Runs a source, one statement after another, and writes what it prints",
        help::SEQ,
    ));
    let line = with(line, source(alloc));
    let line = with(line, input(alloc));
    with(line, store(alloc))
}

/// The command line of `run`.
fn threading<'a>(alloc: Global) -> Result<clap::Command<'a>, AllocError>
    ensures { IfOk result (IsLine run) }
{
    let line = Ok(named(
        alloc,
        "run",
        "Runs a source in threads, iterations overlapping where they may",
        help::RUN,
    ));
    let line = with(line, source(alloc));
    let line = with(line, input(alloc));
    let line = with(line, processors(alloc));
    let line = with(line, slots(alloc));
    let line = with(line, schedule_out(alloc));
    let line = with(line, store(alloc));
    let tally = flag(
        alloc,
        "tally",
        "Says on standard error how the run went, processor by processor",
    );
    with(line, tally)
}

/// The command line of `model`.
fn modelling<'a>(alloc: Global) -> Result<clap::Command<'a>, AllocError>
    ensures { IfOk result (IsLine model) }
{
    let line = Ok(named(
        alloc,
        "model",
        "Shows in which time a source runs where each processor makes a step at once",
        help::MODEL,
    ));
    let line = with(line, source(alloc));
    let line = with(line, input(alloc));
    let line = with(line, processors(alloc));
    let line = with(line, slots(alloc));
    let most = option(
        alloc,
        "most",
        "STEPS",
        "After how many steps a run is left that hasn't ended; without it 100000000",
    );
    let line = with(line, most);
    with(line, schedule_out(alloc))
}

/// The command line of `replay`.
fn replaying<'a>(alloc: Global) -> Result<clap::Command<'a>, AllocError>
    ensures { IfOk result (IsLine replay) }
{
    let line = Ok(named(
        alloc,
        "replay",
        "Repeats a run of the machine turn by turn, and writes what it prints",
        help::REPLAY,
    ));
    let line = with(line, source(alloc));
    let line = with(line, whole_input(alloc));
    let line = with(line, schedule(alloc));
    let states = flag(
        alloc,
        "states",
        "Shows the state behind each line of the schedule: who holds what, and who waits for what",
    );
    with(line, states)
}

/// The command line of `upgrade`.
fn upgrading<'a>(alloc: Global) -> Result<clap::Command<'a>, AllocError>
    ensures { IfOk result (IsLine upgrade) }
{
    let line = Ok(named(
        alloc,
        "upgrade",
        "Writes a schedule in the form that names what is picked",
        help::UPGRADE,
    ));
    let line = with(line, source(alloc));
    let line = with(line, whole_input(alloc));
    let line = with(line, schedule(alloc));
    let out = needed(
        alloc,
        "OUT",
        "The file that gets the schedule with its picks named",
    );
    with(line, out)
}

/// The command line of `draw`.
fn drawing<'a>(alloc: Global) -> Result<clap::Command<'a>, AllocError>
    ensures { IfOk result (IsLine draw) }
{
    let line = Ok(named(
        alloc,
        "draw",
        "Draws a loop: what its iterations wait for, and where they tell",
        help::DRAW,
    ));
    let line = with(line, source(alloc));
    let line = with(line, picture(alloc));
    let loop_number = option(
        alloc,
        "loop",
        "N",
        "The number of the loop, as list has it; without it 1",
    );
    let line = with(line, loop_number);
    let iterations = option(
        alloc,
        "iterations",
        "K",
        "How many iterations are drawn, 1 to 64; without it 8",
    );
    with(line, iterations)
}

/// The command line of `timeline`.
fn timing<'a>(alloc: Global) -> Result<clap::Command<'a>, AllocError>
    ensures { IfOk result (IsLine timeline) }
{
    let line = Ok(named(
        alloc,
        "timeline",
        "Draws the run that a schedule describes: what each processor did, and when it waited",
        help::TIMELINE,
    ));
    let line = with(line, source(alloc));
    let line = with(line, whole_input(alloc));
    let line = with(line, schedule(alloc));
    with(line, picture(alloc))
}

/// The command line of `explain`.
fn explaining<'a>(alloc: Global) -> Result<clap::Command<'a>, AllocError>
    ensures { IfOk result (IsLine explain) }
{
    let line = Ok(named(
        alloc,
        "explain",
        "Explains a refusal, a fault or a serial loop by its number",
        help::EXPLAIN,
    ));
    let number = optional(
        alloc,
        "N",
        "The number behind REFUSED, SCHEDULE or FAULT, or the word serial; without it all are listed",
    );
    let line = with(line, number);
    let reason = optional(
        alloc,
        "REASON",
        "Behind the word serial, the number behind SERIAL",
    );
    with(line, reason)
}

/// A command with one subcommand more, if there was memory for both.
fn adding<'a>(
    app: Result<clap::Command<'a>, AllocError>,
    line: Result<clap::Command<'a>, AllocError>,
) -> Result<clap::Command<'a>, AllocError>
    ensures { (base added : App) → IfOk app.entry (Reads base) → IfOk line.entry (IsLine added)
        → IfOk result (Reads (with_subcommand base added.top)) }
{
    app?.subcommand(line?)
}

/// A command with the command lines that read a source or run it in order.
fn with_sources<'a>(
    alloc: Global,
    app: Result<clap::Command<'a>, AllocError>,
) -> Result<clap::Command<'a>, AllocError>
    ensures { (base : App) → IfOk app.entry (Reads base)
        → IfOk result (Reads (with_subcommands (seq ∷ list ∷ check ∷ []) base)) }
{
    let app = adding(app, checking(alloc));
    let app = adding(app, listing(alloc));
    adding(app, running(alloc))
}

/// A command with the command lines that run a source's code, or read a schedule.
fn with_schedules<'a>(
    alloc: Global,
    app: Result<clap::Command<'a>, AllocError>,
) -> Result<clap::Command<'a>, AllocError>
    ensures { (base : App) → IfOk app.entry (Reads base)
        → IfOk result (Reads (with_subcommands (upgrade ∷ replay ∷ model ∷ run ∷ []) base)) }
{
    let app = adding(app, threading(alloc));
    let app = adding(app, modelling(alloc));
    let app = adding(app, replaying(alloc));
    adding(app, upgrading(alloc))
}

/// A command with the command lines that draw, show or explain.
fn with_pictures<'a>(
    alloc: Global,
    app: Result<clap::Command<'a>, AllocError>,
) -> Result<clap::Command<'a>, AllocError>
    ensures { (base : App) → IfOk app.entry (Reads base)
        → IfOk result (Reads (with_subcommands (explain ∷ code ∷ timeline ∷ draw ∷ []) base)) }
{
    let app = adding(app, drawing(alloc));
    let app = adding(app, timing(alloc));
    let app = adding(app, coding(alloc));
    adding(app, explaining(alloc))
}

/// The program's command lines.
fn parser<'a>(alloc: Global) -> Result<clap::Command<'a>, AllocError>
    ensures { IfOk result (Reads doac) }
{
    let app = clap::Command::new(alloc, "doac")
        .about("Checks and runs FORTRAN 77 programs of INTEGER variables")
        .subcommand_required(true)
        .version("0.1.0");
    let app = with_sources(alloc, Ok(app));
    let app = with_schedules(alloc, app);
    with_pictures(alloc, app)
}

/// Reads a command line, of which the first word is the program's name.
///
/// # Errors
///
/// `Help` where the words ask for help or for the version, and `Mistake` where clap finds anything
/// else wrong with them. Where it finds nothing wrong: `NoCommand` where they hold no command,
/// `NoSuchNumber` where they ask to explain a number that nothing has, `NoSize` where a number of
/// processors, of open iterations or of steps doesn't fit 64 bits, `NoPortion` where that of a loop
/// doesn't, or that of iterations isn't from 1 to 64. `Memory` where memory is refused.
pub fn read<'a, S: AsStr>(alloc: Global, words: &'a [S]) -> Result<Command<'a>, LineFault>
    ensures found { IfOk result (Names (map S.text words.entry.now)) }
    ensures refused { IfErr result (NamesNone (map S.text words.entry.now)) }
{
    let matches = parser(alloc)?.try_get_matches_from(words)?;
    held(&matches)
}
