//! What is asked for.

/// What the command line asks for of a run in threads.
#[derive(Clone, Copy)]
pub struct Threaded<'a> {
    /// The file of the source.
    pub source: &'a str,
    /// The file of the input, if there is one.
    pub input: Option<&'a str>,
    /// How many processors there are to be, 2 where none are named.
    pub processors: u64,
    /// How many iterations may be open, 4 where none are named.
    pub slots: u64,
    /// The file that gets the schedule, if it is wanted.
    pub schedule: Option<&'a str>,
    /// Whether the store is wanted.
    pub store: bool,
    /// Whether it is wanted how the run went.
    pub tally: bool,
}

/// What the command line asks for of a run in model time.
#[derive(Clone, Copy)]
pub struct Modelled<'a> {
    /// The file of the source.
    pub source: &'a str,
    /// The file of the input, if there is one.
    pub input: Option<&'a str>,
    /// How many processors there are to be, 2 where none are named.
    pub processors: u64,
    /// How many iterations may be open, 4 where none are named.
    pub slots: u64,
    /// After how many steps a run is left that hasn't ended, 100,000,000 where none are named.
    pub most: u64,
    /// The file that gets the schedule, if it is wanted.
    pub schedule: Option<&'a str>,
}

/// The files of a replay.
#[derive(Clone, Copy)]
pub struct TextFiles<'a> {
    /// The file of the source.
    pub source: &'a str,
    /// The file of the input.
    pub input: &'a str,
    /// The file of the schedule.
    pub schedule: &'a str,
}

/// What the command line asks for of a picture of a loop.
#[derive(Clone, Copy)]
pub struct Drawing<'a> {
    /// The file of the source.
    pub source: &'a str,
    /// The file that gets the picture.
    pub out: &'a str,
    /// The loop's number, 1 where none is named.
    pub number: u64,
    /// How many iterations are drawn, 1 to 64, and 8 where no number is named.
    pub iterations: u64,
}

/// What the command line asks for.
#[derive(Clone, Copy)]
pub enum Command<'a> {
    /// `check F`: whether the source of this file is in the profile.
    Check(&'a str),
    /// `list F [--why]`: the loops of the source of a file, and which of them may be open; and
    /// whether it is wanted why.
    ListLoops {
        source: &'a str,
        why: bool,
    },
    /// `code F`: the code of the source of this file.
    ShowCode(&'a str),
    /// `seq F [INPUT] [--store]`: the run of the source of a file, on the input of another one, if
    /// there is one; and whether the store is wanted.
    Seq {
        source: &'a str,
        input: Option<&'a str>,
        store: bool,
    },
    /// `run F [INPUT] [-p N] [-s N] [--schedule OUT] [--store] [--tally]`: the run of the code of a
    /// source in threads.
    Run(Threaded<'a>),
    /// `model F [INPUT] [-p N] [-s N] [--most STEPS] [--schedule OUT]`: the time that the run of a
    /// source's code takes, step by step.
    Model(Modelled<'a>),
    /// `replay F INPUT SCHEDULE [--states]`: the run of the code of a source that a schedule
    /// describes; and whether its states are wanted.
    Replay {
        names: TextFiles<'a>,
        states: bool,
    },
    /// `upgrade F INPUT SCHEDULE OUT`: the schedule with its picks named, written to a file.
    Upgrade(TextFiles<'a>, &'a str),
    /// `draw F OUT [--loop N] [--iterations K]`: the picture of a loop of the source of a file,
    /// written to a file.
    Draw(Drawing<'a>),
    /// `timeline F INPUT SCHEDULE OUT`: the picture of the run that a schedule describes, written
    /// to a file.
    Timeline(TextFiles<'a>, &'a str),
    /// `explain [N]`: what this refusal or fault means; without a number, which numbers there are.
    Explain(Option<u8>),
    /// `explain serial N`: for what this reason a loop stays serial.
    ExplainSerial(u8),
}
