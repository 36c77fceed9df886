//! What there is to draw of a loop.

use ast::{Line, Name};

/// How a row looks.
#[derive(Clone, Copy)]
pub enum Look {
    /// As a statement of the source.
    Plain,
    /// As the statement that keeps the loop serial.
    Marked,
    /// As an ELSE that was made, which isn't in the source.
    Made,
    /// As the end of a loop or an IF, behind which something is advanced.
    End,
}

impl Look {
    /// Whether the row is a statement of the source.
    pub fn is_in_source(self) -> bool {
        match self {
            Look::Plain | Look::Marked => true,
            Look::Made | Look::End => false,
        }
    }
}

/// The statement of a line.
#[derive(Clone, Copy)]
pub struct Statement<'a> {
    pub line: Line,
    /// The text of the statement, as far as it stands in that line.
    pub text: &'a [u8],
    /// Whether it goes on in the next line.
    pub goes_on: bool,
}

/// The numbers of the sources that stand in a row, which are counted where there are too many.
#[derive(Clone, Copy)]
pub struct Counted {
    pub first: usize,
    pub last: usize,
}

/// A row: what each iteration has at this height.
#[derive(Clone, Copy)]
pub struct Row<'a> {
    /// The line in the source; of a made ELSE, that of its IF; of an end, that of its DO or IF.
    pub line: Line,
    /// In how many loops and IFs of the range it stands.
    pub depth: u64,
    /// The text of the statement, as far as it stands in that line.
    pub text: &'a [u8],
    /// Whether it goes on in the next line.
    pub goes_on: bool,
    pub look: Look,
    pub counted: Option<Counted>,
}

/// A dependence that is kept.
#[derive(Clone, Copy)]
pub struct Arrow {
    /// The event by which the sink's iteration waits; the first has the number 1.
    pub event: usize,
    /// Over how many iterations it goes.
    pub distance: u128,
    /// The line of its source.
    pub source_line: Line,
    /// The line of its sink.
    pub sink_line: Line,
}

/// Where an event is advanced: behind what stands in a row.
#[derive(Clone, Copy)]
pub struct Advance {
    pub event: usize,
    pub row: usize,
}

/// How far it is from an iteration of a loop and of the one inside it to another that needs it.
#[derive(Clone, Copy)]
pub struct Vector {
    /// Over how many iterations of the outer loop it goes.
    pub over: u128,
    /// How many iterations of the inner loop later it comes, or how many earlier; one of both is 0.
    pub down: u128,
    pub up: u128,
    /// The lines of its first source and of that one's sink.
    pub source_line: Line,
    pub sink_line: Line,
    /// The name by which both are dependent.
    pub name: Name,
}

/// The iterations of a loop and of the one inside it.
#[derive(Drop)]
pub struct Space {
    /// The variables of both loops.
    pub outer: Name,
    pub inner: Name,
    /// How many iterations of the inner loop are drawn.
    pub rows: u64,
    pub vectors: Vec<Vector>,
    /// The names of which distances aren't known.
    pub unknown: Vec<Name>,
}

/// What there is to draw of a loop.
#[derive(Drop)]
pub struct LoopPicture<'a> {
    /// The loop's number, from 1.
    pub number: usize,
    /// The line of its DO.
    pub line: Line,
    /// Its DO, and how that looks.
    pub head: Statement<'a>,
    pub look: Look,
    /// The DO of the loop around it that may be open, where that is in the way.
    pub around: Option<Statement<'a>>,
    /// What its range has, from top to bottom.
    pub rows: Vec<Row<'a>>,
    pub arrows: Vec<Arrow>,
    pub advances: Vec<Advance>,
    /// The scalars of which each iteration has one of its own.
    pub privates: Vec<Name>,
    /// Of a loop that stays serial, what keeps it so, as a sentence.
    pub serial: Option<Vec<u8>>,
    /// How many iterations are drawn, 1 to 64.
    pub columns: u64,
    /// How many the loop has, where that is known.
    pub trips: Option<u128>,
    /// Its iterations and those of the loop inside it, if there is just one.
    pub space: Option<Space>,
}
