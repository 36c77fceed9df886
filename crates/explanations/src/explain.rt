//! What the numbers of refusals and faults mean, and how that is printed.

ghost use Rattle.std.specs.Prelude.{◌≡◌, ◌+◌, ◌≤◌, IfSome, is_some, length};
ghost use Rattle.explanations.specs.Explained as numbers;

mod faults;
mod lines;
mod profile;
mod reasons;
mod replays;
mod statements;

use crate::fault::fault_name;
use ast::Fault;
use places::Visible;
use std::fmt::{Display, Formatter, Result as FmtResult, Write};
use std::io;

/// The greatest number that is explained.
const GREATEST: u8 = 61;

/// The faults in the order of their numbers.
static FAULTS: [Fault; 6] = [
    Fault::Overflow,
    Fault::Index,
    Fault::ZeroDivisor,
    Fault::ZeroStep,
    Fault::EndOfInput,
    Fault::BadInput,
];

/// What a number is that of.
#[derive(Clone, Copy)]
pub enum Origin {
    Refusal,
    /// A run in threads, whatever its source.
    Run,
    Fault(Fault),
    Schedule,
    /// A reason for which a loop stays serial.
    Serial,
}

/// What a number means: in a sentence, which messages say, and at length; with a source that has
/// it and one that is cured, of a schedule's refusal the text of a schedule. Behind a source stands
/// its input, if it has one. Either is empty where it would be too long.
#[derive(Clone, Copy)]
pub struct Page {
    pub sentence: &'static str,
    pub meaning: &'static str,
    pub example: &'static str,
    pub advice: &'static str,
    pub cure: &'static str,
}

/// A number, what it is that of, and what it means.
#[derive(Clone, Copy)]
pub struct Explanation {
    pub number: u8,
    pub origin: Origin,
    pub page: Page,
}

/// As the line that heads it in a list.
impl Display for Explanation {
    fn fmt<W: Write>(&self, f: &mut Formatter<W>) -> FmtResult {
        let word = match self.origin {
            Origin::Refusal => "REFUSED",
            Origin::Run => "RUN",
            Origin::Fault(_) => "FAULT",
            Origin::Schedule => "SCHEDULE",
            Origin::Serial => "SERIAL",
        };
        write!(f, "{word} {}", self.number)?;
        if let Origin::Fault(fault) = self.origin {
            write!(f, " {}", Visible::new(fault_name(fault)))?;
        }
        write!(f, ": {}", self.page.sentence)
    }
}

/// Behind its sentence.
impl Display for Page {
    fn fmt<W: Write>(&self, f: &mut Formatter<W>) -> FmtResult {
        writeln!(f, "{}", self.meaning)?;
        write_behind(f, self.example)?;
        writeln!(f, "\nWhat to do: {}", self.advice)?;
        write_behind(f, self.cure)
    }
}

/// Writes a text behind an empty line, if there is one.
fn write_behind<W: Write>(f: &mut Formatter<W>, text: &str) -> FmtResult {
    match text {
        "" => Ok(()),
        _ => writeln!(f, "\n{text}"),
    }
}

/// What a number means by a table whose pages have the numbers from the first to the last.
fn page_in(pages: &[Page], first: u8, last: u8, number: u8, origin: Origin) -> Option<Explanation>
    requires order { first ≤ last }
    requires whole { length pages.now + first ≡ last + 1 }
    ensures number { IfSome result (λ explanation. explanation.number ≡ number) }
    ensures whether { is_some result ≡ numbers.is_within first last number }
{
    let place = number.checked_sub(first)?;
    let page = *pages.get(usize::from(place))?;
    Some(Explanation {
        number,
        origin,
        page,
    })
}

/// What a refusal's number means. Each fault's is a refusal's too.
pub fn refusal(number: u8) -> Option<Explanation>
    ensures number { IfSome result (λ explanation. explanation.number ≡ number) }
    ensures whether { is_some result ≡ numbers.is_explained number }
{
    match number {
        0..=19 => page_in(&lines::PAGES, 1, 8, number, Origin::Refusal),
        20..=29 => page_in(&statements::PAGES, 20, 27, number, Origin::Refusal),
        30..=49 => page_in(&profile::PAGES, 30, 43, number, Origin::Refusal),
        50..=56 => page_in(&replays::SCHEDULES, 51, 56, number, Origin::Schedule),
        57..=59 => page_in(&replays::RUNS, 57, 59, number, Origin::Run),
        _ => page_in(&replays::CODE, 61, 61, number, Origin::Refusal),
    }
}

/// What a fault's number means.
pub fn fault(number: u8) -> Option<Explanation>
    ensures number { IfSome result (λ explanation. explanation.number ≡ number) }
    ensures whether { is_some result ≡ numbers.is_within 1 6 number }
{
    let fault = FAULTS.get(usize::from(number.checked_sub(1)?))?;
    page_in(&faults::PAGES, 1, 6, number, Origin::Fault(*fault))
}

/// What the number of a reason means for which a loop stays serial.
fn serial_reason(number: u8) -> Option<Explanation>
    ensures whether { is_some result ≡ numbers.is_within 1 6 number }
{
    page_in(&reasons::PAGES, 1, 6, number, Origin::Serial)
}

/// Whether a number is a refusal's.
pub fn is_explained(number: u8) -> bool
    ensures { result ≡ numbers.is_explained number }
{
    refusal(number).is_some()
}

/// Whether a number is that of a reason.
pub fn is_reason(number: u8) -> bool
    ensures { result ≡ numbers.is_within 1 6 number }
{
    serial_reason(number).is_some()
}

/// Prints what a number means, behind a text, if it means something.
fn print_page<P: Print>(rt: &P, before: &str, found: Option<Explanation>) -> io::Result<()> {
    match found {
        Some(explanation) => print!(rt; "{before}{explanation}.\n\n{}", explanation.page),
        None => Ok(()),
    }
}

/// Prints what a number means, as a refusal and as a fault.
pub fn explain<P: Print>(rt: &P, number: u8) -> io::Result<()> {
    print_page(rt, "", refusal(number))?;
    print_page(rt, "\n", fault(number))
}

/// Prints what the number of a reason means for which a loop stays serial.
pub fn explain_serial<P: Print>(rt: &P, number: u8) -> io::Result<()> {
    print_page(rt, "", serial_reason(number))
}

/// Prints the numbers of refusals, of faults and of reasons, each with its sentence.
pub fn list<P: Print>(rt: &P) -> io::Result<()> {
    let refusals = (0..=GREATEST).filter_map(refusal);
    let faults = (0..=GREATEST).filter_map(fault);
    let reasons = (0..=GREATEST).filter_map(serial_reason);
    for explanation in refusals.chain(faults).chain(reasons) {
        println!(rt; "{explanation}")?;
    }
    Ok(())
}
