//! Reads the parts of a schedule's text.

ghost use Rattle.std.specs.Prelude.{◌≡◌, ◌≤◌, ℕ, List, Option, Some, codes, option_map};
ghost use Rattle.machine.specs.State.{most_processors, most_slots};
ghost use Rattle.schedules.specs.Reading.{act_at, after, bounded, counted_at, entry_at, header_at};
ghost use Rattle.schedules.specs.Reading.{if_some, iteration_at, line_at, picked_at, size_at};
ghost use Rattle.schedules.specs.Reading.{sizes_at};
ghost use Rattle.schedules.specs.Schedules.{Act as ActOf};
ghost use Rattle.schedules.specs.View.{act as act_of, entry as entry_of, read_as};

use crate::entry::{Act, Entry, Version};
use crate::number::number;

/// The greatest number of processors.
pub const MOST_PROCESSORS: u16 = 64;

/// The greatest number of slots, of which each open iteration has one.
pub const MOST_SLOTS: u16 = 256;

/// The greatest number of local instructions of an entry.
pub const LONGEST_BURST: u16 = 1024;

/// The line of a schedule's first entry.
pub const FIRST_ENTRY_LINE: usize = 3;

/// Why a line is no entry.
#[derive(Clone, Copy, PartialEq, Eq)]
pub enum NoEntry {
    /// It has not the form of one.
    Form,
    /// There is no such processor.
    Processor,
}

/// What stands after a word that a text begins with.
fn after<'a>(text: &'a [u8], word: &[u8]) -> Option<&'a [u8]>
    ensures { option_map (λ x. x.now) result ≡ after word.now text.now }
{
    text.strip_prefix(word)
}

/// The version that the first line names, and what stands after that line.
pub fn header(text: &[u8]) -> Option<(Version, &[u8])>
    ensures { option_map (λ x. (x.0, x.1.now)) result ≡ header_at text.now }
{
    if let Some(rest) = after(text, b"DOACROSS SCHEDULE 1\n") {
        return Some((Version::First, rest));
    }
    match after(text, b"DOACROSS SCHEDULE 2\n") {
        Some(rest) => Some((Version::Second, rest)),
        None => None,
    }
}

/// A number that is from 1 to a greatest one.
fn bounded(number: u128, most: u16) -> Option<u16>
    ensures { result ≡ bounded most number }
{
    if 1 <= number && number <= u128::from(most) {
        Some(number as u16)
    } else {
        None
    }
}

/// A number from 1 to a greatest one that a text begins with, and what stands after it.
fn size(text: &[u8], most: u16) -> Option<(u16, &[u8])>
    ensures { option_map (λ x. (x.0, x.1.now)) result ≡ size_at most text.now }
{
    let (number, rest) = number(text)?;
    Some((bounded(number?, most)?, rest))
}

/// The number of slots, which stands behind that of processors and ends the second line, with that
/// of processors before it, and what stands after that line.
fn slots_behind(processors: u16, text: &[u8]) -> Option<(u16, u16, &[u8])>
    ensures { option_map {U = ℕ × ℕ × List ℕ} (λ x. (x.0, x.1, x.2.now)) result
        ≡ if_some (size_at most_slots text.now)
        (λ y. if_some (after (codes "\n") y.1) (λ w. Some (processors, y.0, w))) }
{
    let (slots, rest) = size(text, MOST_SLOTS)?;
    Some((processors, slots, after(rest, b"\n")?))
}

/// The numbers of processors and slots in the second line, and what stands after that line.
pub fn sizes(text: &[u8]) -> Option<(u16, u16, &[u8])>
    ensures { option_map (λ x. (x.0, x.1, x.2.now)) result ≡ sizes_at text.now }
{
    let (processors, rest) = size(text, MOST_PROCESSORS)?;
    slots_behind(processors, after(rest, b" ")?)
}

/// So many local instructions, or a shared step, as a text begins with it, and what stands after
/// it.
fn counted(text: &[u8]) -> Option<(Act, &[u8])>
    ensures { option_map (λ x. (act_of x.0, x.1.now)) result ≡ counted_at text.now }
{
    let (count, rest) = number(text)?;
    match count? {
        0 => Some((Act::Share, rest)),
        count => Some((Act::Work(bounded(count, LONGEST_BURST)?), rest)),
    }
}

/// The pick of an iteration that a text begins with, and what stands after it.
fn iteration(text: &[u8]) -> Option<(Act, &[u8])>
    ensures { option_map (λ x. (act_of x.0, x.1.now)) result ≡ iteration_at text.now }
{
    let (iteration, rest) = number(after(text, b"I ")?)?;
    Some((Act::PickIteration(iteration?), rest))
}

/// A pick that a text begins with, and what stands after it.
fn picked(text: &[u8]) -> Option<(Act, &[u8])>
    ensures { option_map (λ x. (act_of x.0, x.1.now)) result ≡ picked_at text.now }
{
    if let Some(rest) = after(text, b"M") {
        return Some((Act::PickMain, rest));
    }
    if let Some(rest) = after(text, b"T") {
        return Some((Act::TakeTicket, rest));
    }
    iteration(text)
}

/// What a processor does, as a text begins with it, and what stands after it.
fn act(version: Version, text: &[u8]) -> Option<(Act, &[u8])>
    ensures { option_map (λ x. (act_of x.0, x.1.now)) result ≡ act_at version text.now }
{
    if version == Version::Second {
        if let Some(read) = picked(text) {
            return Some(read);
        }
    }
    counted(text)
}

/// What a processor does, which stands behind its number and ends the line of an entry, with that
/// number before it, and what stands after the line.
fn act_behind(
    processor: Option<u128>,
    version: Version,
    text: &[u8],
) -> Option<(Option<u128>, Act, &[u8])>
    ensures { option_map {U = Option ℕ × ActOf × List ℕ} (λ x. (x.0, act_of x.1, x.2.now)) result
        ≡ if_some (act_at version text.now)
        (λ y. if_some (after (codes "\n") y.1) (λ w. Some (processor, y.0, w))) }
{
    let (act, rest) = act(version, text)?;
    Some((processor, act, after(rest, b"\n")?))
}

/// The line that a text begins with, where it has the form of an entry: the processor's number,
/// what it does, and what stands after the line.
fn line(version: Version, text: &[u8]) -> Option<(Option<u128>, Act, &[u8])>
    ensures { option_map (λ x. (x.0, act_of x.1, x.2.now)) result ≡ line_at version text.now }
{
    let (processor, rest) = number(text)?;
    act_behind(processor, version, after(rest, b" ")?)
}

/// The entry that a text begins with, and what stands after its line.
pub fn entry(version: Version, processors: u16, text: &[u8]) -> Result<(Entry, &[u8]), NoEntry>
    requires few { processors ≤ most_processors }
    ensures { read_as (λ x. (entry_of x.0, x.1.now)) result ≡ entry_at version processors text.now }
{
    match line(version, text) {
        Some((Some(processor), act, rest)) if processor < u128::from(processors) => {
            let processor = processor as u8;
            Ok((Entry { processor, act }, rest))
        }
        Some(_) => Err(NoEntry::Processor),
        None => Err(NoEntry::Form),
    }
}
