//! Writes the parts of a schedule's text.

ghost use Rattle.std.specs.Prelude.{◌≡◌, ◌<◌, ◌≤◌, ◌+◌, ◌++◌, ◌∷◌, [], ℕ, List, drop, length, take};
ghost use Rattle.std.specs.Prelude.{IfSome, None, OnOk, decimal};
ghost use Rattle.schedules.specs.Kept.{entries_of, entry_of, taken};
ghost use Rattle.schedules.specs.Schedules.{act_text, entries_before, entry_text, header};
ghost use Rattle.schedules.specs.Schedules.{line_before, sizes_text};
ghost use Rattle.schedules.specs.View.{act as act_view, entry as entry_view};

use crate::entry::{Act, Entry, Version};
use crate::short::{Entries, Short};
use itoa::{Buffer, Integer};
use std::alloc::AllocError;

/// How many bytes of lines are written before they are appended.
const ROOM: usize = 1024;

/// How many bytes a line has at most that is written so.
const LONGEST_LINE: usize = 6;

/// Appends a number in shortest decimal.
pub fn append_number<I: Integer>(out: &mut Vec<u8>, number: I) -> Result<(), AllocError>
    ensures { OnOk result (out.new.items ≡ out.old.items ++ I.text number) }
{
    let mut buffer = Buffer::new();
    out.extend_from_slice(buffer.format(number).as_bytes())
}

/// The character of a digit.
fn digit(number: u16) -> u8
    requires { number < 10 }
    ensures { decimal number ≡ result ∷ [] }
{
    b'0' + number as u8
}

/// Appends a number in shortest decimal. Most are of one digit.
#[inline(always)]
fn append_small(out: &mut Vec<u8>, number: u16) -> Result<(), AllocError>
    ensures { OnOk result (out.new.items ≡ out.old.items ++ decimal number) }
{
    if number >= 10 {
        return append_number(out, number);
    }
    out.push(digit(number))?;
    Ok(())
}

/// Appends a byte.
#[inline(always)]
fn append_byte(out: &mut Vec<u8>, byte: u8) -> Result<(), AllocError>
    ensures { OnOk result (out.new.items ≡ out.old.items ++ byte ∷ []) }
{
    out.push(byte)?;
    Ok(())
}

/// Appends the first line of a schedule.
pub fn append_header(out: &mut Vec<u8>, version: Version) -> Result<(), AllocError>
    ensures { OnOk result (out.new.items ≡ out.old.items ++ line_before (header version) []) }
{
    match version {
        Version::First => out.extend_from_slice(b"DOACROSS SCHEDULE 1\n"),
        Version::Second => out.extend_from_slice(b"DOACROSS SCHEDULE 2\n"),
    }
}

/// Appends the second line, of the numbers of processors and slots.
pub fn append_sizes(out: &mut Vec<u8>, processors: u16, slots: u16) -> Result<(), AllocError>
    ensures { OnOk result (out.new.items ≡ out.old.items
        ++ line_before (sizes_text processors slots) []) }
{
    append_number(out, processors)?;
    out.extend_from_slice(b" ")?;
    append_number(out, slots)?;
    out.extend_from_slice(b"\n")
}

/// Appends what a processor does.
#[inline(always)]
fn append_act(out: &mut Vec<u8>, act: Act) -> Result<(), AllocError>
    ensures { OnOk result (out.new.items ≡ out.old.items ++ act_text (act_view act)) }
{
    match act {
        Act::Work(count) => append_small(out, count),
        Act::Share => append_byte(out, b'0'),
        Act::PickMain => append_byte(out, b'M'),
        Act::PickIteration(iteration) => {
            out.extend_from_slice(b"I ")?;
            append_number(out, iteration)
        }
        Act::TakeTicket => append_byte(out, b'T'),
    }
}

/// Appends the line of an entry.
fn append_entry(out: &mut Vec<u8>, entry: Entry) -> Result<(), AllocError>
    ensures { OnOk result (out.new.items ≡ out.old.items
        ++ line_before (entry_text (entry_view entry)) []) }
{
    append_small(out, u16::from(entry.processor))?;
    append_byte(out, b' ')?;
    append_act(out, entry.act)?;
    append_byte(out, b'\n')
}

/// Writes a byte; the place behind it.
#[inline(always)]
fn put(lines: &mut [u8], at: usize, byte: u8) -> usize
    requires room { at < length lines.old }
    ensures next { result ≡ at + 1 }
    ensures put { take (at + 1) lines.new ≡ take at lines.old ++ byte ∷ [] }
{
    lines[at] = byte;
    at + 1
}

/// Writes a number below 100 in shortest decimal; the place behind it.
#[inline(always)]
fn put_small(lines: &mut [u8], at: usize, number: u16) -> usize
    requires small { number < 100 }
    requires room { at + 2 ≤ length lines.old }
    ensures next { result ≤ at + 2 }
    ensures put { take result lines.new ≡ take at lines.old ++ decimal number }
{
    if number < 10 {
        return put(lines, at, digit(number));
    }
    let ones = put(lines, at, digit(number / 10));
    put(lines, ones, digit(number % 10))
}

/// Writes the line of an entry of one of the first ten processors that has one character behind
/// the blank; the place behind it.
#[inline(always)]
fn put_mark(lines: &mut [u8], at: usize, processor: u8, mark: u8) -> usize
    requires first { processor < 10 }
    requires room { at + 4 ≤ length lines.old }
    ensures next { result ≡ at + 4 }
    ensures put { take result lines.new
        ≡ take at lines.old ++ line_before (decimal processor ++ 32 ∷ mark ∷ []) [] }
{
    let blank = put(lines, at, digit(u16::from(processor)));
    let act = put(lines, blank, b' ');
    let end = put(lines, act, mark);
    put(lines, end, b'\n')
}

/// Writes the line of an entry of two numbers below 100; the place behind it.
#[inline(always)]
fn put_numbers(lines: &mut [u8], at: usize, processor: u8, count: u16) -> usize
    requires processor { processor < 100 }
    requires count { count < 100 }
    requires room { at + 6 ≤ length lines.old }
    ensures next { result ≤ at + 6 }
    ensures put { take result lines.new
        ≡ take at lines.old ++ line_before (decimal processor ++ 32 ∷ decimal count) [] }
{
    let blank = put_small(lines, at, u16::from(processor));
    let act = put(lines, blank, b' ');
    let end = put_small(lines, act, count);
    put(lines, end, b'\n')
}

/// Writes the line of an entry of two numbers, if they are below 100; the place behind it. Most are
/// below ten.
#[inline(always)]
fn put_count(lines: &mut [u8], at: usize, processor: u8, count: u16) -> Option<usize>
    requires room { at + 6 ≤ length lines.old }
    ensures next { IfSome result (λ next. next ≤ at + 6) }
    ensures put { IfSome result (λ next. take next lines.new
        ≡ take at lines.old ++ line_before (decimal processor ++ 32 ∷ decimal count) []) }
    ensures none { result ≡ None → lines.new ≡ lines.old }
{
    if processor < 10 && count < 10 {
        return Some(put_mark(lines, at, processor, digit(count)));
    }
    if processor < 100 && count < 100 {
        return Some(put_numbers(lines, at, processor, count));
    }
    None
}

/// Writes the line of an entry, if it is one of the short ones that nearly all are; the place
/// behind it.
#[inline(always)]
fn put_line(lines: &mut [u8], at: usize, short: Short) -> Option<usize>
    requires room { at + 6 ≤ length lines.old }
    ensures next { IfSome result (λ next. next ≤ at + 6) }
    ensures plain { IfSome result (λ _. taken short ≡ 0) }
    ensures put { IfSome result (λ next. take next lines.new
        ≡ take at lines.old ++ line_before (entry_text (entry_of short [])) []) }
    ensures none { result ≡ None → lines.new ≡ lines.old }
{
    match short {
        Short::Work { processor, count } => put_count(lines, at, processor, count),
        Short::Share { processor } => put_count(lines, at, processor, 0),
        Short::TakeTicket { processor } if processor < 10 => {
            Some(put_mark(lines, at, processor, b'T'))
        }
        Short::TakeTicket { .. } | Short::PickMain { .. } | Short::PickIteration { .. } => None,
    }
}

/// Writes the lines of the first entries, as many as are short and have room: how many, and in how
/// many bytes.
#[inline(never)]
fn put_lines(lines: &mut [u8], shorts: &[Short]) -> (usize, usize)
    ensures count { result.0 ≤ length shorts.now }
    ensures len { result.1 ≤ length lines.old }
    ensures put { (ks : List ℕ) → entries_before (entries_of shorts.now ks) []
        ≡ take result.1 lines.new
        ++ entries_before (entries_of (drop result.0 shorts.now) ks) [] }
{
    let mut count = 0;
    let mut at = 0;
    while count < shorts.len() && at + LONGEST_LINE <= lines.len() {
        let Some(next) = put_line(lines, at, shorts[count]) else {
            break;
        };
        at = next;
        count += 1;
    }
    (count, at)
}

/// Appends the lines of the next entries, as many as are short and have room in `lines`, and goes
/// past them.
fn append_lines(
    out: &mut Vec<u8>,
    lines: &mut [u8],
    left: &mut Entries<'_>,
) -> Result<(), AllocError>
    ensures ok { OnOk result (out.new.items
        ++ entries_before (entries_of left.new.shorts.now left.new.picked.now) []
        ≡ out.old.items
        ++ entries_before (entries_of left.old.shorts.now left.old.picked.now) []) }
    ensures fewer { length left.new.shorts.now ≤ length left.old.shorts.now }
{
    let (count, len) = put_lines(lines, left.shorts());
    left.pass(count);
    out.extend_from_slice(&lines[..len])
}

/// Appends the lines of entries. Nearly all are short, and are written many at a time.
pub fn append_entries(out: &mut Vec<u8>, entries: Entries<'_>) -> Result<(), AllocError>
    ensures { OnOk result (out.new.items ≡ out.old.items
        ++ entries_before (entries_of entries.entry.shorts.now entries.entry.picked.now) []) }
{
    let mut lines = [0; ROOM];
    let mut left = entries;
    append_lines(out, &mut lines, &mut left)?;
    while let Some(entry) = left.next() {
        append_entry(out, entry)?;
        append_lines(out, &mut lines, &mut left)?;
    }
    Ok(())
}
