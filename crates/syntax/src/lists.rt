//! Lists, their parts parted by commas.

ghost use Rattle.std.specs.Prelude.{◌≡◌, ◌+◌, ◌++◌, ◌∷◌, [], length, map, OnOk, IfErr, codes};
ghost use Rattle.ast.specs.Answers.{Gives};
ghost use Rattle.ast.specs.View.{access, bounds, declarator, definition, item, term};
ghost use Rattle.ast.specs.declared.refusal.Refusal.TheVariants.{Refused};
ghost use Rattle.expressions.specs.Answers.{IsRefused};
ghost use Rattle.expressions.specs.Reading.{element_at, end_at, wanted_at, spent};
ghost use Rattle.syntax.specs.ReadingStatements.{parts_at, upper_at, bounds_at, array_of};
ghost use Rattle.syntax.specs.ReadingStatements.{declared_at, part_at, definition_at};
ghost use Rattle.syntax.specs.ReadingStatements.{next_constant, item_at, items_from};
ghost use Rattle.syntax.specs.Squeezing.{texts_left};

use ast::{Access, Bounds, Declarator, Definition, Expr, Item, Line, Name, Refusal, Rule};
use expressions::{access, after, end, expression, name, refused, wanted};
use std::alloc::{AllocError, Global};
use std::vec::IntoIter;

/// The refusal where the room ends: of no rule of statements. No text comes there.
pub fn spent(line: Line) -> Refusal
    ensures { result ≡ Refused spent line }
{
    refused(Rule::LargeProgram, line)
}

/// Room for the parts that a text may have.
pub fn room(text: &[u8]) -> u128
    ensures { result ≡ length text.now + 1 }
{
    text.len() as u128 + 1
}

// ---- bounds

/// Bounds after whose first expression the text stands.
fn upper(alloc: Global, first: Expr, text: &[u8], line: Line) -> Result<(Bounds, &[u8]), Refusal>
    ensures { Gives (λ x. (bounds x.0, x.1.now)) result (upper_at line (term first) text.now) }
{
    match after(text, b":") {
        Some(behind) => {
            let (upper, rest) = expression(alloc, behind, line)?;
            let lower = Some(first);
            Ok((Bounds { lower, upper }, rest))
        }
        None => {
            let bounds = Bounds {
                lower: None,
                upper: first,
            };
            Ok((bounds, text))
        }
    }
}

/// The bounds of one dimension. Rules 22 to 25.
fn bounds(alloc: Global, text: &[u8], line: Line) -> Result<(Bounds, &[u8]), Refusal>
    ensures { Gives (λ x. (bounds x.0, x.1.now)) result (bounds_at line text.now) }
{
    let (first, rest) = expression(alloc, text, line)?;
    upper(alloc, first, rest, line)
}

fn push_bounds(read: &mut Vec<Bounds>, next: Bounds) -> Result<(), AllocError>
    ensures { OnOk result (map bounds read.new.items ≡ map bounds read.old.items ++ bounds next
        ∷ []) }
{
    read.push(next)?;
    Ok(())
}

/// Reads bounds after those that were read, the first right here, and gives what stands behind the
/// closing parenthesis. `room` bounds their number.
fn bounds_list<'a>(
    alloc: Global,
    read: &mut Vec<Bounds>,
    text: &'a [u8],
    line: Line,
    room: u128,
) -> Result<&'a [u8], Refusal>
    ensures { Gives (λ x. (map bounds read.new.items, x.now)) result
        (parts_at line (bounds_at line) (wanted_at line (codes ")")) room
        (map bounds read.old.items) text.now) }
{
    if room == 0 {
        return Err(spent(line));
    }
    let (next, rest) = bounds(alloc, text, line)?;
    push_bounds(read, next)?;
    match after(rest, b",") {
        Some(behind) => bounds_list(alloc, read, behind, line, room - 1),
        None => wanted(rest, b")", line),
    }
}

// ---- names with bounds

/// An array behind whose name and opening parenthesis the text stands. Rules 22 to 25.
fn array(alloc: Global, name: Name, text: &[u8], line: Line) -> Result<(Declarator, &[u8]), Refusal>
    ensures { Gives (λ x. (declarator x.0, x.1.now)) result (array_of line name.letters text.now) }
{
    let mut bounds = Vec::new(alloc);
    let rest = bounds_list(alloc, &mut bounds, text, line, room(text))?;
    Ok((Declarator { name, bounds }, rest))
}

/// A declarator behind whose name the text stands. Rules 22 to 25.
fn declared(
    alloc: Global,
    name: Name,
    text: &[u8],
    line: Line,
) -> Result<(Declarator, &[u8]), Refusal>
    ensures { Gives (λ x. (declarator x.0, x.1.now)) result
        (declared_at line name.letters text.now) }
{
    match after(text, b"(") {
        Some(inside) => array(alloc, name, inside, line),
        None => {
            let bounds = Vec::new(alloc);
            Ok((Declarator { name, bounds }, text))
        }
    }
}

/// A name, with bounds if `bounded` asks for them or if it has some. Rules 22 to 25.
fn declarator(
    alloc: Global,
    bounded: bool,
    text: &[u8],
    line: Line,
) -> Result<(Declarator, &[u8]), Refusal>
    ensures { Gives (λ x. (declarator x.0, x.1.now)) result (part_at bounded line text.now) }
{
    let (name, rest) = name(text, line)?;
    if bounded {
        array(alloc, name, wanted(rest, b"(", line)?, line)
    } else {
        declared(alloc, name, rest, line)
    }
}

fn push_declarator(read: &mut Vec<Declarator>, next: Declarator) -> Result<(), AllocError>
    ensures { OnOk result (map declarator read.new.items ≡ map declarator read.old.items
        ++ declarator next ∷ []) }
{
    read.push(next)?;
    Ok(())
}

/// Reads declarators after those that were read, the first right here, to the end of the text,
/// which is given. `room` bounds their number. Rules 22 to 25.
pub fn declarators<'a>(
    alloc: Global,
    bounded: bool,
    read: &mut Vec<Declarator>,
    text: &'a [u8],
    line: Line,
    room: u128,
) -> Result<&'a [u8], Refusal>
    ensures { Gives (λ x. (map declarator read.new.items, x.now)) result
        (parts_at line (part_at bounded line) (end_at line) room (map declarator read.old.items)
        text.now) }
{
    if room == 0 {
        return Err(spent(line));
    }
    let (next, rest) = declarator(alloc, bounded, text, line)?;
    push_declarator(read, next)?;
    match after(rest, b",") {
        Some(behind) => declarators(alloc, bounded, read, behind, line, room - 1),
        None => end(rest, line),
    }
}

// ---- definitions

/// A name, `=` and an expression. Rules 22 to 25.
fn definition(alloc: Global, text: &[u8], line: Line) -> Result<(Definition, &[u8]), Refusal>
    ensures { Gives (λ x. (definition x.0, x.1.now)) result (definition_at line text.now) }
{
    let (name, rest) = name(text, line)?;
    let behind = wanted(rest, b"=", line)?;
    let (value, rest) = expression(alloc, behind, line)?;
    Ok((Definition { name, value }, rest))
}

fn push_definition(read: &mut Vec<Definition>, next: Definition) -> Result<(), AllocError>
    ensures { OnOk result (map definition read.new.items ≡ map definition read.old.items
        ++ definition next ∷ []) }
{
    read.push(next)?;
    Ok(())
}

/// Reads definitions after those that were read, the first right here, and gives what stands behind
/// the closing parenthesis. `room` bounds their number. Rules 22 to 25.
pub fn definitions<'a>(
    alloc: Global,
    read: &mut Vec<Definition>,
    text: &'a [u8],
    line: Line,
    room: u128,
) -> Result<&'a [u8], Refusal>
    ensures { Gives (λ x. (map definition read.new.items, x.now)) result
        (parts_at line (definition_at line) (wanted_at line (codes ")")) room
        (map definition read.old.items) text.now) }
{
    if room == 0 {
        return Err(spent(line));
    }
    let (next, rest) = definition(alloc, text, line)?;
    push_definition(read, next)?;
    match after(rest, b",") {
        Some(behind) => definitions(alloc, read, behind, line, room - 1),
        None => wanted(rest, b")", line),
    }
}

// ---- variables and elements

fn push_element(read: &mut Vec<Access>, next: Access) -> Result<(), AllocError>
    ensures { OnOk result (map access read.new.items ≡ map access read.old.items ++ access next
        ∷ []) }
{
    read.push(next)?;
    Ok(())
}

/// Reads elements after those that were read, the first right here, to the end of the text, which
/// is given. `room` bounds their number. Rules 22 to 25.
pub fn elements<'a>(
    alloc: Global,
    read: &mut Vec<Access>,
    text: &'a [u8],
    line: Line,
    room: u128,
) -> Result<&'a [u8], Refusal>
    ensures { Gives (λ x. (map access read.new.items, x.now)) result
        (parts_at line (element_at line) (end_at line) room (map access read.old.items)
        text.now) }
{
    if room == 0 {
        return Err(spent(line));
    }
    let (next, rest) = access(alloc, text, line)?;
    push_element(read, next)?;
    match after(rest, b",") {
        Some(behind) => elements(alloc, read, behind, line, room - 1),
        None => end(rest, line),
    }
}

// ---- items

/// The next character constant as an item. Rule 25.
fn constant_text(constants: &mut IntoIter<Vec<u8>>, line: Line) -> Result<Item, Refusal>
    ensures reads { Gives (λ x.
        (item x, texts_left constants.new)) result (next_constant line (texts_left constants.old)) }
    ensures sure { IfErr result IsRefused }
{
    match constants.next() {
        Some(text) if !text.is_empty() => Ok(Item::Text(text)),
        _ => Err(refused(Rule::Malformed, line)),
    }
}

/// The item that the text begins with, and what stands after it. Rules 22 to 25.
fn item<'a>(
    alloc: Global,
    text: &'a [u8],
    constants: &mut IntoIter<Vec<u8>>,
    line: Line,
) -> Result<(Item, &'a [u8]), Refusal>
    ensures { Gives (λ x. (item x.0, x.1.now, texts_left constants.new)) result
        (item_at line text.now (texts_left constants.old)) }
{
    match after(text, b"'") {
        Some(behind) => Ok((constant_text(constants, line)?, behind)),
        None => {
            let (value, rest) = expression(alloc, text, line)?;
            Ok((Item::Value(value), rest))
        }
    }
}

fn push_item(read: &mut Vec<Item>, next: Item) -> Result<(), AllocError>
    ensures { OnOk result (map item read.new.items ≡ map item read.old.items ++ item next ∷ []) }
{
    read.push(next)?;
    Ok(())
}

/// Reads items after those that were read, the first right here, to the end of the text, which is
/// given. `room` bounds their number. Rules 22 to 25.
pub fn items<'a>(
    alloc: Global,
    read: &mut Vec<Item>,
    text: &'a [u8],
    constants: &mut IntoIter<Vec<u8>>,
    line: Line,
    room: u128,
) -> Result<&'a [u8], Refusal>
    ensures { Gives (λ x. map item read.new.items) result
        (items_from line room (map item read.old.items) text.now (texts_left constants.old)) }
{
    if room == 0 {
        return Err(spent(line));
    }
    let (next, rest) = item(alloc, text, constants, line)?;
    push_item(read, next)?;
    match after(rest, b",") {
        Some(behind) => items(alloc, read, behind, constants, line, room - 1),
        None => end(rest, line),
    }
}
