//! Statements by their keywords.

ghost use Rattle.std.specs.Prelude.{◌≡◌, [], map, IfErr, option_map};
ghost use Rattle.ast.specs.Answers.{Gives};
ghost use Rattle.ast.specs.View.{access, declarator, definition, item, kind, letters};
ghost use Rattle.ast.specs.declared.refusal.Refusal.TheVariants.{Refused};
ghost use Rattle.ast.specs.declared.rule.Rule.TheVariants.{Malformed};
ghost use Rattle.expressions.specs.Answers.{IsRefused};
ghost use Rattle.expressions.specs.Reading.{element_at, ended};
ghost use Rattle.syntax.specs.ReadingStatements.{items_at, listed, list_behind_unit};
ghost use Rattle.syntax.specs.ReadingStatements.{list_behind_star, open_list, part_at};
ghost use Rattle.syntax.specs.ReadingStatements.{definitions_at, enclosed_definitions_at, arm_at};
ghost use Rattle.syntax.specs.ReadingStatements.{else_if_at, whole_name_at, alone, worded_at};
ghost use Rattle.syntax.specs.Squeezing.{texts_left};
ghost use Rattle.syntax.specs.Statements.{is_short_number, has_text, is_stop_text};

use crate::class::{Keyword, is_digits, is_word};
use crate::lists::{declarators, definitions, elements, items, room};
use ast::{Access, Declarator, Definition, Item, Kind, Line, Name, Refusal, Rule};
use expressions::{after, end, expression, name, refused, wanted};
use std::alloc::Global;
use std::vec::IntoIter;

/// The greatest number of digits of a label and of a STOP.
pub const MOST_DIGITS: usize = 5;

/// The refusal of a malformed statement, in this line.
pub fn malformed(line: Line) -> Refusal
    ensures { result ≡ Refused Malformed line }
{
    refused(Rule::Malformed, line)
}

/// The name behind which the text stands, where it is empty.
fn ended(name: Name, text: &[u8], line: Line) -> Result<Name, Refusal>
    ensures reads { Gives letters result (ended line (name.letters, text.now)) }
    ensures sure { IfErr result IsRefused }
{
    end(text, line)?;
    Ok(name)
}

fn whole_name(text: &[u8], line: Line) -> Result<Name, Refusal>
    ensures reads { Gives letters result (whole_name_at line text.now) }
    ensures sure { IfErr result IsRefused }
{
    let (name, rest) = name(text, line)?;
    ended(name, rest, line)
}

fn declarator_list(
    alloc: Global,
    bounded: bool,
    text: &[u8],
    line: Line,
) -> Result<Vec<Declarator>, Refusal>
    ensures { Gives (λ v. map declarator v.items) result
        (open_list line (part_at bounded line) text.now) }
{
    let mut list = Vec::new(alloc);
    declarators(alloc, bounded, &mut list, text, line, room(text))?;
    Ok(list)
}

/// The definitions of a PARAMETER, behind whose opening parenthesis the text stands. Rules 22 to
/// 25.
fn enclosed_definitions(alloc: Global, text: &[u8], line: Line) -> Result<Vec<Definition>, Refusal>
    ensures { Gives (λ v. map definition v.items) result (enclosed_definitions_at line text.now) }
{
    let mut list = Vec::new(alloc);
    let rest = definitions(alloc, &mut list, text, line, room(text))?;
    end(rest, line)?;
    Ok(list)
}

/// The definitions of a PARAMETER, in parentheses. Rules 22 to 25.
fn definition_list(alloc: Global, text: &[u8], line: Line) -> Result<Vec<Definition>, Refusal>
    ensures { Gives (λ v. map definition v.items) result (definitions_at line text.now) }
{
    match after(text, b"(") {
        Some(inside) => enclosed_definitions(alloc, inside, line),
        None => Err(malformed(line)),
    }
}

/// The text of the list that stands behind `*`, if there is one. Rule 25.
fn list_behind_star(text: &[u8], line: Line) -> Result<Option<&[u8]>, Refusal>
    ensures reads { Gives (λ o. option_map (λ u. u.now) o) result (list_behind_star line text.now) }
    ensures sure { IfErr result IsRefused }
{
    if text.is_empty() {
        return Ok(None);
    }
    match after(text, b",") {
        Some(list) => Ok(Some(list)),
        None => Err(malformed(line)),
    }
}

/// The text of the list that stands behind `(*,*)`, if there is one.
fn list_behind_unit(text: &[u8]) -> Option<&[u8]>
    ensures { option_map (λ u. u.now) result ≡ list_behind_unit text.now }
{
    if text.is_empty() { None } else { Some(text) }
}

fn item_list(
    alloc: Global,
    list: Option<&[u8]>,
    constants: &mut IntoIter<Vec<u8>>,
    line: Line,
) -> Result<Vec<Item>, Refusal>
    ensures { Gives (λ v. map item v.items) result
        (listed (items_at line (texts_left constants.old))
        (option_map (λ u. u.now) list.entry)) }
{
    let mut read = Vec::new(alloc);
    if let Some(text) = list {
        items(alloc, &mut read, text, constants, line, room(text))?;
    }
    Ok(read)
}

fn element_list(alloc: Global, list: Option<&[u8]>, line: Line) -> Result<Vec<Access>, Refusal>
    ensures { Gives (λ v. map access v.items) result
        (listed (open_list line (element_at line)) (option_map (λ u. u.now) list.entry)) }
{
    let mut read = Vec::new(alloc);
    if let Some(text) = list {
        elements(alloc, &mut read, text, line, room(text))?;
    }
    Ok(read)
}

/// An ELSE IF behind whose opening parenthesis the text stands. Rules 22 to 25.
fn arm(alloc: Global, text: &[u8], line: Line) -> Result<Kind, Refusal>
    ensures { Gives kind result (arm_at line text.now) }
{
    let (condition, rest) = expression(alloc, text, line)?;
    let behind = wanted(rest, b")", line)?;
    if is_word(behind, b"THEN") {
        Ok(Kind::ElseIf(condition))
    } else {
        Err(malformed(line))
    }
}

fn else_if(alloc: Global, text: &[u8], line: Line) -> Result<Kind, Refusal>
    ensures { Gives kind result (else_if_at line text.now) }
{
    match after(text, b"(") {
        Some(inside) => arm(alloc, inside, line),
        None => Err(malformed(line)),
    }
}

/// A statement whose keyword stands alone. Rule 25.
fn alone(does: Kind, text: &[u8], line: Line) -> Result<Kind, Refusal>
    ensures reads { Gives kind result (alone line (kind does) text.now) }
    ensures sure { IfErr result IsRefused }
{
    if text.is_empty() {
        Ok(does)
    } else {
        Err(malformed(line))
    }
}

/// Whether the text is one to five digits.
fn is_short_number(text: &[u8]) -> bool
    ensures { result ≡ is_short_number text.now }
{
    is_digits(text) && text.len() <= MOST_DIGITS
}

/// Whether the next character constant is there and isn't empty.
fn has_text(constants: &mut IntoIter<Vec<u8>>) -> bool
    ensures { result ≡ has_text (texts_left constants.old) }
{
    match constants.next() {
        Some(text) => !text.is_empty(),
        None => false,
    }
}

/// Whether this may stand behind `STOP`.
fn is_stop_text(text: &[u8], constants: &mut IntoIter<Vec<u8>>) -> bool
    ensures { result ≡ is_stop_text text.now (texts_left constants.old) }
{
    text.is_empty() || is_short_number(text) || (is_word(text, b"'") && has_text(constants))
}

fn stop(text: &[u8], constants: &mut IntoIter<Vec<u8>>, line: Line) -> Result<Kind, Refusal>
    ensures reads { Gives kind result
        (worded_at line Keyword.Stop text.now (texts_left constants.old)) }
    ensures sure { IfErr result IsRefused }
{
    if is_stop_text(text, constants) {
        Ok(Kind::Stop)
    } else {
        Err(malformed(line))
    }
}

/// PROGRAM and its name.
fn program(text: &[u8], line: Line) -> Result<Kind, Refusal>
    ensures reads { Gives kind result (worded_at line Keyword.Program text.now []) }
    ensures sure { IfErr result IsRefused }
{
    let name = whole_name(text, line)?;
    Ok(Kind::Program(name))
}

/// INTEGER and its declarators.
fn integer(alloc: Global, text: &[u8], line: Line) -> Result<Kind, Refusal>
    ensures { Gives kind result (worded_at line Keyword.Integer text.now []) }
{
    let list = declarator_list(alloc, false, text, line)?;
    Ok(Kind::Integer(list))
}

/// DIMENSION and its declarators, which all have bounds.
fn dimension(alloc: Global, text: &[u8], line: Line) -> Result<Kind, Refusal>
    ensures { Gives kind result (worded_at line Keyword.Dimension text.now []) }
{
    let list = declarator_list(alloc, true, text, line)?;
    Ok(Kind::Dimension(list))
}

/// PARAMETER and its definitions.
fn parameter(alloc: Global, text: &[u8], line: Line) -> Result<Kind, Refusal>
    ensures { Gives kind result (worded_at line Keyword.Parameter text.now []) }
{
    let list = definition_list(alloc, text, line)?;
    Ok(Kind::Parameter(list))
}

/// `PRINT*` and its items.
fn print(
    alloc: Global,
    text: &[u8],
    constants: &mut IntoIter<Vec<u8>>,
    line: Line,
) -> Result<Kind, Refusal>
    ensures { Gives kind result (worded_at line Keyword.Print text.now (texts_left constants.old)) }
{
    let list = list_behind_star(text, line)?;
    let items = item_list(alloc, list, constants, line)?;
    Ok(Kind::Print(items))
}

/// `WRITE(*,*)` and its items.
fn write(
    alloc: Global,
    text: &[u8],
    constants: &mut IntoIter<Vec<u8>>,
    line: Line,
) -> Result<Kind, Refusal>
    ensures { Gives kind result (worded_at line Keyword.Write text.now (texts_left constants.old)) }
{
    let items = item_list(alloc, list_behind_unit(text), constants, line)?;
    Ok(Kind::Print(items))
}

/// `READ*` and its elements.
fn read(alloc: Global, text: &[u8], line: Line) -> Result<Kind, Refusal>
    ensures { Gives kind result (worded_at line Keyword.Read text.now []) }
{
    let list = list_behind_star(text, line)?;
    let elements = element_list(alloc, list, line)?;
    Ok(Kind::Read(elements))
}

/// `READ(*,*)` and its elements.
fn read_unit(alloc: Global, text: &[u8], line: Line) -> Result<Kind, Refusal>
    ensures { Gives kind result (worded_at line Keyword.ReadUnit text.now []) }
{
    let elements = element_list(alloc, list_behind_unit(text), line)?;
    Ok(Kind::Read(elements))
}

/// A statement behind whose keyword the text stands. Rules 22 to 25, and 27.
pub fn worded(
    alloc: Global,
    keyword: Keyword,
    text: &[u8],
    constants: &mut IntoIter<Vec<u8>>,
    line: Line,
) -> Result<Kind, Refusal>
    ensures { Gives kind result (worded_at line keyword text.now (texts_left constants.old)) }
{
    match keyword {
        Keyword::Program => program(text, line),
        Keyword::Integer => integer(alloc, text, line),
        Keyword::Dimension => dimension(alloc, text, line),
        Keyword::Parameter => parameter(alloc, text, line),
        Keyword::Print => print(alloc, text, constants, line),
        Keyword::Write => write(alloc, text, constants, line),
        Keyword::Read => read(alloc, text, line),
        Keyword::ReadUnit => read_unit(alloc, text, line),
        Keyword::Continue => alone(Kind::Continue, text, line),
        Keyword::Else => alone(Kind::Else, text, line),
        Keyword::ElseIf => else_if(alloc, text, line),
        Keyword::EndIf => alone(Kind::EndIf, text, line),
        Keyword::Stop => stop(text, constants, line),
        Keyword::End => alone(Kind::End, text, line),
        Keyword::LeftOut => Err(refused(Rule::LeftOut, line)),
    }
}
