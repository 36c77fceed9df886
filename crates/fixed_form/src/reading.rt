//! From the lines of a text to its statements.

ghost use Rattle.std.specs.Prelude.{◌≡◌, ◌≤◌, ℕ, List, IfOk, IfErr, Ok, Err, [], true, false};
ghost use Rattle.ast.specs.Answers.{Gives, Says};
ghost use Rattle.ast.specs.declared.refusal.Refusal.TheVariants.{Refused};
ghost use Rattle.ast.specs.declared.rule.Rule.{Rule};
ghost use Rattle.fixed_form.specs.Limits.{greatest_line, is_label_or_none};
ghost use Rattle.fixed_form.specs.Lines.{Entry, Lines, AreShaped, Broken, lines_in};
ghost use Rattle.fixed_form.specs.Answers.{entries};
ghost use Rattle.fixed_form.specs.Steps.{read_on, take_line, begun, continued};

use crate::labelled::Labelled;
use crate::line::{Class, TEXT_WIDTH, append_part, classify, is_end};
use ast::{Line, Refusal, Rule};
use bstr::ByteSlice;
use std::alloc::Global;

/// The greatest number of a line.
const LAST_LINE: Line = 65_535;

/// The greatest number of continuation lines of a statement.
const MOST_CONTINUATIONS: usize = 19;

/// The characters of the longest text.
const LONGEST_TEXT: usize = TEXT_WIDTH * (1 + MOST_CONTINUATIONS);

fn refused(rule: Rule, line: Line) -> Refusal
    ensures { result ≡ Refused rule line }
{
    Refusal::Refused { number: rule, line }
}

/// Adds the statement that an initial line begins, and answers whether that line is END.
#[tactic(auto, using(crate::proofs::Facts::width_of_part))]
fn begin_statement(
    alloc: Global,
    list: &mut Vec<Labelled>,
    label: Option<u32>,
    number: Line,
    line: &[u8],
) -> Result<bool, Refusal>
    requires label { is_label_or_none label ≡ true }
    requires from_one { 1 ≤ number }
    requires in_range { number ≤ greatest_line }
    ensures { Gives (λ ended.
        (entries list.new.items, ended)) result
        (begun (entries list.old.items) label number line.now) }
{
    let mut text = Vec::with_capacity(alloc, TEXT_WIDTH)?;
    append_part(&mut text, line)?;
    let ended = is_end(&text);
    list.push(Labelled {
        label,
        line: number,
        text,
    })?;
    Ok(ended)
}

/// Adds a continuation line to the last statement.
#[tactic(auto, using(crate::proofs::Facts::one_line_more))]
fn continue_statement(list: &mut Vec<Labelled>, number: Line, line: &[u8]) -> Result<(), Refusal>
    ensures { Gives (λ _. entries list.new.items) result
        (continued (entries list.old.items) number line.now) }
{
    let Some(statement) = list.last_mut() else {
        return Err(refused(Rule::LooseContinuation, number));
    };
    if statement.text.len() >= LONGEST_TEXT {
        return Err(refused(Rule::ManyContinuations, number));
    }
    append_part(&mut statement.text, line)?;
    Ok(())
}

/// Adds what a line holds of a statement, and answers whether END stands by now.
#[tactic(auto, using(crate::proofs::Facts::label_given))]
fn add_line(
    alloc: Global,
    list: &mut Vec<Labelled>,
    ended: bool,
    number: Line,
    line: &[u8],
) -> Result<bool, Refusal>
    requires from_one { 1 ≤ number }
    requires in_range { number ≤ greatest_line }
    ensures { Gives (λ now_ended.
        (entries list.new.items, now_ended)) result
        (take_line (entries list.old.items) ended number line.now) }
{
    match classify(line) {
        Class::Comment => Ok(ended),
        _ if ended => Err(refused(Rule::LineBehindEnd, number)),
        Class::Refused(rule) => Err(refused(rule, number)),
        Class::Continuation => {
            continue_statement(list, number, line)?;
            Ok(false)
        }
        Class::Initial(label) => begin_statement(alloc, list, label, number, line),
    }
}

/// The statements of lines, read one by one.
fn read_all(alloc: Global, text: &[u8]) -> Result<Vec<Labelled>, Refusal>
    ensures { Gives (λ v. entries v.items) result (read_on [] 0 false (lines_in text.now)) }
{
    let mut list = Vec::new(alloc);
    let mut number: Line = 0;
    let mut ended = false;
    for line in text.lines() {
        if number >= LAST_LINE {
            return Err(refused(Rule::ManyLines, number + 1));
        }
        number += 1;
        ended = add_line(alloc, &mut list, ended, number, line)?;
    }
    if ended {
        Ok(list)
    } else {
        Err(refused(Rule::NoEnd, number))
    }
}

/// The labelled statements of a source text, line by line: a comment gives none, an initial line
/// begins one, continuation lines make it longer, and END is the last and stands nowhere else.
///
/// The refusals, in the order in which they count on one line: `ManyLines` (6) at line 65,536,
/// `LineBehindEnd` (8) at a line after END that is no comment, `StrangeByte` (1) where columns 1 to
/// 72 hold a byte outside 32 to 126, `LabelledContinuation` (5) at a continuation line with
/// something in columns 1 to 5, `LooseContinuation` (3) at one with no initial line before it,
/// `ManyContinuations` (4) at the twentieth of a statement, `MalformedLabel` (2) where columns 1 to
/// 5 of an initial line are neither blank nor a label. `NoEnd` (7), at the number of lines, is that
/// of a text with no END that breaks no other rule. `Memory` says that memory was refused, and
/// nothing of the text.
pub fn statements(alloc: Global, text: &[u8]) -> Result<Vec<Labelled>, Refusal>
    ensures found { IfOk result (λ v. Lines text.now (entries v.items)) }
    ensures shaped { IfOk result (λ v. AreShaped (entries v.items)) }
    ensures only { (es : List Entry) → Lines text.now es
        → Gives (λ v. entries v.items) result (Ok es) }
    ensures refused { IfErr result (Says (Broken text.now)) }
    ensures exactly { (rule : Rule) (line : ℕ) → Broken text.now rule line
        → Gives (λ v. entries v.items) result (Err (record { rule = rule; line = line })) }
{
    read_all(alloc, text)
}
