//! The lines of a program's code.

ghost use Rattle.std.specs.Prelude.{◌≡◌, ◌++◌, ◌∷◌, [], IfOk, OnOk, codes, decimal, map, slice_get};
ghost use Rattle.std.specs.Fmt.{signed_decimal};
ghost use Rattle.machine.specs.CodeView.{code_of, loop_of, part};
ghost use Rattle.machine.specs.Next.{is_own};
ghost use Rattle.engines.specs.CodeLines as spec;

use command_output::append_line;
use explanations::append_number;
use machine::{Act, Await, Axis, Code, Instr, Loop, Piece, Variable};
use std::alloc::{AllocError, Global};

/// Whether an instruction touches nothing but the frame.
fn is_local(act: Act) -> bool
    ensures { result ≡ is_own act }
{
    match act {
        Act::Load(_)
        | Act::LoadElement(_)
        | Act::Store(_)
        | Act::StoreElement(_)
        | Act::Print(_)
        | Act::TakeRecord
        | Act::TakeValue
        | Act::DropRecord
        | Act::Await(_)
        | Act::Advance(_)
        | Act::Open(_)
        | Act::Join
        | Act::Retire(_)
        | Act::Stop
        | Act::Halt => false,
        _ => true,
    }
}

fn sort_word(is_local: bool) -> &'static [u8]
    ensures { result.now ≡ spec.sort_word is_local }
{
    if is_local { b" LOCAL " } else { b" SHARED " }
}

fn act_word(act: Act) -> &'static [u8]
    ensures { result.now ≡ spec.act_word act }
{
    match act {
        Act::Constant(_) => b"Constant",
        Act::Private(_) => b"Private",
        Act::SetPrivate(_) => b"SetPrivate",
        Act::Index => b"Index",
        Act::Binary(_) => b"Binary",
        Act::Modulo => b"Modulo",
        Act::Greatest => b"Greatest",
        Act::Least => b"Least",
        Act::Unary(_) => b"Unary",
        Act::Absolute => b"Absolute",
        Act::Check(_, _) => b"Check",
        Act::Skip(_) => b"Skip",
        Act::SkipUnless(_) => b"SkipUnless",
        Act::Back(_) => b"Back",
        Act::SetUp => b"SetUp",
        Act::CountDown(_) => b"CountDown",
        Act::Step => b"Step",
        Act::Load(_) => b"Load",
        Act::LoadElement(_) => b"LoadElement",
        Act::Store(_) => b"Store",
        Act::StoreElement(_) => b"StoreElement",
        Act::Print(_) => b"Print",
        Act::TakeRecord => b"TakeRecord",
        Act::TakeValue => b"TakeValue",
        Act::DropRecord => b"DropRecord",
        Act::Await(_) => b"Await",
        Act::Advance(_) => b"Advance",
        Act::Open(_) => b"Open",
        Act::Join => b"Join",
        Act::Retire(_) => b"Retire",
        Act::Stop => b"Stop",
        Act::Halt => b"Halt",
    }
}

/// Appends a variable's name, or its number where there is no such variable.
fn append_variable(
    out: &mut Vec<u8>,
    variables: &[Variable],
    number: usize,
) -> Result<(), AllocError>
    ensures { OnOk result (out.new.items ≡ out.old.items
        ++ spec.variable_word variables.now number) }
{
    if number < variables.len() {
        out.extend_from_slice(variables[number].name.trimmed())
    } else {
        append_number(out, number)
    }
}

/// Appends a blank and a variable of the code.
fn append_named(out: &mut Vec<u8>, code: &Code, number: u32) -> Result<(), AllocError>
    ensures { OnOk result (out.new.items ≡ out.old.items
        ++ (32 ∷ spec.variable_word (code_of code.now).variables number)) }
{
    out.push(b' ')?;
    append_variable(out, &code.variables, number as usize)
}

/// The private variables of the iteration to whose code a place belongs, by their numbers; none in
/// main's.
fn privates_at(loops: &[Loop], place: usize) -> &[u32]
    ensures { result.now ≡ spec.privates_at [] (map loop_of loops.now) place }
{
    let mut found: &[u32] = &[];
    for one in loops {
        if one.body <= place {
            found = &one.privates;
        }
    }
    found
}

/// Appends a blank and a private scalar, by its number among those of a place.
fn append_private(
    out: &mut Vec<u8>,
    code: &Code,
    place: usize,
    number: u32,
) -> Result<(), AllocError>
    ensures { OnOk result (out.new.items ≡ out.old.items
        ++ (32 ∷ spec.private_word (code_of code.now).variables
        (spec.privates_at [] (code_of code.now).loops place) number)) }
{
    let privates = privates_at(&code.loops, place);
    let number = number as usize;
    out.push(b' ')?;
    if number < privates.len() {
        append_variable(out, &code.variables, privates[number] as usize)
    } else {
        append_number(out, number)
    }
}

/// Appends what is awaited: an event and a distance.
fn append_awaited(out: &mut Vec<u8>, awaited: &Await) -> Result<(), AllocError>
    ensures { OnOk result (out.new.items ≡ out.old.items ++ spec.awaited_words awaited.now) }
{
    append_number(out, awaited.event)?;
    out.push(b' ')?;
    append_number(out, awaited.distance)
}

/// Appends an await by its number, or the number where there is no such await.
fn append_await(out: &mut Vec<u8>, awaits: &[Await], number: usize) -> Result<(), AllocError>
    ensures { OnOk result (out.new.items ≡ out.old.items ++ spec.await_words awaits.now number) }
{
    if number < awaits.len() {
        append_awaited(out, &awaits[number])
    } else {
        append_number(out, number)
    }
}

fn append_part(out: &mut Vec<u8>, piece: &Piece) -> Result<(), AllocError>
    ensures { OnOk result (out.new.items ≡ out.old.items ++ spec.part_word (part piece.now)) }
{
    match piece {
        Piece::Operand => out.extend_from_slice(b" VALUE"),
        Piece::Text(text) => {
            out.extend_from_slice(b" '")?;
            out.extend_from_slice(text)?;
            out.push(b'\'')?;
            Ok(())
        }
    }
}

fn append_parts(out: &mut Vec<u8>, pieces: &[Piece]) -> Result<(), AllocError>
    ensures { OnOk result (out.new.items ≡ out.old.items ++ spec.part_words (map part pieces.now)) }
{
    for piece in pieces {
        append_part(out, piece)?;
    }
    Ok(())
}

/// Appends the parts of a record.
fn append_record(out: &mut Vec<u8>, code: &Code, number: u32) -> Result<(), AllocError>
    ensures { OnOk result (out.new.items ≡ out.old.items
        ++ spec.record_or (slice_get (code_of code.now).records number) number) }
{
    let records = code.records.as_slice();
    let number = number as usize;
    if number < records.len() {
        append_parts(out, &records[number])
    } else {
        out.push(b' ')?;
        append_number(out, number)
    }
}

/// The upper bound of a subscript.
fn upper_bound(axis: Axis) -> i128
    ensures { result ≡ spec.upper_bound axis }
{
    axis.lower as i128 + axis.width as i128 - 1
}

/// Appends two bounds.
fn append_bounds(out: &mut Vec<u8>, lower: i64, upper: i128) -> Result<(), AllocError>
    ensures { OnOk result (out.new.items ≡ out.old.items ++ signed_decimal lower ++ codes ".."
        ++ signed_decimal upper) }
{
    append_number(out, lower)?;
    out.extend_from_slice(b"..")?;
    append_number(out, upper)
}

/// Appends how many elements lie between two neighbours by a subscript.
fn append_stride(out: &mut Vec<u8>, stride: u32) -> Result<(), AllocError>
    ensures { OnOk result (out.new.items ≡ out.old.items ++ codes " BY " ++ decimal stride) }
{
    out.extend_from_slice(b" BY ")?;
    append_number(out, stride)
}

/// Appends the bounds of a subscript, and how many elements lie between two neighbours by it.
fn append_axis(out: &mut Vec<u8>, axis: Axis) -> Result<(), AllocError>
    ensures { OnOk result (out.new.items ≡ out.old.items ++ spec.axis_words axis) }
{
    append_bounds(out, axis.lower, upper_bound(axis))?;
    append_stride(out, axis.stride)
}

/// Appends the place behind a skip of so many instructions.
fn append_forward(out: &mut Vec<u8>, place: usize, skips: u32) -> Result<(), AllocError>
    ensures { OnOk result (out.new.items ≡ out.old.items ++ spec.forward place skips) }
{
    out.extend_from_slice(b" TO ")?;
    append_number(out, place as u128 + 1 + skips as u128)
}

/// Appends the place so many instructions before.
fn append_back(out: &mut Vec<u8>, place: usize, back: u32) -> Result<(), AllocError>
    ensures { OnOk result (out.new.items ≡ out.old.items ++ (spec.back place back)) }
{
    out.extend_from_slice(b" TO ")?;
    append_number(out, place.saturating_sub(back as usize))
}

/// Appends a blank and a number.
fn append_plain(out: &mut Vec<u8>, number: u32) -> Result<(), AllocError>
    ensures { OnOk result (out.new.items ≡ out.old.items ++ (32 ∷ decimal number)) }
{
    out.push(b' ')?;
    append_number(out, number)
}

/// Appends a blank and a word.
fn append_word(out: &mut Vec<u8>, word: &[u8]) -> Result<(), AllocError>
    ensures { OnOk result (out.new.items ≡ out.old.items ++ (32 ∷ word.now)) }
{
    out.push(b' ')?;
    out.extend_from_slice(word)
}

/// Appends what an instruction at a place works on.
fn append_operands(out: &mut Vec<u8>, code: &Code, place: usize, act: Act) -> Result<(), AllocError>
    ensures { OnOk result (out.new.items ≡ out.old.items
        ++ spec.act_operands (code_of code.now) place act) }
{
    match act {
        Act::Constant(n) => {
            out.push(b' ')?;
            append_number(out, n)
        }
        Act::Private(k) | Act::SetPrivate(k) => append_private(out, code, place, k),
        Act::Binary(operator) => append_word(out, operator.spelling()),
        Act::Unary(prefix) => append_word(out, prefix.spelling()),
        Act::Check(k, axis) => {
            append_plain(out, k)?;
            out.push(b' ')?;
            append_axis(out, axis)
        }
        Act::Skip(n) | Act::SkipUnless(n) | Act::CountDown(n) => append_forward(out, place, n),
        Act::Back(n) => append_back(out, place, n),
        Act::Load(x) | Act::LoadElement(x) | Act::Store(x) | Act::StoreElement(x) => {
            append_named(out, code, x)
        }
        Act::Print(r) => append_record(out, code, r),
        Act::Await(a) => {
            out.push(b' ')?;
            append_await(out, &code.awaits, a as usize)
        }
        Act::Advance(n) | Act::Open(n) | Act::Retire(n) => append_plain(out, n),
        _ => Ok(()),
    }
}

/// Appends the line of the instruction at a place.
fn append_instr(
    out: &mut Vec<u8>,
    code: &Code,
    place: usize,
    instr: &Instr,
) -> Result<(), AllocError>
    ensures { OnOk result (out.new.items ≡ out.old.items
        ++ spec.instr_line (code_of code.now) place instr.now) }
{
    append_number(out, place)?;
    out.extend_from_slice(sort_word(is_local(instr.act)))?;
    out.extend_from_slice(act_word(instr.act))?;
    append_operands(out, code, place, instr.act)?;
    append_line(out, instr.line)
}

fn append_instrs(out: &mut Vec<u8>, code: &Code) -> Result<(), AllocError>
    ensures { OnOk result (out.new.items ≡ out.old.items
        ++ spec.instr_lines (code_of code.now) 0 (code_of code.now).instructions) }
{
    for (place, instr) in code.instructions.iter().enumerate() {
        append_instr(out, code, place, instr)?;
    }
    Ok(())
}

fn append_names(
    out: &mut Vec<u8>,
    variables: &[Variable],
    numbers: &[u32],
) -> Result<(), AllocError>
    ensures { OnOk result (out.new.items ≡ out.old.items
        ++ spec.names_words variables.now numbers.now) }
{
    for number in numbers {
        out.push(b' ')?;
        append_variable(out, variables, *number as usize)?;
    }
    Ok(())
}

/// Appends private variables, if there are any.
fn append_privates(
    out: &mut Vec<u8>,
    variables: &[Variable],
    numbers: &[u32],
) -> Result<(), AllocError>
    ensures { OnOk result (out.new.items ≡ out.old.items
        ++ spec.private_words variables.now numbers.now) }
{
    if numbers.is_empty() {
        return Ok(());
    }
    out.extend_from_slice(b" PRIVATE")?;
    append_names(out, variables, numbers)
}

/// Appends the beginning of a loop's line.
fn append_begin(out: &mut Vec<u8>, number: usize, place: usize) -> Result<(), AllocError>
    ensures { OnOk result (out.new.items ≡ out.old.items ++ spec.begin_words number place) }
{
    out.extend_from_slice(b"LOOP ")?;
    append_number(out, number)?;
    out.extend_from_slice(b" PLACE ")?;
    append_number(out, place)
}

/// Appends a loop's variable and step.
fn append_course(
    out: &mut Vec<u8>,
    variables: &[Variable],
    variable: usize,
    step: i64,
) -> Result<(), AllocError>
    ensures { OnOk result (out.new.items ≡ out.old.items
        ++ spec.course_words variables.now variable step) }
{
    out.extend_from_slice(b" VARIABLE ")?;
    append_variable(out, variables, variable)?;
    out.extend_from_slice(b" STEP ")?;
    append_number(out, step)
}

/// Appends the line of a loop.
fn append_loop(
    out: &mut Vec<u8>,
    variables: &[Variable],
    number: usize,
    opened: &Loop,
) -> Result<(), AllocError>
    ensures { OnOk result (out.new.items ≡ out.old.items
        ++ spec.loop_line variables.now number (loop_of opened.now)) }
{
    append_begin(out, number, opened.body)?;
    append_course(out, variables, opened.variable, opened.step)?;
    append_privates(out, variables, &opened.privates)?;
    out.extend_from_slice(b"\n")
}

fn append_loops(out: &mut Vec<u8>, variables: &[Variable], loops: &[Loop]) -> Result<(), AllocError>
    ensures { OnOk result (out.new.items ≡ out.old.items
        ++ spec.loop_lines variables.now 0 (map loop_of loops.now)) }
{
    for (number, opened) in loops.iter().enumerate() {
        append_loop(out, variables, number, opened)?;
    }
    Ok(())
}

/// The lines of a program's code: those of its loops, and those of its instructions.
pub fn code_lines(alloc: Global, code: &Code) -> Result<Vec<u8>, AllocError>
    ensures { IfOk result (λ text. text.items ≡ spec.code_lines (code_of code.now)) }
{
    let mut text = Vec::new(alloc);
    append_loops(&mut text, &code.variables, &code.loops)?;
    append_instrs(&mut text, code)?;
    Ok(text)
}
