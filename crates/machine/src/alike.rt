//! Whether the codes of two programs are equal.

ghost use Rattle.std.specs.Prelude.{◌≡◌, map};
ghost use Rattle.std.specs.Bool.{Decides};
ghost use Rattle.machine.specs.CodeView.{code_of, loop_of, part};

use crate::code::{Await, Code, Loop, Piece, Variable};
use crate::instr::{Act, Axis, Instr};

#[inline(always)]
fn same_axis(a: Axis, b: Axis) -> bool
    ensures { Decides result (a ≡ b) }
{
    a == b
}

/// Whether two instructions do the same.
#[inline(always)]
fn same_act(a: Act, b: Act) -> bool
    ensures { Decides result (a ≡ b) }
{
    match (a, b) {
        (Act::Constant(a), Act::Constant(b)) => a == b,
        (Act::Private(a), Act::Private(b)) => a == b,
        (Act::SetPrivate(a), Act::SetPrivate(b)) => a == b,
        (Act::Binary(a), Act::Binary(b)) => a == b,
        (Act::Unary(a), Act::Unary(b)) => a == b,
        (Act::Check(a, c), Act::Check(b, d)) => a == b && same_axis(c, d),
        (Act::Skip(a), Act::Skip(b)) => a == b,
        (Act::SkipUnless(a), Act::SkipUnless(b)) => a == b,
        (Act::Back(a), Act::Back(b)) => a == b,
        (Act::CountDown(a), Act::CountDown(b)) => a == b,
        (Act::Load(a), Act::Load(b)) => a == b,
        (Act::LoadElement(a), Act::LoadElement(b)) => a == b,
        (Act::Store(a), Act::Store(b)) => a == b,
        (Act::StoreElement(a), Act::StoreElement(b)) => a == b,
        (Act::Print(a), Act::Print(b)) => a == b,
        (Act::Await(a), Act::Await(b)) => a == b,
        (Act::Advance(a), Act::Advance(b)) => a == b,
        (Act::Open(a), Act::Open(b)) => a == b,
        (Act::Retire(a), Act::Retire(b)) => a == b,
        (Act::Index, Act::Index)
        | (Act::Modulo, Act::Modulo)
        | (Act::Greatest, Act::Greatest)
        | (Act::Least, Act::Least)
        | (Act::Absolute, Act::Absolute)
        | (Act::SetUp, Act::SetUp)
        | (Act::Step, Act::Step)
        | (Act::TakeRecord, Act::TakeRecord)
        | (Act::TakeValue, Act::TakeValue)
        | (Act::DropRecord, Act::DropRecord)
        | (Act::Join, Act::Join)
        | (Act::Stop, Act::Stop)
        | (Act::Halt, Act::Halt) => true,
        _ => false,
    }
}

#[inline(always)]
fn same_instruction(a: Instr, b: Instr) -> bool
    ensures { Decides result (a ≡ b) }
{
    a.line == b.line && same_act(a.act, b.act)
}

fn same_instructions(a: &[Instr], b: &[Instr]) -> bool
    ensures { Decides result (a.now ≡ b.now) }
{
    if a.len() != b.len() {
        return false;
    }
    for i in 0..a.len() {
        if !same_instruction(a[i], b[i]) {
            return false;
        }
    }
    true
}

fn same_text(a: &[u8], b: &[u8]) -> bool
    ensures { Decides result (a.now ≡ b.now) }
{
    a == b
}

fn same_piece(a: &Piece, b: &Piece) -> bool
    ensures { Decides result (part a.now ≡ part b.now) }
{
    match (a, b) {
        (Piece::Operand, Piece::Operand) => true,
        (Piece::Text(a), Piece::Text(b)) => same_text(a, b),
        (Piece::Operand, Piece::Text(_)) | (Piece::Text(_), Piece::Operand) => false,
    }
}

fn same_pieces(a: &[Piece], b: &[Piece]) -> bool
    ensures { Decides result (map part a.now ≡ map part b.now) }
{
    if a.len() != b.len() {
        return false;
    }
    for i in 0..a.len() {
        if !same_piece(&a[i], &b[i]) {
            return false;
        }
    }
    true
}

fn same_records(a: &[Vec<Piece>], b: &[Vec<Piece>]) -> bool
    ensures { Decides result (map (λ r. map part r.items) a.now
        ≡ map (λ r. map part r.items) b.now) }
{
    if a.len() != b.len() {
        return false;
    }
    for i in 0..a.len() {
        if !same_pieces(&a[i], &b[i]) {
            return false;
        }
    }
    true
}

fn same_awaits(a: &[Await], b: &[Await]) -> bool
    ensures { Decides result (a.now ≡ b.now) }
{
    if a.len() != b.len() {
        return false;
    }
    for i in 0..a.len() {
        if a[i] != b[i] {
            return false;
        }
    }
    true
}

fn same_variable(a: Variable, b: Variable) -> bool
    ensures { Decides result (a ≡ b) }
{
    a == b
}

fn same_variables(a: &[Variable], b: &[Variable]) -> bool
    ensures { Decides result (a.now ≡ b.now) }
{
    if a.len() != b.len() {
        return false;
    }
    for i in 0..a.len() {
        if !same_variable(a[i], b[i]) {
            return false;
        }
    }
    true
}

fn same_numbers(a: &[u32], b: &[u32]) -> bool
    ensures { Decides result (a.now ≡ b.now) }
{
    a == b
}

fn same_loop(a: &Loop, b: &Loop) -> bool
    ensures { Decides result (loop_of a.now ≡ loop_of b.now) }
{
    a.body == b.body
        && a.variable == b.variable
        && a.step == b.step
        && same_numbers(&a.privates, &b.privates)
}

fn same_loops(a: &[Loop], b: &[Loop]) -> bool
    ensures { Decides result (map loop_of a.now ≡ map loop_of b.now) }
{
    if a.len() != b.len() {
        return false;
    }
    for i in 0..a.len() {
        if !same_loop(&a[i], &b[i]) {
            return false;
        }
    }
    true
}

impl Code {
    ghost use Rattle.std.specs.Prelude.{◌≡◌};
    ghost use Rattle.std.specs.Bool.{Decides};
    ghost use Rattle.machine.specs.CodeView.{code_of};

    /// Whether two codes are equal. It looks at all instructions.
    pub fn is_same(&self, other: &Code) -> bool
        ensures { Decides result (code_of self.now ≡ code_of other.now) }
    {
        same_instructions(&self.instructions, &other.instructions)
            && same_records(&self.records, &other.records)
            && same_awaits(&self.awaits, &other.awaits)
            && same_variables(&self.variables, &other.variables)
            && same_loops(&self.loops, &other.loops)
            && self.operands == other.operands
            && self.counters == other.counters
    }
}
