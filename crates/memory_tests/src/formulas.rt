//! Expressions of the worked programs: their texts, and their code.

use crate::calls::{add_code, expr, loops};
use crate::programs::program_of;
use crate::rows::{AGAIN, OTHERWISE, rows};
use ast::{Action, Expr, Node, Operator, Program, Refusal};
use expr_code::Places;
use loop_tree::{LoopView, ScalarSet};
use machine::{Act as Does, Axis, Instr};
use std::alloc::AllocError;
use std::process::Abort;
use std::test::Fail;

/// The line of each text.
const LINE: u32 = 9;

/// Texts, and their values where I is 5 and each element is its subscript.
static TEXTS: [(&[u8], i64); 6] = [
    (b"I*I", 25),
    (b"A(I-2)+1", 4),
    (b"A(I-1)+1", 5),
    (b"10/(2-I)", -3),
    (b"1+MOD(I*I,3)", 2),
    (b"A(IX(I))+1", 6),
];

/// What an operator of these texts makes of two values.
fn made_of(operator: Operator, left: i64, right: i64) -> Option<i64> {
    match operator {
        Operator::Add => left.checked_add(right),
        Operator::Subtract => left.checked_sub(right),
        Operator::Multiply => left.checked_mul(right),
        Operator::Divide => left.checked_div(right),
        _ => None,
    }
}

/// The value of an expression where I is 5 and each element is its subscript.
fn value_of(expression: &Expr) -> Option<i64> {
    match expression {
        Expr::Constant(value) => Some(*value),
        Expr::Element(access) => match access.subscripts.as_slice() {
            [] => Some(5),
            [subscript] => value_of(subscript),
            // MOD, which a text alone doesn't tell from an array.
            [left, right] => value_of(left)?.checked_rem(value_of(right)?),
            _ => None,
        },
        Expr::Parentheses(inner) => value_of(inner),
        Expr::Binary(operator, left, right) => {
            made_of(*operator, value_of(left)?, value_of(right)?)
        }
        _ => None,
    }
}

/// The expression of a text.
fn read(rt: &(impl Abort + AllocGlobal), text: &[u8]) -> Expr {
    match expr(rt.alloc(), text, LINE) {
        Err(Refusal::Memory) => expr(rt.alloc(), text, LINE).expect(rt, AGAIN),
        given => given.expect(rt, OTHERWISE),
    }
}

#[test]
fn want_of_memory_in_formulas(rt: HostRuntime) {
    for (text, value) in &TEXTS {
        assert!(rt; value_of(&read(&rt, text)) == Some(*value));
    }
}

/// The code of what the first four rows assign first in their first loops: I*I, A(I-2)+1, A(I-1)+1
/// and 1+MOD(I*I,3).
static CODE: [&[Does]; 4] = [
    &[Does::Index, Does::Index, Does::Binary(Operator::Multiply)],
    &[
        Does::Index,
        Does::Constant(2),
        Does::Binary(Operator::Subtract),
        Does::Check(
            0,
            Axis {
                lower: 1,
                width: 8,
                stride: 1,
            },
        ),
        Does::LoadElement(0),
        Does::Constant(1),
        Does::Binary(Operator::Add),
    ],
    &[
        Does::Index,
        Does::Constant(1),
        Does::Binary(Operator::Subtract),
        Does::Check(
            0,
            Axis {
                lower: 0,
                width: 5,
                stride: 1,
            },
        ),
        Does::LoadElement(0),
        Does::Constant(1),
        Does::Binary(Operator::Add),
    ],
    &[
        Does::Constant(1),
        Does::Index,
        Does::Index,
        Does::Binary(Operator::Multiply),
        Does::Constant(3),
        Does::Modulo,
        Does::Binary(Operator::Add),
    ],
];

/// The expression that is assigned first in a body.
fn assigned(body: &[Node]) -> Option<&Expr> {
    match body {
        [Node::Plain(first), ..] => match &first.action {
            Action::Assign(_, value) => Some(value),
            _ => None,
        },
        _ => None,
    }
}

/// What stands in code behind the halt that was there.
fn behind_halt(code: &[Instr]) -> Option<&[Instr]> {
    match code {
        [first, rest @ ..] if first.act == Does::Halt => Some(rest),
        _ => None,
    }
}

/// Adds the code of an expression behind a halt, which stays where memory is refused.
fn add(rt: &impl Abort, value: &Expr, places: &Places<'_>, code: &mut Vec<Instr>) {
    if add_code(value, places, code).is_err() {
        assert!(*rt; behind_halt(code).is_some());
        code.truncate(1);
        add_code(value, places, code).expect(rt, AGAIN);
    }
}

/// Whether instructions do this, and are of the line of the texts.
fn are_wanted(added: &[Instr], wanted: &[Does]) -> bool {
    for (instruction, act) in added.iter().zip(wanted) {
        if instruction.act != *act || instruction.line != LINE {
            return false;
        }
    }
    added.len() == wanted.len()
}

/// The code of an expression stands behind what was there.
fn has_code(
    rt: &(impl Abort + AllocGlobal),
    value: &Expr,
    places: &Places<'_>,
    wanted: &[Does],
) -> Result<(), AllocError> {
    let halt = Instr {
        line: 1,
        act: Does::Halt,
    };
    let mut code = vec![in rt.alloc(); halt]?;
    add(rt, value, places, &mut code);
    let added = behind_halt(&code).expect(rt, "what was there stays");
    assert!(*rt; are_wanted(added, wanted));
    Ok(())
}

/// The code of what a loop assigns first.
fn loop_has_code(
    rt: &(impl Abort + AllocGlobal),
    program: &Program,
    view: &LoopView<'_, '_>,
    wanted: &[Does],
) -> Result<(), AllocError> {
    let privates = ScalarSet {
        names: Vec::new(rt.alloc()),
    };
    let places = Places {
        program,
        privates: &privates,
        loop_name: Some(view.head().variable.name),
        line: LINE,
    };
    match assigned(view.body()) {
        Some(value) => has_code(rt, value, &places, wanted),
        None => panic!(*rt; "an assignment begins the loop"),
    }
}

/// The code of what a program's first loop assigns first.
fn first_has_code(
    rt: &(impl Abort + AllocGlobal),
    program: &Program,
    wanted: &[Does],
) -> Result<(), AllocError> {
    let tree = loops(rt.alloc(), program)?;
    assert!(*rt; 1 <= tree.count());
    loop_has_code(rt, program, &tree.view(1), wanted)
}

#[test]
fn want_of_memory_in_code(rt: HostRuntime) -> Result<(), Fail> {
    for (row, wanted) in rows().iter().zip(&CODE) {
        first_has_code(&rt, &program_of(&rt, row), wanted)?;
    }
    Ok(())
}
