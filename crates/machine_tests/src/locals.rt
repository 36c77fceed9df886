//! Many steps in one go against the same steps one by one, on random code: local instructions, with
//! what is done together by shortcuts, and strides, with sites.

use ast::{Name, Operator};
use machine::{Act, Axis, Code, Frame, Instr, Loop, Open, Parts, Variable, local, stride};
use std::alloc::{AllocError, Global};

/// How many codes are made.
const CODES: u64 = 400;

/// How many phrases, or single instructions, each of them has.
const PHRASES: u32 = 24;

/// How many operands a frame has room for.
const OPERANDS: usize = 6;

/// How many steps are made of each at most.
const STEPS: u64 = 300;

/// How many steps are made in all at least.
const FEWEST: u32 = 4_000;

/// How many private scalars a frame has.
const PRIVATES: u64 = 4;

/// How many cells the array A has, and behind it the scalar B.
const CELLS: usize = 10;

/// A generator of numbers by a linear congruence.
#[derive(Drop)]
pub struct Chance {
    pub state: u64,
}

impl Chance {
    /// A number below `bound`, which isn't 0.
    pub fn below(&mut self, bound: u64) -> u64 {
        self.state = self
            .state
            .wrapping_mul(6_364_136_223_846_793_005)
            .wrapping_add(1_442_695_040_888_963_407);
        (self.state >> 33) % bound.max(1)
    }

    /// A number below `bound` as an instruction has it.
    pub fn number(&mut self, bound: u64) -> u32 {
        u32::try_from(self.below(bound)).unwrap_or(0)
    }

    /// A small value, now and then a great one.
    pub fn value(&mut self) -> i64 {
        match self.below(12) {
            0 => i64::MAX,
            1 => i64::MIN,
            _ => i64::try_from(self.below(9)).unwrap_or(0) - 2,
        }
    }
}

/// The only subscript of A.
const AXIS: Axis = Axis {
    lower: 1,
    width: CELLS as u32,
    stride: 1,
};

fn operator(chance: &mut Chance) -> Act {
    match chance.below(9) {
        0 => Act::Binary(Operator::Add),
        1 => Act::Binary(Operator::Subtract),
        2 => Act::Binary(Operator::Multiply),
        3 => Act::Binary(Operator::Divide),
        4 => Act::Binary(Operator::Less),
        5 => Act::Binary(Operator::Equal),
        6 => Act::Modulo,
        7 => Act::Greatest,
        _ => Act::Least,
    }
}

/// An instruction that pushes a value.
fn value(chance: &mut Chance) -> Act {
    match chance.below(4) {
        0 => Act::Constant(chance.value()),
        1 => Act::Index,
        _ => Act::Private(chance.number(PRIVATES)),
    }
}

/// An instruction that may stand anywhere, whether it fits or not.
fn stray(chance: &mut Chance) -> Act {
    match chance.below(6) {
        0 => Act::Back(chance.number(12)),
        1 => Act::Skip(chance.number(3)),
        2 => Act::CountDown(chance.number(4)),
        3 => Act::Check(chance.number(2), AXIS),
        4 => operator(chance),
        _ => value(chance),
    }
}

/// A and B, which lie in one vector of cells.
const VARIABLES: [Variable; 2] = [
    Variable {
        name: Name {
            letters: [b'A', b' ', b' ', b' ', b' ', b' '],
        },
        start: 0,
        size: CELLS,
    },
    Variable {
        name: Name {
            letters: [b'B', b' ', b' ', b' ', b' ', b' '],
        },
        start: CELLS,
        size: 1,
    },
];

fn add(instructions: &mut Vec<Instr>, acts: &[Act]) -> Result<(), AllocError> {
    for act in acts {
        instructions.push(Instr { line: 1, act: *act })?;
    }
    Ok(())
}

/// Adds a serial DO whose range takes an element of A.
fn add_loop(instructions: &mut Vec<Instr>, chance: &mut Chance) -> Result<(), AllocError> {
    let (variable, taken) = (chance.number(PRIVATES), chance.number(PRIVATES));
    let trips = Act::Constant(chance.value());
    let one = Act::Constant(1);
    add(instructions, &[one, trips, one, Act::SetUp])?;
    add(
        instructions,
        &[Act::SetPrivate(variable), Act::CountDown(9)],
    )?;
    add(instructions, &[value(chance), Act::Check(0, AXIS)])?;
    add(instructions, &[Act::LoadElement(0), Act::SetPrivate(taken)])?;
    add(instructions, &[Act::Private(variable), Act::Step])?;
    let more = Act::Binary(Operator::Add);
    add(
        instructions,
        &[more, Act::SetPrivate(variable), Act::Back(9)],
    )
}

/// Adds a statement as a compiler makes it, or an instruction that stands there by chance.
fn add_some(instructions: &mut Vec<Instr>, chance: &mut Chance) -> Result<(), AllocError> {
    let (one, other, joined) = (value(chance), value(chance), operator(chance));
    let (check, private) = (
        Act::Check(0, AXIS),
        Act::SetPrivate(chance.number(PRIVATES)),
    );
    let (load, store) = (Act::LoadElement(0), Act::StoreElement(0));
    match chance.below(9) {
        0 | 1 => add(instructions, &[one, other, joined, private]),
        2 => add(instructions, &[one, other, check, store]),
        3 => add(instructions, &[one, check, load, other, joined, private]),
        4 => add(
            instructions,
            &[one, other, check, load, joined, Act::Index, check, store],
        ),
        5 => add(instructions, &[Act::Load(1), one, joined, Act::Store(1)]),
        6 => add(
            instructions,
            &[one, other, joined, Act::SkipUnless(chance.number(8))],
        ),
        7 => add_loop(instructions, chance),
        _ => add(instructions, &[stray(chance)]),
    }
}

fn instructions(alloc: Global, chance: &mut Chance) -> Result<Vec<Instr>, AllocError> {
    let mut made = Vec::new(alloc);
    for _ in 0..PHRASES {
        add_some(&mut made, chance)?;
    }
    Ok(made)
}

/// A loop from the first instruction on, with private scalars.
fn the_loop(alloc: Global) -> Result<Loop, AllocError> {
    let mut privates = Vec::new(alloc);
    for _ in 0..PRIVATES {
        privates.push(1)?;
    }
    Ok(Loop {
        body: 0,
        variable: 1,
        step: 1,
        privates,
    })
}

/// Code of random instructions.
pub fn parts(alloc: Global, chance: &mut Chance) -> Result<Parts, AllocError> {
    let mut variables = Vec::new(alloc);
    for variable in VARIABLES {
        variables.push(variable)?;
    }
    let mut loops = Vec::new(alloc);
    loops.push(the_loop(alloc)?)?;
    Ok(Parts {
        instructions: instructions(alloc, chance)?,
        records: Vec::new(alloc),
        awaits: Vec::new(alloc),
        variables,
        loops,
        operands: OPERANDS,
        counters: 3,
    })
}

/// The frame of the loop's first iteration, in which its variable has this value.
pub fn frame(alloc: Global, code: &Code, first: i64) -> Result<Frame, AllocError> {
    let opened = Open {
        number: 0,
        first,
        trips: 1,
    };
    Frame::begin(alloc, code, opened, 0, first)
}

/// So many local instructions in one go, and one by one: how many they were, where they are as many
/// and lead to the same frame.
fn local_both_ways(
    alloc: Global,
    code: &Code,
    first: i64,
    n: u32,
) -> Result<Option<u32>, AllocError> {
    let mut one = frame(alloc, code, first)?;
    let mut other = frame(alloc, code, first)?;
    let made = local(code, &mut one, n).made;
    let mut singles: u32 = 0;
    for _ in 0..n {
        singles = singles.saturating_add(local(code, &mut other, 1).made);
    }
    let same = made == singles && one.is_same(&other);
    Ok(if same { Some(made) } else { None })
}

/// Strides on as many cells as the code has; none on another number.
pub fn strides(code: &Code, frame: &mut Frame, cells: &mut Vec<i64>, n: u32) -> u32 {
    if cells.len() != code.cells() {
        return 0;
    }
    stride(code, frame, cells, n)
}

/// The same of strides, and of the cells that they leave.
fn strides_both_ways(
    alloc: Global,
    code: &Code,
    first: i64,
    n: u32,
) -> Result<Option<u32>, AllocError> {
    let mut one = frame(alloc, code, first)?;
    let mut other = frame(alloc, code, first)?;
    let mut cells = vec![in alloc; 0; code.cells()]?;
    let mut others = vec![in alloc; 0; code.cells()]?;
    let made = strides(code, &mut one, &mut cells, n);
    let mut singles: u32 = 0;
    for _ in 0..n {
        singles = singles.saturating_add(strides(code, &mut other, &mut others, 1));
    }
    let same = made == singles && one.is_same(&other) && cells.as_slice() == others.as_slice();
    Ok(if same { Some(made) } else { None })
}

/// How many steps of random codes were made, where all of them agree.
fn steps_of_codes(alloc: Global, chance: &mut Chance) -> Result<Option<u32>, AllocError> {
    let mut steps: u32 = 0;
    for _ in 0..CODES {
        let Some(code) = Code::new(alloc, parts(alloc, chance)?)? else {
            return Ok(None);
        };
        let (first, n) = (chance.value(), chance.number(STEPS).saturating_add(1));
        let (Some(locals), Some(strided)) = (
            local_both_ways(alloc, &code, first, n)?,
            strides_both_ways(alloc, &code, first, n)?,
        ) else {
            return Ok(None);
        };
        steps = steps.saturating_add(locals).saturating_add(strided);
    }
    Ok(Some(steps))
}

#[test]
fn many_steps_in_one_go_are_those_one_by_one(rt: HostRuntime) -> Result<(), AllocError> {
    let steps = steps_of_codes(rt.alloc(), &mut Chance { state: 1977 })?;
    assert!(rt; steps > Some(FEWEST));
    Ok(())
}
