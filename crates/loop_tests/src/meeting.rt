//! Relations of random references, beside all ways in which these meet for small numbers.

use crate::asked::add;
use crate::calls::{loop_of, loops, program, references, verify};
use crate::looks::relation_of;
use ast::{Expr, Intrinsic, Name, Operator, Prefix, Program, RefId, Refusal};
use dependence::{Reason, Relation};
use loop_tree::{LoopView, Occurrence};
use std::alloc::{AllocError, Global};
use std::process::Abort;
use std::test::Fail;

/// How many programs are tried, each with so many elements, and of these all ordered pairs: 10,240.
const PROGRAMS: u32 = 160;

const ELEMENTS: u32 = 8;

/// Numbers that look random, the same ones in each run.
#[derive(Drop)]
struct Numbers {
    state: u64,
}

impl Numbers {
    fn next(&mut self) -> u64 {
        self.state = self
            .state
            .wrapping_mul(6_364_136_223_846_793_005)
            .wrapping_add(1_442_695_040_888_963_407);
        self.state >> 33
    }

    /// One of the texts.
    fn choice<'t>(&mut self, texts: &[&'t [u8]]) -> &'t [u8] {
        if texts.is_empty() {
            return b"";
        }
        texts[self.next() as usize % texts.len()]
    }
}

const FIRSTS: [&[u8]; 3] = [b"I=-2,", b"I=0,", b"I=1,"];

const LASTS: [&[u8]; 6] = [b"-5", b"0", b"3", b"6", b"8", b"M"];

const STEPS: [&[u8]; 8] = [b"", b",2", b",3", b",-1", b",-2", b",-3", b",0", b",N"];

const CONSTANTS: [&[u8]; 9] = [b"-4", b"-3", b"-2", b"-1", b"0", b"1", b"2", b"3", b"4"];

const FACTORS: [&[u8]; 9] = [
    b"-4*", b"-3*", b"-2*", b"-", b"+0*", b"+", b"+2*", b"+3*", b"+4*",
];

/// The range assigns J and K, and neither M nor N.
const SCALARS: [&[u8]; 8] = [b"I", b"I", b"I", b"I", b"M", b"N", b"J", b"K"];

const OTHER_TERMS: [&[u8]; 8] = [
    b"+MOD(I,3)",
    b"-I/2",
    b"+I*I",
    b"+C(I)",
    b"+I*M",
    b"+MAX(I,N)",
    b"-2*(I-M)",
    b"+(3-1)*I",
];

fn add_term(text: &mut Vec<u8>, numbers: &mut Numbers) -> Result<(), AllocError> {
    if numbers.next() % 8 == 0 {
        return add(text, &[numbers.choice(&OTHER_TERMS)]);
    }
    let factor = numbers.choice(&FACTORS);
    add(text, &[factor, numbers.choice(&SCALARS)])
}

/// The terms of a subscript, two at most.
fn terms(alloc: Global, numbers: &mut Numbers) -> Result<Vec<u8>, AllocError> {
    let mut text = Vec::new(alloc);
    for _ in 0..numbers.next() % 3 {
        add_term(&mut text, numbers)?;
    }
    Ok(text)
}

/// Three lists of terms.
fn some_terms(alloc: Global, numbers: &mut Numbers) -> Result<Vec<Vec<u8>>, AllocError> {
    let mut list = Vec::new(alloc);
    for _ in 0..3 {
        list.push(terms(alloc, numbers)?)?;
    }
    Ok(list)
}

/// Appends a subscript of some terms, so that many differ in their constants alone.
fn add_subscript(
    text: &mut Vec<u8>,
    numbers: &mut Numbers,
    terms: &[Vec<u8>],
) -> Result<(), AllocError> {
    add(text, &[numbers.choice(&CONSTANTS)])?;
    if terms.is_empty() {
        return Ok(());
    }
    add(text, &[&terms[numbers.next() as usize % terms.len()]])
}

/// An assignment to an element of an array of one dimension, or of two.
fn add_assignment(
    text: &mut Vec<u8>,
    numbers: &mut Numbers,
    terms: &[Vec<u8>],
    two: bool,
) -> Result<(), AllocError> {
    if two {
        add(text, &[b"      B("])?;
        add_subscript(text, numbers, terms)?;
        add(text, &[b","])?;
    } else {
        add(text, &[b"      A("])?;
    }
    add_subscript(text, numbers, terms)?;
    add(text, &[b")=0\n"])
}

/// Appends the head of a loop.
fn add_head(text: &mut Vec<u8>, numbers: &mut Numbers) -> Result<(), AllocError> {
    let first = numbers.choice(&FIRSTS);
    let last = numbers.choice(&LASTS);
    let step = numbers.choice(&STEPS);
    add(text, &[b"      DO 10 ", first, last, step, b"\n"])
}

/// Appends a program with a loop whose range assigns elements of an array, J and K.
fn add_program(
    text: &mut Vec<u8>,
    numbers: &mut Numbers,
    terms: &[Vec<u8>],
) -> Result<(), AllocError> {
    let two = numbers.next() % 3 == 0;
    add(text, &[b"      INTEGER A(9),B(9,9),C(9)\n"])?;
    add_head(text, numbers)?;
    for _ in 0..ELEMENTS {
        add_assignment(text, numbers, terms, two)?;
    }
    add(text, &[b"      J=0\n   10 K=0\n      END\n"])
}

/// The text of such a program.
fn source(alloc: Global, numbers: &mut Numbers) -> Result<Vec<u8>, AllocError> {
    let terms = some_terms(alloc, numbers)?;
    let mut text = Vec::new(alloc);
    add_program(&mut text, numbers, &terms)?;
    Ok(text)
}

/// How many values of a subscript are looked at.
const MOST: usize = 25;

/// Some of the values that an expression may have.
#[derive(Clone, Copy)]
struct Values {
    items: [i64; MOST],
    count: usize,
}

impl Values {
    fn of(values: &[i64]) -> Values {
        let mut all = Values {
            items: [0; MOST],
            count: 0,
        };
        for value in values {
            all.add(*value);
        }
        all
    }

    fn add(&mut self, value: i64) {
        if self.count < MOST {
            self.items[self.count] = value;
            self.count += 1;
        }
    }

    fn as_slice(&self) -> &[i64] {
        &self.items[..self.count.min(MOST)]
    }
}

/// Where an iteration stands: the loop's variable, and the scalars that its range doesn't assign.
#[derive(Clone, Copy)]
struct Standing {
    variable: i64,
    m: i64,
    n: i64,
}

/// Some of the numbers that a place may hold of which nothing is known.
const ANY: [i64; 5] = [-2, -1, 0, 1, 2];

impl Standing {
    /// The values that a scalar may have.
    fn values(&self, name: Name) -> Values {
        match name.letters[0] {
            b'I' => Values::of(&[self.variable]),
            b'M' => Values::of(&[self.m]),
            b'N' => Values::of(&[self.n]),
            _ => Values::of(&ANY),
        }
    }
}

/// What is done with two values.
#[derive(Clone, Copy)]
enum Operation {
    Operator(Operator),
    Call(Intrinsic),
}

impl Operation {
    /// The value, if there is no fault.
    fn value(self, a: i64, b: i64) -> Option<i64> {
        match self {
            Operation::Operator(Operator::Add) => a.checked_add(b),
            Operation::Operator(Operator::Subtract) => a.checked_sub(b),
            Operation::Operator(Operator::Multiply) => a.checked_mul(b),
            Operation::Operator(Operator::Divide) => a.checked_div(b),
            Operation::Call(Intrinsic::Mod) => a.checked_rem(b),
            Operation::Call(Intrinsic::Max) => Some(a.max(b)),
            _ => None,
        }
    }

    fn add_values(self, values: &mut Values, a: i64, right: &[i64]) {
        for b in right {
            if let Some(value) = self.value(a, *b) {
                values.add(value);
            }
        }
    }

    fn values(self, left: &Values, right: &Values) -> Values {
        let mut values = Values::of(&[]);
        for a in left.as_slice() {
            self.add_values(&mut values, *a, right.as_slice());
        }
        values
    }
}

fn signed(prefix: Prefix, operand: &Values) -> Values {
    match prefix {
        Prefix::Plus => *operand,
        Prefix::Minus => Operation::Operator(Operator::Subtract).values(&Values::of(&[0]), operand),
        Prefix::Not => Values::of(&[]),
    }
}

/// The values that an expression may have, each place in it of which nothing is known holding any
/// number of its own.
fn values_of(expression: &Expr, at: &Standing) -> Values {
    match expression {
        Expr::Constant(number) | Expr::Parameter(_, number) => Values::of(&[*number]),
        Expr::Truth(_) => Values::of(&[]),
        Expr::Element(access) => match access.subscripts.as_slice() {
            [] => at.values(access.reference.name),
            [_, ..] => Values::of(&ANY),
        },
        Expr::Call(intrinsic, arguments) => match arguments.as_slice() {
            [first, second] => {
                let left = values_of(first, at);
                let right = values_of(second, at);
                Operation::Call(*intrinsic).values(&left, &right)
            }
            _ => Values::of(&[]),
        },
        Expr::Parentheses(inner) => values_of(inner, at),
        Expr::Unary(prefix, operand) => signed(*prefix, &values_of(operand, at)),
        Expr::Binary(operator, left, right) => {
            let left = values_of(left, at);
            let right = values_of(right, at);
            Operation::Operator(*operator).values(&left, &right)
        }
    }
}

fn holds(values: &[i64], wanted: i64) -> bool {
    for value in values {
        if *value == wanted {
            return true;
        }
    }
    false
}

fn share(first: &[i64], second: &[i64]) -> bool {
    for value in first {
        if holds(second, *value) {
            return true;
        }
    }
    false
}

/// Whether subscripts may be equal, dimension by dimension.
fn may_agree((first, here): (&[Expr], &Standing), (second, there): (&[Expr], &Standing)) -> bool {
    for (dimension, subscript) in first.iter().enumerate() {
        let Some(other) = second.get(dimension) else {
            return true;
        };
        let left = values_of(subscript, here);
        let right = values_of(other, there);
        if !share(left.as_slice(), right.as_slice()) {
            return false;
        }
    }
    true
}

/// Two references of a loop's range, by their subscripts.
#[derive(Clone, Copy)]
struct Pair<'p> {
    first: &'p [Expr],
    second: &'p [Expr],
    /// How often the loop's range is gone through, where that is known.
    trips: Option<u128>,
}

impl<'p> Pair<'p> {
    /// Whether they are seen to meet in iterations k and j, with this step.
    fn meets(&self, step: i64, k: u32, j: u32) -> bool {
        for number in 0..9_u32 {
            let start = i64::from(number % 3);
            let m = i64::from(number / 3) - 1;
            let here = Standing {
                variable: start.wrapping_add(step.wrapping_mul(i64::from(k))),
                m,
                n: 1,
            };
            let there = Standing {
                variable: start.wrapping_add(step.wrapping_mul(i64::from(j))),
                m,
                n: 1,
            };
            if may_agree((self.first, &here), (self.second, &there)) {
                return true;
            }
        }
        false
    }

    fn has_iteration(&self, j: u32) -> bool {
        match self.trips {
            Some(trips) => u128::from(j) < trips,
            None => true,
        }
    }

    /// The distances up to 6, a bit for each, at which they are seen to meet with this step.
    fn distances(&self, step: i64) -> u32 {
        let mut met = 0;
        for number in 0..12_u32 {
            let k = number % 2;
            let distance = number / 2 + 1;
            let j = k + distance;
            let known = (met >> distance) & 1 == 1;
            if !known && self.has_iteration(j) && self.meets(step, k, j) {
                met |= 1 << distance;
            }
        }
        met
    }

    /// The same with some of the steps that the loop may have.
    fn all_distances(&self, steps: &[i64]) -> u32 {
        let mut met = 0;
        for step in steps {
            met |= self.distances(*step);
        }
        met
    }
}

/// Whether a relation lets references meet so many iterations apart.
fn allows(relation: Relation, distance: u32) -> bool {
    match relation {
        Relation::Apart(_, _) => false,
        Relation::Distance(_, only) => only == u128::from(distance),
        Relation::Any => true,
    }
}

/// Whether references that meet at these distances refute a relation.
fn refute(met: u32, relation: Relation) -> bool {
    for distance in 1..7_u32 {
        if (met >> distance) & 1 == 1 && !allows(relation, distance) {
            return true;
        }
    }
    false
}

/// How many relations of each kind were found.
#[derive(Clone, Copy)]
struct Tally {
    constant: u32,
    divisor: u32,
    distance: u32,
    range: u32,
    only: u32,
    any: u32,
}

impl Tally {
    fn count(&mut self, relation: Relation) {
        let place = match relation {
            Relation::Apart(_, Reason::Constant) => &mut self.constant,
            Relation::Apart(_, Reason::Divisor) => &mut self.divisor,
            Relation::Apart(_, Reason::Distance) => &mut self.distance,
            Relation::Apart(_, Reason::Range) => &mut self.range,
            Relation::Distance(_, _) => &mut self.only,
            Relation::Any => &mut self.any,
        };
        *place = place.wrapping_add(1);
    }

    /// Whether there were enough of each kind that says something.
    fn has_enough(&self) -> bool {
        self.constant > 20
            && self.divisor > 20
            && self.distance > 20
            && self.range > 20
            && self.only > 20
    }
}

static CLAIMS: [Relation; 14] = [
    Relation::Apart(1, Reason::Constant),
    Relation::Apart(1, Reason::Divisor),
    Relation::Apart(1, Reason::Distance),
    Relation::Apart(1, Reason::Range),
    Relation::Apart(2, Reason::Constant),
    Relation::Apart(2, Reason::Divisor),
    Relation::Apart(2, Reason::Distance),
    Relation::Apart(2, Reason::Range),
    Relation::Distance(1, 1),
    Relation::Distance(1, 2),
    Relation::Distance(1, 3),
    Relation::Distance(2, 1),
    Relation::Distance(2, 2),
    Relation::Distance(2, 3),
];

/// The steps that are tried where none is known.
const ANY_STEP: [i64; 3] = [-2, 1, 3];

/// Whether one of the claims of two references is verified that is refuted by the distances at
/// which they meet.
fn is_misled(view: &LoopView<'_, '_>, first: RefId, second: RefId, met: u32) -> bool {
    for claim in &CLAIMS {
        if refute(met, *claim) && verify(view, first, second, *claim) {
            return true;
        }
    }
    false
}

/// Whether references of one dimension meet at a distance, whatever the step; far ones aren't
/// tried.
fn meet_at(pair: &Pair<'_>, steps: &[i64], distance: u128) -> bool {
    if pair.first.len() != 1 || distance >= 100 {
        return true;
    }
    for step in steps {
        if !pair.meets(*step, 0, distance as u32) {
            return false;
        }
    }
    true
}

/// Whether a relation agrees with the distances at which references meet.
fn agrees(pair: &Pair<'_>, steps: &[i64], met: u32, relation: Relation) -> bool {
    match relation {
        Relation::Distance(1, distance) if !meet_at(pair, steps, distance) => false,
        _ => !refute(met, relation),
    }
}

/// The relation of a reference and one in a later iteration, if nothing that is said of them is
/// refuted.
fn try_pair(
    view: &LoopView<'_, '_>,
    a: &Occurrence<'_>,
    b: &Occurrence<'_>,
    steps: &[i64],
) -> Option<Relation> {
    let pair = Pair {
        first: a.subscripts,
        second: b.subscripts,
        trips: view.trips(),
    };
    let (first, second) = (a.reference.id, b.reference.id);
    let relation = relation_of(view, first, second)?;
    let met = pair.all_distances(steps);
    if agrees(&pair, steps, met, relation) && !is_misled(view, first, second, met) {
        Some(relation)
    } else {
        None
    }
}

/// Whether a reference is an element that is assigned.
fn is_assigned(occurrence: &Occurrence<'_>) -> bool {
    occurrence.defines && !occurrence.subscripts.is_empty()
}

/// How many elements a loop's range assigns.
fn assigned_elements(view: &LoopView<'_, '_>) -> u32 {
    let mut count: u32 = 0;
    for occurrence in references(view) {
        if is_assigned(occurrence) {
            count = count.wrapping_add(1);
        }
    }
    count
}

/// Whether nothing is refuted that is said of a reference and all references in later iterations.
fn are_right_beside(
    view: &LoopView<'_, '_>,
    a: &Occurrence<'_>,
    steps: &[i64],
    tally: &mut Tally,
) -> bool {
    for b in references(view) {
        if is_assigned(b) {
            match try_pair(view, a, b, steps) {
                Some(relation) => tally.count(relation),
                None => return false,
            }
        }
    }
    true
}

/// Whether nothing is refuted that is said of all pairs of the elements of a loop, with these
/// steps.
fn are_right_with(view: &LoopView<'_, '_>, steps: &[i64], tally: &mut Tally) -> bool {
    for a in references(view) {
        if is_assigned(a) && !are_right_beside(view, a, steps, tally) {
            return false;
        }
    }
    assigned_elements(view) == ELEMENTS
}

/// The same with the steps that the loop may have.
fn are_right(view: &LoopView<'_, '_>, tally: &mut Tally) -> bool {
    match view.step() {
        None | Some(0) => are_right_with(view, &ANY_STEP, tally),
        Some(step) => are_right_with(view, &[step], tally),
    }
}

/// The same of the loop of a program.
fn is_right(alloc: Global, program: &Program, tally: &mut Tally) -> Result<bool, AllocError> {
    let tree = loops(alloc, program)?;
    Ok(match loop_of(&tree, 1) {
        Some(view) => tree.count() == 1 && are_right(&view, tally),
        None => false,
    })
}

/// The same of the program of a source.
fn is_right_in(alloc: Global, text: &[u8], tally: &mut Tally) -> Result<bool, Refusal> {
    let program = program(alloc, text)?;
    Ok(is_right(alloc, &program, tally)?)
}

/// The same of the next program.
fn next_is_right(alloc: Global, numbers: &mut Numbers, tally: &mut Tally) -> Result<bool, Refusal> {
    let text = source(alloc, numbers)?;
    is_right_in(alloc, &text, tally)
}

#[test]
fn no_relation_is_refuted(rt: HostRuntime) -> Result<(), Fail> {
    let mut numbers = Numbers { state: 2026 };
    let mut tally = Tally {
        constant: 0,
        divisor: 0,
        distance: 0,
        range: 0,
        only: 0,
        any: 0,
    };
    for number in 0..PROGRAMS {
        assert!(rt;
            next_is_right(rt.alloc(), &mut numbers, &mut tally)?,
            "program {number}"
        );
    }
    assert!(rt; tally.has_enough());
    Ok(())
}
