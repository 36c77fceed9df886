//! Expressions whose value doesn't depend on variables.

ghost use Rattle.std.specs.Prelude.{◌≡◌, IfOk, map};
ghost use Rattle.std.specs.Result.{result_ok};
ghost use Rattle.ast.specs.Exact.{greatest, intrinsic_value, least, value_of};
ghost use Rattle.ast.specs.Tree.{call, terms};
ghost use Rattle.ast.specs.View.{head as head_of, term};
ghost use Rattle.loop_tree.specs.Constants as spec;
ghost use Rattle.loop_tree.specs.ConstantsView.{listed};

use ast::{DoHead, Expr, Fault, Intrinsic, Operator};
use std::alloc::{AllocError, Global};
use values::{abs, apply_operator, apply_prefix, modulo, trips, truth};

/// The greatest of a number and others.
fn greatest(first: i64, others: &[i64]) -> i64
    ensures { result ≡ greatest first others.now }
{
    let mut best = first;
    for other in others {
        if best < *other {
            best = *other;
        }
    }
    best
}

/// The least of a number and others.
fn least(first: i64, others: &[i64]) -> i64
    ensures { result ≡ least first others.now }
{
    let mut best = first;
    for other in others {
        if *other < best {
            best = *other;
        }
    }
    best
}

/// The value of an intrinsic function. No program in the profile has another number of arguments
/// than the function takes.
fn intrinsic_value(intrinsic: Intrinsic, arguments: &[i64]) -> Result<i64, Fault>
    ensures { result ≡ intrinsic_value intrinsic arguments.now }
{
    match arguments {
        [] => Ok(0),
        [a] => match intrinsic {
            Intrinsic::Abs | Intrinsic::Iabs => abs(*a),
            Intrinsic::Max | Intrinsic::Max0 | Intrinsic::Min | Intrinsic::Min0 => Ok(*a),
            Intrinsic::Mod => Ok(0),
        },
        [a, b] => match intrinsic {
            Intrinsic::Mod => modulo(*a, *b),
            Intrinsic::Max | Intrinsic::Max0 => Ok(greatest(*a, &arguments[1..])),
            Intrinsic::Min | Intrinsic::Min0 => Ok(least(*a, &arguments[1..])),
            Intrinsic::Abs | Intrinsic::Iabs => Ok(0),
        },
        [a, _, _, ..] => match intrinsic {
            Intrinsic::Max | Intrinsic::Max0 => Ok(greatest(*a, &arguments[1..])),
            Intrinsic::Min | Intrinsic::Min0 => Ok(least(*a, &arguments[1..])),
            Intrinsic::Mod | Intrinsic::Abs | Intrinsic::Iabs => Ok(0),
        },
    }
}

/// The value of an operation, if both operands have one.
fn operation_value(operator: Operator, a: Option<i64>, b: Option<i64>) -> Option<i64>
    ensures { result ≡ spec.if_some a (λ u.
        spec.if_some b (λ v. result_ok (value_of operator u v))) }
{
    apply_operator(operator, a?, b?).ok()
}

/// The values of arguments, `None` where one has none.
#[cycle(constant)]
#[tactic(auto, using(crate::proofs::ConstantValues::from_none, crate::proofs::ConstantValues::next_value, crate::proofs::ConstantValues::no_values))]
fn values_of(alloc: Global, arguments: &[Expr]) -> Result<Option<Vec<i64>>, AllocError>
    ensures { IfOk result (λ values. listed values
        ≡ spec.constant_values (terms (map term arguments.now))) }
{
    let mut values = Vec::new(alloc);
    for argument in arguments {
        match constant_value(alloc, argument)? {
            Some(value) => values.push(value)?,
            None => return Ok(None),
        }
    }
    Ok(Some(values))
}

#[cycle(constant)]
#[tactic(auto, using(crate::proofs::ConstantValues::call_law))]
fn call_value(
    alloc: Global,
    intrinsic: Intrinsic,
    arguments: &[Expr],
) -> Result<Option<i64>, AllocError>
    ensures { IfOk result (λ value. value
        ≡ spec.constant_value (call intrinsic (terms (map term arguments.now)))) }
{
    match values_of(alloc, arguments)? {
        Some(values) => Ok(intrinsic_value(intrinsic, &values).ok()),
        None => Ok(None),
    }
}

/// The value of a constant expression; `None` of one with a variable, or that faults.
#[cycle(constant)]
#[tactic(auto, using(crate::proofs::ConstantValues::element_law, crate::proofs::ConstantValues::prefixed_law))]
pub fn constant_value(alloc: Global, expression: &Expr) -> Result<Option<i64>, AllocError>
    ensures { IfOk result (λ value. value ≡ spec.constant_value (term expression.now)) }
{
    match expression {
        Expr::Constant(number) => Ok(Some(*number)),
        Expr::Truth(holds) => Ok(Some(truth(*holds))),
        Expr::Parameter(_, number) => Ok(Some(*number)),
        Expr::Element(_) => Ok(None),
        Expr::Call(intrinsic, arguments) => call_value(alloc, *intrinsic, arguments),
        Expr::Parentheses(inner) => constant_value(alloc, inner),
        Expr::Unary(prefix, operand) => match constant_value(alloc, operand)? {
            Some(a) => Ok(apply_prefix(*prefix, a).ok()),
            None => Ok(None),
        },
        Expr::Binary(operator, left, right) => {
            let a = constant_value(alloc, left)?;
            let b = constant_value(alloc, right)?;
            Ok(operation_value(*operator, a, b))
        }
    }
}

/// The step of a loop where it is constant; 1 where it is absent.
pub fn step_of(alloc: Global, head: &DoHead) -> Result<Option<i64>, AllocError>
    ensures { IfOk result (λ step. step ≡ spec.step_of (head_of head.now)) }
{
    match &head.step {
        Some(step) => constant_value(alloc, step),
        None => Ok(Some(1)),
    }
}

fn trips_by(m1: i64, m2: i64, m3: i64) -> Option<u128>
    ensures { result ≡ spec.trips_by m1 m2 m3 }
{
    if m3 == 0 {
        None
    } else {
        Some(trips(m1, m2, m3))
    }
}

/// How often a loop's range is gone through, where that is known.
pub fn trips_of(alloc: Global, head: &DoHead) -> Result<Option<u128>, AllocError>
    ensures { IfOk result (λ trips. trips ≡ spec.trips_of (head_of head.now)) }
{
    let first = constant_value(alloc, &head.first)?;
    let last = constant_value(alloc, &head.last)?;
    let step = step_of(alloc, head)?;
    match (first, last, step) {
        (Some(m1), Some(m2), Some(m3)) => Ok(trips_by(m1, m2, m3)),
        _ => Ok(None),
    }
}
