//! Values of expressions.

ghost use Rattle.std.specs.Prelude.{◌≡◌, ◌<◌, ◌≤◌, IfOk, int_lt, map, not, true};
ghost use Rattle.std.specs.List.{list_all};
ghost use Rattle.ast.specs.Meaning.{target, value};
ghost use Rattle.ast.specs.Symbols.{dimensions_in, elements, most_elements};
ghost use Rattle.ast.specs.Tree.{accessed, call, terms};
ghost use Rattle.ast.specs.declared.expression.Intrinsic.TheVariants.{Abs};
ghost use Rattle.ast.specs.View.{access as access_of, extent, term};
ghost use Rattle.tree_run.specs.Placed.{PlacedTerm, PlacedTerms};
ghost use Rattle.tree_run.specs.Runs.{GivesValue};
ghost use Rattle.tree_run.specs.Steps.{call_at, evaluated, greatest_at, least_at, opening};
ghost use Rattle.tree_run.specs.Steps.{place_at, remainder_at};
ghost use Rattle.tree_run.specs.View.{look, store_in, symbols_in};

use crate::memory::Memory;
use crate::places::Walk;
use crate::stop::Stop;
use ast::{Access, Dimension, Expr, Fault, Intrinsic, Line};
use values::{abs, apply_operator, apply_prefix, modulo, truth};

/// Evaluates expressions for their faults alone.
#[cycle(value)]
fn evaluate(memory: &Memory<'_>, expressions: &[Expr]) -> Result<(), Fault>
    requires { PlacedTerms (symbols_in memory.now) (terms (map term expressions.now)) }
    ensures { result ≡ evaluated (look memory.now) (terms (map term expressions.now)) }
{
    for expression in expressions {
        value(memory, expression)?;
    }
    Ok(())
}

/// The place of an element by its subscripts: all are evaluated, from left to right, before the
/// first is checked.
#[cycle(value)]
#[tactic(auto, using(crate::proofs::Offsets::room_kept, crate::proofs::Offsets::first_room))]
fn place(memory: &Memory<'_>, dimensions: &[Dimension], subscripts: &[Expr]) -> Result<usize, Fault>
    requires open { list_all (λ d. not (int_lt d.upper d.lower)) (map extent dimensions.now)
        ≡ true }
    requires few { elements (map extent dimensions.now) ≤ most_elements }
    requires placed { PlacedTerms (symbols_in memory.now) (terms (map term subscripts.now)) }
    ensures at { result ≡ place_at (look memory.now) (opening (map extent dimensions.now))
        (terms (map term subscripts.now)) }
    ensures within { IfOk result (λ p. p < elements (map extent dimensions.now)) }
{
    let mut walk = Walk::new(dimensions);
    for subscript in subscripts {
        walk = walk.step(value(memory, subscript)?);
    }
    walk.place()
}

/// The greatest of a number and the values of expressions.
#[cycle(value)]
fn greatest(memory: &Memory<'_>, first: i64, others: &[Expr]) -> Result<i64, Fault>
    requires { PlacedTerms (symbols_in memory.now) (terms (map term others.now)) }
    ensures { result ≡ greatest_at (look memory.now) first (terms (map term others.now)) }
{
    let mut best = first;
    for other in others {
        let x = value(memory, other)?;
        if best < x {
            best = x;
        }
    }
    Ok(best)
}

/// The least of a number and the values of expressions.
#[cycle(value)]
fn least(memory: &Memory<'_>, first: i64, others: &[Expr]) -> Result<i64, Fault>
    requires { PlacedTerms (symbols_in memory.now) (terms (map term others.now)) }
    ensures { result ≡ least_at (look memory.now) first (terms (map term others.now)) }
{
    let mut best = first;
    for other in others {
        let x = value(memory, other)?;
        if x < best {
            best = x;
        }
    }
    Ok(best)
}

/// MOD of a number by the one argument that is left; no program in the profile has another number
/// of them.
#[cycle(value)]
#[tactic(auto, using(crate::proofs::Values::mod_zero))]
fn remainder(memory: &Memory<'_>, a: i64, others: &[Expr]) -> Result<i64, Fault>
    requires { PlacedTerms (symbols_in memory.now) (terms (map term others.now)) }
    ensures { result ≡ remainder_at (look memory.now) a (terms (map term others.now)) }
{
    if let [b] = others {
        modulo(a, value(memory, b)?)
    } else {
        evaluate(memory, others)?;
        Ok(0)
    }
}

/// ABS of one argument; no program in the profile has another number of them.
#[cycle(value)]
#[tactic(auto, using(crate::proofs::Values::abs_other))]
fn absolute(memory: &Memory<'_>, arguments: &[Expr]) -> Result<i64, Fault>
    requires { PlacedTerms (symbols_in memory.now) (terms (map term arguments.now)) }
    ensures { result ≡ call_at (look memory.now) Abs (terms (map term arguments.now)) }
{
    if let [a] = arguments {
        abs(value(memory, a)?)
    } else {
        evaluate(memory, arguments)?;
        Ok(0)
    }
}

/// The value of an intrinsic function, by the function.
#[cycle(value)]
fn call_by_name(memory: &Memory<'_>, intrinsic: Intrinsic, arguments: &[Expr]) -> Result<i64, Fault>
    requires { PlacedTerms (symbols_in memory.now) (terms (map term arguments.now)) }
    ensures { result ≡ call_at (look memory.now) intrinsic (terms (map term arguments.now)) }
{
    match intrinsic {
        Intrinsic::Mod => match arguments {
            [] => Ok(0),
            [first, others @ ..] => remainder(memory, value(memory, first)?, others),
        },
        Intrinsic::Abs | Intrinsic::Iabs => absolute(memory, arguments),
        Intrinsic::Max | Intrinsic::Max0 => match arguments {
            [] => Ok(0),
            [first, others @ ..] => greatest(memory, value(memory, first)?, others),
        },
        Intrinsic::Min | Intrinsic::Min0 => match arguments {
            [] => Ok(0),
            [first, others @ ..] => least(memory, value(memory, first)?, others),
        },
    }
}

/// The value of an intrinsic function: all arguments, from left to right.
#[cycle(value)]
#[tactic(auto, using(crate::proofs::Values::call_law))]
fn call(memory: &Memory<'_>, intrinsic: Intrinsic, arguments: &[Expr]) -> Result<i64, Fault>
    requires { PlacedTerms (symbols_in memory.now) (terms (map term arguments.now)) }
    ensures { result ≡ value (look memory.now) (call intrinsic (terms (map term arguments.now))) }
{
    call_by_name(memory, intrinsic, arguments)
}

/// The place of a variable or an element among the values of its name.
#[cycle(value)]
#[tactic(auto, using(crate::proofs::Values::place_law))]
pub fn target(memory: &Memory<'_>, access: &Access) -> Result<usize, Fault>
    requires { PlacedTerm (symbols_in memory.now) (accessed (access_of access.now)) }
    ensures at { result ≡ target (symbols_in memory.now) (store_in memory.now)
        (access_of access.now) }
    ensures within { IfOk result (λ p. p
        < elements (dimensions_in (symbols_in memory.now) access.now.reference.name.letters)) }
{
    place(
        memory,
        memory.dimensions(&access.reference),
        &access.subscripts,
    )
}

/// The value of a variable or an element.
#[cycle(value)]
#[tactic(auto, using(crate::proofs::Values::element_law))]
fn element(memory: &Memory<'_>, access: &Access) -> Result<i64, Fault>
    requires { PlacedTerm (symbols_in memory.now) (accessed (access_of access.now)) }
    ensures { result ≡ value (look memory.now) (accessed (access_of access.now)) }
{
    let place = target(memory, access)?;
    Ok(memory.load(&access.reference, place))
}

/// The value of an expression, or its first fault: all operands, from left to right.
#[cycle(value)]
pub fn value(memory: &Memory<'_>, expression: &Expr) -> Result<i64, Fault>
    requires { PlacedTerm (symbols_in memory.now) (term expression.now) }
    ensures { result ≡ value (look memory.now) (term expression.now) }
{
    match expression {
        Expr::Constant(number) => Ok(*number),
        Expr::Truth(holds) => Ok(truth(*holds)),
        Expr::Parameter(_, number) => Ok(*number),
        Expr::Element(access) => element(memory, access),
        Expr::Call(intrinsic, arguments) => call(memory, *intrinsic, arguments),
        Expr::Parentheses(inner) => value(memory, inner),
        Expr::Unary(prefix, operand) => apply_prefix(*prefix, value(memory, operand)?),
        Expr::Binary(operator, left, right) => {
            let a = value(memory, left)?;
            let b = value(memory, right)?;
            apply_operator(*operator, a, b)
        }
    }
}

/// The value of an expression of a statement; a fault stops the run at the statement's line.
pub fn value_at(memory: &Memory<'_>, line: Line, expression: &Expr) -> Result<i64, Stop>
    requires { PlacedTerm (symbols_in memory.now) (term expression.now) }
    ensures { GivesValue result line (value (look memory.now) (term expression.now)) }
{
    value(memory, expression).map_err(|fault| Stop::Fault(fault, line))
}
