//! Room for the operands of expressions.

ghost use Rattle.std.specs.Prelude.{◌≡◌, ◌+◌, drop, map, max, ℕ};
ghost use Rattle.ast.specs.Tree.{call, terms};
ghost use Rattle.ast.specs.View.{access as access_of, term};
ghost use Rattle.expr_code.specs.Computes.{operands, operands_chosen, operands_further};
ghost use Rattle.expr_code.specs.Computes.{operands_kept};
ghost use Rattle.expr_code.specs.Emitted.{short};

use ast::{Access, Expr, Intrinsic};

/// One more, if 32 bits can hold it.
#[tactic(auto, using(crate::proofs::Counting::more_law, crate::proofs::Counting::most_law))]
pub fn more(n: u32) -> u32
    ensures { (m : ℕ) → n ≡ short m → result ≡ short (m + 1) }
{
    if n < 4_294_967_295 { n + 1 } else { n }
}

/// The greater of two.
#[tactic(auto, using(crate::proofs::Counting::second_law, crate::proofs::Counting::first_law))]
pub fn greater(a: u32, b: u32) -> u32
    ensures { (m n : ℕ) → a ≡ short m → b ≡ short n → result ≡ short (max m n) }
{
    if a < b { b } else { a }
}

/// How many operands the code of an expression has on the stack at most; 4,294,967,295 where 32
/// bits can't hold the number.
#[cycle(operands)]
pub fn operands(expression: &Expr) -> u32
    ensures { result ≡ short (operands (term expression.now)) }
{
    match expression {
        Expr::Constant(_) => 1,
        Expr::Truth(_) => 1,
        Expr::Parameter(_, _) => 1,
        Expr::Element(access) => operands_of_place(access),
        Expr::Call(intrinsic, arguments) => call(*intrinsic, arguments),
        Expr::Parentheses(inner) => operands(inner),
        Expr::Unary(_, operand) => operands(operand),
        Expr::Binary(_, left, right) => {
            let first = operands(left);
            let second = more(operands(right));
            greater(first, second)
        }
    }
}

/// How many operands the code of a variable's place, or of the variable, has on the stack at most;
/// 4,294,967,295 where 32 bits can't hold the number.
#[cycle(operands)]
#[tactic(auto, using(crate::proofs::Counting::kept_law))]
pub fn operands_of_place(access: &Access) -> u32
    ensures { result ≡ short (max 1 (operands_kept (access_of access.now).subscripts)) }
{
    at_least_one(&access.subscripts)
}

#[cycle(operands)]
fn at_least_one(expressions: &[Expr]) -> u32
    ensures { result ≡ short (max 1 (operands_kept (terms (map term expressions.now)))) }
{
    let kept = kept(expressions);
    greater(1, kept)
}

/// The same of expressions one after another, each left on the stack.
#[cycle(operands)]
fn kept(expressions: &[Expr]) -> u32
    ensures { result ≡ short (operands_kept (terms (map term expressions.now))) }
{
    let mut number = expressions.len();
    let mut most = 0;
    while number > 0 {
        number -= 1;
        let first = operands(&expressions[number]);
        let others = more(most);
        most = greater(first, others);
    }
    most
}

/// The same of an intrinsic function.
#[cycle(operands)]
fn call(intrinsic: Intrinsic, arguments: &[Expr]) -> u32
    ensures { result ≡ short (operands (call intrinsic (terms (map term arguments.now)))) }
{
    match intrinsic {
        Intrinsic::Mod | Intrinsic::Abs | Intrinsic::Iabs => at_least_one(arguments),
        Intrinsic::Max | Intrinsic::Max0 | Intrinsic::Min | Intrinsic::Min0 => chosen(arguments),
    }
}

/// The same of the greatest or the least of arguments.
#[cycle(operands)]
fn chosen(arguments: &[Expr]) -> u32
    ensures { result ≡ short (operands_chosen (terms (map term arguments.now))) }
{
    match arguments {
        [] => 1,
        [first, _others @ ..] => {
            let first = operands(first);
            let others = further(arguments);
            greater(first, others)
        }
    }
}

/// The same of the choice between what is there and each argument from the second on.
#[cycle(operands)]
fn further(arguments: &[Expr]) -> u32
    ensures { result ≡ short (operands_further (terms (map term (drop 1 arguments.now)))) }
{
    let mut number = arguments.len();
    let mut most = 1;
    while number > 1 {
        number -= 1;
        let first = more(operands(&arguments[number]));
        most = greater(first, most);
    }
    most
}
