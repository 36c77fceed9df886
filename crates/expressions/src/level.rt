//! Levels of precedence, with the operators and prefixes of each.

ghost use Rattle.std.specs.Prelude.{◌≡◌, ◌==◌, option_map};
ghost use Rattle.expressions.specs.Levels.{relation};
ghost use Rattle.expressions.specs.Ranks.{rank};
ghost use Rattle.expressions.specs.Reading.{operators_of, prefixes_of, first_operator};
ghost use Rattle.expressions.specs.Reading.{first_prefix, operator_at, prefix_at};

use crate::scan::after;
use ast::{Operator, Prefix};

/// A level of precedence.
#[derive(Clone, Copy)]
pub enum Level {
    /// `.EQV.` and `.NEQV.`
    Equivalence,
    /// `.OR.`
    Disjunction,
    /// `.AND.`
    Conjunction,
    /// `.NOT.`
    Factor,
    /// `.LT.`, `.LE.`, `.EQ.`, `.NE.`, `.GT.` and `.GE.`
    Relation,
    /// `+` and `-`, and a sign.
    Sum,
    /// `*` and `/`.
    Product,
    /// Constants, names, accesses and parentheses.
    Primary,
}

impl Level {
    ghost use Rattle.std.specs.Prelude.{◌≡◌, ◌-◌, ◌==◌};
    ghost use Rattle.expressions.specs.Levels.{relation};
    ghost use Rattle.expressions.specs.Ranks.{rank};
    ghost use Rattle.expressions.specs.Reading.{operators_of, prefixes_of};

    /// The level below this one; a primary has none, and stays.
    pub fn below(self) -> Level
        ensures { rank result ≡ rank self - 1 }
    {
        match self {
            Level::Equivalence => Level::Disjunction,
            Level::Disjunction => Level::Conjunction,
            Level::Conjunction => Level::Factor,
            Level::Factor => Level::Relation,
            Level::Relation => Level::Sum,
            Level::Sum => Level::Product,
            Level::Product => Level::Primary,
            Level::Primary => Level::Primary,
        }
    }

    /// Whether this is the level of primaries, the lowest.
    pub fn is_primary(self) -> bool
        ensures { result ≡ (rank self == 0) }
    {
        matches!(self, Level::Primary)
    }

    /// Whether this is the level of relations, which don't chain.
    pub fn is_relation(self) -> bool
        ensures { result ≡ (rank self == relation) }
    {
        matches!(self, Level::Relation)
    }

    fn operators(self) -> &'static [Operator]
        ensures { result.now ≡ operators_of (rank self) }
    {
        match self {
            Level::Equivalence => &[Operator::Equivalent, Operator::NotEquivalent],
            Level::Disjunction => &[Operator::Or],
            Level::Conjunction => &[Operator::And],
            Level::Relation => &[
                Operator::Less,
                Operator::LessOrEqual,
                Operator::Equal,
                Operator::NotEqual,
                Operator::Greater,
                Operator::GreaterOrEqual,
            ],
            Level::Sum => &[Operator::Add, Operator::Subtract],
            Level::Product => &[Operator::Multiply, Operator::Divide],
            Level::Factor | Level::Primary => &[],
        }
    }

    fn prefixes(self) -> &'static [Prefix]
        ensures { result.now ≡ prefixes_of (rank self) }
    {
        match self {
            Level::Factor => &[Prefix::Not],
            Level::Sum => &[Prefix::Plus, Prefix::Minus],
            _ => &[],
        }
    }
}

fn first_operator<'a>(operators: &[Operator], text: &'a [u8]) -> Option<(Operator, &'a [u8])>
    ensures { option_map (λ x. (x.0, x.1.now)) result ≡ first_operator operators.now text.now }
{
    for operator in operators {
        if let Some(rest) = after(text, operator.spelling()) {
            return Some((*operator, rest));
        }
    }
    None
}

fn first_prefix<'a>(prefixes: &[Prefix], text: &'a [u8]) -> (Option<Prefix>, &'a [u8])
    ensures { (result.0, result.1.now) ≡ first_prefix prefixes.now text.now }
{
    for prefix in prefixes {
        if let Some(rest) = after(text, prefix.spelling()) {
            return (Some(*prefix), rest);
        }
    }
    (None, text)
}

/// The operator of the level that the text begins with, and what stands after it.
pub fn operator_at(level: Level, text: &[u8]) -> Option<(Operator, &[u8])>
    ensures { option_map (λ x. (x.0, x.1.now)) result ≡ operator_at (rank level) text.now }
{
    first_operator(level.operators(), text)
}

/// The prefix of the level that the text begins with, if there is one, and what stands after it.
pub fn prefix_at(level: Level, text: &[u8]) -> (Option<Prefix>, &[u8])
    ensures { (result.0, result.1.now) ≡ prefix_at (rank level) text.now }
{
    first_prefix(level.prefixes(), text)
}
