//! Expressions.

ghost use Rattle.std.specs.Prelude.{◌≡◌, IfOk, map};
ghost use Rattle.ast.specs.View.{term};

use crate::name::Name;
use std::alloc::{AllocError, Global};

/// A reference's number: a program's references are numbered from 0 in order of evaluation.
#[derive(Clone, Copy, PartialEq, Eq)]
pub struct RefId(pub usize);

/// A place of a program where a variable is read or assigned.
#[derive(Clone, Copy, PartialEq, Eq)]
pub struct Reference {
    /// The variable's name.
    pub name: Name,
    /// The reference's number in its program; 0 while its statement is of no program.
    pub id: RefId,
    /// The place of the name among its program's symbols; 0 while its statement is of no program.
    pub cell: usize,
}

/// What stands before one operand.
#[derive(Clone, Copy, PartialEq, Eq)]
pub enum Prefix {
    Plus,
    Minus,
    Not,
}

impl Prefix {
    ghost use Rattle.std.specs.Prelude.{◌≡◌};
    ghost use Rattle.ast.specs.Spelling.{prefix_spelling};

    /// How a statement without blanks spells it.
    pub fn spelling(self) -> &'static [u8]
        ensures { result.now ≡ prefix_spelling self }
    {
        match self {
            Prefix::Plus => b"+",
            Prefix::Minus => b"-",
            Prefix::Not => b".NOT.",
        }
    }
}

/// An operator between two operands.
#[derive(Clone, Copy, PartialEq, Eq)]
pub enum Operator {
    Add,
    Subtract,
    Multiply,
    Divide,
    Less,
    LessOrEqual,
    Equal,
    NotEqual,
    Greater,
    GreaterOrEqual,
    And,
    Or,
    Equivalent,
    NotEquivalent,
}

impl Operator {
    ghost use Rattle.std.specs.Prelude.{◌≡◌};
    ghost use Rattle.ast.specs.Spelling.{spelling};

    /// How a statement without blanks spells it.
    pub fn spelling(self) -> &'static [u8]
        ensures { result.now ≡ spelling self }
    {
        match self {
            Operator::Add => b"+",
            Operator::Subtract => b"-",
            Operator::Multiply => b"*",
            Operator::Divide => b"/",
            Operator::Less => b".LT.",
            Operator::LessOrEqual => b".LE.",
            Operator::Equal => b".EQ.",
            Operator::NotEqual => b".NE.",
            Operator::Greater => b".GT.",
            Operator::GreaterOrEqual => b".GE.",
            Operator::And => b".AND.",
            Operator::Or => b".OR.",
            Operator::Equivalent => b".EQV.",
            Operator::NotEquivalent => b".NEQV.",
        }
    }
}

/// An intrinsic function, by its name.
#[derive(Clone, Copy, PartialEq, Eq)]
pub enum Intrinsic {
    Abs,
    Iabs,
    Max,
    Max0,
    Min,
    Min0,
    Mod,
}

impl Intrinsic {
    ghost use Rattle.std.specs.Prelude.{◌≡◌};
    ghost use Rattle.ast.specs.Spelling.{intrinsic_name, intrinsic_named};

    pub fn name(self) -> Name
        ensures { result.letters ≡ intrinsic_name self }
    {
        let letters = match self {
            Intrinsic::Abs => *b"ABS   ",
            Intrinsic::Iabs => *b"IABS  ",
            Intrinsic::Max => *b"MAX   ",
            Intrinsic::Max0 => *b"MAX0  ",
            Intrinsic::Min => *b"MIN   ",
            Intrinsic::Min0 => *b"MIN0  ",
            Intrinsic::Mod => *b"MOD   ",
        };
        Name { letters }
    }

    /// The intrinsic function of this name, if there is one.
    pub fn named(name: &Name) -> Option<Self>
        ensures { result ≡ intrinsic_named name.now.letters }
    {
        let letters = &name.letters;
        if *letters == *b"ABS   " {
            Some(Intrinsic::Abs)
        } else if *letters == *b"IABS  " {
            Some(Intrinsic::Iabs)
        } else if *letters == *b"MAX   " {
            Some(Intrinsic::Max)
        } else if *letters == *b"MAX0  " {
            Some(Intrinsic::Max0)
        } else if *letters == *b"MIN   " {
            Some(Intrinsic::Min)
        } else if *letters == *b"MIN0  " {
            Some(Intrinsic::Min0)
        } else if *letters == *b"MOD   " {
            Some(Intrinsic::Mod)
        } else {
            None
        }
    }
}

/// An expression, integer or logical.
#[cycle(expression)]
pub enum Expr {
    /// A constant, from 0 to 9223372036854775807.
    Constant(i64),
    /// `.TRUE.` or `.FALSE.`
    Truth(bool),
    /// A name that a PARAMETER statement gives a value, and that value.
    Parameter(Name, i64),
    /// A variable or an element of an array. While its statement is of no program, any name stands
    /// so, with what follows it in parentheses.
    Element(Access),
    Call(Intrinsic, Vec<Expr>),
    Parentheses(Box<Expr>),
    Unary(Prefix, Box<Expr>),
    Binary(Operator, Box<Expr>, Box<Expr>),
}

/// A reference with its subscripts.
#[derive(Drop)]
#[cycle(expression)]
pub struct Access {
    pub reference: Reference,
    /// The subscripts, none of a scalar.
    pub subscripts: Vec<Expr>,
}

// Written out, so that each place where an expression is dropped has one call in place of an arm
// for each form.
impl Drop for Expr {
    #[cycle(dropping)]
    fn drop(self) {
        match self {
            Expr::Constant(_) => {}
            Expr::Truth(_) => {}
            Expr::Parameter(_, _) => {}
            Expr::Element(_) => {}
            Expr::Call(_, _) => {}
            Expr::Parentheses(_) => {}
            Expr::Unary(_, _) => {}
            Expr::Binary(_, _, _) => {}
        }
    }
}

#[cycle(copies)]
fn copies_of(alloc: Global, expressions: &[Expr]) -> Result<Vec<Expr>, AllocError>
    ensures { IfOk result (λ copies. map term copies.items ≡ map term expressions.now) }
{
    let mut copies = Vec::with_capacity(alloc, expressions.len())?;
    for expression in expressions {
        copies.push(expression.try_copy(alloc)?)?;
    }
    Ok(copies)
}

#[cycle(copies)]
fn boxed_copy(alloc: Global, expression: &Expr) -> Result<Box<Expr>, AllocError>
    ensures { IfOk result (λ copy. term copy.value ≡ term expression.now) }
{
    let copy = expression.try_copy(alloc)?;
    Ok(Box::new(alloc, copy)?)
}

impl Access {
    ghost use Rattle.std.specs.Prelude.{◌≡◌, IfOk};
    ghost use Rattle.ast.specs.View.{access};

    /// An equal access, or `AllocError` where memory is refused.
    #[cycle(copies)]
    pub fn try_copy(&self, alloc: Global) -> Result<Access, AllocError>
        ensures { IfOk result (λ copy. access copy ≡ access self.now) }
    {
        let subscripts = copies_of(alloc, &self.subscripts)?;
        Ok(Access {
            reference: self.reference,
            subscripts,
        })
    }
}

impl Expr {
    ghost use Rattle.std.specs.Prelude.{◌≡◌, IfOk};
    ghost use Rattle.ast.specs.View.{term};

    /// An equal expression, or `AllocError` where memory is refused.
    #[cycle(copies)]
    pub fn try_copy(&self, alloc: Global) -> Result<Expr, AllocError>
        ensures { IfOk result (λ copy. term copy ≡ term self.now) }
    {
        match self {
            Expr::Constant(value) => Ok(Expr::Constant(*value)),
            Expr::Truth(truth) => Ok(Expr::Truth(*truth)),
            Expr::Parameter(name, value) => Ok(Expr::Parameter(*name, *value)),
            Expr::Element(access) => Ok(Expr::Element(access.try_copy(alloc)?)),
            Expr::Call(intrinsic, arguments) => {
                Ok(Expr::Call(*intrinsic, copies_of(alloc, arguments)?))
            }
            Expr::Parentheses(inner) => Ok(Expr::Parentheses(boxed_copy(alloc, inner)?)),
            Expr::Unary(prefix, operand) => Ok(Expr::Unary(*prefix, boxed_copy(alloc, operand)?)),
            Expr::Binary(operator, left, right) => {
                let left = boxed_copy(alloc, left)?;
                Ok(Expr::Binary(*operator, left, boxed_copy(alloc, right)?))
            }
        }
    }
}
