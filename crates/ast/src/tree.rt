//! The statements of a program, nested: a loop holds its range, an IF its arms.

ghost use Rattle.std.specs.Prelude.{◌≡◌, IfOk, map};
ghost use Rattle.ast.specs.View.{arm, node};

use crate::expression::Expr;
use crate::plain::PlainStatement;
use crate::statement::{DoHead, Line, copy_of_optional};
use std::alloc::{AllocError, Global};

/// A statement of a program with what belongs to it.
#[cycle(tree)]
pub enum Node {
    /// A statement that holds no others.
    Plain(PlainStatement),
    /// A loop: the line of its DO, what that says, and its range, the terminal statement included.
    Loop(Line, DoHead, Vec<Node>),
    /// An IF with its arms. A logical IF has one.
    Choice(Vec<Arm>),
}

impl Drop for Node {
    #[cycle(dropping)]
    fn drop(self) {
        match self {
            Node::Plain(_) => {}
            Node::Loop(_, _, _) => {}
            Node::Choice(_) => {}
        }
    }
}

/// An arm of an IF.
#[derive(Drop)]
#[cycle(tree)]
pub struct Arm {
    /// The line of its IF, ELSE IF or ELSE.
    pub line: Line,
    /// Its condition; an ELSE has none.
    pub condition: Option<Expr>,
    pub body: Vec<Node>,
}

#[cycle(copies)]
fn copies_of_nodes(alloc: Global, nodes: &[Node]) -> Result<Vec<Node>, AllocError>
    ensures { IfOk result (λ copies. map node copies.items ≡ map node nodes.now) }
{
    let mut copies = Vec::with_capacity(alloc, nodes.len())?;
    for node in nodes {
        copies.push(node.try_copy(alloc)?)?;
    }
    Ok(copies)
}

#[cycle(copies)]
fn copies_of_arms(alloc: Global, arms: &[Arm]) -> Result<Vec<Arm>, AllocError>
    ensures { IfOk result (λ copies. map arm copies.items ≡ map arm arms.now) }
{
    let mut copies = Vec::with_capacity(alloc, arms.len())?;
    for arm in arms {
        copies.push(arm.try_copy(alloc)?)?;
    }
    Ok(copies)
}

impl Arm {
    ghost use Rattle.std.specs.Prelude.{◌≡◌, IfOk};
    ghost use Rattle.ast.specs.View.{arm};

    /// An equal arm, or `AllocError` where memory is refused.
    #[cycle(copies)]
    pub fn try_copy(&self, alloc: Global) -> Result<Arm, AllocError>
        ensures { IfOk result (λ copy. arm copy ≡ arm self.now) }
    {
        let condition = copy_of_optional(alloc, &self.condition)?;
        let body = copies_of_nodes(alloc, &self.body)?;
        Ok(Arm {
            line: self.line,
            condition,
            body,
        })
    }
}

impl Node {
    ghost use Rattle.std.specs.Prelude.{◌≡◌, IfOk};
    ghost use Rattle.ast.specs.View.{node};

    /// An equal node, or `AllocError` where memory is refused.
    #[cycle(copies)]
    pub fn try_copy(&self, alloc: Global) -> Result<Node, AllocError>
        ensures { IfOk result (λ copy. node copy ≡ node self.now) }
    {
        match self {
            Node::Plain(statement) => Ok(Node::Plain(statement.try_copy(alloc)?)),
            Node::Loop(line, head, range) => {
                let head = head.try_copy(alloc)?;
                Ok(Node::Loop(*line, head, copies_of_nodes(alloc, range)?))
            }
            Node::Choice(arms) => Ok(Node::Choice(copies_of_arms(alloc, arms)?)),
        }
    }
}

/// Equal nodes, or `AllocError` where memory is refused.
pub fn copy_of_body(alloc: Global, body: &[Node]) -> Result<Vec<Node>, AllocError>
    ensures { IfOk result (λ copies. map node copies.items ≡ map node body.now) }
{
    copies_of_nodes(alloc, body)
}
