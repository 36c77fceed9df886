//! In which lines the conditions of ELSE IFs stand, which are of one statement with their IF.

use ast::{Access, Arm, Expr, Line, Node, RefId};
use std::alloc::{AllocError, Global};

/// The references of conditions, in the order of their numbers, with the lines of these.
#[derive(Drop)]
pub struct Conditions {
    lines: Vec<(usize, Line)>,
}

impl Conditions {
    /// Those of a loop's range.
    pub fn of(alloc: Global, range: &[Node]) -> Result<Self, AllocError> {
        let mut conditions = Conditions {
            lines: Vec::new(alloc),
        };
        conditions.note_nodes(range)?;
        conditions.lines.sort_unstable_by_key(|known| known.0);
        Ok(conditions)
    }

    /// The line of the condition that a reference stands in, if it stands in one.
    pub fn line(&self, reference: RefId) -> Option<Line> {
        let found = self
            .lines
            .binary_search_by_key(&reference.0, |known| known.0);
        let (_, line) = self.lines.get(found.ok()?)?;
        Some(*line)
    }

    #[cycle(nodes)]
    fn note_nodes(&mut self, nodes: &[Node]) -> Result<(), AllocError> {
        for node in nodes {
            match node {
                Node::Plain(_) => {}
                Node::Loop(_, _, range) => self.note_nodes(range)?,
                Node::Choice(arms) => self.note_arms(arms)?,
            }
        }
        Ok(())
    }

    #[cycle(nodes)]
    fn note_arms(&mut self, arms: &[Arm]) -> Result<(), AllocError> {
        for arm in arms {
            if let Some(condition) = &arm.condition {
                self.note(arm.line, condition)?;
            }
            self.note_nodes(&arm.body)?;
        }
        Ok(())
    }

    #[cycle(expressions)]
    fn note_all(&mut self, line: Line, expressions: &[Expr]) -> Result<(), AllocError> {
        for expression in expressions {
            self.note(line, expression)?;
        }
        Ok(())
    }

    #[cycle(expressions)]
    fn note_access(&mut self, line: Line, access: &Access) -> Result<(), AllocError> {
        self.note_all(line, &access.subscripts)?;
        self.lines.push((access.reference.id.0, line))?;
        Ok(())
    }

    #[cycle(expressions)]
    fn note(&mut self, line: Line, expression: &Expr) -> Result<(), AllocError> {
        match expression {
            Expr::Constant(_) | Expr::Truth(_) | Expr::Parameter(_, _) => Ok(()),
            Expr::Element(access) => self.note_access(line, access),
            Expr::Call(_, arguments) => self.note_all(line, arguments),
            Expr::Parentheses(inner) => self.note(line, inner),
            Expr::Unary(_, operand) => self.note(line, operand),
            Expr::Binary(_, left, right) => {
                self.note(line, left)?;
                self.note(line, right)
            }
        }
    }
}
