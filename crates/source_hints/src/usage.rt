//! How a program uses its names.

use ast::{
    Access, Action, Arm, Bounds, Declarator, DoHead, Expr, Inert, Item, Line, Name, Node, Program,
    SymbolKind,
};
use std::alloc::{AllocError, Global};

/// A constant of a program, and whether it is used.
#[derive(Drop)]
pub struct Constant {
    pub name: Name,
    pub is_used: bool,
}

/// How a variable is used.
#[derive(Clone, Copy)]
pub struct Seen {
    /// The line where it is first read, in the order of the text.
    pub first_read: Option<Line>,
    /// Whether it is given a value anywhere.
    pub is_given: bool,
    /// The line where it is first assigned to; a DO and a READ are no assignments.
    pub first_assigned: Option<Line>,
}

/// How a program uses its names.
#[derive(Drop)]
pub struct Usage {
    /// For each symbol, in the program's order.
    pub symbols: Vec<Seen>,
    /// The constants, in byte order of their names.
    pub constants: Vec<Constant>,
}

impl Usage {
    /// How a program uses its names.
    pub fn of(alloc: Global, program: &Program) -> Result<Self, AllocError> {
        let mut usage = Usage {
            symbols: Vec::with_capacity(alloc, program.symbols.len())?,
            constants: Vec::new(alloc),
        };
        for symbol in &program.symbols {
            usage.symbols.push(Seen {
                first_read: None,
                is_given: false,
                first_assigned: None,
            })?;
            if let SymbolKind::Constant(_) = symbol.kind {
                usage.constants.push(Constant {
                    name: symbol.name,
                    is_used: false,
                })?;
            }
        }
        usage
            .constants
            .sort_unstable_by_key(|constant| constant.name);
        usage.see_nodes(&program.body);
        Ok(usage)
    }

    #[cycle(nodes)]
    fn see_nodes(&mut self, nodes: &[Node]) {
        for node in nodes {
            match node {
                Node::Plain(statement) => self.see_action(statement.line, &statement.action),
                Node::Loop(line, head, range) => {
                    self.see_head(*line, head);
                    self.see_nodes(range);
                }
                Node::Choice(arms) => self.see_arms(arms),
            }
        }
    }

    #[cycle(nodes)]
    fn see_arms(&mut self, arms: &[Arm]) {
        for arm in arms {
            if let Some(condition) = &arm.condition {
                self.see(arm.line, condition);
            }
            self.see_nodes(&arm.body);
        }
    }

    fn see_head(&mut self, line: Line, head: &DoHead) {
        self.see(line, &head.first);
        self.see(line, &head.last);
        if let Some(step) = &head.step {
            self.see(line, step);
        }
        self.give(head.variable.cell);
    }

    fn see_action(&mut self, line: Line, action: &Action) {
        match action {
            Action::Assign(target, value) => {
                self.see(line, value);
                self.see_target(line, target);
                self.assign(target.reference.cell, line);
            }
            Action::Print(items) => self.see_items(line, items),
            Action::Read(targets) => {
                for target in targets {
                    self.see_target(line, target);
                }
            }
            Action::Stop => {}
            Action::Inert(inert) => self.see_inert(line, inert),
        }
    }

    fn see_inert(&mut self, line: Line, inert: &Inert) {
        match inert {
            Inert::Integer(declarators) | Inert::Dimension(declarators) => {
                self.see_declarators(line, declarators)
            }
            Inert::Parameter(definitions) => {
                for definition in definitions {
                    self.see(line, &definition.value);
                }
            }
            Inert::Program(_) | Inert::Continue | Inert::End => {}
        }
    }

    fn see_declarators(&mut self, line: Line, declarators: &[Declarator]) {
        for declarator in declarators {
            self.see_bounds(line, &declarator.bounds);
        }
    }

    fn see_bounds(&mut self, line: Line, bounds: &[Bounds]) {
        for one in bounds {
            if let Some(lower) = &one.lower {
                self.see(line, lower);
            }
            self.see(line, &one.upper);
        }
    }

    fn see_items(&mut self, line: Line, items: &[Item]) {
        for item in items {
            if let Item::Value(value) = item {
                self.see(line, value);
            }
        }
    }

    fn see_target(&mut self, line: Line, target: &Access) {
        self.see_all(line, &target.subscripts);
        self.give(target.reference.cell);
    }

    #[cycle(expressions)]
    fn see_all(&mut self, line: Line, expressions: &[Expr]) {
        for expression in expressions {
            self.see(line, expression);
        }
    }

    #[cycle(expressions)]
    fn see(&mut self, line: Line, expression: &Expr) {
        match expression {
            Expr::Constant(_) | Expr::Truth(_) => {}
            Expr::Parameter(name, _) => self.see_constant(name),
            Expr::Element(access) => {
                self.see_all(line, &access.subscripts);
                self.take(access.reference.cell, line);
            }
            Expr::Call(_, arguments) => self.see_all(line, arguments),
            Expr::Parentheses(inner) => self.see(line, inner),
            Expr::Unary(_, operand) => self.see(line, operand),
            Expr::Binary(_, left, right) => {
                self.see(line, left);
                self.see(line, right);
            }
        }
    }

    fn see_constant(&mut self, name: &Name) {
        if let Ok(place) = self
            .constants
            .binary_search_by_key(name, |constant| constant.name)
        {
            if let Some(constant) = self.constants.get_mut(place) {
                constant.is_used = true;
            }
        }
    }

    fn take(&mut self, symbol: usize, line: Line) {
        if let Some(seen) = self.symbols.get_mut(symbol) {
            seen.first_read = seen.first_read.or(Some(line));
        }
    }

    fn assign(&mut self, symbol: usize, line: Line) {
        if let Some(seen) = self.symbols.get_mut(symbol) {
            seen.first_assigned = seen.first_assigned.or(Some(line));
        }
    }

    fn give(&mut self, symbol: usize) {
        if let Some(seen) = self.symbols.get_mut(symbol) {
            seen.is_given = true;
        }
    }
}
