//! Where a path through a loop's range uses a scalar before it gives that a value.

use ast::{Access, Action, Arm, DoHead, Expr, Item, Line, Name, Node, PlainStatement};

/// What all paths to a place have done with a scalar.
#[derive(Clone, Copy)]
struct Trail {
    name: Name,
    /// Whether each has given it a value, or has stopped.
    defined: bool,
    /// The line where one has used it before, if one has.
    early: Option<Line>,
}

impl Trail {
    /// It is used in a line.
    fn uses(&mut self, line: Line) {
        if !self.defined && self.early.is_none() {
            self.early = Some(line);
        }
    }

    /// A variable is given a value.
    fn defines(&mut self, access: &Access) {
        if access.reference.name == self.name {
            self.defined = true;
        }
    }
}

#[cycle(mentions)]
fn is_in_any(name: Name, expressions: &[Expr]) -> bool {
    for expression in expressions {
        if is_in(name, expression) {
            return true;
        }
    }
    false
}

/// Whether an expression uses a variable.
#[cycle(mentions)]
fn is_in(name: Name, expression: &Expr) -> bool {
    match expression {
        Expr::Constant(_) | Expr::Truth(_) | Expr::Parameter(_, _) => false,
        Expr::Element(access) => {
            access.reference.name == name || is_in_any(name, &access.subscripts)
        }
        Expr::Call(_, arguments) => is_in_any(name, arguments),
        Expr::Parentheses(inner) => is_in(name, inner),
        Expr::Unary(_, operand) => is_in(name, operand),
        Expr::Binary(_, left, right) => is_in(name, left) || is_in(name, right),
    }
}

/// Follows an expression of a line.
fn follow_expression(trail: &mut Trail, line: Line, expression: &Expr) {
    if is_in(trail.name, expression) {
        trail.uses(line);
    }
}

fn follow_items(trail: &mut Trail, line: Line, items: &[Item]) {
    for item in items {
        if let Item::Value(value) = item {
            follow_expression(trail, line, value);
        }
    }
}

/// Follows an element that is given a value.
fn follow_target(trail: &mut Trail, line: Line, target: &Access) {
    if is_in_any(trail.name, &target.subscripts) {
        trail.uses(line);
    }
    trail.defines(target);
}

fn follow_targets(trail: &mut Trail, line: Line, targets: &[Access]) {
    for target in targets {
        follow_target(trail, line, target);
    }
}

fn follow_statement(trail: &mut Trail, statement: &PlainStatement) {
    let line = statement.line;
    match &statement.action {
        Action::Assign(target, value) => {
            follow_expression(trail, line, value);
            follow_target(trail, line, target);
        }
        Action::Print(items) => follow_items(trail, line, items),
        Action::Read(targets) => follow_targets(trail, line, targets),
        Action::Stop => trail.defined = true,
        Action::Inert(_) => {}
    }
}

fn follow_head(trail: &mut Trail, line: Line, head: &DoHead) {
    follow_expression(trail, line, &head.first);
    follow_expression(trail, line, &head.last);
    if let Some(step) = &head.step {
        follow_expression(trail, line, step);
    }
    if head.variable.name == trail.name {
        trail.defined = true;
    }
}

/// Follows arms, of which each begins behind the conditions of those before it and its own; behind
/// them all have given the scalar a value where each has, and there is an ELSE.
#[cycle(follow)]
fn follow_arms(trail: &mut Trail, arms: &[Arm]) {
    let before = trail.defined;
    let mut all = true;
    let mut has_else = false;
    for arm in arms {
        trail.defined = before;
        match &arm.condition {
            Some(condition) => follow_expression(trail, arm.line, condition),
            None => has_else = true,
        }
        follow_nodes(trail, &arm.body);
        all = all && trail.defined;
    }
    trail.defined = before || (all && has_else);
}

#[cycle(follow)]
fn follow_node(trail: &mut Trail, node: &Node) {
    match node {
        Node::Plain(statement) => follow_statement(trail, statement),
        Node::Loop(line, head, range) => {
            follow_head(trail, *line, head);
            let before = trail.defined;
            follow_nodes(trail, range);
            trail.defined = before;
        }
        Node::Choice(arms) => follow_arms(trail, arms),
    }
}

#[cycle(follow)]
fn follow_nodes(trail: &mut Trail, nodes: &[Node]) {
    for node in nodes {
        follow_node(trail, node);
    }
}

/// The first line of a range in which some path uses a scalar that it hasn't given a value.
pub fn early_use(range: &[Node], name: Name) -> Option<Line> {
    let mut trail = Trail {
        name,
        defined: false,
        early: None,
    };
    follow_nodes(&mut trail, range);
    trail.early
}
