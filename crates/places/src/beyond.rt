//! Which subscript a run met outside of its bounds, by the store that it left.

use crate::visible::Visible;
use ast::{
    Access, Action, Arm, Dimension, DoHead, Expr, Intrinsic, Item, Line, Name, Node, Program, Store,
};
use std::alloc::Global;
use std::fmt::{Display, Formatter, Result as FmtResult, Write};
use values::{abs, apply_operator, apply_prefix, modulo, truth};

/// A subscript that isn't within its bounds.
#[derive(Clone, Copy)]
pub struct Beyond {
    /// The array.
    pub name: Name,
    /// The number of the subscript, from 1.
    pub number: usize,
    pub value: i64,
    pub bounds: Dimension,
}

/// Why an expression has no value: a subscript beyond its bounds, or anything else.
type NoValue = Option<Beyond>;

/// A program and the store in which its expressions are looked at.
#[derive(Drop)]
struct Snapshot<'a> {
    alloc: Global,
    program: &'a Program,
    store: &'a Store,
}

impl Beyond {
    /// The first subscript in a line that is beyond its bounds in the store of a run which met an
    /// INDEX there, as far as that can be told: a READ of several variables may have changed it.
    pub fn of(alloc: Global, program: &Program, store: &Store, line: Line) -> Option<Self> {
        let snapshot = Snapshot {
            alloc,
            program,
            store,
        };
        snapshot.nodes(&program.body, line)
    }
}

impl Display for Beyond {
    fn fmt<W: Write>(&self, f: &mut Formatter<W>) -> FmtResult {
        let Dimension { lower, upper } = self.bounds;
        write!(
            f,
            "subscript {} of {} is {}, which isn't within {lower} to {upper}",
            self.number,
            Visible::new(self.name.trimmed()),
            self.value
        )
    }
}

/// What stands in the way of a value, if it is a subscript.
fn hindrance(found: Result<i64, NoValue>) -> Option<Beyond> {
    match found {
        Ok(_) => None,
        Err(found) => found,
    }
}

impl<'a> Snapshot<'a> {
    #[cycle(nodes)]
    fn nodes(&self, nodes: &[Node], line: Line) -> Option<Beyond> {
        for node in nodes {
            if let Some(found) = self.node(node, line) {
                return Some(found);
            }
        }
        None
    }

    #[cycle(nodes)]
    fn node(&self, node: &Node, line: Line) -> Option<Beyond> {
        match node {
            Node::Plain(statement) if statement.line == line => self.action(&statement.action),
            Node::Plain(_) => None,
            Node::Loop(own, head, _) if *own == line => self.head(head),
            Node::Loop(_, _, range) => self.nodes(range, line),
            Node::Choice(arms) => self.arms(arms, line),
        }
    }

    #[cycle(nodes)]
    fn arms(&self, arms: &[Arm], line: Line) -> Option<Beyond> {
        for arm in arms {
            if let Some(found) = self.arm(arm, line) {
                return Some(found);
            }
        }
        None
    }

    #[cycle(nodes)]
    fn arm(&self, arm: &Arm, line: Line) -> Option<Beyond> {
        match &arm.condition {
            Some(condition) if arm.line == line => {
                hindrance(self.value(condition)).or(self.nodes(&arm.body, line))
            }
            _ => self.nodes(&arm.body, line),
        }
    }

    fn head(&self, head: &DoHead) -> Option<Beyond> {
        let found = hindrance(self.value(&head.first)).or(hindrance(self.value(&head.last)));
        match (found, &head.step) {
            (None, Some(step)) => hindrance(self.value(step)),
            (found, _) => found,
        }
    }

    fn action(&self, action: &Action) -> Option<Beyond> {
        match action {
            Action::Assign(target, expression) => {
                hindrance(self.value(expression)).or(hindrance(self.element(target)))
            }
            Action::Print(items) => self.items(items),
            Action::Read(elements) => match elements.as_slice() {
                [element] => hindrance(self.element(element)),
                _ => None,
            },
            Action::Stop | Action::Inert(_) => None,
        }
    }

    fn items(&self, items: &[Item]) -> Option<Beyond> {
        for item in items {
            if let Item::Value(expression) = item {
                if let Err(found) = self.value(expression) {
                    return found;
                }
            }
        }
        None
    }

    #[cycle(values)]
    fn value(&self, expression: &Expr) -> Result<i64, NoValue> {
        match expression {
            Expr::Constant(number) | Expr::Parameter(_, number) => Ok(*number),
            Expr::Truth(holds) => Ok(truth(*holds)),
            Expr::Element(access) => self.element(access),
            Expr::Call(intrinsic, arguments) => self.call(*intrinsic, arguments),
            Expr::Parentheses(inner) => self.value(inner),
            Expr::Unary(prefix, operand) => {
                apply_prefix(*prefix, self.value(operand)?).map_err(|_| None)
            }
            Expr::Binary(operator, left, right) => {
                let left = self.value(left)?;
                let right = self.value(right)?;
                apply_operator(*operator, left, right).map_err(|_| None)
            }
        }
    }

    #[cycle(values)]
    fn values(&self, expressions: &[Expr]) -> Result<Vec<i64>, NoValue> {
        let mut values = Vec::new(self.alloc);
        for expression in expressions {
            let value = self.value(expression)?;
            if values.push(value).is_err() {
                return Err(None);
            }
        }
        Ok(values)
    }

    #[cycle(values)]
    fn call(&self, intrinsic: Intrinsic, arguments: &[Expr]) -> Result<i64, NoValue> {
        let values = self.values(arguments)?;
        let found = match (intrinsic, values.as_slice()) {
            (Intrinsic::Mod, [a, b]) => modulo(*a, *b).ok(),
            (Intrinsic::Abs | Intrinsic::Iabs, [a]) => abs(*a).ok(),
            (Intrinsic::Max | Intrinsic::Max0, all) => all.iter().copied().max(),
            (Intrinsic::Min | Intrinsic::Min0, all) => all.iter().copied().min(),
            _ => None,
        };
        found.ok_or(None)
    }

    /// The value of a variable or of an element.
    #[cycle(values)]
    fn element(&self, access: &Access) -> Result<i64, NoValue> {
        let values = self.values(&access.subscripts)?;
        let name = access.reference.name;
        let dimensions = self.dimensions(access);
        let place = place_of(name, dimensions, &values)?;
        self.store.value(name, place).ok_or(None)
    }

    /// The dimensions of an access's name.
    fn dimensions(&self, access: &Access) -> &'a [Dimension] {
        match self.program.symbols.get(access.reference.cell) {
            Some(symbol) => symbol.kind.dimensions(),
            None => &[],
        }
    }
}

/// The place of an element in storage order, if each subscript is within its bounds.
fn place_of(name: Name, dimensions: &[Dimension], values: &[i64]) -> Result<usize, NoValue> {
    let mut place: usize = 0;
    let mut stride: usize = 1;
    for (number, (bounds, value)) in dimensions.iter().zip(values).enumerate() {
        if !bounds.holds(*value) {
            return Err(Some(Beyond {
                name,
                number: number.saturating_add(1),
                value: *value,
                bounds: *bounds,
            }));
        }
        let distance = value.abs_diff(bounds.lower) as usize;
        place = place.saturating_add(stride.saturating_mul(distance));
        stride = stride.saturating_mul(width(*bounds));
    }
    Ok(place)
}

/// How many subscripts there are within bounds.
fn width(bounds: Dimension) -> usize {
    bounds.upper.abs_diff(bounds.lower).saturating_add(1) as usize
}
