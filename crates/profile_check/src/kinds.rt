//! Whether expressions are integer or logical.

ghost use Rattle.std.specs.Prelude.{◌≡◌, map};
ghost use Rattle.std.specs.List.{list_all};
ghost use Rattle.ast.specs.Tree.{terms};
ghost use Rattle.ast.specs.View as view;
ghost use Rattle.profile_check.specs.Kinds as spec;
ghost use Rattle.profile_check.specs.KindsView.{kind_of_value};
ghost use Rattle.profile_check.specs.Rules as rules;

use ast::{Access, Bounds, Declarator, Definition, DoHead, Expr, Item, Kind, Operator, Prefix};

/// The kind of a value.
#[derive(Clone, Copy)]
pub enum ValueKind {
    Integral,
    Logical,
}

fn is_same(left: ValueKind, right: ValueKind) -> bool
    ensures { result ≡ spec.is_same (kind_of_value left) (kind_of_value right) }
{
    match left {
        ValueKind::Integral => matches!(right, ValueKind::Integral),
        ValueKind::Logical => matches!(right, ValueKind::Logical),
    }
}

/// The kind of an operator's operands.
fn takes(operator: Operator) -> ValueKind
    ensures { kind_of_value result ≡ spec.takes operator }
{
    match operator {
        Operator::And | Operator::Or | Operator::Equivalent | Operator::NotEquivalent => {
            ValueKind::Logical
        }
        Operator::Add
        | Operator::Subtract
        | Operator::Multiply
        | Operator::Divide
        | Operator::Less
        | Operator::LessOrEqual
        | Operator::Equal
        | Operator::NotEqual
        | Operator::Greater
        | Operator::GreaterOrEqual => ValueKind::Integral,
    }
}

/// The kind of what an operator gives.
fn gives(operator: Operator) -> ValueKind
    ensures { kind_of_value result ≡ spec.gives operator }
{
    match operator {
        Operator::Add | Operator::Subtract | Operator::Multiply | Operator::Divide => {
            ValueKind::Integral
        }
        Operator::Less
        | Operator::LessOrEqual
        | Operator::Equal
        | Operator::NotEqual
        | Operator::Greater
        | Operator::GreaterOrEqual
        | Operator::And
        | Operator::Or
        | Operator::Equivalent
        | Operator::NotEquivalent => ValueKind::Logical,
    }
}

/// The kind of a prefix's operand, and of what it gives.
fn prefix_kind(prefix: Prefix) -> ValueKind
    ensures { kind_of_value result ≡ spec.prefix_kind prefix }
{
    match prefix {
        Prefix::Not => ValueKind::Logical,
        Prefix::Plus | Prefix::Minus => ValueKind::Integral,
    }
}

/// Whether all expressions are integer.
#[cycle(kinds)]
fn are_integral(expressions: &[Expr]) -> bool
    ensures { result ≡ spec.are_integral (terms (map view.term expressions.now)) }
{
    for expression in expressions {
        if !is_of(ValueKind::Integral, expression) {
            return false;
        }
    }
    true
}

/// Whether an expression is of a kind.
#[cycle(kinds)]
fn is_of(kind: ValueKind, expression: &Expr) -> bool
    ensures { result ≡ spec.is_of (kind_of_value kind) (view.term expression.now) }
{
    match expression {
        Expr::Constant(_) => is_same(kind, ValueKind::Integral),
        Expr::Truth(_) => is_same(kind, ValueKind::Logical),
        Expr::Parameter(_, _) => is_same(kind, ValueKind::Integral),
        Expr::Element(access) => {
            is_same(kind, ValueKind::Integral) && are_integral(&access.subscripts)
        }
        Expr::Call(_, arguments) => is_same(kind, ValueKind::Integral) && are_integral(arguments),
        Expr::Parentheses(inner) => is_of(kind, inner),
        Expr::Unary(prefix, operand) => {
            is_same(kind, prefix_kind(*prefix)) && is_of(prefix_kind(*prefix), operand)
        }
        Expr::Binary(operator, left, right) => {
            is_same(kind, gives(*operator))
                && is_of(takes(*operator), left)
                && is_of(takes(*operator), right)
        }
    }
}

/// Whether an expression is integer.
pub fn is_integral(expression: &Expr) -> bool
    ensures { result ≡ spec.is_of spec.integral (view.term expression.now) }
{
    is_of(ValueKind::Integral, expression)
}

fn is_logical(expression: &Expr) -> bool
    ensures { result ≡ spec.is_of spec.logical (view.term expression.now) }
{
    is_of(ValueKind::Logical, expression)
}

fn optional_is_integral(expression: &Option<Expr>) -> bool
    ensures { result ≡ rules.optional_is_integral (view.optional_term expression.now) }
{
    match expression {
        Some(expression) => is_integral(expression),
        None => true,
    }
}

fn bounds_are_integral(bounds: &[Bounds]) -> bool
    ensures { result ≡ list_all rules.bounds_are_integral (map view.bounds bounds.now) }
{
    for dimension in bounds {
        if !(optional_is_integral(&dimension.lower) && is_integral(&dimension.upper)) {
            return false;
        }
    }
    true
}

fn declarators_are_integral(declared: &[Declarator]) -> bool
    ensures { result ≡ list_all (λ d.
        list_all rules.bounds_are_integral d.bounds) (map view.declarator declared.now) }
{
    for declarator in declared {
        if !bounds_are_integral(&declarator.bounds) {
            return false;
        }
    }
    true
}

fn definitions_are_integral(defined: &[Definition]) -> bool
    ensures { result ≡ list_all (λ d.
        spec.is_of spec.integral d.value) (map view.definition defined.now) }
{
    for definition in defined {
        if !is_integral(&definition.value) {
            return false;
        }
    }
    true
}

fn item_is_integral(item: &Item) -> bool
    ensures { result ≡ rules.item_is_integral (view.item item.now) }
{
    match item {
        Item::Value(value) => is_integral(value),
        Item::Text(_) => true,
    }
}

fn items_are_integral(items: &[Item]) -> bool
    ensures { result ≡ list_all rules.item_is_integral (map view.item items.now) }
{
    for item in items {
        if !item_is_integral(item) {
            return false;
        }
    }
    true
}

fn elements_are_integral(elements: &[Access]) -> bool
    ensures { result ≡ list_all (λ a.
        spec.are_integral a.subscripts) (map view.access elements.now) }
{
    for element in elements {
        if !are_integral(&element.subscripts) {
            return false;
        }
    }
    true
}

fn head_is_integral(head: &DoHead) -> bool
    ensures { result ≡ rules.head_is_integral (view.head head.now) }
{
    is_integral(&head.first) && is_integral(&head.last) && optional_is_integral(&head.step)
}

/// Whether the expressions of a statement are integer or logical where they should be.
pub fn is_well_kinded(kind: &Kind) -> bool
    ensures { result ≡ rules.is_well_kinded (view.kind kind.now) }
{
    match kind {
        Kind::Integer(declared) | Kind::Dimension(declared) => declarators_are_integral(declared),
        Kind::Parameter(defined) => definitions_are_integral(defined),
        Kind::Assign(target, value) => is_integral(value) && are_integral(&target.subscripts),
        Kind::Do(head) => head_is_integral(head),
        Kind::If(condition) | Kind::ElseIf(condition) => is_logical(condition),
        Kind::LogicalIf(condition, inner) => is_logical(condition) && is_well_kinded(inner),
        Kind::Print(items) => items_are_integral(items),
        Kind::Read(elements) => elements_are_integral(elements),
        Kind::Program(_) | Kind::Continue | Kind::Else | Kind::EndIf | Kind::Stop | Kind::End => {
            true
        }
    }
}
