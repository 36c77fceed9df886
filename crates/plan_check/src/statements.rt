//! Whether two statements are equal.

ghost use Rattle.std.specs.Prelude.{◌≡◌, map};
ghost use Rattle.std.specs.Bool.{Decides};
ghost use Rattle.ast.specs.Tree as tree;
ghost use Rattle.ast.specs.View.{access, action as action_of, bounds, declarator, definition};
ghost use Rattle.ast.specs.View.{head as head_of, inert as inert_of, item as item_of};
ghost use Rattle.ast.specs.View.{plain_statement as statement_of, term};

use crate::expressions::{
    is_same_access, is_same_expression, is_same_name, is_same_optional, is_same_reference,
};
use ast::{
    Access, Action, Bounds, Declarator, Definition, DoHead, Expr, Inert, Item, Name, PlainStatement,
};

fn is_same_text(a: &[u8], b: &[u8]) -> bool
    ensures { Decides result (a.now ≡ b.now) }
{
    a == b
}

fn is_same_item(a: &Item, b: &Item) -> bool
    ensures { Decides result (item_of a.now ≡ item_of b.now) }
{
    match a {
        Item::Value(x) => match b {
            Item::Value(y) => is_same_expression(x, y),
            Item::Text(_) => false,
        },
        Item::Text(x) => match b {
            Item::Text(y) => is_same_text(x, y),
            Item::Value(_) => false,
        },
    }
}

fn are_same_items(a: &[Item], b: &[Item]) -> bool
    ensures { Decides result (map item_of a.now ≡ map item_of b.now) }
{
    if a.len() != b.len() {
        return false;
    }
    for i in 0..a.len() {
        if !is_same_item(&a[i], &b[i]) {
            return false;
        }
    }
    true
}

fn are_same_targets(a: &[Access], b: &[Access]) -> bool
    ensures { Decides result (map access a.now ≡ map access b.now) }
{
    if a.len() != b.len() {
        return false;
    }
    for i in 0..a.len() {
        if !is_same_access(&a[i], &b[i]) {
            return false;
        }
    }
    true
}

fn is_same_dimension(a: &Bounds, b: &Bounds) -> bool
    ensures { Decides result (bounds a.now ≡ bounds b.now) }
{
    is_same_optional(&a.lower, &b.lower) && is_same_expression(&a.upper, &b.upper)
}

fn are_same_dimensions(a: &[Bounds], b: &[Bounds]) -> bool
    ensures { Decides result (map bounds a.now ≡ map bounds b.now) }
{
    if a.len() != b.len() {
        return false;
    }
    for i in 0..a.len() {
        if !is_same_dimension(&a[i], &b[i]) {
            return false;
        }
    }
    true
}

fn is_same_declarator(a: &Declarator, b: &Declarator) -> bool
    ensures { Decides result (declarator a.now ≡ declarator b.now) }
{
    is_same_name(a.name, b.name) && are_same_dimensions(&a.bounds, &b.bounds)
}

fn are_same_declarators(a: &[Declarator], b: &[Declarator]) -> bool
    ensures { Decides result (map declarator a.now ≡ map declarator b.now) }
{
    if a.len() != b.len() {
        return false;
    }
    for i in 0..a.len() {
        if !is_same_declarator(&a[i], &b[i]) {
            return false;
        }
    }
    true
}

fn is_same_definition(a: &Definition, b: &Definition) -> bool
    ensures { Decides result (definition a.now ≡ definition b.now) }
{
    is_same_name(a.name, b.name) && is_same_expression(&a.value, &b.value)
}

fn are_same_definitions(a: &[Definition], b: &[Definition]) -> bool
    ensures { Decides result (map definition a.now ≡ map definition b.now) }
{
    if a.len() != b.len() {
        return false;
    }
    for i in 0..a.len() {
        if !is_same_definition(&a[i], &b[i]) {
            return false;
        }
    }
    true
}

/// Whether two DO statements name the same terminal statement, variable and parameters.
pub fn is_same_head(a: &DoHead, b: &DoHead) -> bool
    ensures { Decides result (head_of a.now ≡ head_of b.now) }
{
    a.terminal == b.terminal
        && is_same_reference(&a.variable, &b.variable)
        && is_same_expression(&a.first, &b.first)
        && is_same_expression(&a.last, &b.last)
        && is_same_optional(&a.step, &b.step)
}

fn is_assignment(action: &Action, target: &Access, value: &Expr) -> bool
    ensures { Decides result (tree.assign (access target.now) (term value.now)
        ≡ action_of action.now) }
{
    match action {
        Action::Assign(other, other_value) => {
            is_same_access(target, other) && is_same_expression(value, other_value)
        }
        Action::Print(_) | Action::Read(_) | Action::Stop | Action::Inert(_) => false,
    }
}

fn is_program(inert: &Inert, name: Name) -> bool
    ensures { Decides result (tree.program name.letters ≡ inert_of inert.now) }
{
    match inert {
        Inert::Program(other) => is_same_name(name, *other),
        Inert::Integer(_)
        | Inert::Dimension(_)
        | Inert::Parameter(_)
        | Inert::Continue
        | Inert::End => false,
    }
}

fn is_integer(inert: &Inert, declarators: &[Declarator]) -> bool
    ensures { Decides result (tree.integer (map declarator declarators.now) ≡ inert_of inert.now) }
{
    match inert {
        Inert::Integer(other) => are_same_declarators(declarators, other),
        Inert::Program(_)
        | Inert::Dimension(_)
        | Inert::Parameter(_)
        | Inert::Continue
        | Inert::End => false,
    }
}

fn is_dimension(inert: &Inert, declarators: &[Declarator]) -> bool
    ensures { Decides result (tree.dimension (map declarator declarators.now)
        ≡ inert_of inert.now) }
{
    match inert {
        Inert::Dimension(other) => are_same_declarators(declarators, other),
        Inert::Program(_)
        | Inert::Integer(_)
        | Inert::Parameter(_)
        | Inert::Continue
        | Inert::End => false,
    }
}

fn is_parameter(inert: &Inert, definitions: &[Definition]) -> bool
    ensures { Decides result (tree.parameters (map definition definitions.now)
        ≡ inert_of inert.now) }
{
    match inert {
        Inert::Parameter(other) => are_same_definitions(definitions, other),
        Inert::Program(_)
        | Inert::Integer(_)
        | Inert::Dimension(_)
        | Inert::Continue
        | Inert::End => false,
    }
}

fn is_print(action: &Action, items: &[Item]) -> bool
    ensures { Decides result (tree.print (map item_of items.now) ≡ action_of action.now) }
{
    match action {
        Action::Print(other) => are_same_items(items, other),
        Action::Assign(_, _) | Action::Read(_) | Action::Stop | Action::Inert(_) => false,
    }
}

fn is_read(action: &Action, elements: &[Access]) -> bool
    ensures { Decides result (tree.read (map access elements.now) ≡ action_of action.now) }
{
    match action {
        Action::Read(other) => are_same_targets(elements, other),
        Action::Assign(_, _) | Action::Print(_) | Action::Stop | Action::Inert(_) => false,
    }
}

fn is_same_inert(a: &Inert, b: &Inert) -> bool
    ensures { Decides result (inert_of a.now ≡ inert_of b.now) }
{
    match a {
        Inert::Program(name) => is_program(b, *name),
        Inert::Integer(declarators) => is_integer(b, declarators),
        Inert::Dimension(declarators) => is_dimension(b, declarators),
        Inert::Parameter(definitions) => is_parameter(b, definitions),
        Inert::Continue => matches!(b, Inert::Continue),
        Inert::End => matches!(b, Inert::End),
    }
}

fn is_inert(action: &Action, inert: &Inert) -> bool
    ensures { Decides result (inert_of inert.now ≡ action_of action.now) }
{
    match action {
        Action::Inert(other) => is_same_inert(inert, other),
        Action::Assign(_, _) | Action::Print(_) | Action::Read(_) | Action::Stop => false,
    }
}

fn is_same_action(a: &Action, b: &Action) -> bool
    ensures { Decides result (action_of a.now ≡ action_of b.now) }
{
    match a {
        Action::Assign(target, value) => is_assignment(b, target, value),
        Action::Print(items) => is_print(b, items),
        Action::Read(elements) => is_read(b, elements),
        Action::Stop => matches!(b, Action::Stop),
        Action::Inert(inert) => is_inert(b, inert),
    }
}

/// Whether two statements are equal, their lines and labels included.
pub fn is_same_statement(a: &PlainStatement, b: &PlainStatement) -> bool
    ensures { Decides result (statement_of a.now ≡ statement_of b.now) }
{
    a.line == b.line && a.label == b.label && is_same_action(&a.action, &b.action)
}
