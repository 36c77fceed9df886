//! How deep a statement's expressions are.

ghost use Rattle.std.specs.Prelude.{◌≡◌, nat_le, map};
ghost use Rattle.ast.specs.View.{access, bounds, declarator, definition, head, item, kind};
ghost use Rattle.ast.specs.View.{optional_term};
ghost use Rattle.syntax.specs.Depths.{greatest, depth_of_optional, depth_of_access};
ghost use Rattle.syntax.specs.Depths.{depth_of_bounds, depth_of_declarator, depth_of_definition};
ghost use Rattle.syntax.specs.Depths.{depth_of_item, depth_of_head, depth_of_kind};

use ast::{Access, Bounds, Declarator, Definition, DoHead, Expr, Item, Kind};
use expressions::{is_access_within, is_within};

fn is_optional_within(tree: &Option<Expr>, room: usize) -> bool
    ensures { result ≡ nat_le (depth_of_optional (optional_term tree.now)) room }
{
    match tree {
        Some(tree) => is_within(tree, room),
        None => true,
    }
}

fn are_bounds_within(all: &[Bounds], room: usize) -> bool
    ensures { result ≡ nat_le (greatest depth_of_bounds (map bounds all.now)) room }
{
    for bounds in all {
        if !(is_optional_within(&bounds.lower, room) && is_within(&bounds.upper, room)) {
            return false;
        }
    }
    true
}

fn are_declarators_within(all: &[Declarator], room: usize) -> bool
    ensures { result ≡ nat_le (greatest depth_of_declarator (map declarator all.now)) room }
{
    for declarator in all {
        if !are_bounds_within(&declarator.bounds, room) {
            return false;
        }
    }
    true
}

fn are_definitions_within(all: &[Definition], room: usize) -> bool
    ensures { result ≡ nat_le (greatest depth_of_definition (map definition all.now)) room }
{
    for definition in all {
        if !is_within(&definition.value, room) {
            return false;
        }
    }
    true
}

fn are_items_within(all: &[Item], room: usize) -> bool
    ensures { result ≡ nat_le (greatest depth_of_item (map item all.now)) room }
{
    for item in all {
        if let Item::Value(value) = item {
            if !is_within(value, room) {
                return false;
            }
        }
    }
    true
}

fn are_elements_within(all: &[Access], room: usize) -> bool
    ensures { result ≡ nat_le (greatest depth_of_access (map access all.now)) room }
{
    for element in all {
        if !is_access_within(element, room) {
            return false;
        }
    }
    true
}

fn is_head_within(tree: &DoHead, room: usize) -> bool
    ensures { result ≡ nat_le (depth_of_head (head tree.now)) room }
{
    is_within(&tree.first, room)
        && is_within(&tree.last, room)
        && is_optional_within(&tree.step, room)
}

/// Whether no expression of a statement is deeper than `room`.
pub fn is_shallow(tree: &Kind, room: usize) -> bool
    ensures { result ≡ nat_le (depth_of_kind (kind tree.now)) room }
{
    match tree {
        Kind::Integer(declared) | Kind::Dimension(declared) => are_declarators_within(
            declared, room,
        ),
        Kind::Parameter(defined) => are_definitions_within(defined, room),
        Kind::Assign(target, value) => is_access_within(target, room) && is_within(value, room),
        Kind::Do(head) => is_head_within(head, room),
        Kind::If(condition) | Kind::ElseIf(condition) => is_within(condition, room),
        Kind::LogicalIf(condition, inner) => is_within(condition, room) && is_shallow(inner, room),
        Kind::Print(items) => are_items_within(items, room),
        Kind::Read(elements) => are_elements_within(elements, room),
        Kind::Program(_) | Kind::Continue | Kind::Else | Kind::EndIf | Kind::Stop | Kind::End =>
            true,
    }
}
