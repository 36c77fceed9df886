//! DO ranges and IF blocks that are open.

ghost use Rattle.std.specs.Prelude.{◌≡◌, ◌&&◌, ◌∷◌, OnOk, map};
ghost use Rattle.std.specs.List.{list_any};
ghost use Rattle.ast.specs.View.{kind as kind_of};
ghost use Rattle.structure.specs.Open as spec;
ghost use Rattle.structure.specs.Parts.{begun_by};
ghost use Rattle.structure.specs.Rules.{begins_with, is_any_range, is_around, is_block};
ghost use Rattle.structure.specs.Rules.{is_misplaced_arm, is_other_range, is_range_of, may_go_on};
ghost use Rattle.structure.specs.View.{opened, part};

use crate::kinds::Part;
use ast::{Kind, Label, Name};
use std::alloc::AllocError;

/// A DO range or an IF block that is open.
#[derive(Clone, Copy)]
pub enum Open {
    /// A range: the label of its terminal statement, and its DO variable.
    Range(Label, Name),
    /// A block, and whether its ELSE stands.
    Block(bool),
}

/// Whether a structure is a range whose terminal statement has the label.
pub fn is_range_of(structure: &Open, label: Label) -> bool
    ensures { result ≡ is_range_of label (opened structure.now) }
{
    match structure {
        Open::Range(terminal, _) => *terminal == label,
        Open::Block(_) => false,
    }
}

/// Whether a structure is a range whose terminal statement has another label.
fn is_other_range(structure: &Open, label: Label) -> bool
    ensures { result ≡ is_other_range label (opened structure.now) }
{
    match structure {
        Open::Range(terminal, _) => *terminal != label,
        Open::Block(_) => false,
    }
}

/// Whether a structure is an IF block.
fn is_block(structure: &Open) -> bool
    ensures { result ≡ is_block (opened structure.now) }
{
    matches!(structure, Open::Block(_))
}

/// Whether a range of the label is open.
pub fn has_range_of(structures: &[Open], label: Label) -> bool
    ensures { result ≡ list_any (is_range_of label) (map opened structures.now) }
{
    for structure in structures {
        if is_range_of(structure, label) {
            return true;
        }
    }
    false
}

/// Whether a structure is a range with this DO variable.
fn is_variable_of(structure: &Open, name: Name) -> bool
    ensures { result ≡ spec.is_variable_of name.letters (opened structure.now) }
{
    match structure {
        Open::Range(_, variable) => name == *variable,
        Open::Block(_) => false,
    }
}

/// Whether a name is the DO variable of a range.
pub fn has_variable(structures: &[Open], name: Name) -> bool
    ensures { result ≡ spec.is_active (map opened structures.now) name.letters }
{
    for structure in structures {
        if is_variable_of(structure, name) {
            return true;
        }
    }
    false
}

/// Whether a range of the label is open around another range.
pub fn is_around_range(structures: &[Open], label: Label) -> bool
    ensures { result ≡ is_around (is_other_range label) label (map opened structures.now) }
{
    match structures {
        [] => false,
        [structure, outer @ ..] => {
            is_other_range(structure, label) && has_range_of(outer, label)
                || is_around_range(outer, label)
        }
    }
}

/// Whether a range of the label is open around an IF block.
pub fn is_around_block(structures: &[Open], label: Label) -> bool
    ensures { result ≡ is_around is_block label (map opened structures.now) }
{
    match structures {
        [] => false,
        [structure, outer @ ..] => {
            is_block(structure) && has_range_of(outer, label) || is_around_block(outer, label)
        }
    }
}

/// Whether the innermost open structure is a range.
pub fn begins_with_range(structures: &[Open]) -> bool
    ensures { result ≡ begins_with is_any_range (map opened structures.now) }
{
    match structures {
        [] => false,
        [innermost, ..] => !is_block(innermost),
    }
}

/// Whether the innermost open structure is a block.
fn begins_with_block(structures: &[Open]) -> bool
    ensures { result ≡ begins_with is_block (map opened structures.now) }
{
    match structures {
        [] => false,
        [innermost, ..] => is_block(innermost),
    }
}

/// Whether a structure is a block that may have another arm: its ELSE doesn't stand.
fn may_go_on(structure: &Open) -> bool
    ensures { result ≡ may_go_on (opened structure.now) }
{
    match structure {
        Open::Range(_, _) => false,
        Open::Block(is_last) => !*is_last,
    }
}

/// Whether the innermost open structure is a block that may have another arm.
fn begins_with_arms(structures: &[Open]) -> bool
    ensures { result ≡ begins_with may_go_on (map opened structures.now) }
{
    match structures {
        [] => false,
        [innermost, ..] => may_go_on(innermost),
    }
}

/// Whether a part of an IF block stands where it may not.
pub fn is_misplaced_arm(kind: &Kind, structures: &[Open]) -> bool
    ensures { result ≡ is_misplaced_arm (kind_of kind.now) (map opened structures.now) }
{
    match kind {
        Kind::ElseIf(_) | Kind::Else => !begins_with_arms(structures),
        Kind::EndIf => !begins_with_block(structures),
        Kind::End => begins_with_block(structures),
        Kind::Program(_)
        | Kind::Integer(_)
        | Kind::Dimension(_)
        | Kind::Parameter(_)
        | Kind::Assign(_, _)
        | Kind::Do(_)
        | Kind::Continue
        | Kind::If(_)
        | Kind::LogicalIf(_, _)
        | Kind::Print(_)
        | Kind::Read(_)
        | Kind::Stop => false,
    }
}

/// Ends the innermost ranges of a label.
pub fn end_ranges(structures: &mut Vec<Open>, label: Label)
    ensures { map opened structures.new.items
        ≡ spec.ended_by label (map opened structures.old.items) }
{
    while !structures.is_empty() && is_range_of(&structures[0], label) {
        structures.remove(0);
    }
}

/// Marks the innermost block as one whose ELSE stands.
fn mark_else(structures: &mut Vec<Open>)
    ensures { map opened structures.new.items ≡ spec.with_else (map opened structures.old.items) }
{
    if !structures.is_empty() && is_block(&structures[0]) {
        structures[0] = Open::Block(true);
    }
}

/// Ends the innermost block.
fn end_block(structures: &mut Vec<Open>)
    ensures { map opened structures.new.items
        ≡ spec.without_block (map opened structures.old.items) }
{
    if !structures.is_empty() && is_block(&structures[0]) {
        structures.remove(0);
    }
}

/// Opens a structure inside those that are open.
///
/// # Errors
///
/// `AllocError` where memory is refused.
fn add_inside(structures: &mut Vec<Open>, one: Open) -> Result<(), AllocError>
    ensures { OnOk result (map opened structures.new.items ≡ opened one
        ∷ map opened structures.old.items) }
{
    structures.insert(0, one)?;
    Ok(())
}

/// Opens or ends what a statement opens or ends, its label aside.
///
/// # Errors
///
/// `AllocError` where memory is refused.
pub fn begin(structures: &mut Vec<Open>, one: Part) -> Result<(), AllocError>
    ensures { OnOk result (map opened structures.new.items
        ≡ begun_by (part one) (map opened structures.old.items)) }
{
    match one {
        Part::Do(terminal, variable) => add_inside(structures, Open::Range(terminal, variable)),
        Part::If => add_inside(structures, Open::Block(false)),
        Part::Else => {
            mark_else(structures);
            Ok(())
        }
        Part::EndIf => {
            end_block(structures);
            Ok(())
        }
        Part::Other => Ok(()),
    }
}
