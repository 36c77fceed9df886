//! What kinds of statements there are, as the rules on their order see them.

ghost use Rattle.std.specs.Prelude.{◌≡◌};
ghost use Rattle.ast.specs.View.{kind as kind_of};
ghost use Rattle.structure.specs.Parts.{part_of};
ghost use Rattle.structure.specs.Rules as spec;
ghost use Rattle.structure.specs.View.{part};

use ast::{Kind, Label, Name};

/// What a statement opens or ends, its label aside.
#[derive(Clone, Copy)]
pub enum Part {
    /// It opens a range: the label of its terminal statement, and its DO variable.
    Do(Label, Name),
    If,
    Else,
    EndIf,
    /// It opens and ends nothing.
    Other,
}

/// What a statement opens or ends, by its kind.
pub fn part_of(kind: &Kind) -> Part
    ensures { part result ≡ part_of (kind_of kind.now) }
{
    match kind {
        Kind::Do(head) => Part::Do(head.terminal, head.variable.name),
        Kind::If(_) => Part::If,
        Kind::Else => Part::Else,
        Kind::EndIf => Part::EndIf,
        Kind::Program(_)
        | Kind::Integer(_)
        | Kind::Dimension(_)
        | Kind::Parameter(_)
        | Kind::Assign(_, _)
        | Kind::Continue
        | Kind::ElseIf(_)
        | Kind::LogicalIf(_, _)
        | Kind::Print(_)
        | Kind::Read(_)
        | Kind::Stop
        | Kind::End => Part::Other,
    }
}

/// Whether a statement is PROGRAM.
pub fn is_program(kind: &Kind) -> bool
    ensures { result ≡ spec.is_program (kind_of kind.now) }
{
    match kind {
        Kind::Program(_) => true,
        Kind::Integer(_)
        | Kind::Dimension(_)
        | Kind::Parameter(_)
        | Kind::Assign(_, _)
        | Kind::Do(_)
        | Kind::Continue
        | Kind::If(_)
        | Kind::ElseIf(_)
        | Kind::Else
        | Kind::EndIf
        | Kind::LogicalIf(_, _)
        | Kind::Print(_)
        | Kind::Read(_)
        | Kind::Stop
        | Kind::End => false,
    }
}

/// Whether a statement declares names: INTEGER, DIMENSION or PARAMETER.
pub fn is_declaration(kind: &Kind) -> bool
    ensures { result ≡ spec.is_declaration (kind_of kind.now) }
{
    match kind {
        Kind::Integer(_) | Kind::Dimension(_) | Kind::Parameter(_) => true,
        Kind::Program(_)
        | Kind::Assign(_, _)
        | Kind::Do(_)
        | Kind::Continue
        | Kind::If(_)
        | Kind::ElseIf(_)
        | Kind::Else
        | Kind::EndIf
        | Kind::LogicalIf(_, _)
        | Kind::Print(_)
        | Kind::Read(_)
        | Kind::Stop
        | Kind::End => false,
    }
}

/// Whether a statement is END.
pub fn is_end(kind: &Kind) -> bool
    ensures { result ≡ spec.is_end (kind_of kind.now) }
{
    match kind {
        Kind::End => true,
        Kind::Program(_)
        | Kind::Integer(_)
        | Kind::Dimension(_)
        | Kind::Parameter(_)
        | Kind::Assign(_, _)
        | Kind::Do(_)
        | Kind::Continue
        | Kind::If(_)
        | Kind::ElseIf(_)
        | Kind::Else
        | Kind::EndIf
        | Kind::LogicalIf(_, _)
        | Kind::Print(_)
        | Kind::Read(_)
        | Kind::Stop => false,
    }
}

/// Whether a statement may not be the terminal statement of a range.
pub fn may_not_end_a_range(kind: &Kind) -> bool
    ensures { result ≡ spec.may_not_end_a_range (kind_of kind.now) }
{
    match kind {
        Kind::Do(_) | Kind::If(_) | Kind::ElseIf(_) | Kind::Else | Kind::EndIf | Kind::Stop => true,
        Kind::Program(_)
        | Kind::Integer(_)
        | Kind::Dimension(_)
        | Kind::Parameter(_)
        | Kind::Assign(_, _)
        | Kind::Continue
        | Kind::LogicalIf(_, _)
        | Kind::Print(_)
        | Kind::Read(_)
        | Kind::End => false,
    }
}

fn may_stand_in_if(kind: &Kind) -> bool
    ensures { result ≡ spec.may_stand_in_if (kind_of kind.now) }
{
    match kind {
        Kind::Assign(_, _) | Kind::Continue | Kind::Print(_) | Kind::Read(_) | Kind::Stop => true,
        Kind::Program(_)
        | Kind::Integer(_)
        | Kind::Dimension(_)
        | Kind::Parameter(_)
        | Kind::Do(_)
        | Kind::If(_)
        | Kind::ElseIf(_)
        | Kind::Else
        | Kind::EndIf
        | Kind::LogicalIf(_, _)
        | Kind::End => false,
    }
}

/// Whether a statement is a logical IF that may not hold its statement.
pub fn holds_wrong_statement(kind: &Kind) -> bool
    ensures { result ≡ spec.holds_wrong_statement (kind_of kind.now) }
{
    match kind {
        Kind::LogicalIf(_, inner) => !may_stand_in_if(inner),
        Kind::Program(_)
        | Kind::Integer(_)
        | Kind::Dimension(_)
        | Kind::Parameter(_)
        | Kind::Assign(_, _)
        | Kind::Do(_)
        | Kind::Continue
        | Kind::If(_)
        | Kind::ElseIf(_)
        | Kind::Else
        | Kind::EndIf
        | Kind::Print(_)
        | Kind::Read(_)
        | Kind::Stop
        | Kind::End => false,
    }
}
