//! Statements of a program that hold no others.

use crate::expression::{Access, Expr};
use crate::name::Name;
use crate::statement::{
    Declarator, Definition, Item, Kind, Label, Line, copies_of_declarators, copies_of_definitions,
    copies_of_elements, copies_of_items,
};
use std::alloc::{AllocError, Global};

/// A statement that does nothing when it is run: it declares, or it marks a place.
#[derive(Drop)]
pub enum Inert {
    Program(Name),
    Integer(Vec<Declarator>),
    Dimension(Vec<Declarator>),
    Parameter(Vec<Definition>),
    Continue,
    End,
}

/// What a statement does that holds no others and is no part of an IF block.
#[derive(Drop)]
pub enum Action {
    Assign(Access, Expr),
    /// `PRINT *` with a list of items, which may be empty.
    Print(Vec<Item>),
    /// `READ *` with a list of variables and elements, which may be empty.
    Read(Vec<Access>),
    Stop,
    /// Nothing.
    Inert(Inert),
}

/// A statement of a program that holds no others.
#[derive(Drop)]
pub struct PlainStatement {
    /// The number of its initial line.
    pub line: Line,
    pub label: Option<Label>,
    pub action: Action,
}

impl Inert {
    ghost use Rattle.std.specs.Prelude.{◌≡◌, IfOk};
    ghost use Rattle.ast.specs.View.{inert};

    /// An equal statement, or `AllocError` where memory is refused.
    pub fn try_copy(&self, alloc: Global) -> Result<Inert, AllocError>
        ensures { IfOk result (λ copy. inert copy ≡ inert self.now) }
    {
        match self {
            Inert::Program(name) => Ok(Inert::Program(*name)),
            Inert::Integer(declared) => Ok(Inert::Integer(copies_of_declarators(alloc, declared)?)),
            Inert::Dimension(declared) => {
                Ok(Inert::Dimension(copies_of_declarators(alloc, declared)?))
            }
            Inert::Parameter(defined) => {
                Ok(Inert::Parameter(copies_of_definitions(alloc, defined)?))
            }
            Inert::Continue => Ok(Inert::Continue),
            Inert::End => Ok(Inert::End),
        }
    }
}

impl Action {
    ghost use Rattle.std.specs.Prelude.{◌≡◌, IfOk};
    ghost use Rattle.ast.specs.Alone.{alone};
    ghost use Rattle.ast.specs.View.{action, kind as kind_of};

    /// What a statement does by itself: one that can't stand alone does nothing.
    pub fn of(kind: Kind) -> Action
        ensures { action result ≡ alone (kind_of kind) }
    {
        match kind {
            Kind::Assign(target, value) => Action::Assign(target, value),
            Kind::Print(items) => Action::Print(items),
            Kind::Read(elements) => Action::Read(elements),
            Kind::Stop => Action::Stop,
            Kind::Program(name) => Action::Inert(Inert::Program(name)),
            Kind::Integer(declared) => Action::Inert(Inert::Integer(declared)),
            Kind::Dimension(declared) => Action::Inert(Inert::Dimension(declared)),
            Kind::Parameter(defined) => Action::Inert(Inert::Parameter(defined)),
            Kind::End => Action::Inert(Inert::End),
            Kind::Continue
            | Kind::Do(_)
            | Kind::If(_)
            | Kind::ElseIf(_)
            | Kind::Else
            | Kind::EndIf
            | Kind::LogicalIf(_, _) => Action::Inert(Inert::Continue),
        }
    }

    /// An equal action, or `AllocError` where memory is refused.
    pub fn try_copy(&self, alloc: Global) -> Result<Action, AllocError>
        ensures { IfOk result (λ copy. action copy ≡ action self.now) }
    {
        match self {
            Action::Assign(target, value) => {
                let target = target.try_copy(alloc)?;
                Ok(Action::Assign(target, value.try_copy(alloc)?))
            }
            Action::Print(items) => Ok(Action::Print(copies_of_items(alloc, items)?)),
            Action::Read(elements) => Ok(Action::Read(copies_of_elements(alloc, elements)?)),
            Action::Stop => Ok(Action::Stop),
            Action::Inert(inert) => Ok(Action::Inert(inert.try_copy(alloc)?)),
        }
    }
}

impl PlainStatement {
    ghost use Rattle.std.specs.Prelude.{◌≡◌, IfOk};
    ghost use Rattle.ast.specs.View.{plain_statement};

    /// An equal statement, or `AllocError` where memory is refused.
    pub fn try_copy(&self, alloc: Global) -> Result<PlainStatement, AllocError>
        ensures { IfOk result (λ copy. plain_statement copy ≡ plain_statement self.now) }
    {
        let action = self.action.try_copy(alloc)?;
        Ok(PlainStatement {
            line: self.line,
            label: self.label,
            action,
        })
    }
}
