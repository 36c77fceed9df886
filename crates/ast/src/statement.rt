//! Statements, as the text has them: one after another, loops and blocks by their heads and ends.

ghost use Rattle.std.specs.Prelude.{◌≡◌, IfOk, map};
ghost use Rattle.ast.specs.View.{access, bounds, declarator, definition, item, optional_term};

use crate::expression::{Access, Expr, Reference};
use crate::name::Name;
use std::alloc::{AllocError, Global};

/// A line's number in its source, from 1 to 65,535.
pub type Line = u32;

/// A statement's label, from 1 to 99,999; a DO may name a label from 0 to 99,999.
pub type Label = u32;

/// An item of a PRINT.
#[derive(Drop)]
pub enum Item {
    /// The value of an expression.
    Value(Expr),
    /// The text of a character constant.
    Text(Vec<u8>),
}

/// The bounds of one dimension of an array.
pub struct Bounds {
    /// The lower bound, 1 where it is absent.
    pub lower: Option<Expr>,
    pub upper: Expr,
}

impl Drop for Bounds {
    fn drop(self) {
        let Bounds { lower: _, upper: _ } = self;
    }
}

/// A name that a statement declares.
pub struct Declarator {
    pub name: Name,
    /// The bounds of its dimensions, none where the statement gives none.
    pub bounds: Vec<Bounds>,
}

impl Drop for Declarator {
    fn drop(self) {
        let Declarator { name: _, bounds: _ } = self;
    }
}

/// A constant that a PARAMETER statement defines.
pub struct Definition {
    pub name: Name,
    pub value: Expr,
}

impl Drop for Definition {
    fn drop(self) {
        let Definition { name: _, value: _ } = self;
    }
}

/// What a DO statement says.
pub struct DoHead {
    /// The label of the terminal statement.
    pub terminal: Label,
    /// The DO variable.
    pub variable: Reference,
    /// The initial parameter.
    pub first: Expr,
    /// The terminal parameter.
    pub last: Expr,
    /// The incrementation parameter, 1 where it is absent.
    pub step: Option<Expr>,
}

impl Drop for DoHead {
    fn drop(self) {
        let DoHead {
            terminal: _,
            variable: _,
            first: _,
            last: _,
            step: _,
        } = self;
    }
}

/// What a statement does.
#[derive(Drop)]
pub enum Kind {
    Program(Name),
    Integer(Vec<Declarator>),
    Dimension(Vec<Declarator>),
    Parameter(Vec<Definition>),
    Assign(Access, Expr),
    Do(DoHead),
    Continue,
    /// The head of a block IF.
    If(Expr),
    ElseIf(Expr),
    Else,
    EndIf,
    /// A logical IF with its statement.
    LogicalIf(Expr, Box<Kind>),
    /// `PRINT *` with a list of items, which may be empty.
    Print(Vec<Item>),
    /// `READ *` with a list of variables and elements, which may be empty.
    Read(Vec<Access>),
    Stop,
    End,
}

/// A statement.
#[derive(Drop)]
pub struct Stmt {
    /// The number of its initial line.
    pub line: Line,
    pub label: Option<Label>,
    pub kind: Kind,
}

/// An equal expression where there is one, or `AllocError` where memory is refused.
pub fn copy_of_optional(alloc: Global, given: &Option<Expr>) -> Result<Option<Expr>, AllocError>
    ensures { IfOk result (λ copy. optional_term copy ≡ optional_term given.now) }
{
    match given {
        Some(expression) => Ok(Some(expression.try_copy(alloc)?)),
        None => Ok(None),
    }
}

impl Item {
    ghost use Rattle.std.specs.Prelude.{◌≡◌, IfOk};
    ghost use Rattle.ast.specs.View.{item};

    /// An equal item, or `AllocError` where memory is refused.
    pub fn try_copy(&self, alloc: Global) -> Result<Item, AllocError>
        ensures { IfOk result (λ copy. item copy ≡ item self.now) }
    {
        match self {
            Item::Value(value) => Ok(Item::Value(value.try_copy(alloc)?)),
            Item::Text(text) => Ok(Item::Text(Vec::from_slice(alloc, text)?)),
        }
    }
}

impl Bounds {
    ghost use Rattle.std.specs.Prelude.{◌≡◌, IfOk};
    ghost use Rattle.ast.specs.View.{bounds};

    /// Equal bounds, or `AllocError` where memory is refused.
    pub fn try_copy(&self, alloc: Global) -> Result<Bounds, AllocError>
        ensures { IfOk result (λ copy. bounds copy ≡ bounds self.now) }
    {
        let lower = copy_of_optional(alloc, &self.lower)?;
        let upper = self.upper.try_copy(alloc)?;
        Ok(Bounds { lower, upper })
    }
}

impl Declarator {
    ghost use Rattle.std.specs.Prelude.{◌≡◌, IfOk};
    ghost use Rattle.ast.specs.View.{declarator};

    /// An equal declarator, or `AllocError` where memory is refused.
    pub fn try_copy(&self, alloc: Global) -> Result<Declarator, AllocError>
        ensures { IfOk result (λ copy. declarator copy ≡ declarator self.now) }
    {
        let bounds = copies_of_bounds(alloc, &self.bounds)?;
        Ok(Declarator {
            name: self.name,
            bounds,
        })
    }
}

impl Definition {
    ghost use Rattle.std.specs.Prelude.{◌≡◌, IfOk};
    ghost use Rattle.ast.specs.View.{definition};

    /// An equal definition, or `AllocError` where memory is refused.
    pub fn try_copy(&self, alloc: Global) -> Result<Definition, AllocError>
        ensures { IfOk result (λ copy. definition copy ≡ definition self.now) }
    {
        let value = self.value.try_copy(alloc)?;
        Ok(Definition {
            name: self.name,
            value,
        })
    }
}

impl DoHead {
    ghost use Rattle.std.specs.Prelude.{◌≡◌, IfOk};
    ghost use Rattle.ast.specs.View.{head};

    /// An equal head, or `AllocError` where memory is refused.
    pub fn try_copy(&self, alloc: Global) -> Result<DoHead, AllocError>
        ensures { IfOk result (λ copy. head copy ≡ head self.now) }
    {
        let first = self.first.try_copy(alloc)?;
        let last = self.last.try_copy(alloc)?;
        let step = copy_of_optional(alloc, &self.step)?;
        Ok(DoHead {
            terminal: self.terminal,
            variable: self.variable,
            first,
            last,
            step,
        })
    }
}

/// Equal items, or `AllocError` where memory is refused.
pub fn copies_of_items(alloc: Global, items: &[Item]) -> Result<Vec<Item>, AllocError>
    ensures { IfOk result (λ copies. map item copies.items ≡ map item items.now) }
{
    let mut copies = Vec::with_capacity(alloc, items.len())?;
    for item in items {
        copies.push(item.try_copy(alloc)?)?;
    }
    Ok(copies)
}

fn copies_of_bounds(alloc: Global, given: &[Bounds]) -> Result<Vec<Bounds>, AllocError>
    ensures { IfOk result (λ copies. map bounds copies.items ≡ map bounds given.now) }
{
    let mut copies = Vec::with_capacity(alloc, given.len())?;
    for bounds in given {
        copies.push(bounds.try_copy(alloc)?)?;
    }
    Ok(copies)
}

/// Equal declarators, or `AllocError` where memory is refused.
pub fn copies_of_declarators(
    alloc: Global,
    declared: &[Declarator],
) -> Result<Vec<Declarator>, AllocError>
    ensures { IfOk result (λ copies. map declarator copies.items ≡ map declarator declared.now) }
{
    let mut copies = Vec::with_capacity(alloc, declared.len())?;
    for declarator in declared {
        copies.push(declarator.try_copy(alloc)?)?;
    }
    Ok(copies)
}

/// Equal definitions, or `AllocError` where memory is refused.
pub fn copies_of_definitions(
    alloc: Global,
    defined: &[Definition],
) -> Result<Vec<Definition>, AllocError>
    ensures { IfOk result (λ copies. map definition copies.items ≡ map definition defined.now) }
{
    let mut copies = Vec::with_capacity(alloc, defined.len())?;
    for definition in defined {
        copies.push(definition.try_copy(alloc)?)?;
    }
    Ok(copies)
}

/// Equal variables and elements, or `AllocError` where memory is refused.
pub fn copies_of_elements(alloc: Global, elements: &[Access]) -> Result<Vec<Access>, AllocError>
    ensures { IfOk result (λ copies. map access copies.items ≡ map access elements.now) }
{
    let mut copies = Vec::with_capacity(alloc, elements.len())?;
    for element in elements {
        copies.push(element.try_copy(alloc)?)?;
    }
    Ok(copies)
}
