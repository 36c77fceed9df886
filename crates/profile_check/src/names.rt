//! The names that a statement mentions, and tables of names.

ghost use Rattle.std.specs.Prelude.{◌≡◌, ◌++◌, false, IfOk, OnOk, filter, map, option_map};
ghost use Rattle.indexmap.specs.IndexSet.{insert_all};
ghost use Rattle.ast.specs.Store.{same_name};
ghost use Rattle.ast.specs.View as view;
ghost use Rattle.profile_check.specs.Declarations.{objects_by};
ghost use Rattle.profile_check.specs.Rules.{typed_at_top};
ghost use Rattle.profile_check.specs.TakenBefore.{taken_before};
ghost use Rattle.profile_check.specs.Uses as spec;
ghost use Rattle.profile_check.specs.UsesView.{use_of};

use crate::arrays::has_bounds;
use crate::uses::Use;
use ast::{Declarator, Definition, Kind, Name};
use indexmap::IndexSet;
use std::alloc::{AllocError, Global};

/// The names of the intrinsic functions.
const INTRINSICS: [[u8; 6]; 7] = [
    *b"ABS   ", *b"IABS  ", *b"MAX   ", *b"MAX0  ", *b"MIN   ", *b"MIN0  ", *b"MOD   ",
];

/// Whether a name is that of an intrinsic function.
pub fn is_intrinsic(name: &Name) -> bool
    ensures { result ≡ spec.is_intrinsic name.now.letters }
{
    INTRINSICS
        .iter()
        .any(|intrinsic| name.letters == *intrinsic)
}

/// Whether a use calls an intrinsic function.
pub fn is_call(one: &Use) -> bool
    ensures { result ≡ spec.is_call (use_of one.now) }
{
    is_intrinsic(&one.name) && one.count > 0 && !one.is_given
}

/// The declarators of an INTEGER statement.
pub fn typed_by(kind: &Kind) -> &[Declarator]
    ensures { map view.declarator result.now ≡ spec.typed_by (view.kind kind.now) }
{
    match kind {
        Kind::Integer(declared) => declared,
        Kind::LogicalIf(_, inner) => typed_by(inner),
        Kind::Program(_)
        | Kind::Dimension(_)
        | Kind::Parameter(_)
        | Kind::Assign(_, _)
        | Kind::Do(_)
        | Kind::Continue
        | Kind::If(_)
        | Kind::ElseIf(_)
        | Kind::Else
        | Kind::EndIf
        | Kind::Print(_)
        | Kind::Read(_)
        | Kind::Stop
        | Kind::End => &[],
    }
}

/// The declarators of a DIMENSION statement.
pub fn dimensioned_by(kind: &Kind) -> &[Declarator]
    ensures { map view.declarator result.now ≡ spec.dimensioned_by (view.kind kind.now) }
{
    match kind {
        Kind::Dimension(declared) => declared,
        Kind::LogicalIf(_, inner) => dimensioned_by(inner),
        Kind::Program(_)
        | Kind::Integer(_)
        | Kind::Parameter(_)
        | Kind::Assign(_, _)
        | Kind::Do(_)
        | Kind::Continue
        | Kind::If(_)
        | Kind::ElseIf(_)
        | Kind::Else
        | Kind::EndIf
        | Kind::Print(_)
        | Kind::Read(_)
        | Kind::Stop
        | Kind::End => &[],
    }
}

/// The declarators of a statement.
pub fn declarators_of(kind: &Kind) -> &[Declarator]
    ensures { map view.declarator result.now ≡ spec.declarators_of (view.kind kind.now) }
{
    match kind {
        Kind::Integer(declared) | Kind::Dimension(declared) => declared,
        Kind::LogicalIf(_, inner) => declarators_of(inner),
        Kind::Program(_)
        | Kind::Parameter(_)
        | Kind::Assign(_, _)
        | Kind::Do(_)
        | Kind::Continue
        | Kind::If(_)
        | Kind::ElseIf(_)
        | Kind::Else
        | Kind::EndIf
        | Kind::Print(_)
        | Kind::Read(_)
        | Kind::Stop
        | Kind::End => &[],
    }
}

/// The definitions of a PARAMETER statement.
pub fn defined_by(kind: &Kind) -> &[Definition]
    ensures { map view.definition result.now ≡ spec.defined_by (view.kind kind.now) }
{
    match kind {
        Kind::Parameter(defined) => defined,
        Kind::LogicalIf(_, inner) => defined_by(inner),
        Kind::Program(_)
        | Kind::Integer(_)
        | Kind::Dimension(_)
        | Kind::Assign(_, _)
        | Kind::Do(_)
        | Kind::Continue
        | Kind::If(_)
        | Kind::ElseIf(_)
        | Kind::Else
        | Kind::EndIf
        | Kind::Print(_)
        | Kind::Read(_)
        | Kind::Stop
        | Kind::End => &[],
    }
}

/// The name that a PROGRAM statement gives.
pub fn program_named_by(kind: &Kind) -> Option<Name>
    ensures { option_map view.letters result ≡ spec.program_named_by (view.kind kind.now) }
{
    match kind {
        Kind::Program(name) => Some(*name),
        Kind::LogicalIf(_, inner) => program_named_by(inner),
        Kind::Integer(_)
        | Kind::Dimension(_)
        | Kind::Parameter(_)
        | Kind::Assign(_, _)
        | Kind::Do(_)
        | Kind::Continue
        | Kind::If(_)
        | Kind::ElseIf(_)
        | Kind::Else
        | Kind::EndIf
        | Kind::Print(_)
        | Kind::Read(_)
        | Kind::Stop
        | Kind::End => None,
    }
}

/// Takes names into a table.
#[tactic(auto, using(crate::proofs::Entries::table_laws))]
pub fn add_all(table: &mut IndexSet<Name>, names: &[Name]) -> Result<(), AllocError>
    ensures { OnOk result (map view.letters table.new.keys
        ≡ insert_all same_name (map view.letters table.old.keys) (map view.letters names.now)) }
{
    for name in names {
        table.insert(*name)?;
    }
    Ok(())
}

/// Takes names into a table, unless one of them was there: whether one was.
#[tactic(auto, using(crate::proofs::Entries::table_laws))]
pub fn add_new(table: &mut IndexSet<Name>, names: &[Name]) -> Result<bool, AllocError>
    ensures again { IfOk result (λ again. again
        ≡ taken_before (map view.letters table.old.keys) (map view.letters names.now)) }
    ensures added { IfOk result (λ again. again ≡ false → map view.letters table.new.keys
        ≡ insert_all same_name (map view.letters table.old.keys) (map view.letters names.now)) }
{
    for name in names {
        if !table.insert(*name)? {
            return Ok(true);
        }
    }
    Ok(false)
}

fn add_declarators(names: &mut Vec<Name>, declared: &[Declarator]) -> Result<(), AllocError>
    ensures { OnOk result (map view.letters names.new.items ≡ map view.letters names.old.items
        ++ spec.declarator_names (map view.declarator declared.now)) }
{
    for declarator in declared {
        names.push(declarator.name)?;
    }
    Ok(())
}

fn add_arrays(names: &mut Vec<Name>, declared: &[Declarator]) -> Result<(), AllocError>
    ensures { OnOk result (map view.letters names.new.items ≡ map view.letters names.old.items
        ++ spec.declarator_names (filter spec.has_bounds (map view.declarator declared.now))) }
{
    for declarator in declared {
        if !has_bounds(declarator) {
            continue;
        }
        names.push(declarator.name)?;
    }
    Ok(())
}

fn add_definitions(names: &mut Vec<Name>, defined: &[Definition]) -> Result<(), AllocError>
    ensures { OnOk result (map view.letters names.new.items ≡ map view.letters names.old.items
        ++ spec.definition_names (map view.definition defined.now)) }
{
    for definition in defined {
        names.push(definition.name)?;
    }
    Ok(())
}

fn add_used(names: &mut Vec<Name>, used: &[Use]) -> Result<(), AllocError>
    ensures { OnOk result (map view.letters names.new.items ≡ map view.letters names.old.items
        ++ map (λ u. u.name) (filter spec.is_name (map use_of used.now))) }
{
    for one in used {
        if is_call(one) {
            continue;
        }
        names.push(one.name)?;
    }
    Ok(())
}

/// The names that a statement gives a type.
pub fn typed_names(alloc: Global, kind: &Kind) -> Result<Vec<Name>, AllocError>
    ensures { IfOk result (λ names. map view.letters names.items
        ≡ spec.declarator_names (spec.typed_by (view.kind kind.now))) }
{
    let mut names = Vec::new(alloc);
    add_declarators(&mut names, typed_by(kind))?;
    Ok(names)
}

/// The names that a statement gives a type for the whole program; one in a logical IF gives none.
pub fn typed_at_top(alloc: Global, kind: &Kind) -> Result<Vec<Name>, AllocError>
    ensures { IfOk result (λ names. map view.letters names.items
        ≡ typed_at_top (view.kind kind.now)) }
{
    let mut names = Vec::new(alloc);
    match kind {
        Kind::Integer(declared) => add_declarators(&mut names, declared)?,
        Kind::Program(_)
        | Kind::Dimension(_)
        | Kind::Parameter(_)
        | Kind::Assign(_, _)
        | Kind::Do(_)
        | Kind::Continue
        | Kind::If(_)
        | Kind::ElseIf(_)
        | Kind::Else
        | Kind::EndIf
        | Kind::LogicalIf(_, _)
        | Kind::Print(_)
        | Kind::Read(_)
        | Kind::Stop
        | Kind::End => {}
    }
    Ok(names)
}

/// The names of the arrays and constants that a statement declares.
pub fn objects_of(alloc: Global, kind: &Kind) -> Result<Vec<Name>, AllocError>
    ensures { IfOk result (λ names. map view.letters names.items
        ≡ objects_by (view.kind kind.now)) }
{
    let mut names = Vec::new(alloc);
    add_arrays(&mut names, declarators_of(kind))?;
    add_definitions(&mut names, defined_by(kind))?;
    Ok(names)
}

/// The names that a statement declares, defines or uses.
#[tactic(auto, using(crate::proofs::Entries::appended))]
pub fn mentioned(alloc: Global, kind: &Kind, used: &[Use]) -> Result<Vec<Name>, AllocError>
    requires { map use_of used.now ≡ spec.uses (view.kind kind.now) }
    ensures { IfOk result (λ names. map view.letters names.items
        ≡ spec.names_mentioned (view.kind kind.now)) }
{
    let mut names = Vec::new(alloc);
    add_declarators(&mut names, typed_by(kind))?;
    add_declarators(&mut names, dimensioned_by(kind))?;
    add_definitions(&mut names, defined_by(kind))?;
    add_used(&mut names, used)?;
    Ok(names)
}
