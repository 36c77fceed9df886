//! The rules of the profile, each a test of a statement.

ghost use Rattle.std.specs.Prelude.{◌≡◌, ◌&&◌, filter, map, option_map};
ghost use Rattle.std.specs.List.{list_any};
ghost use Rattle.ast.specs.View as view;
ghost use Rattle.profile_check.specs.DeclaredView.{arrays_of, constants_of};
ghost use Rattle.profile_check.specs.Rules as spec;
ghost use Rattle.profile_check.specs.Uses as uses;
ghost use Rattle.profile_check.specs.UsesView.{use_of};
ghost use Rattle.structure.specs.Open.{is_active};
ghost use Rattle.structure.specs.Standing.{standing};

use crate::arrays::{Arrays, rank};
use crate::constants::{Constants, is_constant};
use crate::names::{defined_by, dimensioned_by, is_call, is_intrinsic, program_named_by};
use crate::uses::Use;
use ast::{Declarator, Definition, Kind, Name};
use indexmap::IndexSet;
use structure::Structure;

/// Whether the first letter is one of I to N.
fn begins_i_to_n(name: &Name) -> bool
    ensures { result ≡ spec.begins_i_to_n name.now.letters }
{
    matches!(name.letters[0], b'I'..=b'N')
}

#[tactic(auto, using(crate::proofs::Entries::table_laws))]
fn is_integer(typed: &IndexSet<Name>, name: &Name) -> bool
    ensures { result ≡ spec.is_integer (map view.letters typed.now.keys) name.now.letters }
{
    begins_i_to_n(name) || typed.contains(name)
}

fn declares_real(typed: &IndexSet<Name>, declared: &[Declarator]) -> bool
    ensures { result ≡ spec.are_real (map view.letters typed.now.keys)
        (uses.declarator_names (map view.declarator declared.now)) }
{
    for declarator in declared {
        if !is_integer(typed, &declarator.name) {
            return true;
        }
    }
    false
}

fn defines_real(typed: &IndexSet<Name>, defined: &[Definition]) -> bool
    ensures { result ≡ spec.are_real (map view.letters typed.now.keys)
        (uses.definition_names (map view.definition defined.now)) }
{
    for definition in defined {
        if !is_integer(typed, &definition.name) {
            return true;
        }
    }
    false
}

fn uses_real(typed: &IndexSet<Name>, used: &[Use]) -> bool
    ensures { result ≡ spec.are_real (map view.letters typed.now.keys)
        (map (λ u. u.name) (filter uses.is_name (map use_of used.now))) }
{
    for one in used {
        if !is_call(one) && !is_integer(typed, &one.name) {
            return true;
        }
    }
    false
}

/// The functions of one argument.
const OF_ONE: [[u8; 6]; 2] = [*b"ABS   ", *b"IABS  "];

fn takes_one(name: &Name) -> bool
    ensures { result ≡ uses.takes_one name.now.letters }
{
    OF_ONE.iter().any(|function| name.letters == *function)
}

fn takes_two(name: &Name) -> bool
    ensures { result ≡ uses.takes_two name.now.letters }
{
    name.letters == *b"MOD   "
}

/// Whether a call has as many arguments as its function takes.
fn has_its_arguments(one: &Use) -> bool
    ensures { result ≡ uses.has_its_arguments (use_of one.now) }
{
    if takes_one(&one.name) {
        one.count == 1
    } else if takes_two(&one.name) {
        one.count == 2
    } else {
        one.count >= 2
    }
}

/// Whether a name has subscripts or arguments in another number than it should.
fn is_miscounted(arrays: &Arrays, one: &Use) -> bool
    ensures { result ≡ spec.is_miscounted (arrays_of arrays.now.entries) (use_of one.now) }
{
    if is_call(one) {
        !has_its_arguments(one)
    } else {
        one.count != rank(arrays, one.name)
    }
}

/// Whether a name of a statement has subscripts or arguments in another number.
pub fn miscounts(arrays: &Arrays, used: &[Use]) -> bool
    ensures { result ≡ list_any (spec.is_miscounted (arrays_of arrays.now.entries))
        (map use_of used.now) }
{
    for one in used {
        if is_miscounted(arrays, one) {
            return true;
        }
    }
    false
}

/// Whether a statement names what is not integer.
pub fn names_real(typed: &IndexSet<Name>, kind: &Kind, used: &[Use]) -> bool
    requires { map use_of used.now ≡ uses.uses (view.kind kind.now) }
    ensures { result ≡ spec.names_real (map view.letters typed.now.keys) (view.kind kind.now) }
{
    declares_real(typed, dimensioned_by(kind))
        || defines_real(typed, defined_by(kind))
        || uses_real(typed, used)
}

/// Whether a statement gives an active DO variable a value.
pub fn changes_active(structure: &Structure, used: &[Use]) -> bool
    ensures { result ≡ list_any (λ u. u.is_given
        && is_active (standing structure.now).opened u.name) (map use_of used.now) }
{
    for one in used {
        if one.is_given && structure.is_active(one.name) {
            return true;
        }
    }
    false
}

/// Whether a statement gives a constant a value.
pub fn changes_constant(constants: &Constants, used: &[Use]) -> bool
    ensures { result ≡ list_any (λ u. u.is_given
        && spec.is_constant (constants_of constants.now.entries) u.name) (map use_of used.now) }
{
    for one in used {
        if one.is_given && is_constant(constants, one.name) {
            return true;
        }
    }
    false
}

/// Whether a statement opens a range or a block.
pub fn opens(kind: &Kind) -> bool
    ensures { result ≡ spec.opens (view.kind kind.now) }
{
    match kind {
        Kind::Do(_) | Kind::If(_) => true,
        Kind::Program(_)
        | Kind::Integer(_)
        | Kind::Dimension(_)
        | Kind::Parameter(_)
        | Kind::Assign(_, _)
        | Kind::Continue
        | Kind::ElseIf(_)
        | Kind::Else
        | Kind::EndIf
        | Kind::LogicalIf(_, _)
        | Kind::Print(_)
        | Kind::Read(_)
        | Kind::Stop
        | Kind::End => false,
    }
}

/// Whether a name is that of an intrinsic function or of the program.
fn is_other(program: Option<Name>, name: &Name) -> bool
    ensures { result ≡ spec.is_other (option_map view.letters program) name.now.letters }
{
    if is_intrinsic(name) {
        return true;
    }
    match program {
        Some(program) => *name == program,
        None => false,
    }
}

/// Whether one of the names is that of an intrinsic function or of the program.
pub fn has_other(program: Option<Name>, names: &[Name]) -> bool
    ensures { result ≡ list_any (spec.is_other (option_map view.letters program))
        (map view.letters names.now) }
{
    for name in names {
        if is_other(program, name) {
            return true;
        }
    }
    false
}

/// Whether a program is named like an intrinsic function or another program.
pub fn is_misnamed(program: Option<Name>, kind: &Kind) -> bool
    ensures { result ≡ spec.is_some_and (spec.is_other (option_map view.letters program))
        (uses.program_named_by (view.kind kind.now)) }
{
    match program_named_by(kind) {
        Some(name) => is_other(program, &name),
        None => false,
    }
}
