//! Constant expressions, and what PARAMETER statements define.

ghost use Rattle.std.specs.Prelude.{◌≡◌, IfOk, OnOk, map};
ghost use Rattle.ast.specs.Tree.{element, terms};
ghost use Rattle.ast.specs.View as view;
ghost use Rattle.profile_check.specs.Declarations as spec;
ghost use Rattle.profile_check.specs.DeclaredView.{constants_of};
ghost use Rattle.profile_check.specs.Erasure.{ref_to};
ghost use Rattle.profile_check.specs.Rules.{is_constant, lacks_constant};

use ast::{Definition, Expr, Name};
use indexmap::IndexMap;
use std::alloc::AllocError;
use values::{apply_operator, apply_prefix, truth};

/// The values of constants.
pub type Constants = IndexMap<Name, i64>;

/// Whether a name is a constant.
#[tactic(auto, using(crate::proofs::Entries::constant_found))]
pub fn is_constant(constants: &Constants, name: Name) -> bool
    ensures { result ≡ is_constant (constants_of constants.now.entries) name.letters }
{
    constants.contains_key(&name)
}

/// The value of the constant of a name, if it is one.
#[tactic(auto, using(crate::proofs::Entries::constant_found))]
fn constant_named(constants: &Constants, name: Name) -> Option<i64>
    ensures { result ≡ spec.constant_named (constants_of constants.now.entries) name.letters }
{
    constants.get(&name).copied()
}

/// The value of a name in a constant expression: it may have no list.
#[tactic(auto, using(crate::proofs::ConstantValues::name_law, crate::proofs::ConstantValues::list_law))]
fn name_value(constants: &Constants, name: Name, list: &[Expr]) -> Option<i64>
    ensures { result ≡ spec.constant_value (constants_of constants.now.entries)
        (element (ref_to name.letters) (terms (map view.term list.now))) }
{
    match list {
        [] => constant_named(constants, name),
        [_first, _others @ ..] => None,
    }
}

/// The value of a constant expression as its text has it, if it has one. In the tree of a text a
/// call is an element still; the clause speaks of every tree, so one with a call is answered too.
#[tactic(auto, using(crate::proofs::ConstantValues::name_law, crate::proofs::ConstantValues::prefixed_law, crate::proofs::ConstantValues::binary_law))]
pub fn constant_value(constants: &Constants, expression: &Expr) -> Option<i64>
    ensures { result ≡ spec.constant_value (constants_of constants.now.entries)
        (view.term expression.now) }
{
    match expression {
        Expr::Constant(number) => Some(*number),
        Expr::Truth(holds) => Some(truth(*holds)),
        Expr::Parameter(name, _) => constant_named(constants, *name),
        Expr::Element(access) => name_value(constants, access.reference.name, &access.subscripts),
        Expr::Call(function, arguments) => { name_value(constants, function.name(), arguments) }
        Expr::Parentheses(inner) => constant_value(constants, inner),
        Expr::Unary(prefix, operand) => {
            let a = constant_value(constants, operand)?;
            apply_prefix(*prefix, a).ok()
        }
        Expr::Binary(operator, left, right) => {
            let a = constant_value(constants, left)?;
            let b = constant_value(constants, right)?;
            apply_operator(*operator, a, b).ok()
        }
    }
}

/// Takes a constant in, if it has a value.
#[tactic(auto, using(crate::proofs::Entries::constant_added))]
fn add_constant(constants: &mut Constants, name: Name, value: Option<i64>) -> Result<(), AllocError>
    ensures { OnOk result (constants_of constants.new.entries
        ≡ spec.with_constant (constants_of constants.old.entries) name.letters value) }
{
    if let Some(number) = value {
        constants.insert(name, number)?;
    }
    Ok(())
}

/// Takes in the constants that a statement defines: whether one of them has no value.
pub fn define(constants: &mut Constants, defined: &[Definition]) -> Result<bool, AllocError>
    ensures lacks { IfOk result (λ lacks. lacks
        ≡ lacks_constant (constants_of constants.old.entries) (map view.definition defined.now)) }
    ensures defined { OnOk result (constants_of constants.new.entries
        ≡ spec.with_constants (constants_of constants.old.entries)
        (map view.definition defined.now)) }
{
    let mut lacks = false;
    for definition in defined {
        let value = constant_value(constants, &definition.value);
        lacks = lacks || value.is_none();
        add_constant(constants, definition.name, value)?;
    }
    Ok(lacks)
}
