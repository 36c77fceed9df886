//! What is declared so far, and the rules that a statement breaks.

ghost use Rattle.std.specs.Prelude.{◌≡◌, false, length, map, nat_lt, option_map, IfOk, OnOk};
ghost use Rattle.indexmap.specs.IndexSet.{insert_all};
ghost use Rattle.ast.specs.Store.{same_name};
ghost use Rattle.ast.specs.View as view;
ghost use Rattle.profile_check.specs.Declarations.{objects_by, with_constants};
ghost use Rattle.profile_check.specs.DeclaredView.{constants_of};
ghost use Rattle.profile_check.specs.Uses.{declarator_names, defined_by, names_mentioned, typed_by};
ghost use Rattle.structure.specs.Standing.{standing};
ghost use Rattle.profile_check.specs.Rules as spec;

use crate::arrays::{Arrays, MOST_ELEMENTS, add_arrays, crosses_bounds, lacks_bounds};
use crate::constants::{Constants, define};
use crate::kinds::is_well_kinded;
use crate::names::{
    add_all, add_new, declarators_of, defined_by, mentioned, objects_of, program_named_by,
    typed_names,
};
use crate::rules::{
    changes_active, changes_constant, has_other, is_misnamed, miscounts, names_real, opens,
};
use crate::uses::Use;
use ast::{Kind, MOST_NAMES, MOST_NESTED, MOST_STATEMENTS, Name, Rule, Stmt};
use indexmap::{IndexMap, IndexSet};
use std::alloc::{AllocError, Global};
use structure::Structure;

/// What is declared.
pub struct Declarations {
    /// The program's name.
    pub program: Option<Name>,
    /// The names that INTEGER statements give a type.
    pub typed: IndexSet<Name>,
    /// The names of arrays and constants.
    pub objects: IndexSet<Name>,
    /// The dimensions of arrays.
    pub arrays: Arrays,
    /// The values of constants.
    pub constants: Constants,
    /// How many elements the arrays have together, counted to one more than a program may have.
    pub elements: u32,
    /// All names, in order of first appearance.
    pub names: IndexSet<Name>,
}

impl Drop for Declarations {
    fn drop(self) {
        let Declarations {
            program: _,
            typed: _,
            objects: _,
            arrays: _,
            constants: _,
            elements: _,
            names: _,
        } = self;
    }
}

#[tactic(auto, using(crate::proofs::Entries::names_length))]
fn are_too_many(names: &IndexSet<Name>) -> bool
    ensures { result ≡ nat_lt spec.most_names (length (map view.letters names.now.keys)) }
{
    names.len() > MOST_NAMES
}

/// Whether a statement declares a name twice, or names something else by it; takes the names in.
fn declares_again(
    alloc: Global,
    program: Option<Name>,
    typed: &mut IndexSet<Name>,
    objects: &mut IndexSet<Name>,
    kind: &Kind,
    names: &[Name],
) -> Result<bool, AllocError>
    requires { map view.letters names.now ≡ names_mentioned (view.kind kind.now) }
    ensures again { IfOk result (λ again. again
        ≡ spec.declares_again (option_map view.letters program) (map view.letters typed.old.keys)
        (map view.letters objects.old.keys) (view.kind kind.now)) }
    ensures typed { IfOk result (λ again. again ≡ false → map view.letters typed.new.keys
        ≡ insert_all same_name (map view.letters typed.old.keys)
        (declarator_names (typed_by (view.kind kind.now)))) }
    ensures objects { IfOk result (λ again. again ≡ false → map view.letters objects.new.keys
        ≡ insert_all same_name (map view.letters objects.old.keys)
        (objects_by (view.kind kind.now))) }
{
    if add_new(typed, &typed_names(alloc, kind)?)? {
        return Ok(true);
    }
    if add_new(objects, &objects_of(alloc, kind)?)? {
        return Ok(true);
    }
    Ok(is_misnamed(program, kind) || has_other(program, names))
}

/// Whether a program with so many statements before the next, these names and so many elements is
/// too large.
fn is_larger(
    statements: usize,
    structure: &Structure,
    kind: &Kind,
    names: &IndexSet<Name>,
    elements: u128,
) -> bool
    ensures { result ≡ spec.is_larger statements (standing structure.now).opened
        (view.kind kind.now) (map view.letters names.now.keys) elements }
{
    statements >= MOST_STATEMENTS
        || opens(kind) && structure.nesting() >= MOST_NESTED
        || are_too_many(names)
        || elements > MOST_ELEMENTS
}

/// Whether a bound or a constant of a statement has no value; takes the constants in.
fn lacks_value(constants: &mut Constants, kind: &Kind) -> Result<bool, AllocError>
    ensures lacks { IfOk result (λ lacks. lacks
        ≡ spec.lacks_value (constants_of constants.old.entries) (view.kind kind.now)) }
    ensures defined { OnOk result (constants_of constants.new.entries
        ≡ with_constants (constants_of constants.old.entries) (defined_by (view.kind kind.now))) }
{
    let lacks_bound = lacks_bounds(constants, declarators_of(kind));
    let lacks_constant = define(constants, defined_by(kind))?;
    Ok(lacks_bound || lacks_constant)
}

impl Declarations {
    ghost use Rattle.std.specs.Prelude.{◌≡◌, IfOk, None, map};
    ghost use Rattle.ast.specs.View as view;
    ghost use Rattle.profile_check.specs.Counted.{counted};
    ghost use Rattle.profile_check.specs.Checking.{and_then_declared, nothing};
    ghost use Rattle.profile_check.specs.Declarations.{arrays_by};
    ghost use Rattle.profile_check.specs.DeclarationsView.{context, declared};
    ghost use Rattle.profile_check.specs.Rules as spec;
    ghost use Rattle.profile_check.specs.DeclaredView.{constants_of};
    ghost use Rattle.profile_check.specs.Uses.{bounded_by, uses};
    ghost use Rattle.profile_check.specs.UsesView.{use_of};

    /// Nothing yet.
    pub fn new(alloc: Global) -> Self
        ensures declared { declared result ≡ nothing }
        ensures elements { result.elements ≡ 0 }
    {
        Declarations {
            program: None,
            typed: IndexSet::new(alloc),
            objects: IndexSet::new(alloc),
            arrays: IndexMap::new(alloc),
            constants: IndexMap::new(alloc),
            elements: 0,
            names: IndexSet::new(alloc),
        }
    }

    /// The lowest rule of the profile that the next statement breaks. Where it breaks none it is
    /// one of those before from now on.
    pub fn rule_broken(
        &mut self,
        alloc: Global,
        typed: &IndexSet<Name>,
        structure: &Structure,
        statements: usize,
        stmt: &Stmt,
        used: &[Use],
    ) -> Result<Option<Rule>, AllocError>
        requires { map use_of used.now ≡ uses (view.kind stmt.now.kind) }
        ensures rule { IfOk result (λ rule. rule
            ≡ spec.lowest_of spec.checks (context typed.now structure.now statements self.old)
            (view.statement stmt.now)) }
        ensures kept { IfOk result (λ rule. rule ≡ None → declared self.new
            ≡ and_then_declared (declared self.old) (view.statement stmt.now)) }
        ensures elements { IfOk result (λ rule. rule ≡ None → self.new.elements
            ≡ counted self.old.elements
            (arrays_by (constants_of self.old.constants.entries)
            (bounded_by (view.kind stmt.now.kind)))) }
    {
        let kind = &stmt.kind;
        if names_real(typed, kind, used) {
            return Ok(Some(Rule::NotInteger));
        }
        let names = mentioned(alloc, kind, used)?;
        if declares_again(
            alloc,
            self.program,
            &mut self.typed,
            &mut self.objects,
            kind,
            &names,
        )? {
            return Ok(Some(Rule::DeclaredTwice));
        }
        if miscounts(&self.arrays, used) {
            return Ok(Some(Rule::WrongSubscripts));
        }
        if changes_active(structure, used) {
            return Ok(Some(Rule::ActiveVariable));
        }
        if changes_constant(&self.constants, used) {
            return Ok(Some(Rule::ChangedConstant));
        }
        if crosses_bounds(&self.constants, declarators_of(kind)) {
            return Ok(Some(Rule::CrossedBounds));
        }
        add_all(&mut self.names, &names)?;
        let elements = add_arrays(
            alloc,
            &self.constants,
            &mut self.arrays,
            u128::from(self.elements),
            declarators_of(kind),
        )?;
        if is_larger(statements, structure, kind, &self.names, elements) {
            return Ok(Some(Rule::LargeProgram));
        }
        self.elements = elements as u32;
        if lacks_value(&mut self.constants, kind)? {
            return Ok(Some(Rule::NoValue));
        }
        if !is_well_kinded(kind) {
            return Ok(Some(Rule::WrongKind));
        }
        if let Some(name) = program_named_by(kind) {
            self.program = Some(name);
        }
        Ok(None)
    }
}
