//! The rules over a whole program.

ghost use Rattle.std.specs.Prelude.{◌≡◌, ◌<◌, ◌^◌, None, IfErr, IfOk, OnOk, map};
ghost use Rattle.indexmap.specs.IndexSet.{insert_all};
ghost use Rattle.ast.specs.Answers.{Gives, Says};
ghost use Rattle.ast.specs.Store.{same_name};
ghost use Rattle.ast.specs.View as view;
ghost use Rattle.profile_check.specs.Checking as spec;
ghost use Rattle.profile_check.specs.CheckingView.{before};
ghost use Rattle.profile_check.specs.Declarations.{declared_in};
ghost use Rattle.profile_check.specs.DeclarationsView.{declared};
ghost use Rattle.profile_check.specs.Rules.{BreaksFirst, InProfile, lower, typed_at_top};
ghost use Rattle.profile_check.specs.Rules.{typed_in_whole};

use crate::declarations::Declarations;
use crate::names::{add_all, typed_at_top};
use crate::uses::add_uses;
use ast::{Kind, Name, Refusal, Rule, Stmt};
use indexmap::IndexSet;
use std::alloc::{AllocError, Global};
use structure::Structure;

/// The statements before the next.
#[derive(Drop)]
pub struct Seen {
    structure: Structure,
    declarations: Declarations,
    count: usize,
}

/// The rule of the lower number of two, where there are any.
fn lower(left: Option<Rule>, right: Option<Rule>) -> Option<Rule>
    ensures { result ≡ lower left right }
{
    match left {
        None => right,
        Some(a) => match right {
            None => Some(a),
            Some(b) => {
                if a.number() <= b.number() {
                    Some(a)
                } else {
                    Some(b)
                }
            }
        },
    }
}

/// The lowest rule that the next statement breaks. Where it breaks none it is one of those before
/// from now on.
fn rule_broken(
    alloc: Global,
    typed: &IndexSet<Name>,
    seen: &mut Seen,
    stmt: &Stmt,
) -> Result<Option<Rule>, AllocError>
    requires { seen.old.count < 2 ^ 63 }
    ensures rule { IfOk result (λ rule. rule
        ≡ spec.rule_by (map view.letters typed.now.keys) (before seen.old)
        (view.statement stmt.now)) }
    ensures kept { IfOk result (λ rule. rule ≡ None → before seen.new
        ≡ spec.and_one (before seen.old) (view.statement stmt.now)) }
{
    let mut used = Vec::new(alloc);
    add_uses(&mut used, &stmt.kind)?;
    let own = seen
        .declarations
        .rule_broken(alloc, typed, &seen.structure, seen.count, stmt, &used)?;
    let order = seen.structure.rule_broken(stmt)?;
    seen.count += 1;
    Ok(lower(order, own))
}

/// Takes in the names that a statement gives a type for the whole program.
fn add_typed(alloc: Global, typed: &mut IndexSet<Name>, kind: &Kind) -> Result<(), AllocError>
    ensures { OnOk result (map view.letters typed.new.keys
        ≡ insert_all same_name (map view.letters typed.old.keys)
        (typed_at_top (view.kind kind.now))) }
{
    let names = typed_at_top(alloc, kind)?;
    add_all(typed, &names)
}

/// The names that INTEGER statements give a type, wherever these stand.
fn typed_anywhere(alloc: Global, stmts: &[Stmt]) -> Result<IndexSet<Name>, AllocError>
    ensures { IfOk result (λ typed. map view.letters typed.keys
        ≡ spec.table_of (typed_in_whole (map view.statement stmts.now))) }
{
    let mut typed = IndexSet::new(alloc);
    for stmt in stmts {
        add_typed(alloc, &mut typed, &stmt.kind)?;
    }
    Ok(typed)
}

/// Refuses the next statement where it breaks a rule.
fn check_statement(
    alloc: Global,
    typed: &IndexSet<Name>,
    seen: &mut Seen,
    stmt: &Stmt,
) -> Result<(), Refusal>
    requires { seen.old.count < 2 ^ 63 }
    ensures seen { OnOk result (before seen.new
        ≡ spec.and_one (before seen.old) (view.statement stmt.now)) }
    ensures rule { spec.Breaks result (view.statement stmt.now)
        (spec.rule_by (map view.letters typed.now.keys) (before seen.old)
        (view.statement stmt.now)) }
{
    match rule_broken(alloc, typed, seen, stmt)? {
        Some(rule) => Err(Refusal::Refused {
            number: rule,
            line: stmt.line,
        }),
        None => Ok(()),
    }
}

/// What is declared after the statements; refuses the first that breaks a rule.
fn check_all(
    alloc: Global,
    typed: &IndexSet<Name>,
    mut seen: Seen,
    stmts: &[Stmt],
) -> Result<Declarations, Refusal>
    requires { seen.count ≡ 0 }
    ensures { Gives declared result
        (spec.checked (map view.letters typed.now.keys) (before seen)
        (map view.statement stmts.now)) }
{
    for stmt in stmts {
        check_statement(alloc, typed, &mut seen, stmt)?;
    }
    Ok(seen.declarations)
}

/// What a program's statements declare. Refuses the first statement that breaks a rule, by the
/// lowest rule that it breaks.
pub fn check(alloc: Global, stmts: &[Stmt]) -> Result<Declarations, Refusal>
    ensures kept { IfOk result (λ d. InProfile (map view.statement stmts.now)) }
    ensures declared { IfOk result (λ d. declared d ≡ declared_in (map view.statement stmts.now)) }
    ensures refused { IfErr result (Says (BreaksFirst (map view.statement stmts.now))) }
{
    let typed = typed_anywhere(alloc, stmts)?;
    let seen = Seen {
        structure: Structure::new(alloc),
        declarations: Declarations::new(alloc),
        count: 0,
    };
    check_all(alloc, &typed, seen, stmts)
}
