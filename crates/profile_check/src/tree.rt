//! The tree of a program whose statements keep the rules.

ghost use Rattle.std.specs.Prelude.{◌≡◌, ◌+◌, ◌<◌, ◌≤◌, ◌^◌, IfOk, map};
ghost use Rattle.ast.specs.View.{node, statement};
ghost use Rattle.profile_check.specs.Nesting.{nested};
ghost use Rattle.profile_check.specs.Resolving as spec;
ghost use Rattle.profile_check.specs.ResolvingView.{table_of};

use crate::declarations::Declarations;
use crate::nesting::Nest;
use crate::resolving::resolve_kind;
use ast::{Node, Stmt};
use std::alloc::{AllocError, Global};

/// Resolves the names of a statement, its references numbered from `next` on; the number after
/// them.
fn resolve_statement(stmt: &mut Stmt, declarations: &Declarations, next: usize) -> usize
    requires { next + spec.statement_count (statement stmt.old) < 2 ^ 64 }
    ensures tree { statement stmt.new
        ≡ spec.statement_resolved (table_of declarations.now) next (statement stmt.old) }
    ensures after { result ≡ next + spec.statement_count (statement stmt.new) }
    ensures bound { result ≤ next + spec.statement_count (statement stmt.old) }
{
    resolve_kind(&mut stmt.kind, declarations, next)
}

/// The statements nested, their names resolved and their references numbered.
///
/// # Errors
///
/// `AllocError` where memory is refused.
pub fn tree(
    alloc: Global,
    stmts: Vec<Stmt>,
    declarations: &Declarations,
) -> Result<Vec<Node>, AllocError>
    requires { spec.references_in (map statement stmts.items) < 2 ^ 64 }
    ensures { IfOk result (λ nodes. map node nodes.items
        ≡ (nested (spec.statements_resolved (table_of declarations.now) 0
        (map statement stmts.items))).nodes) }
{
    let mut nest = Nest::new(alloc);
    let mut next = 0;
    for mut stmt in stmts {
        next = resolve_statement(&mut stmt, declarations, next);
        nest = nest.with_statement(alloc, stmt)?;
    }
    Ok(nest.into_nodes())
}
