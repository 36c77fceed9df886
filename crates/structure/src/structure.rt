//! The rules on order, labels, ranges and blocks, statement by statement.

ghost use Rattle.std.specs.Prelude.{◌≡◌, ◌&&◌, Bool, false, IfOk, List, ℕ, nat_eq, option_to_list};
ghost use Rattle.std.specs.List.{list_any};
ghost use Rattle.indexmap.specs.IndexSet.{insert_all};
ghost use Rattle.ast.specs.View.{statement};
ghost use Rattle.structure.specs.Open as spec;
ghost use Rattle.structure.specs.Rules.{breaks_blocks, by_label, crosses, ends_wrongly};
ghost use Rattle.structure.specs.Rules.{is_some_and};
ghost use Rattle.structure.specs.View.{opened};
ghost use Rattle.std.specs.Prelude.{map, OnOk};

use crate::kinds::{
    holds_wrong_statement, is_declaration, is_end, is_program, may_not_end_a_range, part_of,
};
use crate::opened::{
    Open, begin, begins_with_range, end_ranges, has_range_of, has_variable, is_around_block,
    is_around_range, is_misplaced_arm,
};
use ast::{Label, Name, Rule, Stmt};
use indexmap::IndexSet;
use std::alloc::{AllocError, Global};

/// What the statements so far say of the order of those that follow.
pub struct Structure {
    begun: bool,
    executable: bool,
    /// The innermost first.
    opened: Vec<Open>,
    labels: IndexSet<Label>,
}

impl Drop for Structure {
    fn drop(self) {
        let Structure {
            begun: _,
            executable: _,
            opened: _,
            labels: _,
        } = self;
    }
}

/// The label that ends a range, if the statement has one; END ends none.
fn terminal_label(stmt: &Stmt) -> Option<Label>
    ensures { (test : ℕ → List spec.Open → Bool) (around : List spec.Open)
        → is_some_and (λ label. test label around) result
        ≡ by_label test around (statement stmt.now) }
{
    if is_end(&stmt.kind) { None } else { stmt.label }
}

/// Whether a statement ends an outer range while an inner one is open, or is END in a range.
fn crosses(structures: &[Open], stmt: &Stmt) -> bool
    ensures { result ≡ crosses (map opened structures.now) (statement stmt.now) }
{
    let is_crossed = match terminal_label(stmt) {
        Some(label) => is_around_range(structures, label),
        None => false,
    };
    is_crossed || is_end(&stmt.kind) && begins_with_range(structures)
}

/// Whether a statement ends a range that it may not end.
fn ends_wrongly(structures: &[Open], stmt: &Stmt) -> bool
    ensures { result ≡ ends_wrongly (map opened structures.now) (statement stmt.now) }
{
    match terminal_label(stmt) {
        Some(label) => may_not_end_a_range(&stmt.kind) && has_range_of(structures, label),
        None => false,
    }
}

/// Whether a statement breaks the rules of IF blocks.
fn breaks_blocks(structures: &[Open], stmt: &Stmt) -> bool
    ensures { result ≡ breaks_blocks (map opened structures.now) (statement stmt.now) }
{
    let is_inside = match terminal_label(stmt) {
        Some(label) => is_around_block(structures, label),
        None => false,
    };
    is_misplaced_arm(&stmt.kind, structures) || is_inside || holds_wrong_statement(&stmt.kind)
}

/// Takes a label into the labels, unless it was there: whether it was.
fn add_label(labels: &mut IndexSet<Label>, label: Option<Label>) -> Result<bool, AllocError>
    ensures again { IfOk result (λ again. again
        ≡ is_some_and (λ l. list_any (nat_eq l) labels.old.keys) label) }
    ensures added { IfOk result (λ again. again ≡ false → labels.new.keys
        ≡ insert_all nat_eq labels.old.keys (option_to_list label)) }
{
    match label {
        Some(label) => Ok(!labels.insert(label)?),
        None => Ok(false),
    }
}

/// What a statement ends and opens, its label first.
#[tactic(auto, using(crate::proofs::Parts::begun_is))]
fn go_on(structures: &mut Vec<Open>, stmt: &Stmt) -> Result<(), AllocError>
    ensures { OnOk result (map opened structures.new.items
        ≡ spec.after (map opened structures.old.items) (statement stmt.now)) }
{
    if let Some(label) = stmt.label {
        end_ranges(structures, label);
    }
    begin(structures, part_of(&stmt.kind))
}

impl Structure {
    ghost use Rattle.std.specs.Prelude.{◌≡◌, ◌&&◌, ◌||◌, IfOk, None, [], length};
    ghost use Rattle.structure.specs.Rules.{is_declaration, is_program};
    ghost use Rattle.structure.specs.Open.{is_active};
    ghost use Rattle.ast.specs.View.{statement};
    ghost use Rattle.structure.specs.Standing.{next, rule_by, rule_of_label, standing};
    ghost use Rattle.structure.specs.Standing.{standing_after};

    /// Nothing yet.
    pub fn new(alloc: Global) -> Self
        ensures { standing result ≡ standing_after [] }
    {
        Structure {
            begun: false,
            executable: false,
            opened: Vec::new(alloc),
            labels: IndexSet::new(alloc),
        }
    }

    /// How many ranges and blocks are open.
    #[tactic(auto, using(crate::proofs::Agreement::opened_length))]
    pub fn nesting(&self) -> usize
        ensures { result ≡ length (standing self.now).opened }
    {
        self.opened.len()
    }

    /// Whether a name is the DO variable of an open range.
    pub fn is_active(&self, name: Name) -> bool
        ensures { result ≡ is_active (standing self.now).opened name.letters }
    {
        has_variable(&self.opened, name)
    }

    /// Whether a statement is PROGRAM and not the first, or a declaration behind an executable one.
    fn is_out_of_order(&self, stmt: &Stmt) -> bool
        ensures { result ≡ (is_program (statement stmt.now).kind && self.now.begun)
            || (is_declaration (statement stmt.now).kind && self.now.executable) }
    {
        is_program(&stmt.kind) && self.begun || is_declaration(&stmt.kind) && self.executable
    }

    /// Takes in a statement, unless it breaks `RepeatedLabel`: its label was there.
    fn take_in(&mut self, stmt: &Stmt) -> Result<Option<Rule>, AllocError>
        ensures rule { IfOk result (λ rule. rule
            ≡ rule_of_label (standing self.old) (statement stmt.now)) }
        ensures kept { IfOk result (λ rule. rule ≡ None → standing self.new
            ≡ next (standing self.old) (statement stmt.now)) }
    {
        if add_label(&mut self.labels, stmt.label)? {
            return Ok(Some(Rule::RepeatedLabel));
        }
        go_on(&mut self.opened, stmt)?;
        self.begun = true;
        self.executable = self.executable || !is_program(&stmt.kind) && !is_declaration(&stmt.kind);
        Ok(None)
    }

    /// The rule of the lowest number that the next statement breaks: `OutOfOrder` (30), `OpenLoop`
    /// (34), `WrongTerminal` (35), `CrossedBlocks` (36) or `RepeatedLabel` (41). Where it breaks
    /// none it is one of those before from now on.
    pub fn rule_broken(&mut self, stmt: &Stmt) -> Result<Option<Rule>, AllocError>
        ensures rule { IfOk result (λ rule. rule
            ≡ rule_by (standing self.old) (statement stmt.now)) }
        ensures kept { IfOk result (λ rule. rule ≡ None → standing self.new
            ≡ next (standing self.old) (statement stmt.now)) }
    {
        if self.is_out_of_order(stmt) {
            return Ok(Some(Rule::OutOfOrder));
        }
        if crosses(&self.opened, stmt) {
            return Ok(Some(Rule::OpenLoop));
        }
        if ends_wrongly(&self.opened, stmt) {
            return Ok(Some(Rule::WrongTerminal));
        }
        if breaks_blocks(&self.opened, stmt) {
            return Ok(Some(Rule::CrossedBlocks));
        }
        self.take_in(stmt)
    }
}
