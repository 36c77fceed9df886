//! The names that a statement uses, in order of evaluation.

ghost use Rattle.std.specs.Prelude.{◌≡◌, ◌++◌, OnOk, map};
ghost use Rattle.ast.specs.Tree as tree;
ghost use Rattle.ast.specs.View as view;
ghost use Rattle.profile_check.specs.Uses as spec;
ghost use Rattle.profile_check.specs.UsesView.{use_of};

use ast::{Access, Bounds, Declarator, Definition, DoHead, Expr, Item, Kind, Name};
use std::alloc::AllocError;

/// A name in a statement.
#[derive(Clone, Copy)]
pub struct Use {
    pub name: Name,
    /// With how many subscripts or arguments it stands.
    pub count: usize,
    /// Whether it is given a value there.
    pub is_given: bool,
}

/// Appends the names of expressions.
#[cycle(uses)]
fn add_all(uses: &mut Vec<Use>, expressions: &[Expr]) -> Result<(), AllocError>
    ensures { OnOk result (map use_of uses.new.items ≡ map use_of uses.old.items
        ++ spec.terms_uses (tree.terms (map view.term expressions.now))) }
{
    for expression in expressions {
        add_term(uses, expression)?;
    }
    Ok(())
}

/// How many expressions there are.
#[tactic(auto, using(crate::proofs::Counts::count_terms))]
fn count(expressions: &[Expr]) -> usize
    ensures { result ≡ spec.count_of (tree.terms (map view.term expressions.now)) }
{
    expressions.len()
}

/// Appends the names of an element.
#[cycle(uses)]
fn add_access(uses: &mut Vec<Use>, access: &Access, is_given: bool) -> Result<(), AllocError>
    ensures { OnOk result (map use_of uses.new.items ≡ map use_of uses.old.items
        ++ spec.access_uses is_given (view.access access.now)) }
{
    add_all(uses, &access.subscripts)?;
    uses.push(Use {
        name: access.reference.name,
        count: count(&access.subscripts),
        is_given,
    })?;
    Ok(())
}

/// Appends the names of an expression.
#[cycle(uses)]
fn add_term(uses: &mut Vec<Use>, expression: &Expr) -> Result<(), AllocError>
    ensures { OnOk result (map use_of uses.new.items ≡ map use_of uses.old.items
        ++ spec.term_uses (view.term expression.now)) }
{
    match expression {
        Expr::Constant(_) => Ok(()),
        Expr::Truth(_) => Ok(()),
        Expr::Parameter(_, _) => Ok(()),
        Expr::Element(access) => add_access(uses, access, false),
        Expr::Call(_, arguments) => add_all(uses, arguments),
        Expr::Parentheses(inner) => add_term(uses, inner),
        Expr::Unary(_, operand) => add_term(uses, operand),
        Expr::Binary(_, left, right) => {
            add_term(uses, left)?;
            add_term(uses, right)
        }
    }
}

fn add_optional(uses: &mut Vec<Use>, expression: &Option<Expr>) -> Result<(), AllocError>
    ensures { OnOk result (map use_of uses.new.items ≡ map use_of uses.old.items
        ++ spec.optional_uses (view.optional_term expression.now)) }
{
    match expression {
        Some(expression) => add_term(uses, expression),
        None => Ok(()),
    }
}

fn add_bounds(uses: &mut Vec<Use>, bounds: &[Bounds]) -> Result<(), AllocError>
    ensures { OnOk result (map use_of uses.new.items ≡ map use_of uses.old.items
        ++ spec.all_uses spec.bounds_uses (map view.bounds bounds.now)) }
{
    for dimension in bounds {
        add_optional(uses, &dimension.lower)?;
        add_term(uses, &dimension.upper)?;
    }
    Ok(())
}

fn add_declarators(uses: &mut Vec<Use>, declared: &[Declarator]) -> Result<(), AllocError>
    ensures { OnOk result (map use_of uses.new.items ≡ map use_of uses.old.items
        ++ spec.all_uses spec.declarator_uses (map view.declarator declared.now)) }
{
    for declarator in declared {
        add_bounds(uses, &declarator.bounds)?;
    }
    Ok(())
}

fn add_definitions(uses: &mut Vec<Use>, defined: &[Definition]) -> Result<(), AllocError>
    ensures { OnOk result (map use_of uses.new.items ≡ map use_of uses.old.items
        ++ spec.all_uses spec.definition_uses (map view.definition defined.now)) }
{
    for definition in defined {
        add_term(uses, &definition.value)?;
    }
    Ok(())
}

fn add_items(uses: &mut Vec<Use>, items: &[Item]) -> Result<(), AllocError>
    ensures { OnOk result (map use_of uses.new.items ≡ map use_of uses.old.items
        ++ spec.all_uses spec.item_uses (map view.item items.now)) }
{
    for item in items {
        if let Item::Value(value) = item {
            add_term(uses, value)?;
        }
    }
    Ok(())
}

fn add_elements(uses: &mut Vec<Use>, elements: &[Access]) -> Result<(), AllocError>
    ensures { OnOk result (map use_of uses.new.items ≡ map use_of uses.old.items
        ++ spec.all_uses spec.given_uses (map view.access elements.now)) }
{
    for element in elements {
        add_access(uses, element, true)?;
    }
    Ok(())
}

fn add_head(uses: &mut Vec<Use>, head: &DoHead) -> Result<(), AllocError>
    ensures { OnOk result (map use_of uses.new.items ≡ map use_of uses.old.items
        ++ spec.head_uses (view.head head.now)) }
{
    add_term(uses, &head.first)?;
    add_term(uses, &head.last)?;
    add_optional(uses, &head.step)?;
    uses.push(Use {
        name: head.variable.name,
        count: 0,
        is_given: true,
    })?;
    Ok(())
}

/// Appends the names that a statement uses.
pub fn add_uses(uses: &mut Vec<Use>, kind: &Kind) -> Result<(), AllocError>
    ensures { OnOk result (map use_of uses.new.items ≡ map use_of uses.old.items
        ++ spec.uses (view.kind kind.now)) }
{
    match kind {
        Kind::Integer(declared) | Kind::Dimension(declared) => add_declarators(uses, declared),
        Kind::Parameter(defined) => add_definitions(uses, defined),
        Kind::Assign(target, value) => {
            add_term(uses, value)?;
            add_access(uses, target, true)
        }
        Kind::Do(head) => add_head(uses, head),
        Kind::If(condition) | Kind::ElseIf(condition) => add_term(uses, condition),
        Kind::LogicalIf(condition, inner) => {
            add_term(uses, condition)?;
            add_uses(uses, inner)
        }
        Kind::Print(items) => add_items(uses, items),
        Kind::Read(elements) => add_elements(uses, elements),
        Kind::Program(_) | Kind::Continue | Kind::Else | Kind::EndIf | Kind::Stop | Kind::End => {
            Ok(())
        }
    }
}
