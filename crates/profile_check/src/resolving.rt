//! What the names of a tree stand for, and the numbers of its references.

ghost use Rattle.std.specs.Prelude.{◌≡◌, ◌+◌, ◌<◌, ◌≤◌, ◌^◌, length, map, []};
ghost use Rattle.ast.specs.Tree.{terms};
ghost use Rattle.ast.specs.View.{access as access_of, head as head_of, item as item_of};
ghost use Rattle.ast.specs.View.{kind as kind_of, letters, optional_term, ref, term};
ghost use Rattle.profile_check.specs.Resolving as spec;
ghost use Rattle.profile_check.specs.Declarations.{constant_named};
ghost use Rattle.profile_check.specs.ResolvingView.{all_at, alone_at, count_in, count_items};
ghost use Rattle.profile_check.specs.ResolvingView.{count_listed, count_named, count_targets};
ghost use Rattle.profile_check.specs.ResolvingView.{count_terms_in};
ghost use Rattle.profile_check.specs.ResolvingView.{head_at, item_at, items_at, kind_at, named};
ghost use Rattle.profile_check.specs.ResolvingView.{named_at, optional_at, resolved_at};
ghost use Rattle.profile_check.specs.ResolvingView.{table_of, target_at, targets_at, terms_at};
ghost use Rattle.profile_check.specs.ResolvingView.{written_at};

use crate::declarations::Declarations;
use ast::{Access, DoHead, Expr, Intrinsic, Item, Kind, Name, RefId, Reference};

/// Numbers a reference.
fn number(reference: &mut Reference, declarations: &Declarations, next: usize)
    ensures { ref reference.new
        ≡ spec.numbered (table_of declarations.now) next (ref reference.old) }
{
    reference.id = RefId(next);
    reference.cell = declarations
        .names
        .get_index_of(&reference.name)
        .unwrap_or(0);
}

/// The constant of a name.
#[tactic(auto, using(crate::proofs::Entries::constant_found))]
fn constant_of(declarations: &Declarations, name: &Name) -> Option<i64>
    ensures { result ≡ constant_named (table_of declarations.now).constants name.now.letters }
{
    declarations.constants.get(name).copied()
}

/// A name alone: what it is where it is a constant, and otherwise a variable, numbered; the number
/// after it.
fn resolve_alone(
    access: &mut Access,
    declarations: &Declarations,
    next: usize,
) -> (Option<Expr>, usize)
    requires bounded { next + 1 < 2 ^ 64 }
    requires empty { access.old.subscripts.items ≡ [] }
    ensures tree { named access.new result.0 ≡ alone_at declarations.now next access.old.reference }
    ensures after { result.1 ≡ next + count_named access.new result.0 }
    ensures bound { result.1 ≤ next + 1 }
{
    match constant_of(declarations, &access.reference.name) {
        Some(value) => (Some(Expr::Parameter(access.reference.name, value)), next),
        None => {
            number(&mut access.reference, declarations, next);
            (None, next + 1)
        }
    }
}

/// Takes a list out of its place.
fn taken(place: &mut Vec<Expr>) -> Vec<Expr>
    ensures { result.items ≡ place.old.items }
{
    let none = Vec::new(*place.allocator());
    std::mem::replace(place, none)
}

/// A name whose list behind it is resolved: a call, and otherwise an element, numbered; the number
/// after it.
fn resolve_name(
    access: &mut Access,
    declarations: &Declarations,
    next: usize,
) -> (Option<Expr>, usize)
    requires { next + 1 < 2 ^ 64 }
    ensures tree { named access.new result.0 ≡ named_at declarations.now next access.old }
    ensures after { result.1 + count_listed access.old ≡ next + count_named access.new result.0 }
    ensures bound { result.1 ≤ next + 1 }
{
    match Intrinsic::named(&access.reference.name) {
        Some(intrinsic) => {
            let arguments = taken(&mut access.subscripts);
            (Some(Expr::Call(intrinsic, arguments)), next)
        }
        None => {
            number(&mut access.reference, declarations, next);
            (None, next + 1)
        }
    }
}

/// Resolves an expression in its place, its references numbered from `next` on; the number after
/// them.
#[cycle(resolve)]
fn resolve(expression: &mut Expr, declarations: &Declarations, next: usize) -> usize
    requires { next + spec.count (term expression.old) < 2 ^ 64 }
    ensures tree { term expression.new ≡ resolved_at declarations.now next (term expression.old) }
    ensures after { result ≡ next + spec.count (term expression.new) }
    ensures bound { result ≤ next + spec.count (term expression.old) }
{
    match expression {
        Expr::Constant(_) | Expr::Truth(_) | Expr::Parameter(_, _) => next,
        Expr::Element(access) => {
            let (other, after) = resolve_element(access, declarations, next);
            if let Some(other) = other {
                *expression = other;
            }
            after
        }
        Expr::Call(_, arguments) => resolve_terms(arguments, declarations, next),
        Expr::Parentheses(inner) => resolve_box(inner, declarations, next),
        Expr::Unary(_, operand) => resolve_box(operand, declarations, next),
        Expr::Binary(_, left, right) => {
            let between = resolve_box(left, declarations, next);
            resolve_box(right, declarations, between)
        }
    }
}

/// Resolves an expression in its box; the number after its references.
#[cycle(resolve)]
fn resolve_box(place: &mut Box<Expr>, declarations: &Declarations, next: usize) -> usize
    requires { next + spec.count (term place.old.value) < 2 ^ 64 }
    ensures tree { term place.new.value ≡ resolved_at declarations.now next (term place.old.value) }
    ensures after { result ≡ next + spec.count (term place.new.value) }
    ensures bound { result ≤ next + spec.count (term place.old.value) }
{
    resolve(place, declarations, next)
}

/// A name with a list behind it: a call, and otherwise an element, numbered; the number after it.
#[cycle(resolve)]
#[tactic(auto, using(crate::proofs::Positions::list_element))]
fn resolve_listed(
    access: &mut Access,
    declarations: &Declarations,
    next: usize,
) -> (Option<Expr>, usize)
    requires few { next + count_listed access.old + 1 < 2 ^ 64 }
    requires some { 0 < length access.old.subscripts.items }
    ensures tree { named access.new result.0 ≡ written_at declarations.now next access.old }
    ensures after { result.1 ≡ next + count_named access.new result.0 }
    ensures bound { result.1 ≤ next + count_listed access.old + 1 }
{
    let after = resolve_terms(&mut access.subscripts, declarations, next);
    resolve_name(access, declarations, after)
}

/// A name with what stands behind it in parentheses: what it is where it is a constant or a call,
/// and otherwise a variable or an element, numbered; the number after it.
#[cycle(resolve)]
fn resolve_element(
    access: &mut Access,
    declarations: &Declarations,
    next: usize,
) -> (Option<Expr>, usize)
    requires { next + count_listed access.old + 1 < 2 ^ 64 }
    ensures tree { named access.new result.0 ≡ written_at declarations.now next access.old }
    ensures after { result.1 ≡ next + count_named access.new result.0 }
    ensures bound { result.1 ≤ next + count_listed access.old + 1 }
{
    if access.subscripts.is_empty() {
        resolve_alone(access, declarations, next)
    } else {
        resolve_listed(access, declarations, next)
    }
}

/// Resolves expressions in their places, their references numbered from `next` on; the number after
/// them.
#[cycle(resolve)]
fn resolve_all(list: &mut [Expr], declarations: &Declarations, next: usize) -> usize
    requires { next + count_in list.old < 2 ^ 64 }
    ensures tree { map term list.new ≡ all_at declarations.now next list.old }
    ensures after { result ≡ next + count_in list.new }
    ensures bound { result ≤ next + count_in list.old }
{
    let mut after = next;
    for place in list.iter_mut() {
        after = resolve(place, declarations, after);
    }
    after
}

/// Resolves expressions in their list; the number after their references.
#[cycle(resolve)]
#[tactic(auto, using(crate::proofs::Turns::written_back))]
fn resolve_list(list: &mut Vec<Expr>, declarations: &Declarations, next: usize) -> usize
    requires { next + count_in list.old.items < 2 ^ 64 }
    ensures tree { map term list.new.items ≡ all_at declarations.now next list.old.items }
    ensures after { result ≡ next + count_in list.new.items }
    ensures bound { result ≤ next + count_in list.old.items }
{
    resolve_all(list, declarations, next)
}

/// The same, as the subscripts of an element or the arguments of a call.
#[cycle(resolve)]
#[tactic(auto, using(crate::proofs::Positions::list_law, crate::proofs::Positions::count_law, crate::proofs::Weights::weight_law))]
fn resolve_terms(list: &mut Vec<Expr>, declarations: &Declarations, next: usize) -> usize
    requires { next + count_terms_in list.old.items < 2 ^ 64 }
    ensures tree { terms (map term list.new.items) ≡ terms_at declarations.now next list.old.items }
    ensures after { result ≡ next + count_terms_in list.new.items }
    ensures bound { result ≤ next + count_terms_in list.old.items }
{
    resolve_list(list, declarations, next)
}

/// Resolves an optional expression in its place; the number after its references.
fn resolve_optional(given: &mut Option<Expr>, declarations: &Declarations, next: usize) -> usize
    requires { next + spec.count_optional (optional_term given.old) < 2 ^ 64 }
    ensures tree { optional_term given.new ≡ optional_at declarations.now next given.old }
    ensures after { result ≡ next + spec.count_optional (optional_term given.new) }
    ensures bound { result ≤ next + spec.count_optional (optional_term given.old) }
{
    match given {
        Some(expression) => resolve(expression, declarations, next),
        None => next,
    }
}

/// Resolves a variable or an element that is given a value; the number after its references.
fn resolve_target(target: &mut Access, declarations: &Declarations, next: usize) -> usize
    requires { next + spec.access_count (access_of target.old) < 2 ^ 64 }
    ensures tree { access_of target.new ≡ target_at declarations.now next target.old }
    ensures after { result ≡ next + spec.access_count (access_of target.new) }
    ensures bound { result ≤ next + spec.access_count (access_of target.old) }
{
    let after = resolve_terms(&mut target.subscripts, declarations, next);
    number(&mut target.reference, declarations, after);
    after + 1
}

/// Resolves the elements of a READ in their places; the number after their references.
fn resolve_targets(targets: &mut [Access], declarations: &Declarations, next: usize) -> usize
    requires { next + count_targets targets.old < 2 ^ 64 }
    ensures tree { map access_of targets.new ≡ targets_at declarations.now next targets.old }
    ensures after { result ≡ next + count_targets targets.new }
    ensures bound { result ≤ next + count_targets targets.old }
{
    let mut after = next;
    for place in targets.iter_mut() {
        after = resolve_target(place, declarations, after);
    }
    after
}

/// Resolves an item of a PRINT; the number after its references.
fn resolve_item(item: &mut Item, declarations: &Declarations, next: usize) -> usize
    requires { next + spec.item_count (item_of item.old) < 2 ^ 64 }
    ensures tree { item_of item.new ≡ item_at declarations.now next item.old }
    ensures after { result ≡ next + spec.item_count (item_of item.new) }
    ensures bound { result ≤ next + spec.item_count (item_of item.old) }
{
    match item {
        Item::Value(expression) => resolve(expression, declarations, next),
        Item::Text(_) => next,
    }
}

/// Resolves the items of a PRINT in their places; the number after their references.
fn resolve_items(items: &mut [Item], declarations: &Declarations, next: usize) -> usize
    requires { next + count_items items.old < 2 ^ 64 }
    ensures tree { map item_of items.new ≡ items_at declarations.now next items.old }
    ensures after { result ≡ next + count_items items.new }
    ensures bound { result ≤ next + count_items items.old }
{
    let mut after = next;
    for place in items.iter_mut() {
        after = resolve_item(place, declarations, after);
    }
    after
}

/// Resolves what a PRINT has; the number after its references.
#[tactic(auto, using(crate::proofs::Turns::written_back))]
fn resolve_printed(items: &mut Vec<Item>, declarations: &Declarations, next: usize) -> usize
    requires { next + count_items items.old.items < 2 ^ 64 }
    ensures tree { map item_of items.new.items ≡ items_at declarations.now next items.old.items }
    ensures after { result ≡ next + count_items items.new.items }
    ensures bound { result ≤ next + count_items items.old.items }
{
    resolve_items(items, declarations, next)
}

/// Resolves what a READ gives values; the number after its references.
#[tactic(auto, using(crate::proofs::Turns::written_back))]
fn resolve_read(targets: &mut Vec<Access>, declarations: &Declarations, next: usize) -> usize
    requires { next + count_targets targets.old.items < 2 ^ 64 }
    ensures tree { map access_of targets.new.items
        ≡ targets_at declarations.now next targets.old.items }
    ensures after { result ≡ next + count_targets targets.new.items }
    ensures bound { result ≤ next + count_targets targets.old.items }
{
    resolve_targets(targets, declarations, next)
}

/// Resolves the head of a DO; the number after its references.
fn resolve_head(head: &mut DoHead, declarations: &Declarations, next: usize) -> usize
    requires { next + spec.head_count (head_of head.old) < 2 ^ 64 }
    ensures tree { head_of head.new ≡ head_at declarations.now next head.old }
    ensures after { result ≡ next + spec.head_count (head_of head.new) }
    ensures bound { result ≤ next + spec.head_count (head_of head.old) }
{
    let behind_first = resolve(&mut head.first, declarations, next);
    let behind_last = resolve(&mut head.last, declarations, behind_first);
    let after = resolve_optional(&mut head.step, declarations, behind_last);
    number(&mut head.variable, declarations, after);
    after + 1
}

/// Resolves the names of what a statement does, its references numbered from `next` on; the number
/// after them.
#[cycle(resolve_kind)]
pub fn resolve_kind(kind: &mut Kind, declarations: &Declarations, next: usize) -> usize
    requires { next + spec.kind_count (kind_of kind.old) < 2 ^ 64 }
    ensures tree { kind_of kind.new ≡ kind_at declarations.now next kind.old }
    ensures after { result ≡ next + spec.kind_count (kind_of kind.new) }
    ensures bound { result ≤ next + spec.kind_count (kind_of kind.old) }
{
    match kind {
        Kind::Assign(target, value) => {
            let between = resolve(value, declarations, next);
            resolve_target(target, declarations, between)
        }
        Kind::Do(head) => resolve_head(head, declarations, next),
        Kind::If(condition) => resolve(condition, declarations, next),
        Kind::ElseIf(condition) => resolve(condition, declarations, next),
        Kind::LogicalIf(condition, inner) => {
            let between = resolve(condition, declarations, next);
            resolve_inner(inner, declarations, between)
        }
        Kind::Print(items) => resolve_printed(items, declarations, next),
        Kind::Read(targets) => resolve_read(targets, declarations, next),
        Kind::Program(_)
        | Kind::Integer(_)
        | Kind::Dimension(_)
        | Kind::Parameter(_)
        | Kind::Continue
        | Kind::Else
        | Kind::EndIf
        | Kind::Stop
        | Kind::End => next,
    }
}

/// Resolves the statement of a logical IF in its box; the number after its references.
#[cycle(resolve_kind)]
fn resolve_inner(place: &mut Box<Kind>, declarations: &Declarations, next: usize) -> usize
    requires { next + spec.kind_count (kind_of place.old.value) < 2 ^ 64 }
    ensures tree { kind_of place.new.value ≡ kind_at declarations.now next place.old.value }
    ensures after { result ≡ next + spec.kind_count (kind_of place.new.value) }
    ensures bound { result ≤ next + spec.kind_count (kind_of place.old.value) }
{
    resolve_kind(place, declarations, next)
}
