//! The relation of two references.

ghost use Rattle.std.specs.Prelude.{◌≡◌, ◌+◌, ◌<◌, ◌^◌, length, map, true};
ghost use Rattle.ast.specs.Tree.{terms};
ghost use Rattle.ast.specs.View.{term};
ghost use Rattle.dependence.specs.Tests as spec;
ghost use Rattle.loop_tree.specs.TreeView.{seen};
ghost use Rattle.loop_tree.specs.View.{occurrence};
ghost use Rattle.subscripts.specs.Forms.{form_of};
ghost use Rattle.subscripts.specs.View.{form_in};

use crate::compare::tested;
use crate::relation::Relation;
use ast::{Expr, RefId};
use loop_tree::{LoopView, Occurrence};
use subscripts::{Affine, affine};

/// What the forms of one dimension give.
pub fn by_forms(
    view: &LoopView<'_, '_>,
    dimension: usize,
    first: &Affine,
    second: &Affine,
) -> Relation
    ensures { result ≡ spec.dimension (seen view.now) dimension (form_in first.now)
        (form_in second.now) }
{
    match first {
        Affine::Form(first) => match second {
            Affine::Form(second) => tested(view, dimension, first, second),
            Affine::NotAffine => Relation::Any,
        },
        Affine::NotAffine => Relation::Any,
    }
}

/// What one dimension gives.
fn by_dimension(view: &LoopView<'_, '_>, dimension: usize, first: &Expr, second: &Expr) -> Relation
    ensures { result ≡ spec.dimension (seen view.now) dimension
        (form_of (seen view.now) (term first.now)) (form_of (seen view.now) (term second.now)) }
{
    by_forms(view, dimension, &affine(first, view), &affine(second, view))
}

/// What one dimension gives, before what those behind it give.
pub fn before(relation: Relation, rest: Relation) -> Relation
    ensures { result ≡ spec.before relation rest }
{
    match relation {
        Relation::Apart(_, _) => relation,
        Relation::Distance(_, _) => match rest {
            Relation::Apart(_, _) => rest,
            Relation::Distance(_, _) | Relation::Any => relation,
        },
        Relation::Any => rest,
    }
}

/// What the dimensions from one on give.
fn by_dimensions(
    view: &LoopView<'_, '_>,
    dimension: usize,
    first: &[Expr],
    second: &[Expr],
) -> Relation
    requires { dimension + length first.now < 2 ^ 64 }
    ensures { result ≡ spec.dimensions (seen view.now) dimension (terms (map term first.now))
        (terms (map term second.now)) }
{
    match first {
        [] => Relation::Any,
        [a, others @ ..] => match second {
            [] => Relation::Any,
            [b, rest @ ..] => before(
                by_dimension(view, dimension, a, b),
                by_dimensions(view, dimension + 1, others, rest),
            ),
        },
    }
}

fn by_occurrences(
    view: &LoopView<'_, '_>,
    first: &Occurrence<'_>,
    second: &Occurrence<'_>,
) -> Relation
    ensures { result ≡ spec.relation (seen view.now) (occurrence first.now)
        (occurrence second.now) }
{
    by_dimensions(view, 1, first.subscripts, second.subscripts)
}

fn found(view: &LoopView<'_, '_>, a: RefId, b: RefId) -> Relation
    ensures { result ≡ spec.related (seen view.now) a.0 b.0 }
{
    match view.reference(a) {
        Some(a) => match view.reference(b) {
            Some(b) => by_occurrences(view, &a, &b),
            None => Relation::Any,
        },
        None => Relation::Any,
    }
}

/// The relation of the reference `a` in an iteration to the reference `b` in a later one: of one
/// name, and both in the loop's range; `Any` of what isn't in it. Dimensions are numbered from 1.
/// The first that shows them apart decides, otherwise the first that gives a distance. `verify`
/// says yes to it.
pub fn relate(view: &LoopView<'_, '_>, a: RefId, b: RefId) -> Relation
    ensures exact { result ≡ spec.related (seen view.now) a.0 b.0 }
    ensures agreed { spec.verified (seen view.now) a.0 b.0 result ≡ true }
{
    found(view, a, b)
}
