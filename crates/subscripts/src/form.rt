//! Affine forms.

ghost use Rattle.std.specs.Prelude.{◌≡◌, IfSome, [], map, option_map};
ghost use Rattle.loop_tree.specs.TreeView.{seen};
ghost use Rattle.subscripts.specs.Forms as spec;
ghost use Rattle.subscripts.specs.Forms.{times_share};
ghost use Rattle.subscripts.specs.SharesView.{share as share_of};
ghost use Rattle.subscripts.specs.Steps.{put_each, put_sums, times_step, total_step};
ghost use Rattle.subscripts.specs.View.{form};

use crate::shares::{Share, product, put_sums, put_times, share_varying, total};
use ast::Operator;
use loop_tree::LoopView;
use smallvec::SmallVec;
use std::alloc::Global;

/// The affine form of a subscript: the constant, the coefficient times the loop's variable, and the
/// shares of other scalars, all of factors other than 0.
#[derive(Drop)]
pub struct Form {
    pub constant: i64,
    pub coefficient: i64,
    /// Of each scalar one at most, 8 in all.
    pub shares: SmallVec<Share, 8>,
}

/// The affine form of a subscript in a loop, if it has one.
#[derive(Drop)]
pub enum Affine {
    Form(Form),
    NotAffine,
}

/// The form of a number.
pub fn number_form(alloc: Global, number: i64) -> Form
    ensures value { form result ≡ spec.number_form number }
    ensures capacity { result.shares.capacity ≡ 8 }
{
    Form {
        constant: number,
        coefficient: 0,
        shares: SmallVec::new(alloc),
    }
}

/// The form of the loop's variable.
fn variable_form(alloc: Global) -> Form
    ensures value { form result ≡ spec.variable_form }
    ensures capacity { result.shares.capacity ≡ 8 }
{
    Form {
        constant: 0,
        coefficient: 1,
        shares: SmallVec::new(alloc),
    }
}

/// The form of another scalar.
pub fn other_form(alloc: Global, cell: usize) -> Form
    ensures value { form result ≡ spec.other_form cell }
    ensures capacity { result.shares.capacity ≡ 8 }
{
    let mut shares = SmallVec::new(alloc);
    shares.push_reserved(Share { cell, factor: 1 });
    Form {
        constant: 0,
        coefficient: 0,
        shares,
    }
}

/// The form of a scalar.
pub fn scalar_form(view: &LoopView<'_, '_>, cell: usize) -> Form
    ensures value { form result ≡ spec.scalar_form (seen view.now) cell }
    ensures capacity { result.shares.capacity ≡ 8 }
{
    if cell == view.head().variable.cell {
        variable_form(view.allocator())
    } else {
        other_form(view.allocator(), cell)
    }
}

/// The shares of a sum or a difference.
fn total_shares(
    alloc: Global,
    minus: bool,
    first: &[Share],
    second: &[Share],
) -> Option<SmallVec<Share, 8>>
    ensures value { option_map (λ v. map share_of v.items) result
        ≡ put_sums minus (map share_of first.now) (map share_of second.now) }
    ensures capacity { IfSome result (λ shares. shares.capacity ≡ 8) }
{
    let mut shares = SmallVec::new(alloc);
    put_sums(&mut shares, minus, first, second)?;
    Some(shares)
}

fn total_step(alloc: Global, minus: bool, first: &Form, second: &Form) -> Option<Form>
    ensures value { option_map form result ≡ total_step minus (form first.now) (form second.now) }
    ensures capacity { IfSome result (λ f. f.shares.capacity ≡ 8) }
{
    let constant = total(minus, first.constant, second.constant)?;
    let coefficient = total(minus, first.coefficient, second.coefficient)?;
    let shares = total_shares(
        alloc,
        minus,
        first.shares.as_slice(),
        second.shares.as_slice(),
    )?;
    Some(Form {
        constant,
        coefficient,
        shares,
    })
}

/// The sum or the difference of forms, where it has room.
pub fn total_form(alloc: Global, minus: bool, first: &Form, second: &Form) -> Option<Form>
    ensures value { option_map form result
        ≡ spec.in_room (spec.total_form minus (form first.now) (form second.now)) }
    ensures capacity { IfSome result (λ f. f.shares.capacity ≡ 8) }
{
    total_step(alloc, minus, first, second)
}

/// So many times all shares.
fn times_shares(alloc: Global, number: i64, all: &[Share]) -> Option<SmallVec<Share, 8>>
    ensures value { option_map (λ v. map share_of v.items) result
        ≡ put_each [] (map (times_share number) (map share_of all.now)) }
    ensures capacity { IfSome result (λ shares. shares.capacity ≡ 8) }
{
    let mut shares = SmallVec::new(alloc);
    put_times(&mut shares, number, all)?;
    Some(shares)
}

fn times_step(alloc: Global, number: &Form, all: &Form) -> Option<Form>
    ensures value { option_map form result ≡ times_step number.now.constant (form all.now) }
    ensures capacity { IfSome result (λ f. f.shares.capacity ≡ 8) }
{
    let constant = product(number.constant, all.constant)?;
    let coefficient = product(number.constant, all.coefficient)?;
    let shares = times_shares(alloc, number.constant, all.shares.as_slice())?;
    Some(Form {
        constant,
        coefficient,
        shares,
    })
}

/// A form as many times as the constant of another says, where it has room.
fn times(alloc: Global, number: &Form, all: &Form) -> Option<Form>
    ensures value { option_map form result
        ≡ spec.in_room (spec.times number.now.constant (form all.now)) }
    ensures capacity { IfSome result (λ f. f.shares.capacity ≡ 8) }
{
    times_step(alloc, number, all)
}

/// Whether a form is a number alone.
pub fn is_constant(all: &Form) -> bool
    ensures { result ≡ spec.is_constant (form all.now) }
{
    all.coefficient == 0 && all.shares.is_empty()
}

/// The product of forms, one of which is a number.
fn product_form(alloc: Global, first: &Form, second: &Form) -> Option<Form>
    ensures value { option_map form result ≡ spec.product (form first.now) (form second.now) }
    ensures capacity { IfSome result (λ f. f.shares.capacity ≡ 8) }
{
    if is_constant(first) {
        times(alloc, first, second)
    } else if is_constant(second) {
        times(alloc, second, first)
    } else {
        None
    }
}

/// A sum or a difference; there is none where both sides take a scalar that the range gives values.
pub fn total_of(view: &LoopView<'_, '_>, minus: bool, first: &Form, second: &Form) -> Option<Form>
    ensures value { option_map form result
        ≡ spec.total_of (seen view.now) minus (form first.now) (form second.now) }
    ensures capacity { IfSome result (λ f. f.shares.capacity ≡ 8) }
{
    if share_varying(view, first.shares.as_slice(), second.shares.as_slice()) {
        None
    } else {
        total_form(view.allocator(), minus, first, second)
    }
}

/// The form of an operation.
pub fn binary_form(
    view: &LoopView<'_, '_>,
    operator: Operator,
    left: &Form,
    right: &Form,
) -> Option<Form>
    ensures value { option_map form result
        ≡ spec.binary_form (seen view.now) operator (form left.now) (form right.now) }
    ensures capacity { IfSome result (λ f. f.shares.capacity ≡ 8) }
{
    match operator {
        Operator::Add => total_of(view, false, left, right),
        Operator::Subtract => total_of(view, true, left, right),
        Operator::Multiply => product_form(view.allocator(), left, right),
        Operator::Divide
        | Operator::Less
        | Operator::LessOrEqual
        | Operator::Equal
        | Operator::NotEqual
        | Operator::Greater
        | Operator::GreaterOrEqual
        | Operator::And
        | Operator::Or
        | Operator::Equivalent
        | Operator::NotEquivalent => None,
    }
}
