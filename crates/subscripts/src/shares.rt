//! How often a form takes each scalar.

ghost use Rattle.std.specs.Prelude.{◌≡◌, [], map, ◌*ℤ◌};
ghost use Rattle.loop_tree.specs.TreeView.{seen};
ghost use Rattle.loop_tree.specs.Constants.{if_some};
ghost use Rattle.subscripts.specs.Forms.{factor_in, has_share, new_share, others, share_varying};
ghost use Rattle.subscripts.specs.Forms.{times_share, total, total_share};
ghost use Rattle.subscripts.specs.SharesView.{share as share_of};
ghost use Rattle.subscripts.specs.Steps.{Left, fitted, put, put_each, put_fitted, put_new};
ghost use Rattle.subscripts.specs.Steps.{put_sums};

use loop_tree::LoopView;
use smallvec::SmallVec;

/// So many times a scalar.
#[derive(Clone, Copy, Default)]
pub struct Share {
    /// The place of the scalar's name among the program's symbols.
    pub cell: usize,
    pub factor: i64,
}

/// How many scalars a form has at most.
const MOST: usize = 8;

/// A sum, or a difference, if it is a 64-bit integer.
pub fn total(minus: bool, a: i64, b: i64) -> Option<i64>
    ensures { result ≡ fitted (total minus a b) }
{
    if minus {
        a.checked_sub(b)
    } else {
        a.checked_add(b)
    }
}

/// A product, if it is a 64-bit integer.
pub fn product(a: i64, b: i64) -> Option<i64>
    ensures { result ≡ fitted (a *ℤ b) }
{
    a.checked_mul(b)
}

/// How often the scalar of a cell is taken.
pub fn factor_in(shares: &[Share], cell: usize) -> i64
    ensures { result ≡ factor_in (map share_of shares.now) cell }
{
    for share in shares {
        if share.cell == cell {
            return share.factor;
        }
    }
    0
}

/// Whether the scalar of a cell is taken.
pub fn has_share(shares: &[Share], cell: usize) -> bool
    ensures { result ≡ has_share cell (map share_of shares.now) }
{
    for share in shares {
        if share.cell == cell {
            return true;
        }
    }
    false
}

/// Whether both take a scalar that the loop's range gives values.
pub fn share_varying(view: &LoopView<'_, '_>, first: &[Share], second: &[Share]) -> bool
    ensures { result ≡ share_varying (seen view.now) (map share_of first.now)
        (map share_of second.now) }
{
    for share in first {
        if view.assigns(share.cell) && has_share(second, share.cell) {
            return true;
        }
    }
    false
}

/// Puts a share behind others, unless it is of factor 0; `None` where there is no room.
pub fn put(shares: &mut SmallVec<Share, 8>, cell: usize, factor: i64) -> Option<()>
    requires { shares.old.capacity ≡ 8 }
    ensures left { Left result (map share_of shares.new.items)
        (put (map share_of shares.old.items) cell factor) }
    ensures capacity { shares.new.capacity ≡ 8 }
{
    if factor == 0 {
        return Some(());
    }
    if shares.len() >= MOST {
        return None;
    }
    shares.push_reserved(Share { cell, factor });
    Some(())
}

/// Puts a share, if its factor is a 64-bit integer.
fn put_fitted(shares: &mut SmallVec<Share, 8>, cell: usize, factor: Option<i64>) -> Option<()>
    requires { shares.old.capacity ≡ 8 }
    ensures left { Left result (map share_of shares.new.items)
        (if_some factor (λ n. put (map share_of shares.old.items) cell n)) }
    ensures capacity { shares.new.capacity ≡ 8 }
{
    match factor {
        Some(factor) => put(shares, cell, factor),
        None => None,
    }
}

/// Puts the sum of a share and the second's of the same scalar.
fn put_total(
    shares: &mut SmallVec<Share, 8>,
    minus: bool,
    share: Share,
    second: &[Share],
) -> Option<()>
    requires { shares.old.capacity ≡ 8 }
    ensures left { Left result (map share_of shares.new.items)
        (put_fitted (map share_of shares.old.items)
        (total_share minus (map share_of second.now) (share_of share))) }
    ensures capacity { shares.new.capacity ≡ 8 }
{
    put_fitted(
        shares,
        share.cell,
        total(minus, share.factor, factor_in(second, share.cell)),
    )
}

/// Puts so many times a share.
fn put_product(shares: &mut SmallVec<Share, 8>, number: i64, share: Share) -> Option<()>
    requires { shares.old.capacity ≡ 8 }
    ensures left { Left result (map share_of shares.new.items)
        (put_fitted (map share_of shares.old.items) (times_share number (share_of share))) }
    ensures capacity { shares.new.capacity ≡ 8 }
{
    put_fitted(shares, share.cell, product(number, share.factor))
}

/// Puts one of the second's shares, unless the first has one of its scalar.
fn put_other(
    shares: &mut SmallVec<Share, 8>,
    minus: bool,
    first: &[Share],
    share: Share,
) -> Option<()>
    requires { shares.old.capacity ≡ 8 }
    ensures left { Left result (map share_of shares.new.items)
        (put_new minus (map share_of first.now) (map share_of shares.old.items)
        (share_of share)) }
    ensures capacity { shares.new.capacity ≡ 8 }
{
    if has_share(first, share.cell) {
        Some(())
    } else {
        put_fitted(shares, share.cell, total(minus, 0, share.factor))
    }
}

/// Puts the sums of the first's shares and the second's of the same scalars.
fn put_totals(
    shares: &mut SmallVec<Share, 8>,
    minus: bool,
    first: &[Share],
    second: &[Share],
) -> Option<()>
    requires { shares.old.capacity ≡ 8 }
    ensures left { Left result (map share_of shares.new.items)
        (put_each (map share_of shares.old.items)
        (map (total_share minus (map share_of second.now)) (map share_of first.now))) }
    ensures capacity { shares.new.capacity ≡ 8 }
{
    for share in first {
        put_total(shares, minus, *share, second)?;
    }
    Some(())
}

/// Puts the second's shares of scalars that the first lacks.
fn put_others(
    shares: &mut SmallVec<Share, 8>,
    minus: bool,
    first: &[Share],
    second: &[Share],
) -> Option<()>
    requires { shares.old.capacity ≡ 8 }
    ensures left { Left result (map share_of shares.new.items)
        (put_each (map share_of shares.old.items)
        (map (new_share minus) (others (map share_of first.now) (map share_of second.now)))) }
    ensures capacity { shares.new.capacity ≡ 8 }
{
    for share in second {
        put_other(shares, minus, first, *share)?;
    }
    Some(())
}

/// Puts the sums of the first's shares and the second's, of scalars that either has.
pub fn put_sums(
    shares: &mut SmallVec<Share, 8>,
    minus: bool,
    first: &[Share],
    second: &[Share],
) -> Option<()>
    requires capacity { shares.old.capacity ≡ 8 }
    requires empty { shares.old.items ≡ [] }
    ensures left { Left result (map share_of shares.new.items)
        (put_sums minus (map share_of first.now) (map share_of second.now)) }
    ensures capacity { shares.new.capacity ≡ 8 }
{
    put_totals(shares, minus, first, second)?;
    put_others(shares, minus, first, second)
}

/// Puts so many times the shares.
pub fn put_times(shares: &mut SmallVec<Share, 8>, number: i64, all: &[Share]) -> Option<()>
    requires { shares.old.capacity ≡ 8 }
    ensures left { Left result (map share_of shares.new.items)
        (put_each (map share_of shares.old.items)
        (map (times_share number) (map share_of all.now))) }
    ensures capacity { shares.new.capacity ≡ 8 }
{
    for share in all {
        put_product(shares, number, *share)?;
    }
    Some(())
}
