//! Which name may have been meant by another one.

use crate::tokens::past;
use ast::Name;

/// How short a name is that is like many others.
const SHORT: usize = 2;

/// The first of some names that is one letter or digit away from this one, or has two neighbours
/// the other way round.
pub fn meant_by(name: Name, names: &[Name]) -> Option<Name> {
    let text = name.trimmed();
    if text.len() <= SHORT {
        return None;
    }
    names
        .iter()
        .find(|other| is_near(text, other.trimmed()))
        .copied()
}

/// Whether one text comes of the other by one letter more, less or changed, or by two neighbours
/// that change places.
fn is_near(text: &[u8], other: &[u8]) -> bool {
    let same = text
        .iter()
        .zip(other.iter())
        .take_while(|(a, b)| a == b)
        .count();
    match (past(text, same), past(other, same)) {
        ([_, behind @ ..], others) if behind == others => true,
        (rest, [_, behind @ ..]) if behind == rest => true,
        ([_, behind @ ..], [_, others @ ..]) if behind == others => true,
        ([a, b, behind @ ..], [c, d, others @ ..]) => a == d && b == c && behind == others,
        _ => false,
    }
}
