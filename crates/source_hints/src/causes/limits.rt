//! Which limit a program is past.

use crate::mentions::{Mention, mentions};
use crate::squeezed::{PROGRAM, Squeezed};
use ast::{Intrinsic, Line, MOST_NAMES, MOST_NESTED, MOST_STATEMENTS, Name};
use std::alloc::{AllocError, Global};

/// The limit that a program is past at a statement, before which so many DO ranges and IF blocks
/// are open.
pub fn limit(
    alloc: Global,
    statements: &[Squeezed],
    opened: usize,
    statement: &Squeezed,
) -> Result<&'static str, AllocError> {
    let is_opened = statement.is_loop() || statement.is_block();
    let count = statements
        .iter()
        .filter(|other| other.line < statement.line)
        .count();
    Ok(if count >= MOST_STATEMENTS {
        "a program has 4,096 statements at most"
    } else if is_opened && opened >= MOST_NESTED {
        "16 DO ranges and IF blocks are open at once at most"
    } else if has_too_many_names(alloc, statements, statement.line)? {
        "a program has 512 names at most"
    } else {
        "arrays have 1,048,576 elements together at most"
    })
}

/// Whether the statements to the one in a line have more names than a program may have.
fn has_too_many_names(
    alloc: Global,
    statements: &[Squeezed],
    line: Line,
) -> Result<bool, AllocError> {
    let mut names: Vec<Name> = Vec::new(alloc);
    for statement in statements {
        if statement.line > line || names.len() > MOST_NAMES {
            break;
        }
        if !statement.text.starts_with(PROGRAM) {
            add(&mut names, &mentions(alloc, statement)?)?;
        }
    }
    Ok(names.len() > MOST_NAMES)
}

/// Adds the names of variables and constants to names that are in order.
fn add(names: &mut Vec<Name>, mentions: &[Mention]) -> Result<(), AllocError> {
    for mention in mentions {
        match names.binary_search(&mention.name) {
            Err(place) if Intrinsic::named(&mention.name).is_none() => {
                names.insert(place, mention.name)?;
            }
            _ => {}
        }
    }
    Ok(())
}
