//! The iteration space of a loop and of the one inside it.

use crate::offsets::{Offset, are_alike, are_own, inner_offset, is_one_place, outer_offset};
use arrows::{Space, Vector};
use ast::{Line, Name, Reference};
use dependence::{Relation, forms, relate_forms};
use loop_tree::{LoopTree, LoopView, Occurrence};
use privatise::private_scalars;
use std::alloc::{AllocError, Global};
use subscripts::Affine;

/// How many iterations of the inner loop are drawn at most.
const MOST_ROWS: u64 = 6;
/// How many vectors are drawn at most.
const MOST_VECTORS: usize = 8;
/// How many kinds of references are compared at most.
const MOST_KINDS: usize = 128;

/// A reference of the inner loop, with its subscripts in both loops.
#[derive(Drop)]
struct Site {
    name: Name,
    /// What tells variables apart.
    cell: usize,
    line: Line,
    defines: bool,
    outer: Vec<Affine>,
    inner: Vec<Affine>,
}

/// References of the inner loop that may depend on one another.
#[derive(Drop)]
struct References {
    /// The first one of each kind: what is found of two references depends on their kinds alone.
    kinds: Vec<Site>,
    /// The variables that have more kinds.
    further: Vec<Name>,
}

/// Two loops, one of which stands in the other.
#[derive(Clone, Copy)]
struct Nest<'t, 'p> {
    outer: LoopView<'t, 'p>,
    inner: LoopView<'t, 'p>,
}

/// The number of the loop in the one of a number, where just one stands there.
fn inner_of(tree: &LoopTree<'_>, number: usize) -> Option<usize> {
    let mut found = None;
    for place in 0..tree.count() {
        if tree.view(place + 1).outer() == Some(number) {
            if found.is_some() {
                return None;
            }
            found = Some(place + 1);
        }
    }
    found
}

/// A reference of the inner loop.
fn site_of(
    alloc: Global,
    nest: &Nest<'_, '_>,
    lines: &[Line],
    occurrence: &Occurrence<'_>,
) -> Result<Site, AllocError> {
    let Nest { outer, inner } = nest;
    Ok(Site {
        name: occurrence.reference.name,
        cell: occurrence.reference.cell,
        line: lines.get(occurrence.statement).copied().unwrap_or(0),
        defines: occurrence.defines,
        outer: forms(alloc, outer, occurrence)?,
        inner: forms(alloc, inner, occurrence)?,
    })
}

/// The variables of a loop that are given values in it, by what tells them apart.
fn defined(alloc: Global, view: &LoopView<'_, '_>) -> Result<Vec<usize>, AllocError> {
    let mut cells = Vec::new(alloc);
    for occurrence in view.references() {
        let cell = occurrence.reference.cell;
        if occurrence.defines && !cells.contains(&cell) {
            cells.push(cell)?;
        }
    }
    Ok(cells)
}

/// Whether two references are of one kind.
fn is_alike(one: &Site, two: &Site) -> bool {
    one.cell == two.cell
        && one.defines == two.defines
        && are_alike(&one.inner, &two.inner)
        && are_alike(&one.outer, &two.outer)
}

/// Adds a name, unless it is there already.
fn add_name(names: &mut Vec<Name>, name: Name) -> Result<(), AllocError> {
    if names.contains(&name) {
        return Ok(());
    }
    Ok(names.push(name)?)
}

/// Adds a reference, if it is the first of its kind.
fn add_site(found: &mut References, site: Site) -> Result<(), AllocError> {
    if found.kinds.iter().any(|kind| is_alike(kind, &site)) {
        return Ok(());
    }
    if found.kinds.len() < MOST_KINDS {
        return Ok(found.kinds.push(site)?);
    }
    add_name(&mut found.further, site.name)
}

/// The references of the inner loop to variables that are given values in it, but for what each of
/// its iterations has of its own.
fn sites(alloc: Global, nest: &Nest<'_, '_>, lines: &[Line]) -> Result<References, AllocError> {
    let privates = private_scalars(alloc, &nest.inner)?;
    let defined = defined(alloc, &nest.inner)?;
    let mut found = References {
        kinds: Vec::new(alloc),
        further: Vec::new(alloc),
    };
    for occurrence in nest.inner.references() {
        let Reference { name, cell, .. } = occurrence.reference;
        if !privates.names.contains(&name) && defined.contains(&cell) {
            add_site(&mut found, site_of(alloc, nest, lines, occurrence)?)?;
        }
    }
    Ok(found)
}

/// What is found of two references.
#[derive(Clone, Copy)]
enum Found {
    Nothing,
    /// A distance isn't known.
    Unknown,
    /// They meet so many iterations of the outer loop, and of the inner one, apart.
    Vector(u128, Offset),
}

/// What is found of two references in one iteration of the outer loop.
fn within(nest: &Nest<'_, '_>, first: &Site, second: &Site) -> Found {
    match relate_forms(&nest.inner, &first.inner, &second.inner) {
        Relation::Apart(_, _) => Found::Nothing,
        Relation::Distance(_, distance) => Found::Vector(0, Offset::Later(distance)),
        Relation::Any if is_one_place(&nest.inner, &first.inner, &second.inner) => {
            Found::Vector(0, Offset::Later(1))
        }
        Relation::Any => Found::Unknown,
    }
}

/// How many iterations of the outer loop later they meet: in the next one, where all have the same
/// elements.
fn over(nest: &Nest<'_, '_>, first: &Site, second: &Site) -> Offset {
    let Nest { outer, .. } = nest;
    match outer_offset(outer, &first.outer, &second.outer) {
        Offset::Unknown if are_own(outer, &first.inner) && are_own(outer, &second.inner) => {
            Offset::Later(1)
        }
        offset => offset,
    }
}

/// What is found of two references in an iteration of the outer loop and in a later one.
fn across(nest: &Nest<'_, '_>, first: &Site, second: &Site) -> Found {
    let along = inner_offset(&nest.outer, &nest.inner, &first.inner, &second.inner);
    match (over(nest, first, second), along) {
        (_, Offset::Nowhere) => Found::Nothing,
        (Offset::Nowhere | Offset::Same | Offset::Earlier(_), _) => Found::Nothing,
        (Offset::Unknown, _) | (_, Offset::Unknown) => Found::Unknown,
        (Offset::Later(distance), along) => Found::Vector(distance, along),
    }
}

/// How many iterations later, and earlier.
fn ways(offset: Offset) -> (u128, u128) {
    match offset {
        Offset::Later(down) => (down, 0),
        Offset::Earlier(up) => (0, up),
        Offset::Unknown | Offset::Nowhere | Offset::Same => (0, 0),
    }
}

/// The vector from a reference to another.
fn vector_of(first: &Site, second: &Site, over: u128, along: Offset) -> Vector {
    let (down, up) = ways(along);
    Vector {
        over,
        down,
        up,
        source_line: first.line,
        sink_line: second.line,
        name: first.name,
    }
}

/// Whether two vectors go equally far.
fn is_as_far(one: &Vector, two: &Vector) -> bool {
    one.over == two.over && one.down == two.down && one.up == two.up
}

/// Adds what is found of two references, unless it is there already.
fn add_found(
    space: &mut Space,
    first: &Site,
    second: &Site,
    found: Found,
) -> Result<(), AllocError> {
    match found {
        Found::Nothing => Ok(()),
        Found::Unknown => add_name(&mut space.unknown, first.name),
        Found::Vector(over, along) => add_vector(space, vector_of(first, second, over, along)),
    }
}

/// Adds a vector, unless it is there already or there is no room for it.
fn add_vector(space: &mut Space, vector: Vector) -> Result<(), AllocError> {
    if space.vectors.iter().any(|other| is_as_far(other, &vector)) {
        return Ok(());
    }
    if space.vectors.len() < MOST_VECTORS {
        return Ok(space.vectors.push(vector)?);
    }
    add_name(&mut space.unknown, vector.name)
}

/// Whether one of two references of a variable gives it a value.
fn may_depend(first: &Site, second: &Site) -> bool {
    first.cell == second.cell && (first.defines || second.defines)
}

/// Adds what is found of a reference and each that needs it later.
fn add_source(
    nest: &Nest<'_, '_>,
    space: &mut Space,
    first: &Site,
    sites: &[Site],
) -> Result<(), AllocError> {
    for second in sites {
        if may_depend(first, second) {
            add_found(space, first, second, across(nest, first, second))?;
            add_found(space, first, second, within(nest, first, second))?;
        }
    }
    Ok(())
}

/// How many iterations of the inner loop are drawn.
fn rows(inner: &LoopView<'_, '_>) -> u64 {
    match inner.trips() {
        Some(trips) => u64::try_from(trips)
            .unwrap_or(MOST_ROWS)
            .clamp(1, MOST_ROWS),
        None => MOST_ROWS,
    }
}

/// The space of two loops, without vectors.
fn empty(alloc: Global, nest: &Nest<'_, '_>) -> Space {
    Space {
        outer: nest.outer.head().variable.name,
        inner: nest.inner.head().variable.name,
        rows: rows(&nest.inner),
        vectors: Vec::new(alloc),
        unknown: Vec::new(alloc),
    }
}

/// The iteration space of the loop of a number and of the one inside it, if there is just one.
///
/// # Errors
///
/// `AllocError` where memory is refused.
pub fn space_of(
    alloc: Global,
    tree: &LoopTree<'_>,
    number: usize,
) -> Result<Option<Space>, AllocError> {
    if number < 1 || number > tree.count() {
        return Ok(None);
    }
    let Some(inside) = inner_of(tree, number) else {
        return Ok(None);
    };
    if inside < 1 || inside > tree.count() {
        return Ok(None);
    }
    let nest = Nest {
        outer: tree.view(number),
        inner: tree.view(inside),
    };
    let References { kinds, further } = sites(alloc, &nest, tree.lines())?;
    let mut space = empty(alloc, &nest);
    for first in &kinds {
        add_source(&nest, &mut space, first, &kinds)?;
    }
    for name in &further {
        add_name(&mut space.unknown, *name)?;
    }
    Ok(Some(space))
}
