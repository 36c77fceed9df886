//! Lists by cells and by events.

ghost use Rattle.std.specs.Prelude.{◌≡◌, ◌&&◌, true, Some};
ghost use Rattle.plan_check.specs.Flow as spec;

/// Sets the mark at a place, if there is one.
pub fn put(flags: &mut [bool], place: usize, value: bool)
    ensures { flags.new ≡ spec.put flags.old place value }
{
    if place < flags.len() {
        flags[place] = value;
    }
}

/// The lesser of two distances, of which one may be wanting.
fn nearer(distance: u128, near: Option<u128>) -> Option<u128>
    ensures { result ≡ spec.nearer distance near }
{
    match near {
        None => Some(distance),
        Some(n) => Some(n.min(distance)),
    }
}

/// Keeps the distance at which an event is awaited, where it is the least so far; nothing changes
/// where there is no such event.
pub fn put_await(nears: &mut [Option<u128>], event: usize, distance: u128)
    ensures { nears.new ≡ spec.with_await nears.old event distance }
{
    if event < nears.len() {
        nears[event] = nearer(distance, nears[event]);
    }
}

/// The mark at a place; false where there is none.
pub fn flag_at(flags: &[bool], place: usize) -> bool
    ensures { result ≡ spec.flag_at flags.now place }
{
    if place < flags.len() {
        flags[place]
    } else {
        false
    }
}

/// How near an event has been awaited; `None` where it hasn't, or there is none.
pub fn near_at(nears: &[Option<u128>], place: usize) -> Option<u128>
    ensures { result ≡ spec.near_at nears.now place }
{
    if place < nears.len() {
        nears[place]
    } else {
        None
    }
}

/// Whether two marks are set.
fn both(a: bool, b: bool) -> bool
    ensures { result ≡ a && b }
{
    a && b
}

/// Leaves the marks that are set in both lists.
pub fn join_flags(flags: &mut [bool], others: &[bool])
    ensures { flags.new ≡ spec.both flags.old others.now }
{
    let mut place = 0;
    while place < flags.len() {
        flags[place] = both(flags[place], flag_at(others, place));
        place += 1;
    }
}

/// The greater of two distances, `None` where one is.
fn further(a: Option<u128>, b: Option<u128>) -> Option<u128>
    ensures { result ≡ spec.further a b }
{
    match a {
        None => None,
        Some(a) => match b {
            None => None,
            Some(b) => Some(a.max(b)),
        },
    }
}

/// Leaves the greater distance of each event, `None` where one list has none.
pub fn join_nears(nears: &mut [Option<u128>], others: &[Option<u128>])
    ensures { nears.new ≡ spec.both_near nears.old others.now }
{
    let mut place = 0;
    while place < nears.len() {
        nears[place] = further(nears[place], near_at(others, place));
        place += 1;
    }
}

/// Sets all marks.
pub fn set_flags(flags: &mut [bool])
    ensures { flags.new ≡ spec.all true flags.old }
{
    let mut place = 0;
    while place < flags.len() {
        flags[place] = true;
        place += 1;
    }
}

/// Sets all distances to 0, which is nearer than any await.
pub fn set_nears(nears: &mut [Option<u128>])
    ensures { nears.new ≡ spec.all (Some 0) nears.old }
{
    let mut place = 0;
    while place < nears.len() {
        nears[place] = Some(0);
        place += 1;
    }
}

/// Whether an event was awaited so near.
pub fn has_awaited(nears: &[Option<u128>], event: usize, distance: u128) -> bool
    ensures { result ≡ spec.is_near (spec.near_at nears.now event) distance }
{
    match near_at(nears, event) {
        Some(near) => near <= distance,
        None => false,
    }
}
