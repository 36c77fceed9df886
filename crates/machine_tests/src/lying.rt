//! Stretches over mirrors that lie, against strides in place, on random code; and awaits in them.

use crate::locals::{Chance, frame, parts, strides};
use machine::{Act, Await, Code, Frame, Instr};
use std::alloc::{AllocError, Global};
use stretches::{Mirror, Stretch};

/// How many codes are made.
const CODES: u64 = 400;

/// How many stretches each of them has.
const ROUNDS: u64 = 40;

/// How many notes a stretch has room for, and how many steps it makes at most.
const MOST: u64 = 12;

/// How many stretches are made in place in all at least, and how many fail at least.
const FEWEST: u32 = 100;

/// How stretches ended: how many were made in place, and how many failed.
#[derive(Drop)]
struct Ends {
    made: u32,
    failed: u32,
}

/// The mirror shows any values for some cells.
fn lie(mirror: &Mirror, cells: usize, chance: &mut Chance) {
    for cell in 0..cells {
        if chance.below(3) == 0 {
            mirror.show(cell, chance.value());
        }
    }
}

/// A stretch from a frame on, at most `n` steps, and where it fails one step in place; how many.
fn go_on(
    stretch: &mut Stretch<'_>,
    ends: &mut Ends,
    frame: &mut Frame,
    cells: &mut Vec<i64>,
    n: u32,
) -> Result<u32, AllocError> {
    stretch.load(frame, 0, &[])?;
    stretch.run(n);
    let wanted = stretch.made;
    let made = stretch.commit(frame, cells);
    if made > 0 {
        ends.made = ends.made.saturating_add(1);
        return Ok(made);
    }
    if wanted > 0 {
        ends.failed = ends.failed.saturating_add(1);
    }
    stretch.mend(cells);
    Ok(strides(stretch.code, frame, cells, 1))
}

/// Whether stretches of code lead where the same steps in place do.
fn leads_alike(
    alloc: Global,
    code: &Code,
    ends: &mut Ends,
    chance: &mut Chance,
) -> Result<bool, AllocError> {
    let first = chance.value();
    let mirror = Mirror::new(alloc, code.cells())?;
    let room = usize::try_from(chance.below(MOST)).unwrap_or(0);
    let mut stretch = Stretch::new(alloc, code, &mirror, room)?;
    let mut one = frame(alloc, code, first)?;
    let mut other = frame(alloc, code, first)?;
    let mut cells = vec![in alloc; 0; code.cells()]?;
    let mut others = vec![in alloc; 0; code.cells()]?;
    for _ in 0..ROUNDS {
        lie(&mirror, code.cells(), chance);
        let n = chance.number(MOST).saturating_add(1);
        let made = go_on(&mut stretch, ends, &mut one, &mut cells, n)?;
        let same = strides(code, &mut other, &mut others, made) == made;
        if !same || !one.is_same(&other) || cells.as_slice() != others.as_slice() {
            return Ok(false);
        }
    }
    Ok(true)
}

/// How stretches of random codes ended, where all lead where they should.
fn ends_of_codes(alloc: Global, chance: &mut Chance) -> Result<Option<Ends>, AllocError> {
    let mut ends = Ends { made: 0, failed: 0 };
    for _ in 0..CODES {
        let Some(code) = Code::new(alloc, parts(alloc, chance)?)? else {
            return Ok(None);
        };
        if !leads_alike(alloc, &code, &mut ends, chance)? {
            return Ok(None);
        }
    }
    Ok(Some(ends))
}

#[test]
fn a_mirror_that_lies_changes_no_answer(rt: HostRuntime) -> Result<(), AllocError> {
    let ends = ends_of_codes(rt.alloc(), &mut Chance { state: 1977 })?;
    assert!(rt; ends.is_some());
    if let Some(ends) = ends {
        assert!(rt; ends.made > FEWEST);
        assert!(rt; ends.failed > FEWEST);
    }
    Ok(())
}

/// Code that loads the scalar B again and again.
fn loads(alloc: Global) -> Result<Option<Code>, AllocError> {
    let mut made = parts(alloc, &mut Chance { state: 1977 })?;
    made.instructions.clear();
    for _ in 0..5 {
        made.instructions.push(Instr {
            line: 1,
            act: Act::Load(1),
        })?;
    }
    Code::new(alloc, made)
}

#[test]
fn a_stretch_ends_where_there_is_no_room_for_a_note(rt: HostRuntime) -> Result<(), AllocError> {
    let alloc = rt.alloc();
    let code = loads(alloc)?;
    assert!(rt; code.is_some());
    if let Some(code) = &code {
        let mirror = Mirror::new(alloc, code.cells())?;
        let mut stretch = Stretch::new(alloc, code, &mirror, 3)?;
        let mut frame = frame(alloc, code, 0)?;
        stretch.load(&frame, 0, &[])?;
        stretch.run(5);
        assert!(rt; stretch.made == 3);
        let mut cells = vec![in alloc; 0; code.cells()]?;
        assert!(rt; stretch.commit(&mut frame, &mut cells) == 3);
    }
    Ok(())
}

/// Code that awaits event 1 of the second iteration before, and then loads the scalar B.
fn awaits(alloc: Global) -> Result<Option<Code>, AllocError> {
    let mut made = parts(alloc, &mut Chance { state: 1977 })?;
    made.instructions.clear();
    made.awaits.push(Await {
        event: 1,
        distance: 2,
    })?;
    for act in [Act::Await(0), Act::Load(1)] {
        made.instructions.push(Instr { line: 1, act })?;
    }
    Code::new(alloc, made)
}

/// How many steps of iteration 5 a stretch makes that saw this count of event 1.
fn made_by(alloc: Global, code: &Code, count: u128) -> Result<u32, AllocError> {
    let mirror = Mirror::new(alloc, code.cells())?;
    let mut stretch = Stretch::new(alloc, code, &mirror, 3)?;
    stretch.load(&frame(alloc, code, 0)?, 5, &[0, count])?;
    stretch.run(5);
    Ok(stretch.made)
}

#[test]
fn a_stretch_passes_an_await_by_the_count_that_it_saw(rt: HostRuntime) -> Result<(), AllocError> {
    let alloc = rt.alloc();
    let code = awaits(alloc)?;
    assert!(rt; code.is_some());
    if let Some(code) = &code {
        assert!(rt; made_by(alloc, code, 3)? == 0);
        assert!(rt; made_by(alloc, code, 4)? == 2);
    }
    Ok(())
}
