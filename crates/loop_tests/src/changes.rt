//! Plans in which something is changed.

use crate::calls::{check, loop_of, loops, plan, program};
use crate::looks::{Places, elements_at};
use ast::{Access, Action, Expr, Name, PlainStatement, Program, RefId, Reference};
use dependence::{LoopPlan, PlanStmt, Relation, Relations, SerialReason};
use loop_tree::LoopView;
use plan_check::PlanFault;
use std::alloc::{AllocError, Global};

/// The scalar K.
const K: Name = Name {
    letters: [b'K', b' ', b' ', b' ', b' ', b' '],
};

/// One thing changed in a plan. Places are those of the body, from 0.
#[derive(Clone, Copy)]
pub enum Change<'a> {
    /// What stands at this place is taken out.
    TakenOut(usize),
    /// What stands at the first place is taken out, and put in at the second of what is left.
    Moved(usize, usize),
    /// At this place there is an await of this event, so many iterations back.
    Await(usize, usize, u128),
    /// At this place there is an advance of this event.
    Advance(usize, usize),
    /// The body is empty.
    NoBody,
    /// The body is that of the plan of another source's loop of this number.
    BodyOf(&'a [u8], usize),
    /// The IF at this place has no made ELSE.
    NoMadeElse(usize),
    /// The made ELSE of the IF at this place has the statement K=1 too.
    MoreInMadeElse(usize),
    /// K is private too.
    PrivateK,
    /// No relations are claimed.
    NoClaims,
    /// This relation is claimed of two elements, in place of the true one.
    Claim(Places, Relation),
    /// This relation is claimed of two elements, before the true one.
    ClaimBefore(Places, Relation),
    /// This relation is claimed of two elements, behind the true one.
    ClaimBehind(Places, Relation),
    /// It is serial, for this reason.
    Serial(SerialReason),
}

// Each change says whether it could be made.

/// Takes out what stands at a place.
fn take_out(body: &mut Vec<PlanStmt>, place: usize) -> bool {
    if place >= body.len() {
        return false;
    }
    body.remove(place);
    true
}

/// Takes out what stands at a place, and puts it in behind it at another of what is left.
fn move_node(body: &mut [PlanStmt], from: usize, to: usize) -> bool {
    if from > to || to >= body.len() {
        return false;
    }
    body[from..=to].rotate_left(1);
    true
}

/// Puts a node in place of another.
fn put(body: &mut [PlanStmt], place: usize, node: PlanStmt) -> bool {
    if place >= body.len() {
        return false;
    }
    body[place] = node;
    true
}

/// Gives the IF at a place another made ELSE, or none.
fn put_made_else(body: &mut [PlanStmt], place: usize, new: Option<Vec<PlanStmt>>) -> bool {
    if place >= body.len() {
        return false;
    }
    match &mut body[place] {
        PlanStmt::Choice(_, made) => {
            *made = new;
            true
        }
        _ => false,
    }
}

/// K=1, as if it stood where the END IF stands. No reference of a program has this number.
fn assignment(alloc: Global) -> PlainStatement {
    let target = Access {
        reference: Reference {
            name: K,
            id: RefId(usize::MAX),
            cell: 0,
        },
        subscripts: Vec::new(alloc),
    };
    PlainStatement {
        line: 5,
        label: None,
        action: Action::Assign(target, Expr::Constant(1)),
    }
}

/// What a made ELSE has of event 1, and an assignment.
fn more_than_events(alloc: Global) -> Result<Vec<PlanStmt>, AllocError> {
    Ok(Vec::from_array(
        alloc,
        [
            PlanStmt::Await(1, 1),
            PlanStmt::Advance(1),
            PlanStmt::Plain(assignment(alloc)),
        ],
    )?)
}

/// The plan of a program's loop of this number.
fn plan_in(
    alloc: Global,
    program: &Program,
    number: usize,
) -> Result<Option<LoopPlan>, AllocError> {
    let tree = loops(alloc, program)?;
    match loop_of(&tree, number) {
        Some(view) => Ok(Some(plan(alloc, &view)?)),
        None => Ok(None),
    }
}

/// The plan of a source's loop of this number.
fn plan_of(alloc: Global, source: &[u8], number: usize) -> Result<Option<LoopPlan>, AllocError> {
    match program(alloc, source) {
        Ok(program) => plan_in(alloc, &program, number),
        Err(_) => Ok(None),
    }
}

/// Puts the body of the plan of another source's loop in place of a body, where it has one.
fn put_body(
    alloc: Global,
    body: &mut Vec<PlanStmt>,
    source: &[u8],
    number: usize,
) -> Result<bool, AllocError> {
    match plan_of(alloc, source, number)? {
        Some(LoopPlan::Body { body: new, .. }) => {
            *body = new;
            Ok(true)
        }
        _ => Ok(false),
    }
}

/// Gives the IF at a place a made ELSE that has the statement K=1 too.
fn put_more(alloc: Global, body: &mut [PlanStmt], place: usize) -> Result<bool, AllocError> {
    let more = more_than_events(alloc)?;
    Ok(put_made_else(body, place, Some(more)))
}

/// Changes the body, where that takes no memory.
fn change_body(body: &mut Vec<PlanStmt>, change: Change<'_>) -> bool {
    match change {
        Change::TakenOut(place) => take_out(body, place),
        Change::Moved(from, to) => move_node(body, from, to),
        Change::Await(place, event, distance) => put(body, place, PlanStmt::Await(event, distance)),
        Change::Advance(place, event) => put(body, place, PlanStmt::Advance(event)),
        Change::NoMadeElse(place) => put_made_else(body, place, None),
        Change::NoBody => {
            body.clear();
            true
        }
        _ => false,
    }
}

/// A claim of two elements.
type Claim = (RefId, RefId, Relation);

/// A claim of the elements at two places of a loop's range.
fn claim(view: &LoopView<'_, '_>, places: Places, relation: Relation) -> Option<Claim> {
    let (first, second) = elements_at(view, places)?;
    Some((first, second, relation))
}

/// What is claimed of a pair: its own relation, or that of a claim of the same pair.
fn claimed(own: Claim, new: Option<Claim>) -> Relation {
    match new {
        Some((first, second, relation)) if first == own.0 && second == own.1 => relation,
        _ => own.2,
    }
}

/// Adds relations, with a claim in place of that of the same pair.
fn add_all(all: &mut Relations, old: &Relations, new: Option<Claim>) -> Result<(), AllocError> {
    for run in &old.runs {
        for place in 0..run.count {
            let (first, second) = run.pair(place);
            let relation = claimed((first, second, old.relation(run)), new);
            all.push(first, second, relation)?;
        }
    }
    Ok(())
}

/// Relations with a claim in place of that of the same pair.
fn with_claim(alloc: Global, old: &Relations, new: Claim) -> Result<Relations, AllocError> {
    let mut all = Relations::new(alloc);
    add_all(&mut all, old, Some(new))?;
    Ok(all)
}

/// Relations with a claim before them.
fn behind_claim(
    alloc: Global,
    old: &Relations,
    (first, second, relation): Claim,
) -> Result<Relations, AllocError> {
    let mut all = Relations::new(alloc);
    all.push(first, second, relation)?;
    add_all(&mut all, old, None)?;
    Ok(all)
}

/// Claims of a pair something, in place of the true relation, before it, or else behind it.
fn change_claims(
    alloc: Global,
    claims: &mut Relations,
    change: Change<'_>,
    new: Option<Claim>,
) -> Result<bool, AllocError> {
    let Some(new) = new else {
        return Ok(false);
    };
    match change {
        Change::Claim(_, _) => *claims = with_claim(alloc, claims, new)?,
        Change::ClaimBefore(_, _) => *claims = behind_claim(alloc, claims, new)?,
        _ => claims.push(new.0, new.1, new.2)?,
    }
    Ok(true)
}

/// Adds the scalar K.
fn add_k(privates: &mut Vec<Name>) -> Result<bool, AllocError> {
    privates.push(K)?;
    Ok(true)
}

/// Changes a plan with a body.
fn change_parts(
    alloc: Global,
    view: &LoopView<'_, '_>,
    given: &mut LoopPlan,
    change: Change<'_>,
) -> Result<bool, AllocError> {
    let LoopPlan::Body {
        body,
        privates,
        relations,
    } = given
    else {
        return Ok(false);
    };
    match change {
        Change::PrivateK => add_k(&mut privates.names),
        Change::NoClaims => {
            *relations = Relations::new(alloc);
            Ok(true)
        }
        Change::Claim(places, relation)
        | Change::ClaimBefore(places, relation)
        | Change::ClaimBehind(places, relation) => {
            change_claims(alloc, relations, change, claim(view, places, relation))
        }
        Change::BodyOf(source, number) => put_body(alloc, body, source, number),
        Change::MoreInMadeElse(place) => put_more(alloc, body, place),
        _ => Ok(change_body(body, change)),
    }
}

/// Changes a plan, one change after another.
fn change_all(
    alloc: Global,
    view: &LoopView<'_, '_>,
    given: &mut LoopPlan,
    changes: &[Change<'_>],
) -> Result<bool, AllocError> {
    for change in changes {
        if let Change::Serial(reason) = change {
            *given = LoopPlan::Serial(*reason);
        } else if !change_parts(alloc, view, given, *change)? {
            return Ok(false);
        }
    }
    Ok(true)
}

/// Whether an answer is a refusal of this number, or none.
fn is_wanted(answer: Result<(), PlanFault>, wanted: Option<u8>) -> bool {
    match answer {
        Ok(()) => wanted.is_none(),
        Err(PlanFault::Refused(mistake)) => wanted == Some(mistake.number()),
        Err(PlanFault::Memory) => false,
    }
}

/// Whether a plan is refused by this number, or accepted; where there was no memory the plan is
/// checked again, and that has to answer so.
pub fn is_answered(
    alloc: Global,
    view: &LoopView<'_, '_>,
    given: &LoopPlan,
    wanted: Option<u8>,
) -> Result<bool, AllocError> {
    let answer = check(alloc, view, given);
    if answer == Err(PlanFault::Memory) {
        if is_wanted(check(alloc, view, given), wanted) {
            return Err(AllocError);
        }
        return Ok(false);
    }
    Ok(is_wanted(answer, wanted))
}

/// Whether a loop's plan with changes is refused by this number, or accepted.
pub fn is_changed(
    alloc: Global,
    view: &LoopView<'_, '_>,
    changes: &[Change<'_>],
    wanted: Option<u8>,
) -> Result<bool, AllocError> {
    let mut given = plan(alloc, view)?;
    if !change_all(alloc, view, &mut given, changes)? {
        return Ok(false);
    }
    is_answered(alloc, view, &given, wanted)
}
