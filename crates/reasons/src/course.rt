//! Where iterations wait along a plan, and where they have done what others wait for.

use ast::Line;
use dependence::{PlanArm, PlanStmt};
use std::alloc::{AllocError, Global};

/// A statement that awaits an event.
#[derive(Clone, Copy)]
struct Wait {
    event: usize,
    distance: u128,
    /// The line of the statement.
    line: Line,
    /// How many statements stand before it.
    place: usize,
    /// Whether the event is advanced behind it, and not before it.
    is_ahead: bool,
}

/// Where an event is advanced behind its source, or behind the loop inside that its source is in.
#[derive(Clone, Copy)]
struct End {
    event: usize,
    /// The line of the statement behind which it is.
    line: Line,
    /// How many statements stand before it.
    place: usize,
}

/// A part of the range, from a statement that awaits an event to where that is advanced. Of the
/// iterations that come to wait, as many as the distance says may be in it at once.
#[derive(Clone, Copy)]
pub struct Stretch {
    pub event: usize,
    pub distance: u128,
    /// The line of the statement that waits.
    pub first: Line,
    /// The line of the statement behind which the event is advanced.
    pub last: Line,
    /// How many statements it has.
    length: usize,
}

impl Stretch {
    /// Whether it lets fewer iterations in at once, or as many for longer.
    fn is_tighter(&self, other: &Stretch) -> bool {
        self.distance < other.distance
            || (self.distance == other.distance && self.length > other.length)
    }
}

/// What a plan amounts to.
#[derive(Clone, Copy)]
pub enum Amount {
    /// No iteration waits for another.
    Nobody,
    /// Iterations wait, so many iterations back at least, but for what stands before the statements
    /// that wait: any number of them may be worked at once.
    Passing(u128),
    /// Iterations wait for what stands behind: the stretch with the fewest at once.
    Within(Stretch),
}

impl Amount {
    /// What a plan with this body amounts to.
    ///
    /// # Errors
    ///
    /// `AllocError` where memory is refused.
    pub fn of(alloc: Global, body: &[PlanStmt]) -> Result<Amount, AllocError> {
        let mut course = Course {
            count: 0,
            pending: Vec::new(alloc),
            advanced: Vec::new(alloc),
            waits: Vec::new(alloc),
            ends: Vec::new(alloc),
        };
        course.follow_block(body)?;
        Ok(course.amount())
    }

    /// Whether one iteration at a time alone may be in some stretch.
    pub fn is_chain(&self) -> bool {
        match self {
            Amount::Nobody | Amount::Passing(_) => false,
            Amount::Within(stretch) => stretch.distance <= 1,
        }
    }
}

/// What was met on the way along a plan.
#[derive(Drop)]
struct Course {
    /// How many statements.
    count: usize,
    /// The events that are awaited before the next statement, and the distances.
    pending: Vec<(usize, u128)>,
    /// The events that are advanced on the path to here.
    advanced: Vec<usize>,
    waits: Vec<Wait>,
    ends: Vec<End>,
}

impl Course {
    /// Comes to a statement of a line, which waits for what is pending.
    fn reach(&mut self, line: Line) -> Result<(), AllocError> {
        for (event, distance) in &self.pending {
            self.waits.push(Wait {
                event: *event,
                distance: *distance,
                line,
                place: self.count,
                is_ahead: !self.advanced.contains(event),
            })?;
        }
        self.pending.clear();
        self.count = self.count.saturating_add(1);
        Ok(())
    }

    /// Comes to an advance, behind the statement of a line or first of all in an arm. What is
    /// pending keeps only advances in order.
    fn advance(&mut self, event: usize, behind: Option<Line>) -> Result<(), AllocError> {
        self.pending.clear();
        self.advanced.push(event)?;
        if let Some(line) = behind {
            self.ends.push(End {
                event,
                line,
                place: self.count,
            })?;
        }
        Ok(())
    }

    /// Follows statements, from the first on.
    #[cycle(follow)]
    fn follow_block(&mut self, block: &[PlanStmt]) -> Result<(), AllocError> {
        let mut behind = None;
        for statement in block {
            behind = self.follow(statement, behind)?;
        }
        Ok(())
    }

    /// Follows a statement that stands behind one of a line, or first of all, and gives the line of
    /// the one that the next stands behind.
    #[cycle(follow)]
    fn follow(
        &mut self,
        statement: &PlanStmt,
        behind: Option<Line>,
    ) -> Result<Option<Line>, AllocError> {
        match statement {
            PlanStmt::Await(event, distance) => {
                self.pending.push((*event, *distance))?;
                Ok(behind)
            }
            PlanStmt::Advance(event) => {
                self.advance(*event, behind)?;
                Ok(behind)
            }
            PlanStmt::Plain(plain) => {
                self.reach(plain.line)?;
                Ok(Some(plain.line))
            }
            PlanStmt::Loop(line, _, range) => {
                self.reach(*line)?;
                self.follow_block(range)?;
                Ok(Some(*line))
            }
            PlanStmt::Choice(arms, made) => {
                let line = arms.first().map_or(0, |arm| arm.line);
                self.reach(line)?;
                let before = self.advanced.len();
                self.follow_arms(arms, before)?;
                match made {
                    Some(body) => self.follow_arm(body, before)?,
                    None => {}
                }
                Ok(Some(line))
            }
        }
    }

    /// Follows an arm, on the path to which there is no other, and so many events are advanced.
    #[cycle(follow)]
    fn follow_arm(&mut self, body: &[PlanStmt], before: usize) -> Result<(), AllocError> {
        self.advanced.truncate(before);
        self.follow_block(body)
    }

    /// Follows arms. All advance the same events.
    #[cycle(follow)]
    fn follow_arms(&mut self, arms: &[PlanArm], before: usize) -> Result<(), AllocError> {
        for arm in arms {
            self.follow_arm(&arm.body, before)?;
        }
        Ok(())
    }

    /// Where an event is advanced behind its source.
    fn end(&self, event: usize) -> Option<End> {
        self.ends.iter().find(|end| end.event == event).copied()
    }

    /// The stretch from a statement that waits, if what it waits for stands behind it.
    fn stretch(&self, wait: &Wait) -> Option<Stretch> {
        if !wait.is_ahead {
            return None;
        }
        let end = self.end(wait.event)?;
        Some(Stretch {
            event: wait.event,
            distance: wait.distance,
            first: wait.line,
            last: end.line,
            length: end.place.saturating_sub(wait.place),
        })
    }

    /// What was met amounts to this.
    fn amount(&self) -> Amount {
        let mut amount = Amount::Nobody;
        for wait in &self.waits {
            amount = match self.stretch(wait) {
                Some(stretch) => narrowed(amount, stretch),
                None => passed(amount, wait.distance),
            };
        }
        amount
    }
}

/// An amount with one stretch more.
fn narrowed(amount: Amount, stretch: Stretch) -> Amount {
    match amount {
        Amount::Within(other) if !stretch.is_tighter(&other) => amount,
        Amount::Nobody | Amount::Passing(_) | Amount::Within(_) => Amount::Within(stretch),
    }
}

/// An amount with one wait more for what stands before.
fn passed(amount: Amount, distance: u128) -> Amount {
    match amount {
        Amount::Nobody => Amount::Passing(distance),
        Amount::Passing(other) if distance < other => Amount::Passing(distance),
        Amount::Passing(_) | Amount::Within(_) => amount,
    }
}
