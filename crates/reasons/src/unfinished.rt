//! Where a run stands that hasn't ended.

use crate::obstacles::{LocalsNext, Picked, SharedStep, ahead, held, write_behind};
use replay::{Choice, Core};
use std::alloc::{AllocError, Global};
use std::fmt::{Display, Formatter, Result as FmtResult, Write};

/// Of how many processors is told what they hold.
const MOST_TOLD: usize = 8;

/// What a processor holds, how many local instructions stand next there, and the shared step behind
/// them.
#[derive(Clone, Copy)]
struct Holding {
    processor: usize,
    held: Choice,
    count: u32,
    step: Option<SharedStep>,
}

/// Who holds what where a run hasn't ended, and who may be picked.
#[derive(Drop)]
pub struct Unfinished {
    holdings: Vec<Holding>,
    next: Option<Choice>,
}

impl Unfinished {
    /// Where a run stands.
    pub fn of(alloc: Global, core: &Core<'_>) -> Result<Self, AllocError> {
        let mut holdings = Vec::new(alloc);
        for q in 0..core.processors() {
            if let Some(holding) = holding_of(core, q)? {
                holdings.push(holding)?;
            }
        }
        let is_idle = holdings.len() < core.processors();
        let may_pick = is_idle && (core.has_ready() || core.has_ticket());
        Ok(Unfinished {
            holdings,
            next: may_pick.then_some(core.least()),
        })
    }
}

/// What processor `q` holds, if it holds anything.
fn holding_of(core: &Core<'_>, q: usize) -> Result<Option<Holding>, AllocError> {
    let Some(frame) = core.frame(q)? else {
        return Ok(None);
    };
    let held = held(&frame);
    let (count, step) = ahead(core.code(), frame)?;
    Ok(Some(Holding {
        processor: q,
        held,
        count,
        step,
    }))
}

impl Display for Holding {
    fn fmt<W: Write>(&self, f: &mut Formatter<W>) -> FmtResult {
        let Holding {
            processor,
            held,
            count,
            step,
        } = *self;
        write!(f, "processor {processor} holds {}", Picked(held))?;
        if count > 0 {
            write!(f, ", with {}", LocalsNext(count))?;
        }
        write_behind(f, count, step)
    }
}

impl Unfinished {
    /// Writes what processors hold, a line for each.
    fn write_holdings<W: Write>(&self, f: &mut Formatter<W>) -> FmtResult {
        if self.holdings.is_empty() {
            return f.write_str("no processor holds anything");
        }
        let told = self.holdings.get(..MOST_TOLD).unwrap_or(&self.holdings);
        for (place, holding) in told.iter().enumerate() {
            if place > 0 {
                f.write_char('\n')?;
            }
            write!(f, "{holding}")?;
        }
        match self.holdings.len().saturating_sub(MOST_TOLD) {
            0 => Ok(()),
            more => write!(f, "\nfurther processors hold something: {more}"),
        }
    }
}

impl Display for Unfinished {
    fn fmt<W: Write>(&self, f: &mut Formatter<W>) -> FmtResult {
        self.write_holdings(f)?;
        match self.next {
            Some(choice) => write!(f, "\none that holds nothing may pick {}", Picked(choice)),
            None => Ok(()),
        }
    }
}
