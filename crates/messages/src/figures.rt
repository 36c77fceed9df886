//! What standard error says of how a run went.

use itoa::Buffer;
use processors::Effort;
use std::fmt::{Display, Formatter, Result as FmtResult, Write};
use threaded::Figures;

/// A number in decimal, with a comma before each three digits.
#[derive(Clone, Copy)]
struct Grouped(u128);

impl Display for Grouped {
    fn fmt<W: Write>(&self, f: &mut Formatter<W>) -> FmtResult {
        let mut buffer = Buffer::new();
        let digits = buffer.format(self.0);
        for (place, digit) in digits.chars().enumerate() {
            if place > 0 && digits.len().saturating_sub(place) % 3 == 0 {
                f.write_char(',')?;
            }
            f.write_char(digit)?;
        }
        Ok(())
    }
}

/// Tenths, with one digit behind the point.
#[derive(Clone, Copy)]
struct Tenths(u128);

impl Display for Tenths {
    fn fmt<W: Write>(&self, f: &mut Formatter<W>) -> FmtResult {
        write!(f, "{}.{}", self.0 / 10, self.0 % 10)
    }
}

/// How many processors were at work at once on average, at most, where a step takes each as long:
/// the steps of all by those of the one that made most; in tenths, rounded.
fn busy(efforts: &[Effort]) -> Tenths {
    let mut all: u128 = 0;
    let mut most: u128 = 0;
    for effort in efforts {
        let steps = u128::from(effort.steps);
        all = all.saturating_add(steps);
        most = most.max(steps);
    }
    let rounded = all.saturating_mul(10).saturating_add(most / 2);
    Tenths(rounded.checked_div(most).unwrap_or(0))
}

/// Says on standard error what each processor did, and then, of the whole run, how many steps there
/// were, how many the program takes alone, how far iterations overlapped and how busy processors
/// were.
pub fn say_figures<R: Eprint>(rt: &R, figures: &Figures) {
    for (q, effort) in figures.efforts.iter().enumerate() {
        let Effort { steps, waits } = effort;
        let _ = eprintln!(rt; "doac: processor {q}: steps {steps}, waits {waits}");
    }
    let made = Grouped(figures.made);
    let busy = busy(&figures.efforts);
    let overlap = figures.overlap;
    let open = if overlap == 1 {
        "iteration"
    } else {
        "iterations"
    };
    let _ = eprint!(rt; "doac: steps {made}; ");
    if let Some(alone) = figures.alone {
        let _ = eprint!(rt; "alone {}; ", Grouped(alone));
    }
    let _ = eprintln!(rt;
        "at most {overlap} {open} open; processors busy at most {busy} on average"
    );
}
