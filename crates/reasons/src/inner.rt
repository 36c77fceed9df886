//! Which loops inside a chain would overlap if that were serial, in words.

use crate::course::Amount;
use codegen::LoopReport;
use dependence::{LoopPlan, SerialReason};
use explanations::append_number;
use loop_tree::{LoopTree, LoopView};
use placement::place;
use std::alloc::{AllocError, Global};

/// Whether the loop of a number is serial only as one around it may be open.
fn is_held_back(reports: &[LoopReport], number: usize) -> bool {
    reports.get(number.wrapping_sub(1)).is_some_and(|report| matches!(
        report.plan,
        LoopPlan::Serial(SerialReason::Inside)
    ))
}

/// Whether a loop stands in the one of a number, and would be open if that were serial: no loop
/// between them would.
fn is_next_in(view: &LoopView<'_, '_>, number: usize, reports: &[LoopReport]) -> bool {
    let mut around = *view;
    for _ in 0..view.count() {
        if around.outer() == Some(number) {
            return true;
        }
        match (around.outer(), around.around()) {
            (Some(place), Some(outer)) if !is_held_back(reports, place) => around = outer,
            _ => return false,
        }
    }
    false
}

/// What the plan of a loop would amount to if no loop around it were open; nothing where it would
/// stay serial.
fn amount_of(alloc: Global, view: &LoopView<'_, '_>) -> Result<Option<Amount>, AllocError> {
    let placed = place(alloc, view, false)?;
    match &placed.plan {
        LoopPlan::Body { body, .. } => Ok(Some(Amount::of(alloc, body)?)),
        LoopPlan::Serial(_) => Ok(None),
    }
}

/// Appends what iterations of a loop would wait for.
fn append_waits(out: &mut Vec<u8>, amount: &Amount) -> Result<(), AllocError> {
    match amount {
        Amount::Nobody => out.extend_from_slice(b"they wait for nobody (DOALL)"),
        Amount::Passing(_) => out.extend_from_slice(b"any number at once"),
        Amount::Within(stretch) => {
            out.extend_from_slice(b"up to ")?;
            append_number(out, stretch.distance)?;
            out.extend_from_slice(b" at once")
        }
    }
}

/// Appends that iterations of a loop inside would overlap, if they would, and gives whether.
fn append_loop(
    alloc: Global,
    out: &mut Vec<u8>,
    view: &LoopView<'_, '_>,
) -> Result<bool, AllocError> {
    let Some(amount) = amount_of(alloc, view)? else {
        return Ok(false);
    };
    if amount.is_chain() {
        return Ok(false);
    }
    out.extend_from_slice(b"  if it were serial, iterations of the loop in line ")?;
    append_number(out, view.line())?;
    out.extend_from_slice(b" would overlap: ")?;
    append_waits(out, &amount)?;
    out.extend_from_slice(b"\n")?;
    Ok(true)
}

/// Appends those loops inside that would overlap, and gives whether there are any.
fn append_loops(
    alloc: Global,
    out: &mut Vec<u8>,
    tree: &LoopTree<'_>,
    number: usize,
    reports: &[LoopReport],
) -> Result<bool, AllocError> {
    let mut any = false;
    for inner in number..tree.count() {
        let view = tree.view(inner + 1);
        if is_held_back(reports, inner + 1) && is_next_in(&view, number, reports) {
            any = append_loop(alloc, out, &view)? || any;
        }
    }
    Ok(any)
}

/// Appends which loops inside the one of a number, which is a chain, would overlap if it were
/// serial, and how to leave it so.
pub fn append_inner(
    alloc: Global,
    out: &mut Vec<u8>,
    tree: &LoopTree<'_>,
    number: usize,
    step: Option<i64>,
    reports: &[LoopReport],
) -> Result<(), AllocError> {
    if !append_loops(alloc, out, tree, number, reports)? {
        return Ok(());
    }
    out.extend_from_slice(
        b"    it stays serial where its step is a variable, here one whose value is ",
    )?;
    append_number(out, step.unwrap_or(1))?;
    out.extend_from_slice(b"\n")
}
