//! Processes that await their turns.

ghost use Rattle.std.specs.Prelude.{◌≡◌, length};
ghost use Rattle.ec_kernel.specs.View.{StandsNowhere};

use ec_kernel::Kernel;
use std::alloc::{AllocError, Global};
use std::test::Fail;

/// The process of a slot works, and its event says so.
fn work(kernel: &mut Kernel, slot: usize, worked: &mut Vec<usize>) -> Result<(), AllocError>
    requires events { length kernel.old.counts ≡ 1 }
    requires taken { StandsNowhere kernel.old slot }
    ensures events { length kernel.new.counts ≡ 1 }
{
    worked.push(slot)?;
    kernel.free_slot(slot);
    if kernel.read(0) < u128::MAX {
        kernel.advance(0);
    }
    Ok(())
}

/// The process of a slot works where its turn has come, and else waits for that.
fn arrive(
    kernel: &mut Kernel,
    slot: usize,
    turn: u128,
    worked: &mut Vec<usize>,
) -> Result<(), AllocError>
    requires events { length kernel.old.counts ≡ 1 }
    requires taken { StandsNowhere kernel.old slot }
    ensures events { length kernel.new.counts ≡ 1 }
{
    if kernel.reached(0, turn) {
        return work(kernel, slot, worked);
    }
    kernel.park(0, turn, slot);
    Ok(())
}

/// Processes come, each with its turn, and work one after another; who has worked, in that order.
fn in_turn(alloc: Global, turns: &[u128]) -> Result<Vec<usize>, AllocError> {
    let mut kernel = Kernel::new(alloc, turns.len(), 1)?;
    let mut worked = Vec::new(alloc);
    for turn in turns {
        if let Some(slot) = kernel.take_slot() {
            arrive(&mut kernel, slot, *turn, &mut worked)?;
        }
    }
    for _ in 0..turns.len() {
        let Some(slot) = kernel.next_ready() else {
            break;
        };
        work(&mut kernel, slot, &mut worked)?;
    }
    Ok(worked)
}

#[test]
fn each_in_its_turn(rt: HostRuntime) -> Result<(), Fail> {
    let worked = in_turn(rt.alloc(), &[2, 1, 0])?;
    assert!(rt; matches!(worked.as_slice(), [2, 1, 0]));
    Ok(())
}
