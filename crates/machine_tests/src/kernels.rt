//! Kernels.

ghost use Rattle.std.specs.Prelude.{◌≡◌, ◌∷◌, [], Some};
ghost use Rattle.ec_kernel.specs.View.{new_kernel};

use ec_kernel::Kernel;
use std::alloc::AllocError;
use std::test::Fail;

/// Three slots of a new kernel of four are taken, and wait for the second event, which wakes them
/// by value and then arrival.
fn wakes_in_order(kernel: &mut Kernel) -> bool
    requires { kernel.old ≡ new_kernel 4 2 }
    ensures { kernel.new ≡ record {
      slots = 4;
      counts = 1 ∷ 2 ∷ [];
      ticket = 0;
      waiters = [] ∷ []
          ∷ [];
      ready = 1 ∷ 0 ∷ 2 ∷ [];
      free = 3 ∷ [];
    } }
{
    let taken = [kernel.take_slot(), kernel.take_slot(), kernel.take_slot()];
    kernel.park(1, 2, 0);
    kernel.park(1, 1, 1);
    kernel.park(1, 2, 2);
    let woken = [kernel.advance(0), kernel.advance(1)];
    let reached = kernel.reached(1, 2);
    let last = kernel.advance(1);
    taken == [Some(0), Some(1), Some(2)]
        && woken == [0, 1]
        && !reached
        && last == 2
        && kernel.read(1) == 2
}

/// Slots that have woken stay ready where the counts begin anew, and one that is given back is free
/// behind the others.
fn begins_anew(kernel: &mut Kernel) -> bool
    requires { kernel.old ≡ record {
      slots = 4;
      counts = 1 ∷ 2 ∷ [];
      ticket = 0;
      waiters = [] ∷ []
          ∷ [];
      ready = 1 ∷ 0 ∷ 2 ∷ [];
      free = 3 ∷ [];
    } }
{
    let first = kernel.next_ready();
    kernel.free_slot(1);
    let tickets = [kernel.ticket(), kernel.ticket()];
    kernel.reset();
    let counts = [kernel.read(0), kernel.read(1), kernel.ticket()];
    let ready = [
        kernel.next_ready(),
        kernel.next_ready(),
        kernel.next_ready(),
    ];
    let free = [kernel.take_slot(), kernel.take_slot(), kernel.take_slot()];
    first == Some(1)
        && tickets == [0, 1]
        && counts == [0, 0, 0]
        && ready == [Some(0), Some(2), None]
        && free == [Some(3), Some(1), None]
}

#[test]
fn calls_in_order(rt: HostRuntime) -> Result<(), Fail> {
    let mut kernel = Kernel::new(rt.alloc(), 4, 2)?;
    assert!(rt; wakes_in_order(&mut kernel));
    assert!(rt; begins_anew(&mut kernel));
    Ok(())
}

/// Of two slots that have woken the second is taken.
fn takes_from_behind(kernel: &mut Kernel) -> bool
    requires { kernel.old ≡ new_kernel 2 1 }
{
    let taken = [kernel.take_slot(), kernel.take_slot()];
    kernel.park(0, 1, 0);
    kernel.park(0, 1, 1);
    let woken = kernel.advance(0);
    kernel.take_ready(1);
    let ready = [kernel.next_ready(), kernel.next_ready()];
    taken == [Some(0), Some(1)] && woken == 2 && ready == [Some(0), None]
}

#[test]
fn a_ready_slot_taken_from_behind(rt: HostRuntime) -> Result<(), Fail> {
    let mut kernel = Kernel::new(rt.alloc(), 2, 1)?;
    assert!(rt; takes_from_behind(&mut kernel));
    Ok(())
}

/// Whether a new kernel has a free slot.
fn has_a_slot(rt: &HostRuntime) -> Result<bool, AllocError> {
    let mut kernel = Kernel::new(rt.alloc(), 4, 2)?;
    Ok(kernel.take_slot() == Some(0) && kernel.ticket() == 0)
}

#[test]
fn want_of_memory_in_kernels(rt: HostRuntime) -> Result<(), Fail> {
    match has_a_slot(&rt) {
        Ok(has) => assert!(rt; has),
        Err(error) => {
            assert!(rt; has_a_slot(&rt).expect(&rt, "there is memory"));
            return Err(error.into());
        }
    }
    Ok(())
}
