//! The numbers and the names of faults.

ghost use Rattle.std.specs.Prelude.{◌≡◌};
ghost use Rattle.explanations.specs.Faults.{fault_name, fault_number};

use ast::Fault;

/// The number of a fault.
pub fn fault_number(fault: Fault) -> u8
    ensures { result ≡ fault_number fault }
{
    match fault {
        Fault::Overflow => 1,
        Fault::Index => 2,
        Fault::ZeroDivisor => 3,
        Fault::ZeroStep => 4,
        Fault::EndOfInput => 5,
        Fault::BadInput => 6,
    }
}

/// The name of a fault.
pub fn fault_name(fault: Fault) -> &'static [u8]
    ensures { result.now ≡ fault_name fault }
{
    match fault {
        Fault::Overflow => b"OVERFLOW",
        Fault::Index => b"INDEX",
        Fault::ZeroDivisor => b"ZERO DIVISOR",
        Fault::ZeroStep => b"ZERO STEP",
        Fault::EndOfInput => b"END OF INPUT",
        Fault::BadInput => b"BAD INPUT",
    }
}
