//! Why an access has no place in memory.

use thiserror::Error;
use vm_types::{Fault, Stall};

/// Why an access has no place in memory.
#[derive(Clone, Copy, Debug, PartialEq, Eq, Error)]
pub enum AccessRefusal {
    /// The access faults.
    #[error("the access faults")]
    Fault(Fault),
    /// The access is fine, but memory, swap or a device is wanting.
    #[error("the access stalls")]
    Stall(Stall),
}

impl From<Stall> for AccessRefusal {
    ghost use Rattle.std.specs.Prelude.{◌≡◌};
    ghost use Rattle.fault.specs.declared.refusal.AccessRefusal.TheVariants as Refusal;

    ghost from_gives = { λ stall refusal. refusal ≡ Refusal.Stall stall };

    fn from(stall: Stall) -> Self {
        AccessRefusal::Stall(stall)
    }
}

impl From<Fault> for AccessRefusal {
    ghost use Rattle.std.specs.Prelude.{◌≡◌};
    ghost use Rattle.fault.specs.declared.refusal.AccessRefusal.TheVariants as Refusal;

    ghost from_gives = { λ fault refusal. refusal ≡ Refusal.Fault fault };

    fn from(fault: Fault) -> Self {
        AccessRefusal::Fault(fault)
    }
}
