//! Why a commit of lengths failed.
ghost use Rattle.std.specs.Prelude.{◌≡◌};
ghost use Rattle.sized_stores.specs.Faults.{fault_of};

use sync_journal::CommitFault;

/// Why lengths of files, and pages with them, did not become durable.
#[derive(Clone, Copy, Debug, PartialEq, Eq)]
pub enum SizeFault {
    /// The device failed.
    Device,
    /// The source of the pages failed.
    Source,
    /// The store has no homes for what files are longer by, or no slots for what is to be written.
    NoRoom,
}

impl From<CommitFault> for SizeFault {
    ghost from_gives = { λ given fault. fault ≡ fault_of given };

    fn from(fault: CommitFault) -> Self {
        match fault {
            CommitFault::Device => SizeFault::Device,
            CommitFault::Source => SizeFault::Source,
        }
    }
}
