//! Why a store could not be opened.
ghost use Rattle.std.specs.Prelude.{◌≡◌};
ghost use Rattle.pool_store.specs.declared.faults.OpenFault.TheVariants.{Device, BadLayout, Memory};

use directories::{EntryFault, LayoutFault};
use disk_model::DiskFault;
use std::alloc::AllocError;
use sync_journal::RecoverFault;
use thiserror::Error;

/// Why a store could not be opened. `Display` gives its name, as the programs print it.
#[derive(Clone, Copy, Debug, PartialEq, Eq, Error)]
pub enum OpenFault {
    /// The device failed.
    #[error("{}", RecoverFault::Device)]
    Device = 1,
    /// Sector 0 is not the mark, sector 1 no kind, the device has too few sectors for what that says, or the directory is bad: an entry is
    /// none, a file's length is over 2^42, or its extents lie outside of the store, are too few or share
    /// a home. Nothing was written.
    #[error("BADLAYOUT")]
    BadLayout = 2,
    /// There was no memory for what an open store keeps there.
    #[error("MEMORY")]
    Memory = 3,
}

impl From<DiskFault> for OpenFault {
    ghost from_gives = { λ _ fault. fault ≡ Device };

    fn from(_: DiskFault) -> Self {
        OpenFault::Device
    }
}

impl From<AllocError> for OpenFault {
    ghost from_gives = { λ _ fault. fault ≡ Memory };

    fn from(_: AllocError) -> Self {
        OpenFault::Memory
    }
}

impl From<EntryFault> for OpenFault {
    ghost from_gives = { λ _ fault. fault ≡ BadLayout };

    fn from(_: EntryFault) -> Self {
        OpenFault::BadLayout
    }
}

impl From<LayoutFault> for OpenFault {
    ghost use Rattle.pool_store.specs.Faults.{layout_fault};

    ghost from_gives = { λ given fault. fault ≡ layout_fault given };

    fn from(fault: LayoutFault) -> Self {
        match fault {
            LayoutFault::Outside(_) | LayoutFault::Short(_) | LayoutFault::Shared(_, _) => {
                OpenFault::BadLayout
            }
            LayoutFault::Memory => OpenFault::Memory,
        }
    }
}
