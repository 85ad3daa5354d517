//! Why a store could not be opened.
ghost use Rattle.std.specs.Prelude.{◌≡◌};
ghost use Rattle.stores.specs.declared.faults.OpenFault.TheVariants.{Device};

use disk_model::DiskFault;
use file_store::OpenFault as KindFault;
use pool_store::OpenFault as PoolFault;
use thiserror::Error;

/// Why a store could not be opened. `Display` gives its name, as the programs print it.
#[derive(Clone, Copy, Debug, PartialEq, Eq, Error)]
pub enum OpenFault {
    /// The device failed.
    #[error("{}", KindFault::Device)]
    Device = 1,
    /// The image has no layout of a store, as `file_store` and, where its mark is that of a pool, `pool_store` say it. Nothing was written.
    #[error("{}", KindFault::BadLayout)]
    BadLayout = 2,
    /// The gate of a store of layout 2 is open before a map that no commit writes. Nothing was written.
    #[error("{}", KindFault::BadJournal)]
    BadJournal = 3,
    /// There was no memory for what an open store of a pool keeps there. Nothing was written.
    #[error("{}", PoolFault::Memory)]
    Memory = 4,
}

impl From<DiskFault> for OpenFault {
    ghost from_gives = { λ _ fault. fault ≡ Device };

    fn from(_: DiskFault) -> Self {
        OpenFault::Device
    }
}

impl From<KindFault> for OpenFault {
    ghost use Rattle.stores.specs.Faults.{of_kind};

    ghost from_gives = { λ given fault. fault ≡ of_kind given };

    fn from(fault: KindFault) -> Self {
        match fault {
            KindFault::Device => OpenFault::Device,
            KindFault::BadLayout => OpenFault::BadLayout,
            KindFault::BadJournal => OpenFault::BadJournal,
        }
    }
}

impl From<PoolFault> for OpenFault {
    ghost use Rattle.stores.specs.Faults.{of_pool};

    ghost from_gives = { λ given fault. fault ≡ of_pool given };

    fn from(fault: PoolFault) -> Self {
        match fault {
            PoolFault::Device => OpenFault::Device,
            PoolFault::BadLayout => OpenFault::BadLayout,
            PoolFault::Memory => OpenFault::Memory,
        }
    }
}
