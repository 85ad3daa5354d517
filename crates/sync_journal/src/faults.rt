//! Why a commit or a recovery gave up.
ghost use Rattle.std.specs.Prelude.{◌≡◌};
ghost use Rattle.sync_journal.specs.declared.faults.CommitFault.TheVariants.{Source, Device as CommitDevice};
ghost use Rattle.sync_journal.specs.declared.faults.RecoverFault.TheVariants.{Device as RecoverDevice};

use crate::source::SourceFault;
use disk_model::DiskFault;
use thiserror::Error;

/// Why a commit gave up. `Display` gives its name.
#[derive(Clone, Copy, Debug, PartialEq, Eq, Error)]
pub enum CommitFault {
    /// The source failed. The store stands for what it did, and the commit may be tried again.
    #[error("SOURCE")]
    Source = 1,
    /// The device failed. The journal isn't used again until recovery.
    #[error("{}", RecoverFault::Device)]
    Device = 2,
}

impl From<DiskFault> for CommitFault {
    ghost from_gives = { λ _ fault. fault ≡ CommitDevice };

    fn from(_: DiskFault) -> Self {
        CommitFault::Device
    }
}

impl From<SourceFault> for CommitFault {
    ghost from_gives = { λ _ fault. fault ≡ Source };

    fn from(_: SourceFault) -> Self {
        CommitFault::Source
    }
}

/// Why a recovery gave up. `Display` gives its name.
#[derive(Clone, Copy, Debug, PartialEq, Eq, Error)]
pub enum RecoverFault {
    /// The device failed.
    #[error("DEVICE")]
    Device = 1,
    /// The gate is open before a map that no commit writes. Nothing was written.
    #[error("BADJOURNAL")]
    BadJournal = 2,
}

impl From<DiskFault> for RecoverFault {
    ghost from_gives = { λ _ fault. fault ≡ RecoverDevice };

    fn from(_: DiskFault) -> Self {
        RecoverFault::Device
    }
}
