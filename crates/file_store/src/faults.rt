//! Why a store could not be opened or made.
ghost use Rattle.std.specs.Prelude.{◌≡◌};
ghost use Rattle.file_store.specs.declared.faults.OpenFault.TheVariants.{Device, BadLayout};

use crate::directory::BadDirectory;
use disk_model::DiskFault;
use sync_journal::{CommitFault, RecoverFault};
use thiserror::Error;

/// Why a store could not be opened. `Display` gives its name, as the programs print it.
#[derive(Clone, Copy, Debug, PartialEq, Eq, Error)]
pub enum OpenFault {
    /// The device failed.
    #[error("{}", RecoverFault::Device)]
    Device = 1,
    /// The device has fewer sectors than the layout has before its homes (layout 2 has 8,195), sector 0 is not its mark, or the directory is
    /// bad: an entry of no file is not zero, a file's homes do not end within the store, or two files share a home. Nothing was
    /// written.
    #[error("BADLAYOUT")]
    BadLayout = 2,
    /// The journal that the gate names has a map that no commit writes. Nothing was written.
    #[error("{}", RecoverFault::BadJournal)]
    BadJournal = 3,
}

/// Why a store could not be made. `Display` gives its name, as the programs print it.
#[derive(Clone, Copy, Debug, PartialEq, Eq, Error)]
pub enum FormatFault {
    /// The device failed.
    #[error("{}", RecoverFault::Device)]
    Device = 1,
    /// There are over 64 files, fewer sectors than the layout has before its homes, or not enough home pages. Nothing was written.
    #[error("TOOLARGE")]
    TooLarge = 2,
    /// Sector 0 is the mark of a layout already. Nothing was written.
    #[error("FORMATTED")]
    Formatted = 3,
    /// A source failed or ended early.
    #[error("{}", CommitFault::Source)]
    Source = 4,
}

/// Why a store could not be upgraded. `Display` gives its name, as the programs print it.
#[derive(Clone, Copy, Debug, PartialEq, Eq, Error)]
pub enum UpgradeFault {
    /// The device of the old store failed.
    #[error("OLDDEVICE")]
    OldDevice = 1,
    /// It has fewer sectors than the layout that is upgraded has before its homes, sector 0 is not the mark of that layout, or the
    /// directory is bad for it. Nothing was written.
    #[error("OLDLAYOUT")]
    OldLayout = 2,
    /// Its journal is open with a map that no commit of that layout writes. Nothing was written.
    #[error("OLDJOURNAL")]
    OldJournal = 3,
    /// The device of the new store failed.
    #[error("NEWDEVICE")]
    NewDevice = 4,
    /// It has fewer sectors than its layout has before the homes, or the homes of a file do not end within it. Nothing was written.
    #[error("NEWSMALL")]
    NewSmall = 5,
    /// Its sector 0 is the mark of a layout already. Nothing was written.
    #[error("{}", FormatFault::Formatted)]
    Formatted = 6,
}

impl From<DiskFault> for OpenFault {
    ghost from_gives = { λ _ fault. fault ≡ Device };

    fn from(_: DiskFault) -> Self {
        OpenFault::Device
    }
}

impl From<BadDirectory> for OpenFault {
    ghost from_gives = { λ _ fault. fault ≡ BadLayout };

    fn from(_: BadDirectory) -> Self {
        OpenFault::BadLayout
    }
}

impl From<RecoverFault> for OpenFault {
    ghost use Rattle.file_store.specs.Faults.{open_fault};

    ghost from_gives = { λ given fault. fault ≡ open_fault given };

    fn from(fault: RecoverFault) -> Self {
        match fault {
            RecoverFault::Device => OpenFault::Device,
            RecoverFault::BadJournal => OpenFault::BadJournal,
        }
    }
}

impl From<DiskFault> for FormatFault {
    ghost use Rattle.file_store.specs.declared.faults.FormatFault.TheVariants.{Device as FormatDevice};

    ghost from_gives = { λ _ fault. fault ≡ FormatDevice };

    fn from(_: DiskFault) -> Self {
        FormatFault::Device
    }
}

impl From<OpenFault> for UpgradeFault {
    ghost use Rattle.file_store.specs.Faults.{old_fault};

    ghost from_gives = { λ given fault. fault ≡ old_fault given };

    fn from(fault: OpenFault) -> Self {
        match fault {
            OpenFault::Device => UpgradeFault::OldDevice,
            OpenFault::BadLayout => UpgradeFault::OldLayout,
            OpenFault::BadJournal => UpgradeFault::OldJournal,
        }
    }
}

impl From<DiskFault> for UpgradeFault {
    ghost use Rattle.file_store.specs.declared.faults.UpgradeFault.TheVariants.{NewDevice};

    ghost from_gives = { λ _ fault. fault ≡ NewDevice };

    fn from(_: DiskFault) -> Self {
        UpgradeFault::NewDevice
    }
}
