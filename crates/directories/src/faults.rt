//! Why a directory is bad.
ghost use Rattle.std.specs.Prelude.{◌≡◌};
ghost use Rattle.directories.specs.declared.faults.LayoutFault.TheVariants.{Memory};

use std::alloc::AllocError;

/// Why the entries of a directory are bad. A file is named by its number, which counts its entry from 0 over all pages.
#[derive(Clone, Copy, Debug, PartialEq, Eq)]
pub enum LayoutFault {
    /// An extent of this file has a home that is the directory's, or past the last one of the device.
    Outside(u32),
    /// This file has more pages than its extents have homes.
    Short(u32),
    /// Two extents, of the first file and of the second, or two of one file, have a home in common.
    Shared(u32, u32),
    /// There was no memory to find out whether two extents have a home in common; each file by itself is good then.
    Memory,
}

impl From<AllocError> for LayoutFault {
    ghost from_gives = { λ _ fault. fault ≡ Memory };

    fn from(_: AllocError) -> Self {
        LayoutFault::Memory
    }
}
