//! Why a commit may not make changes.

/// Why changes are refused. Files are named by their numbers.
#[derive(Clone, Copy, Debug, PartialEq, Eq)]
pub enum ChangeFault {
    /// An extent of this file has a home that is the directory's, or past the last one of the device.
    Outside(u32),
    /// This file has more pages than its extents have homes.
    Short(u32),
    /// Two extents, of the first file and of the second, or two of one file, have a home in common.
    Shared(u32, u32),
    /// A new extent of the first file has a home that an extent of the second had before.
    Taken(u32, u32),
}
