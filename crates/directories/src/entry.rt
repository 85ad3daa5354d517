//! Entries of the directory: what is written down of a file.
use crate::EXTENTS;

/// Homes one after the other.
#[derive(Clone, Copy, Debug, PartialEq, Eq)]
pub struct Extent {
    /// The first of them.
    pub first: u32,
    /// How many they are.
    pub count: u32,
}

/// A file: what an entry of the directory says of it. Its pages are the homes of its extents, in their order.
#[derive(Clone, Copy, Debug, PartialEq, Eq)]
pub struct Entry {
    /// Whether it may only be read.
    pub read_only: bool,
    /// In bytes.
    pub length: u64,
    /// How many extents it has, 0 to 30.
    pub extent_count: u32,
    /// These, in front; what stands behind them counts as none.
    pub extents: [Extent; EXTENTS],
}

/// Why the bytes of an entry are none.
#[derive(Clone, Copy, Debug, PartialEq, Eq)]
pub enum EntryFault {
    /// Its flags are none that a file has.
    Flags,
    /// It is of no file, and not wholly zero.
    NotZero,
    /// It is of a file, and has over 30 extents.
    Extents,
}
