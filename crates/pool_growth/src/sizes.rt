//! What is to become of files.

/// What a file is from then on: a caller says no more of it, and its extents are found for it.
#[repr(C)]
#[derive(Clone, Copy, Debug, PartialEq, Eq)]
pub struct FileSize {
    /// Its number.
    pub file: u32,
    /// 0 where it goes, and any other number where it is there.
    pub is_there: u32,
    /// In bytes, 2^42 at most. Of a file that goes nothing more is said by it.
    pub length: u64,
}
