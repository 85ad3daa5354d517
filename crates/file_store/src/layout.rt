//! Where the parts of the store lie, in sectors.

/// The layout mark.
pub const MARK_SECTOR: u64 = 0;

/// The directory of layouts 1 and 2.
pub const DIRECTORY_SECTOR: u64 = 1;

/// The most files of a store of layouts 1 to 3: the directory has an entry of eight bytes for each.
pub const LISTED_FILES: usize = 64;

/// The kind of layouts 3 and 4.
pub const KIND_SECTOR: u64 = 1;

/// The directory of layout 3.
pub(crate) const DIRECTORY_3: u64 = 9;

/// The bytes of a page.
pub(crate) const PAGE_BYTES: u64 = vm_types::PAGE_BYTES as u64;
