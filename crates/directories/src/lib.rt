//! The kind and the directory of a store whose files grow (layout 4), as functions over bytes and entries in memory.
//!
//! The format is our own; numbers have their low byte first. Sector 1 is the kind:
//!
//! | Bytes | Content |
//! |---|---|
//! | 0 to 7 | `FAMSYNC4` |
//! | 8 to 11 | the blocks of a map, 1 to 2,048 |
//! | 12 to 15 | the pages of the directory, 1 to 256 |
//! | 16 to 511 | `FAMSYNC4` 62 times |
//!
//! The directory is the first homes of the store, pages of 4,096 bytes, with 16 entries of 256 bytes each:
//!
//! | Bytes | Content |
//! |---|---|
//! | 0 to 3 | flags: 0 no file, and all other bytes are zeros; 1 a file; 3 a file that may only be read |
//! | 4 to 7 | the number of extents, 0 to 30 |
//! | 8 to 15 | the length in bytes |
//! | `16 + 8 i` to `23 + 8 i` | extent `i` of 30: its first home, and how many homes it has |
//!
//! The pages of a file are the homes of its extents, in their order. What stands behind the extents that count is kept, and is not looked at.
#![tactic(auto)]

mod checking;
mod entries;
mod entry;
mod faults;
mod homes;
mod kind;
mod laws;
mod numbers;
mod pieces;

pub use checking::{MAX_FILES, check, lie_within};
pub use entries::{PAGE_ENTRIES, read_entry, read_entry_into, write_entry};
pub use entry::{Entry, EntryFault, Extent};
pub use faults::LayoutFault;
pub use kind::{Kind, KindFault, MAX_DIRECTORY_PAGES, MAX_MAP_BLOCKS};
pub use laws::{entries_are_said, entry_reads_back, good_layouts_give_homes, kind_reads_back};

/// The most extents of a file.
pub const EXTENTS: usize = 30;
