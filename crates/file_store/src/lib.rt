//! A store of up to 64 files of fixed lengths on a row of sectors, whose pages change all at once or not at all,
//! whatever moment the device stops at.
//!
//! The store's format is our own; sectors are of 512 bytes, pages of 4,096. Layout 2:
//!
//! | Sectors | Content |
//! |---|---|
//! | 0 | layout mark: the bytes `FAMSYNC2` 64 times |
//! | 1 | directory: for each of 64 files two little-endian `u32`s: bit 31 present, bit 30 read-only, bits 0 to 29 the first home page; the length in bytes |
//! | 2 to 8,194 | the journal (`sync_journal`) |
//! | 8,195 on | home page `h` is sectors `8195 + 8 h` to `8202 + 8 h` |
//!
//! Stores are made and opened in layout 2 alone. `upgrade` makes one of a store of layout 1, and `OldStore` reads what stands in one of
//! layout 1, 2 or 3.
//!
//! A file of `n` bytes has `n / 4096` (rounded up) home pages, one after the other. Past its end it reads as zeros.
//! After Park, Kelly and Shen, "Failure-Atomic msync(): A Simple and Efficient Mechanism for Preserving the
//! Integrity of Durable Data" (EuroSys 2013).
#![tactic(auto)]

mod commits;
mod directory;
mod faults;
mod formatting;
mod layout;
mod old_store;
mod opening;
mod pages;
mod resuming;
mod sources;
mod store;
mod trimmed;
mod upgrading;
mod version;

pub use directory::Entry;
pub use faults::{FormatFault, OpenFault, UpgradeFault};
pub use formatting::format;
pub use layout::{DIRECTORY_SECTOR, KIND_SECTOR, LISTED_FILES, MARK_SECTOR};
pub use old_store::OldStore;
pub use opening::stops_in_a_row;
pub use pages::trim;
pub use sources::{FileSource, image_bytes, pages_of};
pub use store::FileStore;
pub use upgrading::upgrade;
pub use version::{is_any_mark, is_pool_mark, mark_bytes, marks, pool_mark};
