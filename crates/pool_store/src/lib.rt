//! A store of up to 4,096 files of fixed lengths on a row of sectors whose pages stay in a pool of slots, and change all at once or not at
//! all, whatever moment the device stops at: layout 4.
//!
//! The format is our own; sectors are of 512 bytes, pages of 4,096. With maps of `M` blocks, 1 to 2,048, and a directory of `D` pages, 1
//! to 256:
//!
//! | Sectors | Content |
//! |---|---|
//! | 0 | mark: the bytes `FAMSYNC4` 64 times |
//! | 1 | kind: `FAMSYNC4`, `M`, `D`, and `FAMSYNC4` 62 times (`directories`); synced before the mark |
//! | 8 to `15 + 8080 M` | gate, maps and slots (`pool_journal`) |
//! | `16 + 8080 M` on | home page `h` is sectors `16 + 8080 M + 8 h` to `23 + 8080 M + 8 h` |
//!
//! What stands for the homes 0 to `D - 1` is the directory (`directories`): of each file its length, and its extents, whose homes in their
//! order are the file's pages. Past its end a file reads as zeros.
//! After Park, Kelly and Shen, "Failure-Atomic msync(): A Simple and Efficient Mechanism for Preserving the
//! Integrity of Durable Data" (EuroSys 2013).
#![tactic(auto)]

mod commits;
mod directory;
mod faults;
mod formatting;
mod head;
mod new_directory;
mod new_files;
mod opening;
mod placed;
mod reading;
mod resuming;
mod room;
mod sizes;
mod store;
mod tidying;

pub use directory::Directory;
pub use faults::OpenFault;
pub use formatting::{format, write_kind, write_mark};
pub use new_directory::extents_of;
pub use opening::stops_in_a_row;
pub use room::{CommitRoom, Place};
pub use sizes::{DIRECTORY_PAGES, NEW_FILES, image_bytes};
pub use store::PoolStore;
