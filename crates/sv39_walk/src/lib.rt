//! Page table entries and the walks of Sv39 and Sv48 (RISC-V Privileged Specification, "Sv39: Page-Based 39-bit Virtual-Memory
//! System" and "Sv48: Page-Based 48-bit Virtual-Memory System"), over the bytes of memory's frames.
#![tactic(auto)]

mod pte;
mod translation;

pub use pte::{Pte, read_entry};
pub use translation::{WalkFault, table_index, walk};

/// Entries of a table.
pub const TABLE_ENTRIES: u64 = 512;
