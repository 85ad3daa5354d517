//! A buffer of translations (RISC-V Privileged Specification, "Supervisor Memory-Management Fence Instruction": what a walk
//! found may be used again until it is fenced). As long as each line is still the leaf of its page, a look returns what the walk does.
//!
//! Physical memory with a buffer of the translations that walks of its page tables found. It has the calls of `frames` and of
//! `page_tables`; each of them that changes a leaf drops the leaf's line, so a line never says anything else than the tables.
#![tactic(auto)]

mod buffer;
mod laws;
mod line;
mod memory;
mod notes;
mod trees;
mod walking;

pub use buffer::{LINES, TranslationBuffer, lets};
pub use laws::hardware_write;
pub use line::Line;
pub use memory::Memory;
pub use notes::{forget_pages, is_kind, kinds_over, page_over};
pub use trees::{
    entry, entry_in, entry_number, last_table, link_table, missing_tables, number_in, prune, set,
    set_in, set_kept, table_of, take_table,
};
pub use walking::{WalkEnd, walk, walk_page};
