//! Stores of layout 2 or 3 (`file_store`), made anew in layout 4 (`pool_store`) on another device.
//!
//! Each file keeps its number, its length and whether it may only be read. In the new store it is one extent, an empty file none: the files follow one
//! another in the order of their numbers, behind a directory of four pages. What stood in a journal stands in the homes then, and the pool is empty.
#![tactic(auto)]

mod copying;
mod finding;
mod new_directory;
mod old_files;
mod places;
mod upgrading;
mod writing;

pub use upgrading::upgrade;
