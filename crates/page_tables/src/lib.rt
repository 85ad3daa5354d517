//! Page tables in frames: for each root a map from page number to entry. A call changes what it names and nothing else,
//! in its own tree and in every other.
#![tactic(auto)]

mod forms;
mod leaves;
mod tables;

pub use forms::{Entry, decode};
pub use leaves::{Grant, entry_over};
pub use tables::{
    entry, entry_number, last_table, link_table, missing_tables, number_in, prune, set, set_in,
    table_of, take_table,
};
