//! What happens to the pages of a row of neighbouring pages of a live process, over memory that evicts: their entries and own
//! copies go, in frames and in slots, other pages come in their place, or they get another permission. No call takes a frame or
//! asks a device, and none can fail. A row costs the tables and the entries that it meets, not its pages.
#![tactic(auto)]

mod clearing;
mod entries;
mod forgetting;
mod leaves;
mod numbering;
mod permitting;
mod remapping;
mod rows;

pub use clearing::clear_row;
pub use entries::{next_entry, next_place};
pub use forgetting::{forget_row, page_in};
pub use numbering::free_object;
pub use permitting::reprotect;
pub use remapping::remap;
pub use rows::{LinkedPart, entry_pages, gap_end, linked_part, table_end, table_start, user_page};
