//! Where a page of a process is found in a running machine: the way of its address through the page tables, what stood at its end before an access, and
//! which frames the clock's hand passed and spared on its account, and what pages show that lie in no frame. Nothing is changed by it.
#![tactic(auto)]

mod attrs;
mod homes;
mod sparing;
mod targets;
mod way;

pub use attrs::attr_of;
pub use homes::{HomeView, home_of};
pub use sparing::Uses;
pub use targets::{Behind, Target};
pub use way::{Way, frame_in, pages_of_entry, slot_in, top_level, user_end};
