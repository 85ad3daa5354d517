//! What the memory of a machine holds, told as values: the way of an address through the page tables, the entries and runs of a process, what each frame
//! and each slot holds, files as they are, and the lines of the buffer of translations. Nothing here changes anything, and nothing above knows how memory is kept.
#![tactic(auto)]

mod buffer;
mod files;
mod frame_views;
mod pages;
mod places;
mod slots;
mod tables;
mod views;
mod walks;

pub use files::FileView;
pub use frame_views::{FrameView, Holding, Mapper};
pub use memory::Line;
pub use page_cache::Place;
pub use pages::PageEntry;
pub use places::PageView;
pub use regions::Run;
pub use slots::{SlotHolding, SlotView};
pub use tables::TablePlace;
pub use views::{
    file_view, frame_view, hand, line, next_entry, next_mapper, next_run, next_step, next_swapped,
    page_view, place_of_table, root_step, slot_view,
};
pub use walks::Step;
