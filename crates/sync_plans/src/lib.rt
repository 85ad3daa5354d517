//! Plans of device calls for the image of a store: this crate never touches a device. It works on the bytes of an image
//! that the caller lends, and lists the writes and syncs that the caller has to make of the image's file. What a stop in
//! the midst of them leaves is a theorem on `plan_open`, `plan_tidy`, `plan_commit` and `plan_resize`.
#![tactic(auto)]

mod call;
mod laws;
mod lent_pages;
mod plan_disk;
mod planning;
mod requests;
mod resizing;
mod scratch;
mod updates;

pub use call::Call;
pub use laws::longer_images_stand_as_before;
pub use lent_pages::PageBytes;
pub use planning::{file_facts, plan_commit, plan_open, plan_resize, plan_tidy, read_page};
pub use requests::Refusal;
pub use resizing::ResizeRefusal;
pub use scratch::Scratch;
pub use updates::{PageUpdates, SizeUpdates};
