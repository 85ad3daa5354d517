//! Memory that evicts: the frames, the tables and regions of the processes, the slots of swap, and where each file page is, as one
//! value. Where no frame is free one is evicted: what it held goes to a slot or home, and nobody sees it.
//!
//! What holds of that value between two calls, and wherever a frame is asked for (`IsFit`, in `specs/Parts`), is five sentences:
//!
//! 1. Counts: the share count of a private frame, and of a slot that holds own copies, is the number of entries that name it as
//!    their own, and these all stand at one page number.
//! 2. Trees: each process has a root table of its own, and every other table lies below exactly one root, on the way to a page
//!    that its process has mapped, whether or not the table has entries.
//! 3. Grants: an entry allows nothing that its page's region doesn't; W stands only over a private frame of share count 1 or over
//!    the frame of a shared page; each page of an object is at one page number in all processes.
//! 4. Places: each page of a file or an object is at home, or in a cache frame or a slot of its own, an object's only while some
//!    page names it; each cache frame holds one such page, and each slot in use holds one or own copies.
//! 5. Dirt: a leaf over a cache frame has D only where its page is touched; a touched page is not at home, and one in a slot is
//!    touched.
//!
//! Within a call the count of one seat may be off, and one table in no tree (`IsFitBut`).
#![tactic(auto)]

mod contents;
mod evicting;
mod forgetting;
mod kernel;
mod laws;
mod leaves;
mod looking;
mod obtaining;
mod processes;
mod searches;
mod shares;
mod steps;
mod views;

pub use contents::{Content, content_of};
pub use kernel::{Core, PLACES};
pub use laws::second_chance;
pub use leaves::{Change, change_leaves, page_over};
pub use obtaining::obtain;
pub use views::{next_over, root_of};
