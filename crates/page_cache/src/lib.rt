//! Where each page of a file or an object is, at home, in a frame or in a slot of swap, and which are touched. The home of a
//! file page is the store, and that of a page of an object is zeros.
//! A call changes the named page alone, and none but `PageCache::new` takes memory.
#![tactic(auto)]

mod cache;
mod gathering;
mod index;
mod node_set;
mod place;

pub use cache::PageCache;
pub use gathering::FileRow;
pub use place::{Place, TooMany};
