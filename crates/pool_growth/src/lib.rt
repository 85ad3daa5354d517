//! Files of a store with a pool that grow, come and go: what a commit may change of them beside their pages, and the commit.
//!
//! A commit takes changes of files (`growth`: a file's number and its entry from then on, none where it goes) and pages. All of it becomes durable at once, or
//! nothing: lengths and extents are entries of the directory, whose pages are committed as all others are.
//!
//! New pages are those behind the last one that their file had. The caller gives those of them that are more than zeros. These go into slots with the others where they
//! are 128 at most, and slots are free for all pages of the commit: an append takes the two syncs of any commit. Where they are more, they take no slots: each is written
//! where it is to stand, which nobody looks at before the directory says that it is a page, and they are synced before that. So as many as the device has homes may
//! come with one commit. Those that are not given become zeros there, a row of homes at a time, so that a file of any length comes with a few calls.
//!
//! A second commit puts all new pages that are given into slots, however many they are. So the store is ready after whatever fault of the source.
#![tactic(auto)]

mod blanking;
mod changes;
mod checking;
mod committing;
mod faults;
mod front;
mod late;
mod lookups;
mod placing;
mod proposing;
mod settling;
mod sizes;
mod slots;

pub use changes::FileChanges;
pub use checking::{check_changes, check_pages};
pub use committing::{commit_changes, commit_in_slots};
pub use faults::{BadChanges, BadPages, BadSizes};
pub use front::ChangeRoom;
pub use lookups::added_count;
pub use proposing::{propose_changes, propose_into};
pub use settling::settle;
pub use sizes::FileSize;
