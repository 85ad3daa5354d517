//! The calls of processes on their spaces, and truncate: each returns what its manual page says, in the order of checks that is ours.
#![tactic(auto)]

mod accesses;
mod madvise;
mod mappings;
mod processes;
mod protections;
mod region_room;
mod requests;
mod space;
mod truncating;
mod unmapping;

pub use accesses::{fetch, load, store};
pub use madvise::dontneed;
pub use mappings::mmap;
pub use msync::{SyncCall, SyncRoom, msync};
pub use processes::{exit, fork, spawn};
pub use protections::mprotect;
pub use region_room::RegionRoom;
pub use requests::{MapRequest, ProtectRequest};
pub use truncating::truncate;
pub use unmapping::munmap;
