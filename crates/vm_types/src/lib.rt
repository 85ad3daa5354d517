//! The words that every layer shares: numbers of pages, frames and processes, permissions, accesses,
//! commands, replies and their refusals. The flat model that the whole system is proved against stands in `specs/`.
#![tactic(auto)]

mod access;
mod command;
mod file;
mod history;
mod mode;
mod number;
mod object;
mod permission;
mod refusal;
mod region;
mod reply;
mod width;

pub use access::{Access, StoredValue};
pub use command::{Command, MapSource, MsyncMode, Placing};
pub use file::{FileInfo, FilePage};
pub use history::History;
pub use mode::{Levels, Mode, Sv39, Sv48, WIDEST_END};
pub use number::{FrameNo, NoFree, Phys, Pid, SlotNo, TooManyRuns, Vpn};
pub use object::{ObjectPage, PageKey};
pub use permission::Prot;
pub use refusal::{Code, Errno, Fault, Stall};
pub use region::{Attr, Backing};
pub use reply::{Answer, Reply};
pub use width::Width;

/// Bytes of a page, a frame and a slot.
pub const PAGE_BYTES: usize = 4096;

/// The first user page, at address `0x10000`.
pub const USER_START: u64 = 16;

/// The most processes that live at once; their numbers are 1 to this one.
pub const PROCESSES: usize = 64;

/// The most files of an image; their numbers are 0 to one less.
pub const FILES: usize = 4096;

/// The most bytes of a file: its pages are 2^30 at most.
pub const LONGEST_FILE: u64 = 1 << 42;

/// The most objects that processes name at once: each has at most 256 runs, and a run names one. The number of a new
/// object is at most this.
pub const NAMED_OBJECTS: usize = 64 * 256;

/// The most faults that are kept.
pub const FAULTS: usize = 16;
