//! What an msync makes durable: file pages, and the lengths of files.
use vm_types::{Errno, FilePage, FrameNo, MsyncMode, SlotNo};

/// What an msync is asked for: the `len` bytes of a process from `addr` on.
#[derive(Clone, Copy)]
pub struct SyncCall {
    pub pid: u64,
    pub addr: u64,
    pub len: u64,
    pub mode: MsyncMode,
}

/// How an msync is judged.
#[derive(Clone, Copy)]
pub(crate) enum Ruling {
    /// It is refused.
    Refuses(Errno),
    /// It is done, with nothing to make durable.
    Passes,
    /// So many pages and files, at the front of the lists, are made durable.
    Takes(Taken),
}

/// How many pages are taken, and how many files of other lengths, whole.
#[derive(Clone, Copy)]
pub(crate) struct Taken {
    pub pages: usize,
    pub files: usize,
}

/// Pages of a process: those from `first` up to, not including, `end`.
#[derive(Clone, Copy)]
pub(crate) struct PageRow {
    pub first: u64,
    pub end: u64,
}

/// Where a touched page lies, which isn't at home.
#[derive(Clone, Copy)]
pub(crate) enum Residence {
    /// In that frame.
    Framed(FrameNo),
    /// In that slot of swap.
    Slotted(SlotNo),
}

/// A file page and where it lies.
#[derive(Clone, Copy)]
pub(crate) struct Spot {
    pub page: FilePage,
    pub at: Residence,
}
