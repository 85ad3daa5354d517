//! What a line of a trace asks for. Numbers stand as they were written, under 2^64; the machine judges them.

use crate::access::StoredValue;
use crate::permission::Prot;
use crate::width::Width;

/// What a mapping is to stand on, as it was asked for (mmap(2), MAP_ANONYMOUS, MAP_PRIVATE and MAP_SHARED).
#[derive(Clone, Copy, Debug, PartialEq, Eq)]
pub enum MapSource {
    /// Pages of zeros. Stores are seen by the process alone (MAP_ANONYMOUS with MAP_PRIVATE).
    Anon,
    /// Pages of a file, from a byte offset on. Stores are seen by the process alone (MAP_PRIVATE).
    Private { file: u64, offset: u64 },
    /// Pages of a file, from a byte offset on. Stores are seen by all mappings of the file (MAP_SHARED).
    Shared { file: u64, offset: u64 },
    /// Pages of zeros. Stores are seen by the process and those that are forked from it (MAP_ANONYMOUS with MAP_SHARED).
    Common,
}

/// How firmly a mapping's address is asked for (mmap(2), MAP_FIXED and MAP_FIXED_NOREPLACE).
#[derive(Clone, Copy, Debug, PartialEq, Eq)]
pub enum Placing {
    /// The address is a hint; 0 is none.
    Hint,
    /// At the address, in place of what is mapped there.
    Fixed,
    /// At the address, and only where nothing is mapped there.
    NoReplace,
}

/// Whether an msync waits (msync(2), MS_SYNC and MS_ASYNC).
#[derive(Clone, Copy, Debug, PartialEq, Eq)]
pub enum MsyncMode {
    Sync,
    Async,
}

/// A command. Addresses and lengths are in bytes.
#[derive(Clone, Copy, Debug, PartialEq, Eq)]
pub enum Command {
    /// Begins a process with no page mapped.
    Spawn,
    /// Begins a process with the pages of another, own copies included (fork(2)).
    Fork {
        pid: u64,
    },
    /// Ends a process (_exit(2)).
    Exit {
        pid: u64,
    },
    /// Maps pages (mmap(2)).
    Mmap {
        pid: u64,
        addr: u64,
        len: u64,
        prot: Prot,
        source: MapSource,
        placing: Placing,
    },
    /// Maps pages no more (munmap(2)).
    Munmap {
        pid: u64,
        addr: u64,
        len: u64,
    },
    /// Gives mapped pages another permission (mprotect(2)).
    Mprotect {
        pid: u64,
        addr: u64,
        len: u64,
        prot: Prot,
    },
    /// Gives up the own copies of pages (madvise(2), MADV_DONTNEED).
    Dontneed {
        pid: u64,
        addr: u64,
        len: u64,
    },
    /// Makes stores to shared pages durable, all at once (msync(2)).
    Msync {
        pid: u64,
        addr: u64,
        len: u64,
        mode: MsyncMode,
    },
    /// Gives a file another length (truncate(2)).
    Truncate {
        file: u64,
        length: u64,
    },
    /// Reads a number.
    Load {
        pid: u64,
        addr: u64,
        width: Width,
    },
    /// Writes a number.
    Store {
        pid: u64,
        addr: u64,
        stored: StoredValue,
    },
    /// Reads an instruction, of four bytes.
    Fetch {
        pid: u64,
        addr: u64,
    },
    /// Asks for the last faults of accesses.
    PastFaults,
}
