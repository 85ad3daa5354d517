//! What is asked of a mapping's pages.
ghost use Rattle.std.specs.Prelude.{◌+◌, ◌<◌, ◌^◌};

use vm_types::{MapSource, Placing, Prot};

/// What an mmap asks for. Its address and its length are in bytes.
#[derive(Clone, Copy)]
pub struct MapRequest {
    pub addr: u64,
    pub len: u64,
    pub prot: Prot,
    pub source: MapSource,
    pub placing: Placing,
}

/// The same, with its length in pages.
#[derive(Clone, Copy)]
pub(crate) struct Mapping {
    pub addr: u64,
    pub pages: u64,
    pub prot: Prot,
    pub source: MapSource,
    pub placing: Placing,
}

/// What an mprotect asks for. Its address and its length are in bytes.
#[derive(Clone, Copy)]
pub struct ProtectRequest {
    pub addr: u64,
    pub len: u64,
    pub prot: Prot,
}

/// The `pages` pages from `first` on, the end of which is a number of a `u64`.
#[derive(Clone, Copy)]
pub(crate) struct PageRange {
    pub first: u64,
    pub pages: u64,
    pub ghost row: { first + pages < 2 ^ 64 },
}
