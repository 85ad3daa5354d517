//! Files, which have numbers, lengths and pages.
ghost use Rattle.std.specs.Prelude.{◌≡◌, ◌≤◌};
ghost use Rattle.vm_types.specs.Files.{bytes_inside};

use crate::PAGE_BYTES;

/// A page of a file: the file's number, 0 to 4,095, and the page's, counted from 0 in pages of 4,096 bytes.
#[repr(C)]
#[derive(Clone, Copy, Debug, PartialEq, Eq)]
pub struct FilePage {
    pub file: u16,
    pub page: u32,
}

/// A file: its length in bytes, 2^42 at most, and whether it may only be read.
#[derive(Clone, Copy, Debug, PartialEq, Eq)]
pub struct FileInfo {
    pub length: u64,
    pub read_only: bool,
}

impl FileInfo {
    /// How many bytes of a page, counted from 0, lie inside the file.
    pub fn bytes_inside(self, page: u32) -> usize
        ensures inside { result ≡ bytes_inside self.length page }
        ensures most { result ≤ 4096 }
    {
        let before = PAGE_BYTES as u64 * u64::from(page);
        self.length.saturating_sub(before).min(PAGE_BYTES as u64) as usize
    }
}
