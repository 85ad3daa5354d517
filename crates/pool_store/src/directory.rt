//! The directory in memory.
ghost use Rattle.std.specs.Prelude.{◌≡◌, ◌<◌, ◌≤◌, ◌^◌, ℕ, get_or, Some, None, IsSome};
ghost use Rattle.vm_types.specs.Limits.{file_limit};
ghost use Rattle.directories.specs.declared.entry.Entry.{Entry};

use directories::Entry;
use vm_types::{FileInfo, FilePage};

/// What a store's files are.
#[derive(Drop)]
pub struct Directory {
    /// How many pages it has on the device, 1 to 256.
    pub pages: u32,
    /// One for each file that these have room for.
    pub entries: Vec<Option<Entry>>,
    /// No file has a number past the last one, or more bytes than a file may have.
    pub ghost numbers: { (f : ℕ) (e : Entry) → get_or entries.items f None ≡ Some e → f < 4096 },
    pub ghost lengths: { (f : ℕ) (e : Entry) → get_or entries.items f None ≡ Some e → e.length ≤ 2 ^ 42 },
}

impl Directory {
    ghost use Rattle.std.specs.Option.{option_map, option_copied};
    ghost use Rattle.file_store.specs.Standing.{IsPageOf};
    ghost use Rattle.pool_store.specs.Store.{entry_of, info_by, home_of, IsDirectoryOn};

    /// The entry of a file of any number.
    pub fn entry(&self, n: usize) -> Option<&Entry>
        ensures { option_copied result ≡ entry_of self.now n }
    {
        self.entries.get(n)?.as_ref()
    }

    /// What is fixed of a file of any number.
    pub fn info(&self, n: usize) -> Option<FileInfo>
        ensures info { result ≡ info_by self.now n }
        ensures number { IsSome result → n < file_limit }
    {
        let entry = self.entry(n)?;
        Some(FileInfo {
            length: entry.length,
            read_only: entry.read_only,
        })
    }

    /// The home of a page that begins inside its file: one of the device's, of which there are `2 ^ 30` at most.
    pub fn home_of(&self, page: FilePage) -> u32
        requires on { (homes : ℕ) × (homes ≤ 2 ^ 30) × IsDirectoryOn homes self.now }
        requires inside { IsPageOf (info_by self.now) page.file page.page }
        ensures home { home_of self.now page ≡ Some result }
        ensures inside { (homes : ℕ) → IsDirectoryOn homes self.now → result < homes }
    {
        let Some(entry) = self.entry(usize::from(page.file)) else {
            unreachable!();
        };
        let Some(home) = entry.home_of_page(u64::from(page.page)) else {
            unreachable!();
        };
        home as u32
    }
}
