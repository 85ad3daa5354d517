//! What files are made of.
ghost use Rattle.std.specs.Prelude.{◌≡◌, ◌-◌, ◌*◌, ◌≤◌, ◌^◌, ◌↔◌, min, length, replicate, OnOk, OnErr, IsErrOf, IsSome, IsTrue};
ghost use Rattle.disk_model.specs.Sectors.{sector_bytes};
ghost use Rattle.sync_journal.specs.Layout.{home_sector};
ghost use Rattle.file_store.specs.Layout.{pages_of_length, listed_files};
ghost use Rattle.file_store.specs.Format.{info_of, total_pages, IsPageRead, IsTooLarge, IsDirectoryOf};

use crate::directory::Entry;
use crate::faults::FormatFault;
use crate::layout::{LISTED_FILES, PAGE_BYTES};
use disk_model::SECTOR_BYTES;
use std::io::Read;
use sync_journal::{FIRST_HOME, MAX_HOMES, home_count};
use vm_types::FileInfo;

/// A file of a new store: its length in bytes, whether it may only be read, and the reader whose first `length` bytes
/// it has. Without a reader it has `length` zero bytes.
#[derive(Debug, Drop)]
pub struct FileSource<R> {
    /// Whether stores through shared pages are refused.
    pub read_only: bool,
    /// In bytes.
    pub length: u32,
    /// Its bytes from the first on; `None` for zeros.
    pub bytes: Option<R>,
}

impl<R> FileSource<R> {
    /// How many pages the file has, 2^20 at most.
    pub fn pages(&self) -> u64
        ensures count { result ≡ pages_of_length self.now.length }
        ensures bound { result ≤ 2 ^ 20 }
    {
        u64::from(self.length).div_ceil(PAGE_BYTES)
    }
}

impl<R: Read> FileSource<R> {
    /// Reads page `k`, which follows those that were read before, into a page of zeros: the file's bytes, and zeros past its end.
    /// `Source` comes only where there is a reader, and it failed or ended before the file does.
    pub fn read_page(&mut self, k: u64, page: &mut [u8; 4096]) -> Result<(), FormatFault>
        requires bound { k ≤ 2 ^ 20 }
        requires zeros { page.old ≡ replicate 4096 0 }
        ensures info { info_of self.new ≡ info_of self.old }
        ensures cause { OnErr result (IsErrOf result FormatFault.Source × IsSome self.old.bytes) }
        ensures reader { IsSome self.new.bytes → IsSome self.old.bytes }
        ensures told { OnOk result (IsPageRead R.remaining self.old self.new k page.new) }
    {
        let inside = u64::from(self.length)
            .saturating_sub(PAGE_BYTES * k)
            .min(PAGE_BYTES) as usize;
        let Some(reader) = &mut self.bytes else {
            return Ok(());
        };
        match reader.read_exact(&mut page[..inside]) {
            Ok(()) => Ok(()),
            Err(_) => Err(FormatFault::Source),
        }
    }
}

/// Whether these files are too many or too large for a store of so many sectors.
pub(crate) fn is_too_large<R>(sources: &[FileSource<R>], sectors: u64) -> bool
    ensures { IsTrue result ↔ IsTooLarge sectors sources.now }
{
    sources.len() > LISTED_FILES || sectors < FIRST_HOME || pages_of(sources) > home_count(sectors)
}

/// How many bytes an image of these files has, whose homes end where it ends: `512 * (8195 + 8 H)` for their `H` pages in
/// all, or 2^64 - 1 where that is more.
pub fn image_bytes<R>(sources: &[FileSource<R>]) -> u64
    ensures { result ≡ min (sector_bytes * home_sector (total_pages sources.now)) (2 ^ 64 - 1) }
{
    let bytes = PAGE_BYTES.saturating_mul(pages_of(sources));
    (SECTOR_BYTES as u64 * FIRST_HOME).saturating_add(bytes)
}

/// How many pages the files have, or 2^64 - 1 where that is more.
pub fn pages_of<R>(sources: &[FileSource<R>]) -> u64
    ensures { result ≡ min (total_pages sources.now) (2 ^ 64 - 1) }
{
    let mut total: u64 = 0;
    for source in sources {
        total = total.saturating_add(source.pages());
    }
    total
}

/// The directory sector of these files, whose homes follow one another.
pub(crate) fn directory_of<R>(sources: &[FileSource<R>]) -> [u8; SECTOR_BYTES]
    requires files { length sources.now ≤ listed_files }
    requires homes { total_pages sources.now ≤ 2 ^ 30 }
    ensures { IsDirectoryOf sources.now result }
{
    let mut directory = [0; SECTOR_BYTES];
    let mut first = 0;
    for f in 0..sources.len() {
        let source = &sources[f];
        let info = FileInfo {
            length: u64::from(source.length),
            read_only: source.read_only,
        };
        // Only an empty file's first home can be the one behind the last that a number of 30 bits names.
        let entry = Entry {
            first: (first % MAX_HOMES) as u32,
            info,
        };
        entry.encode(&mut directory[8 * f..]);
        first += source.pages();
    }
    directory
}
