//! The directory of the new store.
ghost use Rattle.std.specs.Prelude.{◌≡◌, ◌≤◌, ◌<◌, ◌+◌, ◌^◌, IfSome};
ghost use Rattle.pool_journal.specs.Sizes.{HasPool};
ghost use Rattle.sync_journal.specs.Steps.{WritesInto};
ghost use Rattle.pool_store.specs.Format.{IsHomeSector, new_pages};
ghost use Rattle.upgrades.specs.NewPool.{files_in, entry_kept, entry_made, HaveShortLengths, IsDirectoryPage, HoldsDirectory};

use crate::places::{first_of, pages_of};
use directories::{Entry, PAGE_ENTRIES, write_entry};
use disk_model::{DiskFault, SectorDisk};
use file_store::LISTED_FILES;
use pool_journal::PoolSizes;
use pool_store::{DIRECTORY_PAGES, extents_of};
use sync_journal::write_page;
use vm_types::FileInfo;

/// Writes the directory of these files to its homes, and syncs nothing.
pub(crate) fn write_directory<D: SectorDisk>(
    disk: &mut D,
    sizes: PoolSizes,
    files: &[Option<FileInfo>; LISTED_FILES],
) -> Result<(), DiskFault>
    requires pool { HasPool D.SectorDisk sizes disk.old }
    requires homes { new_pages ≤ sizes.homes }
    requires short { HaveShortLengths files.now }
    ensures { WritesInto D.SectorDisk (IsHomeSector sizes.blocks 0 new_pages) (IsHomeSector sizes.blocks 0 new_pages) (HoldsDirectory sizes.blocks (files_in files.now) new_pages (D.content disk.new)) disk.old disk.new result }
{
    for page in 0..DIRECTORY_PAGES {
        let bytes = directory_page(files, page as usize);
        let first = sizes.home(page);
        write_page(disk, first, &bytes)?;
    }
    Ok(())
}

/// A page of the directory of these files.
fn directory_page(files: &[Option<FileInfo>; LISTED_FILES], page: usize) -> [u8; 4096]
    requires place { page < 4 }
    requires short { HaveShortLengths files.now }
    ensures { IsDirectoryPage (files_in files.now) page result }
{
    let mut bytes = [0; 4096];
    for place in 0..PAGE_ENTRIES {
        let entry = new_entry(files, PAGE_ENTRIES * page + place);
        write_entry(&mut bytes, place, &entry);
    }
    bytes
}

/// The entry of file `f`, or none where there is no such file.
fn new_entry(files: &[Option<FileInfo>; LISTED_FILES], f: usize) -> Option<Entry>
    requires place { f < 64 }
    requires short { HaveShortLengths files.now }
    ensures is { result ≡ entry_kept (files_in files.now) f }
    ensures few { IfSome result (λ e. e.extent_count ≤ 30) }
{
    let info = files[f]?;
    Some(entry_of(info, first_of(files, f)))
}

/// The entry of a file whose homes follow one another from `first` on.
fn entry_of(info: FileInfo, first: u32) -> Entry
    requires { info.length < 2 ^ 32 }
    ensures is { result ≡ entry_made first info }
    ensures few { result.extent_count ≤ 30 }
{
    let count = pages_of(Some(info));
    Entry {
        read_only: info.read_only,
        length: info.length,
        extent_count: count.min(1),
        extents: extents_of(first, count),
    }
}
