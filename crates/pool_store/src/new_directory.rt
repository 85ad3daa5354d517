//! The directory of a new store.
ghost use Rattle.std.specs.Prelude.{◌≡◌, ◌+◌, ◌<◌, ◌≤◌, ◌^◌, length, IfSome};
ghost use Rattle.file_store.specs.Format.{first_home, total_pages};
ghost use Rattle.pool_journal.specs.Sizes.{HasPool};
ghost use Rattle.sync_journal.specs.Steps.{WritesInto};
ghost use Rattle.pool_store.specs.Format.{IsHomeSector, IsDirectoryPage, HomesHoldDirectory, entry_given, entry_made, extents_room, new_pages, new_files};

use crate::sizes::DIRECTORY_PAGES;
use directories::{EXTENTS, Entry, Extent, PAGE_ENTRIES, write_entry};
use disk_model::{DiskFault, SectorDisk};
use file_store::{FileSource, pages_of};
use pool_journal::PoolSizes;
use sync_journal::write_page;

/// Writes the directory of these files to its homes, and syncs nothing.
pub(crate) fn write_directory<D: SectorDisk, R>(
    disk: &mut D,
    sizes: PoolSizes,
    sources: &[FileSource<R>],
) -> Result<(), DiskFault>
    requires pool { HasPool D.SectorDisk sizes disk.old }
    requires files { length sources.now ≤ new_files }
    requires homes { new_pages + total_pages sources.now ≤ sizes.homes }
    ensures { WritesInto D.SectorDisk (IsHomeSector sizes.blocks 0 new_pages) (IsHomeSector sizes.blocks 0 new_pages) (HomesHoldDirectory sizes.blocks sources.now new_pages (D.content disk.new)) disk.old disk.new result }
{
    for page in 0..DIRECTORY_PAGES {
        let bytes = directory_page(sources, page as usize);
        let first = sizes.home(page);
        write_page(disk, first, &bytes)?;
    }
    Ok(())
}

/// A page of the directory of these files.
fn directory_page<R>(sources: &[FileSource<R>], page: usize) -> [u8; 4096]
    requires page { page < 4 }
    requires homes { new_pages + total_pages sources.now ≤ 2 ^ 30 }
    ensures { IsDirectoryPage sources.now page result }
{
    let mut bytes = [0; 4096];
    for place in 0..PAGE_ENTRIES {
        let entry = new_entry(sources, PAGE_ENTRIES * page + place);
        write_entry(&mut bytes, place, &entry);
    }
    bytes
}

/// The entry of file `f`, none past the last of these files.
fn new_entry<R>(sources: &[FileSource<R>], f: usize) -> Option<Entry>
    requires { new_pages + total_pages sources.now ≤ 2 ^ 30 }
    ensures is { result ≡ entry_given sources.now f }
    ensures few { IfSome result (λ e. e.extent_count ≤ 30) }
    ensures short { IfSome result (λ e. e.length < 2 ^ 32) }
{
    if f >= sources.len() {
        return None;
    }
    let first = first_of(sources, f);
    let source = &sources[f];
    Some(entry_of(source, first))
}

/// The first home of file `f`: behind the directory and the homes of the files before it.
fn first_of<R>(sources: &[FileSource<R>], f: usize) -> u32
    requires file { f < length sources.now }
    requires homes { new_pages + total_pages sources.now ≤ 2 ^ 30 }
    ensures { result ≡ new_pages + first_home sources.now f }
{
    let before = pages_of(&sources[..f]) as u32;
    DIRECTORY_PAGES + before
}

/// The entry of a file whose homes follow one another from `first` on.
fn entry_of<R>(source: &FileSource<R>, first: u32) -> Entry
    ensures is { result ≡ entry_made first source.now }
    ensures few { result.extent_count ≤ 30 }
    ensures short { result.length < 2 ^ 32 }
{
    let count = source.pages() as u32;
    let length = length_of(source);
    let extent_count = count.min(1);
    let extents = extents_of(first, count);
    Entry {
        read_only: source.read_only,
        length,
        extent_count,
        extents,
    }
}

/// The length of a file in bytes, which is of four bytes.
fn length_of<R>(source: &FileSource<R>) -> u64
    ensures is { result ≡ source.now.length }
    ensures short { result < 2 ^ 32 }
{
    u64::from(source.length)
}

/// One extent of so many homes, or none where they are none, and behind it none.
pub fn extents_of(first: u32, count: u32) -> [Extent; EXTENTS]
    ensures { result ≡ extents_room first count }
{
    let mut extents = [Extent { first: 0, count: 0 }; EXTENTS];
    if count == 0 {
        return extents;
    }
    extents[0] = Extent { first, count };
    extents
}
