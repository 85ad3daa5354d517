//! The directory on the device.
ghost use Rattle.std.specs.Prelude.{◌≡◌, ◌≤◌, ◌<◌, ◌+◌, ◌^◌, ℕ, false, None, replicate, vec_len, vec_capacity, IsTrue, IsFalse, OnOk, OnErr};
ghost use Rattle.directories.specs.Kinds.{IsDirectorySize};
ghost use Rattle.pool_journal.specs.{Journal.{IsPoolJournal}, Maps.{entries_of}, Pools.{IsPoolRest, slot_by}, Reading.{ReadsHome}, Sizes.{HasPool}};
ghost use Rattle.vm_types.specs.Limits.{longest_file};
ghost use Rattle.pool_store.specs.Pools.{HaveBounds};
ghost use Rattle.pool_store.specs.Reading.{ReadsDirectory, ReadsEntries, AppendsPage, HasNoEntry};

use crate::directory::Directory;
use crate::faults::OpenFault;
use directories::{EXTENTS, Entry, EntryFault, PAGE_ENTRIES, check, read_entry_into};
use disk_model::{DiskFault, SectorDisk};
use pool_journal::PoolJournal;
use std::alloc::Global;
use sync_journal::read_page;
use vm_types::{FILES, LONGEST_FILE};

/// Reads the directory of so many pages, as it stands under the journal. Nothing is written.
pub(crate) fn read_directory<D: SectorDisk>(
    alloc: Global,
    disk: &mut D,
    journal: &PoolJournal,
    pages: u32,
) -> Result<Directory, OpenFault>
    requires is { IsPoolJournal journal.now }
    requires pool { HasPool D.SectorDisk journal.now.sizes disk.old }
    requires sized { IsDirectorySize pages }
    requires inside { pages ≤ journal.now.sizes.homes }
    requires rest { D.keeps_model disk.old → IsPoolRest D.SectorDisk journal.now.sizes.blocks journal.now.sizes.homes journal.now.second (entries_of journal.now.map) disk.old }
    ensures { ReadsDirectory D.SectorDisk journal.now pages disk.old disk.new result }
{
    let entries = read_pages(alloc, disk, journal, pages)?;
    if !are_bounded(&entries) {
        return Err(OpenFault::BadLayout);
    }
    check(alloc, &entries, pages, u64::from(journal.sizes().homes))?;
    Ok(Directory { pages, entries })
}

/// Reads the entries of a directory of so many pages, as they stand under the journal.
fn read_pages<D: SectorDisk>(
    alloc: Global,
    disk: &mut D,
    journal: &PoolJournal,
    pages: u32,
) -> Result<Vec<Option<Entry>>, OpenFault>
    requires is { IsPoolJournal journal.now }
    requires pool { HasPool D.SectorDisk journal.now.sizes disk.old }
    requires sized { IsDirectorySize pages }
    requires inside { pages ≤ journal.now.sizes.homes }
    requires rest { D.keeps_model disk.old → IsPoolRest D.SectorDisk journal.now.sizes.blocks journal.now.sizes.homes journal.now.second (entries_of journal.now.map) disk.old }
    ensures { ReadsEntries D.SectorDisk journal.now pages disk.old disk.new result }
{
    let mut entries = Vec::with_capacity(alloc, PAGE_ENTRIES * pages as usize)?;
    let given = journal.first_given(pages);
    let mut page = [0; 4096];
    for home in 0..pages {
        read_home(disk, journal, home, given[home as usize], &mut page)?;
        take_page(&page, &mut entries)?;
    }
    Ok(entries)
}

/// Reads the page that stands for a home under the journal. Where none of its slots is given to the home, the map is not looked through.
fn read_home<D: SectorDisk>(
    disk: &mut D,
    journal: &PoolJournal,
    home: u32,
    given: bool,
    to: &mut [u8; 4096],
) -> Result<(), DiskFault>
    requires is { IsPoolJournal journal.now }
    requires pool { HasPool D.SectorDisk journal.now.sizes disk.old }
    requires home { home < journal.now.sizes.homes }
    requires none { given ≡ false → slot_by journal.now.sizes.blocks (entries_of journal.now.map) home ≡ None }
    ensures { ReadsHome D.SectorDisk journal.now.sizes.blocks (entries_of journal.now.map) home disk.old disk.new to.new result }
{
    if given {
        journal.read(disk, home, to)
    } else {
        read_page(disk, journal.sizes().home(home), to)
    }
}

/// Appends the entries of a page of the directory, for which there is room. A fault is told exactly where one of them is none.
fn take_page(page: &[u8; 4096], entries: &mut Vec<Option<Entry>>) -> Result<(), EntryFault>
    requires room { vec_len entries.old + 16 ≤ vec_capacity entries.old }
    ensures taken { OnOk result (AppendsPage page.now 16 entries.old.items entries.new.items) }
    ensures len { OnOk result (vec_len entries.new ≡ vec_len entries.old + 16) }
    ensures capacity { vec_capacity entries.new ≡ vec_capacity entries.old }
    ensures none { OnErr result (HasNoEntry page.now) }
{
    let start = entries.len();
    take_blank(entries);
    if *page == [0; 4096] {
        return Ok(());
    }
    for place in 0..PAGE_ENTRIES {
        read_entry_into(page, place, &mut entries[start + place])?;
    }
    Ok(())
}

/// Appends the entries of a page of zeros, for which there is room: no file.
fn take_blank(entries: &mut Vec<Option<Entry>>)
    requires room { vec_len entries.old + 16 ≤ vec_capacity entries.old }
    ensures taken { AppendsPage (replicate 4096 0) 16 entries.old.items entries.new.items }
    ensures len { vec_len entries.new ≡ vec_len entries.old + 16 }
    ensures capacity { vec_capacity entries.new ≡ vec_capacity entries.old }
{
    for place in 0..PAGE_ENTRIES {
        entries.push_reserved(None);
    }
}

/// Whether the files' numbers are below 4,096, their lengths 2^42 at most, and their extents 30.
fn are_bounded(entries: &[Option<Entry>]) -> bool
    ensures all { IsTrue result → HaveBounds entries.now }
    ensures one { IsFalse result → HaveBounds entries.now → ⊥ }
{
    for (file, entry) in entries.iter().enumerate() {
        if let Some(entry) = entry {
            if file >= FILES || !is_bounded(entry) {
                return false;
            }
        }
    }
    true
}

/// Whether the length of a file is 2^42 at most, and its extents are 30.
fn is_bounded(entry: &Entry) -> bool
    ensures all { IsTrue result → (entry.now.length ≤ longest_file) × (entry.now.extent_count ≤ 30) }
    ensures one { IsFalse result → (entry.now.length ≤ longest_file) × (entry.now.extent_count ≤ 30) → ⊥ }
{
    entry.length <= LONGEST_FILE && entry.extent_count <= EXTENTS as u32
}
