//! The files of a new store, written to their homes.
ghost use Rattle.std.specs.Prelude.{◌≡◌, ◌+◌, ◌<◌, ◌≤◌, ℕ, List, Some, length, OnOk, IsSome};
ghost use Rattle.file_store.specs.Format.{AreWhole, HasReader, info_of, reader_tells, total_pages};
ghost use Rattle.file_store.specs.Layout.{pages_of_length};
ghost use Rattle.file_store.specs.Making.{FillsHomes};
ghost use Rattle.pool_journal.specs.Sizes.{HasPool};
ghost use Rattle.pool_store.specs.Format.{IsHomeSector, HomesHoldFiles, HomesHoldSource, new_pages};

use crate::sizes::DIRECTORY_PAGES;
use disk_model::SectorDisk;
use file_store::{FileSource, FormatFault};
use pool_journal::PoolSizes;
use std::io::Read;
use sync_journal::{PAGE_SECTORS, write_page};

/// Writes the files to their homes, which follow one another behind the directory, and syncs nothing.
pub(crate) fn write_homes<D: SectorDisk, R: Read>(
    disk: &mut D,
    sizes: PoolSizes,
    sources: &mut [FileSource<R>],
) -> Result<(), FormatFault>
    requires pool { HasPool D.SectorDisk sizes disk.old }
    requires homes { new_pages + total_pages sources.old ≤ sizes.homes }
    ensures fills { FillsHomes D.SectorDisk (IsHomeSector sizes.blocks new_pages (new_pages + total_pages sources.old)) (HasReader sources.old) (AreWhole R.remaining sources.old (length sources.old)) disk.old disk.new result }
    ensures files { D.keeps_model disk.new → OnOk result (HomesHoldFiles sizes.blocks R.remaining sources.old (length sources.old) (D.content disk.new)) }
{
    let mut first = u64::from(DIRECTORY_PAGES);
    for f in 0..sources.len() {
        let source = &mut sources[f];
        write_file(disk, sizes, first, source)?;
        first += source.pages();
    }
    Ok(())
}

/// Writes the pages of a file to its homes.
fn write_file<D: SectorDisk, R: Read>(
    disk: &mut D,
    sizes: PoolSizes,
    first: u64,
    source: &mut FileSource<R>,
) -> Result<(), FormatFault>
    requires pool { HasPool D.SectorDisk sizes disk.old }
    requires homes { first + pages_of_length source.old.length ≤ sizes.homes }
    ensures info { info_of source.new ≡ info_of source.old }
    ensures fills { FillsHomes D.SectorDisk (IsHomeSector sizes.blocks first (first + pages_of_length source.old.length)) (IsSome source.old.bytes × (0 < source.old.length))
        ((told : List ℕ) → reader_tells R.remaining source.old.bytes ≡ Some told → source.old.length ≤ length told) disk.old disk.new result }
    ensures pages { D.keeps_model disk.new → OnOk result (HomesHoldSource sizes.blocks R.remaining source.old first (pages_of_length source.old.length) (D.content disk.new)) }
{
    let homes = sizes.home(0);
    for k in 0..source.pages() {
        let mut page = [0; 4096];
        source.read_page(k, &mut page)?;
        let sector = homes + PAGE_SECTORS * (first + k);
        write_page(disk, sector, &page)?;
    }
    Ok(())
}
