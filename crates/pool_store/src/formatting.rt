//! New stores.
ghost use Rattle.std.specs.Prelude.{◌≡◌, ◌+◌, ◌<◌, ◌≤◌, ◌⊎◌, length, OnOk, OnErr, IsErrOf};
ghost use Rattle.disk_model.specs.{Moments.{Nothing}, Stop.{NamesOnce}};
ghost use Rattle.directories.specs.Kinds.{IsKind, IsMapSize};
ghost use Rattle.file_store.specs.Format.{AreWhole, HasReader, IsKindSector, IsMarkSector, total_pages};
ghost use Rattle.file_store.specs.Layout.{IsMark, pool_mark};
ghost use Rattle.file_store.specs.Making.{FillsHomes, HasFormatCauses};
ghost use Rattle.pool_journal.specs.{Pools.{pool_home, pool_home_count}, Sizes.{HasPool}};
ghost use Rattle.sync_journal.specs.{Runs.{RunsOnDevice}, Steps.{SyncsInto}};
ghost use Rattle.pool_store.specs.Format.{IsInnerPoolOf, IsInnerSector, IsUnmarkedPoolSector, new_pages, new_files};
ghost use Rattle.pool_store.specs.Formatted.{FormatsPool, WritesKindLast};

use crate::new_directory::write_directory;
use crate::new_files::write_homes;
use crate::sizes::{DIRECTORY_PAGES, is_too_large};
use directories::Kind;
use disk_model::{DiskFault, SECTOR_BYTES, SectorDisk};
use file_store::{FileSource, FormatFault, KIND_SECTOR, MARK_SECTOR, is_any_mark, pool_mark};
use pool_journal::{PoolJournal, PoolSizes};
use std::io::Read;

/// Makes a store of layout 4 of these files, with maps of `blocks` blocks, 1 to 2,048, and a directory of 4 pages. The files get numbers and
/// homes in the order of the sources, each one extent, an empty file none. Pool, directory and homes are written and synced before the kind is,
/// and the kind before the mark, so that a stop leaves an image without the mark or a whole store, whose files have the sources' bytes.
///
/// # Errors
///
/// They are looked for in this order: `TooLarge`, exactly where there are over 64 sources, the device has fewer than
/// `16 + 8080 blocks + 32` sectors, or not as many homes behind the directory as the files have pages; `Formatted`, exactly where sector 0 is the
/// mark of any layout already, unless the device fails first; and as they occur `Device`, exactly where the device failed, and `Source`, where a
/// reader failed or ended early. After `TooLarge` and `Formatted` nothing was written, and to a device that has a mark nothing is, whatever is
/// returned.
pub fn format<D: SectorDisk, R: Read>(
    disk: &mut D,
    blocks: u32,
    sources: &mut [FileSource<R>],
) -> Result<(), FormatFault>
    requires { IsMapSize blocks }
    ensures { FormatsPool D.SectorDisk blocks R.remaining sources.old disk.old disk.new result }
{
    if is_too_large(blocks, sources, disk.sectors()) {
        return Err(FormatFault::TooLarge);
    }
    check_unmarked(disk)?;
    write_unmarked(disk, blocks, sources)?;
    write_mark(disk)?;
    Ok(())
}

/// Refuses a device that has a mark.
fn check_unmarked<D: SectorDisk>(disk: &mut D) -> Result<(), FormatFault>
    requires { 0 < D.sector_count disk.old }
    ensures run { RunsOnDevice D.SectorDisk Nothing disk.old disk.new }
    ensures once { NamesOnce IsMarkSector (D.asked disk.old) (D.asked disk.new) }
    ensures unmarked { D.keeps_model disk.new → OnOk result (IsMark (D.content disk.old 0) → ⊥) }
    ensures marked { D.keeps_model disk.new → IsErrOf result FormatFault.Formatted → IsMark (D.content disk.old 0) }
    ensures causes { HasFormatCauses (D.failures disk.old) (D.failures disk.new) result }
    ensures others { OnErr result (IsErrOf result FormatFault.Formatted ⊎ IsErrOf result FormatFault.Device) }
{
    let mut sector = [0; SECTOR_BYTES];
    disk.read(MARK_SECTOR, &mut sector)?;
    if is_any_mark(&sector) {
        return Err(FormatFault::Formatted);
    }
    Ok(())
}

/// Writes all but the mark, the kind last, and syncs.
fn write_unmarked<D: SectorDisk, R: Read>(
    disk: &mut D,
    blocks: u32,
    sources: &mut [FileSource<R>],
) -> Result<(), FormatFault>
    requires maps { IsMapSize blocks }
    requires files { length sources.old ≤ new_files }
    requires room { pool_home blocks new_pages ≤ D.sector_count disk.old }
    requires homes { new_pages + total_pages sources.old ≤ pool_home_count blocks (D.sector_count disk.old) }
    ensures fills { FillsHomes D.SectorDisk (IsUnmarkedPoolSector blocks (total_pages sources.old)) (HasReader sources.old) (AreWhole R.remaining sources.old (length sources.old)) disk.old disk.new result }
    ensures last { D.keeps_model disk.new → WritesKindLast D.SectorDisk blocks (IsInnerPoolOf blocks R.remaining sources.old) disk.old disk.new result }
{
    let sizes = PoolSizes::of(blocks, disk.sectors());
    write_kind_last(disk, sizes, sources)
}

/// Writes all but the mark of a store of these sizes, the kind last, and syncs.
fn write_kind_last<D: SectorDisk, R: Read>(
    disk: &mut D,
    sizes: PoolSizes,
    sources: &mut [FileSource<R>],
) -> Result<(), FormatFault>
    requires pool { HasPool D.SectorDisk sizes disk.old }
    requires files { length sources.old ≤ new_files }
    requires homes { new_pages + total_pages sources.old ≤ sizes.homes }
    ensures fills { FillsHomes D.SectorDisk (IsUnmarkedPoolSector sizes.blocks (total_pages sources.old)) (HasReader sources.old) (AreWhole R.remaining sources.old (length sources.old)) disk.old disk.new result }
    ensures last { D.keeps_model disk.new → WritesKindLast D.SectorDisk sizes.blocks (IsInnerPoolOf sizes.blocks R.remaining sources.old) disk.old disk.new result }
{
    write_inner(disk, sizes, sources)?;
    disk.sync()?;
    write_kind(disk, sizes.blocks)?;
    Ok(())
}

/// Writes an empty pool, the directory and the files, and syncs nothing.
fn write_inner<D: SectorDisk, R: Read>(
    disk: &mut D,
    sizes: PoolSizes,
    sources: &mut [FileSource<R>],
) -> Result<(), FormatFault>
    requires pool { HasPool D.SectorDisk sizes disk.old }
    requires files { length sources.old ≤ new_files }
    requires homes { new_pages + total_pages sources.old ≤ sizes.homes }
    ensures fills { FillsHomes D.SectorDisk (IsInnerSector sizes.blocks (total_pages sources.old)) (HasReader sources.old) (AreWhole R.remaining sources.old (length sources.old)) disk.old disk.new result }
    ensures inner { D.keeps_model disk.new → OnOk result (IsInnerPoolOf sizes.blocks R.remaining sources.old (D.content disk.new)) }
{
    PoolJournal::clear(disk, sizes)?;
    write_directory(disk, sizes, sources)?;
    write_homes(disk, sizes, sources)
}

/// Writes the kind of a store with maps of `blocks` blocks, 1 to 2,048, and a directory of 4 pages, and syncs. An error comes only where the device failed.
pub fn write_kind<D: SectorDisk>(disk: &mut D, blocks: u32) -> Result<(), DiskFault>
    requires maps { IsMapSize blocks }
    requires room { 1 < D.sector_count disk.old }
    ensures { SyncsInto D.SectorDisk IsKindSector IsKindSector (IsKind blocks new_pages (D.content disk.new 1)) disk.old disk.new result }
{
    let kind = Kind {
        map_blocks: blocks,
        directory_pages: DIRECTORY_PAGES,
    };
    disk.write(KIND_SECTOR, &kind.to_sector())?;
    disk.sync()
}

/// Writes the mark, and syncs. An error comes only where the device failed.
pub fn write_mark<D: SectorDisk>(disk: &mut D) -> Result<(), DiskFault>
    requires { 0 < D.sector_count disk.old }
    ensures { SyncsInto D.SectorDisk IsMarkSector IsMarkSector (D.content disk.new 0 ≡ pool_mark) disk.old disk.new result }
{
    disk.write(MARK_SECTOR, pool_mark())?;
    disk.sync()
}
