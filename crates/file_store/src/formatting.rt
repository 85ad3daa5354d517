//! New stores.
ghost use Rattle.std.specs.Prelude.{◌≡◌, ◌+◌, ◌<◌, ◌≤◌, ◌⊎◌, ℕ, List, Some, OnOk, OnErr, IsErrOf, IsSome, length};
ghost use Rattle.disk_model.specs.Stop.{NamesOnce};
ghost use Rattle.disk_model.specs.Moments.{Nothing};
ghost use Rattle.sync_journal.specs.Layout.{first_home_sector, home_count};
ghost use Rattle.sync_journal.specs.Runs.{RunsOnDevice};
ghost use Rattle.file_store.specs.Layout.{mark, IsMark, pages_of_length, listed_files};
ghost use Rattle.file_store.specs.Format.{info_of, total_pages, IsUnmarkedStoreOf, HoldsFiles, HoldsSourcePages, HasReader, AreWhole, reader_tells, IsMarkSector, IsLayoutSector, IsHomesBetween, IsUnmarkedSector, HasHead};
ghost use Rattle.file_store.specs.Formatted.{FormatsStore};
ghost use Rattle.file_store.specs.Making.{HasFormatCauses, WritesSynced, FillsHomes};

use crate::faults::FormatFault;
use crate::layout::{DIRECTORY_SECTOR, MARK_SECTOR};
use crate::sources::{FileSource, directory_of, is_too_large};
use crate::version::{is_any_mark, mark_bytes};
use disk_model::{DiskFault, SECTOR_BYTES, SectorDisk};
use std::io::Read;
use sync_journal::{FIRST_HOME, GATE, PAGE_SECTORS, Version, write_page};

/// Makes a store of these files, which get numbers and homes in the order of the sources. Homes, directory and a
/// closed gate are written and synced before the layout mark is, so that a stop leaves an image without the mark or a
/// whole store, whose files have the sources' bytes.
///
/// The faults are looked for in this order: `TooLarge`, exactly where there are over 64 sources, the device has fewer
/// sectors than the layout has before its homes or not enough home pages; `Formatted`, exactly where sector 0 is the mark of any layout already,
/// unless the device fails first; and as they occur `Device`, exactly where the device failed, and `Source`, where a reader
/// failed or ended early. After `TooLarge` and `Formatted` nothing was written, and to a device that has a mark nothing is, whatever is
/// returned.
pub fn format<D: SectorDisk, R: Read>(
    disk: &mut D,
    sources: &mut [FileSource<R>],
) -> Result<(), FormatFault>
    ensures { FormatsStore D.SectorDisk R.remaining sources.old disk.old disk.new result }
{
    if is_too_large(sources, disk.sectors()) {
        return Err(FormatFault::TooLarge);
    }
    check_unmarked(disk)?;
    write_unmarked(disk, sources)?;
    write_mark(disk)?;
    Ok(())
}

/// Refuses a device that has a mark.
fn check_unmarked<D: SectorDisk>(disk: &mut D) -> Result<(), FormatFault>
    requires { 0 < D.sector_count disk.old }
    ensures run { RunsOnDevice D.SectorDisk Nothing disk.old disk.new }
    ensures once { NamesOnce IsMarkSector (D.asked disk.old) (D.asked disk.new) }
    ensures unmarked { D.keeps_model disk.new → OnOk result (IsMark (D.content disk.old 0) → ⊥) }
    ensures marked { D.keeps_model disk.new → IsErrOf result FormatFault.Formatted → IsMark (D.content disk.old 0) }
    ensures causes { HasFormatCauses (D.failures disk.old) (D.failures disk.new) result }
    ensures others { OnErr result (IsErrOf result FormatFault.Formatted ⊎ IsErrOf result FormatFault.Device) }
{
    let mut sector = [0; SECTOR_BYTES];
    disk.read(MARK_SECTOR, &mut sector)?;
    if is_any_mark(&sector) {
        return Err(FormatFault::Formatted);
    }
    Ok(())
}

/// Writes all but the mark, and syncs.
fn write_unmarked<D: SectorDisk, R: Read>(
    disk: &mut D,
    sources: &mut [FileSource<R>],
) -> Result<(), FormatFault>
    requires files { length sources.old ≤ listed_files }
    requires room { first_home_sector ≤ D.sector_count disk.old }
    requires homes { total_pages sources.old ≤ home_count (D.sector_count disk.old) }
    ensures fills { FillsHomes D.SectorDisk (IsUnmarkedSector (total_pages sources.old)) (HasReader sources.old) (AreWhole R.remaining sources.old (length sources.old)) disk.old disk.new result }
    ensures written { D.keeps_model disk.new → OnOk result (IsUnmarkedStoreOf R.remaining sources.old (D.content disk.new)) }
    ensures synced { D.keeps_model disk.new → OnOk result ((k : ℕ) → D.unsynced disk.new k → ⊥) }
{
    let directory = directory_of(sources);
    write_homes(disk, sources)?;
    write_layout(disk, &directory)?;
    Ok(())
}

/// Writes the files to their homes, which follow one another.
fn write_homes<D: SectorDisk, R: Read>(
    disk: &mut D,
    sources: &mut [FileSource<R>],
) -> Result<(), FormatFault>
    requires { total_pages sources.old ≤ home_count (D.sector_count disk.old) }
    ensures fills { FillsHomes D.SectorDisk (IsHomesBetween 0 (total_pages sources.old)) (HasReader sources.old) (AreWhole R.remaining sources.old (length sources.old)) disk.old disk.new result }
    ensures files { D.keeps_model disk.new → OnOk result (HoldsFiles R.remaining sources.old (length sources.old) (D.content disk.new)) }
{
    let mut first = 0;
    for f in 0..sources.len() {
        let source = &mut sources[f];
        write_file(disk, first, source)?;
        first += source.pages();
    }
    Ok(())
}

/// Writes the pages of a file to its homes.
fn write_file<D: SectorDisk, R: Read>(
    disk: &mut D,
    first: u64,
    source: &mut FileSource<R>,
) -> Result<(), FormatFault>
    requires { first + pages_of_length source.old.length ≤ home_count (D.sector_count disk.old) }
    ensures info { info_of source.new ≡ info_of source.old }
    ensures fills { FillsHomes D.SectorDisk (IsHomesBetween first (first + pages_of_length source.old.length)) (IsSome source.old.bytes × (0 < source.old.length))
        ((told : List ℕ) → reader_tells R.remaining source.old.bytes ≡ Some told → source.old.length ≤ length told) disk.old disk.new result }
    ensures pages { D.keeps_model disk.new → OnOk result (HoldsSourcePages R.remaining source.old first (pages_of_length source.old.length) (D.content disk.new)) }
{
    for k in 0..source.pages() {
        let mut page = [0; 4096];
        source.read_page(k, &mut page)?;
        write_page(disk, FIRST_HOME + PAGE_SECTORS * (first + k), &page)?;
    }
    Ok(())
}

/// Writes directory and gate, and syncs.
pub(crate) fn write_layout<D: SectorDisk>(
    disk: &mut D,
    directory: &[u8; SECTOR_BYTES],
) -> Result<(), DiskFault>
    requires room { first_home_sector ≤ D.sector_count disk.old }
    ensures writes { WritesSynced D.SectorDisk IsLayoutSector disk.old disk.new result }
    ensures head { D.keeps_model disk.new → OnOk result (HasHead directory.now (D.content disk.new)) }
{
    disk.write(DIRECTORY_SECTOR, directory)?;
    disk.write(GATE, &[0; SECTOR_BYTES])?;
    disk.sync()
}

/// Writes the layout mark, and syncs.
pub(crate) fn write_mark<D: SectorDisk>(disk: &mut D) -> Result<(), DiskFault>
    requires { 0 < D.sector_count disk.old }
    ensures writes { WritesSynced D.SectorDisk IsMarkSector disk.old disk.new result }
    ensures marked { D.keeps_model disk.new → OnOk result (D.content disk.new 0 ≡ mark) }
{
    disk.write(MARK_SECTOR, mark_bytes(Version::Two))?;
    disk.sync()
}
