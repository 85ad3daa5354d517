//! Stores of layout 1, made anew in layout 2.
ghost use Rattle.std.specs.Prelude.{◌≡◌, ◌<◌, ◌≤◌, ◌⊎◌, ℕ, length, Some, OnOk, IsErrOf};
ghost use Rattle.disk_model.specs.Moments.{AsksOnly, Nothing};
ghost use Rattle.sync_journal.specs.Layout.{first_home_sector, home_count};
ghost use Rattle.sync_journal.specs.OldJournal.{old_homes, old_sizes};
ghost use Rattle.sync_journal.specs.OldLayouts.{old_home_count};
ghost use Rattle.sync_journal.specs.declared.version.Version.TheVariants.{One};
ghost use Rattle.sync_journal.specs.Runs.{RunsOnDevice};
ghost use Rattle.file_store.specs.declared.directory.Entry.{Entry as AnEntry};
ghost use Rattle.file_store.specs.Directory.{home_end};
ghost use Rattle.file_store.specs.Format.{IsMarkSector};
ghost use Rattle.file_store.specs.Layout.{IsMark, pages_of_length, listed_files};
ghost use Rattle.file_store.specs.Store.{entry_of};
ghost use Rattle.file_store.specs.Upgrade.{IsOldStore, IsFileSector, IsEntrySector, IsFilesSector, IsCopiedSector, IsOldPage, IsOldEntry, IsOldFile, HoldsOldPages, HoldsOldFiles, IsUnmarkedUpgrade};
ghost use Rattle.file_store.specs.Upgraded.{HasCheckCauses, HasRoomFor, IsCopiable, CopiesPages, UpgradesStore};

use crate::directory::{Directory, Entry};
use crate::faults::UpgradeFault;
use crate::formatting::{write_layout, write_mark};
use crate::layout::{LISTED_FILES, MARK_SECTOR};
use crate::old_store::OldStore;
use crate::version::is_any_mark;
use disk_model::{SECTOR_BYTES, SectorDisk};
use sync_journal::{FIRST_HOME, PAGE_SECTORS, Version, home_count, write_page};

/// Makes a store of layout 2 on `new` that stands for what the store of layout 1 on `old` stands for. It has the same directory, byte for byte, and each page of each file in the same home, with
/// zeros past its file's end. `old` is only read. As in a new store, all but the mark is written and synced before the mark
/// is.
///
/// The faults are looked for in this order: `OldLayout`, `OldJournal`, `NewSmall` and `Formatted` come exactly where they
/// say, unless a device fails first, and nothing was written then; `OldDevice` and `NewDevice` come exactly where that
/// device failed.
pub fn upgrade<D: SectorDisk, E: SectorDisk>(old: &mut D, new: &mut E) -> Result<(), UpgradeFault>
    ensures { UpgradesStore D.SectorDisk E.SectorDisk old.old old.new new.old new.new result }
{
    let store = OldStore::find(old, Version::One)?;
    check_new(&store.directory, new)?;
    copy_unmarked(&store, old, new)?;
    write_mark(new)?;
    Ok(())
}

/// Refuses a device that is too small for the homes of these files, or has a mark.
fn check_new<E: SectorDisk>(directory: &Directory, new: &mut E) -> Result<(), UpgradeFault>
    ensures run { RunsOnDevice E.SectorDisk Nothing new.old new.new }
    ensures asks { AsksOnly E.SectorDisk IsMarkSector new.old new.new }
    ensures causes { HasCheckCauses (E.failures new.old) (E.failures new.new) result }
    ensures room { (IsErrOf result UpgradeFault.NewSmall → ⊥) → HasRoomFor (E.sector_count new.old) directory.now }
    ensures small { IsErrOf result UpgradeFault.NewSmall → (E.sector_count new.old < first_home_sector)
        ⊎ ((f : ℕ) × (e : AnEntry) × (entry_of directory.now f ≡ Some e) × (home_count (E.sector_count new.old) < home_end e)) }
    ensures marked { E.keeps_model new.new → IsErrOf result UpgradeFault.Formatted → IsMark (E.content new.old 0) }
    ensures unmarked { E.keeps_model new.new → OnOk result (IsMark (E.content new.old 0) → ⊥) }
{
    let sectors = new.sectors();
    if sectors < FIRST_HOME || !directory.ends_within(home_count(sectors)) {
        return Err(UpgradeFault::NewSmall);
    }
    let mut sector = [0; SECTOR_BYTES];
    new.read(MARK_SECTOR, &mut sector)?;
    if is_any_mark(&sector) {
        return Err(UpgradeFault::Formatted);
    }
    Ok(())
}

/// Writes all but the mark, and syncs.
fn copy_unmarked<D: SectorDisk, E: SectorDisk>(
    store: &OldStore,
    old: &mut D,
    new: &mut E,
) -> Result<(), UpgradeFault>
    requires copied { IsCopiable D.SectorDisk store.now old.old (E.sector_count new.old) }
    requires room { first_home_sector ≤ E.sector_count new.old }
    ensures copies { CopiesPages D.SectorDisk E.SectorDisk (IsOldFile One (D.content old.old)) (IsCopiedSector (entry_of store.now.directory)) old.old old.new new.old new.new result }
    ensures written { D.keeps_model old.new → E.keeps_model new.new → OnOk result (IsUnmarkedUpgrade (D.content old.old) (E.content new.new)) }
    ensures synced { E.keeps_model new.new → OnOk result ((k : ℕ) → E.unsynced new.new k → ⊥) }
{
    copy_files(store, old, new)?;
    write_layout(new, &store.sector)?;
    Ok(())
}

/// Copies the files to their homes.
fn copy_files<D: SectorDisk, E: SectorDisk>(
    store: &OldStore,
    old: &mut D,
    new: &mut E,
) -> Result<(), UpgradeFault>
    requires { IsCopiable D.SectorDisk store.now old.old (E.sector_count new.old) }
    ensures copies { CopiesPages D.SectorDisk E.SectorDisk (IsOldFile One (D.content old.old)) (IsFilesSector (entry_of store.now.directory)) old.old old.new new.old new.new result }
    ensures files { D.keeps_model old.new → E.keeps_model new.new → OnOk result (HoldsOldFiles (D.content old.old) listed_files (E.content new.new)) }
{
    for f in 0..LISTED_FILES {
        copy_entry(store, f, old, new)?;
    }
    Ok(())
}

/// Copies the pages of file `f`, where there is one, to its homes.
fn copy_entry<D: SectorDisk, E: SectorDisk>(
    store: &OldStore,
    f: usize,
    old: &mut D,
    new: &mut E,
) -> Result<(), UpgradeFault>
    requires { IsCopiable D.SectorDisk store.now old.old (E.sector_count new.old) }
    ensures copies { CopiesPages D.SectorDisk E.SectorDisk (IsOldEntry One (D.content old.old) (entry_of store.now.directory f)) (IsEntrySector (entry_of store.now.directory f)) old.old old.new new.old new.new result }
    ensures pages { D.keeps_model old.new → E.keeps_model new.new → OnOk result ((e : AnEntry) → entry_of store.now.directory f ≡ Some e
        → HoldsOldPages (D.content old.old) e (pages_of_length e.info.length) (E.content new.new)) }
{
    match store.directory.entry(f) {
        Some(entry) => copy_file(store, entry, old, new),
        None => Ok(()),
    }
}

/// Copies the pages of a file to its homes.
fn copy_file<D: SectorDisk, E: SectorDisk>(
    store: &OldStore,
    entry: Entry,
    old: &mut D,
    new: &mut E,
) -> Result<(), UpgradeFault>
    requires version { store.now.journal.version ≡ One }
    requires few { length (old_homes store.now.journal) ≤ (old_sizes store.now.journal).most }
    requires within { home_end entry ≤ old_home_count One (D.sector_count old.old) }
    requires found { D.keeps_model old.old → IsOldStore One (D.content old.old) store.now }
    requires fits { home_end entry ≤ home_count (E.sector_count new.old) }
    ensures copies { CopiesPages D.SectorDisk E.SectorDisk (IsOldPage One (D.content old.old) entry (pages_of_length entry.info.length)) (IsFileSector entry) old.old old.new new.old new.new result }
    ensures pages { D.keeps_model old.new → E.keeps_model new.new → OnOk result (HoldsOldPages (D.content old.old) entry (pages_of_length entry.info.length) (E.content new.new)) }
{
    for k in 0..entry.pages() as u32 {
        let mut page = [0; 4096];
        store.read_page(old, entry, k, &mut page)?;
        write_page(
            new,
            FIRST_HOME + PAGE_SECTORS * u64::from(entry.first + k),
            &page,
        )?;
    }
    Ok(())
}
