//! The pages of the old store, copied to the homes of the new one.
ghost use Rattle.std.specs.Prelude.{◌≤◌, ◌<◌, ◌+◌, ◌*◌, ◌^◌, Some, OnOk};
ghost use Rattle.file_store.specs.Layout.{listed_files};
ghost use Rattle.sync_journal.specs.OldLayouts.{old_home_count, old_standing};
ghost use Rattle.file_store.specs.{Directory.{home_end}, Layout.{pages_of_length}, Standing.{page_standing_in}, Store.{entry_of}, Upgrade.{IsOldEntry, IsOldPage as IsPageOfEntry}};
ghost use Rattle.pool_store.specs.Format.{IsHomeSector, new_pages};
ghost use Rattle.upgrades.specs.Copying.{CopiesOld, IsBetween, IsCopyable};
ghost use Rattle.upgrades.specs.NewPool.{files_in, first_of, HoldsFiles, HoldsPages};
ghost use Rattle.upgrades.specs.Old.{entry_pages, standing_page, IsOldPage, IsReadable};

use crate::places::pages_of;
use disk_model::SectorDisk;
use file_store::{Entry, LISTED_FILES, OldStore, UpgradeFault};
use pool_journal::PoolSizes;
use pool_store::DIRECTORY_PAGES;
use sync_journal::{PAGE_SECTORS, write_page};
use vm_types::FileInfo;

/// Copies the files to their homes, which follow one another behind the directory, and syncs nothing.
pub(crate) fn copy_files<D: SectorDisk, E: SectorDisk>(
    store: &OldStore,
    old: &mut D,
    new: &mut E,
    sizes: PoolSizes,
    files: &[Option<FileInfo>; LISTED_FILES],
) -> Result<(), UpgradeFault>
    requires { IsCopyable D.SectorDisk E.SectorDisk store.now sizes files.now old.old new.old }
    ensures copies { CopiesOld D.SectorDisk E.SectorDisk (IsOldPage (D.content old.old)) (IsHomeSector sizes.blocks new_pages (first_of (files_in files.now) listed_files)) old.old old.new new.old new.new result }
    ensures held { D.keeps_model old.new → E.keeps_model new.new
        → OnOk result (HoldsFiles sizes.blocks (files_in files.now) (standing_page (D.content old.old)) listed_files (E.content new.new)) }
{
    let mut first = DIRECTORY_PAGES;
    for f in 0..LISTED_FILES {
        copy_entry(store, f, old, new, sizes.home(first))?;
        first += pages_of(files[f]);
    }
    Ok(())
}

/// Copies the pages of file `f`, where there is one, to the sectors from `start` on.
fn copy_entry<D: SectorDisk, E: SectorDisk>(
    store: &OldStore,
    f: usize,
    old: &mut D,
    new: &mut E,
    start: u64,
) -> Result<(), UpgradeFault>
    requires ready { IsReadable D.SectorDisk store.now old.old }
    requires room { start + 8 * entry_pages (entry_of store.now.directory f) ≤ E.sector_count new.old }
    requires fits { start < 2 ^ 59 }
    ensures copies { CopiesOld D.SectorDisk E.SectorDisk (IsOldEntry store.now.journal.version (D.content old.old) (entry_of store.now.directory f))
        (IsBetween start (start + 8 * entry_pages (entry_of store.now.directory f))) old.old old.new new.old new.new result }
    ensures held { D.keeps_model old.new → E.keeps_model new.new
        → OnOk result (HoldsPages start (standing_page (D.content old.old) f) (entry_pages (entry_of store.now.directory f)) (E.content new.new)) }
{
    match store.entry(f) {
        Some(entry) => copy_file(store, entry, old, new, start),
        None => Ok(()),
    }
}

/// Copies the pages of a file to the sectors from `start` on.
fn copy_file<D: SectorDisk, E: SectorDisk>(
    store: &OldStore,
    entry: Entry,
    old: &mut D,
    new: &mut E,
    start: u64,
) -> Result<(), UpgradeFault>
    requires ready { IsReadable D.SectorDisk store.now old.old }
    requires within { home_end entry ≤ old_home_count store.now.journal.version (D.sector_count old.old) }
    requires room { start + 8 * pages_of_length entry.info.length ≤ E.sector_count new.old }
    requires fits { start < 2 ^ 59 }
    ensures copies { CopiesOld D.SectorDisk E.SectorDisk (IsPageOfEntry store.now.journal.version (D.content old.old) entry (pages_of_length entry.info.length))
        (IsBetween start (start + 8 * pages_of_length entry.info.length)) old.old old.new new.old new.new result }
    ensures held { D.keeps_model old.new → E.keeps_model new.new → OnOk result (HoldsPages start
        (λ k. page_standing_in (old_standing store.now.journal.version (D.content old.old)) k (Some entry)) (pages_of_length entry.info.length) (E.content new.new)) }
{
    for k in 0..entry.pages() as u32 {
        let mut page = [0; 4096];
        store.read_page(old, entry, k, &mut page)?;
        write_page(new, start + PAGE_SECTORS * u64::from(k), &page)?;
    }
    Ok(())
}
