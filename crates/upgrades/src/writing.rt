//! All of the new store but its mark.
ghost use Rattle.std.specs.Prelude.{◌≤◌, ◌<◌, OnOk};
ghost use Rattle.file_store.specs.Layout.{listed_files};
ghost use Rattle.pool_journal.specs.Sizes.{HasPool};
ghost use Rattle.sync_journal.specs.Steps.{WritesInto};
ghost use Rattle.pool_store.specs.Format.{IsInnerSector, IsUnmarkedPoolSector, new_pages};
ghost use Rattle.upgrades.specs.Copying.{CopiesOld, IsCopyable, WritesKindLast};
ghost use Rattle.upgrades.specs.NewPool.{files_in, pages_before, HasTables, HaveShortLengths, IsInnerUpgrade, IsTableSector};
ghost use Rattle.upgrades.specs.Old.{standing_page, IsOldPage};

use crate::copying::copy_files;
use crate::new_directory::write_directory;
use disk_model::{DiskFault, SectorDisk};
use file_store::{LISTED_FILES, OldStore, UpgradeFault};
use pool_journal::{PoolJournal, PoolSizes};
use pool_store::write_kind;
use vm_types::FileInfo;

/// Writes all but the mark, the kind last, and syncs.
pub(crate) fn write_unmarked<D: SectorDisk, E: SectorDisk>(
    store: &OldStore,
    old: &mut D,
    new: &mut E,
    sizes: PoolSizes,
    files: &[Option<FileInfo>; LISTED_FILES],
) -> Result<(), UpgradeFault>
    requires { IsCopyable D.SectorDisk E.SectorDisk store.now sizes files.now old.old new.old }
    ensures copies { CopiesOld D.SectorDisk E.SectorDisk (IsOldPage (D.content old.old))
        (IsUnmarkedPoolSector sizes.blocks (pages_before (files_in files.now) listed_files)) old.old old.new new.old new.new result }
    ensures last { D.keeps_model old.new → E.keeps_model new.new
        → WritesKindLast E.SectorDisk sizes.blocks (IsInnerUpgrade sizes.blocks (files_in files.now) (standing_page (D.content old.old))) new.old new.new result }
{
    write_inner(store, old, new, sizes, files)?;
    new.sync()?;
    write_kind(new, sizes.blocks)?;
    Ok(())
}

/// Writes an empty pool, the directory and the files, and syncs nothing.
fn write_inner<D: SectorDisk, E: SectorDisk>(
    store: &OldStore,
    old: &mut D,
    new: &mut E,
    sizes: PoolSizes,
    files: &[Option<FileInfo>; LISTED_FILES],
) -> Result<(), UpgradeFault>
    requires { IsCopyable D.SectorDisk E.SectorDisk store.now sizes files.now old.old new.old }
    ensures copies { CopiesOld D.SectorDisk E.SectorDisk (IsOldPage (D.content old.old))
        (IsInnerSector sizes.blocks (pages_before (files_in files.now) listed_files)) old.old old.new new.old new.new result }
    ensures inner { D.keeps_model old.new → E.keeps_model new.new
        → OnOk result (IsInnerUpgrade sizes.blocks (files_in files.now) (standing_page (D.content old.old)) (E.content new.new)) }
{
    write_tables(new, sizes, files)?;
    copy_files(store, old, new, sizes, files)
}

/// Writes an empty pool and the directory, and syncs nothing.
fn write_tables<E: SectorDisk>(
    new: &mut E,
    sizes: PoolSizes,
    files: &[Option<FileInfo>; LISTED_FILES],
) -> Result<(), DiskFault>
    requires pool { HasPool E.SectorDisk sizes new.old }
    requires homes { new_pages ≤ sizes.homes }
    requires short { HaveShortLengths files.now }
    ensures { WritesInto E.SectorDisk (IsTableSector sizes.blocks) (IsTableSector sizes.blocks) (HasTables sizes.blocks (files_in files.now) (E.content new.new)) new.old new.new result }
{
    PoolJournal::clear(new, sizes)?;
    write_directory(new, sizes, files)
}
