//! Stores of layout 2 or 3, made anew in layout 4.
ghost use Rattle.std.specs.Prelude.{OnOk, IsErrOf};
ghost use Rattle.disk_model.specs.{Moments.{Nothing}, Stop.{NamesOnce}};
ghost use Rattle.directories.specs.Kinds.{IsMapSize};
ghost use Rattle.sync_journal.specs.Runs.{RunsOnDevice};
ghost use Rattle.file_store.specs.{Format.{IsMarkSector}, Layout.{IsMark}, Upgraded.{HasCheckCauses}};
ghost use Rattle.upgrades.specs.NewPool.{files_in, HasRoomFor, HaveShortLengths, IsTooSmall};
ghost use Rattle.upgrades.specs.Upgraded.{UpgradesToPool};

use crate::finding::find;
use crate::old_files::list_files;
use crate::places::has_room;
use crate::writing::write_unmarked;
use disk_model::{SECTOR_BYTES, SectorDisk};
use file_store::{LISTED_FILES, MARK_SECTOR, UpgradeFault, is_any_mark};
use pool_journal::PoolSizes;
use pool_store::write_mark;
use vm_types::FileInfo;

/// Makes a store of layout 4 on `new`, with maps of `blocks` blocks, 1 to 2,048, and a directory of 4 pages, that stands for what the store of layout 2
/// or 3 on `old` stands for. Each file keeps its number, its length and whether it may only be read; its pages are one extent, none of an empty file, in
/// the order of the files' numbers, with zeros past the file's end. The pool is empty. `old` is only read. Pool, directory and homes are
/// written and synced before the kind is, and the kind before the mark, so that a stop leaves an image without the mark or the whole store.
///
/// # Errors
///
/// They are looked for in this order: `OldLayout`, where the image of `old` has no layout 2 or 3; `OldJournal`, where its journal is open with a map that no
/// commit writes; `NewSmall`, where `new` has fewer than `16 + 8080 blocks + 32` sectors, or not as many homes behind the directory as the files have
/// pages; and `Formatted`, where sector 0 of `new` is the mark of any layout. These come exactly where they say, unless a device fails first, and nothing was
/// written then. `OldDevice` and `NewDevice` come exactly where that device failed.
pub fn upgrade<D: SectorDisk, E: SectorDisk>(
    old: &mut D,
    new: &mut E,
    blocks: u32,
) -> Result<(), UpgradeFault>
    requires { IsMapSize blocks }
    ensures { UpgradesToPool D.SectorDisk E.SectorDisk blocks old.old old.new new.old new.new result }
{
    let store = find(old)?;
    let files = list_files(&store);
    check_new(new, blocks, &files)?;
    let sizes = PoolSizes::of(blocks, new.sectors());
    write_unmarked(&store, old, new, sizes, &files)?;
    write_mark(new)?;
    Ok(())
}

/// Refuses a device that is too small for these files, or has a mark.
fn check_new<E: SectorDisk>(
    new: &mut E,
    blocks: u32,
    files: &[Option<FileInfo>; LISTED_FILES],
) -> Result<(), UpgradeFault>
    requires maps { IsMapSize blocks }
    requires short { HaveShortLengths files.now }
    ensures run { RunsOnDevice E.SectorDisk Nothing new.old new.new }
    ensures once { NamesOnce IsMarkSector (E.asked new.old) (E.asked new.new) }
    ensures causes { HasCheckCauses (E.failures new.old) (E.failures new.new) result }
    ensures room { (IsErrOf result UpgradeFault.NewSmall → ⊥) → HasRoomFor blocks (E.sector_count new.old) (files_in files.now) }
    ensures small { IsErrOf result UpgradeFault.NewSmall → IsTooSmall blocks (E.sector_count new.old) (files_in files.now) }
    ensures marked { E.keeps_model new.new → IsErrOf result UpgradeFault.Formatted → IsMark (E.content new.old 0) }
    ensures unmarked { E.keeps_model new.new → OnOk result (IsMark (E.content new.old 0) → ⊥) }
{
    if !has_room(blocks, new.sectors(), files) {
        return Err(UpgradeFault::NewSmall);
    }
    let mut sector = [0; SECTOR_BYTES];
    new.read(MARK_SECTOR, &mut sector)?;
    if is_any_mark(&sector) {
        return Err(UpgradeFault::Formatted);
    }
    Ok(())
}
