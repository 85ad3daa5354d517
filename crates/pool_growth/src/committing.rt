//! Changes of files, and pages of theirs, committed all at once.
ghost use Rattle.std.specs.Prelude.{◌≡◌, ◌<◌, ◌+◌, ℕ, length};
ghost use Rattle.pool_growth.specs.Asked.{AreFileChanges, AreKeptPages, AreNewPages, entries_then};
ghost use Rattle.pool_growth.specs.Commit.{CommitsChanges, CommitsInSlots, CommitsPutting};
ghost use Rattle.pool_growth.specs.Front.{HasChangeRoom};
ghost use Rattle.pool_growth.specs.Late.{MayCommit};
ghost use Rattle.pool_store.specs.Store.{files_of, IsReadyPool};

use crate::changes::FileChanges;
use crate::front::ChangeRoom;
use crate::late::Late;
use crate::placing::{NewPages, put_new_pages};
use crate::slots::{place_given, put_count};
use disk_model::WriteZeros;
use growth::Change;
use pool_store::{Directory, PoolStore};
use sync_journal::{CommitFault, PageSource};

/// Makes changes of files durable, and pages of theirs, all at once. The source gives first new pages, which are among those behind the last one that their file had, and
/// then those that were pages before; each becomes zeros past its file's new end. Any other new page becomes zeros, for which a device is asked a row of homes at a
/// time, and any other page is what it was.
///
/// The changes are such as `check_changes` takes, and the pages such as `check_pages` takes. Where 128 new pages at most are given, and these, the others and the
/// changed ones of the directory are no more than the slots that are free, all of them go into slots, and it takes 2 syncs. Otherwise the new ones are put where they are
/// to stand, and it takes 3; so it does where new pages are not given.
///
/// # Errors
///
/// `Source` comes only where the source failed, and the device didn't: every image that a stop might have left, or may leave from then on, stands for the files before,
/// and as many slots are free as before. The store is ready once `settle` has synced it, and ready as it is where the new pages were to go into slots, or none was given.
/// It is not synced here: if that failed too, no fault would tell which of the two did. `Device` comes only where the device failed: every image stands for the files
/// before or for those after, and the store is to be opened again.
pub fn commit_changes<D: WriteZeros, S: PageSource>(
    store: &mut PoolStore<D>,
    room: &mut ChangeRoom,
    asked: FileChanges<'_>,
    source: &mut S,
) -> Result<(), CommitFault>
    requires ready { IsReadyPool D.SectorDisk store.old }
    requires room { HasChangeRoom store.old.journal.sizes.blocks store.old.directory.pages room.old }
    requires changes { AreFileChanges store.old.journal.sizes.homes store.old.directory asked.changes.now }
    requires fresh { AreNewPages (files_of store.old) asked.changes.now asked.fresh.now }
    requires pages { AreKeptPages store.old asked.changes.now asked.pages.now }
    requires gives { (i : ℕ) → i < length asked.fresh.now + length asked.pages.now → S.gives source.old i }
    ensures { CommitsChanges D.SectorDisk S.PageSource store.old store.new asked.entry.changes.now asked.entry.fresh.now asked.entry.pages.now source.old source.new result }
{
    let put = put_count(store, asked);
    commit_putting(store, room, asked, put, source)
}

/// Makes changes of files durable, and pages of theirs, all at once, as `commit_changes` does, but that all new pages that are given go into slots, however many they
/// are. So the store is ready after whatever fault of the source. Slots are free for them, for the others and for the changed pages of the directory. It takes 2 syncs,
/// and 3 where new pages are not given: these become zeros where they stand, before that.
///
/// # Errors
///
/// `Source` comes only where the source failed, and the device didn't: every image that a stop might have left, or may leave from then on, stands for the files before,
/// as many slots are free as before, and the store is ready as it is. `Device` comes only where the device failed: every image stands for the files before or for those
/// after, and the store is to be opened again.
pub fn commit_in_slots<D: WriteZeros, S: PageSource>(
    store: &mut PoolStore<D>,
    room: &mut ChangeRoom,
    asked: FileChanges<'_>,
    source: &mut S,
) -> Result<(), CommitFault>
    requires ready { IsReadyPool D.SectorDisk store.old }
    requires room { HasChangeRoom store.old.journal.sizes.blocks store.old.directory.pages room.old }
    requires asked { MayCommit store.old asked.changes.now asked.fresh.now asked.pages.now 0 }
    requires gives { (i : ℕ) → i < length asked.fresh.now + length asked.pages.now → S.gives source.old i }
    ensures commits { CommitsInSlots D.SectorDisk S.PageSource store.old store.new asked.entry.changes.now asked.entry.fresh.now asked.entry.pages.now source.old source.new result }
    ensures room { HasChangeRoom store.old.journal.sizes.blocks store.old.directory.pages room.new }
{
    commit_putting(store, room, asked, 0, source)
}

/// Commits changes of files and pages of theirs, of which the first `put` of the new ones are put where they are to stand, and all others that are given go into slots.
fn commit_putting<D: WriteZeros, S: PageSource>(
    store: &mut PoolStore<D>,
    room: &mut ChangeRoom,
    asked: FileChanges<'_>,
    put: usize,
    source: &mut S,
) -> Result<(), CommitFault>
    requires ready { IsReadyPool D.SectorDisk store.old }
    requires room { HasChangeRoom store.old.journal.sizes.blocks store.old.directory.pages room.old }
    requires asked { MayCommit store.old asked.changes.now asked.fresh.now asked.pages.now put }
    requires gives { (i : ℕ) → i < length asked.fresh.now + length asked.pages.now → S.gives source.old i }
    ensures commits { CommitsPutting D.SectorDisk S.PageSource put store.old store.new asked.entry.changes.now asked.entry.fresh.now asked.entry.pages.now source.old source.new result }
    ensures room { HasChangeRoom store.old.journal.sizes.blocks store.old.directory.pages room.new }
{
    let new = NewPages {
        changes: asked.changes,
        fresh: asked.fresh,
        count: put,
    };
    put_new_pages(
        &mut store.disk,
        &store.journal,
        &store.directory,
        new,
        source,
    )?;
    place_given(&mut store.room, &store.directory, asked, put);
    let places = store.room.places.as_slice();
    room.list_directory(&store.directory, asked.changes);
    room.list_files(places);
    let mut late = Late {
        source,
        put: put as u32,
        front: &room.pages,
        places,
        asked,
        directory: &store.directory,
    };
    store
        .journal
        .commit(&mut store.disk, &room.homes, &mut late)?;
    apply(&mut store.directory, asked.changes);
    Ok(())
}

/// The directory in memory becomes what it is after changes.
fn apply(directory: &mut Directory, changes: &[Change])
    requires { (homes : ℕ) × AreFileChanges homes directory.old changes.now }
    ensures entries { directory.new.entries.items ≡ entries_then directory.old changes.now }
    ensures pages { directory.new.pages ≡ directory.old.pages }
{
    for change in changes {
        directory.entries[change.file as usize] = change.entry;
    }
}
