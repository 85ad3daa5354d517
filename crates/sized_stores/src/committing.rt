//! Commits of lengths, with pages.
ghost use Rattle.std.specs.Prelude.{◌≡◌, ◌≤◌, ◌<◌, ℕ, IfErr, OnOk, length};
ghost use Rattle.pool_store.specs.Store.{IsReadyPool};
ghost use Rattle.stores.specs.Store.{kept_of};
ghost use Rattle.sized_stores.specs.Store.{IsReadySized};
ghost use Rattle.sized_stores.specs.Commit.{AreResized, ArePagesNow, CommitsSizes, HasRoom, LacksRoomIn};
ghost use Rattle.sized_stores.specs.Listed.{AreAskedOf, CommitsListed, GivesListed, ListsCommit, MayCommit};
ghost use Rattle.sized_stores.specs.Room.{HasSizeRoom};

use crate::asking::list_sizes;
use crate::faults::SizeFault;
use crate::given::Given;
use crate::listing::Asked;
use crate::room::SizeRoom;
use crate::settling::settle;
use crate::sizes::Size;
use crate::store::SizedStore;
use disk_model::{SectorDisk, WriteZeros};
use pool_growth::{FileChanges, commit_in_slots, propose_into};
use pool_store::PoolStore;
use stores::Store;
use sync_journal::PageSource;
use vm_types::FilePage;

impl<D: WriteZeros> SizedStore<D> {
    /// Makes the lengths durable that these files have, each of which has got another one since the last time, and pages with them, all at once. Page `pages[i]` becomes
    /// page `i` of the source, with zeros past its file's end; any other page of these files becomes what it is now: zeros, where it was cut off since. The files rise.
    /// The pages are as many as every commit may take, at most, none twice, and inside their files as these are now; where one of the files has got longer again from
    /// within a page, that page is among them. No page is of another file that has got another length.
    ///
    /// # Errors
    ///
    /// `NoRoom` comes only where the store has no homes for a file, or where the pages, and those that are zeros since, are more than every commit may take but those of
    /// the directory: nothing is done then. `Source` comes only where the source failed: the store then stands for what it did, at every moment, and the call may be made
    /// again. `Device` comes only where the device failed: every image that a stop might have left stands for the files before or for those after, and the store is not
    /// ready until it is opened again.
    pub fn commit_sizes<S: PageSource>(
        &mut self,
        files: &[u16],
        pages: &[FilePage],
        source: &mut S,
    ) -> Result<(), SizeFault>
        requires ready { IsReadySized D.SectorDisk self.old }
        requires room { HasRoom self.old }
        requires files { AreResized self.old files.now }
        requires pages { ArePagesNow self.old files.now pages.now }
        requires gives { (i : ℕ) → i < length pages.now → S.gives source.old i }
        ensures { CommitsSizes D.SectorDisk S.PageSource self.old self.new files.now pages.now source.old source.new result }
    {
        let Store::Pool(store) = &mut self.store else {
            unreachable!();
        };
        let Some(room) = &mut self.room else {
            unreachable!();
        };
        list_all(store, room, &self.sizes, files, pages)?;
        commit_listed(store, room, source)?;
        settle(&mut self.sizes, files);
        Ok(())
    }
}

/// Lists what a commit of lengths takes, the changes of the directory and the pages, where the store has room for them.
fn list_all<D: SectorDisk>(
    store: &PoolStore<D>,
    room: &mut SizeRoom,
    sizes: &[Size],
    files: &[u16],
    pages: &[FilePage],
) -> Result<(), SizeFault>
    requires ready { IsReadyPool D.SectorDisk store.now }
    requires room { HasSizeRoom store.now.journal.sizes.blocks store.now.directory.pages room.old }
    requires asked { AreAskedOf store.now sizes.now files.now pages.now }
    ensures lists { OnOk result (ListsCommit store.now sizes.now files.now pages.now room.new) }
    ensures lacks { IfErr result (λ fault. (fault ≡ SizeFault.NoRoom) × LacksRoomIn (kept_of (Store.Pool store.now)) sizes.now files.now pages.now) }
    ensures room { HasSizeRoom store.now.journal.sizes.blocks store.now.directory.pages room.new }
{
    list_sizes(&mut room.sizes, sizes, files);
    if propose_into(store, &room.sizes, &mut room.changes).is_err() {
        return Err(SizeFault::NoRoom);
    }
    let asked = Asked {
        directory: &store.directory,
        sizes,
        files,
        pages,
    };
    let beside = store.directory.pages as usize;
    if room.list_pages(asked, store.body_pages() - beside) {
        Ok(())
    } else {
        Err(SizeFault::NoRoom)
    }
}

/// Commits what is listed, all of it in slots: so the store is ready after whatever fault of the source.
fn commit_listed<D: WriteZeros, S: PageSource>(
    store: &mut PoolStore<D>,
    room: &mut SizeRoom,
    source: &mut S,
) -> Result<(), SizeFault>
    requires ready { IsReadyPool D.SectorDisk store.old }
    requires room { HasSizeRoom store.old.journal.sizes.blocks store.old.directory.pages room.old }
    requires listed { MayCommit store.old room.old }
    requires gives { GivesListed room.old (S.gives source.old) }
    ensures commits { CommitsListed D.SectorDisk S.PageSource store.old store.new room.old source.old source.new result }
    ensures room { HasSizeRoom store.old.journal.sizes.blocks store.old.directory.pages room.new }
{
    let asked = FileChanges {
        changes: &room.changes,
        fresh: &room.fresh.pages,
        pages: &room.kept.pages,
    };
    let mut given = Given {
        source,
        fresh: &room.fresh.places,
        kept: &room.kept.places,
    };
    commit_in_slots(store, &mut room.slots, asked, &mut given)?;
    Ok(())
}
