//! Which pages of files a commit of changes puts into slots, and in which order.
ghost use Rattle.std.specs.Prelude.{◌≡◌, ◌<◌, ◌≤◌, ◌^◌, ◌+◌, ◌-◌, ℕ, length, vec_capacity, Some};
ghost use Rattle.std.specs.List.Sorted.{IsPermutation, IsNonDecreasingBy};
ghost use Rattle.vm_types.specs.declared.file.FilePage.{FilePage};
ghost use Rattle.pool_growth.specs.Asked.{AreFileChanges, AreKeptPages, AreNewPages};
ghost use Rattle.pool_growth.specs.Files.{given_page, HasThen};
ghost use Rattle.pool_growth.specs.Late.{given_places, late_count, put_count};
ghost use Rattle.pool_store.specs.Store.{files_of, info_by, IsReadyPool};

use crate::changes::FileChanges;
use crate::checking::count_changed;
use crate::lookups::{given_page, home_then};
use disk_model::SectorDisk;
use pool_store::{CommitRoom, Directory, Place, PoolStore};

/// How many new pages go into slots at most. There they spare a sync, but are written a second time when they are brought home.
const MOST_IN_SLOTS: usize = 128;

/// How many of the new pages that are given are put where they are to stand, and take no slots: none, where they are few and slots are free for all pages of the commit,
/// and otherwise all.
pub(crate) fn put_count<D: SectorDisk>(store: &PoolStore<D>, asked: FileChanges<'_>) -> usize
    requires ready { IsReadyPool D.SectorDisk store.now }
    requires changes { AreFileChanges store.now.journal.sizes.homes store.now.directory asked.changes.now }
    requires fresh { AreNewPages (files_of store.now) asked.changes.now asked.fresh.now }
    requires pages { AreKeptPages store.now asked.changes.now asked.pages.now }
    ensures { result ≡ put_count store.now asked.entry.changes.now asked.entry.fresh.now asked.entry.pages.now }
{
    let new = asked.fresh.len();
    let front = count_changed(asked.changes, store.directory.pages);
    if new <= MOST_IN_SLOTS && new + asked.pages.len() + front <= store.journal.free_pages() {
        0
    } else {
        new
    }
}

/// Lists the pages that the source gives, but for the first so many, in the order of the homes that they have then.
pub(crate) fn place_given(
    room: &mut CommitRoom,
    directory: &Directory,
    asked: FileChanges<'_>,
    put: usize,
)
    requires changes { (homes : ℕ) × (homes ≤ 2 ^ 30) × AreFileChanges homes directory.now asked.changes.now }
    requires there { (k : ℕ) (p : FilePage) → given_page asked.fresh.now asked.pages.now k ≡ Some p → HasThen (info_by directory.now) asked.changes.now p }
    requires put { put ≤ length asked.fresh.now }
    requires few { (length asked.fresh.now < 2 ^ 31) × (length asked.pages.now < 2 ^ 31) }
    requires room { late_count asked.fresh.now asked.pages.now put ≤ vec_capacity room.old.places }
    ensures same { IsPermutation (given_places directory.now asked.entry.changes.now asked.entry.fresh.now asked.entry.pages.now put) room.new.places.items }
    ensures rising { IsNonDecreasingBy (λ place. place.home) room.new.places.items }
    ensures room { (vec_capacity room.new.places ≡ vec_capacity room.old.places) × (vec_capacity room.new.homes ≡ vec_capacity room.old.homes) }
{
    room.places.clear();
    for k in put..asked.fresh.len() + asked.pages.len() {
        let page = given_page(asked, k);
        room.places.push_reserved(Place {
            home: home_then(directory, asked.changes, page),
            index: (k - put) as u32,
        });
    }
    room.places.sort_unstable_by_key(|place| place.home);
}
