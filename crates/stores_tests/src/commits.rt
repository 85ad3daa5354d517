//! Commits of pages of several files to stores of each layout, by the calls of `stores` and by those of `pool_store`, stores that are tidied, and what stands after
//! stops.
ghost use Rattle.stores.specs.Store.{IsReadyStore};

use crate::bench::{
    FILES, FIRST, Filled, LAST, LOCKED, bytes, changed, commit, equal, expect, left, made, opened,
    resumed,
};
use disk_model::{SectorDisk, SimDisk};
use file_store::FormatFault;
use pool_store::{OpenFault, PoolStore, format};
use std::process::Abort;
use stores::{NewStore, Store, stops_in_a_row};
use sync_journal::CommitFault;
use vm_types::FilePage;

#[test]
fn a_commit_changes_pages_of_two_files(rt: HostRuntime) {
    for (layout, free) in [(NewStore::Journal, 1023), (NewStore::Pool(1), 1008 - 3)] {
        let mut store = changed(&rt, layout);
        equal(&rt, bytes(&rt, &mut store), *b"zyx");
        equal(&rt, store.free_pages(), free);
        // It is synced, so a stop leaves it, and it may go on.
        let mut store = opened(&rt, left(&rt, store.disk(), None));
        equal(&rt, bytes(&rt, &mut store), *b"zyx");
        commit(&rt, &mut store, &[LAST, LOCKED], b"vw").expect(&rt, "another commit");
        // Whoever had it last hands the device on.
        let mut store = opened(&rt, store.into_disk());
        equal(&rt, bytes(&rt, &mut store), *b"zvw");
    }
}

#[test]
fn a_source_that_fails_leaves_the_pages_before(rt: HostRuntime) {
    for layout in [NewStore::Journal, NewStore::Pool(1)] {
        let mut store = opened(&rt, made(&rt, layout, 0));
        let free = store.free_pages();
        let done = commit(&rt, &mut store, &[FIRST], b"!");
        let is_told = matches!(done, Err(CommitFault::Source));
        expect(&rt, is_told, "a source that fails");
        equal(&rt, bytes(&rt, &mut store), *b"aab");
        equal(&rt, store.free_pages(), free);
        commit(&rt, &mut store, &[FIRST], b"x").expect(&rt, "the next commit");
        equal(&rt, bytes(&rt, &mut store), *b"xab");
    }
}

/// The bytes of the store that a stop leaves, with these bytes in each unsynced sector, or else those that were last synced; and its bytes after the next commit.
fn pages_left(
    rt: &(impl AllocGlobal + Abort),
    disk: &SimDisk,
    filling: Option<[u8; 512]>,
    pages: &[FilePage],
    given: &[u8],
) -> ([u8; 3], [u8; 3]) {
    let mut store = opened(rt, left(rt, disk, filling));
    let found = bytes(rt, &mut store);
    commit(rt, &mut store, pages, given).expect(rt, "the next commit");
    (found, bytes(rt, &mut store))
}

// One of the last calls of a commit fails, and the sectors that are unsynced then have their old bytes or ones.
#[test]
fn a_stop_leaves_the_pages_before_or_after(rt: HostRuntime) {
    for layout in [NewStore::Journal, NewStore::Pool(1)] {
        let disk = left(&rt, &made(&rt, layout, 0), None);
        let mut store = opened(&rt, left(&rt, &disk, None));
        let done = commit(&rt, &mut store, &[LOCKED, LAST], b"xy");
        equal(&rt, done, Ok(()));
        let last = store.disk().calls();
        stops_in_a_row(store.disk());
        for back in 0..4 {
            let mut failing = left(&rt, &disk, None);
            failing.fail_at(last.saturating_sub(back));
            let mut store = opened(&rt, failing);
            let done = commit(&rt, &mut store, &[LOCKED, LAST], b"xy");
            equal(&rt, done, Err(CommitFault::Device));
            let stopped = store.into_disk();
            for filling in [None, Some([255; 512])] {
                let (found, next) = pages_left(&rt, &stopped, filling, &[FIRST], b"v");
                let is_one = found == *b"aab" || found == *b"ayx";
                expect(&rt, is_one, "pages of two commits");
                equal(&rt, next, [b'v', found[1], found[2]]);
            }
        }
    }
}

// The last sync alone fails, when all but the gate is synced: the gate is as it was, open, torn, or of other bytes.
#[test]
fn a_stop_in_the_last_sync_leaves_the_pages_before_or_after(rt: HostRuntime) {
    let disk = made(&rt, NewStore::Pool(1), 0);
    let mut store = resumed(&rt, left(&rt, &disk, None));
    let done = commit(&rt, &mut store, &[LOCKED, LAST], b"xy");
    equal(&rt, done, Ok(()));
    let last = store.disk().calls();
    let mut failing = left(&rt, &disk, None);
    failing.fail_at(last);
    let mut store = resumed(&rt, failing);
    let done = commit(&rt, &mut store, &[LOCKED, LAST], b"xy");
    equal(&rt, done, Err(CommitFault::Device));
    let stopped = store.into_disk();
    equal(&rt, stopped.calls(), last);
    expect(&rt, stopped.sectors() > 8, "a gate");
    let gate = *stopped.sector(8);
    let mut torn = [0; 512];
    torn[..8].copy_from_slice(b"GATEOPEN");
    let rows = [
        (None, *b"aab"),
        (Some(torn), *b"aab"),
        (Some([255; 512]), *b"aab"),
        (Some(gate), *b"ayx"),
    ];
    for (filling, wanted) in rows {
        let (found, next) = pages_left(&rt, &stopped, filling, &[FIRST, LOCKED], b"vw");
        equal(&rt, found, wanted);
        equal(&rt, next, [b'v', wanted[1], b'w']);
    }
}

/// Commits no pages to a pool.
fn commit_none(rt: &impl Abort, store: &mut Store<SimDisk>)
    requires { IsReadyStore ⟦<SimDisk as SectorDisk>⟧ store.old }
    ensures { IsReadyStore ⟦<SimDisk as SectorDisk>⟧ store.new }
{
    let mut source = Filled {
        bytes: b"",
        has_failed: false,
    };
    match store {
        Store::Journal(_) => panic!(rt; "no pool"),
        Store::Pool(pool) => {
            pool_store::stops_in_a_row(pool.disk());
            equal(rt, pool.body_pages(), 504);
            pool.commit(&[], &mut source).expect(rt, "a commit");
        }
    }
}

#[test]
fn a_commit_of_no_pages_changes_none(rt: HostRuntime) {
    let store = changed(&rt, NewStore::Pool(1));
    // It is taken up as it stands.
    let mut store = resumed(&rt, left(&rt, store.disk(), None));
    equal(&rt, bytes(&rt, &mut store), *b"zyx");
    equal(&rt, (store.disk().writes(), store.disk().syncs()), (0, 0));
    equal(&rt, store.free_pages(), 1008 - 3);
    commit(&rt, &mut store, &[LAST, LOCKED], b"vw").expect(&rt, "another commit");
    commit_none(&rt, &mut store);
    equal(&rt, bytes(&rt, &mut store), *b"zvw");
    equal(&rt, store.disk().syncs(), 4);
    equal(&rt, store.free_pages(), 1008 - 3);
}

#[test]
fn a_device_is_a_store_where_it_has_the_mark(rt: HostRuntime) {
    let mut disk = made(&rt, NewStore::Pool(1), 0);
    let writes = disk.writes();
    let again = format(&mut disk, 1, &mut FILES);
    equal(&rt, again, Err(FormatFault::Formatted));
    equal(&rt, disk.writes(), writes);
    if disk.sectors() > 0 {
        let mut torn = *disk.sector(0);
        torn[511] = 0;
        disk.write(0, &torn).expect(&rt, "a write");
    }
    let (fault, disk) = match PoolStore::open(rt.alloc(), disk) {
        Ok(store) => (None, store.into_disk()),
        Err((fault, disk)) => (Some(fault), disk),
    };
    equal(&rt, fault, Some(OpenFault::BadLayout));
    equal(&rt, disk.writes(), writes.saturating_add(1));
}

/// The writes and the syncs of a store's device.
fn work(store: &Store<SimDisk>) -> (u64, u64) {
    (store.disk().writes(), store.disk().syncs())
}

// Of layout 4 three pages go home, eight sectors each, the first block of the other map is written, and then the gate.
#[test]
fn a_tidied_store_has_all_slots_free(rt: HostRuntime) {
    for (layout, writes, syncs, always) in [
        (NewStore::Journal, 0, 0, 1023),
        (NewStore::Pool(1), 3 * 8 + 8 + 1, 2, 504),
    ] {
        let mut store = changed(&rt, layout);
        let before = work(&store);
        store.tidy().expect(&rt, "a tidy");
        let after = work(&store);
        let done = (after.0.checked_sub(before.0), after.1.checked_sub(before.1));
        equal(&rt, done, (Some(writes), Some(syncs)));
        equal(&rt, store.free_pages(), store.capacity_pages());
        equal(&rt, store.always_free_pages(), always);
        equal(&rt, bytes(&rt, &mut store), *b"zyx");
        // Once more it has nothing to do.
        store.tidy().expect(&rt, "another tidy");
        equal(&rt, work(&store), after);
        // A stop leaves the pages, and the slots are free still.
        for filling in [None, Some([255; 512])] {
            let mut store = opened(&rt, left(&rt, store.disk(), filling));
            equal(&rt, store.free_pages(), store.capacity_pages());
            equal(&rt, bytes(&rt, &mut store), *b"zyx");
            commit(&rt, &mut store, &[FIRST], b"v").expect(&rt, "the next commit");
            equal(&rt, bytes(&rt, &mut store), *b"vyx");
        }
    }
}

/// Makes room for so many pages, where a store may have it: how many are free then.
fn roomed(rt: &impl Abort, store: &mut Store<SimDisk>, count: usize) -> usize
    requires { IsReadyStore ⟦<SimDisk as SectorDisk>⟧ store.old }
    ensures { IsReadyStore ⟦<SimDisk as SectorDisk>⟧ store.new }
{
    expect(rt, count <= store.capacity_pages(), "more than all slots");
    store.make_room_for(count).expect(rt, "room");
    store.free_pages()
}

// Room for more pages than are free is made by a tidy, and otherwise nothing is done.
#[test]
fn room_is_made_where_it_is_short(rt: HostRuntime) {
    let mut store = opened(&rt, made(&rt, NewStore::Pool(1), 0));
    commit(&rt, &mut store, &[FIRST], b"x").expect(&rt, "a commit");
    let before = work(&store);
    equal(&rt, roomed(&rt, &mut store, 1007), 1007);
    equal(&rt, work(&store), before);
    equal(&rt, roomed(&rt, &mut store, 1008), 1008);
    equal(&rt, bytes(&rt, &mut store), *b"xab");
}
