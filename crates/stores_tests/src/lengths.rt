//! Files of a store of layout 4 that get other lengths, with commits of these.
ghost use Rattle.sized_stores.specs.Commit.{ArePagesNow, AreResized, HasRoom};
ghost use Rattle.file_store.specs.Standing.{IsPageOf};
ghost use Rattle.sized_stores.specs.Store.{files_of, IsReadySized};
ghost use Rattle.std.specs.Prelude.{◌∷◌, [], IsErrOf, IsTrue, OnOk};

use crate::bench::{Filled, equal, expect, left, made, opened};
use disk_model::{SectorDisk, SimDisk};
use sized_stores::{SizeFault, SizedStore};
use std::process::Abort;
use stores::NewStore;
use vm_types::{FilePage, LONGEST_FILE, PAGE_BYTES};

/// Opens the store on a device, with the lengths that its files have durably.
fn sized(rt: &(impl AllocGlobal + Abort), disk: SimDisk) -> SizedStore<SimDisk>
    ensures { IsReadySized ⟦<SimDisk as SectorDisk>⟧ result }
{
    match SizedStore::new(rt.alloc(), opened(rt, disk)) {
        Ok(store) => store,
        Err(_) => panic!(rt; "memory"),
    }
}

/// Gives file 1 another length.
fn resize(rt: &impl Abort, store: &mut SizedStore<SimDisk>, length: u64)
    requires { IsReadySized ⟦<SimDisk as SectorDisk>⟧ store.old }
    ensures { IsReadySized ⟦<SimDisk as SectorDisk>⟧ store.new }
{
    expect(
        rt,
        store.can_resize() && store.file(1).is_some() && length <= LONGEST_FILE,
        "no such length",
    );
    store.resize(1, length);
}

/// Whether the length of a file may be committed with its first page.
fn may_commit(store: &SizedStore<SimDisk>, file: u16) -> bool
    requires { IsReadySized ⟦<SimDisk as SectorDisk>⟧ store.now }
    ensures room { IsTrue result → HasRoom store.now }
    ensures files { IsTrue result → AreResized store.now (file ∷ []) }
    ensures pages { IsTrue result → ArePagesNow store.now (file ∷ []) (record { file = file; page = 0 } ∷ []) }
{
    let always = store.store.always_free_pages();
    if always == 0 {
        return false;
    }
    if store.store.free_pages() < always {
        return false;
    }
    if store.store.file(file).is_none() {
        return false;
    }
    if !has_bytes(store, file) {
        return false;
    }
    let Some(size) = store.sizes.get(usize::from(file)) else {
        return false;
    };
    if !size.resized {
        return false;
    }
    size.shortest <= PAGE_BYTES as u64
}

/// Whether a file is there that is not empty.
fn has_bytes(store: &SizedStore<SimDisk>, file: u16) -> bool
    ensures { IsTrue result → IsPageOf (files_of store.now) file 0 }
{
    match store.file(file) {
        Some(info) => info.length != 0,
        None => false,
    }
}

/// Commits the length of file 1 with its first page, of a byte. A byte of `!` makes the source fail.
fn commit(rt: &impl Abort, store: &mut SizedStore<SimDisk>, byte: u8) -> Result<(), SizeFault>
    requires { IsReadySized ⟦<SimDisk as SectorDisk>⟧ store.old }
    ensures done { OnOk result (IsReadySized ⟦<SimDisk as SectorDisk>⟧ store.new) }
    ensures source { IsErrOf result SizeFault.Source → IsReadySized ⟦<SimDisk as SectorDisk>⟧ store.new }
    ensures refused { IsErrOf result SizeFault.NoRoom → IsReadySized ⟦<SimDisk as SectorDisk>⟧ store.new }
{
    expect(rt, may_commit(store, 1), "no such commit");
    let mut source = Filled {
        bytes: &[byte],
        has_failed: false,
    };
    store.commit_sizes(&[1], &[FilePage { file: 1, page: 0 }], &mut source)
}

/// The byte with which a page of file 1 begins, and how often it stands there, with zeros behind it: a dash where the file has no such page.
fn byte(rt: &impl Abort, store: &mut SizedStore<SimDisk>, page: u32) -> (u8, usize)
    requires { IsReadySized ⟦<SimDisk as SectorDisk>⟧ store.old }
    ensures { IsReadySized ⟦<SimDisk as SectorDisk>⟧ store.new }
{
    let inside = match store.file(1) {
        Some(info) => info.bytes_inside(page),
        None => 0,
    };
    if inside == 0 {
        return (b'-', 0);
    }
    let mut bytes = [255; 4096];
    store
        .read_page(FilePage { file: 1, page }, &mut bytes)
        .expect(rt, "a page");
    let mut count = 0;
    for i in 0..4096 {
        if bytes[i] == bytes[0] && count == i {
            count = i + 1;
        } else {
            expect(rt, bytes[i] == 0, "a page of other bytes");
        }
    }
    (bytes[0], count)
}

/// The length of file 1, and that of its first three pages.
fn found(rt: &impl Abort, store: &mut SizedStore<SimDisk>) -> (Option<u64>, [(u8, usize); 3])
    requires { IsReadySized ⟦<SimDisk as SectorDisk>⟧ store.old }
    ensures { IsReadySized ⟦<SimDisk as SectorDisk>⟧ store.new }
{
    let length = match store.file(1) {
        Some(info) => Some(info.length),
        None => None,
    };
    (
        length,
        [byte(rt, store, 0), byte(rt, store, 1), byte(rt, store, 2)],
    )
}

/// The same of the store that a stop leaves, with these bytes in each unsynced sector, or else those that were last synced.
fn left_by_stop(
    rt: &(impl AllocGlobal + Abort),
    store: &SizedStore<SimDisk>,
    filling: Option<[u8; 512]>,
) -> (Option<u64>, [(u8, usize); 3]) {
    let mut store = sized(rt, left(rt, store.store.disk(), filling));
    found(rt, &mut store)
}

const NONE: (u8, usize) = (b'-', 0);

const ZEROS: (u8, usize) = (0, 4096);

const BEFORE: (Option<u64>, [(u8, usize); 3]) = (Some(4097), [(b'a', 4096), (b'a', 1), NONE]);

// What was cut off is not seen again, before the commit and after it.
#[test]
fn a_file_that_is_cut_and_grows_again_has_zeros(rt: HostRuntime) {
    let mut store = sized(&rt, made(&rt, NewStore::Pool(1), 8));
    equal(&rt, found(&rt, &mut store), BEFORE);
    resize(&rt, &mut store, 5);
    resize(&rt, &mut store, 9000);
    let now = (Some(9000), [(b'a', 5), ZEROS, ZEROS]);
    equal(&rt, found(&rt, &mut store), now);
    equal(&rt, left_by_stop(&rt, &store, Some([255; 512])), BEFORE);
    commit(&rt, &mut store, b'x').expect(&rt, "a commit");
    let after = (Some(9000), [(b'x', 4096), ZEROS, ZEROS]);
    equal(&rt, found(&rt, &mut store), after);
    equal(&rt, store.is_resized(1), false);
    equal(&rt, left_by_stop(&rt, &store, Some([255; 512])), after);
}

// The device has no home for a third page of file 1. Its store goes on.
#[test]
fn a_file_does_not_grow_where_homes_are_wanting(rt: HostRuntime) {
    let mut store = sized(&rt, made(&rt, NewStore::Pool(1), 0));
    resize(&rt, &mut store, 4096);
    resize(&rt, &mut store, 8193);
    let refused = commit(&rt, &mut store, b'x');
    let is_told = matches!(refused, Err(SizeFault::NoRoom));
    expect(&rt, is_told, "no room");
    let now = (Some(8193), [(b'a', 4096), ZEROS, ZEROS]);
    equal(&rt, found(&rt, &mut store), now);
    equal(&rt, left_by_stop(&rt, &store, Some([255; 512])), BEFORE);
    resize(&rt, &mut store, 8192);
    commit(&rt, &mut store, b'x').expect(&rt, "a commit");
    let after = (Some(8192), [(b'x', 4096), ZEROS, NONE]);
    equal(&rt, left_by_stop(&rt, &store, None), after);
}

// The same commit may be made again at once.
#[test]
fn a_source_that_fails_leaves_the_lengths_before(rt: HostRuntime) {
    let mut store = sized(&rt, made(&rt, NewStore::Pool(1), 8));
    resize(&rt, &mut store, 9000);
    resize(&rt, &mut store, 3);
    let failed = commit(&rt, &mut store, b'!');
    let is_told = matches!(failed, Err(SizeFault::Source));
    expect(&rt, is_told, "a source that fails");
    equal(&rt, left_by_stop(&rt, &store, Some([255; 512])), BEFORE);
    let now = (Some(3), [(b'a', 3), NONE, NONE]);
    equal(&rt, found(&rt, &mut store), now);
    commit(&rt, &mut store, b'x').expect(&rt, "a commit");
    let after = (Some(3), [(b'x', 3), NONE, NONE]);
    equal(&rt, left_by_stop(&rt, &store, Some([255; 512])), after);
}

#[test]
fn files_of_layout_2_keep_their_lengths(rt: HostRuntime) {
    let store = sized(&rt, made(&rt, NewStore::Journal, 0));
    equal(&rt, store.can_resize(), false);
}
