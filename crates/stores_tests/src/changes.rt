//! Files of a store with a pool that grow, come and go with a commit.
ghost use Rattle.pool_growth.specs.Settling.{IsReadyOnceSynced};
ghost use Rattle.pool_store.specs.Store.{IsReadyPool};
ghost use Rattle.std.specs.Prelude.{◌≡◌, ◌≤◌, IsErrOf, OnOk, vec_capacity};

use crate::bench::{Filled, LAST, equal, expect, left, made};
use directories::{EXTENTS, Entry, Extent};
use disk_model::{SectorDisk, SimDisk};
use growth::Change;
use pool_growth::{
    ChangeRoom, FileChanges, FileSize, check_changes, check_pages, commit_changes, propose_into,
    settle,
};
use pool_store::PoolStore;
use std::process::Abort;
use stores::NewStore;
use sync_journal::CommitFault;
use vm_types::FilePage;

/// An entry of a file of so many bytes, whose pages are so many homes from one on and then from another one on.
fn entry(length: u64, first: (u32, u32), second: (u32, u32)) -> Option<Entry> {
    let mut extents = [Extent { first: 0, count: 0 }; EXTENTS];
    extents[0] = Extent {
        first: first.0,
        count: first.1,
    };
    extents[1] = Extent {
        first: second.0,
        count: second.1,
    };
    Some(Entry {
        read_only: false,
        length,
        extent_count: 2,
        extents,
    })
}

fn opened(rt: &(impl AllocGlobal + Abort), disk: SimDisk) -> PoolStore<SimDisk>
    ensures { IsReadyPool ⟦<SimDisk as SectorDisk>⟧ result }
{
    match PoolStore::open(rt.alloc(), disk) {
        Ok(store) => store,
        Err((fault, _)) => panic!(rt; "{fault}"),
    }
}

/// The new pages of the changes that most tests make.
const FRESH: [FilePage; 5] = [
    FilePage { file: 0, page: 0 },
    FilePage { file: 0, page: 1 },
    FilePage { file: 0, page: 2 },
    FilePage { file: 1, page: 2 },
    FilePage { file: 3, page: 0 },
];

/// File 0 gets three pages, file 1 a third one, file 2 goes, and file 3 comes with one: with all these new pages and page 1 of file 1, each page of its byte. A page of
/// `!` makes the source fail.
fn change(
    rt: &(impl AllocGlobal + Abort),
    store: &mut PoolStore<SimDisk>,
    bytes: &[u8],
) -> Result<(), CommitFault>
    requires { IsReadyPool ⟦<SimDisk as SectorDisk>⟧ store.old }
    ensures done { OnOk result (IsReadyPool ⟦<SimDisk as SectorDisk>⟧ store.new) }
    ensures told { IsErrOf result CommitFault.Source → IsReadyOnceSynced ⟦<SimDisk as SectorDisk>⟧ store.new }
{
    let changes = [
        Change {
            file: 0,
            entry: entry(9000, (8, 2), (12, 1)),
        },
        Change {
            file: 1,
            entry: entry(8193, (4, 2), (10, 1)),
        },
        Change {
            file: 2,
            entry: None,
        },
        Change {
            file: 3,
            entry: entry(1, (11, 1), (0, 0)),
        },
    ];
    let asked = FileChanges {
        changes: &changes,
        fresh: &FRESH,
        pages: &[LAST],
    };
    commit(rt, store, asked, bytes)
}

/// File 0 gets another entry, with some of its new pages, each of its byte.
fn resize(
    rt: &(impl AllocGlobal + Abort),
    store: &mut PoolStore<SimDisk>,
    entry: Option<Entry>,
    fresh: &[FilePage],
    bytes: &[u8],
) -> Result<(), CommitFault>
    requires { IsReadyPool ⟦<SimDisk as SectorDisk>⟧ store.old }
    ensures done { OnOk result (IsReadyPool ⟦<SimDisk as SectorDisk>⟧ store.new) }
    ensures told { IsErrOf result CommitFault.Source → IsReadyOnceSynced ⟦<SimDisk as SectorDisk>⟧ store.new }
{
    let changes = [Change { file: 0, entry }];
    let asked = FileChanges {
        changes: &changes,
        fresh,
        pages: &[],
    };
    commit(rt, store, asked, bytes)
}

/// Makes changes, with pages each of its byte.
fn commit(
    rt: &(impl AllocGlobal + Abort),
    store: &mut PoolStore<SimDisk>,
    asked: FileChanges<'_>,
    bytes: &[u8],
) -> Result<(), CommitFault>
    requires { IsReadyPool ⟦<SimDisk as SectorDisk>⟧ store.old }
    ensures done { OnOk result (IsReadyPool ⟦<SimDisk as SectorDisk>⟧ store.new) }
    ensures told { IsErrOf result CommitFault.Source → IsReadyOnceSynced ⟦<SimDisk as SectorDisk>⟧ store.new }
{
    check_changes(store, asked.changes).expect(rt, "changes");
    check_pages(store, asked).expect(rt, "their pages");
    expect(
        rt,
        bytes.len() >= asked.fresh.len() && bytes.len() - asked.fresh.len() == asked.pages.len(),
        "not a byte for each page",
    );
    let mut room = ChangeRoom::new(rt.alloc(), store.journal.sizes(), store.directory.pages).expect(
        rt, "memory",
    );
    let mut source = Filled {
        bytes,
        has_failed: false,
    };
    commit_changes(store, &mut room, asked, &mut source)
}

/// The byte of which a page has as many as lie inside its file, and zeros behind them; a dash where its file has no such page.
fn byte(rt: &impl Abort, store: &mut PoolStore<SimDisk>, page: FilePage) -> u8
    requires { IsReadyPool ⟦<SimDisk as SectorDisk>⟧ store.old }
    ensures { IsReadyPool ⟦<SimDisk as SectorDisk>⟧ store.new }
{
    let inside = match store.file(page.file) {
        Some(info) => info.bytes_inside(page.page),
        None => 0,
    };
    if inside == 0 {
        return b'-';
    }
    let mut bytes = [255; 4096];
    store.read_page(page, &mut bytes).expect(rt, "a page");
    for i in 0..4096 {
        let wanted = if i < inside { bytes[0] } else { 0 };
        expect(rt, bytes[i] == wanted, "a page of other bytes");
    }
    bytes[0]
}

/// Those of the first three pages of a file.
fn file_bytes(rt: &impl Abort, store: &mut PoolStore<SimDisk>, file: u16) -> [u8; 3]
    requires { IsReadyPool ⟦<SimDisk as SectorDisk>⟧ store.old }
    ensures { IsReadyPool ⟦<SimDisk as SectorDisk>⟧ store.new }
{
    [
        byte(rt, store, FilePage { file, page: 0 }),
        byte(rt, store, FilePage { file, page: 1 }),
        byte(rt, store, FilePage { file, page: 2 }),
    ]
}

/// Those of the first four files.
fn bytes(rt: &impl Abort, store: &mut PoolStore<SimDisk>) -> [[u8; 3]; 4]
    requires { IsReadyPool ⟦<SimDisk as SectorDisk>⟧ store.old }
    ensures { IsReadyPool ⟦<SimDisk as SectorDisk>⟧ store.new }
{
    [
        file_bytes(rt, store, 0),
        file_bytes(rt, store, 1),
        file_bytes(rt, store, 2),
        file_bytes(rt, store, 3),
    ]
}

const BEFORE: [[u8; 3]; 4] = [*b"---", *b"aa-", *b"b--", *b"---"];

const AFTER: [[u8; 3]; 4] = [*b"abc", *b"afd", *b"---", *b"e--"];

/// The bytes of the files that a stop leaves, with these bytes in each unsynced sector, or else those that were last synced.
fn found(
    rt: &(impl AllocGlobal + Abort),
    disk: &SimDisk,
    filling: Option<[u8; 512]>,
) -> [[u8; 3]; 4] {
    let mut store = opened(rt, left(rt, disk, filling));
    bytes(rt, &mut store)
}

/// One call of the commit fails, and the sectors that are unsynced then have their old bytes or ones.
fn fails(rt: &(impl AllocGlobal + Abort), disk: &SimDisk, call: u64) {
    let mut failing = left(rt, disk, None);
    failing.fail_at(call);
    let mut store = opened(rt, failing);
    equal(
        rt,
        change(rt, &mut store, b"abcdef"),
        Err(CommitFault::Device),
    );
    for filling in [None, Some([255; 512])] {
        let left = found(rt, &store.disk, filling);
        expect(rt, left == BEFORE || left == AFTER, "files of two commits");
    }
}

#[test]
fn files_change_with_their_pages_all_at_once(rt: HostRuntime) {
    let disk = left(&rt, &made(&rt, NewStore::Pool(1), 16), None);
    equal(&rt, found(&rt, &disk, None), BEFORE);
    let mut store = opened(&rt, left(&rt, &disk, None));
    let first = store.disk.calls();
    equal(&rt, change(&rt, &mut store, b"abcdef"), Ok(()));
    let last = store.disk.calls();
    equal(&rt, found(&rt, &store.disk, None), AFTER);
    let step = last.saturating_sub(first) / 12;
    for back in 0..12 {
        fails(&rt, &disk, last.saturating_sub(step.saturating_mul(back)));
    }
}

// It fails while pages go into slots: the store is synced then all the same, and the same changes come with the next commit.
#[test]
fn a_source_that_fails_leaves_the_files_before(rt: HostRuntime) {
    let mut store = opened(&rt, made(&rt, NewStore::Pool(1), 16));
    let done = change(&rt, &mut store, b"ab!def");
    let is_told = matches!(done, Err(CommitFault::Source));
    expect(&rt, is_told, "a source that fails");
    equal(&rt, found(&rt, &store.disk, Some([255; 512])), BEFORE);
    settle(&mut store).expect(&rt, "a sync");
    equal(&rt, bytes(&rt, &mut store), BEFORE);
    change(&rt, &mut store, b"abcdef").expect(&rt, "a commit");
    equal(&rt, found(&rt, &store.disk, None), AFTER);
}

// File 0 gets 130 pages, too many for slots. It fails while they are put where they are to stand: those that are there are synced, and no file has them.
#[test]
fn a_source_that_fails_among_many_new_pages_leaves_a_store_that_goes_on(rt: HostRuntime) {
    let mut store = opened(&rt, made(&rt, NewStore::Pool(1), 150));
    let mut fresh = [FilePage { file: 0, page: 0 }; 130];
    for i in 0..130 {
        fresh[i].page = i as u32;
    }
    let grown = entry(130 * 4096, (8, 100), (110, 30));
    let mut given = [b'x'; 130];
    given[100] = b'!';
    let done = resize(&rt, &mut store, grown, &fresh, &given);
    let is_told = matches!(done, Err(CommitFault::Source));
    expect(&rt, is_told, "a source that fails");
    equal(&rt, found(&rt, &store.disk, Some([255; 512])), BEFORE);
    settle(&mut store).expect(&rt, "a sync");
    equal(&rt, bytes(&rt, &mut store), BEFORE);
    given[100] = b'y';
    resize(&rt, &mut store, grown, &fresh, &given).expect(&rt, "a commit");
    let last = byte(&rt, &mut store, FilePage { file: 0, page: 100 });
    equal(&rt, last, b'y');
    let after = [*b"xxx", *b"aa-", *b"b--", *b"---"];
    equal(&rt, found(&rt, &store.disk, None), after);
}

/// File 0 is cut, and gets its pages again, of which page 1 alone is given: the homes of the others have their old bytes.
#[test]
fn new_pages_that_nobody_gives_are_zeros(rt: HostRuntime) {
    let mut store = opened(&rt, made(&rt, NewStore::Pool(1), 16));
    change(&rt, &mut store, b"abcdef").expect(&rt, "a commit");
    store.tidy().expect(&rt, "pages at home");
    let (cut, whole) = (entry(0, (8, 2), (12, 1)), entry(9000, (8, 2), (12, 1)));
    resize(&rt, &mut store, cut, &[], b"").expect(&rt, "a cut");
    resize(&rt, &mut store, whole, &FRESH[1..2], b"x").expect(&rt, "new pages");
    let after = [*b"\0x\0", *b"afd", *b"---", *b"e--"];
    equal(&rt, found(&rt, &store.disk, None), after);
}

/// File 0 gets so many bytes of zeros, and file 2 goes, by changes that are listed where there is room for two.
fn propose_and_commit(
    rt: &(impl AllocGlobal + Abort),
    store: &mut PoolStore<SimDisk>,
    length: u64,
    changes: &mut Vec<Change>,
)
    requires ready { IsReadyPool ⟦<SimDisk as SectorDisk>⟧ store.old }
    requires room { 2 ≤ vec_capacity changes.old }
    ensures ready { IsReadyPool ⟦<SimDisk as SectorDisk>⟧ store.new }
    ensures room { vec_capacity changes.new ≡ vec_capacity changes.old }
{
    let sizes = [
        FileSize {
            file: 0,
            is_there: 1,
            length,
        },
        FileSize {
            file: 2,
            is_there: 0,
            length: 0,
        },
    ];
    propose_into(store, &sizes, changes).expect(rt, "changes");
    let asked = FileChanges {
        changes: changes.as_slice(),
        fresh: &[],
        pages: &[],
    };
    commit(rt, store, asked, b"").expect(rt, "a commit");
}

#[test]
fn changes_are_listed_in_the_same_place_again(rt: HostRuntime) {
    let mut store = opened(&rt, made(&rt, NewStore::Pool(1), 16));
    let mut changes = Vec::with_capacity(rt.alloc(), 2).expect(&rt, "memory");
    propose_and_commit(&rt, &mut store, 8192, &mut changes);
    let after = [*b"\0\0-", *b"aa-", *b"---", *b"---"];
    equal(&rt, bytes(&rt, &mut store), after);
    propose_and_commit(&rt, &mut store, 12288, &mut changes);
    equal(&rt, changes.len(), 2);
    let after = [*b"\0\0\0", *b"aa-", *b"---", *b"---"];
    equal(&rt, bytes(&rt, &mut store), after);
}
