//! Stores on a device in memory.
ghost use Rattle.std.specs.Prelude.{replicate, if◌then◌else◌};
ghost use Rattle.stores.specs.Store.{IsReadyStore};

use crate::bench::{check_device, equal, expect, first_byte, holds, image, left, opened, sector};
use batches::check_pages;
use disk_model::{SectorDisk, SimDisk};
use file_store::{FileStore, OpenFault, stops_in_a_row};
use std::process::Abort;
use stores::Store;
use sync_journal::{CommitFault, PageSource, SourceFault};
use vm_types::{FileInfo, FilePage};

/// The directory of a file of 5,000 bytes in homes 0 and 1, and a read-only one of 1 byte in home 2.
const TWO_FILES: [(usize, u8); 6] = [(3, 0x80), (4, 0x88), (5, 0x13), (8, 2), (11, 0xc0), (12, 1)];

/// Each page is `01` in each byte. Where `fails` is set, page 1 fails once.
#[derive(Drop)]
struct Filled {
    fails: bool,
}

impl PageSource for Filled {
    ghost pages = { λ _ _. replicate 4096 1 };

    ghost gives = { λ _ _. Unit {0} };

    ghost failures = { λ s. if s.fails then 0 else 1 };

    ghost keeps_model = { λ _. Unit {0} };

    ghost sure = { λ _ _. Unit {0} };

    ghost follows = { λ _ _. Unit {0} };

    ghost stays = { λ _. tt };

    ghost goes_on = { λ _ _ _ _ _. tt };

    fn page(&mut self, i: usize, to: &mut [u8; 4096]) -> Result<(), SourceFault> {
        if self.fails && i == 1 {
            self.fails = false;
            return Err(SourceFault);
        }
        *to = [1; 4096];
        Ok(())
    }
}

/// Commits these pages: whether it succeeds, or the source fails.
fn commits(
    rt: &impl Abort,
    store: &mut Store<SimDisk>,
    pages: &[FilePage],
    source: &mut Filled,
) -> bool
    requires { IsReadyStore ⟦<SimDisk as SectorDisk>⟧ store.old }
    ensures { IsReadyStore ⟦<SimDisk as SectorDisk>⟧ store.new }
{
    if let Err(fault) = check_pages(store, store.free_pages(), pages) {
        panic!(rt; "the pages: {fault}");
    }
    match store.commit(pages, source) {
        Ok(()) => true,
        Err(CommitFault::Source) => false,
        Err(CommitFault::Device) => panic!(rt; "the device failed"),
    }
}

#[test]
fn commits_up_to_the_end(rt: HostRuntime) {
    let page = FilePage { file: 0, page: 1 };
    let mut source = Filled { fails: false };
    let sectors = [
        (0, sector(b"FAMSYNC2", &[])),
        (1, sector(&[0; 8], &TWO_FILES)),
    ];
    let mut store = opened(&rt, image(&rt, 8219, &sectors));
    let is_done = commits(&rt, &mut store, &[page], &mut source);
    expect(&rt, is_done, "the first commit");
    equal(&rt, first_byte(&mut store, page), Some(1));
    // The file ends 904 bytes into this page, which stands in the journal's body.
    let mut last = [0; 512];
    last[..392].fill(1);
    let body = [(11, [1; 512]), (12, last), (13, [0; 512]), (8203, [0; 512])];
    // Opening syncs once, and a first commit twice.
    check_device(&rt, store.disk(), (17, 1 + 2), &body);
    // The next commit writes it home first.
    let is_done = commits(&rt, &mut store, &[page], &mut source);
    expect(&rt, is_done, "the second commit");
    let home = [
        (8202, [0; 512]),
        (8203, [1; 512]),
        (8204, last),
        (8210, [0; 512]),
    ];
    check_device(&rt, store.disk(), (43, 1 + 6), &home);
}

#[test]
fn commits_after_a_source_fault(rt: HostRuntime) {
    let pages = [FilePage { file: 0, page: 1 }, FilePage { file: 0, page: 0 }];
    let mut source = Filled { fails: true };
    let sectors = [
        (0, sector(b"FAMSYNC2", &[])),
        (1, sector(&[0; 8], &TWO_FILES)),
    ];
    let mut store = opened(&rt, image(&rt, 8219, &sectors));
    let is_done = commits(&rt, &mut store, &pages, &mut source);
    expect(&rt, !is_done, "the source's fault");
    let is_done = commits(&rt, &mut store, &pages, &mut source);
    expect(&rt, is_done, "the commit after it");
    // The first page is cut where its file ends.
    let body = [
        (2, sector(b"GATEOPEN", &[])),
        (3, sector(&[0; 8], &[(0, 2), (4, 1)])),
        (11, [1; 512]),
        (13, [0; 512]),
        (19, [1; 512]),
        (21, [1; 512]),
        (8195, [0; 512]),
    ];
    // Eight writes for the page before the fault.
    check_device(&rt, store.disk(), (8 + 25, 1 + 2), &body);
    // A fault of the source in the next one comes when these pages are home, and no journal is live then.
    source.fails = true;
    let is_done = commits(&rt, &mut store, &pages, &mut source);
    expect(&rt, !is_done, "the source's second fault");
    let homes = [
        (2, [0; 512]),
        (8195, [1; 512]),
        (8197, [1; 512]),
        (8203, [1; 512]),
        (8205, [0; 512]),
        (8211, [0; 512]),
    ];
    check_device(&rt, store.disk(), (33 + 17 + 8, 1 + 4), &homes);
}

/// A device of two files where home 2 stands in the body, and home 1 is not synced yet.
fn unsynced(rt: &(impl AllocGlobal + Abort)) -> SimDisk {
    let page = [0x5a; 512];
    let sectors = [
        (0, sector(b"FAMSYNC2", &[])),
        (1, sector(&[0; 8], &TWO_FILES)),
        (2, sector(b"GATEOPEN", &[])),
        (3, sector(&[0; 8], &[(0, 1), (4, 2)])),
        (11, page),
        (12, page),
        (13, page),
        (14, page),
        (15, page),
        (16, page),
        (17, page),
        (18, page),
    ];
    let mut disk = image(rt, 8219, &sectors);
    if disk.sectors() > 8203 {
        disk.write(8203, &[0x61; 512]).expect(rt, "a write");
    }
    disk
}

/// Files, and what is known of them.
const INFOS: [(u16, Option<FileInfo>); 4] = [
    (
        0,
        Some(FileInfo {
            length: 5000,
            read_only: false,
        }),
    ),
    (
        1,
        Some(FileInfo {
            length: 1,
            read_only: true,
        }),
    ),
    (2, None),
    (u16::MAX, None),
];

#[test]
fn opens_and_reads(rt: HostRuntime) {
    let mut store = opened(&rt, unsynced(&rt));
    for (n, info) in INFOS {
        equal(&rt, store.file(n), info);
        equal(&rt, store.info(u64::from(n)), info);
    }
    equal(&rt, store.info(65), None);
    let first = first_byte(&mut store, FilePage { file: 0, page: 0 });
    equal(&rt, first, Some(0));
    let late = first_byte(&mut store, FilePage { file: 0, page: 1 });
    equal(&rt, late, Some(0x61));
    let in_body = first_byte(&mut store, FilePage { file: 1, page: 0 });
    equal(&rt, in_body, Some(0x5a));
    stops_in_a_row(store.disk());
    sync_journal::stops_in_a_row(store.disk());
    // One sync at first, one of the home and one of the gate: all of it is there after a stop.
    let disk = store.into_disk();
    equal(&rt, (disk.writes(), disk.syncs()), (1 + 9, 3));
    let homes = [
        (2, [0; 512]),
        (8203, [0x61; 512]),
        (8211, [0x5a; 512]),
        (8218, [0x5a; 512]),
    ];
    expect(&rt, holds(&left(&rt, &disk, &[]), &homes), "the homes");
}

/// Sees how a store of so many sectors, of these sectors 0 to 3 and of a page of `5a` in the body opens, and how many sectors are then written.
fn check_opening(
    rt: &(impl AllocGlobal + Abort),
    sectors: u64,
    [first, second, third, fourth]: [[u8; 512]; 4],
    wanted: (Option<OpenFault>, u64),
) {
    let changes = [
        (0, first),
        (1, second),
        (2, third),
        (3, fourth),
        (11, [0x5a; 512]),
    ];
    let (fault, disk) = match FileStore::open(image(rt, sectors, &changes)) {
        Ok(store) => (None, store.into_disk()),
        Err((fault, disk)) => (Some(fault), disk),
    };
    equal(rt, (fault, disk.writes()), wanted);
}

#[test]
fn refuses_layouts_and_journals(rt: HostRuntime) {
    let none = [0; 512];
    let mark = sector(b"FAMSYNC2", &[]);
    let gate = sector(b"GATEOPEN", &[]);
    let torn = sector(b"FAMSYNC2", &[(511, 0)]);
    let closed = sector(b"GATEOPEN", &[(100, 0)]);
    let (old, other) = (sector(b"FAMSYNC1", &[]), sector(b"FAMSYNC3", &[]));
    let zero = &[0; 8];
    let file = sector(zero, &[(3, 0x80), (5, 0x10)]);
    let many = sector(zero, &[(1, 4)]);
    let layout = (Some(OpenFault::BadLayout), 0);
    let journal = (Some(OpenFault::BadJournal), 0);
    check_opening(&rt, 8195, [mark, none, none, none], (None, 0));
    check_opening(&rt, 8194, [mark, none, none, none], layout);
    check_opening(&rt, 8195, [torn, none, none, none], layout);
    check_opening(&rt, 8203, [old, file, gate, many], layout);
    check_opening(&rt, 8203, [other, file, gate, many], layout);
    // An entry of no file, a file of one byte in home 1 of 1, and two of none and of one byte in home 0.
    let empty = sector(zero, &[(44, 1)]);
    check_opening(&rt, 8195, [mark, empty, none, none], layout);
    let behind = sector(zero, &[(0, 1), (3, 0x80), (4, 1)]);
    check_opening(&rt, 8203, [mark, behind, none, none], layout);
    let both = sector(zero, &[(3, 0x80), (11, 0x80)]);
    check_opening(&rt, 8203, [mark, both, none, none], (None, 0));
    let both = sector(zero, &[(3, 0x80), (4, 1), (11, 0x80), (12, 1)]);
    check_opening(&rt, 8203, [mark, both, none, none], layout);
    // 1,024 pages, home 1 of 1, home 0 twice and home 0 once. One byte of the gate changed closes it.
    check_opening(&rt, 8203, [mark, file, gate, many], journal);
    let behind = sector(zero, &[(0, 1), (4, 1)]);
    check_opening(&rt, 8203, [mark, file, gate, behind], journal);
    let twice = sector(zero, &[(0, 2)]);
    check_opening(&rt, 8203, [mark, file, gate, twice], journal);
    let once = sector(zero, &[(0, 1)]);
    check_opening(&rt, 8203, [mark, file, gate, once], (None, 9));
    check_opening(&rt, 8203, [mark, file, closed, many], (None, 0));
}
