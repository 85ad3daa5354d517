//! Stores of each layout that are opened, and what is no store.
use crate::bench::{
    FILES, LAST, bytes, changed, commit, equal, left, made, opened, refusal, resumed,
};
use disk_model::{SectorDisk, SimDisk};
use std::process::Abort;
use stores::{NewStore, OpenFault, image_bytes};
use vm_types::FileInfo;

/// What a store tells of files by their numbers.
const INFOS: [(u16, Option<FileInfo>); 5] = [
    (
        0,
        Some(FileInfo {
            length: 0,
            read_only: false,
        }),
    ),
    (
        1,
        Some(FileInfo {
            length: 4097,
            read_only: false,
        }),
    ),
    (
        2,
        Some(FileInfo {
            length: 3,
            read_only: true,
        }),
    ),
    (3, None),
    (255, None),
];

#[test]
fn a_store_has_the_files_that_it_is_made_of(rt: HostRuntime) {
    // Of layout 4 a directory of 4 home pages is before those of the files, behind maps of one block; pool and homes, the kind and the mark are each
    // synced for themselves.
    let rows = [
        (
            NewStore::Journal,
            (4_208_128, 8195 + 8 * 3, 2),
            (1023, 1023, 1023),
        ),
        (
            NewStore::Pool(1),
            (4_173_824, 16 + 8080 + 8 * (4 + 3), 3),
            (1008, 504, 1008),
        ),
    ];
    for (layout, sizes, most) in rows {
        let disk = made(&rt, layout, 0);
        let size = image_bytes(layout, &FILES);
        equal(&rt, (size, disk.sectors(), disk.syncs()), sizes);
        let mut store = opened(&rt, left(&rt, &disk, None));
        for (n, info) in INFOS {
            equal(&rt, store.file(n), info);
            equal(&rt, store.info(u64::from(n)), info);
        }
        equal(&rt, (store.info(256), store.info(257)), (None, None));
        let found = (
            store.free_pages(),
            store.always_free_pages(),
            store.capacity_pages(),
        );
        equal(&rt, found, most);
        equal(&rt, bytes(&rt, &mut store), *b"aab");
        // No journal is open, and no page stands in a slot, so the opening wrote nothing.
        equal(&rt, (store.disk().writes(), store.disk().syncs()), (0, 1));
        equal(&rt, store.into_disk().sectors(), sizes.1);
    }
}

// Of layout 2 the open journal is carried out, three pages and then the gate, each synced; of layout 4 nothing is written.
#[test]
fn a_store_is_taken_up_as_it_stands(rt: HostRuntime) {
    for (layout, free, written) in [
        (NewStore::Journal, 1023, 3 * 8 + 1),
        (NewStore::Pool(1), 1008 - 3, 0),
    ] {
        let disk = changed(&rt, layout).into_disk();
        let writes = disk.writes();
        let mut store = resumed(&rt, disk);
        equal(&rt, bytes(&rt, &mut store), *b"zyx");
        equal(&rt, store.free_pages(), free);
        let more = store.disk().writes().checked_sub(writes);
        equal(&rt, more, Some(written));
        commit(&rt, &mut store, &[LAST], b"w").expect(&rt, "the next commit");
        equal(&rt, bytes(&rt, &mut store), *b"zwx");
    }
}

#[test]
fn a_device_without_a_whole_mark_is_no_store(rt: HostRuntime) {
    for sectors in [0, 1, 8152, 8219] {
        let disk = SimDisk::new(rt.alloc(), sectors).expect(&rt, "memory");
        equal(&rt, refusal(&rt, disk), (Some(OpenFault::BadLayout), 0));
    }
    for layout in [NewStore::Journal, NewStore::Pool(1)] {
        let mut disk = made(&rt, layout, 0);
        if disk.sectors() > 0 {
            let mut torn = *disk.sector(0);
            torn[511] = 0;
            disk.write(0, &torn).expect(&rt, "a write");
        }
        let writes = disk.writes();
        equal(
            &rt,
            refusal(&rt, disk),
            (Some(OpenFault::BadLayout), writes),
        );
    }
    // A mark of layout 4 on a store of layout 2, whose sector 1 is no kind of a pool.
    let mut disk = made(&rt, NewStore::Journal, 0);
    if disk.sectors() > 0 {
        let pool_mark = file_store::pool_mark();
        disk.write(0, pool_mark).expect(&rt, "a write");
    }
    let writes = disk.writes();
    equal(
        &rt,
        refusal(&rt, disk),
        (Some(OpenFault::BadLayout), writes),
    );
}

#[test]
fn a_device_that_fails_is_told(rt: HostRuntime) {
    for layout in [NewStore::Journal, NewStore::Pool(1)] {
        let store = opened(&rt, left(&rt, &made(&rt, layout, 0), None));
        // The calls of an opening are those that a device has had as it is opened.
        for call in [1, store.disk().calls()] {
            let mut disk = left(&rt, store.disk(), None);
            disk.fail_at(call);
            equal(&rt, refusal(&rt, disk), (Some(OpenFault::Device), 0));
        }
    }
}
