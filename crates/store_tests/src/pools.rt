//! Batches to a store of layout 4.
use crate::bench::{equal, first_byte, left, opened};
use batches::commit_pages;
use disk_model::SimDisk;
use file_store::FileSource;
use stores::{NewStore, format};
use vm_types::FilePage;

/// The pages of the file. A commit to layout 2 takes 1,023 at most.
const PAGES: u32 = 1_100;

#[test]
fn a_batch_has_more_pages_than_a_journal_takes(rt: HostRuntime) {
    let mut pages = Vec::new(rt.alloc());
    let mut bytes = Vec::new(rt.alloc());
    for page in 0..PAGES {
        pages.push(FilePage { file: 0, page }).expect(&rt, "memory");
        bytes.push([7; 4096]).expect(&rt, "memory");
    }
    let sectors = 48 + 8080 * 3 + 8 * u64::from(PAGES);
    let mut disk = SimDisk::new(rt.alloc(), sectors).expect(&rt, "memory");
    let file = FileSource::<&[u8]> {
        read_only: false,
        length: 4096 * PAGES,
        bytes: None,
    };
    format(&mut disk, NewStore::Pool(3), &mut [file]).expect(&rt, "a store");
    let mut store = opened(&rt, disk);
    let committed = commit_pages(&mut store, pages.as_slice(), bytes.as_slice());
    equal(&rt, committed, Ok(()));
    let last = FilePage {
        file: 0,
        page: PAGES - 1,
    };
    let mut store = opened(&rt, left(&rt, store.disk(), &[]));
    equal(&rt, first_byte(&mut store, last), Some(7));
}
