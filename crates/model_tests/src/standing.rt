//! Images, and what a run leaves in one.
ghost use Rattle.stores.specs.Store.{IsReadyStore};

use crate::draws::FILE_PAGES;
use disk_model::{SectorDisk, SimDisk};
use file_store::FileSource;
use flat_model::Flat;
use std::process::Abort;
use stores::{NewStore, Store, format};
use vm_types::FilePage;

/// An image of one file of zeros, in a journal, or else in a pool of the same size, which can give it other lengths and has homes for some pages more.
pub(crate) fn image(rt: &(impl AllocGlobal + Abort), resizes: bool) -> SimDisk {
    let mut disk = SimDisk::new(rt.alloc(), 8195 + 8 * u64::from(FILE_PAGES)).expect(rt, "memory");
    let mut files: [FileSource<&[u8]>; 1] = [FileSource {
        read_only: false,
        length: 4096 * FILE_PAGES,
        bytes: None,
    }];
    let made = if resizes {
        format(&mut disk, NewStore::Pool(1), &mut files)
    } else {
        format(&mut disk, NewStore::Journal, &mut files)
    };
    made.expect(rt, "a store");
    disk
}

/// Opens the store on a device.
fn opened(rt: &(impl AllocGlobal + Abort), disk: SimDisk) -> Store<SimDisk>
    ensures { IsReadyStore ⟦<SimDisk as SectorDisk>⟧ result }
{
    match Store::open(rt.alloc(), disk) {
        Ok(store) => store,
        Err((fault, _)) => panic!(rt; "open: {fault:?}"),
    }
}

/// Has a page of the file hold these bytes.
fn compare_page(rt: &impl Abort, store: &mut Store<SimDisk>, page: u32, wanted: &[u8])
    requires { IsReadyStore ⟦<SimDisk as SectorDisk>⟧ store.old }
    ensures { IsReadyStore ⟦<SimDisk as SectorDisk>⟧ store.new }
{
    let inside = match store.file(0) {
        Some(info) => info.bytes_inside(page),
        None => 0,
    };
    assert!(rt; inside > 0, "no page {page}");
    let mut bytes = [0; 4096];
    let read = store.read_page(FilePage { file: 0, page }, &mut bytes);
    read.expect(rt, "a page");
    assert!(rt; bytes.as_slice() == wanted, "page {page} of other bytes");
}

/// Has the store on a device hold the file as it stands after a stop by the model.
pub(crate) fn compare(rt: &(impl AllocGlobal + Abort), disk: SimDisk, flat: &Flat) {
    let mut store = opened(rt, disk);
    let length = store.file(0).map(|info| info.length);
    assert!(rt;
        length == flat.durable_length(0),
        "a file of {length:?} bytes"
    );
    let wanted = flat.durable(rt.alloc()).expect(rt, "memory");
    let mut page: u32 = 0;
    for bytes in wanted.chunks(4096) {
        compare_page(rt, &mut store, page, bytes);
        page = page.wrapping_add(1);
    }
}
