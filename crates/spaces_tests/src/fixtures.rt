//! Memory over devices in memory.
ghost use Rattle.std.specs.Prelude.{◌≡◌, ℕ, false, IfOk};
ghost use Rattle.file_store.specs.Standing.{AreBounded};
ghost use Rattle.msync.specs.Shows.{IsSoundCore};
ghost use Rattle.sized_stores.specs.Store.{IsReadySized, files_of, is_resized_in, kept_of};
ghost use Rattle.stores.specs.NewStores.{IsSizedNew};
ghost use Rattle.stores.specs.Store.{HasRoom};

use disk_model::{DiskFault, SectorDisk, SimDisk};
use file_store::FileSource;
use residency::Core;
use sized_stores::SizedStore;
use std::alloc::Global;
use std::test::Fail;
use stores::{NewStore, Store, format, image_bytes};
use swap::Swap;
use sync_journal::FIRST_HOME;
use vm_types::Levels;

/// How large memory, its swap and its one file are, and which call of each device fails, the first being 1; 0 is none.
#[derive(Clone, Copy)]
pub(crate) struct Sizes {
    /// From 8 to 64, in three levels of tables; in four there is one more.
    pub(crate) frames: u32,
    /// Up to 64.
    pub(crate) slots: u32,
    /// The file's bytes.
    pub(crate) length: u32,
    /// The first of them in a store of layout 2, where there are any; all others are zeros.
    pub(crate) first: u8,
    pub(crate) read_only: bool,
    /// How many pages the store has homes for besides those of the file. It is of layout 4 then; `None` is one of layout 2, whose
    /// files keep their lengths.
    pub(crate) free_homes: Option<u8>,
    pub(crate) store_fails: u64,
    pub(crate) swap_fails: u64,
}

// The store that is to be made, and its free homes.
fn kind(sizes: Sizes) -> (NewStore, u8)
    ensures { IsSizedNew result.0 }
{
    match sizes.free_homes {
        Some(homes) => (NewStore::Pool(1), homes),
        None => (NewStore::Journal, 0),
    }
}

// What a stop leaves of a formatted device with that file.
fn image(alloc: Global, sizes: Sizes) -> Result<SimDisk, Fail> {
    let (store, homes) = kind(sizes);
    let mut files: [FileSource<&[u8]>; 1] = [FileSource {
        read_only: sizes.read_only,
        length: sizes.length,
        bytes: None,
    }];
    let sectors = image_bytes(store, &files) / 512 + 8 * u64::from(homes);
    let mut disk = SimDisk::new(alloc, sectors)?;
    format(&mut disk, store, &mut files)?;
    if sizes.free_homes.is_none() {
        begin_file(&mut disk, sizes.first)?;
    }
    Ok(disk.left(alloc, &[])?)
}

// Writes the file's first byte, where the device has a page of it.
fn begin_file(disk: &mut SimDisk, first: u8) -> Result<(), DiskFault> {
    if disk.sectors() <= FIRST_HOME {
        return Ok(());
    }
    let mut sector = [0; 512];
    sector[0] = first;
    disk.write(FIRST_HOME, &sector)?;
    disk.sync()
}

// The store on a device, which may take as many pages as each commit takes, and the lengths of its file.
fn opened(alloc: Global, disk: SimDisk) -> Result<SizedStore<SimDisk>, Fail>
    ensures ready { IfOk result (λ store. IsReadySized ⟦<SimDisk as SectorDisk>⟧ store) }
    ensures room { IfOk result (λ store. HasRoom (kept_of store)) }
    ensures bounded { IfOk result (λ store. AreBounded (files_of store)) }
    ensures new { IfOk result (λ store. (f : ℕ) → is_resized_in store.sizes.items f ≡ false) }
{
    let store = match Store::open(alloc, disk) {
        Ok(store) => store,
        Err((fault, _)) => return Err(Fail::from(fault)),
    };
    if store.free_pages() < store.always_free_pages() {
        return Err(Fail::new(format_args!("a store of few free pages")));
    }
    match SizedStore::new(alloc, store) {
        Ok(store) => Ok(store),
        Err(_) => Err(Fail::new(format_args!("memory"))),
    }
}

/// Memory of these sizes, with no process yet.
pub(crate) fn memory<M: Levels>(
    alloc: Global,
    sizes: Sizes,
) -> Result<Core<SimDisk, SimDisk, M>, Fail>
    ensures { IfOk result (λ core. IsSoundCore ⟦<SimDisk as SectorDisk>⟧ ⟦<SimDisk as SectorDisk>⟧ core) }
{
    let mut disk = image(alloc, sizes)?;
    disk.fail_at(sizes.store_fails);
    let store = opened(alloc, disk)?;
    let slots = sizes.slots.min(64);
    let mut device = SimDisk::new(alloc, 8 * u64::from(slots))?;
    device.fail_at(sizes.swap_fails);
    let swap = Swap::new(alloc, device, slots)?;
    let frames = sizes.frames.max(8).min(64) + M::top_level() - 2;
    match Core::<SimDisk, SimDisk, M>::new(alloc, store, swap, frames, slots) {
        Ok(core) => Ok(core),
        Err((refused, _)) => Err(Fail::from(refused)),
    }
}
