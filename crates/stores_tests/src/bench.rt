//! What the tests share: devices whose bytes are worked out by hand, a store of three files of each layout, its pages, and what a stop leaves of it.
ghost use Rattle.std.specs.Prelude.{◌≡◌, ◌<◌, ℕ, true, IsErrOf, OnOk, get_or, if◌then◌else◌, length, replicate};
ghost use Rattle.stores.specs.NewStores.{IsSizedNew};
ghost use Rattle.stores.specs.Store.{disk_of, IsReadyStore};

use batches::{BadBatch, check_page, check_pages};
use disk_model::{SectorDisk, SimDisk};
use file_store::FileSource;
use std::fmt::Debug;
use std::process::Abort;
use stores::{NewStore, OpenFault, Store, format, image_bytes};
use sync_journal::{CommitFault, PageSource, SourceFault};
use vm_types::FilePage;

/// The files of a new store: one of no bytes, one of a byte more than a page, and one of three bytes that may only be read.
pub(crate) const FILES: [FileSource<&'static [u8]>; 3] = [
    FileSource {
        read_only: false,
        length: 0,
        bytes: None,
    },
    FileSource {
        read_only: false,
        length: 4097,
        bytes: Some(&[b'a'; 4097]),
    },
    FileSource {
        read_only: true,
        length: 3,
        bytes: Some(b"bbb"),
    },
];

/// Their pages.
pub(crate) const FIRST: FilePage = FilePage { file: 1, page: 0 };

pub(crate) const LAST: FilePage = FilePage { file: 1, page: 1 };

pub(crate) const LOCKED: FilePage = FilePage { file: 2, page: 0 };

/// Ends the test where something does not hold.
pub(crate) fn expect(rt: &impl Abort, holds: bool, otherwise: &str)
    ensures { holds ≡ true }
{
    assert!(rt; holds, "{otherwise}");
}

/// Ends the test where the value isn't the one that is wanted. A test that said `assert_eq!` itself would be proved to end well at each place.
pub(crate) fn equal<T: PartialEq + Debug + Drop>(rt: &impl Abort, got: T, want: T) {
    assert_eq!(rt; got, want);
}

/// Each page is its byte of these, 4,096 times. The first one of `!` fails once.
#[derive(Drop)]
pub(crate) struct Filled<'a> {
    pub(crate) bytes: &'a [u8],
    pub(crate) has_failed: bool,
}

impl PageSource for Filled<'_> {
    ghost pages = { λ s i. replicate 4096 (get_or s.bytes.now i 0) };

    ghost gives = { λ s i. i < length s.bytes.now };

    ghost failures = { λ s. if s.has_failed then 1 else 0 };

    ghost keeps_model = { λ _. Unit {0} };

    ghost sure = { λ _ _. Unit {0} };

    ghost follows = { λ _ _. Unit {0} };

    ghost stays = { λ _. tt };

    ghost goes_on = { λ _ _ _ _ _. tt };

    fn page(&mut self, i: usize, to: &mut [u8; 4096]) -> Result<(), SourceFault> {
        if self.bytes[i] == b'!' && !self.has_failed {
            self.has_failed = true;
            return Err(SourceFault);
        }
        *to = [self.bytes[i]; 4096];
        Ok(())
    }
}

/// A device with a new store of the files, and with so many homes more than they need.
pub(crate) fn made(rt: &(impl AllocGlobal + Abort), store: NewStore, more: u8) -> SimDisk
    requires { IsSizedNew store }
{
    let mut files = FILES;
    let sectors = image_bytes(store, &files) / 512 + 8 * u64::from(more);
    let mut disk = SimDisk::new(rt.alloc(), sectors).expect(rt, "memory");
    format(&mut disk, store, &mut files).expect(rt, "a store");
    disk
}

/// A sector of one word, 64 times.
pub(crate) fn repeated(word: &[u8; 8]) -> [u8; 512] {
    let mut sector = [0; 512];
    for i in 0..512 {
        sector[i] = word[i % 8];
    }
    sector
}

/// A sector that holds these bytes at these places, and is zero elsewhere.
pub(crate) fn sector_with(bytes: &[(usize, u8)]) -> [u8; 512] {
    let mut sector = [0; 512];
    for (at, byte) in bytes {
        if *at < 512 {
            sector[*at] = *byte;
        }
    }
    sector
}

/// What a device holds: the bytes of a sector, or a page of one byte from that sector on.
#[derive(Clone, Copy)]
pub(crate) enum Part {
    Sector(u64, [u8; 512]),
    Page(u64, u8),
}

/// A device of so many sectors of zeros but for these, as a stop leaves it.
pub(crate) fn image(rt: &(impl AllocGlobal + Abort), sectors: u64, parts: &[Part]) -> SimDisk {
    let mut disk = SimDisk::new(rt.alloc(), sectors).expect(rt, "memory");
    for part in parts {
        let is_done = match *part {
            Part::Sector(n, bytes) => n < disk.sectors() && disk.write(n, &bytes).is_ok(),
            Part::Page(n, byte) => {
                n < 0x10_0000
                    && n + 8 <= disk.sectors()
                    && disk.write_page(n, &[byte; 4096]).is_ok()
            }
        };
        expect(rt, is_done, "no such sector");
    }
    disk.sync().expect(rt, "a sync");
    left(rt, &disk, None)
}

/// Whether the sectors of a device hold these bytes.
pub(crate) fn holds(disk: &SimDisk, wanted: &[(u64, [u8; 512])]) -> bool {
    for (n, bytes) in wanted {
        if *n >= disk.sectors() || disk.sector(*n) != bytes {
            return false;
        }
    }
    true
}

/// What a stop leaves of a device, with these bytes in each unsynced sector, or else those that were last synced.
pub(crate) fn left(
    rt: &(impl AllocGlobal + Abort),
    disk: &SimDisk,
    filling: Option<[u8; 512]>,
) -> SimDisk
    ensures { (k : ℕ) → ⟦<SimDisk as SectorDisk>⟧.unsynced result k → ⊥ }
{
    let mut chosen = Vec::new(rt.alloc());
    if let Some(bytes) = filling {
        for n in 0..disk.sectors() {
            chosen.push((n, bytes)).expect(rt, "memory");
        }
    }
    disk.left(rt.alloc(), chosen.as_slice())
        .expect(rt, "memory")
}

/// Opens the store on a device.
pub(crate) fn opened(rt: &(impl AllocGlobal + Abort), disk: SimDisk) -> Store<SimDisk>
    ensures { IsReadyStore ⟦<SimDisk as SectorDisk>⟧ result }
{
    match Store::open(rt.alloc(), disk) {
        Ok(store) => store,
        Err((fault, _)) => panic!(rt; "{fault}"),
    }
}

/// Takes the store up on a device that is handed on.
pub(crate) fn resumed(rt: &(impl AllocGlobal + Abort), disk: SimDisk) -> Store<SimDisk>
    requires { (k : ℕ) → ⟦<SimDisk as SectorDisk>⟧.unsynced disk k → ⊥ }
    ensures { IsReadyStore ⟦<SimDisk as SectorDisk>⟧ result }
{
    match Store::resume(rt.alloc(), disk) {
        Ok(store) => store,
        Err((fault, _)) => panic!(rt; "{fault}"),
    }
}

/// Why the store on a device is not opened, and how many calls of the device were writes then.
pub(crate) fn refusal(rt: &impl AllocGlobal, disk: SimDisk) -> (Option<OpenFault>, u64) {
    match Store::open(rt.alloc(), disk) {
        Ok(store) => (None, store.into_disk().writes()),
        Err((fault, disk)) => (Some(fault), disk.writes()),
    }
}

/// Commits these pages, each of its byte. A page of `!` makes the source fail.
pub(crate) fn commit(
    rt: &impl Abort,
    store: &mut Store<SimDisk>,
    pages: &[FilePage],
    bytes: &[u8],
) -> Result<(), CommitFault>
    requires ready { IsReadyStore ⟦<SimDisk as SectorDisk>⟧ store.old }
    ensures done { OnOk result (IsReadyStore ⟦<SimDisk as SectorDisk>⟧ store.new) }
    ensures told { IsErrOf result CommitFault.Source → IsReadyStore ⟦<SimDisk as SectorDisk>⟧ store.new }
    ensures synced { OnOk result ((k : ℕ) → ⟦<SimDisk as SectorDisk>⟧.unsynced (disk_of store.new) k → ⊥) }
{
    expect(rt, pages.len() == bytes.len(), "not a byte for each page");
    let mut source = Filled {
        bytes,
        has_failed: false,
    };
    match check_pages(store, store.free_pages(), pages) {
        Err(BadBatch::BadPages) => panic!(rt; "pages that no commit may take"),
        Ok(()) | Err(BadBatch::ReadOnly) => store.commit(pages, &mut source),
    }
}

/// A new store whose pages a commit changed: `x` for the locked one, `y` for the last one, and `z` for the first one.
pub(crate) fn changed(rt: &(impl AllocGlobal + Abort), store: NewStore) -> Store<SimDisk>
    requires { IsSizedNew store }
    ensures ready { IsReadyStore ⟦<SimDisk as SectorDisk>⟧ result }
    ensures synced { (k : ℕ) → ⟦<SimDisk as SectorDisk>⟧.unsynced (disk_of result) k → ⊥ }
{
    let mut store = opened(rt, made(rt, store, 0));
    commit(rt, &mut store, &[LOCKED, LAST, FIRST], b"xyz").expect(rt, "a commit");
    store
}

/// The byte of which a page has so many, and zeros behind them.
pub(crate) fn byte(rt: &impl Abort, store: &mut Store<SimDisk>, page: FilePage, inside: usize) -> u8
    requires { IsReadyStore ⟦<SimDisk as SectorDisk>⟧ store.old }
    ensures { IsReadyStore ⟦<SimDisk as SectorDisk>⟧ store.new }
{
    expect(rt, check_page(store, page), "no page");
    let mut bytes = [255; 4096];
    store.read_page(page, &mut bytes).expect(rt, "a page");
    for i in 0..4096 {
        let wanted = if i < inside { bytes[0] } else { 0 };
        expect(rt, bytes[i] == wanted, "a page of other bytes");
    }
    bytes[0]
}

/// The bytes of the first page, the last one, and the locked one.
pub(crate) fn bytes(rt: &impl Abort, store: &mut Store<SimDisk>) -> [u8; 3]
    requires { IsReadyStore ⟦<SimDisk as SectorDisk>⟧ store.old }
    ensures { IsReadyStore ⟦<SimDisk as SectorDisk>⟧ store.new }
{
    [
        byte(rt, store, FIRST, 4096),
        byte(rt, store, LAST, 1),
        byte(rt, store, LOCKED, 3),
    ]
}
