//! What the tests share: images of stores, whose bytes are worked out by hand, and what a stop leaves of a new one.
ghost use Rattle.std.specs.Prelude.{◌≡◌};
ghost use Rattle.stores.specs.Store.{IsReadyStore};

use batches::check_page;
use disk_model::{SectorDisk, SimDisk};
use std::fmt::Debug;
use std::process::Abort;
use stores::{OpenFault, Store};
use vm_types::FilePage;

/// Ends the test where something does not hold.
pub(crate) fn expect(rt: &impl Abort, holds: bool, otherwise: &str) {
    assert!(rt; holds, "{otherwise}");
}

/// Ends the test where the value isn't the one that is wanted. A test that said `assert_eq!` itself would be proved to end well at each place.
pub(crate) fn equal<T: PartialEq + Debug + Drop>(rt: &impl Abort, got: T, want: T) {
    assert_eq!(rt; got, want);
}

/// A sector of one word, 64 times, but for these bytes at these places.
pub(crate) fn sector(word: &[u8; 8], bytes: &[(usize, u8)]) -> [u8; 512] {
    let mut sector = [0; 512];
    for i in 0..512 {
        sector[i] = word[i % 8];
    }
    for (at, byte) in bytes {
        if *at < 512 {
            sector[*at] = *byte;
        }
    }
    sector
}

/// The device after a stop, with these bytes in its unsynced sectors, or where there are none with what was synced.
pub(crate) fn left(
    rt: &(impl AllocGlobal + Abort),
    disk: &SimDisk,
    chosen: &[(u64, [u8; 512])],
) -> SimDisk {
    disk.left(rt.alloc(), chosen).expect(rt, "memory")
}

/// A device of so many sectors of zeros but for those of these that it has, as a stop leaves it.
pub(crate) fn image(
    rt: &(impl AllocGlobal + Abort),
    sectors: u64,
    changes: &[(u64, [u8; 512])],
) -> SimDisk {
    let mut disk = SimDisk::new(rt.alloc(), sectors).expect(rt, "memory");
    for (n, bytes) in changes {
        if *n < disk.sectors() {
            disk.write(*n, bytes).expect(rt, "a write");
        }
    }
    disk.sync().expect(rt, "a sync");
    left(rt, &disk, &[])
}

/// Whether the sectors of a device hold these bytes.
pub(crate) fn holds(disk: &SimDisk, wanted: &[(u64, [u8; 512])]) -> bool {
    for (n, bytes) in wanted {
        if *n >= disk.sectors() || disk.sector(*n) != bytes {
            return false;
        }
    }
    true
}

/// Sees how many writes and syncs a device was asked for, and that its sectors hold these bytes.
pub(crate) fn check_device(
    rt: &impl Abort,
    disk: &SimDisk,
    counts: (u64, u64),
    wanted: &[(u64, [u8; 512])],
) {
    equal(rt, (disk.writes(), disk.syncs()), counts);
    expect(rt, holds(disk, wanted), "a sector holds other bytes");
}

/// Opens the store on a device.
pub(crate) fn opened(rt: &(impl AllocGlobal + Abort), disk: SimDisk) -> Store<SimDisk>
    ensures { IsReadyStore ⟦<SimDisk as SectorDisk>⟧ result }
{
    match Store::open(rt.alloc(), disk) {
        Ok(store) => store,
        Err((fault, _)) => panic!(rt; "{fault}"),
    }
}

/// The first byte of a page, or none where it does not begin inside its file.
pub(crate) fn first_byte(store: &mut Store<SimDisk>, page: FilePage) -> Option<u8>
    requires { IsReadyStore ⟦<SimDisk as SectorDisk>⟧ store.old }
    ensures { IsReadyStore ⟦<SimDisk as SectorDisk>⟧ store.new }
{
    if !check_page(store, page) {
        return None;
    }
    let mut bytes = [0; 4096];
    store.read_page(page, &mut bytes).ok()?;
    bytes.first().copied()
}

/// Whether both devices hold the same.
fn are_same(one: &SimDisk, other: &SimDisk) -> bool {
    for n in 0..one.sectors() {
        if n >= other.sectors() || one.sector(n) != other.sector(n) {
            return false;
        }
    }
    true
}

/// The device after a stop, with these bytes in each unsynced sector, or where there are none with what was synced: heads, the
/// front of the journal, and the homes.
fn filled(rt: &(impl AllocGlobal + Abort), disk: &SimDisk, fill: Option<[u8; 512]>) -> SimDisk {
    let mut chosen = Vec::new(rt.alloc());
    if let Some(bytes) = fill {
        for n in 0..disk.sectors() {
            if n < 40 || 8195 <= n {
                chosen.push((n, bytes)).expect(rt, "memory");
            }
        }
    }
    left(rt, disk, chosen.as_slice())
}

/// Sees that what a stop leaves of a new store has no mark or is the whole store, whatever the unsynced sectors then hold: their
/// old bytes, zeros, ones, half of the mark, all of it or the mark of a pool. It has the mark where all of the mark's own write reached the device.
pub(crate) fn check_left(
    rt: &(impl AllocGlobal + Abort),
    stopped: &SimDisk,
    at_mark: bool,
    whole: &SimDisk,
) {
    let mark = sector(b"FAMSYNC2", &[]);
    let mut half = mark;
    half[256..].fill(0);
    for fill in [
        None,
        Some([0; 512]),
        Some([0xff; 512]),
        Some(half),
        Some(mark),
        Some(sector(b"FAMSYNC4", &[])),
    ] {
        let image = filled(rt, stopped, fill);
        let marked = holds(&image, &[(0, mark)]);
        let is_written = at_mark && fill == Some(mark);
        expect(rt, marked == is_written, "a mark that was not written");
        let is_whole = !marked || are_same(&image, whole);
        expect(rt, is_whole, "a mark without the whole store");
        let wanted = if marked {
            None
        } else {
            Some(OpenFault::BadLayout)
        };
        let fault = Store::open(rt.alloc(), image).err().map(|(fault, _)| fault);
        equal(rt, fault, wanted);
    }
}
