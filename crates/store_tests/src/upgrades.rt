//! Stores of layout 1 made anew in layout 2. Their bytes are worked out by hand.
use crate::bench::{check_left, equal, expect, first_byte, holds, image, opened, sector};
use disk_model::SimDisk;
use file_store::{UpgradeFault, upgrade};
use std::process::Abort;
use vm_types::FilePage;

/// Where the old store has its journal's body and its homes, and the new one its homes, as their formats have it.
const OLD_BODY: u64 = 4;

const OLD_HOMES: u64 = 1020;

const HOMES: u64 = 8195;

/// The calls of an upgrade of two pages with an open journal. Of the old device mark, directory, gate, map and two pages are read; of the new one the
/// mark is read, and two pages, directory and gate are written, a sync, the mark, and a sync.
const OLD_CALLS: u64 = 4 + 16;

const NEW_CALLS: u64 = 1 + 16 + 2 + 1 + 1 + 1;

const NEW_WRITES: u64 = 16 + 2 + 1;

/// The directory of a file of a page in home 1, and a read-only one of 1 byte in home 0.
const DIRECTORY: [(usize, u8); 5] = [(0, 1), (3, 0x80), (5, 0x10), (11, 0xc0), (12, 1)];

/// A device with so many sectors behind the homes' first, with an old store, and with these sectors. Page 0 of the body is `5a`,
/// home 1 begins with `61`, and home 0 with `62` and with a byte behind its file's end. The gate is closed.
fn old_store(rt: &(impl AllocGlobal + Abort), more: u64, changes: &[(u64, [u8; 512])]) -> SimDisk {
    let mut sectors = Vec::new(rt.alloc());
    for n in 0..8 {
        sectors
            .push((OLD_BODY + n, [0x5a; 512]))
            .expect(rt, "memory");
    }
    let first = [
        (0, sector(b"FAMSYNC1", &[])),
        (1, sector(&[0; 8], &DIRECTORY)),
        (OLD_HOMES, sector(&[0; 8], &[(0, 0x62), (1, 0x77)])),
        (OLD_HOMES + 8, sector(&[0; 8], &[(0, 0x61)])),
    ];
    sectors.extend_from_slice(&first).expect(rt, "memory");
    sectors.extend_from_slice(changes).expect(rt, "memory");
    image(rt, OLD_HOMES + more.min(100), sectors.as_slice())
}

/// What faults the devices of an upgrade have: the calls that fail, and the write of the new device that stops it, if any.
#[derive(Clone, Copy)]
struct Armed {
    old_call: u64,
    new_call: u64,
    new_write: u64,
}

const UNARMED: Armed = Armed {
    old_call: 0,
    new_call: 0,
    new_write: 0,
};

/// The new device, once a store whose journal holds home 1 was upgraded so far. The old device is only read.
fn upgraded(rt: &(impl AllocGlobal + Abort), armed: Armed, fault: Option<UpgradeFault>) -> SimDisk {
    let gate = sector(b"GATEOPEN", &[]);
    let map = sector(&[0; 8], &[(0, 1), (4, 1)]);
    let mut old = old_store(rt, 16, &[(2, gate), (3, map)]);
    old.fail_at(armed.old_call);
    let mut new = SimDisk::new(rt.alloc(), HOMES + 16).expect(rt, "memory");
    new.fail_at(armed.new_call);
    new.stop_at(armed.new_write);
    equal(rt, upgrade(&mut old, &mut new).err(), fault);
    equal(rt, (old.writes(), old.syncs()), (0, 0));
    new
}

#[test]
fn upgrades_a_store(rt: HostRuntime) {
    let whole = upgraded(&rt, UNARMED, None);
    equal(
        &rt,
        (whole.calls(), whole.writes(), whole.syncs()),
        (NEW_CALLS, NEW_WRITES, 2),
    );
    let wanted = [
        (0, sector(b"FAMSYNC2", &[])),
        (1, sector(&[0; 8], &DIRECTORY)),
        (2, [0; 512]),
        (3, [0; 512]),
        (11, [0; 512]),
        (HOMES, sector(&[0; 8], &[(0, 0x62)])),
        (HOMES + 7, [0; 512]),
        (HOMES + 8, [0x5a; 512]),
        (HOMES + 15, [0x5a; 512]),
    ];
    expect(&rt, holds(&whole, &wanted), "the new device");
    let page = FilePage { file: 0, page: 0 };
    let mut store = opened(&rt, whole);
    equal(&rt, first_byte(&mut store, page), Some(0x5a));
    // Where the gate is closed the home stands.
    let mut old = old_store(&rt, 16, &[]);
    let mut new = SimDisk::new(rt.alloc(), HOMES + 16).expect(&rt, "memory");
    equal(&rt, upgrade(&mut old, &mut new), Ok(()));
    let mut store = opened(&rt, new);
    equal(&rt, first_byte(&mut store, page), Some(0x61));
}

// Each row has what the faults behind it ask for too: the first of them is told.
#[test]
fn refuses_what_cannot_be_upgraded(rt: HostRuntime) {
    let (older, newer) = (b"FAMSYNC1", b"FAMSYNC2");
    let gate = (2, sector(b"GATEOPEN", &[]));
    // 128 pages; home 2 of 2; home 0 twice.
    let many = (3, sector(&[0; 8], &[(0, 128)]));
    let behind = (3, sector(&[0; 8], &[(0, 1), (4, 2)]));
    let twice = (3, sector(&[0; 8], &[(0, 2)]));
    // One sector too few for the new store, one home of it, and two.
    let (few, one, two) = (HOMES - 1, HOMES + 8, HOMES + 16);
    // No home of the old store, the other mark, and a file that ends past home 0 of 1; the bad maps; one sector too few, and no
    // room for home 1; and either mark.
    let cases = [
        (0, [gate, many], (few, newer), UpgradeFault::OldLayout),
        (
            16,
            [(0, sector(newer, &[])), many],
            (few, newer),
            UpgradeFault::OldLayout,
        ),
        (8, [gate, many], (few, newer), UpgradeFault::OldLayout),
        (16, [gate, many], (few, newer), UpgradeFault::OldJournal),
        (16, [gate, behind], (one, newer), UpgradeFault::OldJournal),
        (16, [gate, twice], (one, newer), UpgradeFault::OldJournal),
        (16, [many, many], (few, newer), UpgradeFault::NewSmall),
        (16, [many, many], (one, newer), UpgradeFault::NewSmall),
        (16, [many, many], (two, newer), UpgradeFault::Formatted),
        (16, [many, many], (two, older), UpgradeFault::Formatted),
    ];
    for (more, changes, (sectors, mark), fault) in cases {
        let mut old = old_store(&rt, more, &changes);
        let mut new = image(&rt, sectors, &[(0, sector(mark, &[]))]);
        equal(&rt, upgrade(&mut old, &mut new), Err(fault));
        equal(&rt, (old.writes(), new.writes()), (0, 0));
    }
}

#[test]
fn a_stopped_upgrade_leaves_no_mark_or_a_whole_store(rt: HostRuntime) {
    let whole = upgraded(&rt, UNARMED, None);
    for write in 1..NEW_WRITES + 1 {
        let armed = Armed {
            new_write: write,
            ..UNARMED
        };
        let stopped = upgraded(&rt, armed, Some(UpgradeFault::NewDevice));
        check_left(&rt, &stopped, write == NEW_WRITES, &whole);
    }
}

#[test]
fn a_failed_call_names_its_device(rt: HostRuntime) {
    for call in 1..NEW_CALLS + 1 {
        let armed = Armed {
            new_call: call,
            ..UNARMED
        };
        let new = upgraded(&rt, armed, Some(UpgradeFault::NewDevice));
        expect(&rt, new.calls() >= call, "the call was not made");
    }
    for call in 1..OLD_CALLS + 2 {
        let armed = Armed {
            old_call: call,
            ..UNARMED
        };
        let fault = if call > OLD_CALLS {
            None
        } else {
            Some(UpgradeFault::OldDevice)
        };
        upgraded(&rt, armed, fault);
    }
}
