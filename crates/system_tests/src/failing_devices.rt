//! Devices that fail a call once, and machines that do not start.
use crate::bench::{
    Armed, CONFIG, Ending, Exchange, GOES_ON, PLAIN, SINGLE, SMALL, Setting, image, left_in,
    left_over,
};
use crate::evictions::{BACK_TO_A_FREE_FRAME, EIGHT_PAGES_SYNCED_AGAIN, ONE_WRITE_LOST};
use disk_model::{SectorDisk, SimDisk};
use machine::{BootFault, Config};
use runner::RunEnd;
use std::process::Abort;
use vm_types::Mode;

/// The end of a trace on a machine that has halted.
const HALTED: Ending = Ok((RunEnd::Done, true));

/// The calls of the store's device by which a machine starts.
const START: u64 = 5;

/// A page is read in eight calls, then an msync of one page writes its body, its map and the gate, with a sync before and after the gate.
const FIRST_SYNC: u64 = START + 8 + 17;

/// The sync that comes after the gate.
const SECOND_SYNC: u64 = FIRST_SYNC + 2;

/// An msync whose sync fails. A halted machine still says which lines are no command.
const HALTS: Exchange<'static> = (
    b"spawn\nmmap 1 0 4096 rw- shared 0 0\nstore 1 0x10000 1 9\nmsync 1 0x10000 4096 sync\n\
load 1 0x10000 1\nfaults\nspawn\nfork\n",
    b"pid 1\naddr 0x10000\nok\nerror 5 EIO\nhalted\nhalted\nhalted\nbad line\n",
);

const ENDINGS: [(Setting, Exchange<'static>, Ending); 11] = [
    (PLAIN, (b"spawn\n", b"pid 1\n"), GOES_ON),
    // The first call of a start.
    (
        Setting {
            length: 4096,
            store: SINGLE,
            config: CONFIG,
            armed: Armed::StoreFailsAtCall(1),
        },
        (b"spawn\n", b""),
        Err(BootFault::Device),
    ),
    (
        Setting {
            length: 4096,
            store: SINGLE,
            config: Config {
                frames: 8,
                slots: 17,
                mode: Mode::Sv39,
            },
            armed: Armed::Nothing,
        },
        (b"spawn\n", b""),
        Err(BootFault::Slots),
    ),
    (
        Setting {
            length: 4096,
            store: SINGLE,
            config: Config {
                frames: 7,
                slots: 16,
                mode: Mode::Sv39,
            },
            armed: Armed::Nothing,
        },
        (b"spawn\n", b""),
        Err(BootFault::Frames),
    ),
    // A failed read stalls the access and changes nothing; the next access tries again, and a page that was read stays.
    (
        Setting {
            length: 8192,
            store: SINGLE,
            config: CONFIG,
            armed: Armed::StoreFailsAtCall(START + 1),
        },
        (
            b"spawn\nmmap 1 0 8192 rw- shared 0 0\nload 1 0x10001 2\nload 1 0x12000 1\nload 1 0x10000 1\n\
store 1 0x11000 1 3\nload 1 0x11000 1\nload 1 0x10000 1\n",
            b"pid 1\naddr 0x10000\nfault 4 BUS_ADRALN 0x10001\nfault 13 SEGV_MAPERR 0x12000\nstall 4 STOREDEV\n\
ok\nvalue 0x03\nvalue 0x00\n",
        ),
        GOES_ON,
    ),
    // A store that stalls has stored nothing.
    (
        Setting {
            length: 4096,
            store: SINGLE,
            config: CONFIG,
            armed: Armed::StoreFailsAtCall(START + 8),
        },
        (
            b"spawn\nmmap 1 0 4096 rw- shared 0 0\nstore 1 0x10000 1 3\nmsync 1 0x10000 4096 sync\nload 1 0x10000 1\n",
            b"pid 1\naddr 0x10000\nstall 4 STOREDEV\nok\nvalue 0x00\n",
        ),
        GOES_ON,
    ),
    (
        Setting {
            length: 4096,
            store: SINGLE,
            config: CONFIG,
            armed: Armed::StoreFailsAtCall(FIRST_SYNC),
        },
        HALTS,
        HALTED,
    ),
    (
        Setting {
            length: 4096,
            store: SINGLE,
            config: CONFIG,
            armed: Armed::StoreFailsAtCall(SECOND_SYNC),
        },
        HALTS,
        HALTED,
    ),
    // The first write of swap, which is for a page that is given up.
    (
        Setting {
            length: 0x8000,
            store: SINGLE,
            config: SMALL,
            armed: Armed::SwapFailsAtCall(1),
        },
        ONE_WRITE_LOST,
        GOES_ON,
    ),
    // Four of the pages lie in slots, by 32 writes; the next call is the first read of the msync.
    (
        Setting {
            length: 0x8000,
            store: SINGLE,
            config: SMALL,
            armed: Armed::SwapFailsAtCall(33),
        },
        EIGHT_PAGES_SYNCED_AGAIN,
        GOES_ON,
    ),
    // One page went to a slot by eight writes, and comes back by eight reads: no slot is tried where frames are free.
    (
        Setting {
            length: 4096,
            store: SINGLE,
            config: SMALL,
            armed: Armed::SwapFailsAtCall(17),
        },
        BACK_TO_A_FREE_FRAME,
        GOES_ON,
    ),
];

#[test]
fn a_failed_call_has_its_reply(rt: HostRuntime) {
    for (setting, exchange, ending) in ENDINGS {
        let _ = left_in(&rt, setting, exchange, ending);
    }
}

/// Opens the gate of a device over a map of 1,024 pages.
fn open_gate_over_1024_pages(rt: &impl Abort, disk: &mut SimDisk) {
    let mut map = [0; 512];
    map[1] = 4;
    let mut gate = [0; 512];
    for i in 0..512_usize {
        gate[i] = b"GATEOPEN"[i % 8];
    }
    assert!(rt; disk.sectors() > 3);
    disk.write(3, &map).expect(rt, "a write");
    disk.write(2, &gate).expect(rt, "a write");
    disk.sync().expect(rt, "a sync");
}

#[test]
fn an_open_gate_over_a_map_of_too_many_pages_is_refused(rt: HostRuntime) {
    let mut disk = image(&rt, SINGLE, 4096, None);
    open_gate_over_1024_pages(&rt, &mut disk);
    let run = (CONFIG, Armed::Nothing);
    let refused = Err(BootFault::BadJournal);
    let _ = left_over(&rt, &disk, run, (b"spawn\n", b""), refused);
}
