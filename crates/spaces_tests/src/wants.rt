//! Memory that is soon full, and devices that fail. Frame 0 is the zero page, and a process with pages in one row has three tables,
//! so 8 frames leave four for its pages.
use crate::bench::Call::{Dontneed, Exit, Fork, Load, Map, Protect, Spawn, Store, Unmap};
use crate::bench::May::{Read, Run};
use crate::bench::Step::{
    Does, Entry, Faults, Fetches, FreeSlots, Loads, Makes, Maps, Places, Refuses, Stalls, Stores,
    UsedFrames,
};
use crate::bench::{FILE, PLAIN, Row, Step};
use crate::fixtures::Sizes;
use vm_types::MapSource::{Anon, Private};
use vm_types::Width::One;
use vm_types::{Code, Errno, Stall};

/// 8 frames and no slot, over a file of one page.
const FEW: Sizes = Sizes {
    frames: 8,
    length: 4096,
    ..PLAIN
};

/// Process 1 has six pages of zeros.
const HAS_SIX: &[Step] = &[Makes(Spawn, 1), Maps(0x20000, 0x6000, Anon)];

/// It stores the bytes 1 to 6 to them, one to each.
const STORES_SIX: &[Step] = &[
    Stores(1, 0x20000, 1),
    Stores(1, 0x21000, 2),
    Stores(1, 0x22000, 3),
    Stores(1, 0x23000, 4),
    Stores(1, 0x24000, 5),
    Stores(1, 0x25000, 6),
];

pub(crate) const ROWS: [Row<'static>; 10] = [
    Row {
        name: "answers in ample memory",
        sizes: Sizes { frames: 32, ..FEW },
        parts: &[
            HAS_SIX,
            &[
                Places(Map(0x30000, 4096, Run, Anon), 0x30000),
                Stores(1, 0x20003, 9),
                Loads(1, 0x20003, 9),
                Fetches(0x30ffc, 0),
                Makes(Fork(1), 2),
                Does(Exit(1)),
                Loads(2, 0x20003, 9),
                Refuses(Store(1, 0x20003, One, 9), Errno::ESRCH),
                Makes(Spawn, 1),
            ],
        ],
    },
    // Two of the six pages lie in slots at any time, and each page that is loaded from one sends another there.
    Row {
        name: "reads pages back",
        sizes: Sizes { slots: 3, ..FEW },
        parts: &[
            HAS_SIX,
            STORES_SIX,
            &[
                FreeSlots(1),
                Loads(1, 0x20000, 1),
                Loads(1, 0x21000, 2),
                Loads(1, 0x22000, 3),
                Loads(1, 0x23000, 4),
                Loads(1, 0x24000, 5),
                Loads(1, 0x25000, 6),
                FreeSlots(1),
            ],
        ],
    },
    // A page of the file that was stored to goes to a slot too, and a private page of it shows what comes back.
    Row {
        name: "reads a touched page back",
        sizes: Sizes { slots: 4, ..FEW },
        parts: &[
            HAS_SIX,
            &[
                Maps(0x26000, 4096, FILE),
                Maps(0x27000, 4096, Private { file: 0, offset: 0 }),
                Stores(1, 0x26001, 7),
            ],
            STORES_SIX,
            &[
                Loads(1, 0x27001, 7),
                Stores(1, 0x27001, 8),
                Loads(1, 0x26001, 7),
                Loads(1, 0x27001, 8),
            ],
        ],
    },
    // Two of six pages lie in the only two slots, which are free again as the pages go. A page keeps its slot with another permission.
    Row {
        name: "gives back slots",
        sizes: Sizes {
            slots: 2,
            length: 0,
            ..FEW
        },
        parts: &[
            HAS_SIX,
            STORES_SIX,
            &[
                FreeSlots(0),
                Does(Protect(0x20000, 0x6000, Read)),
                Entry(1, 0x20000, 2, Some(1)),
                Stalls(Load(1, 0x20000, One), Stall::NoSwap),
                Faults(Store(1, 0x21000, One, 7), 15, Code::SegvAccerr, 0x21000),
                Does(Unmap(0x20000, 0x6000)),
                FreeSlots(2),
                Maps(0x20000, 0x6000, Anon),
            ],
            STORES_SIX,
            &[
                Does(Dontneed(0x20000, 0x6000)),
                FreeSlots(2),
                Loads(1, 0x20000, 0),
            ],
        ],
    },
    // The tables of process 1 and the roots of four more fill 8 frames with the zero page: all its pages are in slots then.
    Row {
        name: "gives up pages for processes",
        sizes: Sizes { slots: 6, ..FEW },
        parts: &[
            HAS_SIX,
            STORES_SIX,
            &[
                Makes(Spawn, 2),
                Makes(Spawn, 3),
                Makes(Spawn, 4),
                Makes(Spawn, 5),
                Stalls(Spawn, Stall::NoFrames),
                Stalls(Load(1, 0x20000, One), Stall::NoFrames),
                Does(Exit(5)),
                Loads(1, 0x20000, 1),
                Loads(1, 0x25000, 6),
            ],
        ],
    },
    // The tables of both leave one frame for pages, and the two share each slot until one of them stores to its page.
    Row {
        name: "forks pages in slots",
        sizes: Sizes { slots: 8, ..FEW },
        parts: &[
            HAS_SIX,
            STORES_SIX,
            &[
                Makes(Fork(1), 2),
                FreeSlots(3),
                Entry(1, 0x20000, 2, Some(2)),
                Entry(2, 0x20000, 2, Some(2)),
                Loads(2, 0x20000, 1),
                Stores(2, 0x20000, 0x77),
                Loads(1, 0x20000, 1),
                Loads(2, 0x20000, 0x77),
                Does(Exit(2)),
                Loads(1, 0x25000, 6),
            ],
        ],
    },
    // Of the two tables that the far page needs one frame is there for, and no slot to make another free: the one that was linked is
    // without entries, and given back with the page.
    Row {
        name: "gives back a table that a stalled call left",
        sizes: FEW,
        parts: &[
            HAS_SIX,
            &[
                Maps(0x4000_0000, 0x1000, Anon),
                Stores(1, 0x20000, 1),
                Stores(1, 0x21000, 2),
                Stores(1, 0x22000, 3),
                UsedFrames(7),
                Stalls(Store(1, 0x4000_0000, One, 1), Stall::NoSwap),
                UsedFrames(8),
                Does(Unmap(0x4000_0000, 0x1000)),
                UsedFrames(7),
            ],
        ],
    },
    // The swap device fails as the fifth page wants the frame of another: nobody sees a change, and the call may be made again.
    Row {
        name: "tells that a page was not written",
        sizes: Sizes {
            slots: 4,
            swap_fails: 1,
            ..FEW
        },
        parts: &[
            HAS_SIX,
            &[
                Stores(1, 0x20000, 1),
                Stores(1, 0x21000, 2),
                Stores(1, 0x22000, 3),
                Stores(1, 0x23000, 4),
                Stalls(Store(1, 0x24000, One, 5), Stall::SwapDevice),
                FreeSlots(4),
                Stores(1, 0x24000, 5),
                Loads(1, 0x24000, 5),
                Loads(1, 0x20000, 1),
            ],
        ],
    },
    // Each page is written and read by eight calls. Two pages were written to slots, and a third is as the first is wanted, so call
    // 25 begins to read that one.
    Row {
        name: "tells that a page was not read back",
        sizes: Sizes {
            slots: 4,
            swap_fails: 25,
            ..FEW
        },
        parts: &[
            HAS_SIX,
            STORES_SIX,
            &[
                Stalls(Load(1, 0x20000, One), Stall::SwapDevice),
                Loads(1, 0x20000, 1),
            ],
        ],
    },
    // The store is opened by five calls, and the sixth reads the page of the file.
    Row {
        name: "tells that a file page was not read",
        sizes: Sizes {
            store_fails: 6,
            ..FEW
        },
        parts: &[
            HAS_SIX,
            &[
                Maps(0x26000, 4096, FILE),
                Stalls(Load(1, 0x26000, One), Stall::StoreDevice),
                Loads(1, 0x26000, 0),
            ],
        ],
    },
];
