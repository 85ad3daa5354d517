//! Four frames for the pages of a process, whose bytes come from a file, an object or slots: where each page lies, and the bits of its
//! entry. V, R, W, U and A weigh 1, 2, 4, 16 and 64, D weighs 128, and the mark of an own page 256.
use crate::bench::Call::{Fetch, Load, Msync, Spawn, Store, Unmap};
use crate::bench::Step::{
    Bits, Does, Faults, FreeSlots, Lies, Loads, Makes, Maps, Reads, Refuses, Stalls, Stored, Stores,
};
use crate::bench::{FILE, PLAIN, Row, Step};
use crate::fixtures::Sizes;
use page_cache::Place::{Frame, Home, Slot};
use vm_types::Code::{BusAdraln, BusAdrerr, SegvAccerr, SegvMaperr};
use vm_types::Errno::{EINVAL, ENOMEM, ESRCH};
use vm_types::MapSource::{Anon, Common, Private};
use vm_types::MsyncMode::{Async, Sync};
use vm_types::PageKey::{File, Object};
use vm_types::Stall::{NoSwap, SwapDevice};
use vm_types::Width::{Eight, One};
use vm_types::{FilePage, FrameNo, ObjectPage, SlotNo};

/// One frame is the zero page, and three are tables, so four pages find room. The file begins with 7; of its six pages the last has 904
/// bytes inside.
const NO_SLOT: Sizes = Sizes {
    frames: 8,
    length: 21_384,
    first: 7,
    ..PLAIN
};

const FOUR_SLOTS: Sizes = Sizes {
    slots: 4,
    ..NO_SLOT
};

/// The first pages of the file and of the object.
const FIRST: FilePage = FilePage { file: 0, page: 0 };

const OBJECT: ObjectPage = ObjectPage { object: 0, page: 0 };

/// Shared pages of the file, the last of them past its end, own pages, a private page of the file, and two pages of an object.
const MAPPED: &[Step] = &[
    Makes(Spawn, 1),
    Maps(0x10000, 0x7000, FILE),
    Maps(0x20000, 0x6000, Anon),
    Maps(0x30000, 0x1000, Private { file: 0, offset: 0 }),
    Maps(0x40000, 0x2000, Common),
];

/// Four own pages, which take all frames that are left for pages.
const OWNS_FOUR: &[Step] = &[
    Stores(1, 0x20000, 2),
    Stores(1, 0x21000, 3),
    Stores(1, 0x22000, 4),
    Stores(1, 0x23000, 5),
    Bits(0x23000, 0x1d7),
];

/// Accesses that fault, and a page of zeros, which gets a frame of its own.
const FAULTS: &[Step] = &[
    Faults(Load(1, 0x20004, Eight), 4, BusAdraln, 0x20004),
    Bits(0x20004, 0),
    Faults(Load(1, 0, One), 13, SegvMaperr, 0),
    Faults(Fetch(0x20000), 12, SegvAccerr, 0x20000),
    Faults(Store(1, 0x16000, One, 1), 15, BusAdrerr, 0x16000),
    Bits(0x16000, 0),
    Reads(0x20ff8, Eight, 0),
    Bits(0x20ff8, 0x53),
    Stores(1, 0x20ff8, 1),
    Bits(0x20ff8, 0x1d7),
    Loads(1, 0x20ff8, 1),
    Bits(0x20ff8, 0x1d7),
];

/// All that show a page of the file show one frame, until one of them has a copy. D of a shared page is clear until that is touched, and
/// again after an msync.
const SHOWN: &[Step] = &[
    Loads(1, 0x30000, 7),
    Bits(0x30000, 0x53),
    Loads(1, 0x10000, 7),
    Bits(0x10000, 0x57),
    Lies(File(FIRST), Frame(FrameNo(4)), false),
    Stores(1, 0x10000, 9),
    Bits(0x10000, 0xd7),
    Lies(File(FIRST), Frame(FrameNo(4)), true),
    Stores(1, 0x30001, 1),
    Bits(0x30000, 0x1d7),
    Loads(1, 0x30000, 9),
    Loads(1, 0x10001, 0),
    Bits(0x10000, 0xd7),
    Does(Msync(1, 0x10000, 1, Sync)),
    Loads(1, 0x10000, 9),
    Bits(0x10000, 0x57),
];

/// Without a slot an own page stays, and a page of the file that is touched; one that is not goes home.
const WITHOUT_SLOTS: &[Step] = &[
    Stores(1, 0x10000, 1),
    Bits(0x10000, 0xd7),
    Stores(1, 0x20000, 2),
    Stores(1, 0x21000, 3),
    Loads(1, 0x11000, 0),
    Bits(0x11000, 0x57),
    Stores(1, 0x22000, 4),
    Bits(0x22000, 0x1d7),
    Lies(File(FilePage { file: 0, page: 1 }), Home, false),
    Stalls(Store(1, 0x23000, One, 5), NoSwap),
    Bits(0x23000, 0),
    Loads(1, 0x10000, 1),
    Bits(0x10000, 0xd7),
];

/// Seven own pages, the first of them a copy of the file's page, in four frames and three slots.
const OWN: &[Step] = &[
    Stores(1, 0x30001, 1),
    Bits(0x30000, 0x1d7),
    Stores(1, 0x20000, 2),
    Stores(1, 0x21000, 3),
    Stores(1, 0x22000, 4),
    Stores(1, 0x23000, 5),
    Stores(1, 0x24000, 6),
    Stores(1, 0x25000, 7),
    Bits(0x25000, 0x1d7),
    Lies(File(FIRST), Home, false),
    FreeSlots(1),
    Loads(1, 0x30001, 1),
    Bits(0x30000, 0x1d7),
    Loads(1, 0x30000, 7),
    Loads(1, 0x20000, 2),
    Bits(0x20000, 0x1d7),
    Loads(1, 0x25000, 7),
    FreeSlots(1),
];

/// A page of the file that is touched goes to a slot, and is touched when it comes back.
const TOUCHED: &[Step] = &[
    Lies(File(FIRST), Slot(SlotNo(0)), true),
    Loads(1, 0x10000, 1),
    Bits(0x10000, 0xd7),
    Lies(File(FIRST), Frame(FrameNo(5)), true),
    FreeSlots(3),
];

/// A page of the file is shown at two pages.
const SHOWN_TWICE: &[Step] = &[
    Loads(1, 0x30000, 7),
    Bits(0x30000, 0x53),
    Loads(1, 0x10000, 7),
    Bits(0x10000, 0x57),
    Lies(File(FIRST), Frame(FrameNo(4)), false),
];

/// It went home from both, and both show it again. Its frame had an own page meanwhile.
const SHOWN_AGAIN: &[Step] = &[
    Lies(File(FIRST), Home, false),
    Loads(1, 0x10000, 7),
    Bits(0x10000, 0x57),
    Loads(1, 0x30000, 7),
    Bits(0x30000, 0x53),
    FreeSlots(3),
];

/// Of two pages of an object one is stored to.
const OBJECT_STORED: &[Step] = &[
    Loads(1, 0x40000, 0),
    Bits(0x40000, 0x57),
    Stores(1, 0x40000, 1),
    Bits(0x40000, 0xd7),
    Loads(1, 0x41000, 0),
    Bits(0x41000, 0x57),
    Lies(Object(OBJECT), Frame(FrameNo(4)), true),
];

/// That one lies in a slot, and the other one nowhere.
const OBJECT_IN_A_SLOT: &[Step] = &[
    Lies(Object(OBJECT), Slot(SlotNo(0)), true),
    Lies(Object(ObjectPage { object: 0, page: 1 }), Home, false),
    FreeSlots(3),
    Loads(1, 0x40000, 1),
    Bits(0x40000, 0xd7),
    Lies(Object(OBJECT), Frame(FrameNo(6)), true),
];

/// The same page goes to a slot, comes back, and goes again, until no page names it: it is forgotten, and its slot is free.
const FORGOTTEN: &[Step] = &[
    Loads(1, 0x40000, 1),
    Bits(0x40000, 0xd7),
    Loads(1, 0x20000, 2),
    Loads(1, 0x21000, 3),
    Loads(1, 0x22000, 4),
    Loads(1, 0x23000, 5),
    Lies(Object(OBJECT), Slot(SlotNo(1)), true),
    Does(Unmap(0x40000, 0x1000)),
    Lies(Object(OBJECT), Home, false),
    FreeSlots(4),
];

/// What an msync refuses, in the order of its checks, and what there is nothing to do for.
const REFUSED: &[Step] = &[
    Refuses(Msync(2, 1, 0, Sync), ESRCH),
    Refuses(Msync(1, 0x10001, 0, Sync), EINVAL),
    Does(Msync(1, 0x50000, 0, Sync)),
    Refuses(Msync(1, 0x16000, 0x1001, Async), ENOMEM),
    Does(Msync(1, 0x10000, 0x7000, Sync)),
];

/// Of the last page 904 bytes are inside the file: the others become zeros. The journal's first page begins at sector 11, and byte 903
/// is byte 391 of its second sector.
const TAIL: &[Step] = &[
    Stores(1, 0x15387, 0xaa),
    Stores(1, 0x15388, 0xbb),
    Bits(0x15388, 0xd7),
    Does(Msync(1, 0x10000, 0x6000, Async)),
    Lies(File(FilePage { file: 0, page: 5 }), Frame(FrameNo(4)), true),
    Does(Msync(1, 0x10000, 0x6000, Sync)),
    Lies(
        File(FilePage { file: 0, page: 5 }),
        Frame(FrameNo(4)),
        false,
    ),
    Stored(12, 391, 0xaa),
    Stored(12, 392, 0),
    Loads(1, 0x15388, 0),
    Bits(0x15388, 0x57),
];

/// A page in a slot becomes durable from there, and is at home then. The slot was filled by eight calls of the swap device: where the
/// ninth fails, by which it would be read, the page stays touched.
const FROM_A_SLOT: &[Step] = &[
    Lies(File(FIRST), Slot(SlotNo(0)), true),
    Stalls(Msync(1, 0x10000, 0x6000, Sync), SwapDevice),
    Lies(File(FIRST), Slot(SlotNo(0)), true),
    Does(Msync(1, 0x10000, 0x6000, Sync)),
    Lies(File(FIRST), Home, false),
    FreeSlots(4),
    Stored(11, 0, 9),
    Stored(18, 511, 8),
    Loads(1, 0x10000, 9),
    Bits(0x10000, 0x57),
];

pub(crate) const ROWS: [Row<'static>; 11] = [
    Row {
        name: "accesses fault",
        sizes: NO_SLOT,
        parts: &[MAPPED, FAULTS],
    },
    Row {
        name: "a page of the file is shown in one frame",
        sizes: NO_SLOT,
        parts: &[MAPPED, SHOWN],
    },
    Row {
        name: "without a slot touched pages stay",
        sizes: NO_SLOT,
        parts: &[MAPPED, WITHOUT_SLOTS],
    },
    Row {
        name: "own pages come back",
        sizes: FOUR_SLOTS,
        parts: &[MAPPED, OWN],
    },
    Row {
        name: "a touched page comes back",
        sizes: FOUR_SLOTS,
        parts: &[MAPPED, &[Stores(1, 0x10000, 1)], OWNS_FOUR, TOUCHED],
    },
    Row {
        name: "a page that is shown twice comes back",
        sizes: FOUR_SLOTS,
        parts: &[MAPPED, SHOWN_TWICE, OWNS_FOUR, SHOWN_AGAIN],
    },
    Row {
        name: "a page of an object comes back",
        sizes: FOUR_SLOTS,
        parts: &[MAPPED, OBJECT_STORED, OWNS_FOUR, OBJECT_IN_A_SLOT],
    },
    Row {
        name: "a page of an object is forgotten",
        sizes: FOUR_SLOTS,
        parts: &[MAPPED, &[Stores(1, 0x40000, 1)], OWNS_FOUR, FORGOTTEN],
    },
    Row {
        name: "an msync is refused",
        sizes: NO_SLOT,
        parts: &[MAPPED, REFUSED],
    },
    Row {
        name: "an msync ends with the file",
        sizes: NO_SLOT,
        parts: &[MAPPED, TAIL],
    },
    Row {
        name: "an msync takes a page from a slot",
        sizes: Sizes {
            swap_fails: 9,
            ..FOUR_SLOTS
        },
        parts: &[
            MAPPED,
            &[Stores(1, 0x10000, 9), Stores(1, 0x10fff, 8)],
            OWNS_FOUR,
            FROM_A_SLOT,
        ],
    },
];
