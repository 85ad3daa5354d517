//! A file that gets other lengths, in memory that has room and in memory that is full. The answers are those of truncate(2), mmap(2) and
//! msync(2), and of our own choices, worked out by hand.
use crate::bench::Call::{Load, Msync, Spawn, Store, Truncate};
use crate::bench::Step::{
    Bits, Does, Faults, FreeSlots, Left, Loads, Makes, Maps, Refuses, Stalls, Stores,
};
use crate::bench::{FILE, PLAIN, Row};
use crate::fixtures::Sizes;
use vm_types::Code::BusAdrerr;
use vm_types::Errno::{EACCES, EBADF, EFBIG, EINVAL, ENOSPC};
use vm_types::MapSource::{Anon, Private};
use vm_types::MsyncMode::Sync;
use vm_types::Stall::{NoSwap, StoreDevice};
use vm_types::Width::One;

/// The most bytes that a file can have, 2^42.
const LONGEST: u64 = 0x400_0000_0000;

/// 16 frames over a file of three pages, in a store that has homes for eight more.
const THREE_PAGES: Sizes = Sizes {
    length: 0x3000,
    free_homes: Some(8),
    ..PLAIN
};

/// 16 frames over a file of one page, in a store that has no more homes.
const NO_HOMES: Sizes = Sizes {
    length: 4096,
    free_homes: Some(0),
    ..PLAIN
};

/// Eight frames, of which one is the zero page and three are tables of a process, so that four of its pages find room.
const FEW: Sizes = Sizes {
    frames: 8,
    length: 0x2000,
    free_homes: Some(8),
    ..PLAIN
};

pub(crate) const ROWS: [Row<'static>; 9] = [
    // The end lies behind the first byte of page 1. Of the two copies that the process has of its own, one is of a page behind that.
    Row {
        name: "cuts a file, and makes it longer again",
        sizes: THREE_PAGES,
        parts: &[&[
            Makes(Spawn, 1),
            Maps(0x10000, 0x4000, FILE),
            Maps(0x20000, 0x3000, Private { file: 0, offset: 0 }),
            Stores(1, 0x10000, 5),
            Stores(1, 0x11000, 6),
            Stores(1, 0x11001, 7),
            Stores(1, 0x12000, 8),
            Stores(1, 0x21001, 9),
            Stores(1, 0x22000, 10),
            Faults(Load(1, 0x13000, One), 13, BusAdrerr, 0x13000),
            Does(Truncate(0, 4097)),
            Loads(1, 0x10000, 5),
            Loads(1, 0x11000, 6),
            Loads(1, 0x11001, 0),
            Loads(1, 0x21001, 9),
            Faults(Load(1, 0x12000, One), 13, BusAdrerr, 0x12000),
            Faults(Store(1, 0x22000, One, 1), 15, BusAdrerr, 0x22000),
            Bits(0x12000, 0),
            Bits(0x22000, 0),
            Left(0x3000, 1, 0),
            Does(Truncate(0, 0x4000)),
            Loads(1, 0x11000, 6),
            Loads(1, 0x11001, 0),
            Loads(1, 0x12000, 0),
            Loads(1, 0x13000, 0),
            Loads(1, 0x21001, 9),
            Loads(1, 0x22000, 0),
            Left(0x3000, 1, 0),
        ]],
    },
    // The pages that were stored to go along with the length, though the msync names another page. What was cut off is zeros then.
    Row {
        name: "makes a length durable",
        sizes: THREE_PAGES,
        parts: &[&[
            Makes(Spawn, 1),
            Maps(0x10000, 0x4000, FILE),
            Stores(1, 0x12000, 8),
            Does(Msync(1, 0x12000, 0x1000, Sync)),
            Stores(1, 0x10000, 5),
            Does(Truncate(0, 0x2000)),
            Does(Truncate(0, 0x3001)),
            Stores(1, 0x13000, 9),
            Left(0x3000, 0, 0),
            Left(0x3000, 2, 8),
            Does(Msync(1, 0x11000, 0x1000, Sync)),
            Left(0x3001, 0, 5),
            Left(0x3001, 2, 0),
            Left(0x3001, 3, 9),
            Loads(1, 0x13000, 9),
            Stores(1, 0x12000, 4),
            Does(Msync(1, 0x11000, 0x1000, Sync)),
            Left(0x3001, 2, 0),
            Does(Msync(1, 0x12000, 0x1000, Sync)),
            Left(0x3001, 2, 4),
        ]],
    },
    // A page past the end of the file shows it, too.
    Row {
        name: "makes no length durable without a home",
        sizes: NO_HOMES,
        parts: &[&[
            Makes(Spawn, 1),
            Maps(0x10000, 0x2000, FILE),
            Stores(1, 0x10000, 5),
            Does(Truncate(0, LONGEST)),
            Stores(1, 0x11000, 6),
            Refuses(Msync(1, 0x11000, 0x1000, Sync), ENOSPC),
            Left(4096, 0, 0),
            Loads(1, 0x10000, 5),
            Loads(1, 0x11000, 6),
            Does(Truncate(0, 1)),
            Faults(Load(1, 0x11000, One), 13, BusAdrerr, 0x11000),
            Does(Msync(1, 0x11000, 0x1000, Sync)),
            Left(1, 0, 5),
            Loads(1, 0x10000, 5),
        ]],
    },
    Row {
        name: "refuses a length",
        sizes: NO_HOMES,
        parts: &[&[
            Refuses(Truncate(1, LONGEST + 1), EBADF),
            Refuses(Truncate(0x1_0000, 0), EBADF),
            Refuses(Truncate(0, LONGEST + 1), EFBIG),
            Does(Truncate(0, 4096)),
            Left(4096, 0, 0),
        ]],
    },
    Row {
        name: "refuses lengths of a file that may only be read",
        sizes: Sizes {
            read_only: true,
            ..NO_HOMES
        },
        parts: &[&[Refuses(Truncate(0, LONGEST + 1), EACCES)]],
    },
    Row {
        name: "refuses lengths in a store of layout 2",
        sizes: Sizes {
            length: 4096,
            ..PLAIN
        },
        parts: &[&[
            Refuses(Truncate(1, 0), EBADF),
            Refuses(Truncate(0, LONGEST + 1), EINVAL),
            Refuses(Truncate(0, 4096), EINVAL),
        ]],
    },
    // The page within which the file is to end lies in a slot, and comes back to be cut; an own page goes there.
    Row {
        name: "cuts a page that lies in a slot",
        sizes: Sizes { slots: 4, ..FEW },
        parts: &[&[
            Makes(Spawn, 1),
            Maps(0x10000, 0x2000, FILE),
            Maps(0x20000, 0x4000, Anon),
            Stores(1, 0x10000, 5),
            Stores(1, 0x10001, 6),
            Stores(1, 0x20000, 1),
            Stores(1, 0x21000, 2),
            Stores(1, 0x22000, 3),
            Stores(1, 0x23000, 4),
            FreeSlots(3),
            Does(Truncate(0, 1)),
            FreeSlots(3),
            Loads(1, 0x10000, 5),
            Loads(1, 0x10001, 0),
            Loads(1, 0x20000, 1),
            Does(Msync(1, 0x10000, 0x1000, Sync)),
            Left(1, 0, 5),
        ]],
    },
    // No own page can be given up, so none finds room for the page within which the file ended. A file of no bytes ends within none.
    Row {
        name: "stalls where memory is full of own pages",
        sizes: Sizes { length: 5, ..FEW },
        parts: &[&[
            Makes(Spawn, 1),
            Maps(0x20000, 0x4000, Anon),
            Stores(1, 0x20000, 1),
            Stores(1, 0x21000, 2),
            Stores(1, 0x22000, 3),
            Stores(1, 0x23000, 4),
            Stalls(Truncate(0, 4096), NoSwap),
            Does(Truncate(0, 0)),
            Does(Truncate(0, 4096)),
            Left(5, 0, 0),
        ]],
    },
    // The store is opened by 45 calls, and the next one reads the page within which the file ended.
    Row {
        name: "stalls where the device fails",
        sizes: Sizes {
            length: 5,
            store_fails: 46,
            ..THREE_PAGES
        },
        parts: &[&[
            Makes(Spawn, 1),
            Maps(0x10000, 0x2000, FILE),
            Stalls(Truncate(0, 0x2000), StoreDevice),
            Faults(Load(1, 0x11000, One), 13, BusAdrerr, 0x11000),
            Does(Truncate(0, 0x2000)),
            Loads(1, 0x11000, 0),
        ]],
    },
];
