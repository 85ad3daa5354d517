//! Processes that are made, copied and ended, and the pages that they share.
use crate::bench::Call::{Dontneed, Exit, Fork, Load, Map, Msync, Spawn, Store, Unmap};
use crate::bench::May::ReadWrite;
use crate::bench::Step::{
    Does, Entry, Faults, FreeSlots, Loads, Makes, Maps, Places, Refuses, Runs, Stalls, Stores,
    UsedFrames,
};
use crate::bench::{FILE, PLAIN, Row, Step};
use crate::fixtures::Sizes;
use vm_types::MapSource::{Anon, Common};
use vm_types::MsyncMode::Sync;
use vm_types::Width::One;
use vm_types::{Backing, Code, Errno, ObjectPage, Stall};

/// 8 frames and no slot: with the zero page and the three tables of one process there are four for pages.
const FEW: Sizes = Sizes { frames: 8, ..PLAIN };

/// Process 1 has five pages of zeros and has stored to the first.
const OWNS_ONE: &[Step] = &[
    Makes(Spawn, 1),
    Maps(0x20000, 0x5000, Anon),
    Stores(1, 0x20000, 1),
];

pub(crate) const ROWS: [Row<'static>; 8] = [
    Row {
        name: "forks and exits",
        sizes: Sizes {
            frames: 32,
            length: 4096,
            ..PLAIN
        },
        parts: &[&[
            Makes(Spawn, 1),
            Places(Map(0, 4096, ReadWrite, Anon), 0x10000),
            Places(Map(0, 4096, ReadWrite, FILE), 0x11000),
            Stores(1, 0x10000, 0x11),
            Makes(Fork(1), 2),
            Stores(1, 0x10000, 0x22),
            Stores(2, 0x10000, 0x33),
            Loads(1, 0x10000, 0x22),
            Loads(2, 0x10000, 0x33),
            Stores(2, 0x11000, 0x44),
            Loads(1, 0x11000, 0x44),
            Does(Exit(2)),
            Refuses(Load(2, 0x10000, One), Errno::ESRCH),
            Refuses(Fork(9), Errno::ESRCH),
        ]],
    },
    // Frame 0 is the zero page, so 8 frames are enough for the root tables of seven processes, none of which is given up.
    Row {
        name: "spawns until memory is full of roots",
        sizes: FEW,
        parts: &[&[
            Makes(Spawn, 1),
            Makes(Spawn, 2),
            Makes(Spawn, 3),
            Makes(Spawn, 4),
            Makes(Spawn, 5),
            Makes(Spawn, 6),
            Makes(Spawn, 7),
            Stalls(Spawn, Stall::NoFrames),
            Stalls(Fork(1), Stall::NoFrames),
            Does(Exit(7)),
            UsedFrames(7),
            Makes(Spawn, 7),
            Does(Exit(3)),
            Makes(Fork(1), 3),
            Stalls(Fork(1), Stall::NoFrames),
        ]],
    },
    // Of 8 frames one is the zero page, three are the parent's tables, one is its page, and three are the child's tables. Both
    // entries name the page's frame, as one that stores don't get through to, and a page without a copy has no entry.
    Row {
        name: "shares a page in a frame",
        sizes: FEW,
        parts: &[
            OWNS_ONE,
            &[
                Makes(Fork(1), 2),
                UsedFrames(8),
                Entry(1, 0x20000, 0x1d3, Some(2)),
                Entry(2, 0x20000, 0x1d3, Some(2)),
                Entry(2, 0x21000, 0, None),
                Stalls(Store(2, 0x20000, One, 2), Stall::NoFrames),
                Does(Exit(1)),
                UsedFrames(5),
                Stores(2, 0x20000, 2),
                Entry(2, 0x20000, 0x1d7, Some(1)),
                UsedFrames(5),
                Does(Exit(2)),
                UsedFrames(1),
            ],
        ],
    },
    // The same with one page more, for which memory has no room beside the child's tables: the first page goes to slot 0, and the
    // child has its share there. It is the only one to have one when its parent ends.
    Row {
        name: "shares a page in a slot",
        sizes: Sizes { slots: 1, ..FEW },
        parts: &[
            OWNS_ONE,
            &[
                Stores(1, 0x21000, 2),
                Makes(Fork(1), 2),
                Entry(1, 0x20000, 2, Some(2)),
                Entry(2, 0x20000, 2, Some(2)),
                Does(Exit(1)),
                Entry(2, 0x20000, 2, Some(1)),
                Loads(2, 0x20000, 1),
                FreeSlots(1),
            ],
        ],
    },
    // Without a slot that page can't go. There is no child then, and its tables are given back.
    Row {
        name: "leaves no process after a stalled fork",
        sizes: FEW,
        parts: &[
            OWNS_ONE,
            &[
                Stores(1, 0x21000, 2),
                Stalls(Fork(1), Stall::NoSwap),
                UsedFrames(6),
                Refuses(Exit(2), Errno::ESRCH),
                Makes(Spawn, 2),
            ],
        ],
    },
    // Each of the two mappings is a run, of an object of its own. Neither call takes their bytes away, nor does the end of the process
    // that mapped them. Their entries have bit 8 clear.
    Row {
        name: "shares memory of no file",
        sizes: PLAIN,
        parts: &[&[
            Makes(Spawn, 1),
            Maps(0x10000, 0x1000, Common),
            Maps(0x11000, 0x2000, Common),
            Runs(
                2,
                0x10000,
                Backing::Common(ObjectPage { object: 0, page: 0 }),
            ),
            Runs(
                2,
                0x12000,
                Backing::Common(ObjectPage { object: 1, page: 1 }),
            ),
            Makes(Fork(1), 2),
            Stores(2, 0x10000, 5),
            Loads(1, 0x10000, 5),
            Stores(1, 0x12000, 6),
            Loads(2, 0x12000, 6),
            Entry(1, 0x12000, 0xd7, Some(1)),
            Does(Dontneed(0x10000, 0x3000)),
            Loads(1, 0x10000, 5),
            Does(Msync(1, 0x10000, 0x3000, Sync)),
            Loads(2, 0x12000, 6),
            Does(Exit(1)),
            Loads(2, 0x10000, 5),
            Loads(2, 0x12000, 6),
            Does(Exit(2)),
            UsedFrames(1),
            Makes(Spawn, 1),
            Maps(0x10000, 0x1000, Common),
            Maps(0x11000, 0x2000, Common),
            Runs(
                2,
                0x10000,
                Backing::Common(ObjectPage { object: 0, page: 0 }),
            ),
            Runs(
                2,
                0x12000,
                Backing::Common(ObjectPage { object: 1, page: 1 }),
            ),
            Loads(1, 0x10000, 0),
            Loads(1, 0x12000, 0),
        ]],
    },
    // An object whose first page is unmapped keeps the bytes of the second, and gives its number to none.
    Row {
        name: "keeps what a page still names",
        sizes: PLAIN,
        parts: &[&[
            Makes(Spawn, 1),
            Maps(0x10000, 0x2000, Common),
            Stores(1, 0x10000, 5),
            Stores(1, 0x11000, 6),
            Does(Unmap(0x10000, 0x1000)),
            Faults(Load(1, 0x10000, One), 13, Code::SegvMaperr, 0x10000),
            Loads(1, 0x11000, 6),
            Maps(0x10000, 0x1000, Common),
            Runs(
                2,
                0x10000,
                Backing::Common(ObjectPage { object: 1, page: 0 }),
            ),
            Loads(1, 0x10000, 0),
            Does(Unmap(0x10000, 0x2000)),
            Maps(0x10000, 0x2000, Common),
            Runs(
                1,
                0x10000,
                Backing::Common(ObjectPage { object: 0, page: 0 }),
            ),
            Loads(1, 0x10000, 0),
            Loads(1, 0x11000, 0),
        ]],
    },
    // A page of an object needs a slot to make room, and comes back from it to whoever names it.
    Row {
        name: "sends memory of no file to slots",
        sizes: Sizes { slots: 1, ..FEW },
        parts: &[&[
            Makes(Spawn, 1),
            Maps(0x10000, 0x6000, Common),
            Stores(1, 0x10000, 1),
            Stores(1, 0x11000, 2),
            Stores(1, 0x12000, 3),
            Stores(1, 0x13000, 4),
            Stores(1, 0x14000, 5),
            FreeSlots(0),
            Stalls(Store(1, 0x15000, One, 6), Stall::NoSwap),
            Does(Unmap(0x14000, 0x1000)),
            Loads(1, 0x10000, 1),
            Loads(1, 0x13000, 4),
            FreeSlots(1),
            Makes(Fork(1), 2),
            Does(Exit(1)),
            Does(Exit(2)),
            UsedFrames(1),
            FreeSlots(1),
        ]],
    },
];
