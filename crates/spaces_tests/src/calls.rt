//! The calls of one process on its pages. The answers are the manual pages' and our own choices, worked out by hand.
use crate::bench::Call::{
    Dontneed, Exit, Fetch, Fork, Load, Map, Msync, Protect, Spawn, Store, Unmap,
};
use crate::bench::May::{Read, ReadWrite, Run, Write};
use crate::bench::Step::{
    Does, Entry, Faults, Fetches, Loads, Makes, Maps, Places, Reads, Refuses, Runs, Stored, Stores,
    UsedFrames,
};
use crate::bench::{FILE, PLAIN, Row};
use crate::fixtures::Sizes;
use vm_types::MapSource::{Anon, Private, Shared};
use vm_types::MsyncMode::Sync;
use vm_types::Width::{Eight, Four, One, Two};
use vm_types::{Backing, Code, Errno};

/// 16 frames over a file of one page.
const ONE_PAGE: Sizes = Sizes {
    length: 4096,
    ..PLAIN
};

pub(crate) const ROWS: [Row<'static>; 8] = [
    Row {
        name: "loads what was stored",
        sizes: PLAIN,
        parts: &[&[
            Makes(Spawn, 1),
            Places(Map(0, 1, ReadWrite, Anon), 0x10000),
            Reads(0x10ff8, Eight, 0),
            Does(Store(1, 0x10000, Eight, 0x1122_3344_5566_7788)),
            Reads(0x10000, One, 0x88),
            Reads(0x10002, Two, 0x5566),
            Reads(0x10004, Four, 0x1122_3344),
        ]],
    },
    Row {
        name: "judges an access in order",
        sizes: PLAIN,
        parts: &[&[
            Makes(Spawn, 1),
            Faults(Load(1, 0, One), 13, Code::SegvMaperr, 0),
            Faults(
                Load(1, 0x40_0000_0000, Eight),
                13,
                Code::SegvMaperr,
                0x40_0000_0000,
            ),
            Faults(
                Load(1, 0xffff_ffc0_0000_0000, Eight),
                13,
                Code::SegvMaperr,
                0xffff_ffc0_0000_0000,
            ),
            Faults(Fetch(0x20002), 0, Code::BusAdraln, 0x20002),
            Places(Map(0, 4096, Write, Anon), 0x10000),
            Loads(1, 0x10000, 0),
            Places(Map(0, 4096, Run, Anon), 0x11000),
            Fetches(0x11000, 0),
            Faults(Load(1, 0x11000, Four), 13, Code::SegvAccerr, 0x11000),
            Faults(Fetch(0x10000), 12, Code::SegvAccerr, 0x10000),
        ]],
    },
    Row {
        name: "maps, protects and unmaps",
        sizes: PLAIN,
        parts: &[&[
            Makes(Spawn, 1),
            Maps(0x20000, 0x1000, Anon),
            Maps(0x22000, 0x1000, Anon),
            Refuses(Protect(0x20000, 0x3000, Read), Errno::ENOMEM),
            Stores(1, 0x20000, 1),
            Refuses(Protect(0x20001, 0x1000, Read), Errno::EINVAL),
            Does(Protect(0x20000, 0, Read)),
            Stores(1, 0x20000, 2),
            Does(Protect(0x20000, 1, Read)),
            Faults(Store(1, 0x20000, One, 2), 15, Code::SegvAccerr, 0x20000),
            Does(Unmap(0x20000, 0x1000)),
            Faults(Load(1, 0x20000, One), 13, Code::SegvMaperr, 0x20000),
        ]],
    },
    Row {
        name: "gives up own copies",
        sizes: ONE_PAGE,
        parts: &[&[
            Makes(Spawn, 1),
            Maps(0x20000, 0x2000, Anon),
            Maps(0x22000, 0x1000, FILE),
            Stores(1, 0x20000, 0x11),
            Stores(1, 0x21000, 0x22),
            Stores(1, 0x22000, 0x33),
            Refuses(Dontneed(0x20001, 1), Errno::EINVAL),
            Does(Dontneed(0x20000, 0)),
            Refuses(Dontneed(0x20000, 0x4000), Errno::ENOMEM),
            Loads(1, 0x20000, 0x11),
            Does(Dontneed(0x21000, 0x2000)),
            Loads(1, 0x20000, 0x11),
            Loads(1, 0x21000, 0),
            Loads(1, 0x22000, 0x33),
        ]],
    },
    Row {
        name: "refuses what a read-only file does not allow",
        sizes: Sizes {
            read_only: true,
            ..ONE_PAGE
        },
        parts: &[&[
            Makes(Spawn, 1),
            Refuses(Map(0, 0, Read, Anon), Errno::EINVAL),
            Refuses(Map(0, 4096, ReadWrite, FILE), Errno::EACCES),
            Refuses(
                Map(0, 4096, ReadWrite, Shared { file: 9, offset: 0 }),
                Errno::EBADF,
            ),
            Refuses(
                Map(0, 4096, Read, Private { file: 0, offset: 1 }),
                Errno::EINVAL,
            ),
            Refuses(
                Map(
                    0,
                    4096,
                    Read,
                    Shared {
                        file: 0,
                        offset: 0x1000_0000_0000,
                    },
                ),
                Errno::EOVERFLOW,
            ),
            Places(Map(0, 4096, Read, FILE), 0x10000),
            Refuses(Protect(0x10000, 4096, ReadWrite), Errno::EACCES),
            Does(Unmap(0x50000, 4096)),
            Refuses(Fork(9), Errno::ESRCH),
        ]],
    },
    // Bit 0 of an entry says that it names a frame, bits 1 to 3 that the page may be read, written and run, bits 4, 6 and 7 that
    // it is a user page that was accessed and stored to, bit 8 that the frame is its process's own. The zero page, the root table,
    // two more tables and the page are used, and the tables are given back once no page needs them.
    Row {
        name: "a page keeps its frame until its row is cleared",
        sizes: PLAIN,
        parts: &[&[
            Makes(Spawn, 1),
            Maps(0x20000, 0x5000, Anon),
            UsedFrames(2),
            Stores(1, 0x20000, 9),
            UsedFrames(5),
            Entry(1, 0x20000, 0x1d7, Some(1)),
            Does(Protect(0x20000, 0x2000, Read)),
            Runs(2, 0x20000, Backing::Anon),
            Entry(1, 0x20000, 0x1d3, Some(1)),
            Does(Protect(0x20000, 0x2000, Run)),
            Entry(1, 0x20000, 0x1d9, Some(1)),
            Does(Protect(0x20000, 0x2000, ReadWrite)),
            Runs(1, 0x20000, Backing::Anon),
            Entry(1, 0x20000, 0x1d7, Some(1)),
            Loads(1, 0x20000, 9),
            Does(Dontneed(0x20000, 0x5000)),
            Entry(1, 0x20000, 0, None),
            UsedFrames(2),
            Does(Unmap(0x21000, 0x3000)),
            Runs(2, 0x24000, Backing::Anon),
            Does(Unmap(0, 0x40_0000_0000)),
            Faults(Load(1, 0x24000, One), 13, Code::SegvMaperr, 0x24000),
        ]],
    },
    // A page that a table of another part of the range stands for, in more mappings than one.
    Row {
        name: "clears rows over several tables",
        sizes: PLAIN,
        parts: &[&[
            Makes(Spawn, 1),
            Maps(0x1f_f000, 0x2000, Anon),
            Maps(0x4000_0000, 0x1000, Anon),
            Stores(1, 0x1f_f000, 1),
            Stores(1, 0x20_0000, 2),
            Stores(1, 0x4000_0000, 3),
            UsedFrames(10),
            Does(Unmap(0x10000, 0x20_0000)),
            Loads(1, 0x4000_0000, 3),
            UsedFrames(5),
            Does(Exit(1)),
            UsedFrames(1),
        ]],
    },
    // Byte 4,999 is byte 391 of the second sector of page 1, which stands in the journal's body, from sector 11 on.
    Row {
        name: "shares a file and syncs it",
        sizes: Sizes {
            length: 5000,
            ..PLAIN
        },
        parts: &[&[
            Makes(Spawn, 1),
            Places(Map(0, 12288, ReadWrite, FILE), 0x10000),
            Stores(1, 0x11387, 0xaa),
            Loads(1, 0x11388, 0),
            Stores(1, 0x11388, 0xbb),
            Loads(1, 0x11388, 0xbb),
            Faults(Load(1, 0x12000, One), 13, Code::BusAdrerr, 0x12000),
            Does(Msync(1, 0x10000, 12288, Sync)),
            Stored(12, 391, 0xaa),
            Stored(12, 392, 0),
            Loads(1, 0x11388, 0),
            Loads(1, 0x11387, 0xaa),
        ]],
    },
];

/// The zero page, a root, three tables below it and a page; the last page of the user half has three tables of its own.
pub(crate) const FOUR_LEVELS: Row<'static> = Row {
    name: "has four levels of tables",
    sizes: PLAIN,
    parts: &[&[
        Makes(Spawn, 1),
        Maps(0x10000, 4096, Anon),
        Stores(1, 0x10000, 1),
        UsedFrames(6),
        Maps(0x7fff_ffff_f000, 4096, Anon),
        Stores(1, 0x7fff_ffff_ffff, 2),
        UsedFrames(10),
        Loads(1, 0x7fff_ffff_ffff, 2),
        Does(Unmap(0x7fff_ffff_f000, 4096)),
        UsedFrames(6),
        Faults(
            Load(1, 0x7fff_ffff_ffff, One),
            13,
            Code::SegvMaperr,
            0x7fff_ffff_ffff,
        ),
        Does(Exit(1)),
        UsedFrames(1),
    ]],
};
