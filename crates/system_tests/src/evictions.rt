//! Traces that need more pages than memory has frames, and their replies: frames are given up, and their pages come back from swap.
use crate::bench::{CONFIG, SMALL};
use machine::Config;
use vm_types::Mode;

/// Two objects of shared anonymous memory, of which the first outlives the process that mapped it, and a third one begins with zeros.
const COMMON: (&[u8], &[u8]) = (
    b"spawn\nmmap 1 0 0x2000 rw- common\nmmap 1 0 0x1000 rw- common\nfork 1\nstore 2 0x10000 1 5\nload 1 0x10000 1\n\
load 1 0x12000 1\ndontneed 1 0x10000 0x2000\nmsync 1 0x10000 0x3000 sync\nexit 1\nload 2 0x10000 1\nexit 2\nspawn\n\
mmap 1 0 0x2000 rw- common\nload 1 0x10000 1\n",
    b"pid 1\naddr 0x10000\naddr 0x12000\npid 2\nok\nvalue 0x05\nvalue 0x00\nok\nok\nok\nvalue 0x05\nok\npid 1\n\
addr 0x10000\nvalue 0x00\n",
);

/// How many frames and slots there are, a trace, and its replies, over a file of eight pages.
pub(crate) const ROWS: [(Config, (&[u8], &[u8])); 12] = [
    // Without a slot no page of a process's own can be given up: the fifth store stalls.
    (
        Config {
            frames: 8,
            slots: 0,
            mode: Mode::Sv39,
        },
        (
            b"spawn\nmmap 1 0 0x10000 rw- anon\nstore 1 0x10000 1 0x1\nstore 1 0x11000 1 0x2\n\
store 1 0x12000 1 0x3\nstore 1 0x13000 1 0x4\nstore 1 0x14000 1 0x5\nload 1 0x10000 1\nload 1 0x14000 1\n",
            b"pid 1\naddr 0x10000\nok\nok\nok\nok\nstall 2 NOSWAP\nvalue 0x01\nvalue 0x00\n",
        ),
    ),
    // Two processes share pages of their own that went to swap, until one stores to them.
    (
        Config {
            frames: 10,
            slots: 16,
            mode: Mode::Sv39,
        },
        (
            b"spawn\nmmap 1 0 0x6000 rw- anon\nstore 1 0x10000 1 0x11\nfork 1\nstore 1 0x11000 1 0x21\n\
store 1 0x12000 1 0x21\nstore 1 0x13000 1 0x21\nstore 1 0x14000 1 0x21\nstore 1 0x15000 1 0x21\n\
store 2 0x10001 1 0x22\nload 1 0x10000 2\nload 2 0x10000 2\n",
            b"pid 1\naddr 0x10000\nok\npid 2\nok\nok\nok\nok\nok\nok\nvalue 0x0011\nvalue 0x2211\n",
        ),
    ),
    // The zero page, six tables and two pages: a fork and a store of the child, and there are two slots for two pages.
    (
        Config {
            frames: 9,
            slots: 2,
            mode: Mode::Sv39,
        },
        (
            b"spawn\nmmap 1 0 4096 rw- anon\nstore 1 0x10000 1 1\nfork 1\nstore 2 0x10000 1 2\n\
load 1 0x10000 1\nload 2 0x10000 1\n",
            b"pid 1\naddr 0x10000\nok\npid 2\nok\nvalue 0x01\nvalue 0x02\n",
        ),
    ),
    // Four frames and three slots have room for seven touched pages.
    (
        Config {
            frames: 8,
            slots: 3,
            mode: Mode::Sv39,
        },
        (
            b"spawn\nmmap 1 0 0x8000 rw- shared 0 0\nstore 1 0x10000 1 1\nstore 1 0x11000 1 2\n\
store 1 0x12000 1 3\nstore 1 0x13000 1 4\nstore 1 0x14000 1 5\nstore 1 0x15000 1 6\n\
store 1 0x16000 1 7\nstore 1 0x17000 1 8\nmsync 1 0x10000 0x8000 sync\nstore 1 0x17000 1 8\n",
            b"pid 1\naddr 0x10000\nok\nok\nok\nok\nok\nok\nok\nstall 2 NOSWAP\nok\nok\n",
        ),
    ),
    // A page of the file that two processes show at three pages goes to swap, and comes back to all.
    (
        Config {
            frames: 11,
            slots: 4,
            mode: Mode::Sv39,
        },
        (
            b"spawn\nspawn\nmmap 1 0 4096 rw- shared 0 0\nmmap 1 0 4096 r-- private 0 0\nmmap 2 0x20000 4096 rw- shared 0 0\n\
store 2 0x20000 1 9\nload 1 0x10000 1\nload 1 0x11000 1\nmmap 1 0x40000 0x5000 rw- anon\nstore 1 0x40000 1 1\n\
store 1 0x41000 1 2\nstore 1 0x42000 1 3\nstore 1 0x43000 1 4\nstore 1 0x44000 1 5\nload 2 0x20000 1\n\
load 1 0x11000 1\nload 1 0x10000 1\n",
            b"pid 1\npid 2\naddr 0x10000\naddr 0x11000\naddr 0x20000\nok\nvalue 0x09\nvalue 0x09\naddr 0x40000\n\
ok\nok\nok\nok\nok\nvalue 0x09\nvalue 0x09\nvalue 0x09\n",
        ),
    ),
    // Shared anonymous memory: a mapping is an object of its own, which a child shares, an exit outlives, and its last name ends.
    (CONFIG, COMMON),
    // The same where its pages have to be given up.
    (
        Config {
            frames: 9,
            slots: 4,
            mode: Mode::Sv39,
        },
        COMMON,
    ),
    // Each process takes a frame for its root table, and gives it back.
    (
        SMALL,
        (
            b"spawn\nspawn\nspawn\nspawn\nspawn\nspawn\nspawn\nspawn\nexit 7\nspawn\nfork 1\n",
            b"pid 1\npid 2\npid 3\npid 4\npid 5\npid 6\npid 7\nstall 1 NOFRAMES\nok\npid 7\nstall 1 NOFRAMES\n",
        ),
    ),
    // A fork for which there are too few frames leaves no table behind. The zero page, three tables and a page of process 1, and the
    // root of process 2 leave two frames; a copy needs three, and the page can't be given up without a slot. The child's copy of it
    // needs a frame beside it, when all others are tables.
    (
        Config {
            frames: 8,
            slots: 0,
            mode: Mode::Sv39,
        },
        (
            b"spawn\nmmap 1 0 4096 rw- anon\nstore 1 0x10000 1 1\nspawn\nfork 1\nfork 1\nload 1 0x10000 1\nexit 2\n\
fork 1\nload 2 0x10000 1\nstore 2 0x10000 1 2\nexit 1\nstore 2 0x10000 1 3\nload 2 0x10000 1\n",
            b"pid 1\naddr 0x10000\nok\npid 2\nstall 2 NOSWAP\nstall 2 NOSWAP\nvalue 0x01\nok\npid 2\nvalue 0x01\n\
stall 1 NOFRAMES\nok\nok\nvalue 0x03\n",
        ),
    ),
    // In Sv48 a process has a table more: three frames are left for pages, and the fourth store stalls without a slot.
    (
        Config {
            frames: 8,
            slots: 0,
            mode: Mode::Sv48,
        },
        (
            b"spawn\nmmap 1 0 0x10000 rw- anon\nstore 1 0x10000 1 0x1\nstore 1 0x11000 1 0x2\n\
store 1 0x12000 1 0x3\nstore 1 0x13000 1 0x4\nload 1 0x10000 1\nload 1 0x13000 1\n",
            b"pid 1\naddr 0x10000\nok\nok\nok\nstall 2 NOSWAP\nvalue 0x01\nvalue 0x00\n",
        ),
    ),
    // With slots the forty lines have the same replies in Sv48.
    (
        Config {
            frames: 8,
            slots: 16,
            mode: Mode::Sv48,
        },
        FORTY_LINES,
    ),
    // The zero page and three tables serve all five loads: four frames are left, of which a spawn takes one.
    (
        SMALL,
        (
            b"spawn\nmmap 1 0 0x3fffff0000 r-- anon\nload 1 0x10000 1\nload 1 0x11000 1\nload 1 0x12000 1\n\
load 1 0x13000 1\nload 1 0x14000 1\nspawn\n",
            b"pid 1\naddr 0x10000\nvalue 0x00\nvalue 0x00\nvalue 0x00\nvalue 0x00\nvalue 0x00\npid 2\n",
        ),
    ),
];

/// Forty lines over sixteen pages of anonymous memory.
const SIXTEEN_PAGES: &[u8] =
    b"spawn\nmmap 1 0 0x10000 rw- anon\nstore 1 0x10000 1 0x1\nstore 1 0x11000 1 0x2\n\
store 1 0x12000 1 0x3\nstore 1 0x13000 1 0x4\nstore 1 0x14000 1 0x5\nstore 1 0x15000 1 0x6\n\
store 1 0x16000 1 0x7\nstore 1 0x17000 1 0x8\nstore 1 0x18000 1 0x9\nstore 1 0x19000 1 0xa\n\
store 1 0x1a000 1 0xb\nstore 1 0x1b000 1 0xc\nstore 1 0x1c000 1 0xd\nstore 1 0x1d000 1 0xe\n\
store 1 0x1e000 1 0xf\nstore 1 0x1f000 1 0x10\nload 1 0x10000 1\nload 1 0x11000 1\n\
load 1 0x12000 1\nload 1 0x13000 1\nload 1 0x14000 1\nload 1 0x15000 1\nload 1 0x16000 1\n\
load 1 0x17000 1\nload 1 0x18000 1\nload 1 0x19000 1\nload 1 0x1a000 1\nload 1 0x1b000 1\n\
load 1 0x1c000 1\nload 1 0x1d000 1\nload 1 0x1e000 1\nload 1 0x1f000 1\ndontneed 1 0x10000 0x1000\n\
load 1 0x10000 1\nstore 1 0x1f000 1 0xff\nload 1 0x1f000 1\nexit 1\nload 1 0x10000 1\n";

/// The same, and their replies.
pub(crate) const FORTY_LINES: (&[u8], &[u8]) = (
    SIXTEEN_PAGES,
    b"pid 1\naddr 0x10000\nok\nok\nok\nok\nok\nok\nok\nok\nok\nok\nok\nok\nok\nok\nok\nok\nvalue 0x01\n\
value 0x02\nvalue 0x03\nvalue 0x04\nvalue 0x05\nvalue 0x06\nvalue 0x07\nvalue 0x08\nvalue 0x09\n\
value 0x0a\nvalue 0x0b\nvalue 0x0c\nvalue 0x0d\nvalue 0x0e\nvalue 0x0f\nvalue 0x10\nok\nvalue 0x00\n\
ok\nvalue 0xff\nok\nerror 3 ESRCH\n",
);

/// The first write of the swap device fails: the store that it was for stalls, and its page shows zeros later on. No other reply is
/// another.
pub(crate) const ONE_WRITE_LOST: (&[u8], &[u8]) = (
    SIXTEEN_PAGES,
    b"pid 1\naddr 0x10000\nok\nok\nok\nok\nstall 3 SWAPDEV\nok\nok\nok\nok\nok\nok\nok\nok\nok\nok\nok\n\
value 0x01\nvalue 0x02\nvalue 0x03\nvalue 0x04\nvalue 0x00\nvalue 0x06\nvalue 0x07\nvalue 0x08\n\
value 0x09\nvalue 0x0a\nvalue 0x0b\nvalue 0x0c\nvalue 0x0d\nvalue 0x0e\nvalue 0x0f\nvalue 0x10\nok\n\
value 0x00\nok\nvalue 0xff\nok\nerror 3 ESRCH\n",
);

/// A byte is stored in each of the eight pages of a file, and loaded: k + 1 in page k.
pub(crate) const EIGHT_PAGES: (&[u8], &[u8]) = (
    b"spawn\nmmap 1 0 0x8000 rw- shared 0 0\nstore 1 0x10000 1 1\nstore 1 0x11000 1 2\n\
store 1 0x12000 1 3\nstore 1 0x13000 1 4\nstore 1 0x14000 1 5\nstore 1 0x15000 1 6\n\
store 1 0x16000 1 7\nstore 1 0x17000 1 8\nload 1 0x10000 1\nload 1 0x11000 1\nload 1 0x12000 1\n\
load 1 0x13000 1\nload 1 0x14000 1\nload 1 0x15000 1\nload 1 0x16000 1\nload 1 0x17000 1\n",
    b"pid 1\naddr 0x10000\nok\nok\nok\nok\nok\nok\nok\nok\nvalue 0x01\nvalue 0x02\nvalue 0x03\n\
value 0x04\nvalue 0x05\nvalue 0x06\nvalue 0x07\nvalue 0x08\n",
);

/// The same, and then all are synced, those in frames and those in slots.
pub(crate) const EIGHT_PAGES_SYNCED: (&[u8], &[u8]) = (
    b"spawn\nmmap 1 0 0x8000 rw- shared 0 0\nstore 1 0x10000 1 1\nstore 1 0x11000 1 2\n\
store 1 0x12000 1 3\nstore 1 0x13000 1 4\nstore 1 0x14000 1 5\nstore 1 0x15000 1 6\n\
store 1 0x16000 1 7\nstore 1 0x17000 1 8\nload 1 0x10000 1\nload 1 0x11000 1\nload 1 0x12000 1\n\
load 1 0x13000 1\nload 1 0x14000 1\nload 1 0x15000 1\nload 1 0x16000 1\nload 1 0x17000 1\n\
msync 1 0x10000 0x8000 sync\nload 1 0x17000 1\n",
    b"pid 1\naddr 0x10000\nok\nok\nok\nok\nok\nok\nok\nok\nvalue 0x01\nvalue 0x02\nvalue 0x03\n\
value 0x04\nvalue 0x05\nvalue 0x06\nvalue 0x07\nvalue 0x08\nok\nvalue 0x08\n",
);

/// What was stored, in a new process.
pub(crate) const EIGHT_PAGES_SHOWN: (&[u8], &[u8]) = (
    b"spawn\nmmap 1 0 0x8000 r-- shared 0 0\nload 1 0x10000 1\nload 1 0x11000 1\nload 1 0x12000 1\n\
load 1 0x13000 1\nload 1 0x14000 1\nload 1 0x15000 1\nload 1 0x16000 1\nload 1 0x17000 1\n",
    b"pid 1\naddr 0x10000\nvalue 0x01\nvalue 0x02\nvalue 0x03\nvalue 0x04\nvalue 0x05\nvalue 0x06\n\
value 0x07\nvalue 0x08\n",
);

/// An msync of the eight pages that can't read a slot is asked again: the machine goes on, and makes all of them durable.
pub(crate) const EIGHT_PAGES_SYNCED_AGAIN: (&[u8], &[u8]) = (
    b"spawn\nmmap 1 0 0x8000 rw- shared 0 0\nstore 1 0x10000 1 1\nstore 1 0x11000 1 2\n\
store 1 0x12000 1 3\nstore 1 0x13000 1 4\nstore 1 0x14000 1 5\nstore 1 0x15000 1 6\n\
store 1 0x16000 1 7\nstore 1 0x17000 1 8\nmsync 1 0x10000 0x8000 sync\nmsync 1 0x10000 0x8000 sync\n\
load 1 0x10000 1\nload 1 0x11000 1\nload 1 0x12000 1\nload 1 0x13000 1\nload 1 0x14000 1\n\
load 1 0x15000 1\nload 1 0x16000 1\nload 1 0x17000 1\n",
    b"pid 1\naddr 0x10000\nok\nok\nok\nok\nok\nok\nok\nok\nstall 3 SWAPDEV\nok\nvalue 0x01\nvalue 0x02\n\
value 0x03\nvalue 0x04\nvalue 0x05\nvalue 0x06\nvalue 0x07\nvalue 0x08\n",
);

/// Five pages in four frames, of which two are given back: the one that went to a slot is read again.
pub(crate) const BACK_TO_A_FREE_FRAME: (&[u8], &[u8]) = (
    b"spawn\nmmap 1 0 0x5000 rw- anon\nstore 1 0x10000 1 1\nstore 1 0x11000 1 2\nstore 1 0x12000 1 3\n\
store 1 0x13000 1 4\nstore 1 0x14000 1 5\nmunmap 1 0x13000 0x2000\nload 1 0x10000 1\n",
    b"pid 1\naddr 0x10000\nok\nok\nok\nok\nok\nok\nvalue 0x01\n",
);

/// An msync of one page, loads of nine others, and one of that page again.
pub(crate) const LOOKED_AFTER_AN_MSYNC: (&[u8], &[u8]) = (
    b"spawn\nmmap 1 0 0xa000 rw- shared 0 0\nstore 1 0x10000 1 7\nmsync 1 0x10000 0x1000 sync\n\
load 1 0x11000 1\nload 1 0x12000 1\nload 1 0x13000 1\nload 1 0x14000 1\nload 1 0x15000 1\n\
load 1 0x16000 1\nload 1 0x17000 1\nload 1 0x18000 1\nload 1 0x19000 1\nload 1 0x10000 1\n",
    b"pid 1\naddr 0x10000\nok\nok\nvalue 0x00\nvalue 0x00\nvalue 0x00\nvalue 0x00\nvalue 0x00\n\
value 0x00\nvalue 0x00\nvalue 0x00\nvalue 0x00\nvalue 0x07\n",
);

/// The same, and an msync of that page once more.
pub(crate) const LOOKED_AFTER_TWO_MSYNCS: (&[u8], &[u8]) = (
    b"spawn\nmmap 1 0 0xa000 rw- shared 0 0\nstore 1 0x10000 1 7\nmsync 1 0x10000 0x1000 sync\n\
load 1 0x11000 1\nload 1 0x12000 1\nload 1 0x13000 1\nload 1 0x14000 1\nload 1 0x15000 1\n\
load 1 0x16000 1\nload 1 0x17000 1\nload 1 0x18000 1\nload 1 0x19000 1\nload 1 0x10000 1\n\
store 1 0x10000 1 8\nmsync 1 0x10000 0x1000 sync\n",
    b"pid 1\naddr 0x10000\nok\nok\nvalue 0x00\nvalue 0x00\nvalue 0x00\nvalue 0x00\nvalue 0x00\n\
value 0x00\nvalue 0x00\nvalue 0x00\nvalue 0x00\nvalue 0x07\nok\nok\n",
);
