//! The traces that are stopped and fail.
use crate::bench::Case;
use machine::Config;
use std::process::Abort;
use stores::NewStore;
use vm_types::Mode;

/// Stores of a journal, and of a pool with maps of three blocks.
const JOURNAL: NewStore = NewStore::Journal;

const POOL: NewStore = NewStore::Pool(3);

const CONFIG: Config = Config {
    frames: 64,
    slots: 16,
    mode: Mode::Sv39,
};

/// The fewest frames: four of them for pages, where a process's pages lie together.
const SMALL: Config = Config {
    frames: 8,
    slots: 16,
    mode: Mode::Sv39,
};

/// A file whose last page is a part of one: what is stored past its end is gone with the msync. A journal's file keeps its length.
pub(crate) const PARTIAL_PAGE: Case<'static> = Case {
    config: CONFIG,
    lengths: &[5000],
    spare: 0,
    store: JOURNAL,
    gates: &[17],
    trace: b"spawn\nmmap 1 0 12288 rw- shared 0 0\nstore 1 0x11387 1 0xaa\nload 1 0x11388 1\n\
store 1 0x11388 1 0xbb\nload 1 0x11388 1\nload 1 0x12000 1\nmsync 1 0x10000 12288 sync\nload 1 0x11388 1\n\
load 1 0x11387 1\ntruncate 0 4096\n",
    replies: b"pid 1\naddr 0x10000\nok\nvalue 0x00\nok\nvalue 0xbb\nfault 13 BUS_ADRERR 0x12000\nok\nvalue 0x00\n\
value 0xaa\nerror 22 EINVAL\n",
};

/// A byte of a page is made durable, and then a second one.
pub(crate) const ONE_PAGE: Case<'static> = Case {
    config: CONFIG,
    lengths: &[4096],
    spare: 0,
    store: JOURNAL,
    gates: &[17, 43],
    trace: b"spawn\nmmap 1 0 4096 rw- shared 0 0\nstore 1 0x10000 1 0x5a\nmsync 1 0x10000 4096 sync\n\
load 1 0x10000 1\nstore 1 0x10001 1 0x6b\nmsync 1 0x10000 4096 sync\n",
    replies: b"pid 1\naddr 0x10000\nok\nok\nvalue 0x5a\nok\nok\n",
};

/// In a pool an msync of a page writes it, the block of the map that counts, and the gate, and no page home.
pub(crate) const ONE_PAGE_IN_A_POOL: Case<'static> = Case {
    store: POOL,
    gates: &[17, 34],
    ..ONE_PAGE
};

/// Makes a byte of each of two pages durable, one after the other, and then another one of the first: the second msync and the third leave the page of the
/// one before in its slot.
pub(crate) const TWO_PAGES_IN_A_POOL: Case<'static> = Case {
    config: CONFIG,
    lengths: &[8192],
    spare: 0,
    store: POOL,
    gates: &[17, 34, 51],
    trace: b"spawn\nmmap 1 0 0x2000 rw- shared 0 0\nstore 1 0x10000 1 1\nmsync 1 0x10000 0x2000 sync\n\
store 1 0x11000 1 2\nmsync 1 0x10000 0x2000 sync\nstore 1 0x10001 1 3\nmsync 1 0x10000 0x2000 sync\n",
    replies: b"pid 1\naddr 0x10000\nok\nok\nok\nok\nok\nok\n",
};

/// A file is cut within a page and grows, and an msync makes the length durable with two pages, and zeros behind them. Then it is cut to the length that it had,
/// which an msync of a page past its end makes durable. The first one writes two new pages of zeros, those two pages and one of the directory, and a block of the
/// map, and the second one a page of the directory and a block of the map.
pub(crate) const OTHER_LENGTHS: Case<'static> = Case {
    config: CONFIG,
    lengths: &[5000],
    spare: 2,
    store: POOL,
    gates: &[49, 66],
    trace: b"spawn\nmmap 1 0 0x4000 rw- shared 0 0\nstore 1 0x11387 1 0xaa\ntruncate 0 4999\ntruncate 0 12289\n\
load 1 0x11387 1\nstore 1 0x12000 1 0xbb\nmsync 1 0x10000 0x1000 sync\nload 1 0x13000 1\ntruncate 0 5000\n\
load 1 0x12000 1\nmsync 1 0x12000 0x1000 sync\ntruncate 0 4398046511105\ntruncate 1 0\n",
    replies: b"pid 1\naddr 0x10000\nok\nok\nok\nvalue 0x00\nok\nok\nvalue 0x00\nok\nfault 13 BUS_ADRERR 0x12000\n\
ok\nerror 27 EFBIG\nerror 9 EBADF\n",
};

/// Maps two files of a page each, and makes a byte of both durable.
pub(crate) const TWO_FILES: Case<'static> = Case {
    config: CONFIG,
    lengths: &[4096, 4096],
    spare: 0,
    store: JOURNAL,
    gates: &[25],
    trace: b"spawn\nmmap 1 0 0x1000 rw- shared 0 0\nmmap 1 0 0x1000 rw- shared 1 0\nstore 1 0x10000 1 1\n\
store 1 0x11000 1 2\nmsync 1 0x10000 0x2000 sync\n",
    replies: b"pid 1\naddr 0x10000\naddr 0x11000\nok\nok\nok\n",
};

/// The same, and makes other bytes durable there.
pub(crate) const TWO_FILES_TWICE: Case<'static> = Case {
    config: CONFIG,
    lengths: &[4096, 4096],
    spare: 0,
    store: JOURNAL,
    gates: &[25, 67],
    trace: b"spawn\nmmap 1 0 0x1000 rw- shared 0 0\nmmap 1 0 0x1000 rw- shared 1 0\nstore 1 0x10000 1 1\n\
store 1 0x11000 1 2\nmsync 1 0x10000 0x2000 sync\nstore 1 0x10000 1 3\nstore 1 0x11000 1 4\n\
msync 1 0x10000 0x2000 sync\n",
    replies: b"pid 1\naddr 0x10000\naddr 0x11000\nok\nok\nok\nok\nok\nok\n",
};

/// Two processes store to one page, and one of them makes it durable twice.
pub(crate) const TWO_PROCESSES: Case<'static> = Case {
    config: CONFIG,
    lengths: &[4096],
    spare: 0,
    store: JOURNAL,
    gates: &[17, 43],
    trace: b"spawn\nspawn\nmmap 1 0 4096 rw- shared 0 0\nmmap 2 0 4096 rw- shared 0 0\nstore 1 0x10000 1 0x0a\n\
store 2 0x10001 1 0x0b\nmsync 1 0x10000 4096 sync\nstore 2 0x10001 1 0x0c\nmsync 1 0x10000 4096 sync\n",
    replies: b"pid 1\npid 2\naddr 0x10000\naddr 0x10000\nok\nok\nok\nok\nok\n",
};

/// Eight touched pages, of which memory has frames for four: the msync takes the others from their slots.
pub(crate) const PAGES_IN_SLOTS: Case<'static> = Case {
    config: SMALL,
    lengths: &[32768],
    spare: 0,
    store: JOURNAL,
    gates: &[73],
    trace: b"spawn\nmmap 1 0 0x8000 rw- shared 0 0\nstore 1 0x10000 1 1\nstore 1 0x11000 1 2\n\
store 1 0x12000 1 3\nstore 1 0x13000 1 4\nstore 1 0x14000 1 5\nstore 1 0x15000 1 6\nstore 1 0x16000 1 7\n\
store 1 0x17000 1 8\nload 1 0x10000 1\nload 1 0x11000 1\nload 1 0x12000 1\nload 1 0x13000 1\nload 1 0x14000 1\n\
load 1 0x15000 1\nload 1 0x16000 1\nload 1 0x17000 1\nmsync 1 0x10000 0x8000 sync\nload 1 0x17000 1\n",
    replies: b"pid 1\naddr 0x10000\nok\nok\nok\nok\nok\nok\nok\nok\nvalue 0x01\nvalue 0x02\nvalue 0x03\nvalue 0x04\n\
value 0x05\nvalue 0x06\nvalue 0x07\nvalue 0x08\nok\nvalue 0x08\n",
};

/// A page that is given up after its msync comes back from the journal, and is made durable again.
pub(crate) const PAGE_IN_THE_JOURNAL: Case<'static> = Case {
    config: Config {
        frames: 8,
        slots: 0,
        mode: Mode::Sv39,
    },
    lengths: &[40960],
    spare: 0,
    store: JOURNAL,
    gates: &[17, 43],
    trace: b"spawn\nmmap 1 0 0xa000 rw- shared 0 0\nstore 1 0x10000 1 7\nmsync 1 0x10000 0x1000 sync\n\
load 1 0x11000 1\nload 1 0x12000 1\nload 1 0x13000 1\nload 1 0x14000 1\nload 1 0x15000 1\nload 1 0x16000 1\n\
load 1 0x17000 1\nload 1 0x18000 1\nload 1 0x19000 1\nload 1 0x10000 1\nstore 1 0x10000 1 8\n\
msync 1 0x10000 0x1000 sync\n",
    replies: b"pid 1\naddr 0x10000\nok\nok\nvalue 0x00\nvalue 0x00\nvalue 0x00\nvalue 0x00\nvalue 0x00\nvalue 0x00\n\
value 0x00\nvalue 0x00\nvalue 0x00\nvalue 0x07\nok\nok\n",
};

/// A byte is stored, and the msync of its page fails. Two lines follow.
pub(crate) const HALTING: Case<'static> = Case {
    config: CONFIG,
    lengths: &[4096],
    spare: 0,
    store: JOURNAL,
    gates: &[17],
    trace: b"spawn\nmmap 1 0 4096 rw- shared 0 0\nstore 1 0x10000 1 9\nmsync 1 0x10000 4096 sync\n\
load 1 0x10000 1\nfaults\n",
    replies: b"pid 1\naddr 0x10000\nok\nerror 5 EIO\nhalted\nhalted\n",
};

/// Sixteen pages of a process's own, of which memory has frames for four.
pub(crate) const OWN_PAGES: Case<'static> = Case {
    config: SMALL,
    lengths: &[],
    spare: 0,
    store: JOURNAL,
    gates: &[],
    trace: b"spawn\nmmap 1 0 0x10000 rw- anon\nstore 1 0x10000 1 1\nstore 1 0x11000 1 2\nstore 1 0x12000 1 3\n\
store 1 0x13000 1 4\nstore 1 0x14000 1 5\nstore 1 0x15000 1 6\nstore 1 0x16000 1 7\nstore 1 0x17000 1 8\n\
store 1 0x18000 1 9\nstore 1 0x19000 1 10\nstore 1 0x1a000 1 11\nstore 1 0x1b000 1 12\nstore 1 0x1c000 1 13\n\
store 1 0x1d000 1 14\nstore 1 0x1e000 1 15\nstore 1 0x1f000 1 16\nload 1 0x10000 1\nload 1 0x11000 1\n\
load 1 0x12000 1\nload 1 0x13000 1\nload 1 0x14000 1\nload 1 0x15000 1\nload 1 0x16000 1\nload 1 0x17000 1\n\
load 1 0x18000 1\nload 1 0x19000 1\nload 1 0x1a000 1\nload 1 0x1b000 1\nload 1 0x1c000 1\nload 1 0x1d000 1\n\
load 1 0x1e000 1\nload 1 0x1f000 1\ndontneed 1 0x10000 0x1000\nload 1 0x10000 1\nstore 1 0x1f000 1 0xff\n\
load 1 0x1f000 1\nexit 1\nload 1 0x10000 1\n",
    replies: b"pid 1\naddr 0x10000\nok\nok\nok\nok\nok\nok\nok\nok\nok\nok\nok\nok\nok\nok\nok\nok\nvalue 0x01\n\
value 0x02\nvalue 0x03\nvalue 0x04\nvalue 0x05\nvalue 0x06\nvalue 0x07\nvalue 0x08\nvalue 0x09\nvalue 0x0a\n\
value 0x0b\nvalue 0x0c\nvalue 0x0d\nvalue 0x0e\nvalue 0x0f\nvalue 0x10\nok\nvalue 0x00\nok\nvalue 0xff\nok\n\
error 3 ESRCH\n",
};

/// A page that two processes share goes to swap, until one of them stores to it.
pub(crate) const SHARED_COPY: Case<'static> = Case {
    config: Config {
        frames: 10,
        slots: 16,
        mode: Mode::Sv39,
    },
    lengths: &[],
    spare: 0,
    store: JOURNAL,
    gates: &[],
    trace: b"spawn\nmmap 1 0 0x6000 rw- anon\nstore 1 0x10000 1 0x11\nfork 1\nstore 1 0x11000 1 0x21\n\
store 1 0x12000 1 0x21\nstore 1 0x13000 1 0x21\nstore 1 0x14000 1 0x21\nstore 1 0x15000 1 0x21\n\
store 2 0x10001 1 0x22\nload 1 0x10000 2\nload 2 0x10000 2\n",
    replies: b"pid 1\naddr 0x10000\nok\npid 2\nok\nok\nok\nok\nok\nok\nvalue 0x0011\nvalue 0x2211\n",
};

/// Pages of an object that two processes see go to swap, and come back to either.
pub(crate) const OBJECT_PAGES: Case<'static> = Case {
    config: Config {
        frames: 10,
        slots: 16,
        mode: Mode::Sv39,
    },
    lengths: &[],
    spare: 0,
    store: JOURNAL,
    gates: &[],
    trace: b"spawn\nmmap 1 0 0x6000 rw- common\nstore 1 0x10000 1 0x11\nfork 1\nstore 1 0x11000 1 0x21\n\
store 1 0x12000 1 0x31\nstore 2 0x13000 1 0x41\nstore 2 0x14000 1 0x51\nstore 2 0x10001 1 0x22\n\
load 1 0x10000 2\nload 2 0x11000 1\nload 1 0x13000 1\nload 2 0x12000 1\nload 1 0x14000 1\nload 2 0x15000 1\n\
dontneed 1 0x10000 0x6000\nload 1 0x12000 1\nexit 1\nload 2 0x10000 2\n",
    replies: b"pid 1\naddr 0x10000\nok\npid 2\nok\nok\nok\nok\nok\nvalue 0x2211\nvalue 0x21\nvalue 0x41\nvalue 0x31\n\
value 0x51\nvalue 0x00\nok\nvalue 0x31\nok\nvalue 0x2211\n",
};

/// As many pages as one msync may take, then one more, which are made durable by halves; memory has frames for all of them.
/// `most_pages` has the lines.
pub(crate) const MOST_PAGES: Case<'static> = Case {
    config: Config {
        frames: 2048,
        slots: 0,
        mode: Mode::Sv39,
    },
    lengths: &[4194304],
    spare: 0,
    store: JOURNAL,
    gates: &[8193, 20483, 28685],
    trace: b"",
    replies: b"",
};

/// A byte is stored at the start of each of 1,023 pages, and another one at that of 1,024.
pub(crate) fn most_pages(rt: &(impl AllocGlobal + Abort)) -> Vec<u8> {
    let start = b"spawn\nmmap 1 0 0x400000 rw- shared 0 0\n".as_slice();
    let mut trace = Vec::new(rt.alloc());
    trace.extend_from_slice(start).expect(rt, "memory");
    for (byte, end) in [(1_u8, 16 + 1023_u32), (2, 16 + 1024)] {
        for page in 16..end {
            let line = format!(in rt.alloc(); "store 1 0x{page:x}000 1 {byte}\n");
            let line = line.expect(rt, "memory");
            trace
                .extend_from_slice(line.as_bytes())
                .expect(rt, "memory");
        }
        let line = b"msync 1 0x10000 0x400000 sync\n".as_slice();
        trace.extend_from_slice(line).expect(rt, "memory");
    }
    let halves = b"msync 1 0x10000 0x200000 sync\nmsync 1 0x210000 0x200000 sync\n".as_slice();
    trace.extend_from_slice(halves).expect(rt, "memory");
    trace
}
