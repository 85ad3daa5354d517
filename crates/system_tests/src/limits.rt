//! How many runs a process has, how many processes there are, and how many pages an msync takes of a pool.
use crate::bench::{Exchange, GOES_ON, PLAIN, SMALL, Setting, asked_after_start, left_in, same};
use machine::Config;
use std::process::Abort;
use stores::NewStore;
use vm_types::Mode;

fn add(rt: &impl Abort, text: &mut Vec<u8>, bytes: &[u8]) {
    text.extend_from_slice(bytes).expect(rt, "memory");
}

/// Takes every other page its right to be stored to, up to the limit of 256 runs.
#[test]
fn a_process_has_at_most_256_runs(rt: HostRuntime) {
    let (mut trace, mut wanted) = (Vec::new(rt.alloc()), Vec::new(rt.alloc()));
    add(
        &rt,
        &mut trace,
        b"spawn\nmmap 1 0 0x1ff000 rw- shared 0 0\n",
    );
    add(&rt, &mut wanted, b"pid 1\naddr 0x10000\n");
    for pair in 0..127_u64 {
        let line = format!(in rt.alloc(); "mprotect 1 {} 4096 r--\n", 0x11000 + 8192 * pair);
        add(&rt, &mut trace, line.expect(&rt, "memory").as_bytes());
        add(&rt, &mut wanted, b"ok\n");
    }
    let last = b"mprotect 1 0x10f000 4096 r--\nmprotect 1 0x20e000 4096 r--\n";
    add(&rt, &mut trace, last);
    add(&rt, &mut wanted, b"error 12 ENOMEM\nok\n");
    let exchange = (trace.as_slice(), wanted.as_slice());
    left_in(&rt, PLAIN, exchange, GOES_ON);
}

/// Sees that a machine of so many frames makes so many processes of 64, gives this refusal for the others, and then these replies.
fn expect_processes(
    rt: &(impl AllocGlobal + Abort),
    config: Config,
    made: u64,
    refusal: &[u8],
    last: (&[u8], &[u8]),
) {
    let (mut trace, mut wanted) = (Vec::new(rt.alloc()), Vec::new(rt.alloc()));
    for pid in 1..65_u64 {
        add(rt, &mut trace, b"spawn\n");
        if pid <= made {
            let line = format!(in rt.alloc(); "pid {pid}\n").expect(rt, "memory");
            add(rt, &mut wanted, line.as_bytes());
        } else {
            add(rt, &mut wanted, refusal);
        }
    }
    add(rt, &mut trace, last.0);
    add(rt, &mut wanted, last.1);
    let exchange = (trace.as_slice(), wanted.as_slice());
    left_in(rt, Setting { config, ..PLAIN }, exchange, GOES_ON);
}

/// Room for the tables of all processes.
const ROOM_FOR_ALL: Config = Config {
    frames: 128,
    slots: 16,
    mode: Mode::Sv39,
};

/// All processes are made, then one more is refused, and one that has ended makes room for another. In eight frames seven are made, and all
/// other lines stall; one that has ended makes room for a copy of another, and for no more.
#[test]
fn there_are_64_processes(rt: HostRuntime) {
    let full = (
        b"spawn\nfork 1\nexit 9\nfork 64\n".as_slice(),
        b"error 11 EAGAIN\nerror 11 EAGAIN\nok\npid 9\n".as_slice(),
    );
    expect_processes(&rt, ROOM_FOR_ALL, 64, b"", full);
    let no_frame = b"stall 1 NOFRAMES\n";
    let last = (
        b"fork 1\nexit 3\nfork 1\nspawn\n".as_slice(),
        b"stall 1 NOFRAMES\nok\npid 3\nstall 1 NOFRAMES\n".as_slice(),
    );
    expect_processes(&rt, SMALL, 7, no_frame, last);
}

/// A frame for each of 1,100 pages, and for the tables over them.
const ROOM_FOR_PAGES: Config = Config {
    frames: 1152,
    slots: 0,
    mode: Mode::Sv39,
};

/// Sees that a machine over a pool, with maps of so many blocks, on which so many pages of a file were stored to, gives these replies to the
/// last lines: how many writes and syncs they ask the store's device for.
fn asked_at_last(
    rt: &(impl AllocGlobal + Abort),
    blocks: u32,
    pages: u32,
    last: Exchange<'_>,
) -> (u64, u64) {
    let (mut trace, mut wanted) = (Vec::new(rt.alloc()), Vec::new(rt.alloc()));
    add(rt, &mut trace, b"spawn\nmmap 1 0 0x44c000 rw- shared 0 0\n");
    add(rt, &mut wanted, b"pid 1\naddr 0x10000\n");
    for page in 16..pages.saturating_add(16) {
        let line = format!(in rt.alloc(); "store 1 0x{page:x}000 1 1\n").expect(rt, "memory");
        add(rt, &mut trace, line.as_bytes());
        add(rt, &mut wanted, b"ok\n");
    }
    add(rt, &mut trace, last.0);
    add(rt, &mut wanted, last.1);
    let setting = Setting {
        length: 4096 * 1100,
        store: NewStore::Pool(blocks),
        config: ROOM_FOR_PAGES,
        ..PLAIN
    };
    asked_after_start(rt, setting, (trace.as_slice(), wanted.as_slice()))
}

/// A body of a pool has 504 slots for each block of its maps, and an msync takes as many pages. One of a page more is refused and leaves
/// all as it was: its pages are made durable later. More blocks take more pages than a store with journals does.
#[test]
fn an_msync_takes_as_many_pages_as_a_body_has_slots(rt: HostRuntime) {
    let all: Exchange<'_> = (b"msync 1 0x10000 0x44c000 sync\n", b"ok\n");
    let refused: Exchange<'_> = (all.0, b"error 28 ENOSPC\n");
    let in_parts: Exchange<'_> = (
        b"msync 1 0x10000 0x44c000 sync\nmsync 1 0x10000 0x1f8000 sync\nmsync 1 0x10000 0x44c000 sync\n",
        b"error 28 ENOSPC\nok\nok\n",
    );
    for (blocks, pages, last, asked) in [
        (1, 504, all, (8 * 504 + 8 + 1, 2)),
        (1, 505, refused, (0, 0)),
        // The last page makes way for a next msync: the others are written home.
        (1, 505, in_parts, (8 * 504 + 8 + 1 + 8 * 505 + 8 + 1, 4)),
        (3, 1100, all, (8 * 1100 + 24 + 1, 2)),
    ] {
        same(&rt, asked_at_last(&rt, blocks, pages, last), asked);
    }
}
