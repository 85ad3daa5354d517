//! Rows of traces that are run, and what comes of them: the replies, what the store's device was asked, and the files that are left.
use crate::bench::{
    Armed, CONFIG, Exchange, GOES_ON, PLAIN, SINGLE, SMALL, Setting, asked_after_start, expect_all,
    image, left_in, left_over, same,
};
use crate::evictions::{
    EIGHT_PAGES, EIGHT_PAGES_SHOWN, EIGHT_PAGES_SYNCED, FORTY_LINES, LOOKED_AFTER_AN_MSYNC,
    LOOKED_AFTER_TWO_MSYNCS,
};
use crate::{evictions, four_levels, histories, mappings, private_memory, processes, shared_pages};
use machine::Config;
use stores::NewStore;
use vm_types::Mode;

/// The file of some rows is a page of the letter A, which may only be read.
#[test]
fn traces_are_answered(rt: HostRuntime) {
    for (length, rows) in [
        (4096, private_memory::ROWS.as_slice()),
        (4096, &processes::ROWS),
        (4096, &histories::ROWS),
        (8192, &shared_pages::ROWS),
        (32768, &mappings::ROWS),
    ] {
        expect_all(&rt, Setting { length, ..PLAIN }, rows);
    }
    let letters = image(&rt, SINGLE, 4096, Some(&[0x41; 4096]));
    for exchange in private_memory::LETTERS {
        let run = (CONFIG, Armed::Nothing);
        let _ = left_over(&rt, &letters, run, exchange, GOES_ON);
    }
}

/// 64 frames, over a page of zeros.
const SV48: Setting = Setting {
    length: 4096,
    store: SINGLE,
    config: Config {
        frames: 64,
        slots: 16,
        mode: Mode::Sv48,
    },
    armed: Armed::Nothing,
};

/// Four levels have rows of their own, and so have pages that wait for frames and slots.
#[test]
fn machines_of_other_sizes_answer(rt: HostRuntime) {
    expect_all(&rt, SV48, &four_levels::ROWS);
    expect_all(&rt, PLAIN, &[four_levels::IN_THREE_LEVELS]);
    for (config, exchange) in evictions::ROWS {
        let setting = Setting {
            length: 0x8000,
            config,
            ..PLAIN
        };
        expect_all(&rt, setting, &[exchange]);
    }
}

/// Eight frames, of which four are for pages, over a file of eight pages.
const FEW_FRAMES: Setting = Setting {
    length: 0x8000,
    store: SINGLE,
    config: SMALL,
    armed: Armed::Nothing,
};

/// Maps the first page of the file and stores a byte.
const STORED: Exchange<'static> = (
    b"spawn\nmmap 1 0 4096 rw- shared 0 0\nstore 1 0x10000 1 0x5a\n",
    b"pid 1\naddr 0x10000\nok\n",
);

/// The same, and syncs that page.
const STORED_AND_SYNCED: Exchange<'static> = (
    b"spawn\nmmap 1 0 4096 rw- shared 0 0\nstore 1 0x10000 1 0x5a\nmsync 1 0x10000 4096 sync\n",
    b"pid 1\naddr 0x10000\nok\nok\n",
);

/// Two mappings of one page are one page of an msync: through either, both see the byte, and it is committed once.
const MAPPED_TWICE: Exchange<'static> = (
    b"spawn\nmmap 1 0 4096 rw- shared 0 0\nmmap 1 0x11000 4096 rw- shared 0 0\nstore 1 0x11000 1 7\n\
load 1 0x10000 1\nmsync 1 0x10000 0x2000 sync\n",
    b"pid 1\naddr 0x10000\naddr 0x11000\nok\nvalue 0x07\nok\n",
);

/// Eight frames and no slot, so that a page that is clean is given up and read again from where it stands: from the journal, as long
/// as that holds it.
const WITHOUT_SLOTS: Setting = Setting {
    length: 0xa000,
    store: SINGLE,
    config: Config {
        frames: 8,
        slots: 0,
        mode: Mode::Sv39,
    },
    armed: Armed::Nothing,
};

/// The same over the smallest pool.
const IN_A_POOL: Setting = Setting {
    store: NewStore::Pool(1),
    ..WITHOUT_SLOTS
};

/// Two pages, each in an msync of its own, and then both.
const PAGES_IN_TURN: Exchange<'static> = (
    b"spawn\nmmap 1 0 0x2000 rw- shared 0 0\nstore 1 0x10000 1 1\nmsync 1 0x10000 0x2000 sync\n\
store 1 0x11000 1 2\nmsync 1 0x10000 0x2000 sync\nstore 1 0x10000 1 3\nstore 1 0x11000 1 4\n\
msync 1 0x10000 0x2000 sync\n",
    b"pid 1\naddr 0x10000\nok\nok\nok\nok\nok\nok\nok\n",
);

/// How many writes and syncs the store's device is asked for once a machine has started. An msync of `n` pages has `8 n` sectors of the
/// body, eight of the map, and the gate, with two syncs; before it comes what a journal that is live still owes to the homes, which takes
/// two syncs more. A pool owes nothing to any: its map is one block here, as long as few pages have slots. Pages that are given up are never written home.
const ASKED: [(Setting, Exchange<'static>, (u64, u64)); 16] = [
    (PLAIN, (b"", b""), (0, 0)),
    (PLAIN, STORED, (0, 0)),
    (PLAIN, STORED_AND_SYNCED, (17, 2)),
    (PLAIN, MAPPED_TWICE, (17, 2)),
    (PLAIN, FORTY_LINES, (0, 0)),
    (
        Setting {
            length: 4096,
            store: SINGLE,
            config: Config {
                frames: 64,
                slots: 0,
                mode: Mode::Sv39,
            },
            armed: Armed::Nothing,
        },
        FORTY_LINES,
        (0, 0),
    ),
    (FEW_FRAMES, FORTY_LINES, (0, 0)),
    (FEW_FRAMES, EIGHT_PAGES, (0, 0)),
    (FEW_FRAMES, EIGHT_PAGES_SYNCED, (73, 2)),
    (WITHOUT_SLOTS, LOOKED_AFTER_AN_MSYNC, (17, 2)),
    (WITHOUT_SLOTS, LOOKED_AFTER_TWO_MSYNCS, (43, 6)),
    (WITHOUT_SLOTS, PAGES_IN_TURN, (17 + 26 + 34, 10)),
    (IN_A_POOL, STORED, (0, 0)),
    (IN_A_POOL, STORED_AND_SYNCED, (17, 2)),
    (IN_A_POOL, LOOKED_AFTER_TWO_MSYNCS, (34, 4)),
    (IN_A_POOL, PAGES_IN_TURN, (17 + 17 + 25, 6)),
];

#[test]
fn the_store_is_asked_for_no_more(rt: HostRuntime) {
    for (setting, exchange, wanted) in ASKED {
        let asked = asked_after_start(&rt, setting, exchange);
        same(&rt, asked, wanted);
    }
}

/// A file of 5,000 bytes: what is stored past its end is gone with the next msync.
const PAST_THE_END: Exchange<'static> = (
    b"spawn\nmmap 1 0 12288 rw- shared 0 0\nstore 1 0x11387 1 0xaa\nload 1 0x11388 1\n\
store 1 0x11388 1 0xbb\nload 1 0x11388 1\nload 1 0x12000 1\nmsync 1 0x10000 12288 sync\nload 1 0x11388 1\n\
load 1 0x11387 1\n",
    b"pid 1\naddr 0x10000\nok\nvalue 0x00\nok\nvalue 0xbb\nfault 13 BUS_ADRERR 0x12000\nok\nvalue 0x00\n\
value 0xaa\n",
);

/// Shows the first eight bytes of a file.
const SHOW: &[u8] = b"spawn\nmmap 1 0 4096 r-- shared 0 0\nload 1 0x10000 8\n";

/// A trace, and one on the next machine, which sees what the first has synced.
const NEXT: [(Setting, Exchange<'static>, Exchange<'static>); 5] = [
    (
        PLAIN,
        STORED,
        (SHOW, b"pid 1\naddr 0x10000\nvalue 0x0000000000000000\n"),
    ),
    (
        PLAIN,
        STORED_AND_SYNCED,
        (SHOW, b"pid 1\naddr 0x10000\nvalue 0x000000000000005a\n"),
    ),
    // What dontneed leaves of a touched page is made durable by the next msync.
    (
        PLAIN,
        (
            b"spawn\nmmap 1 0 4096 rw- shared 0 0\nstore 1 0x10000 1 0x5a\ndontneed 1 0x10000 4096\n\
msync 1 0x10000 4096 sync\n",
            b"pid 1\naddr 0x10000\nok\nok\nok\n",
        ),
        (
            b"faults\nspawn\nmmap 1 0 4096 r-- shared 0 0\nload 1 0x10000 1\n",
            b"faults 0\npid 1\naddr 0x10000\nvalue 0x5a\n",
        ),
    ),
    (
        Setting {
            length: 5000,
            store: SINGLE,
            config: CONFIG,
            armed: Armed::Nothing,
        },
        PAST_THE_END,
        (
            b"spawn\nmmap 1 0 8192 r-- shared 0 0\nload 1 0x11386 2\nload 1 0x11388 8\n",
            b"pid 1\naddr 0x10000\nvalue 0xaa00\nvalue 0x0000000000000000\n",
        ),
    ),
    (FEW_FRAMES, EIGHT_PAGES_SYNCED, EIGHT_PAGES_SHOWN),
];

#[test]
fn the_next_machine_has_what_was_synced(rt: HostRuntime) {
    for (setting, exchange, shown) in NEXT {
        let disk = left_in(&rt, setting, exchange, GOES_ON);
        let run = (CONFIG, Armed::Nothing);
        let _ = left_over(&rt, &disk, run, shown, GOES_ON);
    }
}
