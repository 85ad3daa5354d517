//! A stop at each write of the store, with each filling of the unsynced sectors: it fails one msync, and leaves what was acknowledged,
//! and no more but at the write of a gate: the msync that failed too, whole, where the gate's sector holds what says that it is done.
use crate::bench::{Armed, Case, expect};
use crate::cases::{
    MOST_PAGES, ONE_PAGE, ONE_PAGE_IN_A_POOL, OTHER_LENGTHS, PAGE_IN_THE_JOURNAL, PAGES_IN_SLOTS,
    PARTIAL_PAGE, TWO_FILES_TWICE, TWO_PAGES_IN_A_POOL, TWO_PROCESSES, most_pages,
};

/// Before the second msync of a page first the home of the first one's is written, then the gate is closed, and only then come the
/// map, the body and the gate. Of a pool free slots are written first, then the other map, and then the gate. Several pages are all
/// old or all new, and so is the length of a file with them.
#[test]
fn pages_are_all_old_or_all_new(rt: HostRuntime) {
    for case in [
        ONE_PAGE,
        PARTIAL_PAGE,
        TWO_PROCESSES,
        PAGE_IN_THE_JOURNAL,
        ONE_PAGE_IN_A_POOL,
        TWO_PAGES_IN_A_POOL,
        OTHER_LENGTHS,
        TWO_FILES_TWICE,
        PAGES_IN_SLOTS,
    ] {
        case.try_each(&rt, true);
    }
}

/// At some writes, at those of the three gates among them, each with one filling. There is no write 29,000: that run goes to its end.
#[test]
fn as_many_pages_as_an_msync_takes_change_at_once(rt: HostRuntime) {
    let trace = most_pages(&rt);
    let case = Case {
        trace: trace.as_slice(),
        ..MOST_PAGES
    };
    let image = case.image(&rt);
    let stops = [
        (4000, 1),
        (8193, 4),
        (12000, 2),
        (16000, 0),
        (20483, 4),
        (24000, 3),
        (28685, 4),
        (29000, 0),
    ];
    for (write, filling) in stops {
        let failures = case.failures(&rt, &image, Armed::StopAtWrite(write), &[filling]);
        expect(
            &rt,
            failures == usize::from(write < 29000),
            "no failure, or one too many",
        );
    }
}
