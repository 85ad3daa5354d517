//! Homes at idle, and what stands after stops.
use crate::bench::{FRONT, Pool, equal, expect};
use disk_model::DiskFault;
use std::process::Abort;

/// What stands for four homes after two commits.
const BYTES: [u8; 4] = [1, 2, 1, 0];

/// The calls of a tidy: eight reads and eight writes for each of three pages, eight writes for a map, a sync, the gate, and a sync.
const SYNC: u64 = 3 * 16 + 8 + 1;

/// A pool after both commits.
fn committed(rt: &(impl AllocGlobal + Abort)) -> Pool {
    let mut pool = Pool::new(rt, 4);
    pool.fill(rt, &[0, 1, 2], 1, "the first");
    pool.fill(rt, &[1], 2, "the second");
    pool.left(rt, None)
}

#[test]
fn a_tidy_brings_all_pages_home_in_two_syncs(rt: HostRuntime) {
    let mut pool = committed(&rt);
    expect(&rt, pool.resume().is_ok(), "an opening");
    equal(&rt, pool.journal.free_pages(), 1008 - 3);
    let calls = pool.disk.disk.calls();
    equal(&rt, pool.tidy(), Ok(()));
    equal(&rt, pool.journal.free_pages(), 1008);
    // Three pages, a map and the gate.
    let disk = &pool.disk.disk;
    equal(&rt, (disk.writes(), disk.syncs()), (3 * 8 + 8 + 1, 2));
    equal(&rt, disk.calls(), calls.saturating_add(SYNC + 2));
    expect(&rt, pool.holds(FRONT + 8, 2), "a page in its home");
    equal(&rt, pool.bytes([0, 1, 2, 3]), BYTES);
    // Then nothing is left to do, neither for it nor for a recovery.
    equal(&rt, pool.tidy(), Ok(()));
    let mut left = pool.left(&rt, None);
    expect(&rt, left.recover().is_ok(), "a recovery");
    equal(
        &rt,
        (pool.disk.disk.syncs(), left.disk.disk.writes()),
        (2, 0),
    );
    equal(&rt, left.bytes([0, 1, 2, 3]), BYTES);
}

#[test]
fn a_stop_within_a_tidy_leaves_the_same_pages(rt: HostRuntime) {
    let pool = committed(&rt);
    // A sector of a home and of the map, a sync, the gate, and a sync.
    for call in [9, 48, 49, SYNC - 1, SYNC, SYNC + 1, SYNC + 2] {
        for filling in [None, Some([255; 512]), Some([0; 512])] {
            let mut left = pool.left(&rt, None);
            expect(&rt, left.resume().is_ok(), "an opening");
            left.fail_in(call);
            equal(&rt, left.tidy(), Err(DiskFault));
            let mut again = left.left(&rt, filling);
            expect(&rt, again.recover().is_ok(), "a recovery");
            equal(&rt, again.bytes([0, 1, 2, 3]), BYTES);
            expect(&rt, again.tidy().is_ok(), "the next");
            equal(&rt, again.bytes([0, 1, 2, 3]), BYTES);
        }
    }
}
