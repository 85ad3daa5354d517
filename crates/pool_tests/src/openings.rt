//! Openings, and what stands after stops.
use crate::bench::{Filled, Pool, equal, expect};
use std::process::Abort;
use sync_journal::{CommitFault, RecoverFault};

/// Four homes, in which two commits put these bytes, the second in homes 1 and 2.
const BEFORE: [u8; 4] = [1, 1, 0, 0];

const AFTER: [u8; 4] = [1, 2, 2, 0];

/// The calls of the second commit: eight writes for each page and for a map, a sync, the gate, and a sync.
const GATE: u64 = 8 + 8 + 8 + 1 + 1;

/// What the unsynced sectors may hold: what was last synced, ones, zeros, and half or all of the open gate.
fn fillings() -> [Option<[u8; 512]>; 5] {
    let mut gate = [0; 512];
    for i in 0..512 {
        gate[i] = b"GATEOPEN"[i % 8];
    }
    let mut half = gate;
    half[256..].fill(0);
    [
        None,
        Some([255; 512]),
        Some([0; 512]),
        Some(half),
        Some(gate),
    ]
}

/// A pool after both commits, of which the second fails at that call, if it is one of its calls.
fn committed(rt: &(impl AllocGlobal + Abort), call: u64) -> (Pool, Result<(), CommitFault>) {
    let mut pool = Pool::new(rt, 4);
    pool.fill(rt, &[0, 1], 1, "the first");
    pool.fail_in(call);
    let mut source = Filled {
        byte: 2,
        fails: false,
    };
    let done = pool.commit(rt, &[1, 2], &mut source);
    (pool, done)
}

#[test]
fn a_stop_within_a_commit_leaves_the_pages_before_or_after(rt: HostRuntime) {
    // A sector of a page and of the map, a sync, the gate, and a sync.
    for (call, count) in [(1, 2), (16, 2), (17, 2), (25, 2), (GATE, 5), (GATE + 1, 5)] {
        let (pool, done) = committed(&rt, call);
        equal(&rt, done, Err(CommitFault::Device));
        for filling in fillings().into_iter().take(count) {
            let mut left = pool.left(&rt, filling);
            expect(&rt, left.recover().is_ok(), "a recovery");
            // The second commit names the first map, as all bytes of the gate do but those of the open one.
            let after = call >= GATE && filling.is_some() && filling != fillings()[4];
            equal(
                &rt,
                left.bytes([0, 1, 2, 3]),
                if after { AFTER } else { BEFORE },
            );
        }
    }
}

#[test]
fn an_opening_writes_nothing_until_it_renews(rt: HostRuntime) {
    let (pool, done) = committed(&rt, 0);
    expect(&rt, done.is_ok(), "the second commit");
    let mut left = pool.left(&rt, None);
    expect(&rt, left.resume().is_ok(), "an opening");
    // The gate, and a map.
    let disk = &left.disk.disk;
    equal(&rt, (disk.calls(), disk.writes(), disk.syncs()), (9, 0, 0));
    equal(&rt, left.journal.free_pages(), 1008 - 3);
    equal(&rt, left.bytes([0, 1, 2, 3]), AFTER);
    // A map and the gate, each with a sync behind it.
    expect(&rt, left.renew().is_ok(), "a map written anew");
    let disk = &left.disk;
    equal(
        &rt,
        (disk.runs, disk.disk.writes(), disk.disk.syncs()),
        (2, 9, 2),
    );
    equal(&rt, left.bytes([0, 1, 2, 3]), AFTER);
    // Where no page stands in a slot there is nothing to renew.
    let mut empty = Pool::new(&rt, 4);
    expect(&rt, empty.recover().is_ok(), "a recovery");
    equal(&rt, empty.disk.disk.writes(), 0);
}

#[test]
fn a_stop_within_a_recovery_leaves_the_same_pages(rt: HostRuntime) {
    let (pool, done) = committed(&rt, 0);
    expect(&rt, done.is_ok(), "the second commit");
    // A sync, gate and map read, a map, a sync, the gate, and a sync.
    for (call, count) in [(1, 1), (2, 1), (3, 1), (11, 2), (19, 2), (20, 5), (21, 5)] {
        for filling in fillings().into_iter().take(count) {
            let mut left = pool.left(&rt, None);
            left.fail_in(call);
            equal(&rt, left.recover(), Err(RecoverFault::Device));
            let mut again = left.left(&rt, filling);
            expect(&rt, again.recover().is_ok(), "a recovery");
            again.fill(&rt, &[3], 3, "a commit");
            equal(&rt, again.bytes([0, 1, 2, 3]), [1, 2, 2, 3]);
        }
    }
}
