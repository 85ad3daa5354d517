//! Recoveries that are stopped in turn, three deep, before one runs to its end.
//!
//! The first stop comes at each write of the trace, with each filling of the unsynced sectors; then recovery is stopped at each of
//! its writes, what that leaves is recovered and stopped at each write, and so once more. Of the ways to fill what the three
//! stopped recoveries leave, those are left out in which the filling of one isn't the next of `FILLINGS` after that of the one
//! before; for the longest trace the first stop takes one filling a write, the next each time. So each test takes seconds.
use crate::bench::{Armed, Case, expect, tried};
use crate::cases::{ONE_PAGE_IN_A_POOL, OTHER_LENGTHS, PARTIAL_PAGE, TWO_FILES, TWO_PROCESSES};
use crate::fillings::{EACH, FILLINGS, OPEN};
use crate::judge::{Held, heard};
use crate::short_disk::ShortDisk;
use std::process::Abort;
use stores::OpenFault;

/// How many recoveries are stopped in a row.
const STOPS: usize = 3;

/// What so many stopped recoveries in a row left. What a stop of the next one leaves gets that filling.
#[derive(Drop)]
struct Left {
    disk: ShortDisk,
    stops: usize,
    filling: usize,
}

/// Recovers an image, which has to give these files: how many writes that took.
fn recover(rt: &(impl AllocGlobal + Abort), disk: ShortDisk, wanted: &Held) -> u64 {
    let opened = tried(rt.alloc(), disk);
    let is_same = opened.holds(rt.alloc(), wanted).expect(rt, "memory");
    expect(rt, is_same, "other files");
    opened.disk.disk.writes()
}

/// Recovers an image, which has to give these files, and lists what stops at each write of that leave of it.
fn stop_at_each(
    rt: &(impl AllocGlobal + Abort),
    before: Left,
    wanted: &Held,
    list: &mut Vec<Left>,
) {
    if before.stops >= STOPS {
        recover(rt, before.disk, wanted);
        return;
    }
    let copy = before.disk.left(rt.alloc(), None).expect(rt, "memory");
    for write in 1..=recover(rt, copy, wanted) {
        let mut disk = before.disk.left(rt.alloc(), None).expect(rt, "memory");
        disk.disk.stop_at(write);
        let stopped = tried(rt.alloc(), disk);
        let has_stopped = stopped.fault == Some(OpenFault::Device);
        expect(rt, has_stopped, "it stopped nothing");
        let left = stopped.disk.left(rt.alloc(), FILLINGS[before.filling % 5]);
        list.push(Left {
            disk: left.expect(rt, "memory"),
            stops: before.stops.saturating_add(1),
            filling: before.filling.saturating_add(1),
        })
        .expect(rt, "memory");
    }
}

/// Recovers what a stop at that write leaves with these fillings, and what stops of that leave in a row: it gives the files as one
/// recovery does.
fn stop_at(
    rt: &(impl AllocGlobal + Abort),
    case: &Case<'_>,
    image: &ShortDisk,
    write: u64,
    fillings: &[usize],
) {
    let told = case.ran(rt, image, Armed::StopAtWrite(write));
    let judge = heard(rt, case, &told, b"");
    let mut list = Vec::new(rt.alloc());
    for filling in fillings {
        let wanted = case.standing(rt, &told, &judge, *filling);
        let left = told.store.left(rt.alloc(), FILLINGS[*filling % 5]);
        list.push(Left {
            disk: left.expect(rt, "memory"),
            stops: 0,
            filling: filling.saturating_add(1),
        })
        .expect(rt, "memory");
        for _ in 0..u64::MAX {
            match list.pop() {
                Some(left) => stop_at_each(rt, left, &wanted, &mut list),
                None => break,
            }
        }
    }
}

#[test]
fn stopped_recoveries_of_an_msync_change_nothing(rt: HostRuntime) {
    for (case, writes) in [(PARTIAL_PAGE, 17), (TWO_FILES, 25)] {
        let image = case.image(&rt);
        for write in 1..=writes {
            stop_at(&rt, &case, &image, write, &EACH);
        }
    }
}

/// Write 17 opens the gate, where its sector holds all that opens it.
#[test]
fn stopped_recoveries_of_a_second_msync_change_nothing(rt: HostRuntime) {
    let image = TWO_PROCESSES.image(&rt);
    for write in 1..44 {
        let filling = (write + 2) % 5;
        stop_at(&rt, &TWO_PROCESSES, &image, write as u64, &[filling]);
    }
}

/// A recovery of a pool writes a block of the map and the gate. The first stop comes at the gate that names the second map, which makes a page or another length of
/// a file durable.
#[test]
fn stopped_recoveries_of_a_pool_change_nothing(rt: HostRuntime) {
    for (case, gate) in [(ONE_PAGE_IN_A_POOL, 17), (OTHER_LENGTHS, 49)] {
        let image = case.image(&rt);
        stop_at(&rt, &case, &image, gate, &[OPEN]);
    }
}
