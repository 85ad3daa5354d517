//! Commits: what they write, where pages stand, and sources that fail.
use crate::bench::{FRONT, Filled, Pool, equal, expect};
use sync_journal::CommitFault;

#[test]
fn a_commit_takes_three_runs_of_writes_and_two_syncs_and_no_home(rt: HostRuntime) {
    let mut pool = Pool::new(&rt, 600);
    // The pages, their map and the gate; the maps are filled in turn.
    for (byte, runs, syncs) in [(1, 3, 2), (2, 6, 4), (3, 9, 6)] {
        pool.fill(&rt, &[5, 6, 7, 8, 9, 20, 300, 599], byte, "a commit");
        let disk = &pool.disk;
        equal(&rt, (disk.runs, disk.disk.syncs()), (runs, syncs));
        expect(&rt, disk.last < FRONT, "a home was written");
        equal(&rt, pool.bytes([4, 5, 300, 599]), [0, byte, byte, byte]);
    }
    equal(&rt, pool.journal.homes_given(), 600);
    let given = pool.journal.first_given(21);
    equal(
        &rt,
        (given[4], given[5], given[9], given[10]),
        (false, true, true, false),
    );
    equal(&rt, (given[0], given[19], given[20]), (false, false, true));
    // Each page took eight writes, and so did a map.
    equal(&rt, pool.disk.disk.writes(), 3 * (8 * 8 + 8 + 1));
    // The third is in body 1 again, which lies behind map 1.
    expect(&rt, pool.holds(16 + 4040 + 8, 3), "a page in a slot");
}

#[test]
fn a_commit_takes_as_many_pages_as_are_free(rt: HostRuntime) {
    let mut pool = Pool::new(&rt, 1010);
    let mut homes = Vec::new(rt.alloc());
    for home in 1..1009 {
        homes.push(home).expect(&rt, "memory");
    }
    pool.fill(&rt, &homes, 7, "all slots");
    let journal = &pool.journal;
    equal(
        &rt,
        (journal.free_pages(), journal.homes_given()),
        (0, 1009),
    );
    expect(&rt, pool.disk.last < FRONT, "a home was written");
    equal(&rt, pool.bytes([0, 1, 1008, 1009]), [0, 7, 7, 0]);
    // A commit of no page copies them home, and all slots are free then.
    pool.fill(&rt, &[], 7, "no page");
    let journal = &pool.journal;
    equal(
        &rt,
        (journal.free_pages(), journal.homes_given()),
        (1008, 0),
    );
    equal(&rt, pool.disk.last, FRONT + 8 * 1009 - 1);
    equal(&rt, pool.bytes([0, 1, 1008, 1009]), [0, 7, 7, 0]);
}

#[test]
fn a_commit_takes_slots_in_a_row(rt: HostRuntime) {
    let mut pool = Pool::new(&rt, 504);
    let mut all = Vec::new(rt.alloc());
    let mut odd = Vec::new(rt.alloc());
    for home in 0..504 {
        all.push(home).expect(&rt, "memory");
        if home % 2 == 1 {
            odd.push(home).expect(&rt, "memory");
        }
    }
    // All of body 1, and then every other page of them to the first half of body 0.
    pool.fill(&rt, &all, 1, "all pages");
    pool.fill(&rt, &odd, 1, "every other");
    let (runs, writes) = (pool.disk.runs, pool.disk.disk.writes());
    // No two free slots of body 1 lie side by side now, so these are of body 0.
    pool.fill(&rt, &[1, 2, 3, 4, 5], 2, "five");
    equal(&rt, pool.disk.runs, runs.saturating_add(3));
    expect(
        &rt,
        pool.holds(16 + 8 + 8 * 252, 2),
        "behind the first half",
    );
    // That left three slots free where body 0 begins, too few for these.
    pool.fill(&rt, &[10, 11, 12, 13, 14], 3, "five more");
    equal(&rt, pool.disk.runs, runs.saturating_add(6));
    expect(&rt, pool.holds(16 + 8 + 8 * 257, 3), "behind these");
    // Each page took eight writes, and so did a map.
    let more = 2 * (5 * 8 + 8 + 1);
    equal(&rt, pool.disk.disk.writes(), writes.saturating_add(more));
    equal(&rt, pool.bytes([0, 1, 10, 14]), [1, 2, 3, 3]);
}

#[test]
fn a_source_that_fails_leaves_the_pages_before(rt: HostRuntime) {
    let mut pool = Pool::new(&rt, 4);
    pool.fill(&rt, &[0, 2], 1, "the first");
    let mut source = Filled {
        byte: 2,
        fails: true,
    };
    let done = pool.commit(&rt, &[0, 1, 2], &mut source);
    equal(&rt, done, Err(CommitFault::Source));
    equal(&rt, pool.bytes([0, 1, 2, 3]), [1, 0, 1, 0]);
    let mut left = pool.left(&rt, Some([9; 512]));
    expect(&rt, left.recover().is_ok(), "a recovery");
    equal(&rt, left.bytes([0, 1, 2, 3]), [1, 0, 1, 0]);
    let done = pool.commit(&rt, &[0, 1, 2], &mut source);
    expect(&rt, done.is_ok(), "the next");
    equal(&rt, pool.bytes([0, 1, 2, 3]), [2, 2, 2, 0]);
}
