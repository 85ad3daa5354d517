//! Homes made zeros, and what stands for those beside them.
use crate::bench::{FRONT, Pool, equal, expect};

#[test]
fn homes_are_made_zeros_in_their_slots_too(rt: HostRuntime) {
    let mut pool = Pool::new(&rt, 5);
    pool.fill(&rt, &[0, 1, 2, 3, 4], 1, "all homes");
    equal(&rt, pool.tidy(), Ok(()));
    // Three get slots again, of both bodies.
    pool.fill(&rt, &[0, 1], 2, "the first");
    pool.fill(&rt, &[2], 3, "the second");
    expect(&rt, pool.holds(16 + 4040 + 16, 2), "a page in body 1");
    expect(&rt, pool.holds(16 + 8, 3), "a page in body 0");
    let (writes, syncs) = (pool.disk.disk.writes(), pool.disk.disk.syncs());
    equal(&rt, pool.blank(&rt, 1, 3), Ok(()));
    equal(&rt, pool.bytes([0, 1, 2, 3]), [2, 0, 0, 0]);
    equal(&rt, pool.bytes([4, 3, 2, 1]), [1, 0, 0, 0]);
    // Three homes and two slots were written.
    let disk = &pool.disk.disk;
    equal(
        &rt,
        (disk.writes(), disk.syncs()),
        (writes.saturating_add(5 * 8), syncs),
    );
    expect(&rt, pool.holds(FRONT + 8, 0), "a home behind its slot");
    expect(&rt, pool.holds(FRONT, 1), "the home before");
}
