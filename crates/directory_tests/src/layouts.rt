//! Directories that are good, and bad ones.
use crate::bench::equal;
use directories::{EXTENTS, Entry, Extent, LayoutFault, check};

/// A file of so many bytes, of two extents.
fn file(length: u64, first: Extent, second: Extent) -> Option<Entry> {
    let mut extents = [Extent { first: 0, count: 0 }; EXTENTS];
    extents[0] = first;
    extents[1] = second;
    Some(Entry {
        read_only: false,
        length,
        extent_count: 2,
        extents,
    })
}

fn extent(first: u32, count: u32) -> Extent {
    Extent { first, count }
}

// Of 100 homes the first four are the directory's. The file before has homes 4 to 7 and 90; each of the others is in place 2.
#[test]
fn a_directory_is_good_or_told(rt: HostRuntime) {
    let before = file(5 * 4096, extent(4, 4), extent(90, 1));
    for (other, told) in [
        (None, Ok(())),
        (file(3 * 4096, extent(8, 2), extent(99, 1)), Ok(())),
        (
            file(0, extent(3, 2), extent(50, 1)),
            Err(LayoutFault::Outside(2)),
        ),
        (
            file(0, extent(50, 1), extent(99, 2)),
            Err(LayoutFault::Outside(2)),
        ),
        (
            file(2 * 4096 + 1, extent(50, 1), extent(60, 1)),
            Err(LayoutFault::Short(2)),
        ),
        (
            file(0, extent(50, 1), extent(80, 11)),
            Err(LayoutFault::Shared(2, 0)),
        ),
        (
            file(0, extent(50, 2), extent(51, 1)),
            Err(LayoutFault::Shared(2, 2)),
        ),
    ] {
        let entries = [before, None, other];
        equal(&rt, check(rt.alloc(), &entries, 4, 100), told);
    }
}
