//! Room for a file that grows.
use crate::bench::equal;
use crate::files::{falling, file, files, with_third};
use directories::{EXTENTS, Entry, Extent};
use growth::{Change, Homes, resize, widen};

/// File 0 with room for so many pages, where a change gives file 1 homes 20 to 25.
fn wider(count: u64, first: u32, end: u32) -> Option<Entry> {
    let before = files();
    let changes = [Change {
        file: 1,
        entry: file(6, (20, 6), (0, 0)),
    }];
    let Some(entry) = before[0] else {
        return None;
    };
    widen(&before, &changes, &entry, count, Homes { first, end })
}

/// File 0 where it gets a length of so many bytes, and a change gives file 1 homes 20 to 25: its length, how many homes it has, and that of this page.
fn resized(bytes: u64, page: u64) -> Option<(u64, u64, Option<u64>)> {
    let before = files();
    let changes = [Change {
        file: 1,
        entry: file(6, (20, 6), (0, 0)),
    }];
    let Some(entry) = before[0] else {
        return None;
    };
    let room = Homes { first: 4, end: 200 };
    match resize(&before, &changes, &entry, bytes, room) {
        Some(now) => Some((now.length, now.homes(), now.home_of_page(page))),
        None => None,
    }
}

// As it was; behind all that is in use 64 homes, or what is missing; 64 in a gap; what is missing alone behind all, and in a gap; nowhere.
#[test]
fn room_is_found(rt: HostRuntime) {
    for (count, first, end, found) in [
        (5, 4, 1000, files()[0]),
        (6, 4, 1000, with_third(5, (91, 64))),
        (100, 4, 1000, with_third(5, (91, 95))),
        (6, 4, 120, with_third(5, (26, 64))),
        (6, 30, 120, with_third(5, (91, 1))),
        (20, 30, 100, with_third(5, (30, 15))),
        (15, 4, 30, with_third(5, (10, 10))),
        (70, 4, 100, None),
    ] {
        equal(&rt, (count, wider(count, first, end)), (count, found));
    }
}

/// The first home and the number of homes of the extent that file 1 of `falling` gets for so many homes in all, where two homes are behind
/// all that are in use.
fn found_among_falling(count: u64) -> Option<(u32, u32)> {
    let before = falling();
    let Some(entry) = before[1] else {
        return None;
    };
    let room = Homes { first: 4, end: 72 };
    match widen(&before, &[], &entry, count, room) {
        Some(wider) => Some((wider.extents[2].first, wider.extents[2].count)),
        None => None,
    }
}

// Behind all that is in use; in the first gap that has as many, behind some that have fewer; nowhere.
#[test]
fn gaps_are_found_among_files_in_falling_order(rt: HostRuntime) {
    for (count, found) in [
        (19, Some((70, 2))),
        (20, Some((20, 3))),
        (21, Some((30, 4))),
        (22, Some((30, 5))),
        (23, Some((45, 6))),
        (24, Some((45, 7))),
        (25, None),
    ] {
        equal(&rt, (count, found_among_falling(count)), (count, found));
    }
}

// Nothing; the first extent alone; both; a third one behind all that is in use; nowhere.
#[test]
fn lengths_need_extents(rt: HostRuntime) {
    for (bytes, page, found) in [
        (0, 0, Some((0, 0, None))),
        (16384, 3, Some((16384, 4, Some(7)))),
        (16385, 4, Some((16385, 5, Some(90)))),
        (20481, 5, Some((20481, 69, Some(91)))),
        (1_000_000, 0, None),
    ] {
        equal(&rt, (bytes, resized(bytes, page)), (bytes, found));
    }
}

#[test]
fn no_room_is_left_behind_thirty_extents(rt: HostRuntime) {
    let full = Entry {
        read_only: true,
        length: 0,
        extent_count: 30,
        extents: [Extent { first: 0, count: 0 }; EXTENTS],
    };
    let room = Homes {
        first: 4,
        end: 1000,
    };
    equal(&rt, widen(&[], &[], &full, 0, room), Some(full));
    equal(&rt, widen(&[], &[], &full, 1, room), None);
}
