//! The directory that the tests change.
use directories::{EXTENTS, Entry, Extent};

/// A file of so many pages, of two extents: their first homes, and how many homes they have.
pub(crate) fn file(pages: u32, first: (u32, u32), second: (u32, u32)) -> Option<Entry> {
    let mut extents = [Extent { first: 0, count: 0 }; EXTENTS];
    extents[0] = extent(first);
    extents[1] = extent(second);
    Some(Entry {
        read_only: false,
        length: 4096 * u64::from(pages),
        extent_count: 2,
        extents,
    })
}

/// File 0 of `files` of so many pages, with a third extent.
pub(crate) fn with_third(pages: u32, third: (u32, u32)) -> Option<Entry> {
    let mut extents = [Extent { first: 0, count: 0 }; EXTENTS];
    extents[0] = extent((4, 4));
    extents[1] = extent((90, 1));
    extents[2] = extent(third);
    Some(Entry {
        read_only: false,
        length: 4096 * u64::from(pages),
        extent_count: 3,
        extents,
    })
}

fn extent(homes: (u32, u32)) -> Extent {
    Extent {
        first: homes.0,
        count: homes.1,
    }
}

/// Of 100 homes the first four are the directory's: file 0 has homes 4 to 7 and 90, file 2 homes 8 and 9, and there is no file 1.
pub(crate) fn files() -> [Option<Entry>; 3] {
    [file(5, (4, 4), (90, 1)), None, file(2, (8, 1), (9, 1))]
}

/// Files that lie in falling order: between their extents there are gaps of 2, 3, 5, 7 and 6 homes, and their last home is 69.
pub(crate) fn falling() -> [Option<Entry>; 3] {
    [
        file(12, (61, 9), (52, 3)),
        file(17, (35, 10), (23, 7)),
        file(14, (12, 8), (4, 6)),
    ]
}
