//! Entries and their bytes, and where the pages of files are.
ghost use Rattle.std.specs.Prelude.{◌≤◌};

use crate::bench::equal;
use directories::{EXTENTS, Entry, EntryFault, Extent, read_entry, write_entry};

/// A file of homes 40, 41 and 12, the last of which it has in part.
fn file() -> Entry
    ensures { result.extent_count ≤ 30 }
{
    let mut extents = [Extent { first: 0, count: 0 }; EXTENTS];
    extents[0] = Extent {
        first: 40,
        count: 2,
    };
    extents[1] = Extent {
        first: 12,
        count: 1,
    };
    Entry {
        read_only: true,
        length: 8200,
        extent_count: 2,
        extents,
    }
}

#[test]
fn entries_are_written_and_read_back(rt: HostRuntime) {
    let mut page = [0xff; 4096];
    write_entry(&mut page, 3, &Some(file()));
    write_entry(&mut page, 15, &None);
    equal(
        &rt,
        page[768..792] == b"\x03\0\0\0\x02\0\0\0\x08\x20\0\0\0\0\0\0\x28\0\0\0\x02\0\0\0"[..],
        true,
    );
    for (place, read) in [
        (3, Ok(Some(file()))),
        (15, Ok(None)),
        (2, Err(EntryFault::Flags)),
    ] {
        equal(&rt, read_entry(&page, place), read);
    }
}

// An entry of no file with a byte behind, and a file of 31 extents.
#[test]
fn bytes_that_are_no_entry_are_told(rt: HostRuntime) {
    for (at, byte, fault) in [(255, 1, EntryFault::NotZero), (4, 31, EntryFault::Extents)] {
        let mut page = [0; 4096];
        page[0] = u8::from(at == 4);
        page[at] = byte;
        equal(&rt, read_entry(&page, 0), Err(fault));
    }
}

#[test]
fn pages_go_on_in_the_next_extent(rt: HostRuntime) {
    let file = file();
    equal(&rt, file.extents().len(), 2);
    for (page, home) in [
        (0, Some(40)),
        (1, Some(41)),
        (2, Some(12)),
        (3, None),
        (u64::MAX, None),
    ] {
        equal(&rt, (page, file.home_of_page(page)), (page, home));
    }
}
