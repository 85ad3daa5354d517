//! Sector 1.
use crate::bench::equal;
use directories::{Kind, KindFault};

// The kind of maps of 516 blocks and a directory of 3 pages, and what each of its numbers is read as that is out of its range.
#[test]
fn a_kind_is_written_and_read(rt: HostRuntime) {
    let kind = Kind {
        map_blocks: 516,
        directory_pages: 3,
    };
    let sector = kind.to_sector();
    equal(
        &rt,
        sector[..24] == b"FAMSYNC4\x04\x02\0\0\x03\0\0\0FAMSYNC4"[..],
        true,
    );
    for (at, byte, read) in [
        (9, 2, Ok(kind)),
        (9, 9, Err(KindFault::MapBlocks)),
        (13, 1, Err(KindFault::DirectoryPages)),
        (511, b'3', Err(KindFault::NotStamped)),
    ] {
        let mut changed = sector;
        changed[at] = byte;
        equal(&rt, Kind::parse(&changed), read);
    }
}
