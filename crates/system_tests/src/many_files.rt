//! A file whose number is past those that a new store's directory has places for.
use crate::bench::{Armed, CONFIG, GOES_ON, image, left_over};
use disk_model::{SectorDisk, SimDisk};
use std::process::Abort;
use stores::NewStore;

/// The first sector of home 0, and so of the directory, of a store with maps of one block.
const DIRECTORY: u64 = 8096;

/// The sector of entry 4 of directory page 6, which is that of file 100.
const ENTRY_100: u64 = DIRECTORY + 8 * 6 + 2;

fn put(rt: &impl Abort, disk: &mut SimDisk, sector: u64, bytes: &[u8; 512]) {
    assert!(rt; sector < disk.sectors());
    disk.write(sector, bytes).expect(rt, "a write");
}

/// An image of one file, number 100, of a page of zeros in home 8. A new image's directory has 4 pages: this one's has 8, the last four of which were pages
/// of zeros of a file.
fn image_of_file_100(rt: &(impl AllocGlobal + Abort)) -> SimDisk {
    let mut disk = image(rt, NewStore::Pool(1), 5 * 4096, None);
    let mut kind = [0; 512];
    assert!(rt; disk.sectors() > 1);
    disk.read(1, &mut kind).expect(rt, "a kind");
    kind[12] = 8;
    put(rt, &mut disk, 1, &kind);
    put(rt, &mut disk, DIRECTORY, &[0; 512]);
    // A file, of one extent, of 4,096 bytes, which begins at home 8 and has one.
    let mut entry = [0; 512];
    (entry[0], entry[4], entry[9], entry[16], entry[20]) = (1, 1, 16, 8, 1);
    put(rt, &mut disk, ENTRY_100, &entry);
    disk.sync().expect(rt, "a sync");
    disk
}

/// Maps it, stores to it and makes that durable; a machine that starts on what is left then shows it.
#[test]
fn a_file_past_the_first_64_is_like_any_other(rt: HostRuntime) {
    let image = image_of_file_100(&rt);
    let run = (CONFIG, Armed::Nothing);
    let stored = (
        b"spawn\nmmap 1 0 4096 rw- shared 100 0\nstore 1 0x10000 1 0x5a\nmsync 1 0x10000 4096 sync\nmmap 1 0 4096 r-- shared 0 0\n".as_slice(),
        b"pid 1\naddr 0x10000\nok\nok\nerror 9 EBADF\n".as_slice(),
    );
    let left = left_over(&rt, &image, run, stored, GOES_ON);
    let seen = (
        b"spawn\nmmap 1 0 4096 r-- private 100 0\nload 1 0x10000 1\n".as_slice(),
        b"pid 1\naddr 0x10000\nvalue 0x5a\n".as_slice(),
    );
    left_over(&rt, &left, run, seen, GOES_ON);
}
