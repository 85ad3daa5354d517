//! Devices in memory and in a file.
use crate::bench::{equal, expect, holds, left};
use disk_model::{FileDisk, SectorDisk, SimDisk};
use std::fs::{self, File, OpenOptions};
use std::process::Abort;

const FOLDER: &str = "store_tests_disk";

const PATH: &str = "store_tests_disk/image";

/// A call of a device: of the sector or of the page that begins there, each byte of which is this one.
#[derive(Clone, Copy, Debug)]
enum Call {
    Write(u64, u8),
    WritePage(u64, u8),
    Read(u64, u8),
    ReadPage(u64, u8),
    Sync,
}

/// Whether the device has this sector, and a read of it gives that byte.
fn reads<D: SectorDisk>(disk: &mut D, n: u64, byte: u8) -> bool {
    let mut bytes = [0; 512];
    n < disk.sectors() && disk.read(n, &mut bytes).is_ok() && bytes == [byte; 512]
}

/// Whether the device has these sectors, the call succeeds, and a read gives that byte.
fn succeeds<D: SectorDisk>(disk: &mut D, call: Call) -> bool {
    let sectors = disk.sectors();
    match call {
        Call::Write(n, byte) => n < sectors && disk.write(n, &[byte; 512]).is_ok(),
        Call::WritePage(n, byte) => {
            n < 100 && n + 8 <= sectors && disk.write_page(n, &[byte; 4096]).is_ok()
        }
        Call::Read(n, byte) => reads(disk, n, byte),
        Call::ReadPage(n, byte) => {
            let mut bytes = [0; 4096];
            n < 100
                && n + 8 <= sectors
                && disk.read_page(n, &mut bytes).is_ok()
                && bytes == [byte; 4096]
        }
        Call::Sync => disk.sync().is_ok(),
    }
}

/// Sees that these calls succeed, or fail where that is said.
fn run<D: SectorDisk>(rt: &impl Abort, disk: &mut D, calls: &[(Call, bool)]) {
    for (call, wanted) in calls {
        let is_answered = succeeds(disk, *call) == *wanted;
        assert!(rt; is_answered, "{call:?} is not answered so");
    }
}

/// Calls of a device that does what it is told to.
const CALLS: [(Call, bool); 8] = [
    (Call::Write(3, 1), true),
    (Call::Sync, true),
    (Call::WritePage(2, 7), true),
    (Call::Read(1, 0), true),
    (Call::Read(2, 7), true),
    (Call::Read(9, 7), true),
    (Call::Read(10, 0), true),
    (Call::ReadPage(2, 7), true),
];

/// Calls of one that stops at its third write.
const STOPPED: [(Call, bool); 6] = [
    (Call::Write(0, 1), true),
    (Call::Sync, true),
    (Call::Write(1, 2), true),
    (Call::Write(2, 3), false),
    (Call::Read(0, 1), false),
    (Call::Sync, false),
];

/// Calls of one whose first call fails.
const FAILED: [(Call, bool); 3] = [
    (Call::Write(0, 1), false),
    (Call::Read(0, 0xee), true),
    (Call::Write(0, 1), true),
];

#[test]
fn a_device_in_memory_stops_and_fails_where_it_is_told_to(rt: HostRuntime) {
    let mut disk = SimDisk::new(rt.alloc(), 12).expect(&rt, "memory");
    run(&rt, &mut disk, &CALLS);
    equal(&rt, (disk.calls(), disk.writes(), disk.syncs()), (22, 9, 1));
    // Sector 1 was not written; of two choices for sector 2 the first counts; sector 3 has what was last synced.
    let chosen = [(1, [9; 512]), (2, [4; 512]), (2, [5; 512])];
    let wanted = [(1, [0; 512]), (2, [4; 512]), (3, [1; 512]), (4, [0; 512])];
    let after = left(&rt, &disk, &chosen);
    expect(&rt, holds(&after, &wanted), "what a stop leaves");

    let mut disk = SimDisk::new(rt.alloc(), 12).expect(&rt, "memory");
    disk.stop_at(3);
    run(&rt, &mut disk, &STOPPED);
    let wanted = [(0, [1; 512]), (1, [0; 512]), (2, [4; 512])];
    let after = left(&rt, &disk, &[(2, [4; 512])]);
    expect(
        &rt,
        holds(&after, &wanted),
        "what the stop at a write leaves",
    );

    let mut disk = SimDisk::new(rt.alloc(), 12).expect(&rt, "memory");
    disk.fail_at(1);
    run(&rt, &mut disk, &FAILED);
    disk.fail_at(4);
    run(&rt, &mut disk, &[(Call::Sync, false)]);
    // The failed sync kept nothing for certain.
    let after = left(&rt, &disk, &[]);
    expect(
        &rt,
        holds(&after, &[(0, [0; 512])]),
        "what a failed sync leaves",
    );
    disk.fail_at(5);
    let calls = [(Call::Read(0, 1), false), (Call::Sync, true)];
    run(&rt, &mut disk, &calls);
    let after = left(&rt, &disk, &[]);
    expect(&rt, holds(&after, &[(0, [1; 512])]), "what a sync leaves");
}

/// Calls of a device in a file that may be written.
const WRITTEN: [(Call, bool); 3] = [
    (Call::WritePage(3, 5), true),
    (Call::Write(11, 2), true),
    (Call::Sync, true),
];

/// Calls of one that may only be read.
const READ: [(Call, bool); 5] = [
    (Call::Read(2, 0), true),
    (Call::Read(10, 5), true),
    (Call::Read(11, 2), true),
    (Call::ReadPage(3, 5), true),
    (Call::Write(0, 1), false),
];

#[test]
fn a_device_in_a_file_keeps_what_was_written(rt: HostRuntime) {
    let _ = fs::remove_dir_all(&rt, FOLDER);
    fs::create_dir(&rt, FOLDER).expect(&rt, "a folder");
    let file = OpenOptions::new()
        .read(true)
        .write(true)
        .create(true)
        .open(&rt, PATH)
        .expect(&rt, "a file");
    // The last bytes are no sector.
    file.set_len(12 * 512 + 100).expect(&rt, "a length");
    let mut disk: FileDisk = FileDisk::new(file).expect(&rt, "a device");
    equal(&rt, disk.sectors(), 12);
    equal(&rt, [disk.is_settled(), disk.is_written()], [true, false]);
    run(&rt, &mut disk, &WRITTEN);
    equal(&rt, disk.is_written(), true);
    drop(disk);

    // It is opened for reading alone, and then cut.
    let file = File::open(&rt, PATH).expect(&rt, "the file");
    let mut again: FileDisk = FileDisk::new(file).expect(&rt, "the device");
    equal(&rt, again.sectors(), 12);
    run(&rt, &mut again, &READ);
    fs::write(&rt, PATH, b"short".as_slice()).expect(&rt, "a cut file");
    run(&rt, &mut again, &[(Call::Read(3, 5), false)]);
    fs::remove_dir_all(&rt, FOLDER).expect(&rt, "no folder");
}
