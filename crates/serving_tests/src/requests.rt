//! A process begins, maps a page, touches it and loads a byte of it; then a file is to get another length, and then comes what is no request.
ghost use Rattle.machine.specs.Machine.{IsSoundMachine};

use disk_model::{SectorDisk, SimDisk, WriteZeros};
use file_store::{FileSource, format};
use inspection::root_step;
use machine::{Config, Machine};
use runner::RunEnd;
use serving::{REQUEST_BYTES, serve};
use std::fmt::Debug;
use std::process::Abort;
use vm_types::{Mode, Pid, USER_START};

/// The page at 0x10000 is of zeros, and may be read and written. The file is to have 100 bytes.
const REQUESTS: [[u64; 9]; 6] = [
    [0, 0, 0, 0, 0, 0, 0, 0, 0],
    [3, 1, 0x10000, 4096, 3, 0, 0, 0, 1],
    [11, 1, 0x10000, 0, 0, 0, 0, 0, 0],
    [9, 1, 0x10000, 1, 0, 0, 0, 0, 0],
    [12, 0, 0, 100, 0, 0, 0, 0, 0],
    [13, 1, 0x10000, 4096, 3, 0, 0, 0, 1],
];

/// The process 1, the address, done, the byte 0 of one byte's width, `EINVAL`, since files of layout 2 keep their lengths, and that the last is no request. The
/// first ends with the root table.
const REPLIES: [[u64; 5]; 6] = [
    [0, 1, 0, 0, 0],
    [1, 0x10000, 0, 0, 0],
    [2, 0, 0, 0, 0],
    [3, 0, 1, 0, 0],
    [5, 22, 0, 0, 0],
    [8, 0, 0, 0, 0],
];

/// Ends the test where the value isn't the one that is wanted. A test that said `assert_eq!` itself would be proved to
/// end well at each place.
fn equal<T: PartialEq + Debug + Drop>(rt: &impl Abort, got: T, want: T) {
    assert_eq!(rt; got, want);
}

/// The numbers one behind the other, each of eight bytes with the low one first.
fn bytes_of(rt: &(impl AllocGlobal + Abort), numbers: &[u64]) -> Vec<u8> {
    let mut bytes = Vec::new(rt.alloc());
    for number in numbers {
        bytes
            .extend_from_slice(&number.to_le_bytes())
            .expect(rt, "memory");
    }
    bytes
}

/// The frame of the root table of process 1.
fn root<D: SectorDisk, E: SectorDisk>(rt: &impl Abort, machine: &Machine<D, E>) -> u64
    requires { IsSoundMachine D.SectorDisk E.SectorDisk machine.now }
{
    let pid = Pid::new(1).expect(rt, "1 is a process");
    let step = root_step(machine, pid, USER_START).expect(rt, "it lives");
    u64::from(step.table.0)
}

/// Serves the requests, after which comes less than one more, and sees that the replies are those.
fn is_served<D: WriteZeros, E: SectorDisk>(
    rt: &(impl AllocGlobal + Abort),
    machine: &mut Machine<D, E>,
)
    requires { IsSoundMachine D.SectorDisk E.SectorDisk machine.old }
{
    let mut requests = bytes_of(rt, REQUESTS.as_flattened());
    requests
        .extend_from_slice(&[0; REQUEST_BYTES - 1])
        .expect(rt, "memory");
    let mut replies = Vec::new(rt.alloc());
    let end = serve(machine, &mut requests.as_slice(), &mut replies);
    equal(rt, end, RunEnd::Done);
    let mut wanted = REPLIES;
    wanted[0][4] = root(rt, machine);
    let wanted = bytes_of(rt, wanted.as_flattened());
    equal(rt, replies.as_slice(), wanted.as_slice());
}

/// A device with a store of one file, of one page of zeros.
fn formatted(rt: &(impl AllocGlobal + Abort)) -> SimDisk {
    let mut disk = SimDisk::new(rt.alloc(), 8203).expect(rt, "memory");
    let mut files: [FileSource<&[u8]>; 1] = [FileSource {
        read_only: false,
        length: 4096,
        bytes: None,
    }];
    format(&mut disk, &mut files).expect(rt, "a store");
    disk
}

#[test]
fn a_page_is_mapped_and_stored_to(rt: HostRuntime) {
    let config = Config {
        frames: 16,
        slots: 16,
        mode: Mode::Sv39,
    };
    let swap = SimDisk::new(rt.alloc(), 128).expect(&rt, "memory");
    match Machine::boot(rt.alloc(), config, formatted(&rt), swap) {
        Ok(mut machine) => is_served(&rt, &mut machine),
        Err((fault, _store)) => equal(&rt, Some(fault), None),
    }
}
