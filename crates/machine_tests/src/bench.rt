//! A machine over devices in memory: what is done on it, and what has to come of that.
ghost use Rattle.machine.specs.Machine.{IsSoundMachine};

use disk_model::{SectorDisk, SimDisk, WriteZeros};
use file_store::FileSource;
use machine::{BootFault, Config, Machine};
use runner::Devices;
use std::fmt::Debug;
use std::process::Abort;
use stores::{NewStore, format};
use vm_types::{
    Code, Command, Errno, Fault, MapSource, Mode, MsyncMode, Pid, Placing, Prot, Reply,
    StoredValue, Width,
};

/// Ends the test where the value isn't the one that is wanted. A test that said `assert_eq!` itself would be proved to
/// end well at each place.
pub(crate) fn equal<T: PartialEq + Debug + Drop>(rt: &impl Abort, got: T, want: T) {
    assert_eq!(rt; got, want);
}

/// A machine of the fewest frames.
pub(crate) const CONFIG: Config = Config {
    frames: 8,
    slots: 16,
    mode: Mode::Sv39,
};

/// A command of the first process, for its page at 0x10000.
#[derive(Clone, Copy)]
pub(crate) enum Call {
    Spawn,
    /// Maps the page of the file, to be read, where there is room.
    MapFile,
    /// Maps it there, to be written. Who may write may read as well.
    MapFileFixed,
    /// Maps a page of its own where there is room.
    MapOwn,
    /// Maps two of them there.
    MapTwo,
    /// Lets the page be written.
    Protect,
    Unmap,
    Store(u64),
    Load,
    Sync,
    PastFaults,
}

/// The reply that a command has to have.
#[derive(Clone, Copy)]
pub(crate) enum End {
    /// The first process.
    Spawned,
    Mapped,
    Done,
    Byte(u64),
    /// The fault of a load where no page is mapped.
    Unmapped,
    /// The fault of a store to a page that may only be read.
    Denied,
    Failed,
    Halted,
}

/// What is done on a machine, and what has to come of it.
#[derive(Clone, Copy)]
pub(crate) enum Act {
    Steps(Call, End),
    /// By the call that returns the reply in few bytes.
    CarriesOut(Call, End),
    /// Five commands at once.
    Runs([Call; 5], [End; 5]),
    /// Its history is that fault of the first process, and has no few bytes.
    KeepsUnmapped,
    /// So many accesses have found a translation kept, and it has halted or not. The store has its sectors.
    Is(u64, bool),
}

/// The first process.
pub(crate) fn first(rt: &impl Abort) -> Pid {
    Pid::new(1).expect(rt, "1 is a process")
}

fn map(addr: u64, len: u64, prot: Prot, source: MapSource, placing: Placing) -> Command {
    Command::Mmap {
        pid: 1,
        addr,
        len,
        prot,
        source,
        placing,
    }
}

pub(crate) fn command(rt: &impl Abort, call: Call) -> Command {
    let (pid, addr, len) = (1, 0x10000, 4096);
    let (own, file) = (MapSource::Anon, MapSource::Shared { file: 0, offset: 0 });
    match call {
        Call::Spawn => Command::Spawn,
        Call::MapFile => map(0, len, Prot::READ, file, Placing::Hint),
        Call::MapFileFixed => map(addr, len, Prot::WRITE, file, Placing::Fixed),
        Call::MapOwn => map(0, 1, Prot::READ | Prot::WRITE, own, Placing::Hint),
        Call::MapTwo => map(addr, 8192, Prot::READ | Prot::WRITE, own, Placing::Fixed),
        Call::Protect => {
            let prot = Prot::WRITE;
            Command::Mprotect {
                pid,
                addr,
                len,
                prot,
            }
        }
        Call::Unmap => Command::Munmap { pid, addr, len },
        Call::Store(byte) => {
            let stored = StoredValue::new(Width::One, byte).expect(rt, "a byte");
            Command::Store { pid, addr, stored }
        }
        Call::Load => {
            let width = Width::One;
            Command::Load { pid, addr, width }
        }
        Call::Sync => {
            let mode = MsyncMode::Sync;
            Command::Msync {
                pid,
                addr,
                len,
                mode,
            }
        }
        Call::PastFaults => Command::PastFaults,
    }
}

/// The fault of a load where no page is mapped.
const UNMAPPED: Fault = Fault {
    cause: 13,
    code: Code::SegvMaperr,
    addr: 0x10000,
};

/// The fault of a store to a page that may only be read.
const DENIED: Fault = Fault {
    cause: 15,
    code: Code::SegvAccerr,
    addr: 0x10000,
};

pub(crate) fn reply(rt: &impl Abort, end: End) -> Reply {
    match end {
        End::Spawned => Reply::Process(first(rt)),
        End::Mapped => Reply::Address(0x10000),
        End::Done => Reply::Done,
        End::Byte(value) => {
            let width = Width::One;
            Reply::Value { width, value }
        }
        End::Unmapped => Reply::Faulted(UNMAPPED),
        End::Denied => Reply::Faulted(DENIED),
        End::Failed => Reply::Refused(Errno::EIO),
        End::Halted => Reply::Halted,
    }
}

/// Carries out five commands at once.
fn run<D: WriteZeros, E: SectorDisk>(
    rt: &impl Abort,
    machine: &mut Machine<D, E>,
    calls: [Call; 5],
    ends: [End; 5],
)
    requires { IsSoundMachine D.SectorDisk E.SectorDisk machine.old }
    ensures { IsSoundMachine D.SectorDisk E.SectorDisk machine.new }
{
    let commands = calls.map(|call| command(rt, call));
    let mut replies = [Reply::Halted; 5];
    machine.run(&commands, &mut replies);
    equal(rt, replies, ends.map(|end| reply(rt, end)));
}

/// Sees that the history is that fault of the first process, and that only `step` replies with it.
fn keeps_unmapped<D: WriteZeros, E: SectorDisk>(rt: &impl Abort, machine: &mut Machine<D, E>)
    requires { IsSoundMachine D.SectorDisk E.SectorDisk machine.old }
    ensures { IsSoundMachine D.SectorDisk E.SectorDisk machine.new }
{
    let history = machine.history();
    equal(rt, history.as_slice(), [(first(rt), UNMAPPED)].as_slice());
    equal(rt, machine.step(Command::PastFaults), Reply::Past(history));
    equal(rt, machine.carry_out(Command::PastFaults), None);
}

fn carry_out_one<D: WriteZeros, E: SectorDisk>(
    rt: &impl Abort,
    machine: &mut Machine<D, E>,
    act: Act,
)
    requires { IsSoundMachine D.SectorDisk E.SectorDisk machine.old }
    ensures { IsSoundMachine D.SectorDisk E.SectorDisk machine.new }
{
    match act {
        Act::Steps(call, end) => equal(rt, machine.step(command(rt, call)), reply(rt, end)),
        Act::CarriesOut(call, end) => {
            let answer = machine.carry_out(command(rt, call));
            equal(rt, answer.map(|a| a.reply()), Some(reply(rt, end)));
        }
        Act::Runs(calls, ends) => run(rt, machine, calls, ends),
        Act::KeepsUnmapped => keeps_unmapped(rt, machine),
        Act::Is(hits, is_halted) => equal(
            rt,
            (
                machine.hits(),
                machine.is_halted(),
                machine.store().sectors(),
            ),
            (hits, is_halted, 8203),
        ),
    }
}

pub(crate) fn carry_out<D: WriteZeros, E: SectorDisk>(
    rt: &impl Abort,
    machine: &mut Machine<D, E>,
    acts: &[Act],
)
    requires { IsSoundMachine D.SectorDisk E.SectorDisk machine.old }
    ensures { IsSoundMachine D.SectorDisk E.SectorDisk machine.new }
{
    for act in acts {
        carry_out_one(rt, machine, *act);
    }
}

/// Starts a machine, and does that on it: why it did not start, if so, and the store as it is given back.
pub(crate) fn lived<D: WriteZeros, E: SectorDisk + Drop>(
    rt: &(impl AllocGlobal + Abort),
    config: Config,
    devices: Devices<D, E>,
    acts: &[Act],
) -> (Option<BootFault>, D) {
    let Devices { store, swap } = devices;
    match Machine::boot(rt.alloc(), config, store, swap) {
        Ok(mut machine) => {
            carry_out(rt, &mut machine, acts);
            (None, machine.into_store())
        }
        Err((fault, store)) => (Some(fault), store),
    }
}

/// What a device holds: nothing, or a store of one file of one page of zeros, with one journal.
#[derive(Clone, Copy)]
pub(crate) enum Contents {
    Nothing,
    Store,
}

/// What a stop leaves of a device.
pub(crate) fn left(
    rt: &(impl AllocGlobal + Abort),
    disk: &SimDisk,
    gate: &[(u64, [u8; 512])],
) -> SimDisk {
    disk.left(rt.alloc(), gate).expect(rt, "memory")
}

/// The same of one that holds this.
pub(crate) fn image(rt: &(impl AllocGlobal + Abort), contents: Contents) -> SimDisk {
    let mut disk = SimDisk::new(rt.alloc(), 8203).expect(rt, "memory");
    let mut files: [FileSource<&[u8]>; 1] = [FileSource {
        read_only: false,
        length: 4096,
        bytes: None,
    }];
    let made = match contents {
        Contents::Nothing => Ok(()),
        Contents::Store => format(&mut disk, NewStore::Journal, &mut files),
    };
    made.expect(rt, "a store");
    left(rt, &disk, &[])
}

/// That store, and slots on so many sectors.
pub(crate) fn with_swap(
    rt: &(impl AllocGlobal + Abort),
    store: SimDisk,
    sectors: u64,
) -> Devices<SimDisk, SimDisk> {
    let swap = SimDisk::new(rt.alloc(), sectors).expect(rt, "memory");
    Devices { store, swap }
}
