//! The machine as a library: a byte is made durable by one machine, and found by the next one on the same device.
//!
//! A program needs `Machine::boot`, `step` and `into_store`. The devices are in memory here; over files `FileDisk::new` makes
//! them, as in `programs`. The contracts say only that a machine is sound (`IsSoundMachine`), which `boot` ensures, and `step`
//! asks for and keeps.
use crate::bench::equal;
use disk_model::{SimDisk, WriteZeros};
use file_store::{FileSource, format};
use machine::{Config, Machine};
use std::alloc::Global;
use std::test::Fail;
use vm_types::{Command, MapSource, Mode, MsyncMode, Placing, Prot, Reply, StoredValue, Width};

/// Maps the page of the file in a new process.
const MAP: Command = Command::Mmap {
    pid: 1,
    addr: 0x10000,
    len: 4096,
    prot: Prot::WRITE,
    source: MapSource::Shared { file: 0, offset: 0 },
    placing: Placing::Fixed,
};

/// Makes what was stored there durable.
const SYNC: Command = Command::Msync {
    pid: 1,
    addr: 0x10000,
    len: 4096,
    mode: MsyncMode::Sync,
};

/// Loads a byte there.
const LOAD: Command = Command::Load {
    pid: 1,
    addr: 0x10000,
    width: Width::One,
};

/// A machine of 8 frames starts on a store, with 16 slots on a device of their own, and carries out commands: the last reply, and the
/// store, given back.
fn lived<D: WriteZeros + Drop>(
    alloc: Global,
    store: D,
    commands: &[Command],
) -> Result<(Reply, D), Fail> {
    let config = Config {
        frames: 8,
        slots: 16,
        mode: Mode::Sv39,
    };
    let swap = SimDisk::new(alloc, 8 * 16)?;
    match Machine::boot(alloc, config, store, swap) {
        Ok(mut machine) => {
            let mut last = Reply::Done;
            for command in commands {
                last = machine.step(*command);
            }
            Ok((last, machine.into_store()))
        }
        Err((fault, _store)) => Err(Fail::new(format_args!("boot: {fault:?}"))),
    }
}

/// A device with a store of one file, of one page of zeros.
fn formatted(alloc: Global) -> Result<SimDisk, Fail> {
    let mut disk = SimDisk::new(alloc, 8195 + 8)?;
    let mut files: [FileSource<&[u8]>; 1] = [FileSource {
        read_only: false,
        length: 4096,
        bytes: None,
    }];
    format(&mut disk, &mut files)?;
    Ok(disk)
}

/// Whatever a stop leaves of the device once the msync was acknowledged, a machine that boots there shows the byte: here
/// nothing was lost.
#[test]
fn a_byte_outlives_its_machine(rt: HostRuntime) -> Result<(), Fail> {
    let alloc = rt.alloc();
    let stored = StoredValue::new(Width::One, 0x5a).ok_or("a byte")?;
    let store = Command::Store {
        pid: 1,
        addr: 0x10000,
        stored,
    };
    let commands = [Command::Spawn, MAP, store, SYNC];
    let (synced, disk) = lived(alloc, formatted(alloc)?, &commands)?;
    let (loaded, _disk) = lived(alloc, disk, &[Command::Spawn, MAP, LOAD])?;
    let byte = Reply::Value {
        width: Width::One,
        value: 0x5a,
    };
    equal(&rt, [synced, loaded], [Reply::Done, byte]);
    Ok(())
}
