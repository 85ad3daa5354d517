//! A whole run, from a store that a stop has left to the end of a trace.
ghost use Rattle.std.specs.Prelude.{◌≡◌, IfOk, IfErr, OnErr};
ghost use Rattle.machine.specs.Boot.{BootLeaves, BootRefuses};
ghost use Rattle.machine.specs.Machine.{IsSoundMachine};
ghost use Rattle.runner.specs.Starting.{RunsOn};
ghost use Rattle.runner.specs.Trace.{streams};

use crate::engine::{RunEnd, run};
use disk_model::{SectorDisk, WriteZeros};
use machine::{BootFault, Config, Machine};
use std::alloc::Global;
use std::io::{Read, Write};

/// The devices of a machine: that of its store, and that which it swaps to.
pub struct Devices<D, E> {
    pub store: D,
    pub swap: E,
}

/// Boots a machine on a store device as a stop left it, or as whoever had it last in this program, who may have left writes
/// unsynced, runs the trace of `reader` on it, gives the replies to `writer`, and hands the machine back with how the run
/// ended (`run`).
///
/// Where the machine does not start, nothing was read or written, and the store device is handed back with the fault:
/// `Frames`, `Slots`, `BadLayout` and `BadJournal` exactly where the sizes or the image are so, in this order, unless another
/// fault comes first; `Device` exactly where the store device failed; `OutOfMemory` for want of memory (`Machine::boot`).
pub fn run_on<R: Read, W: Write, D: WriteZeros, E: SectorDisk + Drop>(
    alloc: Global,
    config: Config,
    devices: Devices<D, E>,
    reader: &mut R,
    writer: &mut W,
) -> Result<(RunEnd, Machine<D, E>), (BootFault, D)>
    ensures sound { IfOk result (λ r. IsSoundMachine D.SectorDisk E.SectorDisk r.1) }
    ensures booted { IfOk result (λ r. RunsOn D.SectorDisk E.SectorDisk config devices.store devices.swap r.0 r.1
        (streams (R.remaining reader.old) (W.contents writer.old)) (streams (R.remaining reader.new) (W.contents writer.new))) }

    ensures unread { OnErr result (R.remaining reader.new ≡ R.remaining reader.old) }
    ensures no_reply { OnErr result (W.contents writer.new ≡ W.contents writer.old) }
    // Why no machine started, and what it left of the store device, at its end and at any moment.
    ensures refuses { IfErr result (λ e. BootRefuses D.SectorDisk config (E.sector_count devices.swap) devices.store e.0 e.1) }
    ensures err_moments { IfErr result (λ e. BootLeaves D.SectorDisk devices.store e.1) }
{
    let Devices { store, swap } = devices;
    let mut machine = match Machine::boot(alloc, config, store, swap) {
        Ok(machine) => machine,
        Err(fault) => return Err(fault),
    };
    let end = run(reader, writer, &mut machine);
    Ok((end, machine))
}
