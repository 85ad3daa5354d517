//! One life of a store.
ghost use Rattle.std.specs.Prelude.{◌≡◌, IfOk, IfErr, length};
ghost use Rattle.machine.specs.Boot.{BootRefuses, HasRoom};
ghost use Rattle.machine.specs.Machine.{IsSoundMachine, store_of, swap_of};
ghost use Rattle.lives.specs.Lives.{FailsToStart, RanSince};

use disk_model::{SectorDisk, WriteZeros};
use machine::{BootFault, Config, Machine};
use runner::Devices;
use std::alloc::Global;
use vm_types::{Command, Reply};

/// Boots a machine of that size on a store as a stop left it, and has it carry out commands: with whatever stop comes meanwhile,
/// that is a life. Where no machine starts, the fault is that of `Machine::boot`; on what lives left of a store, and on one that
/// has had none, it is never `BadLayout` or `BadJournal`.
pub fn live<D: WriteZeros, E: SectorDisk + Drop>(
    alloc: Global,
    config: Config,
    devices: Devices<D, E>,
    commands: &[Command],
    replies: &mut [Reply],
) -> Result<Machine<D, E>, (BootFault, D)>
    requires lengths { length replies.old ≡ length commands.now }
    ensures sound { IfOk result (λ m. IsSoundMachine D.SectorDisk E.SectorDisk m) }
    ensures room { IfOk result (λ m. HasRoom m config) }
    ensures swap_kept { IfOk result (λ m. E.keeps_model (swap_of m) → E.keeps_model devices.swap) }
    ensures lived { IfOk result (λ m. D.keeps_model (store_of m) → E.keeps_model (swap_of m)
        → RanSince D.SectorDisk E.SectorDisk devices.store m commands.now replies.new) }
    ensures refuses { IfErr result (λ e. BootRefuses D.SectorDisk config (E.sector_count devices.swap) devices.store e.0 e.1) }
    ensures fails { IfErr result (λ e. FailsToStart D.SectorDisk E.SectorDisk devices.store e.0 e.1) }
{
    let Devices { store, swap } = devices;
    let mut machine = match Machine::boot(alloc, config, store, swap) {
        Ok(machine) => machine,
        Err(fault) => return Err(fault),
    };
    machine.run(commands, replies);
    Ok(machine)
}
