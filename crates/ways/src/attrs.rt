//! What a page of a process is.
ghost use Rattle.std.specs.Prelude.{◌≡◌, false};
ghost use Rattle.inspection.specs.Machines.{memory_of};
ghost use Rattle.machine.specs.Machine.{halted_of, IsSoundMachine};

use disk_model::SectorDisk;
use machine::Machine;
use vm_types::{Attr, Pid};

/// What a page is by the runs of its process; `None` exactly where it is not mapped, or the machine has halted.
#[tactic(auto, using(crate::proofs::Runs::run_begins, crate::proofs::Runs::run_is_behind))]
pub fn attr_of<D: SectorDisk, E: SectorDisk>(
    machine: &Machine<D, E>,
    pid: Pid,
    page: u64,
) -> Option<Attr>
    requires { IsSoundMachine D.SectorDisk E.SectorDisk machine.now }
    ensures { halted_of machine.now ≡ false → result ≡ (memory_of machine.now).at pid page }
{
    match inspection::next_run(machine, pid, page) {
        Some(run) if run.first == page => Some(run.attr),
        _ => None,
    }
}
