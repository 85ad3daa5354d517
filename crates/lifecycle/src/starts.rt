//! A process comes.
ghost use Rattle.std.specs.Prelude.{◌≡◌, false};
ghost use Rattle.swap.specs.Slots.{IsReady};
ghost use Rattle.residency.specs.Picture.{picture_of, is_live};
ghost use Rattle.residency.specs.Parts.{IsFit};
ghost use Rattle.lifecycle.specs.Lifetimes.{StartsProcess};

use disk_model::SectorDisk;
use residency::Core;
use vm_types::{Levels, Pid, Stall};

/// Makes a process of that number, which no live process has, without a page (our choice: there is no process to copy at
/// first). It takes one frame, for the root of its tables; where none is free another is given up for it.
///
/// # Errors
/// As `obtain` (`ENOMEM` in fork(2)). Then there is no such process, and nothing that a process or a file shows has changed.
pub fn spawn<D, E: SectorDisk, M: Levels>(core: &mut Core<D, E, M>, pid: Pid) -> Result<(), Stall>
    requires fit { IsFit (picture_of core.old) }
    requires swap { IsReady E.SectorDisk core.old.swap }
    requires dead { is_live (picture_of core.old) pid ≡ false }
    ensures { StartsProcess E.SectorDisk core.old core.new pid result }
{
    let root = core.take_table()?;
    core.add_process(pid, root);
    Ok(())
}
