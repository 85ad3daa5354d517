//! A process that is a copy of another.
ghost use Rattle.std.specs.Prelude.{◌≡◌, ◌≢◌, ℕ, true, false, None};
ghost use Rattle.swap.specs.Slots.{IsReady};
ghost use Rattle.residency.specs.Picture.{picture_of, is_live, view};
ghost use Rattle.residency.specs.Parts.{IsFit};
ghost use Rattle.lifecycle.specs.Lifetimes.{CopiesMap, ForksProcess};

use crate::linking::link_copies;
use crate::sharing::share_pages;
use crate::{exit, spawn};
use disk_model::SectorDisk;
use residency::Core;
use vm_types::{Levels, Pid, Stall};

/// Makes a process of the number `child`, which no live process has, that is a copy of a live one: the same pages, with the
/// same own copies (fork(2)). It takes frames for the child's tables alone, and copies no page: each own copy, in a frame or in a
/// slot, is shared until one of the two stores to it. The tables are all made before any page is shared, since frames may
/// be given up for them; no process sees that. It costs the parent's tables and their entries, whatever is mapped.
///
/// # Errors
/// As `obtain` (`ENOMEM` in fork(2)): `NoFrames` only where the tables that all processes need and those of the copy fill memory,
/// `NoSwap` only where swap is too small for the own copies and touched pages that there are, `SwapDevice` where that device fails.
/// Then there is no such process, its tables are given back, and nothing that a process or a file shows has changed.
pub fn fork<D, E: SectorDisk, M: Levels>(
    core: &mut Core<D, E, M>,
    parent: Pid,
    child: Pid,
) -> Result<(), Stall>
    requires fit { IsFit (picture_of core.old) }
    requires swap { IsReady E.SectorDisk core.old.swap }
    requires live { is_live (picture_of core.old) parent ≡ true }
    requires dead { is_live (picture_of core.old) child ≡ false }
    ensures { ForksProcess E.SectorDisk core.old core.new parent child result }
{
    spawn(core, child)?;
    map_alike(core, parent, child);
    if let Err(stall) = link_copies(core, parent, child) {
        exit(core, child);
        return Err(stall);
    }
    share_pages(core, parent, child);
    Ok(())
}

/// Maps the pages of the child, which has none, as those of the parent.
fn map_alike<D, E, M: Levels>(core: &mut Core<D, E, M>, parent: Pid, child: Pid)
    requires fit { IsFit (picture_of core.old) }
    requires parent { is_live (picture_of core.old) parent ≡ true }
    requires child { is_live (picture_of core.old) child ≡ true }
    requires apart { parent ≢ child }
    requires empty { (page : ℕ) → view (picture_of core.old) child page ≡ None }
    ensures { CopiesMap core.old core.new parent child }
{
    let regions = core.regions(parent).copied();
    core.remap(child, &regions);
}
