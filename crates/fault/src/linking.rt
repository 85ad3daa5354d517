//! The tables on the way to a page.
ghost use Rattle.std.specs.Prelude.{◌≡◌, ◌≢◌, ◌+◌, None, Some, OnOk};
ghost use Rattle.vm_types.specs.Limits.{top_level};
ghost use Rattle.page_tables.specs.Tree.{missing_of};
ghost use Rattle.swap.specs.Slots.{IsReady};
ghost use Rattle.residency.specs.Picture.{picture_of};
ghost use Rattle.residency.specs.Parts.{IsFit, IsMapped};
ghost use Rattle.fault.specs.WaysLinked.{LinksWay, MakesWhole};

use disk_model::SectorDisk;
use memory::{link_table, table_of};
use residency::{Core, root_of};
use vm_types::{FrameNo, Levels, Pid, Stall, Vpn};

/// The way down to a page of a process, from its root table on.
#[derive(Clone, Copy)]
struct WayDown {
    pid: Pid,
    root: FrameNo,
    page: Vpn,
}

/// Makes the tables that are missing on the way to a mapped page of a live process, and returns the lowest. No process sees a change
/// (RISC-V Privileged Specification, "Virtual Address Translation Process").
///
/// # Errors
/// As `obtain`, where a table is missing and no frame is to be had for it. The tables that were made stay.
pub fn link_tables<D, E: SectorDisk, M: Levels>(
    core: &mut Core<D, E, M>,
    pid: Pid,
    page: Vpn,
) -> Result<FrameNo, Stall>
    requires fit { IsFit (picture_of core.old) }
    requires swap { IsReady E.SectorDisk core.old.swap }
    requires live { (picture_of core.old).root pid ≢ None }
    requires mapped { IsMapped (picture_of core.old) pid page }
    ensures { MakesWhole E.SectorDisk core.old core.new pid page result }
{
    let root = root_of(core, pid);
    loop {
        match table_of(&core.frames, root, page) {
            Ok(table) => return Ok(table),
            Err(_) => {
                let way = WayDown { pid, root, page };
                link_one(core, &way)?;
            }
        }
    }
}

// Links a table in the highest missing place on the way to a mapped page.
fn link_one<D, E: SectorDisk, M: Levels>(
    core: &mut Core<D, E, M>,
    way: &WayDown,
) -> Result<(), Stall>
    requires fit { IsFit (picture_of core.old) }
    requires swap { IsReady E.SectorDisk core.old.swap }
    requires lives { (picture_of core.old).root way.now.pid ≡ Some way.now.root.0 }
    requires mapped { IsMapped (picture_of core.old) way.now.pid way.now.page }
    requires missing { missing_of core.old.frames (top_level M.mode) way.now.root.0 way.now.page ≢ 0 }
    ensures links { LinksWay E.SectorDisk core.old core.new way.now.pid way.now.page result }
    ensures lowered { OnOk result (missing_of core.new.frames (top_level M.mode) way.now.root.0 way.now.page + 1 ≡ missing_of core.old.frames (top_level M.mode) way.now.root.0 way.now.page) }
{
    let table = core.take_table()?;
    link_table(&mut core.frames, way.root, way.page, table);
    Ok(())
}
