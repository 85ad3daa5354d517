//! Where page tables stand in the trees of the processes.
ghost use Rattle.std.specs.Prelude.{◌≡◌, ◌<◌, ◌≤◌, true, IfSome, IfNone};
ghost use Rattle.vm_types.specs.Limits.{top_level};
ghost use Rattle.page_tables.specs.Tree.{IsPage, IsTable};
ghost use Rattle.residency.specs.Picture.{picture_of, is_live};
ghost use Rattle.residency.specs.Parts.{IsFit, IsRootedBut};
ghost use Rattle.inspection.specs.Tables.{HaveOneWay, IsOffWay, IsOutOf, IsPlaceOf};

use crate::pages::next_run;
use crate::walks::{next_step, root_step};
use ranges::{entry_pages, gap_end, table_end, user_page};
use residency::Core;
use vm_types::{FrameNo, Levels, PROCESSES, Pid, Vpn};

/// Where a table stands in the tree of a process.
#[derive(Clone, Copy, Debug, PartialEq, Eq)]
pub struct TablePlace {
    pub pid: Pid,
    /// The table's level: 0 is the lowest.
    pub level: u32,
    /// The first page of those on whose way it is.
    pub first: u64,
}

/// Where the table in frame `n` stands; `None` exactly where that frame has no table.
pub(crate) fn place_of_table<D, E, M: Levels>(
    core: &Core<D, E, M>,
    n: FrameNo,
) -> Option<TablePlace>
    requires fit { IsFit (picture_of core.now) }
    ensures some { IfSome result (IsPlaceOf (picture_of core.now) n.0) }
    ensures none { IfNone result (IsTable core.now.frames n.0 → ⊥) }
{
    for number in 1..PROCESSES as u64 + 1 {
        if let Some(place) = place_in_tree(core, number, n) {
            return Some(place);
        }
    }
    None
}

// The same in the tree of the process of that number, where it lives.
fn place_in_tree<D, E, M: Levels>(
    core: &Core<D, E, M>,
    number: u64,
    n: FrameNo,
) -> Option<TablePlace>
    requires fit { IsFit (picture_of core.now) }
    ensures some { IfSome result (IsPlaceOf (picture_of core.now) n.0) }
    ensures none { IfNone result (IsOutOf (picture_of core.now) number n.0) }
{
    let pid = core.live(number)?;
    // (the root is on the way to any page)
    if let Some(place) = place_on_way(core, pid, 0, n) {
        return Some(place);
    }
    let mut low = 0;
    while let Some(run) = next_run(core, pid, low) {
        let page = user_page::<M>(run.first);
        if let Some(place) = place_on_way(core, pid, page.get(), n) {
            return Some(place);
        }
        low = way_end(core, pid, page);
    }
    None
}

// The same on the way to one page.
fn place_on_way<D, E, M: Levels>(
    core: &Core<D, E, M>,
    pid: Pid,
    page: u64,
    n: FrameNo,
) -> Option<TablePlace>
    requires fit { IsFit (picture_of core.now) }
    requires inside { IsPage (top_level M.mode) page }
    ensures some { IfSome result (IsPlaceOf (picture_of core.now) n.0) }
    ensures none { IfNone result (IsOffWay (picture_of core.now) pid page n.0) }
{
    let mut step = root_step(core, pid, page)?;
    while step.table != n {
        step = next_step(core, page, step)?;
    }
    let span = entry_pages(step.level + 1);
    Some(TablePlace {
        pid,
        level: step.level,
        first: page / span * span,
    })
}

// The first page past those whose way goes through the same tables.
fn way_end<D, E, M: Levels>(core: &Core<D, E, M>, pid: Pid, page: Vpn) -> u64
    requires rooted { IsRootedBut (picture_of core.now) 0 }
    requires live { is_live (picture_of core.now) pid ≡ true }
    ensures further { page < result }
    ensures one_way { HaveOneWay (picture_of core.now) pid page result }
{
    match gap_end(core, pid, page) {
        Some(end) => end,
        None => table_end(page),
    }
}
