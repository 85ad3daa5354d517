//! Another permission for the pages of a row.
ghost use Rattle.std.specs.Prelude.{◌≡◌, ◌≢◌, ◌↔◌, ℕ, ◌+◌, ◌*◌, ◌/◌, ◌<◌, ◌≤◌, ◌^◌, true};
ghost use Rattle.vm_types.specs.Limits.{top_level, user_end};
ghost use Rattle.vm_types.specs.Rows.{protected};
ghost use Rattle.frames.specs.FrameTable.{IsFrame};
ghost use Rattle.sv39_walk.specs.Entry.{frame_of};
ghost use Rattle.page_tables.specs.Tree.{IsPage};
ghost use Rattle.regions.specs.Permission.{ReadsToo};
ghost use Rattle.regions.specs.RunList.{attr_at};
ghost use Rattle.residency.specs.Picture.{picture_of, is_live, is_swapped};
ghost use Rattle.residency.specs.Parts.{IsFit};
ghost use Rattle.ranges.specs.Leaves.{TakesStores};
ghost use Rattle.ranges.specs.RowsCleared.{StandsIn};
ghost use Rattle.ranges.specs.RowsPermitted.{IsPermissible, PermitsPages, PermitsNext, PermitsPage, ReprotectsPages};
ghost use Rattle.ranges.specs.WaysPassed.{IsLinkedPart, IsUserRow};

use crate::entries::next_entry;
use crate::leaves::permitted;
use crate::rows::{LinkedPart, TableRow, next_linked, table_start, user_page};
use memory::{number_in, set_in};
use regions::Regions;
use residency::{Core, root_of};
use sv39_walk::{Pte, TABLE_ENTRIES};
use vm_types::{Levels, Pid, Prot, USER_START, Vpn};

/// Gives the `pages` pages from `first` on of a live process the permission `prot`, which allows reading what it allows writing,
/// and the process the regions that say so. A resident page stays in its frame, where it can be read and run at once, as
/// the permission says: its leaf has A, and D where it needs no further mark. It has W exactly where the permission allows
/// stores, and either the frame is the process's own and nobody else has it, or the page is a shared one; a store that finds no
/// W or no D needs a fault first. A page in a slot stays there, and its entry, which has no permission, is the same number: the
/// next access brings it back with what its region allows (mprotect(2); RISC-V Privileged Specification, "Sv39 page table
/// entry").
pub fn reprotect<D, E, M: Levels>(
    core: &mut Core<D, E, M>,
    pid: Pid,
    first: u64,
    pages: u64,
    prot: Prot,
    regions: &Regions<M>,
)
    requires fit { IsFit (picture_of core.old) }
    requires live { is_live (picture_of core.old) pid ≡ true }
    requires row { first + pages ≤ user_end M.mode }
    requires reads { ReadsToo prot }
    requires map { (page : ℕ) → attr_at regions.now page ≡ protected ((picture_of core.old).at pid) first pages prot page }
    ensures { ReprotectsPages core.old core.new pid first pages prot }
{
    let end = first + pages;
    let mut page = first.max(USER_START);
    while page < end {
        page = permit_next(core, pid, user_page::<M>(page), end, prot);
    }
    core.remap(pid, regions);
}

/// Passes the pages from `start` on, and before `end`, on whose way a table is missing, and gives the permission to the pages
/// after them whose entries stand in one table. The result is the first page past those.
fn permit_next<D, E, M: Levels>(
    core: &mut Core<D, E, M>,
    pid: Pid,
    start: Vpn,
    end: u64,
    prot: Prot,
) -> u64
    requires may { IsPermissible (picture_of core.old) pid prot }
    requires row { IsUserRow M.mode start end }
    ensures { PermitsNext core.old core.new pid start end prot result }
{
    let Some(part) = next_linked(core, pid, start, end) else {
        return end;
    };
    permit_table(core, &part, prot);
    part.end
}

/// Gives the permission to pages whose entries stand in one table. Places without an entry are passed over many at a time.
fn permit_table<D, E, M: Levels>(core: &mut Core<D, E, M>, part: &LinkedPart, prot: Prot)
    requires may { IsPermissible (picture_of core.old) part.now.pid prot }
    requires part { IsLinkedPart (picture_of core.old) part.now }
    ensures { PermitsPages core.old core.new part.now.pid part.now.first part.now.end prot }
{
    let root = root_of(core, part.pid);
    let row = TableRow {
        pid: part.pid,
        root,
        table: part.table,
        first: table_start(part.first),
    };
    let mut page = next_entry(&core.frames, part.table, part.first.get(), part.end);
    while page < part.end {
        permit_page(core, &row, user_page::<M>(page), prot);
        page = next_entry(&core.frames, part.table, page + 1, part.end);
    }
}

/// Gives the permission to a page whose entry stands in that table of a process. The entry of a page in a slot is left alone.
fn permit_page<D, E, M: Levels>(core: &mut Core<D, E, M>, row: &TableRow, page: Vpn, prot: Prot)
    requires may { IsPermissible (picture_of core.old) row.now.pid prot }
    requires row { StandsIn (picture_of core.old) row.now page }
    requires inside { IsPage (top_level M.mode) page }
    ensures { PermitsPage core.old core.new row.now page prot }
{
    let index = (page.get() % TABLE_ENTRIES) as usize;
    let number = number_in(&core.frames, row.table, index);
    if number.to_u64() == 0 {
        return;
    }
    if number.is_swapped() {
        return;
    }
    let writable = takes_stores(core, row.pid, page, number, prot);
    set_in(
        &mut core.frames,
        row.table,
        index,
        permitted(number, prot, writable),
    );
}

/// Whether a store may go to the frame that a page's entry names: the permission allows it, and either the frame is the
/// process's own and nobody else has it, or it is not, and the page is a shared one.
fn takes_stores<D, E, M: Levels>(
    core: &Core<D, E, M>,
    pid: Pid,
    page: Vpn,
    number: Pte,
    prot: Prot,
) -> bool
    requires live { is_live (picture_of core.now) pid ≡ true }
    requires named { IsFrame core.now.frames (frame_of number.0) }
    ensures { (result ≡ true) ↔ TakesStores core.now.frames ((picture_of core.now).at pid page) prot number.0 }
{
    if !prot.is_writable() {
        return false;
    }
    if number.is_private() {
        return core.frames.count(number.frame_number()) == 1;
    }
    match core.regions(pid).at(page) {
        Some(attr) => attr.backing.is_shared(),
        None => false,
    }
}
