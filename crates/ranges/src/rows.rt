//! Rows of pages, and the tables that their entries stand in.
ghost use Rattle.std.specs.Prelude.{◌≡◌, ◌≢◌, ℕ, ◌<◌, ◌≤◌, ◌+◌, ◌*◌, ◌/◌, ◌^◌, true, IfNone, IfSome};
ghost use Rattle.vm_types.specs.Limits.{top_level, user_start, user_end, table_entries};
ghost use Rattle.page_tables.specs.Tree.{IsForest, IsPage, IsRoot};
ghost use Rattle.regions.specs.RunList.{attr_at};
ghost use Rattle.residency.specs.Picture.{picture_of, is_live, entry};
ghost use Rattle.residency.specs.Parts.{IsFit, IsRootedBut};
ghost use Rattle.residency.specs.Ways.{IsWhole};
ghost use Rattle.ranges.specs.Rows.{IsUnmapped, IsNextPart};
ghost use Rattle.ranges.specs.Steps.{IsGapEnd};
ghost use Rattle.ranges.specs.WaysPassed.{FindsLinked, FindsPart, HaveNoWholeWay, IsUserRow, PassesGap};

use crate::entries::next_set;
use memory::{Memory, last_table};
use regions::Regions;
use residency::{Core, root_of};
use sv39_walk::TABLE_ENTRIES;
use vm_types::{FrameNo, Levels, Pid, Vpn};

/// Pages of a row, from a mapped one up to, not including, `end`.
#[derive(Clone, Copy)]
pub(crate) struct Part {
    pub(crate) first: Vpn,
    pub(crate) end: u64,
}

/// Pages of a process from `first` up to, not including, `end`, whose entries stand in the lowest table `table`.
#[derive(Clone, Copy)]
pub struct LinkedPart {
    pub pid: Pid,
    pub first: Vpn,
    pub end: u64,
    pub table: FrameNo,
}

/// A row of 512 pages of a process whose entries stand in one lowest table of the tree of `root`. It begins with the page `first`.
#[derive(Clone, Copy)]
pub(crate) struct TableRow {
    pub(crate) pid: Pid,
    pub(crate) root: FrameNo,
    pub(crate) table: FrameNo,
    pub(crate) first: u64,
}

/// The user page of that number, from 16 up to, not including, the end of the mode's user pages.
pub fn user_page<M: Levels>(number: u64) -> Vpn
    requires low { user_start ≤ number }
    requires high { number < user_end M.mode }
    ensures { result ≡ number }
{
    let Some(page) = Vpn::new::<M>(number) else {
        unreachable!();
    };
    page
}

/// The first page of the same lowest table; it can lie before the user pages.
pub fn table_start(page: Vpn) -> u64
    ensures { result ≡ page / table_entries * table_entries }
{
    page.get() / TABLE_ENTRIES * TABLE_ENTRIES
}

/// The first page past those of the same lowest table; it can lie one past the user pages.
pub fn table_end(page: Vpn) -> u64
    ensures { result ≡ (page / table_entries + 1) * table_entries }
{
    (page.get() / TABLE_ENTRIES + 1) * TABLE_ENTRIES
}

/// How many pages stand in the place of one entry of a table of that level, 0 to 4: 512 to the power of the level.
pub fn entry_pages(level: u32) -> u64
    requires { level ≤ 4 }
    ensures { result ≡ table_entries ^ level }
{
    match level {
        0 => 1,
        1 => TABLE_ENTRIES,
        2 => TABLE_ENTRIES * TABLE_ENTRIES,
        3 => TABLE_ENTRIES * TABLE_ENTRIES * TABLE_ENTRIES,
        _ => TABLE_ENTRIES * TABLE_ENTRIES * TABLE_ENTRIES * TABLE_ENTRIES,
    }
}

/// The first page past those that stand in the place of the same entry of a table of that level; it can lie past the user pages.
pub(crate) fn span_end(page: Vpn, level: u32) -> u64
    requires { level ≤ 4 }
    ensures { result ≡ (page / table_entries ^ level + 1) * table_entries ^ level }
{
    let span = entry_pages(level);
    (page.get() / span + 1) * span
}

/// Where a table is missing on the way to a page of a live process, the first page past those that have no entry for that
/// reason, which can lie past the user pages; `None` where none is missing. So a search over a row of pages goes from table
/// to table (RISC-V Privileged Specification, "Virtual Address Translation Process").
pub fn gap_end<D, E, M: Levels>(core: &Core<D, E, M>, pid: Pid, page: Vpn) -> Option<u64>
    requires rooted { IsRootedBut (picture_of core.now) 0 }
    requires live { is_live (picture_of core.now) pid ≡ true }
    ensures whole { IfNone result (IsWhole (picture_of core.now) pid page) }
    ensures further { IfSome result (λ end. page < end) }
    ensures end { IfSome result (IsGapEnd (picture_of core.now) pid page) }
    ensures gap { IfSome result (λ end. (p : ℕ) → page ≤ p → p < end → entry (picture_of core.now) pid p ≡ 0) }
{
    let root = root_of(core, pid);
    let (missing, _) = last_table(&core.frames, root, page);
    if missing == 0 {
        return None;
    }
    Some(span_end(page, missing))
}

/// The next pages of a live process from `page` on, and before `end`, whose entries stand in one lowest table; `None` where a table is
/// missing on the way to each. What the missing tables would hold costs the entries of the tables above them, which are read many
/// at a time (RISC-V Privileged Specification, "Virtual Address Translation Process").
pub(crate) fn next_linked<D, E, M: Levels>(
    core: &Core<D, E, M>,
    pid: Pid,
    page: Vpn,
    end: u64,
) -> Option<LinkedPart>
    requires rooted { IsRootedBut (picture_of core.now) 0 }
    requires live { is_live (picture_of core.now) pid ≡ true }
    requires row { IsUserRow M.mode page end }
    ensures none { IfNone result (HaveNoWholeWay (picture_of core.now) pid page end) }
    ensures some { IfSome result (FindsLinked (picture_of core.now) pid page end) }
{
    let root = root_of(core, pid);
    let mut at = page.get();
    while at < end {
        let first = user_page::<M>(at);
        match linked_table(&core.frames, root, first, end) {
            Ok(table) => {
                let end = end.min(table_end(first));
                return Some(LinkedPart {
                    pid,
                    first,
                    end,
                    table,
                });
            }
            Err(next) => at = next,
        }
    }
    None
}

/// The next pages of a live process from `page` on that one run maps and whose entries stand in one lowest table; `None` where
/// none are left. The pages before them have no entry: what isn't mapped costs nothing, and a run the tables that it meets.
pub fn linked_part<D, E, M: Levels>(core: &Core<D, E, M>, pid: Pid, page: u64) -> Option<LinkedPart>
    requires fit { IsFit (picture_of core.now) }
    requires live { is_live (picture_of core.now) pid ≡ true }
    ensures none { IfNone result ((p : ℕ) → IsPage (top_level M.mode) p → page ≤ p → entry (picture_of core.now) pid p ≡ 0) }
    ensures some { IfSome result (FindsPart (picture_of core.now) pid page) }
{
    let mut at = page;
    while let Some(run) = core.regions(pid).next_run(at) {
        if let Some(part) = next_linked(core, pid, user_page::<M>(run.first), run.end) {
            return Some(part);
        }
        at = run.end;
    }
    None
}

/// The lowest table on the way to a page.
///
/// # Errors
/// Where a table is missing on the way, the next page on whose way fewer are, or the first one past those whose way goes through the
/// same table above the missing one, or one that isn't before `end`.
fn linked_table<M: Levels>(
    memory: &Memory<M>,
    root: FrameNo,
    page: Vpn,
    end: u64,
) -> Result<FrameNo, u64>
    requires forest { IsForest memory.now }
    requires root { IsRoot (top_level M.mode) memory.now root.0 }
    requires row { IsUserRow M.mode page end }
    ensures { PassesGap M.mode memory.now root.0 page end result }
{
    let (level, table) = last_table(memory, root, page);
    if level == 0 {
        return Ok(table);
    }
    let last = end.min(span_end(page, level + 1)) - 1;
    let span = entry_pages(level);
    Err(next_set(memory, table, page.get() / span + 1, last / span + 1) * span)
}

/// The next part of a row of pages that may have entries, from `page` on and before `end`; `None` where no page of the row is
/// mapped there. It begins with a mapped page and ends with that page's run, or with the last table of the run where another
/// run begins in it, so that a table of many runs is gone through once. What is not mapped costs nothing.
pub(crate) fn next_part<M: Levels>(regions: &Regions<M>, page: u64, end: u64) -> Option<Part>
    requires high { end ≤ user_end M.mode }
    ensures none { IfNone result (IsUnmapped (attr_at regions.now) page end) }
    ensures some { IfSome result (λ part. IsNextPart (attr_at regions.now) page end part.first part.end) }
{
    let run = regions.next_run(page)?;
    if run.first >= end {
        return None;
    }
    Some(Part {
        first: user_page::<M>(run.first),
        end: end.min(part_end(regions, run.end)),
    })
}

/// Where a part ends whose first run ends before the page `end`.
fn part_end<M: Levels>(regions: &Regions<M>, end: u64) -> u64
    requires low { user_start < end }
    requires high { end ≤ user_end M.mode }
    ensures { end ≤ result }
{
    let table = table_end(user_page::<M>(end - 1));
    match regions.next_run(end) {
        Some(next) if next.first < table => table,
        _ => end,
    }
}
