//! The pages of a process: its runs, and the entries that its tables have.
ghost use Rattle.std.specs.Prelude.{ℕ, ◌≡◌, ◌≢◌, ◌<◌, ◌≤◌, Some, None, IfSome, IfNone};
ghost use Rattle.vm_types.specs.Limits.{top_level, user_end};
ghost use Rattle.page_tables.specs.Tree.{IsPage};
ghost use Rattle.regions.specs.RunList.{IsNextRun};
ghost use Rattle.residency.specs.Picture.{picture_of, entry};
ghost use Rattle.residency.specs.Parts.{IsFit};
ghost use Rattle.inspection.specs.Pages.{IsNextEntry, HasNoEntryFrom};

use memory::{entry_number, table_of};
use ranges::{gap_end, table_end};
use regions::Run;
use residency::Core;
use sv39_walk::Pte;
use vm_types::{FrameNo, Levels, Pid, USER_START, Vpn};

/// A page, and its entry.
#[derive(Clone, Copy, Debug, PartialEq, Eq)]
pub struct PageEntry {
    pub page: Vpn,
    pub entry: Pte,
}

/// The pages of one run of a process that come first from page number `page` on, to the run's end; `None` exactly where the process has no
/// page from there on, or doesn't live.
pub(crate) fn next_run<D, E, M: Levels>(core: &Core<D, E, M>, pid: Pid, page: u64) -> Option<Run>
    ensures some { IfSome result (IsNextRun M.mode ((picture_of core.now).at pid) page) }
    ensures none { IfNone result ((k : ℕ) → page ≤ k → (picture_of core.now).at pid k ≡ None) }
{
    match core.root(pid) {
        Some(_) => core.regions(pid).next_run(page),
        None => None,
    }
}

/// The first page of a process from page number `low` on that has an entry, with that entry; `None` exactly where none has.
pub(crate) fn next_entry<D, E, M: Levels>(
    core: &Core<D, E, M>,
    pid: Pid,
    low: u64,
) -> Option<PageEntry>
    requires fit { IsFit (picture_of core.now) }
    ensures some { IfSome result (IsNextEntry (picture_of core.now) pid low) }
    ensures none { IfNone result (HasNoEntryFrom (picture_of core.now) pid low) }
{
    let root = core.root(pid)?;
    let mut at = low.max(USER_START);
    while let Some(page) = Vpn::new::<M>(at) {
        let next = past_empty(core, pid, root, page);
        if next == at {
            let entry = entry_number(&core.frames, root, page);
            return Some(PageEntry { page, entry });
        }
        at = next;
    }
    None
}

// A page before which none has an entry from `page` on, with tables and places without entries passed over many at a time: `page` itself
// only where it has one.
fn past_empty<D, E, M: Levels>(core: &Core<D, E, M>, pid: Pid, root: FrameNo, page: Vpn) -> u64
    requires fit { IsFit (picture_of core.now) }
    requires lives { (picture_of core.now).root pid ≡ Some root.0 }
    requires user { page < user_end M.mode }
    ensures from { page ≤ result }
    ensures passed { (k : ℕ) → IsPage (top_level M.mode) k → page ≤ k → k < result → entry (picture_of core.now) pid k ≡ 0 }
    ensures some { result ≡ page → entry (picture_of core.now) pid page ≢ 0 }
{
    if let Some(end) = gap_end(core, pid, page) {
        return end;
    }
    let Ok(table) = table_of(&core.frames, root, page) else {
        unreachable!();
    };
    ranges::next_entry(&core.frames, table, page.get(), table_end(page))
}
