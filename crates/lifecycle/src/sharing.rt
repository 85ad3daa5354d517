//! The parent's own pages, given to the child.
ghost use Rattle.std.specs.Prelude.{◌≡◌, ◌+◌, ◌/◌, ◌<◌, ◌≤◌, true, IfSome, IfNone};
ghost use Rattle.vm_types.specs.Limits.{user_start, user_end, table_entries};
ghost use Rattle.page_tables.specs.Entry.{number_of};
ghost use Rattle.residency.specs.Picture.{picture_of, entry, is_live};
ghost use Rattle.residency.specs.Parts.{IsFit};
ghost use Rattle.residency.specs.Ways.{IsWhole};
ghost use Rattle.ranges.specs.WaysPassed.{IsLinkedPart};
ghost use Rattle.lifecycle.specs.Steps.{AdvancesTo};
ghost use Rattle.lifecycle.specs.Shares.{IsTableFor};
ghost use Rattle.lifecycle.specs.ChildShares.{AwaitsShares, GivesShares, HoldsEntries, IsOwnEntry, IsReadyForShares};

use crate::linking::is_own;
use crate::withdrawing::{Tables, add_share, withdraw_write};
use memory::{number_in, set_in, table_of};
use page_tables::{Entry, decode};
use ranges::{LinkedPart, linked_part, next_place, table_start};
use residency::{Core, root_of};
use vm_types::{FrameNo, Levels, Pid, USER_START, Vpn};

/// Gives the child, whose pages are mapped as the parent's and have no entry, a share of each page of which the parent has a
/// copy of its own, in a frame or in a slot. No store to such a frame is allowed any more, so that the next one is noticed
/// and gets a copy (fork(2), copy-on-write). `link_copies` has made the tables that the child wants, so no frame is asked for
/// and no device, and the call can't fail. It costs the parent's runs and, of these, the tables that they meet and the pages
/// there that have an entry, and nothing for what isn't mapped.
pub(crate) fn share_pages<D, E, M: Levels>(core: &mut Core<D, E, M>, parent: Pid, child: Pid)
    requires { IsReadyForShares (picture_of core.old) parent child user_start (user_end M.mode) }
    ensures { GivesShares core.old core.new parent child user_start (user_end M.mode) }
{
    let mut page = USER_START;
    while let Some(part) = linked_part(core, parent, page) {
        share_table(core, &part, child);
        page = part.end;
    }
}

/// Gives the child its shares of those pages of its parent's. Their entries stand in one table of the parent and in one of the
/// child, which is looked for once and not for each page; places of the parent's without an entry are passed over. Where the child
/// has no table for them, the parent has no copy of any of them.
fn share_table<D, E, M: Levels>(core: &mut Core<D, E, M>, part: &LinkedPart, child: Pid)
    requires ready { IsReadyForShares (picture_of core.old) part.now.pid child part.now.first part.now.end }
    requires part { IsLinkedPart (picture_of core.old) part.now }
    ensures { GivesShares core.old core.new part.now.pid child part.now.first part.now.end }
{
    let Some(to) = table_for(core, child, part.first) else {
        return;
    };
    let first = table_start(part.first);
    let tables = Tables {
        parent: part.pid,
        child,
        from: part.table,
        to,
        first,
    };
    let end = (part.end - first) as usize;
    let mut index = (part.first.get() - first) as usize;
    while index < end {
        index = share_at(core, &tables, index, end);
    }
}

/// The lowest table of a live process in which the entry of a page stands; `None` where a table is missing on the way.
fn table_for<D, E, M: Levels>(core: &Core<D, E, M>, pid: Pid, page: Vpn) -> Option<FrameNo>
    requires fit { IsFit (picture_of core.now) }
    requires live { is_live (picture_of core.now) pid ≡ true }
    ensures found { IfSome result (λ n. IsTableFor (picture_of core.now) pid (page / table_entries) n.0) }
    ensures missing { IfNone result (IsWhole (picture_of core.now) pid page → ⊥) }
{
    let root = root_of(core, pid);
    match table_of(&core.frames, root, page) {
        Ok(table) => Some(table),
        Err(_) => None,
    }
}

/// Gives the child a share of the page at place `index` of the two tables, if the parent has a copy of its own of it. The result is
/// the next place, and before `end`, at which the parent may have an entry.
fn share_at<D, E, M: Levels>(
    core: &mut Core<D, E, M>,
    tables: &Tables,
    index: usize,
    end: usize,
) -> usize
    requires awaits { AwaitsShares (picture_of core.old) tables.now.parent tables.now.child (tables.now.first + index) (tables.now.first + end) }
    requires from { HoldsEntries (picture_of core.old) tables.now.parent tables.now.first end tables.now.from.0 }
    requires to { HoldsEntries (picture_of core.old) tables.now.child tables.now.first end tables.now.to.0 }
    requires below { index < end }
    requires in_table { end ≤ table_entries }
    ensures next { AdvancesTo index end result }
    ensures gives { GivesShares core.old core.new tables.now.parent tables.now.child (tables.now.first + index) (tables.now.first + result) }
{
    let before = decode(number_in(&core.frames, tables.from, index));
    if is_own(before) {
        share_page(core, tables, index, before);
        return index + 1;
    }
    if let Entry::None = before {
        return next_place(&core.frames, tables.from, index, end);
    }
    index + 1
}

/// Gives the child a share of the page at place `index` of the two tables, of which the parent has a copy of its own, and whose
/// entry of the parent's is that one.
fn share_page<D, E, M: Levels>(
    core: &mut Core<D, E, M>,
    tables: &Tables,
    index: usize,
    before: Entry,
)
    requires awaits { AwaitsShares (picture_of core.old) tables.now.parent tables.now.child (tables.now.first + index) (tables.now.first + index + 1) }
    requires from { HoldsEntries (picture_of core.old) tables.now.parent tables.now.first (index + 1) tables.now.from.0 }
    requires to { HoldsEntries (picture_of core.old) tables.now.child tables.now.first (index + 1) tables.now.to.0 }
    requires in_table { index < table_entries }
    requires before { number_of before ≡ entry (picture_of core.old) tables.now.parent (tables.now.first + index) }
    requires own { IsOwnEntry before }
    ensures { GivesShares core.old core.new tables.now.parent tables.now.child (tables.now.first + index) (tables.now.first + index + 1) }
{
    let shared = withdraw_write(core, tables, index, before);
    add_share(core, shared);
    set_in(&mut core.frames, tables.to, index, shared);
}
