//! Pages without entries.
ghost use Rattle.std.specs.Prelude.{◌≡◌, ◌+◌, ◌<◌, ◌≤◌, true, false};
ghost use Rattle.vm_types.specs.Limits.{user_end};
ghost use Rattle.page_tables.specs.Entry.{IsPageEntry};
ghost use Rattle.residency.specs.Seats.{is_private, seat};
ghost use Rattle.residency.specs.Picture.{picture_of, is_live};
ghost use Rattle.residency.specs.Parts.{IsFit};
ghost use Rattle.ranges.specs.RowsCleared.{IsPartOf, HoldsPlaces, ClearsWithTables, ClearsNext, ClearsPlaces, ClearsRow, ReleasesShare};
ghost use Rattle.ranges.specs.Steps.{LacksHolder};
ghost use Rattle.ranges.specs.WaysPassed.{IsLinkedPart};

use crate::entries::next_place;
use crate::rows::{LinkedPart, TableRow, next_part, span_end, table_end, table_start, user_page};
use memory::{last_table, number_in, prune, set_in};
use page_tables::{Entry, decode};
use residency::{Core, root_of};
use sv39_walk::Pte;
use vm_types::{FrameNo, Levels, Pid, USER_START, Vpn};

/// Takes the entries of the `pages` pages from `first` on out of the tables of a live process, with the own copies that
/// they name, in frames and in slots; the pages stay mapped. A frame or a slot that nobody shares any more is free, and so is a
/// table that was there for those pages alone (munmap(2), for the part that lies in memory and swap).
pub fn clear_row<D, E, M: Levels>(core: &mut Core<D, E, M>, pid: Pid, first: u64, pages: u64)
    requires fit { IsFit (picture_of core.old) }
    requires live { is_live (picture_of core.old) pid ≡ true }
    requires row { first + pages ≤ user_end M.mode }
    ensures { ClearsRow core.old core.new pid first pages }
{
    let end = first + pages;
    let mut page = first.max(USER_START);
    while let Some(part) = next_part(core.regions(pid), page, end) {
        clear_part(core, pid, part.first, part.end);
        page = part.end;
    }
}

/// Clears the pages from `start` up to, not including, `end`, table by table.
fn clear_part<D, E, M: Levels>(core: &mut Core<D, E, M>, pid: Pid, start: Vpn, end: u64)
    requires { IsPartOf (picture_of core.old) pid start end }
    ensures { ClearsWithTables core.old core.new pid start end }
{
    let mut page = start.get();
    while page < end {
        page = clear_next(core, pid, user_page::<M>(page), end);
    }
}

/// Clears the pages from `start` on whose entries stand in one table, as far as `end`. The result is the first page
/// past them. Where a table is missing on the way, there is nothing to clear on all its pages; but a table between it and the
/// root may be without entries, since a call that stalled for the want of a frame leaves the tables that it linked.
fn clear_next<D, E, M: Levels>(core: &mut Core<D, E, M>, pid: Pid, start: Vpn, end: u64) -> u64
    requires { IsPartOf (picture_of core.old) pid start end }
    ensures { ClearsNext core.old core.new pid start end result }
{
    let top_table = root_of(core, pid);
    let (missing, table) = last_table(&core.frames, top_table, start);
    if missing == 0 {
        let stop = end.min(table_end(start));
        let part = LinkedPart {
            pid,
            first: start,
            end: stop,
            table,
        };
        clear_table(core, &part);
        return stop;
    }
    let stop = end.min(span_end(start, missing));
    if missing == M::top_level() {
        return stop;
    }
    prune(&mut core.frames, top_table, start);
    stop
}

/// Clears pages whose entries stand in one table, and releases the tables that are without entries then. Places without an entry
/// are passed over many at a time.
fn clear_table<D, E, M: Levels>(core: &mut Core<D, E, M>, part: &LinkedPart)
    requires fit { IsFit (picture_of core.old) }
    requires live { is_live (picture_of core.old) part.now.pid ≡ true }
    requires part { IsLinkedPart (picture_of core.old) part.now }
    ensures { ClearsWithTables core.old core.new part.now.pid part.now.first part.now.end }
{
    let root = root_of(core, part.pid);
    let first = table_start(part.first);
    let row = TableRow {
        pid: part.pid,
        root,
        table: part.table,
        first,
    };
    let end = (part.end - first) as usize;
    let mut index = (part.first.get() - first) as usize;
    while index < end {
        index = clear_at(core, &row, index, end);
    }
    prune(&mut core.frames, root, part.first);
}

/// Takes the entry at place `index` of a table out, and gives back the share of the frame or the slot that it names as the
/// process's own. Where the place has none, nothing is written. The result is the next place, and before `end`, that may have
/// one. The table may be without entries then.
fn clear_at<D, E, M: Levels>(
    core: &mut Core<D, E, M>,
    row: &TableRow,
    index: usize,
    end: usize,
) -> usize
    requires row { HoldsPlaces (picture_of core.old) row.now end }
    requires below { index < end }
    ensures { ClearsPlaces core.old core.new row.now index end result }
{
    let number = number_in(&core.frames, row.table, index);
    if number.is_private() {
        set_in(&mut core.frames, row.table, index, Entry::None);
        give_back_frame(core, number);
        return index + 1;
    }
    if number.to_u64() == 0 {
        return next_place(&core.frames, row.table, index, end);
    }
    set_in(&mut core.frames, row.table, index, Entry::None);
    give_back_slot(core, number);
    index + 1
}

/// Gives back the share of the frame that an entry named as its process's own. The entry is taken out already.
fn give_back_frame<D, E, M: Levels>(core: &mut Core<D, E, M>, number: Pte)
    requires own { is_private number.0 ≡ true }
    requires lacks { LacksHolder (picture_of core.old) (seat number.0) }
    ensures { ReleasesShare core.old core.new number.0 }
{
    core.frames.release(number.frame_number());
}

/// Gives back the share of the slot that an entry named, where it named one, and no frame as its process's own. The entry is
/// taken out already.
fn give_back_slot<D, E, M: Levels>(core: &mut Core<D, E, M>, number: Pte)
    requires form { IsPageEntry number.0 }
    requires common { is_private number.0 ≡ false }
    requires lacks { LacksHolder (picture_of core.old) (seat number.0) }
    ensures { ReleasesShare core.old core.new number.0 }
{
    if let Entry::Swapped(slot) = decode(number) {
        core.swap.release(slot);
    }
}
