//! The child's tables.
ghost use Rattle.std.specs.Prelude.{◌≡◌, ◌≢◌, ℕ, ◌<◌, ◌≤◌, true, false, Option, None, OnOk, IfSome, IfNone};
ghost use Rattle.page_tables.specs.Entry.{number_of, IsEntry};
ghost use Rattle.residency.specs.Seats.{seat};
ghost use Rattle.residency.specs.Picture.{picture_of, entry, is_live};
ghost use Rattle.residency.specs.Parts.{IsFit};
ghost use Rattle.ranges.specs.WaysPassed.{IsLinkedPart};
ghost use Rattle.lifecycle.specs.TablesForCopies.{IsFirstCopy, LinksForCopies, MakesReady, MayLink};
ghost use Rattle.lifecycle.specs.Steps.{HasTablesFrom};

use disk_model::SectorDisk;
use fault::link_tables;
use memory::number_in;
use page_tables::{Entry, decode};
use ranges::{LinkedPart, linked_part, next_entry, user_page};
use residency::Core;
use sv39_walk::TABLE_ENTRIES;
use vm_types::{Levels, Pid, Stall, USER_START, Vpn};

/// Makes for the child, whose pages are mapped as the parent's, every table that is missing on the way to a page of which the
/// parent has a copy of its own, in a frame or in a slot. A frame is asked for only where such a table is missing; to have one,
/// frames may be given up, and no process sees that. No entry is set. It costs the parent's runs and, of these, the tables
/// that they meet and the pages there that have an entry, as far as the first copy, and nothing for what isn't mapped
/// (fork(2); RISC-V Privileged Specification, "Virtual Address Translation Process").
///
/// # Errors
/// As `obtain`, where a table is missing and no frame is to be had for it. The tables that were made stay.
pub(crate) fn link_copies<D, E: SectorDisk, M: Levels>(
    core: &mut Core<D, E, M>,
    parent: Pid,
    child: Pid,
) -> Result<(), Stall>
    requires { MayLink E.SectorDisk core.old parent child }
    ensures { MakesReady E.SectorDisk core.old core.new parent child result }
{
    let mut page = USER_START;
    while let Some(part) = linked_part(core, parent, page) {
        link_part(core, &part, child)?;
        page = part.end;
    }
    Ok(())
}

/// Makes the child's tables for those pages of its parent's: the ones on the way to the first of which the parent has a copy.
fn link_part<D, E: SectorDisk, M: Levels>(
    core: &mut Core<D, E, M>,
    part: &LinkedPart,
    child: Pid,
) -> Result<(), Stall>
    requires ready { MayLink E.SectorDisk core.old part.now.pid child }
    requires part { IsLinkedPart (picture_of core.old) part.now }
    ensures links { LinksForCopies E.SectorDisk core.old core.new part.now.pid child result }
    ensures linked { OnOk result (HasTablesFrom (picture_of core.new) part.now.pid child part.now.first part.now.end) }
{
    if let Some(copied) = first_copy(core, part) {
        link_tables(core, child, copied)?;
    }
    Ok(())
}

/// The first of those pages of which their process has a copy of its own. Places of the table without an entry are passed over.
fn first_copy<D, E, M: Levels>(core: &Core<D, E, M>, part: &LinkedPart) -> Option<Vpn>
    requires fit { IsFit (picture_of core.now) }
    requires live { is_live (picture_of core.now) part.now.pid ≡ true }
    requires part { IsLinkedPart (picture_of core.now) part.now }
    ensures some { IfSome result (IsFirstCopy (picture_of core.now) part.now.pid part.now.first) }
    ensures none { IfNone result ((page : ℕ) → part.now.first ≤ page → page < part.now.end → seat (entry (picture_of core.now) part.now.pid page) ≡ None) }
{
    let mut page = part.first.get();
    while page < part.end {
        let index = (page % TABLE_ENTRIES) as usize;
        if is_own(decode(number_in(&core.frames, part.table, index))) {
            return Some(user_page::<M>(page));
        }
        page = next_entry(&core.frames, part.table, page + 1, part.end);
    }
    None
}

/// Whether a page's entry names a copy of the process's own: a frame, by the bit that is the software's (RISC-V Privileged
/// Specification, "Sv39 page table entry", RSW), or a slot.
pub(crate) fn is_own(found: Entry) -> bool
    requires { IsEntry found }
    ensures own { result ≡ true → seat (number_of found) ≢ None }
    ensures other { result ≡ false → seat (number_of found) ≡ None }
{
    match found {
        Entry::None => false,
        Entry::Leaf(leaf) => leaf.is_private(),
        Entry::Swapped(_) => true,
        Entry::Parked(_, private) => private,
    }
}
