//! A page of a process's own that is about to be shared.
ghost use Rattle.std.specs.Prelude.{◌≡◌, ◌+◌, ◌<◌, ◌^◌, true, Some, IfSome, IfNone};
ghost use Rattle.vm_types.specs.Limits.{table_entries};
ghost use Rattle.sv39_walk.specs.Entry.{is_valid, frame_of};
ghost use Rattle.page_tables.specs.Entry.{number_of, IsEntry};
ghost use Rattle.residency.specs.Seats.{Seat, seat, is_private};
ghost use Rattle.residency.specs.Picture.{picture_of, entry, is_live};
ghost use Rattle.residency.specs.Parts.{IsFit};
ghost use Rattle.lifecycle.specs.ChildShares.{AddsShare, HoldsEntries, IsOwnEntry, WithdrawsWrite};
ghost use Rattle.lifecycle.specs.Shares.{MayShare, Weakens};

use memory::set_in;
use page_tables::Entry;
use residency::Core;
use vm_types::{FrameNo, Levels, Pid};

/// A parent and its child, the tables in which the entries of the same 512 pages of theirs stand, and the first of these pages.
#[derive(Clone, Copy)]
pub(crate) struct Tables {
    pub(crate) parent: Pid,
    pub(crate) child: Pid,
    pub(crate) from: FrameNo,
    pub(crate) to: FrameNo,
    pub(crate) first: u64,
}

/// Lets no store through to a page of which the parent has a copy of its own, and returns the page's entry. What holds the copy
/// may be shared then, and the next store is noticed (fork(2), copy-on-write). The page's entry stands at place `index` of the
/// parent's table, and is `before` so far; it is written only where it has W.
pub(crate) fn withdraw_write<D, E, M: Levels>(
    core: &mut Core<D, E, M>,
    tables: &Tables,
    index: usize,
    before: Entry,
) -> Entry
    requires fit { IsFit (picture_of core.old) }
    requires live { is_live (picture_of core.old) tables.now.parent ≡ true }
    requires place { HoldsEntries (picture_of core.old) tables.now.parent tables.now.first (index + 1) tables.now.from.0 }
    requires in_table { index < table_entries }
    requires before { number_of before ≡ entry (picture_of core.old) tables.now.parent (tables.now.first + index) }
    requires own { IsOwnEntry before }
    ensures { WithdrawsWrite core.old core.new tables.now.parent (tables.now.first + index) result }
{
    let Some(after) = without_write(before) else {
        return before;
    };
    set_in(&mut core.frames, tables.from, index, after);
    after
}

/// The entry without W, where it has it.
fn without_write(before: Entry) -> Option<Entry>
    requires { IsEntry before }
    ensures form { IfSome result (λ after. IsEntry after) }
    ensures valid { IfSome result (λ after. is_valid (number_of before) ≡ true) }
    ensures weaker { IfSome result (λ after. Weakens (number_of before) (number_of after)) }
    ensures same { IfNone result (Weakens (number_of before) (number_of before)) }
{
    let Entry::Leaf(leaf) = before else {
        return None;
    };
    if !leaf.is_writable() {
        return None;
    }
    Some(Entry::Leaf(leaf.without_write()))
}

/// One more shares the frame or the slot that an entry names as its process's own. No entry names it for that share yet.
pub(crate) fn add_share<D, E, M: Levels>(core: &mut Core<D, E, M>, shared: Entry)
    requires fit { IsFit (picture_of core.old) }
    requires own { IsOwnEntry shared }
    requires may { (y : Seat) → seat (number_of shared) ≡ Some y → MayShare (picture_of core.old) y }
    ensures { AddsShare core.old core.new (number_of shared) }
{
    if let Entry::Swapped(slot) = shared {
        core.swap.share(slot);
        return;
    }
    core.frames.share(frame_of(shared));
}

/// The frame of a page that lies in one (RISC-V Privileged Specification, "Sv39 page table entry"; our own form where the
/// page is parked).
fn frame_of(shared: Entry) -> FrameNo
    requires form { IsEntry shared }
    requires own { is_private (number_of shared) ≡ true }
    requires small { frame_of (number_of shared) < 2 ^ 32 }
    ensures { result.0 ≡ frame_of (number_of shared) }
{
    match shared {
        Entry::Leaf(leaf) => leaf.frame_number(),
        Entry::Parked(frame, _) => frame,
        Entry::None | Entry::Swapped(_) => unreachable!(),
    }
}
