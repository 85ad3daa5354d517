//! What a slot holds, and which pages have it.
ghost use Rattle.std.specs.Prelude.{ℕ, ◌≡◌, ◌<◌, ◌≤◌, ◌==◌, ◌&&◌, IfSome, IfNone};
ghost use Rattle.vm_types.specs.Limits.{top_level};
ghost use Rattle.sv39_walk.specs.Entry.{frame_of, is_swapped};
ghost use Rattle.page_tables.specs.Tree.{IsPage};
ghost use Rattle.residency.specs.Picture.{picture_of};
ghost use Rattle.residency.specs.Parts.{IsFit};
ghost use Rattle.inspection.specs.Slots.{HasNoPageIn, IsInSlot, IsNextSwapped, IsSlotView, SlotHolds};

use crate::frame_views::{Mapper, low_in};
use crate::pages::next_entry;
use residency::Core;
use sv39_walk::Pte;
use vm_types::{Levels, PROCESSES, PageKey, SlotNo};

/// What a slot of the swap device holds.
#[derive(Clone, Copy, Debug, PartialEq, Eq)]
pub enum SlotHolding {
    /// Nothing: it is free.
    Nothing,
    /// An own copy, of each process that shares it.
    Own,
    /// That page of a file or of shared anonymous memory, touched.
    Page(PageKey),
}

/// A slot as it is.
#[derive(Clone, Copy, Debug, PartialEq, Eq)]
pub struct SlotView {
    pub holding: SlotHolding,
    /// How many share it.
    pub shares: u8,
}

/// What slot `n` holds, and how many share it; `None` exactly where there is no slot of that number.
pub(crate) fn slot_view<D, E, M: Levels>(core: &Core<D, E, M>, n: SlotNo) -> Option<SlotView>
    ensures some { IfSome result (IsSlotView (picture_of core.now) n.0) }
    ensures none { IfNone result ((picture_of core.now).slots.total ≤ n.0) }
{
    if n.0 >= core.swap.len() {
        return None;
    }
    let shares = core.swap.count(n);
    Some(SlotView {
        holding: slot_holding(core, n, shares),
        shares,
    })
}

fn slot_holding<D, E, M: Levels>(core: &Core<D, E, M>, n: SlotNo, shares: u8) -> SlotHolding
    requires inside { n.0 < (picture_of core.now).slots.total }
    requires shares { shares ≡ (picture_of core.now).slots.count n.0 }
    ensures { SlotHolds (picture_of core.now) n.0 result }
{
    if shares == 0 {
        return SlotHolding::Nothing;
    }
    match core.cache.page_in_slot(n) {
        Some(page) => SlotHolding::Page(page),
        None => SlotHolding::Own,
    }
}

/// The first page whose own copy lies in slot `n`, in the order of processes and pages, from page `page` of process number `pid` on; `None` exactly
/// where there is none.
pub(crate) fn next_swapped<D, E, M: Levels>(
    core: &Core<D, E, M>,
    n: SlotNo,
    pid: u64,
    page: u64,
) -> Option<Mapper>
    requires fit { IsFit (picture_of core.now) }
    ensures some { IfSome result (IsNextSwapped (picture_of core.now) n.0 pid page) }
    ensures none { IfNone result (HasNoPageIn (picture_of core.now) n.0 pid page) }
{
    for number in pid..PROCESSES as u64 + 1 {
        let low = low_in(number, pid, page);
        if let Some(found) = swapped_of(core, n, number, low) {
            return Some(found);
        }
    }
    None
}

// The same in the process of that number alone.
fn swapped_of<D, E, M: Levels>(
    core: &Core<D, E, M>,
    n: SlotNo,
    number: u64,
    low: u64,
) -> Option<Mapper>
    requires fit { IsFit (picture_of core.now) }
    ensures some { IfSome result (λ m. IsNextSwapped (picture_of core.now) n.0 number low m × (m.pid ≡ number)) }
    ensures none { IfNone result ((k : ℕ) → low ≤ k → IsPage (top_level M.mode) k → IsInSlot (picture_of core.now) n.0 number k → ⊥) }
{
    let pid = core.live(number)?;
    let mut at = low;
    while let Some(found) = next_entry(core, pid, at) {
        if names_slot(found.entry, n) {
            return Some(Mapper {
                pid,
                page: found.page,
                entry: found.entry,
            });
        }
        at = found.page.get() + 1;
    }
    None
}

// Whether an entry names that slot.
fn names_slot(entry: Pte, n: SlotNo) -> bool
    ensures { result ≡ (is_swapped entry.0 && (frame_of entry.0 == n.0)) }
{
    entry.is_swapped() && entry.frame() == u64::from(n.0)
}
