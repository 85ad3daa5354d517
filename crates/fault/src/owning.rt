//! Frames of a process's own.
ghost use Rattle.std.specs.Prelude.{◌≡◌, ℕ, ◌<◌, ◌^◌, Some, true, false};
ghost use Rattle.disk_model.specs.Moments.{Nothing};
ghost use Rattle.frames.specs.FrameTable.{IsFrame, IsHeld, bytes_of, zero_bytes, with_bytes};
ghost use Rattle.sv39_walk.specs.Entry.{frame_of};
ghost use Rattle.residency.specs.Picture.{picture_of, entry, is_private};
ghost use Rattle.residency.specs.Parts.{IsBehind};
ghost use Rattle.page_cache.specs.declared.place.Place.TheVariants.{Frame};
ghost use Rattle.fault.specs.OwnFrames.{CopiesPage, IsOwnable, MakesSole, MayCopy, TakesFrameWith};
ghost use Rattle.fault.specs.Changes.{frame_of_place, shown_frame};

use crate::showing::{ZERO_PAGE, regrant, set_full};
use crate::spot::{Spot, number_at};
use disk_model::SectorDisk;
use memory::Memory;
use page_cache::Place;
use residency::Core;
use sv39_walk::Pte;
use vm_types::{Attr, Backing, FrameNo, Levels, PageKey, Stall, Vpn};

/// Gives a page that may be written, and that isn't shared, a frame of its own that shows the same bytes and allows
/// stores, by W and D (RISC-V Privileged Specification, "Sv39 page table entry"). Where it is the only one to have its
/// private frame, that is the one. What the page shows is in memory.
///
/// # Errors
/// As `obtain`, where a frame is wanted and none is to be had: the frame that is copied isn't given up for it. Then the page is seen
/// as before.
pub(crate) fn own_frame<D, E: SectorDisk, M: Levels>(
    core: &mut Core<D, E, M>,
    spot: &Spot,
    attr: &Attr,
) -> Result<FrameNo, Stall>
    requires page { IsOwnable E.SectorDisk core.old spot.now attr.now }
    requires in_memory { is_private (entry (picture_of core.old) spot.now.pid spot.now.page) ≡ false
        → (n : ℕ) × IsBehind (picture_of core.old) attr.now.backing n }
    ensures { MakesSole E.SectorDisk core.old core.new spot.now.pid spot.now.page attr.now result }
{
    let was = number_at(core, spot);
    let shown = shown_frame(core, was, attr.backing);
    if was.is_private() && core.frames.count(shown) == 1 {
        regrant(core, spot, attr);
        return Ok(shown);
    }
    copy_page(core, spot, attr, was, shown)
}

// Gives such a page, of which its process hasn't its frame alone, a copy of what it shows, in a frame of its own.
fn copy_page<D, E: SectorDisk, M: Levels>(
    core: &mut Core<D, E, M>,
    spot: &Spot,
    attr: &Attr,
    was: Pte,
    shown: FrameNo,
) -> Result<FrameNo, Stall>
    requires page { IsOwnable E.SectorDisk core.old spot.now attr.now }
    requires was { was.0 ≡ entry (picture_of core.old) spot.now.pid spot.now.page }
    requires own { is_private (entry (picture_of core.old) spot.now.pid spot.now.page) ≡ true → frame_of (entry (picture_of core.old) spot.now.pid spot.now.page) ≡ shown.0 }
    requires common { is_private (entry (picture_of core.old) spot.now.pid spot.now.page) ≡ false → IsBehind (picture_of core.old) attr.now.backing shown.0 }
    ensures { CopiesPage E.SectorDisk core.old core.new spot.now.pid spot.now.page attr.now shown result }
{
    let own = take_copy(core, shown, spot.page)?;
    set_full(core, spot, attr, own, true);
    if was.is_private() {
        core.frames.release(shown);
    }
    Ok(own)
}

// The frame whose bytes a page shows, by its entry and what stands behind it.
fn shown_frame<D, E, M: Levels>(core: &Core<D, E, M>, entry: Pte, backing: Backing) -> FrameNo
    requires number { is_private entry.0 ≡ true → frame_of entry.0 < 2 ^ 32 }
    requires in_memory { is_private entry.0 ≡ false → (n : ℕ) × IsBehind (picture_of core.now) backing n }
    ensures { result.0 ≡ shown_frame (picture_of core.now) entry.0 backing }
{
    if entry.is_private() {
        return entry.frame_number();
    }
    match backing {
        Backing::Anon => ZERO_PAGE,
        Backing::Private(page) => cached_frame(core, PageKey::File(page)),
        Backing::Shared(page) => cached_frame(core, PageKey::File(page)),
        Backing::Common(page) => cached_frame(core, PageKey::Object(page)),
    }
}

// The frame in which a page of a file or an object lies.
fn cached_frame<D, E, M: Levels>(core: &Core<D, E, M>, page: PageKey) -> FrameNo
    requires { (n : ℕ) × ((picture_of core.now).place page ≡ Frame (record { 0 = n })) }
    ensures { result.0 ≡ frame_of_place ((picture_of core.now).place page) }
{
    match core.cache.place(page) {
        Place::Frame(n) => n,
        Place::Home | Place::Slot(_) => unreachable!(),
    }
}

// A free frame, taken for that page as a process's own, with the bytes of frame `from`, which isn't given up for it. No entry
// names it yet.
fn take_copy<D, E: SectorDisk, M: Levels>(
    core: &mut Core<D, E, M>,
    from: FrameNo,
    page: Vpn,
) -> Result<FrameNo, Stall>
    requires { MayCopy E.SectorDisk core.old from }
    ensures { TakesFrameWith E.SectorDisk core.old core.new page from Nothing result }
{
    let own = core.take_own(page, Some(from))?;
    fill(&mut core.frames, from, own);
    Ok(own)
}

// Gives a frame of zeros the bytes of another. Those of the zero page aren't copied.
fn fill<M: Levels>(frames: &mut Memory<M>, from: FrameNo, own: FrameNo)
    requires source { IsFrame frames.old from.0 }
    requires target { IsHeld frames.old own.0 }
    requires zeros { bytes_of frames.old own.0 ≡ zero_bytes }
    requires zero_page { bytes_of frames.old 0 ≡ zero_bytes }
    ensures { frames.new ≡ with_bytes frames.old own.0 (bytes_of frames.old from.0) }
{
    if from.0 != ZERO_PAGE.0 {
        frames.copy(from, own);
    }
}
