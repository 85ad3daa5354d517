//! Frames that stand behind a page, shown at it.
ghost use Rattle.std.specs.Prelude.{◌<◌, ◌/◌, ◌≡◌, None, Some, true, false};
ghost use Rattle.vm_types.specs.Limits.{top_level, table_entries, user_end};
ghost use Rattle.vm_types.specs.declared.access.Access.TheVariants.{Store};
ghost use Rattle.vm_types.specs.Permission.{can_read, can_write};
ghost use Rattle.vm_types.specs.Attributes.{stands_on};
ghost use Rattle.vm_types.specs.Verdict.{is_past_end};
ghost use Rattle.frames.specs.FrameTable.{IsFrame};
ghost use Rattle.sv39_walk.specs.Entry.{frame_of};
ghost use Rattle.page_tables.specs.Tree.{IsForest, IsRoot};
ghost use Rattle.page_tables.specs.Places.{IsTableOf};
ghost use Rattle.page_cache.specs.declared.place.Place.TheVariants.{Frame};
ghost use Rattle.residency.specs.Seats.{seat};
ghost use Rattle.residency.specs.Picture.{picture_of, entry, is_private};
ghost use Rattle.residency.specs.Parts.{is_shared, IsBehind};
ghost use Rattle.fault.specs.Leaves.{full_write, full_dirty, is_touched_behind};
ghost use Rattle.fault.specs.Changes.{StandsAt};
ghost use Rattle.fault.specs.Found.{IsOpenTo};
ghost use Rattle.fault.specs.FramesShown.{IsBlank, LiesInFrame, MayShow, SetsFull, ShowsFrame, ShowsFully, TouchesPage};

use crate::spot::{Spot, number_at};
use memory::set_kept;
use page_tables::{Grant, entry_over};
use residency::Core;
use vm_types::{Attr, Backing, FrameNo, Levels, PageKey};

/// The zero page, the frame of zeros that nothing is written to.
pub(crate) const ZERO_PAGE: FrameNo = FrameNo(0);

/// Shows the zero page at an anonymous page that has no entry. Its leaf is without W and D (RISC-V Privileged Specification,
/// "Sv39 page table entry"): each store asks for a frame first.
pub(crate) fn show_zero<D, E, M: Levels>(core: &mut Core<D, E, M>, spot: &Spot, attr: &Attr)
    requires { IsBlank (picture_of core.old) spot.now attr.now }
    ensures { ShowsFrame core.old core.new spot.now attr.now 0 false false false }
{
    set_full(core, spot, attr, ZERO_PAGE, false);
}

/// Shows the frame of its file page at a page of a file without an own copy. Stores are allowed to a shared page of a
/// touched file page alone, so that the first one to any other is noticed: it finds D clear (RISC-V Privileged
/// Specification, "Sv39 page table entry", the scheme of Svade).
pub(crate) fn show_cached<D, E, M: Levels>(
    core: &mut Core<D, E, M>,
    spot: &Spot,
    attr: &Attr,
    cache_frame: FrameNo,
)
    requires spot { StandsAt (picture_of core.old) spot.now }
    requires attr { (picture_of core.old).at spot.now.pid spot.now.page ≡ Some attr.now }
    requires behind { IsBehind (picture_of core.old) attr.now.backing cache_frame.0 }
    requires inside { is_past_end (picture_of core.old).files attr.now.backing ≡ false }
    requires none { seat (entry (picture_of core.old) spot.now.pid spot.now.page) ≡ None }
    ensures { ShowsFully core.old core.new spot.now attr.now cache_frame.0 false }
{
    set_full(core, spot, attr, cache_frame, false);
}

/// Gives a page that lies in a frame the entry that allows all that its permission and the sharing of its frame
/// do: W over a frame that nobody else has and over that of a shared page, D there where the file page is touched
/// (RISC-V Privileged Specification, "Sv39 page table entry").
pub(crate) fn regrant<D, E, M: Levels>(core: &mut Core<D, E, M>, spot: &Spot, attr: &Attr)
    requires { LiesInFrame (picture_of core.old) spot.now attr.now }
    ensures { let was = entry (picture_of core.old) spot.now.pid spot.now.page in ShowsFully core.old core.new spot.now attr.now (frame_of was) (is_private was) }
{
    let was = number_at(core, spot);
    set_full(core, spot, attr, was.frame_number(), was.is_private());
}

/// Marks the page of a file or an object behind a shared page touched, and shows its frame there with stores allowed, by W and D: one follows
/// at once (RISC-V Privileged Specification, "Sv39 page table entry").
pub(crate) fn touch<D, E, M: Levels>(
    core: &mut Core<D, E, M>,
    spot: &Spot,
    attr: &Attr,
    stored: &PageKey,
    frame: FrameNo,
)
    requires spot { StandsAt (picture_of core.old) spot.now }
    requires allowed { IsOpenTo (picture_of core.old) spot.now.pid spot.now.page Store attr.now }
    requires shared { is_shared attr.now.backing ≡ true }
    requires stands { stands_on attr.now.backing ≡ Some stored.now }
    requires cached { (picture_of core.old).place stored.now ≡ Frame frame }
    ensures { TouchesPage core.old core.new spot.now attr.now stored.now frame.0 }
{
    core.cache.mark_dirty(*stored);
    set_full(core, spot, attr, frame, false);
}

/// Sets the fullest entry for a page over a frame.
#[inline(always)]
pub(crate) fn set_full<D, E, M: Levels>(
    core: &mut Core<D, E, M>,
    spot: &Spot,
    attr: &Attr,
    frame: FrameNo,
    private: bool,
)
    requires forest { IsForest core.old.frames }
    requires root { IsRoot (top_level M.mode) core.old.frames spot.now.root.0 }
    requires user { spot.now.page < user_end M.mode }
    requires table { IsTableOf core.old.frames (top_level M.mode) spot.now.root.0 (spot.now.page / table_entries) spot.now.table.0 }
    requires frame { MayShow (picture_of core.old) attr.now.backing frame.0 private }
    requires readable { can_write attr.now.prot ≡ true → can_read attr.now.prot ≡ true }
    ensures { SetsFull core.old core.new spot.now attr.now frame.0 private }
{
    let grant = full_grant(core, attr, frame, private);
    let entry = entry_over(attr.prot, grant);
    set_kept(&mut core.frames, spot.root, spot.page, spot.table, entry);
}

// What the fullest entry of a page over a frame allows.
fn full_grant<D, E, M: Levels>(
    core: &Core<D, E, M>,
    attr: &Attr,
    frame: FrameNo,
    private: bool,
) -> Grant
    requires { MayShow (picture_of core.now) attr.now.backing frame.0 private }
    ensures frame { result.frame ≡ frame }
    ensures private { result.private ≡ private }
    ensures write { result.write ≡ full_write (picture_of core.now) attr.now frame.0 private }
    ensures dirty { result.dirty ≡ full_dirty (picture_of core.now) attr.now frame.0 private }
{
    let writable = attr.prot.is_writable();
    let (write, dirty) = if private {
        let sole = writable && core.frames.count(frame) == 1;
        (sole, sole)
    } else {
        (
            writable && attr.backing.is_shared(),
            writable && is_touched_behind(core, attr.backing, frame),
        )
    };
    Grant {
        frame,
        private,
        write,
        dirty,
    }
}

// Whether stores through such a page, behind which that frame stands, reach a touched page of a file or an object.
fn is_touched_behind<D, E, M: Levels>(
    core: &Core<D, E, M>,
    backing: Backing,
    frame: FrameNo,
) -> bool
    requires inside { IsFrame core.now.frames frame.0 }
    requires behind { IsBehind (picture_of core.now) backing frame.0 }
    ensures { result ≡ is_touched_behind (picture_of core.now) backing }
{
    match backing {
        Backing::Shared(_) | Backing::Common(_) => core.cache.is_frame_touched(frame),
        Backing::Anon | Backing::Private(_) => false,
    }
}
