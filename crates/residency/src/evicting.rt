//! A frame given up: its own copies go to a slot, its page of a file or an object to a slot or home.
ghost use Rattle.std.specs.Prelude.{◌≡◌, true, false};
ghost use Rattle.frames.specs.declared.role.Role.TheVariants as Roles;
ghost use Rattle.frames.specs.FrameTable.{IsFrame, role_of};
ghost use Rattle.page_cache.specs.declared.place.Place.TheVariants.{Frame};
ghost use Rattle.swap.specs.Slots.{slots_of, IsReady, IsSwapFull};
ghost use Rattle.residency.specs.Picture.{picture_of, is_data};
ghost use Rattle.residency.specs.Parts.{IsFit};
ghost use Rattle.residency.specs.Calls.{NeedsSlot};
ghost use Rattle.residency.specs.Evictions.{MayGoToSwap, Evicts, SendsHome};

use crate::contents::{Content, content_of};
use crate::kernel::Core;
use crate::leaves::forget_leaves;
use crate::shares::hand_over;
use disk_model::SectorDisk;
use page_cache::Place;
use swap::PutFault;
use vm_types::{FrameNo, Levels, PageKey, Stall};

/// Gives up the frame of an untouched page of a file or an object, which is at home then.
pub(crate) fn send_home<D, E, M: Levels>(core: &mut Core<D, E, M>, victim: FrameNo, page: PageKey)
    requires fit { IsFit (picture_of core.old) }
    requires inside { IsFrame core.old.frames victim.0 }
    requires placed { (picture_of core.old).place page ≡ Frame victim }
    requires untouched { (picture_of core.old).touched page ≡ false }
    ensures { SendsHome core.old core.new victim.0 }
{
    forget_leaves(core, victim, page);
    core.cache.set_place(page, Place::Home);
    core.frames.release(victim);
}

/// Gives up the frame of a touched page of a file or an object, which is in a slot then. A slot is free.
///
/// # Errors
/// `SwapDevice` only where the swap device failed.
fn send_away<D, E: SectorDisk, M: Levels>(
    core: &mut Core<D, E, M>,
    victim: FrameNo,
    page: PageKey,
) -> Result<(), Stall>
    requires goes { MayGoToSwap E.SectorDisk core.old victim.0 }
    requires placed { (picture_of core.old).place page ≡ Frame victim }
    requires touched { (picture_of core.old).touched page ≡ true }
    ensures { Evicts E.SectorDisk core.old core.new victim.0 result }
{
    forget_leaves(core, victim, page);
    match core.swap.put(core.frames.bytes(victim)) {
        Ok(slot) => {
            core.cache.set_place(page, Place::Slot(slot));
            core.frames.release(victim);
            Ok(())
        }
        Err(PutFault::Full) => unreachable!(),
        Err(PutFault::Device) => Err(Stall::SwapDevice),
    }
}

/// Gives up a private frame, whose copies of that page are in a slot then. A slot is free.
///
/// # Errors
/// `SwapDevice` only where the swap device failed.
fn send_copies<D, E: SectorDisk, M: Levels>(
    core: &mut Core<D, E, M>,
    victim: FrameNo,
    page: u64,
) -> Result<(), Stall>
    requires goes { MayGoToSwap E.SectorDisk core.old victim.0 }
    requires role { role_of core.old.frames victim.0 ≡ Roles.Private }
    requires noted { (picture_of core.old).page_of victim.0 ≡ page }
    ensures { Evicts E.SectorDisk core.old core.new victim.0 result }
{
    match core.swap.put(core.frames.bytes(victim)) {
        Ok(slot) => {
            hand_over(core, victim, page, slot);
            Ok(())
        }
        Err(PutFault::Full) => unreachable!(),
        Err(PutFault::Device) => Err(Stall::SwapDevice),
    }
}

/// Gives up a frame that holds a page of a process, a file or an object. Where it needs a slot, one is free.
///
/// # Errors
/// `SwapDevice` only where the swap device failed.
pub(crate) fn evict<D, E: SectorDisk, M: Levels>(
    core: &mut Core<D, E, M>,
    victim: FrameNo,
) -> Result<(), Stall>
    requires fit { IsFit (picture_of core.old) }
    requires swap { IsReady E.SectorDisk core.old.swap }
    requires inside { IsFrame core.old.frames victim.0 }
    requires datum { is_data (role_of core.old.frames victim.0) ≡ true }
    requires room { NeedsSlot (picture_of core.old) victim.0 → IsSwapFull (slots_of core.old.swap) → ⊥ }
    ensures { Evicts E.SectorDisk core.old core.new victim.0 result }
{
    match content_of(core, victim) {
        Content::Own(page) => send_copies(core, victim, page),
        Content::Page(page) => {
            if core.cache.is_touched(page) {
                send_away(core, victim, page)
            } else {
                send_home(core, victim, page);
                Ok(())
            }
        }
    }
}
