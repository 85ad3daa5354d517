//! A frame for a page.
ghost use Rattle.frames.specs.FrameTable.{IsFrame, IsFull};
ghost use Rattle.residency.specs.AskedFrames.{Obtains};
ghost use Rattle.residency.specs.Calls.{IsSpareable};
ghost use Rattle.std.specs.Prelude.{true, false, ℕ, ◌≡◌};
ghost use Rattle.swap.specs.Slots.{IsReady};
ghost use Rattle.residency.specs.Picture.{picture_of};
ghost use Rattle.residency.specs.Parts.{IsFit};

use crate::evicting::evict;
use crate::kernel::Core;
use crate::looking::{choose, spareable_content};
use clock_replace::NoVictim;
use disk_model::SectorDisk;
use vm_types::{FrameNo, Levels, Stall};

/// A free frame, to be taken at once. Where none is free, a frame is given up for it, but not the one to keep: its page goes
/// to a slot, or home where nobody has touched it. No process sees a change, and no file does. Each frame is looked at twice at most.
///
/// # Errors
/// `NoFrames` only where every frame but the zero page is a table or the one to keep, `NoSwap` only where every other one needs a
/// slot and none is free; both raise the count of refused requests. `SwapDevice` only where the swap device failed.
pub fn obtain<D, E: SectorDisk, M: Levels>(
    core: &mut Core<D, E, M>,
    keep: Option<FrameNo>,
) -> Result<FrameNo, Stall>
    requires fit { IsFit (picture_of core.old) }
    requires swap { IsReady E.SectorDisk core.old.swap }
    ensures { Obtains E.SectorDisk core.old core.new keep result }
{
    match core.frames.next_free() {
        Some(n) => Ok(n),
        None => give_up(core, keep),
    }
}

/// The same where none is free.
fn give_up<D, E: SectorDisk, M: Levels>(
    core: &mut Core<D, E, M>,
    keep: Option<FrameNo>,
) -> Result<FrameNo, Stall>
    requires fit { IsFit (picture_of core.old) }
    requires swap { IsReady E.SectorDisk core.old.swap }
    requires full { IsFull core.old.frames }
    ensures { Obtains E.SectorDisk core.old core.new keep result }
{
    let choice = choose(core, keep);
    match choice {
        Ok(victim) => {
            evict(core, victim)?;
            Ok(victim)
        }
        Err(NoVictim) => {
            core.refused.raise();
            if has_spareable(core, keep) {
                Err(Stall::NoSwap)
            } else {
                Err(Stall::NoFrames)
            }
        }
    }
}

/// Whether some frame holds a page and isn't to be kept.
fn has_spareable<D, E, M: Levels>(core: &Core<D, E, M>, keep: Option<FrameNo>) -> bool
    requires { IsFit (picture_of core.now) }
    ensures some { result ≡ true → (n : ℕ) × IsSpareable (picture_of core.now) keep n }
    ensures none { result ≡ false → (n : ℕ) → IsFrame core.now.frames n → IsSpareable (picture_of core.now) keep n → ⊥ }
{
    for n in 0..core.frames.len() {
        if spareable_content(core, keep, FrameNo(n)).is_some() {
            return true;
        }
    }
    false
}
