//! Own copies brought back from slots.
ghost use Rattle.fault.specs.OwnFrames.{LiesInSlot, SwapsIn};

use crate::showing::set_full;
use crate::spot::{Spot, number_at};
use disk_model::{DiskFault, SectorDisk};
use page_tables::{Entry, decode};
use residency::Core;
use vm_types::{Attr, FrameNo, Levels, Stall};

/// Reads a page's own copy from its slot into a frame, which no other process has, and gives the page the entry that
/// allows all that its permission does. The process's share of the slot is given back.
///
/// # Errors
/// As `obtain`, where no frame is to be had, and `SwapDevice` where the swap device failed. Then the page lies where it lay.
pub(crate) fn swap_in<D, E: SectorDisk, M: Levels>(
    core: &mut Core<D, E, M>,
    spot: &Spot,
    attr: &Attr,
) -> Result<FrameNo, Stall>
    requires { LiesInSlot E.SectorDisk core.old spot.now attr.now }
    ensures { SwapsIn E.SectorDisk core.old core.new spot.now.pid spot.now.page attr.now result }
{
    let Entry::Swapped(slot) = decode(number_at(core, spot)) else {
        unreachable!();
    };
    let frame = core.take_own(spot.page, None)?;
    match core.swap.get(slot, core.frames.bytes_mut(frame)) {
        Ok(()) => {
            set_full(core, spot, attr, frame, true);
            core.swap.release(slot);
            Ok(frame)
        }
        Err(DiskFault) => {
            core.frames.release(frame);
            Err(Stall::SwapDevice)
        }
    }
}
