//! The shares of a private frame, handed over to a slot one process after the other.
ghost use Rattle.std.specs.Prelude.{◌≡◌, ◌≢◌, ◌<◌, Some, true, false};
ghost use Rattle.vm_types.specs.Limits.{user_end};
ghost use Rattle.frames.specs.FrameTable.{bytes_of};
ghost use Rattle.residency.specs.Seats.{InFrame, seat};
ghost use Rattle.residency.specs.Picture.{picture_of};
ghost use Rattle.residency.specs.Evictions.{HasShare};
ghost use Rattle.residency.specs.Handovers.{HasAt, MayHandOver, GivesShare, PassesShare, HandsOver};

use crate::kernel::{Core, PLACES};
use crate::searches::LiveProcess;
use disk_model::SectorDisk;
use memory::{entry_number, set};
use page_tables::Entry;
use sv39_walk::Pte;
use vm_types::{FrameNo, Levels, SlotNo, Vpn};

/// Whether an entry names that frame as the process's own.
fn is_own(entry: Pte, frame: FrameNo) -> bool
    ensures own { result ≡ true → seat entry.0 ≡ Some (InFrame frame.0) }
    ensures other { result ≡ false → seat entry.0 ≢ Some (InFrame frame.0) }
{
    entry.is_private() && entry.frame() == u64::from(frame.0)
}

/// Gives a process, which has the frame at that page, the share of the slot in place of its share of the frame.
fn give_share<D, E, M: Levels>(
    core: &mut Core<D, E, M>,
    process: LiveProcess,
    page: Vpn,
    frame: FrameNo,
    slot: SlotNo,
)
    requires share { HasShare (picture_of core.old) slot.0 page }
    requires has { HasAt (picture_of core.old) process page frame.0 }
    requires same { (picture_of core.old).slots.bytes slot.0 ≡ bytes_of core.old.frames frame.0 }
    ensures { GivesShare frame.0 slot.0 process.pid page core.old core.new }
{
    set(&mut core.frames, process.root, page, Entry::Swapped(slot));
    core.frames.release(frame);
}

/// The same, and the slot has a share for another process then, where the frame has one left; whether nobody has the frame.
fn pass_share<D, E: SectorDisk, M: Levels>(
    core: &mut Core<D, E, M>,
    process: LiveProcess,
    page: Vpn,
    frame: FrameNo,
    slot: SlotNo,
) -> bool
    requires hands { MayHandOver E.SectorDisk core.old frame.0 slot.0 page }
    requires has { HasAt (picture_of core.old) process page frame.0 }
    ensures { PassesShare E.SectorDisk frame.0 slot.0 process.pid page core.old core.new result }
{
    let alone = core.frames.count(frame) == 1;
    give_share(core, process, page, frame, slot);
    if alone {
        return true;
    }
    core.swap.share(slot);
    false
}

/// The same for the process of that number, where it lives and has the frame.
fn hand_one<D, E: SectorDisk, M: Levels>(
    core: &mut Core<D, E, M>,
    pid: usize,
    page: Vpn,
    frame: FrameNo,
    slot: SlotNo,
) -> bool
    requires hands { MayHandOver E.SectorDisk core.old frame.0 slot.0 page }
    requires number { pid < 65 }
    requires user { page < user_end M.mode }
    ensures { PassesShare E.SectorDisk frame.0 slot.0 pid page core.old core.new result }
{
    let Some(root) = core.roots[pid] else {
        return false;
    };
    if !is_own(entry_number(&core.frames, root, page), frame) {
        return false;
    }
    pass_share(core, LiveProcess { pid, root }, page, frame, slot)
}

/// Gives each process that has the private frame, at that page, the share of a slot in place of it. The slot has one share, for which no
/// entry names it yet, and the frame's bytes.
pub(crate) fn hand_over<D, E: SectorDisk, M: Levels>(
    core: &mut Core<D, E, M>,
    frame: FrameNo,
    page: u64,
    slot: SlotNo,
)
    requires { MayHandOver E.SectorDisk core.old frame.0 slot.0 page }
    ensures { HandsOver E.SectorDisk frame.0 slot.0 core.old core.new }
{
    let Some(at) = Vpn::new::<M>(page) else {
        unreachable!()
    };
    for pid in 1..PLACES {
        if hand_one(core, pid, at, frame, slot) {
            return;
        }
    }
    unreachable!()
}
