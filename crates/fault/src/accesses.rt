//! Accesses.
ghost use Rattle.std.specs.Prelude.{◌≡◌, true};
ghost use Rattle.sized_stores.specs.Store.{IsReadySized};
ghost use Rattle.swap.specs.Slots.{IsReady};
ghost use Rattle.residency.specs.Picture.{picture_of, is_live};
ghost use Rattle.residency.specs.Parts.{IsFit};
ghost use Rattle.fault.specs.Serving.{Reaches};

use crate::faults::fault;
use crate::finding::{Finding, find, place_in};
use crate::granting::grant;
use crate::refusal::AccessRefusal;
use disk_model::SectorDisk;
use residency::Core;
use vm_types::{Access, Levels, Phys, Pid, Width};

/// The place in memory of an access of a live process to the address, in bytes: of its first byte, and the others follow
/// in the same frame. A fetch is of width `Four`. The place is what the walk gives from the process's root (RISC-V Privileged
/// Specification, "Virtual Address Translation Process"), and the frame there holds the bytes that the page shows, where the page
/// lay in a slot as long as the swap device keeps its model. After a store's access it holds a copy that no other page has, or is that
/// of the shared page of a file or an object, which is touched now: the caller writes the bytes. Where the walk returns a place already nothing changes;
/// where no frame is wanted none is asked for, and nothing but the page's own entry changes. A frame that is wanted may be had by
/// giving up another, which nobody sees. The store is read only for the page's own file page, where that is at home.
/// Tables are made on the page's way alone. Of the store no sector is asked for but those of that page, and of swap none but those of
/// the slot that the page lies in, and where a frame has to be given up, and one that may be holds what has to go into a slot, of free
/// ones.
///
/// # Errors
/// `Fault` exactly where the access faults; then nothing changes. `Stall` only where the access is fine and a frame is wanted:
/// for a table on the page's way, for its own copy in a slot, for its file page, or for a copy of its own that a store is to reach.
/// `NoFrames` and `NoSwap` where that frame was refused, since memory or slots are short of what the processes have: none could be
/// given up but the one that a store copies. `SwapDevice` where the swap device failed; `StoreDevice` where the store device failed as
/// the file page was read from its home. Then no process and no file sees a change.
pub fn access<D: SectorDisk, E: SectorDisk, M: Levels>(
    core: &mut Core<D, E, M>,
    pid: Pid,
    addr: u64,
    width: Width,
    access: Access,
) -> Result<Phys, AccessRefusal>
    requires fit { IsFit (picture_of core.old) }
    requires store { IsReadySized D.SectorDisk core.old.store }
    requires swap { IsReady E.SectorDisk core.old.swap }
    requires lives { is_live (picture_of core.old) pid ≡ true }
    ensures { Reaches D.SectorDisk E.SectorDisk core.old core.new pid addr width access result }
{
    match find(core, pid, addr, width, access) {
        Finding::Place(place) => Ok(place),
        Finding::Fault(code) => Err(AccessRefusal::Fault(fault(access, code, addr))),
        Finding::Page(attr, way) => {
            let frame = grant(core, pid, &attr, way, access)?;
            Ok(place_in(frame, addr))
        }
    }
}
