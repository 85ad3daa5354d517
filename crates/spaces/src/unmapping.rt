//! munmap.
ghost use Rattle.std.specs.Prelude.{◌/◌};
ghost use Rattle.vm_types.specs.Checks.{page_count};
ghost use Rattle.vm_types.specs.Replies.{reply_of};
ghost use Rattle.vm_types.specs.declared.command.Command.TheVariants.{Munmap};
ghost use Rattle.msync.specs.Shows.{IsSoundCore};
ghost use Rattle.residency.specs.Picture.{picture_of};
ghost use Rattle.spaces.specs.Calls.{Carries};
ghost use Rattle.spaces.specs.Ranges.{GivesPagesBack, KeepsEntriesBeside};

use crate::region_room::RegionRoom;
use crate::space::PAGE;
use disk_model::SectorDisk;
use ranges::remap;
use residency::Core;
use vm_types::{Answer, Errno, Levels, TooManyRuns};

/// Removes the pages of the range of `len` bytes from `addr` on (munmap(2)), with their own copies; those that aren't
/// mapped are no error. What was stored to a file through a shared page stays; of an object, what a page still shows.
///
/// In this order: `ESRCH` where there is no such process, `EINVAL` where the length is 0 or the address is no multiple of
/// the page size, `ENOMEM` where more than 256 runs would result. A refused call changes nothing.
#[tactic(auto, using(crate::proofs::Returning::takes_none))]
pub fn munmap<D: SectorDisk, E: SectorDisk, M: Levels>(
    core: &mut Core<D, E, M>,
    room: &mut RegionRoom<M>,
    pid: u64,
    addr: u64,
    len: u64,
) -> Answer
    requires sound { IsSoundCore D.SectorDisk E.SectorDisk core.old }
    ensures comes { Carries D.SectorDisk E.SectorDisk core.old core.new (Munmap pid addr len) (reply_of result) }
    ensures keeps { GivesPagesBack D.SectorDisk E.SectorDisk core.old core.new pid (addr / 4096) (page_count len) (reply_of result) }
    ensures beside { KeepsEntriesBeside (picture_of core.old) (picture_of core.new) pid (addr / 4096) (page_count len) }
{
    let Some(pid) = core.live(pid) else {
        return Answer::Refused(Errno::ESRCH);
    };
    if len == 0 || addr % PAGE != 0 {
        return Answer::Refused(Errno::EINVAL);
    }
    let first = addr / PAGE;
    let pages = len.div_ceil(PAGE);
    let regions = core.regions(pid);
    let next = room.next();
    match regions.remove_into(first, pages, next) {
        Ok(()) => {
            let stop = M::user_end();
            let start = first.min(stop);
            let end = (first + pages).min(stop);
            remap(core, pid, start, end - start, next);
            Answer::Done
        }
        Err(TooManyRuns) => Answer::Refused(Errno::ENOMEM),
    }
}
