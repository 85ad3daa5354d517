//! madvise with MADV_DONTNEED.
ghost use Rattle.std.specs.Prelude.{◌/◌};
ghost use Rattle.vm_types.specs.Checks.{page_count};
ghost use Rattle.vm_types.specs.Replies.{reply_of};
ghost use Rattle.vm_types.specs.declared.command.Command.TheVariants.{Dontneed};
ghost use Rattle.msync.specs.Shows.{IsSoundCore};
ghost use Rattle.residency.specs.Picture.{picture_of};
ghost use Rattle.spaces.specs.Calls.{Carries};
ghost use Rattle.spaces.specs.Ranges.{GivesPagesBack, EmptiesRange};

use crate::space::PAGE;
use disk_model::SectorDisk;
use ranges::clear_row;
use residency::Core;
use vm_types::{Answer, Errno, Levels};

/// Gives up the own copies of the pages of the range of `len` bytes from `addr` on (madvise(2), MADV_DONTNEED): each shows what
/// stands behind it again. File pages keep what was stored to them through shared pages, and stay touched.
///
/// In this order: `ESRCH` where there is no such process, `EINVAL` where the address is no multiple of the page size; a
/// length of 0 is done with; `ENOMEM` where a page isn't mapped. A refused call changes nothing, also over a hole.
#[tactic(auto, using(crate::proofs::Returning::takes_none, crate::proofs::Returning::empties_none))]
pub fn dontneed<D: SectorDisk, E: SectorDisk, M: Levels>(
    core: &mut Core<D, E, M>,
    pid: u64,
    addr: u64,
    len: u64,
) -> Answer
    requires sound { IsSoundCore D.SectorDisk E.SectorDisk core.old }
    ensures comes { Carries D.SectorDisk E.SectorDisk core.old core.new (Dontneed pid addr len) (reply_of result) }
    ensures keeps { GivesPagesBack D.SectorDisk E.SectorDisk core.old core.new pid 0 0 (reply_of result) }
    ensures entries { EmptiesRange (picture_of core.old) (picture_of core.new) pid (addr / 4096) (page_count len) (reply_of result) }
{
    let Some(pid) = core.live(pid) else {
        return Answer::Refused(Errno::ESRCH);
    };
    if addr % PAGE != 0 {
        return Answer::Refused(Errno::EINVAL);
    }
    if len == 0 {
        return Answer::Done;
    }
    let first = addr / PAGE;
    let pages = len.div_ceil(PAGE);
    if !core.regions(pid).covers(first, pages) {
        return Answer::Refused(Errno::ENOMEM);
    }
    clear_row(core, pid, first, pages);
    Answer::Done
}
