//! mprotect.
ghost use Rattle.std.specs.Prelude.{◌≡◌, ◌+◌, ◌/◌, ◌<◌, ◌^◌, Some, OnOk, IfErr, true};
ghost use Rattle.sized_stores.specs.Store.{files_of};
ghost use Rattle.vm_types.specs.Replies.{reply_of};
ghost use Rattle.vm_types.specs.Checks.{first_of, page_count};
ghost use Rattle.vm_types.specs.Counting.{any_below};
ghost use Rattle.vm_types.specs.Ranges.{denies_stores, is_guarded, is_guarded_page};
ghost use Rattle.vm_types.specs.declared.command.Command.TheVariants.{Mprotect};
ghost use Rattle.msync.specs.Shows.{IsSoundCore};
ghost use Rattle.residency.specs.Picture.{picture_of};
ghost use Rattle.spaces.specs.Calls.{Carries};
ghost use Rattle.spaces.specs.Ranges.{GivesPagesBack, PermitsRange};
ghost use Rattle.spaces.specs.Protections.{permit_checks, IsPermitted};
ghost use Rattle.spaces.specs.Space.{space_of};

use crate::region_room::RegionRoom;
use crate::requests::{PageRange, ProtectRequest};
use crate::space::PAGE;
use disk_model::SectorDisk;
use ranges::reprotect;
use regions::Regions;
use residency::Core;
use sized_stores::SizedStore;
use vm_types::{Answer, Backing, Errno, Levels, Prot, TooManyRuns};

/// Whether stores through a backing go to a file that may only be read.
fn is_guarded<D: SectorDisk>(store: &SizedStore<D>, backing: Backing) -> bool
    ensures { result ≡ is_guarded (files_of store.now) backing }
{
    match backing {
        Backing::Anon | Backing::Private(_) | Backing::Common(_) => false,
        Backing::Shared(page) => match store.file(page.file) {
            Some(info) => info.read_only,
            None => false,
        },
    }
}

/// Whether some page of the row is a shared one of a file that may only be read.
fn has_guarded<D: SectorDisk, M: Levels>(
    store: &SizedStore<D>,
    regions: &Regions<M>,
    range: PageRange,
) -> bool
    ensures { result ≡ any_below (λ i. is_guarded_page (files_of store.now) (space_of regions.now (range.first + i))) range.pages }
{
    let end = range.first + range.pages;
    let mut page = range.first;
    while let Some(run) = regions.next_run(page) {
        if run.first >= end {
            return false;
        }
        if is_guarded(store, run.attr.backing) {
            return true;
        }
        page = run.end;
    }
    false
}

/// Whether stores are asked for, and some page of the row is a shared one of a file that may only be read.
fn denies_stores<D: SectorDisk, M: Levels>(
    store: &SizedStore<D>,
    regions: &Regions<M>,
    range: PageRange,
    prot: Prot,
) -> bool
    ensures { result ≡ denies_stores (files_of store.now) (space_of regions.now) range.first range.pages prot }
{
    prot.is_writable() && has_guarded(store, regions, range)
}

/// Writes the regions with the permission for the pages of the range into `next`, or says why that is refused.
fn permitted<D: SectorDisk, M: Levels>(
    store: &SizedStore<D>,
    regions: &Regions<M>,
    range: PageRange,
    prot: Prot,
    next: &mut Regions<M>,
) -> Result<(), Errno>
    requires { 0 < range.pages }
    ensures ok { OnOk result (IsPermitted M.mode (files_of store.now) regions.now range.first range.pages prot next.new) }
    ensures err { IfErr result (λ errno. first_of (permit_checks M.mode (files_of store.now) (space_of regions.now) range.first range.pages prot) ≡ Some errno) }
{
    if !regions.covers(range.first, range.pages) {
        return Err(Errno::ENOMEM);
    }
    if denies_stores(store, regions, range, prot) {
        return Err(Errno::EACCES);
    }
    match regions.protect_into(range.first, range.pages, prot.kept(), next) {
        Ok(()) => Ok(()),
        Err(TooManyRuns) => Err(Errno::ENOMEM),
    }
}

/// Gives the pages of a range of bytes another permission (mprotect(2)). Who may write there may
/// read there as well (our choice).
///
/// In this order: `ESRCH` where there is no such process, `EINVAL` where the address is no multiple of the page size; a
/// length of 0 is done with; `ENOMEM` where a page isn't mapped, `EACCES` where stores to a file that may only be read
/// are asked for, `ENOMEM` where more than 256 runs would result. A refused call changes nothing, also over a hole.
#[tactic(auto, using(crate::proofs::Returning::takes_none, crate::proofs::Returning::permits_none))]
pub fn mprotect<D: SectorDisk, E: SectorDisk, M: Levels>(
    core: &mut Core<D, E, M>,
    room: &mut RegionRoom<M>,
    pid: u64,
    request: ProtectRequest,
) -> Answer
    requires sound { IsSoundCore D.SectorDisk E.SectorDisk core.old }
    ensures comes { Carries D.SectorDisk E.SectorDisk core.old core.new (Mprotect pid request.addr request.len request.prot) (reply_of result) }
    ensures keeps { GivesPagesBack D.SectorDisk E.SectorDisk core.old core.new pid 0 0 (reply_of result) }
    ensures entries { PermitsRange (picture_of core.old) (picture_of core.new) pid (request.addr / 4096) (page_count request.len) request.prot (reply_of result) }
    ensures swap { core.new.swap ≡ core.old.swap }
{
    let ProtectRequest { addr, len, prot } = request;
    let Some(pid) = core.live(pid) else {
        return Answer::Refused(Errno::ESRCH);
    };
    if addr % PAGE != 0 {
        return Answer::Refused(Errno::EINVAL);
    }
    if len == 0 {
        return Answer::Done;
    }
    let first = addr / PAGE;
    let pages = len.div_ceil(PAGE);
    let next = room.next();
    match permitted(
        &core.store,
        core.regions(pid),
        PageRange { first, pages },
        prot,
        next,
    ) {
        Ok(()) => {
            reprotect(core, pid, first, pages, prot.kept(), next);
            Answer::Done
        }
        Err(errno) => Answer::Refused(errno),
    }
}
