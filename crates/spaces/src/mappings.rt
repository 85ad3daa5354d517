//! mmap.
ghost use Rattle.std.specs.Prelude.{ℕ, ◌≡◌, ◌≤◌, ◌<◌, ◌+◌, ◌/◌, ◌^◌, Some, IfNone, IfSome, IfOk, OnOk, IfErr, true};
ghost use Rattle.vm_types.specs.Limits.{user_start, user_end};
ghost use Rattle.sized_stores.specs.Store.{files_of};
ghost use Rattle.regions.specs.RunList.{attr_at};
ghost use Rattle.vm_types.specs.Replies.{reply_of};
ghost use Rattle.vm_types.specs.Checks.{first_of, page_count};
ghost use Rattle.vm_types.specs.Mapping.{is_exact, is_taken, place_for};
ghost use Rattle.vm_types.specs.Objects.{free_object as new_number};
ghost use Rattle.vm_types.specs.Placement.{fixed_place, is_free};
ghost use Rattle.vm_types.specs.Runs.{run_count};
ghost use Rattle.vm_types.specs.declared.command.Command.TheVariants.{Mmap};
ghost use Rattle.vm_types.specs.declared.command.MapSource.TheVariants.{Common};
ghost use Rattle.ranges.specs.Rows.{without_maps};
ghost use Rattle.msync.specs.Shows.{IsSoundCore};
ghost use Rattle.residency.specs.Picture.{picture_of};
ghost use Rattle.residency.specs.Parts.{IsFit};
ghost use Rattle.spaces.specs.Calls.{Carries};
ghost use Rattle.spaces.specs.Ranges.{GivesPagesBack, EmptiesRange, first_mapped};
ghost use Rattle.spaces.specs.Mappings.{mmap_asked_checks, file_checks, place_checks, IsAsked, IsFitRow, IsMappable, MapsPages, IsNumbered, attr_there};
ghost use Rattle.spaces.specs.Space.{space_of};

use crate::region_room::RegionRoom;
use crate::requests::{MapRequest, Mapping};
use crate::space::PAGE;
use disk_model::SectorDisk;
use ranges::{free_object, remap};
use regions::Regions;
use residency::{Core, PLACES};
use sized_stores::SizedStore;
use vm_types::{
    Answer, Attr, Backing, Errno, FilePage, Levels, MapSource, ObjectPage, Pid, Placing,
    TooManyRuns, USER_START,
};

/// The most pages that a file can have, and one more than the largest number of a page.
const FILE_PAGES: u64 = 1 << 32;

/// Whether the address is one that the mapping must have.
fn is_exact(placing: Placing) -> bool
    ensures { result ≡ is_exact placing }
{
    match placing {
        Placing::Hint => false,
        Placing::Fixed | Placing::NoReplace => true,
    }
}

/// Why a mapping is refused, whatever its place.
fn refusal<D: SectorDisk>(store: &SizedStore<D>, request: MapRequest) -> Option<Errno>
    ensures asked { result ≡ first_of (mmap_asked_checks (files_of store.now) request.addr request.len request.prot request.source request.placing) }
    ensures fine { IfNone result (IsAsked request.len request.source) }
{
    let MapRequest {
        addr,
        len,
        prot,
        source,
        placing,
    } = request;
    if len == 0 {
        return Some(Errno::EINVAL);
    }
    if is_exact(placing) && addr % PAGE != 0 {
        return Some(Errno::EINVAL);
    }
    match source {
        MapSource::Anon => None,
        MapSource::Common => None,
        MapSource::Private { file, offset } => file_refusal(store, file, offset, len, false),
        MapSource::Shared { file, offset } => {
            file_refusal(store, file, offset, len, prot.is_writable())
        }
    }
}

/// Why pages of a file can't be mapped. `writes` says whether stores that reach the file are asked for.
fn file_refusal<D: SectorDisk>(
    store: &SizedStore<D>,
    file: u64,
    offset: u64,
    len: u64,
    writes: bool,
) -> Option<Errno>
    ensures asked { result ≡ first_of (file_checks (files_of store.now) file offset len writes) }
    ensures number { IfNone result (file < 2 ^ 16) }
    ensures fits { IfNone result (offset / 4096 + page_count len ≤ 2 ^ 32) }
{
    if offset % PAGE != 0 {
        return Some(Errno::EINVAL);
    }
    let Some(info) = store.info(file) else {
        return Some(Errno::EBADF);
    };
    if writes && info.read_only {
        return Some(Errno::EACCES);
    }
    if offset / PAGE + len.div_ceil(PAGE) > FILE_PAGES {
        return Some(Errno::EOVERFLOW);
    }
    None
}

/// The page of a file that an offset is in.
fn file_page(file: u64, offset: u64) -> FilePage
    requires file { file < 2 ^ 16 }
    requires page { offset / 4096 < 2 ^ 32 }
    ensures { result ≡ record { file = file; page = offset / 4096 } }
{
    FilePage {
        file: file as u16,
        page: (offset / PAGE) as u32,
    }
}

/// Goes over the processes; each has at most 256 runs.
fn count_runs<D, E, M: Levels>(core: &Core<D, E, M>)
    requires fit { IsFit (picture_of core.now) }
    ensures { (q : ℕ) → run_count M.mode ((picture_of core.now).at q) ≤ 256 }
{
    for number in 1..PLACES {
        let _ = runs_of(core, number as u64);
    }
}

/// How many runs the process of that number has.
fn runs_of<D, E, M: Levels>(core: &Core<D, E, M>, number: u64) -> usize
    requires fit { IsFit (picture_of core.now) }
    ensures { run_count M.mode ((picture_of core.now).at number) ≤ 256 }
{
    match core.live(number) {
        Some(pid) => core.regions(pid).runs(),
        None => 0,
    }
}

/// The first page of a new object, for a mapping of these pages.
// (never inlined: the search has a table of its own, for which no other call should pay)
#[inline(never)]
fn object_page<D, E, M: Levels>(
    core: &Core<D, E, M>,
    pid: Pid,
    first: u64,
    pages: u64,
) -> ObjectPage
    requires { IsFitRow (picture_of core.now) first pages }
    ensures number { result ≡ record { object = new_number (without_maps (picture_of core.now).at pid first pages); page = 0 } }
    ensures few { (q : ℕ) → run_count M.mode ((picture_of core.now).at q) ≤ 256 }
{
    count_runs(core);
    ObjectPage {
        object: free_object(core, pid, first, pages),
        page: 0,
    }
}

/// What the first page of a mapping of these pages is.
fn first_attr<D, E, M: Levels>(core: &Core<D, E, M>, pid: Pid, first: u64, mapping: Mapping) -> Attr
    requires row { IsFitRow (picture_of core.now) first mapping.pages }
    requires numbered { IsNumbered mapping.source }
    ensures attr { result ≡ attr_there (picture_of core.now).at pid mapping.pages mapping.source mapping.prot first }
    ensures few { mapping.source ≡ Common → (q : ℕ) → run_count M.mode ((picture_of core.now).at q) ≤ 256 }
{
    let backing = match mapping.source {
        MapSource::Anon => Backing::Anon,
        MapSource::Common => Backing::Common(object_page(core, pid, first, mapping.pages)),
        MapSource::Private { file, offset } => Backing::Private(file_page(file, offset)),
        MapSource::Shared { file, offset } => Backing::Shared(file_page(file, offset)),
    };
    Attr {
        prot: mapping.prot.kept(),
        backing,
    }
}

/// The place of a mapping that must be at its address; `None` where it isn't wholly in the user pages.
fn fixed_place<M: Levels>(addr: u64, pages: u64) -> Option<u64>
    requires { pages ≤ 2 ^ 52 }
    ensures { result ≡ fixed_place M.mode addr pages }
{
    let first = addr / PAGE;
    if first >= USER_START && first + pages <= M::user_end() {
        Some(first)
    } else {
        None
    }
}

/// The first page of a mapping of `pages` pages; `None` where there is no place for it.
fn place_of<M: Levels>(regions: &Regions<M>, addr: u64, pages: u64, placing: Placing) -> Option<u64>
    requires some { 0 < pages }
    requires few { pages ≤ 2 ^ 52 }
    ensures place { result ≡ place_for M.mode placing (space_of regions.now) addr pages }
    ensures user { IfSome result (λ first. (user_start ≤ first) × (first + pages ≤ user_end M.mode)) }
{
    match placing {
        Placing::Hint => match regions.place(addr, pages) {
            Some(first) => Some(first.get()),
            None => None,
        },
        Placing::Fixed | Placing::NoReplace => fixed_place::<M>(addr, pages),
    }
}

/// Whether no page of the row is mapped.
fn is_free<M: Levels>(regions: &Regions<M>, first: u64, pages: u64) -> bool
    requires { first + pages < 2 ^ 64 }
    ensures { result ≡ is_free (attr_at regions.now) first pages }
{
    match regions.next_run(first) {
        Some(run) => run.first >= first + pages,
        None => true,
    }
}

/// Whether a page of the place is mapped, and may not be replaced.
fn is_taken<M: Levels>(regions: &Regions<M>, first: u64, pages: u64, placing: Placing) -> bool
    requires { first + pages < 2 ^ 64 }
    ensures { result ≡ is_taken placing (space_of regions.now) pages (Some first) }
{
    match placing {
        Placing::Hint | Placing::Fixed => false,
        Placing::NoReplace => !is_free(regions, first, pages),
    }
}

/// Writes the regions with a mapping into `next`, and returns its first page; or says why its place is refused.
fn planned<D, E, M: Levels>(
    core: &Core<D, E, M>,
    pid: Pid,
    regions: &Regions<M>,
    mapping: Mapping,
    next: &mut Regions<M>,
) -> Result<u64, Errno>
    requires { IsMappable (picture_of core.now) mapping.source mapping.pages }
    ensures ok { IfOk result (λ first. MapsPages M.mode regions.now mapping.addr mapping.pages (attr_there (picture_of core.now).at pid mapping.pages mapping.source mapping.prot) mapping.placing first next.new) }
    ensures few { OnOk result (mapping.source ≡ Common → (q : ℕ) → run_count M.mode ((picture_of core.now).at q) ≤ 256) }
    ensures err { IfErr result (λ errno. first_of (place_checks M.mode mapping.placing (space_of regions.now) mapping.pages (attr_there (picture_of core.now).at pid mapping.pages mapping.source mapping.prot) (place_for M.mode mapping.placing (space_of regions.now) mapping.addr mapping.pages)) ≡ Some errno) }
{
    let Mapping {
        addr,
        pages,
        placing,
        ..
    } = mapping;
    let Some(first) = place_of(regions, addr, pages, placing) else {
        return Err(Errno::ENOMEM);
    };
    if is_taken(regions, first, pages, placing) {
        return Err(Errno::EEXIST);
    }
    let attr = first_attr(core, pid, first, mapping);
    match regions.replace_into(first, pages, attr, next) {
        Ok(()) => Ok(first),
        Err(TooManyRuns) => Err(Errno::ENOMEM),
    }
}

/// Maps the pages that so many bytes take, anonymous ones or those of a file from an offset on, and returns the mapping's
/// address, in bytes. Who may write there may read there as well (our choice). Anonymous pages that are shared are those of a new
/// object, with the least number of which no process has a page (our choice).
///
/// The errors of mmap(2), in our order: `ESRCH` where there is no such process; `EINVAL` where the length is 0, or the
/// address, if the mapping must have it, or the offset is no multiple of the page size; `EBADF` where there is no such
/// file; `EACCES` where stores to a file that may only be read are asked for; `EOVERFLOW` where the mapping would pass the
/// last page that a file can have; `ENOMEM` where there is no place for it; `EEXIST` where a page of the place is mapped
/// and may not be replaced; `ENOMEM` where more than 256 runs would result. A refused call changes nothing.
#[tactic(auto, using(crate::proofs::Returning::takes_none, crate::proofs::Returning::empties_none))]
pub fn mmap<D: SectorDisk, E: SectorDisk, M: Levels>(
    core: &mut Core<D, E, M>,
    room: &mut RegionRoom<M>,
    pid: u64,
    request: MapRequest,
) -> Answer
    requires sound { IsSoundCore D.SectorDisk E.SectorDisk core.old }
    ensures comes { Carries D.SectorDisk E.SectorDisk core.old core.new (Mmap pid request.addr request.len request.prot request.source request.placing) (reply_of result) }
    ensures keeps { GivesPagesBack D.SectorDisk E.SectorDisk core.old core.new pid (first_mapped (reply_of result)) (page_count request.len) (reply_of result) }
    ensures entries { EmptiesRange (picture_of core.old) (picture_of core.new) pid (first_mapped (reply_of result)) (page_count request.len) (reply_of result) }
{
    let Some(pid) = core.live(pid) else {
        return Answer::Refused(Errno::ESRCH);
    };
    if let Some(errno) = refusal(&core.store, request) {
        return Answer::Refused(errno);
    }
    let pages = request.len.div_ceil(PAGE);
    let regions = core.regions(pid);
    let next = room.next();
    let mapping = Mapping {
        addr: request.addr,
        pages,
        prot: request.prot,
        source: request.source,
        placing: request.placing,
    };
    match planned(core, pid, regions, mapping, next) {
        Ok(first) => {
            remap(core, pid, first, pages, next);
            Answer::Address(first * PAGE)
        }
        Err(errno) => Answer::Refused(errno),
    }
}
