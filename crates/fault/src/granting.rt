//! A page brought in, so that its entry grants an access.
ghost use Rattle.std.specs.Prelude.{◌≡◌, ◌≢◌, ℕ, true, false, None, Some};
ghost use Rattle.vm_types.specs.declared.access.Access.{Access};
ghost use Rattle.vm_types.specs.declared.access.Access.TheVariants.{Store};
ghost use Rattle.vm_types.specs.declared.region.Backing.TheVariants.{Private};
ghost use Rattle.vm_types.specs.Attributes.{stands_on};
ghost use Rattle.vm_types.specs.Verdict.{lets};
ghost use Rattle.residency.specs.Seats.{seat};
ghost use Rattle.residency.specs.Picture.{picture_of, entry, is_private, is_swapped};
ghost use Rattle.residency.specs.Parts.{IsBehind, is_shared};
ghost use Rattle.fault.specs.Found.{IsWayTo};
ghost use Rattle.fault.specs.Serving.{Serves};
ghost use Rattle.fault.specs.SpotServing.{MayServe, MayServeAt};

use crate::finding::Way;
use crate::linking::link_tables;
use crate::owning::own_frame;
use crate::page_in::cached;
use crate::showing::{ZERO_PAGE, regrant, show_cached, show_zero, touch};
use crate::spot::{Spot, number_at};
use crate::swapping::swap_in;
use disk_model::SectorDisk;
use residency::{Core, root_of};
use sv39_walk::Pte;
use vm_types::{Access, Attr, Backing, FilePage, FrameNo, Levels, PageKey, Pid, Stall, Vpn};

/// Makes the entry of a mapped page, which allows the access, grant it: first the tables on its way are made that are missing, then the
/// page is brought in from where it lies by then. Returns the frame that the page lies in.
///
/// # Errors
/// As `obtain`, where a frame is wanted and none is to be had; `SwapDevice` or `StoreDevice` where that device failed.
pub(crate) fn grant<D: SectorDisk, E: SectorDisk, M: Levels>(
    core: &mut Core<D, E, M>,
    pid: Pid,
    attr: &Attr,
    way: Way,
    access: Access,
) -> Result<FrameNo, Stall>
    requires may { MayServe D.SectorDisk E.SectorDisk core.old pid way.page attr.now access }
    requires way { IsWayTo (picture_of core.old) pid way }
    ensures { Serves D.SectorDisk E.SectorDisk core.old core.new pid way.page attr.now access result }
{
    let page = way.page;
    match way.table {
        Some(table) => {
            let root = way.root;
            let spot = Spot {
                pid,
                page,
                root,
                table,
            };
            grant_linked(core, &spot, attr, access)
        }
        None => grant_unlinked(core, pid, page, attr, access),
    }
}

/// Of a page on whose way a table may be missing. (never inlined: what it does once its tables are made stands in it a second time)
#[inline(never)]
fn grant_unlinked<D: SectorDisk, E: SectorDisk, M: Levels>(
    core: &mut Core<D, E, M>,
    pid: Pid,
    page: Vpn,
    attr: &Attr,
    access: Access,
) -> Result<FrameNo, Stall>
    requires may { MayServe D.SectorDisk E.SectorDisk core.old pid page attr.now access }
    ensures { Serves D.SectorDisk E.SectorDisk core.old core.new pid page attr.now access result }
{
    let table = link_tables(core, pid, page)?;
    let root = root_of(core, pid);
    let spot = Spot {
        pid,
        page,
        root,
        table,
    };
    grant_linked(core, &spot, attr, access)
}

/// Of a page on whose way no table is missing.
#[inline(always)]
fn grant_linked<D: SectorDisk, E: SectorDisk, M: Levels>(
    core: &mut Core<D, E, M>,
    spot: &Spot,
    attr: &Attr,
    access: Access,
) -> Result<FrameNo, Stall>
    requires may { MayServeAt D.SectorDisk E.SectorDisk core.old spot.now attr.now access }
    ensures { Serves D.SectorDisk E.SectorDisk core.old core.new spot.now.pid spot.now.page attr.now access result }
{
    let was = number_at(core, spot);
    if was.is_swapped() {
        return swap_in(core, spot, attr);
    }
    match access {
        Access::Load | Access::Fetch => grant_read(core, spot, attr, was),
        Access::Store => grant_store(core, spot, attr, was),
    }
}

/// Makes the entry of a page that doesn't lie in a slot grant loads or fetches, as its permission has them. `was` is what it was.
#[inline(always)]
fn grant_read<D: SectorDisk, E: SectorDisk, M: Levels>(
    core: &mut Core<D, E, M>,
    spot: &Spot,
    attr: &Attr,
    was: Pte,
) -> Result<FrameNo, Stall>
    requires may { (access : Access) × MayServeAt D.SectorDisk E.SectorDisk core.old spot.now attr.now access }
    requires was { was.0 ≡ entry (picture_of core.old) spot.now.pid spot.now.page }
    requires here { is_swapped (entry (picture_of core.old) spot.now.pid spot.now.page) ≡ false }
    ensures { (access : Access) → access ≢ Store → lets access attr.now.prot ≡ true → Serves D.SectorDisk E.SectorDisk core.old core.new spot.now.pid spot.now.page attr.now access result }
{
    if was.to_u64() != 0 {
        regrant(core, spot, attr);
        return Ok(was.frame_number());
    }
    match attr.backing.stands_on() {
        None => {
            show_zero(core, spot, attr);
            Ok(ZERO_PAGE)
        }
        Some(stored) => {
            let frame = cached(core, stored)?;
            show_cached(core, spot, attr, frame);
            Ok(frame)
        }
    }
}

/// Makes the entry of a page that doesn't lie in a slot grant stores. `was` is what it was.
fn grant_store<D: SectorDisk, E: SectorDisk, M: Levels>(
    core: &mut Core<D, E, M>,
    spot: &Spot,
    attr: &Attr,
    was: Pte,
) -> Result<FrameNo, Stall>
    requires may { MayServeAt D.SectorDisk E.SectorDisk core.old spot.now attr.now Store }
    requires was { was.0 ≡ entry (picture_of core.old) spot.now.pid spot.now.page }
    requires here { is_swapped (entry (picture_of core.old) spot.now.pid spot.now.page) ≡ false }
    ensures { Serves D.SectorDisk E.SectorDisk core.old core.new spot.now.pid spot.now.page attr.now Store result }
{
    match attr.backing {
        Backing::Anon => grant_own(core, spot, attr),
        Backing::Private(file_page) => {
            if was.is_private() {
                grant_own(core, spot, attr)
            } else {
                grant_copy(core, spot, attr, file_page)
            }
        }
        Backing::Shared(file_page) => grant_shared(core, spot, attr, &PageKey::File(file_page)),
        Backing::Common(object_page) => {
            grant_shared(core, spot, attr, &PageKey::Object(object_page))
        }
    }
}

/// Of a page that lies in a frame of its own, or behind which there are zeros.
fn grant_own<D: SectorDisk, E: SectorDisk, M: Levels>(
    core: &mut Core<D, E, M>,
    spot: &Spot,
    attr: &Attr,
) -> Result<FrameNo, Stall>
    requires may { MayServeAt D.SectorDisk E.SectorDisk core.old spot.now attr.now Store }
    requires here { is_swapped (entry (picture_of core.old) spot.now.pid spot.now.page) ≡ false }
    requires not_shared { is_shared attr.now.backing ≡ false }
    requires in_memory { is_private (entry (picture_of core.old) spot.now.pid spot.now.page) ≡ false → (n : ℕ) × IsBehind (picture_of core.old) attr.now.backing n }
    ensures { Serves D.SectorDisk E.SectorDisk core.old core.new spot.now.pid spot.now.page attr.now Store result }
{
    own_frame(core, spot, attr)
}

/// Of a private page of a file that has no copy of its own.
fn grant_copy<D: SectorDisk, E: SectorDisk, M: Levels>(
    core: &mut Core<D, E, M>,
    spot: &Spot,
    attr: &Attr,
    file_page: FilePage,
) -> Result<FrameNo, Stall>
    requires may { MayServeAt D.SectorDisk E.SectorDisk core.old spot.now attr.now Store }
    requires private { attr.now.backing ≡ Private file_page }
    requires none { seat (entry (picture_of core.old) spot.now.pid spot.now.page) ≡ None }
    ensures { Serves D.SectorDisk E.SectorDisk core.old core.new spot.now.pid spot.now.page attr.now Store result }
{
    cached(core, PageKey::File(file_page))?;
    own_frame(core, spot, attr)
}

/// Of a shared page of a file or an object.
fn grant_shared<D: SectorDisk, E: SectorDisk, M: Levels>(
    core: &mut Core<D, E, M>,
    spot: &Spot,
    attr: &Attr,
    stored: &PageKey,
) -> Result<FrameNo, Stall>
    requires may { MayServeAt D.SectorDisk E.SectorDisk core.old spot.now attr.now Store }
    requires shared { is_shared attr.now.backing ≡ true }
    requires stands { stands_on attr.now.backing ≡ Some stored.now }
    ensures { Serves D.SectorDisk E.SectorDisk core.old core.new spot.now.pid spot.now.page attr.now Store result }
{
    let frame = cached(core, *stored)?;
    touch(core, spot, attr, stored, frame);
    Ok(frame)
}
