//! Pages of files and objects brought into memory.
ghost use Rattle.std.specs.Prelude.{◌≡◌, ◌≢◌, OnErr};
ghost use Rattle.vm_types.specs.declared.number.FrameNo.{FrameNo};
ghost use Rattle.page_cache.specs.declared.place.Place.TheVariants.{Home, Frame};
ghost use Rattle.residency.specs.Picture.{picture_of};
ghost use Rattle.fault.specs.PagingIn.{MayBring, PagesIn};

use disk_model::SectorDisk;
use page_cache::Place;
use residency::Core;
use vm_types::{FrameNo, Levels, PageKey, Stall};

/// The frame of a file page that begins inside its file, or of a page of an object that a process names. Where it lies in a
/// slot it is read from there, and the slot is given back; where it is at home a file page is read from the store, and a page of
/// an object is zeros.
///
/// # Errors
/// As `obtain`, where no frame is to be had; `SwapDevice` or `StoreDevice` where that device failed. Then the page stays where it
/// was.
pub fn cached<D: SectorDisk, E: SectorDisk, M: Levels>(
    core: &mut Core<D, E, M>,
    page: PageKey,
) -> Result<FrameNo, Stall>
    requires { MayBring D.SectorDisk E.SectorDisk core.old page }
    ensures pages_in { PagesIn D.SectorDisk E.SectorDisk core.old core.new page result }
    ensures idle { (n : FrameNo) → (picture_of core.old).place page ≡ Frame n → (core.new ≡ core.old) × OnErr result ⊥ }
{
    match core.cache.place(page) {
        Place::Frame(frame) => Ok(frame),
        place => bring(core, page, place),
    }
}

// The same of a page that lies in no frame, but at that place. (never inlined: a page that lies in a frame is not to pay for it)
#[inline(never)]
fn bring<D: SectorDisk, E: SectorDisk, M: Levels>(
    core: &mut Core<D, E, M>,
    page: PageKey,
    place: Place,
) -> Result<FrameNo, Stall>
    requires may { MayBring D.SectorDisk E.SectorDisk core.old page }
    requires place { (picture_of core.old).place page ≡ place }
    requires away { (n : FrameNo) → place ≢ Frame n }
    ensures { PagesIn D.SectorDisk E.SectorDisk core.old core.new page result }
{
    match place {
        Place::Frame(_) => unreachable!(),
        Place::Home => bring_home(core, page),
        Place::Slot(slot) => core.bring_back(page, slot),
    }
}

// Of a page that is at home.
fn bring_home<D: SectorDisk, E: SectorDisk, M: Levels>(
    core: &mut Core<D, E, M>,
    page: PageKey,
) -> Result<FrameNo, Stall>
    requires may { MayBring D.SectorDisk E.SectorDisk core.old page }
    requires home { (picture_of core.old).place page ≡ Home }
    ensures { PagesIn D.SectorDisk E.SectorDisk core.old core.new page result }
{
    match page {
        PageKey::File(page) => core.bring_in(page),
        PageKey::Object(page) => core.bring_blank(page),
    }
}
