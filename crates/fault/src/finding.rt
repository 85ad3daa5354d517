//! What an access finds.
ghost use Rattle.std.specs.Prelude.{◌≡◌, true, IfOk, IfErr};
ghost use Rattle.vm_types.specs.Verdict.{Faults, page_verdict};
ghost use Rattle.memory.specs.Lines.{address_in};
ghost use Rattle.residency.specs.Picture.{picture_of, is_live, view};
ghost use Rattle.residency.specs.Parts.{IsFit};
ghost use Rattle.fault.specs.Found.{FindsPlace, IsOpenTo};

use crate::faults::{is_past_end, lets};
use crate::processes::attr_at;
use disk_model::SectorDisk;
use memory::{WalkEnd, walk_page};
use residency::{Core, root_of};
use vm_types::{Access, Attr, Code, FrameNo, Levels, PAGE_BYTES, Phys, Pid, Vpn, Width};

// Bytes of a page, as a number of addresses.
const PAGE: u64 = PAGE_BYTES as u64;

/// What an access finds.
#[derive(Clone, Copy, Debug, PartialEq, Eq)]
pub(crate) enum Finding {
    /// Its place: the page's entry grants it.
    Place(Phys),
    /// A page whose entry doesn't grant it, though the access is fine: what it is, and the way to it.
    Page(Attr, Way),
    /// A fault.
    Fault(Code),
}

/// The way to a page, as it was walked.
#[derive(Clone, Copy, Debug, PartialEq, Eq)]
pub(crate) struct Way {
    /// The page.
    pub page: Vpn,
    /// The root table of the process.
    pub root: FrameNo,
    /// The lowest table; `None` where one is missing.
    pub table: Option<FrameNo>,
}

/// Looks for the page of an access of a live process. The tables decide where they grant it, since they grant no more than the
/// regions do; else the first of these that holds is the fault (its order is our choice; sigaction(2), si_code): the address
/// is no multiple of the width, its page isn't mapped, the permission lacks the access, the page lies past the file's end.
/// Nothing changes but what the buffer of translations has.
pub(crate) fn find<D: SectorDisk, E, M: Levels>(
    core: &mut Core<D, E, M>,
    pid: Pid,
    addr: u64,
    width: Width,
    access: Access,
) -> Finding
    requires fit { IsFit (picture_of core.old) }
    requires lives { is_live (picture_of core.old) pid ≡ true }
    ensures found { FindsPlace (picture_of core.old) pid addr width access result }
    ensures same { core.new ≡ core.old }
{
    if addr % u64::from(width.bytes()) != 0 {
        return Finding::Fault(Code::BusAdraln);
    }
    let Some(page) = Vpn::new::<M>(addr / PAGE) else {
        return Finding::Fault(Code::SegvMaperr);
    };
    let root = root_of(core, pid);
    match walk_page(&mut core.frames, root, page, access) {
        WalkEnd::Frame(frame) => Finding::Place(place_in(frame, addr)),
        WalkEnd::Fault(table) => match judge(core, pid, page, access) {
            Ok(attr) => Finding::Page(attr, Way { page, root, table }),
            Err(code) => Finding::Fault(code),
        },
    }
}

/// The address in that frame.
pub(crate) fn place_in(frame: FrameNo, addr: u64) -> Phys
    ensures { result ≡ address_in frame.0 addr }
{
    Phys(u64::from(frame.0) * PAGE + addr % PAGE)
}

// What a page is whose region and file let the access be done.
//
// # Errors
// The fault of the access.
fn judge<D: SectorDisk, E, M: Levels>(
    core: &Core<D, E, M>,
    pid: Pid,
    page: Vpn,
    access: Access,
) -> Result<Attr, Code>
    requires lives { is_live (picture_of core.now) pid ≡ true }
    ensures open { IfOk result (λ attr. IsOpenTo (picture_of core.now) pid page access attr) }
    ensures faults { IfErr result (λ code. page_verdict (picture_of core.now).files (view (picture_of core.now) pid page) access ≡ Faults code) }
{
    let Some(attr) = attr_at(core, pid, page) else {
        return Err(Code::SegvMaperr);
    };
    if !lets(access, attr.prot) {
        return Err(Code::SegvAccerr);
    }
    if is_past_end(&core.store, attr.backing) {
        return Err(Code::BusAdrerr);
    }
    Ok(attr)
}
