//! The page of an access, as it was before.
ghost use Rattle.std.specs.Prelude.{◌/◌, IfSome};
ghost use Rattle.machine.specs.Machine.{IsSoundMachine};
ghost use Rattle.ways.specs.WaySteps.{IsTargetAt};

use crate::attrs::attr_of;
use crate::way::Way;
use disk_model::SectorDisk;
use inspection::{PageView, Place};
use machine::Machine;
use sv39_walk::Pte;
use vm_types::{FrameNo, PAGE_BYTES, PageKey, Pid};

/// The page that an access is for, as it was before.
#[derive(Clone, Copy)]
pub struct Target {
    pub pid: Pid,
    /// The page's number.
    pub page: u64,
    /// Its entry; 0 where a table was missing.
    pub entry: Pte,
    /// Where it had no entry, what stands behind it.
    pub behind: Option<Behind>,
}

/// What stands behind a page: a page of a file or of shared anonymous memory.
#[derive(Clone, Copy)]
pub struct Behind {
    pub page: PageKey,
    pub view: PageView,
}

impl Target {
    /// The page of an access at that address; `None` where there is no such process, or the machine has halted.
    pub fn new<D: SectorDisk, E: SectorDisk>(
        machine: &Machine<D, E>,
        pid: u64,
        addr: u64,
    ) -> Option<Target>
        requires { IsSoundMachine D.SectorDisk E.SectorDisk machine.now }
        ensures { IfSome result (IsTargetAt machine.now pid (addr / 4096)) }
    {
        let pid = Pid::new(pid)?;
        let page = addr / PAGE_BYTES as u64;
        let way = Way::new(machine, pid, page);
        let entry = way.entry().unwrap_or(Pte(0));
        let behind = if entry.to_u64() == 0 {
            behind_of(machine, pid, page)
        } else {
            None
        };
        Some(Target {
            pid,
            page,
            entry,
            behind,
        })
    }

    /// The frame that the page has as its own by its entry of now, and had not before.
    pub fn gained(&self, now: Pte) -> Option<FrameNo> {
        if !now.is_private() || now.is_swapped() {
            return None;
        }
        let frame = u32::try_from(now.frame()).ok()?;
        let is_kept = self.entry.to_u64() != 0
            && !self.entry.is_swapped()
            && self.entry.frame() == now.frame();
        if is_kept { None } else { Some(FrameNo(frame)) }
    }
}

impl Behind {
    /// A page of a file or of shared anonymous memory as it is; `None` where the machine has halted.
    pub fn new<D: SectorDisk, E: SectorDisk>(
        machine: &Machine<D, E>,
        page: PageKey,
    ) -> Option<Behind>
        requires { IsSoundMachine D.SectorDisk E.SectorDisk machine.now }
    {
        let view = inspection::page_view(machine, page)?;
        Some(Behind { page, view })
    }

    /// Where that page was, if it is this one.
    pub fn place_of(&self, page: PageKey) -> Option<Place> {
        if self.page == page {
            Some(self.view.place)
        } else {
            None
        }
    }

    /// Whether that page is this one and was touched.
    pub fn knows_touched(&self, page: PageKey) -> bool {
        self.page == page && self.view.is_touched
    }
}

/// What stands behind a page of a process.
fn behind_of<D: SectorDisk, E: SectorDisk>(
    machine: &Machine<D, E>,
    pid: Pid,
    page: u64,
) -> Option<Behind>
    requires { IsSoundMachine D.SectorDisk E.SectorDisk machine.now }
{
    Behind::new(machine, attr_of(machine, pid, page)?.backing.stands_on()?)
}
