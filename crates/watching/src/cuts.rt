//! A file that gets another length.
ghost use Rattle.std.specs.Prelude.{◌≡◌, IfSome};
ghost use Rattle.vm_types.specs.Truncation.{is_cut_off};
ghost use Rattle.vm_types.specs.declared.region.Backing.TheVariants.{Private};
ghost use Rattle.machine.specs.Machine.{IsSoundMachine};

use disk_model::SectorDisk;
use machine::Machine;
use vm_types::{Backing, FilePage, PAGE_BYTES, PageKey};
use ways::Behind;

/// A file that is to get another length, or got it.
#[derive(Clone, Copy)]
pub(crate) struct Cut {
    pub file: u16,
    /// That length, in bytes.
    pub length: u64,
    /// The page within which the shorter one of both lengths ends, as it was before. It alone may be brought into a frame for that.
    pub end: Behind,
}

impl Cut {
    /// A file, by its number, that is to get this length. `None` where there is no such file, or the machine has halted.
    pub(crate) fn new<D: SectorDisk, E: SectorDisk>(
        machine: &Machine<D, E>,
        file: u64,
        length: u64,
    ) -> Option<Cut>
        requires { IsSoundMachine D.SectorDisk E.SectorDisk machine.now }
        ensures { IfSome result (λ cut. (cut.file ≡ file) × (cut.length ≡ length)) }
    {
        let file = u16::try_from(file).ok()?;
        let was = inspection::file_view(machine, file)?.length;
        let page = u32::try_from(was.min(length) / PAGE_BYTES as u64).ok()?;
        let end = Behind::new(machine, PageKey::File(FilePage { file, page }))?;
        Some(Cut { file, length, end })
    }

    /// Whether a page of a file is cut off: it is one of this file, and begins at or past its end.
    pub(crate) fn has(&self, page: FilePage) -> bool
        ensures { result ≡ is_cut_off self.now.file self.now.length (Private page) }
    {
        page.file == self.file && self.length <= PAGE_BYTES as u64 * u64::from(page.page)
    }

    /// Whether a page of a process that stands on this has lost its own copy.
    pub(crate) fn takes_copy(&self, backing: Backing) -> bool
        ensures { result ≡ is_cut_off self.now.file self.now.length backing }
    {
        match backing {
            Backing::Private(page) => self.has(page),
            _ => false,
        }
    }
}
