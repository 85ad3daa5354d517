//! What pages of files and of shared anonymous memory show that lie in no frame and in no slot.
ghost use Rattle.std.specs.Prelude.{◌≡◌, false};
ghost use Rattle.inspection.specs.Machines.{files_kept};
ghost use Rattle.machine.specs.Machine.{halted_of, IsSoundMachine};
ghost use Rattle.ways.specs.Homes.{home_by, home_of};

use disk_model::SectorDisk;
use inspection::FileView;
use machine::Machine;
use vm_types::{PAGE_BYTES, PageKey};

/// What a page of a file or of shared anonymous memory shows where it lies in no frame and in no slot.
#[derive(Clone, Copy, Debug, PartialEq, Eq)]
pub enum HomeView {
    /// What the image has of it, with zeros from where its file was cut off since.
    Image,
    /// Zeros: nothing is left of what the image may have of it.
    Zeros,
    /// Nothing: it begins at or past the end of its file, or there is no such file.
    PastEnd,
}

/// What a page shows that lies in no frame and in no slot.
pub fn home_of<D: SectorDisk, E: SectorDisk>(machine: &Machine<D, E>, page: PageKey) -> HomeView
    requires { IsSoundMachine D.SectorDisk E.SectorDisk machine.now }
    ensures { halted_of machine.now ≡ false → result ≡ home_of (files_kept machine.now) page }
{
    match page {
        PageKey::File(page) => home_by(inspection::file_view(machine, page.file), page.page),
        PageKey::Object(_) => HomeView::Zeros,
    }
}

/// The same of a page of a file.
fn home_by(file: Option<FileView>, page: u32) -> HomeView
    ensures { result ≡ home_by file page }
{
    let first = PAGE_BYTES as u64 * u64::from(page);
    match file {
        Some(file) if file.length > first => {
            if file.shortest > first {
                HomeView::Image
            } else {
                HomeView::Zeros
            }
        }
        _ => HomeView::PastEnd,
    }
}
