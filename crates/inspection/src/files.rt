//! Files as they are now.
ghost use Rattle.std.specs.Prelude.{◌≡◌, Some, None, IfSome, IfNone};
ghost use Rattle.std.specs.Option.{option_copied};
ghost use Rattle.sized_stores.specs.Store.{directory_of, files_in, shortest_of};
ghost use Rattle.inspection.specs.Files.{IsFileView};

use disk_model::SectorDisk;
use residency::Core;
use sized_stores::Size;
use vm_types::{FileInfo, Levels};

/// A file as it is.
#[derive(Clone, Copy, Debug, PartialEq, Eq)]
pub struct FileView {
    /// How many bytes it has.
    pub length: u64,
    /// How short it has been since its length was made durable: nothing is left of what it had from there on.
    pub shortest: u64,
    /// Whether it has got another length since then.
    pub is_resized: bool,
    pub is_read_only: bool,
}

/// A file; `None` exactly where there is none of that number.
pub(crate) fn file_view<D: SectorDisk, E, M: Levels>(
    core: &Core<D, E, M>,
    file: u16,
) -> Option<FileView>
    ensures some { IfSome result (IsFileView (directory_of core.now.store) file) }
    ensures none { IfNone result (files_in (directory_of core.now.store) file ≡ None) }
{
    let info = core.store.file(file)?;
    Some(FileView {
        length: info.length,
        shortest: shortest_of(info, core.store.sizes.get(usize::from(file))),
        is_resized: core.store.is_resized(file),
        is_read_only: info.read_only,
    })
}

// How short a file has been; as long as it is, where it can't get another length.
fn shortest_of(info: FileInfo, size: Option<&Size>) -> u64
    ensures { result ≡ shortest_of (Some info) (option_copied size.entry) }
{
    match size {
        Some(size) => size.shortest,
        None => info.length,
    }
}
