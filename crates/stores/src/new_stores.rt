//! New stores.
ghost use Rattle.std.specs.Prelude.{◌≡◌, ◌*◌, ◌-◌, ◌^◌, min};
ghost use Rattle.disk_model.specs.Sectors.{sector_bytes};
ghost use Rattle.file_store.specs.Format.{total_pages};
ghost use Rattle.stores.specs.NewStores.{store_sectors, FormatsNew, IsSizedNew};

use disk_model::SectorDisk;
use file_store::{FileSource, FormatFault};
use std::io::Read;

/// A store that is to be made.
#[derive(Clone, Copy, Debug, PartialEq, Eq)]
pub enum NewStore {
    /// Of layout 2, whose journal takes one commit.
    Journal,
    /// Of layout 4, with maps of so many blocks, 1 to 2,048. For each block its pool has 1,008 slots.
    Pool(u32),
}

/// Makes a store of these files, which get numbers and homes in the order of the sources (`file_store::format`, `pool_store::format`). A stop leaves an
/// image without the mark or a whole store.
///
/// # Errors
///
/// They are looked for in this order: `TooLarge` exactly where the files are too many or too large for the device; `Formatted` exactly where sector 0 is
/// the mark of any layout already, unless the device fails first; and as they occur `Device`, exactly where the device failed, and `Source`, where a
/// reader failed or ended early. To a device that has a mark nothing is written.
pub fn format<D: SectorDisk, R: Read>(
    disk: &mut D,
    store: NewStore,
    sources: &mut [FileSource<R>],
) -> Result<(), FormatFault>
    requires { IsSizedNew store }
    ensures { FormatsNew D.SectorDisk store R.remaining sources.old disk.old disk.new result }
{
    match store {
        NewStore::Journal => file_store::format(disk, sources),
        NewStore::Pool(blocks) => pool_store::format(disk, blocks, sources),
    }
}

/// How many bytes an image of these files has, whose homes end where it ends, or 2^64 - 1 where that is more: for their `H` pages in all
/// `512 * (8195 + 8 H)` of layout 2, and of layout 4 with maps of `M` blocks `512 * (48 + 8080 M + 8 H)`.
pub fn image_bytes<R>(store: NewStore, sources: &[FileSource<R>]) -> u64
    requires { IsSizedNew store }
    ensures { result ≡ min (sector_bytes * store_sectors store (total_pages sources.now)) (2 ^ 64 - 1) }
{
    match store {
        NewStore::Journal => file_store::image_bytes(sources),
        NewStore::Pool(blocks) => pool_store::image_bytes(blocks, sources),
    }
}
