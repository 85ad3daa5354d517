//! Which kind of store a device has.
ghost use Rattle.std.specs.Prelude.{◌<◌};
ghost use Rattle.stores.specs.Marks.{LooksAtMark};

use disk_model::{DiskFault, SECTOR_BYTES, SectorDisk};
use file_store::{MARK_SECTOR, is_pool_mark};

/// Whether the mark is that of a store whose pages stay in a pool.
pub(crate) fn has_pool<D: SectorDisk>(disk: &mut D) -> Result<bool, DiskFault>
    requires { 0 < D.sector_count disk.old }
    ensures { LooksAtMark D.SectorDisk disk.old disk.new result }
{
    let mut sector = [0; SECTOR_BYTES];
    disk.read(MARK_SECTOR, &mut sector)?;
    Ok(is_pool_mark(&sector))
}
