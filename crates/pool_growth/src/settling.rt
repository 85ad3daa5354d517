//! A store after a source's fault.
ghost use Rattle.pool_growth.specs.Settling.{IsReadyOnceSynced, Settles};

use disk_model::{DiskFault, SectorDisk};
use pool_store::PoolStore;

/// Syncs a store that a source's fault left in the midst of a commit of changes. No file has what is unsynced then, so every image that a stop may leave stands for what
/// it did before the call.
///
/// # Errors
///
/// A fault comes only where the device failed: the store is then as it was, and may be settled again.
pub fn settle<D: SectorDisk>(store: &mut PoolStore<D>) -> Result<(), DiskFault>
    requires { IsReadyOnceSynced D.SectorDisk store.old }
    ensures { Settles D.SectorDisk store.old store.new result }
{
    store.disk.sync()
}
