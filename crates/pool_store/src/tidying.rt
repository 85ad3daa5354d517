//! Homes at idle: all pages that stand in slots, copied home.
ghost use Rattle.pool_store.specs.{Store.{IsReadyPool}, Tidying.{TidiesStore}};

use crate::store::PoolStore;
use disk_model::{DiskFault, SectorDisk};

impl<D: SectorDisk> PoolStore<D> {
    /// Copies all pages that stand in slots to their homes, so that the next commits have no page to copy: `free_pages` is twice `body_pages`
    /// then. It takes 2 syncs, and nothing is done where no slot is given to a home. At every moment the store stands for what it did. It may
    /// be called between any two commits.
    ///
    /// # Errors
    ///
    /// An error comes exactly where the device failed: every image that a stop might have left stands for the same files, and the store is not
    /// ready until it is opened again.
    pub fn tidy(&mut self) -> Result<(), DiskFault>
        requires ready { IsReadyPool D.SectorDisk self.old }
        ensures { TidiesStore D.SectorDisk self.old self.new result }
    {
        self.journal.tidy(&mut self.disk)
    }
}
