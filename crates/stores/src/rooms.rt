//! Room for the next commit.
ghost use Rattle.std.specs.Prelude.{◌≤◌};
ghost use Rattle.stores.specs.Store.{capacity_in, kept_of, IsReadyStore};
ghost use Rattle.stores.specs.Rooms.{MakesRoomFor, TidiesStore};

use crate::store::Store;
use disk_model::{DiskFault, SectorDisk};

impl<D: SectorDisk> Store<D> {
    /// Makes room for a commit of so many pages, up to `capacity_pages`. As many are free already, and nothing is done, but of layout 4 where pages stand in
    /// too many slots: then all of them are copied home, as by `tidy`.
    ///
    /// # Errors
    ///
    /// `DiskFault` comes only where the device failed: every image that a stop might have left stands for what the store stood for, and the store is
    /// not ready until it is opened again.
    pub fn make_room_for(&mut self, count: usize) -> Result<(), DiskFault>
        requires ready { IsReadyStore D.SectorDisk self.old }
        requires most { count ≤ capacity_in (kept_of self.old) }
        ensures { MakesRoomFor D.SectorDisk count self.old self.new result }
    {
        if count <= self.free_pages() {
            return Ok(());
        }
        self.tidy()
    }

    /// Copies all pages that stand in slots of a pool to their homes, so that all slots are free: work for a moment of idleness, after which the next commit may take
    /// `capacity_pages`. It takes 2 syncs. Where no page stands in a slot, and of layout 2, nothing is done.
    ///
    /// # Errors
    ///
    /// Those of `make_room_for`.
    pub fn tidy(&mut self) -> Result<(), DiskFault>
        requires { IsReadyStore D.SectorDisk self.old }
        ensures { TidiesStore D.SectorDisk self.old self.new result }
    {
        match self {
            Store::Journal(_) => Ok(()),
            Store::Pool(store) => store.tidy(),
        }
    }
}
