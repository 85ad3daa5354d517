//! A store taken up as it stands.
ghost use Rattle.std.specs.Prelude.{◌≡◌, ℕ, true, false, MatchResult};
ghost use Rattle.disk_model.specs.Moments.{Nothing};
ghost use Rattle.stores.specs.Images.{is_pool};
ghost use Rattle.stores.specs.Resumed.{ResumesFrom, ResumesWith, RefusesToResume};

use crate::faults::OpenFault;
use crate::marks::has_pool;
use crate::store::Store;
use disk_model::SectorDisk;
use file_store::FileStore;
use pool_store::PoolStore;
use std::alloc::Global;

impl<D: SectorDisk> Store<D> {
    /// Opens the store on a device of which nothing is unsynced, and leaves what stands in a slot where it is: of layout 4 nothing is written, and the next
    /// commit goes on from the map that the gate names. Of layout 2 an open journal is carried out, as by `open`. What the device did at first is what it does now, after every stop from now on, and at every moment of the call.
    ///
    /// It syncs nothing that it has not written. So that the device has nothing unsynced is asked of the caller: if a gate were written and
    /// not synced yet, a stop might still leave the one before, which names the other map, and that one the next commit writes.
    /// After a stop, or where the device may hold what another has written, take `open`.
    ///
    /// # Errors
    ///
    /// Those of `open`.
    pub fn resume(alloc: Global, disk: D) -> Result<Store<D>, (OpenFault, D)>
        requires synced { D.keeps_model disk → (k : ℕ) → D.unsynced disk k → ⊥ }
        ensures { MatchResult result (λ store. ResumesFrom D.SectorDisk disk store) (λ e. RefusesToResume D.SectorDisk disk e.0 e.1) }
    {
        // No store lies on a device without a sector.
        if disk.sectors() == 0 {
            return Err((OpenFault::BadLayout, disk));
        }
        let mut disk = disk;
        match has_pool(&mut disk) {
            Ok(true) => resume_pool(alloc, disk),
            Ok(false) => resume_journal(disk),
            Err(fault) => Err((OpenFault::from(fault), disk)),
        }
    }
}

/// Takes a store of layout 4 up.
fn resume_pool<D: SectorDisk>(alloc: Global, disk: D) -> Result<Store<D>, (OpenFault, D)>
    requires synced { D.keeps_model disk → (k : ℕ) → D.unsynced disk k → ⊥ }
    requires marked { D.keeps_model disk → is_pool (D.content disk) ≡ true }
    ensures { MatchResult result (λ store. ResumesWith D.SectorDisk Nothing disk store) (λ e. RefusesToResume D.SectorDisk disk e.0 e.1) }
{
    match PoolStore::resume(alloc, disk) {
        Ok(store) => Ok(Store::Pool(store)),
        Err((fault, disk)) => Err((OpenFault::from(fault), disk)),
    }
}

/// Takes a store of layout 2 up.
fn resume_journal<D: SectorDisk>(disk: D) -> Result<Store<D>, (OpenFault, D)>
    requires synced { D.keeps_model disk → (k : ℕ) → D.unsynced disk k → ⊥ }
    requires unmarked { D.keeps_model disk → is_pool (D.content disk) ≡ false }
    ensures { MatchResult result (λ store. ResumesWith D.SectorDisk Nothing disk store) (λ e. RefusesToResume D.SectorDisk disk e.0 e.1) }
{
    match FileStore::resume(disk) {
        Ok(store) => Ok(Store::Journal(store)),
        Err((fault, disk)) => Err((OpenFault::from(fault), disk)),
    }
}
